//! The text of a part of a walk.

ghost use Rattle.iom_tool.specs.Room.{answer_room};
ghost use Rattle.std.specs.Prelude.{◌≡◌, ◌↔◌, ◌+◌, ◌++◌, ◌<◌, ◌≤◌, ◌^◌, [], ◌∷◌, IsTrue, codes, length};
ghost use Rattle.iom_bits.specs.Causes.{cause_number};
ghost use Rattle.iom_text.specs.Texts.{numeral};
ghost use Rattle.iom_items.specs.Lines.{context_text, line_of, operand};
ghost use Rattle.iom_items.specs.declared.item.Item.TheVariants as item;
ghost use Rattle.iom_core.specs.State.{Machine};
ghost use Rattle.iom_core.specs.declared.access.Request.{Request};
ghost use Rattle.iom_tables.specs.Bounds.{PartFits};
ghost use Rattle.iom_ddt.specs.Formats.{context_format};
ghost use Rattle.iom_tables.specs.Fetches.{IsRead};
ghost use Rattle.iom_tool.specs.Debugger.{shown_text};
ghost use Rattle.iom_debug.specs.Walks.{IsBeforeEnd, end_text, file_row_text, file_text, file_word_text, first_text, got_text, in_text, item_text, met_text, mode_number, part_text, refusal_text, row_text, second_text, wide_text, word_text};
ghost use Rattle.iom_debug.specs.Ways.{address_text};

use iom_bits::{Cause, field};
use iom_core::{Denial, Platform, Request};
use iom_ddt::{Context, ContextFormat, DirectoryWord, Met, Refusal, why_refused};
use iom_items::{Item, context_line, item_line_on, pte_line};
use iom_nested::{FileRuling, file_ruling};
use iom_regs::Mode;
use iom_tables::{Part, Way, Wide};
use iom_text::decimal;
use iom_tool::ReplyDraft;
use iom_walk::{Got, PathEntry, Ruling};

/// Puts one part of the walk of a request as the tables stand now in place of what a draft holds: at most `ANSWER_ROOM` bytes, without a line
/// end. Its numbers are such as the tables may say, as those of each part that `put_parts` puts.
pub fn put_part(out: &mut ReplyDraft, platform: &Platform, request: &Request, part: &Part)
    requires { PartFits part.now }
    ensures text { out.new ≡ part_text platform.now.machine request.now part.now }
    ensures short { length out.new ≤ answer_room }
{
    out.clear();
    match part {
        Part::Ddtp { mode, root } => push_ddtp(out, *mode, *root),
        Part::Directory(met) => push_met(out, platform, met),
        Part::Wide(what) => push_wide(out, *what),
        Part::First { entry, addr } => push_first(out, entry, *addr),
        Part::Second { guest, entry } => push_second(out, *guest, entry),
        Part::File { guest, place, word } => push_file(out, *guest, *place, *word),
        Part::End(way) => push_end(out, way, way.address(request.iova)),
    }
}

/// Puts a context that a cache has in place of what a draft holds, as the head of the walk below it: `cached`, and the context's line in this
/// format.
pub fn put_cached(out: &mut ReplyDraft, format: ContextFormat, context: &Context)
    ensures text { out.new ≡ codes "cached " ++ context_text format context.now }
    ensures short { length out.new ≤ answer_room }
{
    out.clear();
    out.append(b"cached ");
    out.append(context_line(format, context).as_slice());
}

/// Whether two parts are equal, and neither is the end of a walk. Then they have the same text on IOMMUs with the same features, whatever
/// their walks are: the text of an end has its request's address too.
pub fn is_told_alike(part: &Part, other: &Part) -> bool
    ensures same { IsTrue result ↔ IsBeforeEnd part.now × (part.now ≡ other.now) }
    ensures alike { IsTrue result → (now before : Machine) (request asked : Request) → now.registers.features ≡ before.registers.features → IsRead (context_format now.registers.features) now.memory part.now → IsRead (context_format before.registers.features) before.memory other.now →
        part_text now request part.now ≡ part_text before asked other.now }
{
    is_same(part, other)
}

// Whether two parts are equal, and neither is an end.
fn is_same(part: &Part, other: &Part) -> bool
    ensures { IsTrue result ↔ IsBeforeEnd part.now × (part.now ≡ other.now) }
{
    match (part, other) {
        (
            Part::Ddtp { mode, root },
            Part::Ddtp {
                mode: its,
                root: other,
            },
        ) => mode == its && root == other,
        (Part::Directory(met), Part::Directory(other)) => met == other,
        (Part::Wide(what), Part::Wide(other)) => what == other,
        (
            Part::First { entry, addr },
            Part::First {
                entry: other,
                addr: its,
            },
        ) => entry == other && addr == its,
        (
            Part::Second { guest, entry },
            Part::Second {
                guest: its,
                entry: other,
            },
        ) => guest == its && entry == other,
        (
            Part::File { guest, place, word },
            Part::File {
                guest: its,
                place: other,
                word: first,
            },
        ) => guest == its && place == other && word == first,
        _ => false,
    }
}

// Appends a blank, a key, `=` and a number in hex.
#[inline(always)]
fn push_operand(out: &mut ReplyDraft, key: &[u8], value: u64)
    requires { length out.old + length key.now + 20 < answer_room }
    ensures text { out.new ≡ out.old ++ operand key.now value }
    ensures room { length out.new ≤ length out.old + length key.now + 20 }
{
    out.append(b" ");
    out.append(key);
    out.append(b"=");
    out.append_hexadecimal(value);
}

// Appends ddtp: its mode and its PPN.
fn push_ddtp(out: &mut ReplyDraft, mode: Mode, root: u64)
    requires { length out.old ≡ 0 }
    ensures text { out.new ≡ out.old ++ codes "ddtp" ++ operand (codes "mode") (mode_number mode) ++ operand (codes "root") root }
    ensures short { length out.new ≤ answer_room }
{
    let number = match mode {
        Mode::Off => 0,
        Mode::Bare => 1,
        Mode::Levels(levels) => u64::from(levels) + 1,
    };
    out.append(b"ddtp");
    push_operand(out, b"mode", number);
    push_operand(out, b"root", root);
}

// Appends a blank and the line of an item on this platform, or that a byte of it is outside memory.
fn push_item(out: &mut ReplyDraft, platform: &Platform, kind: Item, addr: u64)
    requires { length out.old ≤ 33 }
    ensures text { out.new ≡ out.old ++ codes " " ++ shown_text platform.now.machine.memory platform.now.machine.registers.features kind addr }
    ensures room { length out.new ≤ length out.old + 257 }
{
    out.append(b" ");
    match item_line_on(platform.ram(), platform.registers().features(), kind, addr) {
        Some(line) => out.append(line.as_slice()),
        None => out.append(b"outside"),
    }
}

// Appends a number below 256 in decimal.
#[tactic(auto, using(crate::proofs::Bounds::short_numeral))]
fn push_small(out: &mut ReplyDraft, number: u8)
    requires { length out.old + 3 ≤ answer_room }
    ensures text { out.new ≡ out.old ++ numeral 10 number }
    ensures room { length out.new ≤ length out.old + 3 }
{
    out.append(decimal(u64::from(number)).as_slice());
}

// The word of a context that has reserved bits.
#[tactic(auto, unfolding(crate::specs::Walks::word_text))]
fn word_text(which: DirectoryWord) -> &'static [u8]
    ensures text { result.now ≡ word_text which }
    ensures short { length result.now ≤ 11 }
{
    match which {
        DirectoryWord::Entry => b"",
        DirectoryWord::Tc => b" of tc",
        DirectoryWord::Ta => b" of ta",
        DirectoryWord::Fsc => b" of fsc",
        DirectoryWord::Msiptp => b" of msiptp",
        DirectoryWord::MsiAddrMask => b" of mask",
        DirectoryWord::MsiAddrPattern => b" of pattern",
        DirectoryWord::Last => b" of word 7",
    }
}

// Appends a range of bits.
fn push_bits(out: &mut ReplyDraft, high: u8, low: u8)
    requires { length out.old + 7 ≤ answer_room }
    ensures text { out.new ≡ out.old ++ numeral 10 high ++ codes ":" ++ numeral 10 low }
    ensures room { length out.new ≤ length out.old + 7 }
{
    push_small(out, high);
    out.append(b":");
    push_small(out, low);
}

// Appends why the directory refuses an item.
#[tactic(auto, unfolding(crate::specs::Walks::refusal_text))]
fn push_refusal(out: &mut ReplyDraft, refusal: Refusal)
    requires { length out.old ≤ 286 }
    ensures text { out.new ≡ out.old ++ refusal_text refusal }
    ensures short { length out.new ≤ answer_room }
{
    match refusal {
        Refusal::Outside => {}
        Refusal::Invalid => out.append(b" V=0"),
        Refusal::Reserved { which, high, low } => {
            out.append(b" reserved bits ");
            push_bits(out, high, low);
            out.append(word_text(which));
        }
        Refusal::Mode(mode) => {
            out.append(b" mode ");
            push_small(out, mode);
        }
        Refusal::SecondMode(mode) => {
            out.append(b" gmode ");
            push_small(out, mode);
        }
        Refusal::MsiMode(mode) => {
            out.append(b" msimode ");
            push_small(out, mode);
        }
        Refusal::Misaligned => out.append(b" gppn not aligned"),
    }
}

// Appends an item of the directory, and why it is refused.
#[tactic(auto, unfolding(crate::specs::Walks::met_text))]
fn push_met(out: &mut ReplyDraft, platform: &Platform, met: &Met)
    requires { length out.old ≡ 0 }
    ensures text { out.new ≡ out.old ++ met_text platform.now.machine.memory platform.now.machine.registers.features met.now }
    ensures short { length out.new ≤ answer_room }
{
    push_directory_item(out, platform, met);
    if let Some(refusal) = why_refused(platform.registers().features(), met) {
        push_refusal(out, refusal);
    }
}

// Appends an item of the directory.
fn push_directory_item(out: &mut ReplyDraft, platform: &Platform, met: &Met)
    requires { length out.old ≡ 0 }
    ensures text { out.new ≡ out.old ++ item_text platform.now.machine.memory platform.now.machine.registers.features met.now }
    ensures room { length out.new ≤ 286 }
{
    match met {
        Met::Entry { place, .. } => {
            out.append(b"dir");
            push_operand(out, b"at", *place);
            push_item(out, platform, Item::Dir, *place);
        }
        Met::Leaf { place, .. } => {
            out.append(b"context");
            push_operand(out, b"at", *place);
            push_item(out, platform, Item::Context, *place);
        }
    }
}

// Appends what is too wide for the directory or for a stage.
#[tactic(auto, unfolding(crate::specs::Walks::wide_text))]
fn push_wide(out: &mut ReplyDraft, what: Wide)
    requires { length out.old ≡ 0 }
    ensures text { out.new ≡ out.old ++ wide_text what }
    ensures short { length out.new ≤ answer_room }
{
    match what {
        Wide::Directory { did } => push_too_wide(out, b"dir", b"did", u64::from(did)),
        Wide::First { iova } => push_too_wide(out, b"first", b"iova", iova),
        Wide::Second { guest } => push_too_wide(out, b"second", b"guest", guest),
    }
}

// Appends a table, and an id or an address that is too wide for it.
fn push_too_wide(out: &mut ReplyDraft, table: &[u8], name: &[u8], value: u64)
    requires empty { length out.old ≡ 0 }
    requires table { length table.now ≤ 10 }
    requires name { length name.now ≤ 10 }
    ensures text { out.new ≡ out.old ++ table.now ++ operand name.now value ++ codes " width" }
    ensures short { length out.new ≤ answer_room }
{
    out.append(table);
    push_operand(out, name, value);
    out.append(b" width");
}

// Appends the line of an entry of a page table.
fn push_pte(out: &mut ReplyDraft, word: u64)
    requires { length out.old ≤ 128 }
    ensures text { out.new ≡ out.old ++ line_of ContextFormat.Base item.Pte (word ∷ []) }
    ensures room { length out.new ≤ length out.old + 64 }
{
    out.append(pte_line(word).as_slice());
}

// Appends what was read of an entry.
#[tactic(auto, unfolding(crate::specs::Walks::got_text))]
fn push_got(out: &mut ReplyDraft, got: Got)
    requires { length out.old ≤ 127 }
    ensures text { out.new ≡ out.old ++ got_text got }
    ensures room { length out.new ≤ length out.old + 65 }
{
    if let Got::Word(word) = got {
        out.append(b" ");
        push_pte(out, word);
    }
}

// Appends the row that decides.
#[tactic(auto, unfolding(crate::specs::Walks::row_text))]
fn push_row(out: &mut ReplyDraft, ruling: Ruling)
    requires { length out.old ≤ 300 }
    ensures text { out.new ≡ out.old ++ row_text ruling }
    ensures short { length out.new ≤ answer_room }
{
    match ruling {
        Ruling::Outside => out.append(b" outside memory"),
        Ruling::Guest => out.append(b" guest fault"),
        Ruling::Invalid => out.append(b" V=0"),
        Ruling::WriteOnly => out.append(b" R=0 W=1"),
        Ruling::Reserved => out.append(b" reserved bits"),
        Ruling::ReservedInPointer => out.append(b" reserved in pointer"),
        Ruling::LastLevel => out.append(b" last level"),
        Ruling::Pointer => out.append(b" pointer"),
        Ruling::Misaligned => out.append(b" misaligned"),
        Ruling::NotUser => out.append(b" U"),
        Ruling::NotReadable => out.append(b" R"),
        Ruling::NotWritable => out.append(b" W"),
        Ruling::NotAccessed => out.append(b" A"),
        Ruling::NotDirty => out.append(b" D"),
        Ruling::Leaf => out.append(b" leaf"),
    }
}

// Appends where an entry of the first stage was read.
fn push_in(out: &mut ReplyDraft, addr: Option<u64>)
    requires { length out.old ≤ 100 }
    ensures text { out.new ≡ out.old ++ in_text addr }
    ensures room { length out.new ≤ length out.old + 22 }
{
    match addr {
        Some(addr) => push_operand(out, b"in", addr),
        None => out.append(b" in=-"),
    }
}

// Appends an entry of the first stage.
#[tactic(auto, unfolding(crate::specs::Walks::first_text))]
fn push_first(out: &mut ReplyDraft, entry: &PathEntry, addr: Option<u64>)
    requires { length out.old ≡ 0 }
    ensures text { out.new ≡ out.old ++ first_text entry.now addr }
    ensures short { length out.new ≤ answer_room }
{
    out.append(b"first");
    push_operand(out, b"level", u64::from(entry.level));
    push_operand(out, b"at", entry.place);
    push_in(out, addr);
    push_got(out, entry.got);
    push_row(out, entry.ruling);
}

// Appends an entry of the second stage.
#[tactic(auto, unfolding(crate::specs::Walks::second_text))]
fn push_second(out: &mut ReplyDraft, guest: u64, entry: &PathEntry)
    requires { length out.old ≡ 0 }
    ensures text { out.new ≡ out.old ++ second_text guest entry.now }
    ensures short { length out.new ≤ answer_room }
{
    out.append(b"second");
    push_operand(out, b"of", guest);
    push_operand(out, b"level", u64::from(entry.level));
    push_operand(out, b"at", entry.place);
    push_got(out, entry.got);
    push_row(out, entry.ruling);
}

// Appends the row that decides of the entry of an interrupt file with this first word.
#[tactic(auto, unfolding(crate::specs::Walks::file_row_text))]
fn push_file_row(out: &mut ReplyDraft, word: u64, ruling: FileRuling)
    requires { length out.old ≤ 128 }
    ensures text { out.new ≡ out.old ++ file_row_text word ruling }
    ensures room { length out.new ≤ length out.old + 40 }
{
    match ruling {
        FileRuling::Outside => out.append(b" outside memory"),
        FileRuling::Invalid => out.append(b" V=0"),
        FileRuling::Custom => out.append(b" for custom use, C=1"),
        FileRuling::BadMode => out.append(b" reserved mode, M=0 or M=2"),
        FileRuling::Resident => out.append(b" memory-resident interrupt file, M=1"),
        FileRuling::Reserved => out.append(b" reserved bit set"),
        FileRuling::Leads => {
            out.append(b" leads to ");
            out.append_hexadecimal(field(word, 10, 44) * 4096);
        }
    }
}

// Appends the first word of the entry of an interrupt file, and the row that decides.
#[tactic(auto, unfolding(crate::specs::Walks::file_word_text))]
fn push_file_word(out: &mut ReplyDraft, word: Option<u64>)
    requires { length out.old ≤ 100 }
    ensures text { out.new ≡ out.old ++ file_word_text word }
    ensures room { length out.new ≤ length out.old + 65 }
{
    match word {
        None => push_file_row(out, 0, FileRuling::Outside),
        Some(first) => {
            out.append(b" u64 ");
            out.append_hexadecimal(first);
            push_file_row(out, first, file_ruling(word));
        }
    }
}

// Appends the entry of an interrupt file.
#[tactic(auto, unfolding(crate::specs::Walks::file_text))]
fn push_file(out: &mut ReplyDraft, guest: u64, place: u64, word: Option<u64>)
    requires { length out.old ≡ 0 }
    ensures text { out.new ≡ out.old ++ file_text guest place word }
    ensures short { length out.new ≤ answer_room }
{
    out.append(b"msi");
    push_operand(out, b"of", guest);
    push_operand(out, b"at", place);
    push_file_word(out, word);
}

// Appends the cause of a denial.
fn push_denied(out: &mut ReplyDraft, cause: Cause)
    requires { length out.old ≤ 128 }
    ensures text { out.new ≡ out.old ++ codes "denied " ++ numeral 10 (cause_number cause) }
    ensures room { length out.new ≤ length out.old + 27 }
{
    out.append(b"denied ");
    out.append(decimal(u64::from(cause.number())).as_slice());
}

// Appends an address, or the cause of a denial.
fn push_address(out: &mut ReplyDraft, address: Result<u64, Denial>)
    requires { length out.old ≤ 128 }
    ensures text { out.new ≡ out.old ++ address_text address }
    ensures room { length out.new ≤ length out.old + 27 }
{
    match address {
        Ok(addr) => {
            out.append(b"addr=");
            out.append_hexadecimal(addr);
        }
        Err(denial) => push_denied(out, denial.cause),
    }
}

// Appends the end of a walk.
#[tactic(auto, unfolding(crate::specs::Walks::end_text))]
fn push_end(out: &mut ReplyDraft, way: &Way, address: Result<u64, Denial>)
    requires { length out.old ≡ 0 }
    ensures text { out.new ≡ out.old ++ end_text way.now address }
    ensures short { length out.new ≤ answer_room }
{
    match way {
        Way::Register => out.append(b"register "),
        Way::Context(_) => out.append(b"context "),
        Way::Walked(_, hit) => {
            out.append(b"frame=");
            out.append_hexadecimal(hit.frame);
            out.append(b" ");
        }
        Way::Denied(_) => {}
    }
    push_address(out, address);
    if let Way::Denied(denial) = way {
        push_operand(out, b"iotval2", denial.iotval2);
    }
}
