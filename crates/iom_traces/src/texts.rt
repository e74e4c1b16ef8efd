//! What is told of lines.

ghost use Rattle.std.specs.Prelude.{◌≡◌, ◌+◌, ◌*◌, ◌++◌, ◌≤◌, codes, length};
ghost use Rattle.std.specs.List.{flat_map};
ghost use Rattle.iom_check.specs.Judging.{title};
ghost use Rattle.iom_debug.specs.Escaping.{escaped};
ghost use Rattle.iom_tool.specs.Room.{answer_room};
ghost use Rattle.iom_traces.specs.Texts.{allowed_text, bad_message, next_text, others_text, possible_text, refused_message, unclear_message, undecided_message, where_text};

use iom_core::Denial;
use iom_debug::{OutputPage, before_comment, put, put_escaped, put_slip};
use iom_judge::Possible;
use iom_text::hexadecimal;
use iom_tool::answer_text;

// Puts the address to which an access went.
fn put_where(out: &mut OutputPage, goes: Option<Result<u64, Denial>>)
    requires { length out.old.items + 22 ≤ 36864 }
    ensures text { out.new.items ≡ out.old.items ++ where_text goes }
    ensures room { length out.new.items ≤ length out.old.items + 22 }
{
    if let Some(Ok(addr)) = goes {
        put(out, b" at ");
        put(out, hexadecimal(addr).as_slice());
    }
}

// Puts a possible answer.
fn put_possible(out: &mut OutputPage, one: &Possible)
    requires { length out.old.items + 150 ≤ 36864 }
    ensures text { out.new.items ≡ out.old.items ++ possible_text one.now }
    ensures room { length out.new.items ≤ length out.old.items + 150 }
{
    put(out, answer_text(&one.answer).as_slice());
    put_where(out, one.goes);
}

// Puts one more.
fn put_next(out: &mut OutputPage, one: &Possible)
    requires { length out.old.items + 152 ≤ 36864 }
    ensures text { out.new.items ≡ out.old.items ++ next_text one.now }
    ensures room { length out.new.items ≤ length out.old.items + 152 }
{
    put(out, b", ");
    put_possible(out, one);
}

// Puts each of these.
fn put_each(out: &mut OutputPage, some: &[Possible])
    requires { length out.old.items + 152 * length some.now ≤ 36864 }
    ensures text { out.new.items ≡ out.old.items ++ flat_map next_text some.now }
    ensures room { length out.new.items ≤ length out.old.items + 152 * length some.now }
{
    for one in some {
        put_next(out, one);
    }
}

// Puts those behind the first.
fn put_others(out: &mut OutputPage, others: &[Possible])
    requires { length out.old.items + 1068 ≤ 36864 }
    ensures text { out.new.items ≡ out.old.items ++ others_text others.now }
    ensures room { length out.new.items ≤ length out.old.items + 1068 }
{
    put_each(out, &others[..others.len().min(7)]);
    if others.len() > 7 {
        put(out, b", ..");
    }
}

// Puts what is allowed.
fn put_allowed(out: &mut OutputPage, allowed: &[Possible])
    requires { length out.old.items + 1300 ≤ 36864 }
    ensures text { out.new.items ≡ out.old.items ++ allowed_text allowed.now }
    ensures room { length out.new.items ≤ length out.old.items + 1300 }
{
    match allowed.split_first() {
        Some((first, others)) => {
            put_possible(out, first);
            put_others(out, others);
        }
        None => put(out, b"nothing"),
    }
}

// Puts a line as a report shows it: without its comment, escaped.
fn put_title(out: &mut OutputPage, line: &[u8])
    requires line { length line.now ≤ 513 }
    requires room { length out.old.items + 2052 ≤ 36864 }
    ensures text { out.new.items ≡ out.old.items ++ title line.now }
    ensures room { length out.new.items ≤ length out.old.items + 2052 }
{
    put_escaped(out, before_comment(line));
}

// A page that begins with a line, and what was seen of it.
fn seen_page(line: &[u8], wish: &[u8]) -> OutputPage
    requires line { length line.now ≤ 513 }
    requires wish { length wish.now ≤ 513 }
    ensures text { result.items ≡ title line.now ++ codes ": seen " ++ escaped wish.now }
    ensures short { length result.items ≤ 4112 }
{
    let mut page = OutputPage::new();
    put_title(&mut page, line);
    put(&mut page, b": seen ");
    put_escaped(&mut page, wish);
    page
}

/// What is told of a line that no IOMMU could answer so: what was seen, and what is allowed.
#[tactic(auto, unfolding(crate::specs::Texts::refused_message))]
pub fn refused_message(line: &[u8], wish: &[u8], allowed: &[Possible]) -> OutputPage
    requires line { length line.now ≤ 513 }
    requires wish { length wish.now ≤ 513 }
    ensures text { result.items ≡ refused_message line.now wish.now allowed.now }
    ensures short { length result.items ≤ 5500 }
{
    let mut page = seen_page(line, wish);
    put(&mut page, b", allowed: ");
    put_allowed(&mut page, allowed);
    page
}

/// What is told of a line whose comment can't be read.
#[tactic(auto, unfolding(crate::specs::Texts::unclear_message))]
pub fn unclear_message(line: &[u8], wish: &[u8]) -> OutputPage
    requires line { length line.now ≤ 513 }
    requires wish { length wish.now ≤ 513 }
    ensures text { result.items ≡ unclear_message line.now wish.now }
    ensures short { length result.items ≤ 5500 }
{
    let mut page = seen_page(line, wish);
    put(&mut page, b", which is no answer");
    page
}

/// What is told of a line that isn't decided.
#[tactic(auto, unfolding(crate::specs::Texts::undecided_message))]
pub fn undecided_message(line: &[u8]) -> OutputPage
    requires line { length line.now ≤ 513 }
    ensures text { result.items ≡ undecided_message line.now }
    ensures short { length result.items ≤ 5500 }
{
    let mut page = OutputPage::new();
    put_title(&mut page, line);
    put(&mut page, b": undecided, too many states are possible");
    page
}

/// What is told of a line that can't be read, for this reason.
#[tactic(auto, unfolding(crate::specs::Texts::bad_message))]
pub fn bad_message(line: &[u8], slip: &[u8]) -> OutputPage
    requires line { length line.now ≤ 513 }
    requires slip { length slip.now ≤ answer_room }
    ensures text { result.items ≡ bad_message line.now slip.now }
    ensures short { length result.items ≤ 5500 }
{
    let mut page = OutputPage::new();
    put_title(&mut page, line);
    put(&mut page, b" -> bad");
    put_slip(&mut page, slip);
    page
}
