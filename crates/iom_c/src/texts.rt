//! Lines of the script, the words of refusals, and texts of images.

ghost use Rattle.iom_tool.specs.Room.{answer_room};
ghost use Rattle.std.specs.Prelude.{◌≡◌, ◌≢◌, ◌<◌, ◌≤◌, [], length, IfNone, IfSome, IsSomeAnd, None, Some};
ghost use Rattle.std.specs.Result.{IsErrAnd, IsOkAnd};
ghost use Rattle.iom_asm.specs.Assembly.{assembled, Makes};
ghost use Rattle.iom_c.specs.Buffers.{begun_by, cut_in, reply_to, told_in};
ghost use Rattle.iom_tool.specs.Script.{line_of, step_in};
ghost use Rattle.iom_tool.specs.Texts.{text_of};
ghost use Rattle.iom_c.specs.Faults.{asm_number, cause_words, HasNoLine, line_in, little_room, ok, out_of_memory, status_other_memory, words_for};
ghost use Rattle.iom_c.specs.Handles.{After, answer_in, IsItsMemory, OfOwn, Stepped};
ghost use Rattle.iom_c.specs.declared.owned.Owned.{Owned};

use crate::handle::Handle;
use crate::held::Held;
use crate::owned::{Owned, carry_out};
use iom_asm::{AsmFault, assemble};
use iom_core::{Platform, Step};
use iom_tool::{ANSWER_ROOM, Console, Reply, Trace, answer_text, step_of};
use std::alloc::Global;

// Puts a text and a 0 behind it, and how many bytes it has.
fn put_text(text: &[u8], out: &mut [u8], count: &mut usize)
    requires { length text.now < length out.old }
    ensures text { out.new ≡ told_in text.now out.old }
    ensures count { count.new ≡ length text.now }
{
    out[..text.len()].copy_from_slice(text);
    out[text.len()] = 0;
    *count = text.len();
}

/// Puts as much of a text as has room with a 0 behind it, nothing where there is no room, and how many bytes the text has.
pub fn put_cut(text: &[u8], out: &mut [u8], count: &mut usize)
    ensures text { out.new ≡ cut_in text.now out.old }
    ensures count { count.new ≡ length text.now }
{
    if !out.is_empty() {
        let most = out.len() - 1;
        put_text(&text[..text.len().min(most)], out, count);
    }
    *count = text.len();
}

// Carries out a step that a line is.
fn answer_step(own: &mut Owned, step: Step) -> Reply
    requires { IsItsMemory own.old [] }
    ensures reply { result.items ≡ text_of (answer_in own.old [] step) }
    ensures after { Stepped own.old [] step [] own.new }
{
    let answer = carry_out(own, &mut [], &step);
    let reply = answer_text(&answer);
    own.trace.keep(step, answer);
    reply
}

// Answers a line that is no step.
fn answer_to(platform: &mut Platform, trace: &mut Trace, line: &[u8]) -> Reply
    requires { step_in (line_of line.now) ≡ None }
    ensures reply { result.items ≡ reply_to platform.old trace.old line.now }
    ensures platform { platform.new ≡ platform.old }
    ensures trace { trace.new ≡ trace.old }
{
    Console::new(platform, trace).line(line)
}

// Carries out a line; None if the memory isn't the platform's own.
fn answer_line(own: &mut Owned, line: &[u8]) -> Option<Reply>
    ensures { OfOwn own.old.held
        (λ platform. IsSomeAnd result (λ reply. (reply.items ≡ reply_to platform own.old.trace line.now) × After own.old (line_of line.now) own.new))
        ((result ≡ None) × (own.new ≡ own.old)) }
{
    if let Held::Lent(_) = own.held {
        return None;
    }
    if let Some(step) = step_of(line) {
        return Some(answer_step(own, step));
    }
    match &mut own.held {
        Held::Own(platform) => Some(answer_to(platform, &mut own.trace, line)),
        Held::Lent(_) => None,
    }
}

// Puts a reply that there may be; 15 if there is none.
fn put_reply(reply: Option<Reply>, out: &mut [u8], count: &mut usize) -> u32
    requires { answer_room < length out.old }
    ensures some { IfSome reply (λ it. (result ≡ ok) × (out.new ≡ told_in it.items out.old) × (count.new ≡ length it.items)) }
    ensures none { IfNone reply ((result ≡ status_other_memory) × (out.new ≡ out.old) × (count.new ≡ count.old)) }
{
    let Some(reply) = reply else {
        return 15;
    };
    put_text(reply.as_slice(), out, count);
    0
}

/// Carries out a line of the script, given without its line end, and puts the text of its answer with a 0 behind it, and in `count` how
/// many bytes the text has: none for a blank line. It answers 0; 11 if there is room for less than 321 bytes; or 15 if the memory isn't the
/// platform's own. Unless it is 0, nothing is done.
#[unsafe(no_mangle)]
pub extern "C" fn rviommu_line(
    alloc: Global,
    handle: &mut Handle,
    line: &[u8],
    answer: &mut [u8],
    count: &mut usize,
) -> u32
    ghost own: { Owned }
    requires open { handle.old.held ≡ Some own }
    ensures told { answer_room < length answer.old → OfOwn own.held (λ platform. result ≡ ok) (result ≡ status_other_memory) }
    ensures answer { answer_room < length answer.old →
        OfOwn own.held (λ platform. answer.new ≡ told_in (reply_to platform own.trace line.now) answer.old) (answer.new ≡ answer.old) }
    ensures count { answer_room < length answer.old →
        OfOwn own.held (λ platform. count.new ≡ length (reply_to platform own.trace line.now)) (count.new ≡ count.old) }
    ensures after { answer_room < length answer.old →
        OfOwn own.held (λ platform. IsSomeAnd handle.new.held (After own (line_of line.now))) (handle.new.held ≡ Some own) }
    ensures little { length answer.old ≤ answer_room →
        (result ≡ little_room) × (answer.new ≡ answer.old) × (count.new ≡ count.old) × (handle.new.held ≡ Some own) }
{
    if answer.len() <= ANSWER_ROOM {
        return 11;
    }
    let mut owned = handle.take(alloc);
    let reply = answer_line(&mut owned, line);
    *handle = Handle::of(owned);
    put_reply(reply, answer, count)
}

// The words of a number above 21.
fn judge_words(number: u32) -> &'static [u8]
    requires { 21 < number }
    ensures words { result.now ≡ words_for number }
    ensures short { length result.now < 32 }
{
    match number {
        22 => b"refused",
        23 => b"undecided",
        24 => b"undecided before",
        25 => b"bad window",
        _ => b"no such number",
    }
}

// The words of a number.
fn words_for(number: u32) -> &'static [u8]
    ensures words { result.now ≡ words_for number }
    ensures short { length result.now < 32 }
{
    match number {
        0 => b"ok",
        1 => b"bad magic",
        2 => b"truncated",
        3 => b"trailing bytes",
        4 => b"bad memory",
        5 => b"bad chunk",
        6 => b"bad device",
        7 => b"out of memory",
        8 => b"bad line",
        9 => b"overlap",
        10 => b"outside memory",
        11 => b"too little room",
        12 => b"no such disk",
        13 => b"not there",
        14 => b"bad capabilities",
        15 => b"other memory",
        16 => b"not a saved platform",
        17 => b"other version",
        18 => b"holdings not kept",
        19 => b"unsettled",
        20 => b"caches not empty",
        21 => b"memory still named",
        _ => judge_words(number),
    }
}

/// Writes the words for a refusal's number and a 0 after them, and to `count` their length. Answers 0; or 11 if there is room for less than
/// 32 bytes, and then nothing is changed.
#[unsafe(no_mangle)]
pub extern "C" fn rviommu_text(number: u32, text: &mut [u8], count: &mut usize) -> u32
    ensures told { 31 < length text.old → result ≡ ok }
    ensures text { 31 < length text.old → text.new ≡ told_in (words_for number) text.old }
    ensures count { 31 < length text.old → count.new ≡ length (words_for number) }
    ensures little { length text.old ≤ 31 → (result ≡ little_room) × (text.new ≡ text.old) × (count.new ≡ count.old) }
{
    if text.len() <= 31 {
        return 11;
    }
    put_text(words_for(number), text, count);
    0
}

// The name of a cause.
fn cause_words(cause: u64) -> &'static [u8]
    ensures words { result.now ≡ cause_words cause }
    ensures short { length result.now < 48 }
{
    match cause {
        5 => b"read access fault",
        7 => b"write access fault",
        13 => b"read page fault",
        15 => b"write page fault",
        21 => b"read guest page fault",
        23 => b"write guest page fault",
        256 => b"all inbound transactions disallowed",
        257 => b"DDT entry load access fault",
        258 => b"DDT entry not valid",
        259 => b"DDT entry misconfigured",
        260 => b"transaction type disallowed",
        261 => b"MSI PTE load access fault",
        262 => b"MSI PTE not valid",
        263 => b"MSI PTE misconfigured",
        _ => b"no such cause",
    }
}

/// Writes the name of a cause of a denial, CAUSE of a fault record, and a 0 after it, and to `count` its length. Answers 0; or 11 if there
/// is room for less than 48 bytes, and then nothing is changed.
#[unsafe(no_mangle)]
pub extern "C" fn rviommu_cause_text(cause: u64, text: &mut [u8], count: &mut usize) -> u32
    ensures told { 47 < length text.old → result ≡ ok }
    ensures text { 47 < length text.old → text.new ≡ told_in (cause_words cause) text.old }
    ensures count { 47 < length text.old → count.new ≡ length (cause_words cause) }
    ensures little { length text.old ≤ 47 → (result ≡ little_room) × (text.new ≡ text.old) × (count.new ≡ count.old) }
{
    if text.len() <= 47 {
        return 11;
    }
    put_text(cause_words(cause), text, count);
    0
}

// The number of an assembler's refusal; puts the line with the fault.
fn asm_number(fault: AsmFault, line: &mut u64) -> u32
    ensures told { result ≡ asm_number fault }
    ensures line { line.new ≡ line_in fault line.old }
    ensures left { HasNoLine result → line.new ≡ line.old }
{
    let (number, at) = match fault {
        AsmFault::BadLine(at) => (8, at),
        AsmFault::Overlap(at) => (9, at),
        AsmFault::Outside(at) => (10, at),
        AsmFault::OutOfMemory => return 7,
    };
    *line = at;
    number
}

/// Assembles a text into the bytes of an image, and puts in `count` how many they are. It answers 0; 11 if there is too little room for
/// them; 7 if there is no memory; or 8 for a bad line, 9 for an overlap and 10 for bytes outside memory, and puts in `line` which line it
/// is, from 1 on. `image` is unchanged unless it answers 0, `count` unless it answers 0 or 11, and `line` unless it answers 8, 9 or 10.
#[unsafe(no_mangle)]
pub extern "C" fn rviommu_assemble(
    alloc: Global,
    text: &[u8],
    image: &mut [u8],
    count: &mut usize,
    line: &mut u64,
) -> u32
    ensures image { result ≡ ok → IsOkAnd (assembled text.now)
        (λ bytes. (image.new ≡ begun_by bytes image.old) × (count.new ≡ length bytes)) }
    ensures little { result ≡ little_room → IsOkAnd (assembled text.now)
        (λ bytes. (length image.old < length bytes) × (count.new ≡ length bytes)) }
    ensures refused { result ≢ ok → result ≢ little_room → result ≢ out_of_memory → IsErrAnd (assembled text.now)
        (λ fault. (result ≡ asm_number fault) × (line.new ≡ line_in fault line.old)) }
    ensures unchanged { result ≢ ok → image.new ≡ image.old }
    ensures count { result ≢ ok → result ≢ little_room → count.new ≡ count.old }
    ensures line { HasNoLine result → line.new ≡ line.old }
{
    let bytes = match assemble(alloc, text) {
        Ok(bytes) => bytes,
        Err(fault) => return asm_number(fault, line),
    };
    *count = bytes.len();
    if bytes.len() > image.len() {
        return 11;
    }
    image[..bytes.len()].copy_from_slice(&bytes);
    0
}
