ghost use Rattle.iom_tool.specs.Room.{answer_room};
ghost use Rattle.std.specs.Prelude.{◌≡◌, ◌+◌, ◌*◌, ◌++◌, ◌<◌, ◌≤◌, length, [], ◌∷◌, codes};
ghost use Rattle.std.specs.Option.{option_copied};
ghost use Rattle.hex.specs.Hex.{encode_lower};
ghost use Rattle.iom_text.specs.Texts.{numeral, hexadecimal};
ghost use Rattle.iom_tool.specs.Texts.{text_of, operands, step_text, entry_text};

use crate::draft::ReplyDraft;
use crate::trace::TracedStep;
use iom_bits::Kind;
use iom_core::{Answer, Step};
use iom_regs::Busy;

/// Appends bytes, for which there is room.
pub fn push_text(out: &mut ReplyDraft, text: &[u8])
    requires { length out.old + length text.now ≤ answer_room }
    ensures text { out.new ≡ out.old ++ text.now }
    ensures room { length out.new ≡ length out.old + length text.now }
{
    out.append(text);
}

// Appends bytes as hex digits in lower case.
fn push_bytes(out: &mut ReplyDraft, bytes: &[u8])
    requires few { length bytes.now ≤ 64 }
    requires room { length out.old + 128 < answer_room }
    ensures text { out.new ≡ out.old ++ encode_lower bytes.now }
    ensures room { length out.new ≤ length out.old + 128 }
{
    out.append_hex(bytes);
}

/// Appends a number as `0x` and hex digits in lower case, at most 18 bytes.
pub fn push_hexadecimal(out: &mut ReplyDraft, number: u64)
    requires { length out.old + 18 < answer_room }
    ensures text { out.new ≡ out.old ++ hexadecimal number }
    ensures room { length out.new ≤ length out.old + 18 }
{
    out.append_hexadecimal(number);
}

// Appends the text of a denial: its cause in decimal.
fn push_denied(out: &mut ReplyDraft, cause: u16)
    requires { length out.old + 27 < answer_room }
    ensures text { out.new ≡ out.old ++ codes "denied " ++ numeral 10 cause }
    ensures room { length out.new ≤ length out.old + 27 }
{
    push_text(out, b"denied ");
    push_text(out, iom_text::decimal(u64::from(cause)).as_slice());
}

/// Appends the text of an answer, at most 128 bytes.
#[tactic(auto, unfolding(crate::specs::Texts::text_of))]
pub fn push_answer(out: &mut ReplyDraft, answer: &Answer)
    requires { length out.old + 128 < answer_room }
    ensures text { out.new ≡ out.old ++ text_of answer.now }
    ensures room { length out.new ≤ length out.old + 128 }
{
    match answer {
        Answer::Value(value) => push_hexadecimal(out, *value),
        Answer::Done => push_text(out, b"done"),
        Answer::Bytes(bytes) => push_bytes(out, bytes.as_slice()),
        Answer::Idle => push_text(out, b"idle"),
        Answer::Denied(cause) => push_denied(out, *cause),
        Answer::BusError => push_text(out, b"bus error"),
        Answer::BadAccess => push_text(out, b"bad access"),
        Answer::NoDevice => push_text(out, b"no device"),
        Answer::Misuse => push_text(out, b"misuse"),
    }
}

// Appends the first words of a step's line, and its numbers after them.
fn push_form(out: &mut ReplyDraft, words: &[u8], numbers: &[u64])
    requires room { length out.old + length words.now + 19 * length numbers.now < answer_room }
    ensures text { out.new ≡ out.old ++ words.now ++ operands numbers.now }
    ensures room { length out.new ≤ length out.old + length words.now + 19 * length numbers.now }
{
    push_text(out, words);
    for number in numbers {
        push_text(out, b" ");
        push_hexadecimal(out, *number);
    }
}

// Puts a device's write as its line of a script.
fn push_device_write(out: &mut ReplyDraft, did: u64, iova: u64, bytes: &[u8])
    requires few { length bytes.now ≤ 64 }
    requires room { length out.old ≡ 0 }
    ensures text { out.new ≡ out.old ++ codes "dma write" ++ operands (did ∷ iova ∷ []) ++ codes " " ++ encode_lower bytes.now }
    ensures room { length out.new ≤ 176 }
{
    push_form(out, b"dma write", &[did, iova]);
    push_text(out, b" ");
    push_bytes(out, bytes);
}

// Puts a step as its line of a script.
#[tactic(auto, unfolding(crate::specs::Texts::step_text))]
fn push_step(out: &mut ReplyDraft, step: &Step)
    requires { length out.old ≡ 0 }
    ensures text { out.new ≡ out.old ++ step_text step.now }
    ensures room { length out.new ≤ 176 }
{
    match step {
        Step::Load { addr, size } => push_form(out, b"load", &[*addr, *size]),
        Step::Store { addr, size, value } => push_form(out, b"store", &[*addr, *size, *value]),
        Step::RegRead { off, size } => push_form(out, b"reg read", &[*off, *size]),
        Step::RegWrite { off, size, value } => push_form(out, b"reg write", &[*off, *size, *value]),
        Step::Command => push_text(out, b"cmd"),
        Step::Settle(Busy::Directory) => push_text(out, b"settle ddtp"),
        Step::Settle(Busy::Commands) => push_text(out, b"settle cq"),
        Step::Settle(Busy::Faults) => push_text(out, b"settle fq"),
        Step::DmaRead { did, iova, len } => push_form(out, b"dma read", &[*did, *iova, *len]),
        Step::DmaWrite { did, iova, bytes } => {
            push_device_write(out, *did, *iova, bytes.as_slice())
        }
        Step::Translate {
            did,
            iova,
            kind: Kind::Read,
        } => push_form(out, b"translate read", &[*did, *iova]),
        Step::Translate {
            did,
            iova,
            kind: Kind::Write,
        } => push_form(out, b"translate write", &[*did, *iova]),
        Step::DevRead { dev, off, size } => push_form(out, b"dev read", &[*dev, *off, *size]),
        Step::DevWrite {
            dev,
            off,
            size,
            value,
        } => push_form(out, b"dev write", &[*dev, *off, *size, *value]),
        Step::Device { dev } => push_form(out, b"dev step", &[*dev]),
    }
}

/// Puts the text of a step of a trace, and its answer; `none` if there is no such step.
#[tactic(auto, unfolding(crate::specs::Texts::entry_text))]
pub fn push_traced_step(out: &mut ReplyDraft, entry: Option<&TracedStep>)
    requires { length out.old ≡ 0 }
    ensures text { out.new ≡ out.old ++ entry_text (option_copied entry.entry) }
    ensures room { length out.new < answer_room }
{
    let Some(entry) = entry else {
        push_text(out, b"none");
        return;
    };
    push_step(out, &entry.step);
    push_text(out, b" -> ");
    push_answer(out, &entry.answer);
}
