//! Texts of answers to steps outside a script.

ghost use Rattle.iom_tool.specs.Room.{answer_room};
ghost use Rattle.std.specs.Prelude.{◌≡◌, ◌≤◌, length, Some};
ghost use Rattle.iom_tool.specs.Texts.{entry_text, text_of};

use crate::console::Reply;
use crate::draft::ReplyDraft;
use crate::text::{push_answer, push_traced_step};
use crate::trace::TracedStep;
use iom_core::Answer;

/// Puts a step of a trace and its answer in place of what a draft holds, as the question `trace` answers them: at most `ANSWER_ROOM` bytes.
pub fn put_traced_step(out: &mut ReplyDraft, entry: &TracedStep)
    ensures text { out.new ≡ entry_text (Some entry.now) }
    ensures short { length out.new ≤ answer_room }
{
    out.clear();
    push_traced_step(out, Some(entry));
}

/// The text of an answer, as a script answers it: at most 128 bytes.
pub fn answer_text(answer: &Answer) -> Reply
    ensures text { result.items ≡ text_of answer.now }
    ensures short { length result.items ≤ 128 }
{
    let mut draft = ReplyDraft::new();
    push_answer(&mut draft, answer);
    let mut reply = Reply::new();
    let _fits = reply.try_extend_from_slice(draft.as_slice());
    reply
}
