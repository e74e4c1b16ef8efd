//! The platform and the trace that the lines of a script drive.

ghost use Rattle.iom_tool.specs.Room.{answer_room};
ghost use Rattle.std.specs.Prelude.{◌≡◌, ◌++◌, ◌∷◌, [], ◌<◌, false, length, is_err, IfErr, OnErr, OnOk};
ghost use Rattle.std.specs.Io.KnownBytes.{Appends};
ghost use Rattle.iom_reader.specs.Running.{WritesFront};
ghost use Rattle.iom_reader.specs.Watching.{write_failed};

use crate::debugger::push_answer_in;
use crate::draft::{ANSWER_ROOM, ReplyDraft};
use crate::language::{Language, Line};
use crate::matching::{MOST_BYTES_OF_A_LINE, line_of};
use crate::text::{push_answer, push_text};
use crate::trace::Trace;
use arrayvec::ArrayVec;
use iom_core::Platform;
use iom_reader::{Answerer, RunFault, WatchedWriter, write_out};
use iom_text::take_word;
use std::io::Write;

/// The text of one answer, at most `ANSWER_ROOM` bytes, without a line end.
pub type Reply = ArrayVec<u8, ANSWER_ROOM>;

/// A platform with the trace of its steps, which the lines of a script drive.
#[derive(Drop)]
pub struct Console<'a> {
    /// The platform that its lines drive.
    pub platform: &'a mut Platform,
    /// The trace that keeps its steps.
    pub trace: &'a mut Trace,
    // where an answer is put together
    draft: ReplyDraft,
}

impl<'a> Console<'a> {
    ghost use Rattle.iom_tool.specs.Room.{answer_room};
    ghost use Rattle.std.specs.Prelude.{◌≡◌, ◌==◌, ◌<◌, ◌≤◌, [], true, false, length, is_some};
    ghost use Rattle.std.specs.List.{list_any};
    ghost use Rattle.std.specs.Option.{unwrap_or};
    ghost use Rattle.iom_core.specs.Run.{end_of};
    ghost use Rattle.iom_core.specs.Table.{next};
    ghost use Rattle.iom_core.specs.declared.step.Step.{Step};
    ghost use Rattle.iom_tool.specs.Console.{console, trace_after, traced};
    ghost use Rattle.iom_tool.specs.Output.{reply, steps_in, steps_of};
    ghost use Rattle.iom_tool.specs.Parsed.{line_as};
    ghost use Rattle.iom_tool.specs.Script.{Does, Plain, line_in, line_of, plain};
    ghost use Rattle.iom_tool.specs.Texts.{text_of};
    ghost use Rattle.iom_tool.specs.declared.language.Language.TheVariants.{Run};

    /// A console of this platform and this trace.
    pub fn new(platform: &'a mut Platform, trace: &'a mut Trace) -> Console<'a>
        ensures same_platform { result.platform.ghost_name ≡ platform.entry.ghost_name }
        ensures same_trace { result.trace.ghost_name ≡ trace.entry.ghost_name }
        ensures platform { result.platform.now ≡ platform.old }
        ensures trace { result.trace.now ≡ trace.old }
    {
        Console {
            platform,
            trace,
            draft: ReplyDraft::new(),
        }
    }

    /// Carries out a line, given without its line end, and answers its text: empty for a blank line, and `bad` for what is no line of
    /// `run`, as for a text above 512 bytes or with a line end.
    pub fn line(&mut self, text: &[u8]) -> Reply
        ensures reply { result.items
            ≡ unwrap_or (reply (console self.old.platform.now self.old.trace.now) (line_of text.now)) [] }
        ensures state { self.new.platform.now ≡ end_of self.old.platform.now (steps_of text.now) }
        ensures trace { self.new.trace.now
            ≡ trace_after self.old.trace.now self.old.platform.now (steps_of text.now) }
        ensures same_platform { self.new.platform.ghost_name ≡ self.old.platform.ghost_name }
        ensures same_trace { self.new.trace.ghost_name ≡ self.old.trace.ghost_name }
    {
        self.reply_to(line_of(Language::Run, text))
    }

    /// Carries out a line that was read, and answers its text, as `line` does.
    pub fn reply_to(&mut self, line: Line) -> Reply
        ensures reply { result.items
            ≡ unwrap_or (reply (console self.old.platform.now self.old.trace.now) (plain (line_as line))) [] }
        ensures state { self.new.platform.now ≡ end_of self.old.platform.now (steps_in (plain (line_as line))) }
        ensures trace { self.new.trace.now
            ≡ trace_after self.old.trace.now self.old.platform.now (steps_in (plain (line_as line))) }
        ensures same_platform { self.new.platform.ghost_name ≡ self.old.platform.ghost_name }
        ensures same_trace { self.new.trace.ghost_name ≡ self.old.trace.ghost_name }
    {
        let _said = self.carry_out(line);
        let mut reply = Reply::new();
        let _fits = reply.try_extend_from_slice(self.draft.as_slice());
        reply
    }

    // Carries out a line, drafts its answer, and answers whether there is one.
    fn carry_out(&mut self, line: Line) -> bool
        ensures reply { self.new.draft
            ≡ unwrap_or (reply (console self.old.platform.now self.old.trace.now) (plain (line_as line))) [] }
        ensures said { result
            ≡ is_some (reply (console self.old.platform.now self.old.trace.now) (plain (line_as line))) }
        ensures room { length self.new.draft < answer_room }
        ensures state { self.new.platform.now ≡ end_of self.old.platform.now (steps_in (plain (line_as line))) }
        ensures trace { self.new.trace.now
            ≡ trace_after self.old.trace.now self.old.platform.now (steps_in (plain (line_as line))) }
        ensures same_platform { self.new.platform.ghost_name ≡ self.old.platform.ghost_name }
        ensures same_trace { self.new.trace.ghost_name ≡ self.old.trace.ghost_name }
    {
        self.draft.clear();
        match line {
            Line::Blank => return false,
            Line::Does(step) => {
                let answer = self.platform.step(&step);
                push_answer(&mut self.draft, &answer);
                self.trace.keep(step, answer);
            }
            Line::Asks(question) => push_answer_in(
                &mut self.draft,
                self.platform,
                self.trace,
                question,
            ),
            _ => push_text(&mut self.draft, b"bad"),
        }
        true
    }

    // Carries out the line of this text, which has no line end, if it is a step that is read the fast way, drafts its answer, and answers
    // whether it did; else nothing but the draft changes.
    #[inline(always)]
    #[tactic(auto, using(crate::proofs::Fast::fast))]
    fn stepped(&mut self, text: &[u8]) -> bool
        requires { list_any (λ c. c == 10) text.now ≡ false }
        ensures step { result ≡ true → (step : Step) × (line_in Run text.now ≡ Plain (Does step))
            × (self.new.draft ≡ text_of (next self.old.platform.now step).answer)
            × (self.new.platform.now ≡ (next self.old.platform.now step).state)
            × (self.new.trace.now ≡ traced self.old.trace.now step (next self.old.platform.now step).answer) }
        ensures none { result ≡ false → (self.new.platform.now ≡ self.old.platform.now) × (self.new.trace.now ≡ self.old.trace.now) }
        ensures room { length self.new.draft ≤ 128 }
        ensures same_platform { self.new.platform.ghost_name ≡ self.old.platform.ghost_name }
        ensures same_trace { self.new.trace.ghost_name ≡ self.old.trace.ghost_name }
    {
        self.draft.clear();
        if text.len() > MOST_BYTES_OF_A_LINE {
            return false;
        }
        let Some((verb, rest)) = take_word(text) else {
            return false;
        };
        self.trace
            .carry_out(self.platform, verb, rest, &mut self.draft)
    }

    // Carries out the line of this text, which has no line end, drafts its answer, and answers whether there is one.
    #[inline(always)]
    fn answer_to(&mut self, text: &[u8]) -> bool
        requires { list_any (λ c. c == 10) text.now ≡ false }
        ensures reply { self.new.draft
            ≡ unwrap_or (reply (console self.old.platform.now self.old.trace.now) (line_of text.now)) [] }
        ensures said { result ≡ is_some (reply (console self.old.platform.now self.old.trace.now) (line_of text.now)) }
        ensures room { length self.new.draft < answer_room }
        ensures state { self.new.platform.now ≡ end_of self.old.platform.now (steps_of text.now) }
        ensures trace { self.new.trace.now
            ≡ trace_after self.old.trace.now self.old.platform.now (steps_of text.now) }
        ensures same_platform { self.new.platform.ghost_name ≡ self.old.platform.ghost_name }
        ensures same_trace { self.new.trace.ghost_name ≡ self.old.trace.ghost_name }
    {
        if self.stepped(text) {
            return true;
        }
        self.carry_out(line_of(Language::Run, text))
    }
}

impl Answerer for Console<'_> {
    ghost use Rattle.std.specs.Prelude.{◌∷◌, []};
    ghost use Rattle.iom_tool.specs.Console.{console};
    ghost use Rattle.iom_tool.specs.Running.{by_steps};

    ghost answering = { by_steps };

    ghost state = { λ c. console c.platform.now c.trace.now };

    ghost names = { λ c. c.platform.ghost_name ∷ c.trace.ghost_name ∷ [] };

    #[inline(always)]
    fn answer<W: Write>(
        &mut self,
        line: &[u8],
        writer: &mut WatchedWriter<'_, W>,
    ) -> Result<(), RunFault> {
        if !self.answer_to(line) {
            return Ok(());
        }
        write_answer(&mut self.draft, writer)
    }
}

// Writes an answer with its line end, by one call where the writer takes it whole.
fn write_answer<W: Write>(
    out: &mut ReplyDraft,
    writer: &mut WatchedWriter<'_, W>,
) -> Result<(), RunFault>
    requires can { write_failed writer.old ≡ false }
    requires room { length out.old < answer_room }
    ensures ok { OnOk result (Appends (W.contents writer.old.inner.now) (W.contents writer.new.inner.now)
        (out.old ++ 10 ∷ [])) }
    ensures front { OnErr result (WritesFront (W.contents writer.old.inner.now) (W.contents writer.new.inner.now)
        (out.old ++ 10 ∷ [])) }
    ensures fault { IfErr result (λ fault. fault ≡ RunFault.Write) }
    ensures told { write_failed writer.new ≡ is_err result }
    ensures same_writer { writer.new.inner.ghost_name ≡ writer.old.inner.ghost_name }
{
    out.push(b'\n');
    write_out(writer, out.as_slice())
}
