//! Steps one after the other, while each is done.

ghost use Rattle.std.specs.Prelude.{◌≡◌, ◌++◌, ◌≤◌, length, codes};
ghost use Rattle.iom_text.specs.Texts.{hexadecimal};
ghost use Rattle.iom_tool.specs.Parsed.{step_of};
ghost use Rattle.iom_debug.specs.Taking.{is_done};

use crate::debugger::Debugger;
use crate::text::{push_hexadecimal, push_text};
use iom_core::{Answer, Step};
use iom_tool::{Actor, Reply, answer_text};

/// The text of a step's answer.
#[derive(Drop)]
pub struct StepAnswer {
    /// Whether it was done.
    pub is_done: bool,
    /// The text of its answer.
    pub text: Reply,
}

/// Whether a step was done.
#[tactic(auto, unfolding(crate::specs::Taking::is_done))]
pub fn is_done(answer: &Answer) -> bool
    ensures { result ≡ is_done answer.now }
{
    matches!(answer, Answer::Done)
}

/// The answer to a line that repeats a step: how many were taken, in hex, and the text of the last answer, at most 128 bytes.
pub fn reply_with_count(count: u64, last: &[u8]) -> Reply
    requires { length last.now ≤ 128 }
    ensures { result.items ≡ hexadecimal count ++ codes " " ++ last.now }
{
    let mut out = Reply::new();
    push_hexadecimal(&mut out, count);
    push_text(&mut out, b" ");
    push_text(&mut out, last);
    out
}

/// The step of one that goes on by itself.
pub fn step_by(actor: Actor) -> Step
    ensures { result ≡ step_of actor }
{
    match actor {
        Actor::Commands => Step::Command,
        Actor::Device(dev) => Step::Device { dev },
    }
}

impl Debugger<'_> {
    ghost use Rattle.std.specs.Prelude.{◌≡◌, ◌+◌, ◌*◌, ◌^◌, ◌≤◌, length, replicate};
    ghost use Rattle.iom_core.specs.Run.{end_of};
    ghost use Rattle.iom_core.specs.Table.{next};
    ghost use Rattle.iom_tool.specs.Console.{trace_after};
    ghost use Rattle.iom_tool.specs.Parsed.{step_of};
    ghost use Rattle.iom_tool.specs.Script.{stores_at};
    ghost use Rattle.iom_tool.specs.Texts.{text_of};
    ghost use Rattle.iom_debug.specs.Desks.{desk_of, names_of};
    ghost use Rattle.iom_debug.specs.Taking.{Took, TookAll, is_done, last_answer, run_text};

    /// Carries out a step of the line of this number, and answers whether it was done, and the text of its answer.
    pub(crate) fn take(&mut self, number: u64, step: Step) -> StepAnswer
        ensures done { result.is_done ≡ is_done (next self.old.platform.now step).answer }
        ensures text { result.text.items ≡ text_of (next self.old.platform.now step).answer }
        ensures short { length result.text.items ≤ 128 }
        ensures took { Took (desk_of self.old) step number (desk_of self.new) }
        ensures same { names_of self.new ≡ names_of self.old }
    {
        let mut answer = Answer::Done;
        let _stale = self.reasons.step(self.platform, &step, number, &mut answer);
        let answered = StepAnswer {
            is_done: is_done(&answer),
            text: answer_text(&answer),
        };
        self.trace.keep(step, answer);
        answered
    }

    /// Carries out a step again and again while it is done, at most this number of times, and answers how many were taken and the last
    /// answer.
    #[tactic(auto, unfolding(crate::specs::Taking::count_text))]
    pub(crate) fn take_again(&mut self, number: u64, actor: Actor, most: u64) -> Reply
        ensures reply { result.items ≡ run_text self.old.platform.now (replicate most (step_of actor)) }
        ensures took { TookAll (desk_of self.old) (replicate most (step_of actor)) number (desk_of self.new) }
        ensures same { names_of self.new ≡ names_of self.old }
    {
        for i in 0..most {
            let answered = self.take(number, step_by(actor));
            if !answered.is_done {
                return reply_with_count(i + 1, answered.text.as_slice());
            }
        }
        reply_with_count(most, b"done")
    }

    /// Stores words of 8 bytes from physical address `addr` on while each store is done, and answers the text of the last answer.
    pub(crate) fn store_all(&mut self, number: u64, addr: u64, words: &[u64]) -> Reply
        requires { addr + 8 * length words.now ≤ 2 ^ 64 }
        ensures reply { result.items ≡ text_of (last_answer self.old.platform.now (stores_at addr words.now)) }
        ensures took { TookAll (desk_of self.old) (stores_at addr words.now) number (desk_of self.new) }
        ensures same { names_of self.new ≡ names_of self.old }
    {
        for (i, word) in words.iter().enumerate() {
            let step = Step::Store {
                addr: addr + 8 * i as u64,
                size: 8,
                value: *word,
            };
            let answered = self.take(number, step);
            if !answered.is_done {
                return answered.text;
            }
        }
        answer_text(&Answer::Done)
    }
}
