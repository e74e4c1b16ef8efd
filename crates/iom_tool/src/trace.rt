ghost use Rattle.std.specs.Prelude.{◌≡◌, ◌==◌, ◌+◌, ◌++◌, ◌∷◌, ◌||◌, ◌<◌, ◌≤◌, Some, None, true, false, length, IfOk, if◌then◌else◌};
ghost use Rattle.iom_core.specs.Table.{next};
ghost use Rattle.iom_text.specs.Words.{words_of};
ghost use Rattle.iom_tool.specs.Parsed.{IsStep};
ghost use Rattle.iom_tool.specs.Texts.{text_of};

use crate::draft::ReplyDraft;
use crate::script::put_step_of;
use crate::text::push_answer;
use iom_core::{Answer, Platform, Step};
use std::alloc::{AllocError, Global};
use std::marker::Model;

/// How many steps are kept.
const MOST_ENTRIES: usize = 32;

/// How many places there are: one of them is spare.
const PLACES: usize = 33;

/// A step that was carried out, and its answer.
#[derive(Drop)]
pub struct TracedStep {
    /// The step.
    pub step: Step,
    /// What it answered.
    pub answer: Answer,
}

/// The last 32 steps that a script's lines were, with their answers; the oldest first.
#[derive(Drop)]
pub struct Trace {
    // A ring. The place at `spare` holds no step of the trace: there the next one is put, and answered from there.
    places: Vec<TracedStep>,
    spare: usize,
    // Whether the steps go on behind the spare place, the oldest first.
    is_full: bool,
}

impl Model for Trace {
    ghost use Rattle.std.specs.Prelude.{◌≡◌, ◌<◌, List, length};
    ghost use Rattle.iom_tool.specs.declared.trace.TracedStep.{TracedStep};
    ghost use Rattle.iom_tool.specs.Ring.{kept_around};

    ghost Value = { List TracedStep };

    ghost view = { λ trace. kept_around trace.is_full trace.spare trace.places.items };

    ghost invariant = { λ trace. (length trace.places.items ≡ 33) × (trace.spare < 33) };
}

impl Trace {
    ghost use Rattle.std.specs.Prelude.{◌≡◌, ◌++◌, ◌∷◌, ◌+◌, ◌<◌, ◌≤◌, [], Some, None, true, false, slice_get, IfOk, length};
    ghost use Rattle.std.specs.Option.{option_copied};
    ghost use Rattle.iom_core.specs.Table.{next};
    ghost use Rattle.iom_core.specs.declared.step.Step.{Step};
    ghost use Rattle.iom_text.specs.Words.{words_of};
    ghost use Rattle.iom_tool.specs.Parsed.{IsStep};
    ghost use Rattle.iom_tool.specs.Texts.{text_of};
    ghost use Rattle.iom_tool.specs.Console.{traced};

    /// A trace with no step yet. It takes the memory of all steps, and no other call takes any. The fault is a refused allocation.
    pub fn new(alloc: Global) -> Result<Trace, AllocError>
        ensures { IfOk result (λ trace. trace ≡ []) }
    {
        Ok(Trace {
            places: blank_places(alloc)?,
            spare: 0,
            is_full: false,
        })
    }

    /// Keeps a step with its answer. Of 32 steps the oldest leaves.
    pub fn keep(&mut self, step: Step, answer: Answer)
        ensures { self.new ≡ traced self.old step answer }
    {
        self.places[self.spare] = TracedStep { step, answer };
        advance(&mut self.spare, &mut self.is_full);
    }

    /// Carries out the step that a line is, by its first word and what follows it, puts its answer's text, keeps both, and answers whether
    /// it is one that is read the fast way; else nothing changes.
    #[inline(always)]
    pub(crate) fn carry_out(
        &mut self,
        platform: &mut Platform,
        verb: &[u8],
        text: &[u8],
        out: &mut ReplyDraft,
    ) -> bool
        requires { length out.old ≡ 0 }
        ensures step { result ≡ true → (step : Step) × IsStep (verb.now ∷ words_of text.now) step
            × (platform.new ≡ (next platform.old step).state)
            × (out.new ≡ out.old ++ text_of (next platform.old step).answer)
            × (self.new ≡ traced self.old step (next platform.old step).answer) }
        ensures none { result ≡ false → (platform.new ≡ platform.old) × (out.new ≡ out.old) × (self.new ≡ self.old) }
        ensures room { length out.new ≤ length out.old + 128 }
    {
        let entry = &mut self.places[self.spare];
        if !carried_out(entry, platform, verb, text, out) {
            return false;
        }
        advance(&mut self.spare, &mut self.is_full);
        true
    }

    /// The step at place `i`, any number; the oldest is at place 0. None if the trace has `i` steps or fewer.
    pub fn entry(&self, i: u64) -> Option<&TracedStep>
        ensures { option_copied result ≡ slice_get self.now i }
    {
        if self.is_full {
            if i >= MOST_ENTRIES as u64 {
                return None;
            }
            return Some(&self.places[wrapped(self.spare + 1 + i as usize)]);
        }
        if i >= self.spare as u64 {
            return None;
        }
        Some(&self.places[i as usize])
    }
}

// All places, each with a step that stands for none.
fn blank_places(alloc: Global) -> Result<Vec<TracedStep>, AllocError>
    ensures { IfOk result (λ places. length places.items ≡ 33) }
{
    let mut places = Vec::with_capacity(alloc, PLACES)?;
    for _place in 0..PLACES {
        places.push(TracedStep {
            step: Step::Command,
            answer: Answer::Idle,
        })?;
    }
    Ok(places)
}

// A place by a number that may go round once.
#[inline(always)]
fn wrapped(at: usize) -> usize
    requires { at < 66 }
    ensures below { at < 33 → result ≡ at }
    ensures above { 33 ≤ at → result + 33 ≡ at }
{
    if at < PLACES { at } else { at - PLACES }
}

// The spare place becomes the newest, and the one after it spare.
#[inline(always)]
fn advance(spare: &mut usize, is_full: &mut bool)
    requires { spare.old < 33 }
    ensures next { spare.new ≡ (if spare.old == 32 then 0 else spare.old + 1) }
    ensures full { is_full.new ≡ (is_full.old || spare.old == 32) }
{
    let is_last = *spare == MOST_ENTRIES;
    *is_full = *is_full || is_last;
    *spare = if is_last { 0 } else { *spare + 1 };
}

// The step that a line is, put and answered in place. Where it is none, its place may hold anything.
#[inline(always)]
fn carried_out(
    entry: &mut TracedStep,
    platform: &mut Platform,
    verb: &[u8],
    text: &[u8],
    out: &mut ReplyDraft,
) -> bool
    requires { length out.old ≡ 0 }
    ensures step { result ≡ true → IsStep (verb.now ∷ words_of text.now) entry.new.step }
    ensures answer { result ≡ true → entry.new.answer ≡ (next platform.old entry.new.step).answer }
    ensures state { result ≡ true → platform.new ≡ (next platform.old entry.new.step).state }
    ensures told { result ≡ true → out.new ≡ out.old ++ text_of entry.new.answer }
    ensures same { result ≡ false → (platform.new ≡ platform.old) × (out.new ≡ out.old) }
    ensures room { length out.new ≤ length out.old + 128 }
{
    if !put_step_of(verb, text, &mut entry.step) {
        return false;
    }
    platform.step_into(&entry.step, &mut entry.answer, &mut ());
    push_answer(out, &entry.answer);
    true
}
