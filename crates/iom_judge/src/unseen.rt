//! A step that nobody saw, any number of times.

ghost use Rattle.std.specs.Prelude.{◌≡◌, ◌++◌, true, List, IfOk, IsTrue, OnOk};
ghost use Rattle.std.specs.Bool.{OnFalse};
ghost use Rattle.iom_choices.specs.Traces.{onward};
ghost use Rattle.iom_core.specs.State.{State};
ghost use Rattle.iom_judge.specs.Candidates.{AreApart, AreCandidates};
ghost use Rattle.iom_judge.specs.Covering.{HasNew};
ghost use Rattle.iom_judge.specs.Idle.{IsIdle};
ghost use Rattle.iom_judge.specs.Seen.{unseen};
ghost use Rattle.iom_judge.specs.Unseen.{IsClosed};
ghost use Rattle.iom_judge.specs.declared.seen.Seen.{Seen};

use crate::behind::behind;
use crate::candidate::Candidate;
use crate::holding::Reach;
use crate::judge::{MOST, are_too_many};
use crate::seen::Seen;
use crate::thinning::merge;
use iom_core::{Platform, Step};
use iom_queue::{Fetch, next_command};
use std::alloc::{AllocError, Global};

/// Adds what these may be behind a step that nobody saw. The answer is whether one was added. The fault is a refused allocation.
pub(crate) fn add_behind(
    all: &mut Vec<Candidate>,
    reach: &mut Reach,
    alloc: Global,
    step: &Step,
) -> Result<bool, AllocError>
    requires { AreApart all.old.items }
    ensures added { (start : State) (traces : List (List (Step × Seen))) → AreCandidates start traces all.old.items →
        OnOk result (AreCandidates start (traces ++ onward (step.now, unseen) traces) all.new.items) }
    ensures apart { OnOk result (AreApart all.new.items) }
    ensures there { IfOk result (λ added. OnFalse added (all.new.items ≡ all.old.items)) }
    ensures new { IfOk result (λ added. IsTrue added → HasNew all.old.items all.new.items) }
{
    let next = behind(reach, alloc, all, step, &Seen::nothing())?;
    merge(all, alloc, next)
}

/// Adds what these may be behind a step that nobody saw, until nothing new comes. The answer is whether that was so after at most 64 times, with at most
/// 64 candidates. The fault is a refused allocation.
pub(crate) fn close(
    all: &mut Vec<Candidate>,
    reach: &mut Reach,
    alloc: Global,
    step: &Step,
) -> Result<bool, AllocError>
    requires { AreApart all.old.items }
    ensures closed { (start : State) (traces : List (List (Step × Seen))) → AreCandidates start traces all.old.items →
        IfOk result (λ closed. IsClosed start traces step.now closed all.new.items) }
    ensures apart { IfOk result (λ closed. IsTrue closed → AreApart all.new.items) }
{
    for _ in 0..MOST {
        if !add_behind(all, reach, alloc, step)? {
            return Ok(true);
        }
        if are_too_many(all.len()) {
            return Ok(false);
        }
    }
    Ok(!add_behind(all, reach, alloc, step)?)
}

/// Whether the step leaves each of them as it is, by its registers alone: a command step where the queue is off, stopped or empty.
pub(crate) fn are_idle(candidates: &[Candidate], step: &Step) -> bool
    ensures { IsTrue result → (start : State) (traces : List (List (Step × Seen))) → AreCandidates start traces candidates.now → IsClosed start traces step.now true candidates.now }
{
    for candidate in candidates {
        if !is_idle(&candidate.platform, step) {
            return false;
        }
    }
    true
}

fn is_idle(platform: &Platform, step: &Step) -> bool
    ensures { IsTrue result → IsIdle step.now platform.now }
{
    match step {
        Step::Command => {
            matches!(
                next_command(platform.registers(), platform.ram()),
                Fetch::Idle
            )
        }
        _ => false,
    }
}
