//! The answers that an IOMMU may give to a step.

ghost use Rattle.std.specs.Prelude.{◌≡◌, ◌||◌, true, List, IfOk, IsTrue, OnOk};
ghost use Rattle.std.specs.Bool.{OnFalse};
ghost use Rattle.iom_choices.specs.Systems.{IsAmong};
ghost use Rattle.iom_core.specs.Rows.{row};
ghost use Rattle.iom_core.specs.State.{State};
ghost use Rattle.iom_core.specs.declared.step.Step.{Step};
ghost use Rattle.iom_held.specs.Kept.{HasNoneTwice};
ghost use Rattle.iom_judge.specs.Candidates.{AreCandidates, ArePossible, is_any_fit};
ghost use Rattle.iom_judge.specs.Seen.{fits_seen};
ghost use Rattle.iom_judge.specs.Showing.{can_show, shows_at};
ghost use Rattle.iom_judge.specs.declared.seen.Seen.{Seen};

use crate::candidate::Candidate;
use crate::holding::{Reach, find_reach};
use crate::seen::is_answer;
use iom_core::{Answer, Denial, Platform, Step};
use std::alloc::{AllocError, Global};

/// An answer that some IOMMU may give to a step.
#[derive(Drop)]
pub struct Possible {
    /// The answer.
    pub answer: Answer,
    /// The physical address of the first byte to which the step's access goes, or why it is denied; None: the step makes none.
    pub goes: Option<Result<u64, Denial>>,
}

/// The answers that these may give to a step, each once. The fault is a refused allocation.
pub(crate) fn find_possible(
    reach: &mut Reach,
    alloc: Global,
    candidates: &[Candidate],
    step: &Step,
) -> Result<Vec<Possible>, AllocError>
    ensures possible { (start : State) (traces : List (List (Step × Seen))) → AreCandidates start traces candidates.now →
        IfOk result (λ list. ArePossible start traces step.now list.items) }
    ensures once { IfOk result (λ list. HasNoneTwice list.items) }
{
    let mut all = Vec::new(alloc);
    for candidate in candidates {
        put_possible(&mut all, reach, alloc, candidate, step)?;
    }
    Ok(all)
}

// Puts in what one of them may answer.
fn put_possible(
    all: &mut Vec<Possible>,
    reach: &mut Reach,
    alloc: Global,
    candidate: &Candidate,
    step: &Step,
) -> Result<(), AllocError>
    requires { HasNoneTwice all.old.items }
    ensures shown { OnOk result ((seen : Seen) → is_any_fit seen all.new.items ≡ (is_any_fit seen all.old.items || can_show step.now seen candidate.now)) }
    ensures once { OnOk result (HasNoneTwice all.new.items) }
{
    find_reach(reach, &candidate.platform, &candidate.held, step)?;
    put_answers(all, alloc, &candidate.platform, step, &reach.places)
}

// Puts in its answers where its access goes to these places.
fn put_answers(
    all: &mut Vec<Possible>,
    alloc: Global,
    platform: &Platform,
    step: &Step,
    places: &[Option<Result<u64, Denial>>],
) -> Result<(), AllocError>
    requires { HasNoneTwice all.old.items }
    ensures shown { OnOk result ((seen : Seen) → is_any_fit seen all.new.items ≡ (is_any_fit seen all.old.items || shows_at platform.now step.now seen places.now)) }
    ensures once { OnOk result (HasNoneTwice all.new.items) }
{
    for goes in places {
        put_answer_at(all, alloc, platform, step, *goes)?;
    }
    Ok(())
}

// Puts in its answer where its access goes there.
fn put_answer_at(
    all: &mut Vec<Possible>,
    alloc: Global,
    platform: &Platform,
    step: &Step,
    goes: Option<Result<u64, Denial>>,
) -> Result<(), AllocError>
    requires { HasNoneTwice all.old.items }
    ensures shown { OnOk result ((seen : Seen) → is_any_fit seen all.new.items ≡ (is_any_fit seen all.old.items || fits_seen ((row platform.now step.now goes).answer, goes) seen)) }
    ensures once { OnOk result (HasNoneTwice all.new.items) }
{
    let mut after = platform.try_clone(alloc)?;
    let answer = after.step_led(step, goes);
    put_answer(all, answer, goes)
}

// Puts an answer in, unless it is there.
fn put_answer(
    all: &mut Vec<Possible>,
    answer: Answer,
    goes: Option<Result<u64, Denial>>,
) -> Result<(), AllocError>
    requires { HasNoneTwice all.old.items }
    ensures shown { OnOk result ((seen : Seen) → is_any_fit seen all.new.items ≡ (is_any_fit seen all.old.items || fits_seen (answer, goes) seen)) }
    ensures once { OnOk result (HasNoneTwice all.new.items) }
{
    if !has_answer(all, &answer, goes) {
        all.push(Possible { answer, goes })?;
    }
    Ok(())
}

fn has_answer(all: &[Possible], answer: &Answer, goes: Option<Result<u64, Denial>>) -> bool
    ensures shown { IsTrue result → (seen : Seen) → fits_seen (answer.now, goes) seen ≡ true → is_any_fit seen all.now ≡ true }
    ensures apart { OnFalse result (IsAmong all.now (record { answer = answer.now; goes = goes }) → ⊥) }
{
    for one in all {
        if tells(one, answer, goes) {
            return true;
        }
    }
    false
}

fn tells(one: &Possible, answer: &Answer, goes: Option<Result<u64, Denial>>) -> bool
    ensures shown { IsTrue result → (seen : Seen) → fits_seen (answer.now, goes) seen ≡ true → fits_seen (one.now.answer, one.now.goes) seen ≡ true }
    ensures apart { OnFalse result (one.now ≡ (record { answer = answer.now; goes = goes }) → ⊥) }
{
    is_answer(&one.answer, answer) && one.goes == goes
}
