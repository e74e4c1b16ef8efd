//! What candidates may be behind a step.

ghost use Rattle.std.specs.Prelude.{◌≡◌, ◌++◌, flat_map, List, IfOk, OnOk};
ghost use Rattle.iom_choices.specs.Traces.{onward};
ghost use Rattle.iom_core.specs.State.{State};
ghost use Rattle.iom_core.specs.declared.step.Step.{Step};
ghost use Rattle.iom_judge.specs.Behind.{AreBehind, behind_one, listed};
ghost use Rattle.iom_judge.specs.Candidates.{AreApart, AreCandidates};
ghost use Rattle.iom_judge.specs.Covering.{AddsThinned, IsThinned};
ghost use Rattle.iom_judge.specs.declared.seen.Seen.{Seen};

use crate::candidate::Candidate;
use crate::holding::{Reach, find_reach, hold};
use crate::seen::Seen;
use crate::thinning::put_apart;
use iom_core::{Denial, Step};
use iom_held::HeldEntries;
use std::alloc::{AllocError, Global};

/// What each of these may be behind a step of which this was seen, without those that another covers. The fault is a refused allocation.
pub(crate) fn behind(
    reach: &mut Reach,
    alloc: Global,
    candidates: &[Candidate],
    step: &Step,
    seen: &Seen,
) -> Result<Vec<Candidate>, AllocError>
    ensures follows { (start : State) (traces : List (List (Step × Seen))) → AreCandidates start traces candidates.now →
        IfOk result (λ next. AreCandidates start (onward (step.now, seen.now) traces) next.items) }
    ensures apart { IfOk result (λ next. AreApart next.items) }
{
    let mut next: Vec<Candidate> = Vec::new(alloc);
    for candidate in candidates {
        put_behind(&mut next, reach, alloc, candidate, step, seen)?;
    }
    Ok(next)
}

// Puts in what one may be behind a step.
fn put_behind(
    all: &mut Vec<Candidate>,
    reach: &mut Reach,
    alloc: Global,
    candidate: &Candidate,
    step: &Step,
    seen: &Seen,
) -> Result<(), AllocError>
    requires { AreApart all.old.items }
    ensures thinned { OnOk result (AddsThinned (AreBehind step.now seen.now candidate.now) all.old.items all.new.items) }
    ensures apart { OnOk result (AreApart all.new.items) }
{
    find_reach(reach, &candidate.platform, &candidate.held, step)?;
    let mut held = candidate.held.try_clone(alloc)?;
    hold(
        &mut held,
        &mut reach.room,
        &candidate.platform,
        step,
        &reach.ways,
    )?;
    put_all(all, alloc, candidate, &held, step, seen, &reach.places)
}

// Puts in what it may be behind a step whose access goes to one of these places.
fn put_all(
    all: &mut Vec<Candidate>,
    alloc: Global,
    candidate: &Candidate,
    held: &HeldEntries,
    step: &Step,
    seen: &Seen,
    places: &[Option<Result<u64, Denial>>],
) -> Result<(), AllocError>
    requires { AreApart all.old.items }
    ensures thinned { OnOk result (IsThinned (all.old.items ++ flat_map (behind_one candidate.now.platform held.now step.now seen.now) places.now) all.new.items) }
    ensures apart { OnOk result (AreApart all.new.items) }
{
    for goes in places {
        put_one(all, alloc, candidate, held, step, seen, *goes)?;
    }
    Ok(())
}

// Puts in what it is behind a step whose access goes there, if that agrees with what was seen.
fn put_one(
    all: &mut Vec<Candidate>,
    alloc: Global,
    candidate: &Candidate,
    held: &HeldEntries,
    step: &Step,
    seen: &Seen,
    goes: Option<Result<u64, Denial>>,
) -> Result<(), AllocError>
    requires { AreApart all.old.items }
    ensures thinned { OnOk result (IsThinned (all.old.items ++ behind_one candidate.now.platform held.now step.now seen.now goes) all.new.items) }
    ensures apart { OnOk result (AreApart all.new.items) }
{
    if let Some(next) = find_next(alloc, candidate, held, step, seen, goes)? {
        put_apart(all, alloc, next)?;
    }
    Ok(())
}

// What it is there.
fn find_next(
    alloc: Global,
    candidate: &Candidate,
    held: &HeldEntries,
    step: &Step,
    seen: &Seen,
    goes: Option<Result<u64, Denial>>,
) -> Result<Option<Candidate>, AllocError>
    ensures { IfOk result (λ next. listed next ≡ behind_one candidate.now.platform held.now step.now seen.now goes) }
{
    let mut platform = candidate.platform.try_clone(alloc)?;
    let answer = platform.step_led(step, goes);
    if !seen.fits(&answer, goes) {
        return Ok(None);
    }
    let held = held.try_clone(alloc)?;
    Ok(Some(Candidate {
        platform,
        held,
        answer,
        goes,
    }))
}
