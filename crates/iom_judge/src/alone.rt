//! A step of a candidate in place.

ghost use Rattle.std.specs.Prelude.{◌≡◌, ◌<◌, ◌∷◌, [], vec_capacity, List, IfNone, IfOk, IfSome, OnErr, if◌then◌else◌};
ghost use Rattle.iom_core.specs.State.{State};
ghost use Rattle.iom_core.specs.declared.step.Step.{Step};
ghost use Rattle.iom_core.specs.Rows.{row};
ghost use Rattle.iom_judge.specs.Behind.{IsTaken, next_of};
ghost use Rattle.iom_judge.specs.Candidates.{AreApart, AreCandidates, IsListed, IsVerdict};
ghost use Rattle.iom_judge.specs.Seen.{fits_seen};
ghost use Rattle.iom_judge.specs.Showing.{IsTold};
ghost use Rattle.iom_judge.specs.declared.seen.Seen.{Seen};

use crate::candidate::Candidate;
use crate::copying::copy_answer;
use crate::holding::{Reach, find_reach, hold};
use crate::judge::Verdict;
use crate::possible::Possible;
use crate::seen::Seen;
use iom_core::{Answer, Denial, Step};
use std::alloc::AllocError;

/// Judges a step and takes it in place, if there is one candidate alone, and its access can go to one place alone; None: there are several, and nothing
/// has changed. If the step is refused, its only answer is put in. The fault is a refused allocation, and then nothing has changed either.
pub(crate) fn take_in_place(
    candidates: &mut Vec<Candidate>,
    reach: &mut Reach,
    step: &Step,
    seen: &Seen,
    allowed: &mut Vec<Possible>,
) -> Result<Option<Verdict>, AllocError>
    requires { allowed.old.items ≡ [] }
    ensures judged { (start : State) (traces : List (List (Step × Seen))) → AreCandidates start traces candidates.old.items →
        IfOk result (λ told. IfSome told (λ verdict. IsVerdict start traces (step.now, seen.now) verdict candidates.old.items candidates.new.items)) }
    ensures listed { (start : State) (traces : List (List (Step × Seen))) → AreCandidates start traces candidates.old.items →
        IfOk result (λ told. IfSome told (λ verdict. IsListed start traces step.now verdict allowed.new.items)) }
    ensures several { IfOk result (λ told. IfNone told ((candidates.new.items ≡ candidates.old.items) × (allowed.new.items ≡ []))) }
    ensures apart { AreApart candidates.old.items → AreApart candidates.new.items }
    ensures unchanged { OnErr result (candidates.new.items ≡ candidates.old.items) }
    ensures emptied { OnErr result (allowed.new.items ≡ []) }
{
    if candidates.len() != 1 {
        return Ok(None);
    }
    match candidates[0].take_alone(reach, step, seen, allowed)? {
        Some(fits) => Ok(Some(verdict_of(fits))),
        None => Ok(None),
    }
}

// The verdict on a step that was taken, by whether its only answer fits.
fn verdict_of(fits: bool) -> Verdict
    ensures { result ≡ (if fits then Verdict.Allowed else Verdict.Refused) }
{
    if fits {
        Verdict::Allowed
    } else {
        Verdict::Refused
    }
}

impl Candidate {
    // Takes a step in place, if its access can go to one place alone.
    fn take_alone(
        &mut self,
        reach: &mut Reach,
        step: &Step,
        seen: &Seen,
        allowed: &mut Vec<Possible>,
    ) -> Result<Option<bool>, AllocError>
        requires { allowed.old.items ≡ [] }
        ensures taken { IfOk result (λ fits. IsTaken step.now seen.now fits self.old self.new) }
        ensures told { IfOk result (λ fits. IsTold step.now fits (self.old ∷ []) allowed.new.items) }
        ensures unchanged { OnErr result (self.new ≡ self.old) }
        ensures emptied { OnErr result (allowed.new.items ≡ []) }
    {
        find_reach(reach, &self.platform, &self.held, step)?;
        if reach.places.len() != 1 {
            return Ok(None);
        }
        let goes = reach.places[0];
        allowed.reserve(1)?;
        hold(
            &mut self.held,
            &mut reach.room,
            &self.platform,
            step,
            &reach.ways,
        )?;
        Ok(Some(self.take_to(step, seen, goes, allowed)))
    }

    // Takes a step whose access goes there. The answer is whether that agrees with what was seen; if not, the step's answer is put in, for which there
    // is room.
    fn take_to(
        &mut self,
        step: &Step,
        seen: &Seen,
        goes: Option<Result<u64, Denial>>,
        allowed: &mut Vec<Possible>,
    ) -> bool
        requires empty { allowed.old.items ≡ [] }
        requires room { 0 < vec_capacity allowed.old }
        ensures taken { self.new ≡ next_of self.old.platform self.old.held step.now goes }
        ensures fits { result ≡ fits_seen ((row self.old.platform step.now goes).answer, goes) seen.now }
        ensures told { allowed.new.items ≡ (if result then [] else record { answer = (row self.old.platform step.now goes).answer; goes = goes } ∷ []) }
    {
        let answer = self.platform.step_led(step, goes);
        let fits = seen.fits(&answer, goes);
        put_unfit(allowed, fits, &answer, goes);
        self.answer = answer;
        self.goes = goes;
        fits
    }
}

// Puts in the only answer, for which there is room, unless it fits.
fn put_unfit(
    allowed: &mut Vec<Possible>,
    fits: bool,
    answer: &Answer,
    goes: Option<Result<u64, Denial>>,
)
    requires empty { allowed.old.items ≡ [] }
    requires room { 0 < vec_capacity allowed.old }
    ensures { allowed.new.items ≡ (if fits then [] else record { answer = answer.now; goes = goes } ∷ []) }
{
    if fits {
        return;
    }
    let _ = allowed.push(Possible {
        answer: copy_answer(answer),
        goes,
    });
}
