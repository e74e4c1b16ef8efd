//! The judge.

ghost use Rattle.std.specs.Prelude.{◌≡◌, ◌<◌, ◌↔◌, ◌∷◌, [], List, IfOk, IsTrue, OnErr};
ghost use Rattle.iom_core.specs.State.{State};
ghost use Rattle.iom_held.specs.Kept.{HasNoneTwice};
ghost use Rattle.iom_judge.specs.Candidates.{AreCandidates, ArePossible, IsListed, IsVerdict, most_candidates};
ghost use Rattle.iom_judge.specs.Unseen.{HasTaken, MayHaveTaken};

use crate::alone::take_in_place;
use crate::behind::behind;
use crate::candidate::Candidate;
use crate::copying::copies;
use crate::holding::Reach;
use crate::possible::{Possible, find_possible};
use crate::seen::Seen;
use crate::unseen::{add_behind, are_idle, close};
use iom_core::{Platform, Step};
use std::alloc::{AllocError, Global};
use std::marker::Model;
use std::mem::replace;

/// How many candidates a judge keeps at most.
pub const MOST: usize = 64;

/// Whether this number of candidates is more than a judge keeps.
pub(crate) fn are_too_many(count: usize) -> bool
    ensures { IsTrue result ↔ most_candidates < count }
{
    count > MOST
}

/// The verdict on a step.
#[derive(Clone, Copy)]
pub enum Verdict {
    /// Some IOMMU could answer so after the steps before.
    Allowed,
    /// No IOMMU could answer so.
    Refused,
    /// Not decided: there would be more than 64 candidates.
    Undecided,
}

/// All possible states of an IOMMU after the steps so far, but for those that another of them covers.
#[derive(Drop)]
pub struct Judge {
    alloc: Global,
    candidates: Vec<Candidate>,
    // room for where accesses may go
    reach: Reach,
    // room for what `follow` lists
    listed: Vec<Possible>,
}

impl Model for Judge {
    ghost use Rattle.std.specs.Prelude.{List};
    ghost use Rattle.iom_judge.specs.Candidates.{AreApart, CandidateView};

    ghost Value = { List CandidateView };

    ghost view = { λ j. j.candidates.items };

    ghost invariant = { λ j. AreApart j.candidates.items };
}

impl Judge {
    ghost use Rattle.iom_core.specs.declared.step.Step.{Step};
    ghost use Rattle.iom_judge.specs.declared.seen.Seen.{Seen};

    /// A judge before the first step, of an IOMMU in this platform that holds nothing. The fault is a refused allocation.
    pub fn new(alloc: Global, platform: Platform) -> Result<Judge, AllocError>
        ensures { IfOk result (λ judge. AreCandidates platform ([] ∷ []) judge) }
    {
        let mut candidates = Vec::new(alloc);
        candidates.push(Candidate::first(alloc, platform))?;
        Ok(Judge {
            alloc,
            candidates,
            reach: Reach::new(alloc),
            listed: Vec::new(alloc),
        })
    }

    /// The possible states now. None of them covers another: it has another platform, or can hold an entry that the other can't, now or behind the
    /// next fence.
    pub fn candidates(&self) -> &[Candidate]
        ensures { result.now ≡ self.now }
    {
        self.candidates.as_slice()
    }

    /// All answers that some IOMMU may give to a step now, each once, with where its access goes. Nothing changes. The fault is a refused
    /// allocation.
    pub fn allowed(&self, step: &Step) -> Result<Vec<Possible>, AllocError>
        ensures possible { (start : State) (traces : List (List (Step × Seen))) → AreCandidates start traces self.now →
            IfOk result (λ list. ArePossible start traces step.now list.items) }
        ensures once { IfOk result (λ list. HasNoneTwice list.items) }
    {
        let mut reach = Reach::new(self.alloc);
        find_possible(&mut reach, self.alloc, &self.candidates, step)
    }

    /// Judges a step, and goes on after it: if no IOMMU could answer so, as if nothing of the step had been seen. If it is undecided, or memory is
    /// refused, which is the fault, nothing changes.
    pub fn follow(&mut self, step: &Step, seen: &Seen) -> Result<Verdict, AllocError>
        ensures judged { (start : State) (traces : List (List (Step × Seen))) → AreCandidates start traces self.old →
            IfOk result (λ verdict. IsVerdict start traces (step.now, seen.now) verdict self.old self.new) }
        ensures unchanged { OnErr result (self.new ≡ self.old) }
    {
        let mut listed = replace(&mut self.listed, Vec::new(self.alloc));
        let verdict = self.follow_listing(step, seen, &mut listed);
        self.listed = listed;
        verdict
    }

    /// Judges a step, and goes on after it, as `follow` does. Of a step that no IOMMU could answer so, `allowed` then has all answers that some IOMMU
    /// could have given, each once, with where its access goes; of any other step nothing. If memory is refused, which is the fault, the judge stays as
    /// it was.
    pub fn follow_listing(
        &mut self,
        step: &Step,
        seen: &Seen,
        allowed: &mut Vec<Possible>,
    ) -> Result<Verdict, AllocError>
        ensures judged { (start : State) (traces : List (List (Step × Seen))) → AreCandidates start traces self.old →
            IfOk result (λ verdict. IsVerdict start traces (step.now, seen.now) verdict self.old self.new) }
        ensures listed { (start : State) (traces : List (List (Step × Seen))) → AreCandidates start traces self.old →
            IfOk result (λ verdict. IsListed start traces step.now verdict allowed.new.items) }
        ensures unchanged { OnErr result (self.new ≡ self.old) }
        ensures emptied { OnErr result (allowed.new.items ≡ []) }
    {
        allowed.clear();
        match take_in_place(&mut self.candidates, &mut self.reach, step, seen, allowed)? {
            Some(verdict) => Ok(verdict),
            None => self.follow_all(step, seen, allowed),
        }
    }

    // The same, where there are several candidates, or places.
    fn follow_all(
        &mut self,
        step: &Step,
        seen: &Seen,
        allowed: &mut Vec<Possible>,
    ) -> Result<Verdict, AllocError>
        requires { allowed.old.items ≡ [] }
        ensures judged { (start : State) (traces : List (List (Step × Seen))) → AreCandidates start traces self.old →
            IfOk result (λ verdict. IsVerdict start traces (step.now, seen.now) verdict self.old self.new) }
        ensures listed { (start : State) (traces : List (List (Step × Seen))) → AreCandidates start traces self.old →
            IfOk result (λ verdict. IsListed start traces step.now verdict allowed.new.items) }
        ensures unchanged { OnErr result (self.new ≡ self.old) }
        ensures emptied { OnErr result (allowed.new.items ≡ []) }
    {
        let next = behind(&mut self.reach, self.alloc, &self.candidates, step, seen)?;
        if are_too_many(next.len()) {
            return Ok(Verdict::Undecided);
        }
        if !next.is_empty() {
            self.candidates = next;
            return Ok(Verdict::Allowed);
        }
        let next = behind(
            &mut self.reach,
            self.alloc,
            &self.candidates,
            step,
            &Seen::nothing(),
        )?;
        if are_too_many(next.len()) {
            return Ok(Verdict::Undecided);
        }
        *allowed = find_possible(&mut self.reach, self.alloc, &self.candidates, step)?;
        self.candidates = next;
        Ok(Verdict::Refused)
    }

    /// Allows for a step that nobody saw: each candidate stays, and its states after the step are added. Call it once for each such step that there
    /// may be. If there would be more than 64 candidates it returns false and changes nothing; nor does it if memory is refused, which is the fault.
    pub fn may_take(&mut self, step: &Step) -> Result<bool, AllocError>
        ensures taken { (start : State) (traces : List (List (Step × Seen))) → AreCandidates start traces self.old →
            IfOk result (λ few. MayHaveTaken start traces step.now few self.old self.new) }
        ensures unchanged { OnErr result (self.new ≡ self.old) }
    {
        let mut all = copies(self.alloc, &self.candidates)?;
        add_behind(&mut all, &mut self.reach, self.alloc, step)?;
        if are_too_many(all.len()) {
            return Ok(false);
        }
        self.candidates = all;
        Ok(true)
    }

    /// Allows for a step that nobody saw, and that the IOMMU may have taken any number of times, as a command step. If it would leave each candidate
    /// as it is, by the registers of its command queue, that is found at once. It returns false and changes nothing if there would be more than 64
    /// candidates, or if one time more brings a new one after 64 times; nor does anything change if memory is refused, which is the fault.
    pub fn take_unseen(&mut self, step: &Step) -> Result<bool, AllocError>
        ensures taken { (start : State) (traces : List (List (Step × Seen))) → AreCandidates start traces self.old →
            IfOk result (λ all. HasTaken start traces step.now all self.old self.new) }
        ensures unchanged { OnErr result (self.new ≡ self.old) }
    {
        if are_idle(&self.candidates, step) {
            return Ok(true);
        }
        let mut all = copies(self.alloc, &self.candidates)?;
        if !close(&mut all, &mut self.reach, self.alloc, step)? {
            return Ok(false);
        }
        self.candidates = all;
        Ok(true)
    }
}
