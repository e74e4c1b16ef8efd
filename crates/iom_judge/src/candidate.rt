//! A possible state of an IOMMU.

ghost use Rattle.std.specs.Prelude.{◌≡◌, ◌∷◌, []};

use iom_core::{Answer, Denial, Platform};
use iom_held::HeldEntries;
use std::alloc::{AllocError, Global};
use std::marker::Model;

/// A possible state of an IOMMU after the steps so far: its platform, all entries that it can hold, and its last answer.
#[derive(Drop)]
pub struct Candidate {
    // Its caches aren't used.
    pub(crate) platform: Platform,
    // The entries that it can hold.
    pub(crate) held: HeldEntries,
    // Its answer to the last step.
    pub(crate) answer: Answer,
    // Where the access of the last step went; None: it made none.
    pub(crate) goes: Option<Result<u64, Denial>>,
}

impl Model for Candidate {
    ghost use Rattle.iom_judge.specs.Candidates.{CandidateView};

    ghost Value = { CandidateView };

    ghost view = { λ c. record { platform = c.platform; held = c.held; answer = c.answer; goes = c.goes } };
}

impl Candidate {
    ghost use Rattle.iom_judge.specs.Candidates.{AreCandidates, first_of};

    /// A platform with nothing held, before the first step.
    pub(crate) fn first(alloc: Global, platform: Platform) -> Candidate
        ensures first { result ≡ first_of platform }
        ensures begins { AreCandidates platform ([] ∷ []) (result ∷ []) }
    {
        Candidate {
            platform,
            held: HeldEntries::new(alloc),
            answer: Answer::Done,
            goes: None,
        }
    }

    /// The platform.
    pub fn platform(&self) -> &Platform
        ensures { result.now ≡ self.now.platform }
    {
        &self.platform
    }

    /// Its answer to the last step; `Done` before the first.
    pub fn answer(&self) -> &Answer
        ensures { result.now ≡ self.now.answer }
    {
        &self.answer
    }

    /// Where the access of the last step went, or why it was denied; None: it made none.
    pub fn goes(&self) -> Option<Result<u64, Denial>>
        ensures { result ≡ self.now.goes }
    {
        self.goes
    }
}
