//! The last reasons.

ghost use Rattle.std.specs.Prelude.{◌≡◌, ◌==◌, ◌≤◌, if◌then◌else◌};
ghost use Rattle.iom_account.specs.Account.{most_reasons};

use crate::notes::copy_of;
use crate::reason::Reason;
use arrayvec::ArrayVec;
use std::marker::Model;

/// How many reasons are kept.
const MOST: usize = 32;

/// The last 32 reasons, the oldest first. They stand in a ring, so none is moved if there are 32 and one more is kept.
#[derive(Drop)]
pub struct LastReasons {
    ring: ArrayVec<Reason, 32>,
    // How many of the newest stand before the others.
    newer: usize,
}

impl Model for LastReasons {
    ghost use Rattle.std.specs.Prelude.{◌≡◌, ◌≤◌, ◌++◌, drop, length, take, List};
    ghost use Rattle.iom_account.specs.Account.{most_reasons};
    ghost use Rattle.iom_account.specs.declared.reason.Reason.{Reason};

    ghost Value = { List Reason };

    ghost view = { λ kept. drop kept.newer kept.ring.items ++ take kept.newer kept.ring.items };

    ghost invariant = { λ kept. (kept.newer ≤ length kept.ring.items) × (length kept.ring.items ≤ most_reasons) };
}

impl LastReasons {
    ghost use Rattle.std.specs.Prelude.{◌≡◌, ◌++◌, [], ◌∷◌, slice_get};
    ghost use Rattle.std.specs.Option.{option_copied};
    ghost use Rattle.circular_buffer.specs.Buffer.{keep_last, last_item};

    /// None yet.
    pub fn new() -> LastReasons
        ensures { result ≡ [] }
    {
        LastReasons {
            ring: ArrayVec::new(),
            newer: 0,
        }
    }

    /// A copy of these reasons, in a ring of its own.
    pub fn copied(&self) -> LastReasons
        ensures { result ≡ self.now }
    {
        LastReasons {
            ring: copy_of(&self.ring),
            newer: self.newer,
        }
    }

    /// Reason `i`, any number; the oldest is 0. None if there is no such reason.
    #[tactic(auto, using(crate::proofs::Ring::turned_front, crate::proofs::Ring::turned_back))]
    pub fn get(&self, i: usize) -> Option<&Reason>
        ensures { option_copied result ≡ slice_get self.now i }
    {
        let older = self.ring.len() - self.newer;
        if i < older {
            self.ring.as_slice().get(self.newer + i)
        } else {
            self.ring.as_slice()[..self.newer].get(i - older)
        }
    }

    /// The newest one.
    #[tactic(auto, using(crate::proofs::Ring::turned_last, crate::proofs::Ring::turned_whole))]
    pub fn newest(&self) -> Option<&Reason>
        ensures { option_copied result ≡ last_item self.now }
    {
        if self.newer > 0 {
            self.ring.as_slice().get(self.newer - 1)
        } else {
            self.ring.as_slice().last()
        }
    }

    /// Keeps one more, and drops the oldest if there are 32.
    #[tactic(auto, using(crate::proofs::Ring::turned_on, crate::proofs::Ring::grown))]
    pub fn keep(&mut self, reason: Reason)
        ensures { self.new ≡ keep_last most_reasons (self.old ++ reason ∷ []) }
    {
        if self.ring.is_full() {
            let oldest = oldest_place(self.newer);
            self.ring.as_mut_slice()[oldest] = reason;
            self.newer = oldest + 1;
        } else {
            self.ring.insert(self.newer, reason);
            self.newer += 1;
        }
    }
}

// The index of the oldest of 32 reasons, if the `newer` newest stand before the others.
fn oldest_place(newer: usize) -> usize
    requires { newer ≤ most_reasons }
    ensures { result ≡ (if newer == most_reasons then 0 else newer) }
{
    if newer == MOST { 0 } else { newer }
}
