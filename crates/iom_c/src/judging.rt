//! What a platform's holdings say of requests, in front of the words that it is lent.

ghost use Rattle.std.specs.Prelude.{◌≡◌, length, IfOk};
ghost use Rattle.iom_mem.specs.Lent.{memory_of};
ghost use Rattle.iom_core.specs.State.{state_on};
ghost use Rattle.iom_c.specs.Handles.{count_of, state_in};
ghost use Rattle.iom_c.specs.Judging.{AreOwedBy, IsFoundBy};

use crate::held::{Held, Lent};
use iom_core::{Board, Request};
use iom_mem::{Region, SharedRam};
use iom_owed::{Holdings, Owed, Unsettled};
use std::alloc::AllocError;

// The requests that were made and aren't settled on this board in front of this memory. Nothing is read ahead.
fn owed_on<M: Region>(holdings: &Holdings, board: &Board, ram: &M) -> Result<Vec<Owed>, AllocError>
    ensures { IfOk result (λ owed. AreOwedBy holdings.now (state_on (M.memory ram.now) board.now) owed.items) }
{
    holdings.owed(board, ram)
}

impl Held {
    /// Where a request may be led elsewhere than by the tables in front of these words; None if it is settled. The fault is a refused
    /// allocation.
    pub fn unsettled(
        &self,
        words: &[u64],
        holdings: &Holdings,
        request: &Request,
    ) -> Result<Option<Unsettled>, AllocError>
        requires { length words.now ≡ count_of self.now }
        ensures { IfOk result (IsFoundBy holdings.now (state_in self.now words.now) request.now) }
    {
        match self {
            Held::Own(platform) => holdings.unsettled(&platform.board, &platform.ram, request),
            Held::Lent(lent) => lent.unsettled(words, holdings, request),
        }
    }

    /// The requests that were made and aren't settled in front of these words. The fault is a refused allocation.
    pub fn owed(&self, words: &[u64], holdings: &Holdings) -> Result<Vec<Owed>, AllocError>
        requires { length words.now ≡ count_of self.now }
        ensures { IfOk result (λ owed. AreOwedBy holdings.now (state_in self.now words.now) owed.items) }
    {
        match self {
            Held::Own(platform) => owed_on(holdings, &platform.board, &platform.ram),
            Held::Lent(lent) => lent.owed(words, holdings),
        }
    }
}

impl Lent {
    // Where a request may be led elsewhere than by the tables in these words.
    fn unsettled(
        &self,
        words: &[u64],
        holdings: &Holdings,
        request: &Request,
    ) -> Result<Option<Unsettled>, AllocError>
        requires { length words.now ≡ self.now.count }
        ensures { IfOk result (IsFoundBy holdings.now (state_on (memory_of self.now.base words.now) self.now.board) request.now) }
    {
        let ram = SharedRam::new(self.base, words);
        holdings.unsettled(&self.board, &ram, request)
    }

    // The requests that were made and aren't settled in front of these words.
    fn owed(&self, words: &[u64], holdings: &Holdings) -> Result<Vec<Owed>, AllocError>
        requires { length words.now ≡ self.now.count }
        ensures { IfOk result (λ owed. AreOwedBy holdings.now (state_on (memory_of self.now.base words.now) self.now.board) owed.items) }
    {
        let ram = SharedRam::new(self.base, words);
        owed_on(holdings, &self.board, &ram)
    }
}
