//! What an IOMMU may read ahead, in pauses between the steps: by memory alone, what it holds has no part in that.

ghost use Rattle.std.specs.Prelude.{◌≡◌, ℕ, List, [], IfOk, OnErr, OnOk};
ghost use Rattle.iom_core.specs.State.{State, state_on};
ghost use Rattle.iom_every.specs.Rows.{bare};
ghost use Rattle.iom_owed.specs.Behind.{KeepsBehind, newest_number};
ghost use Rattle.iom_owed.specs.Holdings.{Keeps};
ghost use Rattle.iom_owed.specs.Notes.{AddsAhead};

use crate::forms::put_forms;
use crate::gathering::{gather, no_ways};
use crate::holdings::Holdings;
use crate::noting::{at_page, renew_request};
use indexmap::IndexMap;
use iom_core::{Board, Request};
use iom_held::HeldEntries;
use iom_mem::Region;
use std::alloc::{AllocError, Global};

impl Holdings {
    ghost use Rattle.iom_core.specs.declared.access.Request.{Request};
    ghost use Rattle.iom_core.specs.declared.step.Step.{Step};

    /// Nothing held and nothing made: for a platform that has taken no step yet, and whose IOMMU may read these requests ahead, at any moment between
    /// two steps. Call `read_ahead` at once, with number 0. The fault is a refused allocation.
    pub fn reading_ahead(alloc: Global, ahead: Vec<Request>) -> Result<Holdings, AllocError>
        ensures { (start : State) → IfOk result (λ held. KeepsBehind ahead.items held start start []) }
    {
        let mut requests = IndexMap::new(alloc);
        for request in ahead.iter() {
            requests.reserve(1)?;
            renew_request(&mut requests, &at_page(request), 0);
        }
        Ok(Holdings {
            ahead,
            entries: HeldEntries::new(alloc),
            requests,
            ways: no_ways(alloc),
            forms: Vec::new(alloc),
        })
    }

    /// Puts in what may be read ahead on this board and in this memory, behind the last step, whose number this is; 0 before the first: for each request
    /// that is read ahead, what memory alone gives it. The fault is a refused allocation: then it can be called again.
    pub fn read_ahead<M: Region>(
        &mut self,
        board: &Board,
        ram: &M,
        number: u64,
    ) -> Result<(), AllocError>
        ensures keeps { (ahead : List Request) (start : State) (taken : List (Step × ℕ)) → newest_number taken ≡ number →
            KeepsBehind ahead self.old (state_on (M.memory ram.now) board.now) start taken →
            OnOk result (Keeps ahead self.new (state_on (M.memory ram.now) board.now) start taken) }
        ensures behind { (ahead : List Request) (start : State) (taken : List (Step × ℕ)) → newest_number taken ≡ number →
            KeepsBehind ahead self.old (state_on (M.memory ram.now) board.now) start taken →
            OnErr result (KeepsBehind ahead self.new (state_on (M.memory ram.now) board.now) start taken) }
    {
        for i in 0..self.ahead.len() {
            let request = self.ahead[i];
            self.read_one(board, ram, &request, number)?;
        }
        Ok(())
    }

    // Puts in what memory alone gives this request.
    fn read_one<M: Region>(
        &mut self,
        board: &Board,
        ram: &M,
        request: &Request,
        number: u64,
    ) -> Result<(), AllocError>
        ensures added { OnOk result (AddsAhead (bare (state_on (M.memory ram.now) board.now)) request.now number self.old self.new) }
        ensures unchanged { OnErr result (self.new ≡ self.old) }
    {
        let nothing = HeldEntries::new(*self.requests.allocator());
        gather(&mut self.ways, board, ram, &nothing, request)?;
        self.forms.clear();
        let features = board.registers().features();
        put_forms(&mut self.forms, features, &self.ways.reads)?;
        self.entries.renew_all(&self.forms, number)
    }
}
