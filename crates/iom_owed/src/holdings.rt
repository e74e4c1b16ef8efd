//! What an IOMMU may hold, beside a platform that takes its steps.

ghost use Rattle.std.specs.Prelude.{◌≡◌, ℕ, List, ◌∷◌, [], length, slice_get, IfOk, OnErr, OnOk};
ghost use Rattle.iom_core.specs.Looking.{by_tables};
ghost use Rattle.iom_core.specs.State.{State, in_front_of, state_on};
ghost use Rattle.iom_core.specs.Table.{executed, next, request_of_step};
ghost use Rattle.iom_every.specs.Rows.{bare};
ghost use Rattle.iom_owed.specs.Behind.{KeepsBehind};
ghost use Rattle.iom_owed.specs.Holdings.{Keeps};
ghost use Rattle.iom_owed.specs.Alone.{AreStepTold};
ghost use Rattle.iom_owed.specs.Newest.{steps_of};
ghost use Rattle.iom_owed.specs.Notes.{Adds, behind_command};
ghost use Rattle.iom_owed.specs.Settled.{IsStepBeside, IsStepJudged};

use crate::executing::executed;
use crate::gathering::{gather, no_ways, note};
use crate::noting::{Made, Numbers, made_at};
use crate::settling::{Judgement, judge};
use indexmap::IndexMap;
use iom_core::{Board, Request, Step};
use iom_every::Entry;
use iom_held::HeldEntries;
use iom_mem::Region;
use iom_ways::Ways;
use std::alloc::{AllocError, Global};
use std::marker::Model;

/// The entries that an IOMMU may hold after the steps of a platform, whatever it keeps and forgets, and the requests that these steps made.
#[derive(Drop)]
pub struct Holdings {
    // The requests that may be read ahead.
    pub(crate) ahead: Vec<Request>,
    // The entries, each once.
    pub(crate) entries: HeldEntries,
    // The requests, each once, with their numbers.
    pub(crate) requests: Numbers,
    // The ways of the last step's request, and all forms of what they read: room that the next step uses again.
    pub(crate) ways: Ways,
    pub(crate) forms: Vec<Entry>,
}

impl Model for Holdings {
    ghost use Rattle.iom_owed.specs.Holdings.{HoldingsView};
    ghost use Rattle.iom_owed.specs.Keys.{made_in};

    ghost Value = { HoldingsView };

    ghost view = { λ h. record { ahead = h.ahead.items; entries = h.entries; requests = made_in h.requests.entries } };
}

impl Holdings {
    ghost use Rattle.iom_core.specs.declared.access.Request.{Request};
    ghost use Rattle.iom_core.specs.declared.step.Step.{Step};

    /// Nothing held and nothing made: for a platform that has taken no step yet. Nothing is read ahead. It takes no memory.
    pub fn new(alloc: Global) -> Holdings
        ensures { (start : State) → Keeps [] result start start [] }
    {
        Holdings {
            ahead: Vec::new(alloc),
            entries: HeldEntries::new(alloc),
            requests: IndexMap::new(alloc),
            ways: no_ways(alloc),
            forms: Vec::new(alloc),
        }
    }

    /// The entries that may be held now, each once.
    pub fn entries(&self) -> &HeldEntries
        ensures { result.now ≡ self.now.entries }
    {
        &self.entries
    }

    /// How many requests the steps made or may be read ahead, each counted once, for the first byte of its page.
    pub fn request_count(&self) -> usize
        ensures { result ≡ length self.now.requests }
    {
        self.requests.len()
    }

    /// The request of this place among those that may be read ahead or that the steps made, in the order in which they were first made; None beyond
    /// the last.
    pub fn request(&self, i: usize) -> Option<Made>
        ensures { result ≡ slice_get self.now.requests i }
    {
        made_at(&self.requests, i)
    }

    /// Follows a step that this board takes next in front of this memory, under the caller's `number`: call it before the step, and `read_ahead`
    /// behind it, if requests are read ahead. The fault is a refused allocation, and then nothing has changed.
    pub fn follow<M: Region>(
        &mut self,
        board: &Board,
        ram: &M,
        step: &Step,
        number: u64,
    ) -> Result<(), AllocError>
        ensures behind { (ahead : List Request) (start : State) (taken : List (Step × ℕ)) → Keeps ahead self.old (state_on (M.memory ram.now) board.now) start taken →
            OnOk result (KeepsBehind ahead self.new (next (state_on (M.memory ram.now) board.now) step.now).state start ((step.now, number) ∷ taken)) }
        ensures keeps { (start : State) (taken : List (Step × ℕ)) → Keeps [] self.old (state_on (M.memory ram.now) board.now) start taken →
            OnOk result (Keeps [] self.new (next (state_on (M.memory ram.now) board.now) step.now).state start ((step.now, number) ∷ taken)) }
        ensures unchanged { OnErr result (self.new ≡ self.old) }
    {
        let request = board.request_of(ram, step);
        self.add(board, ram, request, number)?;
        self.follow_command(board, ram, step, number);
        Ok(())
    }

    /// Follows a step as `follow` does, and answers what is found of its request before the step: where it may go elsewhere, as `unsettled` says
    /// it; and if it is settled, whether it may go there by another way than the tables'. If it makes none, both are None.
    pub fn judge_and_follow<M: Region>(
        &mut self,
        board: &Board,
        ram: &M,
        step: &Step,
        number: u64,
    ) -> Result<Judgement, AllocError>
        ensures judged { (ahead : List Request) (start : State) (taken : List (Step × ℕ)) → Keeps ahead self.old (state_on (M.memory ram.now) board.now) start taken →
            IfOk result (λ judged. IsStepJudged ahead self.old start (steps_of taken) (request_of_step (state_on (M.memory ram.now) board.now) step.now) judged.unsettled) }
        ensures beside { (ahead : List Request) (start : State) (taken : List (Step × ℕ)) → Keeps ahead self.old (state_on (M.memory ram.now) board.now) start taken →
            IfOk result (IsStepBeside ahead self.old start (steps_of taken) (request_of_step (state_on (M.memory ram.now) board.now) step.now)) }
        ensures behind { (ahead : List Request) (start : State) (taken : List (Step × ℕ)) → Keeps ahead self.old (state_on (M.memory ram.now) board.now) start taken →
            OnOk result (KeepsBehind ahead self.new (next (state_on (M.memory ram.now) board.now) step.now).state start ((step.now, number) ∷ taken)) }
        ensures keeps { (start : State) (taken : List (Step × ℕ)) → Keeps [] self.old (state_on (M.memory ram.now) board.now) start taken →
            OnOk result (Keeps [] self.new (next (state_on (M.memory ram.now) board.now) step.now).state start ((step.now, number) ∷ taken)) }
        ensures unchanged { OnErr result (self.new ≡ self.old) }
    {
        let request = board.request_of(ram, step);
        let found = self.judge_and_add(board, ram, request, number)?;
        self.follow_command(board, ram, step, number);
        Ok(found)
    }

    // Adds a step's request, if it makes one, and the entries that it can read.
    fn add<M: Region>(
        &mut self,
        board: &Board,
        ram: &M,
        request: Option<Request>,
        number: u64,
    ) -> Result<(), AllocError>
        ensures added { OnOk result (Adds (bare (state_on (M.memory ram.now) board.now)) request number self.old self.new) }
        ensures unchanged { OnErr result (self.new ≡ self.old) }
    {
        let Some(request) = request else {
            return Ok(());
        };
        gather(&mut self.ways, board, ram, &self.entries, &request)?;
        note(
            &mut self.entries,
            &mut self.requests,
            &mut self.forms,
            board.registers().features(),
            &request,
            &self.ways.reads,
            number,
        )
    }

    // Adds what a request may read, if there is one; and answers what is found of it, by the ways that were gathered for it.
    fn judge_and_add<M: Region>(
        &mut self,
        board: &Board,
        ram: &M,
        request: Option<Request>,
        number: u64,
    ) -> Result<Judgement, AllocError>
        ensures told { IfOk result (AreStepTold (state_on (M.memory ram.now) board.now) self.old.entries request) }
        ensures added { OnOk result (Adds (bare (state_on (M.memory ram.now) board.now)) request number self.old self.new) }
        ensures unchanged { OnErr result (self.new ≡ self.old) }
    {
        let Some(request) = request else {
            return Ok(Judgement {
                unsettled: None,
                beside: None,
            });
        };
        gather(&mut self.ways, board, ram, &self.entries, &request)?;
        let alloc = *self.requests.allocator();
        let found = judge(alloc, board, ram, &self.entries, &self.ways.led, &request)?;
        note(
            &mut self.entries,
            &mut self.requests,
            &mut self.forms,
            board.registers().features(),
            &request,
            &self.ways.reads,
            number,
        )?;
        Ok(found)
    }

    // Follows the command that a step executes.
    fn follow_command<M: Region>(&mut self, board: &Board, ram: &M, step: &Step, number: u64)
        ensures { self.new ≡ behind_command number (executed (state_on (M.memory ram.now) board.now) step.now) self.old }
    {
        self.entries.follow(executed(board, ram, step), number);
    }
}
