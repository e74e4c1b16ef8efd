//! The steps that filled the caches, and the reasons of the last steps.

ghost use Rattle.std.specs.Prelude.{◌≡◌};
ghost use Rattle.iom_mem.specs.Memory.{Memory};
ghost use Rattle.iom_core.specs.State.{state_on};

use crate::history::History;
use crate::kept::LastReasons;
use crate::reason::Reason;
use iom_core::{Answer, Board, Lookup, Platform, Step};
use iom_mem::WritableRegion;
use std::marker::Model;

/// The steps that filled the entries in a platform's caches, and the reasons of its last 32 steps. A step is named by the number that
/// the caller gave it. No call takes memory.
#[derive(Drop)]
pub struct Account {
    history: History,
    reasons: LastReasons,
}

impl Model for Account {
    ghost use Rattle.iom_account.specs.Account.{AccountView};

    ghost Value = { AccountView };

    ghost view = { λ a. record { history = a.history; reasons = a.reasons } };
}

impl Account {
    ghost use Rattle.std.specs.Prelude.{◌≡◌, [], ◌∷◌, IsSomeAnd, slice_get};
    ghost use Rattle.std.specs.Option.{option_copied};
    ghost use Rattle.circular_buffer.specs.Buffer.{last_item};
    ghost use Rattle.iom_core.specs.Looking.{noticed, nothing_seen};
    ghost use Rattle.iom_core.specs.State.{in_front_of};
    ghost use Rattle.iom_core.specs.Table.{asked, next, told_by_step};
    ghost use Rattle.iom_account.specs.Account.{Accounts, CountsStep, GoesAlong, IsReasonOf};

    /// An empty account of this platform. Origins are known only if both caches are empty now.
    pub fn new(platform: &Platform) -> Account
        ensures begins { Accounts result platform.now platform.now [] [] }
        ensures empty { result.reasons ≡ [] }
    {
        Account::new_on(&platform.board)
    }

    /// As `new`, of this board, whatever memory it stands in front of.
    pub fn new_on(board: &Board) -> Account
        ensures begins { (memory : Memory) →
            Accounts result (state_on memory board.now) (state_on memory board.now) [] [] }
        ensures empty { result.reasons ≡ [] }
    {
        Account {
            history: History::new_on(board),
            reasons: LastReasons::new(),
        }
    }

    /// An equal account, independent of this one.
    pub fn copied(&self) -> Account
        ensures { result ≡ self.now }
    {
        Account {
            history: self.history.copied(),
            reasons: self.reasons.copied(),
        }
    }

    /// The steps that filled the entries in the caches.
    pub fn history(&self) -> &History
        ensures { result.now ≡ self.now.history }
    {
        &self.history
    }

    /// The reason of step `i` of the last 32, any number; the oldest is 0. None if there is no such step.
    pub fn reason(&self, i: u64) -> Option<&Reason>
        ensures reason { option_copied result ≡ slice_get self.now.reasons i }
    {
        self.reasons.get(i as usize)
    }

    /// The reason of the last step; None if there was none.
    pub fn newest(&self) -> Option<&Reason>
        ensures reason { option_copied result ≡ last_item self.now.reasons }
    {
        self.reasons.newest()
    }

    /// Carries out the next step on the platform, under the caller's `number`, writes its answer to `answer`, and keeps its reason. After 32
    /// steps the oldest reason is dropped. It returns what led the step's access: nothing if it made none.
    pub fn step(
        &mut self,
        platform: &mut Platform,
        step: &Step,
        number: u64,
        answer: &mut Answer,
    ) -> Lookup
        ensures seen { result ≡ told_by_step noticed nothing_seen platform.old.machine (asked platform.old step.now) }
        ensures answer { answer.new ≡ (next platform.old step.now).answer }
        ensures state { platform.new ≡ (next platform.old step.now).state }
        ensures newest { IsSomeAnd (last_item self.new.reasons) (IsReasonOf platform.old step.now number) }

        // What it leaves is known whatever it was, so also after others wrote memory.
        ensures counted { CountsStep self.old platform.old step.now number self.new platform.new }

        // The account goes along with the platform's steps; from a start whose caches are empty the origin of each is its warrant.
        ensures along { GoesAlong self.old platform.old (step.now ∷ []) number self.new platform.new }
    {
        self.step_on(&mut platform.board, &mut platform.ram, step, number, answer)
    }

    /// As `step`, of this board in front of a memory that is handed to it for the step, as one that its owner lends. Between steps others
    /// may write that memory; `others_are_not_counted` says what the account then means.
    pub fn step_on<M: WritableRegion>(
        &mut self,
        board: &mut Board,
        ram: &mut M,
        step: &Step,
        number: u64,
        answer: &mut Answer,
    ) -> Lookup
        ensures seen { result ≡ told_by_step noticed nothing_seen (in_front_of (M.memory ram.old) board.old.iommu)
            (asked (state_on (M.memory ram.old) board.old) step.now) }
        ensures answer { answer.new ≡ (next (state_on (M.memory ram.old) board.old) step.now).answer }
        ensures state { state_on (M.memory ram.new) board.new ≡ (next (state_on (M.memory ram.old) board.old) step.now).state }
        ensures borrow { M.name ram.new ≡ M.name ram.old }
        ensures newest { IsSomeAnd (last_item self.new.reasons) (IsReasonOf (state_on (M.memory ram.old) board.old) step.now number) }
        ensures counted { CountsStep self.old (state_on (M.memory ram.old) board.old) step.now number
            self.new (state_on (M.memory ram.new) board.new) }
        ensures along { GoesAlong self.old (state_on (M.memory ram.old) board.old) (step.now ∷ []) number
            self.new (state_on (M.memory ram.new) board.new) }
    {
        let (reason, seen) = self
            .history
            .step_with_reason(board, ram, step, number, answer);
        self.reasons.keep(reason);
        seen
    }
}
