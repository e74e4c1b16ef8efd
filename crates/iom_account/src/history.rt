//! Which steps filled what the caches hold, beside a platform that takes its steps.

ghost use Rattle.std.specs.Prelude.{◌≡◌, ◌↔◌, ℕ, List, [], ◌∷◌, ◌++◌, IsSomeAnd, Some, None, get_or, slice_get, length};
ghost use Rattle.iom_mem.specs.Memory.{Memory};
ghost use Rattle.iom_cache.specs.Keys.{same_did};
ghost use Rattle.iom_cache.specs.Places.{place_of};
ghost use Rattle.iom_core.specs.Looking.{noticed, nothing_seen};
ghost use Rattle.iom_core.specs.State.{in_front_of, state_on};
ghost use Rattle.iom_core.specs.Table.{asked, next, request_of_step, told_by_step};
ghost use Rattle.iom_core.specs.Warrants.{IsUncached};
ghost use Rattle.iom_account.specs.Beside.{beside};
ghost use Rattle.iom_account.specs.Following.{ComesFrom, ContextFrom, Follows, HasNoAccess, PageFrom, context_noted, noted, noted_reading, noted_so, numbers_of, origin_on, origin_so, walk_noted};

use crate::notes::{copy_of, note, zeros};
use crate::origin::NumberedWarrant;
use crate::reads::Reads;
use crate::reason::{Reason, address_by, stale_by, tables_for};
use arrayvec::ArrayVec;
use iom_cache::{CONTEXT_ROOM, PAGE_ROOM, key_of};
use iom_core::{Answer, Board, Lookup, Platform, Request, Step, Way};
use iom_mem::WritableRegion;
use std::marker::Model;

/// The steps that filled the entries in a platform's caches, each by the number that the caller gave it.
#[derive(Drop)]
pub struct History {
    // Beside each place of the context cache, the number of the step that filled it.
    pub(crate) contexts: ArrayVec<u64, CONTEXT_ROOM>,
    // Beside each place of the translation cache, the number of the step that filled it.
    pub(crate) walks: ArrayVec<u64, PAGE_ROOM>,
    // Beside the same place, the number of the step that had filled the context under which it walked.
    pub(crate) walk_contexts: ArrayVec<u64, PAGE_ROOM>,
}

impl Model for History {
    ghost use Rattle.iom_account.specs.Following.{HistoryView};

    ghost Value = { HistoryView };

    ghost view = { λ h. record { contexts = h.contexts.items; walks = h.walks.items; walk_contexts = h.walk_contexts.items } };
}

/// A step's access.
#[derive(Clone, Copy)]
pub struct Taken {
    /// The request; None if the step made no access.
    pub request: Option<Request>,
    /// The context, page and way that it was led by; nothing if it made no access.
    pub seen: Lookup,
    /// The origin of the translation that it used; None if it made no access, or was denied.
    pub origin: Option<NumberedWarrant>,
}

/// Which steps filled a place of the translation cache.
#[derive(Clone, Copy, Debug, PartialEq)]
pub struct FilledBy {
    /// The number of the step that had filled the context under which it walked.
    pub context: u64,
    /// The number of the step that filled the place.
    pub walk: u64,
}

impl History {
    ghost use Rattle.iom_core.specs.State.{State};
    ghost use Rattle.iom_core.specs.declared.step.Step.{Step};
    ghost use Rattle.iom_ddt.specs.declared.context.Context.{Context};
    ghost use Rattle.iom_nested.specs.declared.translation.Hit.{Hit};
    ghost use Rattle.iom_cache.specs.declared.key.Key.{Key};
    ghost use Rattle.iom_account.specs.Account.{IsReasonOf};

    /// An empty history of this platform. Origins are known only if both caches are empty now. It takes no memory.
    pub fn new(platform: &Platform) -> History
        ensures { IsUncached platform.now → Follows result platform.now platform.now [] [] }
    {
        History::new_on(&platform.board)
    }

    /// As `new`, of this board, whatever memory it stands in front of.
    pub fn new_on(board: &Board) -> History
        ensures { (memory : Memory) → IsUncached (state_on memory board.now) →
            Follows result (state_on memory board.now) (state_on memory board.now) [] [] }
    {
        let pages = board.trans().len();
        History {
            contexts: zeros(board.contexts().len()),
            walks: zeros(pages),
            walk_contexts: zeros(pages),
        }
    }

    /// An equal history, independent of this one. It takes no memory.
    pub fn copied(&self) -> History
        ensures { result ≡ self.now }
    {
        History {
            contexts: copy_of(&self.contexts),
            walks: copy_of(&self.walks),
            walk_contexts: copy_of(&self.walk_contexts),
        }
    }

    /// Carries out the next step on the platform, under the caller's `number`, and writes its answer to `answer`. It returns the step's
    /// access: the request, how it was led, and the origin of its translation. It takes no memory.
    pub fn step(
        &mut self,
        platform: &mut Platform,
        step: &Step,
        number: u64,
        answer: &mut Answer,
    ) -> Taken
        ensures answer { answer.new ≡ (next platform.old step.now).answer }
        ensures state { platform.new ≡ (next platform.old step.now).state }
        ensures request { result.request ≡ request_of_step platform.old step.now }
        ensures seen { result.seen ≡ told_by_step noticed nothing_seen platform.old.machine (asked platform.old step.now) }
        ensures noted { self.new ≡ noted platform.old platform.new (request_of_step platform.old step.now) number self.old }
        ensures told { result.origin ≡ origin_so self.new platform.new (request_of_step platform.old step.now) number result.seen.way }
        // Whatever the caches held at the start: no origin if the step made no access or was denied, else one.
        ensures none { (result.origin ≡ None) ↔ HasNoAccess platform.old (request_of_step platform.old step.now) }

        // From a start whose caches are empty the history follows the steps, and the origin is the step's warrant, by numbers.
        ensures follows { (start : State) (steps : List Step) (numbers : List ℕ) →
            Follows self.old platform.old start steps numbers →
            Follows self.new platform.new start (steps ++ step.now ∷ []) (numbers ++ number ∷ []) }
        ensures origin { (start : State) (steps : List Step) (numbers : List ℕ) →
            Follows self.old platform.old start steps numbers →
            ComesFrom start (steps ++ step.now ∷ []) (numbers ++ number ∷ []) (length steps) result.origin }
    {
        self.step_on(&mut platform.board, &mut platform.ram, step, number, answer)
    }

    /// As `step`, of this board in front of a memory that is handed to it for the step, as one that its owner lends. Between steps others
    /// may write that memory; `others_are_not_counted` says what the history then means.
    pub fn step_on<M: WritableRegion>(
        &mut self,
        board: &mut Board,
        ram: &mut M,
        step: &Step,
        number: u64,
        answer: &mut Answer,
    ) -> Taken
        ensures answer { answer.new ≡ (next (state_on (M.memory ram.old) board.old) step.now).answer }
        ensures state { state_on (M.memory ram.new) board.new ≡ (next (state_on (M.memory ram.old) board.old) step.now).state }
        ensures borrow { M.name ram.new ≡ M.name ram.old }
        ensures request { result.request ≡ request_of_step (state_on (M.memory ram.old) board.old) step.now }
        ensures seen { result.seen ≡ told_by_step noticed nothing_seen (in_front_of (M.memory ram.old) board.old.iommu)
            (asked (state_on (M.memory ram.old) board.old) step.now) }
        ensures noted { let before = state_on (M.memory ram.old) board.old in
            self.new ≡ noted before (state_on (M.memory ram.new) board.new) (request_of_step before step.now) number self.old }
        ensures told { result.origin ≡ origin_so self.new (state_on (M.memory ram.new) board.new)
            (request_of_step (state_on (M.memory ram.old) board.old) step.now) number result.seen.way }
        ensures none { let before = state_on (M.memory ram.old) board.old in
            (result.origin ≡ None) ↔ HasNoAccess before (request_of_step before step.now) }
        ensures follows { (start : State) (steps : List Step) (numbers : List ℕ) →
            Follows self.old (state_on (M.memory ram.old) board.old) start steps numbers →
            Follows self.new (state_on (M.memory ram.new) board.new) start (steps ++ step.now ∷ []) (numbers ++ number ∷ []) }
        ensures origin { (start : State) (steps : List Step) (numbers : List ℕ) →
            Follows self.old (state_on (M.memory ram.old) board.old) start steps numbers →
            ComesFrom start (steps ++ step.now ∷ []) (numbers ++ number ∷ []) (length steps) result.origin }
    {
        let asked = board.request_of(ram, step);
        self.take(board, ram, step, asked, number, answer)
    }

    /// As `step_on`, and returns the step's reason, and what led its access: nothing if it made none. It walks the tables once more before the step, to see whether something cached leads the
    /// access otherwise.
    pub fn step_with_reason<M: WritableRegion>(
        &mut self,
        board: &mut Board,
        ram: &mut M,
        step: &Step,
        number: u64,
        answer: &mut Answer,
    ) -> (Reason, Lookup)
        ensures answer { answer.new ≡ (next (state_on (M.memory ram.old) board.old) step.now).answer }
        ensures state { state_on (M.memory ram.new) board.new ≡ (next (state_on (M.memory ram.old) board.old) step.now).state }
        ensures borrow { M.name ram.new ≡ M.name ram.old }
        ensures reason { IsReasonOf (state_on (M.memory ram.old) board.old) step.now number result.0 }
        ensures seen { result.1 ≡ told_by_step noticed nothing_seen (in_front_of (M.memory ram.old) board.old.iommu)
            (asked (state_on (M.memory ram.old) board.old) step.now) }
        ensures noted { let before = state_on (M.memory ram.old) board.old in
            self.new ≡ noted before (state_on (M.memory ram.new) board.new) (request_of_step before step.now) number self.old }
        ensures none { let before = state_on (M.memory ram.old) board.old in
            (result.0.origin ≡ None) ↔ HasNoAccess before (request_of_step before step.now) }
        ensures follows { (start : State) (steps : List Step) (numbers : List ℕ) →
            Follows self.old (state_on (M.memory ram.old) board.old) start steps numbers →
            Follows self.new (state_on (M.memory ram.new) board.new) start (steps ++ step.now ∷ []) (numbers ++ number ∷ []) }
        ensures origin { (start : State) (steps : List Step) (numbers : List ℕ) →
            Follows self.old (state_on (M.memory ram.old) board.old) start steps numbers →
            ComesFrom start (steps ++ step.now ∷ []) (numbers ++ number ∷ []) (length steps) result.0.origin }
    {
        let request = board.request_of(ram, step);
        let tables = tables_for(board, ram, request);
        let taken = self.take(board, ram, step, request, number, answer);
        let seen = taken.seen;
        let way = seen.way;
        let reason = Reason {
            number,
            request,
            origin: taken.origin,
            address: address_by(request, &way),
            stale: stale_by(&way, tables),
        };
        (reason, seen)
    }

    /// As `step_on`, if nothing of the step's access is asked for.
    pub fn follow<M: WritableRegion>(
        &mut self,
        board: &mut Board,
        ram: &mut M,
        step: &Step,
        number: u64,
        answer: &mut Answer,
    )
        ensures answer { answer.new ≡ (next (state_on (M.memory ram.old) board.old) step.now).answer }
        ensures state { state_on (M.memory ram.new) board.new ≡ (next (state_on (M.memory ram.old) board.old) step.now).state }
        ensures borrow { M.name ram.new ≡ M.name ram.old }
        ensures noted { let before = state_on (M.memory ram.old) board.old in
            self.new ≡ noted before (state_on (M.memory ram.new) board.new) (request_of_step before step.now) number self.old }
        ensures follows { (start : State) (steps : List Step) (numbers : List ℕ) →
            Follows self.old (state_on (M.memory ram.old) board.old) start steps numbers →
            Follows self.new (state_on (M.memory ram.new) board.new) start (steps ++ step.now ∷ []) (numbers ++ number ∷ []) }
    {
        let request = board.request_of(ram, step);
        let mut reads = Reads::nothing();
        board.step_into(ram, step, answer, &mut reads);
        self.note_reads(board, request, reads, number);
    }

    // As `step_on`, of a step that makes this request.
    fn take<M: WritableRegion>(
        &mut self,
        board: &mut Board,
        ram: &mut M,
        step: &Step,
        request: Option<Request>,
        number: u64,
        answer: &mut Answer,
    ) -> Taken
        requires asked { request ≡ request_of_step (state_on (M.memory ram.old) board.old) step.now }
        ensures answer { answer.new ≡ (next (state_on (M.memory ram.old) board.old) step.now).answer }
        ensures state { state_on (M.memory ram.new) board.new ≡ (next (state_on (M.memory ram.old) board.old) step.now).state }
        ensures borrow { M.name ram.new ≡ M.name ram.old }
        ensures request { result.request ≡ request }
        ensures seen { result.seen ≡ told_by_step noticed nothing_seen (in_front_of (M.memory ram.old) board.old.iommu)
            (asked (state_on (M.memory ram.old) board.old) step.now) }
        ensures noted { self.new ≡ noted_so (state_on (M.memory ram.new) board.new) request result.seen number self.old }
        ensures told { result.origin ≡ origin_so self.new (state_on (M.memory ram.new) board.new) request number result.seen.way }
    {
        let mut seen = Lookup::nothing();
        board.step_into(ram, step, answer, &mut seen);
        let origin = self.note_step(board, request, &seen, number);
        Taken {
            request,
            seen,
            origin,
        }
    }

    /// The number of the step that filled place `i` of the context cache; the oldest place is 0. The number is 0 if the place was empty
    /// from the start on. None if there is no such place.
    pub fn context(&self, i: u64) -> Option<u64>
        ensures number { result ≡ slice_get self.now.contexts i }
        ensures from { (platform start : State) (steps : List Step) (numbers : List ℕ) (did : ℕ) (context : Context) →
            Follows self.now platform start steps numbers →
            slice_get platform.machine.contexts i ≡ Some (Some (did, context)) →
            IsSomeAnd result (ContextFrom start steps numbers did context) }
    {
        self.context_beside(i)
    }

    /// The numbers of the steps that filled place `i` of the translation cache, and the context of its walk; the oldest place is 0. Both
    /// are 0 if the place was empty from the start on. None if there is no such place.
    pub fn page(&self, i: u64) -> Option<FilledBy>
        ensures numbers { result ≡ numbers_of (slice_get self.now.walk_contexts i) (slice_get self.now.walks i) }
        ensures from { (platform start : State) (steps : List Step) (numbers : List ℕ) (key : Key) (hit : Hit) →
            Follows self.now platform start steps numbers →
            slice_get platform.machine.pages i ≡ Some (Some (key, hit)) →
            IsSomeAnd result (λ filled. PageFrom start steps numbers key hit filled.context filled.walk) }
    {
        self.page_beside(i)
    }

    /// The number of the step that filled the live context of a device id, 24 bits; None if there is none.
    pub fn context_of(&self, platform: &Platform, did: u32) -> Option<u64>
        ensures { result ≡ slice_get self.now.contexts (place_of (same_did did) platform.now.machine.contexts) }
    {
        self.context_on(&platform.board, did)
    }

    /// As `context_of`, of this board.
    pub fn context_on(&self, board: &Board, did: u32) -> Option<u64>
        ensures { result ≡ slice_get self.now.contexts (place_of (same_did did) board.now.iommu.contexts) }
    {
        self.context_beside(board.contexts().place_of(did) as u64)
    }

    // The number beside place `i` of the context cache.
    fn context_beside(&self, i: u64) -> Option<u64>
        ensures { result ≡ slice_get self.now.contexts i }
    {
        self.contexts.as_slice().get(i as usize).copied()
    }

    // The numbers beside place `i` of the translation cache.
    fn page_beside(&self, i: u64) -> Option<FilledBy>
        ensures { result ≡ numbers_of (slice_get self.now.walk_contexts i) (slice_get self.now.walks i) }
    {
        let place = i as usize;
        let context = self.walk_contexts.as_slice().get(place).copied()?;
        let walk = self.walks.as_slice().get(place).copied()?;
        Some(FilledBy { context, walk })
    }

    // Notes what a step with this request read, as it was seen, and returns the origin of the translation that it used.
    fn note_step(
        &mut self,
        board: &Board,
        request: Option<Request>,
        seen: &Lookup,
        number: u64,
    ) -> Option<NumberedWarrant>
        ensures noted { (memory : Memory) → self.new ≡ noted_so (state_on memory board.now) request seen.now number self.old }
        ensures origin { (memory : Memory) → result ≡ origin_so self.new (state_on memory board.now) request number seen.now.way }
    {
        self.note_reads(board, request, Reads::of(seen), number);
        self.origin(board, &request?, number, &seen.way)
    }

    // Notes what a step with this request read.
    fn note_reads(&mut self, board: &Board, request: Option<Request>, reads: Reads, number: u64)
        ensures { (memory : Memory) → self.new ≡ noted_reading (state_on memory board.now) request reads number self.old }
    {
        if let Some(request) = request {
            self.note_context(reads.context, number);
            self.note_walk(board, reads.page, request.did, number);
        }
    }

    // Notes the step's number beside a context that it read.
    fn note_context(&mut self, read: bool, number: u64)
        ensures { self.new ≡ context_noted read number self.old }
    {
        if read {
            note(&mut self.contexts, number);
        }
    }

    // Notes the step's number, and that of its context, beside a page that a step of device `did` read.
    fn note_walk(&mut self, board: &Board, read: bool, did: u32, number: u64)
        ensures { self.new ≡ walk_noted read number (beside (same_did did) board.now.iommu.contexts self.old.contexts number) self.old }
    {
        if read {
            let base = self.context_number(board, did, number);
            note(&mut self.walks, number);
            note(&mut self.walk_contexts, base);
        }
    }

    // The origin of the translation that the last step used for this request, which was led this way.
    fn origin(
        &self,
        board: &Board,
        request: &Request,
        number: u64,
        way: &Way,
    ) -> Option<NumberedWarrant>
        ensures { (memory : Memory) → result ≡ origin_on self.now (state_on memory board.now) request.now number way.now }
    {
        match way {
            Way::Denied(_) => None,
            Way::Register => Some(NumberedWarrant::Register),
            Way::Context(_) => {
                let context = self.context_number(board, request.did, number);
                Some(NumberedWarrant::Context { context })
            }
            Way::Walked(context, _) => {
                let key = key_of(context, request.did, request.iova, request.kind);
                let place = board.trans().place_of(&key);
                Some(NumberedWarrant::Walked {
                    context: number_at(self.walk_contexts.as_slice(), place, number),
                    walk: number_at(self.walks.as_slice(), place, number),
                    current: self.context_number(board, request.did, number),
                })
            }
        }
    }

    // The number beside the live context of a device id, 24 bits.
    fn context_number(&self, board: &Board, did: u32, number: u64) -> u64
        ensures { result ≡ beside (same_did did) board.now.iommu.contexts self.now.contexts number }
    {
        let place = board.contexts().place_of(did);
        number_at(self.contexts.as_slice(), place, number)
    }
}

// The number beside a place; `number` where there is none.
fn number_at(notes: &[u64], place: usize, number: u64) -> u64
    ensures { result ≡ get_or notes.now place number }
{
    notes.get(place).copied().unwrap_or(number)
}
