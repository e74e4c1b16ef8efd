ghost use Rattle.std.specs.Prelude.{ℕ, ◌≡◌, ◌*◌, ◌↔◌, List, [], ◌∷◌, length, slice_get, IfOk, IsTrue};
ghost use Rattle.iom_mem.specs.Lent.{is_lendable, memory_of};
ghost use Rattle.iom_core.specs.Looking.{seen_in};
ghost use Rattle.iom_core.specs.State.{state_on};
ghost use Rattle.iom_core.specs.Table.{next};
ghost use Rattle.iom_c.specs.Handles.{base_of, BeginsAt, board_at_reset, board_of, count_of, lending, loan_of, size_in, state_in};
ghost use Rattle.iom_c.specs.Keeping.{GoesOn};
ghost use Rattle.iom_c.specs.Messages.{held_without_oldest};

use crate::told::Told;
use iom_account::History;
use iom_core::{Answer, Board, Lookup, Platform, Request, Step};
use iom_mem::{LentRam, SharedRam};
use iom_messages::Message;
use std::alloc::{AllocError, Global};
use std::marker::Model;

/// The platform of a handle.
#[derive(Drop)]
pub enum Held {
    /// With memory of its own.
    Own(Platform),
    /// In front of memory that is lent for each call.
    Lent(Lent),
}

/// One IOMMU, and up to eight block devices, in front of memory that is lent for each call.
#[derive(Drop)]
pub struct Lent {
    /// The IOMMU and the block devices.
    pub(crate) board: Board,
    /// The first physical address of the memory.
    pub(crate) base: u64,
    /// How many words of eight bytes the memory has.
    pub(crate) count: u64,
}

impl Model for Lent {
    ghost use Rattle.std.specs.Prelude.{◌*◌, IsTrue};
    ghost use Rattle.iom_mem.specs.Lent.{is_lendable};
    ghost use Rattle.iom_c.specs.Lending.{Lending};

    ghost Value = { Lending };

    ghost view = { λ l. record { board = l.board; base = l.base; count = l.count } };

    ghost invariant = { λ l. IsTrue (is_lendable l.base (8 * l.count)) };
}

impl Held {
    /// This IOMMU and these block devices in front of memory that is lent: `size` bytes from physical address `base` on. `is_lendable` says
    /// which memory there may be.
    pub fn lent(board: Board, base: u64, size: u64) -> Held
        requires { IsTrue (is_lendable base size) }
        ensures { result ≡ lending board base size }
    {
        let count = size / 8;
        Held::Lent(Lent { board, base, count })
    }

    /// An equal platform. The fault is a refused allocation.
    pub fn try_clone(&self, alloc: Global) -> Result<Held, AllocError>
        ensures { IfOk result (λ copy. copy ≡ self.now) }
    {
        match self {
            Held::Own(platform) => Ok(Held::Own(platform.try_clone(alloc)?)),
            Held::Lent(lent) => Ok(Held::Lent(lent.try_clone(alloc)?)),
        }
    }

    /// The IOMMU and the block devices.
    pub fn board(&self) -> &Board
        ensures { result.now ≡ board_of self.now }
    {
        match self {
            Held::Own(platform) => &platform.board,
            Held::Lent(lent) => &lent.board,
        }
    }

    /// A history that begins at this platform, whatever it is lent.
    pub fn history(&self) -> History
        ensures { BeginsAt result (board_of self.now) }
    {
        History::new_on(self.board())
    }

    /// Resets the registers and the caches; memory and block devices stay.
    pub fn reset(&mut self)
        ensures board { board_of self.new ≡ board_at_reset (board_of self.old) }
        ensures memory { (words : List ℕ) → (state_in self.new words).machine.memory ≡ (state_in self.old words).machine.memory }
        ensures loan { loan_of self.new ≡ loan_of self.old }
    {
        match self {
            Held::Own(platform) => platform.board.reset(),
            Held::Lent(lent) => lent.board.reset(),
        }
    }

    /// Takes out the oldest message that is kept; None if there is none.
    pub fn take_message(&mut self) -> Option<Message>
        ensures message { result ≡ slice_get (board_of self.old).messages.kept 0 }
        ensures left { self.new ≡ held_without_oldest self.old }
    {
        match self {
            Held::Own(platform) => platform.board.take_message(),
            Held::Lent(lent) => lent.board.take_message(),
        }
    }

    /// Whether these words are what is lent to it: none if it has memory of its own.
    pub fn takes(&self, words: &[u64]) -> bool
        ensures { IsTrue result ↔ (length words.now ≡ count_of self.now) }
    {
        match self {
            Held::Own(_) => words.is_empty(),
            Held::Lent(lent) => words.len() as u64 == lent.count,
        }
    }

    /// The first physical address of its memory.
    pub fn base(&self) -> u64
        ensures { result ≡ base_of self.now }
    {
        match self {
            Held::Own(platform) => platform.ram.base(),
            Held::Lent(lent) => lent.base,
        }
    }

    /// How many bytes its memory has.
    pub fn size(&self) -> u64
        ensures { result ≡ size_in self.now }
    {
        match self {
            Held::Own(platform) => platform.ram.size(),
            Held::Lent(lent) => lent.size(),
        }
    }

    /// Carries out a step in front of these words under its number, and puts its answer.
    pub fn step(
        &mut self,
        told: &mut Told,
        words: &mut [u64],
        step: &Step,
        number: u64,
        answer: &mut Answer,
    )
        requires { length words.old ≡ count_of self.old }
        ensures answer { answer.new ≡ (next (state_in self.old words.old) step.now).answer }
        ensures state { state_in self.new words.new ≡ (next (state_in self.old words.old) step.now).state }
        ensures loan { loan_of self.new ≡ loan_of self.old }
        ensures told { GoesOn told.old (state_in self.old words.old) step.now number told.new (state_in self.new words.new) }
    {
        match self {
            Held::Own(platform) => {
                let Platform { ram, board } = platform;
                told.step(board, ram, step, number, answer);
            }
            Held::Lent(lent) => lent.step(told, words, step, number, answer),
        }
    }

    /// What leads a request now in front of these words, from the caches first and else from the tables. Nothing is cached, reported or
    /// changed.
    pub fn lookup(&self, words: &[u64], request: &Request) -> Lookup
        requires { length words.now ≡ count_of self.now }
        ensures { result ≡ seen_in (state_in self.now words.now).machine request.now }
    {
        match self {
            Held::Own(platform) => platform.lookup(request),
            Held::Lent(lent) => lent.lookup(words, request),
        }
    }
}

impl Lent {
    // An equal one.
    fn try_clone(&self, alloc: Global) -> Result<Lent, AllocError>
        ensures { IfOk result (λ copy. copy ≡ self.now) }
    {
        Ok(Lent {
            board: self.board.try_clone(alloc)?,
            base: self.base,
            count: self.count,
        })
    }

    // How many bytes the memory has.
    fn size(&self) -> u64
        ensures { result ≡ 8 * self.now.count }
    {
        8 * self.count
    }

    // Carries out a step in front of these words.
    fn step(
        &mut self,
        told: &mut Told,
        words: &mut [u64],
        step: &Step,
        number: u64,
        answer: &mut Answer,
    )
        requires { length words.old ≡ self.old.count }
        ensures answer { answer.new ≡ (next (state_on (memory_of self.old.base words.old) self.old.board) step.now).answer }
        ensures state { state_on (memory_of self.new.base words.new) self.new.board
            ≡ (next (state_on (memory_of self.old.base words.old) self.old.board) step.now).state }
        ensures base { self.new.base ≡ self.old.base }
        ensures count { self.new.count ≡ self.old.count }
        ensures told { GoesOn told.old (state_on (memory_of self.old.base words.old) self.old.board) step.now number
            told.new (state_on (memory_of self.new.base words.new) self.new.board) }
    {
        step_lent(
            told,
            &mut self.board,
            self.base,
            words,
            step,
            number,
            answer,
        );
    }

    // What leads a request now in front of these words.
    fn lookup(&self, words: &[u64], request: &Request) -> Lookup
        requires { length words.now ≡ self.now.count }
        ensures { result ≡ seen_in (state_on (memory_of self.now.base words.now) self.now.board).machine request.now }
    {
        let ram = SharedRam::new(self.base, words);
        self.board.lookup(&ram, request)
    }
}

// Carries out a step of a board in front of these words, the first of them at `base`.
fn step_lent(
    told: &mut Told,
    board: &mut Board,
    base: u64,
    words: &mut [u64],
    step: &Step,
    number: u64,
    answer: &mut Answer,
)
    requires { IsTrue (is_lendable base (8 * length words.old)) }
    ensures answer { answer.new ≡ (next (state_on (memory_of base words.old) board.old) step.now).answer }
    ensures state { state_on (memory_of base words.new) board.new ≡ (next (state_on (memory_of base words.old) board.old) step.now).state }
    ensures told { GoesOn told.old (state_on (memory_of base words.old) board.old) step.now number
        told.new (state_on (memory_of base words.new) board.new) }
{
    let mut ram = LentRam::new(base, words);
    told.step(board, &mut ram, step, number, answer);
}
