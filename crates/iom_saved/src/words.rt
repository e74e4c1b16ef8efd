//! Words, read from the front.

ghost use Rattle.std.specs.Prelude.{ℕ, ◌≡◌, ◌<◌, ◌^◌, ◌++◌, ◌∷◌, Bool, List, length, IfSome, IsSomeAnd};
ghost use Rattle.iom_bits.specs.Bits.{flag};
ghost use Rattle.iom_saved.specs.declared.words.SavedFault.TheVariants as fault;

use std::alloc::{AllocError, AllocFailed};
use std::marker::Model;
use thiserror::Error;

/// Why words are no saved state.
#[derive(Clone, Copy, Debug, Error)]
pub enum SavedFault {
    /// They are the words of no state.
    #[error("no saved state")]
    Bad,
    /// An allocation was refused.
    #[error("out of memory")]
    OutOfMemory,
}

impl From<AllocError> for SavedFault {
    ghost from_gives = { λ _ e. e ≡ fault.OutOfMemory };

    /// `OutOfMemory`.
    fn from(_error: AllocError) -> SavedFault {
        SavedFault::OutOfMemory
    }
}

impl<T: Drop> From<AllocFailed<T>> for SavedFault {
    ghost from_gives = { λ _ e. e ≡ fault.OutOfMemory };

    /// `OutOfMemory`.
    fn from(_error: AllocFailed<T>) -> SavedFault {
        SavedFault::OutOfMemory
    }
}

/// The words that are not yet read.
#[derive(Drop)]
pub struct SavedWords<'a> {
    left: &'a [u64],
}

impl<'a> Model for SavedWords<'a> {
    ghost use Rattle.std.specs.Prelude.{ℕ, List};

    ghost Value = { List ℕ };

    ghost view = { λ w. w.left.now };
}

impl<'a> SavedWords<'a> {
    /// All of these words.
    pub fn of(words: &'a [u64]) -> SavedWords<'a>
        ensures { result ≡ words.now }
    {
        SavedWords { left: words }
    }

    /// How many words are left.
    pub fn len(&self) -> usize
        ensures { result ≡ length self.now }
    {
        self.left.len()
    }

    /// The words that are left.
    pub fn as_slice(&self) -> &'a [u64]
        ensures { result.now ≡ self.now }
    {
        self.left
    }

    /// The next word; None if there is none.
    pub fn next(&mut self) -> Option<u64>
        ensures words { IfSome result (λ word. self.old ≡ word ∷ self.new) }
        ensures taken { (word : ℕ) (rest : List ℕ) → self.old ≡ word ∷ rest →
            IsSomeAnd result (λ taken. (taken ≡ word) × (self.new ≡ rest)) }
    {
        let (first, rest) = self.left.split_first()?;
        self.left = rest;
        Some(*first)
    }

    /// The next two words; None if there are fewer.
    pub fn two(&mut self) -> Option<(u64, u64)>
        ensures words { IfSome result (λ two. self.old ≡ two.0 ∷ two.1 ∷ self.new) }
        ensures taken { (a b : ℕ) (rest : List ℕ) → self.old ≡ a ∷ b ∷ rest →
            IsSomeAnd result (λ two. (two.0 ≡ a) × (two.1 ≡ b) × (self.new ≡ rest)) }
    {
        let first = self.next()?;
        let second = self.next()?;
        Some((first, second))
    }

    /// The next four words; None if there are fewer.
    pub fn four(&mut self) -> Option<(u64, u64, u64, u64)>
        ensures words { IfSome result (λ four. self.old ≡ four.0 ∷ four.1 ∷ four.2 ∷ four.3 ∷ self.new) }
        ensures taken { (a b c d : ℕ) (rest : List ℕ) → self.old ≡ a ∷ b ∷ c ∷ d ∷ rest →
            IsSomeAnd result (λ four. (four.0 ≡ a) × (four.1 ≡ b) × (four.2 ≡ c) × (four.3 ≡ d) × (self.new ≡ rest)) }
    {
        let (first, second) = self.two()?;
        let (third, fourth) = self.two()?;
        Some((first, second, third, fourth))
    }

    /// The next word, which has 32 bits; None if there is none, or it has more.
    pub fn next_u32(&mut self) -> Option<u32>
        ensures words { IfSome result (λ word. self.old ≡ word ∷ self.new) }
        ensures taken { (word : ℕ) (rest : List ℕ) → self.old ≡ word ∷ rest → word < 2 ^ 32 →
            IsSomeAnd result (λ taken. (taken ≡ word) × (self.new ≡ rest)) }
    {
        let word = self.next()?;
        if word > 0xffff_ffff {
            return None;
        }
        Some(word as u32)
    }

    /// The next word, which has 16 bits; None if there is none, or it has more.
    pub fn next_u16(&mut self) -> Option<u16>
        ensures words { IfSome result (λ word. self.old ≡ word ∷ self.new) }
        ensures taken { (word : ℕ) (rest : List ℕ) → self.old ≡ word ∷ rest → word < 2 ^ 16 →
            IsSomeAnd result (λ taken. (taken ≡ word) × (self.new ≡ rest)) }
    {
        let word = self.next()?;
        if word > 0xffff {
            return None;
        }
        Some(word as u16)
    }

    /// The next word, which has eight bits; None if there is none, or it has more.
    pub fn next_u8(&mut self) -> Option<u8>
        ensures words { IfSome result (λ word. self.old ≡ word ∷ self.new) }
        ensures taken { (word : ℕ) (rest : List ℕ) → self.old ≡ word ∷ rest → word < 2 ^ 8 →
            IsSomeAnd result (λ taken. (taken ≡ word) × (self.new ≡ rest)) }
    {
        let word = self.next()?;
        if word > 0xff {
            return None;
        }
        Some(word as u8)
    }

    /// The flag that the next word is, 0 or 1; None if it is none.
    pub fn flag(&mut self) -> Option<bool>
        ensures words { IfSome result (λ set. self.old ≡ flag set ∷ self.new) }
        ensures taken { (set : Bool) (rest : List ℕ) → self.old ≡ flag set ∷ rest → IsSomeAnd result (λ taken. (taken ≡ set) × (self.new ≡ rest)) }
    {
        match self.next()? {
            0 => Some(false),
            1 => Some(true),
            _ => None,
        }
    }

    /// The flags that the next two words are.
    pub fn flags(&mut self) -> Option<(bool, bool)>
        ensures words { IfSome result (λ two. self.old ≡ flag two.0 ∷ flag two.1 ∷ self.new) }
        ensures taken { (a b : Bool) (rest : List ℕ) → self.old ≡ flag a ∷ flag b ∷ rest →
            IsSomeAnd result (λ two. (two.0 ≡ a) × (two.1 ≡ b) × (self.new ≡ rest)) }
    {
        let first = self.flag()?;
        let second = self.flag()?;
        Some((first, second))
    }

    /// The next `count` words; None if there are fewer.
    pub fn many(&mut self, count: u64) -> Option<&'a [u64]>
        ensures words { IfSome result (λ many. (self.old ≡ many.now ++ self.new) × (length many.now ≡ count)) }
        ensures taken { (list rest : List ℕ) → self.old ≡ list ++ rest → length list ≡ count →
            IsSomeAnd result (λ many. (many.now ≡ list) × (self.new ≡ rest)) }
    {
        if count > self.left.len() as u64 {
            return None;
        }
        let (many, rest) = self.left.split_at(count as usize);
        self.left = rest;
        Some(many)
    }

    /// A list of words behind their number; None if there are fewer.
    pub fn list(&mut self) -> Option<&'a [u64]>
        ensures words { IfSome result (λ list. self.old ≡ length list.now ∷ (list.now ++ self.new)) }
        ensures taken { (list rest : List ℕ) → self.old ≡ length list ∷ (list ++ rest) →
            IsSomeAnd result (λ taken. (taken.now ≡ list) × (self.new ≡ rest)) }
    {
        let count = self.next()?;
        self.many(count)
    }
}
