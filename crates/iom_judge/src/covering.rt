//! Whether a candidate covers another.

ghost use Rattle.std.specs.Prelude.{◌≡◌, ◌↔◌, IfOk, IsTrue};
ghost use Rattle.iom_judge.specs.Candidates.{IsCovered};

use crate::candidate::Candidate;
use crate::including::includes;
use iom_core::Board;
use iom_mem::Ram;
use iom_saved::{put_board, words_tell_apart};
use std::alloc::{AllocError, Global};

impl Candidate {
    /// Whether another candidate has the same platform, and can hold no entry that this one can't, now or behind the next fence. The fault is a
    /// refused allocation.
    pub(crate) fn covers(&self, alloc: Global, other: &Candidate) -> Result<bool, AllocError>
        ensures { IfOk result (λ is. IsTrue is ↔ IsCovered other.now self.now) }
    {
        if !is_same_board(alloc, &self.platform.board, &other.platform.board)? {
            return Ok(false);
        }
        Ok(
            includes(&self.held, &other.held)
                && is_same_memory(&self.platform.ram, &other.platform.ram),
        )
    }
}

// Whether two boards are the same, by their words.
fn is_same_board(alloc: Global, one: &Board, other: &Board) -> Result<bool, AllocError>
    ensures { IfOk result (λ is. IsTrue is ↔ (other.now ≡ one.now)) }
{
    words_tell_apart();
    let mut words = Vec::new(alloc);
    put_board(&mut words, one)?;
    let mut others = Vec::new(alloc);
    put_board(&mut others, other)?;
    Ok(is_same_list(&words, &others))
}

fn is_same_memory(one: &Ram, other: &Ram) -> bool
    ensures { IsTrue result ↔ (other.now ≡ one.now) }
{
    one.base() == other.base() && is_same_list(one.as_words(), other.as_words())
}

fn is_same_list(one: &[u64], other: &[u64]) -> bool
    ensures { IsTrue result ↔ (other.now ≡ one.now) }
{
    one == other
}
