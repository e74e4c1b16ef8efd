//! The entries from which what is made outlasts the next fence.

ghost use Rattle.std.specs.Prelude.{◌≡◌, map, true, vec_items, IfOk, IsTrue};
ghost use Rattle.std.specs.List.{AllByRecursion};
ghost use Rattle.iom_held.specs.Kept.{may_lend};
ghost use Rattle.iom_held.specs.Shelves.{entries_on, lenders_on};
ghost use Rattle.iom_held.specs.declared.kept.Kept.{Kept};

use crate::kept::Kept;
use iom_bits::Cause;
use iom_ddt::Context;
use iom_every::{Entry, is_leaf_of_stage};
use std::alloc::{AllocError, Global};

/// Whether they are all those on these shelves.
pub(crate) fn all_may_lend(shelves: &[Vec<Kept>]) -> bool
    ensures { IsTrue result → AllByRecursion (λ (kept : Kept). may_lend kept ≡ true) (entries_on shelves.now) }
{
    let _: Option<Result<Context, Cause>> = None;
    let _: Option<Entry> = None;
    for shelf in shelves {
        if !each_may_lend(shelf) {
            return false;
        }
    }
    true
}

// Whether they are all of these.
fn each_may_lend(all: &[Kept]) -> bool
    ensures { IsTrue result → AllByRecursion (λ (kept : Kept). may_lend kept ≡ true) all.now }
{
    let _: Option<Result<Context, Cause>> = None;
    let _: Option<Entry> = None;
    for kept in all {
        if !may_lend(kept) {
            return false;
        }
    }
    true
}

// Whether what is made from this one outlasts the next fence: it is no leaf of a stage, or no command names it.
fn may_lend(kept: &Kept) -> bool
    ensures { result ≡ may_lend kept.now }
{
    kept.unfenced.is_none() || !is_leaf_of_stage(&kept.entry)
}

/// Shelves with them alone, in the same order. The fault is a refused allocation.
pub(crate) fn copy_lenders(
    alloc: Global,
    shelves: &[Vec<Kept>],
) -> Result<Vec<Vec<Kept>>, AllocError>
    ensures { IfOk result (λ copies. map vec_items copies.items ≡ map lenders_on shelves.now) }
{
    let _: Option<Result<Context, Cause>> = None;
    let _: Option<Entry> = None;
    let mut copies = Vec::with_capacity(alloc, shelves.len())?;
    for shelf in shelves {
        let mut copy = Vec::new(alloc);
        copy.extend_from_slice(shelf.as_slice())?;
        copy.retain(|kept| may_lend(kept));
        copies.push(copy)?;
    }
    Ok(copies)
}
