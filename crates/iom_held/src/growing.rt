//! More shelves, when there are many entries.

ghost use Rattle.std.specs.Prelude.{◌<◌, [], List, length, IfOk, OnOk};
ghost use Rattle.iom_held.specs.Kept.{Renews, entry_of};
ghost use Rattle.iom_held.specs.Shelves.{StandInPlace, entries_on};
ghost use Rattle.iom_held.specs.declared.kept.Kept.{Kept};

use crate::kept::Kept;
use crate::shelves::{empty_shelves, renew, reserve};
use iom_bits::Cause;
use iom_ddt::Context;
use iom_every::Entry;
use std::alloc::{AllocError, Global};

/// Makes four times as many shelves, if there are more than two entries a shelf. If memory is refused, the shelves stay as they are.
pub(crate) fn grow(shelves: &mut Vec<Vec<Kept>>)
    requires in_place { StandInPlace shelves.old.items }
    ensures in_place { StandInPlace shelves.new.items }
    ensures same { (news before : List Kept) → Renews entry_of news before (entries_on shelves.old.items) → Renews entry_of news before (entries_on shelves.new.items) }
{
    let _: Option<Result<Context, Cause>> = None;
    if shelves.is_empty() || entry_count(shelves) / 2 <= shelves.len() {
        return;
    }
    let Ok(more) = spread(
        *shelves.allocator(),
        shelves,
        shelves.len().saturating_mul(4),
    ) else {
        return;
    };
    *shelves = more;
}

// How many entries there are.
fn entry_count(shelves: &[Vec<Kept>]) -> usize {
    let mut count: usize = 0;
    for shelf in shelves {
        count = count.saturating_add(shelf.len());
    }
    count
}

// The entries of some shelves on others. The fault is a refused allocation.
fn spread(alloc: Global, shelves: &[Vec<Kept>], count: usize) -> Result<Vec<Vec<Kept>>, AllocError>
    requires { 0 < count }
    ensures in_place { IfOk result (λ more. StandInPlace more.items) }
    ensures same { IfOk result (λ more. Renews entry_of (entries_on shelves.now) [] (entries_on more.items)) }
{
    let _: Option<Result<Context, Cause>> = None;
    let _: Option<Entry> = None;
    let mut more = empty_shelves(alloc, count)?;
    put_shelves(&mut more, shelves)?;
    Ok(more)
}

// Puts the entries of some shelves in, each with its numbers. The fault is a refused allocation.
fn put_shelves(more: &mut [Vec<Kept>], shelves: &[Vec<Kept>]) -> Result<(), AllocError>
    requires some { 0 < length more.old }
    requires in_place { StandInPlace more.old }
    ensures in_place { StandInPlace more.new }
    ensures renewed { OnOk result (Renews entry_of (entries_on shelves.now) (entries_on more.old) (entries_on more.new)) }
{
    let _: Option<Result<Context, Cause>> = None;
    let _: Option<Entry> = None;
    for shelf in shelves {
        put_all(more, shelf)?;
    }
    Ok(())
}

// Puts entries in, each with its numbers. The fault is a refused allocation.
fn put_all(shelves: &mut [Vec<Kept>], kept: &[Kept]) -> Result<(), AllocError>
    requires some { 0 < length shelves.old }
    requires in_place { StandInPlace shelves.old }
    ensures in_place { StandInPlace shelves.new }
    ensures renewed { OnOk result (Renews entry_of kept.now (entries_on shelves.old) (entries_on shelves.new)) }
{
    let _: Option<Result<Context, Cause>> = None;
    for each in kept {
        reserve(shelves, &each.entry, 1)?;
        renew(shelves, each);
    }
    Ok(())
}
