//! The entries that name physical memory.

ghost use Rattle.std.specs.Prelude.{◌≡◌, ◌++◌, ◌∷◌, [], List, Some, nat_lt, if◌then◌else◌};
ghost use Rattle.iom_every.specs.Frames.{names_memory};
ghost use Rattle.iom_held.specs.Naming.{AreTold, naming};
ghost use Rattle.iom_held.specs.Shelves.{entries_on};
ghost use Rattle.iom_held.specs.declared.kept.Kept.{Kept};

use crate::kept::Kept;
use iom_bits::Cause;
use iom_ddt::Context;
use iom_every::{Entry, names_memory};

/// Entries that name a byte of some physical memory: how many, and an oldest.
#[derive(Clone, Copy)]
pub struct Naming {
    /// How many, up to 2^64 - 1.
    pub count: u64,
    /// One of them with the smallest number.
    pub first: Kept,
}

/// Those on these shelves that name a byte of the `len` ones from `addr` on; None if none does.
pub(crate) fn naming_on(shelves: &[Vec<Kept>], addr: u64, len: u64) -> Option<Naming>
    ensures { AreTold (naming addr len (entries_on shelves.now)) result }
{
    let _: Option<Result<Context, Cause>> = None;
    let _: Option<Entry> = None;
    let mut found = None;
    for shelf in shelves {
        add_all(&mut found, shelf, addr, len);
    }
    found
}

// Adds those of these entries that name a byte.
fn add_all(found: &mut Option<Naming>, kept: &[Kept], addr: u64, len: u64)
    ensures { (all : List Kept) → AreTold all found.old → AreTold (all ++ naming addr len kept.now) found.new }
{
    let _: Option<Result<Context, Cause>> = None;
    let _: Option<Entry> = None;
    for each in kept {
        add(found, each, addr, len);
    }
}

// Adds an entry, if it names a byte.
fn add(found: &mut Option<Naming>, kept: &Kept, addr: u64, len: u64)
    ensures { (all : List Kept) → AreTold all found.old → AreTold (all ++ naming addr len (kept.now ∷ [])) found.new }
{
    if names_memory(&kept.entry, addr, len) {
        *found = Some(with(found, kept));
    }
}

// What is told with one more.
fn with(found: &Option<Naming>, kept: &Kept) -> Naming
    ensures { (all : List Kept) → AreTold all found.now → AreTold (all ++ kept.now ∷ []) (Some result) }
{
    match found {
        Some(before) => Naming {
            count: before.count.saturating_add(1),
            first: older(&before.first, kept),
        },
        None => Naming {
            count: 1,
            first: *kept,
        },
    }
}

// The first of two, unless the second has a smaller number.
fn older(first: &Kept, other: &Kept) -> Kept
    ensures { result ≡ (if nat_lt other.now.number first.now.number then other.now else first.now) }
{
    if other.number < first.number {
        *other
    } else {
        *first
    }
}
