//! The ways of a step's request, and what they leave of what is kept.

ghost use Rattle.std.specs.Prelude.{◌≡◌, ◌∷◌, [], flat_map, map, OnErr, OnOk, Some};
ghost use Rattle.iom_core.specs.State.{state_on};
ghost use Rattle.iom_choices.specs.Trees.{reads_in, ways_of};
ghost use Rattle.iom_every.specs.Entries.{kept_as};
ghost use Rattle.iom_every.specs.Rows.{bare};
ghost use Rattle.iom_every.specs.Trees.{tree_of};
ghost use Rattle.iom_held.specs.Kept.{Renews, entries_in, entry_of, kept_of};
ghost use Rattle.iom_owed.specs.Alone.{leads_over};
ghost use Rattle.iom_owed.specs.Holdings.{at_page, request_of};
ghost use Rattle.iom_owed.specs.Keys.{made_in};
ghost use Rattle.iom_owed.specs.Notes.{made_of};
ghost use Rattle.iom_ways.specs.Ways.{AreAdded};

use crate::forms::put_forms;
use crate::noting::{Numbers, at_page, renew_request};
use iom_bits::{Cause, Features};
use iom_core::{Board, Request};
use iom_ddt::Context;
use iom_every::Entry;
use iom_held::HeldEntries;
use iom_mem::Region;
use iom_ways::{Ways, put_ways};
use std::alloc::{AllocError, Global};

/// No ways yet. It takes no memory.
pub fn no_ways(alloc: Global) -> Ways {
    Ways {
        led: Vec::new(alloc),
        reads: Vec::new(alloc),
    }
}

/// Gathers the ways of a request over these entries, in place of the ways that were there. The fault is a refused allocation.
pub fn gather<M: Region>(
    ways: &mut Ways,
    board: &Board,
    ram: &M,
    held: &HeldEntries,
    request: &Request,
) -> Result<(), AllocError>
    ensures led { OnOk result (AreAdded
        (leads_over (bare (state_on (M.memory ram.now) board.now)) request.now (entries_in held.now)) [] ways.new.led.items) }
    ensures reads { OnOk result (AreAdded
        (reads_in (ways_of tree_of (bare (state_on (M.memory ram.now) board.now)) (entries_in held.now) (Some request.now))) [] ways.new.reads.items) }
{
    let _: Option<Result<Context, Cause>> = None;
    let _: Option<Entry> = None;
    ways.led.clear();
    ways.reads.clear();
    put_ways(ways, ram, board.registers(), held, request)
}

/// Puts in the entries that a step read, each in all forms in which it may be kept, under the step's number. `forms` is room for them. The fault is a
/// refused allocation, and then nothing has changed.
pub fn put_reads(
    held: &mut HeldEntries,
    forms: &mut Vec<Entry>,
    features: Features,
    reads: &[Entry],
    number: u64,
) -> Result<(), AllocError>
    ensures entries { OnOk result (Renews entry_of (map (kept_of number) (flat_map (kept_as features) reads.now)) held.old held.new) }
    ensures unchanged { OnErr result (held.new ≡ held.old) }
{
    let _: Option<Result<Context, Cause>> = None;
    forms.clear();
    put_forms(forms, features, reads)?;
    held.renew_all(forms, number)
}

/// Puts in a step's request, and the entries that it read, as `put_reads` does. The fault is a refused allocation, and then nothing has changed.
pub(crate) fn note(
    held: &mut HeldEntries,
    numbers: &mut Numbers,
    forms: &mut Vec<Entry>,
    features: Features,
    request: &Request,
    reads: &[Entry],
    number: u64,
) -> Result<(), AllocError>
    ensures entries { OnOk result (Renews entry_of (map (kept_of number) (flat_map (kept_as features) reads.now)) held.old held.new) }
    ensures requests { OnOk result (Renews request_of (made_of number (at_page request.now) ∷ []) (made_in numbers.old.entries) (made_in numbers.new.entries)) }
    ensures unchanged { OnErr result (held.new ≡ held.old) }
    ensures same { OnErr result (numbers.new.entries ≡ numbers.old.entries) }
{
    let _: Option<Result<Context, Cause>> = None;
    numbers.reserve(1)?;
    put_reads(held, forms, features, reads, number)?;
    renew_request(numbers, &at_page(request), number);
    Ok(())
}
