//! What a step reads, put in among what can be held.

ghost use Rattle.std.specs.Prelude.{◌≡◌, [], filter, not, true, OnErr, OnOk};
ghost use Rattle.std.specs.List.{AllByRecursion};
ghost use Rattle.iom_every.specs.Making.{is_whole};
ghost use Rattle.iom_held.specs.Kept.{entries_in, may_lend};
ghost use Rattle.iom_held.specs.declared.kept.Kept.{Kept};
ghost use Rattle.iom_judge.specs.Behind.{HasRead, reads_over};
ghost use Rattle.iom_ways.specs.Ways.{AreAdded};

use iom_bits::Cause;
use iom_core::{Platform, Step};
use iom_ddt::Context;
use iom_every::{Entry, is_whole};
use iom_held::HeldEntries;
use iom_owed::{gather, put_reads};
use iom_ways::Ways;
use std::alloc::{AllocError, Global};

/// Room in which reads are sorted. It is kept from step to step, so that its lists grow once.
#[derive(Drop)]
pub(crate) struct Room {
    // All forms of what is read.
    forms: Vec<Entry>,
    // The ways over the entries that may lend alone.
    lent: Ways,
    // A part of what is read.
    part: Vec<Entry>,
}

impl Room {
    /// It takes no memory.
    pub(crate) fn new(alloc: Global) -> Room {
        let _: Option<Result<Context, Cause>> = None;
        Room {
            forms: Vec::new(alloc),
            lent: Ways {
                led: Vec::new(alloc),
                reads: Vec::new(alloc),
            },
            part: Vec::new(alloc),
        }
    }
}

/// Puts in what a step reads by these ways. A whole translation that can only be made by the help of a leaf that a command names is put in so that the
/// next fence takes it out, unless it is there. The fault is a refused allocation, and then nothing has changed.
pub(crate) fn put_in(
    held: &mut HeldEntries,
    room: &mut Room,
    platform: &Platform,
    step: &Step,
    ways: &Ways,
) -> Result<(), AllocError>
    requires { AreAdded (reads_over platform.now (entries_in held.old) step.now) [] ways.now.reads.items }
    ensures reads { OnOk result (HasRead platform.now step.now held.old held.new) }
    ensures unchanged { OnErr result (held.new ≡ held.old) }
{
    let _: Option<Result<Context, Cause>> = None;
    let _: Option<Entry> = None;
    if ways.reads.is_empty() {
        return Ok(());
    }
    match held.lenders(*room.forms.allocator())? {
        Some(lenders) => put_apart(held, &lenders, room, platform, step, ways),
        None => put_fresh(held, room, platform, step, ways),
    }
}

// The same, where all entries may lend: all reads outlast the next fence.
fn put_fresh(
    held: &mut HeldEntries,
    room: &mut Room,
    platform: &Platform,
    step: &Step,
    ways: &Ways,
) -> Result<(), AllocError>
    requires added { AreAdded (reads_over platform.now (entries_in held.old) step.now) [] ways.now.reads.items }
    requires lend { AllByRecursion (λ (kept : Kept). may_lend kept ≡ true) held.old }
    ensures reads { OnOk result (HasRead platform.now step.now held.old held.new) }
    ensures unchanged { OnErr result (held.new ≡ held.old) }
{
    let _: Option<Result<Context, Cause>> = None;
    let features = platform.board.registers().features();
    put_reads(held, &mut room.forms, features, &ways.reads, 0)
}

// The same, where only these may lend. What is no whole translation outlasts the next fence, and so do the whole translations that can be read over the
// lenders; the others don't. They are put into a copy, which then takes the place of what was held.
fn put_apart(
    held: &mut HeldEntries,
    lenders: &HeldEntries,
    room: &mut Room,
    platform: &Platform,
    step: &Step,
    ways: &Ways,
) -> Result<(), AllocError>
    requires added { AreAdded (reads_over platform.now (entries_in held.old) step.now) [] ways.now.reads.items }
    requires lend { lenders.now ≡ filter may_lend held.old }
    ensures reads { OnOk result (HasRead platform.now step.now held.old held.new) }
    ensures unchanged { OnErr result (held.new ≡ held.old) }
{
    let _: Option<Result<Context, Cause>> = None;
    let _: Option<Entry> = None;
    find_lent(&mut room.lent, platform, lenders, step)?;
    let mut all = held.try_clone(*room.forms.allocator())?;
    take_others(&mut room.part, &ways.reads)?;
    let features = platform.board.registers().features();
    put_reads(&mut all, &mut room.forms, features, &room.part, 0)?;
    take_wholes(&mut room.part, &room.lent.reads)?;
    all.renew_all(&room.part, 0)?;
    take_wholes(&mut room.part, &ways.reads)?;
    all.add_due(&room.part, 0)?;
    *held = all;
    Ok(())
}

// Gathers what a step can read over these entries, in place of what was there. The fault is a refused allocation.
fn find_lent(
    lent: &mut Ways,
    platform: &Platform,
    lenders: &HeldEntries,
    step: &Step,
) -> Result<(), AllocError>
    ensures { OnOk result (AreAdded (reads_over platform.now (entries_in lenders.now) step.now) [] lent.new.reads.items) }
{
    let _: Option<Result<Context, Cause>> = None;
    match platform.board.request_of(&platform.ram, step) {
        Some(request) => gather(lent, &platform.board, &platform.ram, lenders, &request),
        None => {
            lent.reads.clear();
            Ok(())
        }
    }
}

// The whole translations among these entries, in place of what was there. The fault is a refused allocation.
fn take_wholes(part: &mut Vec<Entry>, entries: &[Entry]) -> Result<(), AllocError>
    ensures { OnOk result (part.new.items ≡ filter is_whole entries.now) }
{
    let _: Option<Result<Context, Cause>> = None;
    part.clear();
    part.extend_from_slice(entries)?;
    part.retain(|entry| is_whole(entry));
    Ok(())
}

// The others.
fn take_others(part: &mut Vec<Entry>, entries: &[Entry]) -> Result<(), AllocError>
    ensures { OnOk result (part.new.items ≡ filter (λ entry. not (is_whole entry)) entries.now) }
{
    let _: Option<Result<Context, Cause>> = None;
    part.clear();
    part.extend_from_slice(entries)?;
    part.retain(|entry| !is_whole(entry));
    Ok(())
}
