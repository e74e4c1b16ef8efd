//! The entries that may be held, found by their tags.

ghost use Rattle.std.specs.Prelude.{◌≡◌, ◌<◌, ◌↔◌, List, [], ◌∷◌, flat_map, length, map, vec_items, IfOk, IsTrue, OnErr, OnOk};
ghost use Rattle.iom_choices.specs.Systems.{IsAmong};
ghost use Rattle.iom_held.specs.Kept.{AddsDue, AreLenders, AreNew, Renews, entries_in, entry_of, kept_at, kept_of, left_by};
ghost use Rattle.iom_held.specs.Naming.{AreTold, naming};
ghost use Rattle.iom_held.specs.Shelves.{StandInPlace, entries_on};
ghost use Rattle.iom_held.specs.Tags.{tag_of};
ghost use Rattle.iom_held.specs.declared.kept.Kept.{Kept};

use crate::growing::grow;
use crate::kept::Kept;
use crate::lending::{all_may_lend, copy_lenders};
use crate::naming::{Naming, naming_on};
use crate::shelves::{
    copy_shelves, empty_shelves, follow_all, may_be_named, place_of, renew_all, slot_of,
};
use crate::tags::{Tag, tag_of};
use iom_bits::Cause;
use iom_ddt::Context;
use iom_every::Entry;
use iom_queue::Command;
use std::alloc::{AllocError, Global};
use std::marker::Model;

// How many shelves there are at first, once there is an entry.
const SHELVES: usize = 256;

/// The entries that an IOMMU may hold, each once. They are found by their tags.
#[derive(Drop)]
pub struct HeldEntries {
    // Each entry stands on the shelf of its tag.
    shelves: Vec<Vec<Kept>>,
    // How many entries were put in since the entries were counted.
    put: usize,
    // Whether a command may name one of them that a fence hasn't followed.
    named: bool,
}

impl Model for HeldEntries {
    ghost use Rattle.std.specs.Prelude.{List};
    ghost use Rattle.iom_held.specs.Shelves.{AreSound, entries_on};
    ghost use Rattle.iom_held.specs.declared.kept.Kept.{Kept};

    ghost Value = { List Kept };

    ghost view = { λ h. entries_on h.shelves.items };

    ghost invariant = { λ h. AreSound h.named h.shelves.items };
}

impl HeldEntries {
    ghost use Rattle.iom_held.specs.declared.kept.Kept.{Kept};

    /// None. It takes no memory.
    pub fn new(alloc: Global) -> HeldEntries
        ensures { result ≡ [] }
    {
        HeldEntries {
            shelves: Vec::new(alloc),
            put: 0,
            named: false,
        }
    }

    /// One entry alone. The fault is a refused allocation.
    pub fn one(alloc: Global, kept: Kept) -> Result<HeldEntries, AllocError>
        ensures { IfOk result (λ held. held ≡ kept ∷ []) }
    {
        let _: Option<Result<Context, Cause>> = None;
        let _: Option<Entry> = None;
        let mut shelf = Vec::new(alloc);
        shelf.push(kept)?;
        let mut shelves = Vec::new(alloc);
        shelves.push(shelf)?;
        Ok(HeldEntries {
            shelves,
            put: 0,
            named: kept.unfenced.is_some(),
        })
    }

    /// The same entries, each with its numbers, which go their own way from here. The fault is a refused allocation.
    pub fn try_clone(&self, alloc: Global) -> Result<HeldEntries, AllocError>
        ensures { IfOk result (λ copy. copy ≡ self.now) }
    {
        let _: Option<Result<Context, Cause>> = None;
        let _: Option<Entry> = None;
        Ok(HeldEntries {
            shelves: copy_shelves(alloc, &self.shelves)?,
            put: self.put,
            named: self.named,
        })
    }

    /// Those from which what is made outlasts the next fence: all but the leaves of the stages that a command names. None: it is all of them, and
    /// nothing is copied. The fault is a refused allocation.
    pub fn lenders(&self, alloc: Global) -> Result<Option<HeldEntries>, AllocError>
        ensures { IfOk result (λ some. AreLenders self.now some) }
    {
        let _: Option<Result<Context, Cause>> = None;
        let _: Option<Entry> = None;
        if !self.named || all_may_lend(&self.shelves) {
            return Ok(None);
        }
        Ok(Some(HeldEntries {
            shelves: copy_lenders(alloc, &self.shelves)?,
            put: self.put,
            named: true,
        }))
    }

    /// Those with this tag; others may be among them.
    pub fn tagged(&self, tag: Tag) -> &[Kept]
        ensures among { (kept : Kept) → IsAmong result.now kept → IsAmong self.now kept }
        ensures all { (kept : Kept) → IsAmong self.now kept → tag_of kept.entry ≡ tag → IsAmong result.now kept }
    {
        if self.shelves.is_empty() {
            return &[];
        }
        let i = slot_of(self.shelves.len(), &tag);
        &self.shelves[i]
    }

    /// The shelves, on which all entries stand.
    pub fn shelves(&self) -> &[Vec<Kept>]
        ensures { flat_map vec_items result.now ≡ self.now }
    {
        self.shelves.as_slice()
    }

    /// Those that name a byte of the `len` ones from physical address `addr` on (as `names_memory` of `iom_every` has it); None if none does.
    pub fn naming(&self, addr: u64, len: u64) -> Option<Naming>
        ensures { AreTold (naming addr len self.now) result }
    {
        naming_on(&self.shelves, addr, len)
    }

    /// Puts entries that were read in, under this number: each in place of the same entry under another number. The fault is a refused
    /// allocation, and then nothing has changed.
    pub fn renew_all(&mut self, entries: &[Entry], number: u64) -> Result<(), AllocError>
        ensures renewed { OnOk result (Renews entry_of (map (kept_of number) entries.now) self.old self.new) }
        ensures unchanged { OnErr result (self.new ≡ self.old) }
    {
        self.put_all(entries, number, None)
    }

    /// Puts those of these entries in that aren't there, as if the command of the step with this number named them: the next fence takes them out.
    /// Those that are there stay as they are. The fault is a refused allocation, and then nothing has changed.
    pub fn add_due(&mut self, entries: &[Entry], number: u64) -> Result<(), AllocError>
        ensures added { OnOk result (AddsDue number entries.now self.old self.new) }
        ensures unchanged { OnErr result (self.new ≡ self.old) }
    {
        let news = new_ones(self, entries)?;
        self.put_all(&news, number, Some(number))
    }

    // Puts entries in, with these numbers.
    fn put_all(
        &mut self,
        entries: &[Entry],
        number: u64,
        unfenced: Option<u64>,
    ) -> Result<(), AllocError>
        ensures renewed { OnOk result (Renews entry_of (map (kept_at number unfenced) entries.now) self.old self.new) }
        ensures unchanged { OnErr result (self.new ≡ self.old) }
    {
        set_up(&mut self.shelves)?;
        renew_all(&mut self.shelves, entries, number, unfenced)?;
        self.named = self.named || unfenced.is_some();
        self.put = grow_in_time(&mut self.shelves, self.put.saturating_add(entries.len()));
        Ok(())
    }

    // Whether an entry is there.
    fn has(&self, entry: &Entry) -> bool
        ensures { IsTrue result ↔ IsAmong (entries_in self.now) entry.now }
    {
        place_of(self.tagged(tag_of(entry)), entry).is_some()
    }

    /// Follows a command, under the number of its step ("IOMMU Command-queue Fence commands"): a fence takes the entries out that a command before
    /// it names; of another the entries are noted that it names, and stay.
    pub fn follow(&mut self, command: Option<Command>, number: u64)
        ensures { self.new ≡ left_by number command self.old }
    {
        self.named = may_be_named(self.named, &command);
        follow_all(&mut self.shelves, command, number);
    }
}

// Those of these entries that aren't there. The fault is a refused allocation.
fn new_ones(held: &HeldEntries, entries: &[Entry]) -> Result<Vec<Entry>, AllocError>
    ensures { IfOk result (λ news. AreNew entries.now held.now news.items) }
{
    let _: Option<Result<Context, Cause>> = None;
    let mut news = Vec::new(*held.shelves.allocator());
    for entry in entries {
        if !held.has(entry) {
            news.push(*entry)?;
        }
    }
    Ok(news)
}

// Sees to it that there are shelves. The fault is a refused allocation.
fn set_up(shelves: &mut Vec<Vec<Kept>>) -> Result<(), AllocError>
    requires in_place { StandInPlace shelves.old.items }
    ensures in_place { StandInPlace shelves.new.items }
    ensures same { entries_on shelves.new.items ≡ entries_on shelves.old.items }
    ensures some { OnOk result (0 < length shelves.new.items) }
{
    let _: Option<Result<Context, Cause>> = None;
    if shelves.is_empty() {
        *shelves = empty_shelves(*shelves.allocator(), SHELVES)?;
    }
    Ok(())
}

// Makes more shelves if there are too few, once so many entries were put in that there can be. The answer is how many were put in since the
// entries were counted.
fn grow_in_time(shelves: &mut Vec<Vec<Kept>>, put: usize) -> usize
    requires in_place { StandInPlace shelves.old.items }
    ensures in_place { StandInPlace shelves.new.items }
    ensures same { (news before : List Kept) → Renews entry_of news before (entries_on shelves.old.items) → Renews entry_of news before (entries_on shelves.new.items) }
{
    let _: Option<Result<Context, Cause>> = None;
    if put <= shelves.len() {
        return put;
    }
    grow(shelves);
    0
}
