//! Shelves of entries: each entry stands on the shelf that follows from its tag.

ghost use Rattle.std.specs.Prelude.{◌≡◌, ◌⊎◌, ◌<◌, ◌≤◌, ◌+◌, ◌∷◌, [], ℕ, List, length, map, vec_len, vec_capacity, slice_get, vec_items, IfNone, IfOk, IfSome, OnErr, OnOk, Some, false};
ghost use Rattle.iom_held.specs.declared.kept.Kept.{Kept};
ghost use Rattle.iom_choices.specs.Systems.{IsAmong};
ghost use Rattle.iom_every.specs.Every.{is_fence};
ghost use Rattle.iom_every.specs.declared.entry.Entry.{Entry};
ghost use Rattle.iom_held.specs.Kept.{AreSpared, Renews, entries_in, entry_of, kept_at, left_by, named_by};
ghost use Rattle.iom_held.specs.Shelves.{HasRoom, HaveGrown, HaveRoom, StandInPlace, entries_on, slot_of};
ghost use Rattle.iom_held.specs.Tags.{tag_of};

use crate::kept::Kept;
use crate::tags::{Tag, tag_of};
use iom_bits::Cause;
use iom_ddt::Context;
use iom_every::{Entry, drops_entry, is_same};
use iom_queue::Command;
use std::alloc::{AllocError, Global};

/// The number of a tag's shelf, of `count`.
#[tactic(auto, unfolding(crate::specs::Shelves::slot_of))]
pub(crate) fn slot_of(count: usize, tag: &Tag) -> usize
    requires { 0 < count }
    ensures number { result ≡ slot_of count tag.now }
    ensures inside { result < count }
{
    let number = tag.part.wrapping_mul(11).wrapping_add(tag.kind as u64);
    let mixed = number.wrapping_mul(11_400_714_819_323_198_485) >> 32;
    mixed as usize % count
}

/// Empty shelves. The fault is a refused allocation.
pub(crate) fn empty_shelves(alloc: Global, count: usize) -> Result<Vec<Vec<Kept>>, AllocError>
    ensures none { IfOk result (λ shelves. entries_on shelves.items ≡ []) }
    ensures count { IfOk result (λ shelves. vec_len shelves ≡ count) }
{
    let _: Option<Result<Context, Cause>> = None;
    let _: Option<Entry> = None;
    let mut shelves = Vec::with_capacity(alloc, count)?;
    for _i in 0..count {
        shelves.push(Vec::new(alloc))?;
    }
    Ok(shelves)
}

/// Shelves with the same entries in the same order. The fault is a refused allocation.
pub(crate) fn copy_shelves(
    alloc: Global,
    shelves: &[Vec<Kept>],
) -> Result<Vec<Vec<Kept>>, AllocError>
    ensures { IfOk result (λ copies. map vec_items copies.items ≡ map vec_items shelves.now) }
{
    let _: Option<Result<Context, Cause>> = None;
    let _: Option<Entry> = None;
    let mut copies = Vec::with_capacity(alloc, shelves.len())?;
    for shelf in shelves {
        let mut copy = Vec::new(alloc);
        copy.extend_from_slice(shelf.as_slice())?;
        copies.push(copy)?;
    }
    Ok(copies)
}

/// Puts entries in, with these numbers: each in place of the same entry with others. The fault is a refused allocation, and then the same
/// entries are there.
pub(crate) fn renew_all(
    shelves: &mut [Vec<Kept>],
    entries: &[Entry],
    number: u64,
    unfenced: Option<u64>,
) -> Result<(), AllocError>
    requires some { 0 < length shelves.old }
    requires in_place { StandInPlace shelves.old }
    ensures in_place { StandInPlace shelves.new }
    ensures renewed { OnOk result (Renews entry_of (map (kept_at number unfenced) entries.now) (entries_on shelves.old) (entries_on shelves.new)) }
    ensures unchanged { OnErr result (entries_on shelves.new ≡ entries_on shelves.old) }
{
    let _: Option<Result<Context, Cause>> = None;
    reserve_all(shelves, entries)?;
    renew_entries(shelves, entries, number, unfenced);
    Ok(())
}

// Makes room for the entries of a list that aren't there, so that the last ones can be put in first.
fn reserve_all(shelves: &mut [Vec<Kept>], entries: &[Entry]) -> Result<(), AllocError>
    requires some { 0 < length shelves.old }
    ensures grown { HaveGrown shelves.old shelves.new }
    ensures room { OnOk result (HaveRoom shelves.new entries.now (length entries.now)) }
{
    let _: Option<Result<Context, Cause>> = None;
    for (i, entry) in entries.iter().enumerate() {
        reserve(shelves, entry, entries.len() - i)?;
    }
    Ok(())
}

/// Makes room for so many more on an entry's shelf, if the entry isn't there. The fault is a refused allocation.
pub(crate) fn reserve(
    shelves: &mut [Vec<Kept>],
    entry: &Entry,
    more: usize,
) -> Result<(), AllocError>
    requires some { 0 < length shelves.old }
    ensures grown { HaveGrown shelves.old shelves.new }
    ensures room { OnOk result (HasRoom shelves.new entry.now more) }
{
    let _: Option<Result<Context, Cause>> = None;
    let i = slot_of(shelves.len(), &tag_of(entry));
    reserve_on(&mut shelves[i], entry, more)
}

// Makes room for so many more on this shelf, if the entry isn't on it.
fn reserve_on(shelf: &mut Vec<Kept>, entry: &Entry, more: usize) -> Result<(), AllocError>
    ensures items { shelf.new.items ≡ shelf.old.items }
    ensures len { vec_len shelf.new ≡ vec_len shelf.old }
    ensures capacity { vec_capacity shelf.old ≤ vec_capacity shelf.new }
    ensures room { OnOk result (IsAmong (entries_in shelf.new.items) entry.now ⊎ (vec_len shelf.new + more ≤ vec_capacity shelf.new)) }
{
    let _: Option<Result<Context, Cause>> = None;
    if place_of(shelf, entry).is_some() {
        return Ok(());
    }
    shelf.reserve(more)
}

// An entry with these numbers.
fn kept_at(number: u64, unfenced: Option<u64>, entry: &Entry) -> Kept
    ensures { result ≡ kept_at number unfenced entry.now }
{
    Kept {
        entry: *entry,
        number,
        unfenced,
    }
}

// Puts entries in for which there is room, the last ones first.
fn renew_entries(shelves: &mut [Vec<Kept>], entries: &[Entry], number: u64, unfenced: Option<u64>)
    requires some { 0 < length shelves.old }
    requires in_place { StandInPlace shelves.old }
    requires room { HaveRoom shelves.old entries.now (length entries.now) }
    ensures in_place { StandInPlace shelves.new }
    ensures renewed { Renews entry_of (map (kept_at number unfenced) entries.now) (entries_on shelves.old) (entries_on shelves.new) }
{
    let _: Option<Result<Context, Cause>> = None;
    let mut i = entries.len();
    while i > 0 {
        i -= 1;
        renew(shelves, &kept_at(number, unfenced, &entries[i]));
    }
}

/// Puts an entry in for which there is room, with its numbers.
pub(crate) fn renew(shelves: &mut [Vec<Kept>], new: &Kept)
    requires some { 0 < length shelves.old }
    requires in_place { StandInPlace shelves.old }
    requires room { HasRoom shelves.old new.now.entry 1 }
    ensures in_place { StandInPlace shelves.new }
    ensures renewed { Renews entry_of (new.now ∷ []) (entries_on shelves.old) (entries_on shelves.new) }
    ensures room { (other : Entry) (more : ℕ) → HasRoom shelves.old other (more + 1) → HasRoom shelves.new other more }
{
    let _: Option<Result<Context, Cause>> = None;
    let i = slot_of(shelves.len(), &tag_of(&new.entry));
    renew_on(&mut shelves[i], new);
}

// Puts an entry on its shelf, with its numbers; if it is there, it only gets the numbers.
fn renew_on(kept: &mut Vec<Kept>, new: &Kept)
    requires room { IsAmong (entries_in kept.old.items) new.now.entry ⊎ (vec_len kept.old + 1 ≤ vec_capacity kept.old) }
    ensures renewed { Renews entry_of (new.now ∷ []) kept.old.items kept.new.items }
    ensures len { vec_len kept.new ≤ vec_len kept.old + 1 }
    ensures capacity { vec_capacity kept.old ≤ vec_capacity kept.new }
{
    let _: Option<Result<Context, Cause>> = None;
    if let Some(i) = place_of(kept, &new.entry) {
        kept[i] = *new;
        return;
    }
    let _ = kept.push(*new);
}

/// The place of an entry; None if it isn't kept.
pub(crate) fn place_of(kept: &[Kept], entry: &Entry) -> Option<usize>
    ensures found { IfSome result (λ i. slice_get (entries_in kept.now) i ≡ Some entry.now) }
    ensures inside { IfSome result (λ i. i < length kept.now) }
    ensures none { IfNone result (IsAmong (entries_in kept.now) entry.now → ⊥) }
{
    for (i, each) in kept.iter().enumerate() {
        if is_same(&each.entry, entry) {
            return Some(i);
        }
    }
    None
}

/// Follows a command on all shelves, under the number of its step: a fence takes the entries out that a command before it names; of another the
/// entries are noted that it names.
pub(crate) fn follow_all(shelves: &mut [Vec<Kept>], command: Option<Command>, number: u64)
    requires in_place { StandInPlace shelves.old }
    ensures in_place { StandInPlace shelves.new }
    ensures left { entries_on shelves.new ≡ left_by number command (entries_on shelves.old) }
{
    if let Some(command) = &command {
        follow_each(shelves, command, number);
    }
}

/// Whether a command may name one of the entries behind this command, if so before it.
pub(crate) fn may_be_named(named: bool, command: &Option<Command>) -> bool
    ensures { (number : ℕ) (kept : List Kept) → (named ≡ false → AreSpared kept) → result ≡ false → AreSpared (left_by number command.now kept) }
{
    match command {
        Some(command) => !is_fence(command),
        None => named,
    }
}

// Follows this command on every shelf.
fn follow_each(shelves: &mut [Vec<Kept>], command: &Command, number: u64)
    requires in_place { StandInPlace shelves.old }
    ensures in_place { StandInPlace shelves.new }
    ensures left { entries_on shelves.new ≡ left_by number (Some command.now) (entries_on shelves.old) }
{
    let _: Option<Result<Context, Cause>> = None;
    let _: Option<Entry> = None;
    for i in 0..shelves.len() {
        follow(&mut shelves[i], command, number);
    }
}

// Follows this command on a shelf.
fn follow(kept: &mut Vec<Kept>, command: &Command, number: u64)
    ensures { kept.new.items ≡ left_by number (Some command.now) kept.old.items }
{
    if is_fence(command) {
        kept.retain(|each| each.unfenced.is_none());
    } else {
        name_all(kept, command, number);
    }
}

/// Whether a command is an IOFENCE.C.
fn is_fence(command: &Command) -> bool
    ensures { result ≡ is_fence command.now }
{
    matches!(command, Command::Fence { .. })
}

// Notes the entries that this command names.
fn name_all(kept: &mut [Kept], command: &Command, number: u64)
    ensures { kept.new ≡ map (named_by number command.now) kept.old }
{
    let _: Option<Result<Context, Cause>> = None;
    let _: Option<Entry> = None;
    for each in kept.iter_mut() {
        *each = named_by(number, command, each);
    }
}

// An entry behind a command that is no fence.
fn named_by(number: u64, command: &Command, kept: &Kept) -> Kept
    ensures { result ≡ named_by number command.now kept.now }
{
    if drops_entry(command, &kept.entry) {
        Kept {
            unfenced: Some(number),
            ..*kept
        }
    } else {
        *kept
    }
}
