//! What the first stage found at the end of its path.

ghost use Rattle.std.specs.Prelude.{◌≡◌, ◌++◌, ◌+◌, ◌^◌, ◌<◌, ◌≤◌, List, length, map, All, IfOk, IfSome, OnOk};
ghost use Rattle.arrayvec.specs.ArrayVec.{array_vec_len};
ghost use Rattle.iom_nested.specs.Nested.{told_of};
ghost use Rattle.iom_nested.specs.Stages.{second_shape_of};
ghost use Rattle.iom_cache.specs.Keys.{gscid_of};
ghost use Rattle.iom_every.specs.declared.entry.Entry.TheVariants.{First as OfFirst};
ghost use Rattle.iom_every.specs.declared.walks.MetBy.{MetBy};
ghost use Rattle.iom_every.specs.Trees.{entries_of, first_found, first_read, reads_behind};
ghost use Rattle.iom_every.specs.Walks.{with_used};
ghost use Rattle.iom_ways.specs.Asked.{Explores};
ghost use Rattle.iom_ways.specs.Branches.{MetFits, UsedFits, behind_path};

use crate::access::put_access;
use crate::exploring::Explored;
use crate::under::Under;
use arrayvec::ArrayVec;
use iom_bits::{Cause, Kind};
use iom_cache::gscid_of;
use iom_ddt::Context;
use iom_every::{
    Entry, Held, HeldPath, MetBy, ReadEntries, entry_of, global_by, held_in, is_global_use,
    second_reads,
};
use iom_mem::Region;
use iom_nested::{Fault, Reached, reached_by, second_shape};
use iom_walk::{Format, MetEntry, MetPath, end_of};
use std::alloc::AllocError;

/// A path of the first stage.
pub(crate) type PathBy = ArrayVec<MetBy, 5>;

// All that a path of the first stage reads: five entries, and five of the second stage for each of them.
type FirstReads = ArrayVec<Entry, 30>;

/// Puts in the ways by a first stage whose walk has met all of these entries.
pub(crate) fn put_found<M: Region>(
    out: &mut Explored,
    under: &Under<'_, M>,
    format: Format,
    used: Option<Held>,
    path: &[MetBy],
) -> Result<(), AllocError>
    requires few { length path.now ≤ 5 }
    requires used { IfSome used (λ held. held.level < 5) }
    requires levels { All (MetFits (second_shape_of under.now.context)) path.now }
    ensures { OnOk result (Explores under.now.asks under.now.held.now
        (behind_path (M.memory under.now.ram.now) under.now.features under.now.request under.now.context under.now.located.now format used path.now)
        out.old out.new) }
{
    let request = &under.request;
    let entries = entries_of(path);
    let reached = first_found(format, request.iova, request.kind, used, &entries);
    let first = first_read(under, used, path, &entries);
    put_access(out, under, &first, reached)
}

// The entries of a path.
fn entries_of(path: &[MetBy]) -> MetPath
    requires few { length path.now ≤ 5 }
    ensures entries { result.items ≡ entries_of path.now }
    ensures len { array_vec_len result ≡ length path.now }
{
    let mut entries = MetPath::new();
    for met in path.iter() {
        entries.push(met.entry);
    }
    entries
}

// Where the first stage leads the IOVA behind these entries, and the one that it was entered at.
fn first_found(
    format: Format,
    iova: u64,
    kind: Kind,
    used: Option<Held>,
    entries: &[MetEntry],
) -> Result<Reached, Fault>
    requires few { length entries.now ≤ 5 }
    requires used { IfSome used (λ held. held.level < 5) }
    requires levels { All (λ entry. entry.level < 5) entries.now }
    ensures found { (path : List MetBy) → entries.now ≡ entries_of path → result ≡ told_of kind (first_found format iova kind used path) }
    ensures fits { IfOk result (λ reached. (reached.addr < 2 ^ 56) × (reached.level < 5)) }
{
    let met = with_used(used, entries);
    let end = global_by(is_global_use(used), end_of(format.rules, kind, iova, &met));
    reached_by(end, iova, kind)
}

// These entries behind the one that is used.
fn with_used(used: Option<Held>, entries: &[MetEntry]) -> ArrayVec<MetEntry, 6>
    requires few { length entries.now ≤ 5 }
    requires used { IfSome used (λ held. held.level < 5) }
    requires levels { All (λ entry. entry.level < 5) entries.now }
    ensures met { result.items ≡ with_used used entries.now }
    ensures fits { All (λ entry. entry.level < 5) result.items }
{
    let mut met = ArrayVec::<MetEntry, 6>::new();
    if let Some(held) = used {
        met.push(entry_of(&held));
    }
    push_met(&mut met, entries);
    met
}

fn push_met(out: &mut ArrayVec<MetEntry, 6>, entries: &[MetEntry])
    requires room { array_vec_len out.old + length entries.now ≤ 6 }
    ensures { out.new.items ≡ out.old.items ++ entries.now }
{
    for entry in entries.iter() {
        out.push(*entry);
    }
}

// All that the first stage reads behind the entry that is used: its own entries, and those of the second stage for each of them.
fn first_read<M: Region>(
    under: &Under<'_, M>,
    used: Option<Held>,
    path: &[MetBy],
    entries: &[MetEntry],
) -> FirstReads
    requires few { length path.now ≤ 5 }
    requires levels { All (MetFits (second_shape_of under.now.context)) path.now }
    requires entries { entries.now ≡ entries_of path.now }
    requires entry_levels { All (λ entry. entry.level < 5) entries.now }
    ensures { result.items ≡ first_read (M.memory under.now.ram.now) under.now.features under.now.context under.now.request.iova used path.now }
{
    let kept = held_in(is_global_use(used), under.request.iova, entries);
    let mut read = FirstReads::new();
    push_first(&mut read, &under.context, &kept);
    for met in path.iter() {
        push_behind(&mut read, under, met);
    }
    read
}

// Entries of the first stage, tagged by the ids of the context. It names the type of what a leaf of the directory says, which an entry has:
// the proof rests on the modules of the types that the function names.
fn push_first(out: &mut FirstReads, context: &Context, kept: &HeldPath)
    requires room { array_vec_len out.old ≤ 25 }
    ensures items { out.new.items ≡ out.old.items ++ map (OfFirst (gscid_of context.now) context.now.pscid) kept.now.items }
    ensures len { array_vec_len out.new ≤ array_vec_len out.old + 5 }
{
    let _: Option<Result<Context, Cause>> = None;
    let (gscid, pscid) = (gscid_of(context), context.fields.pscid);
    for held in kept.iter() {
        out.push(Entry::First {
            gscid,
            pscid,
            held: *held,
        });
    }
}

// The second stage's entries that are read for this entry of the first.
fn push_behind<M: Region>(out: &mut FirstReads, under: &Under<'_, M>, met: &MetBy)
    requires room { array_vec_len out.old ≤ 25 }
    requires used { UsedFits (second_shape_of under.now.context) met.now.used }
    ensures items { out.new.items ≡ out.old.items
        ++ reads_behind (M.memory under.now.ram.now) under.now.features under.now.context (second_shape_of under.now.context) met.now }
    ensures len { array_vec_len out.new ≤ array_vec_len out.old + 5 }
{
    let Some(shape) = second_shape(&under.context) else {
        return;
    };
    let read = second_reads(
        under.ram,
        under.features,
        &under.context,
        shape,
        met.entry.place,
        met.used,
    );
    push_all(out, &read)
}

fn push_all(out: &mut FirstReads, read: &ReadEntries)
    requires room { array_vec_len out.old ≤ 25 }
    ensures items { out.new.items ≡ out.old.items ++ read.now.items }
    ensures len { array_vec_len out.new ≤ array_vec_len out.old + 5 }
{
    let _: Option<Result<Context, Cause>> = None;
    for entry in read.iter() {
        out.push(*entry);
    }
}
