//! The path of the first stage, whose entries are each read through the second.

ghost use Rattle.std.specs.Prelude.{◌≡◌, ◌↔◌, ◌++◌, ◌∷◌, [], ◌+◌, ◌*◌, ◌<◌, ◌≤◌, ◌^◌, length, false, All, None, Some, OnOk, IfSome, IsTrue};
ghost use Rattle.arrayvec.specs.ArrayVec.{array_vec_len};
ghost use Rattle.iom_walk.specs.Shape.{index_of, levels};
ghost use Rattle.iom_nested.specs.Stages.{second_shape_of};
ghost use Rattle.iom_choices.specs.Trees.{ways_over};
ghost use Rattle.iom_every.specs.Trees.{got_by, looking};
ghost use Rattle.iom_every.specs.Uses.{ForEntry, entry_use};
ghost use Rattle.iom_held.specs.Kept.{entries_in};
ghost use Rattle.iom_held.specs.declared.kept.Kept.{Kept};
ghost use Rattle.iom_ways.specs.Asked.{Explores};
ghost use Rattle.iom_ways.specs.Branches.{MetFits, UsedFits, behind_entry, behind_met, each_use, own_ways, rest_of_path, second_entries};
ghost use Rattle.iom_ways.specs.Ways.{Gathers, Has};

use crate::adding::{has_held, put_entries};
use crate::asked::Asked;
use crate::exploring::{Explored, followed};
use crate::found::{PathBy, put_found};
use crate::under::{Under, second_entries};
use iom_bits::Kind;
use iom_every::{Held, HeldPath, MetBy, second_outcome, second_reads, second_use};
use iom_held::Kept;
use iom_mem::Region;
use iom_nested::{Physical, got_behind, second_shape};
use iom_walk::{Format, Got, MetEntry, Shape, Words, place_in};
use std::alloc::AllocError;

/// Puts in the ways by a first stage whose walk has met these entries, from a table on, of which `count` levels are left; `table` is its PPN,
/// below 2^44.
#[cycle(walking)]
pub(crate) fn put_path<M: Region>(
    out: &mut Explored,
    under: &Under<'_, M>,
    format: &Format,
    used: Option<Held>,
    path: &[MetBy],
    table: u64,
    count: u8,
) -> Result<(), AllocError>
    requires table { table < 2 ^ 44 }
    requires count { count ≤ levels format.now.shape }
    requires room { length path.now + count ≤ 5 }
    requires used { IfSome used (λ held. held.level < 5) }
    requires levels { All (MetFits (second_shape_of under.now.context)) path.now }
    ensures { OnOk result (Explores under.now.asks under.now.held.now
        (rest_of_path (M.memory under.now.ram.now) under.now.features under.now.request under.now.context under.now.located.now format.now used path.now table count)
        out.old out.new) }
{
    if count == 0 {
        return put_found(out, under, *format, used, path);
    }
    let level = count - 1;
    let place = place_in(*format, under.request.iova, table, level);
    match second_shape(&under.context) {
        Some(shape) => put_behind(out, under, format, used, path, shape, place, level),
        None => {
            let got = Physical { ram: under.ram }.word(place);
            let entry = MetEntry { level, place, got };
            put_met(out, under, format, used, path, MetBy { entry, used: None })
        }
    }
}

// Puts in the ways by a path whose next entry, of this level at this place, is read through the second stage: from its root, and from each entry
// that is held for the place.
#[cycle(walking)]
fn put_behind<M: Region>(
    out: &mut Explored,
    under: &Under<'_, M>,
    format: &Format,
    used: Option<Held>,
    path: &[MetBy],
    shape: Shape,
    place: u64,
    level: u8,
) -> Result<(), AllocError>
    requires shape { second_shape_of under.now.context ≡ Some shape }
    requires level { level < levels format.now.shape }
    requires room { length path.now + level < 5 }
    requires used { IfSome used (λ held. held.level < 5) }
    requires levels { All (MetFits (second_shape_of under.now.context)) path.now }
    ensures { OnOk result (Explores under.now.asks under.now.held.now
        (looking (ForEntry level) (entry_use under.now.context shape level place)
        (behind_entry (M.memory under.now.ram.now) under.now.features under.now.request under.now.context under.now.located.now format.now used path.now shape place level))
        out.old out.new) }
{
    let plain = got_by(under, shape, place, None);
    put_read(
        out, under, format, used, path, shape, place, level, None, plain,
    )?;
    let (context, address) = (under.context, place);
    let look = Asked::Second {
        context,
        shape,
        address,
    };
    let Some(entries) = followed(out, under.asks, under.held, &look)? else {
        return Ok(());
    };
    let fresh = second_entries(under, shape, place);
    put_each(
        out, under, format, used, path, shape, place, level, &entries, plain, &fresh,
    )
}

// Puts in the ways on which each of these entries of the second stage that fits is used to read the next entry. The ways by memory's own path,
// which reads `plain` and has the entries `fresh`, are there already.
#[cycle(walking)]
fn put_each<M: Region>(
    out: &mut Explored,
    under: &Under<'_, M>,
    format: &Format,
    used: Option<Held>,
    path: &[MetBy],
    shape: Shape,
    place: u64,
    level: u8,
    entries: &[Kept],
    plain: Got,
    fresh: &HeldPath,
) -> Result<(), AllocError>
    requires follows { under.now.asks ≡ false }
    requires shape { second_shape_of under.now.context ≡ Some shape }
    requires level { level < levels format.now.shape }
    requires room { length path.now + level < 5 }
    requires used { IfSome used (λ held. held.level < 5) }
    requires levels { All (MetFits (second_shape_of under.now.context)) path.now }
    requires plain { plain ≡ got_by (M.memory under.now.ram.now) under.now.features under.now.context (Some shape) None place }
    requires fresh { fresh.now.items ≡ second_entries (M.memory under.now.ram.now) under.now.features under.now.context shape place }
    requires there { Has (ways_over (entries_in under.now.held.now)
        (behind_entry (M.memory under.now.ram.now) under.now.features under.now.request under.now.context under.now.located.now format.now used path.now shape place level None)) out.old.ways }
    ensures { OnOk result (Gathers (each_use (λ (kept : Kept). entry_use under.now.context shape level place (ForEntry level) kept.entry)
        (own_ways (entries_in under.now.held.now)
        (behind_entry (M.memory under.now.ram.now) under.now.features under.now.request under.now.context under.now.located.now format.now used path.now shape place level)) entries.now)
        out.old.ways out.new.ways) }
{
    for kept in entries.iter() {
        let Some(behind) = second_use(&under.context, shape, place, &kept.entry) else {
            continue;
        };
        put_other(
            out, under, format, used, path, shape, place, level, behind, plain, fresh,
        )?;
    }
    Ok(())
}

// Puts in the ways on which this entry of the second stage is used to read the next entry. The ways by memory's own path are there already: if
// both read alike, only the reads of the second stage are put in, and if that path has the entry, nothing is.
#[cycle(walking)]
fn put_other<M: Region>(
    out: &mut Explored,
    under: &Under<'_, M>,
    format: &Format,
    used: Option<Held>,
    path: &[MetBy],
    shape: Shape,
    place: u64,
    level: u8,
    behind: Held,
    plain: Got,
    fresh: &HeldPath,
) -> Result<(), AllocError>
    requires follows { under.now.asks ≡ false }
    requires shape { second_shape_of under.now.context ≡ Some shape }
    requires level { level < levels format.now.shape }
    requires room { length path.now + level < 5 }
    requires used { IfSome used (λ held. held.level < 5) }
    requires levels { All (MetFits (second_shape_of under.now.context)) path.now }
    requires behind { behind.level < levels shape }
    requires plain { plain ≡ got_by (M.memory under.now.ram.now) under.now.features under.now.context (Some shape) None place }
    requires fresh { fresh.now.items ≡ second_entries (M.memory under.now.ram.now) under.now.features under.now.context shape place }
    requires there { Has (ways_over (entries_in under.now.held.now)
        (behind_entry (M.memory under.now.ram.now) under.now.features under.now.request under.now.context under.now.located.now format.now used path.now shape place level None)) out.old.ways }
    ensures { OnOk result (Explores under.now.asks under.now.held.now
        (behind_entry (M.memory under.now.ram.now) under.now.features under.now.request under.now.context under.now.located.now format.now used path.now shape place level (Some behind))
        out.old out.new) }
{
    if has_held(fresh, behind) {
        return Ok(());
    }
    let got = got_by(under, shape, place, Some(behind));
    if is_same_got(got, plain) {
        let (ram, features, context) = (under.ram, under.features, &under.context);
        let second = second_reads(ram, features, context, shape, place, Some(behind));
        put_entries(&mut out.ways.reads, &second)?;
        return Ok(());
    }
    let behind = Some(behind);
    put_read(
        out, under, format, used, path, shape, place, level, behind, got,
    )
}

// Puts in the ways on which the next entry is read as `got`, through a second stage that is entered at this entry or at its root.
#[cycle(walking)]
fn put_read<M: Region>(
    out: &mut Explored,
    under: &Under<'_, M>,
    format: &Format,
    used: Option<Held>,
    path: &[MetBy],
    shape: Shape,
    place: u64,
    level: u8,
    behind: Option<Held>,
    got: Got,
) -> Result<(), AllocError>
    requires shape { second_shape_of under.now.context ≡ Some shape }
    requires level { level < levels format.now.shape }
    requires room { length path.now + level < 5 }
    requires used { IfSome used (λ held. held.level < 5) }
    requires levels { All (MetFits (second_shape_of under.now.context)) path.now }
    requires behind { IfSome behind (λ held. held.level < levels shape) }
    requires got { got ≡ got_by (M.memory under.now.ram.now) under.now.features under.now.context (Some shape) behind place }
    ensures { OnOk result (Explores under.now.asks under.now.held.now
        (behind_entry (M.memory under.now.ram.now) under.now.features under.now.request under.now.context under.now.located.now format.now used path.now shape place level behind)
        out.old out.new) }
{
    let entry = MetEntry { level, place, got };
    put_met(
        out,
        under,
        format,
        used,
        path,
        MetBy {
            entry,
            used: behind,
        },
    )
}

// Whether two reads of an entry give the same.
fn is_same_got(got: Got, other: Got) -> bool
    ensures { IsTrue result ↔ (got ≡ other) }
{
    got == other
}

// What the guest has at an address of its own, if this entry of the second stage or none is used for it.
fn got_by<M: Region>(under: &Under<'_, M>, shape: Shape, place: u64, used: Option<Held>) -> Got
    requires used { IfSome used (λ held. held.level < levels shape) }
    ensures { result ≡ got_by (M.memory under.now.ram.now) under.now.features under.now.context (Some shape) used place }
{
    let end = second_outcome(
        under.ram,
        under.features,
        &under.context,
        shape,
        place,
        Kind::Read,
        used,
    );
    got_behind(under.ram, place, end)
}

// Puts in the ways by a first stage whose walk has met the entries of this path and meets this one next.
#[cycle(walking)]
fn put_met<M: Region>(
    out: &mut Explored,
    under: &Under<'_, M>,
    format: &Format,
    used: Option<Held>,
    path: &[MetBy],
    met: MetBy,
) -> Result<(), AllocError>
    requires level { met.entry.level < levels format.now.shape }
    requires room { length path.now + met.entry.level < 5 }
    requires used { IfSome used (λ held. held.level < 5) }
    requires levels { All (MetFits (second_shape_of under.now.context)) path.now }
    requires fits { UsedFits (second_shape_of under.now.context) met.used }
    ensures { OnOk result (Explores under.now.asks under.now.held.now
        (behind_met (M.memory under.now.ram.now) under.now.features under.now.request under.now.context under.now.located.now format.now used path.now met)
        out.old out.new) }
{
    let longer = path_with(path, met);
    let entry = met.entry;
    if entry.is_pointer(format.rules) {
        put_path(
            out,
            under,
            format,
            used,
            &longer,
            entry.next_table(),
            entry.level,
        )
    } else {
        put_found(out, under, *format, used, &longer)
    }
}

// A path with one more entry.
fn path_with(path: &[MetBy], met: MetBy) -> PathBy
    requires room { length path.now < 5 }
    ensures path { result.items ≡ path.now ++ met ∷ [] }
    ensures len { array_vec_len result ≡ length path.now + 1 }
{
    let mut longer = PathBy::new();
    for before in path.iter() {
        longer.push(*before);
    }
    longer.push(met);
    longer
}
