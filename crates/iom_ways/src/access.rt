//! What is behind the first stage, the second stage for the access itself, and the end of a way.

ghost use Rattle.std.specs.Prelude.{◌≡◌, ◌↔◌, ◌<◌, ◌^◌, ◌∷◌, [], false, None, Ok, Some, Result, IfOk, IfSome, IsTrue, OnOk};
ghost use Rattle.iom_walk.specs.Shape.{levels};
ghost use Rattle.iom_nested.specs.Faults.{Failure};
ghost use Rattle.iom_nested.specs.Files.{is_of_file};
ghost use Rattle.iom_nested.specs.Nested.{LeafReaches, told_of};
ghost use Rattle.iom_nested.specs.declared.translation.Hit.{Hit};
ghost use Rattle.iom_nested.specs.declared.translation.Reached.{Reached};
ghost use Rattle.iom_choices.specs.Trees.{ways_over};
ghost use Rattle.iom_core.specs.Access.{way_to};
ghost use Rattle.iom_every.specs.Stages.{second_outcome};
ghost use Rattle.iom_every.specs.Trees.{looking, staged};
ghost use Rattle.iom_every.specs.Uses.{ForAccess, access_use};
ghost use Rattle.iom_every.specs.Ways.{whole_of};
ghost use Rattle.iom_held.specs.Kept.{entries_in};
ghost use Rattle.iom_held.specs.declared.kept.Kept.{Kept};
ghost use Rattle.iom_ways.specs.Asked.{Explores};
ghost use Rattle.iom_ways.specs.Branches.{behind_access, behind_at, behind_reached, each_use, own_ways, second_entries};
ghost use Rattle.iom_ways.specs.Ways.{AreAdded, Gathers, Has};

use crate::adding::{has_held, put_entries, put_led};
use crate::asked::Asked;
use crate::exploring::{Explored, followed};
use crate::file::put_file;
use crate::under::{Under, second_entries};
use iom_bits::Cause;
use iom_cache::key_of;
use iom_core::{Denial, Request, Way};
use iom_ddt::Context;
use iom_every::{Entry, Held, HeldPath, second_outcome, second_reads, second_use};
use iom_held::Kept;
use iom_mem::Region;
use iom_nested::{Fault, Hit, Reached, hit_by, is_of_file, second_shape, second_stage};
use iom_walk::{Outcome, Shape};
use std::alloc::AllocError;

/// Puts in the ways behind a first stage that leads there and reads these entries.
pub(crate) fn put_access<M: Region>(
    out: &mut Explored,
    under: &Under<'_, M>,
    first: &[Entry],
    reached: Result<Reached, Fault>,
) -> Result<(), AllocError>
    requires level { IfOk reached (λ reached. reached.level < 5) }
    ensures { (found : Result Reached Failure) → reached ≡ told_of under.now.request.kind found →
        OnOk result (Explores under.now.asks under.now.held.now
        (behind_reached (M.memory under.now.ram.now) under.now.features under.now.request under.now.context under.now.located.now first.now found)
        out.old out.new) }
{
    match reached {
        Ok(reached) => put_at(out, under, first, reached),
        Err(fault) => put_staged(out, under, first, &[], Err(fault)),
    }
}

// Puts in the ways by a first stage that reads these entries and leads to this address.
fn put_at<M: Region>(
    out: &mut Explored,
    under: &Under<'_, M>,
    first: &[Entry],
    reached: Reached,
) -> Result<(), AllocError>
    requires level { reached.level < 5 }
    ensures { OnOk result (Explores under.now.asks under.now.held.now
        (behind_at (M.memory under.now.ram.now) under.now.features under.now.request under.now.context under.now.located.now first.now
        (is_of_file under.now.context.msi reached.addr) reached) out.old out.new) }
{
    if is_of_file(&under.context, reached.addr) {
        put_file(out, under, first, reached)
    } else {
        put_reached(out, under, first, reached)
    }
}

// Puts in the ways by the second stage from this address, which is none of an interrupt file.
fn put_reached<M: Region>(
    out: &mut Explored,
    under: &Under<'_, M>,
    first: &[Entry],
    reached: Reached,
) -> Result<(), AllocError>
    requires level { reached.level < 5 }
    ensures { OnOk result (Explores under.now.asks under.now.held.now
        (behind_at (M.memory under.now.ram.now) under.now.features under.now.request under.now.context under.now.located.now first.now false reached)
        out.old out.new) }
{
    let (context, kind) = (&under.context, under.request.kind);
    match second_shape(context) {
        Some(shape) => put_second(out, under, first, reached, shape),
        None => {
            let hit = second_stage(under.ram, under.features, context, reached, kind);
            put_staged(out, under, first, &[], hit)
        }
    }
}

// Puts in the ways by a second stage of this shape: from its root, and from each entry that is held for the address.
fn put_second<M: Region>(
    out: &mut Explored,
    under: &Under<'_, M>,
    first: &[Entry],
    reached: Reached,
    shape: Shape,
) -> Result<(), AllocError>
    requires level { reached.level < 5 }
    ensures { OnOk result (Explores under.now.asks under.now.held.now
        (looking ForAccess (access_use under.now.context shape reached.addr)
        (behind_access (M.memory under.now.ram.now) under.now.features under.now.request under.now.context under.now.located.now first.now shape reached))
        out.old out.new) }
{
    let (ram, features, context) = (under.ram, under.features, &under.context);
    let kind = under.request.kind;
    let plain = second_outcome(ram, features, context, shape, reached.addr, kind, None);
    put_used(out, under, first, reached, shape, None, plain)?;
    let look = Asked::Second {
        context: *context,
        shape,
        address: reached.addr,
    };
    let Some(used) = followed(out, under.asks, under.held, &look)? else {
        return Ok(());
    };
    let fresh = second_entries(under, shape, reached.addr);
    put_each(out, under, first, reached, shape, &used, plain, &fresh)
}

// Puts in the way by a second stage that is entered at each of these entries that fits. The way from its root, which ends as `plain` and whose path
// has the entries `fresh`, is there already.
fn put_each<M: Region>(
    out: &mut Explored,
    under: &Under<'_, M>,
    first: &[Entry],
    reached: Reached,
    shape: Shape,
    used: &[Kept],
    plain: Outcome,
    fresh: &HeldPath,
) -> Result<(), AllocError>
    requires follows { under.now.asks ≡ false }
    requires level { reached.level < 5 }
    requires plain { plain ≡ second_outcome (M.memory under.now.ram.now) under.now.features under.now.context shape reached.addr under.now.request.kind None }
    requires fresh { fresh.now.items ≡ second_entries (M.memory under.now.ram.now) under.now.features under.now.context shape reached.addr }
    requires there { Has (ways_over (entries_in under.now.held.now)
        (behind_access (M.memory under.now.ram.now) under.now.features under.now.request under.now.context under.now.located.now first.now shape reached None)) out.old.ways }
    ensures { OnOk result (Gathers (each_use (λ (kept : Kept). access_use under.now.context shape reached.addr ForAccess kept.entry)
        (own_ways (entries_in under.now.held.now)
        (behind_access (M.memory under.now.ram.now) under.now.features under.now.request under.now.context under.now.located.now first.now shape reached)) used.now)
        out.old.ways out.new.ways) }
{
    for kept in used.iter() {
        let Some(used) = second_use(&under.context, shape, reached.addr, &kept.entry) else {
            continue;
        };
        put_other(out, under, first, reached, shape, used, plain, fresh)?;
    }
    Ok(())
}

// Puts in the way by a second stage that is entered at this entry, besides that from its root, which ends so: if both end alike, what is read;
// if the path from its root has the entry, that way is there.
fn put_other<M: Region>(
    out: &mut Explored,
    under: &Under<'_, M>,
    first: &[Entry],
    reached: Reached,
    shape: Shape,
    used: Held,
    plain: Outcome,
    fresh: &HeldPath,
) -> Result<(), AllocError>
    requires follows { under.now.asks ≡ false }
    requires level { reached.level < 5 }
    requires used { used.level < levels shape }
    requires plain { plain ≡ second_outcome (M.memory under.now.ram.now) under.now.features under.now.context shape reached.addr under.now.request.kind None }
    requires fresh { fresh.now.items ≡ second_entries (M.memory under.now.ram.now) under.now.features under.now.context shape reached.addr }
    requires there { Has (ways_over (entries_in under.now.held.now)
        (behind_access (M.memory under.now.ram.now) under.now.features under.now.request under.now.context under.now.located.now first.now shape reached None)) out.old.ways }
    ensures { OnOk result (Explores under.now.asks under.now.held.now
        (behind_access (M.memory under.now.ram.now) under.now.features under.now.request under.now.context under.now.located.now first.now shape reached (Some used))
        out.old out.new) }
{
    if has_held(fresh, used) {
        return Ok(());
    }
    let (ram, features, context) = (under.ram, under.features, &under.context);
    let kind = under.request.kind;
    let end = second_outcome(
        ram,
        features,
        context,
        shape,
        reached.addr,
        kind,
        Some(used),
    );
    if is_same_end(end, plain) {
        let second = second_reads(ram, features, context, shape, reached.addr, Some(used));
        put_entries(&mut out.ways.reads, &second)?;
        return Ok(());
    }
    put_used(out, under, first, reached, shape, Some(used), end)
}

// Whether two walks of the second stage end alike.
fn is_same_end(end: Outcome, other: Outcome) -> bool
    ensures { IsTrue result ↔ (end ≡ other) }
{
    end == other
}

// Puts in the way by a second stage that is entered at this entry, or at its root, and ends so.
fn put_used<M: Region>(
    out: &mut Explored,
    under: &Under<'_, M>,
    first: &[Entry],
    reached: Reached,
    shape: Shape,
    used: Option<Held>,
    end: Outcome,
) -> Result<(), AllocError>
    requires level { reached.level < 5 }
    requires used { IfSome used (λ held. held.level < levels shape) }
    requires leaf { LeafReaches end }
    requires end { end ≡ second_outcome (M.memory under.now.ram.now) under.now.features under.now.context shape reached.addr under.now.request.kind used }
    ensures { OnOk result (Explores under.now.asks under.now.held.now
        (behind_access (M.memory under.now.ram.now) under.now.features under.now.request under.now.context under.now.located.now first.now shape reached used)
        out.old out.new) }
{
    let (ram, features, context) = (under.ram, under.features, &under.context);
    let second = second_reads(ram, features, context, shape, reached.addr, used);
    let hit = hit_by(reached, end, under.request.kind);
    put_staged(out, under, first, &second, hit)
}

/// Puts in the way by both stages, which read these entries and end so.
pub(crate) fn put_staged<M: Region>(
    out: &mut Explored,
    under: &Under<'_, M>,
    first: &[Entry],
    second: &[Entry],
    found: Result<Hit, Fault>,
) -> Result<(), AllocError>
    ensures { (end : Result Hit Failure) → found ≡ told_of under.now.request.kind end →
        OnOk result (Explores under.now.asks under.now.held.now (staged under.now.request under.now.context under.now.located.now first.now end second.now)
        out.old out.new) }
{
    put_led(&mut out.ways.led, &way_to(&under.context, &found))?;
    put_entries(&mut out.ways.reads, under.located)?;
    put_entries(&mut out.ways.reads, first)?;
    put_entries(&mut out.ways.reads, second)?;
    put_whole(&mut out.ways.reads, &under.request, &under.context, &found)?;
    Ok(())
}

// Where both stages of a context lead.
fn way_to(context: &Context, found: &Result<Hit, Fault>) -> Way
    ensures { result ≡ way_to context.now found.now }
{
    match found {
        Ok(hit) => Way::Walked(*context, *hit),
        Err(fault) => Way::Denied(Denial::translating(context, *fault)),
    }
}

// Puts in the whole translation, if there is a hit.
fn put_whole(
    out: &mut Vec<Entry>,
    request: &Request,
    context: &Context,
    found: &Result<Hit, Fault>,
) -> Result<(), AllocError>
    ensures { OnOk result (AreAdded (whole_of request.now context.now found.now) out.old.items out.new.items) }
{
    let _: Option<Result<Context, Cause>> = None;
    if let Ok(hit) = found {
        let key = key_of(context, request.did, request.iova, request.kind);
        put_entries(out, &[Entry::Page { key, hit: *hit }])?;
    }
    Ok(())
}
