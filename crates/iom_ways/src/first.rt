//! The first stage, entered at an entry that is held or at its root.

ghost use Rattle.std.specs.Prelude.{ℕ, ◌≡◌, ◌<◌, [], false, All, None, Some, OnOk, IfSome, IsSome};
ghost use Rattle.iom_ddt.specs.Contexts.{is_bare};
ghost use Rattle.iom_choices.specs.Trees.{ways_over};
ghost use Rattle.iom_nested.specs.Stages.{first_shape_of, format_of, second_shape_of, table_got};
ghost use Rattle.iom_every.specs.Trees.{first_tree, got_by, met_tree, page_tree};
ghost use Rattle.iom_every.specs.Uses.{ForFirst, first_use};
ghost use Rattle.iom_every.specs.Walks.{met};
ghost use Rattle.iom_held.specs.Kept.{entries_in};
ghost use Rattle.iom_held.specs.declared.kept.Kept.{Kept};
ghost use Rattle.iom_walk.specs.Shape.{levels};
ghost use Rattle.iom_ways.specs.Asked.{Explores};
ghost use Rattle.iom_ways.specs.Branches.{behind_path, behind_reached, behind_used, each_use, fresh_entries, own_ways, rest_of_path};
ghost use Rattle.iom_ways.specs.Ways.{Gathers, Has};

use crate::access::put_access;
use crate::adding::has_held;
use crate::asked::Asked;
use crate::exploring::{Explored, followed};
use crate::found::put_found;
use crate::path::put_path;
use crate::under::Under;
use iom_bits::Features;
use iom_ddt::Context;
use iom_every::{Held, HeldPath, entry_of, first_use, held_in, met};
use iom_held::Kept;
use iom_mem::Region;
use iom_nested::{Physical, Second, first_shape, first_stage, reached_by, second_shape};
use iom_walk::{Class, EntryRules, Format, MetPath, Outcome, Shape};
use std::alloc::AllocError;

/// Puts in the ways by both stages of a context.
pub(crate) fn put_stages<M: Region>(
    out: &mut Explored,
    under: &Under<'_, M>,
) -> Result<(), AllocError>
    requires translated { is_bare under.now.context ≡ false }
    ensures { OnOk result (Explores under.now.asks under.now.held.now
        (page_tree (M.memory under.now.ram.now) under.now.features under.now.request under.now.context under.now.located.now None)
        out.old out.new) }
{
    let request = &under.request;
    match first_shape(&under.context) {
        Some(shape) => put_first(out, under, shape),
        None => {
            let reached = first_stage(
                under.ram,
                under.features,
                &under.context,
                request.iova,
                request.kind,
            );
            put_access(out, under, &[], reached)
        }
    }
}

// Puts in the ways by a first stage of this shape: from its root, and from each entry that is held for the IOVA.
fn put_first<M: Region>(
    out: &mut Explored,
    under: &Under<'_, M>,
    shape: Shape,
) -> Result<(), AllocError>
    ensures { OnOk result (Explores under.now.asks under.now.held.now
        (first_tree (M.memory under.now.ram.now) under.now.features under.now.context under.now.request.iova under.now.request.kind (Some shape)
        (λ reached first. behind_reached (M.memory under.now.ram.now) under.now.features under.now.request under.now.context under.now.located.now first reached))
        out.old out.new) }
{
    let fresh = fresh_entries(under, shape);
    put_used(out, under, shape, None)?;
    let (context, iova) = (under.context, under.request.iova);
    let look = Asked::First {
        context,
        shape,
        iova,
    };
    let Some(used) = followed(out, under.asks, under.held, &look)? else {
        return Ok(());
    };
    put_each(out, under, shape, &used, &fresh)
}

// Puts in the ways by a first stage that is entered at each of these entries that fits. The ways from its root, whose path in memory has the entries
// `fresh`, are there already.
fn put_each<M: Region>(
    out: &mut Explored,
    under: &Under<'_, M>,
    shape: Shape,
    used: &[Kept],
    fresh: &HeldPath,
) -> Result<(), AllocError>
    requires follows { under.now.asks ≡ false }
    requires fresh { fresh.now.items ≡ fresh_entries (M.memory under.now.ram.now) under.now.features under.now.request under.now.context shape }
    requires there { Has (ways_over (entries_in under.now.held.now)
        (behind_used (M.memory under.now.ram.now) under.now.features under.now.request under.now.context under.now.located.now shape None)) out.old.ways }
    ensures { OnOk result (Gathers (each_use (λ (kept : Kept). first_use under.now.context shape under.now.request.iova ForFirst kept.entry)
        (own_ways (entries_in under.now.held.now)
        (behind_used (M.memory under.now.ram.now) under.now.features under.now.request under.now.context under.now.located.now shape)) used.now)
        out.old.ways out.new.ways) }
{
    for kept in used.iter() {
        let Some(used) = first_use(&under.context, shape, under.request.iova, &kept.entry) else {
            continue;
        };
        put_other(out, under, shape, used, fresh)?;
    }
    Ok(())
}

// Puts in the ways by a first stage that is entered at this entry. If memory's own path has the entry, they are all there already.
fn put_other<M: Region>(
    out: &mut Explored,
    under: &Under<'_, M>,
    shape: Shape,
    used: Held,
    fresh: &HeldPath,
) -> Result<(), AllocError>
    requires follows { under.now.asks ≡ false }
    requires used { used.level < levels shape }
    requires fresh { fresh.now.items ≡ fresh_entries (M.memory under.now.ram.now) under.now.features under.now.request under.now.context shape }
    requires there { Has (ways_over (entries_in under.now.held.now)
        (behind_used (M.memory under.now.ram.now) under.now.features under.now.request under.now.context under.now.located.now shape None)) out.old.ways }
    ensures { OnOk result (Explores under.now.asks under.now.held.now
        (behind_used (M.memory under.now.ram.now) under.now.features under.now.request under.now.context under.now.located.now shape (Some used))
        out.old out.new) }
{
    if has_held(fresh, used) {
        return Ok(());
    }
    put_used(out, under, shape, Some(used))
}

// The entries that memory's own path of the first stage has now, as they may be kept.
fn fresh_entries<M: Region>(under: &Under<'_, M>, shape: Shape) -> HeldPath
    ensures { result.items ≡ fresh_entries (M.memory under.now.ram.now) under.now.features under.now.request under.now.context shape }
{
    let (features, iova) = (under.features, under.request.iova);
    let path = own_path(under, Format::of_user(shape, features), iova);
    held_in(false, iova, &path)
}

// The path of an IOVA in memory.
fn own_path<M: Region>(under: &Under<'_, M>, format: Format, iova: u64) -> MetPath
    ensures path { result.items ≡ met (λ (level : ℕ). got_by (M.memory under.now.ram.now) under.now.features under.now.context
        (second_shape_of under.now.context) None) format under.now.context.ppn iova None }
    ensures fits { All (λ entry. entry.level < 5) result.items }
{
    let (ram, context) = (under.ram, &under.context);
    if second_shape(context).is_some() {
        return guest_path(ram, under.features, context, format, iova);
    }
    met(&Physical { ram }, format, context.fields.ppn, iova, None)
}

// The path of an IOVA in memory, where each entry is read through the second stage.
fn guest_path<M: Region>(
    ram: &M,
    features: Features,
    context: &Context,
    format: Format,
    iova: u64,
) -> MetPath
    requires second { IsSome (second_shape_of context.now) }
    ensures path { result.items ≡ met (λ (level : ℕ). table_got (M.memory ram.now) features context.now) format context.now.ppn iova None }
    ensures fits { All (λ entry. entry.level < 5) result.items }
{
    let root = context.fields.ppn;
    let guest = Second::new(ram, features, context);
    met(&guest, format, root, iova, None)
}

// Puts in the ways by a first stage that is entered at this entry, or at its root.
fn put_used<M: Region>(
    out: &mut Explored,
    under: &Under<'_, M>,
    shape: Shape,
    used: Option<Held>,
) -> Result<(), AllocError>
    requires used { IfSome used (λ held. held.level < levels shape) }
    ensures { OnOk result (Explores under.now.asks under.now.held.now
        (behind_used (M.memory under.now.ram.now) under.now.features under.now.request under.now.context under.now.located.now shape used)
        out.old out.new) }
{
    let request = &under.request;
    if shape.covers(request.iova) {
        put_entered(out, under, shape, used)
    } else {
        let reached = reached_by(Outcome::Fault, request.iova, request.kind);
        put_access(out, under, &[], reached)
    }
}

// Puts in the ways by a first stage that is entered at this entry, or at its root, for an IOVA that doesn't break the width rule.
fn put_entered<M: Region>(
    out: &mut Explored,
    under: &Under<'_, M>,
    shape: Shape,
    used: Option<Held>,
) -> Result<(), AllocError>
    requires used { IfSome used (λ held. held.level < levels shape) }
    ensures { OnOk result (Explores under.now.asks under.now.held.now
        (met_tree (M.memory under.now.ram.now) under.now.features under.now.context (second_shape_of under.now.context) (format_of under.now.features shape) under.now.request.iova used
        (behind_path (M.memory under.now.ram.now) under.now.features under.now.request under.now.context under.now.located.now (format_of under.now.features shape) used))
        out.old out.new) }
{
    let format = Format {
        shape,
        rules: EntryRules {
            features: under.features,
            class: Class::User,
        },
    };
    let Some(held) = used else {
        return put_from_root(out, under, &format);
    };
    let entry = entry_of(&held);
    if entry.is_pointer(format.rules) {
        put_path(
            out,
            under,
            &format,
            used,
            &[],
            entry.next_table(),
            held.level,
        )
    } else {
        put_found(out, under, format, used, &[])
    }
}

// Puts in the ways by a whole path of the first stage.
fn put_from_root<M: Region>(
    out: &mut Explored,
    under: &Under<'_, M>,
    format: &Format,
) -> Result<(), AllocError>
    ensures { OnOk result (Explores under.now.asks under.now.held.now
        (rest_of_path (M.memory under.now.ram.now) under.now.features under.now.request under.now.context under.now.located.now format.now None [] under.now.context.ppn (levels format.now.shape))
        out.old out.new) }
{
    let root = under.context.fields.ppn;
    let count = format.shape.levels();
    put_path(out, under, format, None, &[], root, count)
}
