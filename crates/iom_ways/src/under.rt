//! The ways below a context.

ghost use Rattle.std.specs.Prelude.{◌≡◌, false, Some, OnOk};
ghost use Rattle.iom_ddt.specs.Contexts.{is_bare};
ghost use Rattle.iom_core.specs.Access.{request_key};
ghost use Rattle.iom_every.specs.Trees.{looking, page_tree};
ghost use Rattle.iom_every.specs.Uses.{ForPage, page_use};
ghost use Rattle.iom_held.specs.Kept.{entries_in};
ghost use Rattle.iom_held.specs.declared.kept.Kept.{Kept};
ghost use Rattle.iom_ways.specs.Branches.{each_use, own_ways, second_entries};
ghost use Rattle.iom_ways.specs.Asked.{Explores};
ghost use Rattle.iom_ways.specs.Ways.{Gathers};

use crate::asked::Asked;
use crate::exploring::{Explored, followed, put_way};
use crate::first::put_stages;
use iom_bits::Features;
use iom_cache::{Key, key_of};
use iom_core::{Request, Way};
use iom_ddt::Context;
use iom_every::{Entry, HeldPath, held_in, met, page_use};
use iom_held::{HeldEntries, Kept};
use iom_mem::Region;
use iom_nested::{Hit, Physical};
use iom_walk::{Format, Shape};
use std::alloc::AllocError;

/// What all ways of a request below one context share.
#[derive(Clone, Copy)]
pub(crate) struct Under<'a, M: Region> {
    /// The memory.
    pub ram: &'a M,
    /// The features of the IOMMU.
    pub features: Features,
    /// The entries that may be held.
    pub held: &'a HeldEntries,
    /// The request.
    pub request: Request,
    /// Whether held entries are only asked for: then none is followed.
    pub asks: bool,
    /// The context that leads it.
    pub context: Context,
    /// The entries of the directory that were read to find the context.
    pub located: &'a [Entry],
}

/// Puts in the ways below a context with a stage.
pub(crate) fn put_translated<M: Region>(
    out: &mut Explored,
    under: &Under<'_, M>,
) -> Result<(), AllocError>
    requires translated { is_bare under.now.context ≡ false }
    ensures { OnOk result (Explores under.now.asks under.now.held.now
        (looking ForPage (page_use (request_key under.now.request under.now.context))
        (page_tree (M.memory under.now.ram.now) under.now.features under.now.request under.now.context under.now.located.now))
        out.old out.new) }
{
    let request = &under.request;
    let key = key_of(&under.context, request.did, request.iova, request.kind);
    put_stages(out, under)?;
    let Some(used) = followed(out, under.asks, under.held, &Asked::Page { key })? else {
        return Ok(());
    };
    put_each(out, under, &key, &used)
}

// Puts in the way by each of these entries that is a whole translation with this key.
fn put_each<M: Region>(
    out: &mut Explored,
    under: &Under<'_, M>,
    key: &Key,
    used: &[Kept],
) -> Result<(), AllocError>
    requires follows { under.now.asks ≡ false }
    ensures { OnOk result (Gathers (each_use (λ (kept : Kept). page_use key.now ForPage kept.entry)
        (own_ways (entries_in under.now.held.now)
        (page_tree (M.memory under.now.ram.now) under.now.features under.now.request under.now.context under.now.located.now)) used.now)
        out.old.ways out.new.ways) }
{
    for kept in used.iter() {
        let Some(hit) = page_use(key, &kept.entry) else {
            continue;
        };
        put_page(out, under, hit)?;
    }
    Ok(())
}

// Puts in the way by a whole translation that is held.
fn put_page<M: Region>(out: &mut Explored, under: &Under<'_, M>, hit: Hit) -> Result<(), AllocError>
    ensures { OnOk result (Explores under.now.asks under.now.held.now
        (page_tree (M.memory under.now.ram.now) under.now.features under.now.request under.now.context under.now.located.now (Some hit))
        out.old out.new) }
{
    put_way(out, Way::Walked(under.context, hit), under.located)
}

/// The entries that memory's own path of the second stage has now for a guest-physical address, as they may be kept.
pub(crate) fn second_entries<M: Region>(
    under: &Under<'_, M>,
    shape: Shape,
    address: u64,
) -> HeldPath
    ensures { result.items ≡ second_entries (M.memory under.now.ram.now) under.now.features under.now.context shape address }
{
    let (ram, features) = (under.ram, under.features);
    let (format, root) = (Format::of_user(shape, features), under.context.fields.gppn);
    let path = met(&Physical { ram }, format, root, address, None);
    held_in(false, address, &path)
}
