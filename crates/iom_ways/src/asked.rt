//! A look-up of a walk, and the held entries that may be used there.

ghost use Rattle.std.specs.Prelude.{◌≡◌, OnOk};
ghost use Rattle.iom_ways.specs.Asked.{AreTagged, Collects, IsDeep, answers};

use iom_bits::Cause;
use iom_cache::Key;
use iom_ddt::{Context, ContextFormat};
use iom_every::{Entry, device_use, file_use, first_use, page_use, second_use};
use iom_held::{
    HeldEntries, Kept, Tag, device_tags, file_tags, first_tags, page_tags, second_tags,
};
use iom_walk::Shape;
use std::alloc::AllocError;

/// A look-up of a walk: what an entry must be for, to be used there.
#[derive(Clone, Copy)]
pub(crate) enum Asked {
    /// The device's context, in a directory of `depth` levels, 0 to 3, whose contexts have this format.
    Device {
        format: ContextFormat,
        depth: u8,
        did: u32,
    },
    /// The whole translation.
    Page {
        key: Key,
    },
    /// The first stage of this context.
    First {
        context: Context,
        shape: Shape,
        iova: u64,
    },
    /// The second stage of this context.
    Second {
        context: Context,
        shape: Shape,
        address: u64,
    },
    /// The MSI page table of this context.
    File {
        context: Context,
        address: u64,
    },
}

/// Puts in the held entries that this look-up may use. The fault is a refused allocation.
pub(crate) fn put_usable(
    out: &mut Vec<Kept>,
    held: &HeldEntries,
    asked: &Asked,
) -> Result<(), AllocError>
    requires depth { IsDeep asked.now }
    ensures { OnOk result (Collects held.now (answers asked.now) out.old.items out.new.items) }
{
    match asked {
        Asked::Device { format, did, .. } => {
            put_tagged(out, held, asked, &device_tags(*format, *did))
        }
        Asked::Page { key } => put_tagged(out, held, asked, &page_tags(key)),
        Asked::First { iova, .. } => put_tagged(out, held, asked, &first_tags(*iova)),
        Asked::Second { address, .. } => put_tagged(out, held, asked, &second_tags(*address)),
        Asked::File { address, .. } => put_tagged(out, held, asked, &file_tags(*address)),
    }
}

// Puts in the held entries that this look-up may use; each of them has one of these tags.
fn put_tagged(
    out: &mut Vec<Kept>,
    held: &HeldEntries,
    asked: &Asked,
    tags: &[Tag],
) -> Result<(), AllocError>
    requires depth { IsDeep asked.now }
    requires tags { AreTagged (answers asked.now) tags.now }
    ensures { OnOk result (Collects held.now (answers asked.now) out.old.items out.new.items) }
{
    for tag in tags.iter() {
        let shelf = held.tagged(*tag);
        put_fitting(out, shelf, asked)?;
    }
    Ok(())
}

// Those of these entries that it may use.
fn put_fitting(out: &mut Vec<Kept>, shelf: &[Kept], asked: &Asked) -> Result<(), AllocError>
    requires depth { IsDeep asked.now }
    ensures { OnOk result (Collects shelf.now (answers asked.now) out.old.items out.new.items) }
{
    let _: Option<Result<Context, Cause>> = None;
    for kept in shelf.iter() {
        if !answers(asked, &kept.entry) {
            continue;
        }
        out.push(*kept)?;
    }
    Ok(())
}

// Whether an entry fits this look-up.
fn answers(asked: &Asked, entry: &Entry) -> bool
    requires depth { IsDeep asked.now }
    ensures { result ≡ answers asked.now entry.now }
{
    match asked {
        Asked::Device { format, depth, did } => device_use(*format, *depth, *did, entry).is_some(),
        Asked::Page { key } => page_use(key, entry).is_some(),
        Asked::First {
            context,
            shape,
            iova,
        } => first_use(context, *shape, *iova, entry).is_some(),
        Asked::Second {
            context,
            shape,
            address,
        } => second_use(context, *shape, *address, entry).is_some(),
        Asked::File { context, address } => file_use(context, *address, entry).is_some(),
    }
}
