//! The entry of an interrupt file for the access itself.

ghost use Rattle.std.specs.Prelude.{◌≡◌, ◌<◌, false, None, OnOk};
ghost use Rattle.iom_choices.specs.Trees.{ways_over};
ghost use Rattle.iom_every.specs.Trees.{looking};
ghost use Rattle.iom_every.specs.Uses.{ForAccess, file_use};
ghost use Rattle.iom_held.specs.Kept.{entries_in};
ghost use Rattle.iom_held.specs.declared.kept.Kept.{Kept};
ghost use Rattle.iom_ways.specs.Asked.{Explores};
ghost use Rattle.iom_ways.specs.Branches.{behind_file, each_use, own_ways};
ghost use Rattle.iom_ways.specs.Ways.{Gathers};

use crate::access::put_staged;
use crate::asked::Asked;
use crate::exploring::{Explored, followed};
use crate::under::Under;
use iom_every::{Entry, file_found, file_reads, file_use};
use iom_held::Kept;
use iom_mem::Region;
use iom_nested::{Reached, hit_by_file};
use std::alloc::AllocError;

/// Puts in the ways by an entry of an MSI page table: that of memory, and each that is held for the address.
pub(crate) fn put_file<M: Region>(
    out: &mut Explored,
    under: &Under<'_, M>,
    first: &[Entry],
    reached: Reached,
) -> Result<(), AllocError>
    requires level { reached.level < 5 }
    ensures { OnOk result (Explores under.now.asks under.now.held.now
        (looking ForAccess (file_use under.now.context reached.addr)
        (behind_file (M.memory under.now.ram.now) under.now.request under.now.context under.now.located.now first.now reached))
        out.old out.new) }
{
    put_used(out, under, first, reached, None)?;
    let look = Asked::File {
        context: under.context,
        address: reached.addr,
    };
    let Some(used) = followed(out, under.asks, under.held, &look)? else {
        return Ok(());
    };
    put_each(out, under, first, reached, &used)
}

// Puts in the way by each of these entries that fits.
fn put_each<M: Region>(
    out: &mut Explored,
    under: &Under<'_, M>,
    first: &[Entry],
    reached: Reached,
    used: &[Kept],
) -> Result<(), AllocError>
    requires follows { under.now.asks ≡ false }
    requires level { reached.level < 5 }
    ensures { OnOk result (Gathers (each_use (λ (kept : Kept). file_use under.now.context reached.addr ForAccess kept.entry)
        (own_ways (entries_in under.now.held.now)
        (behind_file (M.memory under.now.ram.now) under.now.request under.now.context under.now.located.now first.now reached)) used.now)
        out.old.ways out.new.ways) }
{
    for kept in used.iter() {
        let Some(word) = file_use(&under.context, reached.addr, &kept.entry) else {
            continue;
        };
        put_used(out, under, first, reached, Some(word))?;
    }
    Ok(())
}

// Puts in the way by the entry with this first word, or by that of memory.
fn put_used<M: Region>(
    out: &mut Explored,
    under: &Under<'_, M>,
    first: &[Entry],
    reached: Reached,
    used: Option<u64>,
) -> Result<(), AllocError>
    requires level { reached.level < 5 }
    ensures { OnOk result (Explores under.now.asks under.now.held.now
        (behind_file (M.memory under.now.ram.now) under.now.request under.now.context under.now.located.now first.now reached used)
        out.old out.new) }
{
    let (ram, context) = (under.ram, &under.context);
    let word = file_found(ram, context, reached.addr, used);
    let read = file_reads(ram, context, reached.addr, used);
    let hit = hit_by_file(reached, word, under.request.kind);
    put_staged(out, under, first, &read, hit)
}
