//! Entries that alone lead a request otherwise than the tables do: elsewhere, or by another way.

ghost use Rattle.std.specs.Prelude.{◌≡◌, ◌≤◌, ◌∷◌, [], ℕ, false, true, IfNone, IfOk, IfSome, OnOk};
ghost use Rattle.iom_choices.specs.Systems.{IsAmong};
ghost use Rattle.iom_core.specs.Looking.{by_tables};
ghost use Rattle.iom_core.specs.State.{in_front_of, state_on};
ghost use Rattle.iom_core.specs.declared.way.Way.{Way as Led};
ghost use Rattle.iom_every.specs.Rows.{bare};
ghost use Rattle.iom_owed.specs.Alike.{IsAlike};
ghost use Rattle.iom_owed.specs.Alone.{IsOlder, IsSoughtAlone, Tries, leads_over};

use crate::gathering::{gather, no_ways};
use crate::settling::{Unsettled, first_other};
use iom_core::{Board, Request, Way};
use iom_held::{HeldEntries, Kept};
use iom_mem::Region;
use iom_ways::{Ways, put_asked};
use std::alloc::{AllocError, Global};

/// The way by the oldest entry that alone takes a request elsewhere than the tables do, which lead it so; if `whole`, that leads it by another way
/// than theirs. None if none does. Only the entries are tried that a look-up of the walk in memory may use.
pub fn served_alone<M: Region>(
    whole: bool,
    alloc: Global,
    board: &Board,
    ram: &M,
    held: &HeldEntries,
    request: &Request,
    tables: &Way,
) -> Result<Option<Unsettled>, AllocError>
    requires tables { tables.now ≡ by_tables (in_front_of (M.memory ram.now) board.now.iommu) request.now }
    ensures { IfOk result (IsSoughtAlone whole (bare (state_on (M.memory ram.now) board.now)) request.now tables.now held.now) }
{
    let mut asked = Vec::new(alloc);
    put_asked(&mut asked, ram, board.registers(), held, request)?;
    let mut ways = no_ways(alloc);
    let mut oldest = None;
    for kept in asked.iter() {
        try_entry(
            &mut oldest,
            &mut ways,
            whole,
            alloc,
            board,
            ram,
            kept,
            request,
            tables,
        )?;
    }
    Ok(oldest)
}

// Puts the way by this entry in place of what was found, if it alone leads the request otherwise and is older. The ways have this room.
fn try_entry<M: Region>(
    oldest: &mut Option<Unsettled>,
    ways: &mut Ways,
    whole: bool,
    alloc: Global,
    board: &Board,
    ram: &M,
    kept: &Kept,
    request: &Request,
    tables: &Way,
) -> Result<(), AllocError>
    ensures { OnOk result (Tries whole (bare (state_on (M.memory ram.now) board.now)) request.now tables.now kept.now oldest.old oldest.new) }
{
    if !is_older(kept.number, oldest) {
        return Ok(());
    }
    let Some(elsewhere) = led_by(ways, whole, alloc, board, ram, kept, request, tables)? else {
        return Ok(());
    };
    *oldest = Some(Unsettled {
        elsewhere,
        tables: *tables,
        serving: Some(*kept),
    });
    Ok(())
}

// Whether an entry of this number is older than what was found.
fn is_older(number: u64, found: &Option<Unsettled>) -> bool
    ensures not { result ≡ false → IsOlder found.now number }
    ensures older { result ≡ true → (other : ℕ) → IsOlder found.now other → number ≤ other }
{
    match found {
        Some(
            Unsettled {
                serving: Some(own),
                ..
            },
        ) => number < own.number,
        _ => true,
    }
}

// A way by this entry alone that isn't like the tables' way, if there is one, in this room for its ways.
fn led_by<M: Region>(
    ways: &mut Ways,
    whole: bool,
    alloc: Global,
    board: &Board,
    ram: &M,
    kept: &Kept,
    request: &Request,
    tables: &Way,
) -> Result<Option<Way>, AllocError>
    ensures found { IfOk result (λ led. IfSome led (IsAmong (leads_over (bare (state_on (M.memory ram.now) board.now)) request.now (kept.now.entry ∷ [])))) }
    ensures differs { IfOk result (λ led. IfSome led (λ way. IsAlike whole request.now.iova way tables.now → ⊥)) }
    ensures none { IfOk result (λ led. IfNone led ((way : Led) →
        IsAmong (leads_over (bare (state_on (M.memory ram.now) board.now)) request.now (kept.now.entry ∷ [])) way → IsAlike whole request.now.iova way tables.now)) }
{
    let one = HeldEntries::one(alloc, *kept)?;
    gather(ways, board, ram, &one, request)?;
    Ok(first_other(whole, &ways.led, tables, request.iova))
}
