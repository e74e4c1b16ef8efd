//! Lists that grow by what ways lead to and read.

ghost use Rattle.std.specs.Prelude.{◌≡◌, ◌↔◌, ◌∷◌, [], IsTrue, OnOk};
ghost use Rattle.iom_choices.specs.Systems.{IsAmong};
ghost use Rattle.iom_ways.specs.Ways.{AreAdded};

use iom_bits::Cause;
use iom_core::Way;
use iom_ddt::Context;
use iom_every::{Entry, Held};
use std::alloc::AllocError;

/// Puts these entries at the end of a list; those that are there may stand twice then.
pub(crate) fn put_entries(out: &mut Vec<Entry>, entries: &[Entry]) -> Result<(), AllocError>
    ensures { OnOk result (AreAdded entries.now out.old.items out.new.items) }
{
    let _: Option<Result<Context, Cause>> = None;
    out.extend_from_slice(entries)?;
    Ok(())
}

/// Whether this entry is one of them.
pub(crate) fn has_held(entries: &[Held], held: Held) -> bool
    ensures { IsTrue result → IsAmong entries.now held }
{
    for own in entries {
        if is_same_held(own, &held) {
            return true;
        }
    }
    false
}

fn is_same_held(held: &Held, other: &Held) -> bool
    ensures { IsTrue result ↔ (held.now ≡ other.now) }
{
    held == other
}

/// Puts where a way leads into a list, unless it is there.
pub(crate) fn put_led(out: &mut Vec<Way>, led: &Way) -> Result<(), AllocError>
    ensures { OnOk result (AreAdded (led.now ∷ []) out.old.items out.new.items) }
{
    if !has_led(out, led) {
        out.push(*led)?;
    }
    Ok(())
}

fn has_led(ways: &[Way], led: &Way) -> bool
    ensures found { IsTrue result → IsAmong ways.now led.now }
    ensures all { IsAmong ways.now led.now → IsTrue result }
{
    for own in ways {
        if own.is_same(led) {
            return true;
        }
    }
    false
}
