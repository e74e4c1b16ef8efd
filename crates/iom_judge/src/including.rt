//! Whether held entries have all that others have.

ghost use Rattle.std.specs.Prelude.{◌↔◌, IsTrue};
ghost use Rattle.std.specs.List.{AllByRecursion};
ghost use Rattle.iom_judge.specs.Including.{Includes, IsAsGood, IsHeldIn};

use iom_bits::Cause;
use iom_ddt::Context;
use iom_every::{Entry, is_same};
use iom_held::{HeldEntries, Kept, tag_of};

/// Whether each entry of `few` is among `all` too, and is named by no command there if by none here: so that it outlasts the next fence there if it
/// does so here. Numbers have no part in it.
pub(crate) fn includes(all: &HeldEntries, few: &HeldEntries) -> bool
    ensures { IsTrue result ↔ Includes all.now few.now }
{
    let _: Option<Result<Context, Cause>> = None;
    let _: Option<Entry> = None;
    for shelf in few.shelves() {
        if !has_all(all, shelf) {
            return false;
        }
    }
    true
}

// Whether all of these are among them so.
fn has_all(all: &HeldEntries, few: &[Kept]) -> bool
    ensures { IsTrue result ↔ AllByRecursion (IsHeldIn all.now) few.now }
{
    let _: Option<Result<Context, Cause>> = None;
    let _: Option<Entry> = None;
    for kept in few {
        if !has(all, kept) {
            return false;
        }
    }
    true
}

// Whether this one is.
fn has(all: &HeldEntries, kept: &Kept) -> bool
    ensures { IsTrue result ↔ IsHeldIn all.now kept.now }
{
    has_kept(all.tagged(tag_of(&kept.entry)), kept)
}

// Whether one of these is as good.
fn has_kept(all: &[Kept], kept: &Kept) -> bool
    ensures { IsTrue result ↔ IsHeldIn all.now kept.now }
{
    let _: Option<Result<Context, Cause>> = None;
    let _: Option<Entry> = None;
    for own in all {
        if is_as_good(own, kept) {
            return true;
        }
    }
    false
}

// Whether one is the same entry, and no command names it if none names the other.
fn is_as_good(own: &Kept, kept: &Kept) -> bool
    ensures { IsTrue result ↔ IsAsGood kept.now own.now }
{
    is_same(&own.entry, &kept.entry) && (own.unfenced.is_none() || kept.unfenced.is_some())
}
