//! What is kept beside a platform whose script is played.

ghost use Rattle.std.specs.Prelude.{[]};
ghost use Rattle.iom_scripts.specs.Beginning.{BeginsAccount};

use iom_core::{Platform, Request};
use iom_debug::LineAccount;
use std::alloc::Global;

/// An account of no step, which follows what any IOMMU may hold if that is asked for: it takes memory and time. Nothing is read ahead.
pub fn account(platform: &Platform, alloc: Global, follows: bool) -> LineAccount
    ensures { BeginsAccount [] follows platform.now result }
{
    if follows {
        LineAccount::with_holdings(platform, alloc)
    } else {
        LineAccount::new(platform)
    }
}

/// As `account`, but an IOMMU may also read these requests ahead, at any moment between two steps and by memory alone.
pub fn account_ahead(
    platform: &Platform,
    alloc: Global,
    follows: bool,
    ahead: Vec<Request>,
) -> LineAccount
    ensures { BeginsAccount ahead.items follows platform.now result }
{
    if follows && !ahead.is_empty() {
        LineAccount::reading_ahead(platform, alloc, ahead)
    } else {
        account(platform, alloc, follows)
    }
}
