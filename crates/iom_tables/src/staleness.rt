ghost use Rattle.std.specs.Prelude.{◌≡◌, ◌↔◌, IsTrue, IfSome, is_some};
ghost use Rattle.iom_core.specs.Looking.{by_tables};
ghost use Rattle.iom_tables.specs.Stale.{IsStale, differing, stale_way};

use crate::Way;
use iom_core::{Platform, Request};

/// The way of a stale request by the tables as they are now, if a cache leads it otherwise; None if the request isn't stale. Nothing is
/// cached, reported or changed.
pub fn stale(platform: &Platform, request: &Request) -> Option<Way>
    ensures stale { IsTrue (is_some result) ↔ IsStale platform.now.machine request.now }
    ensures tables { IfSome result (λ way. way ≡ by_tables platform.now.machine request.now) }
    ensures told { result ≡ stale_way platform.now.machine request.now }
{
    let tables = platform.lookup_uncached(request).way;
    differing(&platform.lookup(request).way, tables)
}

/// The way by the tables, if it differs from `now`; else None.
pub fn differing(now: &Way, tables: Way) -> Option<Way>
    ensures told { result ≡ differing now.now tables }
{
    if now.is_same(&tables) {
        None
    } else {
        Some(tables)
    }
}
