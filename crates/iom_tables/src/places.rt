//! What the caches hold, beside the tables in memory.

ghost use Rattle.std.specs.Prelude.{◌≡◌, ◌↔◌, IsTrue, slice_get};
ghost use Rattle.iom_core.specs.Access.{request_key};
ghost use Rattle.iom_cache.specs.Places.{place_in};
ghost use Rattle.iom_cache.specs.declared.place.Place.TheVariants.{Live};
ghost use Rattle.iom_core.specs.Looking.{by_tables};
ghost use Rattle.iom_tables.specs.Standing.{IsContextNow, IsHitNow, IsStanding, found_now, is_context_now, is_hit_now, request_of, standing_of};

use crate::part::DEVICE_ID_END;
use crate::{Located, Standing, Way};
use iom_cache::{Key, Place, key_of};
use iom_core::{Platform, Request};
use iom_ddt::{Context, locate};
use iom_nested::Hit;
use iom_regs::Mode;

/// Whether the directory says now what place `i` of the context cache holds, and else what it says of that device; the oldest place
/// is 0 ("Caching in-memory data structures"). Any `i` has an answer.
pub fn stale_context(platform: &Platform, i: u64) -> Standing<Located>
    ensures standing { IsStanding (IsContextNow platform.now.machine) (found_now platform.now.machine)
        (place_in (slice_get platform.now.machine.contexts i)) result }
    ensures told { result ≡ standing_of (is_context_now platform.now.machine) (found_now platform.now.machine)
        (place_in (slice_get platform.now.machine.contexts i)) }
{
    context_at(platform, i)
}

fn context_at(platform: &Platform, i: u64) -> Standing<Located>
    ensures { IsStanding (IsContextNow platform.now.machine) (found_now platform.now.machine)
        (place_in (slice_get platform.now.machine.contexts i)) result }
{
    match platform.contexts().place(i) {
        Place::Beyond => Standing::Beyond,
        Place::Empty => Standing::Empty,
        Place::Live(did, context) => context_standing(platform, did, &context),
    }
}

// Whether the directory now gives a device id this context; if not, what it gives instead.
fn context_standing(platform: &Platform, did: u32, context: &Context) -> Standing<Located>
    ensures { IsStanding (IsContextNow platform.now.machine) (found_now platform.now.machine) (Live did context.now) result }
{
    let found = found_now(platform, did);
    match &found {
        Located::Context(now) if now.is_same(context) => Standing::Current,
        _ => Standing::Stale(found),
    }
}

// What ddtp and the directory say now of a device id.
fn found_now(platform: &Platform, did: u32) -> Located
    ensures { result ≡ found_now platform.now.machine did }
{
    match platform.registers().mode() {
        Mode::Off | Mode::Bare => Located::NoDirectory,
        Mode::Levels(_) => match locate(platform.ram(), platform.registers(), did % DEVICE_ID_END) {
            Ok(context) => Located::Context(context),
            Err(cause) => Located::Fault(cause),
        },
    }
}

/// Whether the tables say now what place `i` of the translation cache holds, and else the way that they say of its key's request, the
/// one at the first byte of its page; the oldest place is 0 ("Caching in-memory data structures"). It holds what they say where they
/// lead that request by the same hit, under a context that gives it that key. Any `i` has an answer.
pub fn stale_page(platform: &Platform, i: u64) -> Standing<Way>
    ensures standing { IsStanding (IsHitNow platform.now.machine) (λ key. by_tables platform.now.machine (request_of key))
        (place_in (slice_get platform.now.machine.pages i)) result }
    ensures told { result ≡ standing_of (is_hit_now platform.now.machine) (λ key. by_tables platform.now.machine (request_of key))
        (place_in (slice_get platform.now.machine.pages i)) }
{
    page_at(platform, i)
}

// Whether the tables say now what place `i` of the translation cache holds; if not, the way that they say.
fn page_at(platform: &Platform, i: u64) -> Standing<Way>
    ensures { IsStanding (IsHitNow platform.now.machine) (λ key. by_tables platform.now.machine (request_of key))
        (place_in (slice_get platform.now.machine.pages i)) result }
{
    match platform.trans().place(i) {
        Place::Beyond => Standing::Beyond,
        Place::Empty => Standing::Empty,
        Place::Live(key, hit) => page_standing(platform, &key, &hit),
    }
}

// Whether the tables lead the request of a key to this hit now; if not, the way that they lead it.
fn page_standing(platform: &Platform, key: &Key, hit: &Hit) -> Standing<Way>
    ensures { IsStanding (IsHitNow platform.now.machine) (λ key. by_tables platform.now.machine (request_of key))
        (Live key.now hit.now) result }
{
    let request = request_of(key);
    let way = platform.lookup_uncached(&request).way;
    match &way {
        Way::Walked(context, now) if now == hit && has_key(&request, context, key) =>
            Standing::Current,
        _ => Standing::Stale(way),
    }
}

/// The request of a key: at the first byte of its page.
pub fn request_of(key: &Key) -> Request
    ensures { result ≡ request_of key.now }
{
    Request::of(
        key.did % DEVICE_ID_END,
        key.page % (1 << 52) * 4096,
        key.kind,
    )
}

// Whether a request has this key under a context.
fn has_key(request: &Request, context: &Context, key: &Key) -> bool
    ensures { IsTrue result ↔ (request_key request.now context.now ≡ key.now) }
{
    key_of(context, request.did, request.iova, request.kind) == *key
}
