//! Where a request would be led, by which parts of a walk, and what is stale. None of these is a step, and none changes the platform.

ghost use Rattle.std.specs.Prelude.{◌≡◌, ◌≤◌, ◌<◌, ◌^◌, slice_get, Some};
ghost use Rattle.iom_cache.specs.Places.{place_in};
ghost use Rattle.iom_tables.specs.Parts.{parts_of};
ghost use Rattle.iom_c.specs.Faults.{not_there, status_other_memory};
ghost use Rattle.iom_c.specs.Handles.{OfOwn};
ghost use Rattle.iom_c.specs.Reasons.{asking, beyond, ContextStands, PageStands, PartTold, StaleTold, standing_other_memory};
ghost use Rattle.iom_c.specs.declared.owned.Owned.{Owned};

use crate::handle::Handle;
use crate::held::Held;
use crate::walks::{WalkPart, part_of};
use crate::ways::{LocatedContext, RequestWay, located_of, way_of};
use iom_bits::Kind;
use iom_cache::Place;
use iom_core::Request;
use iom_tables::{Parts, Standing, put_parts, stale, stale_context, stale_page};
use std::alloc::Global;

/// What device `did`, below 2^24, asks.
pub fn asking(did: u64, iova: u64, is_write: bool) -> Request
    requires { did < 2 ^ 24 }
    ensures { result ≡ asking did iova is_write }
{
    let kind = if is_write { Kind::Write } else { Kind::Read };
    Request::of(did as u32, iova, kind)
}

// Puts a part of the walk of a request.
fn put_part(held: &Held, request: &Request, i: u64, out: &mut WalkPart) -> u32
    ensures { OfOwn held.now (λ platform. PartTold request.now.did (slice_get (parts_of platform.machine request.now) i) result out.old out.new)
        ((result ≡ status_other_memory) × (out.new ≡ out.old)) }
{
    let Held::Own(platform) = held else {
        return 15;
    };
    let mut parts = Parts::new();
    put_parts(&mut parts, platform, request);
    match parts.as_slice().get(i as usize) {
        Some(part) => {
            *out = part_of(request.did, part);
            0
        }
        None => 13,
    }
}

/// Part `i`, any number, of all that is looked at to lead a request of device `did` for IOVA `iova` if nothing is cached; the first is
/// ddtp, part 0, and the last is the way that the request is led ("Process to translate an IOVA"). It answers 0; or 13 if there are fewer
/// parts, or the device id isn't below 2^24, and `part` is unchanged then.
#[unsafe(no_mangle)]
pub extern "C" fn rviommu_part(
    alloc: Global,
    handle: &mut Handle,
    did: u64,
    iova: u64,
    is_write: bool,
    i: u64,
    part: &mut WalkPart,
) -> u32
    ghost own: { Owned }
    requires open { handle.old.held ≡ Some own }
    ensures part { did < 2 ^ 24 → OfOwn own.held
        (λ platform. PartTold did (slice_get (parts_of platform.machine (asking did iova is_write)) i) result part.old part.new)
        ((result ≡ status_other_memory) × (part.new ≡ part.old)) }
    ensures wide { 2 ^ 24 ≤ did → (result ≡ not_there) × (part.new ≡ part.old) }
    ensures same { handle.new.held ≡ Some own }
{
    if did >= 1 << 24 {
        return 13;
    }
    let owned = handle.take(alloc);
    let told = put_part(&owned.held, &asking(did, iova, is_write), i, part);
    *handle = Handle::of(owned);
    told
}

// Puts what the tables say of a request that is stale.
fn put_stale(held: &Held, request: &Request, out: &mut RequestWay) -> u32
    ensures { OfOwn held.now (λ platform. StaleTold platform.machine request.now result out.old out.new)
        ((result ≡ standing_other_memory) × (out.new ≡ out.old)) }
{
    let Held::Own(platform) = held else {
        return 4;
    };
    match stale(platform, request) {
        Some(way) => {
            *out = way_of(request.did, way);
            3
        }
        None => 0,
    }
}

/// Whether a request of device `did` for IOVA `iova` is stale: a cache leads it otherwise than the tables do, and `way` is then the way
/// that they say ("Caching in-memory data structures"). It answers 3 if it is, 0 if it isn't, and 2 if the device id isn't below 2^24;
/// `way` is unchanged unless it is stale.
#[unsafe(no_mangle)]
pub extern "C" fn rviommu_stale(
    alloc: Global,
    handle: &mut Handle,
    did: u64,
    iova: u64,
    is_write: bool,
    way: &mut RequestWay,
) -> u32
    ghost own: { Owned }
    requires open { handle.old.held ≡ Some own }
    ensures stale { did < 2 ^ 24 → OfOwn own.held (λ platform. StaleTold platform.machine (asking did iova is_write) result way.old way.new)
        ((result ≡ standing_other_memory) × (way.new ≡ way.old)) }
    ensures wide { 2 ^ 24 ≤ did → (result ≡ beyond) × (way.new ≡ way.old) }
    ensures same { handle.new.held ≡ Some own }
{
    if did >= 1 << 24 {
        return 2;
    }
    let owned = handle.take(alloc);
    let told = put_stale(&owned.held, &asking(did, iova, is_write), way);
    *handle = Handle::of(owned);
    told
}

// Puts what the tables say of a place of the translation cache that is stale.
fn put_stale_page(held: &Held, i: u64, out: &mut RequestWay) -> u32
    ensures { OfOwn held.now (λ platform. PageStands platform.machine (place_in (slice_get platform.machine.pages i)) result out.old out.new)
        ((result ≡ standing_other_memory) × (out.new ≡ out.old)) }
{
    let Held::Own(platform) = held else {
        return 4;
    };
    let did = match platform.trans().place(i) {
        Place::Live(key, _) => key.did % (1 << 24),
        Place::Empty => return 1,
        Place::Beyond => return 2,
    };
    match stale_page(platform, i) {
        Standing::Beyond => 2,
        Standing::Empty => 1,
        Standing::Current => 0,
        Standing::Stale(way) => {
            *out = way_of(did, way);
            3
        }
    }
}

/// Whether the tables say now what place `i`, any number, of the translation cache holds; the oldest is place 0 ("Caching in-memory data
/// structures"). It answers 0 if they do; 1 if nothing stands there; 2 beyond the last place; and 3 if they don't, and `way` is then the
/// way that they say of a request at the first byte of its page. Else `way` is unchanged.
#[unsafe(no_mangle)]
pub extern "C" fn rviommu_stale_page(
    alloc: Global,
    handle: &mut Handle,
    i: u64,
    way: &mut RequestWay,
) -> u32
    ghost own: { Owned }
    requires open { handle.old.held ≡ Some own }
    ensures told { OfOwn own.held (λ platform. PageStands platform.machine (place_in (slice_get platform.machine.pages i)) result way.old way.new)
        ((result ≡ standing_other_memory) × (way.new ≡ way.old)) }
    ensures same { handle.new.held ≡ Some own }
{
    let owned = handle.take(alloc);
    let told = put_stale_page(&owned.held, i, way);
    *handle = Handle::of(owned);
    told
}

// Puts what the directory says of a place of the context cache that is stale.
fn put_stale_context(held: &Held, i: u64, out: &mut LocatedContext) -> u32
    ensures { OfOwn held.now
        (λ platform. ContextStands platform.machine (place_in (slice_get platform.machine.contexts i)) result out.old out.new)
        ((result ≡ standing_other_memory) × (out.new ≡ out.old)) }
{
    let Held::Own(platform) = held else {
        return 4;
    };
    let did = match platform.contexts().place(i) {
        Place::Live(did, _) => did,
        Place::Empty => return 1,
        Place::Beyond => return 2,
    };
    match stale_context(platform, i) {
        Standing::Beyond => 2,
        Standing::Empty => 1,
        Standing::Current => 0,
        Standing::Stale(located) => {
            *out = located_of(did, located);
            3
        }
    }
}

/// Whether the directory still gives the entry at a place of the context cache, answered as by `rviommu_stale_page`. For 3, `located` gets
/// what ddtp and the directory say of the entry's device.
#[unsafe(no_mangle)]
pub extern "C" fn rviommu_stale_context(
    alloc: Global,
    handle: &mut Handle,
    i: u64,
    located: &mut LocatedContext,
) -> u32
    ghost own: { Owned }
    requires open { handle.old.held ≡ Some own }
    ensures told { OfOwn own.held
        (λ platform. ContextStands platform.machine (place_in (slice_get platform.machine.contexts i)) result located.old located.new)
        ((result ≡ standing_other_memory) × (located.new ≡ located.old)) }
    ensures same { handle.new.held ≡ Some own }
{
    let owned = handle.take(alloc);
    let told = put_stale_context(&owned.held, i, located);
    *handle = Handle::of(owned);
    told
}
