//! Where a request is led now. It is no step, and changes nothing.

ghost use Rattle.std.specs.Prelude.{◌≡◌, ◌≤◌, ◌<◌, ◌^◌, length, Some};
ghost use Rattle.iom_core.specs.Access.{address_on, led};
ghost use Rattle.iom_c.specs.Faults.{not_there, ok, status_other_memory};
ghost use Rattle.iom_c.specs.Handles.{count_of, IsItsMemory, state_in};
ghost use Rattle.iom_c.specs.Reasons.{address_in, asking, way_of};
ghost use Rattle.iom_c.specs.declared.owned.Owned.{Owned};

use crate::handle::Handle;
use crate::held::Held;
use crate::reasons::asking;
use crate::ways::{RequestWay, way_of};
use iom_core::{Request, Way};
use std::alloc::Global;

// Puts the physical address that a way leads an IOVA to, if it leads anywhere.
fn put_address(way: &Way, iova: u64, out: &mut u64)
    ensures { out.new ≡ address_in (address_on way.now iova) out.old }
{
    if let Ok(address) = way.address(iova) {
        *out = address;
    }
}

// Puts where a request is led now in front of these words.
fn put_way(held: &Held, words: &[u64], request: &Request, way: &mut RequestWay, address: &mut u64)
    requires { length words.now ≡ count_of held.now }
    ensures way { way.new ≡ way_of request.now.did (led (state_in held.now words.now).machine request.now).way }
    ensures address { address.new
        ≡ address_in (address_on (led (state_in held.now words.now).machine request.now).way request.now.iova) address.old }
{
    let seen = held.lookup(words, request);
    put_address(&seen.way, request.iova, address);
    *way = way_of(request.did, seen.way);
}

/// The way that a request of device `did` for IOVA `iova` is led now, by the caches and else by the tables, and in `address` the physical
/// address ("Process to translate an IOVA"). Nothing is cached, reported or changed. It answers 0; 13 if the device id isn't below 2^24;
/// or 15 if the words aren't what the platform is lent. `way` is unchanged then, and `address` also if the request is denied.
#[unsafe(no_mangle)]
pub extern "C" fn rviommu_way_now(
    alloc: Global,
    handle: &mut Handle,
    words: &[u64],
    did: u64,
    iova: u64,
    is_write: bool,
    way: &mut RequestWay,
    address: &mut u64,
) -> u32
    ghost own: { Owned }
    requires open { handle.old.held ≡ Some own }
    ensures told { did < 2 ^ 24 → IsItsMemory own words.now → result ≡ ok }
    ensures way { did < 2 ^ 24 → IsItsMemory own words.now →
        way.new ≡ way_of did (led (state_in own.held words.now).machine (asking did iova is_write)).way }
    ensures address { did < 2 ^ 24 → IsItsMemory own words.now →
        address.new ≡ address_in (address_on (led (state_in own.held words.now).machine (asking did iova is_write)).way iova) address.old }
    ensures wide { 2 ^ 24 ≤ did → (result ≡ not_there) × (way.new ≡ way.old) × (address.new ≡ address.old) }
    ensures other { did < 2 ^ 24 → ¬ IsItsMemory own words.now →
        (result ≡ status_other_memory) × (way.new ≡ way.old) × (address.new ≡ address.old) }
    ensures same { handle.new.held ≡ Some own }
{
    if did >= 1 << 24 {
        return 13;
    }
    let owned = handle.take(alloc);
    let is_lent = owned.held.takes(words);
    if is_lent {
        let request = asking(did, iova, is_write);
        put_way(&owned.held, words, &request, way, address);
    }
    *handle = Handle::of(owned);
    if is_lent { 0 } else { 15 }
}
