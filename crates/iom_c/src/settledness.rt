//! Whether requests are settled, and what is owed. None of these is a step, and none changes the platform.

ghost use Rattle.std.specs.Prelude.{◌≡◌, ◌≤◌, ◌<◌, ◌^◌, ◌&&◌, ℕ, false, length, List, map, MatchResult, Some, IsSomeAnd};
ghost use Rattle.iom_core.specs.Warrants.{IsUncached};
ghost use Rattle.iom_c.specs.Faults.{not_there, out_of_memory, status_other_memory};
ghost use Rattle.iom_c.specs.Handles.{board_of, count_of, IsItsMemory, state_in};
ghost use Rattle.iom_c.specs.Judging.{filled, FoundTold, has_places, JudgedTold, KeepsUnless, ListTold, owed_of, OwedTold, SettledTold};
ghost use Rattle.iom_c.specs.Reasons.{asking};
ghost use Rattle.iom_c.specs.declared.owned.Owned.{Owned};

use crate::handle::Handle;
use crate::held::Held;
use crate::owned::Owned;
use crate::reasons::asking;
use crate::settling::Settling;
use crate::unsettled::{OwedRequest, UnsettledRequest, owed_of, unsettled_of};
use iom_core::Request;
use iom_owed::{Holdings, Owed, Unsettled};
use std::alloc::{AllocError, Global};

// Keeps from now on what any IOMMU may hold, or not; 20 if something is cached that would count as held.
fn keep_holdings(alloc: Global, own: &mut Owned, keeps: bool) -> u32
    ensures { KeepsUnless (keeps && has_places (board_of own.old.held)) own.old keeps result own.new }
{
    let board = own.held.board();
    if keeps && (board.contexts().len() > 0 || board.trans().len() > 0) {
        return 20;
    }
    own.told.settling = Settling::begun_if(alloc, keeps);
    0
}

/// Keeps from now on what any IOMMU may hold, whatever it keeps and forgets, and which requests the steps make, if `keeps` is true; nothing
/// is held yet, and no request was made. Else what was kept is given back. It takes no memory. It answers 0; or 20 if `keeps` is true and
/// a cache has a place, live or empty: something was cached since the caches were last reset. Then nothing changes.
#[unsafe(no_mangle)]
pub extern "C" fn rviommu_keep_holdings(alloc: Global, handle: &mut Handle, keeps: bool) -> u32
    ghost own: { Owned }
    requires open { handle.old.held ≡ Some own }
    ensures kept { IsSomeAnd handle.new.held (KeepsUnless (keeps && has_places (board_of own.held)) own keeps result) }

    // So the laws of `iom_owed` hold, which begin where nothing is cached.
    ensures uncached { (words : List ℕ) → has_places (board_of own.held) ≡ false → IsUncached (state_in own.held words) }
{
    let mut owned = handle.take(alloc);
    let told = keep_holdings(alloc, &mut owned, keeps);
    *handle = Handle::of(owned);
    told
}

// Puts what is found of a request of device `did`.
fn put_found(
    found: Result<Option<Unsettled>, AllocError>,
    did: u32,
    out: &mut UnsettledRequest,
) -> u32
    ensures { MatchResult found (λ it. FoundTold did it result out.old out.new)
        (λ _. (result ≡ out_of_memory) × (out.new ≡ out.old)) }
{
    match found {
        Ok(None) => 0,
        Ok(Some(unsettled)) => {
            *out = unsettled_of(did, &unsettled);
            19
        }
        Err(_) => 7,
    }
}

// Puts where a request may be led, if it isn't settled.
fn put_judged(
    held: &Held,
    words: &[u64],
    holdings: &Holdings,
    request: &Request,
    out: &mut UnsettledRequest,
) -> u32
    requires { length words.now ≡ count_of held.now }
    ensures { JudgedTold holdings.now (state_in held.now words.now) request.now result out.old out.new }
{
    let found = held.unsettled(words, holdings, request);
    put_found(found, request.did, out)
}

// Puts where a request may be led, where what any IOMMU may hold is kept and known, if these words are the platform's memory.
fn put_settled(own: &Owned, words: &[u64], request: &Request, out: &mut UnsettledRequest) -> u32
    ensures told { IsItsMemory own.now words.now →
        SettledTold own.now.told.settling (state_in own.now.held words.now) request.now result out.old out.new }
    ensures other { ¬ IsItsMemory own.now words.now → (result ≡ status_other_memory) × (out.new ≡ out.old) }
{
    if !own.held.takes(words) {
        return 15;
    }
    match &own.told.settling {
        Settling::NotKept => 18,
        Settling::Kept(holdings) => put_judged(&own.held, words, holdings, request, out),
        Settling::Lost => 7,
    }
}

/// Whether a request of device `did` for IOVA `iova` is settled now: every IOMMU leads it where the tables do, whatever it keeps and
/// forgets ("Caching in-memory data structures"). It answers 0 if it is, and 19 if it isn't; `unsettled` then gets where it may be led.
/// Else it answers 18 if what any IOMMU may hold isn't kept; 7 if memory was refused for that at a step, or is refused now; 13 if the
/// device id isn't below 2^24; or 15 if the words aren't what the platform is lent. `unsettled` is unchanged unless it answers 19.
#[unsafe(no_mangle)]
pub extern "C" fn rviommu_settled(
    alloc: Global,
    handle: &mut Handle,
    words: &[u64],
    did: u64,
    iova: u64,
    is_write: bool,
    unsettled: &mut UnsettledRequest,
) -> u32
    ghost own: { Owned }
    requires open { handle.old.held ≡ Some own }
    ensures told { did < 2 ^ 24 → IsItsMemory own words.now →
        SettledTold own.told.settling (state_in own.held words.now) (asking did iova is_write) result unsettled.old unsettled.new }
    ensures wide { 2 ^ 24 ≤ did → (result ≡ not_there) × (unsettled.new ≡ unsettled.old) }
    ensures other { did < 2 ^ 24 → ¬ IsItsMemory own words.now →
        (result ≡ status_other_memory) × (unsettled.new ≡ unsettled.old) }
    ensures same { handle.new.held ≡ Some own }
{
    if did >= 1 << 24 {
        return 13;
    }
    let owned = handle.take(alloc);
    let told = put_settled(&owned, words, &asking(did, iova, is_write), unsettled);
    *handle = Handle::of(owned);
    told
}

// Puts as many requests as have room.
fn fill(found: &[Owed], out: &mut [OwedRequest])
    ensures { out.new ≡ filled (map owed_of found.now) out.old }
{
    let count = found.len().min(out.len());
    for i in 0..count {
        out[i] = owed_of(&found[i]);
    }
}

// Puts what is owed.
fn put_list(
    held: &Held,
    words: &[u64],
    holdings: &Holdings,
    out: &mut [OwedRequest],
    count: &mut usize,
) -> u32
    requires { length words.now ≡ count_of held.now }
    ensures { ListTold holdings.now (state_in held.now words.now) result out.old out.new count.old count.new }
{
    let Ok(owed) = held.owed(words, holdings) else {
        return 7;
    };
    fill(&owed, out);
    *count = owed.len();
    0
}

// Puts what is owed, where what any IOMMU may hold is kept and known, if these words are the platform's memory.
fn put_owed(own: &Owned, words: &[u64], out: &mut [OwedRequest], count: &mut usize) -> u32
    ensures told { IsItsMemory own.now words.now →
        OwedTold own.now.told.settling (state_in own.now.held words.now) result out.old out.new count.old count.new }
    ensures other { ¬ IsItsMemory own.now words.now →
        (result ≡ status_other_memory) × (out.new ≡ out.old) × (count.new ≡ count.old) }
{
    if !own.held.takes(words) {
        return 15;
    }
    match &own.told.settling {
        Settling::NotKept => 18,
        Settling::Kept(holdings) => put_list(&own.held, words, holdings, out, count),
        Settling::Lost => 7,
    }
}

/// What is owed now: the requests that the steps made and that aren't settled. Puts as many as have room in `owed`, and in `count` how many
/// there are. It answers 0; or else 18, 7 or 15 as `rviommu_settled` does, and both are unchanged then.
#[unsafe(no_mangle)]
pub extern "C" fn rviommu_owed(
    alloc: Global,
    handle: &mut Handle,
    words: &[u64],
    owed: &mut [OwedRequest],
    count: &mut usize,
) -> u32
    ghost own: { Owned }
    requires open { handle.old.held ≡ Some own }
    ensures told { IsItsMemory own words.now →
        OwedTold own.told.settling (state_in own.held words.now) result owed.old owed.new count.old count.new }
    ensures other { ¬ IsItsMemory own words.now →
        (result ≡ status_other_memory) × (owed.new ≡ owed.old) × (count.new ≡ count.old) }
    ensures same { handle.new.held ≡ Some own }
{
    let owned = handle.take(alloc);
    let told = put_owed(&owned, words, owed, count);
    *handle = Handle::of(owned);
    told
}
