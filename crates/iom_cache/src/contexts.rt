ghost use Rattle.std.specs.Prelude.{◌≡◌, map, Some};
ghost use Rattle.iom_cache.specs.Places.{dropped_by};
ghost use Rattle.iom_cache.specs.Drops.{drops_context};

use crate::Place;
use crate::drops::drops_device;
use circular_buffer::HeapCircularBuffer;
use iom_ddt::Context;
use iom_queue::Command;
use std::alloc::{AllocError, Global};
use std::marker::Model;

/// How many places the context cache has.
pub const CONTEXT_ROOM: usize = 16;

/// The context cache, in the standard the DDTC: at most 16 places, oldest first, each empty or with the context of a device id
/// ("Caching in-memory data structures").
#[derive(Drop)]
pub struct ContextCache {
    places: HeapCircularBuffer<Option<(u32, Context)>>,
}

impl Model for ContextCache {
    ghost use Rattle.std.specs.Prelude.{ℕ, ◌≡◌, ◌≤◌, List, Option, length};
    ghost use Rattle.iom_ddt.specs.declared.context.Context.{Context};
    ghost use Rattle.iom_cache.specs.Places.{context_room};

    ghost Value = { List (Option (ℕ × Context)) };

    ghost view = { λ cache. cache.places.items };

    ghost invariant = { λ cache. (cache.places.capacity ≡ context_room) × (length cache.places.items ≤ context_room) };
}

impl ContextCache {
    ghost use Rattle.std.specs.Prelude.{◌≡◌, ◌≤◌, ◌++◌, [], ◌∷◌, Some, None, length, nat_lt, slice_get, IfOk};
    ghost use Rattle.std.specs.Bool.{OnFalse, OnTrue};
    ghost use Rattle.iom_cache.specs.Places.{context_room, find, place_of, IsHeld, filled_by, emptied_by, place_in};
    ghost use Rattle.iom_cache.specs.Keys.{same_did};
    ghost use Rattle.iom_cache.specs.Drops.{drops_context};

    /// A cache with no place yet. It takes the memory of all places; no other call but `try_clone` takes any. The fault is a
    /// refused allocation.
    pub fn new(alloc: Global) -> Result<ContextCache, AllocError>
        ensures { IfOk result (λ cache. cache ≡ []) }
    {
        Ok(ContextCache {
            places: HeapCircularBuffer::with_capacity(alloc, CONTEXT_ROOM)?,
        })
    }

    /// Takes all places away, live and empty ones.
    pub fn clear(&mut self)
        ensures { self.new ≡ [] }
    {
        self.places.clear();
    }

    /// A copy, which takes the memory of all places. If that is refused the original is unchanged.
    pub fn try_clone(&self, alloc: Global) -> Result<ContextCache, AllocError>
        ensures { IfOk result (λ copy. copy ≡ self.now) }
    {
        let mut places = HeapCircularBuffer::with_capacity(alloc, CONTEXT_ROOM)?;
        for place in self.places.iter() {
            let _none = places.push_back(*place);
        }
        Ok(ContextCache { places })
    }

    /// The context in the live place of this device id, 24 bits; None if there is none.
    pub fn find(&self, did: u32) -> Option<Context>
        ensures found { result ≡ find (same_did did) self.now }
        ensures held { IsHeld did result self.now }
        ensures within { length self.now ≤ context_room }
    {
        for place in self.places.iter() {
            if let Some((own, context)) = place
                && did == *own
            {
                return Some(*context);
            }
        }
        None
    }

    /// How many places there are, live or empty.
    pub fn len(&self) -> usize
        ensures count { result ≡ length self.now }
        ensures within { result ≤ context_room }
    {
        self.places.len()
    }

    /// The number of the place that is live with this device id, the oldest 0; the number of places if there is none.
    pub fn place_of(&self, did: u32) -> usize
        ensures { result ≡ place_of (same_did did) self.now }
    {
        for (at, place) in self.places.iter().enumerate() {
            if let Some((own, _)) = place
                && did == *own
            {
                return at;
            }
        }
        self.places.len()
    }

    /// Appends a place for a device id that no live place has. If there are 16 places the oldest, live or empty, leaves.
    pub fn fill(&mut self, did: u32, context: Context)
        requires absent { find (same_did did) self.old ≡ None }
        ensures { self.new ≡ filled_by context_room (Some (did, context)) self.old }
    {
        let _oldest = self.places.push_back(Some((did, context)));
    }

    /// Appends a place as it is, live or empty, and nothing leaves for it: so a cache is made again, place by place. It answers whether it
    /// did: there are fewer than 16 places. Else nothing changes.
    pub fn append(&mut self, place: Option<(u32, Context)>) -> bool
        ensures room { result ≡ nat_lt (length self.old) context_room }
        ensures appended { OnTrue result (self.new ≡ self.old ++ place ∷ []) }
        ensures refused { OnFalse result (self.new ≡ self.old) }
    {
        if self.places.len() >= CONTEXT_ROOM {
            return false;
        }
        let _none = self.places.push_back(place);
        true
    }

    /// Empties, where they stand, the places that a command drops: IODIR.INVAL_DDT all of them, or with DV those of its device id;
    /// no other command drops any ("IODIR").
    pub fn drop_matching(&mut self, command: &Command)
        ensures { self.new ≡ emptied_by drops_context (Some command.now) self.old }
    {
        empty_matching(command, self.places.make_contiguous());
    }

    /// What stands at place `i`, any number; the oldest is place 0.
    pub fn place(&self, i: u64) -> Place<u32, Context>
        ensures place { result ≡ place_in (slice_get self.now i) }
        ensures within { length self.now ≤ context_room }
    {
        Place::of(self.places.get(i as usize))
    }
}

// Empties the places that a command drops.
fn empty_matching(command: &Command, places: &mut [Option<(u32, Context)>])
    ensures { places.new ≡ map (dropped_by (drops_context command.now)) places.old }
{
    for place in places.iter_mut() {
        *place = place_after(command, *place);
    }
}

// What a command leaves of a place.
fn place_after(command: &Command, place: Option<(u32, Context)>) -> Option<(u32, Context)>
    ensures { result ≡ dropped_by (drops_context command.now) place }
{
    place.filter(|(did, _)| !drops_device(command, *did))
}
