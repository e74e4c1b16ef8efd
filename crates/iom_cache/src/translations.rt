ghost use Rattle.std.specs.Prelude.{◌≡◌, ◌<◌, ◌≤◌, length, map, Some};
ghost use Rattle.iom_cache.specs.Index.{AreApart, IsIndex};
ghost use Rattle.iom_cache.specs.Places.{dropped_by, made_room, page_room};
ghost use Rattle.iom_cache.specs.Drops.{drops_page};

use crate::drops::drops_page;
use crate::index::{Index, TAGS, bucket_of, tag_of};
use crate::key::is_same;
use crate::{Key, Place};
use circular_buffer::HeapCircularBuffer;
use iom_nested::Hit;
use iom_queue::Command;
use std::alloc::{AllocError, Global};
use std::marker::Model;

/// How many places the translation cache has.
pub const PAGE_ROOM: usize = 64;

/// The translation cache, in the standard the IOTLB: at most 64 places, oldest first, each empty or a key with its hit ("Caching in-memory
/// data structures").
#[derive(Drop)]
pub struct TransCache {
    places: HeapCircularBuffer<Option<(Key, Hit)>>,
    index: Index,
    // The slot of the last fill for a key with each tag. It is tried first, and promises nothing.
    hints: [u8; TAGS],
}

impl Model for TransCache {
    ghost use Rattle.std.specs.Prelude.{◌≡◌, ◌≤◌, List, Option, length};
    ghost use Rattle.iom_cache.specs.declared.key.Key.{Key};
    ghost use Rattle.iom_nested.specs.declared.translation.Hit.{Hit};
    ghost use Rattle.iom_cache.specs.Index.{AreApart, IsIndex};
    ghost use Rattle.iom_cache.specs.Places.{page_room};

    ghost Value = { List (Option (Key × Hit)) };

    ghost view = { λ cache. cache.places.items };

    ghost invariant = { λ cache. (cache.places.capacity ≡ page_room) × (length cache.places.items ≤ page_room)
        × AreApart cache.places.items × IsIndex cache.index cache.places.items };
}

impl TransCache {
    ghost use Rattle.std.specs.Prelude.{◌≡◌, ◌<◌, ◌≤◌, ◌++◌, [], ◌∷◌, Some, None, get_or, length, slice_get, IfOk, IfSome};
    ghost use Rattle.std.specs.Bool.{OnFalse, OnTrue};
    ghost use Rattle.iom_cache.specs.Buckets.{compared};
    ghost use Rattle.iom_cache.specs.Index.{hit_of};
    ghost use Rattle.iom_cache.specs.Places.{page_room, find, place_of, IsHeld, filled_by, emptied_by, may_follow, place_in};
    ghost use Rattle.iom_cache.specs.Keys.{same_key};
    ghost use Rattle.iom_cache.specs.Drops.{drops_page};

    /// A cache with no place yet. It takes the memory of all places; no other call but `try_clone` takes any. The fault is a
    /// refused allocation.
    pub fn new(alloc: Global) -> Result<TransCache, AllocError>
        ensures { IfOk result (λ cache. cache ≡ []) }
    {
        Ok(TransCache {
            places: HeapCircularBuffer::with_capacity(alloc, PAGE_ROOM)?,
            index: Index::new(),
            hints: [0; TAGS],
        })
    }

    /// Takes all places away, live and empty ones.
    pub fn clear(&mut self)
        ensures { self.new ≡ [] }
    {
        self.places.clear();
        self.index = Index::new();
        self.hints = [0; TAGS];
    }

    /// A copy, which takes the memory of all places. If that is refused the original is unchanged.
    pub fn try_clone(&self, alloc: Global) -> Result<TransCache, AllocError>
        ensures { IfOk result (λ copy. copy ≡ self.now) }
    {
        let mut places = HeapCircularBuffer::with_capacity(alloc, PAGE_ROOM)?;
        for place in self.places.iter() {
            let _none = places.push_back(*place);
        }
        Ok(TransCache {
            places,
            index: self.index,
            hints: self.hints,
        })
    }

    /// How many places there are, live or empty.
    pub fn len(&self) -> usize
        ensures count { result ≡ length self.now }
        ensures within { result ≤ page_room }
        ensures apart { AreApart self.now }
    {
        self.places.len()
    }

    /// What the live place with this key says; None if there is none.
    pub fn find(&self, key: &Key) -> Option<Hit>
        ensures found { result ≡ find (same_key key.now) self.now }
        ensures held { IsHeld key.now result self.now }
        ensures within { length self.now ≤ page_room }
    {
        let _ = &self.places;
        self.look(key)
    }

    // What the live place with this key says, by the hint of its tag or else by its bucket; None if there is none.
    #[inline(always)]
    fn look(&self, key: &Key) -> Option<Hit>
        ensures { result ≡ find (same_key key.now) self.now }
    {
        let tag = tag_of(key);
        if self.index.lacks(tag) {
            return None;
        }
        match self.hinted(tag, key) {
            Some(hit) => Some(hit),
            None => self.find_counted(key).0,
        }
    }

    // What the place that a tag's hint names says, where it has the key.
    #[inline(always)]
    fn hinted(&self, tag: usize, key: &Key) -> Option<Hit>
        requires { tag < 256 }
        ensures { IfSome result (λ hit. find (same_key key.now) self.now ≡ Some hit) }
    {
        let at = self.index.position(usize::from(self.hints[tag]));
        if at >= self.places.len() {
            return None;
        }
        self.hit_at(at, key)
    }

    /// The number of the place that is live with this key, the oldest 0; the number of places if there is none.
    pub fn place_of(&self, key: &Key) -> usize
        ensures { result ≡ place_of (same_key key.now) self.now }
    {
        self.search(key).0
    }

    /// What the live place with this key says, None if there is none; and how many keys of its bucket were compared.
    pub fn find_counted(&self, key: &Key) -> (Option<Hit>, u32)
        ensures found { result.0 ≡ find (same_key key.now) self.now }
        ensures count { result.1 ≡ compared key.now self.now }
    {
        let (_, hit, count) = self.search(key);
        (hit, count)
    }

    // The place that is live with a key, what it says, and how many keys of its bucket were compared for it.
    #[inline(always)]
    fn search(&self, key: &Key) -> (usize, Option<Hit>, u32)
        ensures place { result.0 ≡ place_of (same_key key.now) self.now }
        ensures found { result.1 ≡ find (same_key key.now) self.now }
        ensures count { result.2 ≡ compared key.now self.now }
    {
        let mut slot = self.index.newest(bucket_of(key));
        let mut limit = self.places.len();
        let mut count = 0;
        while self.index.position(slot) < limit {
            limit = self.index.position(slot);
            count += 1;
            if let Some(hit) = self.hit_at(limit, key) {
                return (limit, Some(hit), count);
            }
            slot = self.index.older(slot);
        }
        (self.places.len(), None, count)
    }

    // The hit at a place that there is, where that has the key.
    fn hit_at(&self, at: usize, key: &Key) -> Option<Hit>
        requires { at < length self.now }
        ensures { result ≡ hit_of key.now (get_or self.now at None) }
    {
        match self.places.get(at) {
            Some(Some((own, hit))) if is_same(key, own) => Some(*hit),
            _ => None,
        }
    }

    /// Appends a place for a key that no live place has. If there are 64 places the oldest, live or empty, leaves.
    pub fn fill(&mut self, key: Key, hit: Hit)
        requires absent { find (same_key key) self.old ≡ None }
        ensures { self.new ≡ filled_by page_room (Some (key, hit)) self.old }
    {
        make_room(&mut self.places, &mut self.index);
        let at = self.places.len();
        self.hints[tag_of(&key)] = self.index.slot(at) as u8;
        let place = Some((key, hit));
        self.index.append(at, &place);
        let _none = self.places.push_back(place);
    }

    /// Appends a place as it is, live or empty, and nothing leaves for it: so a cache is made again, place by place. It answers whether it
    /// did: there are fewer than 64 places, and no live one has the key of this. Else nothing changes.
    pub fn append(&mut self, place: Option<(Key, Hit)>) -> bool
        ensures may { result ≡ may_follow same_key page_room self.old place }
        ensures appended { OnTrue result (self.new ≡ self.old ++ place ∷ []) }
        ensures refused { OnFalse result (self.new ≡ self.old) }
    {
        if !self.may_append(&place) {
            return false;
        }
        let at = self.places.len();
        self.index.append(at, &place);
        let _none = self.places.push_back(place);
        true
    }

    // Whether a place may stand behind all others.
    fn may_append(&self, place: &Option<(Key, Hit)>) -> bool
        ensures { result ≡ may_follow same_key page_room self.now place.now }
    {
        let has_room = self.places.len() < PAGE_ROOM;
        match place {
            Some((key, _)) => has_room && self.find(key).is_none(),
            None => has_room,
        }
    }

    /// Empties, where they stand, the places that a command drops: IOTINVAL.VMA and IOTINVAL.GVMA by their operands; no other
    /// command drops any ("IOTINVAL").
    pub fn drop_matching(&mut self, command: &Command)
        ensures { self.new ≡ emptied_by drops_page (Some command.now) self.old }
    {
        let places = self.places.make_contiguous();
        empty_matching(command, places);
        self.index = Index::of(places);
    }

    /// What stands at place `i`, any number; the oldest is place 0.
    pub fn place(&self, i: u64) -> Place<Key, Hit>
        ensures place { result ≡ place_in (slice_get self.now i) }
        ensures within { length self.now ≤ page_room }
    {
        Place::of(self.places.get(i as usize))
    }
}

// Where there are as many places as there may be, the oldest leaves.
fn make_room(places: &mut HeapCircularBuffer<Option<(Key, Hit)>>, index: &mut Index)
    requires capacity { places.old.capacity ≡ page_room }
    requires few { length places.old.items ≤ page_room }
    requires apart { AreApart places.old.items }
    requires index { IsIndex index.old places.old.items }
    ensures capacity { places.new.capacity ≡ page_room }
    ensures room { length places.new.items < page_room }
    ensures places { places.new.items ≡ made_room page_room places.old.items }
    ensures apart { AreApart places.new.items }
    ensures index { IsIndex index.new places.new.items }
{
    if places.len() == PAGE_ROOM
        && let Some(oldest) = places.pop_front()
    {
        index.leave(&oldest);
    }
}

// Empties the places that a command drops.
fn empty_matching(command: &Command, places: &mut [Option<(Key, Hit)>])
    ensures { places.new ≡ map (dropped_by (drops_page command.now)) places.old }
{
    for place in places.iter_mut() {
        *place = place_after(command, *place);
    }
}

// What a command leaves of a place.
fn place_after(command: &Command, place: Option<(Key, Hit)>) -> Option<(Key, Hit)>
    ensures { result ≡ dropped_by (drops_page command.now) place }
{
    place.filter(|(key, hit)| !drops_page(command, key, hit))
}
