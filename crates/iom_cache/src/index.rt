//! The index of the translation cache: in which places a key may stand.

ghost use Rattle.std.specs.Prelude.{◌≡◌, ◌+◌, ◌%◌, ◌<◌, ◌≤◌, ◌==◌, ◌++◌, [], ◌∷◌, List, Option, length, get_or};
ghost use Rattle.iom_nested.specs.declared.translation.Hit.{Hit};
ghost use Rattle.iom_cache.specs.declared.key.Key.{Key};
ghost use Rattle.iom_cache.specs.Buckets.{bucket_of};
ghost use Rattle.iom_cache.specs.Index.{IsIndex, cleared, counted_less, counted_more, position, tag_of};

use crate::Key;
use crate::translations::PAGE_ROOM;
use iom_bits::Kind;
use iom_nested::Hit;

/// How many slots there are: one for each place.
const SLOTS: usize = PAGE_ROOM;

/// How many tags there are.
pub const TAGS: usize = 256;

/// The live places by buckets, the newest first. A place keeps its slot from its fill on.
#[derive(Clone, Copy)]
pub struct Index {
    // Of each bucket the slot of its newest place; SLOTS where it has none.
    heads: [usize; 32],
    // Behind each slot the next one of its bucket, where that is of an older place.
    links: [usize; 64],
    // The slot of the oldest place.
    first: usize,
    // How many live places have keys with each tag.
    counts: [u8; TAGS],
}

impl Index {
    /// The index of no place.
    pub fn new() -> Index
        ensures { IsIndex result [] }
    {
        Index {
            heads: [SLOTS; 32],
            links: [SLOTS; 64],
            first: 0,
            counts: [0; TAGS],
        }
    }

    /// Whether no live place has a key with the tag, which is below 256.
    pub fn lacks(&self, tag: usize) -> bool
        requires { tag < 256 }
        ensures { result ≡ (get_or self.now.counts tag 0 == 0) }
    {
        self.counts[tag] == 0
    }

    /// The slot that a bucket, below 32, starts with: that of its newest place; 64 if it has none.
    pub fn newest(&self, bucket: usize) -> usize
        requires { bucket < 32 }
        ensures { result ≡ get_or self.now.heads bucket 64 }
    {
        self.heads[bucket]
    }

    /// The slot after a slot, below 64, in its bucket: that of an older place, if there is one.
    pub fn older(&self, slot: usize) -> usize
        requires { slot < 64 }
        ensures { result ≡ get_or self.now.links slot 64 }
    {
        self.links[slot]
    }

    /// The place at a slot, counted from the oldest, 0; 64 if there is no slot.
    #[tactic(auto, unfolding(crate::specs::Index::position))]
    pub fn position(&self, slot: usize) -> usize
        requires { self.now.first < 64 }
        ensures { result ≡ position self.now.first slot }
    {
        if slot < SLOTS {
            (slot + SLOTS - self.first) % SLOTS
        } else {
            SLOTS
        }
    }

    /// The slot, below 64, of place `at`, at most 63; the oldest place is 0.
    pub fn slot(&self, at: usize) -> usize
        requires room { at < 64 }
        requires first { self.now.first < 64 }
        ensures { result ≡ (self.now.first + at) % 64 }
    {
        (self.first + at) % SLOTS
    }

    /// Notes that place `at`, at most 63, is filled, after all others.
    pub fn append(&mut self, at: usize, place: &Option<(Key, Hit)>)
        requires room { at < 64 }
        requires first { self.old.first < 64 }
        ensures { (places : List (Option (Key × Hit))) → length places ≡ at → IsIndex self.old places →
            IsIndex self.new (places ++ place.now ∷ []) }
    {
        if let Some((key, _)) = place {
            let bucket = bucket_of(key);
            let slot = (self.first + at) % SLOTS;
            self.links[slot] = self.heads[bucket];
            self.heads[bucket] = slot;
            count_more(&mut self.counts, tag_of(key));
        }
    }

    /// The oldest place leaves.
    pub fn leave(&mut self, oldest: &Option<(Key, Hit)>)
        requires { self.old.first < 64 }
        ensures { (places : List (Option (Key × Hit))) → length places < 64 → IsIndex self.old (oldest.now ∷ places) →
            IsIndex self.new places }
    {
        clear(&mut self.heads, self.first, oldest);
        count_less(&mut self.counts, oldest);
        self.first = (self.first + 1) % SLOTS;
    }

    /// The index of these places, at most 64, the oldest first.
    pub fn of(places: &[Option<(Key, Hit)>]) -> Index
        requires { length places.now ≤ 64 }
        ensures { IsIndex result places.now }
    {
        let mut index = Index::new();
        for (at, place) in places.iter().enumerate() {
            index.append(at, place);
        }
        index
    }
}

// Empties the bucket that starts with the oldest place.
fn clear(heads: &mut [usize; 32], first: usize, oldest: &Option<(Key, Hit)>)
    ensures { heads.new ≡ cleared heads.old first oldest.now }
{
    if let Some((key, _)) = oldest {
        let bucket = bucket_of(key);
        if heads[bucket] == first {
            heads[bucket] = SLOTS;
        }
    }
}

// One more place has a key with the tag.
fn count_more(counts: &mut [u8; TAGS], tag: usize)
    requires { tag < 256 }
    ensures { counts.new ≡ counted_more counts.old tag }
{
    counts[tag] = counts[tag].saturating_add(1);
}

// The oldest place is counted no more.
fn count_less(counts: &mut [u8; TAGS], oldest: &Option<(Key, Hit)>)
    ensures { counts.new ≡ counted_less counts.old oldest.now }
{
    if let Some((key, _)) = oldest {
        let tag = tag_of(key);
        counts[tag] = counts[tag].saturating_sub(1);
    }
}

/// The tag of a key, below 256: by its page and by what the access does.
#[tactic(auto, unfolding(crate::specs::Index::tag_of))]
pub fn tag_of(key: &Key) -> usize
    ensures tag { result ≡ tag_of key.now }
    ensures few { result < 256 }
{
    let side = match key.kind {
        Kind::Read => 0,
        Kind::Write => 1,
    };
    2 * (key.page as usize % 128) + side
}

/// The bucket of a key, below 32: by its page and its device id.
#[tactic(auto, unfolding(crate::specs::Buckets::bucket_of))]
pub fn bucket_of(key: &Key) -> usize
    ensures bucket { result ≡ bucket_of key.now }
    ensures few { result < 32 }
{
    (key.page as usize % 32 + key.did as usize % 32) % 32
}
