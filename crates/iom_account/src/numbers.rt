//! A history by its numbers.

ghost use Rattle.std.specs.Prelude.{◌≡◌, ◌≤◌, ◌&&◌, IfSome, is_some, length, nat_le};
ghost use Rattle.iom_cache.specs.Places.{context_room, page_room};
ghost use Rattle.iom_account.specs.Following.{history_of};

use crate::History;
use arrayvec::ArrayVec;
use iom_cache::{CONTEXT_ROOM, PAGE_ROOM};

impl History {
    /// The history of these numbers, each beside a place of a cache, the oldest first: of the step that filled a context, of that which
    /// filled a translation, and of that which had filled the context under which it walked. None if there are more of one list than that
    /// cache has places.
    pub fn of(contexts: &[u64], walks: &[u64], walk_contexts: &[u64]) -> Option<History>
        ensures fits { is_some result
            ≡ (nat_le (length contexts.now) context_room && (nat_le (length walks.now) page_room && nat_le (length walk_contexts.now) page_room)) }
        ensures history { IfSome result (λ history. history ≡ history_of contexts.now walks.now walk_contexts.now) }
    {
        if contexts.len() > CONTEXT_ROOM
            || walks.len() > PAGE_ROOM
            || walk_contexts.len() > PAGE_ROOM
        {
            return None;
        }
        Some(History {
            contexts: noted(contexts),
            walks: noted(walks),
            walk_contexts: noted(walk_contexts),
        })
    }

    /// The number beside each place of the context cache, the oldest first: that of the step that filled it.
    pub fn contexts(&self) -> &[u64]
        ensures numbers { result.now ≡ self.now.contexts }
        ensures few { length result.now ≤ context_room }
    {
        self.contexts.as_slice()
    }

    /// The number beside each place of the translation cache, the oldest first: that of the step that filled it.
    pub fn walks(&self) -> &[u64]
        ensures numbers { result.now ≡ self.now.walks }
        ensures few { length result.now ≤ page_room }
    {
        self.walks.as_slice()
    }

    /// Beside the same places, the number of the step that had filled the context under which it walked.
    pub fn walk_contexts(&self) -> &[u64]
        ensures numbers { result.now ≡ self.now.walk_contexts }
        ensures few { length result.now ≤ page_room }
    {
        self.walk_contexts.as_slice()
    }
}

// These numbers, beside as many places.
fn noted<const N: usize>(numbers: &[u64]) -> ArrayVec<u64, N>
    requires { length numbers.now ≤ N }
    ensures { result.items ≡ numbers.now }
{
    let mut notes = ArrayVec::new();
    let _fits = notes.try_extend_from_slice(numbers);
    notes
}
