//! Numbers beside the places of a cache.

ghost use Rattle.std.specs.Prelude.{◌≡◌, ◌<◌, ◌≤◌, ◌++◌, [], ◌∷◌, replicate};
ghost use Rattle.iom_cache.specs.Places.{made_room};

use arrayvec::ArrayVec;

/// Appends the number of a fill of a cache of `N` places; if all places were taken, the oldest number is dropped.
pub fn note<const N: usize>(notes: &mut ArrayVec<u64, N>, number: u64)
    requires { 0 < N }
    ensures { notes.new.items ≡ made_room N notes.old.items ++ number ∷ [] }
{
    if notes.is_full() {
        notes.remove(0);
    }
    notes.push(number);
}

/// A zero for each of the `count` places that a cache of `N` has now.
pub fn zeros<const N: usize>(count: usize) -> ArrayVec<u64, N>
    requires { count ≤ N }
    ensures { result.items ≡ replicate count 0 }
{
    let mut notes = ArrayVec::from([0; N]);
    notes.truncate(count);
    notes
}

/// A copy of these items, in their order.
pub fn copy_of<T: Copy + Default, const N: usize>(items: &ArrayVec<T, N>) -> ArrayVec<T, N>
    ensures { result.items ≡ items.now.items }
{
    let mut same = ArrayVec::new();
    let _fits = same.try_extend_from_slice(items.as_slice());
    same
}
