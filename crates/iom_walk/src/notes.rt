//! What is noted of the entries that a walk meets.

ghost use Rattle.std.specs.Prelude.{◌≡◌};

use crate::listing::PathEntry;

/// Notes of the entries that a walk meets.
pub trait Notes {
    ghost use Rattle.iom_walk.specs.declared.listing.PathEntry.{PathEntry};

    /// The notes after one more entry.
    ghost next: { Self → PathEntry → Self };

    /// Notes an entry.
    fn note(&mut self, entry: PathEntry)
        ensures { self.new ≡ next self.old entry };
}

/// Nothing is noted.
impl Notes for () {
    ghost next = { λ self entry. self };

    #[inline(always)]
    fn note(&mut self, _entry: PathEntry) {}
}
