//! What is noted on the way to a context.

ghost use Rattle.std.specs.Prelude.{◌≡◌};

use crate::met::Met;

/// Notes of what is met on the way to a context.
pub trait Notes {
    ghost use Rattle.iom_ddt.specs.declared.met.Met.{Met};

    /// The notes after one more item.
    ghost next: { Self → Met → Self };

    /// Notes an item.
    fn note(&mut self, met: Met)
        ensures { self.new ≡ next self.old met };
}

/// Nothing is noted.
impl Notes for () {
    ghost next = { λ self met. self };

    #[inline(always)]
    fn note(&mut self, _met: Met) {}
}
