//! The witness of an access, and the events that it notices.

ghost use Rattle.std.specs.Prelude.{◌≡◌};

use crate::way::Way;
use iom_cache::Key;
use iom_ddt::Context;
use iom_nested::Hit;

/// The source of a context or a hit that leads a request.
#[derive(Clone, Copy, PartialEq)]
pub enum Source {
    /// A live place of its cache.
    Found,
    /// The tables in memory. An access that a device makes fills it.
    Read,
}

/// An event of an access, reported to its witness when it happens ("Process to translate an IOVA").
#[derive(Clone, Copy)]
pub enum Event {
    /// This context leads the device with this id.
    Context(Source, u32, Context),
    /// The page with this key leads to this hit.
    Page(Source, Key, Hit),
    /// The request is led this way. This is the last event of an access.
    Way(Way),
}

/// A witness, which notices the events of an access.
pub trait Witness {
    ghost use Rattle.iom_core.specs.declared.witness.Event.{Event};

    /// The witness after an event.
    ghost next: { Self → Event → Self };

    /// Reports an event to it.
    fn notice(&mut self, event: Event)
        ensures { self.new ≡ next self.old event };
}

/// A witness that notices nothing, and costs an access nothing.
impl Witness for () {
    ghost next = { λ self event. self };

    #[inline(always)]
    fn notice(&mut self, _event: Event) {}
}
