//! Ranges of pages.

ghost use Rattle.iom_cache.specs.Ranges.{HasNamedPages, MeetInPages};

/// A law of the drops by address of the caches, which cite the same definition: the range of a command with S and what an entry's leaf
/// maps (a page, a superpage, or the 64 KiB of Svnapot) meet exactly if they have a page in common.
pub fn ranges_meet_in_a_page()
    ensures { MeetInPages }
{}

/// A law of `range_width`, which cites the same definition: the range of a command with S has twice as many pages as the lowest 0 of its
/// page's number stands for ("IOTINVAL").
pub fn ranges_are_as_named()
    ensures { HasNamedPages }
{}
