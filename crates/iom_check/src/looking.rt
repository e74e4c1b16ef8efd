//! The places of both caches, beside the tables.

ghost use Rattle.iom_tool.specs.Room.{answer_room};
ghost use Rattle.std.specs.Prelude.{◌≡◌, ◌++◌, ◌≤◌, codes, length};
ghost use Rattle.iom_debug.specs.Escaping.{escaped};
ghost use Rattle.iom_check.specs.Looking.{asked_at, is_current, place_message, place_title, request_in, standing_at};

use iom_cache::{Key, Place};
use iom_core::Request;
use iom_debug::{
    Debugger, OutputPage, context_standing_line, page_standing_line, put, put_escaped, put_number,
};
use iom_nested::Hit;
use iom_tables::request_of;
use iom_tool::Reply;

/// A cache of the IOMMU ("Caching in-memory data structures").
#[derive(Clone, Copy)]
pub enum Cache {
    /// Of device contexts: 16 places.
    Contexts,
    /// Of translations: 64 places.
    Pages,
}

/// What `stale context I` or `stale page I` answers of place `i`.
pub fn standing_at(debugger: &Debugger<'_>, cache: Cache, i: u64) -> Reply
    ensures { result.items ≡ standing_at debugger.now.platform.now.machine cache i }
{
    let platform = &*debugger.platform;
    match cache {
        Cache::Contexts => context_standing_line(platform, i),
        Cache::Pages => page_standing_line(platform, i),
    }
}

// The request that a place of the translation cache is found by.
fn request_in(place: Place<Key, Hit>) -> Option<Request>
    ensures { result ≡ request_in place }
{
    match place {
        Place::Live(key, _) => Some(request_of(&key)),
        Place::Beyond | Place::Empty => None,
    }
}

/// The request that place `i` of the translation cache is found by, at the first byte of its page; None if nothing is live there, and of a
/// context.
pub fn asked_at(debugger: &Debugger<'_>, cache: Cache, i: u64) -> Option<Request>
    ensures { result ≡ asked_at debugger.now.platform.now.machine cache i }
{
    match cache {
        Cache::Contexts => None,
        Cache::Pages => request_in(debugger.platform.trans().place(i)),
    }
}

/// Whether that is the answer of a place that isn't stale.
pub fn is_current(answer: &[u8]) -> bool
    ensures { result ≡ is_current answer.now }
{
    answer == b"none".as_slice() || answer == b"empty".as_slice() || answer == b"same".as_slice()
}

/// A place by its name.
#[tactic(auto, unfolding(crate::specs::Looking::place_title))]
pub fn place_title(cache: Cache, i: u64) -> OutputPage
    ensures text { result.items ≡ place_title cache i }
    ensures room { length result.items ≤ 64 }
{
    let mut out = OutputPage::new();
    match cache {
        Cache::Contexts => put(&mut out, b"place context "),
        Cache::Pages => put(&mut out, b"place page "),
    }
    put_number(&mut out, i);
    out
}

// Puts what the tables say of a place.
fn put_standing(out: &mut OutputPage, answer: &[u8])
    requires short { length answer.now ≤ answer_room }
    requires room { length out.old.items ≤ 64 }
    ensures text { out.new.items ≡ out.old.items ++ (codes " is stale: the tables now say " ++ escaped answer.now) }
    ensures room { length out.new.items ≤ 2048 }
{
    put(out, b" is stale: the tables now say ");
    put_escaped(out, answer);
}

/// What is said of a stale place with this name.
#[tactic(auto, unfolding(crate::specs::Looking::place_message))]
pub fn place_message(title: &[u8], answer: &[u8]) -> OutputPage
    requires title { length title.now ≤ 64 }
    requires answer { length answer.now ≤ answer_room }
    ensures text { result.items ≡ place_message title.now answer.now }
    ensures room { length result.items ≤ 2048 }
{
    let mut out = OutputPage::new();
    put(&mut out, title);
    put_standing(&mut out, answer);
    out
}
