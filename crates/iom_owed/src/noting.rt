//! The requests that steps made, each with the number of the newest step that made it.

ghost use Rattle.std.specs.Prelude.{◌≡◌, ◌<◌, [], ◌∷◌, slice_get};
ghost use Rattle.indexmap.specs.IndexMap.{spare};
ghost use Rattle.iom_held.specs.Kept.{Renews};
ghost use Rattle.iom_owed.specs.Holdings.{at_page, request_of};
ghost use Rattle.iom_owed.specs.Keys.{made_in, request_at};
ghost use Rattle.iom_owed.specs.Notes.{made_of};

use indexmap::IndexMap;
use iom_bits::Kind;
use iom_core::Request;

/// A request that a device made.
#[derive(Clone, Copy)]
pub struct Made {
    /// The request; its IOVA is that of the first byte of its page.
    pub request: Request,
    /// The number of the newest step that made it, for any byte of this page.
    pub number: u64,
}

/// A request, as what its number is found by.
#[derive(Clone, Copy, PartialEq, Eq, Hash)]
pub struct RequestKey {
    /// The device's id.
    pub did: u32,
    /// The IOVA.
    pub iova: u64,
    /// Whether it writes.
    pub writes: bool,
}

/// The numbers of requests, each request once, in the order in which they were first made.
pub type Numbers = IndexMap<RequestKey, u64>;

/// The request of this place; None beyond the last.
pub fn made_at(numbers: &Numbers, i: usize) -> Option<Made>
    ensures { result ≡ slice_get (made_in numbers.now.entries) i }
{
    let (key, number) = numbers.get_index(i)?;
    Some(Made {
        request: request_at(key),
        number: *number,
    })
}

/// Puts a request in, under this number: in place of the same request under another number, or at the end.
pub fn renew_request(numbers: &mut Numbers, request: &Request, number: u64)
    requires room { 0 < spare numbers.old }
    ensures { Renews request_of (made_of number request.now ∷ []) (made_in numbers.old.entries) (made_in numbers.new.entries) }
{
    let _ = numbers.insert(key_of(request), number);
}

fn key_of(request: &Request) -> RequestKey
    ensures { request_at result ≡ request.now }
{
    RequestKey {
        did: request.did,
        iova: request.iova,
        writes: request.kind == Kind::Write,
    }
}

fn request_at(key: &RequestKey) -> Request
    ensures { result ≡ request_at key.now }
{
    let kind = if key.writes { Kind::Write } else { Kind::Read };
    Request::of(key.did, key.iova, kind)
}

/// The request for the first byte of its page.
pub fn at_page(request: &Request) -> Request
    ensures { result ≡ at_page request.now }
{
    Request {
        iova: request.iova / 4096 * 4096,
        ..*request
    }
}
