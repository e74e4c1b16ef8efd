//! The pages that failures were about.

ghost use Rattle.std.specs.Prelude.{◌≡◌};
ghost use Rattle.iom_check.specs.Scoring.{is_known_page, is_page_of, is_told_of, page_of};

use iom_core::Request;

/// A page of a device, by its id and the page's number.
pub type DevicePage = (u32, u64);

/// The page that a request is for.
pub fn page_of(request: &Request) -> DevicePage
    ensures { result ≡ page_of request.now }
{
    (request.did, request.iova / 4096)
}

// Whether a request is for this page.
fn is_page_of(request: &Request, page: DevicePage) -> bool
    ensures { result ≡ is_page_of request.now page }
{
    page.0 == request.did && page.1 == request.iova / 4096
}

/// Whether the page of a request is among these.
#[tactic(auto, unfolding(crate::specs::Scoring::is_told_of))]
pub fn is_told_of(pages: &[DevicePage], request: &Request) -> bool
    ensures { result ≡ is_told_of pages.now request.now }
{
    let [page, more @ ..] = pages else {
        return false;
    };
    is_page_of(request, *page) || is_told_of(more, request)
}

/// The same of a request, if there is one.
pub fn is_known_page(pages: &[DevicePage], request: Option<Request>) -> bool
    ensures { result ≡ is_known_page pages.now request }
{
    match request {
        Some(request) => is_told_of(pages, &request),
        None => false,
    }
}
