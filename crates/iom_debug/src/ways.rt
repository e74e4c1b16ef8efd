//! Where the tables lead a request now.

ghost use Rattle.std.specs.Prelude.{◌≡◌, ◌+◌, ◌≤◌, ◌++◌, length};
ghost use Rattle.iom_debug.specs.Ways.{address_text, stale_address, stale_text};

use crate::text::{push_cause, push_hexadecimal, push_text, reply_of};
use iom_core::{Denial, Platform, Request};
use iom_tables::stale;
use iom_tool::Reply;

/// Where the tables lead a request that is stale, a physical address or a denial; None if it isn't stale.
pub fn stale_address(platform: &Platform, request: &Request) -> Option<Result<u64, Denial>>
    ensures { result ≡ stale_address platform.now.machine request.now }
{
    let way = stale(platform, request)?;
    Some(way.address(request.iova))
}

/// Appends an address, or the cause of a denial.
pub fn push_address(out: &mut Reply, address: Result<u64, Denial>)
    requires { length out.old.items ≤ 128 }
    ensures text { out.new.items ≡ out.old.items ++ address_text address }
    ensures room { length out.new.items ≤ length out.old.items + 27 }
{
    match address {
        Ok(addr) => {
            push_text(out, b"addr=");
            push_hexadecimal(out, addr);
        }
        Err(denial) => push_cause(out, denial.cause),
    }
}

/// An address, or the cause of a denial, by itself.
pub fn address_line(address: Result<u64, Denial>) -> Reply
    ensures text { result.items ≡ address_text address }
    ensures short { length result.items ≤ 27 }
{
    let mut out = Reply::new();
    push_address(&mut out, address);
    out
}

/// What the tables say now of a request that is stale, and `same` of one that isn't.
pub fn stale_line(platform: &Platform, request: &Request) -> Reply
    ensures { result.items ≡ stale_text (stale_address platform.now.machine request.now) }
{
    match stale_address(platform, request) {
        Some(address) => address_line(address),
        None => reply_of(b"same"),
    }
}
