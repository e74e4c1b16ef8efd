ghost use Rattle.std.specs.Prelude.{◌≡◌, ◌+◌, ◌++◌, ◌≤◌, length};
ghost use Rattle.std.specs.Option.{option_copied};
ghost use Rattle.iom_debug.specs.Reasons.{context_origin_text, origin_text, page_origin_text, reason_text, stale_of, tables_text, used_text, why_text};

use crate::text::{push_number, push_text, reply_of};
use crate::ways::push_address;
use iom_account::{History, NumberedWarrant, Reason};
use iom_core::{Denial, Request};
use iom_tool::Reply;

/// The answer of the tables, a physical address or a denial, just before a step's access; None if that was not stale.
pub fn stale_of(reason: &Reason) -> Option<Result<u64, Denial>>
    ensures { result ≡ stale_of reason.now }
{
    let request = reason.request?;
    let way = reason.stale?;
    Some(way.address(request.iova))
}

// The text of a step's reason: `walked context=12 walk=14 current=15`, `context 12`, `register`, `denied` or
// `no access`, and behind that ` stale addr=0x80020abc` or ` stale denied 13` where it was stale.
#[tactic(auto, unfolding(crate::specs::Reasons::reason_text))]
fn reason_line(reason: &Reason) -> Reply
    ensures { result.items ≡ reason_text reason.now }
{
    let mut out = Reply::new();
    push_used(&mut out, reason.request, reason.origin);
    push_tables(&mut out, stale_of(reason));
    out
}

// Appends what an access used.
fn push_used(out: &mut Reply, request: Option<Request>, origin: Option<NumberedWarrant>)
    requires { length out.old.items ≡ 0 }
    ensures text { out.new.items ≡ out.old.items ++ used_text request origin }
    ensures room { length out.new.items ≤ 90 }
{
    match (request, origin) {
        (None, _) => push_text(out, b"no access"),
        (Some(_), None) => push_text(out, b"denied"),
        (Some(_), Some(origin)) => push_origin(out, origin),
    }
}

// Appends the numbers of an origin.
fn push_origin(out: &mut Reply, origin: NumberedWarrant)
    requires { length out.old.items ≡ 0 }
    ensures text { out.new.items ≡ out.old.items ++ origin_text origin }
    ensures room { length out.new.items ≤ 90 }
{
    match origin {
        NumberedWarrant::Register => push_text(out, b"register"),
        NumberedWarrant::Context { context } => push_number(out, b"context ", context),
        NumberedWarrant::Walked {
            context,
            walk,
            current,
        } => {
            push_number(out, b"walked context=", context);
            push_number(out, b" walk=", walk);
            push_number(out, b" current=", current);
        }
    }
}

// Appends where the tables led an access that was stale.
fn push_tables(out: &mut Reply, stale: Option<Result<u64, Denial>>)
    requires { length out.old.items ≤ 90 }
    ensures { out.new.items ≡ out.old.items ++ tables_text stale }
{
    if let Some(address) = stale {
        push_text(out, b" stale ");
        push_address(out, address);
    }
}

/// The text of a reason; `none` if there is no reason.
pub fn why_line(reason: Option<&Reason>) -> Reply
    ensures { result.items ≡ why_text (option_copied reason.entry) }
{
    match reason {
        Some(reason) => reason_line(reason),
        None => reply_of(b"none"),
    }
}

/// Which line filled place `i` of the context cache, the oldest 0, as `context 12`; `none` beyond the last place.
pub fn context_origin_line(history: &History, i: u64) -> Reply
    ensures { result.items ≡ context_origin_text history.now i }
{
    let Some(number) = history.context(i) else {
        return reply_of(b"none");
    };
    let mut out = Reply::new();
    push_number(&mut out, b"context ", number);
    out
}

/// Which lines filled place `i` of the translation cache, the oldest 0, and its context, as `walked context=12 walk=14`; `none` beyond the
/// last place.
pub fn page_origin_line(history: &History, i: u64) -> Reply
    ensures { result.items ≡ page_origin_text history.now i }
{
    let Some(filled) = history.page(i) else {
        return reply_of(b"none");
    };
    let mut out = Reply::new();
    push_number(&mut out, b"walked context=", filled.context);
    push_number(&mut out, b" walk=", filled.walk);
    out
}
