//! What the caches hold for an access, and why it was let through.

ghost use Rattle.std.specs.Prelude.{◌≡◌, ◌+◌, ◌++◌, ◌||◌, ◌≤◌, Some, length};
ghost use Rattle.iom_core.specs.Looking.{is_cached};
ghost use Rattle.iom_debug.specs.Marks.{named_at, numbered_at};
ghost use Rattle.iom_explain.specs.Accesses.{addr_text, caches_by, context_text, is_found, no_page, page_text, stale_text, unsettled_text, used_text, walk_of, walked_text, warrant_text};

use iom_account::NumberedWarrant;
use iom_core::{Denial, Lookup, Source, Way};
use iom_debug::{
    Invalidation, Marks, OutputPage, StaleAccess, UnsettledAccess, name_of, put, put_elsewhere_at,
    put_name, put_numbered, put_stale_access, served_line,
};
use iom_text::hexadecimal;

// Appends words, at most 40 bytes, and how a line is named.
fn put_named(out: &mut OutputPage, words: &[u8], marks: &Marks, line: u64)
    requires words { length words.now ≤ 40 }
    requires room { length out.old.items ≤ 30000 }
    ensures text { out.new.items ≡ out.old.items ++ (words.now ++ named_at marks.now line) }
    ensures room { length out.new.items ≤ length out.old.items + 2120 }
{
    put(out, words);
    put_name(out, marks, line);
}

// Appends where a context comes from.
fn put_context(out: &mut OutputPage, marks: &Marks, source: Source, line: u64)
    requires { length out.old.items ≤ 10000 }
    ensures text { out.new.items ≡ out.old.items ++ context_text marks.now source line }
    ensures room { length out.new.items ≤ length out.old.items + 2120 }
{
    match source {
        Source::Found => put_named(out, b"context of ", marks, line),
        Source::Read => put(out, b"no context"),
    }
}

// The line whose walk found the page that an access used.
fn walk_of(used: Option<NumberedWarrant>) -> Option<u64>
    ensures { result ≡ walk_of used }
{
    match used {
        Some(NumberedWarrant::Walked { walk, .. }) => Some(walk),
        Some(NumberedWarrant::Register | NumberedWarrant::Context { .. }) | None => None,
    }
}

// Whether a page is found in its cache.
fn is_found(page: Option<Source>) -> bool
    ensures { result ≡ is_found page }
{
    match page {
        Some(Source::Found) => true,
        Some(Source::Read) | None => false,
    }
}

// Appends that no page is cached, but of stages that are Bare.
fn put_no_page(out: &mut OutputPage, way: &Way)
    requires { length out.old.items ≤ 10000 }
    ensures text { out.new.items ≡ out.old.items ++ no_page way.now }
    ensures room { length out.new.items ≤ length out.old.items + 40 }
{
    match way {
        Way::Context(_) => {}
        Way::Register | Way::Walked(..) | Way::Denied(_) => put(out, b", no page"),
    }
}

// Appends the line whose walk found the page that is cached.
fn put_page(out: &mut OutputPage, marks: &Marks, is_found: bool, walk: Option<u64>, way: &Way)
    requires { length out.old.items ≤ 10000 }
    ensures text { out.new.items ≡ out.old.items ++ page_text marks.now is_found walk way.now }
    ensures room { length out.new.items ≤ length out.old.items + 2120 }
{
    match (is_found, walk) {
        (true, Some(walk)) => put_named(out, b", page of ", marks, walk),
        (true, None) => put_no_page(out, way),
        (false, _) => put_no_page(out, way),
    }
}

// Whether what is cached leads an access that is seen so.
fn is_led(seen: &Lookup) -> bool
    ensures { result ≡ (is_found seen.now.page || is_cached seen.now) }
{
    is_found(seen.page) || seen.is_cached()
}

// Appends the physical address that what is cached leads to.
fn put_addr(out: &mut OutputPage, is_led: bool, address: Result<u64, Denial>)
    requires { length out.old.items ≤ 10000 }
    ensures text { out.new.items ≡ out.old.items ++ addr_text is_led address }
    ensures room { length out.new.items ≤ length out.old.items + 40 }
{
    match (is_led, address) {
        (true, Ok(addr)) => {
            put(out, b", addr=");
            put(out, hexadecimal(addr).as_slice());
        }
        (true, Err(_)) => {}
        (false, _) => {}
    }
}

/// Appends what the caches hold for an access to `iova` that is seen so before its step, as a line; nothing if no context leads it. The live
/// context of its device is that of `line`, and its translation comes from `used`.
pub fn put_caches(
    out: &mut OutputPage,
    marks: &Marks,
    seen: &Lookup,
    line: u64,
    iova: u64,
    used: Option<NumberedWarrant>,
)
    requires { length out.old.items ≤ 3000 }
    ensures text { out.new.items ≡ out.old.items ++ caches_by marks.now seen.now.context seen.now line iova used }
    ensures room { length out.new.items ≤ length out.old.items + 4300 }
{
    if let Some((source, _)) = seen.context {
        put(out, b"    caches: ");
        put_context(out, marks, source, line);
        put_page(out, marks, is_found(seen.page), walk_of(used), &seen.way);
        put_addr(out, is_led(seen), seen.way.address(iova));
        put(out, b"\n");
    }
}

// Appends words, at most 40 bytes, and how the number of a line is told.
fn put_number_of(out: &mut OutputPage, words: &[u8], marks: &Marks, line: u64)
    requires words { length words.now ≤ 40 }
    requires room { length out.old.items ≤ 30000 }
    ensures text { out.new.items ≡ out.old.items ++ (words.now ++ numbered_at marks.now line) }
    ensures room { length out.new.items ≤ length out.old.items + 2120 }
{
    put(out, words);
    put_numbered(out, marks, line);
}

// Appends the lines that filled what an access used.
fn put_walked(out: &mut OutputPage, marks: &Marks, context: u64, walk: u64, current: u64)
    requires { length out.old.items ≤ 24000 }
    ensures text { out.new.items ≡ out.old.items ++ walked_text marks.now context walk current }
    ensures room { length out.new.items ≤ length out.old.items + 6360 }
{
    put_number_of(out, b"walked context=", marks, context);
    put_number_of(out, b" walk=", marks, walk);
    put_number_of(out, b" current=", marks, current);
}

// Appends where a translation came from.
fn put_used(out: &mut OutputPage, marks: &Marks, used: Option<NumberedWarrant>)
    requires { length out.old.items ≤ 24000 }
    ensures text { out.new.items ≡ out.old.items ++ used_text marks.now used }
    ensures room { length out.new.items ≤ length out.old.items + 6360 }
{
    match used {
        None => put(out, b"none, it is denied"),
        Some(NumberedWarrant::Register) => put(out, b"register"),
        Some(NumberedWarrant::Context { context }) => {
            put_number_of(out, b"context ", marks, context);
        }
        Some(
            NumberedWarrant::Walked {
                context,
                walk,
                current,
            },
        ) => put_walked(out, marks, context, walk, current),
    }
}

/// Appends why an access was let through, as a line.
pub fn put_warrant(out: &mut OutputPage, marks: &Marks, used: Option<NumberedWarrant>)
    requires { length out.old.items ≤ 23000 }
    ensures text { out.new.items ≡ out.old.items ++ warrant_text marks.now used }
    ensures room { length out.new.items ≤ length out.old.items + 6400 }
{
    put(out, b"    warrant: ");
    put_used(out, marks, used);
    put(out, b"\n");
}

// Appends an access that was stale, as a line.
#[inline(never)]
fn put_stale_line(out: &mut OutputPage, marks: &Marks, stale: &StaleAccess)
    requires { length out.old.items ≤ 29900 }
    ensures text { out.new.items ≡ out.old.items ++ stale_text marks.now (Some stale.now) }
    ensures room { length out.new.items ≤ length out.old.items + 2520 }
{
    put(out, b"    stale: ");
    put_stale_access(out, name_of(marks, served_line(stale)).as_slice(), stale);
    put(out, b"\n");
}

/// Appends an access that was stale, as a line; nothing if it wasn't.
pub fn put_stale(out: &mut OutputPage, marks: &Marks, stale: Option<StaleAccess>)
    requires { length out.old.items ≤ 29900 }
    ensures text { out.new.items ≡ out.old.items ++ stale_text marks.now stale }
    ensures room { length out.new.items ≤ length out.old.items + 2520 }
{
    if let Some(stale) = stale {
        put_stale_line(out, marks, &stale);
    }
}

// Appends where an access may still go that wasn't settled, as a line.
fn put_elsewhere(
    out: &mut OutputPage,
    marks: &Marks,
    last: Option<Invalidation>,
    access: &UnsettledAccess,
)
    requires { length out.old.items ≤ 29900 }
    ensures { out.new.items ≡ out.old.items ++ unsettled_text marks.now last (Some access.now) }
{
    put(out, b"    unsettled:");
    put_elsewhere_at(out, marks, last, &access.unsettled, access.request.iova);
    put(out, b"\n");
}

/// Appends where an access may still go that wasn't settled, as a line; nothing if it was. `last` is the last invalidation before it, if there was one.
pub fn put_unsettled(
    out: &mut OutputPage,
    marks: &Marks,
    last: Option<Invalidation>,
    unsettled: Option<UnsettledAccess>,
)
    requires { length out.old.items ≤ 29900 }
    ensures { out.new.items ≡ out.old.items ++ unsettled_text marks.now last unsettled }
{
    if let Some(access) = unsettled {
        put_elsewhere(out, marks, last, &access);
    }
}
