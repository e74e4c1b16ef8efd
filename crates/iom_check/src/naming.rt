//! What is reported of a line's last access that was stale, or that wasn't settled, with the names of other lines.

ghost use Rattle.std.specs.Prelude.{◌≡◌, ◌++◌, ◌≤◌, ℕ, List, Option, Some, true, length};
ghost use Rattle.iom_debug.specs.Marks.{place_of};
ghost use Rattle.iom_debug.specs.Places.{IsNamed, IsNamedIf};
ghost use Rattle.iom_debug.specs.Settling.{unsettled_text};
ghost use Rattle.iom_owed.specs.Settled.{read_number};
ghost use Rattle.iom_check.specs.Judging.{IsBesideTold, IsStaleTold, IsUnsettledTold, stale_request, told_request, unsettled_request};

use iom_core::Request;
use iom_debug::{
    Invalidation, Marks, OutputPage, StaleAccess, UnsettledAccess, put_invalidation,
    put_stale_access, put_unsettled_access, served_line,
};

/// How the line of this number is named, counted from 1 among all.
pub fn name_of(marks: &Marks, number: u64) -> OutputPage
    ensures named { IsNamed (Some (place_of marks.now)) number result.items }
    ensures room { length result.items ≤ 2080 }
{
    iom_debug::name_of(marks, number)
}

// Puts an access that was stale.
#[inline(never)]
fn put_stale(out: &mut OutputPage, marks: &Marks, stale: &StaleAccess)
    requires { length out.old.items ≡ 0 }
    ensures told { IsStaleTold (Some (place_of marks.now)) true (Some stale.now) out.new.items }
    ensures room { length out.new.items ≤ 2620 }
{
    let line = name_of(marks, served_line(stale));
    put_stale_access(out, line.as_slice(), stale);
}

// Puts an access that was stale, if there is one.
fn put_stale_if(out: &mut OutputPage, marks: &Marks, stale: Option<StaleAccess>)
    requires { length out.old.items ≡ 0 }
    ensures told { IsStaleTold (Some (place_of marks.now)) true stale out.new.items }
    ensures room { length out.new.items ≤ 2620 }
{
    if let Some(stale) = stale {
        put_stale(out, marks, &stale);
    }
}

/// What is reported of a line's last access that was stale, if stale accesses are judged; else nothing.
pub fn tell_stale(out: &mut OutputPage, marks: &Marks, is_judged: bool, stale: Option<StaleAccess>)
    ensures told { IsStaleTold (Some (place_of marks.now)) is_judged stale out.new.items }
    ensures room { length out.new.items ≤ 2620 }
{
    out.clear();
    if is_judged {
        put_stale_if(out, marks, stale);
    }
}

// Puts an access that may be led otherwise than the tables lead it, with the line that read what leads it so.
#[inline(never)]
fn put_unsettled_read(out: &mut OutputPage, marks: &Marks, access: &UnsettledAccess)
    requires { length out.old.items ≡ 0 }
    ensures told { (line : Option (List ℕ)) × IsNamedIf (Some (place_of marks.now)) (read_number access.now.unsettled.serving) line
        × (out.new.items ≡ unsettled_text line access.now) }
    ensures room { length out.new.items ≤ 2620 }
{
    match access.unsettled.read_in() {
        Some(number) => {
            let line = name_of(marks, number);
            put_unsettled_access(out, Some(line.as_slice()), access);
        }
        None => put_unsettled_access(out, None, access),
    }
}

// Puts an access that wasn't settled.
fn put_unsettled(
    out: &mut OutputPage,
    marks: &Marks,
    last: Option<Invalidation>,
    access: &UnsettledAccess,
)
    requires { length out.old.items ≡ 0 }
    ensures told { IsUnsettledTold (Some (place_of marks.now)) true last (Some access.now) out.new.items }
    ensures room { length out.new.items ≤ 5080 }
{
    put_unsettled_read(out, marks, access);
    put_invalidation(out, marks, last, &access.unsettled);
}

// Puts an access that wasn't settled, if there is one.
fn put_unsettled_if(
    out: &mut OutputPage,
    marks: &Marks,
    last: Option<Invalidation>,
    access: Option<UnsettledAccess>,
)
    requires { length out.old.items ≡ 0 }
    ensures told { IsUnsettledTold (Some (place_of marks.now)) true last access out.new.items }
    ensures room { length out.new.items ≤ 5080 }
{
    if let Some(access) = access {
        put_unsettled(out, marks, last, &access);
    }
}

/// What is reported of a line's last access that wasn't settled, if settledness is judged; else nothing. `last` is the last invalidation that was carried
/// out, if one was.
pub fn tell_unsettled(
    out: &mut OutputPage,
    marks: &Marks,
    is_judged: bool,
    last: Option<Invalidation>,
    access: Option<UnsettledAccess>,
)
    ensures told { IsUnsettledTold (Some (place_of marks.now)) is_judged last access out.new.items }
    ensures room { length out.new.items ≤ 5080 }
{
    out.clear();
    if is_judged {
        put_unsettled_if(out, marks, last, access);
    }
}

// Puts an access that may be led by another way, if there is one.
fn put_beside_if(out: &mut OutputPage, marks: &Marks, access: Option<UnsettledAccess>)
    requires { length out.old.items ≡ 0 }
    ensures told { IsBesideTold (Some (place_of marks.now)) true access out.new.items }
    ensures room { length out.new.items ≤ 2620 }
{
    if let Some(access) = access {
        put_unsettled_read(out, marks, &access);
    }
}

/// What is noted of a line's last access that was settled and that an IOMMU may lead by another way, if settledness is judged; else nothing.
pub fn tell_beside(
    out: &mut OutputPage,
    marks: &Marks,
    is_judged: bool,
    access: Option<UnsettledAccess>,
)
    ensures told { IsBesideTold (Some (place_of marks.now)) is_judged access out.new.items }
    ensures room { length out.new.items ≤ 2620 }
{
    out.clear();
    if is_judged {
        put_beside_if(out, marks, access);
    }
}

/// The request of a stale access, if stale accesses are judged.
pub fn stale_request(is_judged: bool, stale: Option<StaleAccess>) -> Option<Request>
    ensures { result ≡ stale_request is_judged stale }
{
    match stale {
        Some(stale) if is_judged => Some(stale.request),
        _ => None,
    }
}

/// The request of an access that wasn't settled, if settledness is judged.
pub fn unsettled_request(is_judged: bool, access: Option<UnsettledAccess>) -> Option<Request>
    ensures { result ≡ unsettled_request is_judged access }
{
    match access {
        Some(access) if is_judged => Some(access.request),
        _ => None,
    }
}

/// The request that a line's failure is about, beside a stale one: that of its access that wasn't settled, or else the one that its answer names as
/// owed.
pub fn told_request(unsettled: Option<Request>, owed: Option<Request>) -> Option<Request>
    ensures { result ≡ told_request unsettled owed }
{
    match unsettled {
        Some(request) => Some(request),
        None => owed,
    }
}
