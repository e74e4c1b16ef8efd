//! An access that was stale.

ghost use Rattle.iom_tool.specs.Room.{answer_room};
ghost use Rattle.std.specs.Prelude.{◌≡◌, ◌+◌, ◌++◌, ◌≤◌, ◌<◌, codes, length};
ghost use Rattle.iom_core.specs.Table.{request_of_step};
ghost use Rattle.iom_account.specs.Following.{HistoryView};
ghost use Rattle.iom_text.specs.Texts.{hexadecimal, numeral};
ghost use Rattle.iom_debug.specs.Stale.{access_text, alike_text, changed, changes, context_changes, denial_pairs, difference_text, filler, filler_for, is_same_address, kept_by, kept_of, kind_text, led_as, led_by, page_changes, page_line, page_pairs, same_text, served_line, served_text, way_changes};
ghost use Rattle.iom_core.specs.Access.{address_on};
ghost use Rattle.iom_debug.specs.Ways.{address_text};

use crate::page::{OutputPage, put};
use crate::text::{push_hexadecimal, push_number, push_operand, push_text};
use crate::ways::address_line;
use iom_account::{History, NumberedWarrant};
use iom_bits::{Kind, flag};
use iom_core::{Denial, Lookup, Platform, Request, Source, Step, Way};
use iom_ddt::Context;
use iom_nested::Hit;
use iom_tool::Reply;

/// What leads the access that a step is about to make.
#[derive(Clone, Copy)]
pub struct Led {
    /// Its request.
    pub request: Request,
    /// What leads it, from the caches first.
    pub seen: Lookup,
    /// The line that filled the live context of its device; 0 if there is none.
    pub line: u64,
}

/// An access that was stale.
#[derive(Clone, Copy)]
pub struct StaleAccess {
    /// Its request.
    pub request: Request,
    /// The line that filled the live context of its device; 0 if there was none.
    pub context: u64,
    /// The line whose walk found its page; None if that was not cached.
    pub page: Option<u64>,
    /// The way that it was led.
    pub used: Way,
    /// The way that the tables said just before.
    pub tables: Way,
}

/// The line that filled the live context of a device id, by the history of the platform; 0 if there is none.
pub fn filler(history: &History, platform: &Platform, did: u32) -> u64
    ensures { result ≡ filler history.now platform.now.machine did }
{
    history.context_of(platform, did).unwrap_or(0)
}

/// The line that filled the live context of the device that makes a request; 0 if there is none, and of no request.
pub fn filler_for(history: &History, platform: &Platform, request: Option<Request>) -> u64
    ensures { result ≡ filler_for history.now platform.now.machine request }
{
    match request {
        Some(request) => filler(history, platform, request.did),
        None => 0,
    }
}

/// What led a step's access, which was seen so, where `line` filled the live context of its device; None if it made none.
pub fn led_as(request: Option<Request>, seen: &Lookup, line: u64) -> Option<Led>
    ensures { result ≡ led_as request seen.now line }
{
    Some(Led {
        request: request?,
        seen: *seen,
        line,
    })
}

/// What leads the access that a step is about to make, by the history of the platform; None if it makes none.
pub fn led_by(history: &History, platform: &Platform, step: &Step) -> Option<Led>
    ensures { result ≡ led_by history.now platform.now (request_of_step platform.now step.now) }
{
    let request = platform.request_of(step)?;
    Some(Led {
        request,
        seen: platform.lookup(&request),
        line: filler(history, platform, request.did),
    })
}

// The line whose walk found the page that an access used, if that page was cached.
fn page_line(page: Option<Source>, used: Option<NumberedWarrant>) -> Option<u64>
    ensures { result ≡ page_line page used }
{
    match (page, used) {
        (Some(Source::Found), Some(NumberedWarrant::Walked { walk, .. })) => Some(walk),
        _ => None,
    }
}

/// What is kept of an access, by the origin of its translation and the way of the tables; None if it wasn't stale.
pub fn kept_by(
    led: Option<Led>,
    used: Option<NumberedWarrant>,
    tables: Option<Way>,
) -> Option<StaleAccess>
    ensures { result ≡ kept_by led used tables }
{
    let led = led?;
    let tables = tables?;
    Some(StaleAccess {
        request: led.request,
        context: led.line,
        page: page_line(led.seen.page, used),
        used: led.seen.way,
        tables,
    })
}

// Whether an access is led to the same address, or denied for the same cause.
fn is_same_address(address: Result<u64, Denial>, other: Result<u64, Denial>) -> bool
    ensures { result ≡ is_same_address address other }
{
    match (address, other) {
        (Ok(addr), Ok(other)) => addr == other,
        (Err(denial), Err(other)) => denial.cause.number() == other.cause.number(),
        _ => false,
    }
}

// Appends an operand if it changed.
fn push_changed(out: &mut Reply, key: &[u8], before: u64, now: u64)
    requires { length out.old.items + length key.now + 20 ≤ answer_room }
    ensures text { out.new.items ≡ out.old.items ++ changed before (key.now, now) }
    ensures room { length out.new.items ≤ length out.old.items + length key.now + 20 }
{
    if before != now {
        push_operand(out, key, now);
    }
}

// Appends an operand below 256 if it changed.
#[tactic(auto, using(crate::proofs::Bounds::short_changed))]
fn push_small_changed(out: &mut Reply, key: &[u8], before: u64, now: u64)
    requires room { length out.old.items + length key.now + 20 ≤ answer_room }
    requires small { now < 256 }
    ensures text { out.new.items ≡ out.old.items ++ changed before (key.now, now) }
    ensures room { length out.new.items ≤ length out.old.items + length key.now + 6 }
{
    push_changed(out, key, before, now);
}

// The operands of a context that changed.
fn context_changes(before: &Context, now: &Context) -> Reply
    ensures text { result.items ≡ context_changes before.now now.now }
    ensures short { length result.items ≤ 148 }
{
    let (before, now) = (&before.fields, &now.fields);
    let mut out = Reply::new();
    push_small_changed(&mut out, b"dtf", flag(before.dtf), flag(now.dtf));
    push_small_changed(
        &mut out,
        b"custom",
        u64::from(before.custom),
        u64::from(now.custom),
    );
    push_small_changed(
        &mut out,
        b"gmode",
        u64::from(before.gmode),
        u64::from(now.gmode),
    );
    push_changed(&mut out, b"gppn", before.gppn, now.gppn);
    push_changed(
        &mut out,
        b"gscid",
        u64::from(before.gscid),
        u64::from(now.gscid),
    );
    push_small_changed(&mut out, b"tav", flag(before.tav), flag(now.tav));
    push_changed(
        &mut out,
        b"pscid",
        u64::from(before.pscid),
        u64::from(now.pscid),
    );
    push_small_changed(
        &mut out,
        b"mode",
        u64::from(before.mode),
        u64::from(now.mode),
    );
    push_changed(&mut out, b"ppn", before.ppn, now.ppn);
    out
}

/// The operands that changed of the contexts that two ways go by.
pub fn way_changes(used: &Way, tables: &Way) -> Reply
    ensures text { result.items ≡ way_changes used.now tables.now }
    ensures short { length result.items ≤ 148 }
{
    match (used, tables) {
        (
            Way::Context(context) | Way::Walked(context, _),
            Way::Context(now) | Way::Walked(now, _),
        ) => context_changes(context, now),
        _ => Reply::new(),
    }
}

// What changed of a page.
fn hit_changes(page: &Hit, now: &Hit) -> Reply
    ensures text { result.items ≡ changes (page_pairs page.now) (page_pairs now.now) }
    ensures short { length result.items ≤ 148 }
{
    let mut out = Reply::new();
    push_changed(
        &mut out,
        b"level",
        u64::from(page.level),
        u64::from(now.level),
    );
    push_changed(&mut out, b"global", flag(page.global), flag(now.global));
    push_changed(&mut out, b"napot", flag(page.napot), flag(now.napot));
    out
}

// What changed of the pages that two ways go by.
fn page_changes(used: &Way, tables: &Way) -> Reply
    ensures text { result.items ≡ page_changes used.now tables.now }
    ensures short { length result.items ≤ 148 }
{
    match (used, tables) {
        (Way::Walked(_, page), Way::Walked(_, now)) => hit_changes(page, now),
        _ => Reply::new(),
    }
}

// What changed of a denial.
fn record_changes(denial: &Denial, now: &Denial) -> Reply
    ensures text { result.items ≡ changes (denial_pairs denial.now) (denial_pairs now.now) }
    ensures short { length result.items ≤ 148 }
{
    let mut out = Reply::new();
    push_changed(&mut out, b"iotval2", denial.iotval2, now.iotval2);
    push_changed(
        &mut out,
        b"dtf",
        flag(!denial.reported),
        flag(!now.reported),
    );
    out
}

// Appends a text with its head.
fn push_headed(out: &mut Reply, head: &[u8], text: &[u8])
    requires { length out.old.items + length head.now + length text.now ≤ answer_room }
    ensures { out.new.items ≡ out.old.items ++ (head.now ++ text.now) }
{
    push_text(out, head);
    push_text(out, text);
}

// Appends what changed of the contexts of two ways that lead alike, or else of their pages.
fn push_changes(out: &mut Reply, context: &[u8], page: &[u8])
    requires room { length out.old.items ≤ 140 }
    requires context { length context.now ≤ 148 }
    requires page { length page.now ≤ 148 }
    ensures { out.new.items ≡ out.old.items ++ alike_text context.now page.now }
{
    if context.is_empty() {
        push_headed(out, b", same address, another page:", page);
    } else {
        push_headed(out, b", same address, another context:", context);
    }
}

// Appends what differs of two ways that lead alike, with what changed of their contexts.
fn push_alike(out: &mut Reply, changes: &[u8], used: &Way, tables: &Way)
    requires room { length out.old.items ≤ 140 }
    requires short { length changes.now ≤ 148 }
    ensures { out.new.items ≡ out.old.items ++ alike_text changes.now (page_changes used.now tables.now) }
{
    push_changes(out, changes, page_changes(used, tables).as_slice());
}

// Appends what differs of two ways to the same address, or that are denied for the same cause.
fn push_same(out: &mut Reply, changes: &[u8], used: &Way, tables: &Way)
    requires room { length out.old.items ≤ 140 }
    requires short { length changes.now ≤ 148 }
    requires same { changes.now ≡ way_changes used.now tables.now }
    ensures { out.new.items ≡ out.old.items ++ same_text used.now tables.now }
{
    match (used, tables) {
        (Way::Denied(denial), Way::Denied(now)) => push_headed(
            out,
            b", same cause, another record:",
            record_changes(denial, now).as_slice(),
        ),
        _ => push_alike(out, changes, used, tables),
    }
}

/// Appends how the tables differ from the way that an access was led.
pub fn push_difference(out: &mut Reply, changes: &[u8], used: &Way, tables: &Way, iova: u64)
    requires room { length out.old.items ≤ 140 }
    requires short { length changes.now ≤ 148 }
    requires same { changes.now ≡ way_changes used.now tables.now }
    ensures { out.new.items ≡ out.old.items ++ difference_text used.now tables.now iova }
{
    let address = tables.address(iova);
    if is_same_address(used.address(iova), address) {
        push_same(out, changes, used, tables);
    } else {
        push_headed(
            out,
            b", the tables now say ",
            address_line(address).as_slice(),
        );
    }
}

// The line that filled what served an access, by what changed of its context.
fn filled_line(stale: &StaleAccess, changes: &[u8]) -> u64
    requires { changes.now ≡ way_changes stale.now.used stale.now.tables }
    ensures { result ≡ served_line stale.now }
{
    if changes.is_empty() {
        stale.page.unwrap_or(stale.context)
    } else {
        stale.context
    }
}

/// The line that filled what served a stale access, or denied it: its context, if the tables have another one, and else its page, if that was
/// cached.
pub fn served_line(stale: &StaleAccess) -> u64
    ensures { result ≡ served_line stale.now }
{
    let changes = way_changes(&stale.used, &stale.tables);
    filled_line(stale, changes.as_slice())
}

/// Appends the kind of an access.
pub fn push_kind(out: &mut Reply, kind: Kind)
    requires { length out.old.items ≡ 0 }
    ensures text { out.new.items ≡ out.old.items ++ kind_text kind }
    ensures room { length out.new.items ≤ 6 }
{
    match kind {
        Kind::Read => push_text(out, b"read "),
        Kind::Write => push_text(out, b"write "),
    }
}

// Appends whether an access was served or denied, before the line of what did so.
fn push_served(out: &mut Reply, address: Result<u64, Denial>)
    requires { length out.old.items ≤ 24 }
    ensures text { out.new.items ≡ out.old.items ++ served_text address }
    ensures room { length out.new.items ≤ 40 }
{
    match address {
        Ok(_) => push_text(out, b" served by "),
        Err(_) => push_text(out, b" denied by "),
    }
}

// Appends a stale access up to the line that filled what served it.
fn push_access(out: &mut Reply, stale: &StaleAccess)
    requires { length out.old.items ≡ 0 }
    ensures text { out.new.items ≡ out.old.items ++ (kind_text stale.now.request.kind ++ hexadecimal stale.now.request.iova
        ++ served_text (address_on stale.now.used stale.now.request.iova)) }
    ensures room { length out.new.items ≤ 40 }
{
    push_kind(out, stale.request.kind);
    push_hexadecimal(out, stale.request.iova);
    push_served(out, stale.used.address(stale.request.iova));
}

// A stale access up to the line that filled what served it.
fn access_head(stale: &StaleAccess) -> Reply
    ensures text { result.items ≡ kind_text stale.now.request.kind ++ hexadecimal stale.now.request.iova
        ++ served_text (address_on stale.now.used stale.now.request.iova) }
    ensures short { length result.items ≤ 40 }
{
    let mut out = Reply::new();
    push_access(&mut out, stale);
    out
}

/// How the tables differ from the way that an access to `iova` was led, at most `ANSWER_ROOM` bytes, as `, the tables now say denied 13`.
pub fn difference_line(used: &Way, tables: &Way, iova: u64) -> Reply
    ensures { result.items ≡ difference_text used.now tables.now iova }
{
    let changes = way_changes(used, tables);
    let mut out = Reply::new();
    push_difference(&mut out, changes.as_slice(), used, tables, iova);
    out
}

/// Appends a stale access, as `read 0x40202abc served by line 12, the tables now say denied 13`, of at most 360 bytes beside the name of its line:
/// `line` is that name.
#[tactic(auto, unfolding(crate::specs::Stale::access_text))]
pub fn put_stale_access(out: &mut OutputPage, line: &[u8], stale: &StaleAccess)
    requires room { length out.old.items ≤ 30000 }
    requires line { length line.now ≤ 2080 }
    ensures text { out.new.items ≡ out.old.items ++ access_text line.now stale.now }
    ensures room { length out.new.items ≤ length out.old.items + 2480 }
{
    put(out, access_head(stale).as_slice());
    put(out, line);
    put(
        out,
        difference_line(&stale.used, &stale.tables, stale.request.iova).as_slice(),
    );
}
