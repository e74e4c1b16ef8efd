//! Whether the accesses of lines are settled.

ghost use Rattle.std.specs.Prelude.{◌≡◌, ◌+◌, ◌++◌, ◌≤◌, ℕ, List, ◌∷◌, true, codes, length, IfNone, IfOk, IfSome, OnOk};
ghost use Rattle.std.specs.Option.{option_map};
ghost use Rattle.iom_core.specs.State.{State};
ghost use Rattle.iom_core.specs.Table.{next, request_of_step};
ghost use Rattle.iom_owed.specs.Behind.{KeepsBehind};
ghost use Rattle.iom_owed.specs.Holdings.{Keeps};
ghost use Rattle.iom_owed.specs.Newest.{steps_of};
ghost use Rattle.iom_text.specs.Texts.{hexadecimal};
ghost use Rattle.iom_debug.specs.Marks.{named_at};
ghost use Rattle.iom_debug.specs.Stale.{difference_text, kind_text};
ghost use Rattle.iom_debug.specs.Ways.{address_text};
ghost use Rattle.iom_debug.specs.Settling.{IsFound, IsFoundBeside, access_of, ReadsAhead, ReadsAheadIf, SettlesBehind, SettlesBehindIf, elsewhere_at, elsewhere_text, is_made, later_unsettled, line_begun, may_text, read_in_text, request_text, unsettled_text};

use crate::invalidations::{Invalidation, put_invalidation};
use crate::marks::{Marks, name_of};
use crate::page::{OutputPage, put};
use crate::stale::{difference_line, push_kind};
use crate::text::{push_hexadecimal, push_number, push_text};
use crate::ways::push_address;
use iom_core::{Denial, Platform, Request, Step};
use iom_every::is_whole;
use iom_held::Kept;
use iom_owed::{Holdings, Owed, Unsettled};
use iom_tool::Reply;
use std::alloc::{AllocError, Global};
use std::marker::Model;

/// An access that wasn't settled: an IOMMU may take it elsewhere than the tables do. Or one that was, and that an IOMMU may take there by another way.
#[derive(Clone, Copy)]
pub struct UnsettledAccess {
    /// Its request.
    pub request: Request,
    /// Where it may be led.
    pub unsettled: Unsettled,
}

// What is found of a step's access.
#[derive(Clone, Copy)]
struct Found {
    unsettled: Option<UnsettledAccess>,
    beside: Option<UnsettledAccess>,
}

/// What any IOMMU may hold beside a platform, the access of the last step, if that wasn't settled, and the last access of a line that wasn't; and the
/// same of accesses that were settled and that an IOMMU may take there by another way.
#[derive(Drop)]
pub struct Settling {
    holdings: Holdings,
    last: Option<UnsettledAccess>,
    last_beside: Option<UnsettledAccess>,
    unsettled: Option<UnsettledAccess>,
    beside: Option<UnsettledAccess>,
    // whether memory was refused
    is_lost: bool,
}

impl Model for Settling {
    ghost use Rattle.iom_debug.specs.Settling.{SettlingView};

    ghost Value = { SettlingView };

    ghost view = { λ s. record {
      holdings = s.holdings;
      last = s.last;
      last_beside = s.last_beside;
      unsettled = s.unsettled;
      beside = s.beside;
      is_lost = s.is_lost;
    } };
}

// The access that a step is about to make, if this is found of it.
fn access_of(platform: &Platform, step: &Step, found: Option<Unsettled>) -> Option<UnsettledAccess>
    ensures { result ≡ access_of (request_of_step platform.now step.now) found }
{
    let unsettled = found?;
    let request = platform.request_of(step)?;
    Some(UnsettledAccess { request, unsettled })
}

impl Settling {
    ghost use Rattle.std.specs.Prelude.{[], false, None, Some, if◌then◌else◌};
    ghost use Rattle.iom_core.specs.declared.access.Request.{Request};
    ghost use Rattle.iom_core.specs.declared.step.Step.{Step};
    ghost use Rattle.iom_owed.specs.Settled.{AreOwed};

    /// Nothing held yet: for a platform that has taken no step. It takes no memory.
    pub fn new(alloc: Global) -> Settling
        ensures keeps { (start : State) → Keeps [] result.holdings start start [] }
        ensures first { result.last ≡ None }
        ensures current { result.unsettled ≡ None }
        ensures beside { result.beside ≡ None }
        ensures known { result.is_lost ≡ false }
    {
        Settling {
            holdings: Holdings::new(alloc),
            last: None,
            last_beside: None,
            unsettled: None,
            beside: None,
            is_lost: false,
        }
    }

    /// What may be held of a platform that has taken no step, by an IOMMU that may also read these requests ahead. Where memory is refused, nothing is
    /// known, which `is_lost` says.
    pub fn reading_ahead(platform: &Platform, alloc: Global, ahead: Vec<Request>) -> Settling
        ensures keeps { result.is_lost ≡ false → Keeps ahead.items result.holdings platform.now platform.now [] }
        ensures first { result.last ≡ None }
        ensures current { result.unsettled ≡ None }
        ensures beside { result.beside ≡ None }
    {
        let Ok(holdings) = Holdings::reading_ahead(alloc, ahead) else {
            return Settling {
                is_lost: true,
                ..Settling::new(alloc)
            };
        };
        let mut settling = Settling {
            holdings,
            ..Settling::new(alloc)
        };
        settling.read_ahead(platform, 0);
        settling
    }

    /// The access of the last step, if that wasn't settled just before it; None if it was, or the step made none.
    pub fn last(&self) -> Option<UnsettledAccess>
        ensures { result ≡ self.now.last }
    {
        self.last
    }

    /// The last access of the last line that wasn't settled; None if each was.
    pub fn unsettled(&self) -> Option<UnsettledAccess>
        ensures { result ≡ self.now.unsettled }
    {
        self.unsettled
    }

    /// The last access of the last line that was settled, and that an IOMMU may take by another way to where the tables take it; None if there was
    /// none.
    pub fn beside(&self) -> Option<UnsettledAccess>
        ensures { result ≡ self.now.beside }
    {
        self.beside
    }

    /// Whether memory was refused. Then nothing is known of later accesses.
    pub fn is_lost(&self) -> bool
        ensures { result ≡ self.now.is_lost }
    {
        self.is_lost
    }

    /// What any IOMMU may hold now; None if memory was refused.
    pub fn holdings(&self) -> Option<&Holdings>
        ensures { option_map (λ held. held.now) result ≡ (if self.now.is_lost then None else Some self.now.holdings) }
    {
        if self.is_lost {
            None
        } else {
            Some(&self.holdings)
        }
    }

    /// A line begins: none of its accesses was unsettled yet, or led by another way.
    pub fn begin_line(&mut self)
        ensures { self.new ≡ line_begun self.old }
    {
        self.unsettled = None;
        self.beside = None;
    }

    // Follows a step that the platform takes next, a step of the line of this number. Answers what is found of its access. The fault is a refused
    // allocation.
    fn follow(&mut self, platform: &Platform, step: &Step, number: u64) -> Result<Found, AllocError>
        ensures judged { (ahead : List Request) (start : State) (taken : List (Step × ℕ)) → Keeps ahead self.old.holdings platform.now start taken →
            IfOk result (λ found. IsFound ahead self.old.holdings start (steps_of taken) (request_of_step platform.now step.now) found.unsettled) }
        ensures beside { (ahead : List Request) (start : State) (taken : List (Step × ℕ)) → Keeps ahead self.old.holdings platform.now start taken →
            IfOk result (λ found. IsFoundBeside ahead self.old.holdings start (steps_of taken) (request_of_step platform.now step.now) found.unsettled found.beside) }
        ensures keeps { (ahead : List Request) (start : State) (taken : List (Step × ℕ)) → Keeps ahead self.old.holdings platform.now start taken →
            OnOk result (KeepsBehind ahead self.new.holdings (next platform.now step.now).state start ((step.now, number) ∷ taken)) }
        ensures last { self.new.last ≡ self.old.last }
        ensures last_beside { self.new.last_beside ≡ self.old.last_beside }
        ensures unsettled { self.new.unsettled ≡ self.old.unsettled }
        ensures other { self.new.beside ≡ self.old.beside }
        ensures lost { self.new.is_lost ≡ self.old.is_lost }
    {
        let found = self
            .holdings
            .judge_and_follow(&platform.board, &platform.ram, step, number)?;
        Ok(Found {
            unsettled: access_of(platform, step, found.unsettled),
            beside: access_of(platform, step, found.beside),
        })
    }

    // Notes what is found of a step's access.
    fn note(&mut self, found: Option<UnsettledAccess>)
        ensures last { self.new.last ≡ found }
        ensures last_beside { self.new.last_beside ≡ self.old.last_beside }
        ensures told { self.new.unsettled ≡ later_unsettled self.old.unsettled found }
        ensures told_beside { self.new.beside ≡ self.old.beside }
        ensures holdings { self.new.holdings ≡ self.old.holdings }
        ensures lost { self.new.is_lost ≡ self.old.is_lost }
    {
        self.last = found;
        if found.is_some() {
            self.unsettled = found;
        }
    }

    // Notes what is found of another way of a step's access.
    fn note_beside(&mut self, found: Option<UnsettledAccess>)
        ensures last { self.new.last ≡ self.old.last }
        ensures last_beside { self.new.last_beside ≡ found }
        ensures told { self.new.unsettled ≡ self.old.unsettled }
        ensures told_beside { self.new.beside ≡ later_unsettled self.old.beside found }
        ensures holdings { self.new.holdings ≡ self.old.holdings }
        ensures lost { self.new.is_lost ≡ self.old.is_lost }
    {
        self.last_beside = found;
        if found.is_some() {
            self.beside = found;
        }
    }

    // Follows a step, if memory was not refused before: notes what is found of its access, or that memory is refused.
    fn take_known(&mut self, platform: &Platform, step: &Step, number: u64)
        requires known { self.old.is_lost ≡ false }
        requires none { self.old.last ≡ None }
        requires none_beside { self.old.last_beside ≡ None }
        ensures { SettlesBehind self.old platform.now step.now number self.new }
    {
        match self.follow(platform, step, number) {
            Ok(found) => {
                self.note(found.unsettled);
                self.note_beside(found.beside);
            }
            Err(_) => self.is_lost = true,
        }
    }

    /// What is owed now: the requests that were made and aren't settled on this platform. None where memory is refused, now or before.
    pub fn owed_now(&self, platform: &Platform) -> Option<Vec<Owed>>
        ensures owed { (ahead : List Request) (start : State) (taken : List (Step × ℕ)) → Keeps ahead self.now.holdings platform.now start taken →
            IfSome result (λ owed. AreOwed ahead self.now.holdings start (steps_of taken) owed.items) }
        ensures known { IfSome result (λ owed. self.now.is_lost ≡ false) }
    {
        if self.is_lost {
            return None;
        }
        self.holdings.owed(&platform.board, &platform.ram).ok()
    }

    /// As `owed_now`, but if memory is refused, `is_lost` says so from then on.
    pub fn owed(&mut self, platform: &Platform) -> Option<Vec<Owed>>
        ensures owed { (ahead : List Request) (start : State) (taken : List (Step × ℕ)) → Keeps ahead self.old.holdings platform.now start taken →
            IfSome result (λ owed. AreOwed ahead self.old.holdings start (steps_of taken) owed.items) }
        ensures kept { IfSome result (λ owed. self.new ≡ self.old) }
        ensures known { IfSome result (λ owed. self.old.is_lost ≡ false) }
        ensures lost { IfNone result (self.new.is_lost ≡ true) }
    {
        let owed = self.owed_now(platform);
        self.is_lost = owed.is_none();
        owed
    }

    /// Follows a step that the platform takes next, a step of the line of this number, and judges its access; call `read_ahead` behind it. Where
    /// memory is refused, no more is known of this step and of later ones, which `is_lost` says.
    pub fn take(&mut self, platform: &Platform, step: &Step, number: u64)
        ensures { SettlesBehind self.old platform.now step.now number self.new }
    {
        self.last = None;
        self.last_beside = None;
        if !self.is_lost {
            self.take_known(platform, step, number);
        }
    }

    /// Puts in what is read ahead behind the last step, a step of the line of this number, of a platform that has taken it; 0 before the first step.
    /// Where memory is refused, no more is known, which `is_lost` says.
    pub fn read_ahead(&mut self, platform: &Platform, number: u64)
        ensures { ReadsAhead self.old platform.now number self.new }
    {
        if !self.is_lost {
            let read = self
                .holdings
                .read_ahead(&platform.board, &platform.ram, number);
            self.is_lost = read.is_err();
        }
    }
}

/// Follows a step if settledness is followed.
pub fn settle(settling: &mut Option<Settling>, platform: &Platform, step: &Step, number: u64)
    ensures { SettlesBehindIf settling.old platform.now step.now number settling.new }
{
    if let Some(settling) = settling {
        settling.take(platform, step, number);
    }
}

/// Puts in what is read ahead behind a step if settledness is followed.
pub fn settle_behind(settling: &mut Option<Settling>, platform: &Platform, number: u64)
    ensures { ReadsAheadIf settling.old platform.now number settling.new }
{
    if let Some(settling) = settling {
        settling.read_ahead(platform, number);
    }
}

// Appends that an access may still be led somewhere.
fn push_may(out: &mut Reply, address: Result<u64, Denial>)
    requires { length out.old.items ≤ 24 }
    ensures text { out.new.items ≡ out.old.items ++ may_text address }
    ensures room { length out.new.items ≤ 41 }
{
    match address {
        Ok(_) => push_text(out, b" may still go to "),
        Err(_) => push_text(out, b" may still be "),
    }
}

// Where a request may still be led.
fn may_line(address: Result<u64, Denial>) -> Reply
    ensures text { result.items ≡ may_text address ++ address_text address }
    ensures short { length result.items ≤ 68 }
{
    let mut out = Reply::new();
    push_may(&mut out, address);
    push_address(&mut out, address);
    out
}

// Whether what serves a request is a whole translation.
fn is_made(serving: &Option<Kept>) -> bool
    ensures { result ≡ is_made serving.now }
{
    match serving {
        Some(kept) => is_whole(&kept.entry),
        None => false,
    }
}

// Appends the name of the line whose step read, or made, an entry that alone leads there, where there is one.
fn put_read_in(out: &mut OutputPage, made: bool, line: Option<&[u8]>)
    requires line { IfSome line (λ line. length line.now ≤ 2080) }
    requires room { length out.old.items ≤ 30100 }
    ensures text { out.new.items ≡ out.old.items ++ read_in_text made (option_map (λ line. line.now) line.entry) }
    ensures room { length out.new.items ≤ length out.old.items + 2100 }
{
    if let Some(line) = line {
        put(out, if made { b", made in " } else { b", read in " });
        put(out, line);
    }
}

/// Appends where a request for this IOVA may still be led, at most 2520 bytes, as ` may still go to addr=0x80011abc, read in line 12, the tables now say
/// denied 13`: `line` is the name of the line whose step read an entry that alone leads it there, where there is one.
#[tactic(auto, unfolding(crate::specs::Settling::elsewhere_text))]
pub fn put_elsewhere(out: &mut OutputPage, line: Option<&[u8]>, unsettled: &Unsettled, iova: u64)
    requires line { IfSome line (λ line. length line.now ≤ 2080) }
    requires room { length out.old.items ≤ 30000 }
    ensures text { out.new.items ≡ out.old.items ++ elsewhere_text (option_map (λ line. line.now) line.entry) unsettled.now iova }
    ensures room { length out.new.items ≤ length out.old.items + 2520 }
{
    put(out, may_line(unsettled.elsewhere.address(iova)).as_slice());
    put_read_in(out, is_made(&unsettled.serving), line);
    put(
        out,
        difference_line(&unsettled.elsewhere, &unsettled.tables, iova).as_slice(),
    );
}

// Appends where a request for this IOVA may still be led, by the name of the line of this number, if there is one.
#[inline(never)]
fn put_elsewhere_read(
    out: &mut OutputPage,
    marks: &Marks,
    number: Option<u64>,
    unsettled: &Unsettled,
    iova: u64,
)
    requires { length out.old.items ≤ 30000 }
    ensures text { out.new.items ≡ out.old.items ++ elsewhere_text (option_map (named_at marks.now) number) unsettled.now iova }
    ensures room { length out.new.items ≤ length out.old.items + 2520 }
{
    match number {
        Some(number) => put_elsewhere(
            out,
            Some(name_of(marks, number).as_slice()),
            unsettled,
            iova,
        ),
        None => put_elsewhere(out, None, unsettled, iova),
    }
}

/// Appends where a request for this IOVA may still be led, at most 4980 bytes, as ` may still go to addr=0x80011abc, read in line 12, the tables now say
/// denied 13`: the line is that whose step read an entry which alone leads it there, where there is one. What `put_invalidation` tells of the invalidations
/// behind that step follows; `last` is the last one, if there is one.
#[tactic(auto, unfolding(crate::specs::Settling::elsewhere_at))]
pub fn put_elsewhere_at(
    out: &mut OutputPage,
    marks: &Marks,
    last: Option<Invalidation>,
    unsettled: &Unsettled,
    iova: u64,
)
    requires { length out.old.items ≤ 30000 }
    ensures text { out.new.items ≡ out.old.items ++ elsewhere_at marks.now last unsettled.now iova }
    ensures room { length out.new.items ≤ length out.old.items + 4980 }
{
    put_elsewhere_read(out, marks, unsettled.read_in(), unsettled, iova);
    put_invalidation(out, marks, last, unsettled);
}

/// A request with its device, at most 64 bytes, as `read 0x40202000 of device 5`.
#[tactic(auto, unfolding(crate::specs::Settling::request_text))]
pub fn request_line(request: &Request) -> Reply
    ensures text { result.items ≡ request_text request.now }
    ensures short { length result.items ≤ 64 }
{
    let mut out = Reply::new();
    push_kind(&mut out, request.kind);
    push_hexadecimal(&mut out, request.iova);
    push_number(&mut out, b" of device ", u64::from(request.did));
    out
}

// The kind of an access and its IOVA.
fn asked_line(request: &Request) -> Reply
    ensures text { result.items ≡ kind_text request.now.kind ++ hexadecimal request.now.iova }
    ensures short { length result.items ≤ 24 }
{
    let mut out = Reply::new();
    push_kind(&mut out, request.kind);
    push_hexadecimal(&mut out, request.iova);
    out
}

/// Appends an access that wasn't settled, as `read 0x40202abc may still go to addr=0x80011abc, read in line 12, the tables now say denied 13`:
/// `line` is the name of the line whose step read an entry that alone leads it there, where there is one.
#[tactic(auto, unfolding(crate::specs::Settling::unsettled_text))]
pub fn put_unsettled_access(out: &mut OutputPage, line: Option<&[u8]>, access: &UnsettledAccess)
    requires line { IfSome line (λ line. length line.now ≤ 2080) }
    requires room { length out.old.items ≡ 0 }
    ensures text { out.new.items ≡ out.old.items ++ unsettled_text (option_map (λ line. line.now) line.entry) access.now }
    ensures room { length out.new.items ≤ 2620 }
{
    put(out, asked_line(&access.request).as_slice());
    put_elsewhere(out, line, &access.unsettled, access.request.iova);
}
