//! The output for a step: its answer, and the reasons of its access.

ghost use Rattle.iom_tool.specs.Room.{answer_room};
ghost use Rattle.std.specs.Prelude.{◌≡◌, ◌++◌, ◌||◌, ◌∷◌, [], ◌≤◌, List, false, true, codes, is_some, length, IfSome, OnOk};
ghost use Rattle.iom_core.specs.Looking.{is_cached};
ghost use Rattle.iom_core.specs.Table.{next, request_of_step};
ghost use Rattle.iom_debug.specs.Marks.{numbered_at};
ghost use Rattle.iom_tool.specs.Console.{traced};
ghost use Rattle.iom_debug.specs.Desks.{names_of};
ghost use Rattle.iom_debug.specs.Stale.{led_by};
ghost use Rattle.iom_debug.specs.Summary.{counts_of};
ghost use Rattle.iom_debug.specs.declared.summary.AccessOutcome.{AccessOutcome};
ghost use Rattle.iom_explain.specs.Accesses.{asks_text, caches_by, stale_text, unsettled_text, warrant_text};
ghost use Rattle.iom_explain.specs.Explaining.{StepTold, denied_for, explained, if_told, is_told};
ghost use Rattle.iom_explain.specs.Walking.{walk_text};

use crate::accesses::{put_caches, put_stale, put_unsettled, put_warrant};
use crate::asking::put_asks;
use crate::only::{Only, keep_access, keep_line};
use crate::walk::Walk;
use iom_account::NumberedWarrant;
use iom_core::{Answer, Step};
use iom_debug::{
    AccessOutcome, Debugger, Invalidation, Led, Marks, OutputPage, StaleAccess, Summary,
    UnsettledAccess, led_by, put, put_numbered,
};
use iom_tool::{ReplyDraft, TracedStep, put_traced_step};
use std::alloc::{AllocError, Global};

/// The output for a script's accesses.
#[derive(Drop)]
pub struct Teller {
    /// The output for a step or a line.
    pub page: OutputPage,
    // what a block device asks, and the walk, printed before the step
    asks: OutputPage,
    walk: OutputPage,
    last_walk: Walk,
    // one text of either
    draft: ReplyDraft,
    /// How many accesses went how.
    pub summary: Summary,
    /// Whether memory was refused: then nothing more is written.
    pub is_short: bool,
    /// The accesses that are printed; None if everything is.
    pub only: Option<Only>,
}

// The cause that an answer is a denial for, if it is one.
fn denied_for(answer: &Answer) -> Option<u16>
    ensures { result ≡ denied_for answer.now }
{
    match answer {
        Answer::Denied(cause) => Some(*cause),
        _ => None,
    }
}

/// Whether memory was refused, for what is counted or for what is kept beside it.
pub fn is_refused(is_short: bool, is_lost: bool) -> bool
    ensures { result ≡ (is_short || is_lost) }
{
    is_short || is_lost
}

// What leads the access that a step is about to make, and puts what is printed of it before it is made.
fn look(
    asks: &mut OutputPage,
    walk: &mut OutputPage,
    last_walk: &mut Walk,
    draft: &mut ReplyDraft,
    debugger: &Debugger<'_>,
    step: &Step,
) -> Option<Led>
    ensures led { result ≡ led_by debugger.now.reasons.now.account.history debugger.now.platform.now
        (request_of_step debugger.now.platform.now step.now) }
    ensures asks { IfSome result (λ led. asks.new.items ≡ asks_text debugger.now.platform.now step.now) }
    ensures walk { IfSome result (λ led. walk.new.items ≡ walk_text led.seen debugger.now.platform.now.machine led.request) }
    ensures room { IfSome result (λ led. (length asks.new.items ≤ 200) × (length walk.new.items ≤ 13900)) }
{
    let platform = &*debugger.platform;
    let led = led_by(debugger.reasons.history(), platform, step)?;
    asks.clear();
    put_asks(asks, platform, step);
    walk.clear();
    last_walk.put(walk, draft, platform, &led.request, &led.seen);
    Some(led)
}

// Puts a step's line.
fn put_step(out: &mut OutputPage, marks: &Marks, number: u64, entry: &[u8])
    requires empty { length out.old.items ≡ 0 }
    requires short { length entry.now ≤ answer_room }
    ensures text { out.new.items ≡ out.old.items ++ (numbered_at marks.now number ++ codes ": " ++ entry.now ++ 10 ∷ []) }
    ensures room { length out.new.items ≤ 2403 }
{
    put_numbered(out, marks, number);
    put(out, b": ");
    put(out, entry);
    put(out, b"\n");
}

// Appends what is printed below a step's line of the access that it made.
fn put_access(
    out: &mut OutputPage,
    marks: &Marks,
    asks: &[u8],
    walk: &[u8],
    led: &Led,
    used: Option<NumberedWarrant>,
    stale: Option<StaleAccess>,
    last: Option<Invalidation>,
    unsettled: Option<UnsettledAccess>,
)
    requires room { length out.old.items ≤ 2403 }
    requires asks { length asks.now ≤ 200 }
    requires walk { length walk.now ≤ 13900 }
    ensures { out.new.items ≡ out.old.items ++ (asks.now ++ caches_by marks.now led.now.seen.context led.now.seen led.now.line
        led.now.request.iova used ++ walk.now ++ warrant_text marks.now used ++ stale_text marks.now stale ++ unsettled_text marks.now last unsettled) }
{
    put(out, asks);
    put_caches(out, marks, &led.seen, led.line, led.request.iova, used);
    put(out, walk);
    put_warrant(out, marks, used);
    put_stale(out, marks, stale);
    put_unsettled(out, marks, last, unsettled);
}

impl Teller {
    ghost use Rattle.std.specs.Prelude.{◌≡◌, [], false, IfOk};
    ghost use Rattle.iom_debug.specs.Summary.{counts_of};

    /// No output yet. The fault is want of memory.
    pub fn new(alloc: Global, only: Option<Only>) -> Result<Teller, AllocError>
        ensures counts { IfOk result (λ teller. teller.summary ≡ counts_of []) }
        ensures short { IfOk result (λ teller. teller.is_short ≡ false) }
        ensures only { IfOk result (λ teller. teller.only ≡ only) }
    {
        Ok(Teller {
            page: OutputPage::new(),
            asks: OutputPage::new(),
            walk: OutputPage::new(),
            last_walk: Walk::new(alloc)?,
            draft: ReplyDraft::new(),
            summary: Summary::new(alloc),
            is_short: false,
            only,
        })
    }
}

// Puts and counts what is printed of the access that a step made, which is led so, and empties the page if it isn't printed. The fault is want of
// memory.
fn tell_access(
    teller: &mut Teller,
    marks: &Marks,
    number: u64,
    led: &Led,
    denied: Option<u16>,
    used: Option<NumberedWarrant>,
    stale: Option<StaleAccess>,
    last: Option<Invalidation>,
    unsettled: Option<UnsettledAccess>,
) -> Result<(), AllocError>
    requires room { length teller.old.page.items ≤ 2403 }
    requires asks { length teller.old.asks.items ≤ 200 }
    requires walk { length teller.old.walk.items ≤ 13900 }
    ensures text { teller.new.page.items ≡ if_told (is_told teller.old.only (is_some denied) (is_some stale) (is_some unsettled)) (teller.old.page.items
        ++ (teller.old.asks.items ++ caches_by marks.now led.now.seen.context led.now.seen led.now.line led.now.request.iova used
        ++ teller.old.walk.items ++ warrant_text marks.now used ++ stale_text marks.now stale ++ unsettled_text marks.now last unsettled)) }
    ensures counts { OnOk result ((earlier : List AccessOutcome) → teller.old.summary ≡ counts_of earlier
        → teller.new.summary ≡ counts_of (earlier ++ record {
          number = number;
          denied = denied;
          is_cached = is_cached led.now.seen;
          is_stale = is_some stale;
          is_unsettled = is_some unsettled;
        } ∷ [])) }
    ensures short { teller.new.is_short ≡ teller.old.is_short }
    ensures only { teller.new.only ≡ teller.old.only }
{
    put_access(
        &mut teller.page,
        marks,
        teller.asks.as_slice(),
        teller.walk.as_slice(),
        led,
        used,
        stale,
        last,
        unsettled,
    );
    let only = teller.only;
    keep_access(&mut teller.page, only, &denied, &stale, &unsettled);
    teller.summary.count(&AccessOutcome {
        number,
        denied,
        is_cached: led.seen.is_cached(),
        is_stale: stale.is_some(),
        is_unsettled: unsettled.is_some(),
    })
}

/// Carries out a step of the line of this number, writes its answer to its entry, and puts the output, if it is printed: the step, and the
/// reasons of its access if it makes one. The trace doesn't have it yet. Nothing more is printed if memory is refused, also for what any IOMMU
/// may hold.
pub fn take(debugger: &mut Debugger<'_>, teller: &mut Teller, number: u64, entry: &mut TracedStep)
    ensures step { entry.new.step ≡ entry.old.step }
    ensures answer { entry.new.answer ≡ (next debugger.old.platform.now entry.old.step).answer }
    ensures told { teller.new.is_short ≡ false → StepTold
        (explained debugger.old.platform.now debugger.old.trace.now debugger.old.reasons.now debugger.old.names debugger.old.marks teller.old.summary teller.old.only)
        number entry.old.step teller.new.page.items
        (explained debugger.new.platform.now
        (traced debugger.old.trace.now entry.old.step (next debugger.old.platform.now entry.old.step).answer)
        debugger.new.reasons.now debugger.new.names debugger.new.marks teller.new.summary teller.new.only) }
    ensures short { teller.old.is_short ≡ true → teller.new.is_short ≡ true }
    ensures only { teller.new.only ≡ teller.old.only }
    ensures trace { debugger.new.trace.now ≡ debugger.old.trace.now }
    ensures same { names_of debugger.new ≡ names_of debugger.old }
{
    let led = look(
        &mut teller.asks,
        &mut teller.walk,
        &mut teller.last_walk,
        &mut teller.draft,
        debugger,
        &entry.step,
    );
    let last = debugger.last_invalidation();
    let stale = debugger
        .reasons
        .step(debugger.platform, &entry.step, number, &mut entry.answer);
    teller.is_short = is_refused(teller.is_short, debugger.reasons.is_lost());
    put_traced_step(&mut teller.draft, entry);
    teller.page.clear();
    put_step(
        &mut teller.page,
        &debugger.marks,
        number,
        teller.draft.as_slice(),
    );
    let Some(led) = led else {
        let only = teller.only;
        keep_line(&mut teller.page, only);
        return;
    };
    let denied = denied_for(&entry.answer);
    let used = debugger.reasons.newest_origin();
    let unsettled = debugger.reasons.last_unsettled();
    let marks = &debugger.marks;
    if tell_access(
        teller, marks, number, &led, denied, used, stale, last, unsettled,
    )
    .is_err()
    {
        teller.is_short = true;
    }
}
