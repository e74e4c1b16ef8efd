//! The output for the walk of an access.

ghost use Rattle.iom_tool.specs.Room.{answer_room};
ghost use Rattle.std.specs.Prelude.{◌≡◌, ◌↔◌, ◌+◌, ◌++◌, ◌≤◌, All, IfOk, IsTrue, None, length};
ghost use Rattle.iom_tables.specs.Bounds.{PartFits};
ghost use Rattle.iom_ddt.specs.Formats.{context_format};
ghost use Rattle.iom_tables.specs.Fetches.{IsRead};
ghost use Rattle.iom_tables.specs.Stale.{is_same_context};
ghost use Rattle.iom_debug.specs.Walks.{IsBeforeEnd, part_text};
ghost use Rattle.iom_explain.specs.Walking.{is_still, walk_by, walk_line, walk_lines, walk_text, walk_under};

use arrayvec::ArrayVec;
use iom_bits::Features;
use iom_core::{Lookup, Platform, Request, Source};
use iom_ddt::{Context, ContextFormat, locate};
use iom_debug::{OutputPage, is_told_alike, put, put_cached, put_part};
use iom_regs::Mode;
use iom_tables::{Part, Parts, Way, put_parts, put_parts_under};
use iom_tool::ReplyDraft;
use std::alloc::{AllocError, Global};
use std::marker::Model;

/// How many parts a walk has at most.
const MOST_PARTS: usize = 40;

/// The parts of the last walk that was written, each with its line. Most walks begin alike: a part that the walk before had at its place
/// too keeps its text.
#[derive(Drop)]
pub struct Walk {
    parts: Parts,
    lines: Vec<PartLine>,
    ghost all: { length lines.items ≡ 40 },
}

// A part of a walk, and its line on an IOMMU with these features.
#[derive(Drop)]
struct PartLine {
    features: Features,
    part: Part,
    text: ArrayVec<u8, 336>,
}

impl Model for PartLine {
    ghost use Rattle.std.specs.Prelude.{◌≡◌, ℕ, List};
    ghost use Rattle.iom_core.specs.State.{Machine};
    ghost use Rattle.iom_core.specs.declared.access.Request.{Request};
    ghost use Rattle.iom_ddt.specs.Formats.{context_format};
    ghost use Rattle.iom_tables.specs.Fetches.{IsRead};
    ghost use Rattle.iom_debug.specs.Walks.{IsBeforeEnd, part_text};
    ghost use Rattle.iom_explain.specs.Walking.{walk_line};

    ghost Value = { List ℕ };

    ghost view = { λ line. line.text.items };

    // It is the part's line in any walk that has the part, but of the end, whose line has its request too.
    ghost invariant = { λ line. IsBeforeEnd line.part → (m : Machine) (request : Request) → m.registers.features ≡ line.features
        → IsRead (context_format m.registers.features) m.memory line.part → line.text.items ≡ walk_line (part_text m request line.part) };
}

impl PartLine {
    // No line: it stands for that of an end.
    fn new() -> PartLine {
        PartLine {
            features: Features::none(),
            part: Part::End(Way::Register),
            text: ArrayVec::new(),
        }
    }

    // Makes it the line of a part of the walk of a request as the tables stand now.
    fn renew(&mut self, draft: &mut ReplyDraft, platform: &Platform, request: &Request, part: &Part)
        requires fits { PartFits part.now }
        requires read { IsRead (context_format platform.now.machine.registers.features) platform.now.machine.memory part.now }
        ensures { self.new ≡ walk_line (part_text platform.now.machine request.now part.now) }
    {
        let features = platform.registers().features();
        if stands(&self.features, &self.part, &features, part) {
            return;
        }
        put_part(draft, platform, request, part);
        self.features = features;
        self.part = *part;
        self.text = line_of(draft);
    }

    // Appends it.
    fn put(&self, out: &mut OutputPage)
        requires { length out.old.items ≤ 16000 }
        ensures text { out.new.items ≡ out.old.items ++ self.now }
        ensures room { length out.new.items ≤ length out.old.items + 336 }
    {
        put(out, self.text.as_slice());
    }
}

// Appends the line of a part of the walk of a request as the tables stand now.
fn put_part_line(
    line: &mut PartLine,
    out: &mut OutputPage,
    draft: &mut ReplyDraft,
    platform: &Platform,
    request: &Request,
    part: &Part,
)
    requires fits { PartFits part.now }
    requires read { IsRead (context_format platform.now.machine.registers.features) platform.now.machine.memory part.now }
    requires room { length out.old.items ≤ 16000 }
    ensures text { out.new.items ≡ out.old.items ++ walk_line (part_text platform.now.machine request.now part.now) }
    ensures room { length out.new.items ≤ length out.old.items + 336 }
{
    line.renew(draft, platform, request, part);
    line.put(out);
}

// Whether the line of a part on an IOMMU with its features is that of another part on one with these.
fn stands(its: &Features, part: &Part, features: &Features, other: &Part) -> bool
    ensures { IsTrue result → (its.now ≡ features.now) × IsBeforeEnd part.now × (part.now ≡ other.now) }
{
    are_same(its, features) && is_told_alike(part, other)
}

// Whether features are the same.
fn are_same(features: &Features, other: &Features) -> bool
    ensures { IsTrue result → features.now ≡ other.now }
{
    features.word() == other.word()
}

// The line of a part whose text is this.
fn line_of(text: &ReplyDraft) -> ArrayVec<u8, 336>
    requires { length text.now ≤ answer_room }
    ensures { result.items ≡ walk_line text.now }
{
    let mut line = ArrayVec::new();
    let _fits = line.try_extend_from_slice(b"    walk: ");
    let _fits = line.try_extend_from_slice(text.as_slice());
    line.push(b'\n');
    line
}

// Lines of no parts.
fn no_lines(alloc: Global) -> Result<Vec<PartLine>, AllocError>
    ensures { IfOk result (λ lines. length lines.items ≡ 40) }
{
    let mut lines = Vec::with_capacity(alloc, MOST_PARTS)?;
    for _place in 0..MOST_PARTS {
        lines.push(PartLine::new())?;
    }
    Ok(lines)
}

// Appends the lines of the parts of a walk of a request as the tables stand now.
fn put_lines(
    lines: &mut [PartLine],
    out: &mut OutputPage,
    draft: &mut ReplyDraft,
    platform: &Platform,
    request: &Request,
    parts: &[Part],
)
    requires fits { All PartFits parts.now }
    requires read { All (IsRead (context_format platform.now.machine.registers.features) platform.now.machine.memory) parts.now }
    requires most { length parts.now ≤ 40 }
    requires places { length lines.old ≡ 40 }
    requires room { length out.old.items ≤ 400 }
    ensures text { out.new.items ≡ out.old.items ++ walk_lines platform.now.machine request.now parts.now }
    ensures room { length out.new.items ≤ 13900 }
    ensures places { length lines.new ≡ 40 }
{
    for (at, part) in parts.iter().enumerate() {
        put_part_line(&mut lines[at], out, draft, platform, request, part);
    }
}

// Whether the directory has this context of a request's device.
fn is_still(platform: &Platform, request: &Request, context: &Context) -> bool
    ensures { result ≡ is_still platform.now.machine request.now context.now }
{
    match platform.registers().mode() {
        Mode::Off | Mode::Bare => false,
        Mode::Levels(_) => match locate(platform.ram(), platform.registers(), request.did) {
            Ok(now) => is_same(&now, context),
            Err(_) => false,
        },
    }
}

impl Walk {
    /// No walk yet. The fault is want of memory; no other call takes any.
    pub fn new(alloc: Global) -> Result<Walk, AllocError> {
        Ok(Walk {
            parts: Parts::new(),
            lines: no_lines(alloc)?,
        })
    }

    // Appends the whole walk.
    fn put_whole(
        &mut self,
        out: &mut OutputPage,
        draft: &mut ReplyDraft,
        platform: &Platform,
        request: &Request,
    )
        requires { length out.old.items ≡ 0 }
        ensures text { out.new.items ≡ out.old.items ++ walk_by None platform.now.machine request.now }
        ensures room { length out.new.items ≤ 13900 }
    {
        put_parts(&mut self.parts, platform, request);
        put_lines(
            &mut self.lines,
            out,
            draft,
            platform,
            request,
            self.parts.as_slice(),
        );
    }

    // Appends the walk below a cached context.
    fn put_under(
        &mut self,
        out: &mut OutputPage,
        draft: &mut ReplyDraft,
        platform: &Platform,
        request: &Request,
        context: &Context,
    )
        requires { length out.old.items ≡ 0 }
        ensures text { out.new.items ≡ out.old.items ++ walk_under platform.now.machine request.now context.now }
        ensures room { length out.new.items ≤ 13900 }
    {
        let format = ContextFormat::of(platform.registers().features());
        put_cached(draft, format, context);
        put(out, line_of(draft).as_slice());
        put_parts_under(&mut self.parts, platform, request, context);
        put_lines(
            &mut self.lines,
            out,
            draft,
            platform,
            request,
            self.parts.as_slice(),
        );
    }

    // Appends the walk of a request that this context leads, if one does.
    fn put_by(
        &mut self,
        out: &mut OutputPage,
        draft: &mut ReplyDraft,
        platform: &Platform,
        request: &Request,
        context: &Option<(Source, Context)>,
    )
        requires { length out.old.items ≡ 0 }
        ensures text { out.new.items ≡ out.old.items ++ walk_by context.now platform.now.machine request.now }
        ensures room { length out.new.items ≤ 13900 }
    {
        match context {
            Some((Source::Found, context)) => {
                if is_still(platform, request, context) {
                    self.put_whole(out, draft, platform, request);
                } else {
                    self.put_under(out, draft, platform, request, context);
                }
            }
            Some((Source::Read, _)) | None => self.put_whole(out, draft, platform, request),
        }
    }

    /// Appends the walk of a request that is led so, as the tables stand now: a line for each part. A cached context that the directory
    /// doesn't have any more stands in place of ddtp and the directory. Appends nothing if the caches lead the request without a look at
    /// memory.
    pub fn put(
        &mut self,
        out: &mut OutputPage,
        draft: &mut ReplyDraft,
        platform: &Platform,
        request: &Request,
        seen: &Lookup,
    )
        requires { length out.old.items ≡ 0 }
        ensures text { out.new.items ≡ out.old.items ++ walk_text seen.now platform.now.machine request.now }
        ensures room { length out.new.items ≤ 13900 }
    {
        if !seen.is_cached() {
            self.put_by(out, draft, platform, request, &seen.context);
        }
    }
}

// Whether two contexts are one.
#[tactic(auto, using(crate::proofs::Sameness::context_test))]
fn is_same(context: &Context, other: &Context) -> bool
    ensures { result ≡ is_same_context context.now other.now }
{
    is_equal(context, other)
}

// Whether two contexts are equal.
fn is_equal(context: &Context, other: &Context) -> bool
    ensures { IsTrue result ↔ (context.now ≡ other.now) }
{
    context.is_same(other)
}
