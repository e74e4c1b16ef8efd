ghost use Rattle.std.specs.Prelude.{◌≡◌, List, true};
ghost use Rattle.iom_names.specs.Reading.{is_bad, line_with};
ghost use Rattle.iom_names.specs.declared.names.Binding.{Binding};
ghost use Rattle.iom_tool.specs.Parsed.{line_as};
ghost use Rattle.iom_debug.specs.Telling.{slip_with};

use crate::answers::answer_to;
use crate::invalidations::Invalidation;
use crate::marks::Marks;
use crate::owing::LineAnswer;
use crate::reasons::LineAccount;
use crate::settling::UnsettledAccess;
use crate::stale::StaleAccess;
use crate::text::reply_of;
use iom_core::Platform;
use iom_names::{Names, is_let, is_line};
use iom_owed::Owed;
use iom_slips::slip;
use iom_tool::{Console, Line, Reply, Trace};
use std::alloc::Global;

// Whether a line says nothing.
fn is_bad(line: &Line) -> bool
    ensures { result ≡ is_bad (line_as line.now) }
{
    matches!(line, Line::Bad)
}

/// Why a line would be answered `bad`, given without its line end, as `VALUE is missing`; empty if it would not be. Numbers stand in place of these
/// names. `line` is what it says by them, or by those before it, which a line that is `bad` leaves as they are.
#[tactic(auto, unfolding(crate::specs::Telling::slip_with), using(crate::proofs::Slips::too_long))]
pub fn slip_of(own: &Names, line: &Line, text: &[u8]) -> Reply
    ensures { (names : List Binding) → line_as line.now ≡ line_with names text.now → (is_bad (line_as line.now) ≡ true → own.now ≡ names) →
        result.items ≡ slip_with names text.now }
{
    if !is_bad(line) {
        return Reply::new();
    }
    if !is_line(text) {
        return slip(text);
    }
    if is_let(text) {
        return reply_of(own.let_slip(text));
    }
    match own.with_numbers(text) {
        Some(line) => slip(line.as_slice()),
        None => reply_of(b"a line has at most 512 bytes"),
    }
}

/// A script of `debug`, given a line at a time.
#[derive(Drop)]
pub struct Debugger<'a> {
    /// The platform that its lines drive.
    pub platform: &'a mut Platform,
    /// The trace that keeps its steps.
    pub trace: &'a mut Trace,
    /// The account of these steps.
    pub reasons: &'a mut LineAccount,
    /// The names that its lines gave numbers.
    pub names: Names,
    /// Where its lines stand.
    pub marks: Marks,
}

impl<'a> Debugger<'a> {
    ghost use Rattle.std.specs.Prelude.{◌≡◌, ◌≢◌, List, [], false, true, None, IfNone, IfSome, is_some};
    ghost use Rattle.iom_core.specs.Run.{end_of};
    ghost use Rattle.iom_tool.specs.Console.{console, trace_after};
    ghost use Rattle.iom_tool.specs.Parsed.{Fits, line_as};
    ghost use Rattle.iom_names.specs.Reading.{is_bad, line_with, names_after};
    ghost use Rattle.iom_names.specs.declared.names.Binding.{Binding};
    ghost use Rattle.iom_tool.specs.Script.{Bad, line_of};
    ghost use Rattle.iom_debug.specs.Desks.{desk_of, names_of};
    ghost use Rattle.iom_debug.specs.Fences.{have_fence};
    ghost use Rattle.iom_debug.specs.Ignored.{have_ignored};
    ghost use Rattle.iom_debug.specs.Marks.{IsMarked, no_marks};
    ghost use Rattle.iom_debug.specs.Output.{IsAsRun, IsReply, asks_owed, debug_steps, debug_steps_of};
    ghost use Rattle.iom_debug.specs.Owing.{NamesOwed};
    ghost use Rattle.iom_debug.specs.Reasons.{GoesAlong, KeepsLastStale, begun};
    ghost use Rattle.iom_debug.specs.Settling.{AreOwedBy, HoldsOn, beside_in, is_lost_in, unsettled_in};
    ghost use Rattle.iom_debug.specs.Telling.{slip_with};

    /// A debugger of this platform with this trace and these reasons, to which no line was given yet.
    pub fn new(
        alloc: Global,
        platform: &'a mut Platform,
        trace: &'a mut Trace,
        reasons: &'a mut LineAccount,
    ) -> Debugger<'a>
        ensures same_platform { result.platform.ghost_name ≡ platform.entry.ghost_name }
        ensures same_trace { result.trace.ghost_name ≡ trace.entry.ghost_name }
        ensures same_reasons { result.reasons.ghost_name ≡ reasons.entry.ghost_name }
        ensures platform { result.platform.now ≡ platform.old }
        ensures trace { result.trace.now ≡ trace.old }
        ensures reasons { result.reasons.now ≡ reasons.old }
        ensures names { result.names ≡ [] }
        ensures marks { result.marks ≡ no_marks }
    {
        Debugger {
            platform,
            trace,
            reasons,
            names: Names::new(),
            marks: Marks::new(alloc),
        }
    }

    /// Carries out a line, given without its line end, whose steps have this number, and answers its text: empty for a blank line, `bad`
    /// for what is no line, as for a text above 512 bytes or with a line end. A line that `run` answers otherwise than `bad` is answered so
    /// here too, and leaves the same. `let NAME NUMBER` is answered `done`: in the lines after it the name stands for the number.
    pub fn line(&mut self, number: u64, text: &[u8]) -> Reply
        ensures reply { IsReply self.old.marks (console self.old.platform.now self.old.trace.now) self.old.reasons.now (line_with self.old.names text.now)
            result.items }
        ensures state { self.new.platform.now
            ≡ end_of self.old.platform.now (debug_steps_of self.old.names self.old.platform.now text.now) }
        ensures trace { self.new.trace.now
            ≡ trace_after self.old.trace.now self.old.platform.now (debug_steps_of self.old.names self.old.platform.now text.now) }
        ensures as_run { line_of text.now ≢ Bad →
            IsAsRun (console self.old.platform.now self.old.trace.now) text.now
            result.items (console self.new.platform.now self.new.trace.now) }

        // The account goes along with the steps, and of this line its last access that was stale is kept, whether it carried out a fence, and its last
        // invalidation; if settledness is followed, its last access that wasn't settled, by what any IOMMU may hold.
        ensures along { GoesAlong self.old.reasons.now self.old.platform.now (debug_steps_of self.old.names self.old.platform.now text.now) number
            self.new.reasons.now self.new.platform.now }
        ensures stale { KeepsLastStale (begun self.old.reasons.now) self.old.platform.now
            (debug_steps_of self.old.names self.old.platform.now text.now) number self.new.reasons.now }
        ensures fence { self.new.reasons.now.has_fence
            ≡ have_fence self.old.platform.now (debug_steps_of self.old.names self.old.platform.now text.now) }
        ensures ignored { self.new.reasons.now.has_ignored
            ≡ have_ignored self.old.platform.now (debug_steps_of self.old.names self.old.platform.now text.now) }
        ensures holds { HoldsOn self.old.reasons.now.settling self.old.platform.now
            (debug_steps_of self.old.names self.old.platform.now text.now) number self.new.reasons.now.settling }
        ensures names { self.new.names ≡ names_after self.old.names text.now }
        ensures marks { IsMarked self.old.marks number text.now self.new.marks }
        ensures same { names_of self.new ≡ names_of self.old }
    {
        let line = self.names.read(text);
        let answer = self.carry_out(number, line);
        self.marks.note(number, text);
        answer.text
    }

    /// Carries out a line that was read, whose steps have this number, and answers it, as `line` does; if it is `owed`, with the first request that is
    /// owed.
    pub fn carry_out(&mut self, number: u64, line: Line) -> LineAnswer
        requires { Fits line }
        ensures reply { IsReply self.old.marks (console self.old.platform.now self.old.trace.now) self.old.reasons.now (line_as line) result.text.items }
        ensures named { NamesOwed (asks_owed (line_as line)) self.old.marks self.old.reasons.now.last_invalidation self.old.reasons.now.settling
            self.old.platform.now result.text.items result.first_owed }
        ensures state { self.new.platform.now ≡ end_of self.old.platform.now (debug_steps self.old.platform.now (line_as line)) }
        ensures trace { self.new.trace.now
            ≡ trace_after self.old.trace.now self.old.platform.now (debug_steps self.old.platform.now (line_as line)) }
        ensures along { GoesAlong self.old.reasons.now self.old.platform.now (debug_steps self.old.platform.now (line_as line)) number
            self.new.reasons.now self.new.platform.now }
        ensures stale { KeepsLastStale (begun self.old.reasons.now) self.old.platform.now
            (debug_steps self.old.platform.now (line_as line)) number self.new.reasons.now }
        ensures names { self.new.names ≡ self.old.names }
        ensures marks { self.new.marks ≡ self.old.marks }
        ensures same { names_of self.new ≡ names_of self.old }
    {
        self.reasons.begin_line();
        match line {
            Line::Does(step) => LineAnswer::plain(self.take(number, step).text),
            Line::Named(step) => LineAnswer::plain(self.take(number, step).text),
            Line::Inquires(inquiry) => answer_to(
                self.platform,
                self.reasons,
                &self.marks,
                &inquiry,
            ),
            Line::Again(actor, most) => LineAnswer::plain(self.take_again(number, actor, most)),
            Line::Put(addr, words) => {
                LineAnswer::plain(self.store_all(number, addr, words.as_slice()))
            }
            plain => { LineAnswer::plain(Console::new(self.platform, self.trace).reply_to(plain)) }
        }
    }

    /// Why a line would be answered `bad`, given without its line end, as `VALUE is missing`; empty if it would not be. Numbers stand in place
    /// of names.
    pub fn slip(&self, text: &[u8]) -> Reply
        ensures { result.items ≡ slip_with self.now.names text.now }
    {
        slip_of(&self.names, &self.names.said(text), text)
    }

    /// As for a line that was read by these names, or by those before it, which a line that is `bad` leaves as they are.
    pub fn slip_of(&self, line: &Line, text: &[u8]) -> Reply
        ensures { (names : List Binding) → line_as line.now ≡ line_with names text.now → (is_bad (line_as line.now) ≡ true → self.now.names ≡ names) →
            result.items ≡ slip_with names text.now }
    {
        slip_of(&self.names, line, text)
    }

    /// Whether a step of the last line carried out an IOFENCE.C ("IOFENCE.C").
    pub fn has_fence(&self) -> bool
        ensures { result ≡ self.now.reasons.now.has_fence }
    {
        self.reasons.has_fence()
    }

    /// Whether a step of the last line was a write that the IOMMU ignored, since a register is busy.
    pub fn has_ignored(&self) -> bool
        ensures { result ≡ self.now.reasons.now.has_ignored }
    {
        self.reasons.has_ignored()
    }

    /// The last invalidation that a step of any line carried out; None if none did.
    pub fn last_invalidation(&self) -> Option<Invalidation>
        ensures { result ≡ self.now.reasons.now.last_invalidation }
    {
        self.reasons.last_invalidation()
    }

    /// The last access of the last line that wasn't settled; None if each was, or settledness isn't followed.
    pub fn unsettled(&self) -> Option<UnsettledAccess>
        ensures { result ≡ unsettled_in self.now.reasons.now.settling }
    {
        self.reasons.unsettled()
    }

    /// The last access of the last line that was settled, and that an IOMMU may take by another way to where the tables take it; None if there was
    /// none, or settledness isn't followed.
    pub fn beside(&self) -> Option<UnsettledAccess>
        ensures { result ≡ beside_in self.now.reasons.now.settling }
    {
        self.reasons.beside()
    }

    /// Whether settledness is followed: what any IOMMU may hold is kept.
    pub fn tells_settled(&self) -> bool
        ensures { result ≡ is_some self.now.reasons.now.settling }
    {
        self.reasons.tells_settled()
    }

    /// Whether settledness is followed, and memory was refused for that. Then nothing is known of later accesses.
    pub fn is_lost(&self) -> bool
        ensures { result ≡ is_lost_in self.now.reasons.now.settling }
    {
        self.reasons.is_lost()
    }

    /// What is owed now: the requests that the steps made and that aren't settled, if settledness is followed; each with the number of the newest
    /// line that made it. None if it isn't followed, and if memory is refused, which `is_lost` then says.
    pub fn owed(&mut self) -> Option<Vec<Owed>>
        ensures owed { IfSome result (λ owed. AreOwedBy self.old.reasons.now.settling self.old.platform.now owed.items) }
        ensures none { IfNone result (is_lost_in self.new.reasons.now.settling ≡ false → self.old.reasons.now.settling ≡ None) }
        ensures lost { is_lost_in self.old.reasons.now.settling ≡ true → is_lost_in self.new.reasons.now.settling ≡ true }
        ensures invalidation { self.new.reasons.now.last_invalidation ≡ self.old.reasons.now.last_invalidation }
        ensures marks { self.new.marks ≡ self.old.marks }
    {
        self.reasons.owed(self.platform)
    }

    /// The last access of the last line that was stale; None if none was.
    pub fn stale(&self) -> Option<StaleAccess>
        ensures { result ≡ self.now.reasons.now.stale }
    {
        self.reasons.stale()
    }
}
