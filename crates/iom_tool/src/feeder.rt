ghost use Rattle.std.specs.Prelude.{◌≡◌, false, ℕ, List, [], None, Some, IfErr, OnOk};
ghost use Rattle.iom_tool.specs.Console.{console};
ghost use Rattle.iom_reader.specs.Answering.{Progress, progress};
ghost use Rattle.iom_reader.specs.Running.{Fed, AfterPiece, AfterEnd};
ghost use Rattle.iom_reader.specs.Watching.{write_failed};
ghost use Rattle.iom_tool.specs.Running.{StaysRefused, by_steps};

use crate::console::Console;
use crate::trace::Trace;
use iom_core::Platform;
use iom_reader::{Rest, RunFault, WatchedWriter};
use std::io::Write;

/// A script given in pieces, whichever way its text is cut.
#[derive(Drop)]
pub struct Feeder<'a> {
    /// The platform that its lines drive.
    pub platform: &'a mut Platform,
    /// The trace that keeps its steps.
    pub trace: &'a mut Trace,
    /// The rest of the text between two pieces.
    pub rest: Rest,
    /// What was refused once, and is from then on.
    pub refusal: Option<RunFault>,
}

impl<'a> Feeder<'a> {
    /// A feeder for this platform and this trace, to which no piece was given yet.
    pub fn new(platform: &'a mut Platform, trace: &'a mut Trace) -> Feeder<'a>
        ensures same_platform { result.platform.ghost_name ≡ platform.entry.ghost_name }
        ensures same_trace { result.trace.ghost_name ≡ trace.entry.ghost_name }
        ensures platform { result.platform.now ≡ platform.old }
        ensures trace { result.trace.now ≡ trace.old }
        ensures line { result.rest.line.items ≡ [] }
        ensures lines { result.rest.lines ≡ 0 }
        ensures bytes { result.rest.bytes ≡ 0 }
        ensures open { result.refusal ≡ None }
    {
        Feeder {
            platform,
            trace,
            rest: Rest::new(),
            refusal: None,
        }
    }

    /// Takes a piece of a script, and answers each line that it ends before it goes on. The refusals are those of
    /// `run` but `Read`; after one each later call answers the same one, writes nothing and changes nothing.
    #[tactic(auto, using(crate::proofs::Steps::lawful))]
    pub fn feed<W: Write>(&mut self, piece: &[u8], writer: &mut W) -> Result<(), RunFault>
        ensures fed { self.old.refusal ≡ None → (start : Progress by_steps.State) (text : List ℕ)
            → Fed by_steps start (progress (W.contents writer.old) (console self.old.platform.now self.old.trace.now))
            self.old.rest.line.items self.old.rest.lines self.old.rest.bytes text
            → AfterPiece by_steps start (progress (W.contents writer.new) (console self.new.platform.now self.new.trace.now))
            self.new.rest.line.items self.new.rest.lines self.new.rest.bytes text piece.now result }
        ensures open { OnOk result (self.new.refusal ≡ None) }
        ensures refused { IfErr result (λ fault. self.new.refusal ≡ Some fault) }
        ensures stays { (fault : RunFault) → self.old.refusal ≡ Some fault → StaysRefused fault result
            (progress (W.contents writer.old) (console self.old.platform.now self.old.trace.now))
            (progress (W.contents writer.new) (console self.new.platform.now self.new.trace.now)) }
        ensures same_platform { self.new.platform.ghost_name ≡ self.old.platform.ghost_name }
        ensures same_trace { self.new.trace.ghost_name ≡ self.old.trace.ghost_name }
    {
        if let Some(fault) = self.refusal {
            return Err(fault);
        }
        let mut writer = WatchedWriter::new(writer);
        let mut console = Console::new(self.platform, self.trace);
        let fed = self.rest.feed(&mut console, piece, &mut writer);
        if let Err(fault) = fed {
            self.refuse(fault);
        }
        fed
    }

    // Refuses what comes from now on.
    #[inline(always)]
    fn refuse(&mut self, fault: RunFault)
        ensures refused { self.new.refusal ≡ Some fault }
        ensures rest { self.new.rest ≡ self.old.rest }
        ensures platform { self.new.platform ≡ self.old.platform }
        ensures trace { self.new.trace ≡ self.old.trace }
    {
        self.refusal = Some(fault);
    }

    /// Answers a last line that lacks its line end, and flushes. The fault is `Write`, or what was refused before.
    pub fn finish<W: Write>(self, writer: &mut W) -> Result<(), RunFault>
        ensures fed { self.entry.refusal ≡ None → (start : Progress by_steps.State) (text : List ℕ)
            → Fed by_steps start (progress (W.contents writer.old) (console self.entry.platform.now self.entry.trace.now))
            self.entry.rest.line.items self.entry.rest.lines self.entry.rest.bytes text
            → AfterEnd by_steps start (progress (W.contents writer.new) (console self.exit.0.now self.exit.1.0.now)) text result }
        ensures stays { (fault : RunFault) → self.entry.refusal ≡ Some fault → StaysRefused fault result
            (progress (W.contents writer.old) (console self.entry.platform.now self.entry.trace.now))
            (progress (W.contents writer.new) (console self.exit.0.now self.exit.1.0.now)) }
    {
        let Feeder {
            platform,
            trace,
            mut rest,
            refusal,
        } = self;
        if let Some(fault) = refusal {
            return Err(fault);
        }
        let mut writer = WatchedWriter::new(writer);
        finished(platform, trace, &mut rest, &mut writer)
    }
}

// Has a last line answered that lacks its line end, and flushes.
#[tactic(auto, using(crate::proofs::Steps::lawful))]
fn finished<W: Write>(
    platform: &mut Platform,
    trace: &mut Trace,
    rest: &mut Rest,
    writer: &mut WatchedWriter<'_, W>,
) -> Result<(), RunFault>
    requires { write_failed writer.old ≡ false }
    ensures fed { (start : Progress by_steps.State) (text : List ℕ)
        → Fed by_steps start (progress (W.contents writer.old.inner.now) (console platform.old trace.old))
        rest.old.line.items rest.old.lines rest.old.bytes text
        → AfterEnd by_steps start (progress (W.contents writer.new.inner.now) (console platform.new trace.new)) text result }
    ensures same_writer { writer.new.inner.ghost_name ≡ writer.old.inner.ghost_name }
{
    let mut console = Console::new(platform, trace);
    rest.finish(&mut console, writer)
}
