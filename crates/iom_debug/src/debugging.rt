//! The word `debug`: each line is answered.

ghost use Rattle.iom_tool.specs.Room.{answer_room};
ghost use Rattle.std.specs.Prelude.{◌≡◌, ◌≤◌, ◌++◌, false, true, length};
ghost use Rattle.iom_reader.specs.Answering.{progress};
ghost use Rattle.iom_reader.specs.Running.{Ends, is_read, is_write, stops_at_a_read};
ghost use Rattle.iom_reader.specs.Watching.{is_flushed, read_failed, write_failed};
ghost use Rattle.iom_debug.specs.Desks.{desk_of};
ghost use Rattle.iom_debug.specs.Telling.{by_debug, line_told, slip_told, with_slip};

use crate::debugger::Debugger;
use crate::page::{OutputPage, first_bytes, put, put_slip, write_told};
use iom_reader::{Answerer, RunFault, WatchedReader, WatchedWriter, answer_all};
use iom_tool::Reply;
use std::io::{Read, Write};

/// A script of `debug`.
#[derive(Drop)]
pub struct Debugging<'a> {
    /// What its lines drive.
    pub debugger: Debugger<'a>,
    // how many lines were read
    number: u64,
    // whether it says why a line is bad
    tells_slips: bool,
    page: OutputPage,
}

impl<'a> Debugging<'a> {
    ghost use Rattle.std.specs.Prelude.{◌≡◌};

    /// A script of `debug` for what this debugger drives, of no line yet. Behind `bad` it says why, as `bad: VALUE is missing`, if
    /// `tells_slips`.
    pub fn new(debugger: Debugger<'a>, tells_slips: bool) -> Debugging<'a>
        ensures debugger { result.debugger ≡ debugger.entry }
        ensures number { result.number ≡ 0 }
        ensures tells { result.tells_slips ≡ tells_slips }
    {
        Debugging {
            debugger,
            number: 0,
            tells_slips,
            page: OutputPage::new(),
        }
    }
}

impl Answerer for Debugging<'_> {
    ghost use Rattle.iom_debug.specs.Desks.{desk_of, names_of};
    ghost use Rattle.iom_debug.specs.Telling.{by_debug};

    ghost answering = { by_debug };

    ghost state = { λ d. record {
      desk = desk_of d.debugger;
      number = d.number;
      tells_slips = d.tells_slips;
    } };

    ghost names = { λ d. names_of d.debugger };

    fn answer<W: Write>(
        &mut self,
        line: &[u8],
        writer: &mut WatchedWriter<'_, W>,
    ) -> Result<(), RunFault> {
        self.number = self.number.saturating_add(1);
        let line = first_bytes(line);
        let slip = slip_told(self.tells_slips, &self.debugger, line);
        let answer = self.debugger.line(self.number, line);
        self.page.clear();
        put_line(&mut self.page, answer.as_slice(), slip.as_slice());
        write_told(writer, self.page.as_slice())
    }
}

// Why a line is bad, if that is said.
fn slip_told(tells_slips: bool, debugger: &Debugger<'_>, line: &[u8]) -> Reply
    ensures { result.items ≡ slip_told tells_slips debugger.now.names line.now }
{
    if tells_slips {
        debugger.slip(line)
    } else {
        Reply::new()
    }
}

// Puts an answer, and why its line is bad.
fn put_answer(out: &mut OutputPage, answer: &[u8], slip: &[u8])
    requires empty { length out.old.items ≡ 0 }
    requires answer { length answer.now ≤ answer_room }
    requires slip { length slip.now ≤ answer_room }
    ensures text { out.new.items ≡ with_slip answer.now slip.now }
    ensures room { length out.new.items ≤ 642 }
{
    put(out, answer);
    put_slip(out, slip);
}

// Puts an answer, and why its line is bad, with its line end, where there is an answer.
fn put_line(out: &mut OutputPage, answer: &[u8], slip: &[u8])
    requires empty { length out.old.items ≡ 0 }
    requires answer { length answer.now ≤ answer_room }
    requires slip { length slip.now ≤ answer_room }
    ensures { out.new.items ≡ line_told (with_slip answer.now slip.now) }
{
    put_answer(out, answer, slip);
    if !out.is_empty() {
        put(out, b"\n");
    }
}

/// Answers each line of the script that `reader` gives, as `run` does. The faults are those of `run`, each only if it happened.
#[tactic(auto, using(crate::proofs::Telling::lawful))]
pub fn debug<R: Read, W: Write>(
    debugging: &mut Debugging<'_>,
    reader: &mut WatchedReader<'_, R>,
    writer: &mut WatchedWriter<'_, W>,
) -> Result<(), RunFault>
    requires can_read { read_failed reader.old ≡ false }
    requires can_write { write_failed writer.old ≡ false }
    ensures ends { Ends by_debug (R.remaining reader.old.inner.now) (R.remaining reader.new.inner.now)
        (progress (W.contents writer.old.inner.now) (record {
          desk = desk_of debugging.old.debugger;
          number = debugging.old.number;
          tells_slips = debugging.old.tells_slips;
        }))
        (progress (W.contents writer.new.inner.now) (record {
          desk = desk_of debugging.new.debugger;
          number = debugging.new.number;
          tells_slips = debugging.new.tells_slips;
        })) result }
    ensures read_told { read_failed reader.new ≡ is_read result }
    ensures write_told { write_failed writer.new ≡ is_write result }
    ensures flushed { stops_at_a_read result ≡ true → is_flushed writer.new ≡ true }
    ensures same_reader { reader.new.inner.ghost_name ≡ reader.old.inner.ghost_name }
    ensures same_writer { writer.new.inner.ghost_name ≡ writer.old.inner.ghost_name }
{
    answer_all(debugging, reader, writer)
}
