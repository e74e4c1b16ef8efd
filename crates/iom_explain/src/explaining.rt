//! The output for the lines of a script.

ghost use Rattle.iom_tool.specs.Room.{answer_room};
ghost use Rattle.std.specs.Prelude.{◌≡◌, ◌≤◌, ℕ, List, false, true, length, IfErr, IfOk, OnOk};
ghost use Rattle.std.specs.Io.KnownBytes.{Appends};
ghost use Rattle.iom_reader.specs.Answering.{progress};
ghost use Rattle.iom_reader.specs.Running.{is_read, is_write};
ghost use Rattle.iom_reader.specs.Watching.{read_failed, write_failed};
ghost use Rattle.iom_debug.specs.Ending.{Stops};
ghost use Rattle.iom_debug.specs.Placed.{placed};
ghost use Rattle.iom_debug.specs.Places.{number_named};
ghost use Rattle.iom_explain.specs.Drives.{progressed};
ghost use Rattle.iom_explain.specs.Explaining.{IsExplained, by_explain, line_told};

use crate::only::Only;
use crate::steps::{Teller, is_refused, take};
use crate::summary::write_summary;
use iom_core::{Answer, Step};
use iom_debug::{
    Debugger, OutputPage, Place, StepAnswer, before_comment, first_bytes, is_done, put,
    put_escaped, put_number_named, put_slip, reply_with_count, step_by, write_told,
};
use iom_reader::{Answerer, RunFault, WatchedReader, WatchedWriter, answer_all};
use iom_tool::{Actor, Line, Reply, TracedStep, answer_text};
use std::alloc::{AllocError, Global};
use std::io::{Read, Write};

/// A script whose lines are written with the reasons of their accesses.
#[derive(Drop)]
pub struct Explaining<'a> {
    /// What its lines drive.
    pub debugger: Debugger<'a>,
    // how many lines were read
    number: u64,
    teller: Teller,
}

impl<'a> Explaining<'a> {
    ghost use Rattle.std.specs.Prelude.{◌≡◌, [], false, IfOk};
    ghost use Rattle.iom_debug.specs.Summary.{counts_of};

    /// A script for what this debugger drives, of no line yet. If `only` is some, the output has the accesses that it names alone, and the
    /// summary. The fault is want of memory.
    pub fn new(
        alloc: Global,
        debugger: Debugger<'a>,
        only: Option<Only>,
    ) -> Result<Explaining<'a>, AllocError>
        ensures debugger { IfOk result (λ explaining. explaining.debugger ≡ debugger.entry) }
        ensures number { IfOk result (λ explaining. explaining.number ≡ 0) }
        ensures counts { IfOk result (λ explaining. explaining.teller.summary ≡ counts_of []) }
        ensures short { IfOk result (λ explaining. explaining.teller.is_short ≡ false) }
        ensures only { IfOk result (λ explaining. explaining.teller.only ≡ only) }
    {
        Ok(Explaining {
            debugger,
            number: 0,
            teller: Teller::new(alloc, only)?,
        })
    }
}

// Writes the page, unless memory was refused.
fn write<W: Write>(
    page: &OutputPage,
    is_short: bool,
    writer: &mut WatchedWriter<'_, W>,
) -> Result<(), RunFault>
    requires { write_failed writer.old ≡ false }
    ensures ok { OnOk result ((said : List ℕ) × Appends (W.contents writer.old.inner.now) (W.contents writer.new.inner.now) said
        × (is_short ≡ false → said ≡ page.now.items)) }
    ensures fault { IfErr result (λ fault. fault ≡ RunFault.Write) }
    ensures told { write_failed writer.new ≡ is_write result }
    ensures same_writer { writer.new.inner.ghost_name ≡ writer.old.inner.ghost_name }
{
    if is_short {
        return Ok(());
    }
    write_told(writer, page.as_slice())
}

// Puts a line that is no step by itself, its answer, and why it is bad, if it has an answer and lines are printed.
fn put_line(
    out: &mut OutputPage,
    only: Option<Only>,
    place: &Place,
    line: &[u8],
    answer: &[u8],
    slip: &[u8],
)
    requires line { length line.now ≤ 513 }
    requires answer { length answer.now ≤ answer_room }
    requires slip { length slip.now ≤ answer_room }
    ensures { out.new.items ≡ line_told only (number_named (placed place.now)) line.now answer.now slip.now }
{
    out.clear();
    if only.is_none() && !answer.is_empty() {
        put_number_named(out, place);
        put(out, b": ");
        put_escaped(out, before_comment(line));
        put(out, b" -> ");
        put_escaped(out, answer);
        put_slip(out, slip);
        put(out, b"\n");
    }
}

// Writes a line that is no step by itself, its answer, and why it is bad, as `put_line` puts them, unless memory was refused.
fn write_line<W: Write>(
    teller: &mut Teller,
    place: &Place,
    line: &[u8],
    answer: &[u8],
    slip: &[u8],
    writer: &mut WatchedWriter<'_, W>,
) -> Result<(), RunFault>
    requires can { write_failed writer.old ≡ false }
    requires line { length line.now ≤ 513 }
    requires answer { length answer.now ≤ answer_room }
    requires slip { length slip.now ≤ answer_room }
    ensures ok { OnOk result ((said : List ℕ) × Appends (W.contents writer.old.inner.now) (W.contents writer.new.inner.now) said
        × (teller.old.is_short ≡ false → said ≡ line_told teller.old.only (number_named (placed place.now)) line.now answer.now slip.now)) }
    ensures fault { IfErr result (λ fault. fault ≡ RunFault.Write) }
    ensures told { write_failed writer.new ≡ is_write result }
    ensures same_writer { writer.new.inner.ghost_name ≡ writer.old.inner.ghost_name }
    ensures short { teller.new.is_short ≡ teller.old.is_short }
    ensures counts { teller.new.summary ≡ teller.old.summary }
    ensures only { teller.new.only ≡ teller.old.only }
{
    let only = teller.only;
    put_line(&mut teller.page, only, place, line, answer, slip);
    write(&teller.page, teller.is_short, writer)
}

impl Explaining<'_> {
    ghost use Rattle.std.specs.Prelude.{◌≡◌, ◌+◌, ◌*◌, ◌^◌, ◌≤◌, ℕ, List, true, false, length, replicate, IfErr, IfOk, OnOk};
    ghost use Rattle.std.specs.Io.KnownBytes.{Appends};
    ghost use Rattle.iom_core.specs.Table.{next};
    ghost use Rattle.iom_reader.specs.Running.{is_write};
    ghost use Rattle.iom_reader.specs.Watching.{write_failed};
    ghost use Rattle.iom_tool.specs.Parsed.{step_of};
    ghost use Rattle.iom_tool.specs.Script.{Stores, stores_at};
    ghost use Rattle.iom_tool.specs.Texts.{text_of};
    ghost use Rattle.iom_debug.specs.Desks.{names_of};
    ghost use Rattle.iom_debug.specs.Taking.{is_done, last_answer, run_text, taken};
    ghost use Rattle.iom_explain.specs.Drives.{told};
    ghost use Rattle.iom_explain.specs.Explaining.{LineTold, OtherTold, RunTold, StepTold, StepsTold};

    // Takes a step of the line that was read last, and prints it.
    fn tell_step<W: Write>(
        &mut self,
        step: Step,
        writer: &mut WatchedWriter<'_, W>,
    ) -> Result<StepAnswer, RunFault>
        requires { write_failed writer.old ≡ false }
        ensures ok { OnOk result ((said : List ℕ) × Appends (W.contents writer.old.inner.now) (W.contents writer.new.inner.now) said
            × (self.new.teller.is_short ≡ false → StepTold (told self.old) self.old.number step said (told self.new))) }
        ensures done { IfOk result (λ a. a.is_done ≡ is_done (next self.old.debugger.platform.now step).answer) }
        ensures text { IfOk result (λ a. a.text.items ≡ text_of (next self.old.debugger.platform.now step).answer) }
        ensures room { IfOk result (λ a. length a.text.items ≤ 128) }
        ensures short { self.old.teller.is_short ≡ true → self.new.teller.is_short ≡ true }
        ensures fault { IfErr result (λ fault. fault ≡ RunFault.Write) }
        ensures told { write_failed writer.new ≡ is_write result }
        ensures same_writer { writer.new.inner.ghost_name ≡ writer.old.inner.ghost_name }
        ensures same { names_of self.new.debugger ≡ names_of self.old.debugger }
        ensures number { self.new.number ≡ self.old.number }
        ensures only { self.new.teller.only ≡ self.old.teller.only }
    {
        let mut entry = TracedStep {
            step,
            answer: Answer::Done,
        };
        take(
            &mut self.debugger,
            &mut self.teller,
            self.number,
            &mut entry,
        );
        let answered = StepAnswer {
            is_done: is_done(&entry.answer),
            text: answer_text(&entry.answer),
        };
        self.debugger.trace.keep(entry.step, entry.answer);
        write(&self.teller.page, self.teller.is_short, writer)?;
        Ok(answered)
    }

    // Takes the step that a line is, and prints it.
    fn tell_one<W: Write>(
        &mut self,
        step: Step,
        writer: &mut WatchedWriter<'_, W>,
    ) -> Result<(), RunFault>
        requires { write_failed writer.old ≡ false }
        ensures ok { OnOk result ((said : List ℕ) × Appends (W.contents writer.old.inner.now) (W.contents writer.new.inner.now) said
            × (self.new.teller.is_short ≡ false → StepTold (told self.old) self.old.number step said (told self.new))) }
        ensures fault { IfErr result (λ fault. fault ≡ RunFault.Write) }
        ensures told { write_failed writer.new ≡ is_write result }
        ensures same_writer { writer.new.inner.ghost_name ≡ writer.old.inner.ghost_name }
        ensures same { names_of self.new.debugger ≡ names_of self.old.debugger }
        ensures number { self.new.number ≡ self.old.number }
    {
        let _answered = self.tell_step(step, writer)?;
        Ok(())
    }

    // Takes the step of one that goes on by itself again and again while it is done, at most this number of times, and prints each. The
    // answer to the line comes back.
    fn tell_again<W: Write>(
        &mut self,
        actor: Actor,
        most: u64,
        writer: &mut WatchedWriter<'_, W>,
    ) -> Result<Reply, RunFault>
        requires can { write_failed writer.old ≡ false }
        requires memory { self.old.teller.is_short ≡ false }
        ensures ok { IfOk result (λ reply. (said : List ℕ) × Appends (W.contents writer.old.inner.now) (W.contents writer.new.inner.now) said
            × (self.new.teller.is_short ≡ false → StepsTold (told self.old) self.old.number
            (taken self.old.debugger.platform.now (replicate most (step_of actor))) said (told self.new)
            × (reply.items ≡ run_text self.old.debugger.platform.now (replicate most (step_of actor))))) }
        ensures fault { IfErr result (λ fault. fault ≡ RunFault.Write) }
        ensures told { write_failed writer.new ≡ is_write result }
        ensures same_writer { writer.new.inner.ghost_name ≡ writer.old.inner.ghost_name }
        ensures same { names_of self.new.debugger ≡ names_of self.old.debugger }
        ensures number { self.new.number ≡ self.old.number }
        ensures only { self.new.teller.only ≡ self.old.teller.only }
    {
        for i in 0..most {
            let answered = self.tell_step(step_by(actor), writer)?;
            if self.teller.is_short {
                return Ok(Reply::new());
            }
            if !answered.is_done {
                return Ok(reply_with_count(i + 1, answered.text.as_slice()));
            }
        }
        Ok(reply_with_count(most, b"done"))
    }

    // Takes the stores of words of 8 bytes from a physical address on while each is done, and prints each. The answer to the line comes
    // back.
    fn tell_stores<W: Write>(
        &mut self,
        addr: u64,
        words: &[u64],
        writer: &mut WatchedWriter<'_, W>,
    ) -> Result<Reply, RunFault>
        requires can { write_failed writer.old ≡ false }
        requires memory { self.old.teller.is_short ≡ false }
        requires fits { addr + 8 * length words.now ≤ 2 ^ 64 }
        ensures ok { IfOk result (λ reply. (said : List ℕ) × Appends (W.contents writer.old.inner.now) (W.contents writer.new.inner.now) said
            × (self.new.teller.is_short ≡ false → StepsTold (told self.old) self.old.number
            (taken self.old.debugger.platform.now (stores_at addr words.now)) said (told self.new)
            × (reply.items ≡ text_of (last_answer self.old.debugger.platform.now (stores_at addr words.now))))) }
        ensures fault { IfErr result (λ fault. fault ≡ RunFault.Write) }
        ensures told { write_failed writer.new ≡ is_write result }
        ensures same_writer { writer.new.inner.ghost_name ≡ writer.old.inner.ghost_name }
        ensures same { names_of self.new.debugger ≡ names_of self.old.debugger }
        ensures number { self.new.number ≡ self.old.number }
        ensures only { self.new.teller.only ≡ self.old.teller.only }
    {
        for (i, word) in words.iter().enumerate() {
            let step = Step::Store {
                addr: addr + 8 * i as u64,
                size: 8,
                value: *word,
            };
            let answered = self.tell_step(step, writer)?;
            if self.teller.is_short {
                return Ok(Reply::new());
            }
            if !answered.is_done {
                return Ok(answered.text);
            }
        }
        Ok(answer_text(&Answer::Done))
    }

    // Prints a line that takes the step of one that goes on by itself again and again: each step, and after them the line.
    #[inline(never)]
    fn tell_run<W: Write>(
        &mut self,
        line: &[u8],
        actor: Actor,
        most: u64,
        writer: &mut WatchedWriter<'_, W>,
    ) -> Result<(), RunFault>
        requires can { write_failed writer.old ≡ false }
        requires memory { self.old.teller.is_short ≡ false }
        requires short { length line.now ≤ 513 }
        ensures ok { OnOk result ((said : List ℕ) × Appends (W.contents writer.old.inner.now) (W.contents writer.new.inner.now) said
            × (self.new.teller.is_short ≡ false
            → RunTold (told self.old) self.old.number line.now (replicate most (step_of actor))
            (run_text self.old.debugger.platform.now (replicate most (step_of actor))) said (told self.new))) }
        ensures fault { IfErr result (λ fault. fault ≡ RunFault.Write) }
        ensures told { write_failed writer.new ≡ is_write result }
        ensures same_writer { writer.new.inner.ghost_name ≡ writer.old.inner.ghost_name }
        ensures same { names_of self.new.debugger ≡ names_of self.old.debugger }
        ensures number { self.new.number ≡ self.old.number }
    {
        let place = self.debugger.marks.place(self.number);
        let reply = self.tell_again(actor, most, writer)?;
        write_line(
            &mut self.teller,
            &place,
            line,
            reply.as_slice(),
            b"",
            writer,
        )
    }

    // Prints a line that stores words: each store, and after them the line. One that stores none is any other line: `let`.
    #[inline(never)]
    fn tell_put<W: Write>(
        &mut self,
        line: &[u8],
        addr: u64,
        words: &[u64],
        writer: &mut WatchedWriter<'_, W>,
    ) -> Result<(), RunFault>
        requires can { write_failed writer.old ≡ false }
        requires memory { self.old.teller.is_short ≡ false }
        requires short { length line.now ≤ 513 }
        requires fits { addr + 8 * length words.now ≤ 2 ^ 64 }
        ensures ok { OnOk result ((said : List ℕ) × Appends (W.contents writer.old.inner.now) (W.contents writer.new.inner.now) said
            × (self.new.teller.is_short ≡ false
            → LineTold (told self.old) self.old.number line.now (Stores (stores_at addr words.now)) said (told self.new))) }
        ensures fault { IfErr result (λ fault. fault ≡ RunFault.Write) }
        ensures told { write_failed writer.new ≡ is_write result }
        ensures same_writer { writer.new.inner.ghost_name ≡ writer.old.inner.ghost_name }
        ensures same { names_of self.new.debugger ≡ names_of self.old.debugger }
        ensures number { self.new.number ≡ self.old.number }
    {
        if words.is_empty() {
            return self.tell_other(line, writer);
        }
        let place = self.debugger.marks.place(self.number);
        let reply = self.tell_stores(addr, words, writer)?;
        write_line(
            &mut self.teller,
            &place,
            line,
            reply.as_slice(),
            b"",
            writer,
        )
    }

    // Carries out any other line, of this text, and prints it.
    #[inline(never)]
    fn tell_other<W: Write>(
        &mut self,
        text: &[u8],
        writer: &mut WatchedWriter<'_, W>,
    ) -> Result<(), RunFault>
        requires can { write_failed writer.old ≡ false }
        requires short { length text.now ≤ 513 }
        ensures ok { OnOk result ((said : List ℕ) × Appends (W.contents writer.old.inner.now) (W.contents writer.new.inner.now) said
            × (self.new.teller.is_short ≡ false → OtherTold (told self.old) self.old.number text.now said (told self.new))) }
        ensures fault { IfErr result (λ fault. fault ≡ RunFault.Write) }
        ensures told { write_failed writer.new ≡ is_write result }
        ensures same_writer { writer.new.inner.ghost_name ≡ writer.old.inner.ghost_name }
        ensures same { names_of self.new.debugger ≡ names_of self.old.debugger }
        ensures number { self.new.number ≡ self.old.number }
    {
        let place = self.debugger.marks.place(self.number);
        let slip = self.debugger.slip(text);
        let reply = self.debugger.line(self.number, text);
        self.teller.is_short = is_refused(self.teller.is_short, self.debugger.marks.is_lost());
        write_line(
            &mut self.teller,
            &place,
            text,
            reply.as_slice(),
            slip.as_slice(),
            writer,
        )
    }
}

impl Answerer for Explaining<'_> {
    ghost use Rattle.iom_debug.specs.Desks.{names_of};
    ghost use Rattle.iom_explain.specs.Drives.{progressed};
    ghost use Rattle.iom_explain.specs.Explaining.{by_explain};

    ghost answering = { by_explain };

    ghost state = { progressed };

    ghost names = { λ e. names_of e.debugger };

    fn answer<W: Write>(
        &mut self,
        line: &[u8],
        writer: &mut WatchedWriter<'_, W>,
    ) -> Result<(), RunFault> {
        if self.teller.is_short {
            return Ok(());
        }
        self.number = self.number.saturating_add(1);
        let line = first_bytes(line);
        match self.debugger.names.said(line) {
            Line::Does(step) => self.tell_one(step, writer),
            Line::Named(step) => self.tell_one(step, writer),
            Line::Again(actor, most) => self.tell_run(line, actor, most, writer),
            Line::Put(addr, words) => self.tell_put(line, addr, words.as_slice(), writer),
            _ => self.tell_other(line, writer),
        }
    }
}

/// Carries out the script that `reader` gives, and writes each line, the reasons of its accesses, and at the end how they went. Where what any
/// IOMMU may hold is kept, it also writes which accesses weren't settled. Answers whether there was memory for that, and for the numbers of
/// the lines that are counted; if there was none nothing more is written. The faults are those of `run`, each only if it happened.
#[tactic(auto, using(crate::proofs::Telling::lawful, crate::proofs::Telling::whole))]
pub fn explain<R: Read, W: Write>(
    explaining: &mut Explaining<'_>,
    reader: &mut WatchedReader<'_, R>,
    writer: &mut WatchedWriter<'_, W>,
) -> Result<bool, RunFault>
    requires can_read { read_failed reader.old ≡ false }
    requires can_write { write_failed writer.old ≡ false }
    ensures explained { IfOk result (λ all. all ≡ true → IsExplained (progressed explaining.old) (R.remaining reader.old.inner.now) (R.remaining reader.new.inner.now)
        (W.contents writer.old.inner.now) (W.contents writer.new.inner.now)) }
    ensures stops { IfErr result (Stops by_explain (R.remaining reader.old.inner.now) (R.remaining reader.new.inner.now)
        (progress (W.contents writer.old.inner.now) (progressed explaining.old)) (progress (W.contents writer.new.inner.now) (progressed explaining.new))) }
    ensures read_told { read_failed reader.new ≡ is_read result }
    ensures write_told { write_failed writer.new ≡ is_write result }
    ensures same_reader { reader.new.inner.ghost_name ≡ reader.old.inner.ghost_name }
    ensures same_writer { writer.new.inner.ghost_name ≡ writer.old.inner.ghost_name }
{
    answer_all(explaining, reader, writer)?;
    if explaining.teller.is_short {
        return Ok(false);
    }
    let tells_settled = explaining.debugger.tells_settled();
    write_summary(
        &explaining.teller.summary,
        &explaining.debugger.marks,
        tells_settled,
        &mut explaining.teller.page,
        writer,
    )?;
    Ok(true)
}
