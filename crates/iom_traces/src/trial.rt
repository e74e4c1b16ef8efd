//! The lines of a trace, one after the other.

ghost use Rattle.iom_reader.specs.Answering.{progress};
ghost use Rattle.iom_reader.specs.Running.{is_read, is_write};
ghost use Rattle.iom_reader.specs.Watching.{read_failed, write_failed};
ghost use Rattle.std.specs.Prelude.{◌≡◌, false, IfErr, IfOk};
ghost use Rattle.iom_debug.specs.Ending.{Stops};
ghost use Rattle.iom_traces.specs.Drives.{tried_by};
ghost use Rattle.iom_traces.specs.Whole.{IsTried, by_trial};

use crate::judging::Judging;
use iom_check::{Scoring, Tally};
use iom_debug::{Marks, Place, first_bytes, slip_of, write_told};
use iom_judge::Judge;
use iom_names::Names;
use iom_reader::{Answerer, RunFault, WatchedReader, WatchedWriter, answer_all};
use std::alloc::Global;
use std::io::{Read, Write};

/// A trace, given a line at a time.
#[derive(Drop)]
pub struct Trial<'a> {
    /// What is judged of its lines.
    pub judging: Judging<'a>,
    // of numbers
    names: Names,
    // where its lines stand
    marks: Marks,
    // how many lines were read
    number: u64,
    // where the last one stands
    place: Place,
}

impl<'a> Trial<'a> {
    ghost use Rattle.std.specs.Prelude.{◌≡◌, ◌≤◌, length};
    ghost use Rattle.iom_check.specs.Scores.{score_of};
    ghost use Rattle.iom_traces.specs.Drives.{begun, tried_by};
    ghost use Rattle.iom_traces.specs.Trials.{TrialSays};

    /// A trace of no line yet, by a judge. If `hides`, the IOMMU may carry out commands before each step that nobody saw.
    pub fn new(alloc: Global, judge: Judge, hides: bool, scoring: Scoring<'a>) -> Trial<'a>
        ensures { tried_by result ≡ begun judge hides (score_of scoring.entry) }
    {
        Trial {
            judging: Judging {
                judge,
                scoring,
                hides,
                is_over: false,
                is_lost: false,
                allowed: Vec::new(alloc),
            },
            names: Names::new(),
            marks: Marks::new(alloc),
            number: 0,
            place: Place::own(0),
        }
    }

    /// How many lines passed, and how many failed, by now.
    pub fn tally(&self) -> Tally
        ensures { result ≡ (tried_by self.now).judged.score.tally }
    {
        self.judging.scoring.tally
    }

    /// Whether memory was refused: then nothing is known of the lines behind.
    pub fn is_lost(&self) -> bool
        ensures { result ≡ (tried_by self.now).judged.is_lost }
    {
        self.judging.is_lost
    }

    /// Judges a line, given without its line end, and puts its report on the page.
    pub fn line(&mut self, line: &[u8])
        requires { length line.now ≤ 513 }
        ensures { TrialSays (tried_by self.old) line.now self.new.judging.scoring.page.items (tried_by self.new) }
    {
        self.number = self.number.saturating_add(1);
        self.place = self.marks.place(self.number);
        let read = self.names.read(line);
        let slip = slip_of(&self.names, &read, line);
        self.judging
            .judge_line(&self.place, line, &read, slip.as_slice());
        self.marks.note(self.number, line);
    }
}

impl Answerer for Trial<'_> {
    ghost use Rattle.std.specs.Prelude.{[]};
    ghost use Rattle.iom_traces.specs.Drives.{tried_by};
    ghost use Rattle.iom_traces.specs.Whole.{by_trial};

    ghost answering = { by_trial };

    ghost state = { tried_by };

    ghost names = { λ t. [] };

    fn answer<W: Write>(
        &mut self,
        line: &[u8],
        writer: &mut WatchedWriter<'_, W>,
    ) -> Result<(), RunFault> {
        self.line(first_bytes(line));
        write_told(writer, self.judging.scoring.page.as_slice())
    }
}

/// Judges the trace that `reader` gives, and reports each line that no IOMMU could answer so, and at the end how many lines passed and how many
/// failed, which it answers. The faults are those of `run`, each only if it happened.
#[tactic(auto, using(crate::proofs::Telling::lawful, crate::proofs::Telling::tried))]
pub fn judge_trace<R: Read, W: Write>(
    trial: &mut Trial<'_>,
    reader: &mut WatchedReader<'_, R>,
    writer: &mut WatchedWriter<'_, W>,
) -> Result<Tally, RunFault>
    requires can_read { read_failed reader.old ≡ false }
    requires can_write { write_failed writer.old ≡ false }
    ensures judged { IfOk result (λ tally. IsTried (tried_by trial.old)
        (R.remaining reader.old.inner.now) (R.remaining reader.new.inner.now)
        (W.contents writer.old.inner.now) (W.contents writer.new.inner.now) (tried_by trial.new).judged.is_lost tally) }
    ensures stops { IfErr result (Stops by_trial (R.remaining reader.old.inner.now) (R.remaining reader.new.inner.now)
        (progress (W.contents writer.old.inner.now) (tried_by trial.old))
        (progress (W.contents writer.new.inner.now) (tried_by trial.new))) }
    ensures read_told { read_failed reader.new ≡ is_read result }
    ensures write_told { write_failed writer.new ≡ is_write result }
    ensures same_reader { reader.new.inner.ghost_name ≡ reader.old.inner.ghost_name }
    ensures same_writer { writer.new.inner.ghost_name ≡ writer.old.inner.ghost_name }
{
    answer_all(trial, reader, writer)?;
    let scoring = &mut trial.judging.scoring;
    scoring.page.clear();
    scoring.end(&trial.place);
    write_told(writer, scoring.page.as_slice())?;
    Ok(scoring.tally)
}
