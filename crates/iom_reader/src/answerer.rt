//! Whoever answers the lines of a script.

ghost use Rattle.std.specs.Prelude.{◌≡◌, ◌==◌, ℕ, List, IfErr, false};
ghost use Rattle.std.specs.List.{list_any};
ghost use Rattle.iom_reader.specs.Answering.{Answering, AnswersNext, progress};
ghost use Rattle.iom_reader.specs.Running.{is_write};
ghost use Rattle.iom_reader.specs.Watching.{write_failed};

use crate::fault::RunFault;
use crate::watched::WatchedWriter;
use std::io::Write;

/// Code that carries out the lines of a script, and writes the output for each.
pub trait Answerer {
    /// How the lines are answered.
    ghost answering: { Answering };

    /// What they drive.
    ghost state: { Self → answering.State };

    /// Which references it holds.
    ghost names: { Self → List ℕ };

    /// Carries out a line, which has no line end, and writes its output. Of a line above 512 bytes it may be given only the first 513. The
    /// fault is `Write`.
    fn answer<W: Write>(
        &mut self,
        line: &[u8],
        writer: &mut WatchedWriter<'_, W>,
    ) -> Result<(), RunFault>
        requires can { write_failed writer.old ≡ false }
        requires cut { list_any (λ c. c == 10) line.now ≡ false }
        ensures next { AnswersNext answering line.now (progress (W.contents writer.old.inner.now) (state self.old))
            (progress (W.contents writer.new.inner.now) (state self.new)) result }
        ensures fault { IfErr result (λ fault. fault ≡ RunFault.Write) }
        ensures told { write_failed writer.new ≡ is_write result }
        ensures same_writer { writer.new.inner.ghost_name ≡ writer.old.inner.ghost_name }
        ensures names { names self.new ≡ names self.old };
}
