ghost use Rattle.std.specs.Prelude.{◌≡◌, false, true};
ghost use Rattle.iom_reader.specs.Answering.{IsAnswering, progress};
ghost use Rattle.iom_reader.specs.Running.{Ends, is_read, is_write, stops_at_a_read};
ghost use Rattle.iom_reader.specs.Watching.{read_failed, write_failed, is_flushed};

use crate::answerer::Answerer;
use crate::fault::RunFault;
use crate::rest::{MOST_BYTES, Rest};
use crate::watched::{WatchedReader, WatchedWriter};
use std::io::{Read, Write};

/// The most bytes that are asked of a reader at once.
const MOST_BYTES_OF_A_PIECE: usize = 0x8000;

/// Has all lines of the script that `reader` gives answered by an answerer. Their output is written and flushed before it reads on, and at
/// the end. The first 513 bytes of a line must decide its answer, and a flush must change nothing.
pub fn answer_all<A: Answerer, R: Read, W: Write>(
    answerer: &mut A,
    reader: &mut WatchedReader<'_, R>,
    writer: &mut WatchedWriter<'_, W>,
) -> Result<(), RunFault>
    requires lawful { IsAnswering A.answering }
    requires can_read { read_failed reader.old ≡ false }
    requires can_write { write_failed writer.old ≡ false }
    ensures ends { Ends A.answering (R.remaining reader.old.inner.now) (R.remaining reader.new.inner.now)
        (progress (W.contents writer.old.inner.now) (A.state answerer.old))
        (progress (W.contents writer.new.inner.now) (A.state answerer.new)) result }
    ensures read_told { read_failed reader.new ≡ is_read result }
    ensures write_told { write_failed writer.new ≡ is_write result }
    ensures flushed { stops_at_a_read result ≡ true → is_flushed writer.new ≡ true }
    ensures same_reader { reader.new.inner.ghost_name ≡ reader.old.inner.ghost_name }
    ensures same_writer { writer.new.inner.ghost_name ≡ writer.old.inner.ghost_name }
    ensures names { A.names answerer.new ≡ A.names answerer.old }
{
    let mut rest = Rest::new();
    let mut piece = [0; MOST_BYTES_OF_A_PIECE];
    for _turn in 0..=MOST_BYTES {
        if !writer.flush() {
            return Err(RunFault::Write);
        }
        let Some(count) = reader.read(&mut piece, writer) else {
            return Err(RunFault::Read);
        };
        if count == 0 {
            return rest.finish(answerer, writer);
        }
        rest.feed(answerer, &piece[..count], writer)?;
    }
    unreachable!()
}
