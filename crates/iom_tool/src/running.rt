ghost use Rattle.std.specs.Prelude.{◌≡◌, false, true};
ghost use Rattle.iom_tool.specs.Console.{console as console_of};
ghost use Rattle.iom_reader.specs.Answering.{progress};
ghost use Rattle.iom_reader.specs.Running.{Ends, is_read, is_write, stops_at_a_read};
ghost use Rattle.iom_tool.specs.Running.{by_steps};
ghost use Rattle.iom_reader.specs.Watching.{read_failed, write_failed, is_flushed};

use crate::console::Console;
use crate::trace::Trace;
use iom_core::Platform;
use iom_reader::{RunFault, WatchedReader, WatchedWriter, answer_all};
use std::io::{Read, Write};

/// Carries out the script that `reader` gives, and writes the answers to `writer`: those to the lines of what was read
/// are written and flushed before it reads on, and at the end.
///
/// It reads pieces of at most 32 KiB. A script has at most 2^20 lines and 2^26 bytes: with the first byte beyond it
/// ends with `TooLong`. A read that fails or is interrupted is `Read`. A write that fails, is interrupted or takes no
/// byte, and a flush that fails, are `Write`. Of the lines before, the answers are written and the steps are done; after
/// `Write` the steps of the lines up to the one whose answer failed are done.
pub fn run<R: Read, W: Write>(
    console: &mut Console<'_>,
    reader: &mut R,
    writer: &mut W,
) -> Result<(), RunFault>
    ensures ends { Ends by_steps (R.remaining reader.old) (R.remaining reader.new)
        (progress (W.contents writer.old) (console_of console.old.platform.now console.old.trace.now))
        (progress (W.contents writer.new) (console_of console.new.platform.now console.new.trace.now)) result }
    ensures same_platform { console.new.platform.ghost_name ≡ console.old.platform.ghost_name }
    ensures same_trace { console.new.trace.ghost_name ≡ console.old.trace.ghost_name }
{
    let mut reader = WatchedReader::new(reader);
    let mut writer = WatchedWriter::new(writer);
    run_watched(console.platform, console.trace, &mut reader, &mut writer)
}

/// `run` on this platform and this trace, over a reader and a writer that are watched: each fault is answered only if it happened, and all is flushed at the end, and if a
/// read failed.
#[tactic(auto, using(crate::proofs::Steps::lawful))]
pub fn run_watched<R: Read, W: Write>(
    platform: &mut Platform,
    trace: &mut Trace,
    reader: &mut WatchedReader<'_, R>,
    writer: &mut WatchedWriter<'_, W>,
) -> Result<(), RunFault>
    requires can_read { read_failed reader.old ≡ false }
    requires can_write { write_failed writer.old ≡ false }
    ensures ends { Ends by_steps (R.remaining reader.old.inner.now) (R.remaining reader.new.inner.now)
        (progress (W.contents writer.old.inner.now) (console_of platform.old trace.old))
        (progress (W.contents writer.new.inner.now) (console_of platform.new trace.new)) result }
    ensures read_told { read_failed reader.new ≡ is_read result }
    ensures write_told { write_failed writer.new ≡ is_write result }
    ensures flushed { stops_at_a_read result ≡ true → is_flushed writer.new ≡ true }
    ensures same_reader { reader.new.inner.ghost_name ≡ reader.old.inner.ghost_name }
    ensures same_writer { writer.new.inner.ghost_name ≡ writer.old.inner.ghost_name }
{
    let mut console = Console::new(platform, trace);
    answer_all(&mut console, reader, writer)
}
