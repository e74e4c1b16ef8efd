//! The main theorem: what holds of an image and of a script from the state that it starts.
#![tactic(auto)]

ghost use Rattle.std.specs.Prelude.{◌≡◌, ◌≢◌, true, false, Ok, Err, IsOk, IfErr, IfOk};
ghost use Rattle.iom_image.specs.Image.{Image};
ghost use Rattle.iom_image.specs.Loading.{state_from};
ghost use Rattle.iom_image.specs.Reading.{image_of};
ghost use Rattle.iom_image.specs.declared.fault.LoadFault.TheVariants as fault;
ghost use Rattle.iom_tool.specs.Console.{console};
ghost use Rattle.iom_reader.specs.Running.{is_read, is_write, stops_at_a_read};
ghost use Rattle.iom_reader.specs.Watching.{read_failed, write_failed, is_flushed};
ghost use Rattle.iom_play.specs.Playing.{Plays};

use iom_core::Platform;
use iom_image::{LoadFault, load};
use iom_tool::{RunFault, Trace, WatchedReader, WatchedWriter, run_watched};
use std::alloc::Global;
use std::io::{Read, Write};

/// The bytes of answers that a program gathers before it writes them, unless it waits for more of the script before.
pub const WRITE_BLOCK: usize = 0x1_0000;

/// What a script leaves.
#[derive(Drop)]
pub struct Played {
    /// The platform after the last step that was done.
    pub platform: Platform,
    /// The last steps, with their answers.
    pub trace: Trace,
    /// How the run ended: that of `run_watched`.
    pub ended: Result<(), RunFault>,
}

/// Loads an image, and carries out the script that `reader` gives as `run` of `iom_tool` does: the answers go to `writer`.
///
/// This is the main theorem: for every image that is accepted and every script, however hart, commands and devices follow one
/// another, the answers, and afterwards memory, registers, caches, devices and disks, are those of the step table; and of the
/// steps that were done, and of each front of them, whatever a device asked is denied or has a warrant in past states, none of
/// whose moments lies before a full invalidation that is complete.
///
/// If the script isn't carried out to its end, the fault says why: `Read` only if a read failed, `Write` only if a write or a flush failed,
/// and else the script is too long. At its end, and if a read failed, all is flushed.
///
/// A refusal is that of `load`, or `OutOfMemory` if there is no memory for the trace; then nothing is read and nothing written.
pub fn play<R: Read, W: Write>(
    alloc: Global,
    image: &[u8],
    reader: &mut WatchedReader<'_, R>,
    writer: &mut WatchedWriter<'_, W>,
) -> Result<Played, LoadFault>
    requires can_read { read_failed reader.old ≡ false }
    requires can_write { write_failed writer.old ≡ false }
    ensures played { IfOk result (λ played. (found : Image) × (image_of image.now ≡ Ok found)
        × Plays (state_from found) (R.remaining reader.old.inner.now) (R.remaining reader.new.inner.now)
        (W.contents writer.old.inner.now) (W.contents writer.new.inner.now)
        (console played.platform played.trace) played.ended) }
    ensures read_told { IfOk result (λ played. read_failed reader.new ≡ is_read played.ended) }
    ensures write_told { IfOk result (λ played. write_failed writer.new ≡ is_write played.ended) }
    ensures flushed { IfOk result (λ played. stops_at_a_read played.ended ≡ true → is_flushed writer.new ≡ true) }
    ensures refused { IfErr result (λ e. e ≢ fault.OutOfMemory → image_of image.now ≡ Err e) }
    ensures memory { IfErr result (λ e. e ≡ fault.OutOfMemory → IsOk (image_of image.now)) }
    ensures unread { IfErr result (λ e. reader.new ≡ reader.old) }
    ensures unwritten { IfErr result (λ e. writer.new ≡ writer.old) }
    ensures same_reader { reader.new.inner.ghost_name ≡ reader.old.inner.ghost_name }
    ensures same_writer { writer.new.inner.ghost_name ≡ writer.old.inner.ghost_name }
{
    let mut platform = load(alloc, image)?;
    let Ok(mut trace) = Trace::new(alloc) else {
        return Err(LoadFault::OutOfMemory);
    };
    let ended = run_watched(&mut platform, &mut trace, reader, writer);
    Ok(Played {
        platform,
        trace,
        ended,
    })
}
