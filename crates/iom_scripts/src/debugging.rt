//! The word `debug`, of a script that may include texts.

ghost use Rattle.std.specs.Prelude.{◌≡◌, ◌≢◌, Err, IsOk, IfErr, IfOk};
ghost use Rattle.iom_image.specs.Reading.{image_of};
ghost use Rattle.iom_image.specs.declared.fault.LoadFault.TheVariants as load_fault;
ghost use Rattle.iom_include.specs.Including.{standing};
ghost use Rattle.iom_include.specs.Reading.{remaining_of};
ghost use Rattle.iom_debug.specs.Desks.{desk_of};
ghost use Rattle.iom_scripts.specs.Ending.{EndsDebug};
ghost use Rattle.iom_scripts.specs.Marking.{marked_texts};
ghost use Rattle.iom_scripts.specs.Scripts.{DebugsScript};

use crate::beginning::account;
use crate::fault::ScriptFault;
use crate::marking::Marked;
use iom_debug::{Debugger, Debugging, debug};
use iom_image::{LoadFault, load};
use iom_include::{Including, Texts};
use iom_reader::{WatchedReader, WatchedWriter};
use iom_tool::Trace;
use std::alloc::Global;
use std::io::{Read, Write};

// Answers the lines of a script.
fn debug_lines<T: Texts, R: Read, W: Write>(
    debugging: &mut Debugging<'_>,
    script: &mut Including<'_, '_, T, R>,
    output: &mut W,
) -> Result<(), ScriptFault>
    ensures { EndsDebug (record { desk = desk_of debugging.old.debugger; number = debugging.old.number; tells_slips = debugging.old.tells_slips })
        (remaining_of T.known R.remaining script.old) (W.contents output.old) (W.contents output.new) result }
{
    let mut reader = WatchedReader::new(&mut *script);
    let mut writer = WatchedWriter::new(output);
    match debug(debugging, &mut reader, &mut writer) {
        Ok(()) if debugging.debugger.marks.is_lost() => Err(ScriptFault::OutOfMemory),
        Ok(()) => Ok(()),
        Err(fault) => Err(ScriptFault::of_run(fault, script.take_fault())),
    }
}

/// Answers the script that `input` gives, on the platform that an image starts. `name` is its file; if it has none, empty. Its lines name
/// texts from that file's folder. Behind `bad` it says why, if `tells_slips`.
///
/// A refusal is that of the image, or `OutOfMemory`; then nothing is read and nothing written.
pub fn debug_script<T: Texts, R: Read, W: Write>(
    alloc: Global,
    image: &[u8],
    texts: &T,
    name: &str,
    tells_slips: bool,
    input: &mut R,
    output: &mut W,
) -> Result<Result<(), ScriptFault>, LoadFault>
    ensures debugged { IfOk result (λ ended. DebugsScript image.now tells_slips (standing (marked_texts (T.known texts.now)) (R.remaining input.old) name.now)
        (W.contents output.old) (W.contents output.new) ended) }
    ensures refused { IfErr result (λ e. e ≢ load_fault.OutOfMemory → image_of image.now ≡ Err e) }
    ensures memory { IfErr result (λ e. e ≡ load_fault.OutOfMemory → IsOk (image_of image.now)) }
    ensures unread { IfErr result (λ e. input.new ≡ input.old) }
    ensures unwritten { IfErr result (λ e. output.new ≡ output.old) }
{
    let mut platform = load(alloc, image)?;
    let Ok(mut trace) = Trace::new(alloc) else {
        return Err(LoadFault::OutOfMemory);
    };
    let mut reasons = account(&platform, alloc, true);
    let debugger = Debugger::new(alloc, &mut platform, &mut trace, &mut reasons);
    let marked = Marked::new(texts);
    let mut script = Including::new(alloc, &marked, name, input);
    let mut debugging = Debugging::new(debugger, tells_slips);
    Ok(debug_lines(&mut debugging, &mut script, output))
}
