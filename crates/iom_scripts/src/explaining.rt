//! The word `explain`, of a script that may include texts.

ghost use Rattle.std.specs.Prelude.{◌≡◌, ◌≢◌, Err, IsOk, IfErr, IfOk};
ghost use Rattle.iom_image.specs.Reading.{image_of};
ghost use Rattle.iom_image.specs.declared.fault.LoadFault.TheVariants as load_fault;
ghost use Rattle.iom_include.specs.Including.{standing};
ghost use Rattle.iom_include.specs.Reading.{remaining_of};
ghost use Rattle.iom_explain.specs.Drives.{progressed};
ghost use Rattle.iom_scripts.specs.Ending.{EndsExplain};
ghost use Rattle.iom_scripts.specs.Marking.{marked_texts};
ghost use Rattle.iom_scripts.specs.Scripts.{ExplainsScript};

use crate::beginning::account;
use crate::fault::ScriptFault;
use crate::marking::Marked;
use iom_debug::Debugger;
use iom_explain::{Explaining, Only, explain};
use iom_image::{LoadFault, load};
use iom_include::{Including, Texts};
use iom_reader::{WatchedReader, WatchedWriter};
use iom_tool::Trace;
use std::alloc::Global;
use std::io::{Read, Write};

// Explains the lines of a script.
fn explain_lines<T: Texts, R: Read, W: Write>(
    explaining: &mut Explaining<'_>,
    script: &mut Including<'_, '_, T, R>,
    output: &mut W,
) -> Result<(), ScriptFault>
    ensures { EndsExplain (progressed explaining.old) (remaining_of T.known R.remaining script.old) (W.contents output.old) (W.contents output.new)
        result }
{
    let mut reader = WatchedReader::new(&mut *script);
    let mut writer = WatchedWriter::new(output);
    match explain(explaining, &mut reader, &mut writer) {
        Ok(true) => Ok(()),
        Ok(false) => Err(ScriptFault::OutOfMemory),
        Err(fault) => Err(ScriptFault::of_run(fault, script.take_fault())),
    }
}

/// Explains the script that `input` gives, on the platform that an image starts. `name` is its file; if it has none, empty. Its lines name
/// texts from that file's folder. If `only` is some, the output has the accesses that it names alone, and the summary; with `tells_settled`
/// also which accesses weren't settled.
///
/// A refusal is that of the image, or `OutOfMemory`; then nothing is read and nothing written.
pub fn explain_script<T: Texts, R: Read, W: Write>(
    alloc: Global,
    image: &[u8],
    texts: &T,
    name: &str,
    only: Option<Only>,
    tells_settled: bool,
    input: &mut R,
    output: &mut W,
) -> Result<Result<(), ScriptFault>, LoadFault>
    ensures explained { IfOk result (λ ended. ExplainsScript image.now only tells_settled
        (standing (marked_texts (T.known texts.now)) (R.remaining input.old) name.now) (W.contents output.old) (W.contents output.new) ended) }
    ensures refused { IfErr result (λ e. e ≢ load_fault.OutOfMemory → image_of image.now ≡ Err e) }
    ensures memory { IfErr result (λ e. e ≡ load_fault.OutOfMemory → IsOk (image_of image.now)) }
    ensures unread { IfErr result (λ e. input.new ≡ input.old) }
    ensures unwritten { IfErr result (λ e. output.new ≡ output.old) }
{
    let mut platform = load(alloc, image)?;
    let Ok(mut trace) = Trace::new(alloc) else {
        return Err(LoadFault::OutOfMemory);
    };
    let mut reasons = account(&platform, alloc, tells_settled);
    let debugger = Debugger::new(alloc, &mut platform, &mut trace, &mut reasons);
    let Ok(mut explaining) = Explaining::new(alloc, debugger, only) else {
        return Err(LoadFault::OutOfMemory);
    };
    let marked = Marked::new(texts);
    let mut script = Including::new(alloc, &marked, name, input);
    Ok(explain_lines(&mut explaining, &mut script, output))
}
