//! The word `check`, of a script that may include texts.

ghost use Rattle.std.specs.Prelude.{◌≡◌, ◌≢◌, Err, IsOk, IfErr, IfOk};
ghost use Rattle.std.specs.Option.{option_map};
ghost use Rattle.iom_image.specs.Reading.{image_of};
ghost use Rattle.iom_image.specs.declared.fault.LoadFault.TheVariants as load_fault;
ghost use Rattle.iom_include.specs.Including.{standing};
ghost use Rattle.iom_include.specs.Reading.{remaining_of};
ghost use Rattle.iom_check.specs.Drives.{checked_by};
ghost use Rattle.iom_scripts.specs.Ending.{EndsCheck};
ghost use Rattle.iom_scripts.specs.Naming.{folder_name};
ghost use Rattle.iom_scripts.specs.Marking.{marked_texts};
ghost use Rattle.iom_scripts.specs.Scripts.{ChecksScript};

use crate::beginning::account_ahead;
use crate::fault::ScriptFault;
use crate::marking::Marked;
use iom_check::{Checking, Rules, Tally, check};
use iom_core::Request;
use iom_debug::Debugger;
use iom_image::{LoadFault, load};
use iom_include::{Including, Texts};
use iom_reader::{WatchedReader, WatchedWriter};
use iom_tool::Trace;
use std::alloc::Global;
use std::io::{Read, Write};

/// What a script of `check` came to.
#[derive(Drop)]
pub struct CheckedScript {
    /// How many test points passed, and how many failed.
    pub tally: Tally,
    /// Why it wasn't checked to its end.
    pub ended: Result<(), ScriptFault>,
}

/// The name from whose folder the script of this file names texts.
pub(crate) fn folder_name<'n>(name: Option<&'n str>) -> &'n str
    ensures { result.now ≡ folder_name (option_map (λ name. name.now) name.entry) }
{
    match name {
        Some(name) => name,
        None => "",
    }
}

// Checks the lines of a script.
fn check_lines<T: Texts, R: Read, W: Write>(
    checking: &mut Checking<'_>,
    script: &mut Including<'_, '_, T, R>,
    output: &mut W,
) -> CheckedScript
    ensures { EndsCheck (checked_by checking.old) (remaining_of T.known R.remaining script.old) (W.contents output.old) (W.contents output.new)
        result.tally result.ended }
{
    let mut reader = WatchedReader::new(&mut *script);
    let mut writer = WatchedWriter::new(output);
    match check(checking, &mut reader, &mut writer) {
        Ok(tally) if checking.is_lost() => CheckedScript {
            tally,
            ended: Err(ScriptFault::OutOfMemory),
        },
        Ok(tally) => CheckedScript {
            tally,
            ended: Ok(()),
        },
        Err(fault) => CheckedScript {
            tally: checking.tally(),
            ended: Err(ScriptFault::of_run(fault, script.take_fault())),
        },
    }
}

/// Checks the script that `input` gives, on the platform that an image starts, by these rules, and writes its reports to `output`. `name` is
/// its file, if it has one: its lines name texts from that file's folder. `points` is the number of test points before it. If settledness is judged,
/// an IOMMU may also read the requests of `ahead`, at any moment between two steps.
///
/// A refusal is that of the image, or `OutOfMemory`; then nothing is read and nothing written.
pub fn check_script<T: Texts, R: Read, W: Write>(
    alloc: Global,
    image: &[u8],
    texts: &T,
    rules: Rules,
    name: Option<&str>,
    points: u64,
    ahead: Vec<Request>,
    input: &mut R,
    output: &mut W,
) -> Result<CheckedScript, LoadFault>
    ensures checked { IfOk result (λ done. ChecksScript image.now ahead.items rules (option_map (λ name. name.now) name.entry) points
        (standing (marked_texts (T.known texts.now)) (R.remaining input.old) (folder_name (option_map (λ name. name.now) name.entry)))
        (W.contents output.old) (W.contents output.new) done.tally done.ended) }
    ensures refused { IfErr result (λ e. e ≢ load_fault.OutOfMemory → image_of image.now ≡ Err e) }
    ensures memory { IfErr result (λ e. e ≡ load_fault.OutOfMemory → IsOk (image_of image.now)) }
    ensures unread { IfErr result (λ e. input.new ≡ input.old) }
    ensures unwritten { IfErr result (λ e. output.new ≡ output.old) }
{
    let mut platform = load(alloc, image)?;
    let Ok(mut trace) = Trace::new(alloc) else {
        return Err(LoadFault::OutOfMemory);
    };
    let mut reasons = account_ahead(&platform, alloc, rules.fails_if_unsettled, ahead);
    let debugger = Debugger::new(alloc, &mut platform, &mut trace, &mut reasons);
    let own = folder_name(name);
    let marked = Marked::new(texts);
    let mut script = Including::new(alloc, &marked, own, input);
    let mut checking = Checking::new(debugger, rules, name, points);
    Ok(check_lines(&mut checking, &mut script, output))
}
