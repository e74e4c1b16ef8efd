//! The word `judge`, of a trace that may include texts.

ghost use Rattle.std.specs.Prelude.{◌≡◌, ◌≢◌, Err, IsOk, IfErr, IfOk};
ghost use Rattle.std.specs.Option.{option_map};
ghost use Rattle.iom_image.specs.Reading.{image_of};
ghost use Rattle.iom_image.specs.declared.fault.LoadFault.TheVariants as load_fault;
ghost use Rattle.iom_include.specs.Including.{standing};
ghost use Rattle.iom_include.specs.Reading.{remaining_of};
ghost use Rattle.iom_scripts.specs.Ending.{EndsJudge};
ghost use Rattle.iom_scripts.specs.Naming.{folder_name};
ghost use Rattle.iom_scripts.specs.Marking.{marked_texts};
ghost use Rattle.iom_scripts.specs.Scripts.{JudgesScript};
ghost use Rattle.iom_traces.specs.Drives.{tried_by};

use crate::checking::{CheckedScript, folder_name};
use crate::fault::ScriptFault;
use crate::marking::Marked;
use iom_check::{Rules, Scoring};
use iom_image::{LoadFault, load};
use iom_include::{Including, Texts};
use iom_judge::Judge;
use iom_reader::{WatchedReader, WatchedWriter};
use iom_traces::{Trial, judge_trace};
use std::alloc::Global;
use std::io::{Read, Write};

// Judges the lines of a trace.
fn judge_lines<T: Texts, R: Read, W: Write>(
    trial: &mut Trial<'_>,
    script: &mut Including<'_, '_, T, R>,
    output: &mut W,
) -> CheckedScript
    ensures { EndsJudge (tried_by trial.old) (remaining_of T.known R.remaining script.old) (W.contents output.old) (W.contents output.new)
        result.tally result.ended }
{
    let mut reader = WatchedReader::new(&mut *script);
    let mut writer = WatchedWriter::new(output);
    match judge_trace(trial, &mut reader, &mut writer) {
        Ok(tally) if trial.is_lost() => CheckedScript {
            tally,
            ended: Err(ScriptFault::OutOfMemory),
        },
        Ok(tally) => CheckedScript {
            tally,
            ended: Ok(()),
        },
        Err(fault) => CheckedScript {
            tally: trial.tally(),
            ended: Err(ScriptFault::of_run(fault, script.take_fault())),
        },
    }
}

/// Judges the trace that `input` gives, of an IOMMU in the platform that an image starts, and writes its reports to `output`: each line of which was
/// seen what no IOMMU could answer. If `hides`, the IOMMU may carry out commands before each step that the trace doesn't show. `name` is its file,
/// if it has one: its lines name texts from that file's folder. `points` is the number of test points before it. By the rules a note may fail, and
/// the reports have their style.
///
/// A refusal is that of the image, or `OutOfMemory`; then nothing is read and nothing written.
pub fn judge_script<T: Texts, R: Read, W: Write>(
    alloc: Global,
    image: &[u8],
    texts: &T,
    rules: Rules,
    hides: bool,
    name: Option<&str>,
    points: u64,
    input: &mut R,
    output: &mut W,
) -> Result<CheckedScript, LoadFault>
    ensures judged { IfOk result (λ done. JudgesScript image.now rules hides (option_map (λ name. name.now) name.entry) points
        (standing (marked_texts (T.known texts.now)) (R.remaining input.old) (folder_name (option_map (λ name. name.now) name.entry)))
        (W.contents output.old) (W.contents output.new) done.tally done.ended) }
    ensures refused { IfErr result (λ e. e ≢ load_fault.OutOfMemory → image_of image.now ≡ Err e) }
    ensures memory { IfErr result (λ e. e ≡ load_fault.OutOfMemory → IsOk (image_of image.now)) }
    ensures unread { IfErr result (λ e. input.new ≡ input.old) }
    ensures unwritten { IfErr result (λ e. output.new ≡ output.old) }
{
    let platform = load(alloc, image)?;
    let Ok(judge) = Judge::new(alloc, platform) else {
        return Err(LoadFault::OutOfMemory);
    };
    let own = folder_name(name);
    let marked = Marked::new(texts);
    let mut script = Including::new(alloc, &marked, own, input);
    let mut trial = Trial::new(alloc, judge, hides, Scoring::new(rules, name, points));
    Ok(judge_lines(&mut trial, &mut script, output))
}
