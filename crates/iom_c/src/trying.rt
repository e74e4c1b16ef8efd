//! A judge of another IOMMU's answers, which is told the lines of a trace one after the other.

ghost use Rattle.std.specs.Prelude.{◌≡◌, ◌≤◌, length, true, IfOk, IsSomeAnd, None, Some};
ghost use Rattle.iom_check.specs.Scores.{begun as score_begun};
ghost use Rattle.iom_traces.specs.Drives.{begun, tried_by};
ghost use Rattle.iom_c.specs.Faults.{refused, status_other_memory};
ghost use Rattle.iom_c.specs.Handles.{OfOwn};
ghost use Rattle.iom_c.specs.Trials.{IsLineJudged, IsNumbered, IsReadable, JudgesFrom, JudgesLine, StartsJudge, trial_rules};
ghost use Rattle.iom_c.specs.declared.owned.Owned.{Owned};
ghost use Rattle.iom_c.specs.declared.trying.OwnedTrial.{OwnedTrial};

use crate::handle::Handle;
use crate::held::Held;
use crate::judge_handle::JudgeHandle;
use crate::texts::put_cut;
use iom_check::{Rules, Scoring, Style, wish_of};
use iom_core::Platform;
use iom_debug::first_bytes;
use iom_judge::Judge;
use iom_names::Names;
use iom_tool::Line;
use iom_traces::{Sight, Trial, sight_of};
use std::alloc::{AllocError, Global};

/// What an open judge owns.
#[derive(Drop)]
pub struct OwnedTrial {
    /// The lines by now.
    pub trial: Trial<'static>,
    /// The names that they gave numbers; the trial doesn't show its own.
    pub names: Names,
}

// Lines are reported as text; what was seen of a line that isn't one step fails.
fn trial_rules() -> Rules
    ensures { result ≡ trial_rules }
{
    Rules {
        fails_if_stale: false,
        looks_at_fences: false,
        fails_if_unsettled: false,
        is_strict: true,
        style: Style::Text,
    }
}

// A trial of no line yet, by a judge.
fn trial_of(alloc: Global, judge: Judge, hides: bool) -> Trial<'static>
    ensures { tried_by result ≡ begun judge hides (score_begun trial_rules None 0) }
{
    let scoring = Scoring::new(trial_rules(), None, 0);
    Trial::new(alloc, judge, hides, scoring)
}

// A judge of an IOMMU in a platform like this one, before the first line.
fn begun(alloc: Global, platform: &Platform, hides: bool) -> Result<Box<OwnedTrial>, AllocError>
    ensures { IfOk result (λ own. JudgesFrom platform.now hides own.value) }
{
    let judge = Judge::new(alloc, platform.try_clone(alloc)?)?;
    Ok(Box::new(
        alloc,
        OwnedTrial {
            trial: trial_of(alloc, judge, hides),
            names: Names::new(),
        },
    )?)
}

// Opens a closed judge of an IOMMU in a platform like this one.
fn open(alloc: Global, held: &Held, hides: bool, judge: &mut JudgeHandle) -> u32
    requires closed { judge.old.held ≡ None }
    ensures { OfOwn held.now (λ platform. StartsJudge platform hides result judge.new.held)
        ((result ≡ status_other_memory) × (judge.new.held ≡ None)) }
{
    *judge = JudgeHandle::closed(alloc);
    let Held::Own(platform) = held else {
        return 15;
    };
    let Ok(own) = begun(alloc, platform, hides) else {
        return 7;
    };
    *judge = JudgeHandle::of(own);
    0
}

/// Opens a judge of an IOMMU that begins in a platform equal to the handle's, with nothing held in its caches: what this platform has cached doesn't
/// count. If `hides`, it may carry out commands before each line that nobody saw. It answers 0; 7 if there is no memory for it; or 15 if the memory
/// isn't the platform's own. The judge is closed then.
#[unsafe(no_mangle)]
pub extern "C" fn rviommu_judge_open(
    alloc: Global,
    handle: &mut Handle,
    hides: bool,
    judge: &mut JudgeHandle,
) -> u32
    ghost own: { Owned }
    requires open { handle.old.held ≡ Some own }
    requires closed { judge.old.held ≡ None }
    ensures judge { OfOwn own.held (λ platform. StartsJudge platform hides result judge.new.held)
        ((result ≡ status_other_memory) × (judge.new.held ≡ None)) }
    ensures same { handle.new.held ≡ Some own }
{
    let owned = handle.take(alloc);
    let told = open(alloc, &owned.held, hides, judge);
    *handle = Handle::of(owned);
    told
}

// Whether a line that says this is one step, and its comment says what was seen.
fn is_readable(read: &Line, line: &[u8]) -> bool
    ensures { result ≡ true → IsReadable line.now }
{
    matches!(read, Line::Does(_) | Line::Named(_))
        && matches!(sight_of(wish_of(line)), Sight::Saw(_))
}

// The number of the last line. `was_over`: no line was judged any more before it; `is_readable`: it is one step, and its comment can be read.
fn number_of(trial: &Trial<'_>, was_over: bool, is_readable: bool) -> u32
    ensures number { IsNumbered trial.now.judging.is_lost was_over trial.now.judging.is_over trial.now.judging.scoring.page.items result }
    ensures refused { result ≡ refused → is_readable ≡ true }
{
    if trial.is_lost() {
        7
    } else if was_over {
        24
    } else if trial.judging.is_over {
        23
    } else if trial.judging.scoring.page.is_empty() {
        0
    } else if is_readable {
        22
    } else {
        8
    }
}

// Judges a line, and answers its number.
fn judge_line(own: &mut OwnedTrial, line: &[u8]) -> u32
    requires { length line.now ≤ 513 }
    ensures { IsLineJudged (tried_by own.old.trial) line.now own.new.trial.judging.scoring.page.items (tried_by own.new.trial) result }
{
    let was_over = own.trial.judging.is_over;
    let read = own.names.read(line);
    own.trial.line(line);
    number_of(&own.trial, was_over, is_readable(&read, line))
}

/// Judges a line of a trace, given without its line end: one event, with what was seen of it in its comment, as `dma read 5 0x1000 4 # => 11223344 at
/// 0x80010000`. Puts its report, as the word `judge` writes it with `--strict`, cut where there is no room, with a 0 behind it if there is any, and in
/// `count` how many bytes the whole report has. It answers 0 if some IOMMU could answer so, or nothing was seen, and there is no report; 22 if none
/// could; 8 if the line can't be read, or what was seen; 23 if it isn't decided; 24 if one before wasn't, and nothing is judged any more; or 7 if memory
/// was refused for this line or for one before.
#[unsafe(no_mangle)]
pub extern "C" fn rviommu_judge_line(
    alloc: Global,
    judge: &mut JudgeHandle,
    line: &[u8],
    report: &mut [u8],
    count: &mut usize,
) -> u32
    ghost own: { OwnedTrial }
    requires open { judge.old.held ≡ Some own }
    ensures { IsSomeAnd judge.new.held (λ after. JudgesLine own line.now after result report.old report.new count.new) }
{
    let mut owned = judge.take(alloc);
    let told = judge_line(&mut owned, first_bytes(line));
    put_cut(owned.trial.judging.scoring.page.as_slice(), report, count);
    *judge = JudgeHandle::of(owned);
    told
}

/// Closes an open judge, and gives its memory back.
#[unsafe(no_mangle)]
pub extern "C" fn rviommu_judge_close(alloc: Global, judge: &mut JudgeHandle)
    ghost own: { OwnedTrial }
    requires open { judge.old.held ≡ Some own }
    ensures { judge.new.held ≡ None }
{
    drop(judge.take(alloc));
}
