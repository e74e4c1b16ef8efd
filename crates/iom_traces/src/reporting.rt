//! The reports of lines.

ghost use Rattle.iom_tool.specs.Room.{answer_room};
ghost use Rattle.std.specs.Prelude.{◌≡◌, ◌≤◌, codes, length, IfSome, Some, if◌then◌else◌};
ghost use Rattle.std.specs.Option.{option_map};
ghost use Rattle.iom_check.specs.Judging.{title};
ghost use Rattle.iom_check.specs.Scores.{score_of};
ghost use Rattle.iom_check.specs.Scoring.{failed};
ghost use Rattle.iom_check.specs.Wanted.{wanted};
ghost use Rattle.iom_debug.specs.Placed.{placed};
ghost use Rattle.iom_traces.specs.Reports.{IsPut};
ghost use Rattle.iom_traces.specs.Texts.{bad_message, refused_message, unclear_message, undecided_message};
ghost use Rattle.iom_traces.specs.Trials.{sight_told, steps_told, stray_told};

use crate::sights::Sight;
use crate::texts::{bad_message, refused_message, unclear_message, undecided_message};
use iom_check::{Scoring, title};
use iom_debug::Place;
use iom_judge::{Possible, Verdict};

// A step's line isn't decided.
fn tell_undecided(scoring: &mut Scoring<'_>, place: &Place, line: &[u8])
    requires line { length line.now ≤ 513 }
    requires empty { length scoring.old.page.items ≡ 0 }
    ensures { IsPut (failed (score_of scoring.old) (placed place.now) (title line.now) (undecided_message line.now)) scoring.new }
{
    scoring.fail(
        place,
        title(line).as_slice(),
        undecided_message(line).as_slice(),
    );
}

// What was seen of a line can't be read.
fn tell_unclear(scoring: &mut Scoring<'_>, place: &Place, line: &[u8], wish: &[u8])
    requires line { length line.now ≤ 513 }
    requires wish { length wish.now ≤ 513 }
    requires empty { length scoring.old.page.items ≡ 0 }
    ensures { IsPut (failed (score_of scoring.old) (placed place.now) (title line.now) (unclear_message line.now wish.now)) scoring.new }
{
    scoring.fail(
        place,
        title(line).as_slice(),
        unclear_message(line, wish).as_slice(),
    );
}

// No IOMMU could answer so.
fn tell_refused(
    scoring: &mut Scoring<'_>,
    place: &Place,
    line: &[u8],
    wish: &[u8],
    allowed: &[Possible],
)
    requires line { length line.now ≤ 513 }
    requires wish { length wish.now ≤ 513 }
    requires empty { length scoring.old.page.items ≡ 0 }
    ensures { IsPut (failed (score_of scoring.old) (placed place.now) (title line.now) (refused_message line.now wish.now allowed.now)) scoring.new }
{
    scoring.fail(
        place,
        title(line).as_slice(),
        refused_message(line, wish, allowed).as_slice(),
    );
}

// Reports the line of a step where something was said of what was seen, and the step is decided.
fn tell_decided(
    scoring: &mut Scoring<'_>,
    place: &Place,
    line: &[u8],
    wish: &[u8],
    sight: &Sight,
    is_allowed: bool,
    allowed: &[Possible],
)
    requires line { length line.now ≤ 513 }
    requires wish { length wish.now ≤ 513 }
    requires empty { length scoring.old.page.items ≡ 0 }
    ensures { IsPut (sight_told (score_of scoring.old) (placed place.now) line.now (Some wish.now) sight.now (if is_allowed then Verdict.Allowed else Verdict.Refused) allowed.now) scoring.new }
{
    if matches!(sight, Sight::Unclear) {
        tell_unclear(scoring, place, line, wish);
    } else if is_allowed {
        scoring.pass_line(place, line);
    } else {
        tell_refused(scoring, place, line, wish, allowed);
    }
}

/// Reports the line of a step with this wish, of which this was seen, by its verdict; `allowed` is what a refused one could have answered.
pub fn tell_step(
    scoring: &mut Scoring<'_>,
    place: &Place,
    line: &[u8],
    wish: Option<&[u8]>,
    sight: &Sight,
    verdict: Verdict,
    allowed: &[Possible],
)
    requires line { length line.now ≤ 513 }
    requires wish { IfSome wish (λ wish. length wish.now ≤ 513) }
    requires empty { length scoring.old.page.items ≡ 0 }
    ensures { IsPut (sight_told (score_of scoring.old) (placed place.now) line.now (option_map (λ wish. wish.now) wish.entry) sight.now verdict allowed.now) scoring.new }
{
    match (verdict, wish) {
        (Verdict::Undecided, _) => tell_undecided(scoring, place, line),
        (_, None) => {}
        (Verdict::Allowed, Some(wish)) => {
            tell_decided(scoring, place, line, wish, sight, true, allowed)
        }
        (Verdict::Refused, Some(wish)) => {
            tell_decided(scoring, place, line, wish, sight, false, allowed)
        }
    }
}

/// Notes what was seen of a line that isn't one step.
pub fn tell_stray(scoring: &mut Scoring<'_>, place: &Place, wish: Option<&[u8]>)
    requires empty { length scoring.old.page.items ≡ 0 }
    ensures { IsPut (stray_told (score_of scoring.old) (placed place.now) (option_map (λ wish. wish.now) wish.entry)) scoring.new }
{
    match wish {
        Some(_) => scoring.note(place, b"what was seen is on a line that isn't one step"),
        None => {}
    }
}

/// Reports a line of several steps, which are decided or not.
pub fn tell_steps(
    scoring: &mut Scoring<'_>,
    place: &Place,
    line: &[u8],
    wish: Option<&[u8]>,
    decided: bool,
)
    requires line { length line.now ≤ 513 }
    requires wish { option_map (λ wish. wish.now) wish ≡ wanted line.now }
    requires empty { length scoring.old.page.items ≡ 0 }
    ensures { IsPut (steps_told (score_of scoring.old) (placed place.now) line.now decided) scoring.new }
{
    if decided {
        tell_stray(scoring, place, wish);
    } else {
        tell_undecided(scoring, place, line);
    }
}

/// Reports a line that can't be read, for this reason.
pub fn tell_bad(scoring: &mut Scoring<'_>, place: &Place, line: &[u8], slip: &[u8])
    requires line { length line.now ≤ 513 }
    requires slip { length slip.now ≤ answer_room }
    requires empty { length scoring.old.page.items ≡ 0 }
    ensures { IsPut (failed (score_of scoring.old) (placed place.now) (title line.now) (bad_message line.now slip.now)) scoring.new }
{
    scoring.fail(
        place,
        title(line).as_slice(),
        bad_message(line, slip).as_slice(),
    );
}
