//! What is judged of the lines of a trace.

use crate::reporting::{tell_bad, tell_step, tell_steps, tell_stray};
use crate::rulings::{is_decided, rule_again, rule_sight, rule_stores};
use crate::sights::sight_of;
use iom_check::{Scoring, wish_of};
use iom_core::Step;
use iom_debug::Place;
use iom_judge::{Judge, Possible};
use iom_tool::{Actor, Line};
use std::alloc::AllocError;

/// What an IOMMU may be by the lines of a trace, and how these were told.
#[derive(Drop)]
pub struct Judging<'a> {
    /// What it may be.
    pub judge: Judge,
    /// The score, and the report of the last line.
    pub scoring: Scoring<'a>,
    /// Whether commands may be carried out before a step that nobody saw.
    pub hides: bool,
    /// Whether a step wasn't decided: then no more is judged.
    pub is_over: bool,
    /// Whether memory was refused: nor then.
    pub is_lost: bool,
    // what is allowed in place of what was seen
    pub(crate) allowed: Vec<Possible>,
}

impl Judging<'_> {
    ghost use Rattle.iom_tool.specs.Parsed.{Fits, line_as, step_of};
    ghost use Rattle.iom_tool.specs.Room.{answer_room};
    ghost use Rattle.iom_tool.specs.Script.{stores_at};
    ghost use Rattle.std.specs.Prelude.{◌≡◌, ◌+◌, ◌*◌, ◌^◌, ◌≤◌, ◌||◌, false, length, replicate, IfSome, OnOk};
    ghost use Rattle.std.specs.Option.{option_map};
    ghost use Rattle.iom_check.specs.Wanted.{wanted};
    ghost use Rattle.iom_debug.specs.Placed.{placed};
    ghost use Rattle.iom_names.specs.Reading.{is_bad};
    ghost use Rattle.iom_traces.specs.Drives.{judged_by};
    ghost use Rattle.iom_traces.specs.Trials.{IfJudged, LineSays, StepSays, StepsSay};

    // Judges the line of a step.
    fn judge_step(
        &mut self,
        place: &Place,
        line: &[u8],
        wish: Option<&[u8]>,
        step: &Step,
    ) -> Result<(), AllocError>
        requires line { length line.now ≤ 513 }
        requires wish { option_map (λ wish. wish.now) wish ≡ wanted line.now }
        requires short { IfSome wish (λ wish. length wish.now ≤ 513) }
        requires empty { length self.old.scoring.page.items ≡ 0 }
        ensures says { OnOk result (StepSays self.old.hides (placed place.now) (judged_by self.old) step.now line.now self.new.scoring.page.items
            (judged_by self.new)) }
        ensures hides { self.new.hides ≡ self.old.hides }
        ensures lost { self.new.is_lost ≡ self.old.is_lost }
    {
        let sight = sight_of(wish);
        let verdict = rule_sight(&mut self.judge, self.hides, step, &sight, &mut self.allowed)?;
        self.is_over = !is_decided(verdict);
        let allowed = &self.allowed;
        tell_step(
            &mut self.scoring,
            place,
            line,
            wish,
            &sight,
            verdict,
            allowed,
        );
        Ok(())
    }

    // Judges the line of one that goes on by itself.
    fn judge_again(
        &mut self,
        place: &Place,
        line: &[u8],
        wish: Option<&[u8]>,
        actor: Actor,
        most: u64,
    ) -> Result<(), AllocError>
        requires line { length line.now ≤ 513 }
        requires wish { option_map (λ wish. wish.now) wish ≡ wanted line.now }
        requires empty { length self.old.scoring.page.items ≡ 0 }
        ensures says { OnOk result (StepsSay self.old.hides (placed place.now) (judged_by self.old) (replicate most (step_of actor)) line.now
            self.new.scoring.page.items (judged_by self.new)) }
        ensures hides { self.new.hides ≡ self.old.hides }
        ensures lost { self.new.is_lost ≡ self.old.is_lost }
    {
        let decided = rule_again(&mut self.judge, self.hides, actor, most)?;
        self.is_over = !decided;
        tell_steps(&mut self.scoring, place, line, wish, decided);
        Ok(())
    }

    // Judges the line of stores.
    fn judge_stores(
        &mut self,
        place: &Place,
        line: &[u8],
        wish: Option<&[u8]>,
        addr: u64,
        words: &[u64],
    ) -> Result<(), AllocError>
        requires line { length line.now ≤ 513 }
        requires wish { option_map (λ wish. wish.now) wish ≡ wanted line.now }
        requires empty { length self.old.scoring.page.items ≡ 0 }
        requires end { addr + 8 * length words.now ≤ 2 ^ 64 }
        ensures says { OnOk result (StepsSay self.old.hides (placed place.now) (judged_by self.old) (stores_at addr words.now) line.now
            self.new.scoring.page.items (judged_by self.new)) }
        ensures hides { self.new.hides ≡ self.old.hides }
        ensures lost { self.new.is_lost ≡ self.old.is_lost }
    {
        let decided = rule_stores(&mut self.judge, self.hides, addr, words)?;
        self.is_over = !decided;
        tell_steps(&mut self.scoring, place, line, wish, decided);
        Ok(())
    }

    // Judges what a line says; the slip is why it can't be read, if it can't.
    fn judge_kind(
        &mut self,
        place: &Place,
        line: &[u8],
        wish: Option<&[u8]>,
        read: &Line,
        slip: &[u8],
    ) -> Result<(), AllocError>
        requires line { length line.now ≤ 513 }
        requires wish { option_map (λ wish. wish.now) wish ≡ wanted line.now }
        requires short { IfSome wish (λ wish. length wish.now ≤ 513) }
        requires slip { length slip.now ≤ answer_room }
        requires fits { Fits read.now }
        requires empty { length self.old.scoring.page.items ≡ 0 }
        requires goes_on { self.old.is_over ≡ false }
        ensures says { OnOk result (LineSays self.old.hides (placed place.now) slip.now (judged_by self.old) (line_as read.now) line.now
            self.new.scoring.page.items (judged_by self.new)) }
        ensures hides { self.new.hides ≡ self.old.hides }
        ensures lost { self.new.is_lost ≡ self.old.is_lost }
    {
        match read {
            Line::Bad => tell_bad(&mut self.scoring, place, line, slip),
            Line::Blank | Line::Asks(_) | Line::Inquires(_) => {
                tell_stray(&mut self.scoring, place, wish)
            }
            Line::Does(step) | Line::Named(step) => {
                return self.judge_step(place, line, wish, step);
            }
            Line::Again(actor, most) => {
                return self.judge_again(place, line, wish, *actor, *most);
            }
            Line::Put(addr, words) => {
                return self.judge_stores(place, line, wish, *addr, words.as_slice());
            }
        }
        Ok(())
    }

    /// Judges a line, given without its line end, which stands at `place` and says this, and puts its report on the page. The slip is why it can't be
    /// read, if it can't. Where memory is refused, `is_lost` says so, and nothing is known of the page. Behind a step that isn't decided nothing is
    /// judged, nor where memory was refused.
    pub fn judge_line(&mut self, place: &Place, line: &[u8], read: &Line, slip: &[u8])
        requires line { length line.now ≤ 513 }
        requires slip { length slip.now ≤ answer_room }
        requires fits { Fits read.now }
        ensures judged { IfJudged (self.old.is_over || self.old.is_lost) self.old.hides (placed place.now) slip.now (judged_by self.old)
            (line_as read.now) line.now self.new.scoring.page.items (judged_by self.new) }
        ensures hides { self.new.hides ≡ self.old.hides }
    {
        self.scoring.page.clear();
        if self.is_over || self.is_lost {
            return;
        }
        let wish = wish_of(line);
        self.scoring.has_wish = self.scoring.has_wish || wish.is_some();
        if self.judge_kind(place, line, wish, read, slip).is_err() {
            self.is_lost = true;
        }
    }
}
