//! What a judge says of the steps of lines.

ghost use Rattle.std.specs.Prelude.{◌≡◌, ◌+◌, ◌*◌, ◌^◌, ◌≤◌, [], length, replicate, true, IfOk};
ghost use Rattle.iom_tool.specs.Parsed.{step_of};
ghost use Rattle.iom_tool.specs.Script.{stores_at};
ghost use Rattle.iom_traces.specs.Rulings.{AreRuled, CouldBe, Hides, IsAnswered, IsFollowed, IsPassed, IsRuled, any_done, is_decided};
ghost use Rattle.iom_traces.specs.Sights.{seen_by};

use crate::sights::Sight;
use iom_core::Step;
use iom_debug::{is_done, step_by};
use iom_judge::{Candidate, Judge, Possible, Seen, Verdict};
use iom_tool::Actor;
use std::alloc::AllocError;

// Allows for commands that nobody saw, if they are hidden. Returns false if there would be too many candidates.
fn hide(judge: &mut Judge, hides: bool) -> Result<bool, AllocError>
    ensures { IfOk result (λ few. Hides hides judge.old few judge.new) }
{
    if !hides {
        return Ok(true);
    }
    judge.take_unseen(&Step::Command)
}

// Judges a step of which this was seen, behind commands that nobody saw if they are hidden.
fn rule(judge: &mut Judge, hides: bool, step: &Step, seen: &Seen) -> Result<Verdict, AllocError>
    ensures { IfOk result (λ verdict. IsRuled hides judge.old step.now seen.now verdict judge.new) }
{
    if hide(judge, hides)? {
        judge.follow(step, seen)
    } else {
        Ok(Verdict::Undecided)
    }
}

// Judges a step of which this was seen; if it is refused, `allowed` is then what could be.
fn follow(
    judge: &mut Judge,
    step: &Step,
    seen: &Seen,
    allowed: &mut Vec<Possible>,
) -> Result<Verdict, AllocError>
    ensures followed { IfOk result (λ verdict. IsFollowed judge.old step.now seen.now verdict judge.new) }
    ensures could { IfOk result (λ verdict. CouldBe judge.old step.now verdict allowed.new.items) }
{
    judge.follow_listing(step, seen, allowed)
}

// Judges a step by what a comment says was seen.
fn answer(
    judge: &mut Judge,
    step: &Step,
    sight: &Sight,
    allowed: &mut Vec<Possible>,
) -> Result<Verdict, AllocError>
    ensures followed { IfOk result (λ verdict. IsFollowed judge.old step.now (seen_by sight.now) verdict judge.new) }
    ensures could { IfOk result (λ verdict. CouldBe judge.old step.now verdict allowed.new.items) }
{
    match sight {
        Sight::Saw(seen) => follow(judge, step, seen, allowed),
        Sight::Nothing => follow(judge, step, &Seen::nothing(), allowed),
        Sight::Unclear => follow(judge, step, &Seen::nothing(), allowed),
    }
}

/// Judges the step of a line, behind commands that nobody saw if they are hidden. If it is refused, `allowed` is then what could be. The fault is a
/// refused allocation.
pub fn rule_sight(
    judge: &mut Judge,
    hides: bool,
    step: &Step,
    sight: &Sight,
    allowed: &mut Vec<Possible>,
) -> Result<Verdict, AllocError>
    ensures { IfOk result (λ verdict. IsAnswered hides judge.old step.now sight.now verdict allowed.new.items judge.new) }
{
    if hide(judge, hides)? {
        answer(judge, step, sight, allowed)
    } else {
        Ok(Verdict::Undecided)
    }
}

/// Whether a verdict decides.
pub fn is_decided(verdict: Verdict) -> bool
    ensures { result ≡ is_decided verdict }
{
    !matches!(verdict, Verdict::Undecided)
}

// Whether some IOMMU carried its last step out.
fn any_done(candidates: &[Candidate]) -> bool
    ensures { result ≡ any_done candidates.now }
{
    candidates.iter().any(|one| is_done(one.answer()))
}

// Judges a step of which nothing was seen, and answers whether the next one is to be taken, and else whether it is decided.
fn rule_unseen(judge: &mut Judge, hides: bool, step: &Step) -> Result<(bool, bool), AllocError>
    ensures { IfOk result (λ goes. IsPassed hides judge.old step.now goes.0 goes.1 judge.new) }
{
    let verdict = rule(judge, hides, step, &Seen::nothing())?;
    let decided = is_decided(verdict);
    Ok((decided && any_done(judge.candidates()), decided))
}

/// Judges the step of one that goes on by itself, while some IOMMU carries it out, and at most this number of times. The answer is whether that is
/// decided. The fault is a refused allocation.
pub fn rule_again(
    judge: &mut Judge,
    hides: bool,
    actor: Actor,
    most: u64,
) -> Result<bool, AllocError>
    ensures { IfOk result (λ decided. AreRuled hides judge.old (replicate most (step_of actor)) decided judge.new) }
{
    for _turn in 0..most {
        let (goes_on, decided) = rule_unseen(judge, hides, &step_by(actor))?;
        if !goes_on {
            return Ok(decided);
        }
    }
    Ok(true)
}

/// Judges stores of words of 8 bytes from physical address `addr` on, while they are done. The answer is whether that is decided. The fault is a
/// refused allocation.
pub fn rule_stores(
    judge: &mut Judge,
    hides: bool,
    addr: u64,
    words: &[u64],
) -> Result<bool, AllocError>
    requires { addr + 8 * length words.now ≤ 2 ^ 64 }
    ensures { IfOk result (λ decided. AreRuled hides judge.old (stores_at addr words.now) decided judge.new) }
{
    for (i, word) in words.iter().enumerate() {
        let step = Step::Store {
            addr: addr + 8 * i as u64,
            size: 8,
            value: *word,
        };
        let (goes_on, decided) = rule_unseen(judge, hides, &step)?;
        if !goes_on {
            return Ok(decided);
        }
    }
    Ok(true)
}
