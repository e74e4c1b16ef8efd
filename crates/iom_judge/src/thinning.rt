//! Lists of candidates of which none covers another.

ghost use Rattle.std.specs.Prelude.{◌≡◌, ◌↔◌, ◌++◌, ◌∷◌, ◌⊎◌, [], IfOk, IsTrue, OnOk};
ghost use Rattle.std.specs.Bool.{OnFalse};
ghost use Rattle.iom_choices.specs.Systems.{IsAmong};
ghost use Rattle.iom_judge.specs.Candidates.{AreApart, CandidateView, IsCovered};
ghost use Rattle.iom_judge.specs.Covering.{CoversNone, HasNew, IsCoveredIn, IsThinned, NoneCovers};

use crate::candidate::Candidate;
use std::alloc::{AllocError, Global};

/// Puts a candidate at the end, unless one that is there covers it; those that it covers go. The answer is whether it was put in. The fault is a
/// refused allocation.
pub(crate) fn put_apart(
    all: &mut Vec<Candidate>,
    alloc: Global,
    new: Candidate,
) -> Result<bool, AllocError>
    requires { AreApart all.old.items }
    ensures apart { OnOk result (AreApart all.new.items) }
    ensures thinned { OnOk result (IsThinned (all.old.items ++ new ∷ []) all.new.items) }
    ensures there { IfOk result (λ put. OnFalse put (all.new.items ≡ all.old.items)) }
    ensures new { IfOk result (λ put. IsTrue put → NoneCovers all.old.items new) }
{
    if is_covered(all, alloc, &new)? {
        return Ok(false);
    }
    take_out_covered(all, alloc, &new)?;
    all.push(new)?;
    Ok(true)
}

// Whether one of them covers it.
fn is_covered(all: &[Candidate], alloc: Global, one: &Candidate) -> Result<bool, AllocError>
    ensures is { IfOk result (λ is. IsTrue is → IsCoveredIn all.now one.now) }
    ensures none { IfOk result (λ is. OnFalse is (NoneCovers all.now one.now)) }
{
    for other in all {
        if other.covers(alloc, one)? {
            return Ok(true);
        }
    }
    Ok(false)
}

// Takes those out that it covers.
fn take_out_covered(
    all: &mut Vec<Candidate>,
    alloc: Global,
    one: &Candidate,
) -> Result<(), AllocError>
    requires { AreApart all.old.items }
    ensures apart { OnOk result (AreApart all.new.items) }
    ensures within { OnOk result ((each : CandidateView) → IsAmong all.new.items each → IsAmong all.old.items each) }
    ensures enough { OnOk result ((each : CandidateView) → IsAmong all.old.items each → IsAmong all.new.items each ⊎ IsCovered each one.now) }
    ensures none { OnOk result (CoversNone all.new.items one.now) }
{
    let mut i = 0;
    while i < all.len() {
        if one.covers(alloc, &all[i])? {
            all.remove(i);
        } else {
            i += 1;
        }
    }
    Ok(())
}

/// Puts candidates in, one by one. The answer is whether one of them was put in. The fault is a refused allocation.
pub(crate) fn merge(
    all: &mut Vec<Candidate>,
    alloc: Global,
    mut news: Vec<Candidate>,
) -> Result<bool, AllocError>
    requires { AreApart all.old.items }
    ensures apart { OnOk result (AreApart all.new.items) }
    ensures thinned { OnOk result (IsThinned (all.old.items ++ news.items) all.new.items) }
    ensures there { IfOk result (λ put. OnFalse put (all.new.items ≡ all.old.items)) }
    ensures new { IfOk result (λ put. IsTrue put → HasNew all.old.items all.new.items) }
{
    let mut is_any = false;
    while let Some(new) = news.pop() {
        if put_apart(all, alloc, new)? {
            is_any = true;
        }
    }
    Ok(is_any)
}
