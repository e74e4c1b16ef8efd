//! The warrant of a step, found by running the steps again.

ghost use Rattle.std.specs.Prelude.{◌≡◌, ◌<◌, length, IfOk};
ghost use Rattle.std.specs.Option.{option_map};
ghost use Rattle.iom_core.specs.Warrants.{Explains, IsUncached};
ghost use Rattle.iom_account.specs.Following.{warrant_of};

use crate::history::History;
use crate::origin::NumberedWarrant;
use iom_core::{Answer, Platform, Step, Warrant};
use std::alloc::{AllocError, Global};

/// The warrant of the translation that step `n`, below the number of steps, uses in a run of them from `start`, whose caches are empty.
/// None if the step makes no access or is denied. It runs the steps on a copy of `start`; the error is that there is no memory for it.
pub fn explain(
    alloc: Global,
    start: &Platform,
    steps: &[Step],
    n: usize,
) -> Result<Option<Warrant>, AllocError>
    requires below { n < length steps.now }
    requires uncached { IsUncached start.now }
    ensures { IfOk result (λ found. Explains start.now steps.now n found) }
{
    let mut platform = start.try_clone(alloc)?;
    let mut history = History::new(&platform);
    let mut answer = Answer::Done;
    for (k, step) in steps[..n].iter().enumerate() {
        history.step(&mut platform, step, k as u64, &mut answer);
    }
    let taken = history.step(&mut platform, &steps[n], n as u64, &mut answer);
    Ok(warrant_of(taken.origin))
}

// The warrant of an origin whose numbers count the steps from 0.
fn warrant_of(origin: Option<NumberedWarrant>) -> Option<Warrant>
    ensures { result ≡ option_map warrant_of origin }
{
    Some(match origin? {
        NumberedWarrant::Register => Warrant::Register,
        NumberedWarrant::Context { context } => Warrant::Context {
            context: context as usize,
        },
        NumberedWarrant::Walked {
            context,
            walk,
            current,
        } => Warrant::Walked {
            context: context as usize,
            walk: walk as usize,
            current: current as usize,
        },
    })
}
