//! Compares `explain`, which looks back at past steps, with a history that is kept beside the platform.

ghost use Rattle.std.specs.Prelude.{◌<◌, IfOk, length};
ghost use Rattle.iom_core.specs.Warrants.{IsUncached};

use iom_account::{History, NumberedWarrant, explain};
use iom_asm::LoadFault;
use iom_core::{Answer, Platform, Step};
use std::alloc::{AllocError, Global};

/// A step at which `explain` and the history differ.
#[derive(Clone, Copy)]
pub struct Difference {
    /// The number of the step, from 0.
    pub step: usize,
    /// Its warrant by `explain`.
    pub by_explain: Option<NumberedWarrant>,
    /// Its warrant by the history.
    pub by_history: Option<NumberedWarrant>,
}

/// How many granted accesses had each kind of warrant.
#[derive(Drop)]
pub struct Met {
    /// Granted by ddtp in mode Bare.
    pub register: u64,
    /// Granted by a context without page tables.
    pub context: u64,
    /// By page tables that were walked at the access.
    pub walked: u64,
    /// By a cached translation, under the context under which it was walked.
    pub cached: u64,
    /// By a cached translation, under a newer context.
    pub older: u64,
}

impl Met {
    /// The count of no access.
    pub fn none() -> Met {
        Met {
            register: 0,
            context: 0,
            walked: 0,
            cached: 0,
            older: 0,
        }
    }

    // Counts an access with this warrant, made by step `number`.
    fn count(&mut self, warrant: NumberedWarrant, number: u64) {
        let met = match warrant {
            NumberedWarrant::Register => &mut self.register,
            NumberedWarrant::Context { .. } => &mut self.context,
            NumberedWarrant::Walked { walk, .. } if walk == number => &mut self.walked,
            NumberedWarrant::Walked {
                context,
                current,
                ..
            } if context == current => &mut self.cached,
            NumberedWarrant::Walked { .. } => &mut self.older,
        };
        *met = met.saturating_add(1);
    }

    /// Whether each kind was met.
    pub fn is_full(&self) -> bool {
        [
            self.register,
            self.context,
            self.walked,
            self.cached,
            self.older,
        ]
        .iter()
        .all(|met| *met > 0)
    }
}

// The number that the history gets for step n.
fn number_of(n: usize) -> u64 {
    (n as u64).wrapping_mul(3).wrapping_add(10)
}

// The platform that an image starts. Its caches are empty.
#[tactic(auto, using(crate::proofs::Uncached::uncached))]
fn load(alloc: Global, image: &[u8]) -> Result<Platform, LoadFault>
    ensures { IfOk result (λ platform. IsUncached platform) }
{
    iom_asm::load(alloc, image)
}

// The warrant of step n by `explain`.
fn warrant_by_explain(
    alloc: Global,
    start: &Platform,
    steps: &[Step],
    numbers: &[u64],
    n: usize,
) -> Result<Option<NumberedWarrant>, AllocError>
    requires below { n < length steps.now }
    requires uncached { IsUncached start.now }
{
    match explain(alloc, start, steps, n)? {
        Some(warrant) => Ok(Some(NumberedWarrant::of_warrant(warrant, numbers))),
        None => Ok(None),
    }
}

// The first of the steps from `start` on at which `explain` and a history differ.
fn first_difference_from(
    alloc: Global,
    start: &Platform,
    steps: &[Step],
    met: &mut Met,
) -> Result<Option<Difference>, AllocError>
    requires { IsUncached start.now }
{
    let mut platform = start.try_clone(alloc)?;
    let mut history = History::new(&platform);
    let mut answer = Answer::Done;
    let mut numbers = Vec::new(alloc);
    for n in 0..steps.len() {
        let number = number_of(n);
        numbers.push(number)?;
        let by_history = history
            .step(&mut platform, &steps[n], number, &mut answer)
            .origin;
        let by_explain = warrant_by_explain(alloc, start, steps, &numbers, n)?;
        if by_history != by_explain {
            return Ok(Some(Difference {
                step: n,
                by_explain,
                by_history,
            }));
        }
        if let Some(warrant) = by_history {
            met.count(warrant, number);
        }
    }
    Ok(None)
}

/// The first of the steps from an image on at which `explain` and a history differ; None if there is none. Counts the warrants of the
/// steps before it in `met`.
pub fn first_difference(
    alloc: Global,
    image: &[u8],
    steps: &[Step],
    met: &mut Met,
) -> anyhow::Result<Option<Difference>> {
    let start = load(alloc, image)?;
    Ok(first_difference_from(alloc, &start, steps, met)?)
}
