//! Where a translation comes from.

ghost use Rattle.std.specs.Prelude.{◌≡◌};
ghost use Rattle.iom_account.specs.Following.{number_of, numbered_warrant};

use iom_core::Warrant;

/// The origin of the translation that a device's access used: the steps that it comes from, by the numbers that their caller gave them.
#[derive(Clone, Copy, Debug, PartialEq)]
pub enum NumberedWarrant {
    /// ddtp's mode was Bare: the physical address was the IOVA.
    Register,
    /// Both stages of the device's context were Bare, and it had no MSI page table: the physical address was the IOVA. Step `context` had
    /// filled that context, or was this one.
    Context {
        context: u64,
    },
    /// Page tables led to it: those that step `walk` found, under the context that step `context` had filled. The context in
    /// force at the access, whose key is the same, is that of step `current`. Each may be this step.
    Walked {
        context: u64,
        walk: u64,
        current: u64,
    },
}

impl NumberedWarrant {
    /// The origin that names the steps of a warrant by these numbers, the first of which is that of step 0. A step beyond them gets 0.
    pub fn of_warrant(warrant: Warrant, numbers: &[u64]) -> NumberedWarrant
        ensures { result ≡ numbered_warrant numbers.now warrant }
    {
        match warrant {
            Warrant::Register => NumberedWarrant::Register,
            Warrant::Context { context } => NumberedWarrant::Context {
                context: number_of(numbers, context),
            },
            Warrant::Walked {
                context,
                walk,
                current,
            } => NumberedWarrant::Walked {
                context: number_of(numbers, context),
                walk: number_of(numbers, walk),
                current: number_of(numbers, current),
            },
        }
    }
}

// The number of step k; 0 if there is none.
fn number_of(numbers: &[u64], k: usize) -> u64
    ensures { result ≡ number_of numbers.now k }
{
    numbers.get(k).copied().unwrap_or(0)
}
