//! The first page that an entry stands for.

ghost use Rattle.std.specs.Prelude.{◌≡◌};
ghost use Rattle.iom_every.specs.Firsts.{first_page};

use crate::entry::Held;

/// The first page that an entry of a stage stands for, as 64 bits: an IOVA divided by 4096, or of a second stage a guest-physical address.
#[tactic(auto, using(crate::proofs::Shifted::shifted_out))]
pub fn first_page(held: &Held) -> u64
    ensures { result ≡ first_page held.now }
{
    held.part.checked_shl(9 * held.level as u32).unwrap_or(0)
}
