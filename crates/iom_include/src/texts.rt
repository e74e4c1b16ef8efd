//! Where the texts come from.

ghost use Rattle.std.specs.Prelude.{◌≡◌, ℕ, List, Option, None, IfOk, IfErr, IfSome, ⊤};
ghost use Rattle.iom_include.specs.declared.fault.TextFault.{TextFault};

use crate::fault::TextFault;
use std::alloc::Global;

/// Texts, each by its name.
pub trait Texts {
    /// The text of each name, where that is known.
    ghost known: { Self → Option (List ℕ → List ℕ) } = { λ _. None };

    /// Whether this text of a name may be given.
    ghost gives: { Self → List ℕ → List ℕ → Type 0 } = { λ _ _ _. ⊤ };

    /// Whether it may be answered so that there is no text of a name.
    ghost lacks: { Self → List ℕ → TextFault → Type 0 } = { λ _ _ _. ⊤ };

    /// The text of this name.
    fn text(&self, alloc: Global, name: &str) -> Result<Vec<u8>, TextFault>
        ensures given { IfOk result (λ text. gives self.now name.now text.items) }
        ensures lacking { IfErr result (λ fault. lacks self.now name.now fault) }
        ensures known { IfSome (known self.now) (λ texts. IfOk result (λ text. text.items ≡ texts name.now)) };

    /// By which number a fault names this line of a text, counted from 1.
    fn number(&self, line: u64) -> u64 {
        line
    }
}
