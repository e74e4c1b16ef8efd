//! The rules by which an entry is judged.

ghost use Rattle.std.specs.Prelude.{◌≡◌};
ghost use Rattle.iom_walk.specs.Verdict.{is_open_to};

use crate::entry::USER;
use iom_bits::{Features, has_bit};

/// In whose name an access is made (RISC-V Privileged Architecture, "Virtual Address Translation Process", step 5).
#[derive(Clone, Copy, PartialEq)]
pub enum Class {
    /// User mode: leaves with U = 1.
    User,
    /// Supervisor mode with SUM = 0: leaves with U = 0.
    Supervisor,
    /// Supervisor mode with SUM = 1: leaves with either U.
    SupervisorUser,
}

/// What the verdict on an entry depends on, but for the entry and the kind of the access.
#[derive(Clone, Copy)]
pub struct EntryRules {
    /// The IOMMU's features, of which Svnapot and Svpbmt matter here.
    pub features: Features,
    /// In whose name the access is made.
    pub class: Class,
}

impl Class {
    /// Whether a leaf with this word is open to accesses of this class.
    pub fn may_use(self, word: u64) -> bool
        ensures { result ≡ is_open_to self word }
    {
        match self {
            Class::User => has_bit(word, USER),
            Class::Supervisor => !has_bit(word, USER),
            Class::SupervisorUser => true,
        }
    }
}
