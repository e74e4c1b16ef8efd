//! Refusals of a listing.

ghost use Rattle.std.specs.Prelude.{◌≡◌};
ghost use Rattle.iom_asm.specs.declared.list_fault.ListFault.TheVariants as listing;

use std::alloc::AllocError;
use thiserror::Error;

/// Why there is no listing.
#[derive(Clone, Copy, Debug, PartialEq, Error)]
pub enum ListFault {
    /// A byte of an item is outside memory. It is tested first.
    #[error("outside memory")]
    Outside,
    /// An allocation was refused.
    #[error("out of memory")]
    OutOfMemory,
}

impl From<AllocError> for ListFault {
    ghost from_gives = { λ _ e. e ≡ listing.OutOfMemory };

    fn from(_error: AllocError) -> ListFault {
        ListFault::OutOfMemory
    }
}
