ghost use Rattle.std.specs.Prelude.{◌≡◌, IfOk, slice_get};
ghost use Rattle.std.specs.Option.{option_copied};
ghost use Rattle.iom_c.specs.Keeping.{has_no_room, kept_after, none_kept};

use circular_buffer::HeapCircularBuffer;
use iom_account::Reason;
use std::alloc::{AllocError, Global};

/// The number of reasons that a newly opened handle keeps.
pub const MOST: usize = 32;

/// Why the last steps went as they did.
#[derive(Drop)]
pub struct Kept {
    /// The reasons, the oldest first.
    pub ring: HeapCircularBuffer<Reason>,
    /// Whether steps that make no access are left out.
    pub accesses_only: bool,
}

impl Kept {
    /// No reason yet, with room for `most`.
    pub fn new(alloc: Global, most: usize, accesses_only: bool) -> Result<Kept, AllocError>
        ensures { IfOk result (λ kept. kept ≡ none_kept most accesses_only) }
    {
        Ok(Kept {
            ring: HeapCircularBuffer::with_capacity(alloc, most)?,
            accesses_only,
        })
    }

    /// No reason yet, with room for as many, of the same steps.
    pub fn emptied(&self, alloc: Global) -> Result<Kept, AllocError>
        ensures { IfOk result (λ kept. kept ≡ none_kept self.now.ring.capacity self.now.accesses_only) }
    {
        Kept::new(alloc, self.ring.capacity(), self.accesses_only)
    }

    /// Whether there is room for no reason.
    pub fn has_no_room(&self) -> bool
        ensures { result ≡ has_no_room self.now }
    {
        self.ring.capacity() == 0
    }

    /// Keeps the reason of a step, if it is one of those that are kept. If there is no room the oldest leaves.
    pub fn keep(&mut self, reason: Reason)
        ensures { self.new ≡ kept_after self.old reason }
    {
        if !self.accesses_only || reason.request.is_some() {
            let _left = self.ring.push_back(reason);
        }
    }

    /// Reason `i`, any number, the oldest 0; None if there are `i` or fewer.
    pub fn get(&self, i: u64) -> Option<&Reason>
        ensures { option_copied result ≡ slice_get self.now.ring.items i }
    {
        self.ring.get(i as usize)
    }
}
