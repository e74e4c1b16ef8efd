//! What a walk reads its entries from.

ghost use Rattle.std.specs.Prelude.{◌≡◌, ℕ};
ghost use Rattle.iom_walk.specs.declared.source.Got.{Got};

/// The result of a fetch of a page-table entry: the word of a source at an address.
#[derive(Clone, Copy, PartialEq)]
pub enum Got {
    /// The eight bytes there as a number, the lowest byte first.
    Word(u64),
    /// One of the eight bytes lies outside memory.
    Outside,
    /// The address is a guest-physical one that the second stage didn't translate.
    Guest,
}

/// Where a walk fetches page-table entries: physical memory, or a guest's memory, whose guest-physical addresses the second stage
/// translates.
pub trait Words {
    /// What it has at each address.
    ghost at: { Self → ℕ → Got };

    /// What it has at `addr`, a physical or a guest-physical address in bytes. Eight bytes are read, the lowest first.
    fn word(&self, addr: u64) -> Got
        ensures { result ≡ at self.now addr };
}
