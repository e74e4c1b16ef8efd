ghost use Rattle.std.specs.Prelude.{◌≡◌, Some};
ghost use Rattle.iom_messages.specs.Messages.{is_in};

/// Physical addresses that are no memory, where a write is a message: of an interrupt file, as an IMSIC's, or of another doorbell.
#[derive(Clone, Copy, PartialEq)]
pub struct Window {
    /// The first physical address.
    pub base: u64,
    /// How many bytes it has.
    pub size: u64,
}

impl Window {
    /// Whether the `count` bytes from physical address `addr` on are in it.
    pub fn covers(&self, addr: u64, count: u64) -> bool
        ensures { result ≡ is_in (Some self.now) addr count }
    {
        addr >= self.base
            && addr - self.base <= self.size
            && count <= self.size - (addr - self.base)
    }
}
