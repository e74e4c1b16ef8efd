//! Physical memory, whoever has it.

ghost use Rattle.std.specs.Prelude.{ℕ, ◌≡◌, length, Some, None};
ghost use Rattle.std.specs.Bool.{OnTrue, OnFalse};
ghost use Rattle.std.specs.Option.{is_some};
ghost use Rattle.iom_mem.specs.Memory.{Memory, size_of, bytes_at, word, words_at, put, ReplacesBytes};

/// One region of physical memory that can be read: a platform's own, or one that is lent. Addresses are physical, in bytes; what isn't
/// in it is called outside.
pub trait Region {
    /// Its base and its bytes.
    ghost memory: { Self → Memory };

    /// The first physical address.
    fn base(&self) -> u64
        ensures { result ≡ (memory self.now).base };

    /// How many bytes there are.
    fn size(&self) -> u64
        ensures { result ≡ size_of (memory self.now) };

    /// Reads the bytes from physical address `addr` on into `out`, and answers true; false if one of them is outside, and then `out` is
    /// unchanged. An empty `out` is read anywhere.
    fn read(&self, addr: u64, out: &mut [u8]) -> bool
        ensures read { OnTrue result (bytes_at (memory self.now) addr (length out.old) ≡ Some out.new) }
        ensures outside { OnFalse result (bytes_at (memory self.now) addr (length out.old) ≡ None) }
        ensures unchanged { OnFalse result (out.new ≡ out.old) };

    /// The number of the eight bytes from physical address `addr` on, of any alignment, the lowest byte first; None if one of them is
    /// outside.
    fn word(&self, addr: u64) -> Option<u64>
        ensures { result ≡ word (memory self.now) addr };

    /// Reads the words from physical address `addr` on, of any alignment, into `out`, word i from `addr + 8 * i`, and answers true; false
    /// if a byte of one is outside, and then `out` is unchanged. An empty `out` is read anywhere.
    fn words(&self, addr: u64, out: &mut [u64]) -> bool
        ensures read { OnTrue result (words_at (memory self.now) addr (length out.old) ≡ Some out.new) }
        ensures outside { OnFalse result (words_at (memory self.now) addr (length out.old) ≡ None) }
        ensures unchanged { OnFalse result (out.new ≡ out.old) };
}

/// One region of physical memory that can be read and written.
pub trait WritableRegion: Region {
    /// The borrow that it writes through, if it is lent.
    ghost name: { Self → ℕ };

    /// Writes `bytes` from physical address `addr` on, and answers true; false if one of the places is outside, and then nothing is
    /// changed. Empty `bytes` are written anywhere.
    fn write(&mut self, addr: u64, bytes: &[u8]) -> bool
        ensures inside { result ≡ is_some (bytes_at (Self.memory self.old) addr (length bytes.now)) }
        ensures written { OnTrue result (Self.memory self.new ≡ put (Self.memory self.old) addr bytes.now) }
        ensures replaces { OnTrue result (ReplacesBytes (Self.memory self.old) addr bytes.now (Self.memory self.new)) }
        ensures unchanged { OnFalse result (Self.memory self.new ≡ Self.memory self.old) }
        ensures borrow { name self.new ≡ name self.old };
}

/// The `N` words of a memory from physical address `addr` on, of any alignment, word i from `addr + 8 * i`; None if a byte of one is
/// outside.
pub fn words_at<M: Region, const N: usize>(memory: &M, addr: u64) -> Option<[u64; N]>
    ensures { result ≡ words_at (M.memory memory.now) addr N }
{
    let mut words = [0; N];
    memory.words(addr, &mut words).then_some(words)
}
