//! The bus by which a device reads and writes memory.

ghost use Rattle.std.specs.Prelude.{◌≡◌, [], length};
ghost use Rattle.std.specs.Bool.{OnFalse};
ghost use Rattle.iom_virtq.specs.Bus.{Ask, BusReply, Read, Write, IsShort, is_granted, reply_of};

use crate::access::Access;

/// A device's way to memory. Its addresses are IOVAs, in bytes. An access has 1 to 64 bytes within one page of 4096 bytes.
pub trait Bus {
    /// The relation of a bus, an access that it is asked for, its reply, and the bus afterwards.
    ghost answers: { Self → Ask → BusReply → Self → Type 0 };

    /// Reads the bytes from IOVA `iova` on into `out`, which is unchanged unless the answer is Ok.
    fn read(&mut self, iova: u64, out: &mut [u8]) -> Access
        requires { IsShort iova (length out.old) }
        ensures answered { answers self.old (Read iova (length out.old))
            (reply_of result out.new) self.new }
        ensures unchanged { OnFalse (is_granted result) (out.new ≡ out.old) };

    /// Writes `bytes` from IOVA `iova` on; nothing is written unless the answer is Ok.
    fn write(&mut self, iova: u64, bytes: &[u8]) -> Access
        requires { IsShort iova (length bytes.now) }
        ensures { answers self.old (Write iova bytes.now) (reply_of result []) self.new };
}
