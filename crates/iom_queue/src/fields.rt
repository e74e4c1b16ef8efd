ghost use Rattle.std.specs.Prelude.{◌≡◌, ◌*◌, ◌^◌, ◌<◌};
ghost use Rattle.iom_bits.specs.Bits.{flag};

use iom_bits::flag;

/// A flag at its bit of a word, 0 to 63.
pub fn flag_at(set: bool, low: u32) -> u64
    requires { low < 64 }
    ensures { result ≡ 2 ^ low * flag set }
{
    flag(set) << low
}

/// An operand at its place in a word, from bit `low` on, 0 to 63; it fits there.
pub fn operand(value: u64, low: u32) -> u64
    requires place { low < 64 }
    requires fits { 2 ^ low * value < 2 ^ 64 }
    ensures { result ≡ 2 ^ low * value }
{
    value << low
}
