ghost use Rattle.std.specs.Prelude.{◌≡◌, ◌+◌, ◌<◌, ◌≤◌, ◌^◌};
ghost use Rattle.iom_bits.specs.Bits.{has_bit, flag, field_of, with_field_of, IsField, ReplacesField};
ghost use Rattle.iom_bits.specs.Bytes.{number_of_bytes};

/// Whether bit `bit` of `word` is 1. Bit 0 is the lowest, 63 the highest.
#[tactic(auto, unfolding(crate::specs::Bits::has_bit))]
pub fn has_bit(word: u64, bit: u32) -> bool
    requires { bit < 64 }
    ensures { result ≡ has_bit word bit }
{
    (word >> bit) & 1 == 1
}

/// A bit as a number: 1 if it is set, else 0.
pub fn flag(set: bool) -> u64
    ensures { result ≡ flag set }
{
    set as u64
}

/// The `width` bits of `word` from bit `low` on, as a number below 2^`width`. Bit 0 is the lowest; `width` is 1 to 64, and `low +
/// width` at most 64.
pub fn field(word: u64, low: u32, width: u32) -> u64
    requires some { 1 ≤ width }
    requires within { low + width ≤ 64 }
    ensures value { result ≡ field_of word low width }
    ensures bits { IsField word low width result }
{
    (word >> low) & (u64::MAX >> (64 - width))
}

/// `word` with the `width` bits from bit `low` on replaced by those of `value`, which is below 2^`width`. `width` is 1 to 64, and
/// `low + width` at most 64.
pub fn with_field(word: u64, low: u32, width: u32, value: u64) -> u64
    requires some { 1 ≤ width }
    requires within { low + width ≤ 64 }
    requires fits { value < 2 ^ width }
    ensures value { result ≡ with_field_of word low width value }
    ensures replaces { ReplacesField word low width value result }
{
    let mask = (u64::MAX >> (64 - width)) << low;
    (word & !mask) | (value << low)
}

/// Two bytes, the lowest first, as a number.
pub fn le_u16(bytes: [u8; 2]) -> u16
    ensures { result ≡ number_of_bytes bytes }
{
    u16::from_le_bytes(bytes)
}

/// Four bytes, the lowest first, as a number.
pub fn le_u32(bytes: [u8; 4]) -> u32
    ensures { result ≡ number_of_bytes bytes }
{
    u32::from_le_bytes(bytes)
}

/// Eight bytes, the lowest first, as a number.
pub fn le_u64(bytes: [u8; 8]) -> u64
    ensures { result ≡ number_of_bytes bytes }
{
    u64::from_le_bytes(bytes)
}
