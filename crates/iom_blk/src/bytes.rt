//! Numbers in the bytes of a ring, a descriptor or a header, the lowest byte first.

ghost use Rattle.std.specs.Prelude.{◌≡◌, ◌+◌, ◌≤◌, length};
ghost use Rattle.iom_bits.specs.Bytes.{bytes_of_number};
ghost use Rattle.iom_blk.specs.Requests.{number_at};

use iom_bits::{le_u16, le_u32, le_u64};

/// The two bytes from index `at` on as a number. They must exist.
#[tactic(auto, unfolding(crate::specs::Requests::number_at))]
pub fn u16_at(bytes: &[u8], at: usize) -> u16
    requires { at + 2 ≤ length bytes.now }
    ensures { result ≡ number_at bytes.now at 2 }
{
    let mut word = [0; 2];
    word.copy_from_slice(&bytes[at..at + 2]);
    le_u16(word)
}

/// The four bytes from index `at` on as a number. They must exist.
#[tactic(auto, unfolding(crate::specs::Requests::number_at))]
pub fn u32_at(bytes: &[u8], at: usize) -> u32
    requires { at + 4 ≤ length bytes.now }
    ensures { result ≡ number_at bytes.now at 4 }
{
    let mut word = [0; 4];
    word.copy_from_slice(&bytes[at..at + 4]);
    le_u32(word)
}

/// The eight bytes from index `at` on as a number. They must exist.
#[tactic(auto, unfolding(crate::specs::Requests::number_at))]
pub fn u64_at(bytes: &[u8], at: usize) -> u64
    requires { at + 8 ≤ length bytes.now }
    ensures { result ≡ number_at bytes.now at 8 }
{
    let mut word = [0; 8];
    word.copy_from_slice(&bytes[at..at + 8]);
    le_u64(word)
}

/// The two bytes of a number of 16 bits, the lowest first.
pub fn bytes_of_u16(number: u16) -> [u8; 2]
    ensures { result ≡ bytes_of_number 2 number }
{
    number.to_le_bytes()
}

/// The four bytes of a number of 32 bits, the lowest first.
pub fn bytes_of_u32(number: u32) -> [u8; 4]
    ensures { result ≡ bytes_of_number 4 number }
{
    number.to_le_bytes()
}
