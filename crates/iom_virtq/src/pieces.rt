//! The bytes of one side of some parts.

ghost use Rattle.std.specs.Prelude.{◌≡◌, ◌*◌, ◌<◌, ◌≤◌, length, drop, true};
ghost use Rattle.std.specs.List.{list_all};
ghost use Rattle.iom_virtq.specs.Bus.{IsShort};
ghost use Rattle.iom_virtq.specs.Chains.{items_from, address_of, run_length, IsPiece, fits};

use crate::parts::{ChainPart, Side};

/// The longest access, in bytes.
const LONGEST_PIECE: u64 = 64;

/// A page, in bytes.
const PAGE: u64 = 4096;

/// How many bytes these parts, at most 64 of them, have on a side: at most 64 * (2^32 - 1).
pub fn total_of(parts: &[ChainPart], side: Side) -> u64
    requires { length parts.now ≤ 64 }
    ensures total { result ≡ length (items_from side 0 parts.now) }
    ensures few { result ≤ 64 * 4294967295 }
{
    let mut total = 0;
    for part in parts {
        total += part.len_on(side);
    }
    total
}

/// The IOVA of the byte at `position` of a side, counted from 0, and the length of the piece that begins there: 1 to 64 bytes of
/// one part and one page of 4096 bytes.
pub fn piece_of(parts: &[ChainPart], side: Side, position: u64) -> (u64, u64)
    requires within { position < length (items_from side 0 parts.now) }
    requires fit { list_all fits parts.now ≡ true }
    ensures address { result.0 ≡ address_of (drop position (items_from side 0 parts.now)) }
    ensures count { result.1 ≡ run_length (drop position (items_from side 0 parts.now)) }
    ensures piece { IsPiece (drop position (items_from side 0 parts.now)) result.0 result.1 }
    ensures short { IsShort result.0 result.1 }
{
    let mut rest = position;
    for part in parts {
        let len = part.len_on(side);
        if rest < len {
            let address = part.addr + rest;
            let count = (len - rest).min(PAGE - address % PAGE).min(LONGEST_PIECE);
            return (address, count);
        }
        rest -= len;
    }
    unreachable!()
}
