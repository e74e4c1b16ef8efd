//! The vectors of interrupts by message.

ghost use Rattle.std.specs.Prelude.{◌≡◌, ◌<◌, ◌^◌};
ghost use Rattle.iom_regs.specs.Offers.{vector_count};
ghost use Rattle.iom_regs.specs.Table.{controlled};
ghost use Rattle.iom_regs.specs.Vectors.{are_kept, blank, is_kept, is_vector, msi_addr_of, table_room, vector_at};

use iom_bits::{Features, Vectors, field};

/// How many vectors the table has room for.
pub const TABLE_ROOM: usize = 4;

/// A vector of interrupts by message ("MSI configuration table (msi_cfg_tbl)").
#[derive(Clone, Copy, PartialEq)]
pub struct MsiVector {
    /// msi_addr: the physical address at which a message is written, bits 55:2.
    pub addr: u64,
    /// msi_data: the four bytes of a message, the lowest first.
    pub value: u32,
    /// M of msi_vec_ctl: its messages are kept back.
    pub masked: bool,
    /// Whether it owes a message: an interrupt was raised while it was masked.
    pub owed: bool,
}

/// A vector as at reset.
pub const BLANK: MsiVector = MsiVector {
    addr: 0,
    value: 0,
    masked: false,
    owed: false,
};

impl MsiVector {
    /// The vector after a write of msi_vec_ctl that masks it or not. One that isn't masked owes no message.
    pub fn controlled(self, value: u64) -> MsiVector
        ensures { result ≡ controlled value self }
    {
        let masked = iom_bits::has_bit(value, 0);
        MsiVector {
            masked,
            owed: self.owed && masked,
            ..self
        }
    }

    // Whether it may be the vector of number `x`.
    fn is_kept(self, features: Features, x: u64) -> bool
        ensures { result ≡ is_kept features x self }
    {
        if is_vector(features, x) {
            msi_addr(self.addr) == self.addr
        } else {
            self.addr == 0 && self.value == 0 && !self.masked && !self.owed
        }
    }
}

/// msi_addr after a write of `value`.
pub fn msi_addr(value: u64) -> u64
    ensures { result ≡ msi_addr_of value }
{
    field(value, 2, 54) << 2
}

// How many vectors there are.
fn count(vectors: Vectors) -> u64
    ensures { result ≡ vector_count vectors }
{
    match vectors {
        Vectors::One => 1,
        Vectors::Two => 2,
        Vectors::Four => 4,
    }
}

/// Whether there is a vector of number `x`: interrupts may be messages, and icvec can choose it.
pub fn is_vector(features: Features, x: u64) -> bool
    ensures there { result ≡ is_vector features x }
{
    features.has_messages() && x < count(features.vectors())
}

/// The vector of number `x` of a table; one that isn't there is as at reset.
pub fn vector_at(table: &[MsiVector; 4], x: u64) -> MsiVector
    ensures { result ≡ vector_at table.now x }
{
    if x < 4 { table[x as usize] } else { BLANK }
}

/// Whether these may be the vectors of an IOMMU with these features.
pub fn are_kept(features: Features, table: &[MsiVector; 4]) -> bool
    ensures { result ≡ are_kept features 0 table.now }
{
    let [first, second, third, fourth] = *table;
    first.is_kept(features, 0)
        && second.is_kept(features, 1)
        && third.is_kept(features, 2)
        && fourth.is_kept(features, 3)
}
