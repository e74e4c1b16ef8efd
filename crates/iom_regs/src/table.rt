//! The registers of interrupts by message.

ghost use Rattle.std.specs.Prelude.{◌≡◌, ◌+◌, ◌/◌, ◌%◌, ◌^◌, ◌<◌, true};

use crate::flags::{with_high, with_low};
use crate::layout::{MSI_CFG_TBL, WSI, is_in_table};
use crate::mapped::MappedRegisters;
use crate::vectors::{MsiVector, is_vector, msi_addr, vector_at};
use iom_bits::{field, flag, has_bit};

impl MappedRegisters {
    ghost use Rattle.iom_regs.specs.Table.{Fctl, MsiAddr, shown_at, table_slot, takes_wsi, with_pending, with_vector, with_write, written_at, written_wide};
    ghost use Rattle.iom_regs.specs.Interrupts.{freed, owing, vector_in};
    ghost use Rattle.iom_regs.specs.Vectors.{is_vector, msi_addr_of, vector_at};

    /// The eight bytes at offset `off`, a multiple of 8 where no other register is: two registers of the table of vectors, or 0.
    #[tactic(auto, unfolding(crate::specs::Table::table_slot))]
    pub fn table_wide(&self, off: u64) -> u64
        requires { off % 8 ≡ 0 }
        ensures low { result % 2 ^ 32 ≡ shown_at self.now (table_slot self.now.features off) }
        ensures high { result / 2 ^ 32 ≡ shown_at self.now (table_slot self.now.features (off + 4)) }
    {
        if !is_in_table(self.features, off) {
            return 0;
        }
        let vector = self.vector((off - MSI_CFG_TBL) / 16);
        if off % 16 == 0 {
            vector.addr
        } else {
            vector.value as u64 + (flag(vector.masked) << 32)
        }
    }

    /// Writes eight bytes at offset `off`, where no other register is: msi_addr of a vector, or nothing.
    #[tactic(auto, unfolding(crate::specs::Table::table_slot))]
    pub fn set_table_wide(&mut self, off: u64, value: u64)
        requires aligned { off % 8 ≡ 0 }
        ensures { self.new ≡ written_wide (table_slot self.old.features off) value self.old }
    {
        if is_in_table(self.features, off) && off % 16 == 0 {
            self.set_msi_addr((off - MSI_CFG_TBL) / 16, value);
        }
    }

    /// Writes four bytes at offset `off`, where no other register is: of the table of vectors, or nothing.
    #[tactic(auto, unfolding(crate::specs::Table::table_slot))]
    pub fn set_table_four(&mut self, off: u64, value: u64)
        requires aligned { off % 4 ≡ 0 }
        requires fits { value < 2 ^ 32 }
        ensures { self.new ≡ written_at (table_slot self.old.features off) value self.old }
    {
        if !is_in_table(self.features, off) {
            return;
        }
        let x = (off - MSI_CFG_TBL) / 16;
        let vector = self.vector(x);
        match off % 16 {
            0 => self.set_msi_addr(x, with_low(vector.addr, value)),
            4 => self.set_msi_addr(x, with_high(vector.addr, value)),
            8 => self.set_vector(
                x,
                MsiVector {
                    value: value as u32,
                    ..vector
                },
            ),
            _ => self.set_vector(x, vector.controlled(value)),
        }
    }

    // Writes msi_addr of vector `x`.
    fn set_msi_addr(&mut self, x: u64, value: u64)
        ensures { self.new ≡ with_write (MsiAddr x) value self.old }
    {
        let vector = self.vector(x);
        self.set_vector(
            x,
            MsiVector {
                addr: msi_addr(value),
                ..vector
            },
        );
    }

    // Makes vector `x` this one, if there is one of this number.
    fn set_vector(&mut self, x: u64, vector: MsiVector)
        requires { is_vector self.old.features x ≡ true → msi_addr_of vector.addr ≡ vector.addr }
        ensures { self.new ≡ with_vector x vector self.old }
    {
        if is_vector(self.features, x) {
            self.table[x as usize] = vector;
        }
    }

    /// Notes that vector `x`, if there is one, owes a message.
    #[tactic(auto, using(crate::proofs::KeptVectors::owing_settled))]
    pub fn owe(&mut self, x: u64)
        ensures owing { self.new ≡ owing x self.old }
        ensures pending { with_pending self.old ≡ self.old → with_pending self.new ≡ self.new }
    {
        let vector = self.vector(x);
        self.set_vector(
            x,
            MsiVector {
                owed: true,
                ..vector
            },
        );
    }

    // Vector `x` of interrupts by message; one that isn't there is as at reset.
    fn vector(&self, x: u64) -> MsiVector
        ensures vector { result ≡ vector_at self.now.table x }
        ensures kept { is_vector self.now.features x ≡ true → msi_addr_of result.addr ≡ result.addr }
    {
        vector_at(&self.table, x)
    }

    /// Vector `x` of interrupts by message; None if there is none of this number.
    pub fn vector_in(&self, x: u64) -> Option<MsiVector>
        ensures { result ≡ vector_in self.now x }
    {
        if is_vector(self.features, x) {
            self.table.get(x as usize).copied()
        } else {
            None
        }
    }

    /// The vector whose owed message a write of `size` bytes of `value` at offset `off` lets go.
    pub fn freed(&self, off: u64, size: u64, value: u64) -> Option<u64>
        ensures { result ≡ freed self.now off size value }
    {
        let is_control = is_in_table(self.features, off) && off % 16 == 12;
        if size != 4 || !is_control || has_bit(value, 0) {
            return None;
        }
        let x = (off - MSI_CFG_TBL) / 16;
        if self.vector(x).owed { Some(x) } else { None }
    }

    /// Writes fctl: WSI, where IGS leaves the choice, and nothing is on, enabled or busy.
    pub fn set_fctl(&mut self, value: u64)
        ensures { self.new ≡ with_write Fctl value self.old }
    {
        if self.takes_wsi() {
            self.fctl = if has_bit(value, 1) { WSI } else { 0 };
        }
    }

    // Whether WSI can be written.
    fn takes_wsi(&self) -> bool
        ensures { result ≡ takes_wsi self.now }
    {
        self.features.has_wires()
            && self.features.has_messages()
            && field(self.ddtp, 0, 5) == 0
            && self.commands.is_off()
            && self.faults.is_off()
    }
}
