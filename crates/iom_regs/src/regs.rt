ghost use Rattle.std.specs.Prelude.{◌≡◌, ◌+◌, ◌^◌, ◌<◌, ◌≤◌};
ghost use Rattle.std.specs.Bool.{OnTrue, OnFalse};
ghost use Rattle.iom_bits.specs.Features.{no_features, vectors_of};
ghost use Rattle.iom_regs.specs.Table.{has_four, is_legal};

use crate::busy::Busy;
use crate::layout::is_in_table;
use crate::mapped::MappedRegisters;
use crate::vectors::MsiVector;
use crate::views::{CommandErrors, FaultErrors, Mode, Queue, Which};
use iom_bits::{Features, field};
use std::marker::Model;

/// The IOMMU's register file (RISC-V IOMMU Architecture 1.0, "Memory-mapped register interface"). In every state an enabled
/// interrupt is pending while one of its causes is set.
#[derive(Clone, Copy)]
pub struct Regs {
    pub(crate) mapped: MappedRegisters,
}

impl Model for Regs {
    ghost use Rattle.std.specs.Prelude.{◌≡◌};
    ghost use Rattle.iom_regs.specs.Table.{Registers, with_pending};

    ghost Value = { Registers };

    ghost view = { λ r. r.mapped };

    ghost inverse = { λ r. record { mapped = r } };

    ghost invariant = { λ r. with_pending r.mapped ≡ r.mapped };
}

impl Regs {
    ghost use Rattle.iom_regs.specs.Table.{reset, read, slot_at, after_write, is_busy, is_slow, with_pending, IsOneRegister};
    ghost use Rattle.iom_regs.specs.Busy.{is_busy_at, settled};
    ghost use Rattle.iom_regs.specs.Controls.{IsCqcsr, IsFqcsr};
    ghost use Rattle.iom_regs.specs.Queues.{command_passed, with_cqmf, with_cmd_ill, with_fence, record_passed, with_fqof, with_fqmf};
    ghost use Rattle.iom_regs.specs.Sound.{IsSound};
    ghost use Rattle.iom_regs.specs.Interrupts.{freed, is_high, is_wired, owing, pending_left, vector_in, vector_of};
    ghost use Rattle.iom_regs.specs.Offers.{vector_count};
    ghost use Rattle.std.specs.Prelude.{false, true};
    ghost use Rattle.iom_regs.specs.Views.{command_errors_of, fault_errors_of, mode_of, root_of, queue_of};

    /// The registers of an IOMMU without any of the features that `Features` names, at reset: ddtp's mode is Off, and both queues
    /// are off. Every register that can change is 0.
    pub fn reset() -> Self
        ensures { result ≡ reset no_features }
    {
        Regs::with_features(Features::none())
    }

    /// The registers of an IOMMU with these features, at reset.
    pub fn with_features(features: Features) -> Self
        ensures { result ≡ reset features }
    {
        Regs {
            mapped: MappedRegisters::reset(features),
        }
    }

    /// The features of the IOMMU, as the registers were made; nothing changes them.
    pub fn features(&self) -> Features
        ensures { result ≡ self.now.features }
    {
        self.mapped.features()
    }

    /// Reads `size` bytes at offset `off`, in bytes from the first register, as a number, the lowest byte first; None if the
    /// access isn't legal.
    ///
    /// An access is legal if `size` is 4 or 8, `off` is a multiple of `size`, and its last byte is below 4096; but eight bytes
    /// aren't legal at 8, 32, 48, 72 and 80, which have registers of four bytes, nor, where interrupts may be messages, at those of the
    /// table of vectors, 776 and each 16 bytes further up to 1016. A place with no register of this model reads 0 ("Memory-mapped register
    /// interface").
    pub fn read(&self, off: u64, size: u64) -> Option<u64>
        ensures { result ≡ read self.now off size }
    {
        if !is_legal(&self.mapped, off, size) {
            return None;
        }
        let wide = self.mapped.wide(off / 8 * 8);
        Some(if size == 8 {
            wide
        } else {
            field(wide, (off % 8 * 8) as u32, 32)
        })
    }

    /// Writes the `size` bytes of `value` at offset `off`. Returns whether the access is legal, by the rule of `read`; if it isn't,
    /// nothing is changed. With size 4, `value` is below 2^32.
    ///
    /// Reserved bits stay 0, and read-only registers and places with no register stay as they are. ddtp doesn't take a mode above
    /// 4; cqb and fqb change only while their queue is off and not busy; cqt and fqh are taken modulo the queue's entries; icvec takes a
    /// vector modulo the number of vectors; a written 1 clears a flag of cqcsr, fqcsr or ipsr; fctl takes WSI if IGS is 2, while ddtp's mode
    /// is Off and nothing is busy, on or enabled. Then the rule of pending interrupts is applied.
    ///
    /// Without the feature delays a write acts at once, and no register is ever busy. With it a write of ddtp, cqcsr or fqcsr sets that
    /// register's busy (bit 4 of ddtp, bit 17 of the others), and until `settle` requests go by the ddtp from before, and the queue
    /// stays on or off as it was. While a register is busy, writes of it are ignored, and those of its queue's base too. A write of the
    /// high half of ddtp alone doesn't set busy: it acts when a later write of the low half settles.
    pub fn write(&mut self, off: u64, size: u64, value: u64) -> bool
        requires { size ≡ 4 → value < 2 ^ 32 }
        ensures legal { result ≡ is_legal self.old.features off size }
        ensures written { OnTrue result (self.new ≡ after_write self.old off size value) }
        ensures refused { OnFalse result (self.new ≡ self.old) }
        ensures features { self.new.features ≡ self.old.features }

        // Eight bytes are one register or nothing; the control and status registers bit by bit.
        ensures one_register { OnTrue result
            (size ≡ 8 → IsOneRegister (slot_at self.old.features off) (slot_at self.old.features (off + 4))) }
        ensures cqcsr { OnTrue result (off ≡ 72 → is_busy self.old.cqcsr ≡ false →
            IsCqcsr (is_slow self.old) self.old.cqcsr value self.new.cqcsr) }
        ensures fqcsr { OnTrue result (off ≡ 76 → is_busy self.old.fqcsr ≡ false →
            IsFqcsr (is_slow self.old) self.old.fqcsr value self.new.fqcsr) }
        ensures busy { OnTrue result (off ≡ 72 → is_busy self.old.cqcsr ≡ true → self.new.cqcsr ≡ self.old.cqcsr) }
        ensures busy_faults { OnTrue result (off ≡ 76 → is_busy self.old.fqcsr ≡ true → self.new.fqcsr ≡ self.old.fqcsr) }
    {
        if !is_legal(&self.mapped, off, size) {
            return false;
        }
        if size == 8 {
            self.mapped.set_wide(off, value);
        } else {
            self.mapped.set_four(off, value);
        }
        self.mapped.settle();
        true
    }

    /// Ends the write that keeps a register busy, so that it acts: requests go by the new ddtp, or the queue is on if it is enabled. Returns
    /// whether it was busy; if it wasn't, nothing is changed ("Device-directory-table pointer (ddtp)", "Command-queue CSR (cqcsr)",
    /// "Fault queue CSR (fqcsr)").
    pub fn settle(&mut self, register: Busy) -> bool
        ensures busy { result ≡ is_busy_at self.old register }
        ensures settled { OnTrue result (self.new ≡ settled register self.old) }
        ensures idle { OnFalse result (self.new ≡ self.old) }
        ensures features { self.new.features ≡ self.old.features }
    {
        self.mapped.finish(register)
    }

    /// The mode in which devices reach memory, the iommu_mode of the ddtp that acts ("Device-directory-table pointer (ddtp)").
    pub fn mode(&self) -> Mode
        ensures mode { result ≡ mode_of self.now }
        ensures sound { IsSound self.now }
        ensures settled { with_pending self.now ≡ self.now }
    {
        self.mapped.mode()
    }

    /// The PPN of the device directory's root, 44 bits: its physical address divided by 4096. It is the PPN of the
    /// ddtp that acts.
    pub fn root(&self) -> u64
        ensures root { result ≡ root_of self.now }
        ensures sound { IsSound self.now }
        ensures settled { with_pending self.now ≡ self.now }
    {
        self.mapped.root()
    }

    /// One of the two queues, by its registers: its base, its size, its head and tail, and whether it is on ("In-memory queue
    /// interface").
    pub fn queue(&self, which: Which) -> Queue
        ensures queue { result ≡ queue_of self.now which }
        ensures entries { result.entries ≤ 2 ^ 32 }
        ensures head { result.head < result.entries }
        ensures tail { result.tail < result.entries }
        ensures sound { IsSound self.now }
        ensures settled { with_pending self.now ≡ self.now }
    {
        self.mapped.queue(which)
    }

    /// Whether the interrupt line of a vector is high: interrupts go by wire, and the command queue's interrupt is pending (cip) and civ is
    /// that vector, or the fault queue's is pending (fip) and fiv is that vector ("Interrupt-cause-to-vector register"). A line that doesn't
    /// exist is low.
    #[tactic(auto, using(crate::proofs::Lines::low_beyond))]
    pub fn is_high(&self, vector: u64) -> bool
        ensures value { result ≡ is_high self.now vector }
        ensures there { vector_count (vectors_of self.now.features) ≤ vector → result ≡ false }
    {
        self.mapped.is_high(vector)
    }

    /// Whether interrupts go by wire, by WSI of fctl; else they are messages ("Features-control register (fctl)").
    pub fn is_wired(&self) -> bool
        ensures { result ≡ is_wired self.now }
    {
        self.mapped.is_wired()
    }

    /// The pending interrupts, ipsr: bit 0 is cip, the command queue's, and bit 1 fip, the fault queue's ("Interrupt pending status register
    /// (ipsr)").
    pub fn pending(&self) -> u64
        ensures { result ≡ self.now.ipsr }
    {
        self.mapped.pending()
    }

    /// What a write of `size` bytes of `value` at offset `off` leaves of the pending interrupts, before the rule of pending interrupts: a write
    /// of ipsr clears those at which it has a 1.
    pub fn pending_left(&self, off: u64, size: u64, value: u64) -> u64
        ensures { result ≡ pending_left self.now off size value }
    {
        self.mapped.pending_left(off, size, value)
    }

    /// The vector of a queue's interrupt: civ or fiv ("Interrupt-cause-to-vector register (icvec)").
    pub fn vector_of(&self, which: Which) -> u64
        ensures { result ≡ vector_of self.now which }
    {
        self.mapped.vector_of(which)
    }

    /// Vector `x` of interrupts by message; None if there is none of this number ("MSI configuration table (msi_cfg_tbl)").
    pub fn vector(&self, x: u64) -> Option<MsiVector>
        ensures { result ≡ vector_in self.now x }
    {
        self.mapped.vector_in(x)
    }

    /// The vector whose owed message a write of `size` bytes of `value` at offset `off` lets go: it clears M of
    /// msi_vec_ctl ("MSI vector control register (msi_vec_ctl)").
    pub fn freed(&self, off: u64, size: u64, value: u64) -> Option<u64>
        ensures { result ≡ freed self.now off size value }
    {
        self.mapped.freed(off, size, value)
    }

    /// Notes that vector `x` owes the message of an interrupt, since it is masked. One that isn't there owes none.
    pub fn owe(&mut self, x: u64)
        ensures { self.new ≡ owing x self.old }
    {
        self.mapped.owe(x);
    }

    /// The errors that stop the command queue: two bits of cqcsr ("Command-queue CSR (cqcsr)").
    pub fn command_errors(&self) -> CommandErrors
        ensures errors { result ≡ command_errors_of self.now }
        ensures settled { with_pending self.now ≡ self.now }
    {
        self.mapped.command_errors()
    }

    /// The errors that stop the fault queue: two bits of fqcsr ("Fault queue CSR (fqcsr)").
    pub fn fault_errors(&self) -> FaultErrors
        ensures errors { result ≡ fault_errors_of self.now }
        ensures settled { with_pending self.now ≡ self.now }
    {
        self.mapped.fault_errors()
    }

    /// Ends the command at the head: advances cqh by one entry, from the last to the first.
    pub fn pass_command(&mut self)
        ensures { self.new ≡ command_passed self.old }
    {
        self.mapped.pass_command();
        self.mapped.settle();
    }

    /// Sets cqmf: the command queue couldn't be read, or a fence couldn't store ("Command-queue CSR (cqcsr)").
    pub fn set_cqmf(&mut self)
        ensures { self.new ≡ with_cqmf self.old }
    {
        self.mapped.raise_cqmf();
        self.mapped.settle();
    }

    /// Sets cmd_ill: the command at the head is illegal ("Command-queue CSR (cqcsr)").
    pub fn set_cmd_ill(&mut self)
        ensures { self.new ≡ with_cmd_ill self.old }
    {
        self.mapped.raise_cmd_ill();
        self.mapped.settle();
    }

    /// Sets fence_w_ip: a fence asks for an interrupt ("Command-queue CSR (cqcsr)").
    pub fn set_fence(&mut self)
        ensures { self.new ≡ with_fence self.old }
    {
        self.mapped.raise_fence();
        self.mapped.settle();
    }

    /// Counts a stored fault record: advances fqt by one entry, from the last to the first, and sets fip if fie is set.
    pub fn pass_record(&mut self)
        ensures { self.new ≡ record_passed self.old }
    {
        self.mapped.pass_record();
        self.mapped.settle();
    }

    /// Sets fqof: a record met a full fault queue ("Fault queue CSR (fqcsr)").
    pub fn set_fqof(&mut self)
        ensures { self.new ≡ with_fqof self.old }
    {
        self.mapped.raise_fqof();
        self.mapped.settle();
    }

    /// Sets fqmf: the fault queue couldn't be written ("Fault queue CSR (fqcsr)").
    pub fn set_fqmf(&mut self)
        ensures { self.new ≡ with_fqmf self.old }
    {
        self.mapped.raise_fqmf();
        self.mapped.settle();
    }
}

// Whether an access of `size` bytes at offset `off` is legal. Eight bytes aren't, if a register of four is among them.
fn is_legal(registers: &MappedRegisters, off: u64, size: u64) -> bool
    ensures { result ≡ is_legal registers.now.features off size }
{
    (size == 4 || size == 8)
        && off % size == 0
        && off <= 4096 - size
        && !(size == 8 && has_four(registers.features(), off))
}

// Whether eight bytes at offset `off` have a register of four among them.
fn has_four(features: Features, off: u64) -> bool
    ensures { result ≡ has_four features off }
{
    matches!(off, 8 | 32 | 48 | 72 | 80) || is_in_table(features, off) && off % 16 == 8
}
