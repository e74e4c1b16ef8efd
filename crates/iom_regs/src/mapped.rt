ghost use Rattle.std.specs.Prelude.{◌≡◌, ◌+◌, ◌/◌, ◌%◌, ◌^◌, ◌<◌, ◌≤◌, IsTrue, false};
ghost use Rattle.std.specs.Bool.{OnTrue, OnFalse};
ghost use Rattle.iom_bits.specs.Bits.{with_bit};
ghost use Rattle.iom_regs.specs.Table.{is_legal, entries_of};

use crate::busy::Busy;
use crate::directory::{busy_pointer, is_mode, pointer, pointer_after};
use crate::flags::{
    control_settled, cqcsr_after_write, fqcsr_after_write, ipsr_after_write, pending_after,
    turns_on, with_high, with_low,
};
use crate::layout::{
    BEFORE_IPSR, CAPABILITIES, CAPABILITIES_HIGH, CMD_ILL, CQB, CQB_HIGH, CQCSR, CQH, CQMF, CQT,
    DDTP, DDTP_BUSY, DDTP_HIGH, FCTL, FENCE_W_IP, FQB, FQB_HIGH, FQCSR, FQH, FQMF, FQOF, FQT,
    ICVEC, ICVEC_HIGH, IPSR, WSI,
};
use crate::offers::{capabilities, icvec_after_write};
use crate::ring::{Ring, entries};
use crate::vectors::{BLANK, MsiVector};
use crate::views::{CommandErrors, FaultErrors, Mode, Queue, Which};
use iom_bits::{DELAYS, Features, field, has_bit, with_field};
use std::marker::Model;

/// The register file without the rule of pending interrupts: `settle` follows each change.
#[derive(Clone, Copy)]
pub struct MappedRegisters {
    pub(crate) features: Features,
    pub(crate) ddtp: u64,
    /// ddtp when it last settled: requests go by it.
    pub(crate) acting: u64,
    pub(crate) commands: Ring,
    pub(crate) faults: Ring,
    pub(crate) ipsr: u64,
    pub(crate) icvec: u64,
    pub(crate) fctl: u64,
    pub(crate) table: [MsiVector; 4],
}

impl Model for MappedRegisters {
    ghost use Rattle.iom_regs.specs.Table.{Registers};
    ghost use Rattle.iom_regs.specs.Sound.{IsSound};

    ghost Value = { Registers };

    ghost view = { λ r. record {
      features = r.features;
      ddtp = r.ddtp;
      acting = r.acting;
      cqb = r.commands.base;
      cqh = r.commands.head;
      cqt = r.commands.tail;
      fqb = r.faults.base;
      fqh = r.faults.head;
      fqt = r.faults.tail;
      cqcsr = r.commands.control;
      fqcsr = r.faults.control;
      ipsr = r.ipsr;
      icvec = r.icvec;
      fctl = r.fctl;
      table = r.table;
    } };

    ghost inverse = { λ r. record {
      features = r.features;
      ddtp = r.ddtp;
      acting = r.acting;
      commands = record { base = r.cqb; head = r.cqh; tail = r.cqt; control = r.cqcsr };
      faults = record { base = r.fqb; head = r.fqh; tail = r.fqt; control = r.fqcsr };
      ipsr = r.ipsr;
      icvec = r.icvec;
      fctl = r.fctl;
      table = r.table;
    } };

    ghost invariant = { λ r. IsSound (record {
      features = r.features;
      ddtp = r.ddtp;
      acting = r.acting;
      cqb = r.commands.base;
      cqh = r.commands.head;
      cqt = r.commands.tail;
      fqb = r.faults.base;
      fqh = r.faults.head;
      fqt = r.faults.tail;
      cqcsr = r.commands.control;
      fqcsr = r.faults.control;
      ipsr = r.ipsr;
      icvec = r.icvec;
      fctl = r.fctl;
      table = r.table;
    }) };
}

impl MappedRegisters {
    ghost use Rattle.iom_regs.specs.Table.{Cqcsr, Fqcsr, Icvec, is_slow, reset, shown_at, slot_at, with_ddtp, with_ddtp_high, with_write, written_at, written_wide, with_pending};
    ghost use Rattle.iom_regs.specs.Busy.{is_busy_at, settled};
    ghost use Rattle.iom_regs.specs.declared.busy.Busy.TheVariants as busy;
    ghost use Rattle.iom_regs.specs.Sound.{IsSound};
    ghost use Rattle.iom_regs.specs.Queues.{tail_passed};
    ghost use Rattle.iom_regs.specs.Interrupts.{is_high, is_wired, pending_left, vector_of};
    ghost use Rattle.iom_regs.specs.Views.{command_errors_of, fault_errors_of, mode_of, root_of, queue_of};

    /// The registers of an IOMMU with these features, at reset: every register that can change is 0.
    #[tactic(auto, unfolding(iom_bits::specs::Bits::has_bit))]
    pub fn reset(features: Features) -> Self
        ensures { result ≡ reset features }
    {
        MappedRegisters {
            features,
            ddtp: 0,
            acting: 0,
            commands: Ring::reset(),
            faults: Ring::reset(),
            ipsr: 0,
            icvec: 0,
            fctl: if features.has_wires() { WSI } else { 0 },
            table: [BLANK; 4],
        }
    }

    /// The features of the IOMMU.
    pub fn features(&self) -> Features
        ensures { result ≡ self.now.features }
    {
        self.features
    }

    /// The mode in which devices reach memory, the iommu_mode of the ddtp that acts ("Device-directory-table pointer (ddtp)").
    pub fn mode(&self) -> Mode
        ensures mode { result ≡ mode_of self.now }
        ensures sound { IsSound self.now }
    {
        match field(self.acting, 0, 4) {
            0 => Mode::Off,
            1 => Mode::Bare,
            levels => Mode::Levels((levels - 1) as u8),
        }
    }

    /// The PPN of the device directory's root, 44 bits: its physical address divided by 4096. It is the PPN of the
    /// ddtp that acts.
    pub fn root(&self) -> u64
        ensures root { result ≡ root_of self.now }
        ensures sound { IsSound self.now }
    {
        field(self.acting, 10, 44)
    }

    /// One of the two queues, by its registers: its base, its size, its head and tail, and whether it is on.
    pub fn queue(&self, which: Which) -> Queue
        ensures queue { result ≡ queue_of self.now which }
        ensures entries { result.entries ≤ 2 ^ 32 }
        ensures sound { IsSound self.now }
    {
        let ring = match which {
            Which::Commands => &self.commands,
            Which::Faults => &self.faults,
        };
        Queue {
            on: ring.is_on(),
            base: field(ring.base, 10, 44),
            entries: entries(ring.base),
            head: ring.head,
            tail: ring.tail,
        }
    }

    /// Whether the line of a vector is high: cip is set and civ is that vector, or fip is set and fiv is.
    pub fn is_high(&self, vector: u64) -> bool
        ensures value { result ≡ is_high self.now vector }
        ensures sound { IsSound self.now }
    {
        self.is_wired()
            && (has_bit(self.ipsr, 0) && field(self.icvec, 0, 4) == vector
                || has_bit(self.ipsr, 1) && field(self.icvec, 4, 4) == vector)
    }

    /// Whether interrupts go by wire: WSI of fctl.
    pub fn is_wired(&self) -> bool
        ensures { result ≡ is_wired self.now }
    {
        has_bit(self.fctl, 1)
    }

    /// The pending interrupts, ipsr.
    pub fn pending(&self) -> u64
        ensures { result ≡ self.now.ipsr }
    {
        self.ipsr
    }

    /// What a write of `size` bytes of `value` at offset `off` leaves of the pending interrupts.
    pub fn pending_left(&self, off: u64, size: u64, value: u64) -> u64
        ensures { result ≡ pending_left self.now off size value }
    {
        if size == 4 && off == IPSR {
            ipsr_after_write(self.ipsr, value)
        } else {
            self.ipsr
        }
    }

    /// The vector of a queue's interrupt: civ or fiv of icvec.
    pub fn vector_of(&self, which: Which) -> u64
        ensures { result ≡ vector_of self.now which }
    {
        match which {
            Which::Commands => field(self.icvec, 0, 4),
            Which::Faults => field(self.icvec, 4, 4),
        }
    }

    /// The errors that stop the command queue: two bits of cqcsr.
    pub fn command_errors(&self) -> CommandErrors
        ensures { result ≡ command_errors_of self.now }
    {
        CommandErrors {
            memory_fault: has_bit(self.commands.control, CQMF),
            illegal: has_bit(self.commands.control, CMD_ILL),
        }
    }

    /// The errors that stop the fault queue: two bits of fqcsr.
    pub fn fault_errors(&self) -> FaultErrors
        ensures { result ≡ fault_errors_of self.now }
    {
        FaultErrors {
            memory_fault: has_bit(self.faults.control, FQMF),
            overflow: has_bit(self.faults.control, FQOF),
        }
    }

    /// The eight bytes at offset `off`, a multiple of 8, as a number. A place without a register reads 0.
    #[tactic(auto, unfolding(crate::specs::Table::table_slot))]
    pub fn wide(&self, off: u64) -> u64
        requires { off % 8 ≡ 0 }
        ensures low { result % 2 ^ 32 ≡ shown_at self.now (slot_at self.now.features off) }
        ensures high { result / 2 ^ 32 ≡ shown_at self.now (slot_at self.now.features (off + 4)) }
    {
        match off {
            CAPABILITIES => capabilities(self.features),
            FCTL => self.fctl,
            DDTP => self.ddtp,
            CQB => self.commands.base,
            CQH => self.commands.head + (self.commands.tail << 32),
            FQB => self.faults.base,
            FQH => self.faults.head + (self.faults.tail << 32),
            CQCSR => self.commands.control + (self.faults.control << 32),
            BEFORE_IPSR => self.ipsr << 32,
            ICVEC => self.icvec,
            _ => self.table_wide(off),
        }
    }

    // Whether a write of ddtp, cqcsr or fqcsr acts later.
    fn is_slow(&self) -> bool
        ensures { result ≡ is_slow self.now }
    {
        self.features.has(DELAYS)
    }

    // Writes ddtp, or its low half. A mode above 4 isn't taken; reserved bits stay 0. With delays ddtp becomes busy, and a write while it
    // is busy is ignored.
    fn set_ddtp(&mut self, value: u64)
        ensures { self.new ≡ with_ddtp value self.old }
    {
        if !self.is_slow() {
            self.set_ddtp_at_once(value);
        } else if !has_bit(self.ddtp, DDTP_BUSY) {
            self.ddtp = busy_pointer(pointer_after(self.ddtp, value));
        }
    }

    // Writes the high half of ddtp, as `set_ddtp`, but with delays it doesn't become busy: nothing acts before the low half is written.
    fn set_ddtp_high(&mut self, value: u64)
        ensures { self.new ≡ with_ddtp_high value self.old }
    {
        if !self.is_slow() {
            self.set_ddtp_at_once(value);
        } else if !has_bit(self.ddtp, DDTP_BUSY) {
            self.ddtp = pointer_after(self.ddtp, value);
        }
    }

    // Writes ddtp of an IOMMU without delays.
    fn set_ddtp_at_once(&mut self, value: u64)
        requires { is_slow self.old ≡ false }
        ensures { self.new ≡ with_ddtp value self.old }
    {
        if is_mode(value) {
            self.ddtp = pointer(value);
            self.acting = self.ddtp;
        }
    }

    // Writes icvec.
    fn set_icvec(&mut self, value: u64)
        ensures { self.new ≡ with_write Icvec value self.old }
    {
        self.icvec = icvec_after_write(self.features.vectors(), value);
    }

    /// Writes eight bytes at offset `off`, at which such a write is legal: a whole register, or nothing if there is none.
    pub fn set_wide(&mut self, off: u64, value: u64)
        requires { IsTrue (is_legal self.old.features off 8) }
        ensures { self.new ≡ written_wide (slot_at self.old.features off) value self.old }
    {
        match off {
            DDTP => self.set_ddtp(value),
            CQB => self.commands.set_base(value),
            FQB => self.faults.set_base(value),
            ICVEC => self.set_icvec(value),
            CAPABILITIES => {}
            _ => self.set_table_wide(off, value),
        }
    }

    /// Writes four bytes at offset `off`, at which such a write is legal: a whole register, a half of one, or nothing. `value` is
    /// below 2^32.
    pub fn set_four(&mut self, off: u64, value: u64)
        requires legal { IsTrue (is_legal self.old.features off 4) }
        requires fits { value < 2 ^ 32 }
        ensures { self.new ≡ written_at (slot_at self.old.features off) value self.old }
    {
        match off {
            DDTP => self.set_ddtp(with_low(self.ddtp, value)),
            DDTP_HIGH => self.set_ddtp_high(with_high(self.ddtp, value)),
            CQB => self.commands.set_base_low(value),
            CQB_HIGH => self.commands.set_base_high(value),
            CQT => self.commands.set_tail(value),
            FQB => self.faults.set_base_low(value),
            FQB_HIGH => self.faults.set_base_high(value),
            FQH => self.faults.set_head(value),
            CQCSR => self.control_commands(value),
            FQCSR => self.control_faults(value),
            IPSR => self.ipsr = ipsr_after_write(self.ipsr, value),
            ICVEC => self.set_icvec(with_low(self.icvec, value)),
            ICVEC_HIGH => self.set_icvec(with_high(self.icvec, value)),
            FCTL => self.set_fctl(value),
            CAPABILITIES | CAPABILITIES_HIGH | CQH | FQT => {}
            _ => self.set_table_four(off, value),
        }
    }

    // Writes cqcsr, unless it is busy. Turning the queue on sets cqh to 0.
    fn control_commands(&mut self, value: u64)
        ensures { self.new ≡ with_write Cqcsr value self.old }
    {
        if self.commands.is_busy() {
            return;
        }
        if turns_on(self.commands.control, value) {
            self.commands.head = 0;
        }
        self.commands.control = cqcsr_after_write(self.is_slow(), self.commands.control, value);
    }

    // Writes fqcsr, unless it is busy. Turning the queue on sets fqt to 0.
    fn control_faults(&mut self, value: u64)
        ensures { self.new ≡ with_write Fqcsr value self.old }
    {
        if self.faults.is_busy() {
            return;
        }
        if turns_on(self.faults.control, value) {
            self.faults.tail = 0;
        }
        self.faults.control = fqcsr_after_write(self.is_slow(), self.faults.control, value);
    }

    /// Ends the write that keeps a register busy, so that it acts. Returns whether it was busy. The rule of pending interrupts has nothing
    /// to add.
    pub fn finish(&mut self, register: Busy) -> bool
        ensures busy { result ≡ is_busy_at self.old register }
        ensures settled { OnTrue result (self.new ≡ settled register self.old) }
        ensures idle { OnFalse result (self.new ≡ self.old) }
        ensures pending { with_pending self.old ≡ self.old → with_pending self.new ≡ self.new }
    {
        match register {
            Busy::Directory => self.finish_directory(),
            Busy::Commands => self.finish_commands(),
            Busy::Faults => self.finish_faults(),
        }
    }

    // Ends the write of ddtp: requests go by it from now on.
    fn finish_directory(&mut self) -> bool
        ensures busy { result ≡ is_busy_at self.old busy.Directory }
        ensures settled { OnTrue result (self.new ≡ settled busy.Directory self.old) }
        ensures idle { OnFalse result (self.new ≡ self.old) }
    {
        if !has_bit(self.ddtp, DDTP_BUSY) {
            return false;
        }
        self.ddtp = pointer(self.ddtp);
        self.acting = self.ddtp;
        true
    }

    // Ends the write of cqcsr: the command queue is on if it is enabled.
    fn finish_commands(&mut self) -> bool
        ensures busy { result ≡ is_busy_at self.old busy.Commands }
        ensures settled { OnTrue result (self.new ≡ settled busy.Commands self.old) }
        ensures idle { OnFalse result (self.new ≡ self.old) }
        ensures pending { with_pending self.old ≡ self.old → with_pending self.new ≡ self.new }
    {
        if !self.commands.is_busy() {
            return false;
        }
        self.commands.control = control_settled(self.commands.control);
        true
    }

    // Ends the write of fqcsr: the fault queue is on if it is enabled.
    fn finish_faults(&mut self) -> bool
        ensures busy { result ≡ is_busy_at self.old busy.Faults }
        ensures settled { OnTrue result (self.new ≡ settled busy.Faults self.old) }
        ensures idle { OnFalse result (self.new ≡ self.old) }
        ensures pending { with_pending self.old ≡ self.old → with_pending self.new ≡ self.new }
    {
        if !self.faults.is_busy() {
            return false;
        }
        self.faults.control = control_settled(self.faults.control);
        true
    }

    /// Advances the command queue's head, cqh, by one entry, from the last to the first.
    pub fn pass_command(&mut self)
        ensures { self.new ≡ record self.old { cqh = (self.old.cqh + 1) % entries_of self.old.cqb } }
    {
        let next = self.commands.head + 1;
        self.commands.set_head(next);
    }

    /// Advances the fault queue's tail, fqt, by one entry, from the last to the first, and sets fip if fie is set.
    pub fn pass_record(&mut self)
        ensures { self.new ≡ tail_passed self.old }
    {
        let next = self.faults.tail + 1;
        self.faults.set_tail(next);
        if field(self.faults.control, 1, 1) == 1 {
            self.ipsr = with_field(self.ipsr, 1, 1, 1);
        }
    }

    /// Sets cqmf, bit 8 of cqcsr: the command queue met a memory fault ("Command-queue CSR (cqcsr)").
    pub fn raise_cqmf(&mut self)
        ensures { self.new ≡ record self.old { cqcsr = with_bit self.old.cqcsr 8 } }
    {
        self.commands.raise(CQMF);
    }

    /// Sets cmd_ill, bit 10 of cqcsr: the command at the head is illegal ("Command-queue CSR (cqcsr)").
    pub fn raise_cmd_ill(&mut self)
        ensures { self.new ≡ record self.old { cqcsr = with_bit self.old.cqcsr 10 } }
    {
        self.commands.raise(CMD_ILL);
    }

    /// Sets fence_w_ip, bit 11 of cqcsr: an IOFENCE.C asked for an interrupt ("Command-queue CSR (cqcsr)").
    pub fn raise_fence(&mut self)
        ensures { self.new ≡ record self.old { cqcsr = with_bit self.old.cqcsr 11 } }
    {
        self.commands.raise(FENCE_W_IP);
    }

    /// Sets fqmf, bit 8 of fqcsr: the fault queue met a memory fault ("Fault queue CSR (fqcsr)").
    pub fn raise_fqmf(&mut self)
        ensures { self.new ≡ record self.old { fqcsr = with_bit self.old.fqcsr 8 } }
    {
        self.faults.raise(FQMF);
    }

    /// Sets fqof, bit 9 of fqcsr: the fault queue was full ("Fault queue CSR (fqcsr)").
    pub fn raise_fqof(&mut self)
        ensures { self.new ≡ record self.old { fqcsr = with_bit self.old.fqcsr 9 } }
    {
        self.faults.raise(FQOF);
    }

    /// The rule of pending interrupts: sets each of cip and fip of ipsr if one of its causes is set and its interrupt is enabled
    /// ("Interrupt pending status register (ipsr)").
    pub fn settle(&mut self)
        ensures value { self.new ≡ with_pending self.old }
        ensures settled { with_pending self.new ≡ self.new }
    {
        let command = field(self.commands.control, 1, 1) == 1
            && field(self.commands.control, 8, 4) != 0;
        let fault = field(self.faults.control, 1, 1) == 1 && field(self.faults.control, 8, 2) != 0;
        self.ipsr = pending_after(self.ipsr, 0, command) + pending_after(self.ipsr, 1, fault);
    }
}
