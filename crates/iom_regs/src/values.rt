//! Register files by the values of their registers.

ghost use Rattle.std.specs.Prelude.{◌≡◌, ◌↔◌, ◌+◌, ◌*◌, ◌^◌, ◌<◌, ◌≤◌, ◌==◌, IsSome, IfSome, IsTrue, false, true};
ghost use Rattle.std.specs.Int.{bit_at};
ghost use Rattle.iom_bits.specs.Bits.{field_of, has_bit};
ghost use Rattle.iom_bits.specs.Features.{delays_bit, is_offer, vectors_of};
ghost use Rattle.iom_regs.specs.Offers.{icvec_of};
ghost use Rattle.iom_regs.specs.Sound.{IsAtOnce, IsSettled, IsSound, is_fctl, named_bits};
ghost use Rattle.iom_regs.specs.Table.{ddtp_of, entries_of, is_busy, is_slow, queue_base_of, with_pending};
ghost use Rattle.iom_regs.specs.Values.{registers_of};

use crate::Regs;
use crate::directory::{is_mode, pointer};
use crate::layout::{BUSY, DDTP_BUSY, ON};
use crate::mapped::MappedRegisters;
use crate::offers::icvec_after_write;
use crate::ring::{Ring, entries};
use crate::vectors::{MsiVector, are_kept};
use iom_bits::{DELAYS, Features, field, has_bit};

/// What a register file holds: the features of its IOMMU, and each register that can change, as a read shows it.
#[derive(Clone, Copy)]
pub struct RegValues {
    /// The features of the IOMMU.
    pub features: Features,
    /// ddtp, 64 bits.
    pub ddtp: u64,
    /// The ddtp that requests go by, 64 bits.
    pub acting: u64,
    /// cqb, 64 bits.
    pub cqb: u64,
    /// cqh, an index.
    pub cqh: u64,
    /// cqt, an index.
    pub cqt: u64,
    /// fqb, 64 bits.
    pub fqb: u64,
    /// fqh, an index.
    pub fqh: u64,
    /// fqt, an index.
    pub fqt: u64,
    /// cqcsr, 32 bits.
    pub cqcsr: u64,
    /// fqcsr, 32 bits.
    pub fqcsr: u64,
    /// ipsr, 32 bits.
    pub ipsr: u64,
    /// icvec, 64 bits.
    pub icvec: u64,
    /// fctl, 32 bits.
    pub fctl: u64,
    /// The vectors of interrupts by message.
    pub table: [MsiVector; 4],
}

impl Regs {
    /// The register file that holds these values; None if none does. `IsSettled` has the facts that hold of each in every state.
    pub fn of(values: &RegValues) -> Option<Regs>
        ensures settled { IsSome result ↔ IsSettled (registers_of values.now) }
        ensures registers { IfSome result (λ registers. registers ≡ registers_of values.now) }
    {
        let mapped = MappedRegisters::of(values)?;
        if mapped.is_settled() {
            Some(Regs { mapped })
        } else {
            None
        }
    }

    /// The values that it holds.
    pub fn values(&self) -> RegValues
        ensures values { registers_of result ≡ self.now }
        ensures sound { IsSound self.now }
        ensures settled { with_pending self.now ≡ self.now }
    {
        self.mapped.values()
    }
}

impl MappedRegisters {
    // The register file that holds these values, without the rule of pending interrupts; None if they aren't `IsSound`.
    fn of(values: &RegValues) -> Option<MappedRegisters>
        ensures sound { IsSome result ↔ IsSound (registers_of values.now) }
        ensures registers { IfSome result (λ registers. registers ≡ registers_of values.now) }
    {
        if !values.is_sound() {
            return None;
        }
        Some(MappedRegisters {
            features: values.features,
            ddtp: values.ddtp,
            acting: values.acting,
            commands: Ring {
                base: values.cqb,
                head: values.cqh,
                tail: values.cqt,
                control: values.cqcsr,
            },
            faults: Ring {
                base: values.fqb,
                head: values.fqh,
                tail: values.fqt,
                control: values.fqcsr,
            },
            ipsr: values.ipsr,
            icvec: values.icvec,
            fctl: values.fctl,
            table: values.table,
        })
    }

    fn values(&self) -> RegValues
        ensures values { registers_of result ≡ self.now }
        ensures sound { IsSound self.now }
    {
        RegValues {
            features: self.features,
            ddtp: self.ddtp,
            acting: self.acting,
            cqb: self.commands.base,
            cqh: self.commands.head,
            cqt: self.commands.tail,
            fqb: self.faults.base,
            fqh: self.faults.head,
            fqt: self.faults.tail,
            cqcsr: self.commands.control,
            fqcsr: self.faults.control,
            ipsr: self.ipsr,
            icvec: self.icvec,
            fctl: self.fctl,
            table: self.table,
        }
    }

    // Whether the rule of pending interrupts changes nothing.
    fn is_settled(&self) -> bool
        ensures { IsTrue result ↔ (with_pending self.now ≡ self.now) }
    {
        let mut settled = *self;
        settled.settle();
        settled.ipsr == self.ipsr
    }
}

impl RegValues {
    // Whether there is a file of these values.
    fn is_sound(&self) -> bool
        ensures { IsTrue result ↔ IsSound (registers_of self.now) }
    {
        is_directory_pointer(self.ddtp)
            && is_acting_pointer(self.acting)
            && is_queue(self.cqb, self.cqh, self.cqt)
            && is_queue(self.fqb, self.fqh, self.fqt)
            && is_command_control(self.cqcsr)
            && is_fault_control(self.fqcsr)
            && self.is_timely()
            && self.ipsr < 4
            && is_vector_choice(self.features, self.icvec)
            && is_fctl(self.features, self.fctl)
            && are_kept(self.features, &self.table)
    }

    // Whether nothing is busy, and requests go by ddtp, if there are no delays.
    fn is_timely(&self) -> bool
        ensures timely { IsTrue result ↔ (is_slow (registers_of self.now) ≡ false → IsAtOnce (registers_of self.now)) }
        ensures offer { is_offer self.now.features ≡ true }
    {
        has_delays(self.features) || self.is_at_once()
    }

    // Whether nothing is busy, and requests go by ddtp.
    fn is_at_once(&self) -> bool
        ensures { IsTrue result ↔ IsAtOnce (registers_of self.now) }
    {
        !has_bit(self.ddtp, DDTP_BUSY)
            && self.acting == self.ddtp
            && !has_bit(self.cqcsr, BUSY)
            && !has_bit(self.fqcsr, BUSY)
    }
}

// Whether a write of ddtp, cqcsr or fqcsr acts later.
fn has_delays(features: Features) -> bool
    ensures delays { result ≡ has_bit features delays_bit }
    ensures offer { is_offer features ≡ true }
{
    features.has(DELAYS)
}

// Whether fctl may have this value with these features.
fn is_fctl(features: Features, fctl: u64) -> bool
    ensures { result ≡ is_fctl features fctl }
{
    fctl == 2 && features.has_wires() || fctl == 0 && features.has_messages()
}

// Whether icvec may have this value with these features.
fn is_vector_choice(features: Features, icvec: u64) -> bool
    ensures { IsTrue result ↔ (icvec_of (vectors_of features) icvec ≡ icvec) }
{
    icvec_after_write(features.vectors(), icvec) == icvec
}

// Whether ddtp may have this value.
fn is_directory_pointer(ddtp: u64) -> bool
    ensures { IsTrue result ↔ ((field_of ddtp 0 4 ≤ 4) × (ddtp_of ddtp + 2 ^ 4 * bit_at ddtp 4 ≡ ddtp)) }
{
    is_mode(ddtp) && pointer(ddtp) + (field(ddtp, DDTP_BUSY, 1) << DDTP_BUSY) == ddtp
}

// Whether the ddtp that acts may have this value.
fn is_acting_pointer(acting: u64) -> bool
    ensures { IsTrue result ↔ ((field_of acting 0 4 ≤ 4) × (ddtp_of acting ≡ acting)) }
{
    is_mode(acting) && pointer(acting) == acting
}

// Whether a queue may have this base, head and tail.
fn is_queue(base: u64, head: u64, tail: u64) -> bool
    ensures { IsTrue result ↔ ((queue_base_of base ≡ base) × (head < entries_of base) × (tail < entries_of base)) }
{
    field(base, 0, 5) + (field(base, 10, 44) << 10) == base
        && head < entries(base)
        && tail < entries(base)
}

// Whether cqcsr may have this value.
fn is_command_control(control: u64) -> bool
    ensures { IsTrue result
        ↔ ((named_bits control 4 ≡ control) × (is_busy control ≡ false → bit_at control 16 ≡ bit_at control 0) × (bit_at control 9 ≡ 0)) }
{
    has_named_bits(control, 4) && is_on_as_enabled(control) && field(control, 9, 1) == 0
}

// Whether fqcsr may have this value.
fn is_fault_control(control: u64) -> bool
    ensures { IsTrue result ↔ ((named_bits control 2 ≡ control) × (is_busy control ≡ false → bit_at control 16 ≡ bit_at control 0)) }
{
    has_named_bits(control, 2) && is_on_as_enabled(control)
}

// Whether a queue with this control and status is on if it is enabled, unless it is busy.
fn is_on_as_enabled(control: u64) -> bool
    ensures { IsTrue result ↔ (is_busy control ≡ false → bit_at control 16 ≡ bit_at control 0) }
{
    has_bit(control, BUSY) || field(control, ON, 1) == field(control, 0, 1)
}

// Whether a control and status register with so many flags from bit 8 on has no other bit.
fn has_named_bits(control: u64, count: u32) -> bool
    requires some { 1 ≤ count }
    requires few { count ≤ 8 }
    ensures { IsTrue result ↔ (named_bits control count ≡ control) }
{
    let (low, flags, on) = (
        field(control, 0, 2),
        field(control, 8, count),
        field(control, ON, 2),
    );
    low + flags * 256 + on * 65536 == control
}
