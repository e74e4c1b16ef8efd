//! The registers of a device (VIRTIO 1.2, "MMIO Device Register Layout").

ghost use Rattle.std.specs.Prelude.{◌≡◌, ◌+◌, ◌*◌, ◌<◌, ◌≤◌, ◌^◌, ◌%◌, true, false, nat_le};
ghost use Rattle.std.specs.Bool.{OnTrue, OnFalse};
ghost use Rattle.iom_blk.specs.Registers.{is_legal, is_power, is_accepted, offered, status_after, acknowledged};

use crate::device::Blk;
use crate::flags::{FEATURES_OK, NEEDS_RESET};
use crate::offsets::*;
use crate::phase::Phase;
use crate::request::BlockRequest;
use iom_bits::{field, has_bit, with_field};

/// The feature VIRTIO_BLK_F_RO, by its bit.
const READ_ONLY_FEATURE: u32 = 5;

/// QueueNumMax.
const LARGEST_QUEUE: u64 = 64;

impl Blk {
    ghost use Rattle.iom_blk.specs.Registers.{read, read_value, configured, with_write, with_queue, is_queue, with_ready, accepting, with_status};
    ghost use Rattle.iom_blk.specs.Phases.{is_broken};
    ghost use Rattle.iom_blk.specs.Sound.{IsGoodQueue};

    /// Reads `size` bytes at offset `off`, in bytes, as a number; None if the access isn't legal. An access is legal if `size` is 4,
    /// `off` is a multiple of it, and `off` is below 0x1000; from 0x100 on, in the configuration, `size` may also be 1 or 2. A place
    /// without a register reads 0 ("MMIO Device Register Layout").
    #[tactic(auto, unfolding(crate::specs::Registers::read))]
    pub fn reg_read(&self, off: u64, size: u64) -> Option<u64>
        ensures { result ≡ read self.now off size }
    {
        if !is_legal(off, size) {
            return None;
        }
        Some(if off < CONFIG {
            self.read_register(off)
        } else {
            self.read_configuration(off, size)
        })
    }

    /// Writes the `size` bytes of `value` at offset `off`, in bytes. Returns whether the access is legal, by the rule of `reg_read`;
    /// if it isn't, nothing is changed. With size 4, `value` is below 2^32. Read-only registers and the configuration stay as they
    /// are.
    #[tactic(auto, unfolding(crate::specs::Registers::with_write), using(crate::proofs::Breaks::written_stays, crate::proofs::Breaks::written_reason))]
    pub fn reg_write(&mut self, off: u64, size: u64, value: u64) -> bool
        requires { size ≡ 4 → value < 2 ^ 32 }
        ensures legal { result ≡ is_legal off size }
        ensures written { OnTrue result (self.new ≡ with_write self.old off value) }
        ensures refused { OnFalse result (self.new ≡ self.old) }
        ensures broken { (off ≡ 0x70 → 0 < value) → is_broken self.old ≡ true → is_broken self.new ≡ true }
        ensures reason { (off ≡ 0x70 → 0 < value) → self.new.broken ≡ self.old.broken }
    {
        let legal = is_legal(off, size);
        if legal && off < CONFIG {
            self.set(off, value);
        }
        legal
    }

    // The value of the register at an offset below 0x100.
    #[tactic(auto, unfolding(crate::specs::Registers::read_value))]
    fn read_register(&self, off: u64) -> u64
        ensures { result ≡ read_value self.now off }
    {
        match off {
            MAGIC_VALUE => 0x7472_6976,
            VERSION | DEVICE_ID => 2,
            DEVICE_FEATURES => offered_features(self.read_only, self.features_sel),
            QUEUE_NUM_MAX if self.queue_sel == 0 => LARGEST_QUEUE,
            QUEUE_READY if self.queue_sel == 0 && self.ready => 1,
            INTERRUPT_STATUS => self.interrupts,
            STATUS => self.status,
            SHM_LEN_LOW | SHM_LEN_HIGH | SHM_BASE_LOW | SHM_BASE_HIGH => 0xffff_ffff,
            _ => 0,
        }
    }

    // `size` bytes of the configuration at offset `off`.
    #[tactic(auto, unfolding(crate::specs::Registers::configured))]
    fn read_configuration(&self, off: u64, size: u64) -> u64
        requires from { CONFIG ≤ off }
        requires some { 1 ≤ size }
        requires most { size ≤ 4 }
        requires within { off % size ≡ 0 }
        ensures { result ≡ configured self.now off size }
    {
        if off < CONFIG + 8 {
            field(
                self.sectors(),
                (8 * (off - CONFIG)) as u32,
                (8 * size) as u32,
            )
        } else {
            0
        }
    }

    // Writes a register below 0x100.
    #[tactic(auto, unfolding(crate::specs::Registers::with_write))]
    fn set(&mut self, off: u64, value: u64)
        requires register { off < CONFIG }
        requires fits { value < 2 ^ 32 }
        ensures { self.new ≡ with_write self.old off value }
    {
        match off {
            DEVICE_FEATURES_SEL => self.features_sel = value,
            DRIVER_FEATURES => self.accept(value),
            DRIVER_FEATURES_SEL => self.driver_sel = value,
            QUEUE_SEL => self.queue_sel = value,
            QUEUE_READY => {
                if self.queue_sel == 0 {
                    self.set_ready(has_bit(value, 0));
                }
            }
            QUEUE_NOTIFY => {
                if value == 0 {
                    self.pending = true;
                }
            }
            INTERRUPT_ACK => self.interrupts = interrupts_after_ack(self.interrupts, value),
            STATUS => self.set_status(value),
            _ if self.queue_sel == 0 && !self.ready => self.set_queue(off, value),
            _ => {}
        }
    }

    // Writes DriverFeatures.
    #[tactic(auto, unfolding(crate::specs::Registers::accepting))]
    fn accept(&mut self, value: u64)
        requires { value < 2 ^ 32 }
        ensures { self.new ≡ accepting self.old value }
    {
        if has_bit(self.status, FEATURES_OK) {
            return;
        }
        match self.driver_sel {
            0 => self.features = with_field(self.features, 0, 32, value),
            1 => self.features = with_field(self.features, 32, 32, value),
            _ => {}
        }
    }

    // Writes QueueNum or an address of the queue, which isn't ready.
    #[tactic(auto, unfolding(crate::specs::Registers::with_queue))]
    fn set_queue(&mut self, off: u64, value: u64)
        requires free { self.old.ready ≡ false }
        requires fits { value < 2 ^ 32 }
        ensures { self.new ≡ with_queue self.old off value }
    {
        match off {
            QUEUE_NUM => self.size = value,
            QUEUE_DESC_LOW => self.desc = with_field(self.desc, 0, 32, value),
            QUEUE_DESC_HIGH => self.desc = with_field(self.desc, 32, 32, value),
            QUEUE_DRIVER_LOW => self.avail = with_field(self.avail, 0, 32, value),
            QUEUE_DRIVER_HIGH => self.avail = with_field(self.avail, 32, 32, value),
            QUEUE_DEVICE_LOW => self.used_ring = with_field(self.used_ring, 0, 32, value),
            QUEUE_DEVICE_HIGH => self.used_ring = with_field(self.used_ring, 32, 32, value),
            _ => {}
        }
    }

    // Writes QueueReady.
    #[tactic(auto, unfolding(crate::specs::Registers::with_ready))]
    fn set_ready(&mut self, ready: bool)
        ensures { self.new ≡ with_ready self.old ready }
    {
        if !ready {
            self.phase = Phase::Index;
            self.ready = false;
            self.seen = 0;
            self.used = 0;
        } else if self.is_queue() {
            self.ready = true;
        }
    }

    // Whether the queue may be ready.
    #[tactic(auto, unfolding(crate::specs::Registers::is_queue))]
    fn is_queue(&self) -> bool
        ensures queue { result ≡ is_queue self.now }
        ensures good { OnTrue result (IsGoodQueue self.now.size self.now.desc self.now.avail self.now.used_ring) }
    {
        if !is_power(self.size) {
            return false;
        }
        self.desc % 16 == 0
            && self.avail % 2 == 0
            && self.used_ring % 4 == 0
            && fits(self.desc, 16 * self.size)
            && fits(self.avail, 4 + 2 * self.size)
            && fits(self.used_ring, 4 + 8 * self.size)
    }

    // Writes Status.
    #[tactic(auto, unfolding(crate::specs::Registers::with_status, crate::specs::Device::at_reset), using(crate::proofs::Breaks::status_keeps, crate::proofs::Breaks::no_bit_is_set))]
    fn set_status(&mut self, value: u64)
        ensures { self.new ≡ with_status self.old value }
    {
        if value != 0 {
            self.status = status_after(self.read_only, self.status, self.features, value);
            return;
        }
        self.phase = Phase::Index;
        self.ready = false;
        self.features_sel = 0;
        self.driver_sel = 0;
        self.features = 0;
        self.queue_sel = 0;
        self.size = 0;
        self.desc = 0;
        self.avail = 0;
        self.used_ring = 0;
        self.interrupts = 0;
        self.status = 0;
        self.broken = None;
        self.pending = false;
        self.seen = 0;
        self.used = 0;
        self.request = BlockRequest::new(0, 1);
    }
}

// Whether an access of `size` bytes at offset `off` is legal.
#[tactic(auto, unfolding(crate::specs::Registers::is_legal))]
fn is_legal(off: u64, size: u64) -> bool
    ensures legal { result ≡ is_legal off size }
    ensures register { OnTrue result (off < CONFIG → size ≡ 4) }
    ensures part { OnTrue result ((1 ≤ size) × (size ≤ 4) × (off % size ≡ 0)) }
{
    (size == 4 || ((size == 1 || size == 2) && off >= CONFIG)) && off % size == 0 && off < 0x1000
}

// The half of the offered features that a selector chooses.
fn offered_features(read_only: bool, sel: u64) -> u64
    ensures { result ≡ offered read_only sel }
{
    match sel {
        0 if read_only => 0x220,
        0 => 0x200,
        1 => 3,
        _ => 0,
    }
}

// Whether the features that a driver accepts include the required ones, and all were offered.
#[tactic(auto, unfolding(crate::specs::Registers::is_accepted))]
fn is_accepted(read_only: bool, features: u64) -> bool
    ensures { result ≡ is_accepted read_only features }
{
    field(features, 0, 5) == 0
        && (read_only || !has_bit(features, READ_ONLY_FEATURE))
        && field(features, 6, 3) == 0
        && field(features, 10, 22) == 0
        && field(features, 32, 32) == 3
}

// Status after a write of `value`, which isn't 0.
#[tactic(auto, unfolding(crate::specs::Registers::status_after))]
fn status_after(read_only: bool, status: u64, features: u64, value: u64) -> u64
    ensures { result ≡ status_after read_only status features value }
{
    let accepted = if has_bit(value, FEATURES_OK) && is_accepted(read_only, features) {
        8
    } else {
        0
    };
    field(value, 0, 3) + accepted + 64 * field(status, NEEDS_RESET, 1) + 128 * field(value, 7, 1)
}

// InterruptStatus after a write of `value` to InterruptACK: a 1 clears each bit.
#[tactic(auto, unfolding(crate::specs::Registers::acknowledged))]
fn interrupts_after_ack(interrupts: u64, value: u64) -> u64
    ensures value { result ≡ acknowledged interrupts value }
    ensures small { result < 4 }
{
    let used = if has_bit(value, 0) {
        0
    } else {
        field(interrupts, 0, 1)
    };
    let changed = if has_bit(value, 1) {
        0
    } else {
        field(interrupts, 1, 1)
    };
    used + 2 * changed
}

// Whether a queue of this size may be ready: a power of two up to 64.
#[tactic(auto, unfolding(crate::specs::Registers::is_power))]
fn is_power(size: u64) -> bool
    ensures power { result ≡ is_power size }
    ensures some { OnTrue result (1 ≤ size) }
    ensures most { OnTrue result (size ≤ 64) }
{
    matches!(size, 1 | 2 | 4 | 8 | 16 | 32 | 64)
}

// Whether the last of `size` bytes at an address is below 2^64.
fn fits(addr: u64, size: u64) -> bool
    ensures { result ≡ nat_le (addr + size) (2 ^ 64) }
{
    addr as u128 + size as u128 <= 1 << 64
}
