//! The block devices, and what the hart and they themselves do with them.

ghost use Rattle.std.specs.Prelude.{◌≡◌, ◌<◌, slice_get, IfOk};
ghost use Rattle.std.specs.Option.{option_map};
ghost use Rattle.iom_blk.specs.Phases.{asks};
ghost use Rattle.iom_mem.specs.Memory.{Memory};
ghost use Rattle.iom_core.specs.State.{device_id_end, in_front_of, state_on};
ghost use Rattle.iom_core.specs.Table.{answer_of, asked_by, asking_for, dev_read, dev_write, dev_written, device_step, moving, told_by_step};

use crate::board::Board;
use crate::hart::overflows;
use crate::iommu::Iommu;
use crate::port::Port;
use crate::step::Answer;
use crate::witness::Witness;
use iom_blk::{Blk, Moved};
use iom_mem::WritableRegion;
use iom_messages::Messages;
use std::alloc::{AllocError, Global};

impl Board {
    /// What the hart's read of `size` bytes of the registers of block device `dev` at offset `off` answers: `Value`, `NoDevice` if there is
    /// no such device, or `BadAccess` if the registers don't take the access.
    pub(crate) fn dev_read(&self, dev: u64, off: u64, size: u64) -> Answer
        ensures { result ≡ dev_read (slice_get self.now.devices dev) off size }
    {
        let Some((_, device)) = self.devices.get(dev as usize) else {
            return Answer::NoDevice;
        };
        match device.reg_read(off, size) {
            Some(value) => Answer::Value(value),
            None => Answer::BadAccess,
        }
    }

    /// What the hart's write of `value`, `size` bytes, to the registers of block device `dev` at offset `off` answers: `Done`, or without a
    /// change `NoDevice`, `Misuse` if the value is too wide for the size, or `BadAccess`.
    pub(crate) fn dev_write(&mut self, dev: u64, off: u64, size: u64, value: u64) -> Answer
        ensures answer { (memory : Memory) →
            result ≡ (dev_written (state_on memory self.old) dev (slice_get self.old.devices dev) off size value).answer }
        ensures state { (memory : Memory) → state_on memory self.new
            ≡ (dev_written (state_on memory self.old) dev (slice_get self.old.devices dev) off size value).state }
    {
        let n = dev as usize;
        if n < self.devices.len() {
            let (_, device) = &mut self.devices[n];
            write_register(device, off, size, value)
        } else {
            Answer::NoDevice
        }
    }

    /// What a step of block device `dev` answers: `Done` for an access that was granted, `Idle` if it had none to make, `Denied`,
    /// `BusError`, or `NoDevice` if there is no such device. A witness notices the access.
    pub(crate) fn device<M: WritableRegion, W: Witness>(
        &mut self,
        ram: &mut M,
        dev: u64,
        witness: &mut W,
    ) -> Answer
        ensures answer { result
            ≡ (device_step (state_on (M.memory ram.old) self.old) dev (slice_get self.old.devices dev)).answer }
        ensures state { state_on (M.memory ram.new) self.new
            ≡ (device_step (state_on (M.memory ram.old) self.old) dev (slice_get self.old.devices dev)).state }
        ensures told { witness.new ≡ told_by_step W.next witness.old (in_front_of (M.memory ram.old) self.old.iommu)
            (asked_by (slice_get self.old.devices dev)) }
        ensures borrow { M.name ram.new ≡ M.name ram.old }
    {
        let n = dev as usize;
        if n >= self.devices.len() {
            return Answer::NoDevice;
        }
        let (did, device) = &mut self.devices[n];
        move_once(
            ram,
            &mut self.iommu,
            &mut self.messages,
            *did,
            device,
            witness,
        )
    }
}

// A write of one device's register: what it answers, and what it leaves.
#[tactic(auto, unfolding(crate::specs::Table::dev_write))]
fn write_register(device: &mut Blk, off: u64, size: u64, value: u64) -> Answer
    ensures answer { result ≡ (dev_write device.old off size value).answer }
    ensures left { device.new ≡ (dev_write device.old off size value).device }
{
    if overflows(value, size) {
        return Answer::Misuse;
    }
    if device.reg_write(off, size, value) {
        Answer::Done
    } else {
        Answer::BadAccess
    }
}

// Memory and the IOMMU in front of it, lent to one device for its step.
#[tactic(auto, unfolding(crate::specs::Table::moving))]
fn move_once<M: WritableRegion, W: Witness>(
    ram: &mut M,
    iommu: &mut Iommu,
    messages: &mut Messages,
    did: u32,
    device: &mut Blk,
    witness: &mut W,
) -> Answer
    requires { did < device_id_end }
    ensures answer { result
        ≡ answer_of (moving (in_front_of (M.memory ram.old) iommu.old) messages.old did device.old (asks device.old)).told }
    ensures machine { in_front_of (M.memory ram.new) iommu.new
        ≡ (moving (in_front_of (M.memory ram.old) iommu.old) messages.old did device.old (asks device.old)).machine }
    ensures messages { messages.new
        ≡ (moving (in_front_of (M.memory ram.old) iommu.old) messages.old did device.old (asks device.old)).messages }
    ensures device { device.new ≡ (moving (in_front_of (M.memory ram.old) iommu.old) messages.old did device.old (asks device.old)).device }
    ensures told { witness.new ≡ told_by_step W.next witness.old (in_front_of (M.memory ram.old) iommu.old)
        (option_map (asking_for did) (asks device.old)) }
    ensures borrow { M.name ram.new ≡ M.name ram.old }
{
    let mut port = Port {
        ram,
        iommu,
        messages,
        did,
        witness,
    };
    match device.step(&mut port) {
        Moved::Idle => Answer::Idle,
        Moved::Did => Answer::Done,
        Moved::Denied(cause) => Answer::Denied(cause.number()),
        Moved::Outside => Answer::BusError,
    }
}

/// Copies of these devices, each with a disk of its own. The fault is a refused allocation; these devices stay as they are.
pub(crate) fn copy_devices(
    alloc: Global,
    devices: &[(u32, Blk)],
) -> Result<Vec<(u32, Blk)>, AllocError>
    ensures { IfOk result (λ copies. copies.items ≡ devices.now) }
{
    let mut copies = Vec::new(alloc);
    for (did, device) in devices {
        copies.push((*did, device.try_clone(alloc)?))?;
    }
    Ok(copies)
}
