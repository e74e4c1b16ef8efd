//! A device taken apart, and put together again.

ghost use Rattle.std.specs.Prelude.{◌≡◌, ◌↔◌, IsSome, IfSome, IsTrue, length};
ghost use Rattle.iom_blk.specs.Device.{sectors};
ghost use Rattle.iom_blk.specs.Parts.{device_of};
ghost use Rattle.iom_blk.specs.Phases.{is_broken};
ghost use Rattle.iom_blk.specs.Sound.{HoldsIn, IsDisk, IsGoodQueue, IsSound};

use crate::Blk;
use crate::broken::Broken;
use crate::flags::NEEDS_RESET;
use crate::phase::Phase;
use crate::request::{BlockRequest, HEADER, SECTOR};
use iom_bits::has_bit;

/// A device but for its disk. Each field is as that of the device.
#[derive(Drop)]
pub struct BlkParts {
    /// Whether the disk is read-only.
    pub read_only: bool,
    /// DeviceFeaturesSel, 32 bits.
    pub features_sel: u64,
    /// DriverFeaturesSel, 32 bits.
    pub driver_sel: u64,
    /// The features that the driver accepts, 64 bits.
    pub features: u64,
    /// QueueSel, 32 bits.
    pub queue_sel: u64,
    /// QueueNum, 32 bits.
    pub size: u64,
    /// QueueDesc, an IOVA.
    pub desc: u64,
    /// QueueDriver, an IOVA.
    pub avail: u64,
    /// QueueDevice, an IOVA.
    pub used_ring: u64,
    /// QueueReady.
    pub ready: bool,
    /// InterruptStatus.
    pub interrupts: u64,
    /// Status, 8 bits.
    pub status: u64,
    /// Why it broke since it was reset.
    pub broken: Option<Broken>,
    /// Whether the queue was notified.
    pub pending: bool,
    /// How many requests it took, modulo 2^16.
    pub seen: u16,
    /// How many requests it gave back, modulo 2^16.
    pub used: u16,
    /// The purpose of its next access.
    pub phase: Phase,
    /// The request that is under way; if there is none, the one before.
    pub request: BlockRequest,
}

impl Blk {
    /// The device of this disk and these parts; None if there is no such device. `IsSound` has the facts that hold of each device in every
    /// state.
    pub fn of_parts(disk: Vec<u8>, parts: BlkParts) -> Option<Blk>
        ensures sound { IsSome result ↔ IsSound (device_of disk.items parts) }
        ensures device { IfSome result (λ device. device ≡ device_of disk.items parts) }
    {
        if !parts.is_sound(&disk) {
            return None;
        }
        Some(Blk {
            disk,
            read_only: parts.read_only,
            features_sel: parts.features_sel,
            driver_sel: parts.driver_sel,
            features: parts.features,
            queue_sel: parts.queue_sel,
            size: parts.size,
            desc: parts.desc,
            avail: parts.avail,
            used_ring: parts.used_ring,
            ready: parts.ready,
            interrupts: parts.interrupts,
            status: parts.status,
            broken: parts.broken,
            pending: parts.pending,
            seen: parts.seen,
            used: parts.used,
            phase: parts.phase,
            request: parts.request,
        })
    }

    /// What the device is but for its disk.
    pub fn parts(&self) -> BlkParts
        ensures parts { device_of self.now.disk result ≡ self.now }
        ensures sound { IsSound self.now }
    {
        BlkParts {
            read_only: self.read_only,
            features_sel: self.features_sel,
            driver_sel: self.driver_sel,
            features: self.features,
            queue_sel: self.queue_sel,
            size: self.size,
            desc: self.desc,
            avail: self.avail,
            used_ring: self.used_ring,
            ready: self.ready,
            interrupts: self.interrupts,
            status: self.status,
            broken: self.broken,
            pending: self.pending,
            seen: self.seen,
            used: self.used,
            phase: self.phase,
            request: self.request.copy(),
        }
    }
}

impl BlkParts {
    // Whether there is a device of this disk and these parts.
    fn is_sound(&self, disk: &[u8]) -> bool
        ensures { IsTrue result ↔ IsSound (device_of disk.now self.now) }
    {
        is_disk(disk)
            && (!self.ready || self.has_good_queue())
            && self.holds_in_phase(disk.len() as u64 / SECTOR)
            && self.interrupts < 4
            && has_bit(self.status, NEEDS_RESET) == self.broken.is_some()
    }

    // Whether its queue may be ready.
    fn has_good_queue(&self) -> bool
        ensures { IsTrue result ↔ IsGoodQueue self.now.size self.now.desc self.now.avail self.now.used_ring }
    {
        1 <= self.size
            && self.size <= 64
            && self.desc % 16 == 0
            && self.avail % 2 == 0
            && self.used_ring % 4 == 0
            && self.desc as u128 + 16 * self.size as u128 <= 1 << 64
            && self.avail as u128 + (4 + 2 * self.size as u128) <= 1 << 64
            && self.used_ring as u128 + (4 + 8 * self.size as u128) <= 1 << 64
    }

    // Whether its request is one of its phase, on a disk of so many sectors.
    fn holds_in_phase(&self, sectors: u64) -> bool
        ensures { IsTrue result ↔ HoldsIn self.now.ready self.now.size self.now.request.chain self.now.request.header.items sectors
            self.now.read_only self.now.phase }
    {
        let request = &self.request;
        match self.phase {
            Phase::Index => true,
            Phase::Descriptor(i) => {
                self.ready
                    && u64::from(i) < self.size
                    && u64::from(request.chain.limit()) == self.size
                    && request.header.is_empty()
            }
            Phase::Header => {
                self.ready
                    && (request.header.len() as u64) < HEADER
                    && request.readable() >= HEADER
                    && request.writable() >= 1
            }
            Phase::Data(position) => {
                self.ready
                    && request.header.len() as u64 == HEADER
                    && request.readable() >= HEADER
                    && request.writable() >= 1
                    && request.moves_data(sectors, self.read_only)
                    && position < request.data_length()
            }
            Phase::Status => self.ready && request.writable() >= 1,
            Phase::Ring | Phase::UsedId | Phase::UsedLen | Phase::UsedIdx => self.ready,
        }
    }
}

// Whether these bytes are a disk: 1 to 65,536 whole sectors.
fn is_disk(disk: &[u8]) -> bool
    ensures { IsTrue result ↔ IsDisk disk.now }
{
    512 <= disk.len() && disk.len() <= 33_554_432 && disk.len() % 512 == 0
}
