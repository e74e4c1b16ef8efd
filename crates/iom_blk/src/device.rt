//! The device.

ghost use Rattle.std.specs.Prelude.{◌≡◌, ◌+◌, ◌%◌, ◌≤◌, ◌^◌, true, false, length, is_some, Some, None, IfNone, IfSome, IfOk};
ghost use Rattle.std.specs.Bool.{OnTrue};

use crate::broken::Broken;
use crate::bytes::{bytes_of_u16, bytes_of_u32};
use crate::flags::{DRIVER_OK, FEATURES_OK, NEEDS_RESET};
use crate::phase::Phase;
use crate::request::{BlockRequest, SECTOR};
use crate::want::{Moved, Want};
use iom_bits::has_bit;
use iom_virtq::Bus;
use std::alloc::{AllocError, Global};
use std::marker::Model;

/// A virtio block device with one queue (VIRTIO 1.2, "Block Device"). Each of its addresses is an IOVA, in bytes.
#[derive(Drop)]
pub struct Blk {
    /// The bytes of its disk: 1 to 65,536 whole sectors of 512 bytes.
    pub(crate) disk: Vec<u8>,
    /// Whether the disk is read-only: then VIRTIO_BLK_F_RO is offered.
    pub(crate) read_only: bool,
    /// DeviceFeaturesSel, 32 bits: which half of the offered features DeviceFeatures shows.
    pub(crate) features_sel: u64,
    /// DriverFeaturesSel, 32 bits: which half of the accepted features DriverFeatures writes.
    pub(crate) driver_sel: u64,
    /// The features that the driver accepts, 64 bits, as it wrote them to DriverFeatures.
    pub(crate) features: u64,
    /// QueueSel, 32 bits. Only queue 0 exists.
    pub(crate) queue_sel: u64,
    /// QueueNum, 32 bits: how many descriptors the queue has; of a ready queue a power of two from 1 to 64.
    pub(crate) size: u64,
    /// QueueDesc: the IOVA of the descriptor table; of a ready queue a multiple of 16.
    pub(crate) desc: u64,
    /// QueueDriver: the IOVA of the available ring; of a ready queue a multiple of 2.
    pub(crate) avail: u64,
    /// QueueDevice: the IOVA of the used ring; of a ready queue a multiple of 4.
    pub(crate) used_ring: u64,
    /// QueueReady. Of a ready queue each of the three parts ends at IOVA 2^64 or below.
    pub(crate) ready: bool,
    /// InterruptStatus: bit 0 is set if a buffer was used, bit 1 if the device broke.
    pub(crate) interrupts: u64,
    /// Status, 8 bits ("Device Status Field").
    pub(crate) status: u64,
    /// Why it broke: Some exactly if Status has DEVICE_NEEDS_RESET.
    pub(crate) broken: Option<Broken>,
    /// Whether the queue was notified (QueueNotify) and the available ring wasn't found empty since then.
    pub(crate) pending: bool,
    /// How many requests were taken from the available ring, modulo 2^16; its idx is compared with this.
    pub(crate) seen: u16,
    /// How many requests were given back, modulo 2^16: the idx of the used ring.
    pub(crate) used: u16,
    /// The purpose of the next access.
    pub(crate) phase: Phase,
    /// The request that is under way; if there is none, the one before.
    pub(crate) request: BlockRequest,
}

/// A piece of a request's data: in memory, and on the disk.
#[derive(Clone, Copy)]
pub(crate) struct Piece {
    /// The IOVA of its first byte.
    pub iova: u64,
    /// How many bytes it has, 1 to 64.
    pub len: u64,
    /// How many bytes of the disk come before it.
    pub at: usize,
}

impl Model for Blk {
    ghost use Rattle.iom_blk.specs.Device.{Device};
    ghost use Rattle.iom_blk.specs.Sound.{IsSound};

    ghost Value = { Device };

    ghost view = { λ b. record {
      disk = b.disk.items;
      read_only = b.read_only;
      features_sel = b.features_sel;
      driver_sel = b.driver_sel;
      features = b.features;
      queue_sel = b.queue_sel;
      size = b.size;
      desc = b.desc;
      avail = b.avail;
      used_ring = b.used_ring;
      ready = b.ready;
      interrupts = b.interrupts;
      status = b.status;
      broken = b.broken;
      pending = b.pending;
      seen = b.seen;
      used = b.used;
      phase = b.phase;
      head = b.request.head;
      chain = b.request.chain;
      header = b.request.header.items;
      answer = b.request.answer;
      used_length = b.request.used_length;
    } };

    ghost invariant = { λ b. IsSound (record {
      disk = b.disk.items;
      read_only = b.read_only;
      features_sel = b.features_sel;
      driver_sel = b.driver_sel;
      features = b.features;
      queue_sel = b.queue_sel;
      size = b.size;
      desc = b.desc;
      avail = b.avail;
      used_ring = b.used_ring;
      ready = b.ready;
      interrupts = b.interrupts;
      status = b.status;
      broken = b.broken;
      pending = b.pending;
      seen = b.seen;
      used = b.used;
      phase = b.phase;
      head = b.request.head;
      chain = b.request.chain;
      header = b.request.header.items;
      answer = b.request.answer;
      used_length = b.request.used_length;
    }) };
}

impl Blk {
    ghost use Rattle.iom_virtq.specs.Bus.{BusReply, IsShort, IsShortAsk, is_granted};
    ghost use Rattle.iom_blk.specs.Breaking.{broken_by};
    ghost use Rattle.iom_blk.specs.Device.{at_reset, sectors};
    ghost use Rattle.iom_blk.specs.Phases.{is_active, is_broken, ask_of, asks, used_entry, took, moved_of};
    ghost use Rattle.iom_blk.specs.Requests.{data_address, data_count, data_length, place};
    ghost use Rattle.iom_blk.specs.Sound.{IsDisk};
    ghost use Rattle.iom_blk.specs.Wants.{wanted, Answers};
    ghost use Rattle.iom_blk.specs.declared.want.Moved.TheVariants as moved;

    /// A device at reset, with this disk of 1 to 65,536 whole sectors of 512 bytes.
    pub fn new(disk: Vec<u8>) -> Blk
        requires { IsDisk disk.items }
        ensures { result ≡ at_reset disk.items false }
    {
        Blk::at_reset(disk, false)
    }

    /// A device at reset, with this read-only disk of 1 to 65,536 whole sectors of 512 bytes: it offers VIRTIO_BLK_F_RO, and answers
    /// each OUT with VIRTIO_BLK_S_IOERR.
    pub fn new_read_only(disk: Vec<u8>) -> Blk
        requires { IsDisk disk.items }
        ensures { result ≡ at_reset disk.items true }
    {
        Blk::at_reset(disk, true)
    }

    // A device at reset, with a disk that is read-only or not.
    #[tactic(auto, unfolding(crate::specs::Device::at_reset), using(crate::proofs::Breaks::no_bit_is_set))]
    fn at_reset(disk: Vec<u8>, read_only: bool) -> Blk
        requires { IsDisk disk.items }
        ensures { result ≡ at_reset disk.items read_only }
    {
        Blk {
            disk,
            read_only,
            features_sel: 0,
            driver_sel: 0,
            features: 0,
            queue_sel: 0,
            size: 0,
            desc: 0,
            avail: 0,
            used_ring: 0,
            ready: false,
            interrupts: 0,
            status: 0,
            broken: None,
            pending: false,
            seen: 0,
            used: 0,
            phase: Phase::Index,
            request: BlockRequest::new(0, 1),
        }
    }

    /// The bytes of its disk: 1 to 65,536 whole sectors of 512 bytes.
    pub fn disk(&self) -> &[u8]
        ensures bytes { result.now ≡ self.now.disk }
        ensures legal { IsDisk self.now.disk }
    {
        &self.disk
    }

    /// The purpose of its next access, if it makes one.
    pub fn phase(&self) -> Phase
        ensures { result ≡ self.now.phase }
    {
        self.phase
    }

    /// The head of the request that is under way, the index of its first descriptor; if there is none, that of the one before.
    pub fn head(&self) -> u16
        ensures { result ≡ self.now.head }
    {
        self.request.head
    }

    /// How many requests it took from the available ring, modulo 2^16 ("The Virtqueue Available Ring").
    pub fn taken_index(&self) -> u16
        ensures { result ≡ self.now.seen }
    {
        self.seen
    }

    /// How many requests it gave back, modulo 2^16: the idx of the used ring ("The Virtqueue Used Ring").
    pub fn used_index(&self) -> u16
        ensures { result ≡ self.now.used }
    {
        self.used
    }

    /// Why it broke since it was reset; None exactly if bit 6 of Status, DEVICE_NEEDS_RESET, is 0 (VIRTIO 1.2, "Device Status Field").
    /// A device stays broken until it is reset.
    pub fn breakage(&self) -> Option<Broken>
        ensures reason { result ≡ self.now.broken }
        ensures exact { is_some result ≡ is_broken self.now }
    {
        self.broken
    }

    /// The access that the next step asks the bus for: none, or one of 1 to 64 bytes within one page, at an IOVA.
    #[tactic(auto, unfolding(crate::specs::Phases::asks), using(crate::proofs::Breaks::broken_asks_nothing))]
    pub fn want(&self) -> Want
        ensures asks { wanted result ≡ asks self.now }
        ensures short { IfSome (asks self.now) IsShortAsk }
        ensures broken { OnTrue (is_broken self.now) (asks self.now ≡ None) }
    {
        if self.is_active() {
            self.access()
        } else {
            Want::Nothing
        }
    }

    /// One step: at most one access of `bus`. It makes the access that `want` returns, and takes the answer as `take` does. An
    /// access that isn't granted breaks the device: DEVICE_NEEDS_RESET is set, and it asks for nothing until it is reset (VIRTIO 1.2,
    /// "Device Status Field").
    pub fn step<B: Bus>(&mut self, bus: &mut B) -> Moved
        ensures idle { IfNone (asks self.old)
            ((result ≡ moved.Idle) × (self.new ≡ self.old) × (bus.new ≡ bus.old)) }
        ensures moved { IfSome (asks self.old)
            (λ ask. (reply : BusReply) × B.answers bus.old ask reply bus.new
            × (self.new ≡ took self.old reply) × (result ≡ moved_of reply.access)
            × OnTrue (is_granted reply.access) (Answers reply.bytes ask)
            × (self.new.broken ≡ broken_by self.old reply)) }
        ensures disk { OnTrue self.old.read_only (self.new.disk ≡ self.old.disk) }
    {
        match self.want() {
            Want::Nothing => Moved::Idle,
            Want::Read { iova, len } => {
                let mut buffer = [0; 64];
                let out = &mut buffer[..len as usize];
                let answer = bus.read(iova, out);
                self.take(answer, out)
            }
            Want::Write { iova, bytes } => {
                let answer = bus.write(iova, &bytes);
                self.take(answer, &[])
            }
        }
    }

    /// A copy of the device, with a disk of its own. If memory is refused, returns the fault; this device is never changed.
    pub fn try_clone(&self, alloc: Global) -> Result<Blk, AllocError>
        ensures { IfOk result (λ copy. copy ≡ self.now) }
    {
        Ok(Blk {
            disk: Vec::from_slice(alloc, &self.disk)?,
            read_only: self.read_only,
            features_sel: self.features_sel,
            driver_sel: self.driver_sel,
            features: self.features,
            queue_sel: self.queue_sel,
            size: self.size,
            desc: self.desc,
            avail: self.avail,
            used_ring: self.used_ring,
            ready: self.ready,
            interrupts: self.interrupts,
            status: self.status,
            broken: self.broken,
            pending: self.pending,
            seen: self.seen,
            used: self.used,
            phase: self.phase,
            request: self.request.copy(),
        })
    }

    // Whether the next step makes an access.
    #[tactic(auto, unfolding(crate::specs::Phases::is_active))]
    fn is_active(&self) -> bool
        ensures active { result ≡ is_active self.now }
        ensures ready { OnTrue result (self.now.ready ≡ true) }
    {
        has_bit(self.status, DRIVER_OK)
            && has_bit(self.status, FEATURES_OK)
            && !has_bit(self.status, NEEDS_RESET)
            && self.ready
            && self.pending
    }

    // The access that its phase asks the bus for.
    #[tactic(auto, unfolding(crate::specs::Phases::ask_of), using(crate::proofs::Served::place_within))]
    fn access(&self) -> Want
        requires { self.now.ready ≡ true }
        ensures asks { wanted result ≡ Some (ask_of self.now self.now.phase) }
        ensures short { IsShortAsk (ask_of self.now self.now.phase) }
    {
        match self.phase {
            Phase::Index => Want::Read {
                iova: self.avail + 2,
                len: 2,
            },
            Phase::Ring => Want::Read {
                iova: self.avail + 4 + 2 * (self.seen as u64 % self.size),
                len: 2,
            },
            Phase::Descriptor(i) => Want::Read {
                iova: self.desc + 16 * i as u64,
                len: 16,
            },
            Phase::Header => {
                let (iova, len) = self.request.header_piece();
                Want::Read { iova, len }
            }
            Phase::Data(position) => self.data_access(position),
            Phase::Status => Want::write(self.request.status_address(), &[self.request.answer]),
            Phase::UsedId => Want::write(
                self.used_entry(),
                &bytes_of_u32(self.request.head as u32),
            ),
            Phase::UsedLen => Want::write(
                self.used_entry() + 4,
                &bytes_of_u32(self.request.used_length),
            ),
            Phase::UsedIdx => Want::write(
                self.used_ring + 2,
                &bytes_of_u16(self.used.wrapping_add(1)),
            ),
        }
    }

    // The access of its phase Data: an IN writes data to memory, an OUT reads them.
    #[tactic(auto, unfolding(crate::specs::Phases::ask_of))]
    fn data_access(&self, position: u64) -> Want
        requires { self.now.phase ≡ Phase.Data position }
        ensures asks { wanted result ≡ Some (ask_of self.now (Phase.Data position)) }
        ensures short { IsShortAsk (ask_of self.now (Phase.Data position)) }
    {
        let Piece { iova, len, at } = self.data_piece(position);
        if self.request.is_in() {
            Want::write(iova, &self.disk[at..at + len as usize])
        } else {
            Want::Read { iova, len }
        }
    }

    /// The next piece of the data to move, after `position` bytes, in memory and on the disk.
    #[tactic(auto, using(crate::proofs::Served::place_within, crate::proofs::Served::data_count_within))]
    pub(crate) fn data_piece(&self, position: u64) -> Piece
        requires { self.now.phase ≡ Phase.Data position }
        ensures iova { result.iova ≡ data_address self.now.header self.now.chain position }
        ensures len { result.len ≡ data_count self.now.header self.now.chain position }
        ensures at { result.at ≡ place self.now.header position }
        ensures short { IsShort result.iova result.len }
        ensures on_disk { result.at + result.len ≤ length self.now.disk }
        ensures within { position + result.len ≤ data_length self.now.header self.now.chain }
    {
        let (iova, len) = self.request.data_piece(position);
        let at = self.request.place(position, self.sectors(), self.read_only) as usize;
        Piece { iova, len, at }
    }

    /// How many sectors of 512 bytes the disk has, at most 65,536: the configuration field `capacity`.
    pub(crate) fn sectors(&self) -> u64
        ensures value { result ≡ sectors self.now.disk }
        ensures most { result ≤ 65536 }
    {
        self.disk.len() as u64 / SECTOR
    }

    // The IOVA of the next entry of the used ring to write.
    fn used_entry(&self) -> u64
        requires { self.now.ready ≡ true }
        ensures entry { result ≡ used_entry self.now }
        ensures aligned { result % 4 ≡ 0 }
        ensures fits { result + 8 ≤ 2 ^ 64 }
    {
        self.used_ring + 4 + 8 * (self.used as u64 % self.size)
    }
}
