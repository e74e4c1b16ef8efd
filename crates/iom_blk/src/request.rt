//! A request and its meaning.

ghost use Rattle.std.specs.Prelude.{◌≡◌, ◌+◌, ◌*◌, ◌<◌, ◌≤◌, [], length, true, if◌then◌else◌};
ghost use Rattle.iom_virtq.specs.Bus.{IsShort};
ghost use Rattle.iom_blk.specs.Requests.{kind_of, sector_of, is_in, is_out, readable, writable, data_length, moves, is_served, moves_data, status_of, used_length, header_address, header_count, data_address, data_count, status_address, place};

use crate::bytes::{u32_at, u64_at};
use crate::phase::Phase;
use arrayvec::ArrayVec;
use iom_bits::has_bit;
use iom_virtq::{Chain, Side};

/// The header of a request, in bytes.
pub const HEADER: u64 = 16;

/// A sector, in bytes.
pub const SECTOR: u64 = 512;

// The types of requests: VIRTIO_BLK_T_IN, VIRTIO_BLK_T_OUT, VIRTIO_BLK_T_FLUSH.
const IN: u32 = 0;

const OUT: u32 = 1;

const FLUSH: u32 = 4;

/// The feature VIRTIO_BLK_F_FLUSH, by its bit.
const FLUSH_FEATURE: u32 = 9;

// The status of a request: VIRTIO_BLK_S_OK, VIRTIO_BLK_S_IOERR, VIRTIO_BLK_S_UNSUPP.
const OK: u8 = 0;

const FAILED: u8 = 1;

const UNSUPPORTED: u8 = 2;

/// A request as far as it was read, and its result.
#[derive(Drop)]
pub struct BlockRequest {
    /// The index of its first descriptor, below the queue's size.
    pub head: u16,
    /// The chain of the descriptors that were read; its parts' addresses are IOVAs.
    pub chain: Chain,
    /// The bytes of its header that were read so far, at most 16: type, a reserved word, and sector.
    pub header: ArrayVec<u8, 16>,
    /// The status byte, once the header is whole: VIRTIO_BLK_S_OK (0), VIRTIO_BLK_S_IOERR (1) or VIRTIO_BLK_S_UNSUPP (2).
    pub answer: u8,
    /// The length for the used ring: `len` of its entry, in bytes.
    pub used_length: u32,
}

impl BlockRequest {
    /// A request that begins at descriptor `head`, in a queue of `limit` descriptors, 1 to 64.
    pub fn new(head: u16, limit: u16) -> BlockRequest
        requires some { 1 ≤ limit }
        requires most { limit ≤ 64 }
        ensures head { result.head ≡ head }
        ensures chain { result.chain ≡ record { limit = limit; parts = [] } }
        ensures header { result.header.items ≡ [] }
        ensures answer { result.answer ≡ 0 }
        ensures used_length { result.used_length ≡ 0 }
    {
        BlockRequest {
            head,
            chain: Chain::new(limit),
            header: ArrayVec::new(),
            answer: 0,
            used_length: 0,
        }
    }

    /// A copy of the request.
    pub fn copy(&self) -> BlockRequest
        ensures head { result.head ≡ self.now.head }
        ensures chain { result.chain ≡ self.now.chain }
        ensures header { result.header.items ≡ self.now.header.items }
        ensures answer { result.answer ≡ self.now.answer }
        ensures used_length { result.used_length ≡ self.now.used_length }
    {
        let mut header = ArrayVec::new();
        let _fits = header.try_extend_from_slice(&self.header);
        BlockRequest {
            head: self.head,
            chain: self.chain.copy(),
            header,
            answer: self.answer,
            used_length: self.used_length,
        }
    }

    // Its type.
    fn kind(&self) -> u32
        requires { length self.now.header.items ≡ 16 }
        ensures { result ≡ kind_of self.now.header.items }
    {
        u32_at(&self.header, 0)
    }

    // Its first sector.
    fn sector(&self) -> u64
        requires { length self.now.header.items ≡ 16 }
        ensures { result ≡ sector_of self.now.header.items }
    {
        u64_at(&self.header, 8)
    }

    /// Whether the device writes its data: its type is VIRTIO_BLK_T_IN.
    pub fn is_in(&self) -> bool
        requires { length self.now.header.items ≡ 16 }
        ensures { result ≡ is_in self.now.header.items }
    {
        self.kind() == IN
    }

    // Whether the device reads its data: its type is VIRTIO_BLK_T_OUT.
    fn is_out(&self) -> bool
        requires { length self.now.header.items ≡ 16 }
        ensures { result ≡ is_out self.now.header.items }
    {
        self.kind() == OUT
    }

    // Whether its type has data.
    fn moves(&self) -> bool
        requires { length self.now.header.items ≡ 16 }
        ensures { result ≡ moves self.now.header.items }
    {
        self.is_in() || self.is_out()
    }

    /// How many bytes the device reads, the header among them.
    #[tactic(auto, unfolding(crate::specs::Requests::readable))]
    pub fn readable(&self) -> u64
        ensures total { result ≡ readable self.now.chain }
        ensures few { result ≤ 64 * 4294967295 }
    {
        self.chain.total(Side::Readable)
    }

    /// How many bytes the device writes, the status byte among them.
    #[tactic(auto, unfolding(crate::specs::Requests::writable))]
    pub fn writable(&self) -> u64
        ensures total { result ≡ writable self.now.chain }
        ensures few { result ≤ 64 * 4294967295 }
    {
        self.chain.total(Side::Writable)
    }

    /// How many data bytes there are between header and status byte; 0 if its type has no data.
    #[tactic(auto, unfolding(crate::specs::Requests::data_length))]
    pub fn data_length(&self) -> u64
        requires whole { length self.now.header.items ≡ 16 }
        requires header { HEADER ≤ readable self.now.chain }
        requires status { 1 ≤ writable self.now.chain }
        ensures value { result ≡ data_length self.now.header.items self.now.chain }
        ensures few { result ≤ 64 * 4294967295 }
    {
        if self.is_in() {
            self.writable() - 1
        } else if self.is_out() {
            self.readable() - HEADER
        } else {
            0
        }
    }

    // Whether its data may be moved, on a disk of `sectors` sectors.
    #[tactic(auto, unfolding(crate::specs::Requests::is_served))]
    fn is_served(&self, sectors: u64, read_only: bool) -> bool
        requires whole { length self.now.header.items ≡ 16 }
        requires header { HEADER ≤ readable self.now.chain }
        requires status { 1 ≤ writable self.now.chain }
        ensures { result ≡ is_served self.now.header.items self.now.chain sectors read_only }
    {
        let data = self.data_length();
        data % SECTOR == 0
            && self.sector() as u128 + (data / SECTOR) as u128 <= sectors as u128
            && !(read_only && self.is_out())
    }

    /// Whether there are data to move, on a disk of `sectors` sectors.
    #[tactic(auto, unfolding(crate::specs::Requests::moves_data))]
    pub(crate) fn moves_data(&self, sectors: u64, read_only: bool) -> bool
        requires whole { length self.now.header.items ≡ 16 }
        requires header { HEADER ≤ readable self.now.chain }
        requires status { 1 ≤ writable self.now.chain }
        ensures { result ≡ moves_data self.now.header.items self.now.chain sectors read_only }
    {
        self.moves() && self.is_served(sectors, read_only) && self.data_length() > 0
    }

    /// Its status byte, on a disk of `sectors` sectors and with these features accepted.
    #[tactic(auto, unfolding(crate::specs::Requests::status_of))]
    fn status(&self, sectors: u64, read_only: bool, features: u64) -> u8
        requires whole { length self.now.header.items ≡ 16 }
        requires header { HEADER ≤ readable self.now.chain }
        requires status { 1 ≤ writable self.now.chain }
        ensures { result ≡ status_of self.now.header.items self.now.chain sectors read_only features }
    {
        if self.moves() {
            return if self.is_served(sectors, read_only) {
                OK
            } else {
                FAILED
            };
        }
        if self.kind() == FLUSH && has_bit(features, FLUSH_FEATURE) {
            OK
        } else {
            UNSUPPORTED
        }
    }

    /// Judges the request once its header is complete: sets its status byte and the length for the used ring, and returns the next
    /// phase (VIRTIO 1.2, "Block Device", "Device Operation"). The disk has `sectors` sectors of 512 bytes, and these features are
    /// accepted.
    pub fn judge(&mut self, sectors: u64, read_only: bool, features: u64) -> Phase
        requires whole { length self.old.header.items ≡ 16 }
        requires header { HEADER ≤ readable self.old.chain }
        requires status { 1 ≤ writable self.old.chain }
        requires disk { sectors ≤ 65536 }
        ensures answer { self.new.answer
            ≡ status_of self.old.header.items self.old.chain sectors read_only features }
        ensures used_length { self.new.used_length
            ≡ used_length self.old.header.items self.old.chain self.new.answer }
        ensures head { self.new.head ≡ self.old.head }
        ensures chain { self.new.chain ≡ self.old.chain }
        ensures same_header { self.new.header.items ≡ self.old.header.items }
        ensures phase { result
            ≡ (if moves_data self.old.header.items self.old.chain sectors read_only then Phase.Data 0 else Phase.Status) }
    {
        self.answer = self.status(sectors, read_only, features);
        self.used_length = self.written_length(self.answer, sectors, read_only, features);
        if self.moves_data(sectors, read_only) {
            Phase::Data(0)
        } else {
            Phase::Status
        }
    }

    /// The length for the used ring of a request with status `answer`, on a disk of `sectors` sectors and with these features
    /// accepted: the device-writable bytes, if all were written, else 0.
    #[tactic(auto, unfolding(crate::specs::Requests::used_length), using(crate::proofs::Served::written_fits))]
    fn written_length(&self, answer: u8, sectors: u64, read_only: bool, features: u64) -> u32
        requires whole { length self.now.header.items ≡ 16 }
        requires status { 1 ≤ writable self.now.chain }
        requires disk { sectors ≤ 65536 }
        requires judged { answer ≡ status_of self.now.header.items self.now.chain sectors read_only features }
        ensures { result ≡ used_length self.now.header.items self.now.chain answer }
    {
        let all = self.writable();
        if (self.is_in() && answer == OK) || all == 1 {
            all as u32
        } else {
            0
        }
    }

    /// The next piece of the header to read: its IOVA, and its length, 1 to 16 bytes.
    #[tactic(auto, unfolding(crate::specs::Requests::readable, crate::specs::Requests::header_address, crate::specs::Requests::header_count))]
    pub fn header_piece(&self) -> (u64, u64)
        requires part { length self.now.header.items < 16 }
        requires header { HEADER ≤ readable self.now.chain }
        ensures address { result.0 ≡ header_address self.now.header.items self.now.chain }
        ensures count { result.1 ≡ header_count self.now.header.items self.now.chain }
        ensures short { IsShort result.0 result.1 }
    {
        let at = self.header.len() as u64;
        let (iova, count) = self.chain.piece(Side::Readable, at);
        (iova, count.min(HEADER - at))
    }

    /// The next piece of the data to move, after `position` bytes: its IOVA, and its length, 1 to 64 bytes.
    #[tactic(auto, unfolding(crate::specs::Requests::readable, crate::specs::Requests::writable, crate::specs::Requests::data_length, crate::specs::Requests::data_address, crate::specs::Requests::data_count))]
    pub fn data_piece(&self, position: u64) -> (u64, u64)
        requires whole { length self.now.header.items ≡ 16 }
        requires header { HEADER ≤ readable self.now.chain }
        requires status { 1 ≤ writable self.now.chain }
        requires within { position < data_length self.now.header.items self.now.chain }
        ensures address { result.0 ≡ data_address self.now.header.items self.now.chain position }
        ensures count { result.1 ≡ data_count self.now.header.items self.now.chain position }
        ensures short { IsShort result.0 result.1 }
    {
        let left = self.data_length() - position;
        if self.is_in() {
            let (iova, count) = self.chain.piece(Side::Writable, position);
            (iova, count.min(left))
        } else {
            let (iova, count) = self.chain.piece(Side::Readable, HEADER + position);
            (iova, count.min(left))
        }
    }

    /// The IOVA for the status byte: that of the last device-writable byte.
    #[tactic(auto, unfolding(crate::specs::Requests::writable, crate::specs::Requests::status_address))]
    pub fn status_address(&self) -> u64
        requires { 1 ≤ writable self.now.chain }
        ensures { result ≡ status_address self.now.chain }
    {
        let last = self.writable() - 1;
        let (iova, _) = self.chain.piece(Side::Writable, last);
        iova
    }

    /// The place on the disk of the data after `position` bytes, in bytes from its first one. The disk has `sectors` sectors.
    #[tactic(auto, using(crate::proofs::Served::moved_within, crate::proofs::Served::place_within))]
    pub fn place(&self, position: u64, sectors: u64, read_only: bool) -> u64
        requires whole { length self.now.header.items ≡ 16 }
        requires disk { sectors ≤ 65536 }
        requires within { position < data_length self.now.header.items self.now.chain }
        requires moved { moves_data self.now.header.items self.now.chain sectors read_only ≡ true }
        ensures place { result ≡ place self.now.header.items position }
        ensures within { result + data_count self.now.header.items self.now.chain position ≤ sectors * 512 }
    {
        self.sector() * SECTOR + position
    }
}
