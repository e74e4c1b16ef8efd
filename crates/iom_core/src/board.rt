//! A platform without its memory: the IOMMU and the block devices, and the steps that they take in front of a memory.

ghost use Rattle.std.specs.Prelude.{ℕ, ◌≡◌, ◌*◌, true, false, IsTrue, length, Some, None, IfOk, IfSome, IfNone, nat_lt, slice_get};
ghost use Rattle.std.specs.Option.{option_map};
ghost use Rattle.iom_mem.specs.Lent.{is_lendable, memory_of};
ghost use Rattle.iom_core.specs.Access.{access_to};
ghost use Rattle.iom_core.specs.State.{device_id_end, in_front_of, state_on};
ghost use Rattle.iom_core.specs.Table.{is_device_access};

use crate::access::Request;
use crate::caches::Lines;
use crate::devices::copy_devices;
use crate::hart::{load, store};
use crate::iommu::Iommu;
use crate::port::Port;
use crate::step::{Answer, Step};
use crate::witness::Witness;
use arrayvec::ArrayVec;
use iom_bits::{Features, Kind};
use iom_blk::Blk;
use iom_cache::{ContextCache, TransCache};
use iom_mem::{LentRam, WritableRegion};
use iom_messages::{Message, Messages, Window};
use iom_regs::Regs;
use iom_virtq::{Access, Bus};
use std::alloc::{AllocError, Global};
use std::marker::Model;

/// One IOMMU, and up to eight block devices whose accesses it translates. They have no memory of their own: each step is given one, and
/// others may write it between steps.
#[derive(Drop)]
pub struct Board {
    /// The IOMMU.
    pub(crate) iommu: Iommu,
    /// The window beside memory, and the messages that were sent into it.
    pub(crate) messages: Messages,
    /// The block devices, at most 8: each with its id, below 2^24, in the order in which they were handed in.
    pub(crate) devices: Vec<(u32, Blk)>,
}

impl Model for Board {
    ghost use Rattle.std.specs.Prelude.{◌≤◌, length};
    ghost use Rattle.iom_core.specs.State.{Board, EachFits, most_devices};

    ghost Value = { Board };

    ghost view = { λ b. record { iommu = b.iommu; messages = b.messages; devices = b.devices.items } };

    ghost invariant = { λ b. EachFits b.devices.items × (length b.devices.items ≤ most_devices) };
}

impl Board {
    ghost use Rattle.iom_core.specs.State.{AreDevices, board_with, disk_of};
    ghost use Rattle.iom_core.specs.Table.{access_of_none, acted, asked, asking_where, next, probed, told_by_step, translated};
    ghost use Rattle.iom_core.specs.Reach.{Reaches, Refuses};
    ghost use Rattle.iom_messages.specs.Messages.{without_oldest};
    ghost use Rattle.iom_virtq.specs.Bus.{Read, Write};

    /// An IOMMU that offers these features, a window beside memory or none, and these block devices, at most 8, each with an id below 2^24
    /// that no other has. Its registers are at reset, both caches empty, and no message was sent. The fault is a refused allocation for the
    /// caches or the messages; the devices are dropped then.
    pub fn new(
        alloc: Global,
        devices: Vec<(u32, Blk)>,
        features: Features,
        window: Option<Window>,
    ) -> Result<Board, AllocError>
        requires { AreDevices devices.items }
        ensures { IfOk result (λ board. board ≡ board_with features window devices.items) }
    {
        let contexts = ContextCache::new(alloc)?;
        let pages = TransCache::new(alloc)?;
        let messages = Messages::new(alloc, window)?;
        let iommu = Iommu {
            registers: Regs::with_features(features),
            lines: Lines { contexts, pages },
        };
        Ok(Board {
            iommu,
            messages,
            devices,
        })
    }

    /// An equal board, which goes its own way from here. The fault is a refused allocation, and then this one is as it was.
    pub fn try_clone(&self, alloc: Global) -> Result<Board, AllocError>
        ensures { IfOk result (λ copy. copy ≡ self.now) }
    {
        let iommu = self.iommu.try_clone(alloc)?;
        let messages = self.messages.try_clone(alloc)?;
        let devices = copy_devices(alloc, &self.devices)?;
        Ok(Board {
            iommu,
            messages,
            devices,
        })
    }

    /// Resets the IOMMU: its registers are as at reset, and both caches are empty. The messages that were sent and the block devices
    /// stay as they are.
    pub fn reset(&mut self)
        ensures { self.new ≡ record self.old { iommu = (board_with self.old.iommu.registers.features None self.old.devices).iommu } }
    {
        self.iommu.registers = Regs::with_features(self.iommu.registers.features());
        self.iommu.lines.contexts.clear();
        self.iommu.lines.pages.clear();
    }

    /// The IOMMU's registers ("Memory-mapped register interface").
    pub fn registers(&self) -> &Regs
        ensures { result.now ≡ self.now.iommu.registers }
    {
        &self.iommu.registers
    }

    /// The translation cache: in the standard the IOTLB.
    pub fn trans(&self) -> &TransCache
        ensures { result.now ≡ self.now.iommu.pages }
    {
        &self.iommu.lines.pages
    }

    /// The context cache: in the standard the DDTC.
    pub fn contexts(&self) -> &ContextCache
        ensures { result.now ≡ self.now.iommu.contexts }
    {
        &self.iommu.lines.contexts
    }

    /// The window beside memory, and the messages that were sent into it.
    pub fn messages(&self) -> &Messages
        ensures { result.now ≡ self.now.messages }
    {
        &self.messages
    }

    /// Takes out the oldest message that is kept; None if there is none.
    pub fn take_message(&mut self) -> Option<Message>
        ensures message { result ≡ slice_get self.old.messages.kept 0 }
        ensures left { self.new ≡ record self.old { messages = without_oldest self.old.messages } }
    {
        self.messages.take()
    }

    /// The bytes of the disk of block device `n`, counted from 0; None if there is no such device.
    pub fn disk(&self, n: usize) -> Option<&[u8]>
        ensures { option_map (λ disk. disk.now) result ≡ option_map disk_of (slice_get self.now.devices n) }
    {
        let (_, device) = self.devices.get(n)?;
        Some(device.disk())
    }

    /// The device id and the block device of number `n`, counted from 0; None if there is no such device.
    pub fn block_device(&self, n: usize) -> Option<&(u32, Blk)>
        ensures { option_map (λ own. own.now) result ≡ slice_get self.now.devices n }
    {
        self.devices.get(n)
    }

    /// Carries out one step in front of this memory, and writes its answer, which is that of the step table, to `answer`. A witness notices
    /// the access that the step makes, if it makes one: its context and its page, each with its source, and its way. It takes no memory of
    /// its own.
    #[inline(always)]
    pub fn step_into<M: WritableRegion, W: Witness>(
        &mut self,
        ram: &mut M,
        step: &Step,
        answer: &mut Answer,
        witness: &mut W,
    )
        ensures answer { answer.new ≡ (next (state_on (M.memory ram.old) self.old) step.now).answer }
        ensures state { state_on (M.memory ram.new) self.new ≡ (next (state_on (M.memory ram.old) self.old) step.now).state }
        ensures told { witness.new ≡ told_by_step W.next witness.old (in_front_of (M.memory ram.old) self.old.iommu)
            (asked (state_on (M.memory ram.old) self.old) step.now) }

        // What it may change of memory, what a device's read takes, and what stands after a refusal.
        ensures reach { Reaches (state_on (M.memory ram.old) self.old) step.now answer.new (state_on (M.memory ram.new) self.new) }
        ensures refused { Refuses answer.new (state_on (M.memory ram.old) self.old) (state_on (M.memory ram.new) self.new) }
        ensures borrow { M.name ram.new ≡ M.name ram.old }
    {
        self.by_table(ram, step, answer, witness);
    }

    /// Carries out one step as `step_into` does, in front of memory that its owner lends for this call: the words, of eight bytes each,
    /// from physical address `base` on. `is_lendable` says which there may be. Nothing of the loan is kept.
    pub fn step_lent<W: Witness>(
        &mut self,
        base: u64,
        words: &mut [u64],
        step: &Step,
        answer: &mut Answer,
        witness: &mut W,
    )
        requires { IsTrue (is_lendable base (8 * length words.old)) }
        ensures answer { answer.new ≡ (next (state_on (memory_of base words.old) self.old) step.now).answer }
        ensures state { state_on (memory_of base words.new) self.new
            ≡ (next (state_on (memory_of base words.old) self.old) step.now).state }
        ensures told { witness.new ≡ told_by_step W.next witness.old (in_front_of (memory_of base words.old) self.old.iommu)
            (asked (state_on (memory_of base words.old) self.old) step.now) }
        ensures reach { Reaches (state_on (memory_of base words.old) self.old) step.now answer.new (state_on (memory_of base words.new) self.new) }
        ensures refused { Refuses answer.new (state_on (memory_of base words.old) self.old) (state_on (memory_of base words.new) self.new) }
    {
        let mut lent = LentRam::new(base, words);
        self.step_into(&mut lent, step, answer, witness);
    }

    // A step by the step table: by its row, and then its interrupts by message.
    #[inline(always)]
    #[tactic(auto, unfolding(crate::specs::Table::next))]
    fn by_table<M: WritableRegion, W: Witness>(
        &mut self,
        ram: &mut M,
        step: &Step,
        answer: &mut Answer,
        witness: &mut W,
    )
        ensures answer { answer.new ≡ (next (state_on (M.memory ram.old) self.old) step.now).answer }
        ensures state { state_on (M.memory ram.new) self.new ≡ (next (state_on (M.memory ram.old) self.old) step.now).state }
        ensures told { witness.new ≡ told_by_step W.next witness.old (in_front_of (M.memory ram.old) self.old.iommu)
            (asked (state_on (M.memory ram.old) self.old) step.now) }
        ensures borrow { M.name ram.new ≡ M.name ram.old }
    {
        let noted = self.noted(step);
        self.by_row(ram, step, answer, witness);
        self.interrupt(ram, noted);
    }

    // A step by its row of the step table, its answer put in place. A device's read puts its own, so that no bytes are moved.
    #[inline(always)]
    #[tactic(auto, unfolding(crate::specs::Table::acted, crate::specs::Table::asked))]
    pub(crate) fn by_row<M: WritableRegion, W: Witness>(
        &mut self,
        ram: &mut M,
        step: &Step,
        answer: &mut Answer,
        witness: &mut W,
    )
        ensures answer { answer.new ≡ (acted (state_on (M.memory ram.old) self.old) step.now).answer }
        ensures state { state_on (M.memory ram.new) self.new ≡ (acted (state_on (M.memory ram.old) self.old) step.now).state }
        ensures told { witness.new ≡ told_by_step W.next witness.old (in_front_of (M.memory ram.old) self.old.iommu)
            (asked (state_on (M.memory ram.old) self.old) step.now) }
        ensures borrow { M.name ram.new ≡ M.name ram.old }
    {
        *answer = match step {
            Step::Load { addr, size } => load(ram, *addr, *size),
            Step::Store { addr, size, value } => store(ram, *addr, *size, *value),
            Step::RegRead { off, size } => self.iommu.reg_read(*off, *size),
            Step::RegWrite { off, size, value } => self.iommu.reg_write(*off, *size, *value),
            Step::Command if self.iommu.command(ram, &mut self.messages) => Answer::Done,
            Step::Command => Answer::Idle,
            Step::Settle(register) if self.iommu.settle(*register) => Answer::Done,
            Step::Settle(_) => Answer::Idle,
            Step::DmaRead { did, iova, len } => {
                return self.dma_read(ram, *did, *iova, *len, answer, witness);
            }
            Step::DmaWrite { did, iova, bytes } => {
                self.dma_write(ram, *did, *iova, bytes.as_slice(), witness)
            }
            Step::Translate { did, iova, kind } => {
                self.translate(ram, *did, *iova, *kind, witness)
            }
            Step::DevRead { dev, off, size } => self.dev_read(*dev, *off, *size),
            Step::DevWrite {
                dev,
                off,
                size,
                value,
            } => self.dev_write(*dev, *off, *size, *value),
            Step::Device { dev } => self.device(ram, *dev, witness),
        };
    }

    // Apart from the other steps, so that these needn't clear room for its bytes, which are read in the answer's place.
    #[inline(never)]
    fn dma_read<M: WritableRegion, W: Witness>(
        &mut self,
        ram: &mut M,
        did: u64,
        iova: u64,
        len: u64,
        answer: &mut Answer,
        witness: &mut W,
    )
        ensures answer { answer.new ≡ (probed (state_on (M.memory ram.old) self.old)
            (asking_where (is_device_access did iova len) did (Read iova len))).answer }
        ensures state { state_on (M.memory ram.new) self.new ≡ (probed (state_on (M.memory ram.old) self.old)
            (asking_where (is_device_access did iova len) did (Read iova len))).state }
        ensures told { witness.new ≡ told_by_step W.next witness.old (in_front_of (M.memory ram.old) self.old.iommu)
            (asking_where (is_device_access did iova len) did (Read iova len)) }
        ensures borrow { M.name ram.new ≡ M.name ram.old }
    {
        let Some(request) = device_request(did, iova, len, Kind::Read) else {
            *answer = Answer::Misuse;
            return;
        };
        *answer = Answer::Bytes(ArrayVec::from([0; 64]));
        let Answer::Bytes(bytes) = answer else {
            unreachable!();
        };
        bytes.truncate(len as usize);
        let mut port = Port {
            ram,
            iommu: &mut self.iommu,
            messages: &mut self.messages,
            did: request.did,
            witness,
        };
        match port.read(request.iova, bytes.as_mut_slice()) {
            Access::Ok => {}
            Access::Denied(cause) => *answer = Answer::Denied(cause.number()),
            Access::Outside => *answer = Answer::BusError,
        }
    }

    // A device's write, which is no step where the device may not ask for it.
    #[inline(always)]
    fn dma_write<M: WritableRegion, W: Witness>(
        &mut self,
        ram: &mut M,
        did: u64,
        iova: u64,
        bytes: &[u8],
        witness: &mut W,
    ) -> Answer
        ensures answer { result ≡ (probed (state_on (M.memory ram.old) self.old)
            (asking_where (is_device_access did iova (length bytes.now)) did (Write iova bytes.now))).answer }
        ensures state { state_on (M.memory ram.new) self.new ≡ (probed (state_on (M.memory ram.old) self.old)
            (asking_where (is_device_access did iova (length bytes.now)) did (Write iova bytes.now))).state }
        ensures told { witness.new ≡ told_by_step W.next witness.old (in_front_of (M.memory ram.old) self.old.iommu)
            (asking_where (is_device_access did iova (length bytes.now)) did (Write iova bytes.now)) }
        ensures borrow { M.name ram.new ≡ M.name ram.old }
    {
        let Some(request) = device_request(did, iova, bytes.len() as u64, Kind::Write) else {
            return Answer::Misuse;
        };
        let mut port = Port {
            ram,
            iommu: &mut self.iommu,
            messages: &mut self.messages,
            did: request.did,
            witness,
        };
        match port.write(request.iova, bytes) {
            Access::Ok => Answer::Done,
            Access::Denied(cause) => Answer::Denied(cause.number()),
            Access::Outside => Answer::BusError,
        }
    }

    // A device's request for a translation, which is no step if the id is too wide.
    #[tactic(auto, using(crate::proofs::Translated::served_none))]
    fn translate<M: WritableRegion, W: Witness>(
        &mut self,
        ram: &mut M,
        did: u64,
        iova: u64,
        kind: Kind,
        witness: &mut W,
    ) -> Answer
        ensures answer { result ≡ (translated (state_on (M.memory ram.old) self.old)
            (asking_where (nat_lt did device_id_end) did (access_of_none iova kind))).answer }
        ensures state { state_on (M.memory ram.new) self.new ≡ (translated (state_on (M.memory ram.old) self.old)
            (asking_where (nat_lt did device_id_end) did (access_of_none iova kind))).state }
        ensures told { witness.new ≡ told_by_step W.next witness.old (in_front_of (M.memory ram.old) self.old.iommu)
            (asking_where (nat_lt did device_id_end) did (access_of_none iova kind)) }
        ensures borrow { M.name ram.new ≡ M.name ram.old }
    {
        let Some(request) = translation_request(did, iova, kind) else {
            return Answer::Misuse;
        };
        match self.iommu.translate(ram, &request, witness) {
            Ok(addr) => Answer::Value(addr),
            Err(denial) => Answer::Denied(denial.cause.number()),
        }
    }
}

// A device id has 24 bits.
const DEVICE_ID_END: u64 = 1 << 24;

// How many bytes a device's access has at most.
const MOST_BYTES: u64 = 64;

/// The request of device `did` for `len` bytes at IOVA `iova`; None if it may not ask so: its id is below 2^24, and the bytes are 1 to 64
/// within one page of 4096 bytes.
pub(crate) fn device_request(did: u64, iova: u64, len: u64, kind: Kind) -> Option<Request>
    ensures some { IfSome result (λ request. (request ≡ access_to did iova kind) × (is_device_access did iova len ≡ true)) }
    ensures none { IfNone result (is_device_access did iova len ≡ false) }
{
    if !is_device_access(did, iova, len) {
        return None;
    }
    Some(Request::of(did as u32, iova, kind))
}

/// The request of device `did` for a translation of IOVA `iova`; None if its id isn't below 2^24.
pub(crate) fn translation_request(did: u64, iova: u64, kind: Kind) -> Option<Request>
    ensures some { IfSome result (λ request. (request ≡ access_to did iova kind) × (nat_lt did device_id_end ≡ true)) }
    ensures none { IfNone result (nat_lt did device_id_end ≡ false) }
{
    if did >= DEVICE_ID_END {
        return None;
    }
    Some(Request::of(did as u32, iova, kind))
}

// Whether a device may ask for `len` bytes at IOVA `iova`.
fn is_device_access(did: u64, iova: u64, len: u64) -> bool
    ensures { result ≡ is_device_access did iova len }
{
    did < DEVICE_ID_END && len > 0 && len <= MOST_BYTES && iova % 4096 + len <= 4096
}
