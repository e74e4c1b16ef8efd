//! A step whose access goes to a given address, or is denied so, whatever these caches and the tables say: the step of an IOMMU that keeps what it
//! likes (RISC-V IOMMU Architecture 1.0, "Caching in-memory data structures").

ghost use Rattle.std.specs.Prelude.{◌≡◌, ◌<◌, [], length, nat_lt, slice_get};
ghost use Rattle.std.specs.Bool.{OnFalse};
ghost use Rattle.iom_bits.specs.declared.causes.Kind.TheVariants as kind;
ghost use Rattle.iom_blk.specs.Phases.{asks};
ghost use Rattle.iom_virtq.specs.Bus.{Read, Write, is_granted, reply_of};
ghost use Rattle.iom_core.specs.Access.{access_to, effect_at};
ghost use Rattle.iom_core.specs.Rows.{acted_row, device_row_led, dma_row_led, machine_by, moving_at, row, translation_row_led};
ghost use Rattle.iom_core.specs.State.{device_id_end, in_front_of, state_on};
ghost use Rattle.iom_core.specs.Table.{access_of_none, acted, answer_of, asking_where, is_device_access};

use crate::access::{Denial, Request};
use crate::board::{Board, device_request, translation_request};
use crate::iommu::Iommu;
use crate::step::{Answer, Step};
use arrayvec::ArrayVec;
use iom_bits::Kind;
use iom_blk::{Blk, Moved};
use iom_mem::WritableRegion;
use iom_messages::Messages;
use iom_virtq::{Access, Bus};

impl Iommu {
    // Reads as `read` does, where the request goes to this address, or is denied so. Nothing is cached.
    fn read_at<M: WritableRegion>(
        &mut self,
        ram: &mut M,
        messages: &Messages,
        did: u32,
        iova: u64,
        out: &mut [u8],
        goes: Result<u64, Denial>,
    ) -> Access
        requires { did < device_id_end }
        ensures reply { reply_of result out.new
            ≡ (effect_at (in_front_of (M.memory ram.old) self.old) messages.now (access_to did iova kind.Read) (Read iova (length out.old)) goes).reply }
        ensures left { in_front_of (M.memory ram.new) self.new
            ≡ machine_by (in_front_of (M.memory ram.old) self.old)
            (effect_at (in_front_of (M.memory ram.old) self.old) messages.now (access_to did iova kind.Read) (Read iova (length out.old)) goes) }
        ensures messages { messages.now
            ≡ (effect_at (in_front_of (M.memory ram.old) self.old) messages.now (access_to did iova kind.Read) (Read iova (length out.old)) goes).messages }
        ensures unchanged { OnFalse (is_granted result) (out.new ≡ out.old) }
        ensures borrow { M.name ram.new ≡ M.name ram.old }
    {
        match goes {
            Err(denial) => self.deny(ram, &Request::of(did, iova, Kind::Read), denial),
            Ok(addr) if ram.read(addr, out) => Access::Ok,
            Ok(_) => Access::Outside,
        }
    }

    // Writes as `write` does, where the request goes to this address, or is denied so. Nothing is cached.
    fn write_at<M: WritableRegion>(
        &mut self,
        ram: &mut M,
        messages: &mut Messages,
        did: u32,
        iova: u64,
        bytes: &[u8],
        goes: Result<u64, Denial>,
    ) -> Access
        requires { did < device_id_end }
        ensures reply { reply_of result []
            ≡ (effect_at (in_front_of (M.memory ram.old) self.old) messages.old (access_to did iova kind.Write) (Write iova bytes.now) goes).reply }
        ensures left { in_front_of (M.memory ram.new) self.new
            ≡ machine_by (in_front_of (M.memory ram.old) self.old)
            (effect_at (in_front_of (M.memory ram.old) self.old) messages.old (access_to did iova kind.Write) (Write iova bytes.now) goes) }
        ensures messages { messages.new
            ≡ (effect_at (in_front_of (M.memory ram.old) self.old) messages.old (access_to did iova kind.Write) (Write iova bytes.now) goes).messages }
        ensures borrow { M.name ram.new ≡ M.name ram.old }
    {
        match goes {
            Err(denial) => self.deny(ram, &Request::of(did, iova, Kind::Write), denial),
            Ok(addr) if messages.put(ram, addr, bytes) => Access::Ok,
            Ok(_) => Access::Outside,
        }
    }
}

/// A device's way to memory for one access that goes to a given address, or is denied so.
#[derive(Drop)]
pub struct LedPort<'m, 'i, 's, M: WritableRegion> {
    /// The memory.
    pub(crate) ram: &'m mut M,
    /// The IOMMU: its registers, and its caches, which stay as they are.
    pub(crate) iommu: &'i mut Iommu,
    /// The messages that were sent, and the window into which they are.
    pub(crate) messages: &'s mut Messages,
    /// The device's id, 24 bits.
    pub(crate) did: u32,
    /// Where the access goes, or why it is denied.
    pub(crate) goes: Result<u64, Denial>,
    /// The device's id is below 2^24.
    pub ghost led_did_fits: { did < device_id_end },
}

impl<M: WritableRegion> Bus for LedPort<'_, '_, '_, M> {
    ghost use Rattle.std.specs.Prelude.{◌≡◌};
    ghost use Rattle.iom_core.specs.Access.{effect_at, request_of};
    ghost use Rattle.iom_core.specs.Rows.{machine_by};
    ghost use Rattle.iom_core.specs.State.{in_front_of};

    ghost answers = { λ old ask reply new. (new.ram.ghost_name ≡ old.ram.ghost_name)
        × (M.name new.ram.now ≡ M.name old.ram.now)
        × (new.iommu.ghost_name ≡ old.iommu.ghost_name)
        × (new.messages.ghost_name ≡ old.messages.ghost_name)
        × (reply ≡ (effect_at (in_front_of (M.memory old.ram.now) old.iommu.now) old.messages.now (request_of old.did ask) ask old.goes).reply)
        × (in_front_of (M.memory new.ram.now) new.iommu.now
        ≡ machine_by (in_front_of (M.memory old.ram.now) old.iommu.now)
        (effect_at (in_front_of (M.memory old.ram.now) old.iommu.now) old.messages.now (request_of old.did ask) ask old.goes))
        × (new.messages.now
        ≡ (effect_at (in_front_of (M.memory old.ram.now) old.iommu.now) old.messages.now (request_of old.did ask) ask old.goes).messages) };

    fn read(&mut self, iova: u64, out: &mut [u8]) -> Access {
        self.iommu
            .read_at(self.ram, self.messages, self.did, iova, out, self.goes)
    }

    fn write(&mut self, iova: u64, bytes: &[u8]) -> Access {
        self.iommu
            .write_at(self.ram, self.messages, self.did, iova, bytes, self.goes)
    }
}

impl Board {
    /// Carries out one step in front of this memory, and answers as the step table does, but that the access of the step, if it makes one, goes to
    /// this address, or is denied so: for a device id below 2^24, and 1 to 64 bytes within one page of 4096 bytes. The caches have no part in that,
    /// and nothing is cached. None: the step is carried out as by `step_into`. It takes no memory of its own.
    #[tactic(auto, unfolding(crate::specs::Rows::row))]
    pub fn step_led<M: WritableRegion>(
        &mut self,
        ram: &mut M,
        step: &Step,
        goes: Option<Result<u64, Denial>>,
    ) -> Answer
        ensures answer { result ≡ (row (state_on (M.memory ram.old) self.old) step.now goes).answer }
        ensures state { state_on (M.memory ram.new) self.new ≡ (row (state_on (M.memory ram.old) self.old) step.now goes).state }
        ensures borrow { M.name ram.new ≡ M.name ram.old }
    {
        let noted = self.noted(step);
        let answer = self.act_led(ram, step, goes);
        self.interrupt(ram, noted);
        answer
    }

    // A step by its row, where its access goes to this address, or is denied so.
    fn act_led<M: WritableRegion>(
        &mut self,
        ram: &mut M,
        step: &Step,
        goes: Option<Result<u64, Denial>>,
    ) -> Answer
        ensures answer { result ≡ (acted_row (state_on (M.memory ram.old) self.old) step.now goes).answer }
        ensures state { state_on (M.memory ram.new) self.new ≡ (acted_row (state_on (M.memory ram.old) self.old) step.now goes).state }
        ensures borrow { M.name ram.new ≡ M.name ram.old }
    {
        let Some(goes) = goes else {
            return self.step_unled(ram, step);
        };
        match step {
            Step::DmaRead { did, iova, len } => self.read_led(ram, *did, *iova, *len, goes),
            Step::DmaWrite { did, iova, bytes } => {
                self.write_led(ram, *did, *iova, bytes.as_slice(), goes)
            }
            Step::Translate { did, iova, kind } => {
                self.translate_led(ram, *did, *iova, *kind, goes)
            }
            Step::Device { dev } => self.device_led(ram, *dev, goes),
            _ => self.step_unled(ram, step),
        }
    }

    // A step by its row of the step table.
    #[inline(never)]
    fn step_unled<M: WritableRegion>(&mut self, ram: &mut M, step: &Step) -> Answer
        ensures answer { result ≡ (acted (state_on (M.memory ram.old) self.old) step.now).answer }
        ensures state { state_on (M.memory ram.new) self.new ≡ (acted (state_on (M.memory ram.old) self.old) step.now).state }
        ensures borrow { M.name ram.new ≡ M.name ram.old }
    {
        let mut answer = Answer::Done;
        self.by_row(ram, step, &mut answer, &mut ());
        answer
    }

    // A device's read, which is no step where the device may not ask for it.
    fn read_led<M: WritableRegion>(
        &mut self,
        ram: &mut M,
        did: u64,
        iova: u64,
        len: u64,
        goes: Result<u64, Denial>,
    ) -> Answer
        ensures answer { result ≡ (dma_row_led (state_on (M.memory ram.old) self.old)
            (asking_where (is_device_access did iova len) did (Read iova len)) goes).answer }
        ensures state { state_on (M.memory ram.new) self.new ≡ (dma_row_led (state_on (M.memory ram.old) self.old)
            (asking_where (is_device_access did iova len) did (Read iova len)) goes).state }
        ensures borrow { M.name ram.new ≡ M.name ram.old }
    {
        let Some(request) = device_request(did, iova, len, Kind::Read) else {
            return Answer::Misuse;
        };
        let mut bytes = ArrayVec::from([0; 64]);
        bytes.truncate(len as usize);
        match self.iommu.read_at(
            ram,
            &self.messages,
            request.did,
            request.iova,
            bytes.as_mut_slice(),
            goes,
        ) {
            Access::Ok => Answer::Bytes(bytes),
            Access::Denied(cause) => Answer::Denied(cause.number()),
            Access::Outside => Answer::BusError,
        }
    }

    // A device's write, which is no step where the device may not ask for it.
    fn write_led<M: WritableRegion>(
        &mut self,
        ram: &mut M,
        did: u64,
        iova: u64,
        bytes: &[u8],
        goes: Result<u64, Denial>,
    ) -> Answer
        ensures answer { result ≡ (dma_row_led (state_on (M.memory ram.old) self.old)
            (asking_where (is_device_access did iova (length bytes.now)) did (Write iova bytes.now)) goes).answer }
        ensures state { state_on (M.memory ram.new) self.new ≡ (dma_row_led (state_on (M.memory ram.old) self.old)
            (asking_where (is_device_access did iova (length bytes.now)) did (Write iova bytes.now)) goes).state }
        ensures borrow { M.name ram.new ≡ M.name ram.old }
    {
        let Some(request) = device_request(did, iova, bytes.len() as u64, Kind::Write) else {
            return Answer::Misuse;
        };
        match self.iommu.write_at(
            ram,
            &mut self.messages,
            request.did,
            request.iova,
            bytes,
            goes,
        ) {
            Access::Ok => Answer::Done,
            Access::Denied(cause) => Answer::Denied(cause.number()),
            Access::Outside => Answer::BusError,
        }
    }

    // A device's request for a translation, which is no step if the id is too wide. No byte is accessed.
    #[tactic(auto, using(crate::proofs::Translated::led_none))]
    fn translate_led<M: WritableRegion>(
        &mut self,
        ram: &mut M,
        did: u64,
        iova: u64,
        kind: Kind,
        goes: Result<u64, Denial>,
    ) -> Answer
        ensures answer { result ≡ (translation_row_led (state_on (M.memory ram.old) self.old)
            (asking_where (nat_lt did device_id_end) did (access_of_none iova kind)) goes).answer }
        ensures state { state_on (M.memory ram.new) self.new ≡ (translation_row_led (state_on (M.memory ram.old) self.old)
            (asking_where (nat_lt did device_id_end) did (access_of_none iova kind)) goes).state }
        ensures borrow { M.name ram.new ≡ M.name ram.old }
    {
        let Some(request) = translation_request(did, iova, kind) else {
            return Answer::Misuse;
        };
        match goes {
            Ok(addr) => Answer::Value(addr),
            Err(denial) => {
                let _ = self.iommu.deny(ram, &request, denial);
                Answer::Denied(denial.cause.number())
            }
        }
    }

    // A step of block device `dev`: `NoDevice` if there is no such device.
    fn device_led<M: WritableRegion>(
        &mut self,
        ram: &mut M,
        dev: u64,
        goes: Result<u64, Denial>,
    ) -> Answer
        ensures answer { result ≡ (device_row_led (state_on (M.memory ram.old) self.old) dev (slice_get self.old.devices dev) goes).answer }
        ensures state { state_on (M.memory ram.new) self.new
            ≡ (device_row_led (state_on (M.memory ram.old) self.old) dev (slice_get self.old.devices dev) goes).state }
        ensures borrow { M.name ram.new ≡ M.name ram.old }
    {
        let n = dev as usize;
        if n >= self.devices.len() {
            return Answer::NoDevice;
        }
        let (did, device) = &mut self.devices[n];
        move_led(ram, &mut self.iommu, &mut self.messages, *did, device, goes)
    }
}

// Memory and the IOMMU in front of it, lent to one device for a step whose access goes there.
#[tactic(auto, unfolding(crate::specs::Rows::moving_at))]
fn move_led<M: WritableRegion>(
    ram: &mut M,
    iommu: &mut Iommu,
    messages: &mut Messages,
    did: u32,
    device: &mut Blk,
    goes: Result<u64, Denial>,
) -> Answer
    requires { did < device_id_end }
    ensures answer { result ≡ answer_of (moving_at (in_front_of (M.memory ram.old) iommu.old) messages.old did device.old (asks device.old) goes).told }
    ensures machine { in_front_of (M.memory ram.new) iommu.new
        ≡ (moving_at (in_front_of (M.memory ram.old) iommu.old) messages.old did device.old (asks device.old) goes).machine }
    ensures messages { messages.new ≡ (moving_at (in_front_of (M.memory ram.old) iommu.old) messages.old did device.old (asks device.old) goes).messages }
    ensures device { device.new ≡ (moving_at (in_front_of (M.memory ram.old) iommu.old) messages.old did device.old (asks device.old) goes).device }
    ensures borrow { M.name ram.new ≡ M.name ram.old }
{
    let mut port = LedPort {
        ram,
        iommu,
        messages,
        did,
        goes,
    };
    match device.step(&mut port) {
        Moved::Idle => Answer::Idle,
        Moved::Did => Answer::Done,
        Moved::Denied(cause) => Answer::Denied(cause.number()),
        Moved::Outside => Answer::BusError,
    }
}
