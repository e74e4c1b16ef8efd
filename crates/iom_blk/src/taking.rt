//! A device after an answer of its bus, phase by phase.

ghost use Rattle.std.specs.Prelude.{◌≡◌, ◌+◌, ◌<◌, ◌≤◌, true, false, length, IsSome, IfSome};
ghost use Rattle.std.specs.Bool.{OnTrue, OnFalse};

use crate::broken::Broken;
use crate::bytes::{u16_at, u32_at, u64_at};
use crate::device::{Blk, Piece};
use crate::flags::{CHANGED, NEEDS_RESET, USED_BUFFER};
use crate::phase::Phase;
use crate::request::{BlockRequest, HEADER};
use crate::want::Moved;
use iom_bits::with_field;
use iom_virtq::{Access, More};

impl Blk {
    ghost use Rattle.iom_virtq.specs.Bus.{is_granted, reply_of};
    ghost use Rattle.iom_blk.specs.Breaking.{broken_by};
    ghost use Rattle.iom_blk.specs.Phases.{ask_of, asks, break_down, is_broken, data_phase, after_index, after_ring, completed, after_descriptor, after_header, after_data, after_used, after, took, moved_of};
    ghost use Rattle.iom_blk.specs.Requests.{readable, writable, is_in, data_length, data_count, header_count};
    ghost use Rattle.iom_blk.specs.Wants.{Answers};

    /// Takes the bus's answer to the access that `want` asked for, which isn't Nothing. After a granted read, `bytes` are the bytes
    /// read, of the length that was asked for; else they are ignored. An answer other than Ok breaks the device, and so do bytes
    /// that are no legal index or descriptor: DEVICE_NEEDS_RESET is set, and `broken` gives the reason.
    #[tactic(auto, unfolding(crate::specs::Phases::asks, crate::specs::Phases::took, crate::specs::Breaking::broken_by), using(crate::proofs::Asking::asked_is_ready, crate::proofs::Breaks::broken_is_broken, crate::proofs::Kept::broken_keeps, crate::proofs::Reasons::broken_tells))]
    pub fn take(&mut self, answer: Access, bytes: &[u8]) -> Moved
        requires asked { IsSome (asks self.old) }
        requires answered { OnTrue (is_granted answer) (IfSome (asks self.old) (Answers bytes.now)) }
        ensures device { self.new ≡ took self.old (reply_of answer bytes.now) }
        ensures moved { result ≡ moved_of answer }
        ensures refused { OnFalse (is_granted answer) (is_broken self.new ≡ true) }
        ensures broken { self.new.broken ≡ broken_by self.old (reply_of answer bytes.now) }
        ensures disk { OnTrue self.old.read_only (self.new.disk ≡ self.old.disk) }
    {
        let _ = &self.disk;
        match answer {
            Access::Ok => {
                self.go_on(bytes);
                Moved::Did
            }
            Access::Denied(cause) => {
                self.break_down(Broken::Denied(cause));
                Moved::Denied(cause)
            }
            Access::Outside => {
                self.break_down(Broken::Outside);
                Moved::Outside
            }
        }
    }

    // Breaks the device: its access was refused, or it read bytes that aren't legal.
    #[tactic(auto, unfolding(crate::specs::Phases::break_down), using(crate::proofs::Breaks::bit_is_set))]
    fn break_down(&mut self, reason: Broken)
        ensures { self.new ≡ break_down self.old reason }
    {
        self.status = with_field(self.status, NEEDS_RESET, 1, 1);
        self.broken = Some(reason);
        self.interrupts = with_field(self.interrupts, CHANGED, 1, 1);
        self.phase = Phase::Index;
    }

    // Goes on after a granted access.
    #[tactic(auto, unfolding(crate::specs::Phases::ask_of, crate::specs::Phases::after))]
    fn go_on(&mut self, bytes: &[u8])
        requires ready { self.old.ready ≡ true }
        requires answered { Answers bytes.now (ask_of self.old self.old.phase) }
        ensures { self.new ≡ after self.old self.old.phase bytes.now }
    {
        match self.phase {
            Phase::Index => self.take_index(u16_at(bytes, 0)),
            Phase::Ring => self.take_ring(u16_at(bytes, 0)),
            Phase::Descriptor(_) => self.take_descriptor(
                u64_at(bytes, 0),
                u32_at(bytes, 8),
                u16_at(bytes, 12),
                u16_at(bytes, 14),
            ),
            Phase::Header => self.take_header(bytes),
            Phase::Data(position) => self.take_data(position, bytes),
            Phase::Status => self.phase = Phase::UsedId,
            Phase::UsedId => self.phase = Phase::UsedLen,
            Phase::UsedLen => self.phase = Phase::UsedIdx,
            Phase::UsedIdx => self.take_used(),
        }
    }

    // Takes the index of the available ring.
    #[tactic(auto, unfolding(crate::specs::Phases::after_index))]
    fn take_index(&mut self, idx: u16)
        requires { self.old.ready ≡ true }
        ensures { self.new ≡ after_index self.old idx }
    {
        if idx == self.seen {
            self.pending = false;
        } else if idx.wrapping_sub(self.seen) as u64 > self.size {
            self.break_down(Broken::IndexAhead);
        } else {
            self.phase = Phase::Ring;
        }
    }

    // Takes the head of a request.
    #[tactic(auto, unfolding(crate::specs::Phases::after_ring))]
    fn take_ring(&mut self, head: u16)
        requires { self.old.ready ≡ true }
        ensures { self.new ≡ after_ring self.old head }
    {
        if head as u64 >= self.size {
            self.break_down(Broken::BadHead);
        } else {
            self.request = BlockRequest::new(head, self.size as u16);
            self.phase = Phase::Descriptor(head);
        }
    }

    // Takes a descriptor.
    #[tactic(auto, unfolding(crate::specs::Phases::after_descriptor, crate::specs::Phases::completed, crate::specs::Phases::break_down))]
    fn take_descriptor(&mut self, addr: u64, len: u32, flags: u16, next: u16)
        requires ready { self.old.ready ≡ true }
        requires limit { self.old.chain.limit ≡ self.old.size }
        requires begun { length self.old.header ≡ 0 }
        ensures { self.new ≡ after_descriptor self.old addr len flags next }
    {
        self.phase = Phase::Index;
        match self.request.chain.add(addr, len, flags, next) {
            Err(fault) => self.break_down(Broken::Descriptor(fault)),
            Ok(More::Next(next)) => self.phase = Phase::Descriptor(next),
            Ok(More::Complete) => self.complete(),
        }
    }

    // Completes the chain after its last descriptor.
    #[tactic(auto, unfolding(crate::specs::Phases::completed))]
    fn complete(&mut self)
        requires ready { self.old.ready ≡ true }
        requires begun { length self.old.header ≡ 0 }
        ensures { self.new ≡ completed self.old }
    {
        if self.request.readable() < HEADER {
            self.break_down(Broken::ShortHeader);
        } else if self.request.writable() < 1 {
            self.break_down(Broken::NothingWritable);
        } else {
            self.phase = Phase::Header;
        }
    }

    // Takes a piece of the header.
    #[tactic(auto, unfolding(crate::specs::Phases::after_header, crate::specs::Phases::judged), using(crate::proofs::Served::header_count_within))]
    fn take_header(&mut self, bytes: &[u8])
        requires phase { self.old.phase ≡ Phase.Header }
        requires answered { length bytes.now ≡ header_count self.old.header self.old.chain }
        ensures { self.new ≡ after_header self.old bytes.now }
    {
        let sectors = self.sectors();
        let _fits = self.request.header.try_extend_from_slice(bytes);
        if (self.request.header.len() as u64) < HEADER {
            return;
        }
        self.phase = self.request.judge(sectors, self.read_only, self.features);
    }

    // Takes a piece of the data.
    #[tactic(auto, unfolding(crate::specs::Phases::after_data))]
    fn take_data(&mut self, position: u64, bytes: &[u8])
        requires phase { self.old.phase ≡ Phase.Data position }
        requires answered { is_in self.old.header ≡ false →
            length bytes.now ≡ data_count self.old.header self.old.chain position }
        ensures { self.new ≡ after_data self.old position bytes.now }
    {
        let Piece { len, at, .. } = self.data_piece(position);
        if self.request.is_in() {
            return self.pass_data(position, len);
        }
        self.disk[at..at + bytes.len()].copy_from_slice(bytes);
        self.pass_data(position, len);
    }

    // Goes on after `count` bytes of data were moved at `position`.
    fn pass_data(&mut self, position: u64, count: u64)
        requires phase { self.old.phase ≡ Phase.Data position }
        requires within { position + count ≤ data_length self.old.header self.old.chain }
        ensures { self.new ≡ record self.old { phase = data_phase self.old (position + count) } }
    {
        let whole = self.request.data_length();
        let moved = position + count;
        if moved == whole {
            self.phase = Phase::Status;
        } else {
            self.phase = Phase::Data(moved);
        }
    }

    // Counts the request as given back.
    #[tactic(auto, unfolding(crate::specs::Phases::after_used))]
    fn take_used(&mut self)
        ensures { self.new ≡ after_used self.old }
    {
        self.used = self.used.wrapping_add(1);
        self.seen = self.seen.wrapping_add(1);
        self.interrupts = with_field(self.interrupts, USED_BUFFER, 1, 1);
        self.phase = Phase::Index;
    }
}
