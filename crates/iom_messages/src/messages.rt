use crate::window::Window;
use circular_buffer::HeapCircularBuffer;
use iom_bits::le_u32;
use iom_mem::WritableRegion;
use std::alloc::{AllocError, Global};
use std::marker::Model;

/// How many messages are kept: the last ones.
pub const MESSAGES_ROOM: usize = 16;

/// A message: four bytes that were written to an address where no memory is.
#[derive(Clone, Copy, PartialEq)]
pub struct Message {
    /// The physical address, a multiple of 4.
    pub addr: u64,
    /// The number of its four bytes, the lowest first.
    pub value: u32,
}

/// The window beside memory, if there is one, and the messages that were written into it.
#[derive(Drop)]
pub struct Messages {
    window: Option<Window>,
    sent: u64,
    kept: HeapCircularBuffer<Message>,
}

impl Model for Messages {
    ghost use Rattle.std.specs.Prelude.{◌≡◌, ◌≤◌, length};
    ghost use Rattle.iom_messages.specs.Messages.{Messages, messages_room};

    ghost Value = { Messages };

    ghost view = { λ m. record { window = m.window; sent = m.sent; kept = m.kept.items } };

    ghost invariant = { λ m. (m.kept.capacity ≡ messages_room) × (length m.kept.items ≤ messages_room) };
}

impl Messages {
    ghost use Rattle.std.specs.Prelude.{◌≡◌, ◌≤◌, ◌++◌, [], ◌∷◌, Some, None, length, nat_lt, slice_get, IfOk, if◌then◌else◌};
    ghost use Rattle.std.specs.Bool.{OnFalse, OnTrue};
    ghost use Rattle.iom_messages.specs.Messages.{can_put, is_message, memory_put, message_of, messages_put, messages_room, none_sent, posted, without_oldest};

    /// Those of this window, of which none was sent yet. It takes the memory of all that are kept; no other call but `try_clone` takes
    /// any. The fault is a refused allocation.
    pub fn new(alloc: Global, window: Option<Window>) -> Result<Messages, AllocError>
        ensures { IfOk result (λ messages. messages ≡ none_sent window) }
    {
        Ok(Messages {
            window,
            sent: 0,
            kept: HeapCircularBuffer::with_capacity(alloc, MESSAGES_ROOM)?,
        })
    }

    /// A copy. If memory is refused for it the original is unchanged.
    pub fn try_clone(&self, alloc: Global) -> Result<Messages, AllocError>
        ensures { IfOk result (λ copy. copy ≡ self.now) }
    {
        let mut kept = HeapCircularBuffer::with_capacity(alloc, MESSAGES_ROOM)?;
        for message in self.kept.iter() {
            let _none = kept.push_back(*message);
        }
        Ok(Messages {
            window: self.window,
            sent: self.sent,
            kept,
        })
    }

    /// The window; None if there is none, and then no message is ever sent.
    pub fn window(&self) -> Option<Window>
        ensures { result ≡ self.now.window }
    {
        self.window
    }

    /// How many were sent, modulo 2^64.
    pub fn sent(&self) -> u64
        ensures { result ≡ self.now.sent }
    {
        self.sent
    }

    /// How many are kept, 16 at most.
    pub fn len(&self) -> usize
        ensures count { result ≡ length self.now.kept }
        ensures within { result ≤ messages_room }
    {
        self.kept.len()
    }

    /// Message `i` of those that are kept, the oldest 0; None if there are no more.
    pub fn get(&self, i: u64) -> Option<Message>
        ensures message { result ≡ slice_get self.now.kept i }
        ensures within { length self.now.kept ≤ messages_room }
    {
        self.kept.get(i as usize).copied()
    }

    /// Takes out the oldest message that is kept; None if there is none.
    pub fn take(&mut self) -> Option<Message>
        ensures message { result ≡ slice_get self.old.kept 0 }
        ensures left { self.new ≡ without_oldest self.old }
    {
        self.kept.pop_front()
    }

    /// Makes this count of sent messages, of which none is kept, so that messages are made again.
    pub fn count_from(&mut self, sent: u64)
        ensures { self.new ≡ record (none_sent self.old.window) { sent = sent } }
    {
        self.sent = sent;
        self.kept.clear();
    }

    /// Appends a message as one that was sent before, which isn't counted: so messages are made again, one by one. It answers whether it
    /// did: fewer than 16 are kept. Else nothing changes.
    pub fn append(&mut self, message: Message) -> bool
        ensures room { result ≡ nat_lt (length self.old.kept) messages_room }
        ensures appended { OnTrue result (self.new ≡ record self.old { kept = self.old.kept ++ message ∷ [] }) }
        ensures refused { OnFalse result (self.new ≡ self.old) }
    {
        if self.kept.len() >= MESSAGES_ROOM {
            return false;
        }
        let _none = self.kept.push_back(message);
        true
    }

    /// Whether `count` bytes from physical address `addr` on, where no memory is, are a message: four, at a multiple of 4, in the window.
    pub fn is_message(&self, addr: u64, count: u64) -> bool
        ensures { result ≡ is_message self.now addr count }
    {
        let Some(window) = self.window else {
            return false;
        };
        count == 4 && addr % 4 == 0 && window.covers(addr, count)
    }

    /// Writes `bytes` from physical address `addr` on: to memory, if all of them are inside; else as a message, if they are four at a
    /// multiple of 4 in the window. It answers whether it did; else nothing changes.
    pub fn put<M: WritableRegion>(&mut self, ram: &mut M, addr: u64, bytes: &[u8]) -> bool
        ensures can { result ≡ can_put (M.memory ram.old) self.old addr bytes.now }
        ensures memory { M.memory ram.new ≡ memory_put (M.memory ram.old) addr bytes.now }
        ensures messages { self.new ≡ messages_put (M.memory ram.old) self.old addr bytes.now }
        ensures borrow { M.name ram.new ≡ M.name ram.old }
    {
        if ram.write(addr, bytes) {
            return true;
        }
        let Some(message) = self.message_at(addr, bytes) else {
            return false;
        };
        self.post(message);
        true
    }

    // The message that these bytes are at a physical address; None if they are none.
    fn message_at(&self, addr: u64, bytes: &[u8]) -> Option<Message>
        ensures { result ≡ if is_message self.now addr (length bytes.now) then Some (message_of addr bytes.now) else None }
    {
        let &[first, second, third, fourth] = bytes else {
            return None;
        };
        if !self.is_message(addr, 4) {
            return None;
        }
        Some(Message {
            addr,
            value: le_u32([first, second, third, fourth]),
        })
    }

    // Sends a message. If 16 are kept the oldest leaves.
    fn post(&mut self, message: Message)
        ensures { self.new ≡ posted message self.old }
    {
        self.sent = self.sent.wrapping_add(1);
        let _oldest = self.kept.push_back(message);
    }
}
