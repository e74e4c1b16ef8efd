//! Messages: what devices, fences and interrupts wrote into the window beside memory. None of these calls is a step.

ghost use Rattle.std.specs.Prelude.{◌≡◌, slice_get, Some};
ghost use Rattle.iom_c.specs.Handles.{board_of};
ghost use Rattle.iom_c.specs.Messages.{MessageTold, message_of, taken_from};
ghost use Rattle.iom_c.specs.declared.owned.Owned.{Owned};

use crate::handle::Handle;
use iom_messages::Message;
use std::alloc::Global;

/// A message, in C `struct rviommu_message`.
#[repr(C)]
#[derive(Drop)]
pub struct SentMessage {
    /// The physical address, a multiple of 4.
    pub address: u64,
    /// The number of its four bytes, the lowest first.
    pub value: u32,
    /// Room for more; 0.
    pub reserved: [u64; 2],
}

// A message for C.
fn message_of(message: Message) -> SentMessage
    ensures { result ≡ message_of message }
{
    SentMessage {
        address: message.addr,
        value: message.value,
        reserved: [0; 2],
    }
}

// Puts a message that there may be; 13 where there is none.
fn put_message(found: Option<Message>, out: &mut SentMessage) -> u32
    ensures { MessageTold found result out.old out.new }
{
    match found {
        Some(message) => {
            *out = message_of(message);
            0
        }
        None => 13,
    }
}

/// How many messages were sent, modulo 2^64: also those that aren't kept any more.
#[unsafe(no_mangle)]
pub extern "C" fn rviommu_messages_sent(alloc: Global, handle: &mut Handle) -> u64
    ghost own: { Owned }
    requires open { handle.old.held ≡ Some own }
    ensures sent { result ≡ (board_of own.held).messages.sent }
    ensures same { handle.new.held ≡ Some own }
{
    let owned = handle.take(alloc);
    let sent = owned.held.board().messages().sent();
    *handle = Handle::of(owned);
    sent
}

/// Message `i`, any number, of the last ones that are kept, at most 16; the oldest is 0. It answers 0; or 13 if there are fewer, and
/// `message` is unchanged then.
#[unsafe(no_mangle)]
pub extern "C" fn rviommu_message(
    alloc: Global,
    handle: &mut Handle,
    i: u64,
    message: &mut SentMessage,
) -> u32
    ghost own: { Owned }
    requires open { handle.old.held ≡ Some own }
    ensures message { MessageTold (slice_get (board_of own.held).messages.kept i) result message.old message.new }
    ensures same { handle.new.held ≡ Some own }
{
    let owned = handle.take(alloc);
    let found = owned.held.board().messages().get(i);
    *handle = Handle::of(owned);
    put_message(found, message)
}

/// Takes out the oldest message that is kept. It answers 0; or 13 if there is none, and nothing changes then.
#[unsafe(no_mangle)]
pub extern "C" fn rviommu_take_message(
    alloc: Global,
    handle: &mut Handle,
    message: &mut SentMessage,
) -> u32
    ghost own: { Owned }
    requires open { handle.old.held ≡ Some own }
    ensures message { MessageTold (slice_get (board_of own.held).messages.kept 0) result message.old message.new }
    ensures left { handle.new.held ≡ Some (taken_from own) }
{
    let mut owned = handle.take(alloc);
    let found = owned.held.take_message();
    *handle = Handle::of(owned);
    put_message(found, message)
}
