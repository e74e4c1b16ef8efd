//! The window beside memory, and the messages that were sent into it.

ghost use Rattle.std.specs.Prelude.{ℕ, ◌≡◌, ◌++◌, ◌∷◌, List, Option, slice_get, OnOk, IfOk, IfSome, IsSomeAnd, MatchResult};
ghost use Rattle.iom_messages.specs.Messages.{Messages as TheMessages, none_sent};
ghost use Rattle.iom_messages.specs.declared.messages.Message.{Message as TheMessage};
ghost use Rattle.iom_messages.specs.declared.window.Window.{Window as TheWindow};
ghost use Rattle.iom_saved.specs.Kept.{AreMessages, IsMessage, IsMessageSeen};
ghost use Rattle.iom_saved.specs.Messages.{message_seen_words, message_words, messages_words, window_words};
ghost use Rattle.iom_saved.specs.declared.words.SavedFault.TheVariants as fault;

use crate::words::{SavedFault, SavedWords};
use iom_messages::{Message, Messages, Window};
use std::alloc::{AllocError, Global};

/// Appends the words of a window, or of none, and of the messages: how many were sent, and those that are kept. The fault is a refused
/// allocation.
pub fn put_messages(out: &mut Vec<u64>, messages: &Messages) -> Result<(), AllocError>
    ensures words { OnOk result (out.new.items ≡ out.old.items ++ messages_words messages.now) }
    ensures kept { OnOk result (AreMessages messages.now) }
{
    put_window(out, messages.window())?;
    out.extend_from_slice(&[messages.sent(), messages.len() as u64])?;
    for i in 0..messages.len() {
        put_message(out, messages, i)?;
    }
    Ok(())
}

/// The window and the messages that the next words are.
pub fn take_messages(alloc: Global, words: &mut SavedWords<'_>) -> Result<Messages, SavedFault>
    ensures words { IfOk result (λ messages. words.old ≡ messages_words messages ++ words.new) }
    ensures taken { (m : TheMessages) (rest : List ℕ) → words.old ≡ messages_words m ++ rest → AreMessages m →
        MatchResult result (λ taken. (taken ≡ m) × (words.new ≡ rest)) (λ why. why ≡ fault.OutOfMemory) }
{
    let Some(window) = take_window(words) else {
        return Err(SavedFault::Bad);
    };
    let Some((sent, count)) = words.two() else {
        return Err(SavedFault::Bad);
    };
    let mut messages = none_kept(alloc, window, sent)?;
    for _ in 0..count {
        let Some(message) = take_message(words) else {
            return Err(SavedFault::Bad);
        };
        if !messages.append(message) {
            return Err(SavedFault::Bad);
        }
    }
    Ok(messages)
}

// Messages of which so many were sent, and none is kept.
fn none_kept(alloc: Global, window: Option<Window>, sent: u64) -> Result<Messages, AllocError>
    ensures { IfOk result (λ messages. messages ≡ record (none_sent window) { sent = sent }) }
{
    let mut messages = Messages::new(alloc, window)?;
    messages.count_from(sent);
    Ok(messages)
}

// Appends whether there is a window, its base and its size, both 0 if there is none.
fn put_window(out: &mut Vec<u64>, window: Option<Window>) -> Result<(), AllocError>
    ensures { OnOk result (out.new.items ≡ out.old.items ++ window_words window) }
{
    match window {
        Some(window) => out.extend_from_slice(&[1, window.base, window.size]),
        None => out.extend_from_slice(&[0, 0, 0]),
    }
}

fn take_window(words: &mut SavedWords<'_>) -> Option<Option<Window>>
    ensures words { IfSome result (λ window. words.old ≡ window_words window ++ words.new) }
    ensures taken { (window : Option TheWindow) (rest : List ℕ) → words.old ≡ window_words window ++ rest →
        IsSomeAnd result (λ taken. (taken ≡ window) × (words.new ≡ rest)) }
{
    let has_window = words.flag()?;
    let (base, size) = words.two()?;
    match (has_window, base, size) {
        (true, base, size) => Some(Some(Window { base, size })),
        (false, 0, 0) => Some(None),
        (false, _, _) => None,
    }
}

// Appends message `i` of those that are kept.
fn put_message(out: &mut Vec<u64>, messages: &Messages, i: usize) -> Result<(), AllocError>
    ensures words { OnOk result (out.new.items ≡ out.old.items ++ message_seen_words (slice_get messages.now.kept i)) }
    ensures kept { OnOk result (IsMessageSeen (slice_get messages.now.kept i)) }
{
    match messages.get(i as u64) {
        Some(message) => out.extend_from_slice(&[message.addr, u64::from(message.value)]),
        None => Ok(()),
    }
}

fn take_message(words: &mut SavedWords<'_>) -> Option<Message>
    ensures words { IfSome result (λ message. words.old ≡ message_words message ++ words.new) }
    ensures taken { (message : TheMessage) (rest : List ℕ) → words.old ≡ message_words message ++ rest → IsMessage message →
        IsSomeAnd result (λ taken. (taken ≡ message) × (words.new ≡ rest)) }
{
    let addr = words.next()?;
    let value = words.next_u32()?;
    Some(Message { addr, value })
}
