//! The IOMMU, the messages and the block devices.

ghost use Rattle.std.specs.Prelude.{ℕ, ◌≡◌, ◌<◌, ◌++◌, List, slice_get, OnOk, IfOk, MatchResult};
ghost use Rattle.std.specs.List.{AllByRecursion};
ghost use Rattle.iom_blk.specs.Device.{Device};
ghost use Rattle.iom_core.specs.State.{Board as TheBoard, device_id_end, EachFits};
ghost use Rattle.iom_saved.specs.Boards.{board_words, devices_words, numbered_words, own_words};
ghost use Rattle.iom_saved.specs.Kept.{AreKept, IsBoard, IsDevice, IsDeviceIf, IsOwn};
ghost use Rattle.iom_saved.specs.Whole.{EachWhole, IsWhole, IsWholeIf};
ghost use Rattle.iom_saved.specs.declared.words.SavedFault.TheVariants as fault;

use crate::contexts::{put_contexts, take_contexts};
use crate::devices::{put_device, take_device};
use crate::messages::{put_messages, take_messages};
use crate::pages::{put_pages, take_pages};
use crate::registers::{put_registers, take_registers};
use crate::words::{SavedFault, SavedWords};
use iom_blk::Blk;
use iom_core::Board;
use std::alloc::{AllocError, Global};

/// Appends the words of a board: its registers, both caches with their empty places, the window with the messages that are kept, and its
/// block devices with their disks and with all parts of a request that is under way. The fault is a refused allocation.
pub fn put_board(out: &mut Vec<u64>, board: &Board) -> Result<(), AllocError>
    ensures words { OnOk result (out.new.items ≡ out.old.items ++ board_words board.now) }
    ensures whole { OnOk result (EachWhole board.now.devices) }
    ensures kept { OnOk result (IsBoard board.now) }
{
    put_registers(out, board.registers())?;
    put_contexts(out, board.contexts())?;
    put_pages(out, board.trans())?;
    put_messages(out, board.messages())?;
    put_devices(out, board)?;
    Ok(())
}

/// The board that the next words are.
pub fn take_board(alloc: Global, words: &mut SavedWords<'_>) -> Result<Board, SavedFault>
    ensures words { IfOk result (λ board. words.old ≡ board_words board ++ words.new) }
    ensures whole { IfOk result (λ board. EachWhole board.devices) }

    // What was put is taken, or there is no memory for it.
    ensures taken { (b : TheBoard) (rest : List ℕ) → words.old ≡ board_words b ++ rest → IsBoard b →
        MatchResult result (λ taken. (taken ≡ b) × (words.new ≡ rest)) (λ why. why ≡ fault.OutOfMemory) }
{
    let Some(registers) = take_registers(words) else {
        return Err(SavedFault::Bad);
    };
    let contexts = take_contexts(alloc, words)?;
    let pages = take_pages(alloc, words)?;
    let messages = take_messages(alloc, words)?;
    let devices = take_devices(alloc, words)?;
    let Some(board) = Board::of(registers, contexts, pages, messages, devices) else {
        return Err(SavedFault::Bad);
    };
    Ok(board)
}

// Appends how many block devices there are, and these.
fn put_devices(out: &mut Vec<u64>, board: &Board) -> Result<(), AllocError>
    ensures words { OnOk result (out.new.items ≡ out.old.items ++ devices_words board.now.devices) }
    ensures whole { OnOk result (EachWhole board.now.devices) }
    ensures kept { OnOk result (AreKept board.now.devices) }
{
    out.push(board.device_count() as u64)?;
    for n in 0..board.device_count() {
        put_numbered(out, board, n)?;
    }
    Ok(())
}

// Appends block device `n`.
fn put_numbered(out: &mut Vec<u64>, board: &Board, n: usize) -> Result<(), AllocError>
    ensures words { OnOk result (out.new.items ≡ out.old.items ++ numbered_words (slice_get board.now.devices n)) }
    ensures whole { OnOk result (IsWholeIf (slice_get board.now.devices n)) }
    ensures kept { OnOk result (IsDeviceIf (slice_get board.now.devices n)) }
{
    match board.block_device(n) {
        Some(own) => put_own(out, own),
        None => Ok(()),
    }
}

// Appends a device behind its id.
fn put_own(out: &mut Vec<u64>, own: &(u32, Blk)) -> Result<(), AllocError>
    ensures words { OnOk result (out.new.items ≡ out.old.items ++ own_words own.now) }
    ensures whole { OnOk result (IsWhole own.now.1.disk) }
    ensures kept { OnOk result (IsDevice own.now.1) }
{
    let (did, device) = own;
    out.extend_from_slice(&[u64::from(*did)])?;
    put_device(out, device)?;
    Ok(())
}

fn take_devices(alloc: Global, words: &mut SavedWords<'_>) -> Result<Vec<(u32, Blk)>, SavedFault>
    ensures words { IfOk result (λ devices. words.old ≡ devices_words devices.items ++ words.new) }
    ensures fit { IfOk result (λ devices. EachFits devices.items) }
    ensures whole { IfOk result (λ devices. EachWhole devices.items) }
    ensures taken { (devices : List (ℕ × Device)) (rest : List ℕ) → words.old ≡ devices_words devices ++ rest → AllByRecursion IsOwn devices →
        MatchResult result (λ taken. (taken.items ≡ devices) × (words.new ≡ rest)) (λ why. why ≡ fault.OutOfMemory) }
{
    let Some(count) = words.next() else {
        return Err(SavedFault::Bad);
    };
    let mut devices = Vec::new(alloc);
    for _ in 0..count {
        let own = take_own(alloc, words)?;
        devices.push(own)?;
    }
    Ok(devices)
}

// The device behind its id, which is below 2^24.
fn take_own(alloc: Global, words: &mut SavedWords<'_>) -> Result<(u32, Blk), SavedFault>
    ensures words { IfOk result (λ own. words.old ≡ own_words own ++ words.new) }
    ensures fits { IfOk result (λ own. own.0 < device_id_end) }
    ensures whole { IfOk result (λ own. IsWhole own.1.disk) }
    ensures taken { (own : ℕ × Device) (rest : List ℕ) → words.old ≡ own_words own ++ rest → IsOwn own →
        MatchResult result (λ taken. (taken ≡ own) × (words.new ≡ rest)) (λ why. why ≡ fault.OutOfMemory) }
{
    let Some(did) = words.next_u32() else {
        return Err(SavedFault::Bad);
    };
    if did >= 1 << 24 {
        return Err(SavedFault::Bad);
    }
    let device = take_device(alloc, words)?;
    Ok((did, device))
}
