//! A handle as bytes. It is no step, and changes nothing.

ghost use Rattle.std.specs.Prelude.{ℕ, ◌≡◌, ◌≢◌, ◌<◌, ◌⊎◌, ◌^◌, ◌++◌, get_or, length, IfOk, OnOk, Some};
ghost use Rattle.iom_mem.specs.Words.{bytes_of_words};
ghost use Rattle.iom_saved.specs.Kept.{IsBoard, IsHistory};
ghost use Rattle.iom_c.specs.Buffers.{begun_by};
ghost use Rattle.iom_c.specs.Faults.{little_room, ok, out_of_memory};
ghost use Rattle.iom_c.specs.Handles.{board_of};
ghost use Rattle.iom_c.specs.Saves.{HasMemory, HasWholeMemory, HasWholeParts, held_words, IsRunning, IsSavedAs, NeedsRoom, owned_words, place_words, saved_words, Saves, told_words};
ghost use Rattle.iom_c.specs.declared.owned.Owned.{Owned};

use crate::handle::Handle;
use crate::held::Held;
use crate::owned::Owned;
use crate::told::Told;
use iom_bits::flag;
use iom_saved::{bytes_of, check_of, put_board, put_history, put_memory};
use std::alloc::{AllocError, Global};

/// The first word of what is saved: its bytes, the lowest first, are "RVIOMMUS".
pub const SAVE_MAGIC: u64 = 0x5355_4d4d_4f49_5652;

/// The second word: the form of the others.
pub const SAVE_VERSION: u64 = 5;

// Appends the words of a platform's own memory, or of the place of that which is lent.
fn put_place(out: &mut Vec<u64>, held: &Held) -> Result<(), AllocError>
    ensures words { OnOk result (out.new.items ≡ out.old.items ++ place_words held.now) }
    ensures whole { OnOk result (HasWholeMemory held.now) }
    ensures kept { OnOk result (HasMemory held.now) }
{
    match held {
        Held::Own(platform) => {
            out.extend_from_slice(&[0])?;
            put_memory(out, platform.ram())?;
            Ok(())
        }
        Held::Lent(lent) => out.extend_from_slice(&[1, lent.base, lent.count]),
    }
}

// Appends the words of a platform.
fn put_held(out: &mut Vec<u64>, held: &Held) -> Result<(), AllocError>
    ensures words { OnOk result (out.new.items ≡ out.old.items ++ held_words held.now) }
    ensures whole { OnOk result (HasWholeParts held.now) }
    ensures memory { OnOk result (HasMemory held.now) }
    ensures board { OnOk result (IsBoard (board_of held.now)) }
{
    put_place(out, held)?;
    put_board(out, held.board())?;
    Ok(())
}

// Appends the words of the account of the steps.
fn put_told(out: &mut Vec<u64>, told: &Told) -> Result<(), AllocError>
    ensures words { OnOk result (out.new.items ≡ out.old.items ++ told_words told.now) }
    ensures history { OnOk result (IsHistory told.now.history) }
{
    out.extend_from_slice(&[
        told.kept.ring.capacity() as u64,
        flag(told.kept.accesses_only),
    ])?;
    put_history(out, &told.history)
}

// Appends the words of what a handle owns.
fn put_owned(out: &mut Vec<u64>, own: &Owned) -> Result<(), AllocError>
    ensures words { OnOk result (out.new.items ≡ out.old.items ++ owned_words own.now) }
    ensures whole { OnOk result (HasWholeParts own.now.held) }
    ensures running { OnOk result (IsRunning own.now) }
{
    out.push(own.count)?;
    put_told(out, &own.told)?;
    put_held(out, &own.held)?;
    Ok(())
}

// The bytes of words, each of which has 64 bits.
fn bytes_of_words(alloc: Global, words: &[u64]) -> Result<Vec<u8>, AllocError>
    ensures bytes { IfOk result (λ bytes. bytes.items ≡ bytes_of_words words.now) }
    ensures fit { OnOk result ((i : ℕ) → get_or words.now i 0 < 2 ^ 64) }
{
    let bytes = bytes_of(alloc, words)?;
    Ok(bytes)
}

// The words that are saved of a handle: the third is the check word of those behind it.
fn saved_words(alloc: Global, own: &Owned) -> Result<Vec<u64>, AllocError>
    ensures words { IfOk result (λ words. words.items ≡ saved_words own.now) }
    ensures whole { OnOk result (HasWholeParts own.now.held) }
    ensures running { OnOk result (IsRunning own.now) }
{
    let mut words = Vec::new(alloc);
    words.extend_from_slice(&[SAVE_MAGIC, SAVE_VERSION, 0])?;
    put_owned(&mut words, own)?;
    words[2] = check_of(&words[3..]);
    Ok(words)
}

// The bytes of what a handle owns.
fn saved(alloc: Global, own: &Owned) -> Result<Vec<u8>, AllocError>
    ensures bytes { IfOk result (λ bytes. IsSavedAs own.now bytes.items) }
    ensures running { OnOk result (IsRunning own.now) }
{
    let words = saved_words(alloc, own)?;
    let bytes = bytes_of_words(alloc, &words)?;
    Ok(bytes)
}

// Puts bytes, and how many they are; 11 if there is too little room for them.
fn put_bytes(bytes: &[u8], out: &mut [u8], count: &mut usize) -> u32
    ensures told { (result ≡ ok) ⊎ (result ≡ little_room) }
    ensures room { result ≡ ok → out.new ≡ begun_by bytes.now out.old }
    ensures little { result ≡ little_room → length out.old < length bytes.now }
    ensures unchanged { result ≢ ok → out.new ≡ out.old }
    ensures count { count.new ≡ length bytes.now }
{
    *count = bytes.len();
    if bytes.len() > out.len() {
        return 11;
    }
    out[..bytes.len()].copy_from_slice(bytes);
    0
}

/// Saves what the handle owns but for its trace and the reasons that are kept: puts it as bytes, which `rviommu_restore` takes, and in
/// `count` how many they are. Memory that is lent isn't among them. It answers 0; 11 if there is too little room for them; or 7 if there is
/// no memory. Unless it is 0, `out` is unchanged.
#[unsafe(no_mangle)]
pub extern "C" fn rviommu_save(
    alloc: Global,
    handle: &mut Handle,
    out: &mut [u8],
    count: &mut usize,
) -> u32
    ghost own: { Owned }
    requires open { handle.old.held ≡ Some own }
    ensures told { (result ≡ ok) ⊎ ((result ≡ little_room) ⊎ (result ≡ out_of_memory)) }
    ensures bytes { result ≡ ok → Saves own out.old out.new count.new }
    ensures little { result ≡ little_room → NeedsRoom own out.old count.new }
    ensures unchanged { result ≢ ok → out.new ≡ out.old }
    ensures same { handle.new.held ≡ Some own }
    ensures running { result ≢ out_of_memory → IsRunning own }
{
    let owned = handle.take(alloc);
    let made = saved(alloc, &owned);
    *handle = Handle::of(owned);
    let Ok(bytes) = made else {
        return 7;
    };
    put_bytes(&bytes, out, count)
}
