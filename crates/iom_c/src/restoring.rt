//! A handle from bytes that were saved.

ghost use Rattle.std.specs.Prelude.{ℕ, ◌≡◌, ◌≢◌, ◌<◌, ◌⊎◌, ◌*◌, ◌^◌, ◌++◌, ◌∷◌, List, get_or, IfErr, IfOk, IfSome, IsSomeAnd, IsTrue, MatchResult, None, OnOk, Some};
ghost use Rattle.iom_mem.specs.Lent.{is_lendable};
ghost use Rattle.iom_mem.specs.Memory.{Memory};
ghost use Rattle.iom_core.specs.State.{Board};
ghost use Rattle.iom_saved.specs.Boards.{board_words};
ghost use Rattle.iom_saved.specs.Bytes.{memory_words};
ghost use Rattle.iom_saved.specs.Kept.{IsBoard, IsHistory, IsMemory};
ghost use Rattle.iom_saved.specs.declared.words.SavedFault.TheVariants as fault;
ghost use Rattle.iom_c.specs.Faults.{bad_save, ok, other_version, out_of_memory};
ghost use Rattle.iom_c.specs.Handles.{board_of, copied};
ghost use Rattle.iom_c.specs.Keeping.{copied as told_copied};
ghost use Rattle.iom_c.specs.Lending.{Lending};
ghost use Rattle.iom_c.specs.Saves.{HasMemory, HasWholeParts, head_refusal, held_words, IsFresh, IsRunning, IsSavedAs, owned_words, RefusedBy, restore_number, saved_words, told_words};
ghost use Rattle.iom_c.specs.declared.held.Held.{Held as TheHeld};
ghost use Rattle.iom_c.specs.declared.owned.Owned.{Owned};
ghost use Rattle.iom_c.specs.declared.told.Told.{Told as TheTold};

use crate::handle::Handle;
use crate::held::Held;
use crate::kept::Kept;
use crate::owned::Owned;
use crate::saving::{SAVE_MAGIC, SAVE_VERSION};
use crate::settling::Settling;
use crate::told::Told;
use iom_core::Platform;
use iom_mem::is_lendable;
use iom_saved::{
    SavedFault, SavedWords, check_of, take_board, take_history, take_memory, word_at, words_of,
};
use iom_tool::Trace;
use std::alloc::{AllocError, Global};

/// Why bytes aren't restored.
#[derive(Clone, Copy)]
pub enum RestoreFault {
    /// They are no saved platform.
    Bad,
    /// They were saved in another form.
    OtherVersion,
    /// An allocation was refused.
    OutOfMemory,
}

// The platform with memory of its own that the next words are.
fn take_own(alloc: Global, words: &mut SavedWords<'_>) -> Result<Held, SavedFault>
    ensures words { IfOk result (λ held. 0 ∷ words.old ≡ held_words held ++ words.new) }
    ensures whole { IfOk result HasWholeParts }
    ensures taken { (m : Memory) (b : Board) (rest : List ℕ) → words.old ≡ (memory_words m ++ board_words b) ++ rest →
        IsMemory m → IsBoard b → MatchResult result (λ _. words.new ≡ rest) (λ why. why ≡ fault.OutOfMemory) }
{
    let ram = take_memory(alloc, words)?;
    let board = take_board(alloc, words)?;
    Ok(Held::Own(Platform { ram, board }))
}

// The platform in front of memory that is lent that the next words are.
fn take_lent(alloc: Global, words: &mut SavedWords<'_>) -> Result<Held, SavedFault>
    ensures words { IfOk result (λ held. 1 ∷ words.old ≡ held_words held ++ words.new) }
    ensures whole { IfOk result HasWholeParts }
    ensures taken { (lent : Lending) (rest : List ℕ) → words.old ≡ lent.base ∷ lent.count ∷ (board_words lent.board ++ rest) →
        IsTrue (is_lendable lent.base (8 * lent.count)) → IsBoard lent.board →
        MatchResult result (λ _. words.new ≡ rest) (λ why. why ≡ fault.OutOfMemory) }
{
    let Some((base, count)) = words.two() else {
        return Err(SavedFault::Bad);
    };
    if count > 1 << 53 || !is_lendable(base, 8 * count) {
        return Err(SavedFault::Bad);
    }
    let board = take_board(alloc, words)?;
    Ok(Held::lent(board, base, 8 * count))
}

// The platform that the next words are.
fn take_held(alloc: Global, words: &mut SavedWords<'_>) -> Result<Held, SavedFault>
    ensures words { IfOk result (λ held. words.old ≡ held_words held ++ words.new) }
    ensures whole { IfOk result HasWholeParts }
    ensures taken { (held : TheHeld) (rest : List ℕ) → words.old ≡ held_words held ++ rest → HasMemory held → IsBoard (board_of held) →
        MatchResult result (λ _. words.new ≡ rest) (λ why. why ≡ fault.OutOfMemory) }
{
    match words.next() {
        Some(0) => take_own(alloc, words),
        Some(1) => take_lent(alloc, words),
        _ => Err(SavedFault::Bad),
    }
}

// What the next words say of the steps so far.
fn take_told(alloc: Global, words: &mut SavedWords<'_>) -> Result<Told, SavedFault>
    ensures words { IfOk result (λ told. words.old ≡ told_words told ++ words.new) }
    ensures fresh { IfOk result (λ told. told ≡ told_copied told) }
    ensures taken { (told : TheTold) (rest : List ℕ) → words.old ≡ told_words told ++ rest → IsHistory told.history →
        MatchResult result (λ _. words.new ≡ rest) (λ why. why ≡ fault.OutOfMemory) }
{
    let Some(most) = words.next() else {
        return Err(SavedFault::Bad);
    };
    let Some(accesses_only) = words.flag() else {
        return Err(SavedFault::Bad);
    };
    let Some(history) = take_history(words) else {
        return Err(SavedFault::Bad);
    };
    let kept = Kept::new(alloc, most as usize, accesses_only)?;
    Ok(Told {
        history,
        kept,
        settling: Settling::NotKept,
    })
}

// What the next words are, and nothing may be left of them.
fn take_owned(alloc: Global, words: &mut SavedWords<'_>) -> Result<Owned, SavedFault>
    ensures words { IfOk result (λ own. words.old ≡ owned_words own) }
    ensures whole { IfOk result (λ own. HasWholeParts own.held) }
    ensures fresh { IfOk result IsFresh }
    ensures taken { (own : Owned) → words.old ≡ owned_words own → IsRunning own → IfErr result (λ why. why ≡ fault.OutOfMemory) }
{
    let Some(count) = words.next() else {
        return Err(SavedFault::Bad);
    };
    let told = take_told(alloc, words)?;
    let held = take_held(alloc, words)?;
    if words.len() > 0 {
        return Err(SavedFault::Bad);
    }
    let trace = Trace::new(alloc)?;
    Ok(Owned {
        held,
        trace,
        told,
        count,
    })
}

// Judges what bytes begin with. It takes no memory.
fn judge(bytes: &[u8]) -> Result<(), RestoreFault>
    ensures { MatchResult result (λ _. head_refusal bytes.now ≡ None) (λ fault. head_refusal bytes.now ≡ Some (restore_number fault)) }
{
    if bytes.len() % 8 != 0 || bytes.len() < 16 || word_at(bytes, 0) != SAVE_MAGIC {
        return Err(RestoreFault::Bad);
    }
    if word_at(bytes, 8) != SAVE_VERSION {
        return Err(RestoreFault::OtherVersion);
    }
    Ok(())
}

// What words are behind the magic one, the version and the check word, which is that of the others.
fn owned_of(alloc: Global, words: &[u64]) -> Result<Owned, SavedFault>
    ensures words { IfOk result (λ own. words.now ≡ saved_words own) }
    ensures whole { IfOk result (λ own. HasWholeParts own.held) }
    ensures fresh { IfOk result IsFresh }
    ensures fit { (i : ℕ) → get_or words.now i 0 < 2 ^ 64 }
    ensures taken { (own : Owned) → words.now ≡ saved_words own → IsRunning own → IfErr result (λ why. why ≡ fault.OutOfMemory) }
{
    let mut left = SavedWords::of(words);
    let Some((magic, version)) = left.two() else {
        return Err(SavedFault::Bad);
    };
    let Some(check) = left.next() else {
        return Err(SavedFault::Bad);
    };
    if magic != SAVE_MAGIC || version != SAVE_VERSION || check != check_of(left.as_slice()) {
        return Err(SavedFault::Bad);
    }
    let own = take_owned(alloc, &mut left)?;
    Ok(own)
}

// Puts it on the heap.
fn boxed(alloc: Global, own: Owned) -> Result<Box<Owned>, AllocError>
    ensures { IfOk result (λ it. it.value ≡ own) }
{
    Ok(Box::new(alloc, own)?)
}

// What the words in bytes are, on the heap.
fn judged(alloc: Global, bytes: &[u8]) -> Result<Box<Owned>, SavedFault>
    ensures saved { IfOk result (λ own. IsSavedAs own.value bytes.now) }
    ensures fresh { IfOk result (λ own. IsFresh own.value) }
    ensures taken { (own : Owned) → IsSavedAs own bytes.now → IsRunning own → IfErr result (λ why. why ≡ fault.OutOfMemory) }
{
    let words = words_of(alloc, bytes)?;
    let own = owned_of(alloc, &words)?;
    let owned = boxed(alloc, own)?;
    Ok(owned)
}

// What bytes are, on the heap.
fn restored(alloc: Global, bytes: &[u8]) -> Result<Box<Owned>, RestoreFault>
    ensures saved { IfOk result (λ own. IsSavedAs own.value bytes.now) }
    ensures fresh { IfOk result (λ own. IsFresh own.value) }
    ensures head { OnOk result (head_refusal bytes.now ≡ None) }
    ensures refused { IfErr result (λ fault. RefusedBy (head_refusal bytes.now) (restore_number fault)) }
    ensures first { IfErr result (λ fault. IfSome (head_refusal bytes.now) (λ refusal. restore_number fault ≡ refusal)) }
    ensures taken { (own : Owned) → IsSavedAs own bytes.now → IsRunning own → IfErr result (λ fault. restore_number fault ≡ out_of_memory) }
{
    judge(bytes)?;
    match judged(alloc, bytes) {
        Ok(own) => Ok(own),
        Err(SavedFault::Bad) => Err(RestoreFault::Bad),
        Err(SavedFault::OutOfMemory) => Err(RestoreFault::OutOfMemory),
    }
}

// The number of a refusal.
fn restore_number(fault: RestoreFault) -> u32
    ensures number { result ≡ restore_number fault }
    ensures told { (result ≡ bad_save) ⊎ ((result ≡ other_version) ⊎ (result ≡ out_of_memory)) }
{
    match fault {
        RestoreFault::Bad => 16,
        RestoreFault::OtherVersion => 17,
        RestoreFault::OutOfMemory => 7,
    }
}

/// Opens a handle on what was saved: it owns the same but for the trace, which has no step, the reasons, of which none is kept yet, and
/// what any IOMMU may hold, which isn't kept. It answers 0; 16 if the bytes are no saved platform; 17 if they were saved in another form;
/// or 7 if there is no memory for it. Of the length, the magic word and the version the first that is wrong decides, and no memory is
/// taken for that; the check word is judged before the words behind it. Bytes that a handle was saved as are refused for want of memory
/// alone. The handle is closed if it answers another number than 0.
#[unsafe(no_mangle)]
pub extern "C" fn rviommu_restore(alloc: Global, bytes: &[u8], handle: &mut Handle) -> u32
    requires closed { handle.old.held ≡ None }
    ensures told { (result ≡ ok) ⊎ ((result ≡ bad_save) ⊎ ((result ≡ other_version) ⊎ (result ≡ out_of_memory))) }
    ensures head { IfSome (head_refusal bytes.now) (λ refusal. result ≡ refusal) }
    ensures restored { result ≡ ok → IsSomeAnd handle.new.held (λ own. IsSavedAs own bytes.now × IsFresh own) }

    // What was saved as these bytes is restored, or there is no memory for it: each handle that `rviommu_save` saves is running.
    ensures same { (own : Owned) → IsSavedAs own bytes.now → result ≡ ok → handle.new.held ≡ Some (copied own) }
    ensures opens { (own : Owned) → IsSavedAs own bytes.now → IsRunning own → (result ≡ ok) ⊎ (result ≡ out_of_memory) }
    ensures refused { result ≢ ok → RefusedBy (head_refusal bytes.now) result × (handle.new.held ≡ None) }
{
    match restored(alloc, bytes) {
        Ok(own) => {
            *handle = Handle::of(own);
            0
        }
        Err(fault) => {
            *handle = Handle::closed(alloc);
            restore_number(fault)
        }
    }
}
