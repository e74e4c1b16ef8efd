//! Memory.

ghost use Rattle.std.specs.Prelude.{ℕ, ◌≡◌, ◌*◌, ◌++◌, ◌∷◌, List, None, length, OnOk, IfErr, IfOk, MatchResult};
ghost use Rattle.iom_mem.specs.Lent.{memory_of};
ghost use Rattle.iom_mem.specs.Memory.{Memory};
ghost use Rattle.iom_mem.specs.Sizes.{refusal_of};
ghost use Rattle.iom_mem.specs.Words.{bytes_of_words};
ghost use Rattle.iom_saved.specs.Bytes.{memory_words, words_of_bytes};
ghost use Rattle.iom_saved.specs.Kept.{IsMemory};
ghost use Rattle.iom_saved.specs.Whole.{IsWhole};
ghost use Rattle.iom_saved.specs.declared.words.SavedFault.TheVariants as fault;

use crate::words::{SavedFault, SavedWords};
use iom_mem::{MemFault, Ram};
use std::alloc::{AllocError, Global};

/// Appends the words of memory: its base, a physical address, how many words of eight bytes there are, and these. The fault is a refused
/// allocation.
pub fn put_memory(out: &mut Vec<u64>, ram: &Ram) -> Result<(), AllocError>
    ensures words { OnOk result (out.new.items ≡ out.old.items ++ memory_words ram.now) }
    ensures whole { OnOk result (IsWhole ram.now.bytes) }
    ensures kept { OnOk result (IsMemory ram.now) }
{
    out.push(ram.base())?;
    put_words(out, ram.as_words())?;
    Ok(())
}

// Appends how many words there are, and these.
fn put_words(out: &mut Vec<u64>, words: &[u64]) -> Result<(), AllocError>
    ensures { OnOk result (out.new.items ≡ out.old.items ++ words_of_bytes (bytes_of_words words.now)) }
{
    out.push(words.len() as u64)?;
    out.extend_from_slice(words)?;
    Ok(())
}

/// The memory that the next words are.
pub fn take_memory(alloc: Global, words: &mut SavedWords<'_>) -> Result<Ram, SavedFault>
    ensures words { IfOk result (λ ram. words.old ≡ memory_words ram ++ words.new) }
    ensures whole { IfOk result (λ ram. IsWhole ram.bytes) }

    // What was put is taken, or there is no memory for it.
    ensures taken { (m : Memory) (rest : List ℕ) → words.old ≡ memory_words m ++ rest → IsMemory m →
        MatchResult result (λ taken. (taken ≡ m) × (words.new ≡ rest)) (λ why. why ≡ fault.OutOfMemory) }
{
    let Some(base) = words.next() else {
        return Err(SavedFault::Bad);
    };
    let Some(list) = words.list() else {
        return Err(SavedFault::Bad);
    };
    let ram = memory_of(alloc, base, list)?;
    Ok(ram)
}

// The memory of these words from a base on.
fn memory_of(alloc: Global, base: u64, words: &[u64]) -> Result<Ram, SavedFault>
    ensures words { IfOk result (λ ram. memory_words ram ≡ base ∷ length words.now ∷ words.now) }
    ensures whole { IfOk result (λ ram. IsWhole ram.bytes) }
    ensures made { IfOk result (λ ram. ram ≡ memory_of base words.now) }
    ensures memory { refusal_of base (8 * length words.now) ≡ None → IfErr result (λ why. why ≡ fault.OutOfMemory) }
{
    match Ram::of_words(alloc, base, words) {
        Ok(ram) => Ok(ram),
        Err(MemFault::OutOfMemory) => Err(SavedFault::OutOfMemory),
        Err(_) => Err(SavedFault::Bad),
    }
}
