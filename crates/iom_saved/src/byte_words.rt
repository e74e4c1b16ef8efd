//! Bytes as words of eight.

ghost use Rattle.std.specs.Prelude.{ℕ, ◌≡◌, ◌≢◌, ◌+◌, ◌/◌, ◌%◌, ◌<◌, ◌≤◌, ◌++◌, Err, get_or, length, take, drop, IfErr, IfOk, OnOk};
ghost use Rattle.iom_bits.specs.Bytes.{bytes_of_number, number_of_bytes};
ghost use Rattle.iom_mem.specs.Words.{bytes_of_words};
ghost use Rattle.iom_saved.specs.Bytes.{words_in, words_of_bytes};
ghost use Rattle.iom_saved.specs.declared.words.SavedFault.TheVariants as fault;

use crate::words::SavedFault;
use iom_bits::le_u64;
use std::alloc::{AllocError, Global};

/// The word that the eight bytes from a place on are, the lowest byte first.
pub fn word_at(bytes: &[u8], at: usize) -> u64
    requires { at + 8 ≤ length bytes.now }
    ensures { result ≡ number_of_bytes (take 8 (drop at bytes.now)) }
{
    let mut word = [0; 8];
    word.copy_from_slice(&bytes[at..at + 8]);
    le_u64(word)
}

// Appends the words in bytes, whose number is a multiple of 8.
fn put_words_in(out: &mut Vec<u64>, bytes: &[u8]) -> Result<(), AllocError>
    ensures { OnOk result (out.new.items ≡ out.old.items ++ words_in (length bytes.now / 8) bytes.now) }
{
    for i in 0..bytes.len() / 8 {
        out.push(word_at(bytes, 8 * i))?;
    }
    Ok(())
}

/// Appends how many words the bytes are, whose number is a multiple of 8, and these words. The fault is a refused allocation.
pub(crate) fn put_bytes(out: &mut Vec<u64>, bytes: &[u8]) -> Result<(), AllocError>
    ensures words { OnOk result (out.new.items ≡ out.old.items ++ words_of_bytes bytes.now) }
    ensures small { OnOk result ((i : ℕ) → get_or bytes.now i 0 < 256) }
{
    out.push(bytes.len() as u64 / 8)?;
    put_words_in(out, bytes)?;
    Ok(())
}

// Appends the bytes of a word.
fn push_word(bytes: &mut Vec<u8>, word: u64) -> Result<(), AllocError>
    ensures { OnOk result (bytes.new.items ≡ bytes.old.items ++ bytes_of_number 8 word) }
{
    bytes.extend_from_slice(&word.to_le_bytes())
}

/// The bytes of words, the lowest byte of each first. The fault is a refused allocation.
pub fn bytes_of(alloc: Global, words: &[u64]) -> Result<Vec<u8>, AllocError>
    ensures { IfOk result (λ bytes. bytes.items ≡ bytes_of_words words.now) }
{
    let mut bytes = Vec::new(alloc);
    for word in words {
        push_word(&mut bytes, *word)?;
    }
    Ok(bytes)
}

/// The words that bytes are, the lowest byte of each first. It answers `Bad` exactly if the number of bytes isn't a multiple of 8.
pub fn words_of(alloc: Global, bytes: &[u8]) -> Result<Vec<u64>, SavedFault>
    ensures words { IfOk result (λ words. bytes.now ≡ bytes_of_words words.items) }
    ensures bad { length bytes.now % 8 ≢ 0 → result ≡ Err fault.Bad }
    ensures memory { length bytes.now % 8 ≡ 0 → IfErr result (λ why. why ≡ fault.OutOfMemory) }
{
    if bytes.len() % 8 != 0 {
        return Err(SavedFault::Bad);
    }
    let mut words = Vec::new(alloc);
    put_words_in(&mut words, bytes)?;
    Ok(words)
}
