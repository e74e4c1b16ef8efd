//! What a statement on a line of a text says.

ghost use Rattle.std.specs.Prelude.{◌≡◌, ◌++◌, ◌<◌, ◌+◌, map, IfOk, IfSome, OnOk};
ghost use Rattle.std.specs.Option.{option_map};
ghost use Rattle.iom_asm.specs.Assembly.{ImageDraftView as AsmDraft, moved_to, hex, one_hex, bytes_for, ram_draft, opened, moved, disk_of, disk_for, first_bytes, joined, offered, window_for, windowed, stated, started, after_words, or_bad, Makes};
ghost use Rattle.iom_text.specs.Words.{words_of};
ghost use Rattle.iom_image.specs.Image.{IsImage};
ghost use Rattle.iom_image.specs.Own.{disk_seen};
ghost use Rattle.iom_mem.specs.Words.{bytes_of_words};
ghost use Rattle.iom_asm.specs.Drafts.{draft_seen, found_seen};

use crate::asm_fault::AsmFault;
use crate::draft::ImageDraft;
use hex::FromHexError;
use iom_bits::Features;
use iom_image::OwnDisk;
use iom_items::{features_for, words_on};
use iom_mem::is_ram;
use iom_messages::Window;
use iom_text::{number, words};
use std::alloc::{AllocError, Global};

// The bytes that hex digits write; None where they write none.
#[tactic(auto, unfolding(crate::specs::Assembly::hex))]
fn hex(alloc: Global, word: &[u8]) -> Result<Option<Vec<u8>>, AllocError>
    ensures { IfOk result (λ found. option_map (λ bytes. bytes.items) found ≡ hex word.now) }
{
    if word.len() < 2 {
        return Ok(None);
    }
    match hex::decode(alloc, word) {
        Ok(bytes) => Ok(Some(bytes)),
        Err(FromHexError::OutOfMemory) => Err(AllocError),
        Err(_) => Ok(None),
    }
}

// The bytes that one word of hex digits writes; None of any other number of words.
fn one_hex(alloc: Global, words: &[&[u8]]) -> Result<Option<Vec<u8>>, AllocError>
    ensures { IfOk result (λ found. option_map (λ bytes. bytes.items) found ≡ one_hex (map (λ word. word.now) words.now)) }
{
    match words {
        [word] => hex(alloc, word),
        _ => Ok(None),
    }
}

// Appends the bytes of words, the lowest first.
#[tactic(auto, unfolding(iom_mem::specs::Words::bytes_of_words))]
fn push_words(out: &mut Vec<u8>, words: &[u64]) -> Result<(), AllocError>
    ensures { OnOk result (out.new.items ≡ out.old.items ++ bytes_of_words words.now) }
{
    match words {
        [] => Ok(()),
        [first, rest @ ..] => {
            out.extend_from_slice(&first.to_le_bytes())?;
            push_words(out, rest)
        }
    }
}

// The bytes of words, the lowest first.
fn words_of(alloc: Global, words: &[u64]) -> Result<Vec<u8>, AllocError>
    ensures { IfOk result (λ bytes. bytes.items ≡ bytes_of_words words.now) }
{
    let mut bytes = Vec::new(alloc);
    push_words(&mut bytes, words)?;
    Ok(bytes)
}

// The bytes that the statement of this name and these operands places on a machine with these features; None where there is no such
// statement.
#[tactic(auto, unfolding(crate::specs::Assembly::bytes_for))]
fn bytes_for(
    alloc: Global,
    features: Features,
    name: &[u8],
    operands: &[&[u8]],
) -> Result<Option<Vec<u8>>, AllocError>
    ensures { IfOk result (λ found. option_map (λ bytes. bytes.items) found
        ≡ bytes_for features name.now (map (λ word. word.now) operands.now)) }
{
    if name == b"bytes".as_slice() {
        return one_hex(alloc, operands);
    }
    match words_on(features, name, operands) {
        Some(words) => Ok(Some(words_of(alloc, words.as_slice())?)),
        None => Ok(None),
    }
}

// The memory that a base and a size write, where there may be such a one.
#[tactic(auto, unfolding(crate::specs::Assembly::ram_draft))]
fn ram_draft(alloc: Global, base: &[u8], size: &[u8]) -> Option<ImageDraft>
    ensures { option_map draft_seen result ≡ ram_draft base.now size.now }
{
    let base = number(base)?;
    let size = number(size)?;
    if !is_ram(base, size) {
        return None;
    }
    Some(ImageDraft::new(alloc, base, size))
}

// What the operands of `ram` make.
#[tactic(auto, unfolding(crate::specs::Assembly::opened))]
fn opened(alloc: Global, operands: &[&[u8]]) -> Option<ImageDraft>
    ensures { option_map draft_seen result ≡ opened (map (λ word. word.now) operands.now) }
{
    match operands {
        [base, size] => ram_draft(alloc, base, size),
        _ => None,
    }
}

// The place that the operand of `at` writes.
#[tactic(auto, unfolding(crate::specs::Assembly::moved))]
fn place_for(operands: &[&[u8]]) -> Option<u64>
    ensures { (draft : AsmDraft) → option_map (moved_to draft) result ≡ moved draft (map (λ word. word.now) operands.now) }
{
    match operands {
        [place] => number(place),
        _ => None,
    }
}

// The first bytes of a disk: none, or those of one word.
fn first_bytes(alloc: Global, words: &[&[u8]]) -> Result<Option<Vec<u8>>, AllocError>
    ensures { IfOk result (λ found. option_map (λ bytes. bytes.items) found ≡ first_bytes (map (λ word. word.now) words.now)) }
{
    if words.is_empty() {
        return Ok(Some(Vec::new(alloc)));
    }
    one_hex(alloc, words)
}

// The disk that an id, a number of sectors and the words behind them write.
#[tactic(auto, unfolding(crate::specs::Assembly::disk_of))]
fn disk_of(
    alloc: Global,
    read_only: bool,
    id: &[u8],
    sectors: &[u8],
    words: &[&[u8]],
) -> Result<Option<OwnDisk>, AllocError>
    ensures { IfOk result (λ found. option_map disk_seen found ≡ disk_of read_only id.now sectors.now (map (λ word. word.now) words.now)) }
{
    let Some(id) = number(id) else {
        return Ok(None);
    };
    let Some(sectors) = number(sectors) else {
        return Ok(None);
    };
    match first_bytes(alloc, words)? {
        Some(bytes) => Ok(Some(OwnDisk {
            id,
            sectors,
            read_only,
            bytes,
        })),
        None => Ok(None),
    }
}

// The disk that the operands of `disk` or `rodisk` write.
#[tactic(auto, unfolding(crate::specs::Assembly::disk_for))]
fn disk_for(
    alloc: Global,
    read_only: bool,
    operands: &[&[u8]],
) -> Result<Option<OwnDisk>, AllocError>
    ensures { IfOk result (λ found. option_map disk_seen found ≡ disk_for read_only (map (λ word. word.now) operands.now)) }
{
    match operands {
        [id, sectors, words @ ..] => disk_of(alloc, read_only, id, sectors, words),
        _ => Ok(None),
    }
}

// The window that the operands of `window` write.
#[tactic(auto, unfolding(crate::specs::Assembly::window_for))]
fn window_for(operands: &[&[u8]]) -> Option<Window>
    ensures { result ≡ window_for (map (λ word. word.now) operands.now) }
{
    match operands {
        [base, size] => {
            let base = number(base)?;
            let size = number(size)?;
            Some(Window { base, size })
        }
        _ => None,
    }
}

impl ImageDraft {
    // A statement `disk` or `rodisk`.
    #[tactic(auto, unfolding(crate::specs::Assembly::joined))]
    fn state_disk(
        &mut self,
        alloc: Global,
        line: u64,
        read_only: bool,
        operands: &[&[u8]],
    ) -> Result<(), AsmFault>
        ensures { Makes (λ _. draft_seen self.new) result
            (or_bad line (joined (draft_seen self.old) read_only (map (λ word. word.now) operands.now))) }
    {
        let Some(disk) = disk_for(alloc, read_only, operands)? else {
            return Err(AsmFault::BadLine(line));
        };
        if self.join(disk)? {
            Ok(())
        } else {
            Err(AsmFault::BadLine(line))
        }
    }

    // A statement `capabilities`.
    #[tactic(auto, unfolding(crate::specs::Assembly::offered))]
    fn state_capabilities(&mut self, line: u64, operands: &[&[u8]]) -> Result<(), AsmFault>
        ensures { Makes (λ _. draft_seen self.new) result
            (or_bad line (offered (draft_seen self.old) (map (λ word. word.now) operands.now))) }
    {
        let Some(features) = features_for(operands) else {
            return Err(AsmFault::BadLine(line));
        };
        if self.offer(features) {
            Ok(())
        } else {
            Err(AsmFault::BadLine(line))
        }
    }

    // A statement `window`.
    #[tactic(auto, unfolding(crate::specs::Assembly::windowed))]
    fn state_window(&mut self, line: u64, operands: &[&[u8]]) -> Result<(), AsmFault>
        ensures { Makes (λ _. draft_seen self.new) result
            (or_bad line (windowed (draft_seen self.old) (map (λ word. word.now) operands.now))) }
    {
        let Some(window) = window_for(operands) else {
            return Err(AsmFault::BadLine(line));
        };
        if self.open_window(window) {
            Ok(())
        } else {
            Err(AsmFault::BadLine(line))
        }
    }

    // The statement of this name and these operands, which is not the first one.
    #[tactic(auto, unfolding(crate::specs::Assembly::stated))]
    fn state(
        &mut self,
        alloc: Global,
        line: u64,
        name: &[u8],
        operands: &[&[u8]],
    ) -> Result<(), AsmFault>
        requires { IsImage (draft_seen self.old).image }
        ensures { Makes (λ _. draft_seen self.new) result
            (stated line (draft_seen self.old) name.now (map (λ word. word.now) operands.now)) }
    {
        if name == b"at".as_slice() {
            let Some(place) = place_for(operands) else {
                return Err(AsmFault::BadLine(line));
            };
            self.next_address = place;
            Ok(())
        } else if name == b"disk".as_slice() {
            self.state_disk(alloc, line, false, operands)
        } else if name == b"rodisk".as_slice() {
            self.state_disk(alloc, line, true, operands)
        } else if name == b"capabilities".as_slice() {
            self.state_capabilities(line, operands)
        } else if name == b"window".as_slice() {
            self.state_window(line, operands)
        } else {
            match bytes_for(alloc, self.image.version.features(), name, operands)? {
                Some(bytes) => self.put(line, bytes),
                None => Err(AsmFault::BadLine(line)),
            }
        }
    }
}

// The first statement.
#[tactic(auto, unfolding(crate::specs::Assembly::started))]
fn started(
    alloc: Global,
    line: u64,
    name: &[u8],
    operands: &[&[u8]],
) -> Result<ImageDraft, AsmFault>
    ensures { Makes draft_seen result (started line name.now (map (λ word. word.now) operands.now)) }
{
    if name != b"ram".as_slice() {
        return Err(AsmFault::BadLine(line));
    }
    match opened(alloc, operands) {
        Some(draft) => Ok(draft),
        None => Err(AsmFault::BadLine(line)),
    }
}

// What the statements before and a line of these words make.
#[tactic(auto, unfolding(crate::specs::Assembly::after_words))]
fn after_words(
    alloc: Global,
    line: u64,
    draft: Option<ImageDraft>,
    words: &[&[u8]],
) -> Result<Option<ImageDraft>, AsmFault>
    requires { IfSome draft (λ draft. IsImage (draft_seen draft).image) }
    ensures { Makes found_seen result (after_words line (found_seen draft) (map (λ word. word.now) words.now)) }
{
    let [name, operands @ ..] = words else {
        return Ok(draft);
    };
    match draft {
        Some(mut draft) => {
            draft.state(alloc, line, name, operands)?;
            Ok(Some(draft))
        }
        None => Ok(Some(started(alloc, line, name, operands)?)),
    }
}

/// What the statements before and line `line` make; None while there is no statement. The faults name that line.
pub fn after_line(
    alloc: Global,
    line: u64,
    draft: Option<ImageDraft>,
    text: &[u8],
) -> Result<Option<ImageDraft>, AsmFault>
    requires { IfSome draft (λ draft. IsImage (draft_seen draft).image) }
    ensures { Makes found_seen result (after_words line (found_seen draft) (words_of text.now)) }
{
    let words = words(text);
    // No statement has more than fourteen words.
    if words.len() > 14 {
        return Err(AsmFault::BadLine(line));
    }
    after_words(alloc, line, draft, words.as_slice())
}
