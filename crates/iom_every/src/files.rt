//! Entries of MSI page tables that are held.

ghost use Rattle.std.specs.Prelude.{◌≡◌};
ghost use Rattle.iom_every.specs.Stages.{file_found, file_kept, file_reads};
ghost use Rattle.iom_every.specs.Uses.{ForAccess, file_use};

use crate::entry::Entry;
use crate::stages::ReadEntries;
use iom_bits::{Cause, has_bit};
use iom_ddt::Context;
use iom_mem::Region;
use iom_nested::{file_place, file_word};

/// The first word of this entry, if it is the one of an interrupt file at this address, under this context.
pub fn file_use(context: &Context, address: u64, entry: &Entry) -> Option<u64>
    ensures { result ≡ file_use context.now address ForAccess entry.now }
{
    match entry {
        Entry::File { gscid, page, word }
            if *gscid == context.fields.gscid && *page == address / 4096 => { Some(*word) }
        _ => None,
    }
}

/// The first word of the entry of an interrupt file at this address: of the entry that is used, else what memory has; None if a word of that
/// is outside memory.
pub fn file_found<M: Region>(
    ram: &M,
    context: &Context,
    address: u64,
    used: Option<u64>,
) -> Option<u64>
    ensures { result ≡ file_found (M.memory ram.now) context.now address used }
{
    match used {
        Some(word) => Some(word),
        None => file_word(ram, file_place(context, address)),
    }
}

/// The entry of an interrupt file at this address that is read, as it may be kept: none if one is used, or if V isn't set.
pub fn file_reads<M: Region>(
    ram: &M,
    context: &Context,
    address: u64,
    used: Option<u64>,
) -> ReadEntries
    ensures { result.items ≡ file_reads (M.memory ram.now) context.now address used }
{
    match used {
        Some(_) => ReadEntries::new(),
        None => file_kept(
            context,
            address,
            file_word(ram, file_place(context, address)),
        ),
    }
}

// The entry of an interrupt file, as it may be kept. It names the type of what a leaf of the directory says, which an entry has.
fn file_kept(context: &Context, address: u64, word: Option<u64>) -> ReadEntries
    ensures { result.items ≡ file_kept context.now address word }
{
    let _: Option<Result<Context, Cause>> = None;
    let mut read = ReadEntries::new();
    if let Some(word) = word {
        if has_bit(word, 0) {
            read.push(Entry::File {
                gscid: context.fields.gscid,
                page: address / 4096,
                word,
            });
        }
    }
    read
}
