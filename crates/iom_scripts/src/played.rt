//! The requests that an IOMMU may read ahead by what a script names.

ghost use Rattle.iom_debug.specs.Desks.{names_of};
ghost use Rattle.iom_scripts.specs.Playing.{anyhow};

use crate::beginning::account;
use crate::checking::folder_name;
use crate::marking::Marked;
use indexmap::IndexSet;
use iom_bits::Kind;
use iom_core::Request;
use iom_debug::{Debugger, LineAccount, first_bytes};
use iom_image::{LoadFault, load};
use iom_include::{Including, Texts};
use iom_reader::{Answerer, RunFault, WatchedReader, WatchedWriter, answer_all};
use iom_tool::{Inquiry, Line, Trace};
use std::alloc::{AllocError, Global};
use std::io::{Read, Write};

// A page of 4096 bytes, as a device addresses it.
#[derive(Clone, Copy, PartialEq, Eq, Hash)]
struct DevicePage {
    did: u32,
    iova: u64,
}

// A script that is played for what it names.
#[derive(Drop)]
struct Naming<'a> {
    debugger: Debugger<'a>,
    pages: IndexSet<DevicePage>,
    // whether memory was refused
    is_lost: bool,
}

impl Answerer for Naming<'_> {
    ghost answering = { anyhow };

    ghost state = { λ naming. tt };

    ghost names = { λ naming. names_of naming.debugger };

    fn answer<W: Write>(
        &mut self,
        line: &[u8],
        _writer: &mut WatchedWriter<'_, W>,
    ) -> Result<(), RunFault> {
        let read = self.debugger.names.read(first_bytes(line));
        if let Line::Inquires(Inquiry::Ahead(did, iova, len)) = read {
            self.is_lost |= add_range(&mut self.pages, did, iova, len).is_err();
        }
        let _ = self.debugger.carry_out(1, read);
        Ok(())
    }
}

// Adds the pages of a range.
fn add_range(
    pages: &mut IndexSet<DevicePage>,
    did: u32,
    iova: u64,
    len: u64,
) -> Result<(), AllocError> {
    let first = iova / 4096;
    let last = iova.saturating_add(len.saturating_sub(1)) / 4096;
    for page in first..=last {
        let _ = pages.insert(DevicePage {
            did,
            iova: page * 4096,
        })?;
    }
    Ok(())
}

// Adds the pages of the requests that steps made.
fn add_made(pages: &mut IndexSet<DevicePage>, reasons: &LineAccount) -> Result<(), AllocError> {
    let holdings = reasons.holdings().ok_or(AllocError)?;
    for i in 0..holdings.request_count() {
        if let Some(made) = holdings.request(i) {
            let _ = pages.insert(DevicePage {
                did: made.request.did,
                iova: made.request.iova,
            })?;
        }
    }
    Ok(())
}

// The requests for pages, to read and to write.
fn requests_of(alloc: Global, pages: &IndexSet<DevicePage>) -> Result<Vec<Request>, AllocError> {
    let mut requests = Vec::new(alloc);
    for page in pages.iter() {
        for kind in [Kind::Read, Kind::Write] {
            requests.push(Request::of(page.did, page.iova, kind))?;
        }
    }
    Ok(requests)
}

// Plays the lines of a script, and adds the pages of its lines `ahead`. What ends it before its end doesn't matter.
fn play<T: Texts, R: Read>(
    naming: &mut Naming<'_>,
    script: &mut Including<'_, '_, T, R>,
    output: &mut Vec<u8>,
) -> Result<(), AllocError> {
    let mut reader = WatchedReader::new(&mut *script);
    let mut writer = WatchedWriter::new(output);
    let _ = answer_all(naming, &mut reader, &mut writer);
    if naming.is_lost {
        return Err(AllocError);
    }
    Ok(())
}

// Plays a script of this name, as far as its reader and its texts give it, on this platform.
fn play_on<T: Texts, R: Read>(
    alloc: Global,
    debugger: Debugger<'_>,
    texts: &T,
    own: &str,
    input: &mut R,
) -> Result<IndexSet<DevicePage>, AllocError> {
    let marked = Marked::new(texts);
    let mut script = Including::new(alloc, &marked, own, input);
    let mut naming = Naming {
        debugger,
        pages: IndexSet::new(alloc),
        is_lost: false,
    };
    play(&mut naming, &mut script, &mut Vec::new(alloc))?;
    Ok(naming.pages)
}

/// The requests that an IOMMU may read ahead by what a script names, played on the platform that an image starts: of each page, for each device, that
/// an access of it requests, or that a line `ahead` names; to read it and to write it. What ends the script ends what it names. A refusal is that of
/// the image, or `OutOfMemory`.
pub fn requests_named<T: Texts, R: Read>(
    alloc: Global,
    image: &[u8],
    texts: &T,
    name: Option<&str>,
    input: &mut R,
) -> Result<Vec<Request>, LoadFault> {
    let mut platform = load(alloc, image)?;
    let mut trace = Trace::new(alloc)?;
    let mut reasons = account(&platform, alloc, true);
    let debugger = Debugger::new(alloc, &mut platform, &mut trace, &mut reasons);
    let mut pages = play_on(alloc, debugger, texts, folder_name(name), input)?;
    add_made(&mut pages, &reasons)?;
    Ok(requests_of(alloc, &pages)?)
}
