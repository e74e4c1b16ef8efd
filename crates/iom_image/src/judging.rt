//! The first pass over an image: it judges, and takes no memory.

ghost use Rattle.std.specs.Prelude.{◌+◌, ◌≤◌, ◌^◌, []};
ghost use Rattle.iom_image.specs.Reading.{Reads, Judges, rest_of, chunks_at, disks_at, image_of, ReadsImages};

use crate::fault::LoadFault;
use crate::fields::{Header, chunk, disk, header_of};
use arrayvec::ArrayVec;

// The bytes after the chunks.
fn chunks<'a>(header: &Header, bytes: &'a [u8]) -> Result<&'a [u8], LoadFault>
    requires { header.now.base + header.now.size ≤ 2 ^ 56 }
    ensures { Reads (λ rest. rest.now) result
        (rest_of (chunks_at header.now.base header.now.size 0 header.now.chunks bytes.now)) }
{
    let mut rest = bytes;
    let mut free = 0;
    for _ in 0..header.chunks {
        let (part, after) = chunk(header, free, rest)?;
        free = part.addr + part.bytes.len() as u64;
        rest = after;
    }
    Ok(rest)
}

// The bytes after so many disks, with flags or without.
fn disks(has_flags: bool, count: u32, bytes: &[u8]) -> Result<&[u8], LoadFault>
    requires { count ≤ 8 }
    ensures { Reads (λ rest. rest.now) result (rest_of (disks_at has_flags [] count bytes.now)) }
{
    let mut rest = bytes;
    let mut ids: ArrayVec<u64, 8> = ArrayVec::new();
    for _ in 0..count {
        let (part, after) = disk(has_flags, ids.as_slice(), rest)?;
        ids.push(part.id as u64);
        rest = after;
    }
    Ok(rest)
}

/// Whether bytes are an image, all of them; else the refusal. It takes no memory.
#[tactic(auto, unfolding(crate::specs::Reading::image_of))]
pub fn judge(bytes: &[u8]) -> Result<(), LoadFault>
    ensures { Judges result (image_of bytes.now) }
{
    let (header, rest) = match header_of(bytes) {
        Ok(head) => head,
        Err(fault) => return Err(fault),
    };
    let rest = chunks(&header, rest)?;
    let rest = disks(header.version.is_flagged(), header.disks, rest)?;
    if rest.is_empty() {
        Ok(())
    } else {
        Err(LoadFault::Trailing)
    }
}

/// A law of `judge` and `load`: bytes are read as an image exactly if they are the bytes of that image.
pub fn images_are_what_is_read()
    ensures { ReadsImages }
{}
