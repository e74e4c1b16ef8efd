//! An image of version 1, 2 or 3 as one of version 4.

ghost use Rattle.std.specs.Prelude.{◌≡◌, ◌+◌, ◌≤◌, ◌^◌, [], IfOk, IfErr, IsOk};
ghost use Rattle.iom_image.specs.Loading.{state_from};
ghost use Rattle.iom_image.specs.Reading.{Gives, chunks_at, disks_at, image_of, mapped};
ghost use Rattle.iom_image.specs.Upgrading.{upgraded, upgraded_bytes, IsUpgraded, chunks_behind, disks_behind};
ghost use Rattle.iom_image.specs.Versions.{features_of, window_of};
ghost use Rattle.iom_image.specs.declared.fault.LoadFault.TheVariants as fault;
ghost use Rattle.iom_image.specs.declared.version.Version.TheVariants as kind;

use crate::fault::LoadFault;
use crate::fields::{Header, chunk, disk, header_of};
use crate::judging::judge;
use crate::version::Version;
use crate::writing::{push_chunk, push_disk, push_head};
use arrayvec::ArrayVec;
use std::alloc::Global;

// Writes the chunks again, and answers the bytes after them.
fn copy_chunks<'a>(
    out: &mut Vec<u8>,
    header: &Header,
    bytes: &'a [u8],
) -> Result<&'a [u8], LoadFault>
    requires { header.now.base + header.now.size ≤ 2 ^ 56 }
    ensures { Gives (λ rest. (out.new.items, rest.now)) result
        (chunks_behind out.old.items (chunks_at header.now.base header.now.size 0 header.now.chunks bytes.now)) }
{
    let mut rest = bytes;
    let mut free = 0;
    for _ in 0..header.chunks {
        let (part, after) = chunk(header, free, rest)?;
        push_chunk(out, part.addr, part.bytes)?;
        free = part.addr + part.bytes.len() as u64;
        rest = after;
    }
    Ok(rest)
}

// Writes so many disks, which have flags or not, with flags.
fn copy_disks(out: &mut Vec<u8>, has_flags: bool, count: u32, bytes: &[u8]) -> Result<(), LoadFault>
    requires { count ≤ 8 }
    ensures { Gives (λ _. out.new.items) result (disks_behind out.old.items (disks_at has_flags [] count bytes.now)) }
{
    let mut rest = bytes;
    let mut ids: ArrayVec<u64, 8> = ArrayVec::new();
    for _ in 0..count {
        let (part, after) = disk(has_flags, ids.as_slice(), rest)?;
        push_disk(
            out,
            true,
            part.id as u64,
            part.sectors as u64,
            part.read_only,
            part.bytes,
        )?;
        ids.push(part.id as u64);
        rest = after;
    }
    Ok(())
}

// Version 4 with the features and the window that a head has.
fn as_fourth(header: &Header) -> Version
    ensures { result ≡ kind.Fourth (features_of header.now.version) (window_of header.now.version) }
{
    Version::Fourth(header.version.features(), header.version.window())
}

// The bytes in version 4 of an image that was judged. Its words are 16 bytes, and each disk has 4 of flags.
#[tactic(auto, unfolding(crate::specs::Reading::image_of))]
fn rewrite(alloc: Global, bytes: &[u8]) -> Result<Vec<u8>, LoadFault>
    requires { IsOk (image_of bytes.now) }
    ensures { Gives (λ new. new.items) result (mapped upgraded_bytes (image_of bytes.now)) }
{
    let (header, rest) = match header_of(bytes) {
        Ok(head) => head,
        Err(fault) => return Err(fault),
    };
    let mut out = Vec::with_capacity(alloc, bytes.len() + 16 + 4 * header.disks as usize)?;
    push_head(
        &mut out,
        as_fourth(&header),
        header.base,
        header.size,
        header.chunks as u64,
        header.disks as u64,
    )?;
    let rest = copy_chunks(&mut out, &header, rest)?;
    copy_disks(&mut out, header.version.is_flagged(), header.disks, rest)?;
    Ok(out)
}

/// The image in version 4, with its memory, chunks, disks, features and window, which starts the same platform. Of version 1 and 2 its words say
/// that Svnapot is left out. One of version 4 comes back as it is. The whole image is judged first, with the refusals of `load`, so
/// `OutOfMemory` is returned only for an image that would be accepted.
pub fn upgrade(alloc: Global, bytes: &[u8]) -> Result<Vec<u8>, LoadFault>
    ensures exact { Gives (λ new. new.items) result (mapped upgraded_bytes (image_of bytes.now)) }
    ensures memory { IfErr result (λ e. e ≡ fault.OutOfMemory → IsOk (image_of bytes.now)) }
    ensures read { IfOk result (λ new. image_of new.items ≡ mapped upgraded (image_of bytes.now)) }
    ensures state { IfOk result (λ new. mapped state_from (image_of new.items) ≡ mapped state_from (image_of bytes.now)) }
    ensures same { IfOk result (λ new. IsUpgraded bytes.now → new.items ≡ bytes.now) }
{
    judge(bytes)?;
    let new = rewrite(alloc, bytes)?;
    Ok(new)
}
