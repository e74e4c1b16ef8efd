//! The bytes of an image.

ghost use Rattle.std.specs.Prelude.{◌≡◌, ◌+◌, ◌++◌, ◌^◌, ◌<◌, map, length, OnOk, IfOk};
ghost use Rattle.iom_bits.specs.Bytes.{bytes_of_number};
ghost use Rattle.iom_image.specs.Image.{IsImage, chunk_bytes, chunks_bytes, flags_bytes, disk_bytes, disks_bytes, head_bytes, image_bytes};
ghost use Rattle.iom_image.specs.Versions.{choices_of, version_bytes, window_bit, window_bytes};
ghost use Rattle.iom_image.specs.declared.version.Version.TheVariants as version;
ghost use Rattle.iom_image.specs.Own.{chunk_seen, disk_seen, image_seen, Fits, AllFit, FewBytes};

use crate::capabilities::{choices, third_word};
use crate::own::{OwnDisk, OwnImage};
use crate::version::Version;
use iom_bits::{Features, flag};
use iom_messages::Window;
use std::alloc::{AllocError, Global};
use std::collections::BTreeMap;

// Appends the four bytes of a number, the lowest first.
fn push_four(out: &mut Vec<u8>, number: u64) -> Result<(), AllocError>
    requires { number < 2 ^ 32 }
    ensures { OnOk result (out.new.items ≡ out.old.items ++ bytes_of_number 4 number) }
{
    let number = number as u32;
    out.extend_from_slice(&number.to_le_bytes())
}

// Appends the eight bytes of a number, the lowest first.
fn push_eight(out: &mut Vec<u8>, number: u64) -> Result<(), AllocError>
    ensures { OnOk result (out.new.items ≡ out.old.items ++ bytes_of_number 8 number) }
{
    out.extend_from_slice(&number.to_le_bytes())
}

// Appends the base and the size of a window, if there is one.
fn push_window(out: &mut Vec<u8>, window: Option<Window>) -> Result<(), AllocError>
    ensures { OnOk result (out.new.items ≡ out.old.items ++ window_bytes window) }
{
    let Some(window) = window else {
        return Ok(());
    };
    push_eight(out, window.base)?;
    push_eight(out, window.size)
}

// Appends the second word of version 4, and the window.
fn push_choices(
    out: &mut Vec<u8>,
    features: Features,
    window: Option<Window>,
) -> Result<(), AllocError>
    ensures { OnOk result (out.new.items
        ≡ out.old.items ++ (bytes_of_number 8 (choices_of features + window_bit window) ++ window_bytes window)) }
{
    push_eight(out, choices(features, window))?;
    push_window(out, window)
}

// Appends the bytes of version 4.
fn push_fourth(
    out: &mut Vec<u8>,
    features: Features,
    window: Option<Window>,
) -> Result<(), AllocError>
    ensures { OnOk result (out.new.items ≡ out.old.items ++ version_bytes (version.Fourth features window)) }
{
    out.extend_from_slice(b"RVIOMMU4")?;
    push_eight(out, iom_regs::capabilities(features))?;
    push_choices(out, features, window)?;
    Ok(())
}

// Appends the bytes of a version.
fn push_version(out: &mut Vec<u8>, version: Version) -> Result<(), AllocError>
    ensures { OnOk result (out.new.items ≡ out.old.items ++ version_bytes version) }
{
    match version {
        Version::First => out.extend_from_slice(b"RVIOMMU1"),
        Version::Second => out.extend_from_slice(b"RVIOMMU2"),
        Version::Third(features) => {
            out.extend_from_slice(b"RVIOMMU3")?;
            push_eight(out, third_word(features))
        }
        Version::Fourth(features, window) => push_fourth(out, features, window),
    }
}

/// Appends the head of an image: version, base, size, and the numbers of chunks and disks, both below 2^32. The fault is a
/// refused allocation.
pub fn push_head(
    out: &mut Vec<u8>,
    version: Version,
    base: u64,
    size: u64,
    chunks: u64,
    disks: u64,
) -> Result<(), AllocError>
    requires chunks { chunks < 2 ^ 32 }
    requires disks { disks < 2 ^ 32 }
    ensures { OnOk result (out.new.items ≡ out.old.items ++ head_bytes version base size chunks disks) }
{
    push_version(out, version)?;
    push_eight(out, base)?;
    push_eight(out, size)?;
    push_four(out, chunks)?;
    push_four(out, disks)?;
    Ok(())
}

/// Appends a chunk: physical address, length and fewer than 2^32 bytes. The fault is a refused allocation.
pub fn push_chunk(out: &mut Vec<u8>, addr: u64, bytes: &[u8]) -> Result<(), AllocError>
    requires { length bytes.now < 2 ^ 32 }
    ensures { OnOk result (out.new.items ≡ out.old.items ++ chunk_bytes (record { addr = addr; bytes = bytes.now })) }
{
    push_eight(out, addr)?;
    push_four(out, bytes.len() as u64)?;
    out.extend_from_slice(bytes)?;
    Ok(())
}

// Appends the chunks in the order of their addresses.
fn push_chunks(out: &mut Vec<u8>, chunks: &BTreeMap<u64, Vec<u8>>) -> Result<(), AllocError>
    requires { FewBytes (map chunk_seen chunks.now.entries) }
    ensures { OnOk result (out.new.items ≡ out.old.items ++ chunks_bytes (map chunk_seen chunks.now.entries)) }
{
    for (addr, bytes) in chunks {
        push_chunk(out, *addr, bytes)?;
    }
    Ok(())
}

// Appends the flags of a disk in an image that has them.
fn push_flags(out: &mut Vec<u8>, has_flags: bool, read_only: bool) -> Result<(), AllocError>
    ensures { OnOk result (out.new.items ≡ out.old.items ++ flags_bytes has_flags read_only) }
{
    if has_flags {
        push_four(out, flag(read_only))
    } else {
        Ok(())
    }
}

/// Appends a disk, with flags or without: its id and how many sectors it has, both below 2^32, and fewer than 2^32 bytes. The fault
/// is a refused allocation.
pub fn push_disk(
    out: &mut Vec<u8>,
    has_flags: bool,
    id: u64,
    sectors: u64,
    read_only: bool,
    bytes: &[u8],
) -> Result<(), AllocError>
    requires id { id < 2 ^ 32 }
    requires sectors { sectors < 2 ^ 32 }
    requires bytes { length bytes.now < 2 ^ 32 }
    ensures { OnOk result (out.new.items ≡ out.old.items
        ++ disk_bytes has_flags (record { id = id; sectors = sectors; read_only = read_only; bytes = bytes.now })) }
{
    push_four(out, id)?;
    push_four(out, sectors)?;
    push_flags(out, has_flags, read_only)?;
    push_four(out, bytes.len() as u64)?;
    out.extend_from_slice(bytes)?;
    Ok(())
}

// Appends a disk that an image has.
fn push_own_disk(out: &mut Vec<u8>, has_flags: bool, disk: &OwnDisk) -> Result<(), AllocError>
    requires { Fits (disk_seen disk.now) }
    ensures { OnOk result (out.new.items ≡ out.old.items ++ disk_bytes has_flags (disk_seen disk.now)) }
{
    push_disk(
        out,
        has_flags,
        disk.id,
        disk.sectors,
        disk.read_only,
        &disk.bytes,
    )
}

// Appends the disks in their order.
fn push_disks(out: &mut Vec<u8>, has_flags: bool, disks: &[OwnDisk]) -> Result<(), AllocError>
    requires { AllFit (map disk_seen disks.now) }
    ensures { OnOk result (out.new.items ≡ out.old.items ++ disks_bytes has_flags (map disk_seen disks.now)) }
{
    match disks {
        [] => Ok(()),
        [first, rest @ ..] => {
            push_own_disk(out, has_flags, first)?;
            push_disks(out, has_flags, rest)?;
            Ok(())
        }
    }
}

/// The bytes of an image. The fault is a refused allocation.
pub fn image_bytes(alloc: Global, image: &OwnImage) -> Result<Vec<u8>, AllocError>
    requires { IsImage (image_seen image.now) }
    ensures { IfOk result (λ bytes. bytes.items ≡ image_bytes (image_seen image.now)) }
{
    let mut out = Vec::new(alloc);
    push_head(
        &mut out,
        image.version,
        image.base,
        image.size,
        image.chunks.len() as u64,
        image.disks.len() as u64,
    )?;
    push_chunks(&mut out, &image.chunks)?;
    push_disks(&mut out, image.version.is_flagged(), &image.disks)?;
    Ok(out)
}
