//! The second pass over an image: it takes memory, and builds the parts of the platform that the image starts.

ghost use Rattle.std.specs.Prelude.{◌≡◌, ◌+◌, ◌*◌, ◌++◌, ◌-◌, ◌≤◌, ◌^◌, [], length, replicate, IfOk, IfErr};
ghost use Rattle.iom_blk.specs.Device.{at_reset};
ghost use Rattle.iom_mem.specs.Memory.{size_of, put};
ghost use Rattle.iom_mem.specs.Sizes.{zeroed};
ghost use Rattle.iom_image.specs.Loading.{filled, joined};
ghost use Rattle.iom_image.specs.Reading.{Reads, Gives, chunks_at, disks_at};
ghost use Rattle.iom_image.specs.declared.fault.LoadFault.TheVariants as fault;

use crate::fault::LoadFault;
use crate::fields::{DiskPart, Header, chunk, disk};
use arrayvec::ArrayVec;
use iom_blk::Blk;
use iom_mem::Ram;
use std::alloc::{AllocError, Global};

// Writes bytes that lie in memory.
#[tactic(auto, using(crate::proofs::Filling::inside))]
fn store(ram: &mut Ram, addr: u64, bytes: &[u8])
    requires above { ram.old.base ≤ addr }
    requires below { addr + length bytes.now ≤ ram.old.base + size_of ram.old }
    ensures { ram.new ≡ put ram.old addr bytes.now }
{
    let stored = ram.write(addr, bytes);
    prove!(stored);
}

/// Puts the chunks in place, and answers the bytes after them. The refusals are those of `chunk`.
pub fn fill<'a>(ram: &mut Ram, header: &Header, bytes: &'a [u8]) -> Result<&'a [u8], LoadFault>
    requires end { header.now.base + header.now.size ≤ 2 ^ 56 }
    requires base { ram.old.base ≡ header.now.base }
    requires size { size_of ram.old ≡ header.now.size }
    ensures { Reads (λ rest. (ram.new, rest.now)) result
        (filled ram.old (chunks_at header.now.base header.now.size 0 header.now.chunks bytes.now)) }
{
    let mut rest = bytes;
    let mut free = 0;
    for _ in 0..header.chunks {
        let (part, after) = chunk(header, free, rest)?;
        store(ram, part.addr, part.bytes);
        free = part.addr + part.bytes.len() as u64;
        rest = after;
    }
    Ok(rest)
}

// A disk of so many bytes, with its first ones; the others are 0.
fn make_disk(alloc: Global, first: &[u8], size: usize) -> Result<Vec<u8>, AllocError>
    requires { length first.now ≤ size }
    ensures { IfOk result (λ disk. disk.items ≡ first.now ++ replicate (size - length first.now) 0) }
{
    let mut bytes = Vec::with_capacity(alloc, size)?;
    bytes.extend_from_slice(first)?;
    bytes.resize(size, 0)?;
    Ok(bytes)
}

// A device that was not touched yet, with this disk.
fn make_device(alloc: Global, part: &DiskPart) -> Result<Blk, AllocError>
    requires some { 1 ≤ part.now.sectors }
    requires most { part.now.sectors ≤ 65536 }
    requires room { length part.now.bytes.now ≤ part.now.sectors * 512 }
    ensures { IfOk result (λ device. device
        ≡ at_reset (part.now.bytes.now ++ replicate (part.now.sectors * 512 - length part.now.bytes.now) 0) part.now.read_only) }
{
    let disk = make_disk(alloc, part.bytes, part.sectors as usize * 512)?;
    Ok(if part.read_only {
        Blk::new_read_only(disk)
    } else {
        Blk::new(disk)
    })
}

/// The block devices of this number of disks, at most 8, read with or without flags, each with its id, below 2^24. The refusals are those
/// of `disk`, and `OutOfMemory`.
pub fn make_devices(
    alloc: Global,
    has_flags: bool,
    count: u32,
    bytes: &[u8],
) -> Result<Vec<(u32, Blk)>, LoadFault>
    requires { count ≤ 8 }
    ensures { Gives (λ devices. devices.items) result (joined [] (disks_at has_flags [] count bytes.now)) }
{
    let mut rest = bytes;
    let mut ids: ArrayVec<u64, 8> = ArrayVec::new();
    let mut devices = Vec::with_capacity(alloc, count as usize)?;
    for _ in 0..count {
        let (part, after) = disk(has_flags, ids.as_slice(), rest)?;
        let device = make_device(alloc, &part)?;
        ids.push(part.id as u64);
        devices.push((part.id, device))?;
        rest = after;
    }
    Ok(devices)
}

/// Memory of `size` bytes from physical address `base` on, of which every byte is 0. Of a memory that there may be the refusal is
/// `OutOfMemory`.
pub fn zeros(alloc: Global, base: u64, size: u64) -> Result<Ram, LoadFault>
    ensures made { IfOk result (λ ram. ram ≡ zeroed base size) }
    ensures memory { IfErr result (λ e. e ≡ fault.OutOfMemory) }
{
    match Ram::new(alloc, base, size) {
        Ok(ram) => Ok(ram),
        Err(_) => Err(LoadFault::OutOfMemory),
    }
}
