//! The fields of an image, read from the front.

ghost use Rattle.std.specs.Prelude.{◌≡◌, ◌+◌, ◌*◌, ◌≤◌, ◌<◌, ◌^◌, Bool, IfOk, length, nat_le};
ghost use Rattle.iom_image.specs.Image.{is_new_id, is_disk_size};
ghost use Rattle.iom_image.specs.Reading.{Begins, Reads, part_at, number_at, head_at, head_of, chunk_at, chunk_of, flags_at, disk_at, disk_of};

use crate::capabilities::version_of;
use crate::fault::LoadFault;
use crate::version::Version;
use crate::window::is_beside;
use iom_bits::{le_u32, le_u64};
use iom_mem::{covers, is_ram};

/// The head of an image: what stands before the chunks.
#[derive(Clone, Copy)]
pub struct Header {
    /// The version, of version 3 and 4 what the machine offers, and of version 4 the window.
    pub version: Version,
    /// The physical address of the first byte of memory: a multiple of 4096.
    pub base: u64,
    /// How many bytes memory has: a multiple of 4096 from 4096 to 2^26, with `base + size` at most 2^56.
    pub size: u64,
    /// How many chunks follow.
    pub chunks: u32,
    /// How many disks follow them: at most 8.
    pub disks: u32,
}

/// A chunk: bytes that stand in memory at the start.
#[derive(Clone, Copy)]
pub struct ChunkPart<'a> {
    /// The physical address of its first byte.
    pub addr: u64,
    /// Its bytes, 1 to 2^32 - 1, all in memory.
    pub bytes: &'a [u8],
}

/// A block device's disk and its first bytes.
#[derive(Clone, Copy)]
pub struct DiskPart<'a> {
    /// The id of its device, below 2^24.
    pub id: u32,
    /// How many sectors of 512 bytes it has: 1 to 65,536.
    pub sectors: u32,
    /// Whether it may only be read.
    pub read_only: bool,
    /// Its first bytes, at most the disk's size. The others are 0.
    pub bytes: &'a [u8],
}

/// The first `len` bytes, and those after them. The refusal is `Truncated`.
#[tactic(auto, unfolding(crate::specs::Reading::part_at))]
pub fn front(len: usize, bytes: &[u8]) -> Result<(&[u8], &[u8]), LoadFault>
    ensures read { Reads (λ x. (x.0.now, x.1.now)) result (part_at len bytes.now) }
    ensures len { IfOk result (λ x. length x.0.now ≡ len) }
{
    if bytes.len() < len {
        return Err(LoadFault::Truncated);
    }
    Ok(bytes.split_at(len))
}

// The number of the first four bytes, the lowest first, and the bytes after them.
#[tactic(auto, unfolding(crate::specs::Reading::number_at), using(crate::proofs::Bytes::four))]
fn u32_of(bytes: &[u8]) -> Result<(u32, &[u8]), LoadFault>
    ensures { Reads (λ x. (x.0, x.1.now)) result (number_at 4 bytes.now) }
{
    let (number, rest) = front(4, bytes)?;
    Ok((le_u32([number[0], number[1], number[2], number[3]]), rest))
}

/// The number of the first eight bytes, the lowest first, and the bytes after them. The refusal is `Truncated`.
#[tactic(auto, unfolding(crate::specs::Reading::number_at), using(crate::proofs::Bytes::eight))]
pub fn u64_of(bytes: &[u8]) -> Result<(u64, &[u8]), LoadFault>
    ensures { Reads (λ x. (x.0, x.1.now)) result (number_at 8 bytes.now) }
{
    let (number, rest) = front(8, bytes)?;
    let number = le_u64([
        number[0], number[1], number[2], number[3], number[4], number[5], number[6], number[7],
    ]);
    Ok((number, rest))
}

// Whether an image may have so many disks.
fn are_few(disks: u32) -> bool
    ensures { result ≡ nat_le disks 8 }
{
    disks <= 8
}

// What stands in the head of an image of this version behind it, and the bytes after the head.
fn numbers_of(version: Version, bytes: &[u8]) -> Result<(Header, &[u8]), LoadFault>
    ensures read { Reads
        (λ x. (record { version = x.0.version; base = x.0.base; size = x.0.size; chunks = x.0.chunks; disks = x.0.disks }, x.1.now))
        result (head_of version bytes.now) }
    ensures end { IfOk result (λ x. x.0.base + x.0.size ≤ 2 ^ 56) }
    ensures few { IfOk result (λ x. x.0.disks ≤ 8) }
{
    let (base, rest) = u64_of(bytes)?;
    let (size, rest) = u64_of(rest)?;
    let (chunks, rest) = u32_of(rest)?;
    let (disks, rest) = u32_of(rest)?;
    let header = Header {
        version,
        base,
        size,
        chunks,
        disks,
    };
    if !is_ram(base, size) {
        return Err(LoadFault::BadRam);
    }
    if !is_beside(header.version.window(), base, size) {
        return Err(LoadFault::BadWindow);
    }
    if !are_few(disks) {
        return Err(LoadFault::BadDevice);
    }
    Ok((header, rest))
}

/// The head of an image, and the bytes after it: 32 bytes, in version 3 40, in version 4 48, or 64 with a window. The refusals are
/// `Truncated`, `BadMagic`, `BadCapabilities`, `BadWindow`, `BadRam` and `BadDevice` for more than 8 disks.
#[tactic(auto, unfolding(crate::specs::Reading::head_at))]
pub fn header_of(bytes: &[u8]) -> Result<(Header, &[u8]), LoadFault>
    ensures read { Reads
        (λ x. (record { version = x.0.version; base = x.0.base; size = x.0.size; chunks = x.0.chunks; disks = x.0.disks }, x.1.now))
        result (head_at bytes.now) }
    ensures end { IfOk result (λ x. x.0.base + x.0.size ≤ 2 ^ 56) }
    ensures few { IfOk result (λ x. x.0.disks ≤ 8) }
{
    match version_of(bytes) {
        Ok((version, rest)) => numbers_of(version, rest),
        Err(fault) => Err(fault),
    }
}

// The address and the length of a chunk, and the bytes after both.
#[tactic(auto, unfolding(crate::specs::Reading::chunk_at))]
fn span<'a>(header: &Header, end: u64, bytes: &'a [u8]) -> Result<((u64, u32), &'a [u8]), LoadFault>
    requires { header.now.base + header.now.size ≤ 2 ^ 56 }
    ensures read { Begins (λ x. chunk_of x.0.0 x.0.1 x.1.now) result
        (chunk_at header.now.base header.now.size end bytes.now) }
    ensures above { IfOk result (λ x. header.now.base ≤ x.0.0) }
    ensures below { IfOk result (λ x. x.0.0 + x.0.1 ≤ header.now.base + header.now.size) }
{
    let (addr, rest) = u64_of(bytes)?;
    if addr < end {
        return Err(LoadFault::BadChunk);
    }
    let (len, rest) = u32_of(rest)?;
    if len == 0 || !covers(header.base, header.base + header.size, addr, len as u64) {
        return Err(LoadFault::BadChunk);
    }
    Ok(((addr, len), rest))
}

/// A chunk of the memory of `header`, and the bytes after it. It isn't below physical address `end`. The refusals are `Truncated` and
/// `BadChunk`.
pub fn chunk<'a>(
    header: &Header,
    end: u64,
    bytes: &'a [u8],
) -> Result<(ChunkPart<'a>, &'a [u8]), LoadFault>
    requires { header.now.base + header.now.size ≤ 2 ^ 56 }
    ensures read { Reads (λ x. (record { addr = x.0.addr; bytes = x.0.bytes.now }, x.1.now)) result
        (chunk_at header.now.base header.now.size end bytes.now) }
    ensures above { IfOk result (λ x. header.now.base ≤ x.0.addr) }
    ensures few { IfOk result (λ x. length x.0.bytes.now < 2 ^ 32) }
    ensures below { IfOk result
        (λ x. x.0.addr + length x.0.bytes.now ≤ header.now.base + header.now.size) }
{
    let ((addr, len), rest) = span(header, end, bytes)?;
    let (bytes, rest) = front(len as usize, rest)?;
    Ok((ChunkPart { addr, bytes }, rest))
}

/// Whether an id is below 2^24 and none of `ids`.
pub fn is_new_id(ids: &[u64], id: u64) -> bool
    ensures { result ≡ is_new_id ids.now id }
{
    id < 1 << 24 && !ids.contains(&id)
}

/// Whether a disk may have this number of sectors: 1 to 65,536.
pub fn is_disk_size(sectors: u64) -> bool
    ensures { result ≡ is_disk_size sectors }
{
    sectors >= 1 && sectors <= 65_536
}

// Whether a disk may only be read: what its flags say, where it has any.
#[tactic(auto, unfolding(crate::specs::Reading::flags_at))]
fn read_only(has_flags: bool, bytes: &[u8]) -> Result<(bool, &[u8]), LoadFault>
    ensures { Reads (λ x. (x.0, x.1.now)) result (flags_at has_flags bytes.now) }
{
    if !has_flags {
        return Ok((false, bytes));
    }
    let (flags, rest) = u32_of(bytes)?;
    if flags > 1 {
        return Err(LoadFault::BadDevice);
    }
    Ok((flags == 1, rest))
}

// The id and the sectors of a disk whose id is not among `ids`, and the bytes after both.
#[tactic(auto, unfolding(crate::specs::Reading::disk_at))]
fn id_and_sectors<'a>(ids: &[u64], bytes: &'a [u8]) -> Result<((u32, u32), &'a [u8]), LoadFault>
    ensures read { (has_flags : Bool) → Begins (λ x. disk_of has_flags x.0.0 x.0.1 x.1.now) result
        (disk_at has_flags ids.now bytes.now) }
    ensures some { IfOk result (λ x. 1 ≤ x.0.1) }
    ensures most { IfOk result (λ x. x.0.1 ≤ 65536) }
{
    let (id, rest) = u32_of(bytes)?;
    if !is_new_id(ids, id as u64) {
        return Err(LoadFault::BadDevice);
    }
    let (sectors, rest) = u32_of(rest)?;
    if !is_disk_size(sectors as u64) {
        return Err(LoadFault::BadDevice);
    }
    Ok(((id, sectors), rest))
}

/// A disk whose id is not among `ids`, with flags or without, and the bytes after it. The refusals are `Truncated` and `BadDevice`.
pub fn disk<'a>(
    has_flags: bool,
    ids: &[u64],
    bytes: &'a [u8],
) -> Result<(DiskPart<'a>, &'a [u8]), LoadFault>
    ensures read { Reads
        (λ x. (record { id = x.0.id; sectors = x.0.sectors; read_only = x.0.read_only; bytes = x.0.bytes.now }, x.1.now)) result
        (disk_at has_flags ids.now bytes.now) }
    ensures room { IfOk result (λ x. length x.0.bytes.now ≤ x.0.sectors * 512) }
    ensures some { IfOk result (λ x. 1 ≤ x.0.sectors) }
    ensures most { IfOk result (λ x. x.0.sectors ≤ 65536) }
{
    let ((id, sectors), rest) = id_and_sectors(ids, bytes)?;
    let (read_only, rest) = read_only(has_flags, rest)?;
    let (len, rest) = u32_of(rest)?;
    if len > sectors * 512 {
        return Err(LoadFault::BadDevice);
    }
    let (bytes, rest) = front(len as usize, rest)?;
    let part = DiskPart {
        id,
        sectors,
        read_only,
        bytes,
    };
    Ok((part, rest))
}
