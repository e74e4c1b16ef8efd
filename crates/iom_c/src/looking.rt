//! What a platform holds, copied out. None of these is a step, and none changes the platform.

ghost use Rattle.std.specs.Prelude.{◌≡◌, length, slice_get, Some};
ghost use Rattle.std.specs.Option.{option_map};
ghost use Rattle.iom_cache.specs.Places.{place_in};
ghost use Rattle.iom_core.specs.State.{disk_of};
ghost use Rattle.iom_mem.specs.Memory.{bytes_at};
ghost use Rattle.iom_regs.specs.Table.{read};
ghost use Rattle.iom_c.specs.Faults.{status_other_memory};
ghost use Rattle.iom_c.specs.Handles.{base_of, board_of, OfOwn, size_in};
ghost use Rattle.iom_c.specs.Looks.{Copied, DiskCopied, ReadTold, SizeTold, context_in, page_in, part_of, place_number};
ghost use Rattle.iom_c.specs.declared.owned.Owned.{Owned};

use crate::handle::Handle;
use crate::held::Held;
use crate::places::{ContextPlace, PagePlace, context_of, page_of};
use iom_cache::{Key, Place};
use iom_ddt::Context;
use iom_nested::Hit;
use std::alloc::Global;

/// The place of memory: its first physical address, and its size in bytes.
#[unsafe(no_mangle)]
pub extern "C" fn rviommu_memory_place(
    alloc: Global,
    handle: &mut Handle,
    base: &mut u64,
    size: &mut u64,
)
    ghost own: { Owned }
    requires open { handle.old.held ≡ Some own }
    ensures base { base.new ≡ base_of own.held }
    ensures size { size.new ≡ size_in own.held }
    ensures same { handle.new.held ≡ Some own }
{
    let owned = handle.take(alloc);
    *base = owned.held.base();
    *size = owned.held.size();
    *handle = Handle::of(owned);
}

// Copies bytes of a platform's own memory; 15 if it has none.
fn copy_memory(held: &Held, addr: u64, bytes: &mut [u8]) -> u32
    ensures { OfOwn held.now (λ platform. Copied (bytes_at platform.machine.memory addr (length bytes.old)) result bytes.old bytes.new)
        ((result ≡ status_other_memory) × (bytes.new ≡ bytes.old)) }
{
    match held {
        Held::Own(platform) if platform.ram.read(addr, bytes) => 0,
        Held::Own(_) => 10,
        Held::Lent(_) => 15,
    }
}

/// Fills `bytes` with bytes of memory, from physical address `addr` on. It answers 0; 10 if one is outside memory; or 15 if the memory
/// isn't the platform's own. Unless it is 0, `bytes` is unchanged.
#[unsafe(no_mangle)]
pub extern "C" fn rviommu_memory(
    alloc: Global,
    handle: &mut Handle,
    addr: u64,
    bytes: &mut [u8],
) -> u32
    ghost own: { Owned }
    requires open { handle.old.held ≡ Some own }
    ensures bytes { OfOwn own.held (λ platform. Copied (bytes_at platform.machine.memory addr (length bytes.old)) result bytes.old bytes.new)
        ((result ≡ status_other_memory) × (bytes.new ≡ bytes.old)) }
    ensures same { handle.new.held ≡ Some own }
{
    let owned = handle.take(alloc);
    let told = copy_memory(&owned.held, addr, bytes);
    *handle = Handle::of(owned);
    told
}

/// The number of the last step: how many steps the handle was given, those of the handle that it was copied from among them. 0 before
/// the first.
#[unsafe(no_mangle)]
pub extern "C" fn rviommu_steps(alloc: Global, handle: &mut Handle) -> u64
    ghost own: { Owned }
    requires open { handle.old.held ≡ Some own }
    ensures steps { result ≡ own.count }
    ensures same { handle.new.held ≡ Some own }
{
    let owned = handle.take(alloc);
    let steps = owned.count;
    *handle = Handle::of(owned);
    steps
}

// Puts a number that there may be; 10 where there is none.
fn put_read(read: Option<u64>, value: &mut u64) -> u32
    ensures { ReadTold read result value.old value.new }
{
    match read {
        Some(read) => {
            *value = read;
            0
        }
        None => 10,
    }
}

/// The value that a read of `size` bytes, 4 or 8, of the IOMMU's registers at offset `off`, in bytes, would be answered
/// ("Memory-mapped register interface"). It answers 0; or 10 if that is no legal access, and `value` is unchanged then.
#[unsafe(no_mangle)]
pub extern "C" fn rviommu_reg_look(
    alloc: Global,
    handle: &mut Handle,
    off: u64,
    size: u64,
    value: &mut u64,
) -> u32
    ghost own: { Owned }
    requires open { handle.old.held ≡ Some own }
    ensures value { ReadTold (read (board_of own.held).iommu.registers off size) result value.old value.new }
    ensures same { handle.new.held ≡ Some own }
{
    let owned = handle.take(alloc);
    let read = owned.held.board().registers().read(off, size);
    *handle = Handle::of(owned);
    put_read(read, value)
}

/// Which interrupts are pending: the value of ipsr, bit 0 that of the command queue, bit 1 that of the fault queue ("Interrupt pending
/// status register (ipsr)"). It is 0 while none is.
#[unsafe(no_mangle)]
pub extern "C" fn rviommu_interrupt(alloc: Global, handle: &mut Handle) -> u64
    ghost own: { Owned }
    requires open { handle.old.held ≡ Some own }
    ensures pending { Some result ≡ read (board_of own.held).iommu.registers 84 4 }
    ensures same { handle.new.held ≡ Some own }
{
    let owned = handle.take(alloc);
    let pending = owned.held.board().registers().read(84, 4);
    *handle = Handle::of(owned);
    pending.unwrap_or(0)
}

// How many bytes a disk has; 12 where there is no such disk.
fn disk_size(disk: Option<&[u8]>, size: &mut u64) -> u32
    ensures { SizeTold (option_map (λ bytes. bytes.now) disk.entry) result size.old size.new }
{
    match disk {
        Some(disk) => {
            *size = disk.len() as u64;
            0
        }
        None => 12,
    }
}

/// How many bytes the disk of block device `n`, counted from 0, has. It answers 0, or 12 if there is no such device; `size` is unchanged
/// then.
#[unsafe(no_mangle)]
pub extern "C" fn rviommu_disk_size(
    alloc: Global,
    handle: &mut Handle,
    n: u64,
    size: &mut u64,
) -> u32
    ghost own: { Owned }
    requires open { handle.old.held ≡ Some own }
    ensures size { SizeTold (option_map disk_of (slice_get (board_of own.held).devices n)) result size.old size.new }
    ensures same { handle.new.held ≡ Some own }
{
    let owned = handle.take(alloc);
    let told = disk_size(owned.held.board().disk(n as usize), size);
    *handle = Handle::of(owned);
    told
}

// Copies a part of a disk; 10 where it ends behind the disk's end.
fn copy_part(disk: &[u8], offset: u64, bytes: &mut [u8]) -> u32
    ensures { Copied (part_of disk.now offset (length bytes.old)) result bytes.old bytes.new }
{
    let first = offset as usize;
    if first > disk.len() || bytes.len() > disk.len() - first {
        return 10;
    }
    bytes.copy_from_slice(&disk[first..first + bytes.len()]);
    0
}

// Puts bytes of a disk that there may be.
fn copy_disk(disk: Option<&[u8]>, offset: u64, bytes: &mut [u8]) -> u32
    ensures { DiskCopied (option_map (λ bytes. bytes.now) disk.entry) offset result bytes.old bytes.new }
{
    match disk {
        Some(disk) => copy_part(disk, offset, bytes),
        None => 12,
    }
}

/// Fills `bytes` with bytes of the disk of block device `n`, counted from 0, from byte `offset` on. Answers 0; 12 if there is no such
/// device, or 10 if the disk ends before; `bytes` is unchanged then.
#[unsafe(no_mangle)]
pub extern "C" fn rviommu_disk(
    alloc: Global,
    handle: &mut Handle,
    n: u64,
    offset: u64,
    bytes: &mut [u8],
) -> u32
    ghost own: { Owned }
    requires open { handle.old.held ≡ Some own }
    ensures bytes { DiskCopied (option_map disk_of (slice_get (board_of own.held).devices n)) offset result bytes.old bytes.new }
    ensures same { handle.new.held ≡ Some own }
{
    let owned = handle.take(alloc);
    let told = copy_disk(owned.held.board().disk(n as usize), offset, bytes);
    *handle = Handle::of(owned);
    told
}

// Puts an entry of the translation cache.
fn put_page(place: Place<Key, Hit>, out: &mut PagePlace) -> u32
    ensures told { result ≡ place_number place }
    ensures page { out.new ≡ page_in place out.old }
{
    match place {
        Place::Live(key, hit) => {
            *out = page_of(key, hit);
            0
        }
        Place::Empty => 1,
        Place::Beyond => 2,
    }
}

/// What stands at place `i`, any number, of the translation cache, in the standard the IOTLB; the oldest is place 0. It answers 0 if an
/// entry stands there, 1 if nothing does and 2 beyond the last place; `page` is unchanged then.
#[unsafe(no_mangle)]
pub extern "C" fn rviommu_page(
    alloc: Global,
    handle: &mut Handle,
    i: u64,
    page: &mut PagePlace,
) -> u32
    ghost own: { Owned }
    requires open { handle.old.held ≡ Some own }
    ensures told { result ≡ place_number (place_in (slice_get (board_of own.held).iommu.pages i)) }
    ensures page { page.new ≡ page_in (place_in (slice_get (board_of own.held).iommu.pages i)) page.old }
    ensures same { handle.new.held ≡ Some own }
{
    let owned = handle.take(alloc);
    let place = owned.held.board().trans().place(i);
    *handle = Handle::of(owned);
    put_page(place, page)
}

// Puts an entry of the context cache.
fn put_context(place: Place<u32, Context>, out: &mut ContextPlace) -> u32
    ensures told { result ≡ place_number place }
    ensures context { out.new ≡ context_in place out.old }
{
    match place {
        Place::Live(did, context) => {
            *out = context_of(did, context);
            0
        }
        Place::Empty => 1,
        Place::Beyond => 2,
    }
}

/// Looks at a place of the context cache, in the standard the DDTC, as `rviommu_page` does at one of the translation cache.
#[unsafe(no_mangle)]
pub extern "C" fn rviommu_context(
    alloc: Global,
    handle: &mut Handle,
    i: u64,
    context: &mut ContextPlace,
) -> u32
    ghost own: { Owned }
    requires open { handle.old.held ≡ Some own }
    ensures told { result ≡ place_number (place_in (slice_get (board_of own.held).iommu.contexts i)) }
    ensures context { context.new ≡ context_in (place_in (slice_get (board_of own.held).iommu.contexts i)) context.old }
    ensures same { handle.new.held ≡ Some own }
{
    let owned = handle.take(alloc);
    let place = owned.held.board().contexts().place(i);
    *handle = Handle::of(owned);
    put_context(place, context)
}
