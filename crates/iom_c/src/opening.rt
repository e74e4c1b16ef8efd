//! A handle's start and its end.

ghost use Rattle.std.specs.Prelude.{◌≡◌, [], None, Some, IfOk, MatchResult};
ghost use Rattle.iom_bits.specs.Features.{no_features};
ghost use Rattle.iom_mem.specs.Lent.{is_lendable};
ghost use Rattle.iom_core.specs.State.{board_with};
ghost use Rattle.iom_image.specs.Image.{image_bytes};
ghost use Rattle.iom_image.specs.Loading.{built_in, state_from};
ghost use Rattle.iom_image.specs.Reading.{Gives, image_of, mapped};
ghost use Rattle.iom_image.specs.declared.fault.LoadFault.TheVariants as fault;
ghost use Rattle.iom_c.specs.Faults.{KeepsReasons, load_number, ok, out_of_memory, Opens, OpensIf, Starts};
ghost use Rattle.iom_c.specs.Handles.{Begins, board_of, copied, lending};
ghost use Rattle.iom_c.specs.declared.held.Held.TheVariants as held;
ghost use Rattle.iom_c.specs.declared.owned.Owned.{Owned};

use crate::handle::Handle;
use crate::held::Held;
use crate::kept::Kept;
use crate::owned::{Owned, begun, copied};
use iom_bits::Features;
use iom_core::{Board, Platform};
use iom_image::{LoadFault, built_in, load};
use iom_mem::is_lendable;
use std::alloc::{AllocError, Global};

// The number of a refusal: 1 to 7, 14 or 25.
fn load_number(fault: LoadFault) -> u32
    ensures { result ≡ load_number fault }
{
    match fault {
        LoadFault::BadMagic => 1,
        LoadFault::Truncated => 2,
        LoadFault::Trailing => 3,
        LoadFault::BadRam => 4,
        LoadFault::BadChunk => 5,
        LoadFault::BadDevice => 6,
        LoadFault::BadCapabilities => 14,
        LoadFault::BadWindow => 25,
        LoadFault::OutOfMemory => 7,
    }
}

// Puts behind a closed handle what was made for it; 7 where there was no memory for that.
fn put(alloc: Global, made: Result<Box<Owned>, AllocError>, handle: &mut Handle) -> u32
    ensures { MatchResult made (λ own. (result ≡ ok) × (handle.new.held ≡ Some own.value))
        (λ _. (result ≡ out_of_memory) × (handle.new.held ≡ None)) }
{
    match made {
        Ok(own) => {
            *handle = Handle::of(own);
            0
        }
        Err(_) => {
            *handle = Handle::closed(alloc);
            7
        }
    }
}

// The IOMMU and the block devices of a platform, without its memory.
fn board(platform: Platform) -> Board
    ensures { result ≡ board_of (held.Own platform) }
{
    let Platform { ram: _ram, board } = platform;
    board
}

// Puts a platform behind a closed handle.
fn start(alloc: Global, held: Held, handle: &mut Handle) -> u32
    ensures { Starts (Begins held) result handle.new.held }
{
    put(alloc, begun(alloc, held), handle)
}

// An IOMMU that offers none of the features, and no block device.
fn plain_board(alloc: Global) -> Result<Board, AllocError>
    ensures { IfOk result (λ board. board ≡ board_with no_features None []) }
{
    Board::new(alloc, Vec::new(alloc), Features::none(), None)
}

/// Opens the platform that an image starts: its memory and its block devices, the registers at reset, nothing cached. It answers
/// 0, or the number of the refusal; the handle is closed then.
#[unsafe(no_mangle)]
pub extern "C" fn rviommu_open(alloc: Global, image: &[u8], handle: &mut Handle) -> u32
    requires closed { handle.old.held ≡ None }
    ensures { Opens (λ found. Begins (held.Own (state_from found))) (image_of image.now) result handle.new.held }
{
    match load(alloc, image) {
        Ok(platform) => start(alloc, Held::Own(platform), handle),
        Err(fault) => {
            *handle = Handle::closed(alloc);
            load_number(fault)
        }
    }
}

/// Opens 1 MiB of memory at physical address 0x80000000, all 0, with no block device. It answers 0, or 7 if there is no memory for it; the
/// handle is closed then.
#[unsafe(no_mangle)]
pub extern "C" fn rviommu_open_built_in(alloc: Global, handle: &mut Handle) -> u32
    requires closed { handle.old.held ≡ None }
    ensures { Opens (λ found. Begins (held.Own (state_from found))) (image_of (image_bytes built_in)) result handle.new.held }
{
    rviommu_open(alloc, &built_in(), handle)
}

/// Opens an IOMMU that offers none of the features, with no block device, its registers at reset and nothing cached, in front of memory
/// that is lent for each call: `size` bytes from physical address `base` on. It answers 0; 4 if `is_lendable` says that there may be no
/// such memory; or 7 if there is no memory for the caches. The handle is closed then.
#[unsafe(no_mangle)]
pub extern "C" fn rviommu_open_lent(alloc: Global, base: u64, size: u64, handle: &mut Handle) -> u32
    requires closed { handle.old.held ≡ None }
    ensures { OpensIf (is_lendable base size) (Starts (Begins (lending (board_with no_features None []) base size))) result handle.new.held }
{
    if !is_lendable(base, size) {
        *handle = Handle::closed(alloc);
        return 4;
    }
    match plain_board(alloc) {
        Ok(board) => start(alloc, Held::lent(board, base, size), handle),
        Err(_) => {
            *handle = Handle::closed(alloc);
            7
        }
    }
}

/// Opens a handle in front of lent memory with the IOMMU and the block devices of the platform that an image starts, whose memory
/// doesn't count. It answers 4 as `rviommu_open_lent` does, or else the number of the image's refusal.
#[unsafe(no_mangle)]
pub extern "C" fn rviommu_open_lent_image(
    alloc: Global,
    image: &[u8],
    base: u64,
    size: u64,
    handle: &mut Handle,
) -> u32
    requires closed { handle.old.held ≡ None }
    ensures { OpensIf (is_lendable base size)
        (Opens (λ found. Begins (lending (board_of (held.Own (state_from found))) base size)) (image_of image.now)) result handle.new.held }
{
    if !is_lendable(base, size) {
        *handle = Handle::closed(alloc);
        return 4;
    }
    match load(alloc, image) {
        Ok(platform) => start(alloc, Held::lent(board(platform), base, size), handle),
        Err(fault) => {
            *handle = Handle::closed(alloc);
            load_number(fault)
        }
    }
}

/// Keeps from now on why the last `most` steps went as they did, or, if `accesses_only` is true, the last `most` that make an access of a
/// device; those kept so far are forgotten. It answers 0; or 7 if there is no memory for it, and nothing changes then.
#[unsafe(no_mangle)]
pub extern "C" fn rviommu_keep_reasons(
    alloc: Global,
    handle: &mut Handle,
    most: usize,
    accesses_only: bool,
) -> u32
    ghost own: { Owned }
    requires open { handle.old.held ≡ Some own }
    ensures { KeepsReasons own most accesses_only result handle.new.held }
{
    let made = Kept::new(alloc, most, accesses_only);
    let Ok(kept) = made else {
        return 7;
    };
    let mut owned = handle.take(alloc);
    owned.told.kept = kept;
    *handle = Handle::of(owned);
    0
}

/// Opens an equal platform with an equal account of its steps, which goes its own way from here, with a trace that has no step and no
/// reason kept. It answers 0, or 7 if there is no memory for it; the handle `copy` is closed then.
#[unsafe(no_mangle)]
pub extern "C" fn rviommu_copy(alloc: Global, handle: &mut Handle, copy: &mut Handle) -> u32
    ghost own: { Owned }
    requires open { handle.old.held ≡ Some own }
    requires closed { copy.old.held ≡ None }
    ensures copy { Starts (λ other. other ≡ copied own) result copy.new.held }
    ensures same { handle.new.held ≡ Some own }
{
    let owned = handle.take(alloc);
    let made = copied(alloc, &owned);
    *handle = Handle::of(owned);
    put(alloc, made, copy)
}

/// Closes an open handle, and gives its memory back.
#[unsafe(no_mangle)]
pub extern "C" fn rviommu_close(alloc: Global, handle: &mut Handle)
    ghost own: { Owned }
    requires open { handle.old.held ≡ Some own }
    ensures { handle.new.held ≡ None }
{
    drop(handle.take(alloc));
}
