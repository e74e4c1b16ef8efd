//! What changes a platform and is no step: a reset, and a write into its own memory.

ghost use Rattle.std.specs.Prelude.{◌≡◌, length, IsSomeAnd, Some};
ghost use Rattle.std.specs.Option.{is_some};
ghost use Rattle.iom_mem.specs.Memory.{bytes_at};
ghost use Rattle.iom_c.specs.Changes.{written, WritesIf};
ghost use Rattle.iom_c.specs.Faults.{status_other_memory};
ghost use Rattle.iom_c.specs.Handles.{IsReset, OfOwn};
ghost use Rattle.iom_c.specs.declared.owned.Owned.{Owned};

use crate::handle::Handle;
use crate::held::Held;
use crate::owned::{Owned, reset};
use std::alloc::Global;

/// Resets the IOMMU: its registers are as at reset, and both caches are empty. Memory and block devices stay. It is no step; the account
/// begins anew, and so does what any IOMMU may hold, where that is kept; the number of steps goes on, and the trace and the reasons that
/// are kept stay.
#[unsafe(no_mangle)]
pub extern "C" fn rviommu_reset(alloc: Global, handle: &mut Handle)
    ghost own: { Owned }
    requires open { handle.old.held ≡ Some own }
    ensures { IsSomeAnd handle.new.held (IsReset own) }
{
    let mut owned = handle.take(alloc);
    reset(alloc, &mut owned);
    *handle = Handle::of(owned);
}

// Writes bytes into a platform's own memory; 15 if it has none.
fn write_memory(own: &mut Owned, addr: u64, bytes: &[u8]) -> u32
    ensures { OfOwn own.old.held
        (λ platform. WritesIf (is_some (bytes_at platform.machine.memory addr (length bytes.now))) (written own.old platform addr bytes.now)
        own.old result own.new)
        ((result ≡ status_other_memory) × (own.new ≡ own.old)) }
{
    let Held::Own(platform) = &mut own.held else {
        return 15;
    };
    if platform.ram.write(addr, bytes) {
        0
    } else {
        10
    }
}

/// Writes `bytes`, any number of them, into memory from physical address `addr` on. It is no step. It answers 0; 10 if one of the places
/// is outside memory; or 15 if the memory isn't the platform's own. Unless it is 0, nothing is written.
#[unsafe(no_mangle)]
pub extern "C" fn rviommu_memory_write(
    alloc: Global,
    handle: &mut Handle,
    addr: u64,
    bytes: &[u8],
) -> u32
    ghost own: { Owned }
    requires open { handle.old.held ≡ Some own }
    ensures { OfOwn own.held
        (λ platform. IsSomeAnd handle.new.held (WritesIf (is_some (bytes_at platform.machine.memory addr (length bytes.now)))
        (written own platform addr bytes.now) own result))
        ((result ≡ status_other_memory) × (handle.new.held ≡ Some own)) }
{
    let mut owned = handle.take(alloc);
    let told = write_memory(&mut owned, addr, bytes);
    *handle = Handle::of(owned);
    told
}
