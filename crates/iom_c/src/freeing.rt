//! Whether memory may be freed. That is no step, and doesn't change the platform.

ghost use Rattle.std.specs.Prelude.{◌≡◌, Some};
ghost use Rattle.iom_c.specs.Freeing.{FreeTold, NamingTold};
ghost use Rattle.iom_c.specs.declared.owned.Owned.{Owned};

use crate::handle::Handle;
use crate::naming::{MemoryNaming, naming_of};
use crate::settling::Settling;
use iom_owed::Naming;
use std::alloc::Global;

// Puts what names memory; 0 if nothing does.
fn put_naming(found: Option<Naming>, out: &mut MemoryNaming) -> u32
    ensures { NamingTold found result out.old out.new }
{
    let Some(naming) = found else {
        return 0;
    };
    *out = naming_of(&naming);
    21
}

// Puts what names a byte of a range, where what any IOMMU may hold is kept and known.
fn put_free(settling: &Settling, addr: u64, len: u64, out: &mut MemoryNaming) -> u32
    ensures { FreeTold settling.now addr len result out.old out.new }
{
    match settling {
        Settling::NotKept => 18,
        Settling::Kept(holdings) => put_naming(holdings.naming(addr, len), out),
        Settling::Lost => 7,
    }
}

/// Whether no IOMMU may hold an entry now that names a byte of the `len` ones from physical address `addr` on, whatever it keeps and forgets
/// ("Caching in-memory data structures"): as one of the frames of a leaf or of a whole translation, or of the table that a pointer, an entry of
/// the directory or a context leads to. It answers 0 if none may, and 21 if one may; `naming` then gets how many, and the oldest. Else it answers
/// 18 if what any IOMMU may hold isn't kept; or 7 if memory was refused for that at a step. `naming` is unchanged unless it answers 21. The range
/// may end above 2^64; with `len` 0 it has no byte. What tables and registers name isn't asked.
#[unsafe(no_mangle)]
pub extern "C" fn rviommu_may_free(
    alloc: Global,
    handle: &mut Handle,
    addr: u64,
    len: u64,
    naming: &mut MemoryNaming,
) -> u32
    ghost own: { Owned }
    requires open { handle.old.held ≡ Some own }
    ensures told { FreeTold own.told.settling addr len result naming.old naming.new }
    ensures same { handle.new.held ≡ Some own }
{
    let owned = handle.take(alloc);
    let told = put_free(&owned.told.settling, addr, len, naming);
    *handle = Handle::of(owned);
    told
}
