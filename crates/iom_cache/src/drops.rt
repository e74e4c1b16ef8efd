ghost use Rattle.std.specs.Prelude.{◌≡◌, ◌+◌, ◌/◌, ◌^◌, ◌*◌, ◌≤◌};
ghost use Rattle.iom_cache.specs.Spared.{DropsItsOwn};
ghost use Rattle.iom_cache.specs.Drops.{vma_guest, vma_process, vma_page, leaf_width, meets, range_width, gvma_guest, drops_page, drops_device};

use crate::Key;
use iom_nested::Hit;
use iom_queue::Command;

/// Whether a command drops a translation: IOTINVAL.VMA by its guest, process and page, IOTINVAL.GVMA only by its guest, and no other
/// ("IOTINVAL").
#[tactic(auto, unfolding(crate::specs::Drops::drops_page))]
pub fn drops_page(command: &Command, key: &Key, hit: &Hit) -> bool
    ensures { result ≡ drops_page command.now key.now hit.now }
{
    match *command {
        Command::Vma {
            av,
            page,
            pscv,
            pscid,
            gv,
            gscid,
            s,
            ..
        } => {
            vma_guest(gv, gscid, key.gscid)
                && vma_process(pscv, pscid, key.pscid, hit.global)
                && vma_page(av, s, page, key.page, leaf_width(hit))
        }
        Command::Gvma { gv, gscid, .. } => gvma_guest(gv, gscid, key.gscid),
        Command::Fence { .. } | Command::Iodir { .. } => false,
    }
}

/// A law of `drops_page`, which cites the same definition: IOTINVAL.VMA with GV 0 drops no translation that has a second stage, and any other
/// command none that has no second stage ("IOTINVAL").
pub fn guests_and_host_are_apart()
    ensures { DropsItsOwn }
{}

/// Whether a command drops the context of a device id, 24 bits: IODIR.INVAL_DDT that of each device, or with DV that of its own,
/// and no other ("IODIR").
#[tactic(auto, unfolding(crate::specs::Drops::drops_device))]
pub fn drops_device(command: &Command, own: u32) -> bool
    ensures { result ≡ drops_device command.now own }
{
    match *command {
        Command::Iodir { dv, did } => !dv || own == did,
        Command::Vma { .. } | Command::Gvma { .. } | Command::Fence { .. } => false,
    }
}

/// Whether IOTINVAL.VMA with GV `gv` drops entries that are tagged by this guest, 16 bits, or by none: with GV those of guest `gscid`, else
/// those that have no second stage.
pub fn vma_guest(gv: bool, gscid: u16, own: Option<u16>) -> bool
    ensures { result ≡ vma_guest gv gscid own }
{
    if gv {
        own == Some(gscid)
    } else {
        own.is_none()
    }
}

/// Whether IOTINVAL.VMA with PSCV `pscv` drops an entry that is tagged by this process, 20 bits, or by none. A global entry serves every
/// process, so one process's invalidation leaves it.
pub fn vma_process(pscv: bool, pscid: u32, own: Option<u32>, global: bool) -> bool
    ensures { result ≡ vma_process pscv pscid own global }
{
    !pscv || own == Some(pscid) && !global
}

// With AV the entries whose leaf maps a page of the command's range, else all.
fn vma_page(av: bool, s: bool, page: u64, own: u64, width: u32) -> bool
    ensures { result ≡ vma_page av s page own width }
{
    !av || meets(page, range_width(s, page), own, width)
}

/// How many of the lowest bits of a page's number, 52 bits, the range of a command leaves out: with S all up to its lowest 0.
pub fn range_width(s: bool, page: u64) -> u32
    ensures { result ≡ range_width s page }
{
    if s { page.trailing_ones() + 1 } else { 0 }
}

// How many of the lowest bits of a page's number the leaf of an entry's first stage leaves out.
fn leaf_width(hit: &Hit) -> u32
    ensures { result ≡ leaf_width hit.now }
{
    if hit.napot { 4 } else { 9 * hit.level as u32 }
}

// Whether two aligned ranges have a page in common: their pages' numbers are equal above the wider one.
fn meets(page: u64, width: u32, own: u64, own_width: u32) -> bool
    ensures { result ≡ meets page width own own_width }
{
    let wider = if width <= own_width { own_width } else { width };
    above(own, wider) == above(page, wider)
}

/// Whether two aligned ranges have a page in common, if the second is given by its part: the number of each of its pages, divided by
/// 2^`own_width`.
#[tactic(auto, using(crate::proofs::Raised::raised_part))]
pub fn meets_part(page: u64, width: u32, part: u64, own_width: u32) -> bool
    ensures { result ≡ meets page width (part * 2 ^ own_width) own_width }
{
    let wider = if own_width >= width { own_width } else { width };
    above(part, wider - own_width) == above(page, wider)
}

/// A page's number, or any of 64 bits, above its lowest `width` bits. Above 63 none is left.
#[tactic(auto, using(crate::proofs::Shifts::shifted_out))]
pub fn above(page: u64, width: u32) -> u64
    ensures { result ≡ page / 2 ^ width }
{
    page.checked_shr(width).unwrap_or(0)
}

// By the guest alone: an entry doesn't keep the guest-physical address of its page, so AV can't be asked.
fn gvma_guest(gv: bool, gscid: u16, own: Option<u16>) -> bool
    ensures { result ≡ gvma_guest gv gscid own }
{
    if gv {
        own == Some(gscid)
    } else {
        own.is_some()
    }
}
