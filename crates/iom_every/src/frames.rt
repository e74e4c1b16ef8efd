//! The physical memory that an entry names.

ghost use Rattle.std.specs.Prelude.{◌≡◌, ◌+◌, ◌-◌, ◌/◌, ◌^◌, ◌<◌, ◌≤◌, ◌==◌, ◌&&◌, ℕ, nat_le};
ghost use Rattle.iom_every.specs.Entries.{OfDevice, OfFirst};
ghost use Rattle.std.specs.List.{list_any, range_with_len};
ghost use Rattle.iom_every.specs.Frames.{is_frame, is_of_table, is_reached, is_root, names_memory, ones};

use crate::dropping::is_leaf;
use crate::entry::{Entry, Held};
use iom_bits::{Cause, field, has_bit};
use iom_cache::above;
use iom_ddt::Context;

/// Whether an entry names a byte of the `len` ones from physical address `addr` on, so that an IOMMU which holds it may read or write there: a
/// frame of a leaf or of a whole translation, the table that a pointer or an entry of the directory points to, or a root table or the MSI page table of a context.
/// An entry of a first stage under a second one names none: its addresses are the guest's. The range may end above 2^64; with `len` 0 it has no
/// byte.
#[tactic(auto, unfolding(crate::specs::Frames::names_memory))]
pub fn names_memory(entry: &Entry, addr: u64, len: u64) -> bool
    ensures { result ≡ names_memory addr len entry.now }
{
    match entry {
        Entry::Directory { word, .. } => meets_page(addr, len, field(*word, 10, 44)),
        Entry::Device { said, .. } => meets_said(addr, len, said),
        Entry::First { gscid, held, .. } => meets_first(addr, len, *gscid, held),
        Entry::Second { held, .. } => meets_reached(addr, len, held),
        Entry::File { word, .. } => meets_page(addr, len, field(*word, 10, 44)),
        Entry::Page { hit, .. } => meets_page(addr, len, hit.frame),
    }
}

// Whether a leaf entry of the directory names a byte of a range.
#[tactic(auto, unfolding(crate::specs::Frames::names_memory), using(crate::proofs::Named::said_names))]
fn meets_said(addr: u64, len: u64, said: &Result<Context, Cause>) -> bool
    ensures { (did : ℕ) → result ≡ names_memory addr len (OfDevice did said.now) }
{
    match said {
        Ok(context) => meets_root(addr, len, context) || meets_table(addr, len, context),
        Err(_) => false,
    }
}

// Whether an entry of a first stage, tagged by a guest or none, names a byte of a range.
#[tactic(auto, unfolding(crate::specs::Frames::names_memory))]
fn meets_first(addr: u64, len: u64, guest: Option<u16>, held: &Held) -> bool
    ensures { (process : ℕ) → result ≡ names_memory addr len (OfFirst guest process held.now) }
{
    match guest {
        None => meets_reached(addr, len, held),
        Some(_) => false,
    }
}

// Whether some byte of a range is in the page of this number.
#[tactic(auto, using(crate::proofs::Named::met_page))]
fn meets_page(addr: u64, len: u64, page: u64) -> bool
    ensures { result ≡ list_any (λ byte. byte / 4096 == page) (range_with_len addr len) }
{
    meets(addr, len, page, 0)
}

// Whether some byte of a range is in one of the 2^`width` pages whose numbers, divided by that, are `number`.
fn meets(addr: u64, len: u64, number: u64, width: u32) -> bool
    ensures { result ≡ list_any (λ byte. byte / 4096 / 2 ^ width == number) (range_with_len addr len) }
{
    if len == 0 {
        return false;
    }
    is_between(
        above(addr / 4096, width),
        number,
        above(last_page(addr, len), width),
    )
}

fn is_between(low: u64, number: u64, high: u64) -> bool
    ensures { result ≡ (nat_le low number && nat_le number high) }
{
    low <= number && number <= high
}

// The page of the last byte of a range.
fn last_page(addr: u64, len: u64) -> u64
    requires { 0 < len }
    ensures { result ≡ (addr + (len - 1)) / 4096 }
{
    ((u128::from(addr) + u128::from(len - 1)) / 4096) as u64
}

// Whether some byte of a range is in a frame of a leaf.
fn meets_frame(addr: u64, len: u64, held: &Held) -> bool
    ensures { result ≡ list_any (λ byte. is_frame held.now (byte / 4096)) (range_with_len addr len) }
{
    let ppn = field(held.word, 10, 44);
    if has_bit(held.word, 63) {
        return meets_page(addr, len, ppn - ppn % 16 + held.part % 16);
    }
    let width = 9 * held.level as u32;
    meets(addr, len, above(ppn, width), width)
}

// Whether some byte of a range is in a frame of a leaf, or in the table that a pointer points to.
fn meets_reached(addr: u64, len: u64, held: &Held) -> bool
    ensures { result ≡ list_any (λ byte. is_reached held.now (byte / 4096)) (range_with_len addr len) }
{
    if is_leaf(held) {
        meets_frame(addr, len, held)
    } else {
        meets_page(addr, len, field(held.word, 10, 44))
    }
}

// Whether some byte of a range is in a root table of a context.
fn meets_root(addr: u64, len: u64, context: &Context) -> bool
    ensures { result ≡ list_any (λ byte. is_root context.now (byte / 4096)) (range_with_len addr len) }
{
    let fields = &context.fields;
    if fields.gmode != 0 {
        meets(addr, len, fields.gppn / 4, 2)
    } else if fields.mode != 0 {
        meets_page(addr, len, fields.ppn)
    } else {
        false
    }
}

// Whether some byte of a range is in the MSI page table of a context.
#[tactic(auto, using(crate::proofs::Named::of_table, crate::proofs::Named::no_table))]
fn meets_table(addr: u64, len: u64, context: &Context) -> bool
    ensures { result ≡ list_any (λ byte. is_of_table context.now.msi (byte / 4096)) (range_with_len addr len) }
{
    let msi = context.fields.msi;
    let width = ones(52, msi.mask).saturating_sub(8);
    msi.flat && meets(addr, len, above(msi.ppn, width), width)
}

// The number of ones in a mask of `count` bits.
#[tactic(auto, using(crate::proofs::Ones::none, crate::proofs::Ones::step))]
fn ones(count: u32, mask: u64) -> u32
    ensures ones { result ≡ ones count mask }
    ensures few { result ≤ count }
{
    if count == 0 {
        return 0;
    }
    (mask % 2) as u32 + ones(count - 1, mask / 2)
}
