//! Listings of memory.

ghost use Rattle.std.specs.Prelude.{◌≡◌, ◌++◌, ◌∷◌, ◌+◌, ◌^◌, ◌≤◌, [], OnOk, IfSome, IfNone, Err};
ghost use Rattle.std.specs.Option.{is_some};
ghost use Rattle.std.specs.String.{string_bytes};
ghost use Rattle.std.specs.Str.{IsAscii};
ghost use Rattle.iom_mem.specs.Memory.{size_of};
ghost use Rattle.iom_asm.specs.declared.list_fault.ListFault.TheVariants as listing;
ghost use Rattle.iom_asm.specs.Listing.{listed, Lists};

use crate::list_fault::ListFault;
use iom_bits::Features;
use iom_ddt::ContextFormat;
use iom_items::{Item, item_line_on};
use iom_mem::{Ram, covers};
use std::alloc::{AllocError, Global};

// Whether all bytes of so many items are memory; of none they are at every address.
fn are_inside(ram: &Ram, features: Features, item: Item, addr: u64, count: u64) -> bool
    ensures value { result ≡ is_some (listed ram.now features item addr count) }
    ensures legal { ram.now.base + size_of ram.now ≤ 2 ^ 56 }
{
    let end = ram.base() + ram.size();
    if count == 0 {
        return true;
    }
    match count.checked_mul(item.size(ContextFormat::of(features))) {
        Some(len) => covers(ram.base(), end, addr, len),
        None => false,
    }
}

// Appends a line of ASCII and its line end.
fn push_line(out: &mut String, line: &[u8]) -> Result<(), AllocError>
    requires { IsAscii line.now }
    ensures { OnOk result (string_bytes out.new ≡ string_bytes out.old ++ (line.now ++ 10 ∷ [])) }
{
    match str::from_utf8(line) {
        Ok(text) => out.push_str(text)?,
        Err(_) => unreachable!(),
    }
    out.push('\n')
}

/// The lines of `count` items one after the other on a machine with these features, the first at physical address `addr`, of any
/// alignment, each with its line end. Words that the machine takes for no such item are shown as words.
/// Of no items the text is empty at every address. The faults are `Outside`, which is tested first, and `OutOfMemory`.
pub fn list(
    alloc: Global,
    ram: &Ram,
    features: Features,
    item: Item,
    addr: u64,
    count: u64,
) -> Result<String, ListFault>
    ensures outside { IfNone (listed ram.now features item addr count) (result ≡ Err listing.Outside) }
    ensures text { IfSome (listed ram.now features item addr count) (Lists result) }
{
    if !are_inside(ram, features, item, addr, count) {
        return Err(ListFault::Outside);
    }
    let mut text = String::new(alloc);
    let mut at = addr;
    for _ in 0..count {
        let Some(line) = item_line_on(ram, features, item, at) else {
            return Err(ListFault::Outside);
        };
        push_line(&mut text, line.as_slice())?;
        at += item.size(ContextFormat::of(features));
    }
    Ok(text)
}
