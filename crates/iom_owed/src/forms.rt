//! What a walk reads, in each form in which it may be kept (RISC-V Privileged Architecture 1.12, "Svnapot").

ghost use Rattle.std.specs.Prelude.{◌≡◌, ◌++◌, flat_map, map, OnOk};
ghost use Rattle.std.specs.List.{range_with_len};
ghost use Rattle.iom_every.specs.Entries.{kept_as, page_of};

use iom_bits::{Cause, Features};
use iom_ddt::Context;
use iom_every::{Entry, is_of_sixteen, page_of};
use std::alloc::AllocError;

/// Puts each form of these entries at the end. The fault is a refused allocation.
pub fn put_forms(out: &mut Vec<Entry>, features: Features, read: &[Entry]) -> Result<(), AllocError>
    ensures { OnOk result (out.new.items ≡ out.old.items ++ flat_map (kept_as features) read.now) }
{
    let _: Option<Result<Context, Cause>> = None;
    for entry in read {
        put_form(out, features, entry)?;
    }
    Ok(())
}

// Puts each form of an entry at the end.
fn put_form(out: &mut Vec<Entry>, features: Features, entry: &Entry) -> Result<(), AllocError>
    ensures { OnOk result (out.new.items ≡ out.old.items ++ kept_as features entry.now) }
{
    let _: Option<Result<Context, Cause>> = None;
    match entry {
        Entry::First { held, .. } if is_of_sixteen(features, held) => put_pages(out, entry),
        Entry::Second { held, .. } if is_of_sixteen(features, held) => put_pages(out, entry),
        _ => {
            out.push(*entry)?;
            Ok(())
        }
    }
}

// Puts the entries of sixteen pages at the end.
fn put_pages(out: &mut Vec<Entry>, entry: &Entry) -> Result<(), AllocError>
    ensures { OnOk result (out.new.items ≡ out.old.items ++ map (page_of entry.now) (range_with_len 0 16)) }
{
    let _: Option<Result<Context, Cause>> = None;
    for i in 0..16 {
        out.push(page_of(entry, i))?;
    }
    Ok(())
}
