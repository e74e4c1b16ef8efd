//! What the line `free` is answered.

ghost use Rattle.iom_tool.specs.Room.{answer_room};
ghost use Rattle.std.specs.Prelude.{◌≡◌, ◌++◌, ◌≤◌, codes, length, take};
ghost use Rattle.std.specs.Option.{option_map};
ghost use Rattle.iom_text.specs.Texts.{numeral};
ghost use Rattle.iom_core.specs.State.{State};
ghost use Rattle.iom_debug.specs.Marks.{named_at};
ghost use Rattle.iom_debug.specs.Invalidations.{fence_text};
ghost use Rattle.iom_debug.specs.Entries.{entry_text};
ghost use Rattle.iom_debug.specs.Freeing.{IsFreeAnswer, free_text};

use crate::entries::entry_line;
use crate::invalidations::put_fence;
use crate::marks::{Marks, put_name};
use crate::owing::unknown_text;
use crate::page::{OutputPage, put, put_number};
use crate::reasons::LineAccount;
use crate::text::{cut_to_room, reply_of};
use iom_owed::Naming;
use iom_tool::Reply;

// Puts how many entries name a byte, and the line that read the first of them.
fn put_head(out: &mut OutputPage, marks: &Marks, found: &Naming)
    requires { length out.old.items ≡ 0 }
    ensures text { out.new.items ≡ out.old.items ++ (numeral 10 found.now.count ++ codes ", the first read in " ++ named_at marks.now found.now.first.number) }
    ensures room { length out.new.items ≤ 2200 }
{
    put_number(out, found.count);
    put(out, b", the first read in ");
    put_name(out, marks, found.first.number);
}

// How many entries name a byte, and the first of them.
fn first_text(marks: &Marks, found: &Naming) -> Reply
    ensures { result.items ≡ take answer_room (numeral 10 found.now.count ++ codes ", the first read in " ++ named_at marks.now found.now.first.number
        ++ codes ": " ++ entry_text found.now.first.entry ++ fence_text (option_map (named_at marks.now) found.now.first.unfenced)) }
{
    let mut page = OutputPage::new();
    put_head(&mut page, marks, found);
    put(&mut page, b": ");
    put(&mut page, entry_line(&found.first.entry).as_slice());
    put_fence(&mut page, marks, found.first.unfenced);
    cut_to_room(page.as_slice())
}

// The same, if one does.
#[tactic(auto, unfolding(crate::specs::Freeing::free_text))]
fn free_text(marks: &Marks, found: &Option<Naming>) -> Reply
    ensures { result.items ≡ free_text marks.now found.now }
{
    match found {
        Some(found) => first_text(marks, found),
        None => reply_of(b"none"),
    }
}

/// How many entries that an IOMMU may hold now name a byte of the `len` ones from physical address `addr` on, and the first, at most `ANSWER_ROOM` bytes: `none`,
/// or as `3, the first read in line 8: a leaf of the first stage, level=0 page=0x40201 pscid=0x3 global=0x0`. Where what any IOMMU may hold
/// isn't kept, it is `unknown, it needs --settled`; where memory was refused, `unknown, memory was refused`.
#[tactic(auto, using(crate::proofs::Freed::free_told, crate::proofs::Freed::unknown_told))]
pub fn free_line(reasons: &LineAccount, marks: &Marks, addr: u64, len: u64) -> Reply
    ensures { (state : State) → IsFreeAnswer marks.now reasons.now.settling state addr len result.items }
{
    match reasons.holdings() {
        Some(held) => free_text(marks, &held.naming(addr, len)),
        None => unknown_text(reasons),
    }
}
