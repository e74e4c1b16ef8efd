//! What an entry is that an IOMMU may hold.

ghost use Rattle.std.specs.Prelude.{◌≡◌, ◌+◌, ◌++◌, ◌≤◌, codes, length};
ghost use Rattle.iom_debug.specs.Entries.{directory_text, entry_text, file_text, held_text, id_text, key_text, kind_text};

use crate::text::{push_number, push_operand, push_text};
use iom_bits::flag;
use iom_cache::Key;
use iom_every::{Entry, Held, first_page, is_leaf};
use iom_tool::Reply;

// Appends a process's id, if there is one.
fn push_process(out: &mut Reply, id: Option<u32>)
    requires { length out.old.items ≤ 200 }
    ensures text { out.new.items ≡ out.old.items ++ id_text (codes "pscid") id }
    ensures room { length out.new.items ≤ length out.old.items + 25 }
{
    if let Some(id) = id {
        push_operand(out, b"pscid", u64::from(id));
    }
}

// Appends a guest's id, if there is one.
fn push_guest(out: &mut Reply, id: Option<u16>)
    requires { length out.old.items ≤ 200 }
    ensures text { out.new.items ≡ out.old.items ++ id_text (codes "gscid") id }
    ensures room { length out.new.items ≤ length out.old.items + 25 }
{
    if let Some(id) = id {
        push_operand(out, b"gscid", u64::from(id));
    }
}

// Appends a non-leaf entry of the directory.
#[tactic(auto, unfolding(crate::specs::Entries::directory_text))]
fn push_directory(out: &mut Reply, level: u8, part: u32)
    requires { length out.old.items ≤ 100 }
    ensures text { out.new.items ≡ out.old.items ++ directory_text level part }
    ensures room { length out.new.items ≤ length out.old.items + 150 }
{
    push_number(out, b"an entry of the directory, level=", u64::from(level));
    push_operand(out, b"did", u64::from(part));
}

// Whether an entry of a stage is a leaf or a pointer.
#[tactic(auto, unfolding(crate::specs::Entries::kind_text))]
fn kind_text(held: &Held) -> &'static [u8]
    ensures text { result.now ≡ kind_text held.now }
    ensures short { length result.now ≤ 9 }
{
    if is_leaf(held) {
        b"a leaf"
    } else {
        b"a pointer"
    }
}

// Appends an entry of this stage.
#[tactic(auto, unfolding(crate::specs::Entries::held_text))]
fn push_held(out: &mut Reply, stage: &[u8], held: &Held)
    requires room { length out.old.items ≤ 100 }
    requires short { length stage.now ≤ 6 }
    ensures text { out.new.items ≡ out.old.items ++ held_text stage.now held.now }
    ensures room { length out.new.items ≤ length out.old.items + 90 }
{
    push_text(out, kind_text(held));
    push_text(out, b" of the ");
    push_text(out, stage);
    push_number(out, b" stage, level=", u64::from(held.level));
    push_operand(out, b"page", first_page(held));
}

// Appends a whole translation, by its key.
#[tactic(auto, unfolding(crate::specs::Entries::key_text))]
fn push_key(out: &mut Reply, key: &Key)
    requires { length out.old.items ≤ 100 }
    ensures text { out.new.items ≡ out.old.items ++ key_text key.now }
    ensures room { length out.new.items ≤ length out.old.items + 140 }
{
    push_text(out, b"a whole translation,");
    push_operand(out, b"page", key.page);
    push_operand(out, b"did", u64::from(key.did));
    push_process(out, key.pscid);
    push_guest(out, key.gscid);
}

// Appends an entry of an MSI page table, for this page of a guest.
#[tactic(auto, unfolding(crate::specs::Entries::file_text))]
fn push_file(out: &mut Reply, gscid: u16, page: u64)
    requires { length out.old.items ≤ 100 }
    ensures text { out.new.items ≡ out.old.items ++ file_text gscid page }
    ensures room { length out.new.items ≤ length out.old.items + 90 }
{
    push_text(out, b"an entry of an MSI page table,");
    push_operand(out, b"page", page);
    push_operand(out, b"gscid", u64::from(gscid));
}

// Appends what an entry is.
#[tactic(auto, unfolding(crate::specs::Entries::entry_text))]
fn push_entry(out: &mut Reply, entry: &Entry)
    requires { length out.old.items ≤ 100 }
    ensures text { out.new.items ≡ out.old.items ++ entry_text entry.now }
    ensures room { length out.new.items ≤ length out.old.items + 150 }
{
    match entry {
        Entry::Directory { level, part, .. } => push_directory(out, *level, *part),
        Entry::Device { did, .. } => {
            push_text(out, b"a context,");
            push_operand(out, b"did", u64::from(*did));
        }
        Entry::First { pscid, held, .. } => {
            push_held(out, b"first", held);
            push_operand(out, b"pscid", u64::from(*pscid));
            push_operand(out, b"global", flag(held.global));
        }
        Entry::Second { gscid, held } => {
            push_held(out, b"second", held);
            push_operand(out, b"gscid", u64::from(*gscid));
        }
        Entry::File { gscid, page, .. } => push_file(out, *gscid, *page),
        Entry::Page { key, .. } => push_key(out, key),
    }
}

/// What an entry is, with the ids by which a command names it, at most 150 bytes, as `a leaf of the first stage, level=0 page=0x40201 pscid=0x3
/// global=0x0`.
pub fn entry_line(entry: &Entry) -> Reply
    ensures text { result.items ≡ entry_text entry.now }
    ensures short { length result.items ≤ 150 }
{
    let mut out = Reply::new();
    push_entry(&mut out, entry);
    out
}
