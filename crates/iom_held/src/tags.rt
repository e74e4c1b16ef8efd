//! What the entries are found by that may answer a look-up.

ghost use Rattle.std.specs.Prelude.{◌≡◌, ◌≤◌, ℕ};
ghost use Rattle.iom_cache.specs.declared.key.Key.{Key};
ghost use Rattle.iom_ddt.specs.declared.context.Context.{Context};
ghost use Rattle.iom_every.specs.declared.entry.Entry.{Entry};
ghost use Rattle.iom_every.specs.Uses.{ForAccess, ForDevice, ForFirst, ForPage, device_use, file_use, first_use, page_use, second_fits};
ghost use Rattle.iom_held.specs.Tags.{HaveTags, held_tag, stage_tags, tag_of};
ghost use Rattle.iom_walk.specs.declared.shape.Shape.{Shape};

use iom_cache::Key;
use iom_ddt::{ContextFormat, id_part};
use iom_every::{Entry, Held};

/// What entries are found by: a kind of entries, and a part of what they are for.
#[derive(Clone, Copy)]
pub struct Tag {
    /// The kind: 0 to 9.
    pub kind: u8,
    /// The part: of a device id, or the number of a page of 4096 bytes divided by the pages that the entry stands for.
    pub part: u64,
}

/// The tag of an entry.
pub fn tag_of(entry: &Entry) -> Tag
    ensures { result ≡ tag_of entry.now }
{
    match entry {
        Entry::Directory { part, .. } => Tag {
            kind: 0,
            part: *part as u64,
        },
        Entry::Device { did, .. } => Tag {
            kind: 1,
            part: *did as u64,
        },
        Entry::Page { key, .. } => Tag {
            kind: 2,
            part: key.page,
        },
        Entry::First { held, .. } => held_tag(3, held),
        Entry::Second { held, .. } => held_tag(6, held),
        Entry::File { page, .. } => Tag {
            kind: 9,
            part: *page,
        },
    }
}

// The tag of an entry of a stage.
fn held_tag(kind: u8, held: &Held) -> Tag
    requires { kind ≤ 6 }
    ensures { result ≡ held_tag kind held.now }
{
    match held.level {
        0 => Tag {
            kind,
            part: held.part,
        },
        1 => Tag {
            kind: kind + 1,
            part: held.part,
        },
        _ => Tag {
            kind: kind + 2,
            part: 0,
        },
    }
}

/// The tags of the entries at which a search of the directory for this device id, 24 bits, may begin, where contexts have this format.
pub fn device_tags(format: ContextFormat, did: u32) -> [Tag; 3]
    ensures { (depth : ℕ) → HaveTags (device_use format depth did ForDevice) result }
{
    [
        Tag {
            kind: 0,
            part: id_part(format, 1, did) as u64,
        },
        Tag {
            kind: 0,
            part: id_part(format, 2, did) as u64,
        },
        Tag {
            kind: 1,
            part: did as u64,
        },
    ]
}

/// The tags of the whole translations that may have this key.
pub fn page_tags(key: &Key) -> [Tag; 1]
    ensures { HaveTags (page_use key.now ForPage) result }
{
    let page = key.page;
    [Tag {
        kind: 2,
        part: page,
    }]
}

/// The tags of the entries of the first stage at which a walk of this IOVA may begin.
pub fn first_tags(iova: u64) -> [Tag; 3]
    ensures { (context : Context) (shape : Shape) → HaveTags (first_use context shape iova ForFirst) result }
{
    stage_tags(3, iova)
}

/// The tags of the entries of the second stage at which a walk of this guest-physical address may begin.
pub fn second_tags(address: u64) -> [Tag; 3]
    ensures { (context : Context) (shape : Shape) → HaveTags (second_fits context shape address) result }
{
    stage_tags(6, address)
}

/// The tags of the entries of MSI page tables that may be for this guest-physical address.
pub fn file_tags(address: u64) -> [Tag; 1]
    ensures { (context : Context) → HaveTags (file_use context address ForAccess) result }
{
    [Tag {
        kind: 9,
        part: address / 4096,
    }]
}

// The tags of the entries of a stage that may be for this address.
fn stage_tags(kind: u8, address: u64) -> [Tag; 3]
    requires { kind ≤ 6 }
    ensures { result ≡ stage_tags kind address }
{
    let page = address / 4096;
    [
        Tag { kind, part: page },
        Tag {
            kind: kind + 1,
            part: page >> 9,
        },
        Tag {
            kind: kind + 2,
            part: 0,
        },
    ]
}
