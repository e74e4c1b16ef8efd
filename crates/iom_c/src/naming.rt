//! The entries that name physical memory, for C.

ghost use Rattle.std.specs.Prelude.{◌≡◌};
ghost use Rattle.iom_c.specs.Freeing.{entry_of, naming_of, of_page, of_stage, plain_naming, with_ids};

use iom_bits::Kind;
use iom_cache::Key;
use iom_every::{Entry, Held, first_page, is_leaf};
use iom_nested::Hit;
use iom_owed::Naming;

/// The entries that an IOMMU may hold and that name some physical memory, in C `struct rviommu_naming`: how many, and the oldest of them. What
/// the kind of the oldest doesn't have is 0.
#[repr(C)]
#[derive(Drop)]
pub struct MemoryNaming {
    /// How many, at most 2^64 - 1.
    pub count: u64,
    /// The number of the newest step that could read the oldest.
    pub number: u64,
    /// The number of the step of the newest command that names it and isn't fenced yet; 0 if there is none.
    pub unfenced: u64,
    /// The first page that it stands for, of kinds 2 to 5: an IOVA divided by 4096, of kind 3 a guest-physical address, of kind 5 the address
    /// that a first stage reaches.
    pub page: u64,
    /// 0 a non-leaf entry of the directory, 1 a context, 2 an entry of a first stage, 3 of a second stage, 4 a whole translation, 5 an entry of
    /// an MSI page table.
    pub kind: u32,
    /// The level of its table: 1 or 2 of kind 0, 0 to 4 of kinds 2 and 3; of kind 4 that of the first stage's leaf, 0 if that stage is Bare.
    pub level: u32,
    /// The device id of kinds 1 and 4, 24 bits; of kind 0 the first one that it stands for.
    pub did: u32,
    /// The process soft-context id, 20 bits; 0 if there is none.
    pub pscid: u32,
    /// The guest soft-context id, 16 bits; 0 if there is none.
    pub gscid: u32,
    /// Whether a command names it that isn't fenced yet.
    pub is_unfenced: bool,
    /// Whether there is a process soft-context id: of kind 2, and of kind 4 if the first stage isn't Bare.
    pub has_pscid: bool,
    /// Whether there is a guest soft-context id: of kinds 3 and 5, and of kinds 2 and 4 if the second stage isn't Bare.
    pub has_gscid: bool,
    /// Whether it is a leaf, of kinds 2 and 3; else it is a pointer to a table.
    pub is_leaf: bool,
    /// Whether it or an entry above it has G set, of kind 2; of kind 4 whether the first stage's mapping is global.
    pub is_global: bool,
    /// Whether it serves writes, of kind 4; else it serves reads.
    pub is_write: bool,
    /// Room for more; 0.
    pub reserved: [u64; 4],
}

// An entry of this kind, with 0 in all other fields.
fn plain_naming(kind: u32) -> MemoryNaming
    ensures { result ≡ plain_naming kind }
{
    MemoryNaming {
        count: 0,
        number: 0,
        unfenced: 0,
        page: 0,
        kind,
        level: 0,
        did: 0,
        pscid: 0,
        gscid: 0,
        is_unfenced: false,
        has_pscid: false,
        has_gscid: false,
        is_leaf: false,
        is_global: false,
        is_write: false,
        reserved: [0; 4],
    }
}

// An entry of a stage.
fn of_stage(kind: u32, held: &Held) -> MemoryNaming
    ensures { result ≡ of_stage kind held.now }
{
    MemoryNaming {
        page: first_page(held),
        level: u32::from(held.level),
        is_leaf: is_leaf(held),
        ..plain_naming(kind)
    }
}

// The same with these ids, if it has them.
fn with_ids(naming: MemoryNaming, pscid: Option<u32>, gscid: Option<u16>) -> MemoryNaming
    ensures { result ≡ with_ids naming pscid gscid }
{
    MemoryNaming {
        pscid: pscid.unwrap_or(0),
        gscid: u32::from(gscid.unwrap_or(0)),
        has_pscid: pscid.is_some(),
        has_gscid: gscid.is_some(),
        ..naming
    }
}

// A whole translation.
fn of_page(key: &Key, hit: &Hit) -> MemoryNaming
    ensures { result ≡ of_page key.now hit.now }
{
    MemoryNaming {
        page: key.page,
        level: u32::from(hit.level),
        did: key.did,
        is_global: hit.global,
        is_write: matches!(key.kind, Kind::Write),
        ..with_ids(plain_naming(4), key.pscid, key.gscid)
    }
}

// What an entry is.
fn entry_of(entry: &Entry) -> MemoryNaming
    ensures { result ≡ entry_of entry.now }
{
    match entry {
        Entry::Directory { level, part, .. } => MemoryNaming {
            level: u32::from(*level),
            did: *part,
            ..plain_naming(0)
        },
        Entry::Device { did, .. } => MemoryNaming {
            did: *did,
            ..plain_naming(1)
        },
        Entry::First { gscid, pscid, held } => MemoryNaming {
            is_global: held.global,
            ..with_ids(of_stage(2, held), Some(*pscid), *gscid)
        },
        Entry::Second { gscid, held } => with_ids(of_stage(3, held), None, Some(*gscid)),
        Entry::File { gscid, page, .. } => {
            let naming = MemoryNaming {
                page: *page,
                ..plain_naming(5)
            };
            with_ids(naming, None, Some(*gscid))
        }
        Entry::Page { key, hit } => of_page(key, hit),
    }
}

/// How many entries name memory, and the oldest of them, for C.
pub fn naming_of(found: &Naming) -> MemoryNaming
    ensures { result ≡ naming_of found.now }
{
    MemoryNaming {
        count: found.count,
        number: found.first.number,
        unfenced: found.first.unfenced.unwrap_or(0),
        is_unfenced: found.first.unfenced.is_some(),
        ..entry_of(&found.first.entry)
    }
}
