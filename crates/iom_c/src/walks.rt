ghost use Rattle.std.specs.Prelude.{◌≡◌};
ghost use Rattle.iom_c.specs.Reasons.{entry_part, file_part, file_ruling_number, is_napot_leaf, met_part, mode_number, part_of, plain_part, ruling_number, wide_part, word_in};

use crate::ways::{RequestWay, plain_way, way_of};
use iom_bits::has_bit;
use iom_ddt::Met;
use iom_nested::{FileRuling, file_ruling};
use iom_regs::Mode;
use iom_tables::{Part, Wide};
use iom_walk::{Got, PathEntry, Ruling};

/// One thing that is looked at to lead a request, in C `struct rviommu_walk_part`. What its kind doesn't have is 0.
#[repr(C)]
#[derive(Drop)]
pub struct WalkPart {
    /// Where an item of the directory or an entry of a page table stands: its physical address, but of an entry of the first stage the
    /// guest-physical one if there is a second stage.
    pub place: u64,
    /// The physical address that an entry was read at, of kinds 3 and 4.
    pub read_at: u64,
    /// The address that the first stage reached and that is translated, of kinds 4 and 9.
    pub guest: u64,
    /// The word of an entry, of kind 9 its first; tc of a context; of ddtp its PPN; what is too wide, of kinds 6 to 8.
    pub word: u64,
    /// iohgatp of a context.
    pub iohgatp: u64,
    /// ta of a context.
    pub ta: u64,
    /// fsc of a context.
    pub fsc: u64,
    /// 0 ddtp, 1 a non-leaf entry of the directory, 2 a context, 3 an entry of the first stage, 4 one of the second, 5 the end, 6 a device
    /// id that is too wide for the directory, 7 an IOVA that is too wide for the first stage, 8 a guest-physical address for the second,
    /// 9 an entry of an MSI page table.
    pub kind: u32,
    /// ddtp's iommu_mode, 0 to 4, of kind 0.
    pub mode: u32,
    /// The level of the entry's table, 0 to 4, of kinds 3 and 4.
    pub level: u32,
    /// The row that decides of the entry: 0 to 14 in the order of `Ruling`, of kinds 3 and 4; 15 to 21 in that of `FileRuling`, of kind 9.
    pub ruling: u32,
    /// Whether there are words: no byte of them is outside memory, and their place leads somewhere.
    pub has_word: bool,
    /// Whether there is a physical address that an entry was read at.
    pub has_read_at: bool,
    /// Whether it is a leaf that maps 64 KiB ("Svnapot"), of kinds 3 and 4.
    pub is_napot: bool,
    /// The way that the request is led, of kind 5.
    pub way: RequestWay,
    /// Room for more; 0.
    pub reserved: [u64; 4],
}

// The number of ddtp's mode, 0 to 4 ("Device-directory-table pointer (ddtp)").
fn mode_number(mode: Mode) -> u32
    ensures { result ≡ mode_number mode }
{
    match mode {
        Mode::Off => 0,
        Mode::Bare => 1,
        Mode::Levels(levels) => u32::from(levels) + 1,
    }
}

// The number of the row that decides of an entry.
fn ruling_number(ruling: Ruling) -> u32
    ensures { result ≡ ruling_number ruling }
{
    match ruling {
        Ruling::Outside => 0,
        Ruling::Guest => 1,
        Ruling::Invalid => 2,
        Ruling::WriteOnly => 3,
        Ruling::Reserved => 4,
        Ruling::ReservedInPointer => 5,
        Ruling::LastLevel => 6,
        Ruling::Pointer => 7,
        Ruling::Misaligned => 8,
        Ruling::NotUser => 9,
        Ruling::NotReadable => 10,
        Ruling::NotWritable => 11,
        Ruling::NotAccessed => 12,
        Ruling::NotDirty => 13,
        Ruling::Leaf => 14,
    }
}

// The number of the row that decides of an entry of an MSI page table.
fn file_ruling_number(ruling: FileRuling) -> u32
    ensures { result ≡ file_ruling_number ruling }
{
    match ruling {
        FileRuling::Outside => 15,
        FileRuling::Invalid => 16,
        FileRuling::Custom => 17,
        FileRuling::BadMode => 18,
        FileRuling::Resident => 19,
        FileRuling::Reserved => 20,
        FileRuling::Leads => 21,
    }
}

// The word that was read of an entry, if one was.
fn word_in(got: Got) -> Option<u64>
    ensures { result ≡ word_in got }
{
    match got {
        Got::Word(word) => Some(word),
        Got::Outside | Got::Guest => None,
    }
}

// Whether an entry is a leaf that maps 64 KiB: one with N, bit 63 ("Svnapot").
fn is_napot(entry: &PathEntry) -> bool
    ensures { result ≡ is_napot_leaf entry.now }
{
    ruling_number(entry.ruling) == 14 && has_bit(word_in(entry.got).unwrap_or(0), 63)
}

// A part with nothing but its kind.
fn plain_part(kind: u32) -> WalkPart
    ensures { result ≡ plain_part kind }
{
    WalkPart {
        place: 0,
        read_at: 0,
        guest: 0,
        word: 0,
        iohgatp: 0,
        ta: 0,
        fsc: 0,
        kind,
        mode: 0,
        level: 0,
        ruling: 0,
        has_word: false,
        has_read_at: false,
        is_napot: false,
        way: plain_way(0),
        reserved: [0; 4],
    }
}

// An item of the directory.
fn met_part(met: Met) -> WalkPart
    ensures { result ≡ met_part met }
{
    match met {
        Met::Entry { place, word } => WalkPart {
            place,
            word: word.unwrap_or(0),
            has_word: word.is_some(),
            ..plain_part(1)
        },
        Met::Leaf { place, words } => {
            let [tc, iohgatp, ta, fsc, _, _, _, _] = words.unwrap_or([0; 8]);
            WalkPart {
                place,
                word: tc,
                iohgatp,
                ta,
                fsc,
                has_word: words.is_some(),
                ..plain_part(2)
            }
        }
    }
}

// An entry of a page table.
fn entry_part(kind: u32, entry: &PathEntry) -> WalkPart
    ensures { result ≡ entry_part kind entry.now }
{
    let word = word_in(entry.got);
    WalkPart {
        place: entry.place,
        word: word.unwrap_or(0),
        level: u32::from(entry.level),
        ruling: ruling_number(entry.ruling),
        has_word: word.is_some(),
        is_napot: is_napot(entry),
        ..plain_part(kind)
    }
}

// What is too wide for a table.
fn wide_part(what: Wide) -> WalkPart
    ensures { result ≡ wide_part what }
{
    let (kind, word) = match what {
        Wide::Directory { did } => (6, u64::from(did)),
        Wide::First { iova } => (7, iova),
        Wide::Second { guest } => (8, guest),
    };
    WalkPart {
        word,
        has_word: true,
        ..plain_part(kind)
    }
}

// An entry of an MSI page table.
fn file_part(guest: u64, place: u64, word: Option<u64>) -> WalkPart
    ensures { result ≡ file_part guest place word }
{
    WalkPart {
        place,
        guest,
        word: word.unwrap_or(0),
        ruling: file_ruling_number(file_ruling(word)),
        has_word: word.is_some(),
        ..plain_part(9)
    }
}

/// A part of the walk of a request of device `did`, for C.
pub fn part_of(did: u32, part: &Part) -> WalkPart
    ensures { result ≡ part_of did part.now }
{
    match *part {
        Part::Ddtp { mode, root } => WalkPart {
            mode: mode_number(mode),
            word: root,
            has_word: true,
            ..plain_part(0)
        },
        Part::Directory(met) => met_part(met),
        Part::Wide(what) => wide_part(what),
        Part::First { entry, addr } => WalkPart {
            read_at: addr.unwrap_or(0),
            has_read_at: addr.is_some(),
            ..entry_part(3, &entry)
        },
        Part::Second { guest, entry } => WalkPart {
            guest,
            read_at: entry.place,
            has_read_at: true,
            ..entry_part(4, &entry)
        },
        Part::File { guest, place, word } => file_part(guest, place, word),
        Part::End(way) => WalkPart {
            way: way_of(did, way),
            ..plain_part(5)
        },
    }
}
