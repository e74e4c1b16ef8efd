//! How the words of items are laid out.

ghost use Rattle.std.specs.Prelude.{◌≡◌, ◌≤◌, ◌+◌, All, length, map};
ghost use Rattle.iom_items.specs.Layouts.{FieldFits, base_of, context_layout, field_as, fields_of, room_of, title_of};

use iom_ddt::ContextFormat;

/// A field of an item's words.
#[derive(Clone, Copy)]
pub struct Field {
    /// Its key in a statement.
    pub key: &'static [u8],
    /// The word that it stands in; the first is 0.
    pub word: usize,
    /// Its lowest bit there.
    pub low: u32,
    /// How many bits it has, 1 to 64.
    pub width: u32,
    /// How many zeros stand below its bits in the number that it tells.
    pub zeros: u32,
}

/// How the words of an item are laid out: a base, and fields in it.
#[derive(Clone, Copy)]
pub enum Layout {
    /// IOTINVAL.VMA.
    Vma,
    /// IOTINVAL.GVMA.
    Gvma,
    /// IOFENCE.C.
    Fence,
    /// IODIR.INVAL_DDT.
    Iodir,
    /// A fault record.
    Fault,
    /// A device context of base format.
    Context,
    /// A device context of extended format.
    ExtendedContext,
    /// A non-leaf entry of a device directory.
    Dir,
    /// An entry of a page table.
    Pte,
    /// A basic entry of an MSI page table.
    Msi,
}

#[rattlefmt::skip]
const VMA: [Field; 8] = [
    Field { key: b"av", word: 0, low: 10, width: 1, zeros: 0 },
    Field { key: b"page", word: 1, low: 10, width: 52, zeros: 0 },
    Field { key: b"pscv", word: 0, low: 32, width: 1, zeros: 0 },
    Field { key: b"pscid", word: 0, low: 12, width: 20, zeros: 0 },
    Field { key: b"gv", word: 0, low: 33, width: 1, zeros: 0 },
    Field { key: b"gscid", word: 0, low: 44, width: 16, zeros: 0 },
    Field { key: b"nl", word: 0, low: 34, width: 1, zeros: 0 },
    Field { key: b"s", word: 1, low: 9, width: 1, zeros: 0 },
];

#[rattlefmt::skip]
const GVMA: [Field; 7] = [
    Field { key: b"av", word: 0, low: 10, width: 1, zeros: 0 },
    Field { key: b"page", word: 1, low: 10, width: 52, zeros: 0 },
    Field { key: b"pscid", word: 0, low: 12, width: 20, zeros: 0 },
    Field { key: b"gv", word: 0, low: 33, width: 1, zeros: 0 },
    Field { key: b"gscid", word: 0, low: 44, width: 16, zeros: 0 },
    Field { key: b"nl", word: 0, low: 34, width: 1, zeros: 0 },
    Field { key: b"s", word: 1, low: 9, width: 1, zeros: 0 },
];

#[rattlefmt::skip]
const FENCE: [Field; 6] = [
    Field { key: b"av", word: 0, low: 10, width: 1, zeros: 0 },
    Field { key: b"wsi", word: 0, low: 11, width: 1, zeros: 0 },
    Field { key: b"pr", word: 0, low: 12, width: 1, zeros: 0 },
    Field { key: b"pw", word: 0, low: 13, width: 1, zeros: 0 },
    Field { key: b"data", word: 0, low: 32, width: 32, zeros: 0 },
    Field { key: b"addr", word: 1, low: 0, width: 62, zeros: 2 },
];

#[rattlefmt::skip]
const IODIR: [Field; 2] = [
    Field { key: b"dv", word: 0, low: 33, width: 1, zeros: 0 },
    Field { key: b"did", word: 0, low: 40, width: 24, zeros: 0 },
];

#[rattlefmt::skip]
const FAULT: [Field; 8] = [
    Field { key: b"cause", word: 0, low: 0, width: 12, zeros: 0 },
    Field { key: b"pid", word: 0, low: 12, width: 20, zeros: 0 },
    Field { key: b"pv", word: 0, low: 32, width: 1, zeros: 0 },
    Field { key: b"priv", word: 0, low: 33, width: 1, zeros: 0 },
    Field { key: b"ttyp", word: 0, low: 34, width: 6, zeros: 0 },
    Field { key: b"did", word: 0, low: 40, width: 24, zeros: 0 },
    Field { key: b"iotval", word: 2, low: 0, width: 64, zeros: 0 },
    Field { key: b"iotval2", word: 3, low: 0, width: 64, zeros: 0 },
];

// The first nine are those of a context of base format.
#[rattlefmt::skip]
const CONTEXT: [Field; 13] = [
    Field { key: b"dtf", word: 0, low: 4, width: 1, zeros: 0 },
    Field { key: b"custom", word: 0, low: 24, width: 8, zeros: 0 },
    Field { key: b"gmode", word: 1, low: 60, width: 4, zeros: 0 },
    Field { key: b"gppn", word: 1, low: 0, width: 44, zeros: 0 },
    Field { key: b"gscid", word: 1, low: 44, width: 16, zeros: 0 },
    Field { key: b"tav", word: 2, low: 0, width: 1, zeros: 0 },
    Field { key: b"pscid", word: 2, low: 12, width: 20, zeros: 0 },
    Field { key: b"mode", word: 3, low: 60, width: 4, zeros: 0 },
    Field { key: b"ppn", word: 3, low: 0, width: 44, zeros: 0 },
    Field { key: b"msimode", word: 4, low: 60, width: 4, zeros: 0 },
    Field { key: b"msippn", word: 4, low: 0, width: 44, zeros: 0 },
    Field { key: b"msimask", word: 5, low: 0, width: 52, zeros: 0 },
    Field { key: b"msipattern", word: 6, low: 0, width: 52, zeros: 0 },
];

#[rattlefmt::skip]
const DIR: [Field; 1] = [
    Field { key: b"ppn", word: 0, low: 10, width: 44, zeros: 0 },
];

#[rattlefmt::skip]
const PTE: [Field; 2] = [
    Field { key: b"ppn", word: 0, low: 10, width: 44, zeros: 0 },
    Field { key: b"flags", word: 0, low: 0, width: 10, zeros: 0 },
];

#[rattlefmt::skip]
const MSI: [Field; 1] = [
    Field { key: b"ppn", word: 0, low: 10, width: 44, zeros: 0 },
];

impl Layout {
    /// That of a device context of this format.
    pub fn of_context(format: ContextFormat) -> Layout
        ensures { result ≡ context_layout format }
    {
        match format {
            ContextFormat::Base => Layout::Context,
            ContextFormat::Extended => Layout::ExtendedContext,
        }
    }

    /// Its fields, in the order of its line.
    #[tactic(auto, unfolding(crate::specs::Layouts::fields_of))]
    pub fn fields(self) -> &'static [Field]
        ensures fields { map field_as result.now ≡ fields_of self }
        ensures fits { All (λ own. FieldFits (field_as own)) result.now }
        ensures room { room_of (fields_of self) ≤ 240 }
    {
        match self {
            Layout::Vma => &VMA,
            Layout::Gvma => &GVMA,
            Layout::Fence => &FENCE,
            Layout::Iodir => &IODIR,
            Layout::Fault => &FAULT,
            Layout::Context => &CONTEXT[..9],
            Layout::ExtendedContext => &CONTEXT,
            Layout::Dir => &DIR,
            Layout::Pte => &PTE,
            Layout::Msi => &MSI,
        }
    }

    /// The words whose fields are 0, one to eight.
    #[tactic(auto, unfolding(crate::specs::Layouts::base_of))]
    pub(crate) fn base(self) -> &'static [u64]
        ensures base { result.now ≡ base_of self }
        ensures few { length result.now ≤ 8 }
    {
        match self {
            Layout::Vma => &[1, 0],
            Layout::Gvma => &[129, 0],
            Layout::Fence => &[2, 0],
            Layout::Iodir => &[3, 0],
            Layout::Fault => &[0, 0, 0, 0],
            Layout::Context => &[1, 0, 0, 0],
            Layout::ExtendedContext => &[1, 0, 0, 0, 0, 0, 0, 0],
            Layout::Dir => &[1],
            Layout::Pte => &[0],
            Layout::Msi => &[7, 0],
        }
    }

    /// What its line begins with, at most 9 bytes.
    #[tactic(auto, unfolding(crate::specs::Layouts::title_of))]
    pub(crate) fn title(self) -> &'static [u8]
        ensures title { result.now ≡ title_of self }
        ensures short { length result.now ≤ 9 }
    {
        match self {
            Layout::Vma => b"cmd vma",
            Layout::Gvma => b"cmd gvma",
            Layout::Fence => b"cmd fence",
            Layout::Iodir => b"cmd iodir",
            Layout::Fault => b"fault",
            Layout::Context | Layout::ExtendedContext => b"context",
            Layout::Dir => b"dir",
            Layout::Pte => b"pte",
            Layout::Msi => b"msi",
        }
    }
}
