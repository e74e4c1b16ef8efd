//! One entry of a page table, and what it says to a walk.

ghost use Rattle.std.specs.Prelude.{◌≡◌, ◌*◌, ◌<◌, ◌^◌, true};
ghost use Rattle.iom_bits.specs.declared.causes.Kind.{Kind};
ghost use Rattle.iom_walk.specs.declared.rules.Class.{Class};
ghost use Rattle.iom_walk.specs.declared.source.Got.TheVariants.{Word};
ghost use Rattle.iom_walk.specs.Verdict.{consequence, first_of, has_no_access, is_reserved, leaf_rows, pointer_rows, ppn, ruling_of, verdict_of, word_of};

use crate::rules::{Class, EntryRules};
use crate::source::Got;
use iom_bits::{Features, Kind, SVPBMT, field, has_bit};

// The flags of an entry, each by its bit.
const VALID: u32 = 0;

const READABLE: u32 = 1;

const WRITABLE: u32 = 2;

const EXECUTABLE: u32 = 3;

pub(crate) const USER: u32 = 4;

/// The bit of an entry that makes a mapping global: G, bit 5.
pub const GLOBAL: u32 = 5;

const ACCESSED: u32 = 6;

const DIRTY: u32 = 7;

/// The bit of a leaf that makes it map 64 KiB: N, bit 63, of Svnapot.
pub const NAPOT: u32 = 63;

/// What a page-table entry (PTE) says to a walk.
#[derive(Clone, Copy)]
pub enum Verdict {
    /// It lies outside memory.
    Outside,
    /// It is in a guest's memory, where it couldn't be read.
    Guest,
    /// It ends the walk in a page fault.
    Fault,
    /// This word points to a table of the next level.
    Pointer(u64),
    /// This word maps the address.
    Leaf(u64),
}

/// The row of the table of entries that decides of an entry. But for the first two, `Pointer` and `Leaf` each is a page fault.
#[derive(Clone, Copy, PartialEq)]
pub enum Ruling {
    /// The entry lies outside memory.
    Outside,
    /// It is in a guest's memory, where it couldn't be read.
    Guest,
    /// V is 0.
    Invalid,
    /// R is 0 and W is 1.
    WriteOnly,
    /// One of bits 63:54 is set that is reserved: N, bit 63, without Svnapot, in a pointer, and in a leaf that isn't at level 0 or whose
    /// PPN[3:0] isn't 8; PBMT, bits 62:61, without Svpbmt, in a pointer, and if it is 3; the others always.
    Reserved,
    /// R, W and X are 0, and A, D or U is set, which are reserved in a pointer.
    ReservedInPointer,
    /// R, W and X are 0 at level 0, where a pointer has no next table.
    LastLevel,
    /// A pointer to a table of the next level.
    Pointer,
    /// A leaf whose PPN isn't a multiple of the number of pages that it maps.
    Misaligned,
    /// A leaf that isn't open to accesses of this class: with U = 0 for user mode, with U = 1 for supervisor mode without SUM.
    NotUser,
    /// A leaf with R = 0, for a read.
    NotReadable,
    /// A leaf with W = 0, for a write.
    NotWritable,
    /// A leaf with A = 0.
    NotAccessed,
    /// A leaf with D = 0, for a write.
    NotDirty,
    /// A leaf that maps the address.
    Leaf,
}

/// The PPN of an entry, bits 53:10, below 2^44: the address of a frame or of a table, divided by 4096; guest-physical or physical
/// as the walk's source is.
pub fn ppn_of(word: u64) -> u64
    ensures value { result ≡ ppn word }
    ensures fits { result < 2 ^ 44 }
{
    field(word, 10, 44)
}

/// How many pages of 4096 bytes a leaf of this level, 0 to 4, maps if N is 0: 1, 2^9, 2^18, 2^27 or 2^36.
pub fn pages_at(level: u8) -> u64
    requires { level < 5 }
    ensures { result ≡ 2 ^ (9 * level) }
{
    1 << (9 * level as u32)
}

/// The row of the table of entries that decides of an entry of this level, 0 to 4, if `got` was read at its address and `kind` is the
/// access ("Virtual Address Translation Process").
#[tactic(auto, unfolding(crate::specs::Verdict::ruling_of))]
pub fn judged_by(rules: EntryRules, got: Got, level: u8, kind: Kind) -> Ruling
    requires { level < 5 }
    ensures { result ≡ ruling_of rules kind level got }
{
    match got {
        Got::Word(word) => word_judged_by(rules, word, level, kind),
        Got::Outside => Ruling::Outside,
        Got::Guest => Ruling::Guest,
    }
}

// The row that decides of a word that was read.
#[tactic(auto, unfolding(crate::specs::Verdict::ruling_of))]
fn word_judged_by(rules: EntryRules, word: u64, level: u8, kind: Kind) -> Ruling
    requires { level < 5 }
    ensures { result ≡ ruling_of rules kind level (Word word) }
{
    if !has_bit(word, VALID) {
        Ruling::Invalid
    } else if !has_bit(word, READABLE) && has_bit(word, WRITABLE) {
        Ruling::WriteOnly
    } else if has_reserved(rules.features, word, level) {
        Ruling::Reserved
    } else if has_no_access(word) {
        pointer_judged_by(word, level)
    } else {
        leaf_judged_by(rules.class, word, level, kind)
    }
}

// Whether one of bits 63:54 is set that is reserved. In most entries none is set.
#[inline(always)]
#[tactic(auto, using(crate::proofs::Entries::none_reserved))]
fn has_reserved(features: Features, word: u64, level: u8) -> bool
    ensures { result ≡ is_reserved features level word }
{
    field(word, 54, 10) != 0 && is_reserved(features, word, level)
}

// Whether one of bits 63:54 is set that is reserved, each field on its own.
#[inline(never)]
#[tactic(auto, unfolding(crate::specs::Verdict::is_reserved))]
fn is_reserved(features: Features, word: u64, level: u8) -> bool
    ensures { result ≡ is_reserved features level word }
{
    let is_leaf = !has_no_access(word);
    let pbmt = field(word, 61, 2);
    let may_be_napot = features.has_svnapot() && is_leaf && level == 0 && ppn_of(word) % 16 == 8;
    let may_be_typed = features.has(SVPBMT) && is_leaf && pbmt != 3;
    field(word, 54, 7) != 0 || has_bit(word, NAPOT) && !may_be_napot || pbmt != 0 && !may_be_typed
}

// The row that decides of an entry that allows no access of any kind, and so is no leaf.
fn pointer_judged_by(word: u64, level: u8) -> Ruling
    requires { has_no_access word ≡ true }
    ensures { (class : Class) (kind : Kind) → result ≡ first_of (pointer_rows class) kind level (Word word) }
{
    if has_bit(word, ACCESSED) || has_bit(word, DIRTY) || has_bit(word, USER) {
        Ruling::ReservedInPointer
    } else if level == 0 {
        Ruling::LastLevel
    } else {
        Ruling::Pointer
    }
}

// The row that decides of an entry that allows an access, and so is a leaf.
fn leaf_judged_by(class: Class, word: u64, level: u8, kind: Kind) -> Ruling
    requires { level < 5 }
    ensures { result ≡ first_of (leaf_rows class) kind level (Word word) }
{
    let is_write = matches!(kind, Kind::Write);
    if ppn_of(word) % pages_at(level) != 0 {
        Ruling::Misaligned
    } else if !class.may_use(word) {
        Ruling::NotUser
    } else if !is_write && !has_bit(word, READABLE) {
        Ruling::NotReadable
    } else if is_write && !has_bit(word, WRITABLE) {
        Ruling::NotWritable
    } else if !has_bit(word, ACCESSED) {
        Ruling::NotAccessed
    } else if is_write && !has_bit(word, DIRTY) {
        Ruling::NotDirty
    } else {
        Ruling::Leaf
    }
}

// Whether an entry allows no access of any kind.
fn has_no_access(word: u64) -> bool
    ensures { result ≡ has_no_access word }
{
    !has_bit(word, READABLE) && !has_bit(word, WRITABLE) && !has_bit(word, EXECUTABLE)
}

/// The verdict on an entry of this level, 0 to 4, if `got` was read at its address and `kind` is the access ("Virtual Address Translation
/// Process").
#[tactic(auto, unfolding(crate::specs::Verdict::verdict_of))]
pub fn judge(rules: EntryRules, got: Got, level: u8, kind: Kind) -> Verdict
    requires { level < 5 }
    ensures { result ≡ verdict_of rules kind level got }
{
    verdict_by(judged_by(rules, got, level, kind), got)
}

/// The verdict on an entry that this row decides, if `got` was read at its address ("Virtual Address Translation Process").
pub fn verdict_by(ruling: Ruling, got: Got) -> Verdict
    ensures { result ≡ consequence ruling (word_of got) }
{
    let word = match got {
        Got::Word(word) => word,
        Got::Outside | Got::Guest => 0,
    };
    consequence(ruling, word)
}

// What an entry with this word says by each row.
fn consequence(ruling: Ruling, word: u64) -> Verdict
    ensures { result ≡ consequence ruling word }
{
    match ruling {
        Ruling::Outside => Verdict::Outside,
        Ruling::Guest => Verdict::Guest,
        Ruling::Pointer => Verdict::Pointer(word),
        Ruling::Leaf => Verdict::Leaf(word),
        Ruling::Invalid
        | Ruling::WriteOnly
        | Ruling::Reserved
        | Ruling::ReservedInPointer
        | Ruling::LastLevel
        | Ruling::Misaligned
        | Ruling::NotUser
        | Ruling::NotReadable
        | Ruling::NotWritable
        | Ruling::NotAccessed
        | Ruling::NotDirty => Verdict::Fault,
    }
}
