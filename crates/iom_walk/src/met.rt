//! The entries that a walk meets from any table on, and the end that they give.

ghost use Rattle.std.specs.Prelude.{◌≡◌, ◌<◌, ◌≤◌, ◌^◌, ◌+◌, ◌*◌, ◌||◌, All, IfSome, not, Option, Some, None};
ghost use Rattle.std.specs.List.{find, list_any};
ghost use Rattle.iom_bits.specs.declared.causes.Kind.TheVariants.{Read};
ghost use Rattle.iom_walk.specs.Outcome.{LeafFits, conclude, conclude_at, verdict_on_path};
ghost use Rattle.iom_walk.specs.Path.{next_table, verdict_on};
ghost use Rattle.iom_walk.specs.Shape.{index_of, levels};
ghost use Rattle.iom_walk.specs.declared.shape.Shape.{Shape};
ghost use Rattle.iom_walk.specs.declared.shape.Shape.TheVariants.{Sv57};
ghost use Rattle.iom_walk.specs.Verdict.{consequence, is_global, is_pointer, word_of};

use crate::entry::{GLOBAL, Ruling, Verdict, judge, judged_by, ppn_of, verdict_by};
use crate::listing::PathEntry;
use crate::notes::Notes;
use crate::outcome::{Outcome, leaf_of};
use crate::rules::EntryRules;
use crate::shape::Format;
use crate::source::Got;
use arrayvec::ArrayVec;
use iom_bits::{Kind, has_bit};

/// A page-table entry that a walk meets, before it is judged.
#[derive(Clone, Copy)]
pub struct MetEntry {
    /// The level of its table, 0 to 4.
    pub level: u8,
    /// Its address in the walk's source of words: physical, or guest-physical if the source is a guest's memory.
    pub place: u64,
    /// What was read there.
    pub got: Got,
}

impl Default for MetEntry {
    fn default() -> MetEntry {
        MetEntry {
            level: 0,
            place: 0,
            got: Got::Outside,
        }
    }
}

/// The entries that a walk meets from a table on. The last is the first that isn't a pointer, or one of level 0.
pub type MetPath = ArrayVec<MetEntry, 5>;

impl Notes for MetPath {
    ghost use Rattle.iom_walk.specs.Noted.{kept, met_entry};

    ghost next = { kept met_entry };

    #[inline(always)]
    fn note(&mut self, entry: PathEntry) {
        let PathEntry {
            level,
            place,
            got,
            ..
        } = entry;
        if self.len() < 5 {
            self.push(MetEntry { level, place, got });
        }
    }
}

impl MetEntry {
    ghost use Rattle.iom_walk.specs.Path.{verdict_on};

    /// Whether it is a pointer to a table of the next level, whatever the access is.
    pub fn is_pointer(&self, rules: EntryRules) -> bool
        requires { self.now.level < 5 }
        ensures { result ≡ is_pointer (verdict_on rules Read self.now) }
    {
        matches!(
            judge(rules, self.got, self.level, Kind::Read),
            Verdict::Pointer(_)
        )
    }

    /// Its word; 0 if none could be read.
    pub fn word(&self) -> u64
        ensures { result ≡ word_of self.now.got }
    {
        match self.got {
            Got::Word(word) => word,
            Got::Outside | Got::Guest => 0,
        }
    }

    /// The PPN, 44 bits, of the table that it points to: its address divided by 4096.
    pub fn next_table(&self) -> u64
        ensures table { result ≡ next_table self.now }
        ensures fits { result < 2 ^ 44 }
    {
        ppn_of(self.word())
    }
}

/// The address of the entry that `addr`, an IOVA or a guest-physical address, is met at in a table of this level; `table` is the table's
/// address divided by 4096.
pub fn place_in(format: Format, addr: u64, table: u64, level: u8) -> u64
    requires table { table < 2 ^ 44 }
    requires level { level < levels format.shape }
    ensures place { result ≡ table * 4096 + index_of format.shape addr level * 8 }
    ensures fits { result < 2 ^ 57 }
{
    table * 4096 + format.shape.index(addr, level) * 8
}

/// The end of a walk that meets these entries: what the first of them that isn't a pointer gives. A mapping is global if one of them has G
/// set.
#[tactic(auto, unfolding(crate::specs::Outcome::verdict_on_path))]
pub fn end_of(rules: EntryRules, kind: Kind, addr: u64, path: &[MetEntry]) -> Outcome
    requires { All (λ entry. entry.level < 5) path.now }
    ensures end { result ≡ verdict_on_path rules kind addr path.now }
    ensures leaf { LeafFits Sv57 result }
{
    match first_end(EntryRules { ..rules }, kind, path) {
        Some(entry) => {
            let ruling = judged_by(rules, entry.got, entry.level, kind);
            end_at(&entry, ruling, addr, is_any_global(path))
        }
        None => Outcome::Fault,
    }
}

// Whether one of these entries has G set.
fn is_any_global(path: &[MetEntry]) -> bool
    ensures { result ≡ list_any (λ entry. is_global (word_of entry.got)) path.now }
{
    path.iter().any(|entry| has_bit(entry.word(), GLOBAL))
}

// The first of these entries that isn't a pointer.
fn first_end(rules: EntryRules, kind: Kind, path: &[MetEntry]) -> Option<MetEntry>
    requires { All (λ entry. entry.level < 5) path.now }
    ensures first { result ≡ find (λ entry. not (is_pointer (verdict_on rules kind entry))) path.now }
    ensures fits { IfSome result (λ entry. entry.level < 5) }
{
    for entry in path.iter() {
        if !matches!(
            judge(rules, entry.got, entry.level, kind),
            Verdict::Pointer(_)
        ) {
            return Some(*entry);
        }
    }
    None
}

/// The end of a walk at an entry, by the row that decides of it. `global` says whether an entry before it has G set.
#[inline(always)]
pub(crate) fn end_at(entry: &MetEntry, ruling: Ruling, addr: u64, global: bool) -> Outcome
    requires { entry.now.level < 5 }
    ensures end { result ≡ conclude (global || is_global (word_of entry.now.got)) addr entry.now (consequence ruling (word_of entry.now.got)) }
    ensures leaf { (shape : Shape) → entry.now.level < levels shape → LeafFits shape result }
{
    match verdict_by(ruling, entry.got) {
        Verdict::Outside => Outcome::Outside,
        Verdict::Guest => Outcome::Guest(entry.place),
        Verdict::Fault | Verdict::Pointer(_) => Outcome::Fault,
        Verdict::Leaf(word) => Outcome::Leaf(leaf_of(word, addr, entry.level, global)),
    }
}
