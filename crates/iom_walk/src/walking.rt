//! The walk itself.

ghost use Rattle.std.specs.Prelude.{◌≡◌, ◌<◌, ◌≤◌, ◌^◌, map};
ghost use Rattle.std.specs.List.{fold};
ghost use Rattle.iom_walk.specs.Noted.{verdict_below};
ghost use Rattle.iom_walk.specs.Outcome.{outcome_of, IsOutcome, LeafFits};
ghost use Rattle.iom_walk.specs.Pages.{OneEndAPage};
ghost use Rattle.iom_walk.specs.Path.{path_from};
ghost use Rattle.iom_walk.specs.Shape.{levels};
ghost use Rattle.iom_walk.specs.Told.{path_entry};

use crate::entry::{GLOBAL, Verdict, judged_by, ppn_of, verdict_by};
use crate::listing::PathEntry;
use crate::met::{MetEntry, end_at, place_in};
use crate::notes::Notes;
use crate::outcome::Outcome;
use crate::shape::Format;
use crate::source::Words;
use iom_bits::{Kind, has_bit};

/// How a walk of page tables of this format ends, for an access of kind `kind` to `addr`, an IOVA or a guest-physical address
/// (RISC-V Privileged Architecture, "Virtual Address Translation Process"). `root` is the PPN of the root, below 2^44: its address
/// divided by 4096. That address and the entries' are addresses in `words`, each below 2^56 + 2^14.
#[tactic(auto, using(crate::proofs::Paths::is_outcome, crate::proofs::Walks::whole), unfolding(crate::specs::Outcome::outcome_of))]
pub fn walk<W: Words>(words: &W, format: Format, root: u64, addr: u64, kind: Kind) -> Outcome
    requires { root < 2 ^ 44 }
    ensures outcome { result ≡ outcome_of (W.at words.now) format root addr kind }
    ensures path { IsOutcome (W.at words.now) format root addr kind result }
    ensures leaf { LeafFits format.shape result }
{
    if format.shape.covers(addr) {
        let levels = format.shape.levels();
        walk_from(words, format, addr, kind, root, levels, false, &mut ())
    } else {
        Outcome::Fault
    }
}

/// A law of walks: over one source of words all addresses of a page have one end. The function does nothing.
#[tactic(auto, using(crate::proofs::Pages::one_end))]
pub fn one_end_a_page()
    ensures { OneEndAPage }
{}

/// The walk of `addr`, an IOVA or a guest-physical address, from a table on, of which `count` levels are left, with notes of the entries that it
/// meets. `table` is the table's PPN, below 2^44; `global` says whether an entry above it has G set.
#[inline(always)]
pub fn walk_from<W: Words, N: Notes>(
    words: &W,
    format: Format,
    addr: u64,
    kind: Kind,
    table: u64,
    count: u8,
    global: bool,
    notes: &mut N,
) -> Outcome
    requires table { table < 2 ^ 44 }
    requires count { count ≤ levels format.shape }
    ensures outcome { result ≡ verdict_below format.rules kind global addr (path_from (W.at words.now) format addr table count) }
    ensures leaf { LeafFits format.shape result }
    ensures noted { notes.new ≡ fold N.next notes.old (map (path_entry format.rules kind) (path_from (W.at words.now) format addr table count)) }
{
    let mut table = table;
    let mut global = global;
    for level in (0..count).rev() {
        let place = place_in(Format { ..format }, addr, table, level);
        let got = words.word(place);
        let ruling = judged_by(format.rules, got, level, kind);
        notes.note(PathEntry {
            place,
            level,
            got,
            ruling,
        });
        let Verdict::Pointer(word) = verdict_by(ruling, got) else {
            let entry = MetEntry { level, place, got };
            return end_at(&entry, ruling, addr, global);
        };
        global |= has_bit(word, GLOBAL);
        table = ppn_of(word);
    }
    Outcome::Fault
}
