//! A leaf of sixteen pages, as an entry of each of them (RISC-V Privileged Architecture 1.12, "Svnapot").

ghost use Rattle.std.specs.Prelude.{◌≡◌, ◌<◌};
ghost use Rattle.iom_every.specs.Entries.{has_reserved_form, is_of_sixteen, of_sixteen, page_of};

use crate::dropping::is_leaf;
use crate::entry::{Entry, Held};
use iom_bits::{Features, SVPBMT, field, has_bit};

/// Whether an entry is a leaf with N set whose form isn't reserved: it maps sixteen pages.
pub fn is_of_sixteen(features: Features, held: &Held) -> bool
    ensures { result ≡ is_of_sixteen features held.now }
{
    has_bit(held.word, 63) && !has_reserved_form(features, held)
}

// Whether R is 0 with W 1, or a reserved bit is set.
#[tactic(auto, unfolding(iom_walk::specs::Verdict::is_reserved))]
fn has_reserved_form(features: Features, held: &Held) -> bool
    ensures { result ≡ has_reserved_form features held.now.level held.now.word }
{
    let word = held.word;
    let pbmt = field(word, 61, 2);
    let ppn = field(word, 10, 44);
    let may_be_napot = features.has_svnapot() && is_leaf(held) && held.level == 0 && ppn % 16 == 8;
    let may_be_typed = features.has(SVPBMT) && is_leaf(held) && pbmt != 3;
    !has_bit(word, 1) && has_bit(word, 2)
        || field(word, 54, 7) != 0
        || has_bit(word, 63) && !may_be_napot
        || pbmt != 0 && !may_be_typed
}

/// The entry of page `i`, 0 to 15, of a leaf of sixteen pages; of another kind of entries it is the entry itself.
pub fn page_of(entry: &Entry, i: u8) -> Entry
    requires { i < 16 }
    ensures { result ≡ page_of entry.now i }
{
    match *entry {
        Entry::First { gscid, pscid, held } => Entry::First {
            gscid,
            pscid,
            held: of_sixteen(&held, i),
        },
        Entry::Second { gscid, held } => Entry::Second {
            gscid,
            held: of_sixteen(&held, i),
        },
        other => other,
    }
}

fn of_sixteen(held: &Held, i: u8) -> Held
    requires { i < 16 }
    ensures { result ≡ of_sixteen held.now i }
{
    Held {
        part: held.part / 16 * 16 + i as u64,
        ..*held
    }
}
