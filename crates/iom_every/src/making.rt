ghost use Rattle.std.specs.Prelude.{◌≡◌};
ghost use Rattle.iom_every.specs.Making.{is_leaf_of_stage, is_whole};

use crate::dropping::is_leaf;
use crate::entry::Entry;

/// Whether an entry is a leaf of a stage, or one of an interrupt file. A whole translation is made from these.
pub fn is_leaf_of_stage(entry: &Entry) -> bool
    ensures { result ≡ is_leaf_of_stage entry.now }
{
    match entry {
        Entry::First { held, .. } => is_leaf(held),
        Entry::Second { held, .. } => is_leaf(held),
        Entry::File { .. } => true,
        _ => false,
    }
}

/// Whether an entry is a whole translation.
pub fn is_whole(entry: &Entry) -> bool
    ensures { result ≡ is_whole entry.now }
{
    match entry {
        Entry::Page { .. } => true,
        _ => false,
    }
}
