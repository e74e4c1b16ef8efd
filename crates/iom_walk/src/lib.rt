//! Page-table walks over any source of words (RISC-V Privileged Architecture 1.12, "Virtual Address
//! Translation Process"). The source says what stands at each address; the walk reads one entry a level.
#![tactic(auto)]

pub use entry::{Ruling, Verdict};
pub use listing::{PathEntries, PathEntry, path, walk_listed};
pub use met::{MetEntry, MetPath, end_of, place_in};
pub use notes::Notes;
pub use outcome::{Leaf, Outcome};
pub use rules::{Class, EntryRules};
pub use shape::{Format, Shape};
pub use source::{Got, Words};
pub use walking::{one_end_a_page, walk, walk_from};

mod entry;
mod listing;
mod met;
mod notes;
mod outcome;
mod rules;
mod shape;
mod source;
mod walking;
