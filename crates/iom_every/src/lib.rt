//! Every IOMMU that keeps what it likes of what it reads (RISC-V IOMMU Architecture 1.0, "Caching in-memory data structures"): the systems of
//! `iom_choices`, with the walks, the commands and the steps of this model; and the entries that they may keep.
#![tactic(auto)]

pub use dropping::{drops_entry, is_leaf};
pub use drops::{
    drops_of_directory_entries, drops_of_file_entries, drops_of_stage_entries,
    drops_of_this_models_entries,
};
pub use entering::{fresh_entries_lead_alike, held_entries_serve};
pub use entry::{Entry, Held, is_same};
pub use files::{file_found, file_reads, file_use};
pub use firsts::first_page;
pub use frames::names_memory;
pub use keeping::{DirectoryEntries, HeldPath, directory_in, held_in};
pub use laws::{
    answers_are_settled, entries_held_ever_decide, every_iommu_answers_alike,
    held_entries_are_listed, late_answers_are_settled, late_entries_are_listed, late_model_is_one,
    leaves_have_one_width, model_is_one, one_way_a_page, prefetching_iommus_answer_alike,
    runs_are_this_models, sources_are_used, strict_model_is_one, tables_lead, traces_are_judged,
    walks_are_trees,
};
pub use located::{depth_of, directory_reads, located_by};
pub use making::{is_leaf_of_stage, is_whole};
pub use reads::{met_entries_are_read, read_entries_are_kept, requests_read, valid_entries_alone};
pub use splitting::{is_of_sixteen, page_of};
pub use stages::{ReadEntries, is_global_use, second_outcome, second_reads};
pub use uses::{Entered, device_use, first_use, page_use, second_use};
pub use walks::{MetBy, entry_of, global_by, met, outcome_by};

mod dropping;
mod drops;
mod entering;
mod entry;
mod files;
mod firsts;
mod frames;
mod keeping;
mod laws;
mod located;
mod making;
mod reads;
mod splitting;
mod stages;
mod uses;
mod walks;
