//! The translation of an IOVA by both stages of a device's context (RISC-V IOMMU Architecture 1.0, "Process to translate an
//! IOVA").
#![tactic(auto)]

pub use files::{FileRuling, file_place, file_ruling, file_word, hit_by_file, is_of_file};
pub use physical::Physical;
pub use second::{Second, got_behind, second_shape};
pub use translation::{
    Fault, Hit, Reached, first_shape, first_stage, first_stage_listed, hit_by, one_hit_a_page,
    reached_by, second_stage, translate,
};

mod files;
mod physical;
mod second;
mod translation;
