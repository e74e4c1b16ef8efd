//! The word `check`: scripts whose lines name the answers that they want.
#![tactic(auto)]

pub use checking::{Checking, check};
pub use judging::title;
pub use law::scripts_without_failures_are_settled;
pub use rules::{Rules, Style, Tally};
pub use scoring::Scoring;
pub use wanting::{
    answer_of, has_arrow, is_wanted, takes_any, wants_stale, wants_unsettled, wish_of,
};

mod checking;
mod judging;
mod law;
mod looking;
mod naming;
mod owing;
mod pages;
mod points;
mod reported;
mod rules;
mod scoring;
mod wanting;
