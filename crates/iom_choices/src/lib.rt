//! Systems that read entries and keep whichever they choose, and laws that hold of all of them. A system is given by its steps, its walks
//! and the entries that a step drops at least; a model of one has caches of its own. This crate knows no memory, tables or commands:
//! `iom_every` has the system that is an IOMMU.
#![tactic(auto)]

pub use laws::{
    carried_model_is_one, carried_runs_agree, deciders_decide, fences_leave_what_outlasts,
    held_entries_are_listed, late_model_is_one, late_runs_agree, late_systems_hold_more,
    late_walks_are_trees, model_is_one, models_are_run, newest_entries_are_enough,
    pauses_add_what_is_read_ahead, prompt_fences_are_at_once, runs_are_late, runs_are_thorough,
    runs_may_pause, settled_runs_agree, sources_are_used, the_model_is_allowed, thinning_by_a_test,
    thorough_deciders_decide, thorough_walks_are_trees, traces_are_decided,
    unowed_requests_are_settled, unseen_steps_are_decided, walks_are_allowed,
};

mod laws;
