//! The words of the command line: the task that they ask for, the help, and the errors in them.
#![tactic(auto)]

pub use escaped::Escaped;
pub use fault::WordsFault;
pub use naming::{image_named, without_image};
pub use suites::{
    SUITES_END, SUITES_HEAD, Sum, TAP_HEAD, begins_as_image, check_status, put_error_case,
    put_fault_point, put_plan, put_suite, put_sum,
};
pub use words::{Checks, How, Only, Task, Traces, task_of};

mod escaped;
mod fault;
mod help;
mod naming;
mod suites;
mod words;
