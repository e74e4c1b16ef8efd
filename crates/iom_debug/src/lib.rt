//! The language of `debug`: the script of `run`, and more questions about the platform.
#![tactic(auto)]

pub use comments::{before_comment, comment_of, is_blank, without_blanks};
pub use debugger::{Debugger, slip_of};
pub use debugging::{Debugging, debug};
pub use invalidations::{Invalidation, put_invalidation};
pub use iom_account::Reason;
pub use iom_tool::{Actor, Reply};
pub use marks::{Marks, name_of, put_name, put_numbered};
pub use owing::LineAnswer;
pub use page::{OutputPage, first_bytes, put, put_escaped, put_number, put_slip, write_told};
pub use parts::{is_told_alike, put_cached, put_part};
pub use places::{Place, line_in, put_number_named};
pub use reasons::LineAccount;
pub use settling::{UnsettledAccess, put_elsewhere_at, put_unsettled_access, request_line};
pub use stale::{Led, StaleAccess, led_by, put_stale_access, served_line};
pub use standings::{context_standing_line, page_standing_line};
pub use summary::{AccessOutcome, Summary, and_one};
pub use taking::{StepAnswer, is_done, reply_with_count, step_by};

mod answers;
mod comments;
mod debugger;
mod debugging;
mod entries;
mod fences;
mod freeing;
mod ignored;
mod invalidations;
mod marks;
mod owing;
mod page;
mod parts;
mod places;
mod reason;
mod reasons;
mod settling;
mod stale;
mod standings;
mod summary;
mod taking;
mod text;
mod walks;
mod ways;
