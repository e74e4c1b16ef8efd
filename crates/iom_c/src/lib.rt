//! The platform for C: exports over one handle, each with the clauses of the call that it makes.
#![tactic(auto)]

mod answers;
mod changing;
mod freeing;
mod handle;
mod held;
mod judge_handle;
mod judging;
mod kept;
mod law;
mod leading;
mod looking;
mod messages;
mod naming;
mod opening;
mod origins;
mod others;
mod owned;
mod parts;
mod places;
mod reasons;
mod restoring;
mod saving;
mod settledness;
mod settling;
mod steps;
mod texts;
mod told;
mod trying;
mod unsettled;
mod version;
mod walks;
mod ways;
mod why;
