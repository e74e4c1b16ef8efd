//! The tests that no script can show, of all crates below, a file each. Cases are tables of data, and a function returns the index of
//! the first case that fails.
#![tactic(auto)]

#[cfg(test)]
mod asm;
#[cfg(test)]
mod blk_requests;
#[cfg(test)]
mod devices;
#[cfg(test)]
mod judged;
#[cfg(test)]
mod lent;
#[cfg(test)]
mod platforms;
#[cfg(test)]
mod playing;
#[cfg(test)]
mod processes;
#[cfg(test)]
mod refused;
#[cfg(test)]
mod replaced;
#[cfg(test)]
mod script;
#[cfg(test)]
mod tape;
#[cfg(test)]
mod tool;
#[cfg(test)]
mod traces;
#[cfg(test)]
mod versions;
