//! The steps of scripts.

use iom_core::Step;
use std::alloc::{AllocError, Global};

/// The steps of a script, in their order. Lines that are no step, such as questions, are left out.
pub fn of_script(alloc: Global, script: &[u8]) -> Result<Vec<Step>, AllocError> {
    let mut steps = Vec::new(alloc);
    for line in script.split(|c| *c == b'\n') {
        if let Some(step) = iom_tool::step_of(line) {
            steps.push(step)?;
        }
    }
    Ok(steps)
}
