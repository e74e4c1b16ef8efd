//! Copies of candidates.

ghost use Rattle.std.specs.Prelude.{◌≡◌, IfOk};

use crate::candidate::Candidate;
use iom_core::Answer;
use std::alloc::{AllocError, Global};

/// Copies that go their own way from here, in the same order. The fault is a refused allocation.
pub(crate) fn copies(alloc: Global, candidates: &[Candidate]) -> Result<Vec<Candidate>, AllocError>
    ensures { IfOk result (λ copies. copies.items ≡ candidates.now) }
{
    let mut all: Vec<Candidate> = Vec::new(alloc);
    for candidate in candidates {
        all.push(candidate.try_clone(alloc)?)?;
    }
    Ok(all)
}

impl Candidate {
    // A copy.
    fn try_clone(&self, alloc: Global) -> Result<Candidate, AllocError>
        ensures { IfOk result (λ copy. copy ≡ self.now) }
    {
        Ok(Candidate {
            platform: self.platform.try_clone(alloc)?,
            held: self.held.try_clone(alloc)?,
            answer: copy_answer(&self.answer),
            goes: self.goes,
        })
    }
}

/// A copy of an answer. It takes no memory.
pub(crate) fn copy_answer(answer: &Answer) -> Answer
    ensures { result ≡ answer.now }
{
    match answer {
        Answer::Value(value) => Answer::Value(*value),
        Answer::Done => Answer::Done,
        Answer::Bytes(bytes) => Answer::Bytes(bytes.clone().unwrap()),
        Answer::Idle => Answer::Idle,
        Answer::Denied(cause) => Answer::Denied(*cause),
        Answer::BusError => Answer::BusError,
        Answer::BadAccess => Answer::BadAccess,
        Answer::NoDevice => Answer::NoDevice,
        Answer::Misuse => Answer::Misuse,
    }
}
