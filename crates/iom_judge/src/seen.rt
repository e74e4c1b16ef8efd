//! What was seen of a step.

ghost use Rattle.std.specs.Prelude.{◌≡◌};
ghost use Rattle.iom_judge.specs.Seen.{fits_seen, is_answer};

use iom_core::{Answer, Denial};

/// The part of a step's answer that was seen, or nothing.
#[derive(Drop)]
pub struct Seen {
    /// The answer; None: it wasn't seen.
    pub answer: Option<Answer>,
    /// The physical address of the first byte that was accessed; None: it wasn't seen.
    pub addr: Option<u64>,
}

impl Seen {
    ghost use Rattle.iom_judge.specs.Seen.{fits_addr, fits_answer, unseen};

    /// Nothing was seen.
    pub fn nothing() -> Seen
        ensures { result ≡ unseen }
    {
        Seen {
            answer: None,
            addr: None,
        }
    }

    /// Whether this agrees with a step that has this answer, and whose access went to `goes`; None: it made none.
    pub fn fits(&self, answer: &Answer, goes: Option<Result<u64, Denial>>) -> bool
        ensures { result ≡ fits_seen (answer.now, goes) self.now }
    {
        self.fits_answer(answer) && self.fits_addr(goes)
    }

    fn fits_answer(&self, answer: &Answer) -> bool
        ensures { result ≡ fits_answer self.now.answer answer.now }
    {
        match &self.answer {
            Some(seen) => is_answer(seen, answer),
            None => true,
        }
    }

    fn fits_addr(&self, goes: Option<Result<u64, Denial>>) -> bool
        ensures { result ≡ fits_addr self.now.addr goes }
    {
        match (self.addr, goes) {
            (None, _) => true,
            (Some(addr), Some(Ok(other))) => addr == other,
            (Some(_), _) => false,
        }
    }
}

/// Whether two answers are the same.
pub(crate) fn is_answer(one: &Answer, other: &Answer) -> bool
    ensures { result ≡ is_answer one.now other.now }
{
    match (one, other) {
        (Answer::Value(value), Answer::Value(same)) => value == same,
        (Answer::Bytes(bytes), Answer::Bytes(same)) => bytes.as_slice() == same.as_slice(),
        (Answer::Denied(cause), Answer::Denied(same)) => cause == same,
        (Answer::Done, Answer::Done) => true,
        (Answer::Idle, Answer::Idle) => true,
        (Answer::BusError, Answer::BusError) => true,
        (Answer::BadAccess, Answer::BadAccess) => true,
        (Answer::NoDevice, Answer::NoDevice) => true,
        (Answer::Misuse, Answer::Misuse) => true,
        _ => false,
    }
}
