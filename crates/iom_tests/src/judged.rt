//! What a judge tells of steps: all possible answers, steps that nobody saw, and candidates that another covers.

use crate::platforms::{MAPPED, read, started, stored, written};
use arrayvec::ArrayVec;
use iom_core::{Answer, Step};
use iom_judge::{Judge, Possible, Seen, Verdict};
use std::test::Fail;

const PAGE: u64 = 0x4020_1abc;

// The leaf of the page, which maps it to the frame at 0x80010000.
const LEAF: u64 = 0x8000_4008;

fn is_allowed(verdict: Verdict) -> bool {
    matches!(verdict, Verdict::Allowed)
}

fn is_refused(verdict: Verdict) -> bool {
    matches!(verdict, Verdict::Refused)
}

// The index of the first fact that doesn't hold.
fn first_wrong(facts: &[bool]) -> Option<usize> {
    for (i, fact) in facts.iter().enumerate() {
        if !*fact {
            return Some(i);
        }
    }
    None
}

fn at(addr: u64) -> Seen {
    Seen {
        answer: None,
        addr: Some(addr),
    }
}

fn told(value: u64) -> Seen {
    Seen {
        answer: Some(Answer::Value(value)),
        addr: None,
    }
}

// A judge behind a read of the page, whose leaf is another one then, without an invalidation.
fn behind_store(rt: &HostRuntime, leaf: u64) -> Result<Judge, Fail> {
    let platform = started(rt.alloc(), &MAPPED)?;
    let mut judge = Judge::new(rt.alloc(), platform)?;
    let nothing = Seen::nothing();
    for step in &[written(16, 8, 0x2000_0402), read(PAGE), stored(LEAF, leaf)] {
        judge.follow(step, &nothing)?;
    }
    Ok(judge)
}

fn is_bytes(possible: &Possible) -> bool {
    matches!(possible.answer, Answer::Bytes(_)) && possible.goes == Some(Ok(0x8001_0abc))
}

fn is_denied(possible: &Possible) -> bool {
    matches!(possible.answer, Answer::Denied(13)) && matches!(possible.goes, Some(Err(_)))
}

// A page that was unmapped without a fence may be read, or not.
#[test]
fn unmapped_page_has_two_answers(rt: HostRuntime) -> Result<(), Fail> {
    let judge = behind_store(&rt, 0)?;
    let possible = judge.allowed(&read(PAGE))?;
    let facts = [
        possible.len() == 2,
        possible.iter().any(|one| is_bytes(one)),
        possible.iter().any(|one| is_denied(one)),
    ];
    assert_eq!(rt; first_wrong(&facts), None);
    Ok(())
}

// A write of a zero byte to one of two frames, both zero.
#[test]
fn writes_of_the_same_bytes_leave_one_candidate(rt: HostRuntime) -> Result<(), Fail> {
    let mut judge = behind_store(&rt, 0x2000_44d7)?;
    let mut bytes = ArrayVec::from([0; 64]);
    bytes.truncate(1);
    let step = Step::DmaWrite {
        did: 5,
        iova: 0x4020_1000,
        bytes,
    };
    for _ in 0..40 {
        assert!(rt; is_allowed(judge.follow(&step, &Seen::nothing())?));
    }
    assert_eq!(rt; judge.candidates().len(), 1);
    Ok(())
}

// IOTINVAL.VMA and IOFENCE.C in the command queue at 0x80005000, and the page's unmapping.
fn with_commands(rt: &HostRuntime) -> Result<Judge, Fail> {
    let mut judge = behind_store(rt, 0)?;
    let nothing = Seen::nothing();
    for step in &[
        stored(0x8000_5000, 1),
        stored(0x8000_5010, 2),
        written(24, 8, 0x2000_1401),
        written(72, 4, 1),
        written(36, 4, 2),
    ] {
        judge.follow(step, &nothing)?;
    }
    Ok(judge)
}

// Commands that nobody saw may not be carried out yet.
#[test]
fn commands_that_nobody_saw_are_allowed(rt: HostRuntime) -> Result<(), Fail> {
    let mut judge = with_commands(&rt)?;
    let facts = [
        judge.take_unseen(&Step::Command)?,
        judge.candidates().len() == 3,
        is_allowed(judge.follow(&read(PAGE), &at(0x8001_0abc))?),
    ];
    assert_eq!(rt; first_wrong(&facts), None);
    Ok(())
}

// Behind a fence that was seen to be done nothing is stale.
#[test]
fn stale_answer_behind_a_fence_is_refused(rt: HostRuntime) -> Result<(), Fail> {
    let mut judge = with_commands(&rt)?;
    let head = Step::RegRead { off: 32, size: 4 };
    let facts = [
        judge.take_unseen(&Step::Command)?,
        is_allowed(judge.follow(&head, &told(2))?),
        judge.candidates().len() == 1,
        judge.take_unseen(&Step::Command)?,
        judge.candidates().len() == 1,
        is_refused(judge.follow(&read(PAGE), &at(0x8001_0abc))?),
    ];
    assert_eq!(rt; first_wrong(&facts), None);
    Ok(())
}

// The only answer to a read is listed if it is refused, and nothing is listed beside another verdict.
#[test]
fn only_answer_of_a_refused_step_is_listed(rt: HostRuntime) -> Result<(), Fail> {
    let mut judge = behind_store(&rt, 0x2000_40d7)?;
    let mut allowed = Vec::new(rt.alloc());
    let facts = [
        is_refused(judge.follow_listing(&read(PAGE), &at(0x8001_1abc), &mut allowed)?),
        matches!(allowed.as_slice(), [one] if is_bytes(one)),
        is_allowed(judge.follow_listing(&read(PAGE), &at(0x8001_0abc), &mut allowed)?),
        allowed.is_empty(),
    ];
    assert_eq!(rt; first_wrong(&facts), None);
    Ok(())
}

// Of a read that may go to two places both answers are listed; behind it the IOMMU may still go to both.
#[test]
fn all_answers_of_a_refused_step_are_listed(rt: HostRuntime) -> Result<(), Fail> {
    let mut judge = behind_store(&rt, 0)?;
    let mut allowed = Vec::new(rt.alloc());
    let facts = [
        is_refused(judge.follow_listing(&read(PAGE), &at(0x8001_1abc), &mut allowed)?),
        allowed.len() == 2,
        allowed.iter().any(|one| is_bytes(one)),
        allowed.iter().any(|one| is_denied(one)),
        is_allowed(judge.follow_listing(&read(PAGE), &at(0x8001_0abc), &mut allowed)?),
        allowed.is_empty(),
    ];
    assert_eq!(rt; first_wrong(&facts), None);
    Ok(())
}
