//! Boards whose memory is lent to them for each step.

use crate::platforms::{MAPPED, stored, written};
use iom_bits::{Features, Kind};
use iom_core::{Answer, Board, Step};
use std::alloc::Global;
use std::test::Fail;

const BASE: u64 = 0x8000_0000;

// Writes a word at a physical address, as the memory's owner.
fn put(words: &mut [u64], addr: u64, word: u64) {
    if let Some(place) = words.get_mut((addr.wrapping_sub(BASE) / 8) as usize) {
        *place = word;
    }
}

// The words of a memory of 128 KiB that has these words.
fn words_with(alloc: Global, placed: &[(u64, u64)]) -> Result<Vec<u64>, Fail> {
    let mut words = Vec::new(alloc);
    words.resize(0x4000, 0)?;
    for (addr, word) in placed {
        put(&mut words, *addr, *word);
    }
    Ok(words)
}

// The answer of a board to a step in front of lent words.
fn answer(board: &mut Board, words: &mut [u64], step: &Step) -> Answer {
    let mut answer = Answer::Idle;
    if words.len() == 0x4000 {
        board.step_lent(BASE, words, step, &mut answer, &mut ());
    }
    answer
}

// Two IOMMUs in front of one memory, whose owner then maps the page to another frame.
#[test]
fn two_boards_and_one_memory(rt: HostRuntime) -> Result<(), Fail> {
    let alloc = rt.alloc();
    let mut words = words_with(alloc, &MAPPED)?;
    let mut first = Board::new(alloc, Vec::new(alloc), Features::none(), None)?;
    let mut second = Board::new(alloc, Vec::new(alloc), Features::none(), None)?;
    let enabled = written(16, 8, 0x2000_0402);
    let asked = Step::Translate {
        did: 5,
        iova: 0x4020_1abc,
        kind: Kind::Read,
    };
    assert!(rt; answer(&mut first, &mut words, &enabled) == Answer::Done);
    assert!(rt; answer(&mut second, &mut words, &enabled) == Answer::Done);
    assert!(rt; answer(&mut first, &mut words, &asked) == Answer::Value(0x8001_0abc));
    put(&mut words, 0x8000_4008, 0x2000_44d7);
    assert!(rt; answer(&mut first, &mut words, &asked) == Answer::Value(0x8001_0abc));
    assert!(rt; answer(&mut second, &mut words, &asked) == Answer::Value(0x8001_1abc));
    first.reset();
    assert!(rt; answer(&mut first, &mut words, &asked) == Answer::Denied(256));
    assert!(rt; answer(&mut first, &mut words, &enabled) == Answer::Done);
    assert!(rt; answer(&mut first, &mut words, &asked) == Answer::Value(0x8001_1abc));
    assert!(rt; answer(&mut second, &mut words, &stored(0x8001_1ab8, 7)) == Answer::Done);
    assert!(rt; words.get(0x1_1ab8 / 8) == Some(&7));
    Ok(())
}
