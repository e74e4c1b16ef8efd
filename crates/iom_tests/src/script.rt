//! Scripts in pieces.

use crate::tool::{ANSWERS, Limits, MANY, SCRIPT, Sink, WELL, is_read_once, is_whole, small};
use iom_tool::{Feeder, RunFault, Trace};
use std::alloc::{AllocError, Global};
use std::test::Fail;

// The end of a script given in pieces, and its output.
#[derive(Drop)]
struct Fed {
    ended: Result<(), RunFault>,
    written: Vec<u8>,
}

fn feed_all(feeder: &mut Feeder, pieces: &[&[u8]], writer: &mut Sink) -> Result<(), RunFault> {
    for piece in pieces {
        feeder.feed(piece, writer)?;
    }
    Ok(())
}

// The end of a script given in these pieces, and its output.
fn feed_pieces(alloc: Global, pieces: &[&[u8]]) -> Result<Fed, Fail> {
    let mut platform = small(alloc)?;
    let mut trace = Trace::new(alloc)?;
    let mut writer = Sink {
        held: Vec::new(alloc),
        calls: MANY,
        flushes: MANY,
        most: MANY,
    };
    let mut feeder = Feeder::new(&mut platform, &mut trace);
    let ended = match feed_all(&mut feeder, pieces, &mut writer) {
        Ok(()) => feeder.finish(&mut writer),
        Err(fault) => Err(fault),
    };
    Ok(Fed {
        ended,
        written: writer.held,
    })
}

fn is_fed(alloc: Global, pieces: &[&[u8]], answers: &[u8]) -> Result<bool, Fail> {
    let all = feed_pieces(alloc, pieces)?;
    Ok(all.ended.is_ok() && all.written.as_slice() == answers)
}

// A script in two pieces has the answers of the whole script.
#[test]
fn cut_in_two_at_every_byte(rt: HostRuntime) -> Result<(), Fail> {
    for at in 0..=SCRIPT.len() {
        let (first, second) = SCRIPT.split_at(at);
        assert!(rt;
            is_fed(rt.alloc(), &[first, second], ANSWERS)?,
            "cut at {at}"
        );
    }
    Ok(())
}

// A script given byte by byte has the answers of the whole script.
#[test]
fn cut_into_single_bytes(rt: HostRuntime) -> Result<(), Fail> {
    let mut pieces = Vec::new(rt.alloc());
    for at in 0..SCRIPT.len() {
        pieces.push(&SCRIPT[at..at + 1])?;
    }
    assert!(rt; is_fed(rt.alloc(), pieces.as_slice(), ANSWERS)?);
    Ok(())
}

// A line of 512 bytes.
fn long_line(alloc: Global) -> Result<Vec<u8>, AllocError> {
    let mut line = Vec::from_slice(alloc, b"reg read 8 4")?;
    line.resize(512, b' ')?;
    Ok(line)
}

// Whether the line is answered if it is cut after this number of bytes, and is too long with one byte more.
fn is_long_fed(alloc: Global, line: &[u8], at: usize) -> Result<bool, Fail> {
    let (first, second) = line.split_at_checked(at).ok_or("a shorter line")?;
    Ok(
        is_fed(alloc, &[first, second, b"\ncmd"], b"0x2\nidle\n")?
            && is_fed(alloc, &[first, second, b" \ncmd"], b"bad\nidle\n")?
            && is_fed(alloc, &[first, second, b" "], b"bad\n")?,
    )
}

#[test]
fn line_over_two_pieces(rt: HostRuntime) -> Result<(), Fail> {
    let line = long_line(rt.alloc())?;
    for at in [1, 12, 300, 511] {
        assert!(rt; is_long_fed(rt.alloc(), &line, at)?, "cut at {at}");
    }
    Ok(())
}

// A reader that fills each buffer is asked twice: for the script, and for its end.
#[test]
fn two_reads(rt: HostRuntime) -> Result<(), Fail> {
    assert!(rt; is_whole(rt.alloc(), Limits { reads: 2, ..WELL })?);
    assert!(rt; is_read_once(rt.alloc(), SCRIPT, ANSWERS)?);
    Ok(())
}

fn is_write_fault(ended: Result<(), RunFault>) -> bool {
    ended == Err(RunFault::Write)
}

// A failed write is reported from then on, and nothing more is written.
fn stays_failed(mut feeder: Feeder<'_>, writer: &mut Sink) -> bool {
    writer.calls = 0;
    let first = is_write_fault(feeder.feed(b"cmd\n", writer));
    writer.calls = MANY;
    first
        && is_write_fault(feeder.feed(b"cmd\n", writer))
        && is_write_fault(feeder.finish(writer))
        && writer.held.is_empty()
        && writer.calls == MANY
        && writer.flushes == MANY
}

// A feeder whose writer failed refuses each later piece.
#[test]
fn refused_from_then_on(rt: HostRuntime) -> Result<(), Fail> {
    let mut platform = small(rt.alloc())?;
    let mut trace = Trace::new(rt.alloc())?;
    let mut writer = Sink {
        held: Vec::new(rt.alloc()),
        calls: 0,
        flushes: MANY,
        most: MANY,
    };
    let feeder = Feeder::new(&mut platform, &mut trace);
    assert!(rt; stays_failed(feeder, &mut writer));
    Ok(())
}
