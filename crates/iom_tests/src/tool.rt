ghost use Rattle.std.specs.Prelude.{Some};

use iom_core::Platform;
use iom_mem::Ram;
use iom_tool::{Console, RunFault, Trace};
use std::alloc::Global;
use std::io::{self, Error, ErrorKind, Read, Write};
use std::test::Fail;

/// A reader that gives some bytes and then many equal ones, a limited number in each call, and fails after a number of calls.
#[derive(Drop)]
pub struct Source<'a> {
    /// The first bytes, as far as they aren't given yet.
    pub left: &'a [u8],
    /// The byte that follows them.
    pub fill: u8,
    /// How many of these are left.
    pub filled: usize,
    /// How many calls are done before one fails.
    pub calls: usize,
    /// How many bytes a call gives at most.
    pub piece: usize,
}

impl Read for Source<'_> {
    fn read(&mut self, buf: &mut [u8]) -> io::Result<usize> {
        if self.calls == 0 {
            return Err(Error::from(ErrorKind::Other));
        }
        self.calls -= 1;
        let most = buf.len().min(self.piece);
        if !self.left.is_empty() {
            return self.left.read(&mut buf[..most]);
        }
        let count = most.min(self.filled);
        buf[..count].fill(self.fill);
        self.filled -= count;
        Ok(count)
    }
}

/// A writer into memory that takes a limited number of bytes in each call, and of which a call fails after a number of them.
#[derive(Drop)]
pub struct Sink {
    /// The bytes that were written.
    pub held: Vec<u8>,
    /// How many writes are done before one fails.
    pub calls: usize,
    /// How many flushes are done before one fails.
    pub flushes: usize,
    /// How many bytes a call takes at most.
    pub most: usize,
}

impl Write for Sink {
    ghost contents = { λ s. Some s.held.items };

    fn write(&mut self, buf: &[u8]) -> io::Result<usize> {
        if self.calls == 0 {
            return Err(Error::from(ErrorKind::Other));
        }
        self.calls -= 1;
        self.held.write(&buf[..buf.len().min(self.most)])
    }

    fn flush(&mut self) -> io::Result<()> {
        if self.flushes == 0 {
            return Err(Error::from(ErrorKind::Other));
        }
        self.flushes -= 1;
        Ok(())
    }
}

/// More calls than any script needs.
pub const MANY: usize = 100_000_000;

// How many bytes a read gives.
const PIECES: [usize; 6] = [1, 2, 3, 4, 5, 0x8000];

/// Ten lines, each of which has an answer.
pub const SCRIPT: &[u8] =
    b"reg write 16 8 1\nstore 0x80000000 8 0x0807060504030201\ndma read 5 0x80000000 8\ndma write 5 0x80001ffc aabbccdd\nload 0x80001ffc 4\ndma read 5 0x80002000 8\ndma read 5 0x80000ffc 8\ndma read 5 0xffffffffffffffff 1\ndma read 0x1000000 0x80000000 1\njump\n";

/// The answers to them.
pub const ANSWERS: &[u8] =
    b"done\ndone\n0102030405060708\ndone\n0xddccbbaa\nbus error\nmisuse\nbus error\nmisuse\nbad\n";

/// A small memory, since many runs make one.
pub fn small(alloc: Global) -> Result<Platform, Fail> {
    let ram = Ram::new(alloc, 0x8000_0000, 0x2000)?;
    Ok(Platform::new(alloc, ram, Vec::new(alloc))?)
}

/// The end of a run, its output, and the words at two addresses afterwards: the one that the script's second line stores, and the
/// one that its fourth line writes.
#[derive(Drop)]
pub struct Outcome {
    /// The end of the run.
    pub ended: Result<(), RunFault>,
    /// Its output.
    pub written: Vec<u8>,
    stored: Option<u64>,
    moved: Option<u64>,
}

/// The limits of a reader and a writer that don't fail.
pub const WELL: Limits = Limits {
    reads: MANY,
    piece: MANY,
    writes: MANY,
    flushes: MANY,
    most: MANY,
};

/// The limits of a reader and a writer.
#[derive(Clone, Copy)]
pub struct Limits {
    /// How many reads are done before one fails.
    pub reads: usize,
    /// How many bytes a read gives at most.
    pub piece: usize,
    /// How many writes are done before one fails.
    pub writes: usize,
    /// How many flushes are done before one fails.
    pub flushes: usize,
    /// How many bytes a write takes at most.
    pub most: usize,
}

/// The outcome of a script within these limits.
pub fn run(alloc: Global, script: &[u8], limits: Limits) -> Result<Outcome, Fail> {
    run_filled(alloc, script, b'\n', 0, limits)
}

// The outcome of a script that goes on with many equal bytes.
fn run_filled(
    alloc: Global,
    script: &[u8],
    fill: u8,
    filled: usize,
    limits: Limits,
) -> Result<Outcome, Fail> {
    let mut platform = small(alloc)?;
    let mut trace = Trace::new(alloc)?;
    let mut reader = Source {
        left: script,
        fill,
        filled,
        calls: limits.reads,
        piece: limits.piece,
    };
    let mut writer = Sink {
        held: Vec::new(alloc),
        calls: limits.writes,
        flushes: limits.flushes,
        most: limits.most,
    };
    let ended = iom_tool::run(
        &mut Console::new(&mut platform, &mut trace),
        &mut reader,
        &mut writer,
    );
    Ok(Outcome {
        ended,
        written: writer.held,
        stored: platform.ram().word(0x8000_0000),
        moved: platform.ram().word(0x8000_1ff8),
    })
}

// Whether a script has this output, and is read to its end.
fn is_answered(alloc: Global, script: &[u8], answers: &[u8]) -> Result<bool, Fail> {
    let all = run(alloc, script, WELL)?;
    Ok(all.ended.is_ok() && all.written.as_slice() == answers)
}

// The number of line ends in a text.
fn lines(text: &[u8]) -> usize {
    text.iter().filter(|c| **c == b'\n').count()
}

// The beginning of a text, with this number of lines.
fn front(text: &[u8], lines: usize) -> &[u8] {
    let mut left = lines;
    for (i, c) in text.iter().enumerate() {
        if left == 0 {
            return &text[..i];
        }
        if *c == b'\n' {
            left -= 1;
        }
    }
    text
}

// Whether a run ended in a fault, with this number of lines answered and the steps of that number done.
fn is_cut(part: &Outcome, fault: RunFault, answered: usize, done: usize) -> bool {
    let stored = if done >= 2 { 0x0807_0605_0403_0201 } else { 0 };
    let moved = if done >= 4 { 0xddcc_bbaa_0000_0000 } else { 0 };
    part.ended == Err(fault)
        && part.written.as_slice() == front(ANSWERS, answered)
        && part.stored == Some(stored)
        && part.moved == Some(moved)
}

// If a read fails, the lines that were read completely before it are answered and done, and no others.
fn is_cut_at_read(alloc: Global, reads: usize, piece: usize) -> Result<bool, Fail> {
    let limits = Limits {
        reads,
        piece,
        ..WELL
    };
    let part = run(alloc, SCRIPT, limits)?;
    let whole = lines(SCRIPT.get(..reads.saturating_mul(piece)).unwrap_or(SCRIPT));
    Ok(is_cut(&part, RunFault::Read, whole, whole))
}

// Runs of which each read in turn fails, with pieces of each size.
#[test]
fn each_read_fails(rt: HostRuntime) -> Result<(), Fail> {
    for piece in PIECES {
        for reads in 0..=SCRIPT.len().div_ceil(piece) {
            assert!(rt;
                is_cut_at_read(rt.alloc(), reads, piece)?,
                "at read {reads} of {piece} bytes"
            );
        }
    }
    Ok(())
}

// If a write fails, with one write for each line, the lines before are answered, and their steps and that of the line itself are done.
fn is_cut_at_write(alloc: Global, writes: usize, piece: usize) -> Result<bool, Fail> {
    let limits = Limits {
        writes,
        piece,
        ..WELL
    };
    let part = run(alloc, SCRIPT, limits)?;
    Ok(is_cut(&part, RunFault::Write, writes, writes.saturating_add(1)))
}

// Runs of which each write in turn fails, with pieces of each size.
#[test]
fn each_write_fails(rt: HostRuntime) -> Result<(), Fail> {
    for piece in PIECES {
        for writes in 0..10 {
            assert!(rt;
                is_cut_at_write(rt.alloc(), writes, piece)?,
                "at write {writes}, {piece} bytes a read"
            );
        }
    }
    Ok(())
}

// How many lines are answered before flush number `flush`, the first 0, with reads of this size; None if there is no such flush.
// Output is flushed before more is read.
fn answered_before(flush: usize, piece: usize) -> Option<usize> {
    let mut left = flush;
    let mut answered = 0;
    for reads in 1..=SCRIPT.len() {
        let ended = lines(SCRIPT.get(..reads.saturating_mul(piece)).unwrap_or(SCRIPT));
        if ended > answered {
            if left == 0 {
                return Some(answered);
            }
            left -= 1;
            answered = ended;
        }
    }
    if left == 0 { Some(answered) } else { None }
}

// A flush that fails is a failed write at once: the lines before are answered and done, and no more is read.
fn is_cut_at_flush(alloc: Global, flushes: usize, piece: usize) -> Result<bool, Fail> {
    let limits = Limits {
        flushes,
        piece,
        ..WELL
    };
    let part = run(alloc, SCRIPT, limits)?;
    match answered_before(flushes, piece) {
        Some(lines) => Ok(is_cut(&part, RunFault::Write, lines, lines)),
        None => Ok(part.ended.is_ok() && part.written.as_slice() == ANSWERS),
    }
}

// Runs of which each flush in turn fails, with pieces of each size.
#[test]
fn each_flush_fails(rt: HostRuntime) -> Result<(), Fail> {
    for piece in PIECES {
        for flushes in 0..=11 {
            assert!(rt;
                is_cut_at_flush(rt.alloc(), flushes, piece)?,
                "at flush {flushes}, {piece} bytes a read"
            );
        }
    }
    Ok(())
}

// The beginning of a script that goes on with equal bytes, and its output if it is just short enough.
type Longest<'a> = (&'a [u8], u8, usize, &'a [u8]);

// Whether the script is accepted.
fn fits(alloc: Global, script: &Longest<'_>) -> Result<bool, Fail> {
    let (start, fill, filled, answers) = script;
    let all = run_filled(alloc, start, *fill, *filled, WELL)?;
    Ok(all.ended.is_ok() && all.written.as_slice() == *answers)
}

// Whether it is too long with one byte more, and the lines before are answered.
fn is_over(
    alloc: Global,
    script: &Longest<'_>,
    piece: usize,
    answers: &[u8],
) -> Result<bool, Fail> {
    let (start, fill, filled, _) = script;
    let limits = Limits { piece, ..WELL };
    let over = run_filled(alloc, start, *fill, filled.saturating_add(1), limits)?;
    Ok(over.ended == Err(RunFault::TooLong) && over.written.as_slice() == answers)
}

// A number of lines, and a number of bytes.
const MOST_LINES: Longest<'static> = (b"reg read 8 4\n", b'\n', (1 << 20) - 1, b"0x2\n");

const MOST_BYTES: Longest<'static> = (b"reg read 8 4#", b'x', (1 << 26) - 13, b"bad\n");

// Scripts with the most lines and with the most bytes, and with one more.
#[test]
fn each_limit(rt: HostRuntime) -> Result<(), Fail> {
    assert!(rt; fits(rt.alloc(), &MOST_LINES)?);
    assert!(rt; fits(rt.alloc(), &MOST_BYTES)?);
    for piece in PIECES {
        assert!(rt;
            is_over(rt.alloc(), &MOST_LINES, piece, b"0x2\n")?,
            "{piece} bytes a read"
        );
        assert!(rt;
            is_over(rt.alloc(), &MOST_BYTES, piece, b"")?,
            "{piece} bytes a read"
        );
    }
    Ok(())
}

// Whether a writer that takes one byte in each call, and fails after `count`, holds that much of the answers.
fn is_front(alloc: Global, writes: usize) -> Result<bool, Fail> {
    let bytes = Limits { most: 1, ..WELL };
    let part = run(alloc, SCRIPT, Limits { writes, ..bytes })?;
    let has_front = Some(part.written.as_slice()) == ANSWERS.get(..writes);
    Ok(part.ended == Err(RunFault::Write) && has_front)
}

/// Whether a run within these limits ends well, with all answers written.
pub fn is_whole(alloc: Global, limits: Limits) -> Result<bool, Fail> {
    let all = run(alloc, SCRIPT, limits)?;
    Ok(all.ended.is_ok() && all.written.as_slice() == ANSWERS)
}

// Runs of which the write of each byte in turn fails.
#[test]
fn each_byte_fails(rt: HostRuntime) -> Result<(), Fail> {
    for writes in 0..ANSWERS.len() {
        assert!(rt; is_front(rt.alloc(), writes)?, "at byte {writes}");
    }
    let writes = ANSWERS.len();
    let bytes = Limits { most: 1, ..WELL };
    assert!(rt; is_whole(rt.alloc(), Limits { writes, ..bytes })?);
    Ok(())
}

/// Whether a run of which the second read fails has written these answers.
pub fn is_read_once(alloc: Global, script: &[u8], answers: &[u8]) -> Result<bool, Fail> {
    let part = run(alloc, script, Limits { reads: 1, ..WELL })?;
    Ok(part.ended == Err(RunFault::Read) && part.written.as_slice() == answers)
}

#[test]
fn answers_before_it_reads_on(rt: HostRuntime) -> Result<(), Fail> {
    assert!(rt; is_read_once(rt.alloc(), b"reg read 8 4\n", b"0x2\n")?);
    assert!(rt; is_answered(rt.alloc(), b"reg read 8 4", b"0x2\n")?);
    Ok(())
}

// Whether a line of this length has this answer: it begins with some bytes and is filled up with one, with or without a line end.
fn is_long_answered(
    alloc: Global,
    (start, fill, end): (&[u8], u8, &[u8]),
    len: usize,
    want: &[u8],
) -> Result<bool, Fail> {
    let mut line = Vec::from_slice(alloc, start)?;
    line.resize(len, fill)?;
    line.extend_from_slice(end)?;
    is_answered(alloc, line.as_slice(), want)
}

// The beginning of a line, the byte that fills it up, and the answer to it.
const LONG: &[(&[u8], u8, &[u8])] = &[
    (b"reg read 8 4", b' ', b"0x2\n"),
    (b"reg read 8 4 #", b'x', b"0x2\n"),
    (b" ", b'\t', b""),
    (b"#", b'#', b""),
];

// The index of the first line with another answer, of those with this end.
fn otherwise_long(alloc: Global, end: &[u8]) -> Result<Option<usize>, Fail> {
    for (i, (start, fill, want)) in LONG.iter().enumerate() {
        let line: (&[u8], u8, &[u8]) = (start, *fill, end);
        if !is_long_answered(alloc, line, 512, want)?
            || !is_long_answered(alloc, line, 513, b"bad\n")?
        {
            return Ok(Some(i));
        }
    }
    Ok(None)
}

#[test]
fn long_lines(rt: HostRuntime) -> Result<(), Fail> {
    assert_eq!(rt; otherwise_long(rt.alloc(), b"\n")?, None);
    assert_eq!(rt; otherwise_long(rt.alloc(), b"")?, None);
    Ok(())
}

// The index of the first line to which a console gives another answer.
fn otherwise(alloc: Global, cases: &[(&[u8], &[u8])]) -> Result<Option<usize>, Fail> {
    let mut platform = small(alloc)?;
    let mut trace = Trace::new(alloc)?;
    let mut console = Console::new(&mut platform, &mut trace);
    for (i, (line, want)) in cases.iter().enumerate() {
        if console.line(line).as_slice() != *want {
            return Ok(Some(i));
        }
    }
    Ok(None)
}

const LINES: &[(&[u8], &[u8])] = &[
    (b"reg read 8 4", b"0x2"),
    (b"", b""),
    (b" \t\r# load", b""),
    (b"reg read 8 4\n", b"bad"),
    (b"reg read 8 4\r", b"0x2"),
    (b"place page 0", b"none"),
];

#[test]
fn answers_single_lines(rt: HostRuntime) -> Result<(), Fail> {
    assert_eq!(rt; otherwise(rt.alloc(), LINES)?, None);
    Ok(())
}
