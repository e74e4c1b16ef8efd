//! Scripts that are played from an image.

use iom_asm::{LoadFault, assemble};
use iom_core::Platform;
use iom_play::{Played, WRITE_BLOCK, play};
use iom_tool::{RunFault, WatchedReader, WatchedWriter};
use std::alloc::Global;
use std::cell::RefCell;
use std::io::{self, BufWriter, Error, ErrorKind, Read, Write};
use std::test::Fail;

// Device 5 with a first stage whose page tables map page 0x40201 to page 0x80010, which holds some bytes.
const MAPPED: &[u8] = b"ram 0x80000000 0x100000
at 0x800010a0
context mode=8 ppn=0x80002
at 0x80002008
pte ppn=0x80003 flags=1
at 0x80003008
pte ppn=0x80004 flags=1
at 0x80004008
pte ppn=0x80010 flags=0xd7
at 0x80010abc
bytes 1122334455667788
";

// The read before the directory is set is denied; the page serves on after it is unmapped.
const SCRIPT: &[u8] = b"dma read 5 0x40201abc 2
reg write 16 8 0x20000402
dma read 5 0x40201abc 2
store 0x80004008 8 0
dma read 5 0x40201abc 2
";

const ANSWERS: &[u8] = b"denied 256\ndone\n1122\ndone\n1122\n";

fn is_cached(platform: &Platform) -> bool {
    platform.ram().word(0x8000_4008) == Some(0) && platform.contexts().find(5).is_some()
}

/// The end of a reader's script on an image, its answers written to a writer.
pub fn played<R: Read, W: Write>(
    alloc: Global,
    image: &[u8],
    reader: &mut R,
    writer: &mut W,
) -> Result<Played, LoadFault> {
    let mut reader = WatchedReader::new(reader);
    let mut writer = WatchedWriter::new(writer);
    play(alloc, image, &mut reader, &mut writer)
}

// Whether the script has these answers on this image, through the buffer of the programs, which holds none at the end, and its context
// is cached then.
fn is_played(alloc: Global, image: &[u8]) -> Result<bool, Fail> {
    let mut script = SCRIPT;
    let mut answers = BufWriter::with_capacity(alloc, WRITE_BLOCK, Vec::new(alloc))?;
    let played = played(alloc, image, &mut script, &mut answers)?;
    played.ended?;
    let are_written = answers.buffer().is_empty() && answers.get_ref().as_slice() == ANSWERS;
    Ok(script.is_empty() && are_written && is_cached(&played.platform))
}

#[test]
fn script_is_played_from_an_image(rt: HostRuntime) -> Result<(), Fail> {
    let image = assemble(rt.alloc(), MAPPED)?;
    assert!(rt; is_played(rt.alloc(), &image)?);
    Ok(())
}

// Parts of a script, each with the answers to it.
const ASKED: &[(&[u8], &[u8])] = &[
    (b"dma read 5 0x40201abc 2\n", b"denied 256\n"),
    (b"# nothing\n", b""),
    (b"reg write 16 8 0x20000402\njump\n", b"done\nbad\n"),
    (b"dma read 5 0x40201abc 2\n", b"1122\n"),
];

// That script: a part is given once all answers to those before are seen, else the script ends; after the last part a read fails.
#[derive(Drop)]
struct Asking<'a> {
    // how many parts were given
    given: usize,
    // how many bytes of answers have to be seen
    wanted: usize,
    seen: &'a RefCell<Vec<u8>>,
}

impl Read for Asking<'_> {
    fn read(&mut self, buf: &mut [u8]) -> io::Result<usize> {
        let is_seen = match self.seen.try_borrow() {
            Ok(seen) => seen.len() == self.wanted,
            Err(_) => false,
        };
        if !is_seen {
            return Ok(0);
        }
        let Some((part, answers)) = ASKED.get(self.given) else {
            return Err(Error::from(ErrorKind::Other));
        };
        self.given = self.given.saturating_add(1);
        self.wanted = self.wanted.saturating_add(answers.len());
        let mut part = *part;
        part.read(buf)
    }
}

// The answers as they are seen.
#[derive(Drop)]
struct Seeing<'a> {
    seen: &'a RefCell<Vec<u8>>,
}

impl Write for Seeing<'_> {
    fn write(&mut self, buf: &[u8]) -> io::Result<usize> {
        match self.seen.try_borrow_mut() {
            Ok(mut seen) => seen.write(buf),
            Err(_) => Err(Error::from(ErrorKind::Other)),
        }
    }

    fn flush(&mut self) -> io::Result<()> {
        Ok(())
    }
}

// The end of a script through the buffer of the programs, with parts given as their answers are seen.
fn asked(alloc: Global, image: &[u8]) -> Result<Result<(), RunFault>, Fail> {
    let seen = RefCell::new(Vec::new(alloc));
    let seen = &seen;
    let mut script = Asking {
        given: 0,
        wanted: 0,
        seen,
    };
    let mut answers = BufWriter::with_capacity(alloc, WRITE_BLOCK, Seeing { seen })?;
    Ok(played(alloc, image, &mut script, &mut answers)?.ended)
}

// Each part is given, and then the read fails.
#[test]
fn each_answer_is_seen_before_more_is_read(rt: HostRuntime) -> Result<(), Fail> {
    let image = assemble(rt.alloc(), MAPPED)?;
    assert!(rt; asked(rt.alloc(), &image)? == Err(RunFault::Read));
    Ok(())
}
