//! A block device over a bus without an IOMMU: each access refused in turn, copies, and a queue that is taken back.

use crate::tape::Tape;
use iom_blk::{Blk, Moved};
use iom_mem::Ram;
use std::alloc::{AllocError, Global};
use std::test::Fail;

const BASE: u64 = 0x8000_0000;

// The descriptors are at BASE, the rings at 0x100 and 0x200 after it, a header at 0x300 and a status byte at 0x310.
const AVAIL: u64 = 0x8000_0100;

const RING: u64 = 0x8000_0200;

const HEADER: u64 = 0x8000_0300;

const STATUS: u64 = 0x8000_0310;

const PLENTY: u64 = 1000;

// A driver's writes: VERSION_1, ACCESS_PLATFORM and FLUSH accepted, queue 0 of 8 descriptors ready, and a notification.
const SETUP: &[(u64, u32)] = &[
    (0x70, 3),
    (0x24, 1),
    (0x20, 3),
    (0x24, 0),
    (0x20, 0x200),
    (0x70, 0xb),
    (0x30, 0),
    (0x38, 8),
    (0x80, 0x8000_0000),
    (0x90, 0x8000_0100),
    (0xa0, 0x8000_0200),
    (0x44, 1),
    (0x70, 0xf),
    (0x50, 0),
];

// An IN of sector 1: its header, data of 64, 192 (over the end of a page) and 256 bytes, its status byte.
const IN: &[(u64, u64)] = &[
    (BASE, HEADER),
    (BASE + 0x08, 0x1_0001_0000_0010),
    (BASE + 0x10, 0x8000_1000),
    (BASE + 0x18, 0x2_0003_0000_0040),
    (BASE + 0x20, 0x8000_1fe0),
    (BASE + 0x28, 0x3_0003_0000_00c0),
    (BASE + 0x30, 0x8000_2800),
    (BASE + 0x38, 0x4_0003_0000_0100),
    (BASE + 0x40, STATUS),
    (BASE + 0x48, 0x2_0000_0001),
    (AVAIL, 0x1_0000),
    (HEADER, 0),
    (HEADER + 8, 1),
    (STATUS, u64::MAX),
];

// An OUT of that sector from the same parts, with data that show their origin.
const OUT: &[(u64, u64)] = &[
    (BASE + 0x18, 0x2_0001_0000_0040),
    (BASE + 0x28, 0x3_0001_0000_00c0),
    (BASE + 0x38, 0x4_0001_0000_0100),
    (HEADER, 1),
    (0x8000_1038, 0x1111_1111_1111_1111),
    (0x8000_1ff8, 0x2222_2222_2222_2222),
    (0x8000_2000, 0x3333_3333_3333_3333),
    (0x8000_28f8, 0x4444_4444_4444_4444),
];

// How many accesses the request takes: the index, the head, five descriptors, the header, nine pieces of data, the status and three
// for the used ring.
const ACCESSES: u64 = 21;

// That IN with its header in two descriptors and its data in one, at the start of a page: the request of the platform's worked example,
// of sector 0.
const WORKED: &[(u64, u64)] = &[
    (BASE + 0x08, 0x1_0001_0000_0008),
    (BASE + 0x10, HEADER + 8),
    (BASE + 0x18, 0x2_0001_0000_0008),
    (BASE + 0x20, 0x8000_1000),
    (BASE + 0x28, 0x3_0003_0000_0200),
    (BASE + 0x30, STATUS),
    (BASE + 0x38, 0x2_0000_0001),
    (HEADER + 8, 0),
];

// How many accesses it takes: the index, the head, four descriptors, the header's two, eight pieces of data, the status and three
// for the used ring.
const WORKED_ACCESSES: u64 = 20;

// Two sectors; byte j is j / 32.
fn disk(alloc: Global) -> Result<Vec<u8>, AllocError> {
    let mut disk = Vec::new(alloc);
    for byte in 0..32_u8 {
        disk.resize((byte as usize + 1) * 32, byte)?;
    }
    Ok(disk)
}

/// A device with a disk of 1024 bytes; None for any other size.
pub fn with_disk(disk: Vec<u8>) -> Option<Blk> {
    if disk.len() == 1024 {
        Some(Blk::new(disk))
    } else {
        None
    }
}

// A device, and its bus.
#[derive(Drop)]
struct Bench {
    blk: Blk,
    tape: Tape,
}

// A bus of these words that takes `left` accesses.
fn tape(alloc: Global, words: &[&[(u64, u64)]], left: u64) -> Result<Tape, Fail> {
    let mut ram = Ram::new(alloc, BASE, 0x3000)?;
    for part in words {
        for (addr, word) in *part {
            ram.write(*addr, &word.to_le_bytes());
        }
    }
    Ok(Tape { ram, left })
}

fn wrote(bench: &mut Bench, off: u64, value: u32) -> bool {
    bench.blk.reg_write(off, 4, value as u64)
}

fn set(bench: &mut Bench, writes: &[(u64, u32)]) {
    for (off, value) in writes {
        wrote(bench, *off, *value);
    }
}

// A device that a driver has set up.
fn ready(alloc: Global, words: &[&[(u64, u64)]], left: u64) -> Result<Bench, Fail> {
    let mut bench = Bench {
        blk: with_disk(disk(alloc)?).ok_or("a disk of two sectors")?,
        tape: tape(alloc, words, left)?,
    };
    set(&mut bench, SETUP);
    Ok(bench)
}

fn step(bench: &mut Bench) -> Moved {
    bench.blk.step(&mut bench.tape)
}

fn go(bench: &mut Bench, steps: u64) {
    for _ in 0..steps {
        step(bench);
    }
}

fn word(bench: &Bench, addr: u64) -> Option<u64> {
    bench.tape.ram.word(addr)
}

// Whether two benches have the same value at each word.
fn same_memory(one: &Bench, other: &Bench) -> bool {
    for i in 0..0x600 {
        if word(one, BASE + 8 * i) != word(other, BASE + 8 * i) {
            return false;
        }
    }
    true
}

fn shows(bench: &Bench, status: u64, interrupts: u64) -> bool {
    bench.blk.reg_read(0x70, 4) == Some(status) && bench.blk.reg_read(0x60, 4) == Some(interrupts)
}

// A refused access breaks the device.
fn breaks(bench: &mut Bench) -> bool {
    step(bench) == Moved::Outside && shows(bench, 0x4f, 2) && step(bench) == Moved::Idle
}

// Writes to registers, and the status and the interrupts after each.
type Shown = (u64, u32, u64, u64);

// Whether the device shows the status and the interrupts after each of the writes.
fn shows_after(bench: &mut Bench, writes: &[Shown]) -> bool {
    for (off, value, status, interrupts) in writes {
        if !wrote(bench, *off, *value) || !shows(bench, *status, *interrupts) {
            return false;
        }
    }
    true
}

// Only a write of 0 resets a broken device.
const RESET: &[Shown] = &[(0x70, 0xf, 0x4f, 2), (0x70, 0, 0, 0)];

// Whether a device whose bus refuses its next access after `accesses` breaks, and leaves on the bus only what those accesses wrote.
// A reset and a new set-up then lead through the whole request, which takes `all` accesses.
fn is_refused(
    alloc: Global,
    words: &[&[(u64, u64)]],
    all: u64,
    accesses: u64,
) -> Result<bool, Fail> {
    let mut short = ready(alloc, words, accesses)?;
    go(&mut short, accesses);
    let mut whole = ready(alloc, words, PLENTY)?;
    go(&mut whole, accesses);
    if !breaks(&mut short) || !same_memory(&short, &whole) || !shows_after(&mut short, RESET) {
        return Ok(false);
    }
    short.tape = tape(alloc, words, PLENTY)?;
    set(&mut short, SETUP);
    go(&mut short, all.saturating_sub(1));
    let is_open = word(&short, RING) == Some(0);
    step(&mut short);
    Ok(is_open && word(&short, RING) == Some(0x1_0000))
}

// The first number of accesses before a refusal for which that fails.
fn otherwise_refused(
    alloc: Global,
    words: &[&[(u64, u64)]],
    all: u64,
) -> Result<Option<u64>, Fail> {
    for accesses in 0..all {
        if !is_refused(alloc, words, all, accesses)? {
            return Ok(Some(accesses));
        }
    }
    Ok(None)
}

#[test]
fn each_access_refused(rt: HostRuntime) -> Result<(), Fail> {
    let requests: [(&[&[(u64, u64)]], u64); 2] = [
        (&[IN], ACCESSES),
        (&[IN, WORKED], WORKED_ACCESSES),
    ];
    for (words, all) in requests {
        assert_eq!(rt; otherwise_refused(rt.alloc(), words, all)?, None);
    }
    Ok(())
}

fn steps_alike(one: &mut Bench, other: &mut Bench) -> bool {
    step(one) == step(other)
}

// Whether two devices take the same steps from step n on until the request ends.
fn go_together(one: &mut Bench, other: &mut Bench, n: u64) -> bool {
    for _ in n..ACCESSES + 2 {
        if !steps_alike(one, other) {
            return false;
        }
    }
    shows(one, 0xf, 1) && shows(other, 0xf, 1)
}

// Whether a copy of the device made after n steps goes on as its original.
fn is_copied(alloc: Global, words: &[&[(u64, u64)]], n: u64) -> Result<bool, Fail> {
    let mut own = ready(alloc, words, PLENTY)?;
    go(&mut own, n);
    let mut other = ready(alloc, words, PLENTY)?;
    go(&mut other, n);
    other.blk = own.blk.try_clone(alloc)?;
    Ok(
        go_together(&mut own, &mut other, n)
            && same_memory(&own, &other)
            && own.blk.disk() == other.blk.disk(),
    )
}

// The first step of a request after which a copy of the device differs from its original.
fn otherwise_copied(alloc: Global, words: &[&[(u64, u64)]]) -> Result<Option<u64>, Fail> {
    for n in 0..ACCESSES {
        if !is_copied(alloc, words, n)? {
            return Ok(Some(n));
        }
    }
    Ok(None)
}

#[test]
fn copies_go_on_as_their_originals(rt: HostRuntime) -> Result<(), Fail> {
    assert_eq!(rt; otherwise_copied(rt.alloc(), &[IN])?, None);
    assert_eq!(rt; otherwise_copied(rt.alloc(), &[IN, OUT])?, None);
    Ok(())
}

// The driver takes the queue back, and makes it ready again: the request is carried out from its beginning.
fn begins_again(bench: &mut Bench) -> bool {
    if !wrote(bench, 0x44, 0) || step(bench) != Moved::Idle || !wrote(bench, 0x44, 1) {
        return false;
    }
    go(bench, ACCESSES - 1);
    word(bench, RING) == Some(0) && step(bench) == Moved::Did && word(bench, RING) == Some(0x1_0000)
}

// The first number of steps after which that fails.
fn otherwise_abandoned(alloc: Global) -> Result<Option<u64>, Fail> {
    for n in 0..ACCESSES {
        let mut bench = ready(alloc, &[IN], PLENTY)?;
        go(&mut bench, n);
        if !begins_again(&mut bench) {
            return Ok(Some(n));
        }
    }
    Ok(None)
}

#[test]
fn abandons_a_request_with_its_queue(rt: HostRuntime) -> Result<(), Fail> {
    assert_eq!(rt; otherwise_abandoned(rt.alloc())?, None);
    Ok(())
}
