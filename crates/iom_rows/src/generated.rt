//! Random steps from one image on, by which translations are cached, dropped and displaced, and become stale.

ghost use Rattle.std.specs.Prelude.{◌<◌};

use arrayvec::ArrayVec;
use iom_core::Step;
use rand_core::utils::NextWord;
use rand_pcg::Pcg32;
use std::alloc::{AllocError, Global};

/// How many lists of steps there are.
pub const SCRIPTS: u64 = 200;

// How many steps each list has after those that set the platform up.
const STEPS: usize = 120;

// 64 KiB of memory, with the directory in its first page, and block device 11.
const START: &str = "ram 0x80000000 0x10000\ndisk 11 2 c0ffee\nat 0x80000000\n";

// The contexts of eight devices; there are 24.
const CONTEXTS: &str = "\
context pscid=1 mode=8 ppn=0x80003
context pscid=2 mode=8 ppn=0x80006
context gmode=8 gppn=0x8000c gscid=1
context gmode=8 gppn=0x8000c gscid=1 pscid=1 mode=8 ppn=0x80003
context gmode=8 gppn=0x8000c gscid=2 pscid=1 mode=8 ppn=0x80006
context
context pscid=1 mode=8 ppn=0x80006
context dtf=1 mode=8 ppn=0x80003
";

// Sixteen commands; two first stages, each with four pages and 512 others by one entry; a second stage that maps memory to itself;
// and a request for a block device.
const TABLES: &str = "\
at 0x80001000
cmd vma
cmd iodir
cmd vma av=1 page=0x40201
cmd vma pscv=1 pscid=1
cmd gvma
cmd iodir dv=1 did=0
cmd gvma gv=1 gscid=1
cmd vma gv=1 gscid=2
cmd iodir dv=1 did=3
cmd vma av=1 page=0x40400 pscv=1 pscid=2
cmd fence av=1 data=7 addr=0x8000b800
cmd vma gv=1 gscid=1 av=1 page=0x40202
cmd iodir
cmd gvma gv=1 gscid=2 av=1 page=0x80009
cmd vma
cmd gvma
at 0x80003008
pte ppn=0x80004 flags=1
at 0x80004008
pte ppn=0x80005 flags=1
pte ppn=0x80000 flags=0xf7
at 0x80005008
pte ppn=0x80009 flags=0xd7
pte ppn=0x8000a flags=0xf7
pte ppn=0x8000b flags=0xd7
pte ppn=0x80009 flags=0x53
at 0x80006008
pte ppn=0x80007 flags=1
at 0x80007008
pte ppn=0x80008 flags=1
pte ppn=0x80000 flags=0xd7
at 0x80008008
pte ppn=0x8000a flags=0xd7
pte ppn=0x80009 flags=0xd7
pte ppn=0x8000b flags=0xd7
at 0x8000b000
u64 0x40203300 0x1000100000010
u64 0x40202000 0x2000300000200
u64 0x40203400 0x200000001
at 0x8000b100
u64 0x10000
at 0x8000c010
pte ppn=0x80000 flags=0xdf
";

// The register writes that set up the IOMMU: ddtp with a directory of one level, both queues' bases, and both queues on.
const REGISTERS: [(u64, u64, u64); 5] = [
    (16, 8, 0x2000_0002),
    (24, 8, 0x2000_0403),
    (40, 8, 0x2000_0802),
    (72, 4, 1),
    (76, 4, 1),
];

// A driver's register writes to the block device.
const DEVICE: [(u64, u64); 11] = [
    (0x70, 3),
    (0x24, 1),
    (0x20, 3),
    (0x70, 0xb),
    (0x38, 4),
    (0x80, 0x4020_3000),
    (0x90, 0x4020_3100),
    (0xa0, 0x4020_3200),
    (0x44, 1),
    (0x70, 0xf),
    (0x50, 0),
];

// Four values of a page-table entry: none, two pages, and a read-only one.
const ENTRIES: [u64; 4] = [0, 0x2000_24d7, 0x2000_28d7, 0x2000_2853];

// The addresses of entries in the last tables of both first stages.
const LEAVES: [u64; 4] = [0x8000_5008, 0x8000_5010, 0x8000_8008, 0x8000_8010];

// The field fsc of a context: both first stages, and a Bare one.
const STAGES: [u64; 4] = [
    0x8000_0000_0008_0003,
    0x8000_0000_0008_0006,
    0x8000_0000_0008_0003,
    0,
];

// Values of ddtp: twice a directory of one level, then the modes Bare and Off.
const DDTP: [u64; 4] = [0x2000_0002, 0x2000_0002, 1, 0];

/// The text of the image.
pub fn text(alloc: Global) -> Result<Vec<u8>, AllocError> {
    let mut text = Vec::new(alloc);
    for part in [START, CONTEXTS, CONTEXTS, CONTEXTS, TABLES] {
        text.extend_from_slice(part.as_bytes())?;
    }
    Ok(text)
}

// A random number below a limit.
fn below(limit: u64, random: &mut Pcg32) -> u64
    requires { 0 < limit }
    ensures { result < limit }
{
    random.next_word() as u64 % limit
}

// One of four values, at random.
fn one_of(values: &[u64; 4], random: &mut Pcg32) -> u64 {
    values[below(4, random) as usize]
}

// A random IOVA: in one of four pages, in the pages of one superpage entry, or the physical address of a page.
fn iova(random: &mut Pcg32) -> u64 {
    let page = match below(4, random) {
        0 | 1 => 0x4_0201 + below(4, random),
        2 => 0x4_0400 + below(64, random),
        _ => 0x8_0009 + below(3, random),
    };
    page * 4096 + 0xabc
}

// A device's write of one byte to a page.
fn dma_write(random: &mut Pcg32) -> Step {
    let mut bytes = ArrayVec::new();
    let _fits = bytes.try_push(0x5a);
    Step::DmaWrite {
        did: below(24, random),
        iova: iova(random),
        bytes,
    }
}

// The hart's store of eight bytes.
fn store(addr: u64, value: u64) -> Step {
    Step::Store {
        addr,
        size: 8,
        value,
    }
}

// The physical address of a random device's context.
fn context(random: &mut Pcg32) -> u64
    ensures { result < 0x8000_1000 }
{
    0x8000_0000 + 32 * below(24, random)
}

// A random step of a device, of the command unit or of a driver. Without a driver nothing is dropped, so the oldest places are displaced.
fn step(is_driven: bool, random: &mut Pcg32) -> Step {
    let kinds = if is_driven { 18 } else { 10 };
    match below(kinds, random) {
        0..=6 => Step::DmaRead {
            did: below(24, random),
            iova: iova(random),
            len: 1,
        },
        7 | 8 => dma_write(random),
        9 => Step::Device { dev: 0 },
        10 | 11 => Step::Command,
        12 => Step::RegWrite {
            off: 36,
            size: 4,
            value: below(16, random),
        },
        13 | 14 => store(one_of(&LEAVES, random), one_of(&ENTRIES, random)),
        15 => store(context(random) + 24, one_of(&STAGES, random)),
        16 => store(context(random), below(8, random).min(1)),
        _ => Step::RegWrite {
            off: 16,
            size: 8,
            value: one_of(&DDTP, random),
        },
    }
}

/// The steps of one list, by its number.
pub fn steps(alloc: Global, number: u64) -> Result<Vec<Step>, AllocError> {
    let mut random = Pcg32::new(number, 1);
    let mut steps = Vec::new(alloc);
    for (off, size, value) in REGISTERS {
        steps.push(Step::RegWrite { off, size, value })?;
    }
    for (off, value) in DEVICE {
        steps.push(Step::DevWrite {
            dev: 0,
            off,
            size: 4,
            value,
        })?;
    }
    for _ in 0..STEPS {
        steps.push(step(number % 4 > 0, &mut random))?;
    }
    Ok(steps)
}
