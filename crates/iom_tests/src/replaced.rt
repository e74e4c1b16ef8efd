//! Images with one byte replaced by 0xff: why it is refused; each that is accepted is loaded, and its device is driven to the end of its request.

use crate::devices::{moved, notified};
use crate::platforms::{take, written};
use crate::versions::{CHUNK, CUT, DEVICE, MAGIC, RAM, not_cut, with_byte};
use iom_asm::{LoadFault, assemble, judge, load};
use iom_core::{Answer, Platform, Step};
use std::alloc::{AllocError, Global};
use std::test::Fail;

// A disk, the descriptors of a request that reads its first sector, and two single bytes.
const REQUEST: &[u8] = b"ram 0x80000000 0x100000
disk 5 2 c0ffee
at 0x80040000
u64 0x80050000 0x0001000100000008 0x80050008 0x0002000100000008 0x80051000 0x0003000300000200 0x80050010 0x0000000200000001
at 0x80041000
u64 0x10000
at 0x80050010
bytes ff
";

// A run of places at which 0xff gives the same verdict: their number, and that verdict.
type Places = (usize, Option<LoadFault>);

// The verdict at place `at`.
fn verdict_at(places: &[Places], at: usize) -> Option<LoadFault> {
    let mut left = at;
    for (count, verdict) in places {
        if left < *count {
            return *verdict;
        }
        left -= *count;
    }
    Some(LoadFault::OutOfMemory)
}

// The first place at which 0xff gives another verdict than expected.
fn first_other_verdict(
    alloc: Global,
    image: &[u8],
    places: &[Places],
) -> Result<Option<usize>, AllocError> {
    for at in 0..image.len() {
        if judge(&with_byte(alloc, image, at, 0xff)?).err() != verdict_at(places, at) {
            return Ok(Some(at));
        }
    }
    Ok(None)
}

// The runs of places in the image of the request: its head, its chunks and its disk.
const PLACES: &[Places] = &[
    (8, MAGIC),
    (2, RAM),
    (5, CHUNK),
    (1, RAM),
    (2, RAM),
    (1, None),
    (5, RAM),
    (4, CHUNK),
    (4, DEVICE),
    // The chunks.
    (1, None),
    (7, CHUNK),
    (2, CUT),
    (2, CHUNK),
    (64, None),
    (2, None),
    (6, CHUNK),
    (2, CUT),
    (2, CHUNK),
    (8, None),
    (2, None),
    (6, CHUNK),
    (2, CUT),
    (2, CHUNK),
    (1, None),
    // The disk.
    (3, None),
    (1, DEVICE),
    (2, None),
    (2, DEVICE),
    (1, CUT),
    (3, DEVICE),
    (3, None),
];

#[test]
fn image_with_a_byte_replaced(rt: HostRuntime) -> Result<(), Fail> {
    let image = assemble(rt.alloc(), REQUEST)?;
    assert_eq!(rt; image.len(), 156);
    assert_eq!(rt; not_cut(&image), None);
    assert_eq!(rt; first_other_verdict(rt.alloc(), &image, PLACES)?, None);
    Ok(())
}

// More steps than any of the requests needs.
const MANY: usize = 100;

// How many steps are done before another answer, and then the device's status and that of the request.
type Ending = (usize, Option<u64>, Option<u64>);

// The number of consecutive accepted images with the same end, and that end.
type Driven = (usize, Ending);

const DRIVEN: &[Driven] = &[
    (1, (21, Some(0xf), Some(0))),
    (1, (3, Some(0x4f), Some(0xff))),
    (2, (21, Some(0xf), Some(0))),
    (6, (6, Some(0x4f), Some(0xff))),
    (4, (20, Some(0xf), Some(0))),
    (1, (3, Some(0x4f), Some(0xff))),
    (1, (21, Some(0xf), Some(0))),
    (2, (3, Some(0x4f), Some(0xff))),
    (2, (21, Some(0xf), Some(0))),
    (6, (7, Some(0x4f), Some(0xff))),
    (4, (21, Some(0xf), Some(0))),
    (1, (4, Some(0x4f), Some(0xff))),
    (1, (21, Some(0xf), Some(0))),
    (2, (4, Some(0x4f), Some(0xff))),
    (2, (21, Some(0xf), Some(0))),
    (6, (8, Some(0x4f), Some(0xff))),
    (4, (13, Some(0xf), Some(1))),
    (1, (5, Some(0x4f), Some(0xff))),
    (1, (21, Some(0xf), Some(0))),
    (2, (5, Some(0x4f), Some(0xff))),
    (2, (21, Some(0xf), Some(0xff))),
    (6, (16, Some(0x4f), Some(0xff))),
    (2, (13, Some(0xf), Some(0xff))),
    (2, (8, Some(0x4f), Some(0xff))),
    (1, (6, Some(0x4f), Some(0xff))),
    (3, (21, Some(0xf), Some(0))),
    (2, (1, Some(0xf), Some(0xff))),
    (2, (21, Some(0xf), Some(0))),
    (2, (1, Some(0x4f), Some(0xff))),
    (2, (2, Some(0x4f), Some(0xff))),
    (13, (21, Some(0xf), Some(0))),
];

// The expected end of the accepted image with this index.
fn ending_of(driven: &[Driven], accepted: usize) -> Option<Ending> {
    let mut left = accepted;
    for (count, ending) in driven {
        if left < *count {
            return Some(*ending);
        }
        left -= *count;
    }
    None
}

fn value(platform: &mut Platform, step: Step) -> Option<u64> {
    match platform.step(&step) {
        Answer::Value(value) => Some(value),
        _ => None,
    }
}

// Drives the device of an image to the end of its request.
fn ending(alloc: Global, image: &[u8]) -> Result<Ending, Fail> {
    let mut platform = load(alloc, image)?;
    take(&mut platform, &[written(16, 8, 1)]);
    notified(&mut platform, 0x8004_0000, 0x8004_1000, 0x8004_2000);
    let steps = moved(&mut platform, MANY);
    let shown = Step::DevRead {
        dev: 0,
        off: 0x70,
        size: 4,
    };
    let answered = Step::Load {
        addr: 0x8005_0010,
        size: 1,
    };
    let shown = value(&mut platform, shown);
    Ok((steps, shown, value(&mut platform, answered)))
}

// How many images are accepted; None if one of them has another end than expected.
fn accepted(alloc: Global, image: &[u8], driven: &[Driven]) -> Result<Option<usize>, Fail> {
    let mut accepted: usize = 0;
    for at in 0..image.len() {
        let replaced = with_byte(alloc, image, at, 0xff)?;
        if judge(&replaced).is_ok() {
            if ending_of(driven, accepted) != Some(ending(alloc, &replaced)?) {
                return Ok(None);
            }
            accepted = accepted.saturating_add(1);
        }
    }
    Ok(Some(accepted))
}

#[test]
fn accepted_images_are_driven(rt: HostRuntime) -> Result<(), Fail> {
    let image = assemble(rt.alloc(), REQUEST)?;
    assert_eq!(rt; accepted(rt.alloc(), &image, DRIVEN)?, Some(87));
    Ok(())
}
