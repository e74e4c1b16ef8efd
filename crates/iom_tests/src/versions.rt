//! Images of each version, byte by byte: which are refused, and what an upgrade makes of the others.

use iom_asm::{LoadFault, assemble, built_in, judge, upgrade};
use std::alloc::{AllocError, Global};
use std::test::Fail;

// A memory of a mebibyte and nothing else, with a byte more, and with a chunk of no bytes.
const ALONE: &[u8] = b"RVIOMMU1\0\0\0\x80\0\0\0\0\0\0\x10\0\0\0\0\0\0\0\0\0\0\0\0\0";

const LONGER: &[u8] = b"RVIOMMU1\0\0\0\x80\0\0\0\0\0\0\x10\0\0\0\0\0\0\0\0\0\0\0\0\0\0";

const EMPTY_CHUNK: &[u8] =
    b"RVIOMMU1\0\0\0\x80\0\0\0\0\0\0\x10\0\0\0\0\0\x01\0\0\0\0\0\0\0\0\0\0\x80\0\0\0\0\0\0\0\0";

// A page of memory, and a read-only disk of a sector that begins with 0xaa.
const READ_ONLY: &[u8] =
    b"RVIOMMU2\0\0\0\x80\0\0\0\0\0\x10\0\0\0\0\0\0\0\0\0\0\x01\0\0\0\x05\0\0\0\x01\0\0\0\x01\0\0\0\x01\0\0\0\xaa";

// The page with a writable disk, in version 1 and in version 2.
const WRITABLE: &[u8] =
    b"RVIOMMU1\0\0\0\x80\0\0\0\0\0\x10\0\0\0\0\0\0\0\0\0\0\x01\0\0\0\x05\0\0\0\x01\0\0\0\x01\0\0\0\xaa";

const FLAGGED: &[u8] =
    b"RVIOMMU2\0\0\0\x80\0\0\0\0\0\x10\0\0\0\0\0\0\0\0\0\0\x01\0\0\0\x05\0\0\0\x01\0\0\0\0\0\0\0\x01\0\0\0\xaa";

// The read-only disk in version 3, and both in version 4, of a machine without Svnapot.
const READ_ONLY_STATED: &[u8] =
    b"RVIOMMU3\0\0\0\0\0\0\0\x01\0\0\0\x80\0\0\0\0\0\x10\0\0\0\0\0\0\0\0\0\0\x01\0\0\0\x05\0\0\0\x01\0\0\0\x01\0\0\0\x01\0\0\0\xaa";

const READ_ONLY_UPGRADED: &[u8] =
    b"RVIOMMU4\x10\x06\x06\x10\x38\0\0\0\x01\0\0\0\0\0\0\0\0\0\0\x80\0\0\0\0\0\x10\0\0\0\0\0\0\0\0\0\0\x01\0\0\0\x05\0\0\0\x01\0\0\0\x01\0\0\0\x01\0\0\0\xaa";

const UPGRADED: &[u8] =
    b"RVIOMMU4\x10\x06\x06\x10\x38\0\0\0\x01\0\0\0\0\0\0\0\0\0\0\x80\0\0\0\0\0\x10\0\0\0\0\0\0\0\0\0\0\x01\0\0\0\x05\0\0\0\x01\0\0\0\0\0\0\0\x01\0\0\0\xaa";

// A page of memory: with only Svnapot, with each capability, and, with a read-only disk, with NL.
const SVNAPOT: &[u8] =
    b"RVIOMMU3\0\0\0\0\0\0\0\0\0\0\0\x80\0\0\0\0\0\x10\0\0\0\0\0\0\0\0\0\0\0\0\0\0";

const ALL: &[u8] =
    b"RVIOMMU3\0\x88\x08\0\0\x0c\0\x04\0\0\0\x80\0\0\0\0\0\x10\0\0\0\0\0\0\0\0\0\0\0\0\0\0";

const WITH_DISK: &[u8] =
    b"RVIOMMU3\0\0\0\0\0\x04\0\0\0\0\0\x80\0\0\0\0\0\x10\0\0\0\0\0\0\0\0\0\0\x01\0\0\0\x05\0\0\0\x01\0\0\0\x01\0\0\0\x01\0\0\0\xaa";

// With each capability in version 4, without delays and with them.
const ALL_UPGRADED: &[u8] =
    b"RVIOMMU4\x10\x8e\x0e\x10\x38\x0c\0\0\x04\0\0\0\0\0\0\0\0\0\0\x80\0\0\0\0\0\x10\0\0\0\0\0\0\0\0\0\0\0\0\0\0";

const DELAYS: &[u8] =
    b"RVIOMMU4\x10\x8e\x0e\x10\x38\x0c\0\0\x0c\0\0\0\0\0\0\0\0\0\0\x80\0\0\0\0\0\x10\0\0\0\0\0\0\0\0\0\0\0\0\0\0";

// A page of memory with a read-only disk, and the page below it as its window.
const WINDOW: &[u8] =
    b"RVIOMMU4\x10\x06\x06\x10\x38\0\0\0\x01\x01\0\0\0\0\0\0\0\xf0\xff\x7f\0\0\0\0\0\x10\0\0\0\0\0\0\0\0\0\x80\0\0\0\0\0\x10\0\0\0\0\0\0\0\0\0\0\x01\0\0\0\x05\0\0\0\x01\0\0\0\x01\0\0\0\x01\0\0\0\xaa";

/// Why bytes are no image: the magic, their end, the memory, a chunk or a device.
pub const MAGIC: Option<LoadFault> = Some(LoadFault::BadMagic);

/// They end too soon.
pub const CUT: Option<LoadFault> = Some(LoadFault::Truncated);

/// The memory.
pub const RAM: Option<LoadFault> = Some(LoadFault::BadRam);

/// A chunk.
pub const CHUNK: Option<LoadFault> = Some(LoadFault::BadChunk);

/// A device.
pub const DEVICE: Option<LoadFault> = Some(LoadFault::BadDevice);

const BAD: Option<LoadFault> = Some(LoadFault::BadCapabilities);

const OTHER_WINDOW: Option<LoadFault> = Some(LoadFault::BadWindow);

// Images, and why they are refused; None if they aren't.
const JUDGED: &[(&[u8], Option<LoadFault>)] = &[
    (ALONE, None),
    (LONGER, Some(LoadFault::Trailing)),
    (EMPTY_CHUNK, CHUNK),
    (READ_ONLY, None),
    (FLAGGED, None),
    (READ_ONLY_STATED, None),
    (READ_ONLY_UPGRADED, None),
    (UPGRADED, None),
    (SVNAPOT, None),
    (ALL, None),
    (WITH_DISK, None),
    (ALL_UPGRADED, None),
    (DELAYS, None),
    (WINDOW, None),
    // The flags 3 are judged once they are complete, before the length.
    (
        b"RVIOMMU2\0\0\0\x80\0\0\0\0\0\x10\0\0\0\0\0\0\0\0\0\0\x01\0\0\0\x05\0\0\0\x01\0\0\0\x03\0\0",
        CUT,
    ),
    (
        b"RVIOMMU2\0\0\0\x80\0\0\0\0\0\x10\0\0\0\0\0\0\0\0\0\0\x01\0\0\0\x05\0\0\0\x01\0\0\0\x03\0\0\0",
        DEVICE,
    ),
    // The word of capabilities is judged once it is complete, before the memory.
    (b"RVIOMMU3\0\0\0\0\0\0\xff", CUT),
    (b"RVIOMMU3\0\0\0\0\0\0\0\xff", BAD),
    // So are the two words of version 4.
    (
        b"RVIOMMU4\xff\xff\xff\xff\xff\xff\xff\xff\0\0\0\0\0\0\xff",
        CUT,
    ),
    (b"RVIOMMU4\x10\x06\x06\x10\x38\0\0\0\0\0\0\0\0\0\0\xff", BAD),
    // A window's size is judged once it is complete, before the memory.
    (
        b"RVIOMMU4\x10\x06\x06\x10\x38\0\0\0\x01\x01\0\0\0\0\0\0\0\0\0\0\0\0\0\0\0\0\0\0\0\0\0",
        CUT,
    ),
    (
        b"RVIOMMU4\x10\x06\x06\x10\x38\0\0\0\x01\x01\0\0\0\0\0\0\0\0\0\0\0\0\0\0\0\0\0\0\0\0\0\0",
        OTHER_WINDOW,
    ),
    // One that meets the memory is judged after the memory, and before how many disks there are.
    (
        b"RVIOMMU4\x10\x06\x06\x10\x38\0\0\0\x01\x01\0\0\0\0\0\0\0\0\0\x80\0\0\0\0\0\x10\0\0\0\0\0\0\0\0\0\x80\0\0\0\0\0\x10\0\0\0\0\0\0\0\0\0\0\x09\0\0\0",
        OTHER_WINDOW,
    ),
    (
        b"RVIOMMU4\x10\x06\x06\x10\x38\0\0\0\x01\x01\0\0\0\0\0\0\0\0\0\x80\0\0\0\0\0\x10\0\0\0\0\0\0\0\0\0\x80\0\0\0\0\x01\x10\0\0\0\0\0\0\0\0\0\0\x09\0\0\0",
        RAM,
    ),
    (b"", CUT),
    (b"RVIOMMU0", MAGIC),
];

// Images, an index, another byte for it, and why the result is refused.
const CHANGED: &[(&[u8], usize, u8, Option<LoadFault>)] = &[
    (ALONE, 0, 0x53, MAGIC),
    (ALONE, 16, 1, RAM),
    (ALONE, 28, 9, DEVICE),
    (READ_ONLY, 40, 2, DEVICE),
    (READ_ONLY, 40, 3, DEVICE),
    (READ_ONLY, 40, 0, None),
    (READ_ONLY, 43, 0x80, DEVICE),
    (READ_ONLY, 7, b'1', Some(LoadFault::Trailing)),
    (READ_ONLY, 7, b'3', BAD),
    (READ_ONLY, 7, b'4', BAD),
    (READ_ONLY, 7, b'5', MAGIC),
    (WRITABLE, 7, b'2', CUT),
    // Each byte of the word with its highest bit that states nothing, IGS 1 and 2, delays, and both bits of vectors.
    (SVNAPOT, 8, 0x80, BAD),
    (SVNAPOT, 9, 0x40, BAD),
    (SVNAPOT, 10, 0x80, BAD),
    (SVNAPOT, 11, 0x80, BAD),
    (SVNAPOT, 11, 0x10, BAD),
    (SVNAPOT, 11, 0x20, BAD),
    (SVNAPOT, 12, 0x80, BAD),
    (SVNAPOT, 13, 0x80, BAD),
    (SVNAPOT, 14, 0x80, BAD),
    (SVNAPOT, 15, 0x80, BAD),
    (SVNAPOT, 15, 0x08, BAD),
    (SVNAPOT, 15, 0x06, BAD),
    (SVNAPOT, 15, 0x02, None),
    (SVNAPOT, 15, 0x01, None),
    (SVNAPOT, 7, b'2', RAM),
    // Register capabilities of another version, with Sv32, without Sv39, with IGS 3, with a narrower PAS, and with bits that it doesn't
    // have here.
    (DELAYS, 8, 0x11, BAD),
    (DELAYS, 9, 0x8f, BAD),
    (DELAYS, 9, 0x8c, BAD),
    (DELAYS, 11, 0x30, BAD),
    (DELAYS, 11, 0x50, BAD),
    (DELAYS, 12, 0x37, BAD),
    (DELAYS, 13, 0x8c, BAD),
    (DELAYS, 14, 0x80, BAD),
    (DELAYS, 15, 0x08, BAD),
    (DELAYS, 15, 0x80, BAD),
    // Other features.
    (DELAYS, 9, 0x06, None),
    (DELAYS, 11, 0x00, None),
    (DELAYS, 11, 0x20, None),
    (DELAYS, 13, 0x04, None),
    (DELAYS, 16, 0x00, None),
    (DELAYS, 16, 0x01, None),
    (DELAYS, 16, 0x0a, None),
    // Both bits of vectors, a bit that states nothing, a window in the place of memory, and choices of ten bits and of 64.
    (DELAYS, 16, 0x06, BAD),
    (DELAYS, 16, 0x80, BAD),
    (DELAYS, 17, 0x01, CUT),
    (DELAYS, 17, 0x02, BAD),
    (DELAYS, 23, 0x80, BAD),
    (DELAYS, 7, b'3', BAD),
    // Windows of a page more, with the memory's; of other pages; and of one above 2^56.
    (WINDOW, 33, 0x20, OTHER_WINDOW),
    (WINDOW, 25, 0xe0, None),
    (WINDOW, 27, 0x80, None),
    (WINDOW, 30, 0xff, None),
    (WINDOW, 31, 0x01, OTHER_WINDOW),
    // Of a base and a size that are no pages, and of size 0.
    (WINDOW, 24, 0x01, OTHER_WINDOW),
    (WINDOW, 32, 0x01, OTHER_WINDOW),
    (WINDOW, 33, 0x00, OTHER_WINDOW),
    // Other memory: below the window, and none; nine disks; and without the window its words are a memory's, and a chunk is empty.
    (WINDOW, 43, 0x7f, None),
    (WINDOW, 40, 0x01, RAM),
    (WINDOW, 60, 0x09, DEVICE),
    (WINDOW, 17, 0x00, CHUNK),
];

/// An image with another byte at an index.
pub fn with_byte(alloc: Global, image: &[u8], at: usize, byte: u8) -> Result<Vec<u8>, AllocError> {
    let mut other = Vec::from_slice(alloc, image)?;
    if let Some(place) = other.get_mut(at) {
        *place = byte;
    }
    Ok(other)
}

// The index of the first image with another verdict.
fn otherwise_judged(images: &[(&[u8], Option<LoadFault>)]) -> Option<usize> {
    for (i, (image, want)) in images.iter().enumerate() {
        if judge(image).err() != *want {
            return Some(i);
        }
    }
    None
}

// The index of the first change with another verdict.
fn otherwise_changed(
    alloc: Global,
    changes: &[(&[u8], usize, u8, Option<LoadFault>)],
) -> Result<Option<usize>, AllocError> {
    for (i, (image, at, byte, want)) in changes.iter().enumerate() {
        if judge(&with_byte(alloc, image, *at, *byte)?).err() != *want {
            return Ok(Some(i));
        }
    }
    Ok(None)
}

/// The length of the first proper prefix of an image that isn't refused as cut off.
pub fn not_cut(image: &[u8]) -> Option<usize> {
    for count in 0..image.len() {
        if judge(&image[..count]).err() != CUT {
            return Some(count);
        }
    }
    None
}

#[test]
fn images_are_judged(rt: HostRuntime) -> Result<(), Fail> {
    assert_eq!(rt; otherwise_judged(JUDGED), None);
    assert_eq!(rt; otherwise_changed(rt.alloc(), CHANGED)?, None);
    for image in [ALONE, READ_ONLY, WITH_DISK, UPGRADED, WINDOW] {
        assert_eq!(rt; not_cut(image), None);
    }
    Ok(())
}

// Images, and their upgrades to version 4.
const UPGRADES: &[(&[u8], &[u8])] = &[
    (READ_ONLY, READ_ONLY_UPGRADED),
    (WRITABLE, UPGRADED),
    (FLAGGED, UPGRADED),
    (READ_ONLY_STATED, READ_ONLY_UPGRADED),
    (UPGRADED, UPGRADED),
    (READ_ONLY_UPGRADED, READ_ONLY_UPGRADED),
    (ALL, ALL_UPGRADED),
    (DELAYS, DELAYS),
    (WINDOW, WINDOW),
    // Without a disk only the first bytes differ.
    (
        ALONE,
        b"RVIOMMU4\x10\x06\x06\x10\x38\0\0\0\x01\0\0\0\0\0\0\0\0\0\0\x80\0\0\0\0\0\0\x10\0\0\0\0\0\0\0\0\0\0\0\0\0",
    ),
];

fn is_upgraded(alloc: Global, image: &[u8], want: &[u8]) -> bool {
    match upgrade(alloc, image) {
        Ok(new) => new.as_slice() == want,
        Err(_) => false,
    }
}

// The index of the first image with another upgrade.
fn otherwise_upgraded(alloc: Global, upgrades: &[(&[u8], &[u8])]) -> Option<usize> {
    for (i, (image, want)) in upgrades.iter().enumerate() {
        if !is_upgraded(alloc, image, want) {
            return Some(i);
        }
    }
    None
}

// One of version 4 stays as it is, with chunks, disks of both kinds and capabilities too.
#[test]
fn images_are_upgraded(rt: HostRuntime) -> Result<(), Fail> {
    let alloc = rt.alloc();
    let image = assemble(
        alloc,
        b"ram 0x80000000 0x1000\nbytes 0102\nat 0x80000ffe\nbytes 03\ndisk 5 1 aa\nrodisk 6 2\ncapabilities nl=1 delays=1\n",
    )?;
    assert_eq!(rt; otherwise_upgraded(alloc, UPGRADES), None);
    assert!(rt; is_upgraded(alloc, &image, &image));
    assert!(rt; upgrade(alloc, b"RVIOMMU5").err() == MAGIC);
    assert!(rt; upgrade(alloc, b"RVIOMMU4").err() == CUT);
    assert!(rt; upgrade(alloc, b"RVIOMMU").err() == CUT);
    assert!(rt; built_in().as_slice() == ALONE);
    Ok(())
}
