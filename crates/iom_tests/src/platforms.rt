//! Platforms before their first step, steps, and how many keys a look-up compares.

use iom_bits::Kind;
use iom_cache::Key;
use iom_core::{Platform, Step};
use iom_mem::Ram;
use std::alloc::Global;
use std::test::Fail;

/// Device 5 has a first stage, whose tables map 0x40201000 to the frame at 0x80010000, and a byte to read there.
pub const MAPPED: [(u64, u64); 6] = [
    (0x8000_10a0, 1),
    (0x8000_10b8, 0x8000_0000_0008_0002),
    (0x8000_2008, 0x2000_0c01),
    (0x8000_3008, 0x2000_1001),
    (0x8000_4008, 0x2000_40d7),
    (0x8001_0ab8, 0x11_0000_0000),
];

/// A memory with these words at these addresses.
pub fn memory(alloc: Global, words: &[(u64, u64)]) -> Result<Ram, Fail> {
    let mut ram = Ram::new(alloc, 0x8000_0000, 0x10_0000)?;
    for (addr, word) in words {
        let _is_inside = ram.write(*addr, &word.to_le_bytes());
    }
    Ok(ram)
}

/// The hart's write of `size` bytes to the IOMMU's registers.
pub fn written(off: u64, size: u64, value: u64) -> Step {
    Step::RegWrite { off, size, value }
}

/// The hart's store of 8 bytes at a physical address.
pub fn stored(addr: u64, value: u64) -> Step {
    Step::Store {
        addr,
        size: 8,
        value,
    }
}

/// A read of one byte by device 5, at an IOVA.
pub fn read(iova: u64) -> Step {
    Step::DmaRead {
        did: 5,
        iova,
        len: 1,
    }
}

/// A platform with such a memory, before its first step.
pub fn started(alloc: Global, words: &[(u64, u64)]) -> Result<Platform, Fail> {
    let ram = memory(alloc, words)?;
    Ok(Platform::new(alloc, ram, Vec::new(alloc))?)
}

/// Carries out steps, and ignores their answers.
pub fn take(platform: &mut Platform, steps: &[Step]) {
    for step in steps {
        platform.step(step);
    }
}

// The page of a key of device 5, whether a look-up finds it, and how many keys that compares.
type Compared = (u64, bool, u32);

// The index of the first look-up that differs.
fn compared_otherwise(platform: &Platform, cases: &[Compared]) -> Option<usize> {
    for (i, (page, is_there, count)) in cases.iter().enumerate() {
        let key = Key {
            did: 5,
            pscid: Some(0),
            gscid: None,
            page: *page,
            kind: Kind::Read,
        };
        let (found, compared) = platform.trans().find_counted(&key);
        if found.is_some() != *is_there || compared != *count {
            return Some(i);
        }
    }
    None
}

fn read_pages(platform: &mut Platform) {
    for page in 0x4_0200..0x4_0241 {
        platform.step(&read(page * 4096));
    }
}

const COMPARED: &[Compared] = &[
    (0x4_0240, true, 1),
    (0x4_0220, true, 2),
    (0x4_0200, false, 2),
];

// After 65 page reads the first page has left the cache. A look-up compares the keys of one bucket, the newest first: those of every
// 32nd page.
#[test]
fn look_ups_compare_one_bucket(rt: HostRuntime) -> Result<(), Fail> {
    let mut platform = started(rt.alloc(), &MAPPED)?;
    let steps = [
        written(16, 8, 0x2000_0402),
        stored(0x8000_3008, 0x2000_00d7),
    ];
    take(&mut platform, &steps);
    read_pages(&mut platform);
    assert_eq!(rt; compared_otherwise(&platform, COMPARED), None);
    Ok(())
}
