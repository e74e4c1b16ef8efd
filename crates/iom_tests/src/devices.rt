//! Copies of a platform amid a block device's request.

ghost use Rattle.std.specs.Prelude.{IfOk};
ghost use Rattle.iom_core.specs.State.{AreDevices};

use crate::platforms::{memory, take, written};
use iom_blk::Blk;
use iom_core::{Answer, Platform, Step};
use std::alloc::Global;
use std::test::Fail;

// A queue at physical addresses: a read of a sector into 0x80051000, its header at 0x80050000, its status at 0x80050010.
const BARE_READ: [(u64, u64); 10] = [
    (0x8004_0000, 0x8005_0000),
    (0x8004_0008, 0x0001_0001_0000_0008),
    (0x8004_0010, 0x8005_0008),
    (0x8004_0018, 0x0002_0001_0000_0008),
    (0x8004_0020, 0x8005_1000),
    (0x8004_0028, 0x0003_0003_0000_0200),
    (0x8004_0030, 0x8005_0010),
    (0x8004_0038, 0x0000_0002_0000_0001),
    (0x8004_1000, 0x1_0000),
    (0x8005_0010, 0xff),
];

// A driver's register writes until the queue is ready and notified, except the queue's addresses.
const BEFORE_QUEUE: [(u64, u64); 6] = [
    (0x70, 3),
    (0x24, 1),
    (0x20, 3),
    (0x70, 0xb),
    (0x30, 0),
    (0x38, 4),
];

const AFTER_QUEUE: [(u64, u64); 3] = [(0x44, 1), (0x70, 0xf), (0x50, 0)];

/// Device 5 with a disk of this size that begins with these bytes; no device for sizes other than 512 and 1024.
pub fn devices(alloc: Global, size: usize, start: &[u8]) -> Result<Vec<(u32, Blk)>, Fail>
    ensures { IfOk result (λ devices. AreDevices devices.items) }
{
    let mut devices = Vec::new(alloc);
    let mut disk = Vec::from_slice(alloc, start)?;
    disk.resize(size, 0)?;
    if matches!(disk.len(), 512 | 1024) {
        devices.push((5, Blk::new(disk)))?;
    }
    Ok(devices)
}

// The hart's write of four bytes to the first device's registers.
fn wrote(off: u64, value: u64) -> Step {
    Step::DevWrite {
        dev: 0,
        off,
        size: 4,
        value,
    }
}

/// The driver's writes, for a queue in one page or in three.
pub fn notified(platform: &mut Platform, desc: u64, avail: u64, used: u64) {
    for (off, value) in &BEFORE_QUEUE {
        platform.step(&wrote(*off, *value));
    }
    platform.step(&wrote(0x80, desc));
    platform.step(&wrote(0x90, avail));
    platform.step(&wrote(0xa0, used));
    for (off, value) in &AFTER_QUEUE {
        platform.step(&wrote(*off, *value));
    }
}

/// How many of `count` steps of the device are done before another answer.
pub fn moved(platform: &mut Platform, count: usize) -> usize {
    for n in 0..count {
        if platform.step(&Step::Device { dev: 0 }) != Answer::Done {
            return n;
        }
    }
    count
}

// The platform of a read at physical addresses, notified.
fn reading(alloc: Global) -> Result<Platform, Fail> {
    let ram = memory(alloc, &BARE_READ)?;
    let mut platform = Platform::new(alloc, ram, devices(alloc, 1024, &[0xc0, 0xff, 0xee])?)?;
    take(&mut platform, &[written(16, 8, 1)]);
    notified(&mut platform, 0x8004_0000, 0x8004_1000, 0x8004_2000);
    Ok(platform)
}

// Whether two platforms have the same bytes at the addresses that the request writes, and on the disk.
fn are_alike(one: &Platform, other: &Platform) -> bool {
    for addr in [
        0x8004_2000,
        0x8004_2008,
        0x8005_1000,
        0x8005_11f8,
        0x8005_0010,
    ] {
        if one.ram().word(addr) != other.ram().word(addr) {
            return false;
        }
    }
    one.disk(0) == other.disk(0)
}

// Whether a copy made after some steps of a request goes on as its original, and neither changes the other.
fn is_copied_after(alloc: Global, steps: usize) -> Result<bool, Fail> {
    let mut platform = reading(alloc)?;
    let before = moved(&mut platform, steps);
    let mut copy = platform.try_clone(alloc)?;
    let rest = moved(&mut platform, 23);
    Ok(
        moved(&mut copy, 23) == rest
            && before.saturating_add(rest) == 21
            && are_alike(&platform, &copy),
    )
}

#[test]
fn copy_amid_a_request(rt: HostRuntime) -> Result<(), Fail> {
    for k in 0..23 {
        assert!(rt; is_copied_after(rt.alloc(), k)?, "after {k}");
    }
    Ok(())
}
