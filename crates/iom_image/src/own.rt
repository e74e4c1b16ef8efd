//! Images that are made part by part.

ghost use Rattle.std.specs.Prelude.{◌≡◌, ◌≤◌, ◌&&◌, Some, length, map};
ghost use Rattle.iom_image.specs.Image.{is_next_disk};
ghost use Rattle.iom_image.specs.Versions.{is_beside, is_window};
ghost use Rattle.iom_image.specs.Own.{disk_seen, image_seen};

use crate::fields::{is_disk_size, is_new_id};
use crate::version::Version;
use crate::window::{is_beside, is_window};
use arrayvec::ArrayVec;
use iom_messages::Window;
use std::collections::BTreeMap;

/// A block device's disk and its first bytes.
#[derive(Drop)]
pub struct OwnDisk {
    /// The id of its device; in an image below 2^24.
    pub id: u64,
    /// How many sectors of 512 bytes it has; in an image 1 to 65,536.
    pub sectors: u64,
    /// Whether it may only be read.
    pub read_only: bool,
    /// Its first bytes; the others are 0. In an image they fit in its sectors.
    pub bytes: Vec<u8>,
}

/// An image whose parts are its own.
#[derive(Drop)]
pub struct OwnImage {
    /// Its version, of version 3 and 4 what its machine offers, and of version 4 its window.
    pub version: Version,
    /// The physical address of the first byte of memory: a multiple of 4096.
    pub base: u64,
    /// How many bytes memory has: a multiple of 4096 from 4096 to 2^26.
    pub size: u64,
    /// The bytes that stand in memory at the start, by their physical address.
    pub chunks: BTreeMap<u64, Vec<u8>>,
    /// The disks of its block devices in their order, at most 8.
    pub disks: Vec<OwnDisk>,
}

impl OwnImage {
    /// Whether a disk may follow the others: there are fewer than eight, its id is below 2^24 and none of theirs, its sectors are 1 to
    /// 65,536, and its bytes fit in them.
    pub fn takes(&self, disk: &OwnDisk) -> bool
        ensures { result ≡ is_next_disk (image_seen self.now).disks (disk_seen disk.now) }
    {
        self.disks.len() < 8
            && is_new_id(ids_of(&self.disks).as_slice(), disk.id)
            && is_disk_size(disk.sectors)
            && disk.bytes.len() as u64 <= disk.sectors * 512
    }

    /// Whether there may be such a window, with no byte in the image's memory. One that the image has already is no matter.
    pub fn has_room_for(&self, window: Window) -> bool
        ensures { result ≡ (is_window (Some window) && is_beside (Some window) self.now.base self.now.size) }
    {
        is_window(Some(window)) && is_beside(Some(window), self.base, self.size)
    }
}

// The ids of at most eight disks.
fn ids_of(disks: &[OwnDisk]) -> ArrayVec<u64, 8>
    requires { length disks.now ≤ 8 }
    ensures { result.items ≡ map (λ disk. disk.id) (map disk_seen disks.now) }
{
    let mut ids = ArrayVec::new();
    for disk in disks {
        ids.push(disk.id);
    }
    ids
}
