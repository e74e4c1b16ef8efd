//! What a statement does to what the statements before make.

ghost use Rattle.std.specs.Prelude.{◌≡◌, ◌+◌, ◌<◌, ◌≤◌, ◌^◌, ◌==◌, length, false, Some, None, IfOk, if◌then◌else◌};
ghost use Rattle.std.specs.List.{list_any};
ghost use Rattle.iom_image.specs.Image.{IsImage, is_next_disk};
ghost use Rattle.iom_image.specs.Own.{disk_seen};
ghost use Rattle.iom_asm.specs.Assembly.{empty_draft, may_offer, offering, with_disk, with_window, is_inside, is_next_window, meets, placed, Makes};
ghost use Rattle.iom_items.specs.Forms.{where_so};
ghost use Rattle.iom_asm.specs.Drafts.{draft_seen};

use crate::asm_fault::AsmFault;
use crate::draft::ImageDraft;
use iom_bits::{Features, MSI_FLAT};
use iom_image::{OwnDisk, OwnImage, Version};
use iom_mem::covers;
use iom_messages::Window;
use std::alloc::{AllocError, Global};
use std::collections::BTreeMap;

impl ImageDraft {
    /// What the statement `ram` makes: memory of this base, a physical address, and this size in bytes, of which nothing is placed.
    pub fn new(alloc: Global, base: u64, size: u64) -> ImageDraft
        ensures { draft_seen result ≡ empty_draft base size }
    {
        ImageDraft {
            image: OwnImage {
                version: Version::First,
                base,
                size,
                chunks: BTreeMap::new(alloc),
                disks: Vec::new(alloc),
            },
            next_address: base,
        }
    }

    // Whether `len` bytes at the place are memory.
    fn is_inside(&self, len: u64) -> bool
        requires { self.now.image.base + self.now.image.size ≤ 2 ^ 56 }
        ensures { result ≡ is_inside (draft_seen self.now).image self.now.next_address len }
    {
        let end = self.image.base + self.image.size;
        covers(self.image.base, end, self.next_address, len)
    }

    // Whether one of `len` bytes at the place is placed already: only the last chunk that begins before their end may have one.
    fn is_taken(&self, len: u64) -> bool
        requires good { IsImage (draft_seen self.now).image }
        requires fits { self.now.next_address + len ≤ 2 ^ 56 }
        ensures { result ≡ list_any (meets self.now.next_address len) (draft_seen self.now).image.chunks }
    {
        match self
            .image
            .chunks
            .range(..self.next_address + len)
            .next_back()
        {
            Some((addr, bytes)) => self.next_address < *addr + bytes.len() as u64,
            None => false,
        }
    }

    /// Places bytes, one or more, of line `line` at the place, and moves the place past them. `Outside` if one of them isn't in memory,
    /// then `Overlap` if one is placed already; `OutOfMemory` comes last.
    #[tactic(auto, unfolding(crate::specs::Assembly::placed))]
    pub fn put(&mut self, line: u64, bytes: Vec<u8>) -> Result<(), AsmFault>
        requires good { IsImage (draft_seen self.old).image }
        requires some { 0 < length bytes.items }
        ensures { Makes (λ _. draft_seen self.new) result (placed line (draft_seen self.old) bytes.items) }
    {
        let len = bytes.len() as u64;
        if !self.is_inside(len) {
            return Err(AsmFault::Outside(line));
        }
        if self.is_taken(len) {
            return Err(AsmFault::Overlap(line));
        }
        self.image.chunks.insert(self.next_address, bytes)?;
        self.next_address += len;
        Ok(())
    }

    /// States the features of the machine, by the lowest version that can, and answers true; false if they may not stand there: they are
    /// stated already, or they have MSI_FLAT and something is placed.
    pub fn offer(&mut self, features: Features) -> bool
        ensures { (if result then Some (draft_seen self.new) else None) ≡ where_so (may_offer (draft_seen self.old).image features) (Some (offering (draft_seen self.old) features)) }
    {
        if self.image.version.features().word() != Features::none().word() {
            return false;
        }
        if features.has(MSI_FLAT) && !self.image.chunks.is_empty() {
            return false;
        }
        self.image.version = Version::stating(features, self.image.version.window());
        true
    }

    /// States the window, by version 4, and answers true; false if it may not stand there: one is stated already, it isn't of whole pages
    /// that end at or below 2^56, or a byte of it is memory.
    pub fn open_window(&mut self, window: Window) -> bool
        ensures { (if result then Some (draft_seen self.new) else None) ≡ where_so (is_next_window (draft_seen self.old).image window) (Some (with_window (draft_seen self.old) window)) }
    {
        if self.image.version.window().is_some() || !self.image.has_room_for(window) {
            return false;
        }
        self.image.version = Version::stating(self.image.version.features(), Some(window));
        true
    }

    /// Puts a disk after the others, and answers true; false if it may not follow them: there are eight, its id is another's or 2^24 or
    /// above, its sectors aren't 1 to 65,536, or its bytes don't fit in them. The fault is a refused allocation.
    pub fn join(&mut self, disk: OwnDisk) -> Result<bool, AllocError>
        ensures { IfOk result (λ takes. (if takes then Some (draft_seen self.new) else None)
            ≡ where_so (is_next_disk (draft_seen self.old).image.disks (disk_seen disk)) (Some (with_disk (draft_seen self.old) (disk_seen disk)))) }
    {
        if !self.image.takes(&disk) {
            return Ok(false);
        }
        let read_only = disk.read_only;
        match self.image.disks.push(disk) {
            Ok(()) => {
                self.image.version = self.image.version.flagged(read_only);
                Ok(true)
            }
            Err(_) => Err(AllocError),
        }
    }
}
