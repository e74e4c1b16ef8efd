//! The block devices.

ghost use Rattle.std.specs.Prelude.{ℕ, ◌≡◌, ◌<◌, ◌^◌, ◌++◌, ◌∷◌, List, [], length, OnOk, IfErr, IfOk, IfSome, IsSomeAnd, MatchResult};
ghost use Rattle.iom_mem.specs.Words.{bytes_of_words};
ghost use Rattle.iom_blk.specs.Device.{Device};
ghost use Rattle.iom_blk.specs.Parts.{device_of};
ghost use Rattle.iom_saved.specs.Bytes.{words_of_bytes};
ghost use Rattle.iom_saved.specs.Devices.{device_words, front_words, progress_words};
ghost use Rattle.iom_saved.specs.Kept.{IsDevice, IsPhase, IsRequest, IsRequestOf, IsUnderWay};
ghost use Rattle.iom_saved.specs.Whole.{IsWhole};
ghost use Rattle.iom_saved.specs.declared.words.SavedFault.TheVariants as fault;
ghost use Rattle.iom_saved.specs.Requests.{broken_words, phase_words, request_words};

use crate::byte_words::{bytes_of, put_bytes};
use crate::phases::{put_broken, put_phase, take_broken, take_phase};
use crate::requests::{put_request, take_request};
use crate::words::{SavedFault, SavedWords};
use iom_bits::flag;
use iom_blk::{Blk, BlkParts, BlockRequest, Broken, Phase};
use std::alloc::{AllocError, Global};

/// Appends the words of a device: its registers, its request, and its disk. The fault is a refused allocation.
pub fn put_device(out: &mut Vec<u64>, device: &Blk) -> Result<(), AllocError>
    ensures words { OnOk result (out.new.items ≡ out.old.items ++ device_words device.now) }
    ensures whole { OnOk result (IsWhole device.now.disk) }
    ensures kept { OnOk result (IsDevice device.now) }
{
    let parts = device.parts();
    put_front(out, &parts)?;
    put_progress(out, &parts)?;
    put_disk(out, device)
}

fn put_disk(out: &mut Vec<u64>, device: &Blk) -> Result<(), AllocError>
    ensures words { OnOk result (out.new.items ≡ out.old.items ++ words_of_bytes device.now.disk) }
    ensures whole { OnOk result (IsWhole device.now.disk) }
{
    let disk = device.disk();
    put_bytes(out, disk)?;
    Ok(())
}

/// The device that the next words are.
pub fn take_device(alloc: Global, words: &mut SavedWords<'_>) -> Result<Blk, SavedFault>
    ensures words { IfOk result (λ device. words.old ≡ device_words device ++ words.new) }
    ensures whole { IfOk result (λ device. IsWhole device.disk) }
    ensures taken { (d : Device) (rest : List ℕ) → words.old ≡ device_words d ++ rest → IsDevice d →
        MatchResult result (λ taken. (taken ≡ d) × (words.new ≡ rest)) (λ why. why ≡ fault.OutOfMemory) }
{
    let Some(parts) = take_parts(words) else {
        return Err(SavedFault::Bad);
    };
    let disk = take_disk(alloc, words)?;
    let Some(device) = Blk::of_parts(disk, parts) else {
        return Err(SavedFault::Bad);
    };
    Ok(device)
}

fn put_front(out: &mut Vec<u64>, parts: &BlkParts) -> Result<(), AllocError>
    ensures words { OnOk result (out.new.items ≡ out.old.items ++ front_words (device_of [] parts.now)) }
    ensures seen { OnOk result (parts.now.seen < 2 ^ 16) }
    ensures used { OnOk result (parts.now.used < 2 ^ 16) }
{
    out.extend_from_slice(&[
        parts.features_sel,
        parts.driver_sel,
        parts.features,
        parts.queue_sel,
        parts.interrupts,
        parts.status,
        parts.size,
        parts.desc,
        parts.avail,
        parts.used_ring,
        u64::from(parts.seen),
        u64::from(parts.used),
        flag(parts.read_only),
        flag(parts.ready),
        flag(parts.pending),
    ])
}

fn put_progress(out: &mut Vec<u64>, parts: &BlkParts) -> Result<(), AllocError>
    ensures words { OnOk result (out.new.items ≡ out.old.items ++ progress_words (device_of [] parts.now)) }
    ensures phase { OnOk result (IsPhase parts.now.phase) }
    ensures request { OnOk result (IsRequest parts.now.request) }
{
    put_broken(out, parts.broken)?;
    put_phase(out, parts.phase)?;
    put_request(out, &parts.request)
}

// What the driver wrote but for the queue.
#[derive(Clone, Copy)]
struct Driver {
    features_sel: u64,
    driver_sel: u64,
    features: u64,
    queue_sel: u64,
    interrupts: u64,
    status: u64,
}

// The queue, and how many requests were taken and given back.
#[derive(Clone, Copy)]
struct Queue {
    size: u64,
    desc: u64,
    avail: u64,
    used_ring: u64,
    seen: u16,
    used: u16,
}

// Why the device broke, the next access, and the request.
#[derive(Drop)]
struct Progress {
    broken: Option<Broken>,
    phase: Phase,
    request: BlockRequest,
}

fn take_parts(words: &mut SavedWords<'_>) -> Option<BlkParts>
    ensures words { IfSome result (λ parts. words.old
        ≡ (front_words (device_of [] parts) ++ progress_words (device_of [] parts)) ++ words.new) }
    ensures taken { (d : Device) (rest : List ℕ) → words.old ≡ (front_words d ++ progress_words d) ++ rest → IsUnderWay d →
        IsSomeAnd result (λ parts. (device_of d.disk parts ≡ d) × (words.new ≡ rest)) }
{
    let driver = take_driver(words)?;
    let queue = take_queue(words)?;
    let (read_only, ready) = words.flags()?;
    let pending = words.flag()?;
    let progress = take_progress(words)?;
    let Progress {
        broken,
        phase,
        request,
    } = progress;
    Some(BlkParts {
        read_only,
        features_sel: driver.features_sel,
        driver_sel: driver.driver_sel,
        features: driver.features,
        queue_sel: driver.queue_sel,
        size: queue.size,
        desc: queue.desc,
        avail: queue.avail,
        used_ring: queue.used_ring,
        ready,
        interrupts: driver.interrupts,
        status: driver.status,
        broken,
        pending,
        seen: queue.seen,
        used: queue.used,
        phase,
        request,
    })
}

fn take_driver(words: &mut SavedWords<'_>) -> Option<Driver>
    ensures words { IfSome result (λ d. words.old
        ≡ d.features_sel ∷ d.driver_sel ∷ d.features ∷ d.queue_sel ∷ d.interrupts ∷ d.status ∷ words.new) }
    ensures taken { (a b c d e f : ℕ) (rest : List ℕ) → words.old ≡ a ∷ b ∷ c ∷ d ∷ e ∷ f ∷ rest →
        IsSomeAnd result (λ taken. (taken ≡ record { features_sel = a; driver_sel = b; features = c; queue_sel = d; interrupts = e; status = f })
        × (words.new ≡ rest)) }
{
    let (features_sel, driver_sel, features, queue_sel) = words.four()?;
    let (interrupts, status) = words.two()?;
    Some(Driver {
        features_sel,
        driver_sel,
        features,
        queue_sel,
        interrupts,
        status,
    })
}

fn take_queue(words: &mut SavedWords<'_>) -> Option<Queue>
    ensures words { IfSome result (λ q. words.old ≡ q.size ∷ q.desc ∷ q.avail ∷ q.used_ring ∷ q.seen ∷ q.used ∷ words.new) }
    ensures taken { (a b c d e f : ℕ) (rest : List ℕ) → words.old ≡ a ∷ b ∷ c ∷ d ∷ e ∷ f ∷ rest → e < 2 ^ 16 → f < 2 ^ 16 →
        IsSomeAnd result (λ taken. (taken ≡ record { size = a; desc = b; avail = c; used_ring = d; seen = e; used = f })
        × (words.new ≡ rest)) }
{
    let (size, desc, avail, used_ring) = words.four()?;
    let seen = words.next_u16()?;
    let used = words.next_u16()?;
    Some(Queue {
        size,
        desc,
        avail,
        used_ring,
        seen,
        used,
    })
}

fn take_progress(words: &mut SavedWords<'_>) -> Option<Progress>
    ensures words { IfSome result (λ p. words.old
        ≡ (broken_words p.broken ++ (phase_words p.phase ++ request_words p.request)) ++ words.new) }
    ensures taken { (d : Device) (rest : List ℕ) → words.old ≡ progress_words d ++ rest → IsUnderWay d →
        IsSomeAnd result (λ taken. (taken.broken ≡ d.broken) × (taken.phase ≡ d.phase) × IsRequestOf d taken.request × (words.new ≡ rest)) }
{
    let broken = take_broken(words)?;
    let phase = take_phase(words)?;
    let request = take_request(words)?;
    Some(Progress {
        broken,
        phase,
        request,
    })
}

fn take_disk(alloc: Global, words: &mut SavedWords<'_>) -> Result<Vec<u8>, SavedFault>
    ensures words { IfOk result (λ disk. words.old ≡ words_of_bytes disk.items ++ words.new) }
    ensures whole { IfOk result (λ disk. IsWhole disk.items) }
    ensures taken { (disk rest : List ℕ) → words.old ≡ words_of_bytes disk ++ rest → IsWhole disk →
        MatchResult result (λ taken. (taken.items ≡ disk) × (words.new ≡ rest)) (λ why. why ≡ fault.OutOfMemory) }
{
    let Some(list) = words.list() else {
        return Err(SavedFault::Bad);
    };
    let disk = disk_of(alloc, list)?;
    Ok(disk)
}

// The disk of these words.
fn disk_of(alloc: Global, words: &[u64]) -> Result<Vec<u8>, SavedFault>
    ensures words { IfOk result (λ disk. words_of_bytes disk.items ≡ length words.now ∷ words.now) }
    ensures whole { IfOk result (λ disk. IsWhole disk.items) }
    ensures bytes { IfOk result (λ disk. disk.items ≡ bytes_of_words words.now) }
    ensures memory { IfErr result (λ why. why ≡ fault.OutOfMemory) }
{
    let disk = bytes_of(alloc, words)?;
    Ok(disk)
}
