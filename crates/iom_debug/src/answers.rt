//! The answers to questions.

ghost use Rattle.iom_tool.specs.Room.{answer_room};
ghost use Rattle.std.specs.Prelude.{◌≡◌, ◌+◌, ◌++◌, ◌≤◌, ◌<◌, ◌^◌, length, slice_get};
ghost use Rattle.std.specs.Option.{option_map};
ghost use Rattle.hex.specs.Hex.{encode_lower};
ghost use Rattle.iom_mem.specs.Memory.{bytes_at};
ghost use Rattle.iom_blk.specs.Wants.{wanted};
ghost use Rattle.iom_debug.specs.Answers.{IsInquired, is_owed};
ghost use Rattle.iom_debug.specs.Owing.{NamesOwed};
ghost use Rattle.iom_tool.specs.Parsed.{InRange};
ghost use Rattle.iom_debug.specs.Texts.{ask_text, blk_text, broken_text, bytes_text, detail_text, device_text, disk_text, part_of, phase_text, queue_text, reason_text, stop_text, vectors_text, view_text, with_line};

use crate::freeing::free_line;
use crate::marks::Marks;
use crate::owing::{LineAnswer, owed_line};
use crate::reason::{context_origin_line, page_origin_line, why_line};
use crate::reasons::LineAccount;
use crate::standings::{context_standing_line, page_standing_line};
use crate::text::{push_bytes, push_hexadecimal, push_number, push_operand, push_text, reply_of};
use crate::walks::walk_line;
use crate::ways::stale_line;
use iom_bits::flag;
use iom_blk::{Blk, Broken, Phase, Want};
use iom_core::Platform;
use iom_mem::Ram;
use iom_regs::{Queue, Regs, Which};
use iom_tool::{Inquiry, Reply};
use iom_virtq::ChainFault;

/// The answer to a question, in which lines are named as they stand. Nothing is changed.
pub fn answer_to(
    platform: &Platform,
    reasons: &LineAccount,
    marks: &Marks,
    inquiry: &Inquiry,
) -> LineAnswer
    requires { InRange inquiry.now }
    ensures told { IsInquired marks.now platform.now reasons.now inquiry.now result.text.items }
    ensures named { NamesOwed (is_owed inquiry.now) marks.now reasons.now.last_invalidation reasons.now.settling platform.now result.text.items
        result.first_owed }
{
    let text = match *inquiry {
        Inquiry::Stale(request) => stale_line(platform, &request),
        Inquiry::StaleContext(i) => context_standing_line(platform, i),
        Inquiry::StalePage(i) => page_standing_line(platform, i),
        Inquiry::Why(i) => why_line(reasons.reason(i)),
        Inquiry::ContextOrigin(i) => context_origin_line(reasons.history(), i),
        Inquiry::PageOrigin(i) => page_origin_line(reasons.history(), i),
        Inquiry::Walk(request, i) => walk_line(platform, &request, i),
        Inquiry::Queue(which) => queue_line(platform.registers(), which),
        Inquiry::Vectors => vectors_line(platform.registers()),
        Inquiry::Dump(addr, count) => memory_line(platform.ram(), addr, count),
        Inquiry::Disk(dev, at, count) => disk_line(platform, dev, at, count),
        Inquiry::Device(dev) => device_line(platform, dev),
        Inquiry::Owed => return owed_line(platform, reasons, marks),
        Inquiry::Free(addr, len) => free_line(reasons, marks, addr, len),
        Inquiry::Ahead(..) => reply_of(b"ok"),
    };
    LineAnswer::plain(text)
}

// At most 64 bytes in hex.
fn bytes_line(bytes: &[u8]) -> Reply
    requires { length bytes.now ≤ 64 }
    ensures { result.items ≡ encode_lower bytes.now }
{
    let mut out = Reply::new();
    push_bytes(&mut out, bytes);
    out
}

// Appends a queue by its registers.
#[tactic(auto, unfolding(crate::specs::Texts::view_text))]
fn push_view(out: &mut Reply, queue: &Queue)
    requires room { length out.old.items ≡ 0 }
    requires base { queue.now.base < 2 ^ 44 }
    ensures text { out.new.items ≡ out.old.items ++ view_text queue.now }
    ensures room { length out.new.items ≤ 128 }
{
    push_text(out, b"on=");
    push_hexadecimal(out, flag(queue.on));
    push_operand(out, b"base", 4096 * queue.base);
    push_operand(out, b"entries", queue.entries);
    push_operand(out, b"head", queue.head);
    push_operand(out, b"tail", queue.tail);
}

// What stopped a queue, by its control and status register.
#[tactic(auto, unfolding(crate::specs::Texts::stop_text))]
fn stop_text(registers: &Regs, which: Which) -> &'static [u8]
    ensures text { result.now ≡ stop_text registers.now which }
    ensures short { length result.now ≤ 7 }
{
    match which {
        Which::Commands => {
            let errors = registers.command_errors();
            if errors.illegal {
                b"illegal"
            } else if errors.memory_fault {
                b"fault"
            } else {
                b"none"
            }
        }
        Which::Faults => {
            let errors = registers.fault_errors();
            if errors.overflow {
                b"full"
            } else if errors.memory_fault {
                b"fault"
            } else {
                b"none"
            }
        }
    }
}

// A queue, and what stopped it.
#[tactic(auto, using(crate::proofs::Bounds::base_small))]
fn queue_line(registers: &Regs, which: Which) -> Reply
    ensures { result.items ≡ queue_text registers.now which }
{
    let mut out = Reply::new();
    push_view(&mut out, &registers.queue(which));
    push_text(&mut out, b" stop=");
    push_text(&mut out, stop_text(registers, which));
    out
}

// Appends an interrupt line, where it is high.
fn push_line(out: &mut Reply, registers: &Regs, vector: u64)
    requires { length out.old.items + 19 ≤ answer_room }
    ensures text { out.new.items ≡ with_line registers.now vector out.old.items }
    ensures room { length out.new.items ≤ length out.old.items + 19 }
{
    if registers.is_high(vector) {
        if !out.is_empty() {
            push_text(out, b" ");
        }
        push_hexadecimal(out, vector);
    }
}

// The interrupt lines that are high.
fn vectors_line(registers: &Regs) -> Reply
    ensures { result.items ≡ vectors_text registers.now }
{
    let mut out = Reply::new();
    push_line(&mut out, registers, 0);
    push_line(&mut out, registers, 1);
    push_line(&mut out, registers, 2);
    push_line(&mut out, registers, 3);
    if out.is_empty() {
        reply_of(b"none")
    } else {
        out
    }
}

// Bytes of memory.
fn memory_line(ram: &Ram, addr: u64, count: u64) -> Reply
    requires { count ≤ 64 }
    ensures { result.items ≡ bytes_text (bytes_at ram.now addr count) }
{
    let mut buffer = [0; 64];
    let bytes = &mut buffer[..count as usize];
    if ram.read(addr, bytes) {
        bytes_line(bytes)
    } else {
        reply_of(b"outside")
    }
}

// Bytes of a disk.
fn disk_line(platform: &Platform, dev: u64, at: u64, count: u64) -> Reply
    requires { count ≤ 64 }
    ensures { result.items ≡ disk_text (slice_get platform.now.devices dev) at count }
{
    let Some(disk) = platform.disk(dev as usize) else {
        return reply_of(b"none");
    };
    match part_of(disk, at, count) {
        Some(bytes) => bytes_line(bytes),
        None => reply_of(b"outside"),
    }
}

// So many bytes of a disk from a byte on; None where one of them is past its end.
fn part_of(disk: &[u8], at: u64, count: u64) -> Option<&[u8]>
    ensures { option_map (λ bytes. bytes.now) result ≡ part_of disk.now at count }
{
    let end = at.checked_add(count)?;
    if end > disk.len() as u64 {
        return None;
    }
    Some(&disk[at as usize..end as usize])
}

// What a block device's next access is for.
#[tactic(auto, unfolding(crate::specs::Texts::phase_text))]
fn phase_text(phase: Phase) -> &'static [u8]
    ensures text { result.now ≡ phase_text phase }
    ensures short { length result.now ≤ 10 }
{
    match phase {
        Phase::Index => b"index",
        Phase::Ring => b"ring",
        Phase::Descriptor(_) => b"descriptor",
        Phase::Header => b"header",
        Phase::Data(_) => b"data",
        Phase::Status => b"status",
        Phase::UsedId => b"used-id",
        Phase::UsedLen => b"used-len",
        Phase::UsedIdx => b"used-idx",
    }
}

// Appends what a block device asks for next.
fn push_want(out: &mut Reply, want: &Want)
    requires { length out.old.items ≤ 64 }
    ensures text { out.new.items ≡ out.old.items ++ ask_text (wanted want.now) }
    ensures room { length out.new.items ≤ length out.old.items + 64 }
{
    match want {
        Want::Nothing => push_text(out, b" next=none"),
        Want::Read { iova, len } => {
            push_text(out, b" next=read");
            push_operand(out, b"iova", *iova);
            push_operand(out, b"len", *len);
        }
        Want::Write { iova, bytes } => {
            push_text(out, b" next=write");
            push_operand(out, b"iova", *iova);
            push_operand(out, b"len", bytes.len() as u64);
        }
    }
}

// What broke a block device.
#[tactic(auto, unfolding(crate::specs::Texts::reason_text))]
fn reason_text(reason: Broken) -> &'static [u8]
    ensures text { result.now ≡ reason_text reason }
    ensures short { length result.now ≤ 23 }
{
    match reason {
        Broken::IndexAhead => b"index-ahead",
        Broken::BadHead => b"bad-head",
        Broken::Descriptor(ChainFault::Indirect) => b"indirect",
        Broken::Descriptor(ChainFault::ReadAfterWrite) => b"readable-after-writable",
        Broken::Descriptor(ChainFault::TooLong) => b"loop",
        Broken::Descriptor(ChainFault::BadNext) => b"bad-next",
        Broken::Descriptor(ChainFault::Wraps) => b"wraps",
        Broken::ShortHeader => b"short-header",
        Broken::NothingWritable => b"nothing-writable",
        Broken::Denied(_) => b"denied",
        Broken::Outside => b"bus-error",
    }
}

// Appends the cause of a denial that broke a block device, or how many descriptors came before the one that did.
#[tactic(auto, unfolding(crate::specs::Texts::detail_text))]
fn push_detail(out: &mut Reply, device: &Blk, reason: Broken)
    requires { length out.old.items ≤ 290 }
    ensures text { out.new.items ≡ out.old.items ++ detail_text device.now reason }
{
    match reason {
        Broken::Denied(cause) => push_number(out, b" ", u64::from(cause.number())),
        Broken::Descriptor(_) => {
            push_operand(out, b"after", device.descriptors_taken() as u64);
        }
        _ => {}
    }
}

// Appends what broke a block device, where it is broken.
fn push_broken(out: &mut Reply, device: &Blk)
    requires { length out.old.items ≤ 256 }
    ensures text { out.new.items ≡ out.old.items ++ broken_text device.now device.now.broken }
{
    if let Some(reason) = device.breakage() {
        push_text(out, b" broken=");
        push_text(out, reason_text(reason));
        push_detail(out, device, reason);
    }
}

// Appends what a block device does next, and what broke it.
#[tactic(auto, unfolding(crate::specs::Texts::blk_text))]
fn push_blk(out: &mut Reply, device: &Blk)
    requires { length out.old.items ≤ 32 }
    ensures text { out.new.items ≡ out.old.items ++ blk_text device.now }
{
    push_text(out, b" phase=");
    push_text(out, phase_text(device.phase()));
    push_want(out, &device.want());
    push_operand(out, b"head", u64::from(device.head()));
    push_operand(out, b"seen", u64::from(device.taken_index()));
    push_operand(out, b"used", u64::from(device.used_index()));
    push_broken(out, device);
}

// A block device, with its id.
fn device_line(platform: &Platform, dev: u64) -> Reply
    ensures { result.items ≡ device_text (slice_get platform.now.devices dev) }
{
    let Some((did, device)) = platform.block_device(dev as usize) else {
        return reply_of(b"none");
    };
    let mut out = reply_of(b"did=");
    push_hexadecimal(&mut out, u64::from(*did));
    push_blk(&mut out, device);
    out
}
