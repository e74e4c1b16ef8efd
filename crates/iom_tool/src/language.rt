//! What a line of a script says.

use arrayvec::ArrayVec;
use iom_bits::Kind;
use iom_core::{Request, Step};
use iom_items::Item;
use iom_regs::Which;

/// Which rows of the table of forms a script may use.
#[derive(Clone, Copy)]
pub enum Language {
    /// Those that are marked so, which the word `run` takes.
    Run,
    /// All of them: the words `debug`, `check` and `explain` take those too that `run` answers by `bad`.
    Debug,
}

/// A question about the platform or the trace. It is no step.
#[derive(Clone, Copy)]
pub enum Question {
    /// What stands at this place of the translation cache, the IOTLB; the oldest is place 0.
    Page(u64),
    /// What stands at this place of the context cache, the DDTC; the oldest is place 0.
    Context(u64),
    /// The item at this physical address, of any alignment.
    Show(Item, u64),
    /// Which step stands at this place of the trace, and its answer; the oldest is at place 0.
    Trace(u64),
    /// Which message this one of those that are kept is; the oldest is message 0.
    Message(u64),
}

/// A question that only `debug` has, or what an IOMMU may read ahead. It is no step.
#[derive(Clone, Copy)]
pub enum Inquiry {
    /// Whether a request is stale, and what the tables say of it then.
    Stale(Request),
    /// Whether the directory says now what place I of the context cache holds, the oldest 0, and what else.
    StaleContext(u64),
    /// Whether the tables say now what place I of the translation cache holds, the oldest 0, and what else.
    StalePage(u64),
    /// The reason of step I of the trace; the oldest is 0.
    Why(u64),
    /// Which line filled place I of the context cache, the oldest 0.
    ContextOrigin(u64),
    /// Which lines filled place I of the translation cache, the oldest 0, and its context.
    PageOrigin(u64),
    /// The part of this number, from 0, of the walk of a request as the tables stand now.
    Walk(Request, u64),
    /// The state of a queue by its registers, and the reason why it stopped.
    Queue(Which),
    /// Which interrupt lines are high.
    Vectors,
    /// `Dump(addr, count)`: 1 to 64 bytes of memory at a physical address.
    Dump(u64, u64),
    /// `Disk(dev, at, count)`: 1 to 64 bytes of the disk of a block device.
    Disk(u64, u64, u64),
    /// What a block device does next.
    Device(u64),
    /// What is owed now: the requests that were made and aren't settled.
    Owed,
    /// `Free(addr, len)`: which entries that any IOMMU may hold now name a byte of this physical memory.
    Free(u64, u64),
    /// `Ahead(did, iova, len)`: an IOMMU may also read ahead, for this device, the pages of the `len` bytes from this IOVA on, those below 2^64, for reads
    /// and for writes. The device id is below 2^24, and `len` is 1 to 2^24.
    Ahead(u32, u64, u64),
}

/// Who goes on by itself.
#[derive(Clone, Copy)]
pub enum Actor {
    /// The command unit.
    Commands,
    /// This block device, counted from 0.
    Device(u64),
}

/// A line of a script.
#[derive(Drop)]
pub enum Line {
    /// It has no words.
    Blank,
    /// It is none of these.
    Bad,
    /// A step.
    Does(Step),
    /// A step on a register that is named.
    Named(Step),
    /// A question.
    Asks(Question),
    /// A question that `debug` alone has.
    Inquires(Inquiry),
    /// The step of this one, again and again while it is done: at most this number of times.
    Again(Actor, u64),
    /// Stores of these words of 8 bytes from this physical address on, while each is done.
    Put(u64, ArrayVec<u64, 8>),
}
