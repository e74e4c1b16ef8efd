//! The table of forms: what a line may be. A test compares it with help, man page, README and completions.

use crate::language::Language;
use Action::*;
use Form::*;
use Language::*;
use Part::*;
use iom_bits::Kind;
use iom_items::Item;
use iom_regs::{Busy, Which};

/// A part of a form: a word as it stands, or an operand.
#[derive(Clone, Copy)]
pub enum Part {
    /// This word.
    Word(&'static [u8]),
    /// A number below 2^64.
    Number,
    /// A register of the IOMMU, by its name: its offset and its size.
    Register,
    /// A register of a block device, by its name: its offset and 4.
    BlockRegister,
    /// 1 to 64 bytes in hex.
    Data,
    /// All words that are left: an item, which is 1 to 8 words of 8 bytes.
    Item,
}

/// A step of the step table.
#[derive(Clone, Copy)]
pub enum Action {
    /// `Step::Load`.
    Load,
    /// `Step::Store`.
    Store,
    /// `Step::RegRead`.
    RegRead,
    /// `Step::RegWrite`.
    RegWrite,
    /// `Step::Command`.
    Command,
    /// `Step::Settle`, of this register.
    Settle(Busy),
    /// `Step::DmaRead`.
    DmaRead,
    /// `Step::DmaWrite`.
    DmaWrite,
    /// `Step::Translate`, of an access of this kind.
    Translate(Kind),
    /// `Step::DevRead`.
    DevRead,
    /// `Step::DevWrite`.
    DevWrite,
    /// `Step::Device`.
    DevStep,
}

/// What a form makes of its operands.
#[derive(Clone, Copy)]
pub enum Form {
    /// A step.
    Does(Action),
    /// A step on a register that is named.
    Named(Action),
    /// An item of memory.
    Show(Item),
    /// A place of the context cache.
    PlaceContext,
    /// A place of the translation cache.
    PlacePage,
    /// A step of the trace.
    Trace,
    /// A message that is kept.
    Message,
    /// Whether an access is stale.
    Stale(Kind),
    /// Whether a place of the context cache is stale.
    StaleContext,
    /// Whether a place of the translation cache is stale.
    StalePage,
    /// A part of the walk of an access.
    Walk(Kind),
    /// The line that filled a place of the context cache.
    OriginContext,
    /// The lines that filled a place of the translation cache.
    OriginPage,
    /// Why a step of the trace went as it did.
    Why,
    /// A queue.
    Queue(Which),
    /// The interrupt lines.
    Vectors,
    /// Bytes of memory.
    Dump,
    /// Bytes of a disk.
    Disk,
    /// A block device.
    DevShow,
    /// The steps of a block device.
    DevRun,
    /// The steps of the command unit.
    CmdRun,
    /// The words of an item, stored.
    Put,
    /// What is owed.
    Owed,
    /// Which held entries name a byte of some memory.
    Free,
    /// What an IOMMU may read ahead.
    Ahead,
}

/// A row of the table: the scripts that may use it, what it says, and its words and operands.
#[derive(Clone, Copy)]
pub struct Row(pub Language, pub Form, pub &'static [Part]);

/// The table.
#[rattlefmt::skip]
pub const ROWS: [Row; 51] = [
    Row(Run, Does(Load), &[Word(b"load"), Number, Number]),
    Row(Run, Does(Store), &[Word(b"store"), Number, Number, Number]),
    Row(Run, Does(RegRead), &[Word(b"reg"), Word(b"read"), Number, Number]),
    Row(Run, Does(RegWrite), &[Word(b"reg"), Word(b"write"), Number, Number, Number]),
    Row(Run, Does(DmaRead), &[Word(b"dma"), Word(b"read"), Number, Number, Number]),
    Row(Run, Does(DmaWrite), &[Word(b"dma"), Word(b"write"), Number, Number, Data]),
    Row(Run, Does(Command), &[Word(b"cmd")]),
    Row(Run, Does(Settle(Busy::Directory)), &[Word(b"settle"), Word(b"ddtp")]),
    Row(Run, Does(Settle(Busy::Commands)), &[Word(b"settle"), Word(b"cq")]),
    Row(Run, Does(Settle(Busy::Faults)), &[Word(b"settle"), Word(b"fq")]),
    Row(Run, Does(DevRead), &[Word(b"dev"), Word(b"read"), Number, Number, Number]),
    Row(Run, Does(DevWrite), &[Word(b"dev"), Word(b"write"), Number, Number, Number, Number]),
    Row(Run, Does(DevStep), &[Word(b"dev"), Word(b"step"), Number]),
    Row(Run, Show(Item::Cmd), &[Word(b"show"), Word(b"cmd"), Number]),
    Row(Run, Show(Item::Fault), &[Word(b"show"), Word(b"fault"), Number]),
    Row(Run, Show(Item::Context), &[Word(b"show"), Word(b"context"), Number]),
    Row(Run, Show(Item::Dir), &[Word(b"show"), Word(b"dir"), Number]),
    Row(Run, Show(Item::Pte), &[Word(b"show"), Word(b"pte"), Number]),
    Row(Run, Show(Item::Msi), &[Word(b"show"), Word(b"msi"), Number]),
    Row(Run, Show(Item::Word), &[Word(b"show"), Word(b"u64"), Number]),
    Row(Run, PlaceContext, &[Word(b"place"), Word(b"context"), Number]),
    Row(Run, PlacePage, &[Word(b"place"), Word(b"page"), Number]),
    Row(Run, Trace, &[Word(b"trace"), Number]),
    Row(Run, Message, &[Word(b"message"), Number]),
    Row(Debug, Named(RegRead), &[Word(b"reg"), Word(b"read"), Register]),
    Row(Debug, Named(RegWrite), &[Word(b"reg"), Word(b"write"), Register, Number]),
    Row(Debug, Named(DevRead), &[Word(b"dev"), Word(b"read"), Number, BlockRegister]),
    Row(Debug, Named(DevWrite), &[Word(b"dev"), Word(b"write"), Number, BlockRegister, Number]),
    Row(Debug, Does(Translate(Kind::Read)), &[Word(b"translate"), Word(b"read"), Number, Number]),
    Row(Debug, Does(Translate(Kind::Write)), &[Word(b"translate"), Word(b"write"), Number, Number]),
    Row(Debug, Queue(Which::Commands), &[Word(b"queue"), Word(b"cmd")]),
    Row(Debug, Queue(Which::Faults), &[Word(b"queue"), Word(b"fault")]),
    Row(Debug, Vectors, &[Word(b"vectors")]),
    Row(Debug, Dump, &[Word(b"dump"), Number, Number]),
    Row(Debug, Disk, &[Word(b"disk"), Number, Number, Number]),
    Row(Debug, DevShow, &[Word(b"dev"), Word(b"show"), Number]),
    Row(Debug, DevRun, &[Word(b"dev"), Word(b"run"), Number, Number]),
    Row(Debug, CmdRun, &[Word(b"cmd"), Word(b"run"), Number]),
    Row(Debug, Put, &[Word(b"put"), Number, Item]),
    Row(Debug, Stale(Kind::Read), &[Word(b"stale"), Word(b"read"), Number, Number]),
    Row(Debug, Stale(Kind::Write), &[Word(b"stale"), Word(b"write"), Number, Number]),
    Row(Debug, StaleContext, &[Word(b"stale"), Word(b"context"), Number]),
    Row(Debug, StalePage, &[Word(b"stale"), Word(b"page"), Number]),
    Row(Debug, Walk(Kind::Read), &[Word(b"walk"), Word(b"read"), Number, Number, Number]),
    Row(Debug, Walk(Kind::Write), &[Word(b"walk"), Word(b"write"), Number, Number, Number]),
    Row(Debug, OriginContext, &[Word(b"origin"), Word(b"context"), Number]),
    Row(Debug, OriginPage, &[Word(b"origin"), Word(b"page"), Number]),
    Row(Debug, Why, &[Word(b"why"), Number]),
    Row(Debug, Owed, &[Word(b"owed")]),
    Row(Debug, Free, &[Word(b"free"), Number, Number]),
    Row(Debug, Ahead, &[Word(b"ahead"), Number, Number, Number]),
];
