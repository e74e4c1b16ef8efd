//! The lines of `debug`, row by row of the table of forms.

use crate::pieces::{Choice, Operand, Piece};
use crate::ranges::Range;
use Choice::*;
use Piece::*;

/// The pieces of a row.
#[derive(Clone, Copy)]
pub struct Pattern(pub &'static [Piece]);

const ADDR: Piece = Number(Operand::Address, Range::Any);

const SIZE: Piece = Number(Operand::Size, Range::Any);

const VALUE: Piece = Number(Operand::Value, Range::Any);

const OFF: Piece = Number(Operand::Offset, Range::Any);

const DID: Piece = Number(Operand::DeviceId, Range::Any);

const SHORT_DID: Piece = Number(Operand::DeviceId, Range::Bits(24));

const IOVA: Piece = Number(Operand::Iova, Range::Any);

const LEN: Piece = Number(Operand::Length, Range::Any);

const COUNT: Piece = Number(Operand::Length, Range::Count);

const EXTENT: Piece = Number(Operand::Length, Range::Extent);

const N: Piece = Number(Operand::Device, Range::Any);

const BYTE: Piece = Number(Operand::Byte, Range::Any);

const I: Piece = Number(Operand::Place, Range::Any);

const MAX: Piece = Number(Operand::Most, Range::Limit);

/// The lines, in the order of the table of forms.
#[rattlefmt::skip]
pub const PATTERNS: [Pattern; 51] = [
    Pattern(&[Word(b"load"), ADDR, SIZE]),
    Pattern(&[Word(b"store"), ADDR, SIZE, VALUE]),
    Pattern(&[Word(b"reg"), Among(b"read", Access), OFF, SIZE]),
    Pattern(&[Word(b"reg"), Among(b"write", Access), OFF, SIZE, VALUE]),
    Pattern(&[Word(b"dma"), Among(b"read", Access), DID, IOVA, LEN]),
    Pattern(&[Word(b"dma"), Among(b"write", Access), DID, IOVA, Data]),
    Pattern(&[Word(b"cmd")]),
    Pattern(&[Word(b"settle"), Among(b"ddtp", Busy)]),
    Pattern(&[Word(b"settle"), Among(b"cq", Busy)]),
    Pattern(&[Word(b"settle"), Among(b"fq", Busy)]),
    Pattern(&[Word(b"dev"), Among(b"read", Device), N, OFF, SIZE]),
    Pattern(&[Word(b"dev"), Among(b"write", Device), N, OFF, SIZE, VALUE]),
    Pattern(&[Word(b"dev"), Among(b"step", Device), N]),
    Pattern(&[Word(b"show"), Among(b"cmd", Kind), ADDR]),
    Pattern(&[Word(b"show"), Among(b"fault", Kind), ADDR]),
    Pattern(&[Word(b"show"), Among(b"context", Kind), ADDR]),
    Pattern(&[Word(b"show"), Among(b"dir", Kind), ADDR]),
    Pattern(&[Word(b"show"), Among(b"pte", Kind), ADDR]),
    Pattern(&[Word(b"show"), Among(b"msi", Kind), ADDR]),
    Pattern(&[Word(b"show"), Among(b"u64", Kind), ADDR]),
    Pattern(&[Word(b"place"), Among(b"context", Cache), I]),
    Pattern(&[Word(b"place"), Among(b"page", Cache), I]),
    Pattern(&[Word(b"trace"), I]),
    Pattern(&[Word(b"message"), I]),
    Pattern(&[Word(b"reg"), Among(b"read", Access), Register]),
    Pattern(&[Word(b"reg"), Among(b"write", Access), Register, VALUE]),
    Pattern(&[Word(b"dev"), Among(b"read", Device), N, BlockRegister]),
    Pattern(&[Word(b"dev"), Among(b"write", Device), N, BlockRegister, VALUE]),
    Pattern(&[Word(b"translate"), Among(b"read", Access), DID, IOVA]),
    Pattern(&[Word(b"translate"), Among(b"write", Access), DID, IOVA]),
    Pattern(&[Word(b"queue"), Among(b"cmd", Queue)]),
    Pattern(&[Word(b"queue"), Among(b"fault", Queue)]),
    Pattern(&[Word(b"vectors")]),
    Pattern(&[Word(b"dump"), ADDR, COUNT]),
    Pattern(&[Word(b"disk"), N, BYTE, COUNT]),
    Pattern(&[Word(b"dev"), Among(b"show", Device), N]),
    Pattern(&[Word(b"dev"), Among(b"run", Device), N, MAX]),
    Pattern(&[Word(b"cmd"), Among(b"run", Run), MAX]),
    Pattern(&[Word(b"put"), ADDR, Item]),
    Pattern(&[Word(b"stale"), Among(b"read", Stale), SHORT_DID, IOVA]),
    Pattern(&[Word(b"stale"), Among(b"write", Stale), SHORT_DID, IOVA]),
    Pattern(&[Word(b"stale"), Among(b"context", Stale), I]),
    Pattern(&[Word(b"stale"), Among(b"page", Stale), I]),
    Pattern(&[Word(b"walk"), Among(b"read", Access), SHORT_DID, IOVA, I]),
    Pattern(&[Word(b"walk"), Among(b"write", Access), SHORT_DID, IOVA, I]),
    Pattern(&[Word(b"origin"), Among(b"context", Cache), I]),
    Pattern(&[Word(b"origin"), Among(b"page", Cache), I]),
    Pattern(&[Word(b"why"), I]),
    Pattern(&[Word(b"owed")]),
    Pattern(&[Word(b"free"), ADDR, LEN]),
    Pattern(&[Word(b"ahead"), SHORT_DID, IOVA, EXTENT]),
];
