//! Process contexts.

ghost use Rattle.std.specs.Prelude.{◌≡◌, ◌↔◌, ◌<◌, ◌^◌, IsSome, IfSome, IsTrue, IfOk, Ok};
ghost use Rattle.iom_bits.specs.Bits.{has_bit};
ghost use Rattle.iom_bits.specs.Features.{sv57_bit};
ghost use Rattle.iom_ddt.specs.Refusals.{has_mode};
ghost use Rattle.iom_pdt.specs.Contexts.{IsEncoding, context_in, fields_in, words_of};

use iom_bits::{Features, SV57, field, flag, has_bit};
use iom_ddt::{DirectoryWord, Refusal, has_mode};
use std::marker::Model;

/// The fields of a process context ("Process-context"). Each fits the bits that are named at it.
#[derive(Clone, Copy, PartialEq)]
pub struct ProcessFields {
    /// fsc.PPN, 44 bits: the first stage's root table, its address divided by 4096; guest-physical under a second stage, else
    /// physical.
    pub ppn: u64,
    /// ta.PSCID, 20 bits: the process's soft-context id.
    pub pscid: u32,
    /// fsc.MODE, the first stage: 0 Bare, 8 Sv39, 9 Sv48, 10 Sv57.
    pub mode: u8,
    /// ta.ENS: supervisors may use it.
    pub ens: bool,
    /// ta.SUM: a supervisor may use leaves with U = 1. Without ENS it means nothing.
    pub sum: bool,
}

/// What a process directory says of one process: fields that are well formed, as `ProcessContext::new` tests it.
#[derive(Clone, Copy, PartialEq)]
pub struct ProcessContext {
    /// Its fields.
    pub fields: ProcessFields,
}

impl Model for ProcessContext {
    ghost use Rattle.iom_pdt.specs.declared.context.ProcessFields.{ProcessFields};
    ghost use Rattle.iom_pdt.specs.Contexts.{IsWellFormed};

    ghost Value = { ProcessFields };

    ghost view = { λ context. context.fields };

    ghost inverse = { λ fields. record { fields = fields } };

    ghost invariant = { λ context. IsWellFormed context.fields };
}

impl ProcessContext {
    ghost use Rattle.iom_pdt.specs.Contexts.{IsWellFormed};

    /// The context of these fields, if they are well formed: the mode is 0, 8, 9 or 10, and each field fits its bits ("Process-context
    /// configuration checks").
    pub fn new(fields: ProcessFields) -> Option<ProcessContext>
        ensures formed { IsSome result ↔ IsWellFormed fields }
        ensures same { IfSome result (λ context. context ≡ fields) }
    {
        if fields.ppn >> 44 == 0 && fields.pscid >> 20 == 0 && has_mode(true, fields.mode as u64) {
            Some(ProcessContext { fields })
        } else {
            None
        }
    }
}

/// The context that the two words ta and fsc encode ("Process-context"), or the first reason why an IOMMU with these features refuses them:
/// `Invalid` if V is 0, whatever else the words hold, then `Reserved` and `Mode` ("Process-context configuration checks").
#[tactic(auto, unfolding(crate::specs::Contexts::context_in, iom_bits::specs::Bits::has_bit))]
pub fn context_of(features: Features, words: [u64; 2]) -> Result<ProcessContext, Refusal>
    ensures value { result ≡ context_in features words }
    ensures found { IfOk result (λ context. IsEncoding features context words) }
    ensures only { (context : ProcessFields) → IsEncoding features context words → result ≡ Ok context }
{
    let [ta, fsc] = words;
    let mode = field(fsc, 60, 4);
    if !has_bit(ta, 0) {
        Err(Refusal::Invalid)
    } else if field(ta, 3, 9) != 0 {
        Err(reserved(DirectoryWord::Ta, 11, 3))
    } else if field(ta, 32, 32) != 0 {
        Err(reserved(DirectoryWord::Ta, 63, 32))
    } else if field(fsc, 44, 16) != 0 {
        Err(reserved(DirectoryWord::Fsc, 59, 44))
    } else if !has_mode(features.has(SV57), mode) {
        Err(Refusal::Mode(mode as u8))
    } else {
        Ok(ProcessContext {
            fields: fields_in(ta, fsc),
        })
    }
}

/// The two words of a context: ta with V = 1, and fsc.
pub fn encode_context(context: &ProcessContext) -> [u64; 2]
    ensures { result ≡ words_of context.now }
{
    let fields = &context.fields;
    [
        1 + (flag(fields.ens) << 1) + (flag(fields.sum) << 2) + ((fields.pscid as u64) << 12),
        fields.ppn + ((fields.mode as u64) << 60),
    ]
}

// The fields in the words, whatever their other bits are.
fn fields_in(ta: u64, fsc: u64) -> ProcessFields
    ensures { result ≡ fields_in ta fsc }
{
    ProcessFields {
        ens: has_bit(ta, 1),
        sum: has_bit(ta, 2),
        pscid: field(ta, 12, 20) as u32,
        mode: field(fsc, 60, 4) as u8,
        ppn: field(fsc, 0, 44),
    }
}

// Bits that must be 0.
fn reserved(which: DirectoryWord, high: u8, low: u8) -> Refusal
    ensures { result ≡ Refusal.Reserved which high low }
{
    Refusal::Reserved { which, high, low }
}
