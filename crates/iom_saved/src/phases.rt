//! Where a request stands, and why a device broke.

ghost use Rattle.std.specs.Prelude.{ℕ, ◌≡◌, ◌++◌, ◌∷◌, List, [], Option, OnOk, IfSome, IsSomeAnd};
ghost use Rattle.iom_bits.specs.Causes.{cause_number};
ghost use Rattle.iom_bits.specs.declared.causes.Cause.{Cause as TheCause};
ghost use Rattle.iom_blk.specs.declared.broken.Broken.{Broken as TheBroken};
ghost use Rattle.iom_blk.specs.declared.phase.Phase.{Phase as ThePhase};
ghost use Rattle.iom_virtq.specs.declared.parts.ChainFault.{ChainFault as TheFault};
ghost use Rattle.iom_saved.specs.Kept.{IsPhase};
ghost use Rattle.iom_saved.specs.Requests.{broken_words, fault_word, phase_words};

use crate::words::SavedWords;
use iom_bits::{Cause, Kind};
use iom_blk::{Broken, Phase};
use iom_virtq::ChainFault;
use std::alloc::AllocError;

/// Appends the words of a phase. The fault is a refused allocation.
pub fn put_phase(out: &mut Vec<u64>, phase: Phase) -> Result<(), AllocError>
    ensures words { OnOk result (out.new.items ≡ out.old.items ++ phase_words phase) }
    ensures kept { IsPhase phase }
{
    let (number, at) = phase_numbers(phase);
    out.extend_from_slice(&[number, at])
}

fn phase_numbers(phase: Phase) -> (u64, u64)
    ensures words { phase_words phase ≡ result.0 ∷ result.1 ∷ [] }
    ensures kept { IsPhase phase }
{
    match phase {
        Phase::Index => (0, 0),
        Phase::Ring => (1, 0),
        Phase::Descriptor(at) => (2, u64::from(at)),
        Phase::Header => (3, 0),
        Phase::Data(position) => (4, position),
        Phase::Status => (5, 0),
        Phase::UsedId => (6, 0),
        Phase::UsedLen => (7, 0),
        Phase::UsedIdx => (8, 0),
    }
}

/// The phase that the next words are; None if they are none.
pub fn take_phase(words: &mut SavedWords<'_>) -> Option<Phase>
    ensures words { IfSome result (λ phase. words.old ≡ phase_words phase ++ words.new) }
    ensures taken { (phase : ThePhase) (rest : List ℕ) → words.old ≡ phase_words phase ++ rest → IsPhase phase →
        IsSomeAnd result (λ taken. (taken ≡ phase) × (words.new ≡ rest)) }
{
    let (number, at) = words.two()?;
    let phase = phase_of(number, at)?;
    Some(phase)
}

fn phase_of(number: u64, at: u64) -> Option<Phase>
    ensures words { IfSome result (λ phase. phase_words phase ≡ number ∷ at ∷ []) }
    ensures taken { (phase : ThePhase) → phase_words phase ≡ number ∷ at ∷ [] → IsPhase phase → IsSomeAnd result (λ taken. taken ≡ phase) }
{
    match (number, at) {
        (0, 0) => Some(Phase::Index),
        (1, 0) => Some(Phase::Ring),
        (2, at) if at < 65536 => Some(Phase::Descriptor(at as u16)),
        (3, 0) => Some(Phase::Header),
        (4, position) => Some(Phase::Data(position)),
        (5, 0) => Some(Phase::Status),
        (6, 0) => Some(Phase::UsedId),
        (7, 0) => Some(Phase::UsedLen),
        (8, 0) => Some(Phase::UsedIdx),
        _ => None,
    }
}

/// Appends the words of why a device broke. The fault is a refused allocation.
pub fn put_broken(out: &mut Vec<u64>, broken: Option<Broken>) -> Result<(), AllocError>
    ensures { OnOk result (out.new.items ≡ out.old.items ++ broken_words broken) }
{
    let (number, what) = broken_numbers(broken);
    out.extend_from_slice(&[number, what])
}

fn broken_numbers(broken: Option<Broken>) -> (u64, u64)
    ensures { broken_words broken ≡ result.0 ∷ result.1 ∷ [] }
{
    match broken {
        None => (0, 0),
        Some(Broken::IndexAhead) => (1, 0),
        Some(Broken::BadHead) => (2, 0),
        Some(Broken::Descriptor(fault)) => (3, fault_word(fault)),
        Some(Broken::ShortHeader) => (4, 0),
        Some(Broken::NothingWritable) => (5, 0),
        Some(Broken::Denied(cause)) => (6, u64::from(cause.number())),
        Some(Broken::Outside) => (7, 0),
    }
}

/// Why a device broke, which the next words are; None if they are nothing of that kind.
pub fn take_broken(words: &mut SavedWords<'_>) -> Option<Option<Broken>>
    ensures words { IfSome result (λ broken. words.old ≡ broken_words broken ++ words.new) }
    ensures taken { (broken : Option TheBroken) (rest : List ℕ) → words.old ≡ broken_words broken ++ rest →
        IsSomeAnd result (λ taken. (taken ≡ broken) × (words.new ≡ rest)) }
{
    let (number, what) = words.two()?;
    let broken = broken_of(number, what)?;
    Some(broken)
}

fn broken_of(number: u64, what: u64) -> Option<Option<Broken>>
    ensures words { IfSome result (λ broken. broken_words broken ≡ number ∷ what ∷ []) }
    ensures taken { (broken : Option TheBroken) → broken_words broken ≡ number ∷ what ∷ [] → IsSomeAnd result (λ taken. taken ≡ broken) }
{
    match (number, what) {
        (0, 0) => Some(None),
        (1, 0) => Some(Some(Broken::IndexAhead)),
        (2, 0) => Some(Some(Broken::BadHead)),
        (3, what) => {
            let fault = fault_of(what)?;
            Some(Some(Broken::Descriptor(fault)))
        }
        (4, 0) => Some(Some(Broken::ShortHeader)),
        (5, 0) => Some(Some(Broken::NothingWritable)),
        (6, what) => {
            let cause = cause_of(what)?;
            Some(Some(Broken::Denied(cause)))
        }
        (7, 0) => Some(Some(Broken::Outside)),
        _ => None,
    }
}

fn fault_word(fault: ChainFault) -> u64
    ensures { result ≡ fault_word fault }
{
    match fault {
        ChainFault::Indirect => 0,
        ChainFault::ReadAfterWrite => 1,
        ChainFault::TooLong => 2,
        ChainFault::BadNext => 3,
        ChainFault::Wraps => 4,
    }
}

fn fault_of(word: u64) -> Option<ChainFault>
    ensures word { IfSome result (λ fault. fault_word fault ≡ word) }
    ensures taken { (fault : TheFault) → fault_word fault ≡ word → IsSomeAnd result (λ taken. taken ≡ fault) }
{
    match word {
        0 => Some(ChainFault::Indirect),
        1 => Some(ChainFault::ReadAfterWrite),
        2 => Some(ChainFault::TooLong),
        3 => Some(ChainFault::BadNext),
        4 => Some(ChainFault::Wraps),
        _ => None,
    }
}

fn cause_of(number: u64) -> Option<Cause>
    ensures number { IfSome result (λ cause. cause_number cause ≡ number) }
    ensures taken { (cause : TheCause) → cause_number cause ≡ number → IsSomeAnd result (λ taken. taken ≡ cause) }
{
    match number {
        5 => Some(Cause::Access(Kind::Read)),
        7 => Some(Cause::Access(Kind::Write)),
        13 => Some(Cause::Page(Kind::Read)),
        15 => Some(Cause::Page(Kind::Write)),
        21 => Some(Cause::Guest(Kind::Read)),
        23 => Some(Cause::Guest(Kind::Write)),
        256 => Some(Cause::Off),
        257 => Some(Cause::DirAccess),
        258 => Some(Cause::DirInvalid),
        259 => Some(Cause::DirBad),
        260 => Some(Cause::TooWide),
        261 => Some(Cause::MsiAccess),
        262 => Some(Cause::MsiInvalid),
        263 => Some(Cause::MsiBad),
        _ => None,
    }
}
