//! The chain of a request.

ghost use Rattle.std.specs.Prelude.{ℕ, ◌≡◌, ◌++◌, ◌∷◌, List, [], length, OnOk, IfSome, IsSome, IsSomeAnd};
ghost use Rattle.std.specs.List.{AllByRecursion, flat_map};
ghost use Rattle.std.specs.Option.{OnSome};
ghost use Rattle.iom_saved.specs.Kept.{IsChain, IsPart};
ghost use Rattle.iom_saved.specs.Requests.{chain_words, part_words, side_word};
ghost use Rattle.iom_virtq.specs.Chains.{DescriptorChain};
ghost use Rattle.iom_virtq.specs.declared.parts.ChainPart.{ChainPart as ThePart};
ghost use Rattle.iom_virtq.specs.declared.parts.Side.{Side as TheSide};

use crate::words::SavedWords;
use iom_virtq::{Chain, ChainPart, Side};
use std::alloc::AllocError;

/// Appends the words of a chain. The fault is a refused allocation.
pub fn put_chain(out: &mut Vec<u64>, chain: &Chain) -> Result<(), AllocError>
    ensures words { OnOk result (out.new.items ≡ out.old.items ++ chain_words chain.now) }
    ensures kept { OnOk result (IsChain chain.now) }
{
    let parts = chain.parts();
    out.extend_from_slice(&[u64::from(chain.limit()), parts.len() as u64])?;
    put_parts(out, parts)
}

fn put_parts(out: &mut Vec<u64>, parts: &[ChainPart]) -> Result<(), AllocError>
    ensures words { OnOk result (out.new.items ≡ out.old.items ++ flat_map part_words parts.now) }
    ensures fit { OnOk result (AllByRecursion IsPart parts.now) }
{
    for part in parts {
        put_part(out, part)?;
    }
    Ok(())
}

fn put_part(out: &mut Vec<u64>, part: &ChainPart) -> Result<(), AllocError>
    ensures words { OnOk result (out.new.items ≡ out.old.items ++ part_words part.now) }
    ensures fits { OnOk result (IsPart part.now) }
{
    out.extend_from_slice(&[side_word(part.side), part.addr, u64::from(part.len)])
}

/// The chain that the next words are; None if they are none.
pub fn take_chain(words: &mut SavedWords<'_>) -> Option<Chain>
    ensures words { IfSome result (λ chain. words.old ≡ chain_words chain ++ words.new) }
    ensures taken { (chain : DescriptorChain) (rest : List ℕ) → words.old ≡ chain_words chain ++ rest → IsChain chain →
        IsSomeAnd result (λ taken. (taken ≡ chain) × (words.new ≡ rest)) }
{
    let limit = words.next_u16()?;
    let count = words.next()?;
    if count > 64 {
        return None;
    }
    let mut places = [NO_PART; 64];
    let parts = &mut places[..count as usize];
    fill_parts(words, parts)?;
    let chain = Chain::of(limit, parts)?;
    Some(chain)
}

// A part in place of none.
const NO_PART: ChainPart = ChainPart {
    side: Side::Readable,
    addr: 0,
    len: 0,
};

// Fills places with the next parts.
fn fill_parts(words: &mut SavedWords<'_>, parts: &mut [ChainPart]) -> Option<()>
    ensures words { OnSome result (words.old ≡ flat_map part_words parts.new ++ words.new) }
    ensures count { length parts.new ≡ length parts.old }
    ensures taken { (list : List ThePart) (rest : List ℕ) → words.old ≡ flat_map part_words list ++ rest → length list ≡ length parts.old →
        AllByRecursion IsPart list → IsSome result × (parts.new ≡ list) × (words.new ≡ rest) }
{
    for i in 0..parts.len() {
        parts[i] = take_part(words)?;
    }
    Some(())
}

fn take_part(words: &mut SavedWords<'_>) -> Option<ChainPart>
    ensures words { IfSome result (λ part. words.old ≡ part_words part ++ words.new) }
    ensures taken { (part : ThePart) (rest : List ℕ) → words.old ≡ part_words part ++ rest → IsPart part →
        IsSomeAnd result (λ taken. (taken ≡ part) × (words.new ≡ rest)) }
{
    let side = take_side(words)?;
    let addr = words.next()?;
    let len = words.next_u32()?;
    Some(ChainPart { side, addr, len })
}

fn side_word(side: Side) -> u64
    ensures { result ≡ side_word side }
{
    match side {
        Side::Readable => 0,
        Side::Writable => 1,
    }
}

fn take_side(words: &mut SavedWords<'_>) -> Option<Side>
    ensures words { IfSome result (λ side. words.old ≡ side_word side ∷ words.new) }
    ensures taken { (side : TheSide) (rest : List ℕ) → words.old ≡ side_word side ∷ rest →
        IsSomeAnd result (λ taken. (taken ≡ side) × (words.new ≡ rest)) }
{
    match words.next()? {
        0 => Some(Side::Readable),
        1 => Some(Side::Writable),
        _ => None,
    }
}
