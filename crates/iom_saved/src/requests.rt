//! A request as far as it was read.

ghost use Rattle.std.specs.Prelude.{ℕ, ◌≡◌, ◌<◌, ◌++◌, ◌∷◌, List, [], length, get_or, OnOk, IfSome, IsSome, IsSomeAnd};
ghost use Rattle.iom_blk.specs.Device.{Device};
ghost use Rattle.iom_saved.specs.Devices.{own_request_words};
ghost use Rattle.iom_saved.specs.Kept.{IsHeader, IsRequest, IsRequestOf, IsUnderWay};
ghost use Rattle.iom_saved.specs.Histories.{number_words};
ghost use Rattle.iom_saved.specs.Requests.{request_words};

use crate::parts::{put_chain, take_chain};
use crate::words::SavedWords;
use arrayvec::ArrayVec;
use iom_blk::BlockRequest;
use std::alloc::AllocError;

/// Appends the words of a request. The fault is a refused allocation.
pub fn put_request(out: &mut Vec<u64>, request: &BlockRequest) -> Result<(), AllocError>
    ensures words { OnOk result (out.new.items ≡ out.old.items ++ request_words request.now) }
    ensures kept { OnOk result (IsRequest request.now) }
{
    put_chain(out, &request.chain)?;
    put_header(out, request.header.as_slice())?;
    out.extend_from_slice(&[
        u64::from(request.head),
        u64::from(request.answer),
        u64::from(request.used_length),
    ])
}

/// The request that the next words are; None if they are none.
pub fn take_request(words: &mut SavedWords<'_>) -> Option<BlockRequest>
    ensures words { IfSome result (λ request. words.old ≡ request_words request ++ words.new) }
    ensures taken { (d : Device) (rest : List ℕ) → words.old ≡ own_request_words d ++ rest → IsUnderWay d →
        IsSomeAnd result (λ taken. IsRequestOf d taken × (words.new ≡ rest)) }
{
    let chain = take_chain(words)?;
    let header = take_header(words)?;
    let head = words.next_u16()?;
    let answer = words.next_u8()?;
    let used_length = words.next_u32()?;
    Some(BlockRequest {
        head,
        chain,
        header,
        answer,
        used_length,
    })
}

// Appends how many bytes there are, and a word for each.
fn put_header(out: &mut Vec<u64>, header: &[u8]) -> Result<(), AllocError>
    ensures words { OnOk result (out.new.items ≡ out.old.items ++ number_words header.now) }
    ensures small { OnOk result ((i : ℕ) → get_or header.now i 0 < 256) }
{
    out.push(header.len() as u64)?;
    for byte in header {
        out.push(u64::from(*byte))?;
    }
    Ok(())
}

fn take_header(words: &mut SavedWords<'_>) -> Option<ArrayVec<u8, 16>>
    ensures words { IfSome result (λ header. words.old ≡ number_words header.items ++ words.new) }
    ensures taken { (bytes rest : List ℕ) → words.old ≡ number_words bytes ++ rest → IsHeader bytes →
        IsSomeAnd result (λ taken. (taken.items ≡ bytes) × (words.new ≡ rest)) }
{
    let list = words.list()?;
    let header = header_of(list)?;
    Some(header)
}

// The bytes that words are, at most 16.
fn header_of(words: &[u64]) -> Option<ArrayVec<u8, 16>>
    ensures bytes { IfSome result (λ header. header.items ≡ words.now) }
    ensures taken { IsHeader words.now → IsSome result }
{
    let mut header: ArrayVec<u8, 16> = ArrayVec::new();
    for word in words {
        if *word > 0xff || header.try_push(*word as u8).is_err() {
            return None;
        }
    }
    Some(header)
}
