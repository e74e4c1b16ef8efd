//! The fast way to a step: its line is read from left to right, straight into its place.

ghost use Rattle.std.specs.Prelude.{◌≡◌, ◌∷◌, IfSome, codes, true};
ghost use Rattle.iom_text.specs.Words.{words_of};
ghost use Rattle.iom_tool.specs.Parsed.{IsStep};

use crate::operands::{four, numbers_and_data, one, three, two};
use arrayvec::ArrayVec;
use iom_core::Step;
use iom_text::{is_over, take_word};

// What follows `load`: physical address and size.
#[inline(always)]
#[tactic(auto, using(crate::proofs::Fast::load))]
fn load(text: &[u8]) -> Option<Step>
    ensures { IfSome result (IsStep (codes "load" ∷ words_of text.now)) }
{
    let (addr, size) = two(text)?;
    Some(Step::Load { addr, size })
}

// What follows `store`: physical address, size and value.
#[inline(always)]
#[tactic(auto, using(crate::proofs::Fast::store))]
fn store(text: &[u8]) -> Option<Step>
    ensures { IfSome result (IsStep (codes "store" ∷ words_of text.now)) }
{
    let (addr, size, value) = three(text)?;
    Some(Step::Store { addr, size, value })
}

// What follows `reg read`: offset and size.
#[inline(always)]
#[tactic(auto, using(crate::proofs::Fast::reg_read))]
fn reg_read(text: &[u8]) -> Option<Step>
    ensures { IfSome result (IsStep (codes "reg" ∷ codes "read" ∷ words_of text.now)) }
{
    let (off, size) = two(text)?;
    Some(Step::RegRead { off, size })
}

// What follows `reg write`: offset, size and value.
#[inline(always)]
#[tactic(auto, using(crate::proofs::Fast::reg_write))]
fn reg_write(text: &[u8]) -> Option<Step>
    ensures { IfSome result (IsStep (codes "reg" ∷ codes "write" ∷ words_of text.now)) }
{
    let (off, size, value) = three(text)?;
    Some(Step::RegWrite { off, size, value })
}

// Puts the step of a line `reg`. It is not inlined: the other forms needn't clear room for it.
#[inline(never)]
#[tactic(auto, using(crate::proofs::Fast::second))]
fn put_reg(text: &[u8], place: &mut Step) -> bool
    ensures { result ≡ true → IsStep (codes "reg" ∷ words_of text.now) place.new }
{
    let Some((way, text)) = take_word(text) else {
        return false;
    };
    match way {
        b"read" => put(reg_read(text), place),
        b"write" => put(reg_write(text), place),
        _ => false,
    }
}

// Puts the step of a line `cmd`, after which nothing follows.
#[inline(always)]
#[tactic(auto, using(crate::proofs::Fast::cmd))]
fn put_cmd(text: &[u8], place: &mut Step) -> bool
    ensures { result ≡ true → IsStep (codes "cmd" ∷ words_of text.now) place.new }
{
    if !is_over(text) {
        return false;
    }
    *place = Step::Command;
    true
}

// What follows `dma read`: device id, IOVA and length.
#[inline(always)]
#[tactic(auto, using(crate::proofs::Fast::dma_read))]
fn dma_read(text: &[u8]) -> Option<Step>
    ensures { IfSome result (IsStep (codes "dma" ∷ codes "read" ∷ words_of text.now)) }
{
    let (did, iova, len) = three(text)?;
    Some(Step::DmaRead { did, iova, len })
}

// Puts a step that a form gave. Each form does so for itself: a move of all forms' steps by one code waits for what was just
// written.
#[inline(always)]
fn put(parsed: Option<Step>, place: &mut Step) -> bool
    ensures { result ≡ true → parsed ≡ Some place.new }
{
    let Some(step) = parsed else {
        return false;
    };
    *place = step;
    true
}

// Puts the step of a line `dma write`, by what follows that: device id, IOVA and bytes, which are decoded in their place.
#[inline(never)]
#[tactic(auto, using(crate::proofs::Fast::dma_write))]
fn put_dma_write(text: &[u8], place: &mut Step) -> bool
    ensures { result ≡ true → IsStep (codes "dma" ∷ codes "write" ∷ words_of text.now) place.new }
{
    *place = Step::DmaWrite {
        did: 0,
        iova: 0,
        bytes: ArrayVec::new(),
    };
    let Step::DmaWrite { did, iova, bytes } = place else {
        unreachable!();
    };
    let Some((device, address)) = numbers_and_data(text, bytes) else {
        return false;
    };
    *did = device;
    *iova = address;
    true
}

// Puts the step of a line `dma`.
#[inline(always)]
#[tactic(auto, using(crate::proofs::Fast::second))]
fn put_dma(text: &[u8], place: &mut Step) -> bool
    ensures { result ≡ true → IsStep (codes "dma" ∷ words_of text.now) place.new }
{
    let Some((way, text)) = take_word(text) else {
        return false;
    };
    match way {
        b"read" => put(dma_read(text), place),
        b"write" => put_dma_write(text, place),
        _ => false,
    }
}

// What follows `dev read`: device, offset and size.
#[inline(always)]
#[tactic(auto, using(crate::proofs::Fast::dev_read))]
fn dev_read(text: &[u8]) -> Option<Step>
    ensures { IfSome result (IsStep (codes "dev" ∷ codes "read" ∷ words_of text.now)) }
{
    let (dev, off, size) = three(text)?;
    Some(Step::DevRead { dev, off, size })
}

// What follows `dev write`: device, offset, size and value.
#[inline(always)]
#[tactic(auto, using(crate::proofs::Fast::dev_write))]
fn dev_write(text: &[u8]) -> Option<Step>
    ensures { IfSome result (IsStep (codes "dev" ∷ codes "write" ∷ words_of text.now)) }
{
    let (dev, off, size, value) = four(text)?;
    Some(Step::DevWrite {
        dev,
        off,
        size,
        value,
    })
}

// What follows `dev step`: the device.
#[inline(always)]
#[tactic(auto, using(crate::proofs::Fast::dev_step))]
fn dev_step(text: &[u8]) -> Option<Step>
    ensures { IfSome result (IsStep (codes "dev" ∷ codes "step" ∷ words_of text.now)) }
{
    Some(Step::Device { dev: one(text)? })
}

// Puts the step of a line `dev`.
#[inline(never)]
#[tactic(auto, using(crate::proofs::Fast::second))]
fn put_dev(text: &[u8], place: &mut Step) -> bool
    ensures { result ≡ true → IsStep (codes "dev" ∷ words_of text.now) place.new }
{
    let Some((way, text)) = take_word(text) else {
        return false;
    };
    match way {
        b"read" => put(dev_read(text), place),
        b"write" => put(dev_write(text), place),
        b"step" => put(dev_step(text), place),
        _ => false,
    }
}

/// Puts the step that a line is, by its first word and what follows it, and answers whether it did. Where it did not, `place`
/// may hold anything.
#[inline(never)]
#[tactic(auto, using(crate::proofs::Fast::first))]
pub fn put_step_of(verb: &[u8], text: &[u8], place: &mut Step) -> bool
    ensures { result ≡ true → IsStep (verb.now ∷ words_of text.now) place.new }
{
    match verb {
        b"load" => put(load(text), place),
        b"store" => put(store(text), place),
        b"reg" => put_reg(text, place),
        b"cmd" => put_cmd(text, place),
        b"dma" => put_dma(text, place),
        b"dev" => put_dev(text, place),
        _ => false,
    }
}
