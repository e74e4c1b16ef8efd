//! What a block device asks of the IOMMU.

ghost use Rattle.std.specs.Prelude.{◌≡◌, ◌+◌, ◌++◌, ◌∷◌, [], ◌≤◌, codes, length};
ghost use Rattle.iom_blk.specs.Phases.{asks};
ghost use Rattle.iom_blk.specs.Wants.{wanted};
ghost use Rattle.iom_items.specs.Lines.{operand};
ghost use Rattle.iom_explain.specs.Accesses.{asks_by, asks_text, phase_text};

use crate::text::{put_decimal, put_operand};
use iom_blk::{Blk, Phase, Want};
use iom_core::{Platform, Step};
use iom_debug::{OutputPage, put};

// Appends what an access of a block device is for.
#[tactic(auto, unfolding(crate::specs::Accesses::phase_text))]
fn put_phase(out: &mut OutputPage, phase: Phase)
    requires { length out.old.items ≤ 100 }
    ensures text { out.new.items ≡ out.old.items ++ phase_text phase }
    ensures room { length out.new.items ≤ length out.old.items + 40 }
{
    match phase {
        Phase::Index => put(out, b"available index"),
        Phase::Ring => put(out, b"available ring"),
        Phase::Descriptor(index) => put_decimal(out, b"descriptor ", u64::from(index)),
        Phase::Header => put(out, b"header"),
        Phase::Data(_) => put(out, b"data"),
        Phase::Status => put(out, b"status"),
        Phase::UsedId => put(out, b"used id"),
        Phase::UsedLen => put(out, b"used length"),
        Phase::UsedIdx => put(out, b"used index"),
    }
}

// Appends an access for a phase as a line: its kind after a comma, its device id, its IOVA and how many bytes it has.
fn put_ask(out: &mut OutputPage, phase: Phase, kind: &[u8], did: u32, iova: u64, len: u64)
    requires kind { length kind.now ≤ 10 }
    requires room { length out.old.items ≡ 0 }
    ensures text { out.new.items ≡ out.old.items ++ (codes "    asks: " ++ phase_text phase ++ (kind.now ++ operand (codes "did") did
        ++ operand (codes "iova") iova ++ operand (codes "len") len) ++ 10 ∷ []) }
    ensures room { length out.new.items ≤ 200 }
{
    put(out, b"    asks: ");
    put_phase(out, phase);
    put(out, kind);
    put_operand(out, b"did", u64::from(did));
    put_operand(out, b"iova", iova);
    put_operand(out, b"len", len);
    put(out, b"\n");
}

// Appends what a device asks for in a phase, if it does.
fn put_want(out: &mut OutputPage, phase: Phase, did: u32, want: &Want)
    requires { length out.old.items ≡ 0 }
    ensures text { out.new.items ≡ out.old.items ++ asks_by did phase (wanted want.now) }
    ensures room { length out.new.items ≤ 200 }
{
    match want {
        Want::Nothing => {}
        Want::Read { iova, len } => put_ask(out, phase, b", read", did, *iova, *len),
        Want::Write { iova, bytes } => {
            put_ask(out, phase, b", write", did, *iova, bytes.len() as u64);
        }
    }
}

// Appends what a device asks for.
fn put_device(out: &mut OutputPage, did: u32, device: &Blk)
    requires { length out.old.items ≡ 0 }
    ensures text { out.new.items ≡ out.old.items ++ asks_by did device.now.phase (asks device.now) }
    ensures room { length out.new.items ≤ 200 }
{
    put_want(out, device.phase(), did, &device.want());
}

/// Appends what the block device of a step asks of the IOMMU as a line; nothing of any other step, or if it makes no access.
#[tactic(auto, unfolding(crate::specs::Accesses::asks_text))]
pub fn put_asks(out: &mut OutputPage, platform: &Platform, step: &Step)
    requires { length out.old.items ≡ 0 }
    ensures text { out.new.items ≡ out.old.items ++ asks_text platform.now step.now }
    ensures room { length out.new.items ≤ 200 }
{
    if let Step::Device { dev } = step
        && let Some((did, device)) = platform.block_device(*dev as usize)
    {
        put_device(out, *did, device);
    }
}
