ghost use Rattle.std.specs.Prelude.{◌≡◌, ◌<◌, true};
ghost use Rattle.iom_bits.specs.Features.{has_messages};
ghost use Rattle.iom_queue.specs.Records.{RecordFits};
ghost use Rattle.iom_regs.specs.Interrupts.{vector_in};
ghost use Rattle.iom_signals.specs.Signals.{bit_of, bytes_of, let_go, outside, raised, refusal, rises, sent, signalled, signalled_by};

use iom_bits::has_bit;
use iom_mem::WritableRegion;
use iom_messages::Messages;
use iom_queue::{Record, deliver};
use iom_regs::{MsiVector, Regs, Which};

/// What is noted before a step, so that after it the interrupts that it raised can be told ("Interrupt pending status register (ipsr)").
#[derive(Clone, Copy)]
pub struct Noted {
    /// The vector whose owed message the step lets go, by a write that clears M of msi_vec_ctl.
    pub freed: Option<u64>,
    /// The pending interrupts, ipsr, without those that the step clears by a write of ipsr.
    pub before: u64,
}

/// Signals the interrupts that a step raised, where they are messages: each is written to msi_addr of its vector, to memory or into the window
/// beside it, and a masked vector owes it. One that can't be written leaves a fault record of cause 273, which may raise the fault queue's
/// interrupt. Then at most one more follows ("MSI configuration table (msi_cfg_tbl)").
#[inline(always)]
#[tactic(auto, unfolding(crate::specs::Signals::signalled))]
pub fn signal<M: WritableRegion>(
    registers: &mut Regs,
    ram: &mut M,
    messages: &mut Messages,
    noted: Noted,
)
    ensures signalled { outside registers.new (M.memory ram.new) messages.new
        ≡ signalled noted (outside registers.old (M.memory ram.old) messages.old) }
    ensures borrow { M.name ram.new ≡ M.name ram.old }
{
    if registers.features().has_messages() {
        raise_all(registers, ram, messages, noted);
    }
}

// Signals the interrupts that a step raised, of an IOMMU that has messages.
#[inline(never)]
#[tactic(auto, unfolding(crate::specs::Signals::signalled))]
fn raise_all<M: WritableRegion>(
    registers: &mut Regs,
    ram: &mut M,
    messages: &mut Messages,
    noted: Noted,
)
    requires { has_messages registers.old.features ≡ true }
    ensures signalled { outside registers.new (M.memory ram.new) messages.new
        ≡ signalled noted (outside registers.old (M.memory ram.old) messages.old) }
    ensures borrow { M.name ram.new ≡ M.name ram.old }
{
    match noted.freed {
        Some(x) => let_go(registers, ram, messages, x),
        None => raise(registers, ram, messages, noted.before, Which::Commands),
    }
    raise(registers, ram, messages, noted.before, Which::Faults);
}

// Sends the message that vector `x` owed, if there is one of this number.
fn let_go<M: WritableRegion>(registers: &mut Regs, ram: &mut M, messages: &mut Messages, x: u64)
    ensures sent { outside registers.new (M.memory ram.new) messages.new
        ≡ let_go (vector_in registers.old x) (outside registers.old (M.memory ram.old) messages.old) }
    ensures borrow { M.name ram.new ≡ M.name ram.old }
{
    if let Some(vector) = registers.vector(x) {
        send(registers, ram, messages, vector);
    }
}

// Signals a queue's interrupt, if it rose.
fn raise<M: WritableRegion>(
    registers: &mut Regs,
    ram: &mut M,
    messages: &mut Messages,
    before: u64,
    queue: Which,
)
    ensures raised { outside registers.new (M.memory ram.new) messages.new
        ≡ raised before queue (outside registers.old (M.memory ram.old) messages.old) }
    ensures borrow { M.name ram.new ≡ M.name ram.old }
{
    if !rises(registers, before, bit_of(queue)) {
        return;
    }
    let x = registers.vector_of(queue);
    match registers.vector(x) {
        None => {}
        Some(vector) if vector.masked => registers.owe(x),
        Some(vector) => send(registers, ram, messages, vector),
    }
}

// The bit of a queue's interrupt in ipsr: cip or fip.
fn bit_of(queue: Which) -> u32
    ensures bit { result ≡ bit_of queue }
    ensures small { result < 2 }
{
    match queue {
        Which::Commands => 0,
        Which::Faults => 1,
    }
}

// Whether an interrupt is pending that wasn't before, and is a message.
fn rises(registers: &Regs, before: u64, bit: u32) -> bool
    requires { bit < 2 }
    ensures { result ≡ rises before bit registers.now }
{
    !registers.is_wired() && has_bit(registers.pending(), bit) && !has_bit(before, bit)
}

// Writes the message of a vector; where it can't be written, a record says so.
fn send<M: WritableRegion>(
    registers: &mut Regs,
    ram: &mut M,
    messages: &mut Messages,
    vector: MsiVector,
)
    ensures sent { outside registers.new (M.memory ram.new) messages.new
        ≡ sent vector (outside registers.old (M.memory ram.old) messages.old) }
    ensures borrow { M.name ram.new ≡ M.name ram.old }
{
    if !messages.put(ram, vector.addr, &value_bytes(vector)) {
        deliver(registers, ram, &refusal(vector.addr));
    }
}

// The bytes of a vector's message, the lowest first.
fn value_bytes(vector: MsiVector) -> [u8; 4]
    ensures { result ≡ bytes_of vector }
{
    vector.value.to_le_bytes()
}

// The record of a message that can't be written at a physical address: TTYP 0, for no device's transaction ("Fault record").
fn refusal(addr: u64) -> Record
    ensures record { result ≡ refusal addr }
    ensures fits { RecordFits result }
{
    Record {
        cause: REFUSED,
        pid: 0,
        pv: false,
        privileged: false,
        ttyp: 0,
        did: 0,
        iotval: addr,
        iotval2: 0,
    }
}

// The cause of a message that was refused.
const REFUSED: u16 = 273;
