ghost use Rattle.std.specs.Prelude.{◌≡◌};
ghost use Rattle.std.specs.Bool.{OnTrue, OnFalse};
ghost use Rattle.iom_bits.specs.Bytes.{bytes_of_number};
ghost use Rattle.iom_mem.specs.Memory.{ReplacesBytes};
ghost use Rattle.iom_regs.specs.Table.{with_pending};
ghost use Rattle.iom_queue.specs.Records.{RecordFits};
ghost use Rattle.iom_queue.specs.Delivery.{is_stopped, is_full, record_addr, record_bytes, delivered, is_stored, KeepsOtherRegisters};

use crate::record::{Record, encode_record};
use iom_mem::WritableRegion;
use iom_regs::{Regs, Which};

// How many bytes a record has.
const RECORD_SIZE: u64 = 32;

/// Puts a record at the tail of the fault queue (RISC-V IOMMU Architecture 1.0, "Fault/Event-Queue (FQ)"): 32 bytes at physical address
/// fqb.PPN * 4096 + fqt * 32. It is lost if the queue is off or stopped by fqmf or fqof, if it is full, which sets fqof, and if the
/// record's place isn't in memory, which sets fqmf.
#[tactic(auto, unfolding(crate::specs::Delivery::delivered, crate::specs::Delivery::is_stored))]
pub fn deliver<M: WritableRegion>(registers: &mut Regs, ram: &mut M, fault: &Record)
    requires { RecordFits fault.now }
    ensures registers { registers.new ≡ (delivered registers.old (M.memory ram.old) fault.now).registers }
    ensures memory { M.memory ram.new ≡ (delivered registers.old (M.memory ram.old) fault.now).memory }

    // What stays the same.
    ensures borrow { M.name ram.new ≡ M.name ram.old }
    ensures stopped { OnTrue (is_stopped registers.old) (registers.new ≡ registers.old) }
    ensures other_registers { KeepsOtherRegisters registers.old registers.new }
    ensures replaces { OnTrue (is_stored registers.old (M.memory ram.old))
        (ReplacesBytes (M.memory ram.old) (record_addr registers.old) (record_bytes fault.now) (M.memory ram.new)) }
    ensures unchanged { OnFalse (is_stored registers.old (M.memory ram.old)) (M.memory ram.new ≡ M.memory ram.old) }
{
    if is_stopped(registers) {
        return;
    }
    if is_full(registers) {
        registers.set_fqof();
    } else if ram.write(record_addr(registers), &record_bytes(fault)) {
        registers.pass_record();
    } else {
        registers.set_fqmf();
    }
}

// Whether the queue takes no records.
fn is_stopped(registers: &Regs) -> bool
    ensures value { result ≡ is_stopped registers.now }
    ensures settled { with_pending registers.now ≡ registers.now }
{
    let errors = registers.fault_errors();
    !registers.queue(Which::Faults).on || errors.memory_fault || errors.overflow
}

// Whether the entry after the tail is the head.
fn is_full(registers: &Regs) -> bool
    ensures { result ≡ is_full registers.now }
{
    let queue = registers.queue(Which::Faults);
    (queue.tail + 1) % queue.entries == queue.head
}

// The physical address of the entry at the tail.
fn record_addr(registers: &Regs) -> u64
    ensures { result ≡ record_addr registers.now }
{
    let queue = registers.queue(Which::Faults);
    queue.base * 4096 + queue.tail * RECORD_SIZE
}

// The bytes of a record, the lowest of each word first.
#[tactic(auto, unfolding(crate::specs::Delivery::record_bytes))]
fn record_bytes(fault: &Record) -> [u8; 32]
    requires { RecordFits fault.now }
    ensures { result ≡ record_bytes fault.now }
{
    let [first, second, iotval, iotval2] = encode_record(fault);
    let mut bytes = [0; 32];
    bytes[..8].copy_from_slice(&word_bytes(first));
    bytes[8..16].copy_from_slice(&word_bytes(second));
    bytes[16..24].copy_from_slice(&word_bytes(iotval));
    bytes[24..].copy_from_slice(&word_bytes(iotval2));
    bytes
}

fn word_bytes(word: u64) -> [u8; 8]
    ensures { result ≡ bytes_of_number 8 word }
{
    word.to_le_bytes()
}
