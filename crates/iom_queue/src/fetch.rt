ghost use Rattle.std.specs.Prelude.{◌≡◌, ◌+◌, ◌<◌, ◌^◌};
ghost use Rattle.iom_regs.specs.Table.{with_pending};
ghost use Rattle.iom_queue.specs.Fetching.{is_idle, is_legal, command_addr, fetch_of, IsFetch};

use crate::command::{Command, decode_command, is_offered};
use iom_mem::{Region, words_at};
use iom_regs::{Regs, Which};

// How many bytes a command has.
const COMMAND_SIZE: u64 = 16;

/// What the command unit finds (RISC-V IOMMU Architecture 1.0, "Command-Queue (CQ)").
#[derive(Clone, Copy, PartialEq)]
pub enum Fetch {
    /// There is nothing to do: the queue is off, stopped by cqmf or cmd_ill, or empty.
    Idle,
    /// A byte of the command lies outside memory.
    Fault,
    /// The words at the head stand for no command that this IOMMU offers, as its registers are.
    Illegal,
    /// The command at the head.
    Ready(Command),
}

/// The command at the head of the command queue: the 16 bytes at physical address cqb.PPN * 4096 + cqh * 16. Nothing is changed: it
/// stays at the head.
#[tactic(auto, unfolding(crate::specs::Fetching::fetch_of))]
pub fn next_command<M: Region>(registers: &Regs, ram: &M) -> Fetch
    ensures value { result ≡ fetch_of registers.now (M.memory ram.now) }
    ensures meaning { IsFetch registers.now (M.memory ram.now) result }
    ensures settled { with_pending registers.now ≡ registers.now }
{
    if is_idle(registers) {
        return Fetch::Idle;
    }
    let Some(words) = words_at(ram, command_addr(registers)) else {
        return Fetch::Fault;
    };
    match decode_command(words) {
        Some(command) if is_legal(registers, &command) => Fetch::Ready(command),
        _ => Fetch::Illegal,
    }
}

// Whether the IOMMU offers a command, as its registers are: WSI of an IOFENCE.C only where interrupts go by wire ("IOMMU Command-queue
// Fence commands").
fn is_legal(registers: &Regs, command: &Command) -> bool
    ensures { result ≡ is_legal registers.now command.now }
{
    is_offered(registers.features(), command)
        && (registers.is_wired() || !matches!(command, Command::Fence { wsi: true, .. }))
}

// Whether the command unit has nothing to do: the queue is off, stopped or empty.
fn is_idle(registers: &Regs) -> bool
    ensures value { result ≡ is_idle registers.now }
    ensures settled { with_pending registers.now ≡ registers.now }
{
    let queue = registers.queue(Which::Commands);
    let errors = registers.command_errors();
    !queue.on || errors.memory_fault || errors.illegal || queue.head == queue.tail
}

// The physical address of the command at the head.
fn command_addr(registers: &Regs) -> u64
    ensures value { result ≡ command_addr registers.now }
    ensures small { result < 2 ^ 57 }
{
    let queue = registers.queue(Which::Commands);
    queue.base * 4096 + queue.head * COMMAND_SIZE
}
