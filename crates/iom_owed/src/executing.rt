//! The command that a step executes.

ghost use Rattle.std.specs.Prelude.{◌≡◌};
ghost use Rattle.iom_core.specs.Commands.{can_execute, executed_by};
ghost use Rattle.iom_core.specs.State.{in_front_of, state_on};
ghost use Rattle.iom_core.specs.Table.{executed};

use iom_core::{Board, Step};
use iom_mem::Region;
use iom_messages::Messages;
use iom_queue::{Command, Fetch, next_command};

/// The command that a step executes if it is the next one in front of this memory; None if it executes none.
#[tactic(auto, unfolding(iom_core::specs::Table::executed))]
pub fn executed<M: Region>(board: &Board, ram: &M, step: &Step) -> Option<Command>
    ensures { result ≡ executed (state_on (M.memory ram.now) board.now) step.now }
{
    match step {
        Step::Command => executed_by(board, ram),
        _ => None,
    }
}

// The command that the command unit executes next.
#[tactic(auto, unfolding(iom_core::specs::Commands::executed_by))]
fn executed_by<M: Region>(board: &Board, ram: &M) -> Option<Command>
    ensures { result ≡ executed_by (in_front_of (M.memory ram.now) board.now.iommu) board.now.messages }
{
    match next_command(board.registers(), ram) {
        Fetch::Ready(command) if can_execute(board.messages(), ram, &command) => Some(command),
        _ => None,
    }
}

// Whether a command can be executed: a fence that stores data only if its four bytes are in memory, or are a message.
fn can_execute<M: Region>(messages: &Messages, ram: &M, command: &Command) -> bool
    ensures { result ≡ can_execute (M.memory ram.now) messages.now command.now }
{
    match *command {
        Command::Fence { av: true, addr, .. } => {
            ram.read(addr, &mut [0; 4]) || messages.is_message(addr, 4)
        }
        _ => true,
    }
}
