//! Steps that carry out a command.

ghost use Rattle.std.specs.Prelude.{◌≡◌};
ghost use Rattle.iom_core.specs.Table.{executed};
ghost use Rattle.iom_debug.specs.Fences.{is_fence};

use iom_core::{Platform, Step};
use iom_owed::executed;
use iom_queue::Command;

/// The command that a step is about to carry out; None if it carries out none.
pub fn command_of_step(platform: &Platform, step: &Step) -> Option<Command>
    ensures { result ≡ executed platform.now step.now }
{
    executed(&platform.board, &platform.ram, step)
}

/// Whether the command that a step carries out, if it carries out one, is an IOFENCE.C ("IOFENCE.C").
pub fn is_fence(command: &Option<Command>) -> bool
    ensures { result ≡ is_fence command.now }
{
    matches!(command, Some(Command::Fence { .. }))
}
