//! The processes of requests, and the first stage that they get.

ghost use Rattle.std.specs.Prelude.{◌≡◌};
ghost use Rattle.iom_pdt.specs.Requests.{class_in, first_of, listed_by};

use crate::context::ProcessContext;
use crate::directory::{ProcessDirectory, is_too_wide};
use iom_bits::Number;
use iom_walk::Class;

/// The process that a request names. Id 0 is one like any other.
#[derive(Clone, Copy, PartialEq)]
pub struct Process {
    /// Its id.
    pub id: Number<20>,
    /// Whether the request asks for a supervisor's access.
    pub supervisor: bool,
}

/// What a device's context says of processes.
#[derive(Clone, Copy, PartialEq)]
pub enum Processes {
    /// tc.PDTV is 0: the device has a first stage of its own, and no processes.
    Without,
    /// tc.PDTV is 1, and pdtp.MODE is Bare.
    Bare,
    /// tc.PDTV is 1, and pdtp has a directory.
    Listed {
        /// The directory.
        directory: ProcessDirectory,
        /// tc.DPE: requests without a process are those of process 0.
        default: bool,
    },
}

/// The first stage of a request.
#[derive(Clone, Copy, PartialEq)]
pub enum First {
    /// None: the request's type is disallowed, cause 260.
    Disallowed,
    /// That of the device's context.
    Own,
    /// Bare.
    Bare,
    /// That of the process context which this directory has for this id.
    Listed {
        /// The directory.
        directory: ProcessDirectory,
        /// The process id.
        id: Number<20>,
    },
}

/// The first stage of an untranslated request with this process or without one ("Process to translate an IOVA").
pub fn first_of(processes: &Processes, process: &Option<Process>) -> First
    ensures { result ≡ first_of processes.now process.now }
{
    match processes {
        Processes::Without => match process {
            Some(_) => First::Disallowed,
            None => First::Own,
        },
        Processes::Bare => First::Bare,
        Processes::Listed { directory, default } => listed_by(directory, *default, process),
    }
}

// The first stage under a directory.
fn listed_by(directory: &ProcessDirectory, default: bool, process: &Option<Process>) -> First
    ensures { result ≡ listed_by directory.now default process.now }
{
    let id = match process {
        Some(process) => process.id,
        None if default => Number::of(0),
        None => return First::Bare,
    };
    if is_too_wide(directory.depth, id) {
        return First::Disallowed;
    }
    First::Listed {
        directory: *directory,
        id,
    }
}

/// The class of a request's accesses to the first stage of its process context; None if its type is disallowed, cause 260: it asks for a
/// supervisor's access, and ENS is 0 ("Process to translate an IOVA"). Under a Bare stage, which has no leaves, it is `User`.
pub fn class_in(process: &Option<Process>, context: &ProcessContext) -> Option<Class>
    ensures { result ≡ class_in process.now context.now }
{
    let supervisor = match process {
        Some(process) => process.supervisor,
        None => false,
    };
    if supervisor && !context.fields.ens {
        None
    } else if !supervisor || context.fields.mode == 0 {
        Some(Class::User)
    } else if context.fields.sum {
        Some(Class::SupervisorUser)
    } else {
        Some(Class::Supervisor)
    }
}
