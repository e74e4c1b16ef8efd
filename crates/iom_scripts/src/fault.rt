use iom_include::IncludeFault;
use iom_reader::RunFault;

/// Why a script isn't carried out to its end.
#[derive(Debug, Drop)]
pub enum ScriptFault {
    /// A read, a write, or its length.
    Run(RunFault),
    /// A line of it can't include what it names.
    Include(IncludeFault),
    /// An allocation was refused.
    OutOfMemory,
}

impl ScriptFault {
    ghost use Rattle.std.specs.Prelude.{◌≡◌};
    ghost use Rattle.iom_scripts.specs.Ending.{said_of};

    /// Why a run ended, by the fault that it returned and that of a line of its script, if there is one.
    pub(crate) fn of_run(fault: RunFault, line: Option<IncludeFault>) -> ScriptFault
        ensures { result ≡ said_of fault line }
    {
        match (fault, line) {
            (RunFault::Read, Some(IncludeFault::OutOfMemory)) => ScriptFault::OutOfMemory,
            (RunFault::Read, Some(IncludeFault::LongLine)) => ScriptFault::Run(RunFault::TooLong),
            (RunFault::Read, Some(fault)) => ScriptFault::Include(fault),
            _ => ScriptFault::Run(fault),
        }
    }
}
