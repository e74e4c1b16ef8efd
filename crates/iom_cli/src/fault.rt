use crate::escaped::Escaped;
use clap::error::ErrorKind;
use std::alloc::AllocError;
use thiserror::Error;

/// Why the words of the command line ask for no task.
#[derive(Debug, Drop, Error)]
pub enum WordsFault<'a> {
    /// The word for the operand `name` is no number below 2^64.
    #[error("{}: {name} is decimal, or hex after 0x, below 2^64", Escaped(*.word))]
    BadNumber { name: &'a str, word: &'a str },
    /// Standard input is named twice.
    #[error("- stands for standard input, and only once")]
    InputTwice,
    /// A request for help or for the version, or an error that clap found.
    #[error("{0}")]
    Clap(clap::Error),
    /// An allocation was refused.
    #[error("out of memory")]
    OutOfMemory,
}

impl WordsFault<'_> {
    /// The exit status: 0 if help or the version was asked for, 1 if an allocation was refused, else 2.
    pub fn status(&self) -> u8 {
        match self {
            WordsFault::BadNumber { .. } | WordsFault::InputTwice => 2,
            WordsFault::Clap(error) => error.exit_code() as u8,
            WordsFault::OutOfMemory => 1,
        }
    }

    /// Writes help or the version to standard output, an error to standard error. Returns false if help or the version couldn't be
    /// written; a failure to write an error is ignored.
    pub fn show(&self, rt: &(impl Print + Eprint)) -> bool {
        match self {
            WordsFault::Clap(error) => error.print(rt).is_ok() || error.use_stderr(),
            fault => {
                let _ = rt.eprintln(format_args!("rviommu: {fault}"));
                true
            }
        }
    }
}

impl From<AllocError> for WordsFault<'_> {
    fn from(_error: AllocError) -> Self {
        WordsFault::OutOfMemory
    }
}

impl From<clap::Error> for WordsFault<'_> {
    fn from(error: clap::Error) -> Self {
        if error.kind() == ErrorKind::OutOfMemory {
            return WordsFault::OutOfMemory;
        }
        WordsFault::Clap(error)
    }
}
