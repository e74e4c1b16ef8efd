use iom_asm::{AsmFault, ListFault, LoadFault};
use iom_cli::{Escaped, WordsFault};
use iom_include::{IncludeFault, Reason};
use iom_scripts::ScriptFault;
use iom_slips::statement_slip;
use iom_text::is_over;
use iom_tool::{Reply, RunFault};
use std::alloc::{AllocError, Global};
use std::fmt::{self, Display, Formatter, Write};
use std::io::ErrorKind;
use std::str;
use thiserror::Error;

/// The reason of a bad line, behind its fault; nothing if it is empty.
#[derive(Clone, Copy)]
struct SlipTold<'a>(&'a [u8]);

impl Display for SlipTold<'_> {
    fn fmt<W: Write>(&self, f: &mut Formatter<W>) -> fmt::Result {
        match str::from_utf8(self.0) {
            Ok(text) if !text.is_empty() => write!(f, ": {text}"),
            _ => Ok(()),
        }
    }
}

/// Why a file can't be read.
#[derive(Clone, Copy, Debug)]
pub enum Unread {
    /// Opening it, or a read, failed.
    Failed(ErrorKind),
    /// It has more than 2^30 bytes.
    TooLong,
}

/// The reason of a file that can't be read, behind its name; nothing if there is none to print.
#[derive(Clone, Copy)]
struct UnreadTold(Option<Unread>);

impl Display for UnreadTold {
    fn fmt<W: Write>(&self, f: &mut Formatter<W>) -> fmt::Result {
        match self.0 {
            None | Some(Unread::Failed(ErrorKind::Other | ErrorKind::Uncategorized)) => Ok(()),
            Some(Unread::Failed(ErrorKind::NotFound)) => f.write_str(": there is no such file"),
            Some(Unread::Failed(kind)) => write!(f, ": {kind}"),
            Some(Unread::TooLong) => f.write_str(": it has more than 2^30 bytes"),
        }
    }
}

/// The name of the file that a fault is of, before the fault; nothing if it isn't to be printed.
#[derive(Clone, Copy)]
struct FileTold<'a>(Option<&'a str>);

impl Display for FileTold<'_> {
    fn fmt<W: Write>(&self, f: &mut Formatter<W>) -> fmt::Result {
        match self.0 {
            Some(name) => write!(f, "{}: ", Escaped(name)),
            None => Ok(()),
        }
    }
}

/// Why the program ends, if not well.
#[derive(Debug, Drop, Error)]
pub enum Fault<'a> {
    /// A word of the command line isn't UTF-8.
    #[error("a word isn't UTF-8")]
    BadWord,
    /// A word isn't the kind of an item.
    #[error("{}: KIND is cmd, fault, context, dir, pte, msi or u64", Escaped(*.word))]
    BadKind {
        word: &'a str,
    },
    /// The words ask for help or version, or for nothing that the program does.
    #[error("{0}")]
    Words(WordsFault<'a>),
    /// The file of this name can't be read.
    #[error("cannot read {}{}", Escaped(*.name), UnreadTold(*.why))]
    CannotRead {
        name: &'a str,
        why: Option<Unread>,
    },
    /// The file of this name can't be written.
    #[error("cannot write {}", Escaped(*.0))]
    CannotWrite(&'a str),
    /// The text in the file of this name is refused by the assembler. The reason is empty if no line of it is bad.
    #[error("{}{fault}{}", FileTold(Some(*.name)), SlipTold(.reason.as_slice()))]
    Assemble {
        name: &'a str,
        fault: AsmFault,
        reason: Reply,
    },
    /// Bytes are refused as an image: those of the file of this name, if it is to be printed.
    #[error("{}{fault}", FileTold(*.name))]
    Load {
        name: Option<&'a str>,
        fault: LoadFault,
    },
    /// There is no listing.
    #[error("{0}")]
    List(ListFault),
    /// A run of a script ended before its end, or an output can't be written.
    #[error("{0}")]
    Run(RunFault),
    /// A line of a script can't include what it names.
    #[error("{}", IncludeTold(.fault, *.why))]
    Include {
        fault: IncludeFault,
        why: Option<Unread>,
    },
    /// The image that the first line of a script names can't be had, as told. `from` is the script's file; if it has none, empty.
    #[error("{}{told}", PlaceTold(*.from, 1))]
    OwnImage {
        from: &'a str,
        told: String,
    },
    /// The first line of a script names an image, and the words name one too.
    #[error("{}the command line names an image too", PlaceTold(*.from, 1))]
    TwoImages {
        from: &'a str,
    },
    /// An allocation was refused.
    #[error("out of memory")]
    OutOfMemory,
}

// Why a line of a text, counted from 1, is no statement that may stand there; empty if there is no such line.
fn reason_of(text: &[u8], line: u64) -> Reply {
    let mut is_first = true;
    for (before, own) in text.split(|byte| *byte == b'\n').enumerate() {
        if (before as u64).saturating_add(1) == line {
            return statement_slip(is_first, own);
        }
        is_first = is_first && is_over(own);
    }
    Reply::new()
}

/// A line of a script, before what is said of it: with the script's file, if it has one.
#[derive(Clone, Copy)]
struct PlaceTold<'a>(&'a str, u64);

impl Display for PlaceTold<'_> {
    fn fmt<W: Write>(&self, f: &mut Formatter<W>) -> fmt::Result {
        if self.0.is_empty() {
            write!(f, "line {}: ", self.1)
        } else {
            write!(f, "{}:{}: ", Escaped(self.0), self.1)
        }
    }
}

/// Why a line of a script can't include the file that it names, as it is printed: with the line's own file and number.
#[derive(Clone, Copy)]
struct IncludeTold<'a>(&'a IncludeFault, Option<Unread>);

impl Display for IncludeTold<'_> {
    fn fmt<W: Write>(&self, f: &mut Formatter<W>) -> fmt::Result {
        match self.0 {
            IncludeFault::Refused {
                reason,
                name,
                from,
                line,
            } => {
                let name = Escaped(name.as_str());
                write!(f, "{}", PlaceTold(from.as_str(), *line))?;
                match reason {
                    Reason::Unreadable => write!(f, "cannot read {name}{}", UnreadTold(self.1)),
                    Reason::TooLong => write!(f, "{name}: {}", RunFault::TooLong),
                    Reason::TooDeep => write!(f, "{name} is included more than 8 files deep"),
                }
            }
            IncludeFault::LongLine => write!(f, "{}", RunFault::TooLong),
            IncludeFault::OutOfMemory => f.write_str("out of memory"),
        }
    }
}

impl<'a> Fault<'a> {
    /// The fault of the text in a file of this name that the assembler refused.
    pub fn of_text(name: &'a str, fault: AsmFault, text: &[u8]) -> Self {
        let reason = match fault {
            AsmFault::OutOfMemory => return Fault::OutOfMemory,
            AsmFault::BadLine(line) => reason_of(text, line),
            _ => Reply::new(),
        };
        Fault::Assemble {
            name,
            fault,
            reason,
        }
    }

    /// This fault, where bytes that are refused as an image are those of the file of this name.
    pub fn of_image(self, name: &'a str) -> Self {
        match self {
            Fault::Load { name: None, fault } => Fault::Load {
                name: Some(name),
                fault,
            },
            fault => fault,
        }
    }

    /// The fault of the image that the first line of a script names, by that of the image's file. `from` is the script's file.
    pub fn of_own_image(alloc: Global, from: &'a str, fault: &Fault<'_>) -> Self {
        match (fault, format!(in alloc; "{fault}")) {
            (Fault::OutOfMemory, _) | (_, Err(_)) => Fault::OutOfMemory,
            (_, Ok(told)) => Fault::OwnImage { from, told },
        }
    }

    /// This fault as `run` prints it: without the name of the image's file, or why that can't be read.
    pub fn of_run_alone(self) -> Self {
        match self {
            Fault::Load { fault, .. } => Fault::Load { name: None, fault },
            Fault::CannotRead { name, .. } => Fault::CannotRead { name, why: None },
            fault => fault,
        }
    }

    /// Why a script wasn't carried out to its end, where `why` is that of the last file that it couldn't include.
    pub fn of_script(fault: ScriptFault, why: Option<Unread>) -> Self {
        match fault {
            ScriptFault::Run(fault) => Fault::Run(fault),
            ScriptFault::Include(fault) => Fault::Include { fault, why },
            ScriptFault::OutOfMemory => Fault::OutOfMemory,
        }
    }

    /// The status to end with: 2 for bad words, else 1.
    pub fn status(&self) -> u8 {
        match self {
            Fault::BadWord | Fault::BadKind { .. } | Fault::TwoImages { .. } => 2,
            Fault::Words(fault) => fault.status(),
            _ => 1,
        }
    }
}

impl From<AllocError> for Fault<'_> {
    fn from(_error: AllocError) -> Self {
        Fault::OutOfMemory
    }
}

impl<'a> From<WordsFault<'a>> for Fault<'a> {
    fn from(fault: WordsFault<'a>) -> Self {
        Fault::Words(fault)
    }
}

impl From<LoadFault> for Fault<'_> {
    fn from(fault: LoadFault) -> Self {
        match fault {
            LoadFault::OutOfMemory => Fault::OutOfMemory,
            fault => Fault::Load { name: None, fault },
        }
    }
}

impl From<ListFault> for Fault<'_> {
    fn from(fault: ListFault) -> Self {
        Fault::List(fault)
    }
}

impl From<RunFault> for Fault<'_> {
    fn from(fault: RunFault) -> Self {
        Fault::Run(fault)
    }
}
