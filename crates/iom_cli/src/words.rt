//! The tasks that the words of the command line ask for.

use crate::fault::WordsFault;
use crate::help;
use clap::{Arg, ArgAction, ArgMatches, Command};
use std::alloc::{AllocError, Global};

/// The operand for the kind of the listed items.
const KIND: &str = "KIND";

/// The option of `check` by which stale accesses fail.
const STALE: &str = "stale";

/// The option of `check` by which the caches are looked at after each fence too.
const AT_FENCES: &str = "at-fences";

/// The option of `check` by which accesses that aren't settled fail, and of `explain` by which it reports them.
const SETTLED: &str = "settled";

/// The option of `check` by which an IOMMU may also read ahead what the script names.
const AHEAD: &str = "ahead";

/// The option of `judge` by which commands may be carried out that the trace doesn't show.
const HIDDEN: &str = "hidden";

/// The option of `check` and `judge` by which notes fail.
const STRICT: &str = "strict";

/// The option of `check` and `judge` by which they write TAP.
const TAP: &str = "tap";

/// The option of `check` and `judge` for the file of JUnit's XML.
const JUNIT: &str = "junit";

/// The option for the file of the image.
const IMAGE: &str = "image";

/// The option of `explain` that names the accesses to print.
const ONLY: &str = "only";

/// The operand for a script, or for those of `check` and `judge`.
const FILE: &str = "FILE";

/// The word for standard input in place of a file.
const INPUT: &str = "-";

/// The names of the items that can be listed.
const KINDS: [&str; 7] = ["cmd", "fault", "context", "dir", "pte", "msi", "u64"];

/// The kinds of accesses that `explain` can print without the others.
const ONLY_THESE: [&str; 3] = ["denied", "stale", UNSETTLED];

/// The name of accesses that aren't settled, among those.
const UNSETTLED: &str = "unsettled";

/// The accesses that `explain` prints, if it doesn't print all.
#[derive(Clone, Copy)]
pub struct Only {
    /// Those that are denied.
    pub denied: bool,
    /// Those that are stale.
    pub stale: bool,
    /// Those that aren't settled.
    pub unsettled: bool,
}

/// How a script is played.
#[derive(Clone, Copy)]
pub enum How {
    /// Each line is answered.
    Run,
    /// Each line is answered, and may be one of `debug`.
    Debug,
    /// Each line is printed with its answer and the reasons of its accesses, or only the accesses of `only`. If `tells_settled`, each access
    /// that isn't settled is reported.
    Explain {
        only: Option<Only>,
        tells_settled: bool,
    },
}

impl How {
    /// The subcommand that asks for it.
    pub fn word(self) -> &'static str {
        match self {
            How::Run => "run",
            How::Debug => "debug",
            How::Explain { .. } => "explain",
        }
    }
}

/// How traces are judged.
#[derive(Clone, Copy)]
pub struct Traces {
    /// Whether the IOMMU may carry out commands before each step that the trace doesn't show.
    pub hides: bool,
}

/// Which scripts `check` or `judge` judges, and how.
#[derive(Drop)]
pub struct Checks<'a> {
    /// How they are judged as traces, by `judge`; None: their answers are compared, by `check`.
    pub traces: Option<Traces>,
    /// Whether a line fails also if an access of it is stale.
    pub fails_if_stale: bool,
    /// Whether each stale place of the caches fails after each fence too, and not only at the end of a script.
    pub looks_at_fences: bool,
    /// Whether a line fails also if an access of it isn't settled, and at the end of a script each request that is owed.
    pub fails_if_unsettled: bool,
    /// Whether an IOMMU may also read ahead what a script names; then `fails_if_unsettled` is true.
    pub reads_ahead: bool,
    /// Whether notes fail.
    pub is_strict: bool,
    /// Whether standard output is TAP, and not text.
    pub is_tap: bool,
    /// The file for JUnit's XML.
    pub junit: Option<&'a str>,
    /// The file of the image. If it is None and there is one script, that may be the image.
    pub image: Option<&'a str>,
    /// The files of the scripts, where None is standard input, which stands at most once. If there is none, it is standard input, without
    /// a name.
    pub scripts: Vec<Option<&'a str>>,
}

/// The task that the command line asks for.
#[derive(Drop)]
pub enum Task<'a> {
    /// Plays the script in a file, or on standard input, on the image in a file, or on the built-in one. A script without an image may be the
    /// image.
    Play {
        how: How,
        image: Option<&'a str>,
        script: Option<&'a str>,
    },
    /// Judges scripts, or traces.
    Check(Checks<'a>),
    /// Assembles a text file into an image file.
    Assemble {
        source: &'a str,
        image: &'a str,
    },
    /// Writes the image in a file to another file, in version 3.
    Upgrade {
        image: &'a str,
        new: &'a str,
    },
    /// Lists `count` items of the kind named `kind` in the memory of the image in a file, from physical address `addr` on.
    List {
        image: &'a str,
        kind: &'a str,
        addr: u64,
        count: u64,
    },
}

/// A subcommand, with its operands in their order.
struct Verb {
    name: &'static str,
    about: &'static str,
    after_help: &'static str,
    operands: &'static [Operand],
}

/// An operand or an option.
struct Operand {
    name: &'static str,
    help: &'static str,
    need: Need,
}

/// Whether an operand has to be given.
#[derive(Clone, Copy)]
enum Need {
    Required,
    Optional,
    /// It may be given several times.
    Several,
    /// It is an option with this name, without a value.
    Flag,
    /// It is an option with this name, whose value help calls so.
    Valued(&'static str),
}

const VERBS: [Verb; 8] = [
    Verb {
        name: "asm",
        about: "Assembles a text into an image",
        after_help: help::ASM,
        operands: &[
            Operand {
                name: "SOURCE",
                help: "The file of the text",
                need: Need::Required,
            },
            Operand {
                name: "IMAGE",
                help: "The file to write the image to",
                need: Need::Required,
            },
        ],
    },
    Verb {
        name: "run",
        about: "Runs the script on standard input on an image",
        after_help: help::RUN,
        operands: &[Operand {
            name: "IMAGE",
            help: "The file of the image",
            need: Need::Required,
        }],
    },
    Verb {
        name: "check",
        about: "Runs scripts and compares their answers with the expected ones",
        after_help: help::CHECK,
        operands: &[
            Operand {
                name: STALE,
                help: "Also report each access that no longer matches the tables",
                need: Need::Flag,
            },
            Operand {
                name: AT_FENCES,
                help: "As --stale, and look at the caches behind each fence too",
                need: Need::Flag,
            },
            Operand {
                name: SETTLED,
                help: "Also report each access that caches could lead elsewhere",
                need: Need::Flag,
            },
            Operand {
                name: AHEAD,
                help: "As --settled, if what the script names is read ahead",
                need: Need::Flag,
            },
            Operand {
                name: STRICT,
                help: "Also fail what is only noted",
                need: Need::Flag,
            },
            Operand {
                name: TAP,
                help: "Print TAP 13 in place of text",
                need: Need::Flag,
            },
            Operand {
                name: JUNIT,
                help: "Also write JUnit's XML to the file OUT",
                need: Need::Valued("OUT"),
            },
            Operand {
                name: IMAGE,
                help: "The image, or its text NAME.asm; without it, the built-in",
                need: Need::Valued("IMAGE"),
            },
            Operand {
                name: FILE,
                help: "The files of the scripts, - for standard input",
                need: Need::Several,
            },
        ],
    },
    Verb {
        name: "debug",
        about: "Runs a script that may ask more about the platform",
        after_help: help::DEBUG,
        operands: &[
            Operand {
                name: IMAGE,
                help: "The image, or its text NAME.asm; without it, the built-in",
                need: Need::Valued("IMAGE"),
            },
            Operand {
                name: FILE,
                help: "The file of the script, or of the image; - or none for standard input",
                need: Need::Optional,
            },
        ],
    },
    Verb {
        name: "explain",
        about: "Runs a script and prints why each access is answered so",
        after_help: help::EXPLAIN,
        operands: &[
            Operand {
                name: SETTLED,
                help: "Also print which accesses caches could lead elsewhere",
                need: Need::Flag,
            },
            Operand {
                name: ONLY,
                help: "Print these accesses alone: any of denied,stale,unsettled",
                need: Need::Valued("WHAT"),
            },
            Operand {
                name: IMAGE,
                help: "The image, or its text NAME.asm; without it, the built-in",
                need: Need::Valued("IMAGE"),
            },
            Operand {
                name: FILE,
                help: "The file of the script, or of the image; - or none for standard input",
                need: Need::Optional,
            },
        ],
    },
    Verb {
        name: "judge",
        about: "Judges traces: what of the answers of another IOMMU is not allowed",
        after_help: help::JUDGE,
        operands: &[
            Operand {
                name: HIDDEN,
                help: "Allow for commands that the trace does not show",
                need: Need::Flag,
            },
            Operand {
                name: STRICT,
                help: "Also fail what is only noted",
                need: Need::Flag,
            },
            Operand {
                name: TAP,
                help: "Print TAP 13 in place of text",
                need: Need::Flag,
            },
            Operand {
                name: JUNIT,
                help: "Also write JUnit's XML to the file OUT",
                need: Need::Valued("OUT"),
            },
            Operand {
                name: IMAGE,
                help: "The image, or its text NAME.asm; without it, the built-in",
                need: Need::Valued("IMAGE"),
            },
            Operand {
                name: FILE,
                help: "The files of the traces, - for standard input",
                need: Need::Several,
            },
        ],
    },
    Verb {
        name: "list",
        about: "Lists items in the memory of an image",
        after_help: help::LIST,
        operands: &[
            Operand {
                name: "IMAGE",
                help: "The file of the image",
                need: Need::Required,
            },
            Operand {
                name: KIND,
                help: "Its kind",
                need: Need::Required,
            },
            Operand {
                name: "ADDR",
                help: "The physical address of the first item",
                need: Need::Required,
            },
            Operand {
                name: "COUNT",
                help: "The number of items",
                need: Need::Required,
            },
        ],
    },
    Verb {
        name: "upgrade",
        about: "Rewrites an image in version 3",
        after_help: help::UPGRADE,
        operands: &[
            Operand {
                name: "IMAGE",
                help: "The file of the image",
                need: Need::Required,
            },
            Operand {
                name: "NEW",
                help: "The file to write the new image to",
                need: Need::Required,
            },
        ],
    },
];

// An option with a value, for clap.
fn valued<'a>(arg: Arg<'a>, name: &'static str, value: &'static str) -> Arg<'a> {
    let arg = arg.long(name).value_name(value);
    if name == ONLY {
        arg.value_delimiter(',')
            .value_parser(ONLY_THESE.as_slice())
            .hide_possible_values(true)
    } else {
        arg
    }
}

// An operand, for clap.
fn arg<'a>(alloc: Global, operand: &Operand) -> Arg<'a> {
    let arg = Arg::new(alloc, operand.name).help(operand.help);
    match operand.need {
        Need::Required if operand.name == KIND => arg.required(true).value_parser(KINDS.as_slice()),
        Need::Required => arg.required(true),
        Need::Optional => arg,
        Need::Several => arg.num_args(1..).action(ArgAction::Append),
        Need::Flag => arg.long(operand.name).action(ArgAction::SetTrue),
        Need::Valued(value) => valued(arg, operand.name, value),
    }
}

// A subcommand, for clap.
fn subcommand<'a>(alloc: Global, verb: &Verb) -> Result<Command<'a>, AllocError> {
    let mut command = Command::new(alloc, verb.name)
        .about(verb.about)
        .after_help(verb.after_help);
    for operand in verb.operands {
        command = command.arg(arg(alloc, operand))?;
    }
    Ok(command)
}

// The command line, for clap.
fn command<'a>(alloc: Global) -> Result<Command<'a>, AllocError> {
    let mut command = Command::new(alloc, "rviommu")
        .version("0.4.0")
        .about("A model of the RISC-V IOMMU: without a word it runs the script on standard input")
        .after_help(help::SCRIPT);
    for verb in &VERBS {
        command = command.subcommand(subcommand(alloc, verb)?)?;
    }
    Ok(command)
}

// The value of a required operand.
fn value<'a>(found: &ArgMatches<'a>, name: &str) -> &'a str {
    found.get_str(name).unwrap_or("")
}

// The number of a required operand.
fn number<'a>(found: &ArgMatches<'a>, name: &'a str) -> Result<u64, WordsFault<'a>> {
    let word = value(found, name);
    iom_text::number(word.as_bytes()).ok_or(WordsFault::BadNumber { name, word })
}

// The task of `list`, by its operands.
fn listing<'a>(found: &ArgMatches<'a>) -> Result<Task<'a>, WordsFault<'a>> {
    Ok(Task::List {
        image: value(found, "IMAGE"),
        kind: value(found, KIND),
        addr: number(found, "ADDR")?,
        count: number(found, "COUNT")?,
    })
}

// The task to play a script in a way that may name its file.
fn script<'a>(how: How, found: &ArgMatches<'a>) -> Task<'a> {
    Task::Play {
        how,
        image: found.get_str(IMAGE),
        script: found.get_str(FILE).filter(|name| *name != INPUT),
    }
}

// The task to run the script on standard input on an image, or else on the built-in one.
fn run<'a>(image: Option<&'a str>) -> Task<'a> {
    Task::Play {
        how: How::Run,
        image,
        script: None,
    }
}

// The accesses that `explain` is to print, if its option names some.
fn told_alone<'a>(found: &ArgMatches<'a>) -> Option<Only> {
    let named = found.get_strs(ONLY)?;
    Some(Only {
        denied: named.iter().any(|it| *it == "denied"),
        stale: named.iter().any(|it| *it == "stale"),
        unsettled: named.iter().any(|it| *it == UNSETTLED),
    })
}

// How `explain` plays a script. `--only unsettled` implies `--settled`.
fn explaining<'a>(found: &ArgMatches<'a>) -> How {
    let only = told_alone(found);
    let names_unsettled = match only {
        Some(only) => only.unsettled,
        None => false,
    };
    How::Explain {
        only,
        tells_settled: names_unsettled || found.get_flag(SETTLED),
    }
}

// The scripts that `check` or `judge` names.
fn scripts<'a>(
    alloc: Global,
    found: &ArgMatches<'a>,
) -> Result<Vec<Option<&'a str>>, WordsFault<'a>> {
    let mut scripts = Vec::new(alloc);
    let mut names_input = false;
    for name in found.get_strs(FILE).unwrap_or(&[]) {
        let is_input = *name == INPUT;
        if is_input && names_input {
            return Err(WordsFault::InputTwice);
        }
        names_input |= is_input;
        let script = if is_input { None } else { Some(*name) };
        scripts.push(script).map_err(AllocError::from)?;
    }
    Ok(scripts)
}

// The task of `check`.
fn judging<'a>(alloc: Global, found: &ArgMatches<'a>) -> Result<Task<'a>, WordsFault<'a>> {
    let looks_at_fences = found.get_flag(AT_FENCES);
    let reads_ahead = found.get_flag(AHEAD);
    Ok(Task::Check(Checks {
        traces: None,
        fails_if_stale: looks_at_fences || found.get_flag(STALE),
        looks_at_fences,
        fails_if_unsettled: reads_ahead || found.get_flag(SETTLED),
        reads_ahead,
        is_strict: found.get_flag(STRICT),
        is_tap: found.get_flag(TAP),
        junit: found.get_str(JUNIT),
        image: found.get_str(IMAGE),
        scripts: scripts(alloc, found)?,
    }))
}

// The task of `judge`.
fn judging_traces<'a>(alloc: Global, found: &ArgMatches<'a>) -> Result<Task<'a>, WordsFault<'a>> {
    Ok(Task::Check(Checks {
        traces: Some(Traces {
            hides: found.get_flag(HIDDEN),
        }),
        fails_if_stale: false,
        looks_at_fences: false,
        fails_if_unsettled: false,
        reads_ahead: false,
        is_strict: found.get_flag(STRICT),
        is_tap: found.get_flag(TAP),
        junit: found.get_str(JUNIT),
        image: found.get_str(IMAGE),
        scripts: scripts(alloc, found)?,
    }))
}

// The task of words that clap accepts.
fn task_in<'a>(alloc: Global, matches: &ArgMatches<'a>) -> Result<Task<'a>, WordsFault<'a>> {
    match matches.subcommand() {
        Some(("asm", found)) => Ok(Task::Assemble {
            source: value(found, "SOURCE"),
            image: value(found, "IMAGE"),
        }),
        Some(("run", found)) => Ok(run(found.get_str("IMAGE"))),
        Some(("debug", found)) => Ok(script(How::Debug, found)),
        Some(("explain", found)) => Ok(script(explaining(found), found)),
        Some(("check", found)) => judging(alloc, found),
        Some(("judge", found)) => judging_traces(alloc, found),
        Some(("upgrade", found)) => Ok(Task::Upgrade {
            image: value(found, "IMAGE"),
            new: value(found, "NEW"),
        }),
        Some((_, found)) => listing(found),
        None => Ok(run(None)),
    }
}

/// The task that the words ask for. A request for help or the version, and an error that clap found, are the fault `Clap`.
pub fn task_of<'a>(alloc: Global, words: &'a [String]) -> Result<Task<'a>, WordsFault<'a>> {
    let command = command(alloc)?;
    let matches = command.try_get_matches_from(words)?;
    task_in(alloc, &matches)
}
