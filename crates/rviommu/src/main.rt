//! The program `rviommu`: scripts on images, the assembler, listings and upgrades.
#![tactic(auto)]

use fault::Fault;
use files::IncludedFiles;
use iom_asm::Item;
use iom_cli::{
    Checks, How, Task, WordsFault, begins_as_image, check_status, task_of, without_image,
};
use iom_explain::Only;
use iom_play::WRITE_BLOCK;
use iom_reader::{RunFault, WatchedReader, WatchedWriter};
use iom_scripts::{debug_script, explain_script};
use output::Piped;
use progress::{Progress, size_of_input};
use std::alloc::Global;
use std::cell::Cell;
use std::env;
use std::fs::Files;
use std::io::{self, BufWriter, IsTerminal, Read, Write};
use std::process::ExitCode;
use std::rt::Env;
use std::time::Clock;

mod checks;
mod fault;
mod files;
mod image;
mod output;
mod own;
mod progress;

/// The status of `check` and `judge` where something couldn't be read, judged or written.
const UNJUDGED: u8 = 3;

// What the program reads and writes.
#[derive(Drop)]
struct Streams<I, O> {
    input: I,
    output: O,
    // Whether standard error is a terminal.
    has_terminal: bool,
    // Whether standard output is one.
    output_is_terminal: bool,
}

// Runs, debugs or explains the script that an input gives. `name` is its file; if it has none, empty.
fn play<'a, R: Read, W: Write>(
    rt: &impl Files,
    alloc: Global,
    image: &[u8],
    how: How,
    tells_slips: bool,
    name: &str,
    input: &mut R,
    output: &mut W,
) -> Result<(), Fault<'a>> {
    let files = IncludedFiles::new(rt);
    let ended = match how {
        How::Run => {
            let mut reader = WatchedReader::new(input);
            let mut writer = WatchedWriter::new(output);
            return Ok(iom_play::play(alloc, image, &mut reader, &mut writer)?.ended?);
        }
        How::Debug => debug_script(alloc, image, &files, name, tells_slips, input, output)?,
        How::Explain {
            only,
            tells_settled,
        } => {
            let only = only.map(|it| Only {
                denied: it.denied,
                stale: it.stale,
                unsettled: it.unsettled,
            });
            explain_script(
                alloc,
                image,
                &files,
                name,
                only,
                tells_settled,
                input,
                output,
            )?
        }
    };
    ended.map_err(|fault| Fault::of_script(fault, files.why()))
}

// Plays a script on an image. Its answers are written by blocks, but before it waits for input. `name` is its file; if it has none, empty.
fn play_script<'a>(
    rt: &(impl Clock + Eprint + Files),
    alloc: Global,
    image: &[u8],
    how: How,
    name: &str,
    size: Option<u64>,
    streams: Streams<impl Read + Drop, impl Write + Drop>,
) -> Result<(), Fault<'a>> {
    let size = if streams.has_terminal { size } else { None };
    let mut input = Progress::new(rt, how.word(), size, streams.input);
    let mut writer = BufWriter::with_capacity(alloc, WRITE_BLOCK, streams.output).map_err(
        |_| Fault::OutOfMemory,
    )?;
    let ended = play(
        rt,
        alloc,
        image,
        how,
        streams.output_is_terminal,
        name,
        &mut input,
        &mut writer,
    );
    input.clear();
    // The answers before a fault are written too.
    writer.flush().map_err(|_| RunFault::Write)?;
    ended
}

// Plays the script on standard input on an image, by `run`.
fn run_input<'a>(
    rt: &(impl Clock + Eprint + Files),
    alloc: Global,
    image: &[u8],
    streams: Streams<impl Read + Drop, impl Write + Drop>,
) -> Result<(), Fault<'a>> {
    play_script(rt, alloc, image, How::Run, "", None, streams)
}

// The image that a script is played on: its own, or that of the words, or the built-in one.
fn image_of<'i>(own: &'i Option<Vec<u8>>, named: Option<&'i [u8]>, built_in: &'i [u8]) -> &'i [u8] {
    match own {
        Some(image) => image.as_slice(),
        None => named.unwrap_or(built_in),
    }
}

// Plays the script on standard input, on the image that the words name, if they do. A bad one is told before a line is waited for.
fn play_input<'a>(
    rt: &(impl Clock + Eprint + Files),
    alloc: Global,
    named: Option<&[u8]>,
    how: How,
    streams: Streams<impl Read + Drop, impl Write + Drop>,
) -> Result<(), Fault<'a>> {
    if let Some(image) = named {
        iom_asm::judge(image)?;
    }
    let size = size_of_input(rt, streams.has_terminal);
    let (own, script) = own::begin(rt, alloc, named.is_some(), "", streams.input)?;
    let built_in = iom_asm::built_in();
    let image = image_of(&own, named, &built_in);
    let streams = Streams {
        input: script,
        output: streams.output,
        has_terminal: streams.has_terminal,
        output_is_terminal: streams.output_is_terminal,
    };
    play_script(rt, alloc, image, how, "", size, streams)
}

// Plays the script of a file that was read, on the image that the words name, if they do.
fn play_bytes<'a>(
    rt: &(impl Clock + Eprint + Files),
    alloc: Global,
    named: Option<&[u8]>,
    how: How,
    name: &'a str,
    script: &[u8],
    streams: Streams<impl Read + Drop, impl Write + Drop>,
) -> Result<(), Fault<'a>> {
    let own = own::image(rt, alloc, named.is_some(), name, script)?;
    let built_in = iom_asm::built_in();
    let image = image_of(&own, named, &built_in);
    let script = if own.is_some() {
        without_image(script)
    } else {
        script
    };
    let size = Some(script.len() as u64);
    let streams = Streams {
        input: script,
        output: streams.output,
        has_terminal: streams.has_terminal,
        output_is_terminal: streams.output_is_terminal,
    };
    play_script(rt, alloc, image, how, name, size, streams)
}

// What a task on the image in the file of this name came to.
fn on_image<'a>(name: &'a str, ended: Result<(), Fault<'a>>) -> Result<(), Fault<'a>> {
    match ended {
        Ok(()) => Ok(()),
        Err(fault) => Err(fault.of_image(name)),
    }
}

// Plays a script of a file without an image: where it begins as an image, that is the image of the script on standard input.
fn play_file<'a>(
    rt: &(impl Clock + Eprint + Files),
    alloc: Global,
    how: How,
    name: &'a str,
    streams: Streams<impl Read + Drop, impl Write + Drop>,
) -> Result<(), Fault<'a>> {
    let bytes = files::read(rt, alloc, name)?;
    let bytes = bytes.as_slice();
    if begins_as_image(bytes) {
        return on_image(name, play_input(rt, alloc, Some(bytes), how, streams));
    }
    play_bytes(rt, alloc, None, how, name, bytes, streams)
}

// The image in a file, for a word that plays a script on it: only `run` takes no text.
fn image_for<'a>(
    rt: &impl Files,
    alloc: Global,
    how: How,
    name: &'a str,
) -> Result<Vec<u8>, Fault<'a>> {
    match how {
        How::Run => files::read(rt, alloc, name),
        How::Debug | How::Explain { .. } => image::read(rt, alloc, name),
    }
}

// Plays the script in a file, or on standard input, on the image in a file, or on the built-in one.
fn play_named<'a>(
    rt: &(impl Clock + Eprint + Files),
    alloc: Global,
    how: How,
    image: Option<&'a str>,
    script: Option<&'a str>,
    streams: Streams<impl Read + Drop, impl Write + Drop>,
) -> Result<(), Fault<'a>> {
    // The text of an image, alone, is no script, but that of the image of the script on standard input.
    let (image, script) = match (image, script) {
        (None, Some(name)) if image::is_text(name) => (Some(name), None),
        named => named,
    };
    let Some(image) = image else {
        return match (how, script) {
            (How::Run, None) => run_input(rt, alloc, &iom_asm::built_in(), streams),
            (_, Some(name)) => play_file(rt, alloc, how, name, streams),
            (_, None) => play_input(rt, alloc, None, how, streams),
        };
    };
    let start = image_for(rt, alloc, how, image)?;
    let start = start.as_slice();
    let ended = match (how, script) {
        (How::Run, None) => run_input(rt, alloc, start, streams),
        (_, Some(name)) => {
            let script = files::read(rt, alloc, name)?;
            let script = script.as_slice();
            play_bytes(rt, alloc, Some(start), how, name, script, streams)
        }
        (_, None) => play_input(rt, alloc, Some(start), how, streams),
    };
    on_image(image, ended)
}

// The image is written only where the whole text is assembled.
fn assemble<'a>(
    rt: &impl Files,
    alloc: Global,
    source: &'a str,
    image: &'a str,
) -> Result<(), Fault<'a>> {
    let text = files::read(rt, alloc, source)?;
    let bytes = image::assembled(alloc, source, text.as_slice())?;
    files::write(rt, alloc, image, bytes.as_slice())
}

// The new image is written only where the whole image is accepted.
fn upgrade<'a>(
    rt: &impl Files,
    alloc: Global,
    image: &'a str,
    new: &'a str,
) -> Result<(), Fault<'a>> {
    let old = files::read(rt, alloc, image)?;
    let bytes = iom_asm::upgrade(alloc, old.as_slice()).map_err(|fault| Fault::from(fault).of_image(
        image,
    ))?;
    files::write(rt, alloc, new, bytes.as_slice())
}

// Writes the listing of so many items of the memory that an image starts.
fn list<'a>(
    alloc: Global,
    image: &[u8],
    item: Item,
    addr: u64,
    count: u64,
    mut output: impl Write + Drop,
) -> Result<(), Fault<'a>> {
    let platform = iom_asm::load(alloc, image)?;
    let features = platform.registers().features();
    let text = iom_asm::list(alloc, platform.ram(), features, item, addr, count)?;
    output
        .write_all(text.as_bytes())
        .map_err(|_| RunFault::Write)?;
    output.flush().map_err(|_| RunFault::Write)?;
    Ok(())
}

// Judges scripts, and answers the status to end with.
fn check<'a>(
    rt: &(impl Clock + Eprint + Files),
    alloc: Global,
    checks: &Checks<'a>,
    mut streams: Streams<impl Read + Drop, impl Write + Drop>,
) -> Result<u8, Fault<'a>> {
    let output = BufWriter::with_capacity(alloc, WRITE_BLOCK, streams.output).map_err(
        |_| Fault::OutOfMemory,
    )?;
    let sum = checks::judge_named(
        rt,
        alloc,
        checks,
        &mut streams.input,
        output,
        streams.has_terminal,
    )?;
    Ok(check_status(&sum))
}

// Does what the words of the command line ask for, and answers the status to end with.
fn carry_out<'a>(
    rt: &(impl Clock + Eprint + Files),
    alloc: Global,
    task: Task<'a>,
    streams: Streams<impl Read + Drop, impl Write + Drop>,
) -> Result<u8, Fault<'a>> {
    match task {
        Task::Play { how, image, script } => match (
            how,
            play_named(rt, alloc, how, image, script, streams),
        ) {
            (How::Run, Err(fault)) => return Err(fault.of_run_alone()),
            (_, ended) => ended?,
        },
        Task::Check(checks) => return check(rt, alloc, &checks, streams),
        Task::Assemble { source, image } => assemble(rt, alloc, source, image)?,
        Task::Upgrade { image, new } => upgrade(rt, alloc, image, new)?,
        Task::List {
            image,
            kind,
            addr,
            count,
        } => {
            let item = Item::named(kind.as_bytes()).ok_or(Fault::BadKind { word: kind })?;
            let bytes = files::read(rt, alloc, image)?;
            let ended = list(alloc, bytes.as_slice(), item, addr, count, streams.output);
            on_image(image, ended)?;
        }
    }
    Ok(0)
}

// The words that the program was started with.
fn arguments(
    rt: &(impl Env + Alloc<A = Global>),
    alloc: Global,
) -> Result<Vec<String>, Fault<'static>> {
    match env::args(rt) {
        Ok(words) => Ok(words.collect::<Vec<String>>(alloc)?),
        Err(error) if error.kind() == io::ErrorKind::InvalidData => Err(Fault::BadWord),
        Err(_) => Err(Fault::OutOfMemory),
    }
}

// Help that can't be written is a failed write.
fn show_words_fault(rt: &(impl Print + Eprint), fault: &WordsFault<'_>) -> u8 {
    if fault.show(rt) {
        fault.status()
    } else {
        print_fault(rt, &Fault::Run(RunFault::Write))
    }
}

// Writes a fault to standard error, and answers the status to end with.
fn print_fault(rt: &impl Eprint, fault: &Fault<'_>) -> u8 {
    let _ = rt.eprintln(format_args!("rviommu: {fault}"));
    fault.status()
}

// Prints a fault, and returns the status to end with. If nobody reads standard output any more, it prints nothing of that.
fn tell_fault(rt: &(impl Print + Eprint), fault: &Fault<'_>, is_unread: bool) -> u8 {
    match fault {
        Fault::Words(fault) => show_words_fault(rt, fault),
        Fault::Run(RunFault::Write) if is_unread => fault.status(),
        fault => print_fault(rt, fault),
    }
}

// Whether the first word is `check` or `judge`, of which status 1 says that a line failed.
fn is_check(words: &[String]) -> bool {
    match words.get(1) {
        Some(word) => matches!(word.as_str(), "check" | "judge"),
        None => false,
    }
}

// The whole program over its streams. `is_unread` says whether nobody reads standard output any more.
fn program(
    rt: &(impl Clock + Env + Files + Alloc<A = Global> + Print + Eprint),
    alloc: Global,
    streams: Streams<impl Read + Drop, impl Write + Drop>,
    is_unread: &Cell<bool>,
) -> ExitCode {
    let words = match arguments(rt, alloc) {
        Ok(words) => words,
        Err(fault) => return ExitCode::from(tell_fault(rt, &fault, false)),
    };
    let ended = match task_of(alloc, words.as_slice()) {
        Ok(task) => carry_out(rt, alloc, task, streams),
        Err(fault) => Err(Fault::Words(fault)),
    };
    let status = match ended {
        Ok(status) => status,
        Err(fault) => match tell_fault(rt, &fault, is_unread.get()) {
            1 if is_check(words.as_slice()) => UNJUDGED,
            status => status,
        },
    };
    ExitCode::from(status)
}

// The program over the streams of its process.
fn main(rt: HostRuntime) -> ExitCode {
    let is_unread = Cell::new(false);
    let streams = Streams {
        input: rt.stdin(),
        output: Piped::new(rt.stdout(), &is_unread),
        has_terminal: rt.stderr().is_terminal(),
        output_is_terminal: rt.stdout().is_terminal(),
    };
    program(&rt, rt.alloc(), streams, &is_unread)
}
