//! The program that plays the script on standard input on the built-in image, as `rviommu` without a word does, and nothing else. So it
//! is built sooner.
#![tactic(auto)]

use iom_image::{LoadFault, built_in};
use iom_play::{WRITE_BLOCK, play};
use iom_tool::{RunFault, WatchedReader, WatchedWriter};
use std::alloc::Global;
use std::env;
use std::fmt::Display;
use std::io::{BufWriter, Read, Write};
use std::process::ExitCode;
use std::rt::Env;

/// The status to end with if the program was started with words.
const BAD_WORDS: u8 = 2;

// Plays the script of an input, and says how it ended. Its answers are written by blocks, but before it waits for input.
fn play_script(
    alloc: Global,
    mut input: impl Read + Drop,
    output: impl Write + Drop,
) -> Result<Result<(), RunFault>, LoadFault> {
    let Ok(mut writer) = BufWriter::with_capacity(alloc, WRITE_BLOCK, output) else {
        return Err(LoadFault::OutOfMemory);
    };
    let mut reader = WatchedReader::new(&mut input);
    let mut answers = WatchedWriter::new(&mut writer);
    let played = play(alloc, &built_in(), &mut reader, &mut answers);
    // The answers before a fault are written too.
    if writer.flush().is_err() {
        return Ok(Err(RunFault::Write));
    }
    Ok(played?.ended)
}

// Whether the program was started with its name alone.
fn is_without_words(rt: &(impl Env + Alloc<A = Global>)) -> bool {
    match env::args(rt) {
        Ok(words) => words.len() <= 1,
        Err(_) => false,
    }
}

// Writes why the program ends.
fn tell(rt: &impl Eprint, fault: impl Display + Drop) {
    let _ = rt.eprintln(format_args!("iom_player: {fault}"));
}

// Plays the script on standard input, or prints why it doesn't.
fn main(rt: HostRuntime) -> ExitCode {
    if !is_without_words(&rt) {
        tell(&rt, "no word is taken; rviommu takes words");
        return ExitCode::from(BAD_WORDS);
    }
    match play_script(rt.alloc(), rt.stdin(), rt.stdout()) {
        Ok(Ok(())) => return ExitCode::SUCCESS,
        Ok(Err(fault)) => tell(&rt, fault),
        Err(fault) => tell(&rt, fault),
    }
    ExitCode::FAILURE
}
