//! Plays whole scripts: for each file NAME.script of the given folder, the output of the script on the image of NAME.asm, or on the
//! built-in one if there is no such file, must be the text of NAME.expect. At each step of these scripts, and of lists of random steps,
//! `explain` must give the same warrant as a history that was kept beside the platform. Prints each answer that differs, and for each
//! script the first step whose warrants differ.
#![tactic(auto)]

use agreement::Met;
use iom_core::Step;
use iom_tool::{WatchedReader, WatchedWriter};
use std::alloc::Global;
use std::process::ExitCode;
use std::{env, fs, io};

mod agreement;
mod generated;
mod steps;

// The output of a script on an image.
fn play(alloc: Global, image: &[u8], script: &[u8]) -> anyhow::Result<Vec<u8>> {
    let mut reader = script;
    let mut writer = Vec::new(alloc);
    let mut watched = WatchedReader::new(&mut reader);
    iom_play::play(
        alloc,
        image,
        &mut watched,
        &mut WatchedWriter::new(&mut writer),
    )?
    .ended?;
    Ok(writer)
}

// The scripts of a folder, without their endings, in the order of their names.
fn scripts(rt: &HostRuntime, folder: &str) -> io::Result<Vec<String>> {
    let mut scripts = Vec::new(rt.alloc());
    for entry in fs::read_dir(rt, folder)? {
        let entry = entry?;
        if let Some(script) = entry.path().as_os_str().strip_suffix(".script") {
            scripts.push(String::from_str(rt.alloc(), script)?)?;
        }
    }
    scripts.sort()?;
    Ok(scripts)
}

// Prints each answer that differs from the expected one.
fn compare(rt: &HostRuntime, name: &str, output: &[u8], expected: &[u8]) -> io::Result<()> {
    let answers = output.split(|c| *c == b'\n');
    let wanted = expected.split(|c| *c == b'\n');
    for (before, (answer, want)) in answers.zip(wanted).enumerate() {
        if answer != want {
            let (answer, want) = (answer.escape_ascii(), want.escape_ascii());
            println!(rt; "{name}: after {before} answers comes `{answer}`, not `{want}`")?;
        }
    }
    Ok(())
}

// The image for a script.
fn image(rt: &HostRuntime, name: &str) -> anyhow::Result<Vec<u8>> {
    let source = format!(in rt.alloc(); "{name}.asm")?;
    if !fs::exists(rt, source.as_str())? {
        let mut built_in = Vec::new(rt.alloc());
        built_in.extend_from_slice(&iom_asm::built_in())?;
        return Ok(built_in);
    }
    let text = fs::read(rt, source.as_str())?;
    Ok(iom_asm::assemble(rt.alloc(), text.as_slice())?)
}

// Whether `explain` gives the warrant of the history at each step from an image on. Prints the first step at which it doesn't.
fn is_agreed(
    rt: &HostRuntime,
    name: &str,
    image: &[u8],
    steps: &[Step],
    met: &mut Met,
) -> anyhow::Result<bool> {
    let Some(found) = agreement::first_difference(rt.alloc(), image, steps, met)? else {
        return Ok(true);
    };
    let (step, by_explain, by_history) = (found.step, found.by_explain, found.by_history);
    println!(rt;
        "{name}: at step {step} explain gives {by_explain:?}, and the history {by_history:?}"
    )?;
    Ok(false)
}

// Whether `explain` and the history agree at each step of the random lists, and each kind of warrant was met there.
fn is_agreed_at_random(rt: &HostRuntime) -> anyhow::Result<bool> {
    let alloc = rt.alloc();
    let text = generated::text(alloc)?;
    let image = iom_asm::assemble(alloc, text.as_slice())?;
    let mut met = Met::none();
    let mut is_well = true;
    for number in 0..generated::SCRIPTS {
        let steps = generated::steps(alloc, number)?;
        let name = format!(in alloc; "list {number}")?;
        is_well &= is_agreed(
            rt,
            name.as_str(),
            image.as_slice(),
            steps.as_slice(),
            &mut met,
        )?;
    }
    if !met.is_full() {
        println!(rt; "some kind of warrant was never met in the random lists")?;
    }
    Ok(is_well && met.is_full())
}

// Whether the output of a script is the expected one, and `explain` and the history agree at each of its steps.
fn is_as_expected(rt: &HostRuntime, name: &str) -> anyhow::Result<bool> {
    let script = fs::read(rt, format!(in rt.alloc(); "{name}.script")?)?;
    let expected = fs::read(rt, format!(in rt.alloc(); "{name}.expect")?)?;
    let image = image(rt, name)?;
    let output = play(rt.alloc(), image.as_slice(), script.as_slice())?;
    compare(rt, name, output.as_slice(), expected.as_slice())?;
    let steps = steps::of_script(rt.alloc(), script.as_slice())?;
    let mut met = Met::none();
    let is_agreed = is_agreed(rt, name, image.as_slice(), steps.as_slice(), &mut met)?;
    Ok(output == expected && is_agreed)
}

// Plays the scripts of the given folder, and ends with status 0 if all answers are the expected ones and all warrants agree.
fn main(rt: HostRuntime) -> anyhow::Result<ExitCode> {
    let Some(folder) = env::args(&rt)?.nth(1) else {
        println!(rt; "usage: iom_rows FOLDER")?;
        return Ok(ExitCode::FAILURE);
    };
    let scripts = scripts(&rt, folder.as_str())?;
    if scripts.is_empty() {
        println!(rt; "{folder} has no script")?;
        return Ok(ExitCode::FAILURE);
    }
    let mut is_well = is_agreed_at_random(&rt)?;
    for script in &scripts {
        is_well &= is_as_expected(&rt, script.as_str())?;
    }
    if !is_well {
        return Ok(ExitCode::FAILURE);
    }
    println!(rt;
        "all answers are the expected ones, and explain agrees with a history at each step"
    )?;
    Ok(ExitCode::SUCCESS)
}
