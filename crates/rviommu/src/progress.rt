//! The progress of a script, shown on standard error while it is read.

use std::fs::{self, Files};
use std::io::{self, Read};
use std::time::{Clock, Duration, Instant};

/// The seconds for which a script is played before its progress is shown.
const PATIENCE: u64 = 1;

/// A script of a known size that is played.
#[derive(Clone, Copy)]
struct Watch {
    start: Instant,
    // in bytes
    size: u64,
    // the percentage that was printed last
    told: Option<u64>,
}

/// A script that is read. How far it is stands in one line that is written again and again, and cleared at the end.
#[derive(Drop)]
pub struct Progress<'r, R, I> {
    rt: &'r R,
    word: &'r str,
    watch: Option<Watch>,
    input: I,
    // how many bytes were read
    taken: u64,
}

/// The bytes of the script on standard input, where that is a file and its progress is shown.
pub fn size_of_input(rt: &impl Files, is_shown: bool) -> Option<u64> {
    if !is_shown {
        return None;
    }
    let script = fs::metadata(rt, "/dev/stdin").ok()?;
    if script.is_file() {
        Some(script.len())
    } else {
        None
    }
}

// A watch on a script of a known size, where it isn't empty.
fn watch_on(rt: &impl Clock, size: Option<u64>) -> Option<Watch> {
    let size = size?;
    if size == 0 {
        return None;
    }
    Some(Watch {
        start: Instant::now(rt).ok()?,
        size,
        told: None,
    })
}

impl<'r, R: Clock + Eprint, I: Read> Progress<'r, R, I> {
    /// The progress of a script that this word plays. It is shown only if the script's size is given.
    pub fn new(rt: &'r R, word: &'r str, size: Option<u64>, input: I) -> Progress<'r, R, I> {
        Progress {
            rt,
            word,
            watch: watch_on(rt, size),
            input,
            taken: 0,
        }
    }

    /// Clears the line of progress.
    pub fn clear(&mut self) {
        if let Some(Watch { told: Some(_), .. }) = self.watch {
            let _ = self.rt.eprint("\r                \r");
        }
    }
}

impl<R: Clock + Eprint, I: Read> Read for Progress<'_, R, I> {
    ghost remaining = { λ p. I.remaining p.input };

    // What was read before is played by now.
    fn read(&mut self, buffer: &mut [u8]) -> io::Result<usize> {
        reach(self.rt, self.word, &mut self.watch, self.taken);
        let count = self.input.read(buffer)?;
        self.taken = self.taken.saturating_add(count as u64);
        Ok(count)
    }
}

// Prints the percentage of the script that this number of bytes is, if it takes long. Write errors are ignored.
fn reach(rt: &(impl Clock + Eprint), word: &str, watch: &mut Option<Watch>, bytes: u64) {
    let Some(watch) = watch else {
        return;
    };
    let is_long = match watch.start.elapsed(rt) {
        Ok(time) => time >= Duration::from_secs(PATIENCE),
        Err(_) => false,
    };
    let hundredths = bytes.min(watch.size).saturating_mul(100);
    let percent = hundredths.checked_div(watch.size);
    if !is_long || percent == watch.told {
        return;
    }
    watch.told = percent;
    let percent = percent.unwrap_or(0);
    let _ = rt.eprint(format_args!("\r{word}: {percent} %"));
}
