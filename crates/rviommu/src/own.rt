//! The image that a script names itself, by its first line `image FILE`.

use crate::fault::Fault;
use crate::image;
use iom_cli::{image_named, without_image};
use std::alloc::{AllocError, Global};
use std::fs::Files;
use std::io::{self, Read};
use std::path::{Path, PathBuf};
use std::str;

/// One byte more than a line has that says something.
const MOST_BYTES: usize = 513;

/// A script whose first line was read already.
#[derive(Drop)]
pub struct Begun<I> {
    // what was read of it
    line: Vec<u8>,
    // how many bytes of that were given
    given: usize,
    // how the last read failed
    fault: Option<io::Error>,
    input: I,
}

impl<I: Read> Read for Begun<I> {
    fn read(&mut self, buffer: &mut [u8]) -> io::Result<usize> {
        let line = self.line.as_slice();
        if self.given < line.len() {
            let left = &line[self.given..];
            let count = left.len().min(buffer.len());
            buffer[..count].copy_from_slice(&left[..count]);
            self.given += count;
            return Ok(count);
        }
        match self.fault.take() {
            Some(fault) => Err(fault),
            None => self.input.read(buffer),
        }
    }
}

// The name of a file that a script names, from the folder of the script.
fn name_at(alloc: Global, from: &str, file: &str) -> Result<PathBuf, AllocError> {
    match Path::new(from).parent() {
        Some(folder) => folder.join(alloc, file),
        None => Path::new("").join(alloc, file),
    }
}

// The image in the file of this name, which is assembled first if it is a text.
fn image_in<'a>(rt: &impl Files, alloc: Global, name: &'a str) -> Result<Vec<u8>, Fault<'a>> {
    let image = image::read(rt, alloc, name)?;
    match iom_asm::judge(image.as_slice()) {
        Ok(()) => Ok(image),
        Err(fault) => Err(Fault::from(fault).of_image(name)),
    }
}

/// The image that a script names itself, by what it begins with; None if it names none. `from` is its file; if it has none, empty. If the words
/// name an image, it may not.
pub fn image<'a>(
    rt: &impl Files,
    alloc: Global,
    is_named: bool,
    from: &'a str,
    begin: &[u8],
) -> Result<Option<Vec<u8>>, Fault<'a>> {
    let Some(file) = image_named(begin) else {
        return Ok(None);
    };
    if is_named {
        return Err(Fault::TwoImages { from });
    }
    let Ok(file) = str::from_utf8(file) else {
        return Err(Fault::of_own_image(
            alloc,
            from,
            &Fault::CannotRead {
                name: "?",
                why: None,
            },
        ));
    };
    let name = name_at(alloc, from, file)?;
    match image_in(rt, alloc, name.as_str()) {
        Ok(image) => Ok(Some(image)),
        Err(fault) => Err(Fault::of_own_image(alloc, from, &fault)),
    }
}

// The script that an input gives, of which the first line is read.
fn started<I: Read + Drop>(alloc: Global, mut input: I) -> Result<Begun<I>, AllocError> {
    let mut line = Vec::new(alloc);
    let mut fault = None;
    for _ in 0..MOST_BYTES {
        let mut byte = [0];
        match input.read(&mut byte) {
            Ok(0) => break,
            Ok(_) => line.extend_from_slice(&byte)?,
            Err(error) => {
                fault = Some(error);
                break;
            }
        }
        if byte == *b"\n" {
            break;
        }
    }
    Ok(Begun {
        line,
        given: 0,
        fault,
        input,
    })
}

/// The script that an input gives, and the image that it names itself, as `image`. Its first line is waited for.
pub fn begin<'a, I: Read + Drop>(
    rt: &impl Files,
    alloc: Global,
    is_named: bool,
    from: &'a str,
    input: I,
) -> Result<(Option<Vec<u8>>, Begun<I>), Fault<'a>> {
    let mut script = started(alloc, input)?;
    let line = script.line.as_slice();
    let own = image(rt, alloc, is_named, from, line)?;
    if own.is_some() {
        script.given = line.len().saturating_sub(without_image(line).len());
    }
    Ok((own, script))
}
