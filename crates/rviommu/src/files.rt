//! Files, each as a whole.

use crate::fault::{Fault, Unread};
use iom_include::{TextFault, Texts};
use iom_reader::RunFault;
use std::alloc::Global;
use std::cell::Cell;
use std::fs::{self, File, Files};
use std::io::{self, ErrorKind, Read, Write};

/// The most bytes of a file that is read.
const MOST_BYTES: u64 = 1 << 30;

/// One byte more than a script may have.
const SCRIPT_BYTES: u64 = (1 << 26) + 1;

/// The bytes of a file of at most 2^30 bytes. The faults are `CannotRead` and `OutOfMemory`.
pub fn read<'a>(rt: &impl Files, alloc: Global, name: &'a str) -> Result<Vec<u8>, Fault<'a>> {
    let unread = |why| Fault::CannotRead {
        name,
        why: Some(why),
    };
    let file = File::open(rt, name).map_err(|error| unread(Unread::Failed(error.kind())))?;
    let mut bytes = Vec::new(alloc);
    match file.take(MOST_BYTES + 1).read_to_end(&mut bytes) {
        Ok(_) if bytes.len() as u64 <= MOST_BYTES => Ok(bytes),
        Ok(_) => Err(unread(Unread::TooLong)),
        Err(error) if error.kind() == ErrorKind::OutOfMemory => Err(Fault::OutOfMemory),
        Err(error) => Err(unread(Unread::Failed(error.kind()))),
    }
}

// The bytes of a file that a script includes: at most as many as a script may have.
fn read_text(rt: &impl Files, alloc: Global, name: &str) -> io::Result<Vec<u8>> {
    let mut bytes = Vec::new(alloc);
    File::open(rt, name)?
        .take(SCRIPT_BYTES)
        .read_to_end(&mut bytes)?;
    Ok(bytes)
}

/// The files that scripts include, each by its path.
#[derive(Drop)]
pub struct IncludedFiles<'r, R> {
    rt: &'r R,
    // of the last one that can't be read
    why: Cell<Option<Unread>>,
}

impl<'r, R: Files> IncludedFiles<'r, R> {
    /// Those of this host.
    pub fn new(rt: &'r R) -> IncludedFiles<'r, R> {
        IncludedFiles {
            rt,
            why: Cell::new(None),
        }
    }

    /// Why the last file that couldn't be read couldn't.
    pub fn why(&self) -> Option<Unread> {
        self.why.get()
    }
}

impl<R: Files> Texts for IncludedFiles<'_, R> {
    fn text(&self, alloc: Global, name: &str) -> Result<Vec<u8>, TextFault> {
        match read_text(self.rt, alloc, name) {
            Ok(bytes) if (bytes.len() as u64) < SCRIPT_BYTES => Ok(bytes),
            Ok(_) => Err(TextFault::TooLong),
            Err(error) if error.kind() == ErrorKind::OutOfMemory => Err(TextFault::OutOfMemory),
            Err(error) => {
                self.why.set(Some(Unread::Failed(error.kind())));
                Err(TextFault::Unreadable)
            }
        }
    }
}

/// The bytes of a script; of one that is too long, as many as show it. The faults are those of a read, and `OutOfMemory`.
pub fn read_script(alloc: Global, input: &mut impl Read) -> Result<Vec<u8>, Fault<'static>> {
    let mut bytes = Vec::new(alloc);
    match input.take(SCRIPT_BYTES).read_to_end(&mut bytes) {
        Ok(_) => Ok(bytes),
        Err(error) if error.kind() == ErrorKind::OutOfMemory => Err(Fault::OutOfMemory),
        Err(_) => Err(Fault::Run(RunFault::Read)),
    }
}

// Whether a name is that of a regular file, or of none yet.
fn is_regular(rt: &impl Files, name: &str) -> bool {
    fs::symlink_metadata(rt, name).map_or(true, |found| found.is_file())
}

// Writes bytes into a new file, and gives it a name, with the permissions of the file that has it.
fn fill<R: Files>(
    rt: &R,
    mut file: R::File,
    beside: &str,
    name: &str,
    bytes: &[u8],
) -> io::Result<()> {
    file.write_all(bytes)?;
    if let Ok(old) = fs::metadata(rt, name) {
        fs::set_permissions(rt, beside, old.permissions())?;
    }
    fs::rename(rt, beside, name)
}

/// Puts bytes into a file, in place of what it has. A regular file keeps what it has if that fails, since the bytes are first written into a
/// new file beside it, if its folder allows that; any other, as a pipe or a link, is written at once. The faults are `CannotWrite` and
/// `OutOfMemory`.
pub fn write<'a>(
    rt: &impl Files,
    alloc: Global,
    name: &'a str,
    bytes: &[u8],
) -> Result<(), Fault<'a>> {
    if is_regular(rt, name) {
        let beside = format!(in alloc; "{name}.rviommu-new")?;
        if let Ok(file) = File::create(rt, beside.as_str()) {
            let ended = fill(rt, file, beside.as_str(), name, bytes);
            return ended.map_err(|_| {
                let _ = fs::remove_file(rt, beside.as_str());
                Fault::CannotWrite(name)
            });
        }
    }
    fs::write(rt, name, bytes).map_err(|_| Fault::CannotWrite(name))
}
