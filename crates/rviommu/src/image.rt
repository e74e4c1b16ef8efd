//! Images: a file has one, or the text of one.

use crate::fault::Fault;
use crate::files;
use std::alloc::Global;
use std::fs::Files;

/// How the name of a text ends.
const TEXT_END: &str = ".asm";

/// Whether the file of this name has the text of an image, and not its bytes.
pub fn is_text(name: &str) -> bool {
    name.ends_with(TEXT_END)
}

/// The image that a text is assembled to. `name` is the text's file.
pub fn assembled<'a>(alloc: Global, name: &'a str, text: &[u8]) -> Result<Vec<u8>, Fault<'a>> {
    iom_asm::assemble(alloc, text).map_err(|fault| Fault::of_text(name, fault, text))
}

/// The image in the file of this name, which is assembled first if it is a text. Its bytes may be none of an image. The faults are
/// `CannotRead`, `Assemble` and `OutOfMemory`.
pub fn read<'a>(rt: &impl Files, alloc: Global, name: &'a str) -> Result<Vec<u8>, Fault<'a>> {
    let bytes = files::read(rt, alloc, name)?;
    if is_text(name) {
        assembled(alloc, name, bytes.as_slice())
    } else {
        Ok(bytes)
    }
}
