//! Standard output, of which is known whether somebody still reads it.

ghost use Rattle.std.specs.Prelude.{◌≡◌};

use std::cell::Cell;
use std::io::{self, ErrorKind, Write};

/// A writer that notes when a write fails since nobody reads from its pipe.
#[derive(Drop)]
pub struct Piped<'c, W> {
    output: W,
    is_unread: &'c Cell<bool>,
}

impl<'c, W> Piped<'c, W> {
    /// What is written goes to `output`; `is_unread` becomes true when such a write fails.
    pub fn new(output: W, is_unread: &'c Cell<bool>) -> Piped<'c, W> {
        Piped { output, is_unread }
    }
}

// What a call came to, noted.
fn noted<T>(ended: io::Result<T>, is_unread: &Cell<bool>) -> io::Result<T>
    ensures { result ≡ ended }
{
    match ended {
        Ok(done) => Ok(done),
        Err(error) => {
            if error.kind() == ErrorKind::BrokenPipe {
                is_unread.set(true);
            }
            Err(error)
        }
    }
}

impl<W: Write> Write for Piped<'_, W> {
    ghost contents = { λ p. W.contents p.output };

    fn write(&mut self, buf: &[u8]) -> io::Result<usize> {
        noted(self.output.write(buf), self.is_unread)
    }

    fn flush(&mut self) -> io::Result<()> {
        noted(self.output.flush(), self.is_unread)
    }
}
