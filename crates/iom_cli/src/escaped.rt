use std::fmt::{self, Display, Formatter, Write};

/// A word of the command line with its control characters escaped, so that a message with it is one line.
#[derive(Clone, Copy)]
pub struct Escaped<'a>(pub &'a str);

impl Display for Escaped<'_> {
    fn fmt<W: Write>(&self, f: &mut Formatter<W>) -> fmt::Result {
        for c in self.0.chars() {
            if c.is_control() {
                Display::fmt(&c.escape_default(), f)?;
            } else {
                f.write_char(c)?;
            }
        }
        Ok(())
    }
}
