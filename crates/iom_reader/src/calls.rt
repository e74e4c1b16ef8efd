//! Single calls of a reader and of a writer.

ghost use Rattle.std.specs.Prelude.{◌≡◌, ◌<◌, ◌≤◌, ℕ, Bool, List, Option, take, length, IfSome, MatchOption};
ghost use Rattle.std.specs.Option.{unwrap_or};
ghost use Rattle.std.specs.Io.KnownBytes.{Appends, Consumes, Keeps, IsAtEnd};
ghost use Rattle.iom_reader.specs.Calls.{GivesBytes, TakesBytes};

use std::io::{Read, Write};

/// A reader whose calls are known: what each of them changed, and answered.
pub trait ReadCalls {
    /// The bytes that reads will give from here on, where they are known.
    ghost remaining: { Self → Option (List ℕ) };

    /// One call: the reader before and after it, what its piece then holds, and how many bytes it gave; None if it answered an error.
    ghost reads: { Self → Self → List ℕ → Option ℕ → Type 0 };

    /// Calls the reader once, whatever it answers.
    fn read_once(&mut self, piece: &mut [u8]) -> Option<usize>
        ensures called { reads self.old self.new piece.new result }
        ensures gives { GivesBytes (remaining self.old) (remaining self.new) piece.new result };
}

/// A writer whose calls are known: what each of them changed, and answered.
pub trait WriteCalls {
    /// The bytes that it holds, where they are known.
    ghost contents: { Self → Option (List ℕ) };

    /// One write: the writer before and after it, its text, and how many bytes of it were taken; None if it answered an error.
    ghost writes: { Self → Self → List ℕ → Option ℕ → Type 0 };

    /// One flush: the writer before and after it, and whether it went well.
    ghost flushes: { Self → Self → Bool → Type 0 };

    /// Writes once, whatever that answers.
    fn write_once(&mut self, text: &[u8]) -> Option<usize>
        ensures called { writes self.old self.new text.now result }
        ensures takes { TakesBytes (contents self.old) (contents self.new) text.now result };

    /// Flushes once, whatever that answers.
    fn flush_once(&mut self) -> bool
        ensures called { flushes self.old self.new result }
        ensures bytes { Keeps (contents self.old) (contents self.new) };
}

impl<R: Read> ReadCalls for R {
    ghost use Rattle.iom_reader.specs.Calls.{GivesBytes};

    ghost remaining = { R.Read.remaining };

    ghost reads = { λ old new piece count. GivesBytes (R.Read.remaining old) (R.Read.remaining new) piece count };

    fn read_once(&mut self, piece: &mut [u8]) -> Option<usize> {
        self.read(piece).ok()
    }
}

impl<W: Write> WriteCalls for W {
    ghost use Rattle.std.specs.Io.KnownBytes.{Keeps};
    ghost use Rattle.iom_reader.specs.Calls.{TakesBytes};

    ghost contents = { W.Write.contents };

    ghost writes = { λ old new text count. TakesBytes (W.Write.contents old) (W.Write.contents new) text count };

    ghost flushes = { λ old new well. Keeps (W.Write.contents old) (W.Write.contents new) };

    #[inline(always)]
    fn write_once(&mut self, text: &[u8]) -> Option<usize> {
        self.write(text).ok()
    }

    fn flush_once(&mut self) -> bool {
        self.flush().is_ok()
    }
}
