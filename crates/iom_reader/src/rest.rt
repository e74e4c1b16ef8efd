ghost use Rattle.std.specs.Prelude.{◌≡◌, ◌==◌, ◌+◌, ◌<◌, ◌≤◌, ◌^◌, ◌++◌, ℕ, List, [], ◌∷◌, length, take, false, true, IfErr, IfOk, OnOk};
ghost use Rattle.std.specs.List.{list_any};
ghost use Rattle.iom_reader.specs.Answering.{AnswersNext, IsAnswering, Progress, progress};
ghost use Rattle.iom_reader.specs.Running.{Fed, AfterLines, AfterPiece, AfterEnd, is_write};
ghost use Rattle.iom_reader.specs.Watching.{write_failed, is_flushed};

use crate::answerer::Answerer;
use crate::fault::RunFault;
use crate::watched::WatchedWriter;
use crate::writing::flush;
use arrayvec::ArrayVec;
use iom_text::line_end;
use std::io::Write;

/// The most lines of a script.
const MOST_LINES: u64 = 1 << 20;

/// The most bytes of a script.
pub const MOST_BYTES: u64 = 1 << 26;

// A text where it has no line end, and else an empty one.
fn cut_line(text: &[u8]) -> &[u8]
    ensures cut { list_any (λ c. c == 10) result.now ≡ false }
    ensures whole { list_any (λ c. c == 10) text.now ≡ false → result.now ≡ text.now }
{
    if text.contains(&b'\n') { b"" } else { text }
}

/// The rest of a script between its pieces.
#[derive(Drop)]
pub struct Rest {
    /// The first bytes of the open line; if there are 513 it is too long.
    pub line: ArrayVec<u8, 513>,
    /// How many lines have their end: at most 2^20.
    pub lines: u64,
    /// How many bytes all pieces have: at most 2^26 are taken.
    pub bytes: u64,
}

impl Rest {
    /// Nothing kept yet.
    pub fn new() -> Self
        ensures line { result.line.items ≡ [] }
        ensures lines { result.lines ≡ 0 }
        ensures bytes { result.bytes ≡ 0 }
    {
        Rest {
            line: ArrayVec::new(),
            lines: 0,
            bytes: 0,
        }
    }

    // Keeps what follows in the open line, as far as it matters.
    fn keep(&mut self, part: &[u8])
        ensures line { self.new.line.items ≡ take 513 (self.old.line.items ++ part.now) }
        ensures lines { self.new.lines ≡ self.old.lines }
        ensures bytes { self.new.bytes ≡ self.old.bytes }
    {
        let count = part.len().min(self.line.remaining_capacity());
        let _fits = self.line.try_extend_from_slice(&part[..count]);
    }

    // Has the line that is kept answered.
    fn answer_kept<A: Answerer, W: Write>(
        &self,
        answerer: &mut A,
        writer: &mut WatchedWriter<'_, W>,
    ) -> Result<(), RunFault>
        requires { write_failed writer.old ≡ false }
        ensures next { list_any (λ c. c == 10) self.now.line.items ≡ false
            → AnswersNext A.answering self.now.line.items (progress (W.contents writer.old.inner.now) (A.state answerer.old))
            (progress (W.contents writer.new.inner.now) (A.state answerer.new)) result }
        ensures fault { IfErr result (λ fault. fault ≡ RunFault.Write) }
        ensures told { write_failed writer.new ≡ is_write result }
        ensures same_writer { writer.new.inner.ghost_name ≡ writer.old.inner.ghost_name }
        ensures names { A.names answerer.new ≡ A.names answerer.old }
    {
        answerer.answer(cut_line(self.line.as_slice()), writer)
    }

    // Answers the line that what is kept, this part and a line end make.
    fn line_done<A: Answerer, W: Write>(
        &mut self,
        answerer: &mut A,
        part: &[u8],
        writer: &mut WatchedWriter<'_, W>,
    ) -> Result<(), RunFault>
        requires lawful { IsAnswering A.answering }
        requires can { write_failed writer.old ≡ false }
        requires few { self.old.lines < 2 ^ 20 }
        requires one { list_any (λ c. c == 10) part.now ≡ false }
        ensures fed { (start : Progress A.answering.State) (text : List ℕ)
            → Fed A.answering start (progress (W.contents writer.old.inner.now) (A.state answerer.old))
            self.old.line.items self.old.lines (length text) text
            → length text + length part.now < 2 ^ 26
            → AfterPiece A.answering start (progress (W.contents writer.new.inner.now) (A.state answerer.new))
            self.new.line.items self.new.lines (length (text ++ (part.now ++ 10 ∷ []))) text
            (part.now ++ 10 ∷ []) result }
        ensures bytes { self.new.bytes ≡ self.old.bytes }
        ensures told { write_failed writer.new ≡ is_write result }
        ensures same_writer { writer.new.inner.ghost_name ≡ writer.old.inner.ghost_name }
        ensures names { A.names answerer.new ≡ A.names answerer.old }
    {
        self.lines += 1;
        if self.line.is_empty() {
            return answerer.answer(part, writer);
        }
        self.keep(part);
        self.answer_kept(answerer, writer)?;
        self.line.clear();
        Ok(())
    }

    // Answers the lines that end in this part of a script. The result is how many bytes they take.
    fn lines_done<A: Answerer, W: Write>(
        &mut self,
        answerer: &mut A,
        part: &[u8],
        writer: &mut WatchedWriter<'_, W>,
    ) -> Result<usize, RunFault>
        requires lawful { IsAnswering A.answering }
        requires can { write_failed writer.old ≡ false }
        ensures fed { (start : Progress A.answering.State) (text : List ℕ)
            → Fed A.answering start (progress (W.contents writer.old.inner.now) (A.state answerer.old))
            self.old.line.items self.old.lines (length text) text
            → length text + length part.now ≤ 2 ^ 26
            → AfterLines A.answering start (progress (W.contents writer.new.inner.now) (A.state answerer.new))
            self.new.line.items self.new.lines text part.now result }
        ensures within { IfOk result (λ count. count ≤ length part.now) }
        ensures bytes { self.new.bytes ≡ self.old.bytes }
        ensures told { write_failed writer.new ≡ is_write result }
        ensures same_writer { writer.new.inner.ghost_name ≡ writer.old.inner.ghost_name }
        ensures names { A.names answerer.new ≡ A.names answerer.old }
    {
        let mut from = 0;
        while let Some(at) = line_end(&part[from..]) {
            if self.lines >= MOST_LINES {
                return Err(RunFault::TooLong);
            }
            self.line_done(answerer, &part[from..from + at], writer)?;
            from += at + 1;
        }
        Ok(from)
    }

    /// Takes a piece of a script, and answers each line that it ends before it goes on. Whichever way a text is cut into pieces,
    /// the same is answered. The faults are `Write` and `TooLong`.
    pub fn feed<A: Answerer, W: Write>(
        &mut self,
        answerer: &mut A,
        piece: &[u8],
        writer: &mut WatchedWriter<'_, W>,
    ) -> Result<(), RunFault>
        requires lawful { IsAnswering A.answering }
        requires can { write_failed writer.old ≡ false }
        ensures fed { (start : Progress A.answering.State) (text : List ℕ)
            → Fed A.answering start (progress (W.contents writer.old.inner.now) (A.state answerer.old))
            self.old.line.items self.old.lines self.old.bytes text
            → AfterPiece A.answering start (progress (W.contents writer.new.inner.now) (A.state answerer.new))
            self.new.line.items self.new.lines self.new.bytes text piece.now result }
        ensures told { write_failed writer.new ≡ is_write result }
        ensures same_writer { writer.new.inner.ghost_name ≡ writer.old.inner.ghost_name }
        ensures names { A.names answerer.new ≡ A.names answerer.old }
    {
        let room = MOST_BYTES.saturating_sub(self.bytes);
        let taken = &piece[..piece.len().min(room as usize)];
        self.bytes += taken.len() as u64;
        let done = self.lines_done(answerer, taken, writer)?;
        if done < taken.len() && self.lines >= MOST_LINES {
            return Err(RunFault::TooLong);
        }
        self.keep(&taken[done..]);
        if taken.len() < piece.len() {
            return Err(RunFault::TooLong);
        }
        Ok(())
    }

    /// Answers a last line that lacks its line end, if it has a byte, and flushes. The fault is `Write`.
    pub fn finish<A: Answerer, W: Write>(
        &mut self,
        answerer: &mut A,
        writer: &mut WatchedWriter<'_, W>,
    ) -> Result<(), RunFault>
        requires lawful { IsAnswering A.answering }
        requires can { write_failed writer.old ≡ false }
        ensures fed { (start : Progress A.answering.State) (text : List ℕ)
            → Fed A.answering start (progress (W.contents writer.old.inner.now) (A.state answerer.old))
            self.old.line.items self.old.lines self.old.bytes text
            → AfterEnd A.answering start (progress (W.contents writer.new.inner.now) (A.state answerer.new)) text result }
        ensures told { write_failed writer.new ≡ is_write result }
        ensures flushed { OnOk result (is_flushed writer.new ≡ true) }
        ensures same_writer { writer.new.inner.ghost_name ≡ writer.old.inner.ghost_name }
        ensures names { A.names answerer.new ≡ A.names answerer.old }
    {
        if self.line.as_slice().is_empty() {
            return flush(writer);
        }
        self.answer_kept(answerer, writer)?;
        flush(writer)
    }
}
