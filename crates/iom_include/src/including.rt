//! A script whose lines may include texts, as a reader.

ghost use Rattle.std.specs.Prelude.{◌≡◌, ◌==◌, ◌≤◌, ◌++◌, ◌∷◌, ℕ, List, Option, Some, None, [], drop, length, false, true, IfErr, IfNone, IfOk, IfSome, OnOk, OnErr};
ghost use Rattle.std.specs.List.{list_any};
ghost use Rattle.std.specs.Io.KnownBytes.{Consumes, IsAtEnd, Keeps};
ghost use Rattle.iom_include.specs.Faults.{IsFault};
ghost use Rattle.iom_include.specs.Including.{file_of, left_by, said};
ghost use Rattle.iom_reader.specs.Lines.{ended_lines};

use crate::expanding::{Expansion, Place, Source, push_line};
use crate::fault::IncludeFault;
use crate::kept::KeptTexts;
use crate::lines::{cut, file_of};
use crate::texts::Texts;
use std::alloc::Global;
use std::io::{self, ErrorKind, Read};

/// How many texts may include each other.
const MOST_DEPTH: u64 = 8;

/// The most bytes of a line that isn't over.
const MOST_BYTES: usize = 1 << 26;

/// The most bytes that are asked of a reader at once.
const MOST_BYTES_OF_A_PIECE: usize = 0x8000;

// What stands for a line of a script.
fn text_for<T: Texts>(
    source: &Source<'_, T>,
    at: Place<'_>,
    line: &[u8],
) -> Result<Expansion, IncludeFault>
    ensures said { IfOk result (λ out. IfSome (T.known source.now.texts.now) (λ texts. out.text.items ≡ said texts 8 at.entry.name.now line.now)) }
    ensures fault { IfErr result (IsFault (T.known source.now.texts.now) (T.gives source.now.texts.now) (T.lacks source.now.texts.now)
        at.entry.name.now line.now) }
{
    let mut out = Expansion {
        text: Vec::new(source.alloc),
        lines: 0,
    };
    let mut kept = KeptTexts::new(source.alloc);
    push_line(source, &mut kept, MOST_DEPTH, at, line, &mut out)?;
    Ok(out)
}

// Appends what stands for a line of a script that includes a file. A fault changes nothing.
fn push_included<T: Texts>(
    source: &Source<'_, T>,
    at: Place<'_>,
    line: &[u8],
    out: &mut Expansion,
) -> Result<(), IncludeFault>
    ensures ok { OnOk result (IfSome (T.known source.now.texts.now) (λ texts. out.new.text.items ≡ out.old.text.items
        ++ said texts 8 at.entry.name.now line.now)) }
    ensures err { OnErr result (out.new.text.items ≡ out.old.text.items) }
    ensures fault { IfErr result (IsFault (T.known source.now.texts.now) (T.gives source.now.texts.now) (T.lacks source.now.texts.now)
        at.entry.name.now line.now) }
{
    let more = text_for(source, at, line)?;
    out.text.extend_from_slice(more.text.as_slice())?;
    out.lines = out.lines.saturating_add(more.lines);
    Ok(())
}

// Appends a text that is a line with its end. A fault changes nothing.
fn push_whole(whole: &[u8], out: &mut Expansion) -> Result<(), IncludeFault>
    ensures ok { OnOk result (out.new.text.items ≡ out.old.text.items ++ whole.now) }
    ensures err { OnErr result (out.new.text.items ≡ out.old.text.items) }
    ensures fault { IfErr result (λ fault. fault ≡ IncludeFault.OutOfMemory) }
{
    out.text.extend_from_slice(whole)?;
    out.lines = out.lines.saturating_add(1);
    Ok(())
}

// Appends what stands for a line of a script, which `whole` is with its line end. A fault changes nothing.
#[tactic(auto, using(crate::proofs::Lefts::plain_ready))]
fn push_ready<T: Texts>(
    source: &Source<'_, T>,
    at: Place<'_>,
    line: &[u8],
    whole: &[u8],
    out: &mut Expansion,
) -> Result<(), IncludeFault>
    requires { whole.now ≡ line.now ++ 10 ∷ [] }
    ensures ok { OnOk result (IfSome (T.known source.now.texts.now) (λ texts. out.new.text.items ≡ out.old.text.items
        ++ said texts 8 at.entry.name.now line.now)) }
    ensures plain { OnOk result (None ≡ file_of line.now → out.new.text.items ≡ out.old.text.items ++ (line.now ++ 10 ∷ [])) }
    ensures err { OnErr result (out.new.text.items ≡ out.old.text.items) }
    ensures fault { IfErr result (IsFault (T.known source.now.texts.now) (T.gives source.now.texts.now) (T.lacks source.now.texts.now)
        at.entry.name.now line.now) }
{
    match file_of(line) {
        Some(_) => push_included(source, at, line, out),
        None => push_whole(whole, out),
    }
}

// Appends what stands for the lines of a script that have their end. The result is how many bytes of the script these take, and the fault of
// the next line.
fn push_all<T: Texts>(
    source: &Source<'_, T>,
    name: &str,
    script: &[u8],
    line: &mut u64,
    out: &mut Expansion,
) -> (usize, Option<IncludeFault>)
    ensures within { result.0 ≤ length script.now }
    ensures kept { (more : List ℕ) → Keeps (left_by (T.known source.now.texts.now) (Some more) out.old.text.items name.now script.now)
        (left_by (T.known source.now.texts.now) (Some more) out.new.text.items name.now (drop result.0 script.now)) }
    ensures fault { IfSome result.1 (λ fault. (line : List ℕ) × (lines : List (List ℕ)) × (ended_lines (drop result.0 script.now) ≡ line ∷ lines)
        × IsFault (T.known source.now.texts.now) (T.gives source.now.texts.now) (T.lacks source.now.texts.now) name.now line fault) }
    ensures all { IfNone result.1 (list_any (λ c. c == 10) (drop result.0 script.now) ≡ false) }
{
    let mut done = 0;
    while let Some((first, _)) = cut(&script[done..]) {
        let end = done + first.len() + 1;
        let at = Place {
            name,
            line: line.saturating_add(1),
        };
        if let Err(fault) = push_ready(source, at, first, &script[done..end], out) {
            return (done, Some(fault));
        }
        *line = at.line;
        done = end;
    }
    (done, None)
}

// Forgets the first bytes of a script.
fn forget(script: &mut Vec<u8>, done: usize)
    requires { done ≤ length script.old.items }
    ensures { script.new.items ≡ drop done script.old.items }
{
    let left = script.len() - done;
    script.as_mut_slice().rotate_left(done);
    script.truncate(left);
}

// Reads a piece of a script on, behind its open line; where there is none the open line gets its end. The result is whether nothing is
// left.
fn read_on<R: Read>(reader: &mut R, script: &mut Vec<u8>) -> io::Result<bool>
    requires { list_any (λ c. c == 10) script.old.items ≡ false }
    ensures kept { (known : Option (List ℕ → List ℕ)) (ready name : List ℕ)
        → Keeps (left_by known (R.remaining reader.old) ready name script.old.items)
        (left_by known (R.remaining reader.new) ready name script.new.items) }
    ensures end { IfOk result (λ end. end ≡ true → (script.new.items ≡ []) × IsAtEnd (R.remaining reader.new)) }
{
    script.try_reserve(MOST_BYTES_OF_A_PIECE)?;
    let mut piece = [0; MOST_BYTES_OF_A_PIECE];
    let count = reader.read(&mut piece)?;
    if count > 0 {
        script.extend_from_slice(&piece[..count])?;
        return Ok(false);
    }
    if script.is_empty() {
        return Ok(true);
    }
    script.extend_from_slice(b"\n")?;
    Ok(false)
}

/// A script, read with the texts that its lines include in their place. After a fault of a line it reads no further.
#[derive(Drop)]
pub struct Including<'t, 'n, T, R> {
    source: Source<'t, T>,
    name: &'n str,
    reader: R,
    // what was read, and stands for nothing yet
    script: Vec<u8>,
    // how many of its lines do
    line: u64,
    expansion: Expansion,
    // how many bytes of the expansion were given
    given: usize,
    fault: Option<IncludeFault>,
}

impl<'t, 'n, T: Texts, R: Read> Including<'t, 'n, T, R> {
    ghost use Rattle.std.specs.Prelude.{◌≡◌, ◌≤◌, None, [], drop, length, false, true, IfOk, OnOk};
    ghost use Rattle.std.specs.Io.KnownBytes.{IsAtEnd, Keeps};
    ghost use Rattle.iom_include.specs.Including.{left_by};
    ghost use Rattle.iom_include.specs.Reading.{HasFault, fault_of, remaining_of};

    /// The script that `reader` gives, with these texts. Its lines name them from the folder of `name`; without a name it is empty.
    pub fn new(alloc: Global, texts: &'t T, name: &'n str, reader: R) -> Including<'t, 'n, T, R>
        ensures remaining { remaining_of T.known R.remaining result ≡ left_by (T.known texts.now) (R.remaining reader) [] name.now [] }
        ensures faultless { fault_of result ≡ None }
    {
        Including {
            source: Source { alloc, texts },
            name,
            reader,
            script: Vec::new(alloc),
            line: 0,
            expansion: Expansion {
                text: Vec::new(alloc),
                lines: 0,
            },
            given: 0,
            fault: None,
        }
    }

    /// Why it reads no further, where that isn't a fault of its reader.
    pub fn take_fault(&mut self) -> Option<IncludeFault>
        ensures { result ≡ fault_of self.old }
    {
        self.fault.take()
    }

    // Makes the lines ready that have their end, or reads a piece on where there are none. The result is whether bytes are ready or nothing is
    // left.
    fn turn(&mut self) -> io::Result<bool>
        requires none { self.old.expansion.text.items ≡ [] }
        requires given { self.old.given ≡ 0 }
        ensures kept { Keeps (remaining_of T.known R.remaining self.old) (remaining_of T.known R.remaining self.new) }
        ensures end { IfOk result (λ done. done ≡ true → self.new.expansion.text.items ≡ [] → IsAtEnd (remaining_of T.known R.remaining self.new)) }
        ensures more { IfOk result (λ done. done ≡ false → self.new.expansion.text.items ≡ []) }
        ensures fault { fault_of self.old ≡ None → HasFault T.known T.gives T.lacks self.new }
        ensures faultless { OnOk result (fault_of self.new ≡ fault_of self.old) }
        ensures given { self.new.given ≡ 0 }
    {
        let (done, fault) = push_all(
            &self.source,
            self.name,
            self.script.as_slice(),
            &mut self.line,
            &mut self.expansion,
        );
        forget(&mut self.script, done);
        if !self.expansion.text.is_empty() {
            return Ok(true);
        }
        if let Some(fault) = fault {
            self.fault = Some(fault);
            return Err(io::Error::from(ErrorKind::Other));
        }
        if self.script.len() > MOST_BYTES {
            self.fault = Some(IncludeFault::LongLine);
            return Err(io::Error::from(ErrorKind::Other));
        }
        match read_on(&mut self.reader, &mut self.script) {
            Ok(end) => Ok(end),
            Err(error) => {
                if error.kind() == ErrorKind::OutOfMemory {
                    self.fault = Some(IncludeFault::OutOfMemory);
                }
                Err(error)
            }
        }
    }

    // Makes some bytes ready, where none are.
    fn refill(&mut self) -> io::Result<()>
        requires none { drop self.old.given self.old.expansion.text.items ≡ [] }
        ensures kept { Keeps (remaining_of T.known R.remaining self.old) (remaining_of T.known R.remaining self.new) }
        ensures end { OnOk result (self.new.expansion.text.items ≡ [] → IsAtEnd (remaining_of T.known R.remaining self.new)) }
        ensures fault { fault_of self.old ≡ None → HasFault T.known T.gives T.lacks self.new }
        ensures faultless { OnOk result (fault_of self.new ≡ fault_of self.old) }
        ensures given { self.new.given ≡ 0 }
    {
        self.expansion.text.clear();
        self.given = 0;
        for _turn in 0..u64::MAX {
            if self.turn()? {
                return Ok(());
            }
        }
        Err(io::Error::from(ErrorKind::Other))
    }

    // Makes some bytes ready, unless some are.
    fn fill(&mut self) -> io::Result<()>
        ensures kept { Keeps (remaining_of T.known R.remaining self.old) (remaining_of T.known R.remaining self.new) }
        ensures end { OnOk result (drop self.new.given self.new.expansion.text.items ≡ [] → IsAtEnd (remaining_of T.known R.remaining self.new)) }
        ensures within { OnOk result (self.new.given ≤ length self.new.expansion.text.items) }
        ensures fault { fault_of self.old ≡ None → HasFault T.known T.gives T.lacks self.new }
        ensures faultless { OnOk result (fault_of self.new ≡ fault_of self.old) }
    {
        if self.given < self.expansion.text.len() {
            return Ok(());
        }
        self.refill()
    }
}

impl<T: Texts, R: Read> Read for Including<'_, '_, T, R> {
    ghost use Rattle.std.specs.Prelude.{◌≡◌, None, OnOk};
    ghost use Rattle.std.specs.Io.{ReadsAtMost};
    ghost use Rattle.std.specs.Io.KnownBytes.{ReadConsumes};
    ghost use Rattle.iom_include.specs.Reading.{HasFault, fault_of, remaining_of};

    ghost remaining = { remaining_of T.known R.remaining };

    /// Reads a front of what is left, as any reader. If it has a fault after that, it is of the next line of the script, or want of memory.
    fn read(&mut self, buf: &mut [u8]) -> io::Result<usize>
        ensures bound { ReadsAtMost result buf.new }
        ensures bytes { ReadConsumes (remaining_of T.known R.remaining self.old) (remaining_of T.known R.remaining self.new) result buf.new }
        ensures fault { fault_of self.old ≡ None → HasFault T.known T.gives T.lacks self.new }
        ensures faultless { OnOk result (fault_of self.new ≡ fault_of self.old) }
    {
        self.fill()?;
        let ready = &self.expansion.text.as_slice()[self.given..];
        let count = ready.len().min(buf.len());
        buf[..count].copy_from_slice(&ready[..count]);
        self.given += count;
        Ok(count)
    }
}
