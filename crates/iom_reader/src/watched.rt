ghost use Rattle.std.specs.Prelude.{◌≡◌, ◌<◌, ◌≤◌, ℕ, Option, take, length, is_none, not, true, false, IfSome, MatchOption};
ghost use Rattle.std.specs.Option.{unwrap_or};
ghost use Rattle.std.specs.Io.KnownBytes.{Appends, Consumes, Keeps, IsAtEnd};
ghost use Rattle.iom_reader.specs.Calls.{some_bytes};
ghost use Rattle.iom_reader.specs.Watching.{read_failed, write_failed, is_flushed};

use crate::calls::{ReadCalls, WriteCalls};

/// A reader that notes whether a read of it failed. After that it isn't called again.
#[derive(Drop)]
pub struct WatchedReader<'a, R> {
    /// The reader that is watched.
    pub inner: &'a mut R,
    // whether a read failed
    failed: bool,
}

impl<'a, R: ReadCalls> WatchedReader<'a, R> {
    /// A reader of which no read failed yet.
    pub fn new(inner: &'a mut R) -> WatchedReader<'a, R>
        ensures same_reader { result.inner.ghost_name ≡ inner.entry.ghost_name }
        ensures inner { result.inner.now ≡ inner.old }
        ensures failed { read_failed result ≡ false }
    {
        WatchedReader {
            inner,
            failed: false,
        }
    }

    /// Reads into a front of `piece`, and answers how many bytes; None if the read failed. All answers are flushed before, so that each is
    /// seen before more is waited for.
    pub(crate) fn read<W>(
        &mut self,
        piece: &mut [u8],
        _answers: &WatchedWriter<'_, W>,
    ) -> Option<usize>
        requires can { read_failed self.old ≡ false }
        requires flushed { is_flushed _answers.now ≡ true }
        ensures called { R.reads self.old.inner.now self.new.inner.now piece.new result }
        ensures bytes { MatchOption result
            (Keeps (R.remaining self.old.inner.now) (R.remaining self.new.inner.now))
            (λ count. Consumes (R.remaining self.old.inner.now) (R.remaining self.new.inner.now)
            (take count piece.new)) }
        ensures end { IfSome result (λ count. count ≡ 0 → 0 < length piece.new
            → IsAtEnd (R.remaining self.new.inner.now)) }
        ensures bound { IfSome result (λ count. count ≤ length piece.new) }
        ensures failed { read_failed self.new ≡ is_none result }
        ensures same_reader { self.new.inner.ghost_name ≡ self.old.inner.ghost_name }
    {
        let count = self.inner.read_once(piece);
        self.failed = count.is_none();
        count
    }
}

/// A writer that notes whether a call of it failed, and whether all that was written is flushed. After a call that
/// failed it isn't called again.
#[derive(Drop)]
pub struct WatchedWriter<'a, W> {
    /// The writer that is watched.
    pub inner: &'a mut W,
    // whether a write or a flush failed
    failed: bool,
    // whether all that was written is flushed
    flushed: bool,
}

impl<'a, W: WriteCalls> WatchedWriter<'a, W> {
    /// A writer of which no call failed yet.
    pub fn new(inner: &'a mut W) -> WatchedWriter<'a, W>
        ensures same_writer { result.inner.ghost_name ≡ inner.entry.ghost_name }
        ensures inner { result.inner.now ≡ inner.old }
        ensures failed { write_failed result ≡ false }
    {
        WatchedWriter {
            inner,
            failed: false,
            flushed: false,
        }
    }

    /// Writes a front of `text`, and answers how many bytes it has; None if the write failed or took no byte.
    #[inline(always)]
    pub(crate) fn write(&mut self, text: &[u8]) -> Option<usize>
        requires { write_failed self.old ≡ false }
        ensures called { (count : Option ℕ) × W.writes self.old.inner.now self.new.inner.now text.now count × (result ≡ some_bytes count) }
        ensures bytes { Appends (W.contents self.old.inner.now) (W.contents self.new.inner.now)
            (take (unwrap_or result 0) text.now) }
        ensures bound { IfSome result (λ count. (0 < count) × (count ≤ length text.now)) }
        ensures failed { write_failed self.new ≡ is_none result }
        ensures flushed { is_flushed self.new ≡ false }
        ensures same_writer { self.new.inner.ghost_name ≡ self.old.inner.ghost_name }
    {
        self.flushed = false;
        match self.inner.write_once(text) {
            Some(0) | None => {
                self.failed = true;
                None
            }
            Some(count) => Some(count),
        }
    }

    /// Flushes what isn't flushed, and answers whether that went well.
    pub(crate) fn flush(&mut self) -> bool
        requires { write_failed self.old ≡ false }
        ensures called { is_flushed self.old ≡ false → W.flushes self.old.inner.now self.new.inner.now result }
        ensures done_before { is_flushed self.old ≡ true → (self.new.inner.now ≡ self.old.inner.now) × (result ≡ true) }
        ensures bytes { Keeps (W.contents self.old.inner.now) (W.contents self.new.inner.now) }
        ensures failed { write_failed self.new ≡ not result }
        ensures flushed { result ≡ true → is_flushed self.new ≡ true }
        ensures same_writer { self.new.inner.ghost_name ≡ self.old.inner.ghost_name }
    {
        if !self.flushed {
            self.flushed = self.inner.flush_once();
            self.failed = !self.flushed;
        }
        self.flushed
    }
}
