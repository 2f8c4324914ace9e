//! Readers and writers that report whether they have failed, and whether the written bytes are flushed.
ghost use Rattle.std.specs.Prelude.{◌≡◌, ◌<◌, Bool, true, false, List, length, Option, None, IfOk, OnOk, OnErr, Ok};
ghost use Rattle.std.specs.Io.{ReadsAtMost, WritesAtMost};
ghost use Rattle.std.specs.Io.KnownBytes.{ReadConsumes, WriteAppends, Keeps};
ghost use Rattle.line_loop.specs.Watch.{Watch};
ghost use Rattle.line_loop.specs.Logs.{Logged, bytes_read, KeepsRead};

use std::io;
use std::io::{Read, Write};
use std::marker::Model;

/// Tells whether a reader or a writer has failed: true from its first error on, or from its first write of some bytes
/// that took none.
pub trait Failed {
    ghost has_failed: { Self → Bool };

    /// Whether it has failed by now.
    fn failed(&self) -> bool
        ensures { result ≡ has_failed self.now };
}

/// Tells whether what was written to a writer is flushed: a write makes it false, and a flush without an error true.
pub trait Flushes {
    ghost is_flushed: { Self → Bool };

    /// Whether all that was written is flushed.
    fn flushed(&self) -> bool
        ensures { result ≡ is_flushed self.now };
}

/// A reader whose log has each read together with the state of the writer that answers it.
///
/// A clause over its log says that no reply is held back: the log has the writer's bytes at each read. The clause holds for any such
/// reader, since the reading code knows nothing else of it.
pub trait ReadsWithWriter<W: Write + Flushes>: Read + Failed {
    // The result of each read, in turn, if it is known.
    ghost log: { Self → Option (List Logged) } = { λ _. None };

    /// Reads as [`Read::read`] does. The log gets the state of the writer.
    ///
    /// # Errors
    ///
    /// Those of the reader.
    fn read_with_writer(&mut self, writer: &W, buf: &mut [u8]) -> io::Result<usize>
        ensures bound { ReadsAtMost result buf.new }
        ensures bytes { ReadConsumes
            (Self.remaining self.old) (Self.remaining self.new) result buf.new }
        // The log gets what the writer holds, and the bytes that were read.
        ensures kept { KeepsRead (log self.old) (log self.new)
            (W.contents writer.now) (W.is_flushed writer.now) (bytes_read result buf.new) }
        ensures well { OnOk result (Self.has_failed self.new ≡ Self.has_failed self.old) };
}

/// Any reader or writer, watched from when it was wrapped.
#[derive(Drop)]
pub struct Watched<T> {
    inner: T,
    has_failed: bool,
    is_flushed: bool,
}

impl<T> Model for Watched<T> {
    ghost Value = { Watch T };

    ghost view = { λ w. record {
      inner = w.inner;
      has_failed = w.has_failed;
      is_flushed = w.is_flushed;
    } };
}

impl<T> Watched<T> {
    /// Watches it from now on: nothing is written yet that is not flushed.
    pub fn new(inner: T) -> Watched<T>
        ensures fresh { result.has_failed ≡ false }
        ensures flushed { result.is_flushed ≡ true }
        ensures inner { result.inner ≡ inner }
    {
        Watched {
            inner,
            has_failed: false,
            is_flushed: true,
        }
    }

    /// What is watched.
    pub fn inner(&self) -> &T
        ensures { result.now ≡ self.now.inner }
    {
        &self.inner
    }

    /// Watches no longer.
    pub fn into_inner(self) -> T
        ensures { result ≡ self.inner }
    {
        let Watched {
            inner,
            has_failed: _,
            is_flushed: _,
        } = self;
        inner
    }
}

impl<T> Failed for Watched<T> {
    ghost has_failed = { λ w. w.has_failed };

    fn failed(&self) -> bool {
        self.has_failed
    }
}

impl<T> Flushes for Watched<T> {
    ghost is_flushed = { λ w. w.is_flushed };

    fn flushed(&self) -> bool {
        self.is_flushed
    }
}

impl<R: Read> Read for Watched<R> {
    ghost remaining = { λ w. R.remaining w.inner };

    fn read(&mut self, buf: &mut [u8]) -> io::Result<usize>
        ensures bound { ReadsAtMost result buf.new }
        ensures bytes { ReadConsumes
            (R.remaining self.old.inner) (R.remaining self.new.inner) result buf.new }
        ensures ok { OnOk result (self.new.has_failed ≡ self.old.has_failed) }
        ensures err { OnErr result (self.new.has_failed ≡ true) }
    {
        match self.inner.read(buf) {
            Ok(n) => Ok(n),
            Err(e) => {
                self.has_failed = true;
                Err(e)
            }
        }
    }
}

impl<R: Read, W: Write + Flushes> ReadsWithWriter<W> for Watched<R> {
    fn read_with_writer(&mut self, _writer: &W, buf: &mut [u8]) -> io::Result<usize>
        ensures bound { ReadsAtMost result buf.new }
        ensures bytes { ReadConsumes
            (R.remaining self.old.inner) (R.remaining self.new.inner) result buf.new }
        ensures kept { KeepsRead None None
            (W.contents _writer.now) (W.is_flushed _writer.now) (bytes_read result buf.new) }
        ensures well { OnOk result (self.new.has_failed ≡ self.old.has_failed) }
        ensures err { OnErr result (self.new.has_failed ≡ true) }
    {
        self.read(buf)
    }
}

impl<W: Write> Write for Watched<W> {
    ghost contents = { λ w. W.contents w.inner };

    fn write(&mut self, buf: &[u8]) -> io::Result<usize>
        ensures bound { WritesAtMost result buf.now }
        ensures bytes { WriteAppends
            (W.contents self.old.inner) (W.contents self.new.inner) result buf.now }
        ensures some { IfOk result (λ n. 0 < n → self.new.has_failed ≡ self.old.has_failed) }
        ensures none { result ≡ Ok 0 → 0 < length buf.now → self.new.has_failed ≡ true }
        ensures err { OnErr result (self.new.has_failed ≡ true) }
        ensures flushed { self.new.is_flushed ≡ false }
    {
        self.is_flushed = false;
        match self.inner.write(buf) {
            Ok(n) => {
                if n == 0 && !buf.is_empty() {
                    self.has_failed = true;
                }
                Ok(n)
            }
            Err(e) => {
                self.has_failed = true;
                Err(e)
            }
        }
    }

    fn flush(&mut self) -> io::Result<()>
        ensures bytes { Keeps (W.contents self.old.inner) (W.contents self.new.inner) }
        ensures ok { OnOk result (self.new.has_failed ≡ self.old.has_failed) }
        ensures err { OnErr result (self.new.has_failed ≡ true) }
        ensures flushed { OnOk result (self.new.is_flushed ≡ true) }
        ensures unflushed { OnErr result (self.new.is_flushed ≡ self.old.is_flushed) }
    {
        match self.inner.flush() {
            Ok(()) => {
                self.is_flushed = true;
                Ok(())
            }
            Err(e) => {
                self.has_failed = true;
                Err(e)
            }
        }
    }
}
