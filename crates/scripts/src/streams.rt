//! Sources and sinks over the streams of std.
ghost use Rattle.std.specs.Prelude.{◌≡◌, true, false};
ghost use Rattle.std.specs.Io.{ReadsAtMost, WritesAtMost};
ghost use Rattle.std.specs.Io.KnownBytes.{ReadConsumes, WriteAppends};

use crate::stream::{Broken, Sink, Source};
use std::io;

/// How often an interrupted call is made at most, since each loop is to end.
const MAX_CALLS: u32 = 1_000_000;

/// A source over a reader. Each read is one call of the reader, unless that is interrupted.
#[derive(Drop)]
pub struct Reading<R> {
    inner: R,
    reads: u64,
    failed: bool,
}

/// A sink over a writer. Each write is one call of the writer, unless that is interrupted.
#[derive(Drop)]
pub struct Writing<W> {
    inner: W,
    failed: bool,
    handed_on: bool,
}

impl<R: io::Read> Reading<R> {
    /// A source over this reader, of which no read was made.
    pub fn new(inner: R) -> Reading<R>
        ensures left { R.remaining result.inner ≡ R.remaining inner }
        ensures reads { result.reads ≡ 0 }
        ensures failed { result.failed ≡ false }
    {
        Reading {
            inner,
            reads: 0,
            failed: false,
        }
    }
}

impl<W: io::Write> Writing<W> {
    /// A sink over this writer.
    pub fn new(inner: W) -> Writing<W>
        ensures written { W.contents result.inner ≡ W.contents inner }
        ensures failed { result.failed ≡ false }
        ensures handed_on { result.handed_on ≡ true }
    {
        Writing {
            inner,
            failed: false,
            handed_on: true,
        }
    }
}

impl<R: io::Read> Source for Reading<R> {
    ghost left = { λ source. R.remaining source.inner };

    ghost reads = { λ source. source.reads };

    ghost failed = { λ source. source.failed };

    fn read(&mut self, buffer: &mut [u8]) -> Result<usize, Broken> {
        self.reads += 1;
        match read_once(&mut self.inner, buffer) {
            Ok(count) => Ok(count),
            Err(broken) => {
                self.failed = true;
                Err(broken)
            }
        }
    }
}

impl<W: io::Write> Sink for Writing<W> {
    ghost written = { λ sink. W.contents sink.inner };

    ghost failed = { λ sink. sink.failed };

    ghost handed_on = { λ sink. sink.handed_on };

    fn write(&mut self, text: &[u8]) -> Result<usize, Broken> {
        self.handed_on = false;
        match write_once(&mut self.inner, text) {
            Ok(0) => {
                if text.is_empty() {
                    return Ok(0);
                }
                self.failed = true;
                Err(Broken)
            }
            Ok(count) => Ok(count),
            Err(broken) => {
                self.failed = true;
                Err(broken)
            }
        }
    }

    fn flush(&mut self) -> Result<(), Broken> {
        match self.inner.flush() {
            Ok(()) => {
                self.handed_on = true;
                Ok(())
            }
            Err(_) => {
                self.failed = true;
                Err(Broken)
            }
        }
    }
}

// A read, made again while it is interrupted.
fn read_once<R: io::Read>(inner: &mut R, buffer: &mut [u8]) -> Result<usize, Broken>
    ensures bound { ReadsAtMost result buffer.new }
    ensures bytes { ReadConsumes (R.remaining inner.old) (R.remaining inner.new) result buffer.new }
{
    for _call in 0..MAX_CALLS {
        match inner.read(buffer) {
            Ok(count) => return Ok(count),
            Err(error) => {
                if error.kind() != io::ErrorKind::Interrupted {
                    return Err(Broken);
                }
            }
        }
    }
    Err(Broken)
}

// A write, made again while it is interrupted.
fn write_once<W: io::Write>(inner: &mut W, text: &[u8]) -> Result<usize, Broken>
    ensures bound { WritesAtMost result text.now }
    ensures bytes { WriteAppends (W.contents inner.old) (W.contents inner.new) result text.now }
{
    for _call in 0..MAX_CALLS {
        match inner.write(text) {
            Ok(count) => return Ok(count),
            Err(error) => {
                if error.kind() != io::ErrorKind::Interrupted {
                    return Err(Broken);
                }
            }
        }
    }
    Err(Broken)
}
