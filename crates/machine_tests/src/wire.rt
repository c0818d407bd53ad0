//! A stream in memory: bytes that come, and those that go.
use std::alloc::Global;
use std::io;
use std::io::{ErrorKind, Read, Write};

/// What a stream does behind its last byte.
#[derive(Clone, Copy, Debug, PartialEq, Eq)]
pub(crate) enum Last {
    /// It ends.
    Stops,
    /// It has no more for now.
    Waits,
}

/// A stream that gives these bytes, and keeps those that are written.
#[derive(Drop)]
pub(crate) struct Wire {
    input: Vec<u8>,
    at: usize,
    last: Last,
    // How many writes are taken, before each one is refused.
    writes: u64,
    pub(crate) output: Vec<u8>,
}

impl Wire {
    pub(crate) fn new(alloc: Global, input: Vec<u8>, last: Last, writes: u64) -> Wire {
        Wire {
            input,
            at: 0,
            last,
            writes,
            output: Vec::new(alloc),
        }
    }
}

impl Read for Wire {
    fn read(&mut self, buffer: &mut [u8]) -> io::Result<usize> {
        let rest = self.input.get(self.at..).unwrap_or(&[]);
        let count = buffer.len().min(rest.len());
        if count == 0 && self.last == Last::Waits {
            return Err(io::Error::from(ErrorKind::WouldBlock));
        }
        buffer[..count].copy_from_slice(&rest[..count]);
        self.at = self.at.saturating_add(count);
        Ok(count)
    }
}

impl Write for Wire {
    fn write(&mut self, buffer: &[u8]) -> io::Result<usize> {
        if self.writes == 0 {
            return Err(io::Error::from(ErrorKind::BrokenPipe));
        }
        self.writes -= 1;
        match self.output.extend_from_slice(buffer) {
            Ok(()) => Ok(buffer.len()),
            Err(_) => Err(io::Error::from(ErrorKind::OutOfMemory)),
        }
    }

    fn flush(&mut self) -> io::Result<()> {
        Ok(())
    }
}
