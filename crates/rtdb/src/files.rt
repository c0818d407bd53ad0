//! Where the program's files are read from.
ghost use Rattle.std.specs.Prelude.{◌≡◌, ◌+◌, ℕ, List, take, Option, None, IfOk, IfSome, IsErrOf};

use std::alloc::Global;
use std::fs::File;
use std::io::{self, Read};

/// Why a file is not read.
#[derive(Clone, Copy, Debug, PartialEq, Eq)]
pub enum ReadFault {
    /// There is none, or a read of it failed.
    Unreadable,
    NoMemory,
}

/// What files are read from, by their names.
pub trait Files {
    // The bytes of the file of a name, where they are known.
    ghost bytes: { Self → List ℕ → Option (List ℕ) };

    /// All bytes of a file; of one that has more than the limit, as many and one more.
    fn read(&self, alloc: Global, name: &str, limit: usize) -> Result<Vec<u8>, ReadFault>
        ensures known { IfOk result (λ found. IfSome (bytes self.now name.now) (λ known. found.items ≡ take (limit + 1) known)) }
        // A file whose bytes are known is read, where memory suffices.
        ensures unreadable { IsErrOf result (ReadFault.Unreadable) → bytes self.now name.now ≡ None };
}

/// The files of the system, whose bytes no contract knows.
#[derive(Clone, Copy)]
pub struct SystemFiles<'a> {
    rt: &'a HostRuntime,
}

impl<'a> SystemFiles<'a> {
    /// The files of this process.
    pub fn new(rt: &'a HostRuntime) -> SystemFiles<'a> {
        SystemFiles { rt }
    }
}

impl<'a> Files for SystemFiles<'a> {
    ghost bytes = { λ _ _. None };

    fn read(&self, alloc: Global, name: &str, limit: usize) -> Result<Vec<u8>, ReadFault> {
        match first_bytes(self.rt, alloc, name, (limit as u64).saturating_add(1)) {
            Ok(bytes) => Ok(bytes),
            Err(error) => if error.kind() == io::ErrorKind::OutOfMemory {
                Err(ReadFault::NoMemory)
            } else {
                Err(ReadFault::Unreadable)
            },
        }
    }
}

// The first bytes of a file, no more than this.
fn first_bytes(rt: &HostRuntime, alloc: Global, name: &str, most: u64) -> io::Result<Vec<u8>> {
    let mut bytes = Vec::new(alloc);
    File::open(rt, name)?.take(most).read_to_end(&mut bytes)?;
    Ok(bytes)
}
