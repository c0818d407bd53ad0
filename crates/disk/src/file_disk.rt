//! A file of the operating system. What a contract can say of it is that the first call that fails is the last;
//! docs/DISK.md says what is assumed.
ghost use Rattle.std.specs.Prelude.{◌≡◌, true, false, not, is_err};
ghost use Rattle.disk.specs.declared.file_disk.OpenFault.TheVariants.{NoMemory};

use crate::{Disk, Failed};
use std::alloc::AllocError;
use std::fs::{File, OpenOptions, TryLockError};
use std::io::Write;
use std::os::unix::fs::FileExt;
use std::path::Path;
use std::{fs, io};

/// A file, the folder of its name, and the lock that keeps a second opener out.
#[derive(Drop)]
pub struct FileDisk {
    runtime: HostRuntime,
    path: String,
    draft_path: String,
    file: File,
    draft: Option<File>,
    folder: File,
    /// Its lock ends with the process.
    lock: File,
    failed: bool,
}

/// Why a file can't be opened.
#[derive(Clone, Copy, Debug)]
pub enum OpenFault {
    NoMemory,
    /// Another process, or another handle of this one, has it open.
    InUse,
    System(io::Error),
}

impl From<AllocError> for OpenFault {
    ghost from_gives = { λ _ fault. fault ≡ NoMemory };

    fn from(_: AllocError) -> OpenFault {
        OpenFault::NoMemory
    }
}

impl From<io::Error> for OpenFault {
    fn from(error: io::Error) -> OpenFault {
        OpenFault::System(error)
    }
}

impl FileDisk {
    /// Opens the file, makes it if it is not there, and syncs it with its name. Beside it lie `PATH.lock`, and
    /// `PATH.new` while a new file is written.
    pub fn open(runtime: HostRuntime, path: &str) -> Result<FileDisk, OpenFault> {
        let lock = locked(runtime, path)?;
        let file = OpenOptions::new()
            .read(true)
            .write(true)
            .create(true)
            .open(&runtime, path)?;
        let folder = folder_of(runtime, path)?;
        file.sync_all()?;
        folder.sync_all()?;
        Ok(FileDisk {
            runtime,
            path: String::from_str(runtime.alloc(), path)?,
            draft_path: format!(in runtime.alloc(); "{path}.new")?,
            file,
            draft: None,
            folder,
            lock,
            failed: false,
        })
    }
}

/// A file that nobody else has locked.
fn locked(runtime: HostRuntime, path: &str) -> Result<File, OpenFault> {
    let lock_path = format!(in runtime.alloc(); "{path}.lock")?;
    let lock = OpenOptions::new()
        .write(true)
        .create(true)
        .open(&runtime, lock_path.as_str())?;
    match lock.try_lock() {
        Ok(()) => Ok(lock),
        Err(TryLockError::WouldBlock) => Err(OpenFault::InUse),
        Err(TryLockError::Error(error)) => Err(OpenFault::System(error)),
    }
}

/// The folder of a file's name.
fn folder_of(runtime: HostRuntime, path: &str) -> io::Result<File> {
    match Path::new(path).parent() {
        Some(folder) if !folder.as_str().is_empty() => File::open(&runtime, folder),
        _ => File::open(&runtime, "."),
    }
}

/// An empty file to be written.
fn emptied(runtime: HostRuntime, path: &str) -> io::Result<File> {
    OpenOptions::new()
        .read(true)
        .write(true)
        .create(true)
        .truncate(true)
        .open(&runtime, path)
}

/// Whether a call succeeded. One that did not is the last.
fn noted(failed: &mut bool, succeeded: bool) -> Result<(), Failed>
    ensures failed { failed.new ≡ not succeeded }
    ensures result { is_err result ≡ not succeeded }
{
    *failed = !succeeded;
    if succeeded { Ok(()) } else { Err(Failed) }
}

/// Writes behind what the new file has.
fn extended(draft: &mut Option<File>, bytes: &[u8]) -> bool {
    match draft {
        Some(file) => file.write_all(bytes).is_ok(),
        None => false,
    }
}

/// Nothing is known of what it holds, and a crash may leave anything.
impl Disk for FileDisk {
    ghost holds = { λ _ _. ⊥ };

    ghost draft = { λ _ _. ⊥ };

    ghost may_leave = { λ _ _. Unit {0} };

    ghost moment = { λ _. 0 };

    ghost left_since = { λ _ _ _. Unit {0} };

    ghost has_failed = { λ disk. disk.failed };

    ghost counts_now = { λ _ _ _ _ _. tt };

    ghost just_now = { λ _ _ _. tt };

    ghost one_draft = { λ _ _ _ none _. absurd none };

    fn is_failed(&self) -> bool {
        self.failed
    }

    fn len(&mut self) -> Result<usize, Failed> {
        if self.failed {
            return Err(Failed);
        }
        match self.file.metadata() {
            Ok(metadata) => Ok(metadata.len() as usize),
            Err(_) => {
                self.failed = true;
                Err(Failed)
            }
        }
    }

    fn read_at(&mut self, at: usize, buffer: &mut [u8]) -> Result<(), Failed> {
        if self.failed {
            return Err(Failed);
        }
        let read = self.file.read_exact_at(buffer, at as u64).is_ok();
        noted(&mut self.failed, read)
    }

    fn write_at(&mut self, at: usize, bytes: &[u8]) -> Result<(), Failed> {
        if self.failed {
            return Err(Failed);
        }
        let written = self.file.write_all_at(bytes, at as u64).is_ok();
        noted(&mut self.failed, written)
    }

    fn cut(&mut self, len: usize) -> Result<(), Failed> {
        if self.failed {
            return Err(Failed);
        }
        let cut = self.file.set_len(len as u64).is_ok();
        noted(&mut self.failed, cut)
    }

    fn sync(&mut self) -> Result<(), Failed> {
        if self.failed {
            return Err(Failed);
        }
        let synced = self.file.sync_data().is_ok();
        noted(&mut self.failed, synced)
    }

    fn begin(&mut self) -> Result<(), Failed> {
        if self.failed {
            return Err(Failed);
        }
        self.draft = emptied(self.runtime, self.draft_path.as_str()).ok();
        let begun = self.draft.is_some();
        noted(&mut self.failed, begun)
    }

    fn extend(&mut self, bytes: &[u8]) -> Result<(), Failed> {
        if self.failed {
            return Err(Failed);
        }
        let extended = extended(&mut self.draft, bytes);
        noted(&mut self.failed, extended)
    }

    fn adopt(&mut self) -> Result<(), Failed> {
        if self.failed {
            return Err(Failed);
        }
        let Some(draft) = self.draft.take() else {
            self.failed = true;
            return Err(Failed);
        };
        let adopted = draft.sync_all().is_ok()
            && fs::rename(&self.runtime, self.draft_path.as_str(), self.path.as_str()).is_ok()
            && self.folder.sync_all().is_ok();
        self.file = draft;
        noted(&mut self.failed, adopted)
    }
}
