//! Why a journal gives no database.
ghost use Rattle.std.specs.Prelude.{◌≡◌};
ghost use Rattle.store.specs.Faults.{fault_of_entry, fault_of_resume};
ghost use Rattle.store.specs.declared.fault.ReplayFault.TheVariants.{NoMemory as no_memory};

use entries::EntryFault;
use journal::{JournalError, RecoverError};
use json_tree::NoMemory;
use rtdb_core::ResumeFault;
use std::alloc::AllocError;
use thiserror::Error;

/// Why an entry is not replayed.
#[derive(Clone, Copy, Debug, PartialEq, Eq, Error)]
pub enum ReplayFault {
    #[error("out of memory")]
    NoMemory,
    /// It means nothing, or what it means can't come where it stands.
    #[error("an entry that can't stand where it does")]
    Unfit,
}

impl From<EntryFault> for ReplayFault {
    ghost from_gives = { λ fault made. made ≡ fault_of_entry fault };

    fn from(fault: EntryFault) -> ReplayFault {
        match fault {
            EntryFault::NotAnEntry => ReplayFault::Unfit,
            EntryFault::NoMemory => ReplayFault::NoMemory,
        }
    }
}

impl From<ResumeFault> for ReplayFault {
    ghost from_gives = { λ fault made. made ≡ fault_of_resume fault };

    fn from(fault: ResumeFault) -> ReplayFault {
        match fault {
            ResumeFault::Unfit => ReplayFault::Unfit,
            ResumeFault::NoMemory => ReplayFault::NoMemory,
        }
    }
}

impl From<NoMemory> for ReplayFault {
    ghost from_gives = { λ _ fault. fault ≡ no_memory };

    fn from(_refused: NoMemory) -> ReplayFault {
        ReplayFault::NoMemory
    }
}

impl From<AllocError> for ReplayFault {
    ghost from_gives = { λ _ fault. fault ≡ no_memory };

    fn from(_refused: AllocError) -> ReplayFault {
        ReplayFault::NoMemory
    }
}

/// Why a file is recovered to no database.
#[derive(Clone, Copy, Debug, PartialEq, Eq)]
pub enum RecoveryFault {
    /// The file can't be read as a journal, for this reason, or memory is wanting.
    File(RecoverError),
    /// The entry at this place, the first being 1, means nothing, or what it means can't come there.
    Unfit { entry: u64 },
    /// The file has no whole snapshot.
    NoDatabase,
}

/// Why the database of a file is not opened.
#[derive(Clone, Copy, Debug, PartialEq, Eq)]
pub enum OpeningFault {
    /// The file gives no database, for this reason.
    Recovery(RecoveryFault),
    /// The file has a database. For this reason not all departures of its sessions are in the file, or stored; another
    /// opening goes on behind those that are.
    Departures(JournalError),
}
