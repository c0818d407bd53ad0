//! Why a server ended before its time.
ghost use Rattle.std.specs.Prelude.{◌≡◌};
ghost use Rattle.server.specs.declared.fault.ServerFault.TheVariants.{NoMemory as no_memory, Output as output};

use crate::printer::Unprinted;
use std::alloc::AllocError;

/// Why a server ended before its time.
#[derive(Clone, Copy, Debug, PartialEq, Eq)]
pub enum ServerFault {
    /// A line could not be printed.
    Output,
    /// There was no memory for a line.
    NoMemory,
}

impl From<AllocError> for ServerFault {
    ghost from_gives = { λ _ fault. fault ≡ no_memory };

    fn from(_refused: AllocError) -> ServerFault {
        ServerFault::NoMemory
    }
}

impl From<Unprinted> for ServerFault {
    ghost from_gives = { λ _ fault. fault ≡ output };

    fn from(_unprinted: Unprinted) -> ServerFault {
        ServerFault::Output
    }
}
