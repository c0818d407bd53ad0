//! Why a value is no query.
ghost use Rattle.std.specs.Prelude.{◌≡◌};
ghost use Rattle.listeners.specs.declared.fault.QueryFault.TheVariants.{NoMemory as no_memory};

use json_tree::NoMemory;
use thiserror::Error;

/// Why a value gives no query.
#[derive(Clone, Copy, Debug, PartialEq, Eq, Error)]
pub enum QueryFault {
    /// It is no object, or a member is unknown or not lawful, or the members don't go together.
    #[error("no lawful query")]
    BadQuery,
    #[error("out of memory")]
    NoMemory,
}

impl From<NoMemory> for QueryFault {
    ghost from_gives = { λ _ fault. fault ≡ no_memory };

    fn from(_refused: NoMemory) -> QueryFault {
        QueryFault::NoMemory
    }
}
