//! Faults: why a line asks nothing.
ghost use Rattle.std.specs.Prelude.{◌≡◌};
ghost use Rattle.json_lines.specs.declared.fault.MessageFault.TheVariants.{NoMemory as no_memory};

use json_tree::NoMemory;
use thiserror::Error;

/// Why a message asks nothing: the first of its faults.
#[derive(Clone, Copy, Debug, PartialEq, Eq, Error)]
pub enum MessageFault {
    /// It has over 1,048,576 bytes.
    #[error("a message over 1048576 bytes")]
    TooLarge,
    /// It is no JSON.
    #[error("no JSON")]
    BadJson,
    /// A member is wanting, unknown or of the wrong type or range, or the verb is unknown.
    #[error("no lawful request")]
    BadRequest,
    /// A key of the path is not lawful.
    #[error("no lawful path")]
    BadPath,
    /// A key or a primitive of the value is not lawful.
    #[error("a key or a primitive is not lawful")]
    BadValue,
    /// The path, the value, or both together are over 32 keys deep.
    #[error("more than 32 keys deep")]
    TooDeep,
    /// The query is invalid.
    #[error("no lawful query")]
    BadQuery,
    #[error("out of memory")]
    NoMemory,
}

impl From<NoMemory> for MessageFault {
    ghost from_gives = { λ _ fault. fault ≡ no_memory };

    fn from(_refused: NoMemory) -> MessageFault {
        MessageFault::NoMemory
    }
}
