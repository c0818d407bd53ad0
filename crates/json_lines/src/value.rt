//! The value of a line, where its members are not read as they come.
ghost use Rattle.std.specs.Prelude.{◌≡◌, ◌<◌, length, IsErrOf};
ghost use Rattle.serde_json.specs.View.{view};
ghost use Rattle.json_lines.specs.Lines.{Tells, value_of};

use crate::fault::MessageFault;
use crate::limits::MAX_MESSAGE_BYTES;
use serde_json::Value;
use std::alloc::Global;

/// The value of a message, or its fault: a pass over its bytes, and memory for all that it holds.
#[tactic(auto, unfolding(crate::specs::Lines::value_of))]
pub fn read_value(alloc: Global, bytes: &[u8]) -> Result<Value, MessageFault>
    ensures value { Tells view result (value_of bytes.now) }
    ensures too_large { MAX_MESSAGE_BYTES < length bytes.now → IsErrOf result MessageFault.TooLarge }
{
    if bytes.len() > MAX_MESSAGE_BYTES {
        return Err(MessageFault::TooLarge);
    }
    match Value::from_slice(alloc, bytes) {
        Ok(value) => Ok(value),
        Err(fault) => if fault.is_memory() {
            Err(MessageFault::NoMemory)
        } else {
            Err(MessageFault::BadJson)
        },
    }
}
