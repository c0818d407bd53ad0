//! The JSON texts inside of entries.
ghost use Rattle.std.specs.Prelude.{◌≡◌, ◌≤◌, Some, IfOk};
ghost use Rattle.serde_json.specs.Data.{depth};
ghost use Rattle.serde_json.specs.Read.{max_depth};
ghost use Rattle.serde_json.specs.View.{view};
ghost use Rattle.tokens.specs.Tokens.{json_of};
ghost use Rattle.entries.specs.Working.Answers.{Gives};

use crate::entry::EntryFault;
use json_tree::NoMemory;
use serde_json::Value;
use std::alloc::Global;

/// The text of a value, which is read back as it.
pub(crate) fn text_of(alloc: Global, value: &Value) -> Result<Vec<u8>, NoMemory>
    requires { depth (view value.now) ≤ max_depth }
    ensures { IfOk result (λ text. json_of text.items ≡ Some (view value.now)) }
{
    let text = value.to_vec(alloc)?;
    Ok(text)
}

/// The value of a text.
pub(crate) fn value_of(alloc: Global, text: &[u8]) -> Result<Value, EntryFault>
    ensures { Gives view result (json_of text.now) }
{
    match Value::from_slice(alloc, text) {
        Ok(value) => Ok(value),
        Err(fault) => if fault.is_memory() {
            Err(EntryFault::NoMemory)
        } else {
            Err(EntryFault::NotAnEntry)
        },
    }
}
