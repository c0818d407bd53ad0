//! What to do about an opening tree that is not lawful.

use super::sort_of;
use crate::outline::{SHOWN_OF_A_NAME, append_short};
use json_tree::NoMemory;
use serde_json::Value;
use std::alloc::Global;
use tree_model::{MAX_DEPTH, MAX_KEY_BYTES, MAX_TEXT_BYTES};

/// What to do about a name that is not a lawful key. The path is that of its object.
pub(crate) fn advice_on_data_key(
    alloc: Global,
    path: &str,
    name: &str,
) -> Result<String, NoMemory> {
    if name.is_empty() {
        return Ok(format!(in alloc; "a key of the object at {path} is empty")?);
    }
    if name.len() > MAX_KEY_BYTES {
        return Ok(format!(in alloc;
            "a key of the object at {path} has {} bytes, and a key has {MAX_KEY_BYTES} at most",
            name.len()
        )?);
    }
    let mut words = format!(in alloc; "the object at {path} may not have the key `")?;
    append_short(name, SHOWN_OF_A_NAME, &mut words)?;
    words.push_str("`: ")?;
    words.push_str(fault_of_key(name))?;
    Ok(words)
}

fn fault_of_key(name: &str) -> &'static str {
    match name {
        ".sv" => "when a server begins there is no moment to put there, so write a number",
        ".priority" => "there are no priorities, so remove it",
        ".value" => "write the value itself in the place of the object",
        _ => if name.contains('/') {
            "put one object inside of the other"
        } else if name.contains(['.', '$', '#', '[', ']']) {
            "a key has none of . $ # [ ] /"
        } else {
            "a key has no control character"
        },
    }
}

/// What to do about a primitive that is not lawful, and is written so. The path is its own.
pub(crate) fn advice_on_data_value(
    alloc: Global,
    path: &str,
    value: &Value,
    written: &[u8],
) -> Result<String, NoMemory> {
    match value {
        Value::Number(_) => Ok(format!(in alloc;
            "the number at {path} {}",
            fault_of_number(written)
        )?),
        Value::String(text) => Ok(format!(in alloc;
            "the text at {path} has {} bytes, and a text has {MAX_TEXT_BYTES} at most",
            text.len()
        )?),
        _ => Ok(format!(in alloc; "{} may not stand at {path}", sort_of(value))?),
    }
}

/// What is wrong with a number that is written so.
pub(super) fn fault_of_number(written: &[u8]) -> &'static str {
    match written {
        b"-0" => "is a zero with a sign: write 0",
        _ => if written
            .iter()
            .any(|byte| matches!(*byte, b'.' | b'e' | b'E'))
        {
            "must be whole, and is written without a point and an exponent"
        } else if matches!(written, [b'-', ..]) {
            "is too small: the least is -9,007,199,254,740,991"
        } else {
            "is too large: the largest is 9,007,199,254,740,991"
        },
    }
}

/// What to do about a primitive that stands too deep.
pub(crate) fn advice_on_depth(alloc: Global, path: &str, depth: usize) -> Result<String, NoMemory> {
    Ok(format!(in alloc;
        "this stands {depth} keys deep, and a value stands {MAX_DEPTH} keys deep at most: at {path}"
    )?)
}
