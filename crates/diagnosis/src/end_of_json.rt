//! Where a text stops to be JSON.
ghost use Rattle.std.specs.Prelude.{◌≤◌, IfOk, length};

use json_tree::NoMemory;
use serde_json::Value;
use std::alloc::Global;

/// The place where a text stops to be JSON; its end, where it is JSON or ends too early.
pub(crate) fn end_of_json(alloc: Global, text: &[u8]) -> Result<usize, NoMemory>
    ensures { IfOk result (λ place. place ≤ length text.now) }
{
    match Value::from_slice(alloc, text) {
        Ok(_) => Ok(text.len()),
        Err(error) => if error.is_memory() {
            Err(NoMemory)
        } else if error.is_eof() {
            Ok(text.len())
        } else {
            Ok(place_at(text, error.line(), error.column()).min(text.len()))
        },
    }
}

// The place of a column of a line, both from 1.
fn place_at(text: &[u8], line: usize, column: usize) -> usize {
    let mut left = line;
    for (place, byte) in text.iter().enumerate() {
        if left <= 1 {
            return place.saturating_add(column.saturating_sub(1));
        }
        if *byte == b'\n' {
            left -= 1;
        }
    }
    text.len()
}
