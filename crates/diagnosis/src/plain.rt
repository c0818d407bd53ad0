//! Files that are JSON without comments: how they are read, and what is said of their one fault.

use crate::advice::{FileSort, advice_on_json};
use crate::end_of_json::end_of_json;
use crate::lines::report_one;
use json_tree::NoMemory;
use serde_json::Value;
use std::alloc::Global;

/// A fault of a file: the byte where it shows, from 0, and what is wrong and what to do, in a line of text.
#[derive(Debug, Drop)]
pub(crate) struct PlainFault {
    pub(crate) place: usize,
    pub(crate) advice: String,
}

/// What a file is as JSON, or why it is not JSON.
#[derive(Debug, Drop)]
pub(crate) enum Plain {
    Json(Value),
    Fault(PlainFault),
}

/// Reads a file of this sort.
pub(crate) fn read_plain(alloc: Global, sort: FileSort, file: &[u8]) -> Result<Plain, NoMemory> {
    match Value::from_slice(alloc, file) {
        Ok(value) => Ok(Plain::Json(value)),
        Err(error) => if error.is_memory() {
            Err(NoMemory)
        } else {
            let end = end_of_json(alloc, file)?;
            let (place, advice) = advice_on_json(alloc, sort, file, file, end)?;
            Ok(Plain::Fault(PlainFault { place, advice }))
        },
    }
}

/// A fault in lines, nothing where there is none.
pub(crate) fn report_plain(
    alloc: Global,
    name: &str,
    file: &[u8],
    fault: Option<PlainFault>,
) -> Result<String, NoMemory> {
    match fault {
        Some(PlainFault { place, advice }) => report_one(alloc, name, file, place, advice.as_str()),
        None => Ok(String::new(alloc)),
    }
}
