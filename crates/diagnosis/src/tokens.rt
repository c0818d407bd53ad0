//! Where the file of the tokens is at fault.
//!
//! The words have no secret in them: only the line that is shown may have one.

use crate::advice::{FileSort, advice_on_no_tokens, advice_on_token_name, advice_on_token_value};
use crate::outline::Outline;
use crate::plain::{Plain, PlainFault, read_plain, report_plain};
use crate::spots::{Spot, spots};
use crate::written::value_at;
use json_tree::NoMemory;
use serde_json::Value;
use std::alloc::Global;

/// Where the file of the tokens is at fault, and what to do, as [`report`](crate::report) says it of a rules file: its
/// first fault alone, nothing where none is found.
///
/// It goes over the file a few times, and once more for each bad member that does not count, since a later one has its
/// name.
pub fn report_tokens(alloc: Global, name: &str, file: &[u8]) -> Result<String, NoMemory> {
    let fault = match read_plain(alloc, FileSort::Tokens, file)? {
        Plain::Json(value) => fault_of_tokens(alloc, file, &value)?,
        Plain::Fault(fault) => Some(fault),
    };
    report_plain(alloc, name, file, fault)
}

// The first fault of a file that is JSON.
fn fault_of_tokens(
    alloc: Global,
    file: &[u8],
    value: &Value,
) -> Result<Option<PlainFault>, NoMemory> {
    let Ok(text) = str::from_utf8(file) else {
        return Ok(None);
    };
    let outline = Outline {
        alloc,
        text: file,
        spots: spots(alloc, text)?,
    };
    for (index, spot) in outline.spots.iter().enumerate() {
        let fault = fault_of_member(&outline, value, index, *spot)?;
        if fault.is_some() && !outline.is_gone(index)? {
            return Ok(fault);
        }
    }
    let Some(advice) = advice_on_no_tokens(alloc, value)? else {
        return Ok(None);
    };
    let place = outline.top();
    Ok(Some(PlainFault { place, advice }))
}

// What is wrong with a member: with its name, or with what it has.
fn fault_of_member(
    outline: &Outline<'_>,
    whole: &Value,
    index: usize,
    spot: Spot,
) -> Result<Option<PlainFault>, NoMemory> {
    let Some(names) = names_of(outline, index)? else {
        return Ok(None);
    };
    let Some(value) = value_at(whole, &names) else {
        return Ok(None);
    };
    if let Some(advice) = advice_on_token_name(outline.alloc, whole, &names)? {
        let place = spot.name;
        return Ok(Some(PlainFault { place, advice }));
    }
    let Some(advice) = advice_on_token_value(outline.alloc, &names, value)? else {
        return Ok(None);
    };
    let place = spot.value;
    Ok(Some(PlainFault { place, advice }))
}

// The names that lead to a member, its own last; none where they are more than those of a claim.
fn names_of(outline: &Outline<'_>, index: usize) -> Result<Option<Vec<String>>, NoMemory> {
    if outline.depth(index) > DEEPEST {
        return Ok(None);
    }
    let mut names = Vec::new(outline.alloc);
    for above in outline.above(index)?.iter().rev() {
        let Some(spot) = outline.spots.get(*above) else {
            return Ok(None);
        };
        let Some(name) = outline.name(*spot)? else {
            return Ok(None);
        };
        names.push(name)?;
    }
    Ok(Some(names))
}

// A claim stands below `tokens`, a secret and `claims`.
const DEEPEST: usize = 4;
