//! Where the file of an opening tree is at fault.

use crate::advice::{FileSort, advice_on_data_key, advice_on_data_value, advice_on_depth};
use crate::outline::Outline;
use crate::plain::{Plain, PlainFault, read_plain, report_plain};
use crate::spots::{Spot, spots_in_all};
use json_tree::{NoMemory, ValueFault, from_json, is_lawful_key};
use serde_json::Value;
use std::alloc::Global;
use tree_model::MAX_DEPTH;

/// Where the file of an opening tree is at fault, and what to do, as [`report`](crate::report) says it of a rules file:
/// its first fault alone, nothing where it has none.
///
/// It goes over the file a few times, and once more for each bad member that does not count, since a later one has its
/// name.
pub fn report_data(alloc: Global, name: &str, file: &[u8]) -> Result<String, NoMemory> {
    let fault = match read_plain(alloc, FileSort::Data, file)? {
        Plain::Json(value) => fault_of_tree(alloc, file, &value)?,
        Plain::Fault(fault) => Some(fault),
    };
    report_plain(alloc, name, file, fault)
}

// The first fault of a file that is JSON: of its names and primitives, else the first that stands too deep.
fn fault_of_tree(
    alloc: Global,
    file: &[u8],
    value: &Value,
) -> Result<Option<PlainFault>, NoMemory> {
    let Ok(text) = str::from_utf8(file) else {
        return Ok(None);
    };
    let outline = Outline {
        alloc,
        text: file,
        spots: spots_in_all(alloc, text)?,
    };
    match from_json(alloc, value) {
        Ok(_) => Ok(None),
        Err(ValueFault::BadValue) => first_bad(&outline),
        Err(ValueFault::TooDeep) => first_deep(&outline),
        Err(ValueFault::NoMemory) => Err(NoMemory),
    }
}

// The first name or primitive that is not lawful.
fn first_bad(outline: &Outline<'_>) -> Result<Option<PlainFault>, NoMemory> {
    let top = outline.top();
    if is_bad(outline, top)? {
        return bad_value(outline, top, "/");
    }
    for (index, spot) in outline.spots.iter().enumerate() {
        let fault = bad_member(outline, index, *spot)?;
        if fault.is_some() && !outline.is_gone(index)? {
            return Ok(fault);
        }
    }
    Ok(None)
}

// What is not lawful of a member: its name, or the primitive that it is.
fn bad_member(
    outline: &Outline<'_>,
    index: usize,
    spot: Spot,
) -> Result<Option<PlainFault>, NoMemory> {
    if let Some(name) = outline.name(spot)? {
        if !is_lawful_key(name.as_str()) {
            let above = outline.path_above(index)?;
            let advice = advice_on_data_key(outline.alloc, above.as_str(), name.as_str())?;
            let place = spot.name;
            return Ok(Some(PlainFault { place, advice }));
        }
    }
    if !is_bad(outline, spot.value)? {
        return Ok(None);
    }
    let path = outline.path(index)?;
    bad_value(outline, spot.value, path.as_str())
}

// Whether a primitive that is not lawful is written at a place.
fn is_bad(outline: &Outline<'_>, place: usize) -> Result<bool, NoMemory> {
    let Some(value) = outline.primitive(place)? else {
        return Ok(false);
    };
    match from_json(outline.alloc, &value) {
        Ok(_) | Err(ValueFault::TooDeep) => Ok(false),
        Err(ValueFault::BadValue) => Ok(true),
        Err(ValueFault::NoMemory) => Err(NoMemory),
    }
}

// The fault of the primitive that is written at a place, and stands at a path.
fn bad_value(
    outline: &Outline<'_>,
    place: usize,
    path: &str,
) -> Result<Option<PlainFault>, NoMemory> {
    let (Some(value), Some(bytes)) = (outline.primitive(place)?, outline.written(place)) else {
        return Ok(None);
    };
    let advice = advice_on_data_value(outline.alloc, path, &value, bytes)?;
    Ok(Some(PlainFault { place, advice }))
}

// The first primitive that stands too deep.
fn first_deep(outline: &Outline<'_>) -> Result<Option<PlainFault>, NoMemory> {
    for (index, spot) in outline.spots.iter().enumerate() {
        let depth = outline.depth(index);
        if depth <= MAX_DEPTH || !is_something(outline, spot.value)? {
            continue;
        }
        if !outline.is_gone(index)? {
            let place = spot.value;
            let advice = advice_on_depth(outline.alloc, outline.path(index)?.as_str(), depth)?;
            return Ok(Some(PlainFault { place, advice }));
        }
    }
    Ok(None)
}

// Whether a primitive other than null is written at a place.
fn is_something(outline: &Outline<'_>, place: usize) -> Result<bool, NoMemory> {
    Ok(outline.primitive(place)?.is_some_and(|it| !it.is_null()))
}
