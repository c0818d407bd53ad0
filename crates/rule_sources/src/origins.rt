//! From which bytes of a file the bytes of a text were read.

use json_tree::NoMemory;
use std::alloc::Global;

/// Of each byte of what is said the byte of a file from which it was read, of a character that is written as an escape
/// the backslash; and last the byte behind all of it. What is said is written in the file from a place on.
pub(crate) fn origins(
    alloc: Global,
    file: &[u8],
    from: usize,
    said: &str,
) -> Result<Vec<usize>, NoMemory> {
    let mut origins = Vec::with_capacity(alloc, said.len().saturating_add(1))?;
    let mut place = from;
    for c in said.chars() {
        place = push_character(&mut origins, file, place, c)?;
    }
    origins.push(place)?;
    Ok(origins)
}

// Adds those of a character that is written at a place, and gives the place behind it.
fn push_character(
    origins: &mut Vec<usize>,
    file: &[u8],
    place: usize,
    c: char,
) -> Result<usize, NoMemory> {
    let escape = escape_length(file, place, c);
    for step in 0..c.len_utf8() {
        let origin = if escape.is_some() {
            place
        } else {
            place.saturating_add(step)
        };
        origins.push(origin)?;
    }
    Ok(place.saturating_add(escape.unwrap_or(c.len_utf8())))
}

// How many bytes the escape has that says a character at a place, if one does. Of two halves of a pair both are
// written.
fn escape_length(file: &[u8], place: usize, c: char) -> Option<usize> {
    match file.split_at_checked(place)?.1 {
        [b'\\', b'u', ..] => Some(if c > '\u{ffff}' { 12 } else { 6 }),
        [b'\\', ..] => Some(2),
        _ => None,
    }
}
