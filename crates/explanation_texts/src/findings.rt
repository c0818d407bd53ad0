//! What `lint` finds in a rules file, with the lines where it stands.

use json_tree::NoMemory;
use lint::lint;
use std::alloc::Global;

/// A place in a file, from 1: its line, which ends at a line feed, and its column, in characters.
#[derive(Clone, Copy, Debug, PartialEq, Eq)]
pub(crate) struct Place {
    pub(crate) line: usize,
    pub(crate) column: usize,
}

/// What is found in a rules file, in the order of the file; nothing where the file is refused.
pub(crate) fn findings_of(alloc: Global, file: &[u8]) -> Result<Vec<(Place, String)>, NoMemory> {
    let mut found = Vec::new(alloc);
    for finding in &lint(alloc, file)? {
        found.push((place_of(file, finding.byte), finding.sentence(alloc)?))?;
    }
    Ok(found)
}

/// What is found in a rules file as a text, a line for each.
pub fn findings_in_words(alloc: Global, file: &[u8]) -> Result<String, NoMemory> {
    let mut text = String::new(alloc);
    for (place, sentence) in &findings_of(alloc, file)? {
        let Place { line, column } = *place;
        text.push_str(format!(in alloc; "line {line}, column {column}: ")?.as_str())?;
        text.push_str(sentence.as_str())?;
        text.push_str(".\n")?;
    }
    Ok(text)
}

// The place of a byte of a file.
fn place_of(file: &[u8], byte: usize) -> Place {
    let before = file.get(..byte).unwrap_or(file);
    let line = before.split(|byte| *byte == b'\n').last().unwrap_or(&[]);
    Place {
        line: before
            .iter()
            .filter(|byte| **byte == b'\n')
            .count()
            .saturating_add(1),
        column: line
            .iter()
            .filter(|byte| **byte & 0xc0 != 0x80)
            .count()
            .saturating_add(1),
    }
}
