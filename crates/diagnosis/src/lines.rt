//! A diagnosis as a text for a person.

use crate::all_faults::MAX_FINDINGS;
use crate::finding::{Diagnosis, Finding};
use json_tree::NoMemory;
use std::alloc::Global;

/// A diagnosis in lines: of each fault the name of the file, the line and the column where it shows, both from 1, and
/// what is wrong, and then the line with a caret under the place; where there are several, last which of them a
/// deployment answers. A column counts characters. It goes over the file once for each fault.
pub fn report(
    alloc: Global,
    name: &str,
    file: &[u8],
    diagnosis: &Diagnosis,
) -> Result<String, NoMemory> {
    let mut text = String::new(alloc);
    let page = Page { alloc, name, file };
    for (index, finding) in diagnosis.others.iter().enumerate() {
        if index == diagnosis.before {
            page.append_finding(&diagnosis.answered, &mut text)?;
        }
        page.append_finding(finding, &mut text)?;
    }
    if diagnosis.before >= diagnosis.others.len() {
        page.append_finding(&diagnosis.answered, &mut text)?;
    }
    if !diagnosis.others.is_empty() {
        page.append_answered(&diagnosis.answered, &mut text)?;
    }
    if diagnosis.others.len().saturating_add(1) >= MAX_FINDINGS {
        text.push_str(format!(in alloc;
            "{name}: no more than {MAX_FINDINGS} faults are named\n"
        )?.as_str())?;
    }
    Ok(text)
}

/// The one fault of a file in lines, as [`report`] has them.
pub(crate) fn report_one(
    alloc: Global,
    name: &str,
    file: &[u8],
    place: usize,
    advice: &str,
) -> Result<String, NoMemory> {
    let mut text = String::new(alloc);
    Page { alloc, name, file }.append(Some(place), advice, &mut text)?;
    Ok(text)
}

// A file and its name.
#[derive(Clone, Copy)]
struct Page<'a> {
    alloc: Global,
    name: &'a str,
    file: &'a [u8],
}

// The line that a place is in: its number, from 1, what stands before the place in it, and what from it on.
#[derive(Clone, Copy)]
struct Line<'a> {
    number: usize,
    before: &'a [u8],
    behind: &'a [u8],
}

impl<'a> Line<'a> {
    // The column of the place, from 1.
    fn column(self) -> usize {
        characters(self.before).saturating_add(1)
    }
}

// How much of a line is shown before a place and behind it, in bytes.
const SHOWN: usize = 100;

impl<'a> Page<'a> {
    fn append_finding(self, finding: &Finding, text: &mut String) -> Result<(), NoMemory> {
        self.append(finding.place, finding.advice.as_str(), text)
    }

    // Appends a fault, and the line in which it shows.
    fn append(self, place: Option<usize>, advice: &str, text: &mut String) -> Result<(), NoMemory> {
        let Some(line) = place.and_then(|place| self.line(place)) else {
            text.push_str(format!(in self.alloc; "{}: ", self.name)?.as_str())?;
            return append_words(advice, text);
        };
        let (number, column) = (line.number, line.column());
        let head = format!(in self.alloc; "{}:{number}:{column}: ", self.name)?;
        text.push_str(head.as_str())?;
        append_words(advice, text)?;
        self.append_line(line, text)
    }

    // Appends a line, and a caret under the place.
    fn append_line(self, line: Line<'_>, text: &mut String) -> Result<(), NoMemory> {
        let front = format!(in self.alloc; "    {} | ", line.number)?;
        let before = last_bytes(line.before, SHOWN);
        text.push_str(front.as_str())?;
        self.append_shown(before, text)?;
        self.append_shown(first_bytes(line.behind, SHOWN), text)?;
        text.push('\n')?;
        for _ in 0..front.len().saturating_add(characters(before)) {
            text.push(' ')?;
        }
        text.push_str("^\n")?;
        Ok(())
    }

    // Appends bytes of a line.
    fn append_shown(self, bytes: &[u8], text: &mut String) -> Result<(), NoMemory> {
        let shown = String::from_utf8_lossy(self.alloc, bytes)?;
        append_harmless(&shown, text)
    }

    // Appends which fault a deployment answers.
    fn append_answered(self, answered: &Finding, text: &mut String) -> Result<(), NoMemory> {
        let head = format!(in self.alloc; "{}: a deployment is refused for ", self.name)?;
        text.push_str(head.as_str())?;
        let Some(line) = answered.place.and_then(|place| self.line(place)) else {
            text.push_str("this fault: ")?;
            return append_words(answered.advice.as_str(), text);
        };
        let (number, column) = (line.number, line.column());
        let words = format!(in self.alloc; "the fault at {number}:{column}\n")?;
        text.push_str(words.as_str())?;
        Ok(())
    }

    // The line that a place is in, if it is one of the file or its end.
    fn line(self, place: usize) -> Option<Line<'a>> {
        let (front, rest) = self.file.split_at_checked(place)?;
        let start = front
            .iter()
            .rposition(|byte| *byte == b'\n')
            .map_or(0, |it| it.saturating_add(1));
        let end = rest
            .iter()
            .position(|byte| matches!(*byte, b'\n' | b'\r'))
            .unwrap_or(rest.len());
        Some(Line {
            number: front
                .iter()
                .filter(|byte| **byte == b'\n')
                .count()
                .saturating_add(1),
            before: front.split_at_checked(start)?.1,
            behind: rest.split_at_checked(end)?.0,
        })
    }
}

// Appends the words of an advice, in which names of the file may stand, and ends their line.
fn append_words(words: &str, text: &mut String) -> Result<(), NoMemory> {
    append_harmless(words, text)?;
    text.push('\n')?;
    Ok(())
}

// Appends words, a control character as a space.
fn append_harmless(words: &str, text: &mut String) -> Result<(), NoMemory> {
    for c in words.chars() {
        text.push(if c.is_control() { ' ' } else { c })?;
    }
    Ok(())
}

// How many characters these bytes begin, if they are a text.
fn characters(bytes: &[u8]) -> usize {
    bytes.iter().filter(|byte| begins_character(**byte)).count()
}

fn begins_character(byte: u8) -> bool {
    byte & 0xC0 != 0x80
}

// As many of the last bytes as are shown, from where a character begins.
fn last_bytes(bytes: &[u8], most: usize) -> &[u8] {
    let cut = bytes.len().saturating_sub(most);
    let Some((_, last)) = bytes.split_at_checked(cut) else {
        return bytes;
    };
    let begin = last
        .iter()
        .position(|byte| begins_character(*byte))
        .unwrap_or(0);
    last.split_at_checked(begin).map_or(last, |parts| parts.1)
}

// As many of the first bytes as are shown, up to where a character begins.
fn first_bytes(bytes: &[u8], most: usize) -> &[u8] {
    let cut = most.min(bytes.len());
    let mut end = cut;
    for place in cut..bytes.len() {
        end = place;
        if bytes.get(place).copied().is_some_and(begins_character) {
            break;
        }
    }
    bytes.split_at_checked(end).map_or(bytes, |parts| parts.0)
}
