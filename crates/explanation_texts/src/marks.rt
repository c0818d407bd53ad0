//! Where the marks of rules and of their parts go in a rules file.

use crate::coverage::{PartCount, RuleCount};
use crate::rules_file::RulesFile;
use json_tree::NoMemory;
use rule_sources::RuleSource;
use std::alloc::Global;

/// A mark before a byte of the file. A rule and a part of it are given by their indices.
#[derive(Clone, Copy, Debug, PartialEq, Eq)]
pub(crate) enum Mark {
    Rule {
        place: usize,
        rule: usize,
    },
    Part {
        place: usize,
        rule: usize,
        part: usize,
    },
    EndOfPart {
        place: usize,
    },
    EndOfRule {
        place: usize,
    },
}

impl Mark {
    /// The byte of the file before which it goes.
    pub(crate) fn place(self) -> usize {
        match self {
            Mark::Rule { place, .. }
            | Mark::Part { place, .. }
            | Mark::EndOfPart { place }
            | Mark::EndOfRule { place } => place,
        }
    }
}

/// The marks of a file, in the order of their places, each of which ends within the one in which it begins.
pub(crate) fn marks_of(alloc: Global, file: &RulesFile) -> Result<Vec<Mark>, NoMemory> {
    let mut marks = Vec::new(alloc);
    for (rule, (source, count)) in file.sources.iter().zip(file.counts.iter()).enumerate() {
        let place = source.begins();
        marks.push(Mark::Rule { place, rule })?;
        push_parts(alloc, &mut marks, rule, source, count)?;
        let place = end_of(file, source);
        marks.push(Mark::EndOfRule { place })?;
    }
    Ok(marks)
}

// Behind the last byte of a rule, which is a quotation mark where it begins with one.
fn end_of(file: &RulesFile, source: &RuleSource) -> usize {
    let end = source.place_in_file(source.text.len()).unwrap_or(0);
    match file.text.as_bytes().get(source.begins()) {
        Some(b'"') => end.saturating_add(1),
        _ => end,
    }
}

// The marks of the parts of a rule.
fn push_parts(
    alloc: Global,
    marks: &mut Vec<Mark>,
    rule: usize,
    source: &RuleSource,
    count: &RuleCount,
) -> Result<(), NoMemory> {
    let mut open: Vec<usize> = Vec::new(alloc);
    for (index, part) in count.parts.iter().enumerate() {
        let Some((from, to)) = bytes_of(source, part) else {
            continue;
        };
        push_ends(marks, &mut open, from)?;
        let (place, part) = (from, index);
        marks.push(Mark::Part { place, rule, part })?;
        open.push(to)?;
    }
    push_ends(marks, &mut open, usize::MAX)
}

// The bytes of the file that a part takes, from the first on and up to the second.
fn bytes_of(source: &RuleSource, part: &PartCount) -> Option<(usize, usize)> {
    let (from, to) = source.token_bytes(part.at, part.tokens)?;
    Some((source.place_in_file(from)?, source.place_in_file(to)?))
}

// Ends the parts that end at a place or before it, the inner ones first.
fn push_ends(marks: &mut Vec<Mark>, open: &mut Vec<usize>, place: usize) -> Result<(), NoMemory> {
    for _ in 0..open.len() {
        match open.pop() {
            Some(end) if end <= place => marks.push(Mark::EndOfPart { place: end })?,
            Some(end) => {
                open.push(end)?;
                break;
            }
            None => break,
        }
    }
    Ok(())
}
