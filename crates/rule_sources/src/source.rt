//! A rule, as a file writes it.

use crate::origins::origins;
use crate::spans::{Span, spans};
use crate::spot::Spot;
use json_tree::NoMemory;
use rules_reader::Kind;
use std::alloc::Global;

/// A rule, as a file writes it.
#[derive(Debug, Drop)]
pub struct RuleSource {
    /// The pattern of the object that states it, as [`pattern_text`](rules_reader::RuleNode::pattern_text) has it.
    pub pattern: String,
    /// What the rule is for.
    pub kind: Kind,
    /// The expression, once the escapes of JSON are taken away and raw line feeds, carriage returns and tabs are
    /// spaces; of a rule that is a literal `true` or `false`.
    pub text: String,
    // Where its value begins.
    spot: Spot,
    // Of each byte of the text the byte of the file from which it was read, and last the byte behind them.
    origins: Vec<usize>,
    // The bytes of the text that each token takes.
    spans: Vec<Span>,
}

impl RuleSource {
    /// The rule of a kind at a pattern that a file states at a spot, where its value says this.
    pub(crate) fn new(
        alloc: Global,
        file: &[u8],
        spot: Spot,
        pattern: String,
        kind: Kind,
        said: &str,
    ) -> Result<RuleSource, NoMemory> {
        Ok(RuleSource {
            pattern,
            kind,
            text: String::from_str(alloc, said)?,
            spot,
            origins: origins(alloc, file, begin_of_words(file, spot.byte), said)?,
            spans: spans(alloc, said)?,
        })
    }

    /// The byte of the file where the value begins: its quotation mark, or the literal. In constant time, as all that
    /// is asked of a rule.
    pub fn begins(&self) -> usize {
        self.spot.byte
    }

    /// The line of that byte, from 1. A line ends at a line feed.
    pub fn line(&self) -> usize {
        self.spot.line
    }

    /// The column of that byte, from 1, in characters.
    pub fn column(&self) -> usize {
        self.spot.column
    }

    /// The bytes of the text, from the first on and up to the second, that so many tokens take behind the first ones:
    /// from the begin of the first of them to the end of the last. None where they are no tokens of the text, or none
    /// at all.
    pub fn token_bytes(&self, at: usize, tokens: usize) -> Option<(usize, usize)> {
        let last = at.checked_add(tokens.checked_sub(1)?)?;
        let (first, last) = (self.spans.get(at)?, self.spans.get(last)?);
        Some((first.from, last.to))
    }

    /// The byte of the file from which a byte of the text was read: of a character that is written as an escape its
    /// backslash, whichever of its bytes is asked. The end of the text gives the closing quotation mark, of a literal
    /// the byte behind it.
    pub fn place_in_file(&self, byte: usize) -> Option<usize> {
        self.origins.get(byte).copied()
    }
}

// Where the words begin of a value that begins at a place: behind a quotation mark.
fn begin_of_words(file: &[u8], place: usize) -> usize {
    match file.get(place) {
        Some(b'"') => place.saturating_add(1),
        _ => place,
    }
}
