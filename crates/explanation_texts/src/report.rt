//! Explanations as a text for a person.

use crate::decided::{deciding, is_literal, made_of};
use crate::errors::put_reason;
use crate::rules_file::RulesFile;
use crate::values::{meaning_in_words, put_path, put_plain};
use evaluator::Outcome;
use explainer::Look;
use json_tree::{Key, NoMemory};
use judge::Verdict;
use path_capture::Path;
use request_explainer::{AskedRule, Explanation};
use rtdb_model::Event;
use rule_sources::RuleSource;
use rules_reader::Kind;
use std::alloc::Global;

// How many characters of a request are shown.
const MOST_SHOWN: usize = 200;

/// What becomes of a request.
#[derive(Clone, Copy, Debug, PartialEq, Eq)]
pub enum Fate {
    Granted,
    /// The rules refuse it.
    Refused,
    /// It is refused, and no rule was asked.
    RefusedOtherwise,
}

/// The text of all explanations so far, and how many requests there were.
#[derive(Drop)]
pub(crate) struct Report {
    alloc: Global,
    text: String,
    granted: u64,
    refused: u64,
    refused_otherwise: u64,
}

impl Report {
    pub(crate) fn new(alloc: Global) -> Report {
        Report {
            alloc,
            text: String::new(alloc),
            granted: 0,
            refused: 0,
            refused_otherwise: 0,
        }
    }

    /// The allocator that it keeps.
    pub(crate) fn alloc(&self) -> Global {
        self.alloc
    }

    /// Counts a request.
    pub(crate) fn count(&mut self, fate: Fate) {
        match fate {
            Fate::Granted => self.granted = self.granted.saturating_add(1),
            Fate::Refused => self.refused = self.refused.saturating_add(1),
            Fate::RefusedOtherwise => {
                self.refused_otherwise = self.refused_otherwise.saturating_add(1);
            }
        }
    }

    /// How many requests were counted.
    pub(crate) fn total(&self) -> u64 {
        self.granted
            .saturating_add(self.refused)
            .saturating_add(self.refused_otherwise)
    }

    /// How many requests were counted, as a sentence.
    pub(crate) fn sentence(&self) -> Result<String, NoMemory> {
        let total = self.total();
        let Report {
            granted,
            refused,
            refused_otherwise,
            ..
        } = *self;
        Ok(format!(in self.alloc;
            "{total} requests: {granted} granted, {refused} refused by the rules, {refused_otherwise} refused for another reason"
        )?)
    }

    /// The text of the explanations.
    pub(crate) fn text(self) -> String {
        let Report { text, .. } = self;
        text
    }

    /// Appends the explanation of the request of a number.
    pub(crate) fn append(
        &mut self,
        number: u64,
        line: &[u8],
        event: &Event,
        explanation: &Explanation<'_>,
        rules: &RulesFile,
    ) -> Result<(), NoMemory> {
        self.put(format!(in self.alloc; "Request {number}: ")?.as_str())?;
        self.put(front_of(self.alloc, line)?.as_str())?;
        self.put("\n")?;
        self.put_verdict(event, &explanation.verdict, explanation.rules.is_empty())?;
        for (index, asked) in explanation.rules.iter().enumerate() {
            if is_shown(&explanation.verdict, &explanation.rules, index) {
                self.put_rule(asked, rules)?;
            }
        }
        self.put("\n")
    }

    fn put(&mut self, words: &str) -> Result<(), NoMemory> {
        self.text.push_str(words)?;
        Ok(())
    }

    // What the rules say.
    fn put_verdict(
        &mut self,
        event: &Event,
        verdict: &Verdict,
        is_unasked: bool,
    ) -> Result<(), NoMemory> {
        match verdict {
            Verdict::Granted => self.put("is granted."),
            Verdict::ReadDenied(_) => {
                self.put("is refused: ")?;
                self.put_none(".read", path_of(event), is_unasked)
            }
            Verdict::WriteDenied(location, _) => {
                self.put("is refused: ")?;
                self.put_none(".write", Some(location), is_unasked)
            }
            Verdict::ValidateDenied(place, _, _) => {
                self.put("is refused: the .validate at ")?;
                self.put_location(place)?;
                self.put(" does not hold.")
            }
        }?;
        self.put("\n")
    }

    // That no rule of a kind grants a path.
    fn put_none(
        &mut self,
        kind: &str,
        path: Option<&Path>,
        is_unasked: bool,
    ) -> Result<(), NoMemory> {
        self.put("no ")?;
        self.put(kind)?;
        self.put(if is_unasked {
            " stands at "
        } else {
            " holds at "
        })?;
        match path {
            Some(path) => self.put_location(path)?,
            None => self.put("the path")?,
        }
        self.put(" or above it.")
    }

    fn put_location(&mut self, path: &Path) -> Result<(), NoMemory> {
        let mut keys: Vec<&Key> = Vec::new(self.alloc);
        for key in path.keys() {
            keys.push(key)?;
        }
        put_path(&keys, &mut self.text)
    }

    // A rule that was asked: where it is written, what it answers, and the parts that decided.
    fn put_rule(&mut self, asked: &AskedRule<'_>, rules: &RulesFile) -> Result<(), NoMemory> {
        let source = rules.source_of(asked);
        self.put("\n  ")?;
        self.put(asked.kind.name())?;
        self.put(" of ")?;
        put_plain(asked.rule.node.pattern_text(), &mut self.text)?;
        if let Some(source) = source {
            let (line, column) = (source.line(), source.column());
            self.put(format!(in self.alloc;
                " (line {line} of the rules, column {column})"
            )?.as_str())?;
        }
        self.put(", asked at ")?;
        put_path(asked.place.keys(), &mut self.text)?;
        self.put(match asked.rule.answer {
            Outcome::Yes => ": true\n",
            Outcome::No => ": false\n",
            Outcome::Erred => ": an error\n",
        })?;
        match source {
            Some(source) => self.put_parts(&asked.looks, source, rules),
            None => Ok(()),
        }
    }

    // The expression of a rule, with the parts marked that decided, and what they mean.
    fn put_parts(
        &mut self,
        looks: &[Look<'_>],
        source: &RuleSource,
        rules: &RulesFile,
    ) -> Result<(), NoMemory> {
        let parts = deciding(self.alloc, looks)?;
        self.put_lines(looks, &parts, source, rules)?;
        for part in &parts {
            if looks.get(*part).is_some_and(is_literal) {
                continue;
            }
            self.put_meaning(looks, *part, source, "    ")?;
            self.put_made_of(looks, *part, source)?;
        }
        Ok(())
    }

    // What a part is made of, the same text once.
    fn put_made_of(
        &mut self,
        looks: &[Look<'_>],
        part: usize,
        source: &RuleSource,
    ) -> Result<(), NoMemory> {
        let made = made_of(self.alloc, looks, part)?;
        for (count, index) in made.iter().enumerate() {
            let is_new = !is_written_before(looks, source, &made, count);
            if is_new && *index != part {
                self.put_meaning(looks, *index, source, "      ")?;
            }
        }
        Ok(())
    }

    // The lines of an expression as the file has them, each with a line of carets under the parts of it that decided, if
    // it has any.
    fn put_lines(
        &mut self,
        looks: &[Look<'_>],
        parts: &[usize],
        source: &RuleSource,
        rules: &RulesFile,
    ) -> Result<(), NoMemory> {
        let mut from: usize = 0;
        for end in &line_ends(self.alloc, source, rules)? {
            let line = source.text.as_str().get(from..*end).unwrap_or("");
            let words = line.trim_start();
            let first = from.saturating_add(line.len().saturating_sub(words.len()));
            let indent = if from == 0 { "    " } else { "      " };
            self.put(indent)?;
            put_plain(words.trim_end(), &mut self.text)?;
            self.put("\n")?;
            let marked = Marked {
                first,
                words,
                indent,
            };
            self.put_marks(looks, parts, source, marked)?;
            from = *end;
        }
        Ok(())
    }

    // A line of carets under parts of a line, if it has any.
    fn put_marks(
        &mut self,
        looks: &[Look<'_>],
        parts: &[usize],
        source: &RuleSource,
        line: Marked<'_>,
    ) -> Result<(), NoMemory> {
        let mut blanks: usize = 0;
        let mut is_marked_at_all = false;
        for (offset, _) in line.words.trim_end().char_indices() {
            let place = line.first.saturating_add(offset);
            if !is_marked(looks, parts, source, place) {
                blanks = blanks.saturating_add(1);
                continue;
            }
            if !is_marked_at_all {
                self.put(line.indent)?;
                is_marked_at_all = true;
            }
            self.put_blanks(blanks)?;
            blanks = 0;
            self.text.push('^')?;
        }
        if is_marked_at_all {
            self.put("\n")?;
        }
        Ok(())
    }

    fn put_blanks(&mut self, count: usize) -> Result<(), NoMemory> {
        for _ in 0..count {
            self.text.push(' ')?;
        }
        Ok(())
    }

    // What a part means, with its text.
    fn put_meaning(
        &mut self,
        looks: &[Look<'_>],
        part: usize,
        source: &RuleSource,
        indent: &str,
    ) -> Result<(), NoMemory> {
        let Some(look) = looks.get(part) else {
            return Ok(());
        };
        self.put(indent)?;
        for (count, word) in text_of(source, look).split_whitespace().enumerate() {
            self.put(if count == 0 { "" } else { " " })?;
            self.put(word)?;
        }
        self.put(" is ")?;
        meaning_in_words(self.alloc, look.meaning, &mut self.text)?;
        if look.meaning.is_none() {
            put_reason(self.alloc, looks, look, &mut self.text)?;
        }
        self.put("\n")
    }
}

/// The front of a request, as one line.
pub(crate) fn front_of(alloc: Global, line: &[u8]) -> Result<String, NoMemory> {
    let words = String::from_utf8_lossy(alloc, line)?;
    let mut front = String::new(alloc);
    for (count, letter) in words.trim().chars().enumerate() {
        if count == MOST_SHOWN {
            front.push_str("...")?;
            break;
        }
        front.push(if letter.is_control() { ' ' } else { letter })?;
    }
    Ok(front)
}

// The bytes of an expression behind which its lines in the file end, its own end last.
fn line_ends(
    alloc: Global,
    source: &RuleSource,
    rules: &RulesFile,
) -> Result<Vec<usize>, NoMemory> {
    let mut ends = Vec::new(alloc);
    for (place, _) in source.text.as_str().char_indices() {
        if rules.breaks_at(source, place) {
            ends.push(place)?;
        }
    }
    ends.push(source.text.len())?;
    Ok(ends)
}

// A line of an expression: the byte of the expression where its words begin, the words, and what stands before them.
#[derive(Clone, Copy)]
struct Marked<'a> {
    first: usize,
    words: &'a str,
    indent: &'a str,
}

// Whether one of the parts before the one at an index of a list is written in the same words.
fn is_written_before(
    looks: &[Look<'_>],
    source: &RuleSource,
    parts: &[usize],
    index: usize,
) -> bool {
    let Some(part) = parts.get(index) else {
        return false;
    };
    for place in 0..index {
        match parts.get(place) {
            Some(before) if is_same_text(looks, source, *before, *part) => return true,
            _ => {}
        }
    }
    false
}

// Whether two parts are written in the same words.
fn is_same_text(looks: &[Look<'_>], source: &RuleSource, one: usize, other: usize) -> bool {
    match (looks.get(one), looks.get(other)) {
        (Some(one), Some(other)) => text_of(source, one) == text_of(source, other),
        _ => false,
    }
}

// The text of a part.
fn text_of<'s>(source: &'s RuleSource, look: &Look<'_>) -> &'s str {
    let text = source.text.as_str();
    match source.token_bytes(look.at, look.tokens) {
        Some((from, to)) => text.get(from..to).unwrap_or(text),
        None => text,
    }
}

// Whether a byte of an expression lies in one of these parts.
fn is_marked(looks: &[Look<'_>], parts: &[usize], source: &RuleSource, byte: usize) -> bool {
    parts
        .iter()
        .filter_map(|part| looks.get(*part))
        .filter_map(|look| source.token_bytes(look.at, look.tokens))
        .any(|range| range.0 <= byte && byte < range.1)
}

// Whether a rule that was asked is shown for a verdict: where it is refused those that grant nothing, each once, or the
// one that is not met; where it is granted those that hold.
fn is_shown(verdict: &Verdict, rules: &[AskedRule<'_>], index: usize) -> bool {
    let Some(asked) = rules.get(index) else {
        return false;
    };
    let holds = asked.rule.answer == Outcome::Yes;
    match verdict {
        Verdict::Granted => holds && !is_repeated(rules, index),
        Verdict::ReadDenied(_) => !is_repeated(rules, index),
        Verdict::WriteDenied(location, _) => {
            is_above(asked.place.keys(), location.keys()) && !is_repeated(rules, index)
        }
        Verdict::ValidateDenied(_, _, _) => asked.kind == Kind::Validate && !holds,
    }
}

// Whether the same rule was asked at the same place before.
fn is_repeated(rules: &[AskedRule<'_>], index: usize) -> bool {
    let Some(asked) = rules.get(index) else {
        return false;
    };
    rules.iter().take(index).any(|before| {
        before.kind == asked.kind && are_same(before.place.keys(), asked.place.keys())
    })
}

fn are_same(place: &[&Key], other: &[&Key]) -> bool {
    place.len() == other.len()
        && place
            .iter()
            .zip(other.iter())
            .all(|pair| pair.0.text() == pair.1.text())
}

fn is_above(place: &[&Key], keys: &[Key]) -> bool {
    place.len() <= keys.len()
        && place
            .iter()
            .zip(keys.iter())
            .all(|pair| pair.0.text() == pair.1.text())
}

fn path_of(event: &Event) -> Option<&Path> {
    match event {
        Event::Get(path, _) | Event::Listen(_, path, _) => Some(path),
        _ => None,
    }
}
