//! A pattern: where a rule stands.
ghost use Rattle.std.specs.Prelude.{◌≡◌, ◌++◌, [], ◌∷◌, List, ℕ, true, map, length, codes, option_map, slice_get, string_bytes, IfOk, OnOk, OnErr, MatchOption};
ghost use Rattle.tree_model.specs.Key.{key_cmp, is_key};
ghost use Rattle.path_capture.specs.Pattern.{part_of, part_text, part_of_text, pattern_cmp, printed_pattern};

use crate::name::CaptureName;
use crate::path::USUAL_TEXT_BYTES;
use json_tree::{Key, NoMemory};
use std::alloc::Global;
use std::cmp::Ordering;
use std::marker::Model;

/// A part of a pattern: a key, or a capture, which stands for any one key. (Reference, core syntax:
/// `$` captures.)
#[derive(Debug, Drop)]
pub enum Part {
    Literal(Key),
    Capture(CaptureName),
}

impl Part {
    /// The same part once more, in one growth at most.
    #[inline(always)]
    pub fn copy(&self, alloc: Global) -> Result<Part, NoMemory>
        ensures { IfOk result (λ part. part_of part ≡ part_of self.now) }
    {
        match self {
            Part::Literal(key) => Ok(Part::Literal(key.copy(alloc)?)),
            Part::Capture(name) => Ok(Part::Capture(name.copy(alloc)?)),
        }
    }

    /// A part is what its text names, since no key begins with `$`. It does nothing.
    pub fn law(&self)
        ensures { part_of_text (part_text (part_of self.now)) ≡ part_of self.now }
    {
        if let Part::Literal(key) = self {
            let _lawful = key.text();
        }
    }

    /// Where the text of the part stands beside a key, by their bytes. It takes no memory.
    pub fn compare_key(&self, key: &Key) -> Ordering
        ensures { result ≡ key_cmp (part_text (part_of self.now)) key.now }
    {
        match self {
            Part::Literal(own) => own.text().cmp(key.text()),
            Part::Capture(_) => compare_with_capture(key.text()).reverse(),
        }
    }

    // The order of the texts of two parts. That of a capture begins with `$`, which is in no key.
    fn compare(&self, other: &Part) -> Ordering
        ensures { result ≡ key_cmp (part_text (part_of self.now)) (part_text (part_of other.now)) }
    {
        match (self, other) {
            (Part::Literal(key), Part::Literal(beside)) => key.text().cmp(beside.text()),
            (Part::Capture(name), Part::Capture(beside)) => name.text().cmp(beside.text()),
            (Part::Literal(key), Part::Capture(_)) => compare_with_capture(key.text()),
            (Part::Capture(_), Part::Literal(key)) => compare_with_capture(key.text()).reverse(),
        }
    }

    // Writes the text of the part at the end of a text.
    fn append_to(&self, text: &mut String) -> Result<(), NoMemory>
        ensures { OnOk result (string_bytes text.new ≡ string_bytes text.old ++ part_text (part_of self.now)) }
    {
        match self {
            Part::Literal(key) => text.push_str(key.text())?,
            Part::Capture(name) => {
                text.push('$')?;
                text.push_str(name.text())?;
            }
        }
        Ok(())
    }
}

/// A pattern: a list of keys and captures, from the root down to where a rule stands. It keeps the
/// allocator that it was made with, for all that it takes later. Contracts see the list of its parts.
/// (Reference, core syntax: `$` captures.)
#[derive(Debug, Drop)]
pub struct Pattern {
    held: Vec<Part>,
}

impl Model for Pattern {
    ghost use Rattle.std.specs.Prelude.{List, map};
    ghost use Rattle.path_capture.specs.Pattern.{PatternPart, part_of, pattern_code};

    ghost Value = { List PatternPart };

    ghost coded = { pattern_code };

    ghost view = { λ pattern. map part_of pattern.held.items };
}

impl Pattern {
    /// The empty pattern. It takes no memory.
    pub fn new(alloc: Global) -> Pattern
        ensures { result ≡ [] }
    {
        Pattern {
            held: Vec::new(alloc),
        }
    }

    /// Adds a part at the end.
    pub fn push(&mut self, part: Part) -> Result<(), NoMemory>
        ensures ok { OnOk result (self.new ≡ self.old ++ part_of part ∷ []) }
        ensures err { OnErr result (self.new ≡ self.old) }
    {
        self.held.push(part)?;
        Ok(())
    }

    /// Takes the last part, if there is one. It takes no memory.
    pub fn pop(&mut self) -> Option<Part>
        ensures { MatchOption result ((self.old ≡ []) × (self.new ≡ [])) (λ part. self.old ≡ self.new ++ part_of part ∷ []) }
    {
        self.held.pop()
    }

    /// How many parts there are.
    pub fn len(&self) -> usize
        ensures { result ≡ length self.now }
    {
        self.held.len()
    }

    /// The part at an index, and `None` from the length on.
    pub fn part(&self, index: usize) -> Option<&Part>
        ensures { option_map (λ part. part_of part.now) result ≡ slice_get self.now index }
    {
        self.held.get(index)
    }

    /// A pattern is what the texts of its parts name. It does nothing.
    pub fn law(&self)
        ensures { map part_of_text (map part_text self.now) ≡ self.now }
    {
        law_of_parts(self.held.as_slice())
    }

    /// The order of patterns: by the list of the texts of their parts, each by its bytes, a prefix
    /// first. It takes no memory, and time linear in the bytes that it compares. (This project's
    /// profile.)
    pub fn compare(&self, other: &Pattern) -> Ordering
        ensures { result ≡ pattern_cmp self.now other.now }
    {
        compare_parts(self.held.as_slice(), other.held.as_slice())
    }

    /// The text of the pattern: `/` where it is empty, else as `/rooms/$r`. It takes one growth, and more
    /// where it has over 64 bytes.
    pub fn print(&self) -> Result<String, NoMemory>
        ensures { IfOk result (λ text. string_bytes text ≡ printed_pattern self.now) }
    {
        let mut text = String::with_capacity(*self.held.allocator(), USUAL_TEXT_BYTES)?;
        self.append_to(&mut text)?;
        Ok(text)
    }

    /// Writes the text of the pattern at the end of a text, with no memory where that has room.
    pub fn append_to(&self, text: &mut String) -> Result<(), NoMemory>
        ensures { OnOk result (string_bytes text.new ≡ string_bytes text.old ++ printed_pattern self.now) }
    {
        append_parts(text, self.held.as_slice())
    }

    /// The same pattern once more, by one growth for the list and one at most for each part.
    pub fn copy(&self) -> Result<Pattern, NoMemory>
        ensures { IfOk result (λ pattern. pattern ≡ self.now) }
    {
        Ok(Pattern {
            held: copies(*self.held.allocator(), self.held.as_slice(), 0)?,
        })
    }

    /// The pattern one part further down, by one growth for the list and one at most for each part.
    pub fn below(&self, part: &Part) -> Result<Pattern, NoMemory>
        ensures { IfOk result (λ pattern. pattern ≡ self.now ++ part_of part.now ∷ []) }
    {
        let alloc = *self.held.allocator();
        let mut held = copies(alloc, self.held.as_slice(), 1)?;
        held.push(part.copy(alloc)?)?;
        Ok(Pattern { held })
    }
}

// Where a key stands beside the text of any capture: its first byte decides, which is no `$`.
fn compare_with_capture(key: &str) -> Ordering
    requires { is_key key.now ≡ true }
    ensures { (name : List ℕ) → result ≡ key_cmp key.now (codes "$" ++ name) }
{
    match key.as_bytes() {
        [first, ..] => first.cmp(&b'$'),
        [] => Ordering::Less,
    }
}

fn law_of_parts(parts: &[Part])
    ensures { map part_of_text (map part_text (map part_of parts.now)) ≡ map part_of parts.now }
{
    for part in parts {
        part.law();
    }
}

fn compare_parts(parts: &[Part], others: &[Part]) -> Ordering
    ensures { result ≡ pattern_cmp (map part_of parts.now) (map part_of others.now) }
{
    for (part, other) in parts.iter().zip(others) {
        let order = part.compare(other);
        if order != Ordering::Equal {
            return order;
        }
    }
    parts.len().cmp(&others.len())
}

fn append_parts(text: &mut String, parts: &[Part]) -> Result<(), NoMemory>
    ensures { OnOk result (string_bytes text.new ≡ string_bytes text.old ++ printed_pattern (map part_of parts.now)) }
{
    for part in parts {
        text.push('/')?;
        part.append_to(text)?;
    }
    if parts.is_empty() {
        text.push('/')?;
    }
    Ok(())
}

// The same parts once more, with room for so many behind them.
fn copies(alloc: Global, parts: &[Part], more: usize) -> Result<Vec<Part>, NoMemory>
    ensures { IfOk result (λ copies. map part_of copies.items ≡ map part_of parts.now) }
{
    let mut copies = Vec::with_capacity(alloc, parts.len().saturating_add(more))?;
    for part in parts {
        copies.push(part.copy(alloc)?)?;
    }
    Ok(copies)
}
