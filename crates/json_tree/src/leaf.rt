//! A leaf: the primitive at a location without children.
ghost use Rattle.std.specs.Prelude.{◌≡◌, ◌≤◌, true, length, IfOk, Some, None, if◌then◌else◌};
ghost use Rattle.tree_model.specs.Primitive.{is_whole, is_text};

use crate::memory::NoMemory;
use arrayvec::ArrayString;
use std::alloc::Global;
use std::marker::Model;
use tree_model::{MAX_TEXT_BYTES, MAX_WHOLE, MIN_WHOLE};

// For how many digits of a number a text makes room: more than most have.
const USUAL_DIGITS: usize = 8;

/// A whole number from -(2^53 - 1) to 2^53 - 1. Contracts see the number. (This project's profile.)
#[derive(Clone, Copy, Debug, PartialEq, Eq)]
pub struct Number {
    value: i64,
}

impl Model for Number {
    ghost use Rattle.std.specs.Prelude.{◌≡◌, ℤ, true};
    ghost use Rattle.tree_model.specs.Primitive.{is_whole};

    ghost Value = { ℤ };

    ghost view = { λ number. number.value };

    ghost invariant = { λ number. is_whole number.value ≡ true };

    ghost inverse = { λ z. record { value = z } };
}

impl Number {
    /// The number of this value, if it lies within the limits.
    pub fn new(value: i64) -> Option<Number>
        ensures { result ≡ (if is_whole value then Some value else None) }
    {
        if MIN_WHOLE <= value && value <= MAX_WHOLE {
            Some(Number { value })
        } else {
            None
        }
    }

    /// The number itself.
    pub fn value(self) -> i64
        ensures value { result ≡ self }
        ensures lawful { is_whole self ≡ true }
    {
        self.value
    }
}

/// How many bytes of a text lie in the text itself: with their number as many as a `String` takes.
const SHORT_BYTES: usize = 16;

/// A text of at most 65,536 bytes. Those of a text of at most 16 lie in itself, and it takes no memory.
/// Contracts see its bytes. (This project's profile.)
#[derive(Debug, Drop)]
pub struct LeafText {
    held: Words,
}

// The bytes of a text: in itself, or in a growth.
#[derive(Debug, Drop)]
pub(crate) enum Words {
    Short(ArrayString<SHORT_BYTES>),
    Long(String),
}

impl Model for LeafText {
    ghost use Rattle.std.specs.Prelude.{◌≡◌, ℕ, List, true};
    ghost use Rattle.tree_model.specs.Primitive.{is_text};
    ghost use Rattle.json_tree.specs.Working.Words.{bytes_of};

    ghost Value = { List ℕ };

    ghost view = { λ text. bytes_of text.held };

    ghost invariant = { λ text. is_text (bytes_of text.held) ≡ true };
}

impl LeafText {
    /// The text itself.
    pub fn as_str(&self) -> &str
        ensures bytes { result.now ≡ self.now }
        ensures lawful { is_text self.now ≡ true }
    {
        match &self.held {
            Words::Short(text) => text.as_str(),
            Words::Long(text) => text.as_str(),
        }
    }

    // The text of these bytes, in one growth at most.
    fn new(alloc: Global, text: &str) -> Result<LeafText, NoMemory>
        requires { length text.now ≤ MAX_TEXT_BYTES }
        ensures { IfOk result (λ held. held ≡ text.now) }
    {
        let held = Words::copy_of(alloc, text)?;
        Ok(LeafText { held })
    }
}

impl Words {
    ghost use Rattle.json_tree.specs.Working.Words.{bytes_of};

    fn copy_of(alloc: Global, text: &str) -> Result<Words, NoMemory>
        ensures { IfOk result (λ words. bytes_of words ≡ text.now) }
    {
        Ok(match ArrayString::from(text) {
            Ok(short) => Words::Short(short),
            Err(_) => Words::Long(String::from_str(alloc, text)?),
        })
    }
}

/// A primitive, within the limits.
#[derive(Debug, Drop)]
pub enum Leaf {
    Truth(bool),
    Whole(Number),
    Words(LeafText),
}

impl Leaf {
    ghost use Rattle.tree_model.specs.Primitive.{words, is_primitive};
    ghost use Rattle.json_tree.specs.Leaf.{primitive_of};

    /// The leaf of a text, in one growth at most: one of at most 16 bytes takes none.
    pub fn words(alloc: Global, text: &str) -> Result<Leaf, NoMemory>
        requires { length text.now ≤ MAX_TEXT_BYTES }
        ensures { IfOk result (λ leaf. primitive_of leaf ≡ words text.now) }
    {
        Ok(Leaf::Words(LeafText::new(alloc, text)?))
    }

    /// The same leaf once more. A text takes one growth at most.
    pub fn copy(&self, alloc: Global) -> Result<Leaf, NoMemory>
        ensures { IfOk result (λ leaf. primitive_of leaf ≡ primitive_of self.now) }
    {
        match self {
            Leaf::Truth(b) => Ok(Leaf::Truth(*b)),
            Leaf::Whole(number) => Ok(Leaf::Whole(*number)),
            Leaf::Words(text) => Leaf::words(alloc, text.as_str()),
        }
    }

    // About how many bytes its text has.
    pub(crate) fn text_room(&self) -> usize {
        match self {
            Leaf::Truth(_) => "false".len(),
            Leaf::Whole(_) => USUAL_DIGITS,
            Leaf::Words(text) => text.as_str().len() + "\"\"".len(),
        }
    }

    /// Every leaf lies within the limits.
    pub fn law(&self)
        ensures { is_primitive (primitive_of self.now) ≡ true }
    {
        match self {
            Leaf::Truth(_) => {}
            Leaf::Whole(number) => {
                number.value();
            }
            Leaf::Words(text) => {
                text.as_str();
            }
        }
    }
}

/// Whether a text is a lawful primitive.
pub(crate) fn is_lawful_text(text: &str) -> bool
    ensures { result ≡ is_text text.now }
{
    text.len() <= MAX_TEXT_BYTES
}
