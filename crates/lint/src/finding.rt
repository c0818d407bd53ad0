//! What is found in a rules file.

use rules_reader::Kind;

/// A member of a rules file that has no effect, or asks for what can't be.
#[derive(Debug, Drop)]
pub struct Finding {
    /// The text of the pattern of the object that has the member; of a capture, that of its own object.
    pub pattern: String,
    pub member: Member,
    /// The byte of the file where the member's name begins, from 0.
    pub byte: usize,
    pub reason: Reason,
}

/// What sort of member it is.
#[derive(Clone, Copy, Debug, PartialEq, Eq)]
pub enum Member {
    Rule(Kind),
    /// `.indexOn`
    Index,
    Capture,
}

/// Why it has no effect, or can't be met. A pattern is given by its text.
#[derive(Debug, Drop)]
pub enum Reason {
    /// A rule of its kind is `true` above it, at this pattern.
    GrantedAbove(String),
    /// It is `false`, and above it, at this pattern, a rule of its kind is not.
    TakesNothingBack(String),
    /// It is `false`, and above it no rule of its kind is anything else.
    GrantsNothing,
    /// It asks for both of its own location.
    AsksForBoth(Demand, Demand),
    /// It asks for this child, and that child's `.validate`, which is at this pattern, is `false`.
    AsksForRefused(String, String),
    /// An index is ignored.
    IsIgnored,
    /// No rule uses this capture, which is given without its `$`.
    IsUnused(String),
}

/// What a rule can ask for at a location of the tree as it would be: a primitive of one type, or children. Nothing is
/// two of these at once.
#[derive(Clone, Copy, Debug, PartialEq, Eq)]
pub enum Demand {
    IsString,
    IsNumber,
    IsBoolean,
    HasChildren,
}
