//! What the rules say: a verdict, and what a denial names.
ghost use Rattle.std.specs.Prelude.{◌≡◌};

use path_capture::{Path, Pattern};
use std::marker::Model;

/// What the rules say of a read or of writes.
#[derive(Debug, Drop)]
pub enum Verdict {
    /// The rules let it be done.
    Granted,
    /// No `.read` at the path or above it holds; these are all of them.
    ReadDenied(NamedRules),
    /// No `.write` at the location or above it holds; these are all of them. It is the least such
    /// location.
    WriteDenied(Path, NamedRules),
    /// The `.validate` that stands at this place with this pattern does not hold. It is the least such
    /// place.
    ValidateDenied(Path, Pattern, Why),
}

/// A rule that a denial names, by its pattern, with the reason why it does not hold.
#[derive(Debug, Drop)]
pub struct Named {
    pub pattern: Pattern,
    pub why: Why,
}

/// Why a rule does not hold.
#[derive(Clone, Copy, Debug, PartialEq, Eq)]
pub enum Why {
    /// Its expression is false.
    No,
    /// Its expression errs, or is no boolean.
    Erred,
}

/// The rules that a denial names, shortest pattern first. Contracts see them as a list.
#[derive(Debug, Drop)]
pub struct NamedRules {
    held: Vec<Named>,
}

impl Model for NamedRules {
    ghost use Rattle.std.specs.Prelude.{List};
    ghost use Rattle.judge.specs.declared.verdict.Named.{Named};

    ghost Value = { List Named };

    ghost view = { λ rules. rules.held.items };
}

impl NamedRules {
    /// The rules of a vector, without taking memory.
    pub fn of_vec(held: Vec<Named>) -> NamedRules
        ensures { result ≡ held.items }
    {
        NamedRules { held }
    }

    /// The rules, shortest pattern first. It takes no memory.
    pub fn as_slice(&self) -> &[Named]
        ensures { result.now ≡ self.now }
    {
        self.held.as_slice()
    }
}
