//! The rules that a denial names, borrowed.
ghost use Rattle.std.specs.Prelude.{◌≡◌, ◌++◌, ◌∷◌, [], ℕ, List, drop, IfOk, OnOk};
ghost use Rattle.path_capture.specs.Pattern.{printed_pattern};
ghost use Rattle.judge.specs.Tests.{name_of};

use crate::verdict::{Named, NamedRules, Why};
use bumpalo::Bump;
use json_tree::NoMemory;
use rules_reader::RuleNode;
use std::alloc::Global;
use std::marker::Model;

/// A rule that a denial names, borrowed: the object that states it, and why it does not hold. Contracts see its
/// name.
#[derive(Drop)]
pub struct BorrowedName<'a> {
    rule: &'a RuleNode,
    why: Why,
}

impl<'a> Model for BorrowedName<'a> {
    ghost use Rattle.judge.specs.declared.verdict.Named.{Named};
    ghost use Rattle.judge.specs.Tests.{name_of};

    ghost Value = { Named };

    ghost view = { λ name. name_of (name.rule.now.at, name.why) };
}

impl<'a> BorrowedName<'a> {
    // The name of the rule that this object states, which does not hold for this reason.
    pub(crate) fn of(rule: &'a RuleNode, why: Why) -> BorrowedName<'a>
        ensures { result ≡ name_of (rule.now.at, why) }
    {
        BorrowedName { rule, why }
    }

    /// The text of the pattern of the rule, in constant time.
    pub fn pattern_text(&self) -> &'a str
        ensures { result.now ≡ printed_pattern self.now.pattern }
    {
        self.rule.pattern_text()
    }

    /// Why the rule does not hold.
    pub fn why(&self) -> Why
        ensures { result ≡ self.now.why }
    {
        self.why
    }

    // The same name, with a pattern of its own.
    fn copy(&self) -> Result<Named, NoMemory>
        ensures { IfOk result (λ named. named ≡ self.now) }
    {
        let pattern = self.rule.pattern();
        pattern.law();
        Ok(Named {
            pattern: pattern.copy()?,
            why: self.why,
        })
    }
}

/// The rules that a denial names, shortest pattern first, borrowed from the rules and listed in the arena. Contracts
/// see the names.
#[derive(Drop)]
pub struct BorrowedNames<'a> {
    held: Vec<BorrowedName<'a>, &'a Bump>,
}

impl<'a> Model for BorrowedNames<'a> {
    ghost use Rattle.std.specs.Prelude.{List};
    ghost use Rattle.judge.specs.declared.verdict.Named.{Named};

    ghost Value = { List Named };

    ghost view = { λ names. names.held.items };
}

impl<'a> BorrowedNames<'a> {
    // The rules of a list in the arena.
    pub(crate) fn of_vec(held: Vec<BorrowedName<'a>, &'a Bump>) -> BorrowedNames<'a>
        ensures { result ≡ held.entry.items }
    {
        BorrowedNames { held }
    }

    /// The rules, shortest pattern first. It takes no memory.
    pub fn as_slice(&self) -> &[BorrowedName<'a>]
        ensures { result.now ≡ self.now }
    {
        self.held.as_slice()
    }

    /// The same names, copied: a growth for the list and those of a pattern for each rule.
    pub fn copy(&self, alloc: Global) -> Result<NamedRules, NoMemory>
        ensures { IfOk result (λ named. named ≡ self.now) }
    {
        let named = copies(alloc, self.held.as_slice())?;
        Ok(NamedRules::of_vec(named))
    }
}

fn copies(alloc: Global, names: &[BorrowedName<'_>]) -> Result<Vec<Named>, NoMemory>
    ensures { IfOk result (λ named. named.items ≡ names.now) }
{
    let mut named = Vec::with_capacity(alloc, names.len())?;
    for name in names {
        named.push(name.copy()?)?;
    }
    Ok(named)
}
