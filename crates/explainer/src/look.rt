//! A part of an expression that is looked at.

use evaluator::Meaning;
use expr_parser::Expr;

/// A part of an expression that its meaning looks at. (Reference, expressions.)
#[derive(Clone, Copy)]
pub struct Look<'a> {
    /// How many tokens of the whole expression are before the part.
    pub at: usize,
    /// How many tokens the part has.
    pub tokens: usize,
    pub part: &'a Expr,
    /// What the part means, and None where that is an error.
    pub meaning: Option<Meaning<'a>>,
}
