//! Expressions.

use expr_tokens::{Name, Operator, Text};

/// An expression, with one variant for each alternative of the grammar. (Firebase Security Rules
/// reference, expressions; which of them there are is this project's profile.)
#[derive(Debug, Drop)]
#[cycle(expr)]
pub enum Expr {
    Number(u64),
    Text(Text),
    True,
    False,
    Null,
    Variable(Name),
    /// The capture of this name, which is without its `$`.
    Capture(Name),
    /// An expression in parentheses.
    Group(Box<Expr>),
    /// The receiver, and the name behind its dot.
    Member(Box<Expr>, Name),
    /// The receiver, the name behind its dot, and what it is called with.
    Call(Box<Expr>, Name, Vec<Argument>),
    Not(Box<Expr>),
    Negate(Box<Expr>),
    Operation(Operator, Box<Expr>, Box<Expr>),
    /// The condition, the part for true and the part for false.
    Choice(Box<Expr>, Box<Expr>, Box<Expr>),
}

/// What a call is given: an expression, or a list of at least one.
#[derive(Debug, Drop)]
#[cycle(expr)]
pub enum Argument {
    One(Expr),
    List(Vec<Expr>),
}
