//! Operators.

/// An operator between two operands. (Firebase Security Rules reference, expressions: operators.)
#[derive(Clone, Copy, Debug, PartialEq, Eq)]
pub enum Operator {
    Or,
    And,
    /// Spelled `==` or `===`.
    Equal,
    /// Spelled `!=` or `!==`.
    NotEqual,
    Less,
    LessOrEqual,
    Greater,
    GreaterOrEqual,
    Add,
    Subtract,
    Multiply,
    Remainder,
}
