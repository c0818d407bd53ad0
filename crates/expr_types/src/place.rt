//! What a rule is for.

/// What an expression is the rule for, which decides about its variables: `newData` is there where
/// something is written, and `query` where something is read. (Reference, rules types and variables.)
#[derive(Clone, Copy, Debug, PartialEq, Eq)]
pub enum Place {
    /// A `.read`.
    ReadRule,
    /// A `.write`.
    WriteRule,
    /// A `.validate`.
    ValidateRule,
}
