//! Tokens.

use crate::operator::Operator;
use crate::quoted::Quoted;
use crate::word::Word;

/// What the text of an expression is made of. A token borrows the words of its text.
/// (Firebase Security Rules reference, expressions; which signs there are is this project's profile.)
#[derive(Debug, Drop)]
pub enum Token<'a> {
    Number(u64),
    Text(Quoted<'a>),
    Name(Word<'a>),
    /// The word is without the `$`.
    Capture(Word<'a>),
    True,
    False,
    Null,
    OpenParenthesis,
    CloseParenthesis,
    OpenBracket,
    CloseBracket,
    Comma,
    Dot,
    Question,
    Colon,
    Not,
    /// A `-` is [`Operator::Subtract`], with one operand or two.
    Operator(Operator),
}
