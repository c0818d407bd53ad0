//! Expressions of the rules language: from tokens to expressions.
//!
//! Contracts see an [`Expr`] as a tree of `specs/SyntaxTree`, and state what is read by the grammar of
//! `specs/Grammar`. What the layers above need is [`parse`]: it gives the one expression that a text
//! spells, or says where the text stops being one.
#![tactic(auto)]

mod expr;
mod from_text;
mod limits;
mod parser;
mod worked;

pub use expr::{Argument, Expr};
pub use expr_tokens::{Excluded, ExprFault, Name, Operator, Text, Token, tokens};
pub use from_text::{each_text_is_read_or_refused, one_expression, one_refusal, parse};
pub use limits::{MAX_LEVELS, the_limit_of_levels};
pub use parser::{
    ParseFault, each_list_of_tokens_is_read_or_refused, expression, one_expression_of_tokens,
};
pub use worked::{what_levels_give, what_the_length_gives};
