//! Expressions of the rules language: from their text to tokens.
//!
//! Contracts state the tokens of a text by its spelling, in `specs/Spelling`. What the layers above
//! need is [`scan`]: it gives the one list of tokens that a text spells, and where each begins, or the
//! text's earliest fault.
#![tactic(auto)]

mod escape;
mod fault;
mod front;
mod known;
mod limits;
mod name;
mod operator;
mod quoted;
mod scanner;
mod text;
mod token;
mod word;

pub use fault::{Excluded, ExprFault};
pub use known::KnownName;
pub use limits::{MAX_EXPRESSION_BYTES, MAX_NUMBER, the_limits};
pub use name::Name;
pub use operator::Operator;
pub use quoted::{Quoted, one_meaning_of_escapes};
pub use scanner::{Scanned, each_text_has_tokens_or_a_fault, one_fault, one_list, scan, tokens};
pub use text::Text;
pub use token::Token;
pub use word::Word;
