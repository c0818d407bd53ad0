//! Why a request is granted or refused: each rule that it asks, with what the rule answers and what its expression
//! looks at.
//!
//! Contracts state which rules are asked by `specs/Asked`. What the layers above need is [`explain_read`] and
//! [`explain_writes`]: the verdict of each is that of the judge.
#![tactic(auto)]

mod asked;
mod place;
mod places;
mod requests;

pub use asked::AskedRule;
pub use place::Place;
pub use requests::{Explanation, explain_read, explain_writes};
