//! What an expression means, and whether a rule holds.
//!
//! Contracts state the meaning by `specs/Mean`, one line for each form of an expression, and what
//! holds by `specs/Holds`. What the layers above need is [`evaluate`]: it answers Yes exactly where the
//! expression means true, No exactly where it means false, and Erred in every other case. [`meaning`] says what a part
//! of it means.
#![tactic(auto)]

mod asked;
mod calls;
mod env;
mod evaluation;
mod identity;
mod laws;
mod members;
mod operators;
mod seams;
mod snapshot;
mod texts;
mod value;
mod worked;

pub use asked::Asked;
pub use env::{Access, Env, MAX_MOMENT, Moment};
pub use evaluation::{Outcome, evaluate, meaning};
pub use identity::{Claims, Identity};
pub use laws::{
    all_parts_of_what_is_checked_have_sorts, what_a_text_contains, what_an_expression_depends_on,
    what_has_a_sort_means_that_or_errs, what_replacing_gives,
};
pub use snapshot::Snapshot;
pub use value::{Meaning, Value};
pub use worked::{
    what_auth_gives, what_limits_give, what_operators_give, what_snapshots_give, what_texts_give,
};
