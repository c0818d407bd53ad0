//! Why an expression means what it means: the parts that its meaning looks at, each with what it means.
//!
//! Contracts state what is looked at by `specs/Looks`, one line for each form of an expression. What the layers
//! above need is [`explain`]: it lists exactly these parts, in the order of their evaluation, the whole expression
//! last, each with its place in the expression's tokens.
#![tactic(auto)]

mod explanation;
mod laws;
mod look;
mod tested;

pub use explanation::explain;
pub use laws::{
    an_error_that_is_looked_at_is_one_of_the_whole, what_is_looked_at_is_a_part_at_its_place,
    what_is_looked_at_is_in_order, what_is_looked_at_makes_the_difference,
};
pub use look::Look;
