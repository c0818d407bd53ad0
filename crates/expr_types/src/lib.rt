//! Sorts of expressions: which expression may stand in a rule, and the first fault of one that may
//! not.
//!
//! Contracts state sorts by `specs/HasSort`, by the rows of the language's table, and faults
//! by `specs/Faults`. What the layers above need is [`check`]: it hands the expression on as a
//! [`Checked`], which may stand where a value is wanted, or names its first fault.
#![tactic(auto)]

mod checked;
mod checker;
mod fault;
mod laws;
mod names;
mod place;
mod rows;
mod scope;
mod sort;

pub use checked::Checked;
pub use checker::{check, sort_of};
pub use fault::{FaultyName, TypeFault};
pub use laws::{
    a_named_fault_stands_in_the_expression, a_value_stands_where_one_is_wanted,
    captures_have_names_of_expressions, captures_that_are_named_are_there,
    each_has_a_sort_or_a_first_fault, each_part_is_looked_at, each_row_is_spelled,
    more_captures_change_no_sort, never_both, one_answer, one_first_fault, one_sort,
    what_is_looked_into_has_the_sort_for_it,
};
pub use place::Place;
pub use scope::Scope;
pub use sort::Sort;
