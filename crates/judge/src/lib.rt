//! Who may: whether a read or writes are granted by the rules, and what a denial names.
//!
//! The definitions stand in `specs/Judging`. What the layer above needs is [`judge_read`] and
//! [`judge_write`]: each answers the verdict of the definitions, but for want of memory.
#![tactic(auto)]

mod borrowed;
mod grant;
mod judging;
mod laws;
mod locations;
mod placed;
mod scene;
mod spot;
mod validate;
mod verdict;
mod watching;

pub use borrowed::{BorrowedName, BorrowedNames};
pub use judging::{judge_granted, judge_read, judge_write, may_read, read_denial, write_denial};
pub use laws::{
    a_grant_reaches_down, each_named_rule_does_not_hold, every_write_sees_the_whole,
    only_rules_above_grant, placed_rules_answer, the_order_of_writes_changes_nothing,
    the_tests_decide, what_a_read_depends_on,
};
pub use placed::{PlacedRule, read_rule_at, validate_rule_at, write_rule_at};
pub use scene::Scene;
pub use verdict::{Named, NamedRules, Verdict, Why};
pub use watching::watched;
