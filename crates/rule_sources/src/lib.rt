//! Where the rules of a rules file are written, for a program that shows a rule to a person.
//!
//! [`rule_sources`] reads a file once more that [`compile`](rules_reader::compile) accepts, and finds each of its rules
//! in it. Nothing is promised of the places: they are tested.
#![tactic(auto)]

mod file;
mod members;
mod origins;
mod source;
mod spans;
mod spot;

pub use file::rule_sources;
pub use source::RuleSource;
