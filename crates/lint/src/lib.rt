//! Lint: what in a rules file that is accepted has no effect, or asks for what can't be.
//!
//! [`lint`] reads a file that [`compile`](rules_reader::compile) accepts, and names only what is certain: each rule
//! and capture that it names is looked up in what the file states before, and that is its contract, by the definitions
//! of `Finding.antt`. That it names all, and where a member is written, is not promised.
#![tactic(auto)]

mod all_findings;
mod captures;
mod climb;
mod demands;
mod finding;
mod literal;
mod members;
mod search;
mod sentence;

pub use all_findings::lint;
pub use finding::{Demand, Finding, Member, Reason};
