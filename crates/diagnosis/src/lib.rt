//! Diagnosis: where a rules file is at fault, for a person, and where a server's other files are.
//!
//! [`diagnose`] reads a file once more that [`compile`](rules_reader::compile) has refused. Which fault a deployment
//! answers it leaves to `compile`; it seeks the others, and where each is written. A place that it names is checked
//! before it is named, by reading the file with something else written there: that is its contract. [`report_data`]
//! and [`report_tokens`] name the first fault of the other files, and promise nothing of it.
#![tactic(auto)]

mod advice;
mod all_faults;
mod blame;
mod data;
mod end_of_json;
mod finding;
mod laws;
mod lines;
mod outline;
mod plain;
mod search;
mod shown;
mod spots;
mod tokens;
mod written;

pub use all_faults::{MAX_FINDINGS, diagnose};
pub use data::report_data;
pub use finding::{Diagnosis, Finding};
pub use laws::what_shows_is_the_first_fault;
pub use lines::report;
pub use tokens::report_tokens;
