//! Explanations of requests, and what can't matter in a rules file, as texts and as a page.
//!
//! [`Records`] takes the explanations of a script's requests, one after another, and has their text, and a page of them.
//! No contract says anything of the words.
#![tactic(auto)]

mod coverage;
mod decided;
mod errors;
mod findings;
mod html;
mod marks;
mod page;
mod records;
mod report;
mod rules_file;
mod values;

pub use findings::findings_in_words;
pub use records::Records;
pub use report::Fate;
