//! Answers: the texts of replies and of faults.
//!
//! An [`AnswerWriter`] appends an answer to the bytes before it; the contract of each of its calls is what the
//! definitions of `AnswerText` say of its reply. Nothing here knows a state.
#![tactic(auto)]

mod answer;
mod answer_writer;
mod closing;
mod code;
mod news;
mod refusal;

pub use answer::{write_accepted, write_fault, write_reply, write_rules_fault};
pub use answer_writer::AnswerWriter;
pub use code::Code;
