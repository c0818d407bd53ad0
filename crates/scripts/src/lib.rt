//! What sessions say and are answered: a script of messages.
//!
//! [`run_script`] reads a script, a header with a rules file and then requests, and answers each line;
//! its contract says what is said to an input.
#![tactic(auto)]

mod desk;
mod header;
mod line;
mod outgoing;
mod respond;
mod script;
mod script_laws;
mod stream;
mod streams;

pub use header::{HeaderFault, Opened, read_header};
pub use outgoing::send_text;
pub use script::{ScriptEnd, run_last_script, run_script};
pub use script_laws::{
    every_line_has_an_answer, lines_are_answered_by_a_run, what_is_said_is_a_run_from_the_opening,
};
pub use stream::{Broken, Sink, Source};
pub use streams::{Reading, Writing};
