//! Requests: what a message asks of the database.
//!
//! [`MessageReader::read_asked`] says what a message asks, with the tokens that sign somebody in and the rules file
//! that it may deploy; `IsAsked` is what its bytes mean. Nothing here knows a state.
#![tactic(auto)]

mod ask;
mod message;
mod reader;
mod verb_members;
mod wanted;

pub use ask::{Asked, LineFault, read_asked};
pub use json_lines::{MAX_MESSAGE_BYTES, MessageFault, the_limit_of_messages};
pub use message::{Form, Request, Stamp, Text, Verb, Wanted, read_request};
pub use reader::MessageReader;
