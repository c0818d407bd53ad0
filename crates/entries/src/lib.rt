//! Entries of a journal: their texts, written and read back. A person can read them, and they say no secret.
//!
//! `specs/Entry` says what an entry means. What the layers above need is [`read_entry`], whose answer means what the
//! text does, and the writers, each of whose texts means what it was given.
#![tactic(auto)]

mod entry;
mod identity;
mod items;
mod json_text;
mod laws;
mod numbers;
mod read;
mod session;
mod write;
mod writes;

pub use entry::{Deed, Entry, EntryFault};
pub use laws::{an_entry_means_one_thing, what_is_asked_by_no_secret_needs_no_tokens};
pub use read::read_entry;
pub use write::{
    action_entry, begin_entry, deed_entry, message_entry, rules_entry, session_entry, tree_entry,
};
