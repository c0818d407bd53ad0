//! Calls of a hall that its journal keeps.
//!
//! A [`JournalCaller`] is a [`Caller`](sessions::Caller) whose hall has a journal: it puts the entry of each call that has
//! changed something, and before anything is shown to a client it waits until all that its calls have shown is stored. Who
//! waits is a [`Keeper`].
#![tactic(auto)]

mod composing;
mod journal_caller;
mod keeper;

pub use composing::entry_of;
pub use journal_caller::JournalCaller;
pub use keeper::{HallKeeper, Keeper};
