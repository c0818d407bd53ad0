//! One database for many threads, whose calls have one legal history.
//!
//! Threads share a [`Hall`], and each has a [`Seat`]. Contracts see a seat as what it knows of the hall: the history
//! that it has seen, which is one that a database of one thread can have, and which entries of it are its own calls.
//! What the layer above needs is [`Hall::call`], which adds one entry, and [`Hall::close`], which gives the database
//! as the history leaves it. The history itself is stored nowhere: only its length is.
#![tactic(auto)]

mod called;
mod content;
mod effects;
mod entry;
mod hall;
mod history_laws;
mod patience;
mod rule;
mod seat;
mod turns;
mod view;

pub use called::Called;
pub use effects::{is_effective, may_change};
pub use entry::Entry;
pub use hall::Hall;
pub use history_laws::{
    a_call_that_changes_is_the_last_change, a_grant_that_fails_at_an_entry_is_the_end,
    a_history_goes_on_at_its_end, a_poll_hands_out_what_the_entries_marked,
    each_listener_is_what_its_history_says, entries_change_presence_by_their_sessions,
    every_entry_is_judged_by_the_rules_in_force, no_entry_changes_what_became_of_an_action,
    the_entries_that_change_something_are_a_history, what_has_changed_stays,
    what_is_listened_to_is_what_the_entries_began, what_is_stored_is_what_the_entries_wrote,
    what_waits_is_what_the_entries_established,
};
pub use seat::Seat;
pub use turns::MAX_ENTRIES;
