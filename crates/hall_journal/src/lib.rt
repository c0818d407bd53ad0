//! The journal of a hall: many threads put the entries of their calls, in whatever order, and wait until they are stored.
//!
//! [`HallJournal::put`] puts an entry at its number among the calls that have changed something; [`HallJournal::wait`]
//! returns once the entries up to a number are stored. Whoever waits while nobody writes does so for all: one sync serves
//! all entries that have gathered. [`HallJournal::close`] says what the file keeps then, and what a crash at any moment
//! would have left of it (`KeepsHistory` of `specs/Kept`), where anything is known of its disk.
#![tactic(auto)]

mod counter;
mod desk;
mod hall_journal;
mod laws;
mod origin;
mod volume;

pub use counter::{NewCounter, Stored};
pub use hall_journal::HallJournal;
pub use laws::what_a_crash_leaves_is_a_beginning_of_the_history;
pub use origin::Origin;
