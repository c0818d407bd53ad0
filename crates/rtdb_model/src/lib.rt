//! What the database is: its events, its replies, and the definitions of its states and steps.
//!
//! A state is a tree, the rules in force and the sessions that are open; `Step` says what an event is answered in a
//! state and which state is left, `Run` the same of a list of events, and `Headline` what is promised of each. Crates
//! that read messages and write answers need no more of the database than this.
#![tactic(auto)]

mod borrowed;
mod event;
mod limits;
mod news;
mod removal;
mod reply;
mod tidings;
mod writes;

pub use borrowed::{BorrowedRan, BorrowedRefusal, BorrowedReply};
pub use evaluator::MAX_MOMENT;
pub use event::Event;
pub use judge::{BorrowedName, BorrowedNames, Named, NamedRules, Why};
pub use limits::{MAX_ACTIONS, MAX_LOCATIONS, MAX_SESSIONS, the_limits};
pub use news::{News, Notice, What};
pub use removal::Removal;
pub use reply::{Ran, Refusal, Reply};
pub use tidings::{Sight, Tiding, Tidings, copied};
pub use writes::Writes;
