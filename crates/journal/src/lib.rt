//! A journal: a file of groups of entries, each on the disk as a whole or not at all.
//!
//! `specs/Format` says what a file looks like, `specs/Recovery` what is recovered of it. What the layer above needs is
//! [`Journal::append`], whose group is stored at its `Ok` and of which every crash leaves what `Survives` says, and
//! [`recover`], which hands over the entries of a file that a crash may have left.
#![tactic(auto)]

mod appending;
mod chain;
mod found;
mod hand_over;
mod journal;
mod limits;
mod recovery;
mod renewal;
mod text;

pub use appending::{sync_groups, write_group};
pub use chain::{Chain, JournalError};
pub use hand_over::{Sink, Stopped};
pub use journal::Journal;
pub use limits::{MAX_FILE_BYTES, MAX_GROUP_BYTES, MAX_GROUPS};
pub use recovery::{RecoverError, recover};
pub use renewal::{add, begin, put_in_place};
