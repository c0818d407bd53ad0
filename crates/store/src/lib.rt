//! A database that is kept: what its journal is recovered to, and the snapshot that begins a journal.
//!
//! `specs/Replay` says what entries lead to, `specs/Recovered` what a file is recovered to, and `specs/Opened` what
//! becomes of a kept database as it is opened. What the layer above needs is [`open_database`], after which nobody is
//! connected, and [`renew_database`], for the file that a database begins with. They put together what stands below:
//! [`recover_database`], [`let_all_leave`] and [`snapshot`]. [`a_crash_leaves_a_beginning_of_the_history`] says what a
//! crash leaves from then on, and [`a_crash_leaves_a_beginning_of_the_departures`] what one leaves before.
#![tactic(auto)]

mod appending;
mod fault;
mod laws;
mod leaving;
mod opening;
mod recovering;
mod renewing;
mod replayer;
mod snapshots;
mod stage;

pub use fault::{OpeningFault, RecoveryFault, ReplayFault};
pub use laws::{
    a_crash_leaves_a_beginning_of_the_departures, a_crash_leaves_a_beginning_of_the_history,
    a_replay_has_one_end, the_entries_lead_where_the_history_did,
    the_text_states_the_rules_in_force, what_is_replayed_listens_to_nothing,
};
pub use leaving::let_all_leave;
pub use opening::{OpenedDatabase, open_database};
pub use recovering::{Recovered, recover_database};
pub use renewing::renew_database;
pub use snapshots::snapshot;
