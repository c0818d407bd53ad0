//! What lies in the slot of a hall's table.
use rtdb_core::{Core, Event, Reply};
use std::snapshot::Snapshot;

/// What the slot has: nothing while the database is out with the seat whose turn it is.
pub(crate) type Slot = Option<Content>;

/// The database, the call that it answered last, and how many calls have changed more than listeners.
#[derive(Drop)]
pub(crate) struct Content {
    pub(crate) core: Core,
    pub(crate) last: Option<LastCall>,
    pub(crate) changes: u64,
}

/// A call that was answered. Only proofs know what was asked and what was answered: a snapshot has no bytes.
#[derive(Drop)]
pub(crate) struct LastCall {
    pub(crate) now: u64,
    pub(crate) session: u64,
    pub(crate) event: Snapshot<Event>,
    pub(crate) reply: Snapshot<Reply>,
}
