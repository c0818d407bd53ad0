//! What a seat knows. Only proofs speak of these types: no value of one is made.
use crate::entry::Entry;
use rtdb_core::Core;
use std::collections::LinkedList;

/// A beginning of the history, and numbers of seats: of each it has all calls.
pub(crate) struct HistoryPart {
    pub(crate) seen: LinkedList<Entry>,
    pub(crate) numbers: LinkedList<u64>,
}

/// How far a seat has come with a call.
pub(crate) enum Stage {
    /// It makes none.
    Resting,
    /// It has this ticket.
    Waiting(u64),
    /// It has the database.
    Serving,
    /// It makes none any more, since another seat took it in.
    Joined,
}

/// What a seat knows: the database as it opened, and what it has seen. The second part is that of a seat that it took
/// in, until it looks at the history again.
pub(crate) struct View {
    pub(crate) opening: Core,
    pub(crate) first: HistoryPart,
    pub(crate) second: HistoryPart,
    pub(crate) stage: Stage,
}
