//! The entries of a history.
use rtdb_core::{Event, Reply};

/// A call that was answered: who made it, when, in which session, what it asked, and its reply. Contracts speak of
/// entries; no value of one is made.
pub struct Entry {
    /// The number of the seat that made the call.
    pub seat: u64,
    /// The moment that came with it, in milliseconds since 1970.
    pub now: u64,
    pub session: u64,
    pub event: Event,
    pub reply: Reply,
}
