//! What a call comes to.
use rtdb_core::Reply;

/// What a call was answered, and how many entries of the history up to it have changed more than listeners.
#[derive(Drop)]
pub struct Called {
    pub reply: Reply,
    /// The number of the call among those entries, from 1 on, where it is one of them itself. Where the call is no
    /// entry it is 0.
    pub changes: u64,
}
