//! The public calls that decide, once more, by what they promise alone.
//!
//! Each function here has the contract of a public call of a crate below, and calls it. So whatever its contract refuses
//! is refused by that call too. The edits in `must-fail/` put the wrong bodies in its place for which products of this
//! kind are known, and each run of the gate tries them here, in seconds: in the crates below, each would cost a proof of
//! the whole crate.
#![tactic(auto)]

mod expressions;
mod judging;
mod rules;
mod selecting;
mod stepping;

pub use expressions::{evaluated, parsed};
pub use judging::{judged_read, judged_writes, readable};
pub use rules::stepped;
pub use selecting::selected;
pub use stepping::answered;
