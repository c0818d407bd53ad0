//! Trees as a rule sees them: a [`View`] borrows from the stored tree and from what is written, and
//! takes arena memory only along the written locations.
//!
//! Contracts see a view as a tree of `tree_model`. What the layers above need most is [`overlay`]: it
//! gives the tree that writes propose, which is `newData` of a rule.
#![tactic(auto)]

mod copies;
mod difference;
mod layer;
mod moments;
mod overlapping;
mod patches;
mod proposal;
mod sameness;
mod selection;
mod sizes;
mod texts;
mod view;

pub use copies::copy_out;
pub use difference::{is_changed, is_changed_at};
pub use overlapping::overlaps;
pub use proposal::overlay;
pub use sameness::{is_same_leaf, same};
pub use selection::kept;
pub use texts::{write_tree, write_view};
pub use view::View;
