//! Paths, which name locations, patterns, which name where rules stand, captures and writes.
//!
//! Contracts see a [`Path`] as a path of `tree_model`, a [`Pattern`] as a list of keys and captures,
//! and a [`Write`] as a location and a draft. What the layers above need most is [`Write::make`]:
//! it leaves the tree that the write proposes, or at an `Err` the tree that there was.
#![tactic(auto)]

mod captures;
mod name;
mod path;
mod pattern;
mod update;
mod write;

pub use captures::{Binding, Captures};
pub use name::{CaptureName, NameFault, is_name};
pub use path::{Path, PathFault, compare_keys, is_prefix_of, what_is_printed_is_read_back};
pub use pattern::{Part, Pattern};
pub use update::make_all;
pub use write::{TooDeep, Write};
