//! The stored tree: nodes with their keys and leaves, and JSON both ways.
//!
//! Contracts see a [`Node`] as a tree of `tree_model`: which primitive stands at which path. What
//! the layers above need most is [`from_json`]: it gives the tree that a JSON value describes, or
//! says exactly why there is none.
#![tactic(auto)]

mod draft;
mod draft_value;
mod front;
mod json_laws;
mod json_text;
mod json_value;
mod key;
mod leaf;
mod memory;
mod node;
mod puts;
mod search;
mod share;
mod undo;

pub use draft::{Draft, DraftRef, Part, number_of};
pub use draft_value::{draft_from_json, draft_to_json, is_form_of};
pub use json_laws::{
    a_lawful_value_is_its_tree, a_written_draft_is_read_back, what_a_draft_is_written_as,
    what_a_tree_is_written_as, what_a_value_describes, what_is_written_is_read_back,
    what_the_form_describes,
};
pub use json_text::{write_json, write_node};
pub use json_value::{ValueFault, from_json, from_value, to_json};
pub use key::{Key, KeyFault, copy_keys, is_lawful_key, key_front};
pub use leaf::{Leaf, LeafText, Number};
pub use memory::NoMemory;
pub use node::{Child, ChildPlace, Node};
pub use puts::put;
pub use undo::{Undo, put_with_undo};
