//! What a key, a path, a tree, a draft, a write and a proposed tree are: definitions (in `specs/`)
//! that the contracts of every other crate cite, the limits that they name, and the laws about them.
//!
//! A function here does nothing: its contract is a law, which holds of every tree.
#![tactic(auto)]

mod children_laws;
mod draft_laws;
mod limits;
mod path_laws;
mod put_laws;
mod tree_laws;
mod worked;
mod write_laws;

pub use children_laws::{given_children, lawful_children, the_children_of_a_tree};
pub use draft_laws::{
    a_draft_at_a_moment, a_draft_keeps_its_shape, a_draft_without_a_moment,
    a_lawful_draft_at_a_moment, a_tree_is_a_draft, what_is_below_in_a_draft,
};
pub use limits::{MAX_DEPTH, MAX_KEY_BYTES, MAX_TEXT_BYTES, MAX_WHOLE, MIN_WHOLE};
pub use path_laws::{prefixes_of_a_path, the_order_of_paths, what_is_left_below_a_prefix};
pub use put_laws::{
    any_order_of_puts, below_a_key, lawful_puts_make_a_lawful_tree, null_below_a_primitive,
    one_after_another, pairs_of_the_merged_tree, put_below_a_primitive, the_merged_tree_is_a_tree,
    unchanged_apart_from_puts, what_is_put_is_there,
};
pub use tree_laws::{
    a_subtree, equal_lookups_make_equal_trees, how_deep_primitives_stand, one_primitive,
    what_exists,
};
pub use worked::{
    a_location_exists_at_or_above_a_primitive, a_removal_below_a_primitive_changes_nothing,
    a_write_below_a_primitive_replaces_it, a_write_replaces_what_is_at_its_location,
    an_array_is_an_object, an_update_is_made_in_whole, no_primitive_lies_below_another,
    removing_a_child_leaves_its_siblings, what_is_empty_is_not_stored, which_keys_are_lawful,
    which_paths_are_lawful, which_primitives_are_lawful, which_writes_overlap,
};
pub use write_laws::{
    a_made_write_is_made_alike, any_order_of_writes, lawful_writes_propose_a_lawful_tree,
    moments_do_not_overlap, pairs_of_the_proposed_tree,
};
