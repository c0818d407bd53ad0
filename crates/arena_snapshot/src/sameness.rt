//! Whether two views are the same tree.
ghost use Rattle.std.specs.Prelude.{◌≡◌, ◌≢◌, None, slice_get};
ghost use Rattle.std.specs.Bool.{OnTrue, OnFalse};
ghost use Rattle.json_tree.specs.Leaf.{primitive_of};
ghost use Rattle.arena_snapshot.specs.Working.Change.{entries_of};

use crate::view::View;
use json_tree::Leaf;

/// Whether both are the same tree. It stops at the first difference: trees of another count or width
/// differ at once, and else the children are compared in the order of their keys. It takes no memory.
/// Of a stored tree and what writes propose of it, [`crate::is_changed`] says so without comparing what
/// they share.
#[cycle(same)]
pub fn same(view: &View, other: &View) -> bool
    ensures same { OnTrue result (view.now ≡ other.now) }
    ensures differs { OnFalse result (view.now ≢ other.now) }
{
    view.law();
    other.law();
    if view.count() != other.count() {
        return false;
    }
    match (view.leaf(), other.leaf()) {
        (Some(leaf), Some(other_leaf)) => is_same_leaf(leaf, other_leaf),
        (None, None) => have_same_children(view, other),
        _ => false,
    }
}

#[cycle(same)]
fn have_same_children(view: &View, other: &View) -> bool
    ensures same { OnTrue result (entries_of view.now ≡ entries_of other.now) }
    ensures differs { OnFalse result (entries_of view.now ≢ entries_of other.now) }
{
    let width = view.width();
    if width != other.width() {
        return false;
    }
    for i in 0..width {
        if !have_same_child(view, other, i) {
            return false;
        }
    }
    true
}

// Whether the children at an index have the same key and are the same.
#[cycle(same)]
fn have_same_child(view: &View, other: &View, i: usize) -> bool
    ensures same { OnTrue result (slice_get (entries_of view.now) i ≡ slice_get (entries_of other.now) i) }
    ensures differs { OnFalse result (slice_get (entries_of view.now) i ≢ slice_get (entries_of other.now) i) }
{
    let Some((key, child)) = view.entry_at(i) else {
        return other.entry_at(i).is_none();
    };
    let Some((other_key, other_child)) = other.entry_at(i) else {
        return false;
    };
    key.text() == other_key.text() && same(&child, &other_child)
}

/// Whether both are the same primitive, in time linear in the bytes of a text. It takes no memory.
pub fn is_same_leaf(leaf: &Leaf, other: &Leaf) -> bool
    ensures same { OnTrue result (primitive_of leaf.now ≡ primitive_of other.now) }
    ensures differs { OnFalse result (primitive_of leaf.now ≢ primitive_of other.now) }
{
    match (leaf, other) {
        (Leaf::Truth(a), Leaf::Truth(b)) => *a == *b,
        (Leaf::Whole(a), Leaf::Whole(b)) => a.value() == b.value(),
        (Leaf::Words(a), Leaf::Words(b)) => a.as_str() == b.as_str(),
        _ => false,
    }
}
