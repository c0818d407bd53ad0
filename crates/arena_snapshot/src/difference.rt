//! Whether writes change what stands at a path, found out without a look at what they leave as it is.
ghost use Rattle.std.specs.Prelude.{◌≡◌, ◌≢◌, ◌≤◌, ℕ, false, length, drop};
ghost use Rattle.std.specs.Bool.{OnTrue, OnFalse};
ghost use Rattle.tree_model.specs.PathMap.{sub};
ghost use Rattle.tree_model.specs.Tree.{non_null, IsLawful};
ghost use Rattle.tree_model.specs.Put.{overlaps, IsLawfulPut};
ghost use Rattle.tree_model.specs.Write.{made, all_made, proposed, AreFixed};
ghost use Rattle.arena_snapshot.specs.View.{node_or_null};
ghost use Rattle.arena_snapshot.specs.Working.Leaving.{Leaves};

use crate::proposal::stored;
use crate::sameness::same;
use crate::view::View;
use json_tree::{Key, Node};
use path_capture::{Path, Write, is_prefix_of};

/// Whether another tree stands at a path once these writes are made. It takes no memory. What no
/// write reaches is not looked at: for n writes it takes 2 · n comparisons of paths, whatever is
/// stored, and for each of them that is at, above or below the path one walk down, d · log w for d
/// keys and nodes of w children, and one comparison with what is written there, which stops at the
/// first difference.
pub fn is_changed(base: Option<&Node>, writes: &[Write], path: &Path) -> bool
    requires apart { overlaps writes.now ≡ false }
    requires fixed { AreFixed writes.now }
    ensures changed { OnTrue result ((now : ℕ) → sub (proposed (node_or_null base.entry) writes.now now) path.now
        ≢ sub (node_or_null base.entry) path.now) }
    ensures unchanged { OnFalse result ((now : ℕ) → sub (proposed (node_or_null base.entry) writes.now now) path.now
        ≡ sub (node_or_null base.entry) path.now) }
{
    is_changed_at(base, writes, path.keys())
}

/// [`is_changed`] of the path of these keys, which may be the front of a longer one.
pub fn is_changed_at(base: Option<&Node>, writes: &[Write], keys: &[Key]) -> bool
    requires apart { overlaps writes.now ≡ false }
    requires fixed { AreFixed writes.now }
    ensures changed { OnTrue result ((now : ℕ) → sub (proposed (node_or_null base.entry) writes.now now) keys.now
        ≢ sub (node_or_null base.entry) keys.now) }
    ensures unchanged { OnFalse result ((now : ℕ) → sub (proposed (node_or_null base.entry) writes.now now) keys.now
        ≡ sub (node_or_null base.entry) keys.now) }
{
    is_changed_at_zero(base, writes, keys)
}

// The same at the moment 0.
fn is_changed_at_zero(base: Option<&Node>, writes: &[Write], keys: &[Key]) -> bool
    requires { overlaps writes.now ≡ false }
    ensures changed { OnTrue result (sub (proposed (node_or_null base.entry) writes.now 0) keys.now
        ≢ sub (node_or_null base.entry) keys.now) }
    ensures unchanged { OnFalse result (sub (proposed (node_or_null base.entry) writes.now 0) keys.now
        ≡ sub (node_or_null base.entry) keys.now) }
{
    law_of(base);
    for write in writes {
        if changes(base, write, keys) {
            return true;
        }
    }
    false
}

// What holds of every stored tree.
fn law_of(base: Option<&Node>)
    ensures { IsLawful (node_or_null base.entry) }
{
    match base {
        Some(node) => node.law(),
        None => {}
    }
}

// Whether the write puts something else at the moment 0, at, above or below the path of these keys, than what stands
// there.
fn changes(base: Option<&Node>, write: &Write, keys: &[Key]) -> bool
    ensures lawful { IsLawfulPut (made 0 write.now) }
    ensures changes { OnTrue result (Leaves (node_or_null base.entry) keys.now (made 0 write.now) → ⊥) }
    ensures leaves { OnFalse result (Leaves (node_or_null base.entry) keys.now (made 0 write.now)) }
{
    let at = write.at().keys();
    if is_prefix_of(keys, at) {
        return !are_same(&stored_at(base, at), &stored(write.tree_at_zero()));
    }
    if !is_prefix_of(at, keys) {
        return false;
    }
    let put = stored_at(write.tree_at_zero(), rest_of(keys, at));
    !are_same(&stored_at(base, keys), &put)
}

// The keys behind as many as those of a front.
fn rest_of<'a>(keys: &'a [Key], front: &[Key]) -> &'a [Key]
    requires { length front.now ≤ length keys.now }
    ensures { result.now ≡ drop (length front.now) keys.now }
{
    &keys[front.len()..]
}

// What stands below these keys.
fn stored_at<'a>(base: Option<&'a Node>, keys: &[Key]) -> Option<View<'a>>
    ensures { result ≡ non_null (sub (node_or_null base.entry) keys.now) }
{
    let view = stored(base)?;
    view.below(keys)
}

fn are_same(view: &Option<View>, other: &Option<View>) -> bool
    ensures same { OnTrue result (view.now ≡ other.now) }
    ensures differs { OnFalse result (view.now ≢ other.now) }
{
    match (view, other) {
        (Some(view), Some(other)) => same(view, other),
        (None, None) => true,
        _ => false,
    }
}
