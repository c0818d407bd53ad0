//! Patches in the order of their keys: which child stands at a key, and which key at an index.
ghost use Rattle.std.specs.Prelude.{◌≡◌, ◌≤◌, ◌∷◌, [], true, false, length, map, option_map, slice_get, IfSome, Some};
ghost use Rattle.std.specs.List.Sorted.{IsSearchInRange, IsBinarySearchResult, IsPartitionedBy, IsPartitionPoint};
ghost use Rattle.tree_model.specs.Key.{key_cmp};
ghost use Rattle.tree_model.specs.PathMap.{sub};
ghost use Rattle.tree_model.specs.Tree.{non_null, child_keys};
ghost use Rattle.arena_snapshot.specs.View.{node_or_null};
ghost use Rattle.arena_snapshot.specs.Working.Change.{changed, entries_of, AreChanges, before};
ghost use Rattle.arena_snapshot.specs.Working.Patches.{change_of, ArePatches, is_behind};

use crate::view::{Patch, View};
use json_tree::{ChildPlace, Key, Node};

// ---- stored children

// What is stored at a key, and how many stored children stand before it, by one binary search.
pub(crate) fn stored_place<'a>(base: Option<&'a Node>, key: &Key) -> ChildPlace<'a>
    ensures child { option_map (λ node. node.now) result.child
        ≡ non_null (sub (node_or_null base.entry) (key.now ∷ [])) }
    ensures before { result.before ≡ before key.now (node_or_null base.entry) }
{
    match base {
        Some(node) => node.place(key.text()),
        None => ChildPlace {
            child: None,
            before: 0,
        },
    }
}

fn stored_child<'a>(base: Option<&'a Node>, name: &str) -> Option<&'a Node>
    ensures { option_map (λ node. node.now) result
        ≡ non_null (sub (node_or_null base.entry) (name.now ∷ [])) }
{
    match base {
        Some(node) => node.child(name),
        None => None,
    }
}

pub(crate) fn stored_view<'a>(base: Option<&'a Node>, name: &str) -> Option<View<'a>>
    ensures { result ≡ non_null (sub (node_or_null base.entry) (name.now ∷ [])) }
{
    match stored_child(base, name) {
        Some(child) => Some(View::stored(child)),
        None => None,
    }
}

fn stored_key<'a>(base: Option<&'a Node>, i: usize) -> Option<&'a Key>
    ensures { option_map (λ key. key.now) result
        ≡ slice_get (child_keys (node_or_null base.entry)) i }
{
    match base {
        Some(node) => node.key_at(i),
        None => None,
    }
}

pub(crate) fn stored_width(base: Option<&Node>) -> usize
    ensures { result ≡ length (child_keys (node_or_null base.entry)) }
{
    match base {
        Some(node) => node.width(),
        None => 0,
    }
}

// ---- patches over them

pub(crate) fn child_of<'a>(
    base: Option<&'a Node>,
    patches: &'a [Patch<'a>],
    name: &str,
) -> Option<View<'a>>
    requires { AreChanges (node_or_null base) (map change_of patches.now) }
    ensures { result ≡ non_null (sub
        (changed (node_or_null base.entry) (map change_of patches.now)) (name.now ∷ [])) }
{
    match index_of(patches, name) {
        Ok(index) => match &patches[index].child {
            Some(child) => Some(child.share()),
            None => None,
        },
        Err(_) => stored_view(base, name),
    }
}

// Where the patch of this key is, or where it would go, by a binary search.
fn index_of(patches: &[Patch], name: &str) -> Result<usize, usize>
    ensures bound { IsSearchInRange result (length patches.now) }
    ensures position { IsBinarySearchResult (λ patch. key_cmp patch.key.now name.now)
        patches.now result }
{
    patches.binary_search_by(|patch| patch.key.text().cmp(name))
}

// The key at an index: that of a patch, or a stored one, as far before the next patch in the patched
// node as it is in the node below.
pub(crate) fn key_of<'a>(
    base: Option<&'a Node>,
    patches: &'a [Patch<'a>],
    width: usize,
    i: usize,
) -> Option<&'a Key>
    requires { ArePatches (node_or_null base) patches.now width }
    ensures { option_map (λ key. key.now) result ≡ slice_get
        (child_keys (changed (node_or_null base.entry) (map change_of patches.now))) i }
{
    if i >= width {
        return None;
    }
    let next = count_behind(patches, i);
    if next == patches.len() {
        return stored_key(base, stored_width(base) - (width - i));
    }
    let patch = &patches[next];
    if patch.before == i {
        return Some(patch.key);
    }
    stored_key(base, patch.stored_before - (patch.before - i))
}

// The child at an index with its key, where it and all before it are children of patches, as all are that a query
// selects.
pub(crate) fn patched_entry<'a>(
    base: Option<&'a Node>,
    patches: &'a [Patch<'a>],
    width: usize,
    i: usize,
) -> Option<(&'a Key, View<'a>)>
    requires { ArePatches (node_or_null base) patches.now width }
    ensures { IfSome result (λ entry. Some (entry.0.now, entry.1) ≡ slice_get
        (entries_of (changed (node_or_null base.entry) (map change_of patches.now))) i) }
{
    if i >= width {
        return None;
    }
    let patch = patches.get(i)?;
    match &patch.child {
        Some(child) if patch.before == i => Some((patch.key, child.share())),
        _ => None,
    }
}

// How many patches stand before an index, and none of them at it.
fn count_behind(patches: &[Patch], i: usize) -> usize
    requires { IsPartitionedBy (is_behind i) patches.now }
    ensures bound { result ≤ length patches.now }
    ensures point { IsPartitionPoint (λ patch. is_behind i patch ≡ true)
        (λ patch. is_behind i patch ≡ false) patches.now result }
{
    patches.partition_point(|patch| is_behind(patch, i))
}

// Whether an index lies behind a patch.
fn is_behind(patch: &Patch, i: usize) -> bool
    ensures { result ≡ is_behind i patch.now }
{
    patch.before < i || (patch.before == i && patch.child.is_none())
}
