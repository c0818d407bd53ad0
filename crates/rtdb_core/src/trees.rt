//! What is looked up and counted in trees.
ghost use Rattle.std.specs.Prelude.{◌≡◌, min, option_map};
ghost use Rattle.tree_model.specs.PathMap.{sub};
ghost use Rattle.tree_model.specs.Tree.{non_null, count};
ghost use Rattle.path_capture.specs.Write.{tree_or_null};
ghost use Rattle.arena_snapshot.specs.View.{node_or_null};

use arena_snapshot::View;
use json_tree::{Key, Node};

/// How many locations exist in a stored tree.
#[tactic(auto, using(crate::proofs::Room::count_null))]
pub(crate) fn count_of(tree: &Option<Node>) -> usize
    ensures { result ≡ min (count (tree_or_null tree.now)) usize.MAX }
{
    match tree {
        Some(node) => node.count(),
        None => 0,
    }
}

/// How many locations exist in a tree that is proposed.
#[tactic(auto, using(crate::proofs::Room::count_null))]
pub(crate) fn count_in(coming: &Option<View<'_>>) -> usize
    ensures { result ≡ min (count (tree_or_null coming.now)) usize.MAX }
{
    match coming {
        Some(view) => view.count(),
        None => 0,
    }
}

/// The node at a path below this one, None where nothing exists.
pub(crate) fn node_at<'a>(root: &'a Node, path: &[Key]) -> Option<&'a Node>
    ensures { option_map (λ node. node.now) result ≡ non_null (sub root.now path.now) }
{
    root.law();
    let mut node = root;
    for key in path {
        let Some(next) = node.child(key.text()) else {
            return None;
        };
        node = next;
    }
    Some(node)
}

/// The node at a path of a stored tree, None where nothing exists.
pub(crate) fn node_in<'a>(tree: Option<&'a Node>, path: &[Key]) -> Option<&'a Node>
    ensures { option_map (λ node. node.now) result ≡ non_null (sub (node_or_null tree.entry) path.now) }
{
    match tree {
        Some(root) => node_at(root, path),
        None => None,
    }
}
