//! What a query makes of a read: what a rule sees of it, and what it selects.
ghost use Rattle.std.specs.Prelude.{◌≡◌, option_map, Some, IfOk};
ghost use Rattle.tree_model.specs.Tree.{non_null};
ghost use Rattle.arena_snapshot.specs.View.{node_or_null};
ghost use Rattle.evaluator.specs.Asked.{asked_of};
ghost use Rattle.rtdb_model.specs.Rejudged.{asked_for, selected_at};

use crate::trees::node_in;
use arena_snapshot::View;
use bumpalo::Bump;
use evaluator::Asked;
use json_tree::{Key, NoMemory, Node};
use listeners::{Query, select};

// What a rule sees of a query, if there is one.
pub(crate) fn asked_for(query: Option<&Query>) -> Asked<'_>
    ensures { asked_of result ≡ asked_for (option_map (λ query. query.now) query.entry) }
{
    match query {
        Some(query) => query.asked(),
        None => Asked::none(),
    }
}

/// What a query selects of what stands at a path of a stored tree, without a query all of it, borrowed.
pub(crate) fn view_in<'a>(
    arena: &'a Bump,
    tree: Option<&'a Node>,
    path: &[Key],
    query: Option<&Query>,
) -> Result<Option<View<'a>>, NoMemory>
    ensures { IfOk result (λ found. found ≡ non_null (selected_at (node_or_null tree.entry) path.now (option_map (λ query. query.now) query.entry))) }
{
    select(arena, stored(node_in(tree, path)), query)
}

pub(crate) fn stored(node: Option<&Node>) -> Option<View<'_>>
    ensures { result ≡ option_map (λ node. node.now) node.entry }
{
    match node {
        Some(node) => Some(View::stored(node)),
        None => None,
    }
}
