//! What a query selects.
ghost use Rattle.std.specs.Prelude.{◌≡◌, option_map, IfOk};
ghost use Rattle.tree_model.specs.Tree.{non_null};
ghost use Rattle.path_capture.specs.Write.{tree_or_null};
ghost use Rattle.listeners.specs.Selection.{selection};

use arena_snapshot::View;
use bumpalo::Bump;
use json_tree::NoMemory;
use listeners::{Query, select};

/// What [`select`] promises.
pub fn selected<'a>(
    arena: &'a Bump,
    view: Option<View<'a>>,
    query: Option<&Query>,
) -> Result<Option<View<'a>>, NoMemory>
    ensures { IfOk result (λ found. found ≡ non_null (selection (tree_or_null view.entry) (option_map (λ query. query.now) query.entry))) }
{
    select(arena, view, query)
}
