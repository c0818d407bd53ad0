//! Whether writes to a few children of a location move what a query selects there, found out by these children alone.
ghost use Rattle.std.specs.Prelude.{◌≡◌, ◌≢◌, ◌++◌, [], ◌∷◌, true, false, Some};
ghost use Rattle.std.specs.Bool.{OnTrue, OnFalse};
ghost use Rattle.std.specs.List.{AllByRecursion};
ghost use Rattle.tree_model.specs.Key.{Key as KeyBytes};
ghost use Rattle.tree_model.specs.Path.{Path as Keys, is_prefix};
ghost use Rattle.tree_model.specs.PathMap.{sub};
ghost use Rattle.tree_model.specs.Tree.{null, non_null};
ghost use Rattle.tree_model.specs.Put.{location};
ghost use Rattle.path_capture.specs.Write.{tree_or_null};
ghost use Rattle.listeners.specs.Selection.{is_selected};
ghost use Rattle.rtdb_model.specs.Rejudged.{moves};
ghost use Rattle.rtdb_core.specs.Working.Moved.{IsMovedBy, IsLeft};
ghost use Rattle.rtdb_core.specs.Working.Passages.{IsPassage, tree_before, tree_after};

use crate::passage::{Passage, changes_at};
use crate::selected::stored;
use arena_snapshot::View;
use listeners::{Query, selects, selects_beside};
use path_capture::{Path, Write, is_prefix_of};

// How many writes below one location are looked at, each by itself.
const MAX_WRITES: usize = 8;

/// Whether these writes reach no more than a few children of a location: none is at its path or above it.
pub(crate) fn reach_few_children(writes: &[Write], path: &Path) -> bool
    ensures { OnTrue result (AllByRecursion (λ w. is_prefix (location w) path.now ≡ false) writes.now) }
{
    let mut below = 0;
    for write in writes {
        let at = write.at().keys();
        if is_prefix_of(at, path.keys()) {
            return false;
        }
        if is_prefix_of(path.keys(), at) {
            if below == MAX_WRITES {
                return false;
            }
            below += 1;
        }
    }
    true
}

/// Whether what a query selects of a location has moved by such writes: just where a child has changed that is
/// selected before them or after them. It takes no memory, and for each write below the location what [`selects`]
/// takes twice.
pub(crate) fn a_child_moves(passage: &Passage<'_>, path: &Path, query: &Query) -> bool
    requires passage { IsPassage passage.now }
    requires below { AllByRecursion (λ w. is_prefix (location w) path.now ≡ false) passage.now.writes.now }
    ensures { result ≡ moves (tree_before passage.now) (tree_after passage.now) path.now (Some query.now) }
{
    query.law();
    let before = standing(&stored(passage.base), path);
    let after = standing(&passage.coming, path);
    let is_alone = passage.writes.len() == 1;
    for write in passage.writes {
        if moves_a_child(passage, path, query, &before, &after, write, is_alone) {
            return true;
        }
    }
    false
}

// Whether a write, which may be the only one, changes a child that is selected before all of them or after them.
fn moves_a_child(
    passage: &Passage<'_>,
    path: &Path,
    query: &Query,
    before: &Option<View<'_>>,
    after: &Option<View<'_>>,
    write: &Write,
    is_alone: bool,
) -> bool
    requires passage { IsPassage passage.now }
    requires before { tree_or_null before.now ≡ sub (tree_before passage.now) path.now }
    requires after { tree_or_null after.now ≡ sub (tree_after passage.now) path.now }
    requires below { is_prefix (location write.now) path.now ≡ false }
    requires alone { is_alone ≡ true → passage.now.writes.now ≡ write.now ∷ [] }
    ensures moved { OnTrue result ((k : KeyBytes) × IsMovedBy query.now (sub (tree_before passage.now) path.now) (sub (tree_after passage.now) path.now) k) }
    ensures left { OnFalse result ((k : KeyBytes) (rest : Keys) → location write.now ≡ path.now ++ k ∷ rest → IsLeft query.now (sub (tree_before passage.now) path.now) (sub (tree_after passage.now) path.now) k) }
{
    let at = write.at().keys();
    let front = path.keys();
    if at.len() <= front.len() || !is_prefix_of(front, at) {
        return false;
    }
    let key = at[front.len()].text();
    let is_seen = is_selected(before, query, key)
        || is_selected_after(before, after, query, key, is_alone);
    is_seen && changes_at(passage, &at[..front.len() + 1])
}

// Whether a query selects the child of a key, where anything stands.
fn is_selected(view: &Option<View<'_>>, query: &Query, key: &str) -> bool
    ensures { result ≡ is_selected query.now (tree_or_null view.now) key.now }
{
    match view {
        Some(view) => selects(view, query, key),
        None => false,
    }
}

// The same after a step, in which it may be the only child that changes.
fn is_selected_after(
    before: &Option<View<'_>>,
    after: &Option<View<'_>>,
    query: &Query,
    key: &str,
    is_alone: bool,
) -> bool
    requires { is_alone ≡ true → (k : KeyBytes) → k ≢ key.now → sub (tree_or_null before.now) (k ∷ []) ≡ sub (tree_or_null after.now) (k ∷ []) }
    ensures { result ≡ is_selected query.now (tree_or_null after.now) key.now }
{
    match after {
        Some(after) => match before {
            Some(before) if is_alone => selects_beside(after, before, query, key),
            _ => selects(after, query, key),
        },
        None => false,
    }
}

// What stands at a path.
fn standing<'a>(tree: &Option<View<'a>>, path: &Path) -> Option<View<'a>>
    ensures { result ≡ non_null (sub (tree_or_null tree.now) path.now) }
{
    match tree {
        Some(tree) => tree.at(path),
        None => None,
    }
}
