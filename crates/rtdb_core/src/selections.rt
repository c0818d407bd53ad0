//! What queries select of a stored tree. What a few of them select is kept, since many listeners ask for the same.
ghost use Rattle.std.specs.Prelude.{◌≡◌, Some, option_map, IfOk, IfSome};
ghost use Rattle.tree_model.specs.Tree.{non_null};
ghost use Rattle.arena_snapshot.specs.View.{node_or_null};
ghost use Rattle.rtdb_model.specs.Rejudged.{selected_at};

use crate::scratch::Scratch;
use crate::selected::stored;
use crate::trees::node_in;
use arena_snapshot::View;
use bumpalo::Bump;
use json_tree::{NoMemory, Node};
use listeners::{Query, select_apart};
use path_capture::Path;
use std::alloc::Global;
use std::marker::Model;

/// Of how many queries is kept what they select: of the first ones that are asked for.
const MAX_KEPT: usize = 8;

/// What a query selects at a path.
#[derive(Drop)]
pub(crate) struct Selected<'a> {
    path: &'a Path,
    query: &'a Query,
    view: Option<View<'a>>,
}

/// What queries select of a stored tree, one after another: the lists that this takes lie in memory that is free
/// again after each, and what is selected in the arena. Contracts see the tree.
#[derive(Drop)]
pub(crate) struct Selections<'a> {
    arena: &'a Bump,
    scratch: Scratch<'a>,
    tree: Option<&'a Node>,
    kept: Vec<Selected<'a>, &'a Bump>,
}

impl<'a> Model for Selections<'a> {
    ghost use Rattle.tree_model.specs.Tree.{Tree, tree_code};
    ghost use Rattle.arena_snapshot.specs.View.{node_or_null};
    ghost use Rattle.rtdb_core.specs.Working.Selections.{AreSelected};

    ghost Value = { Tree };

    ghost coded = { tree_code };

    ghost view = { λ selections. node_or_null selections.tree };

    ghost invariant = { λ selections. AreSelected (node_or_null selections.tree) selections.kept.items };
}

impl<'a> Selections<'a> {
    /// What queries select of this tree. It takes no memory.
    pub(crate) fn new(alloc: Global, arena: &'a Bump, tree: Option<&'a Node>) -> Selections<'a>
        ensures { result ≡ node_or_null tree.entry }
    {
        Selections {
            arena,
            scratch: Scratch::new(alloc, arena),
            tree,
            kept: Vec::new(arena),
        }
    }

    /// What a query selects of what stands at a path, without a query all of it, borrowed.
    pub(crate) fn at(
        &mut self,
        path: &'a Path,
        query: Option<&'a Query>,
    ) -> Result<Option<View<'a>>, NoMemory>
        ensures selected { IfOk result (λ found. found ≡ non_null (selected_at self.old path.now (option_map (λ query. query.now) query.entry))) }
        ensures same { self.new ≡ self.old }
    {
        let Some(asked) = query else {
            return Ok(stored(node_in(self.tree, path.keys())));
        };
        if let Some(found) = self.find(path, asked) {
            return Ok(found);
        }
        let view = select_at(self.scratch.arena()?, self.arena, self.tree, path, asked)?;
        self.keep(path, asked, shared(&view));
        Ok(view)
    }

    // What is kept of a query at a path.
    fn find(&self, path: &Path, query: &Query) -> Option<Option<View<'a>>>
        ensures { IfSome result (λ found. found ≡ non_null (selected_at self.now path.now (Some query.now))) }
    {
        for kept in self.kept.as_slice() {
            if kept.query.is_same(query) && kept.path.compare(path).is_eq() {
                return Some(shared(&kept.view));
            }
        }
        None
    }

    // Keeps what a query selects at a path, where there is room and memory for it.
    fn keep(&mut self, path: &'a Path, query: &'a Query, view: Option<View<'a>>)
        requires { view ≡ non_null (selected_at self.old path.now (Some query.now)) }
        ensures { self.new ≡ self.old }
    {
        if self.kept.len() < MAX_KEPT {
            let _ = self.kept.push(Selected { path, query, view });
        }
    }
}

// What a query selects of what stands at a path.
fn select_at<'a>(
    scratch: &Bump,
    arena: &'a Bump,
    tree: Option<&'a Node>,
    path: &Path,
    query: &Query,
) -> Result<Option<View<'a>>, NoMemory>
    ensures { IfOk result (λ found. found ≡ non_null (selected_at (node_or_null tree.entry) path.now (Some query.now))) }
{
    let there = stored(node_in(tree, path.keys()));
    select_apart(scratch, arena, there, Some(query))
}

fn shared<'a>(view: &Option<View<'a>>) -> Option<View<'a>>
    ensures { result ≡ view.now }
{
    match view {
        Some(view) => Some(view.share()),
        None => None,
    }
}
