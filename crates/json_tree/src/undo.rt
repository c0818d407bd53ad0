//! Puts that can be undone: of several puts, those that were made are undone where a later one fails.
ghost use Rattle.std.specs.Prelude.{◌≡◌, ◌+◌, ◌≤◌, ◌∷◌, [], true, length, unwrap_or, IfOk, OnOk, OnErr};
ghost use Rattle.tree_model.specs.PathMap.{exists, depth};
ghost use Rattle.tree_model.specs.Tree.{null};
ghost use Rattle.tree_model.specs.Put.{location, merged};
ghost use Rattle.json_tree.specs.Undo.{Undoes};

use crate::key::Key;
use crate::memory::NoMemory;
use crate::node::Node;
use crate::puts::{put, put_node};
use std::alloc::Global;
use std::marker::Model;
use tree_model::MAX_DEPTH;

/// What undoes a put: the path of a location, and what stood there before, if anything did. Contracts
/// see it as a write.
#[derive(Debug, Drop)]
pub struct Undo {
    path: Vec<Key>,
    was: Option<Node>,
}

impl Model for Undo {
    ghost use Rattle.std.specs.Prelude.{◌+◌, ◌≤◌, ℕ, List, length, unwrap_or};
    ghost use Rattle.std.specs.Coded.{coded×, coded_list, coded_ℕ};
    ghost use Rattle.tree_model.specs.declared.limits.TheConstants.{MAX_DEPTH as most};
    ghost use Rattle.tree_model.specs.PathMap.{depth};
    ghost use Rattle.tree_model.specs.Tree.{Tree, null, tree_code};

    ghost Value = { List (List ℕ) × Tree };

    ghost coded = { coded× (coded_list (coded_list coded_ℕ)) tree_code };

    ghost view = { λ undo. (undo.path.items, unwrap_or undo.was null) };

    ghost invariant = { λ undo. length undo.path.items + depth (unwrap_or undo.was null) ≤ most };
}

impl Undo {
    /// Puts back what stood there, in place, or removes what is there where nothing stood. The location
    /// has to exist, so it takes no memory; the time is that of [`put`].
    pub fn undo(self, tree: &mut Option<Node>)
        requires { exists (unwrap_or tree.old null) (location self) ≡ true }
        ensures { unwrap_or tree.new null ≡ merged (unwrap_or tree.old null) (self ∷ []) }
    {
        let Undo { path, was } = self;
        let alloc = *path.allocator();
        let _made = put(alloc, tree, path, was);
    }
}

/// Puts a tree at a path of a stored tree, as [`put`] does, and gives what undoes it: a replaced tree is
/// kept, not dropped. The keys of the path that lead to what changes are kept for it, and none is
/// copied; the time is that of [`put`].
pub fn put_with_undo(
    alloc: Global,
    tree: &mut Option<Node>,
    path: Vec<Key>,
    value: Node,
) -> Result<Undo, NoMemory>
    requires { length path.items + depth value ≤ MAX_DEPTH }
    ensures ok { OnOk result (unwrap_or tree.new null
        ≡ merged (unwrap_or tree.old null) ((path.items, value) ∷ [])) }
    ensures undo { IfOk result (λ undo. Undoes undo (unwrap_or tree.new null) (unwrap_or tree.old null)) }
    ensures err { OnErr result (tree.new ≡ tree.old) }
{
    value.law();
    let mut reach = 0;
    let was = put_node(alloc, tree, &path, value, &mut reach)?;
    let mut way = path;
    way.truncate(reach);
    Ok(Undo { path: way, was })
}
