//! Owned copies of views.
ghost use Rattle.std.specs.Prelude.{◌≡◌, IfOk};
ghost use Rattle.arena_snapshot.specs.Working.Change.{entries_of};

use crate::view::{View, ViewKind};
use json_tree::{Child, NoMemory, Node};
use std::alloc::Global;

/// The same tree, owned, in one pass over it: one growth for each long text, long key, child and
/// list of children, and where children are changed a binary search for each child.
#[cycle(copy_out)]
pub fn copy_out(alloc: Global, view: &View) -> Result<Node, NoMemory>
    ensures { IfOk result (λ node. node ≡ view.now) }
{
    match &view.kind {
        ViewKind::Stored(node) => node.copy(alloc),
        ViewKind::Patched(_) => Node::of_children(copies(alloc, view)?),
    }
}

#[cycle(copy_out)]
fn copies(alloc: Global, view: &View) -> Result<Vec<Child>, NoMemory>
    ensures { IfOk result (λ copies. copies.items ≡ entries_of view.now) }
{
    let width = view.width();
    let mut copies = Vec::with_capacity(alloc, width)?;
    for i in 0..width {
        let Some((key, child)) = view.entry_at(i) else {
            unreachable!()
        };
        let child = Child::new(alloc, key.copy(alloc)?, copy_out(alloc, &child)?)?;
        copies.push(child)?;
    }
    Ok(copies)
}
