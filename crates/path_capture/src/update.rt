//! The writes of one update, made in a stored tree in place: all of them, or none.
ghost use Rattle.std.specs.Prelude.{◌≡◌, ◌≢◌, ◌∷◌, [], ℕ, false, reverse, All, IsOk, OnOk, OnErr};
ghost use Rattle.std.specs.List.Sorted.{IsPermutation};
ghost use Rattle.tree_model.specs.Tree.{non_null};
ghost use Rattle.tree_model.specs.Put.{written, overlaps};
ghost use Rattle.tree_model.specs.Draft.{null_draft};
ghost use Rattle.tree_model.specs.Write.{proposed, AreFixed};
ghost use Rattle.path_capture.specs.Write.{tree_or_null};
ghost use Rattle.path_capture.specs.Working.Rewind.{rewound, CanRewind, IsOneMore};

use crate::write::Write;
use json_tree::{NoMemory, Node, Undo, put_with_undo};
use std::alloc::Global;

/// Makes writes, of which none overlaps another, in a stored tree, in place: all of them, or at an `Err`
/// none. The writes that put something are made first, one after another; where one is refused memory,
/// those that were made are undone, the last first, without taking memory. Then come the removals, which
/// take none. Each write costs as much as one alone, and the copies of the keys that lead to where it
/// changes the tree. What is put is put in the order of the locations, and what is removed in the opposite one,
/// so that of many children of one node none is moved for those that come behind all others, or go from there. The
/// writes are sorted for it: n · log n comparisons, and n where they are in order.
pub fn make_all(alloc: Global, tree: &mut Option<Node>, writes: Vec<Write>) -> Result<(), NoMemory>
    requires apart { overlaps writes.items ≡ false }
    requires fixed { AreFixed writes.items }
    ensures ok { OnOk result ((now : ℕ) → tree_or_null tree.new ≡ proposed (tree_or_null tree.old) writes.items now) }
    ensures err { OnErr result (tree.new ≡ tree.old) }
    ensures removals { All (λ write. written write ≡ null_draft) writes.items → IsOk result }
{
    law_of(tree);
    let mut left = writes;
    turn_backwards(&mut left);
    let mut undos = Vec::new(alloc);
    match make_puts(alloc, tree, &mut left, &mut undos) {
        Ok(()) => {
            sort_backwards(&mut left);
            make_removals(alloc, tree, left);
            Ok(())
        }
        Err(refused) => {
            rewind(tree, undos);
            Err(refused)
        }
    }
}

// Orders writes by their locations, the last first. Most come in ascending order, and need no move once they are turned
// round.
fn turn_backwards(writes: &mut Vec<Write>)
    ensures { IsPermutation writes.old.items writes.new.items }
{
    writes.reverse();
    sort_backwards(writes);
}

// Orders writes by their locations, the last first.
fn sort_backwards(writes: &mut Vec<Write>)
    ensures { IsPermutation writes.old.items writes.new.items }
{
    writes.sort_unstable_by(|a, b| b.at().compare(a.at()));
}

// Makes the writes that put something, from the end of the list, and leaves the removals.
fn make_puts(
    alloc: Global,
    tree: &mut Option<Node>,
    left: &mut Vec<Write>,
    undos: &mut Vec<Undo>,
) -> Result<(), NoMemory>
    requires apart { overlaps left.old.items ≡ false }
    requires none { undos.old.items ≡ [] }
    ensures apart { OnOk result (overlaps left.new.items ≡ false) }
    ensures goal { OnOk result (proposed (tree_or_null tree.new) left.new.items 0
        ≡ proposed (tree_or_null tree.old) left.old.items 0) }
    ensures removals { OnOk result (All (λ write. written write ≡ null_draft) left.new.items) }
    ensures can_rewind { CanRewind (reverse undos.new.items) (tree_or_null tree.new) }
    ensures rewound { rewound (reverse undos.new.items) (tree_or_null tree.new) ≡ tree_or_null tree.old }
    ensures nothing { All (λ write. written write ≡ null_draft) left.old.items → IsOk result }
{
    let mut i = left.len();
    while i > 0 {
        i -= 1;
        if left[i].tree().is_some() {
            let write = left.swap_remove(i);
            make_put(alloc, tree, write, undos)?;
        }
    }
    Ok(())
}

// Makes a write that puts something, and keeps what undoes it.
fn make_put(
    alloc: Global,
    tree: &mut Option<Node>,
    write: Write,
    undos: &mut Vec<Undo>,
) -> Result<(), NoMemory>
    requires { written write ≢ null_draft }
    ensures ok { OnOk result (tree_or_null tree.new ≡ proposed (tree_or_null tree.old) (write ∷ []) 0) }
    ensures one_more { OnOk result (IsOneMore undos.old.items undos.new.items (tree_or_null tree.old) (tree_or_null tree.new)) }
    ensures err { OnErr result (tree.new ≡ tree.old) }
    ensures same_undos { OnErr result (undos.new.items ≡ undos.old.items) }
{
    undos.reserve(1)?;
    let Write { path, draft } = write;
    let Some(draft) = draft else {
        return Ok(());
    };
    draft.law();
    let undo = put_with_undo(alloc, tree, path.into_keys(), draft.into_at_zero())?;
    undos.push(undo)?;
    Ok(())
}

// Undoes what was made, the last first.
fn rewind(tree: &mut Option<Node>, undos: Vec<Undo>)
    requires { CanRewind (reverse undos.items) (tree_or_null tree.old) }
    ensures { tree.new ≡ non_null (rewound (reverse undos.items) (tree_or_null tree.old)) }
{
    let mut left = undos;
    while let Some(undo) = left.pop() {
        undo.undo(tree);
    }
    law_of(tree);
}

// A stored tree is none where it is null.
fn law_of(tree: &Option<Node>)
    ensures { tree.now ≡ non_null (tree_or_null tree.now) }
{
    match tree {
        Some(node) => node.law(),
        None => {}
    }
}

// Makes removals.
fn make_removals(alloc: Global, tree: &mut Option<Node>, removals: Vec<Write>)
    requires apart { overlaps removals.items ≡ false }
    requires removals { All (λ write. written write ≡ null_draft) removals.items }
    ensures { tree_or_null tree.new ≡ proposed (tree_or_null tree.old) removals.items 0 }
{
    for write in removals {
        let _made = write.make(alloc, tree);
    }
}
