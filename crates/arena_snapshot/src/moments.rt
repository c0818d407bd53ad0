//! A draft in a step at a moment, as a view: borrowed, but for the nodes above a moment.
ghost use Rattle.std.specs.Prelude.{◌≡◌, ℕ, [], None, true, pos, option_map, slice_get, IfOk};
ghost use Rattle.tree_model.specs.Primitive.{whole, is_whole};
ghost use Rattle.tree_model.specs.PathMap.{get};
ghost use Rattle.tree_model.specs.Tree.{lone};
ghost use Rattle.tree_model.specs.Draft.{tree_at};
ghost use Rattle.arena_snapshot.specs.Working.Change.{entries_of};

use crate::layer::Layer;
use crate::patches::stored_place;
use crate::view::View;
use bumpalo::Bump;
use json_tree::{DraftRef, Key, Leaf, NoMemory, Node, Part, number_of};

// What a draft is at a moment. Where no moment stands in it it takes one test; else three growths of the arena for
// each node above a moment, and two for the moment.
#[cycle(moments)]
pub(crate) fn at_moment<'a>(
    arena: &'a Bump,
    draft: &DraftRef<'a>,
    now: u64,
) -> Result<View<'a>, NoMemory>
    requires { is_whole (pos now) ≡ true }
    ensures { IfOk result (λ view. view ≡ tree_at now draft.now) }
{
    if draft.is_fixed() {
        return Ok(View::stored(draft.at_zero()));
    }
    draft.law();
    match draft.part() {
        Some(Part::Moment) => number_view(arena, now),
        Some(Part::Fixed(_)) => Ok(View::stored(draft.at_zero())),
        None => children_at(arena, draft, now),
    }
}

// The same of a draft that is no part alone, child by child.
#[cycle(moments)]
fn children_at<'a>(arena: &'a Bump, draft: &DraftRef<'a>, now: u64) -> Result<View<'a>, NoMemory>
    requires moment { is_whole (pos now) ≡ true }
    requires root { get draft.now [] ≡ None }
    ensures { IfOk result (λ view. view ≡ tree_at now draft.now) }
{
    draft.law();
    let mut layer = Layer::new(arena, None, draft.width())?;
    for i in 0..draft.width() {
        if let Some((key, child)) = entry_at(draft, i) {
            let view = at_moment(arena, &child, now)?;
            layer.push(key, stored_place(None, key), Some(view))?;
        }
    }
    match layer.finish()? {
        Some(view) => Ok(view),
        None => unreachable!(),
    }
}

// The child at an index, with its key.
fn entry_at<'a>(draft: &DraftRef<'a>, i: usize) -> Option<(&'a Key, DraftRef<'a>)>
    ensures { (now : ℕ) → option_map (λ entry. (entry.0.now, tree_at now entry.1)) result
        ≡ slice_get (entries_of (tree_at now draft.now)) i }
{
    let key = draft.key_at(i)?;
    let child = draft.child(key.text())?;
    Some((key, child))
}

// The number of a moment, in the arena.
fn number_view<'a>(arena: &'a Bump, now: u64) -> Result<View<'a>, NoMemory>
    requires { is_whole (pos now) ≡ true }
    ensures { IfOk result (λ view. view ≡ lone (whole (pos now))) }
{
    let node = arena.try_alloc(Node::of_leaf(Leaf::Whole(number_of(now)))?)?;
    Ok(View::stored(node))
}
