//! Views of some children of a view.
ghost use Rattle.std.specs.Prelude.{◌≡◌, IfOk};
ghost use Rattle.tree_model.specs.Tree.{non_null};
ghost use Rattle.arena_snapshot.specs.Kept.{kept, StrictlyAscend};

use crate::layer::Layer;
use crate::patches::stored_place;
use crate::view::View;
use bumpalo::Bump;
use json_tree::NoMemory;

/// The tree of the children at these indices, if there is one: two growths of the arena, and in a patched tree a
/// binary search for each. The children themselves are borrowed.
pub fn kept<'a>(
    arena: &'a Bump,
    view: &View<'a>,
    indices: &[usize],
) -> Result<Option<View<'a>>, NoMemory>
    requires { StrictlyAscend indices.now }
    ensures { IfOk result (λ view_of_kept. view_of_kept ≡ non_null (kept view.now indices.now)) }
{
    view.law();
    let mut layer = Layer::new(arena, None, indices.len())?;
    for index in indices {
        if let Some((key, child)) = view.entry_at(*index) {
            layer.push(key, stored_place(None, key), Some(child))?;
        }
    }
    layer.finish()
}
