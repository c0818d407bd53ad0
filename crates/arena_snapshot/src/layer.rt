//! A layer: the children that are laid over a node, or over nothing, in the order of their keys, with
//! the sizes of what they make. It costs nothing for the other children of the node.
ghost use Rattle.std.specs.Prelude.{◌≡◌, ◌≢◌, ◌++◌, ◌∷◌, [], Some, None, map, option_map, IfOk, OnOk};
ghost use Rattle.tree_model.specs.PathMap.{get, sub};
ghost use Rattle.tree_model.specs.Tree.{null, non_null, IsLawful};
ghost use Rattle.arena_snapshot.specs.View.{node_or_null};
ghost use Rattle.arena_snapshot.specs.Working.Change.{changed, before, AllBefore};
ghost use Rattle.arena_snapshot.specs.Working.Layer.{IsLayer};
ghost use Rattle.arena_snapshot.specs.Working.Patches.{change_of};

use crate::patches::stored_width;
use crate::sizes::{Sizes, exchanged, stored_sizes};
use crate::view::{Patch, Patched, View, ViewKind};
use bumpalo::Bump;
use bumpalo::collections::into_bump_slice;
use json_tree::{ChildPlace, Key, NoMemory, Node};

// The node below, the children that are laid over it so far, and the sizes of what both make.
#[derive(Drop)]
pub(crate) struct Layer<'a> {
    base: Option<&'a Node>,
    patches: Vec<Patch<'a>, &'a Bump>,
    sizes: Sizes,
}

impl<'a> Layer<'a> {
    // A layer without children, with room for so many.
    pub(crate) fn new(
        arena: &'a Bump,
        base: Option<&'a Node>,
        room: usize,
    ) -> Result<Layer<'a>, NoMemory>
        requires { get (node_or_null base) [] ≡ None }
        ensures base { IfOk result (λ layer. layer.base ≡ base.entry) }
        ensures empty { IfOk result (λ layer. map change_of layer.patches.items ≡ []) }
        ensures layer { IfOk result (λ layer. IsLayer (node_or_null layer.base) layer.patches.items layer.sizes) }
    {
        Ok(Layer {
            base,
            patches: Vec::with_capacity(arena, room)?,
            sizes: stored_sizes(base)?,
        })
    }

    // Lays a child at a key behind all others, or removes the stored one, which is given with its
    // place in the node.
    #[inline(always)]
    pub(crate) fn push(
        &mut self,
        key: &'a Key,
        stored: ChildPlace,
        child: Option<View<'a>>,
    ) -> Result<(), NoMemory>
        requires stored { option_map (λ node. node.now) stored.child
            ≡ non_null (sub (node_or_null self.old.base) (key.now ∷ [])) }
        requires before { stored.before ≡ before key.now (node_or_null self.old.base) }
        requires layer { IsLayer (node_or_null self.old.base) self.old.patches.items self.old.sizes }
        requires behind { AllBefore key.now (map change_of self.old.patches.items) }
        requires some { child ≢ Some null }
        ensures base { self.new.base ≡ self.old.base }
        ensures changes { OnOk result (map change_of self.new.patches.items
            ≡ map change_of self.old.patches.items ++ (key.now, child.entry) ∷ []) }
        ensures layer { OnOk result (IsLayer (node_or_null self.new.base) self.new.patches.items self.new.sizes) }
    {
        let before = self.sizes.width - (stored_width(self.base) - stored.before);
        let sizes = exchanged(self.sizes, stored.child, &child)?;
        self.patches.push(Patch {
            key,
            child,
            stored_before: stored.before,
            before,
        })?;
        self.sizes = sizes;
        Ok(())
    }

    // The tree of these children over the node, if any child is left, by one growth of the arena.
    pub(crate) fn finish(self) -> Result<Option<View<'a>>, NoMemory>
        requires layer { IsLayer (node_or_null self.base) self.patches.items self.sizes }
        requires lawful { IsLawful (changed (node_or_null self.base) (map change_of self.patches.items)) }
        ensures { IfOk result (λ view. view ≡ non_null
            (changed (node_or_null self.entry.base) (map change_of self.entry.patches.items))) }
    {
        let Layer {
            base,
            patches,
            sizes,
        } = self;
        if sizes.width == 0 {
            return Ok(None);
        }
        let arena = *patches.allocator();
        let node = arena.try_alloc(Patched {
            base,
            patches: into_bump_slice(patches),
            count: sizes.count,
            width: sizes.width,
        })?;
        Ok(Some(View {
            kind: ViewKind::Patched(node),
        }))
    }
}
