//! A view: a tree that is borrowed, or one of which a few children are other ones, or gone.
ghost use Rattle.std.specs.Prelude.{◌≡◌, ◌≢◌, ◌↔◌, ◌≤◌, ◌∷◌, [], length, min, true, option_map, slice_get};
ghost use Rattle.std.specs.FinMap as map_of;
ghost use Rattle.tree_model.specs.PathMap.{get, sub, depth};
ghost use Rattle.tree_model.specs.Tree.{null, non_null, count, children, child_keys, IsLawful};
ghost use Rattle.json_tree.specs.Leaf.{primitive_of};
ghost use Rattle.arena_snapshot.specs.Working.Change.{entries_of};
ghost use Rattle.arena_snapshot.specs.Working.Standing.{standing_of, IsStanding};

use crate::patches::{child_of, key_of, patched_entry, stored_view};
use json_tree::{Key, Leaf, Node};
use path_capture::Path;
use std::marker::Model;
use tree_model::MAX_DEPTH;

/// A tree that is not null, borrowed. Contracts see which primitive stands at which path.
#[cycle(view)]
#[derive(Drop)]
pub struct View<'a> {
    pub(crate) kind: ViewKind<'a>,
}

#[cycle(view)]
#[derive(Drop)]
pub(crate) enum ViewKind<'a> {
    // As it is stored.
    Stored(&'a Node),
    // In the arena, so that a view is small.
    Patched(&'a Patched<'a>),
}

// A node, or nothing, whose children at a few keys are other ones, or gone.
#[cycle(view)]
#[derive(Drop)]
pub(crate) struct Patched<'a> {
    pub(crate) base: Option<&'a Node>,
    // Ascending by the bytes of the keys.
    pub(crate) patches: &'a [Patch<'a>],
    pub(crate) count: usize,
    pub(crate) width: usize,
}

// The child that stands at a key in place of the stored one, if any does.
#[cycle(view)]
#[derive(Drop)]
pub(crate) struct Patch<'a> {
    pub(crate) key: &'a Key,
    pub(crate) child: Option<View<'a>>,
    // How many children of the node below stand before the key.
    pub(crate) stored_before: usize,
    // How many children of the patched node stand before it.
    pub(crate) before: usize,
}

// What stands at a key. A call hands it back in two registers, while it writes an `Option` of a view to memory.
#[derive(Clone, Copy)]
enum Standing<'a> {
    Nothing,
    Stored(&'a Node),
    Patched(&'a Patched<'a>),
}

impl<'a> Model for View<'a> {
    ghost use Rattle.tree_model.specs.PathMap.{depth as depth_of};
    ghost use Rattle.tree_model.specs.Tree.{Tree, tree_code};

    ghost Value = { Tree };

    ghost coded = { tree_code };

    ghost use Rattle.arena_snapshot.specs.View.{tree_of, IsView};

    ghost view = { λ view. tree_of view.kind };

    ghost invariant = { λ view. IsView view.kind };

    ghost size = { depth_of };

    ghost use Rattle.arena_snapshot.specs.Working.ViewFalls.{falls};

    ghost size_decreases = { λ view h. falls view.kind h.parts };
}

impl<'a> View<'a> {
    /// A stored tree, as it is. It takes no memory.
    pub fn stored(node: &'a Node) -> View<'a>
        ensures { result ≡ node.now }
    {
        node.law();
        View {
            kind: ViewKind::Stored(node),
        }
    }

    /// The same tree once more, in constant time. It takes no memory.
    pub fn share(&self) -> View<'a>
        ensures { result ≡ self.now }
    {
        let kind = match &self.kind {
            ViewKind::Stored(node) => ViewKind::Stored(node),
            ViewKind::Patched(node) => ViewKind::Patched(node),
        };
        View { kind }
    }

    /// The primitive that stands at the root, if one does, in constant time. Its text is borrowed.
    pub fn leaf(&self) -> Option<&'a Leaf>
        ensures { option_map (λ leaf. primitive_of leaf.now) result ≡ get self.now [] }
    {
        match &self.kind {
            ViewKind::Stored(node) => node.leaf(),
            ViewKind::Patched(_) => None,
        }
    }

    /// The child of this key, by a binary search among the changed children and one among the
    /// stored ones: log w of w children. It takes no memory.
    #[inline(always)]
    pub fn child(&self, name: &str) -> Option<View<'a>>
        ensures { result ≡ non_null (sub self.now (name.now ∷ [])) }
    {
        self.standing(name).view()
    }

    // What stands at this key. It stays a function of its own, so that it hands back two registers and the room that
    // it needs is not made in each function that looks for a child.
    #[inline(never)]
    fn standing(&self, name: &str) -> Standing<'a>
        ensures is { standing_of result ≡ non_null (sub self.now (name.now ∷ [])) }
        ensures lawful { IsStanding result }
    {
        match &self.kind {
            ViewKind::Stored(node) => Standing::of(stored_view(Some(node), name)),
            ViewKind::Patched(node) => Standing::of(child_of(node.base, node.patches, name)),
        }
    }

    /// The tree at a path, if something stands there, by one step down for each key: d · log w for d
    /// keys and nodes of w children. It takes no memory.
    pub fn at(&self, path: &Path) -> Option<View<'a>>
        ensures { result ≡ non_null (sub self.now path.now) }
    {
        self.below(path.keys())
    }

    // The tree below these keys.
    pub(crate) fn below(&self, keys: &[Key]) -> Option<View<'a>>
        ensures { result ≡ non_null (sub self.now keys.now) }
    {
        match &self.kind {
            ViewKind::Stored(node) => stored_below(node, keys),
            ViewKind::Patched(_) => self.walked(keys),
        }
    }

    // The same by a view for each key, of which some are changed.
    fn walked(&self, keys: &[Key]) -> Option<View<'a>>
        ensures { result ≡ non_null (sub self.now keys.now) }
    {
        let mut view = self.share();
        for key in keys {
            view = view.child(key.text())?;
        }
        view.law();
        Some(view)
    }

    /// How many children there are, in constant time.
    pub fn width(&self) -> usize
        ensures { result ≡ length (child_keys self.now) }
    {
        match &self.kind {
            ViewKind::Stored(node) => node.width(),
            ViewKind::Patched(node) => node.width,
        }
    }

    /// Whether something exists properly below the root, in constant time.
    pub fn has_any(&self) -> bool
        ensures { (result ≡ true) ↔ (child_keys self.now ≢ []) }
    {
        self.width() > 0
    }

    /// How many locations exist, the root among them, in constant time. Of a tree with more than
    /// a `usize` can hold, the greatest `usize`.
    pub fn count(&self) -> usize
        ensures { result ≡ min (count self.now) usize.MAX }
    {
        match &self.kind {
            ViewKind::Stored(node) => node.count(),
            ViewKind::Patched(node) => node.count,
        }
    }

    /// The key of a child, in the order of their bytes: in constant time beside a binary search among
    /// the changed children. It takes no memory.
    pub fn key_at(&self, i: usize) -> Option<&'a Key>
        ensures { option_map (λ key. key.now) result ≡ slice_get (child_keys self.now) i }
    {
        match &self.kind {
            ViewKind::Stored(node) => node.key_at(i),
            ViewKind::Patched(node) => key_of(node.base, node.patches, node.width, i),
        }
    }

    /// The child at an index with its key, in the order of the keys: of a stored tree in constant time, as is a
    /// changed child before which no other stands, and of one with changed children else by a search for the key.
    /// It takes no memory.
    pub fn entry_at(&self, i: usize) -> Option<(&'a Key, View<'a>)>
        ensures { option_map (λ entry. (entry.0.now, entry.1)) result
            ≡ slice_get (map_of.entries (children self.now)) i }
    {
        match &self.kind {
            ViewKind::Stored(node) => stored_entry(node, i),
            ViewKind::Patched(node) => match patched_entry(node.base, node.patches, node.width, i) {
                Some(entry) => Some(entry),
                None => self.searched_entry(i),
            },
        }
    }

    fn searched_entry(&self, i: usize) -> Option<(&'a Key, View<'a>)>
        ensures { option_map (λ entry. (entry.0.now, entry.1)) result
            ≡ slice_get (entries_of self.now) i }
    {
        let key = self.key_at(i)?;
        let child = self.child(key.text())?;
        Some((key, child))
    }

    /// What holds of every view: something stands there, and all of it is lawful.
    pub fn law(&self)
        ensures some { self.now ≢ null }
        ensures lawful { IsLawful self.now }
        ensures depth { depth self.now ≤ MAX_DEPTH }
    {
        let _kind = &self.kind;
    }
}

impl<'a> Standing<'a> {
    // What a view is, if there is one.
    fn of(view: Option<View<'a>>) -> Standing<'a>
        ensures is { standing_of result ≡ view.entry }
        ensures lawful { IsStanding result }
    {
        match view {
            None => Standing::Nothing,
            Some(view) => match view.kind {
                ViewKind::Stored(node) => Standing::Stored(node),
                ViewKind::Patched(node) => Standing::Patched(node),
            },
        }
    }

    // The same as a view.
    fn view(self) -> Option<View<'a>>
        requires { IsStanding self }
        ensures { result ≡ standing_of self.entry }
    {
        match self {
            Standing::Nothing => None,
            Standing::Stored(node) => Some(View {
                kind: ViewKind::Stored(node),
            }),
            Standing::Patched(node) => Some(View {
                kind: ViewKind::Patched(node),
            }),
        }
    }
}

// The stored tree below these keys.
fn stored_below<'a>(node: &'a Node, keys: &[Key]) -> Option<View<'a>>
    ensures { result ≡ non_null (sub node.now keys.now) }
{
    let mut at = node;
    for key in keys {
        at = at.child(key.text())?;
    }
    at.law();
    Some(View::stored(at))
}

// The stored child at an index, with its key.
fn stored_entry<'a>(node: &'a Node, i: usize) -> Option<(&'a Key, View<'a>)>
    ensures { option_map (λ entry. (entry.0.now, entry.1)) result
        ≡ slice_get (entries_of node.now) i }
{
    let (key, child) = node.entry_at(i)?;
    Some((key, View::stored(child)))
}
