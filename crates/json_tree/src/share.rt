//! Shares: what a child adds to the depth and the count of its parent, so that these are kept where
//! one child changes.
ghost use Rattle.std.specs.Prelude.{◌≡◌, ◌≢◌, ◌≤◌, ◌+◌, List, max, min};
ghost use Rattle.std.specs.Bool.{OnTrue};
ghost use Rattle.tree_model.specs.Key.{Key as KeyBytes};
ghost use Rattle.tree_model.specs.PathMap.{depth};
ghost use Rattle.tree_model.specs.Tree.{Tree, null, count, IsLawful};
ghost use Rattle.tree_model.specs.Children.{graft};
ghost use Rattle.json_tree.specs.Node.{AreLawfulChildren};
ghost use Rattle.json_tree.specs.Working.Share.{deepest, IsSizeOf, Exchanges};

use crate::node::{Child, Node, sizes_of};

/// What a child adds to its parent.
#[derive(Clone, Copy, Debug, PartialEq, Eq)]
pub(crate) struct Share {
    /// The most keys above a primitive of the child, its own key among them.
    pub(crate) depth: usize,
    /// How many locations exist at the child and below it.
    pub(crate) count: usize,
}

/// The share of a child that is not there.
pub(crate) const NO_SHARE: Share = Share { depth: 0, count: 0 };

/// The shares of one child, before it changed and after. A child that was new, or that went, has no
/// share on that side.
#[derive(Clone, Copy, Debug, PartialEq, Eq)]
pub(crate) struct Exchange {
    pub(crate) before: Share,
    pub(crate) after: Share,
}

/// No child has changed.
pub(crate) const NO_EXCHANGE: Exchange = Exchange {
    before: NO_SHARE,
    after: NO_SHARE,
};

// The share of a child.
pub(crate) fn share_of(child: &Node) -> Share
    ensures depth { result.depth ≡ depth child.now + 1 }
    ensures count { result.count ≡ min (count child.now) usize.MAX }
    ensures some { child.now ≢ null }
    ensures lawful { IsLawful child.now }
{
    child.law();
    Share {
        depth: child.depth() + 1,
        count: child.count(),
    }
}

// The depth and the count of a parent of these children, where it had the others before one of them
// changed.
pub(crate) fn sizes_after(
    children: &Vec<Child>,
    depth_before: usize,
    count_before: usize,
    exchange: Exchange,
) -> (usize, usize)
    requires children { AreLawfulChildren children.now.items }
    requires sizes { (old : List (KeyBytes × Tree)) × IsSizeOf old depth_before count_before × Exchanges old children.now.items exchange }
    ensures depth { result.0 ≡ depth (graft children.now.items) }
    ensures count { result.1 ≡ min (count (graft children.now.items)) usize.MAX }
{
    // The greatest `usize` may stand for more, from which nothing can be taken off.
    if count_before == usize::MAX {
        return sizes_of(children);
    }
    if !is_depth_known(children, depth_before, exchange) {
        return sizes_of(children);
    }
    (
        depth_before.max(exchange.after.depth),
        (count_before - exchange.before.count).saturating_add(exchange.after.count),
    )
}

// Whether the depth of the parent is the greater of what it was and what the child now makes it. It
// may be less only where the child was the deepest, and no other is as deep.
fn is_depth_known(children: &Vec<Child>, depth_before: usize, exchange: Exchange) -> bool
    requires { (old : List (KeyBytes × Tree)) × (depth_before ≡ deepest old) × Exchanges old children.now.items exchange }
    ensures { OnTrue result (deepest children.now.items ≡ max depth_before exchange.after.depth) }
{
    if exchange.before.depth < depth_before {
        return true;
    }
    if depth_before <= exchange.after.depth {
        return true;
    }
    is_as_deep(children, depth_before)
}

// Whether a child makes its parent so deep. True for the first that does, so mostly in one step.
fn is_as_deep(children: &Vec<Child>, wanted: usize) -> bool
    ensures { OnTrue result (wanted ≤ deepest children.now.items) }
{
    for child in children {
        let node = child.node();
        node.law();
        if node.depth() + 1 == wanted {
            return true;
        }
    }
    false
}
