//! Sizes: how many locations and children there are where a child is exchanged for another, kept by
//! what goes and what comes.
ghost use Rattle.std.specs.Prelude.{◌≡◌, ◌<◌, ◌≤◌, ◌+◌, [], None, option_map, IfOk};
ghost use Rattle.tree_model.specs.PathMap.{get};
ghost use Rattle.arena_snapshot.specs.View.{node_or_null};
ghost use Rattle.arena_snapshot.specs.Working.Change.{total, one, locations, locations_of, one_of};

use crate::view::View;
use json_tree::{NoMemory, Node};

/// How many locations exist, and how many children there are.
#[derive(Clone, Copy)]
pub(crate) struct Sizes {
    pub(crate) count: usize,
    pub(crate) width: usize,
}

// What a child adds that is not there.
const NOTHING: Sizes = Sizes { count: 0, width: 0 };

// The sizes of a node that is no primitive, or of nothing, with the root counted.
pub(crate) fn stored_sizes(base: Option<&Node>) -> Result<Sizes, NoMemory>
    requires { get (node_or_null base) [] ≡ None }
    ensures count { IfOk result (λ sizes. sizes.count ≡ 1 + total locations (node_or_null base.entry)) }
    ensures width { IfOk result (λ sizes. sizes.width ≡ total one (node_or_null base.entry)) }
    ensures fits { IfOk result (λ sizes. sizes.count ≤ usize.MAX) }
{
    match base {
        Some(node) => {
            node.law();
            Ok(Sizes {
                count: in_full(node.count())?,
                width: node.width(),
            })
        }
        None => Ok(Sizes { count: 1, width: 0 }),
    }
}

// The sizes after the stored child, if there is one, is exchanged for this one.
pub(crate) fn exchanged(
    sizes: Sizes,
    stored: Option<&Node>,
    child: &Option<View>,
) -> Result<Sizes, NoMemory>
    requires count { locations_of (option_map (λ node. node.now) stored) ≤ sizes.count }
    requires width { one_of (option_map (λ node. node.now) stored) ≤ sizes.width }
    ensures count { IfOk result (λ after. after.count + locations_of (option_map (λ node. node.now) stored.entry) ≡ sizes.count + locations_of child.now) }
    ensures width { IfOk result (λ after. after.width + one_of (option_map (λ node. node.now) stored.entry) ≡ sizes.width + one_of child.now) }
    ensures fits { IfOk result (λ after. after.count ≤ usize.MAX) }
{
    let gone = stored_share(stored)?;
    let come = share_of(child)?;
    Ok(Sizes {
        count: sum(sizes.count - gone.count, come.count)?,
        width: sum(sizes.width - gone.width, come.width)?,
    })
}

// What the stored child, if there is one, adds to its parent.
fn stored_share(stored: Option<&Node>) -> Result<Sizes, NoMemory>
    ensures count { IfOk result (λ sizes. sizes.count ≡ locations_of (option_map (λ node. node.now) stored.entry)) }
    ensures width { IfOk result (λ sizes. sizes.width ≡ one_of (option_map (λ node. node.now) stored.entry)) }
{
    match stored {
        Some(child) => Ok(Sizes {
            count: in_full(child.count())?,
            width: 1,
        }),
        None => Ok(NOTHING),
    }
}

// What this child adds to its parent.
fn share_of(child: &Option<View>) -> Result<Sizes, NoMemory>
    ensures count { IfOk result (λ sizes. sizes.count ≡ locations_of child.now) }
    ensures width { IfOk result (λ sizes. sizes.width ≡ one_of child.now) }
{
    match child {
        Some(child) => Ok(Sizes {
            count: in_full(child.count())?,
            width: 1,
        }),
        None => Ok(NOTHING),
    }
}

// A count that is exact. The greatest `usize` may stand for more, which no memory holds.
fn in_full(count: usize) -> Result<usize, NoMemory>
    ensures same { IfOk result (λ exact. exact ≡ count) }
    ensures exact { IfOk result (λ exact. count < usize.MAX) }
{
    if count == usize::MAX {
        return Err(NoMemory);
    }
    Ok(count)
}

// A sum that fits. More than a `usize` can hold, no memory holds.
fn sum(a: usize, b: usize) -> Result<usize, NoMemory>
    ensures exact { IfOk result (λ sum. sum ≡ a + b) }
    ensures fits { IfOk result (λ sum. sum ≤ usize.MAX) }
{
    a.checked_add(b).ok_or(NoMemory)
}
