//! The edge of a selection: the child with which a limit stops.
ghost use Rattle.std.specs.Prelude.{◌≡◌, ◌<◌, length, true, map, Some, None, IfOk};
ghost use Rattle.std.specs.Bool.{OnTrue};
ghost use Rattle.std.specs.Option.{option_map_or};
ghost use Rattle.std.specs.List.Sorted.{IsSorted};
ghost use Rattle.listeners.specs.Query.{is_limit};
ghost use Rattle.listeners.specs.Working.Items.{item_seen, item_cmp, rank_seen, StandsAt, lies_inside};
ghost use Rattle.listeners.specs.Working.Parts.{first_of, last_of};
ghost use Rattle.listeners.specs.Working.Ranks.{Rank, is_kept_of};

use crate::item::Item;
use crate::order::Limit;
use bumpalo::Bump;
use json_tree::NoMemory;

// Which children a limit keeps: all; those up to a child, the last of the first ones; or those from a child
// on, the first of the last ones.
#[derive(Clone, Copy)]
pub(crate) enum Edge<'a> {
    Nowhere,
    UpTo(Item<'a>),
    FromOn(Item<'a>),
}

impl<'a> Edge<'a> {
    // The edge of a limit among these children.
    pub(crate) fn of_limit(
        scratch: &Bump,
        items: &[Item<'a>],
        limit: Option<Limit>,
    ) -> Result<Edge<'a>, NoMemory>
        requires first { option_map_or is_limit (first_of limit) true ≡ true }
        requires last { option_map_or is_limit (last_of limit) true ≡ true }
        ensures { IfOk result (λ edge. (r : Rank) → lies_inside edge r ≡ is_kept_of (first_of limit) (last_of limit) (map item_seen items.now) r) }
    {
        match limit {
            Some(Limit::First(limit)) => first_children(scratch, items, usize::from(limit)),
            Some(Limit::Last(limit)) => last_children(scratch, items, usize::from(limit)),
            None => Ok(Edge::Nowhere),
        }
    }

    // Whether a child is kept.
    pub(crate) fn keeps(&self, item: &Item<'_>) -> bool
        ensures { result ≡ lies_inside self.now (rank_seen item.now) }
    {
        match self {
            Edge::Nowhere => true,
            Edge::UpTo(last) => !item.compare(last).is_gt(),
            Edge::FromOn(first) => !item.compare(first).is_lt(),
        }
    }
}

fn first_children<'a>(
    scratch: &Bump,
    items: &[Item<'a>],
    limit: usize,
) -> Result<Edge<'a>, NoMemory>
    requires { 0 < limit }
    ensures { IfOk result (λ edge. (r : Rank) → lies_inside edge r ≡ is_kept_of (Some limit) None (map item_seen items.now) r) }
{
    if items.len() < limit {
        return Ok(Edge::Nowhere);
    }
    let last = item_at(scratch, items, limit - 1)?;
    Ok(Edge::UpTo(last))
}

fn last_children<'a>(scratch: &Bump, items: &[Item<'a>], limit: usize) -> Result<Edge<'a>, NoMemory>
    requires { 0 < limit }
    ensures { IfOk result (λ edge. (r : Rank) → lies_inside edge r ≡ is_kept_of None (Some limit) (map item_seen items.now) r) }
{
    if items.len() < limit {
        return Ok(Edge::Nowhere);
    }
    let first = item_at(scratch, items, items.len() - limit)?;
    Ok(Edge::FromOn(first))
}

// The child at this index, once they are in order. Where they are so already, as children by their keys
// mostly are, nothing is moved.
fn item_at<'a>(scratch: &Bump, items: &[Item<'a>], i: usize) -> Result<Item<'a>, NoMemory>
    requires { i < length items.now }
    ensures { IfOk result (λ item. StandsAt items.now i item) }
{
    if is_in_order(items) {
        return Ok(items[i]);
    }
    let mut parted = Vec::from_slice(scratch, items)?;
    Ok(part_at(&mut parted, i))
}

fn is_in_order(items: &[Item<'_>]) -> bool
    ensures { OnTrue result (IsSorted item_cmp items.now) }
{
    for i in 1..items.len() {
        if items[i].compare(&items[i - 1]).is_lt() {
            return false;
        }
    }
    true
}

// Puts the child there that stands at this index once they are in order, by a time linear in their number
// mostly, and none before it that is behind it.
fn part_at<'a>(items: &mut [Item<'a>], i: usize) -> Item<'a>
    requires { i < length items.old }
    ensures { StandsAt items.old i result }
{
    let (_, item, _) = items.select_nth_unstable_by(i, |a, b| a.compare(b));
    *item
}
