//! The bounds of a query, as children stand beside them.
ghost use Rattle.std.specs.Prelude.{◌≡◌, true, not, option_map};
ghost use Rattle.std.specs.Option.{option_map_or};
ghost use Rattle.std.specs.Ordering.{is_lt, is_gt, is_eq};
ghost use Rattle.json_tree.specs.Leaf.{primitive_of};
ghost use Rattle.listeners.specs.Working.Items.{rank_seen, mark_seen, marks_seen};
ghost use Rattle.listeners.specs.Working.Parts.{order_seen};
ghost use Rattle.listeners.specs.Working.Ranks.{key_in, mark_of, mark_cmp, is_between};

use crate::item::Item;
use crate::list_key::ListKey;
use crate::order::Order;
use crate::place::{SortPlace, compare, is_value};
use json_tree::Leaf;
use std::cmp::Ordering;

// A bound: a key, which is read once, or a value.
#[derive(Clone, Copy)]
pub(crate) enum Mark<'a> {
    Key(ListKey<'a>),
    Value(&'a Leaf),
}

// The bounds that a query has.
#[derive(Clone, Copy)]
pub(crate) struct Bounds<'a> {
    pub(crate) start_at: Option<Mark<'a>>,
    pub(crate) end_at: Option<Mark<'a>>,
    pub(crate) equal_to: Option<Mark<'a>>,
}

impl<'a> Bounds<'a> {
    // Whether the child is at or behind the first bound, at or before the last one, and equal to that which
    // it is to be equal to.
    pub(crate) fn hold(&self, item: &Item<'_>) -> bool
        ensures { result ≡ is_between (marks_seen self.now) (rank_seen item.now) }
    {
        is_at_or_behind(item, &self.start_at)
            && is_at_or_before(item, &self.end_at)
            && is_at(item, &self.equal_to)
    }
}

fn is_at_or_behind(item: &Item<'_>, mark: &Option<Mark<'_>>) -> bool
    ensures { result ≡ option_map_or (λ m. not (is_lt (mark_cmp (rank_seen item.now) m))) (option_map mark_seen mark.now) true }
{
    match mark {
        Some(mark) => !beside(item, mark).is_lt(),
        None => true,
    }
}

fn is_at_or_before(item: &Item<'_>, mark: &Option<Mark<'_>>) -> bool
    ensures { result ≡ option_map_or (λ m. not (is_gt (mark_cmp (rank_seen item.now) m))) (option_map mark_seen mark.now) true }
{
    match mark {
        Some(mark) => !beside(item, mark).is_gt(),
        None => true,
    }
}

fn is_at(item: &Item<'_>, mark: &Option<Mark<'_>>) -> bool
    ensures { result ≡ option_map_or (λ m. is_eq (mark_cmp (rank_seen item.now) m)) (option_map mark_seen mark.now) true }
{
    match mark {
        Some(Mark::Key(key)) => item.key.compare(key).is_eq(),
        Some(Mark::Value(leaf)) => is_value(&item.place, leaf),
        None => true,
    }
}

// Where a child stands beside a bound.
fn beside(item: &Item<'_>, mark: &Mark<'_>) -> Ordering
    ensures { result ≡ mark_cmp (rank_seen item.now) (mark_seen mark.now) }
{
    match mark {
        Mark::Key(key) => item.key.compare(key),
        Mark::Value(leaf) => compare(&item.place, &SortPlace::Value(leaf)),
    }
}

// The key of a bound by keys.
pub(crate) fn key_bound(leaf: &Option<Leaf>) -> Option<&str>
    ensures { option_map (λ key. key.now) result ≡ option_map key_in (option_map primitive_of leaf.now) }
{
    match leaf {
        Some(leaf) => Some(key_in(leaf)),
        None => None,
    }
}

// The bound of a leaf, in this order.
pub(crate) fn mark_in<'a>(order: &Option<Order>, leaf: &'a Option<Leaf>) -> Option<Mark<'a>>
    ensures { option_map mark_seen result ≡ option_map (mark_of (option_map order_seen order.now)) (option_map primitive_of leaf.now) }
{
    match leaf {
        Some(leaf) => Some(mark_of(order, leaf)),
        None => None,
    }
}

fn mark_of<'a>(order: &Option<Order>, leaf: &'a Leaf) -> Mark<'a>
    ensures { mark_seen result ≡ mark_of (option_map order_seen order.now) (primitive_of leaf.now) }
{
    match order {
        None | Some(Order::Key) => Mark::Key(ListKey::new(key_in(leaf))),
        Some(Order::Value | Order::Child(_)) => Mark::Value(leaf),
    }
}

// The key that a bound is. A query has no other bounds by keys.
fn key_in(leaf: &Leaf) -> &str
    ensures { result.now ≡ key_in (primitive_of leaf.now) }
{
    match leaf {
        Leaf::Words(text) => text.as_str(),
        Leaf::Truth(_) | Leaf::Whole(_) => "",
    }
}
