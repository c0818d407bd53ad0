//! A child, with what it is ordered by.
ghost use Rattle.std.specs.Prelude.{◌≡◌, Some, option_map, slice_get};
ghost use Rattle.tree_model.specs.Key.{Key as KeyBytes};
ghost use Rattle.arena_snapshot.specs.Working.Change.{entries_of};
ghost use Rattle.listeners.specs.Selection.{Child};
ghost use Rattle.listeners.specs.Working.Items.{place_seen, rank_seen, item_seen, item_cmp};
ghost use Rattle.listeners.specs.Working.Parts.{order_seen};
ghost use Rattle.listeners.specs.Working.Ranks.{place_by, rank_of, ranked};

use crate::list_key::ListKey;
use crate::order::Order;
use crate::place::{SortPlace, compare, place_of};
use arena_snapshot::View;
use std::cmp::Ordering;

// A child's index, and its place and its key in the order that is asked for.
#[derive(Clone, Copy)]
pub(crate) struct Item<'a> {
    pub(crate) index: usize,
    pub(crate) place: SortPlace<'a>,
    pub(crate) key: ListKey<'a>,
}

impl<'a> Item<'a> {
    // The child at an index, in this order.
    pub(crate) fn of_child(view: &View<'a>, index: usize, order: &Option<Order>) -> Option<Item<'a>>
        ensures { option_map item_seen result
            ≡ option_map (λ c. ranked (option_map order_seen order.now) (index, c)) (slice_get (entries_of view.now) index) }
    {
        let (key, child) = view.entry_at(index)?;
        let place = place_by(&child, order);
        Some(Item {
            index,
            place,
            key: ListKey::new(key.text()),
        })
    }

    // A child of this key, in this order. Its index is not asked for.
    pub(crate) fn of_key(key: &'a str, child: &View<'a>, order: &Option<Order>) -> Item<'a>
        ensures { rank_seen result ≡ rank_of (option_map order_seen order.now) (key.now, child.now) }
    {
        Item {
            index: 0,
            place: place_by(child, order),
            key: ListKey::new(key),
        }
    }

    // The order of children: by their places, those of one place by their keys.
    pub(crate) fn compare(&self, other: &Item<'_>) -> Ordering
        ensures { result ≡ item_cmp self.now other.now }
    {
        compare(&self.place, &other.place).then(self.key.compare(&other.key))
    }
}

// By what a child is ordered. By keys all children are in one place.
fn place_by<'a>(child: &View<'a>, order: &Option<Order>) -> SortPlace<'a>
    ensures { (key : KeyBytes) → place_seen result ≡ place_by (option_map order_seen order.now) (key, child.now) }
{
    match order {
        Some(order) => place_in(child, order),
        None => SortPlace::Nothing,
    }
}

fn place_in<'a>(child: &View<'a>, order: &Order) -> SortPlace<'a>
    ensures { (key : KeyBytes) → place_seen result ≡ place_by (Some (order_seen order.now)) (key, child.now) }
{
    match order {
        Order::Key => SortPlace::Nothing,
        Order::Value => place_of(Some(child.share())),
        Order::Child(below) => place_of(child.at(&below.path)),
    }
}
