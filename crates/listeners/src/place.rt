//! What stands at a location, as far as children are ordered by it.
ghost use Rattle.std.specs.Prelude.{◌≡◌};
ghost use Rattle.json_tree.specs.Leaf.{primitive_of};
ghost use Rattle.path_capture.specs.Write.{tree_or_null};
ghost use Rattle.std.specs.Ordering.{is_eq};
ghost use Rattle.listeners.specs.Order as orders;
ghost use Rattle.listeners.specs.Order.{primitive_cmp, place_cmp};
ghost use Rattle.listeners.specs.Selection.{place_of};
ghost use Rattle.listeners.specs.Working.Items.{place_seen};

use arena_snapshot::{View, is_same_leaf};
use json_tree::Leaf;
use std::cmp::Ordering;

// Nothing, a primitive, or children.
#[derive(Clone, Copy)]
pub(crate) enum SortPlace<'a> {
    Nothing,
    Value(&'a Leaf),
    Location,
}

// What stands at the root of a tree.
pub(crate) fn place_of<'a>(view: Option<View<'a>>) -> SortPlace<'a>
    ensures { place_seen result ≡ place_of (tree_or_null view.entry) }
{
    match view {
        Some(view) => {
            view.law();
            match view.leaf() {
                Some(leaf) => SortPlace::Value(leaf),
                None => SortPlace::Location,
            }
        }
        None => SortPlace::Nothing,
    }
}

// Whether it is this primitive, which takes less than to find where it stands beside it.
#[tactic(auto, unfolding(crate::specs::Order::place_cmp), using(crate::proofs::Orders::same_place))]
pub(crate) fn is_value(place: &SortPlace<'_>, leaf: &Leaf) -> bool
    ensures { result ≡ is_eq (place_cmp (place_seen place.now) (orders.value (primitive_of leaf.now))) }
{
    match place {
        SortPlace::Value(own) => is_same_leaf(own, leaf),
        SortPlace::Nothing | SortPlace::Location => false,
    }
}

// Nothing comes first, then primitives, then locations with children, which are all equal.
#[tactic(auto, unfolding(crate::specs::Order::place_cmp))]
pub(crate) fn compare(place: &SortPlace<'_>, other: &SortPlace<'_>) -> Ordering
    ensures { result ≡ place_cmp (place_seen place.now) (place_seen other.now) }
{
    match (place, other) {
        (SortPlace::Nothing, SortPlace::Nothing) | (SortPlace::Location, SortPlace::Location) =>
            Ordering::Equal,
        (SortPlace::Value(leaf), SortPlace::Value(other)) => compare_leaves(leaf, other),
        (SortPlace::Nothing, _) | (_, SortPlace::Location) => Ordering::Less,
        (SortPlace::Location, _) | (_, SortPlace::Nothing) => Ordering::Greater,
    }
}

// Booleans come first, then numbers, then texts.
fn compare_leaves(leaf: &Leaf, other: &Leaf) -> Ordering
    ensures { result ≡ primitive_cmp (primitive_of leaf.now) (primitive_of other.now) }
{
    match (leaf, other) {
        (Leaf::Truth(b), Leaf::Truth(other)) => b.cmp(other),
        (Leaf::Whole(number), Leaf::Whole(other)) => number.value().cmp(&other.value()),
        (Leaf::Words(text), Leaf::Words(other)) => text.as_str().cmp(other.as_str()),
        (Leaf::Truth(_), _) | (_, Leaf::Words(_)) => Ordering::Less,
        (Leaf::Words(_), _) | (_, Leaf::Truth(_)) => Ordering::Greater,
    }
}
