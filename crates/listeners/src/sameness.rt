//! Whether the parts of two queries are the same.
ghost use Rattle.std.specs.Prelude.{◌≡◌, ◌≢◌, option_map};
ghost use Rattle.std.specs.Bool.{OnTrue, OnFalse};
ghost use Rattle.json_tree.specs.Leaf.{primitive_of};
ghost use Rattle.listeners.specs.Working.Parts.{order_seen, limits_of};

use crate::order::{Limit, Order};
use arena_snapshot::is_same_leaf;
use json_tree::Leaf;
use path_capture::Path;

// Whether both are the same order, or both none.
pub(crate) fn is_same_order(order: &Option<Order>, other: &Option<Order>) -> bool
    ensures same { OnTrue result (option_map order_seen order.now ≡ option_map order_seen other.now) }
    ensures differs { OnFalse result (option_map order_seen order.now ≢ option_map order_seen other.now) }
{
    match (order, other) {
        (None, None)
        | (Some(Order::Key), Some(Order::Key))
        | (Some(Order::Value), Some(Order::Value)) => true,
        (Some(Order::Child(child)), Some(Order::Child(other))) => {
            is_same_path(&child.path, &other.path)
        }
        _ => false,
    }
}

fn is_same_path(path: &Path, other: &Path) -> bool
    ensures same { OnTrue result (path.now ≡ other.now) }
    ensures differs { OnFalse result (path.now ≢ other.now) }
{
    path.compare(other).is_eq()
}

// Whether both are the same bound, or both none.
pub(crate) fn is_same_bound(bound: &Option<Leaf>, other: &Option<Leaf>) -> bool
    ensures same { OnTrue result (option_map primitive_of bound.now ≡ option_map primitive_of other.now) }
    ensures differs { OnFalse result (option_map primitive_of bound.now ≢ option_map primitive_of other.now) }
{
    match (bound, other) {
        (Some(bound), Some(other)) => is_same_leaf(bound, other),
        (None, None) => true,
        _ => false,
    }
}

// Whether both are the same limit, or both none.
pub(crate) fn is_same_limit(limit: Option<Limit>, other: Option<Limit>) -> bool
    ensures same { OnTrue result (limits_of limit ≡ limits_of other) }
    ensures differs { OnFalse result (limits_of limit ≢ limits_of other) }
{
    match (limit, other) {
        (None, None) => true,
        (Some(Limit::First(limit)), Some(Limit::First(other)))
        | (Some(Limit::Last(limit)), Some(Limit::Last(other))) => limit == other,
        _ => false,
    }
}
