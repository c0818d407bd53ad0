//! Whether one child is among those that a query selects.
ghost use Rattle.std.specs.Prelude.{◌≡◌, ◌≢◌, ◌≤◌, ◌-◌, ◌&&◌, ◌∷◌, [], not, false, Some, length};
ghost use Rattle.std.specs.Option.{option_map_or};
ghost use Rattle.std.specs.Str.{bytes_eq};
ghost use Rattle.tree_model.specs.Key.{Key as KeyBytes};
ghost use Rattle.tree_model.specs.PathMap.{sub};
ghost use Rattle.tree_model.specs.Tree.{child_keys};
ghost use Rattle.arena_snapshot.specs.Working.Change.{entries_of};
ghost use Rattle.listeners.specs.Selection.{is_selected};
ghost use Rattle.listeners.specs.Working.Ahead.{is_ahead, count_ahead};
ghost use Rattle.listeners.specs.Working.Items.{rank_seen, marks_seen};
ghost use Rattle.listeners.specs.Working.Parts.{first_of, last_of};
ghost use Rattle.listeners.specs.Working.Ranks.{ranks_within, other_ranks, is_between, is_kept_of};
ghost use Rattle.listeners.specs.Working.Reach.{ranks_between};

use crate::bounds::Bounds;
use crate::item::Item;
use crate::order::Limit;
use crate::query::Query;
use crate::reach::Stretch;
use arena_snapshot::View;

/// Whether a query selects the child of a key, if one is stored there. The child is found by a binary search, and
/// compared with the bounds; only under a limit others are looked at, those that [`select`](crate::select) looks
/// at, up to the one that leaves no room for it. It takes no memory. (Guide "Work with Lists of Data", filtering
/// data.)
pub fn selects(view: &View<'_>, query: &Query, key: &str) -> bool
    ensures { result ≡ is_selected query.now view.now key.now }
{
    let Some(child) = view.child(key) else {
        return false;
    };
    let item = query.item_of(key, &child);
    query.bounds().hold(&item) && has_room(view, query, &item)
}

/// Whether a query selects the child of a key, by the children of another view, which are the same but for this one.
/// So a view with changes, in which a child that stays takes a search, need not be gone through; by keys it is, and
/// no more of it than [`selects`] looks at. It takes no memory. (Guide "Work with Lists of Data", filtering data.)
pub fn selects_beside(view: &View<'_>, others: &View<'_>, query: &Query, key: &str) -> bool
    requires { (k : KeyBytes) → k ≢ key.now → sub others.now (k ∷ []) ≡ sub view.now (k ∷ []) }
    ensures { result ≡ is_selected query.now view.now key.now }
{
    if query.is_by_keys() {
        return selects(view, query, key);
    }
    let Some(child) = view.child(key) else {
        return false;
    };
    let item = query.item_of(key, &child);
    query.bounds().hold(&item) && has_room_beside(others, query, &item)
}

// Whether the limit keeps a child beside all others of a view but the one of its key.
fn has_room_beside(others: &View<'_>, query: &Query, item: &Item<'_>) -> bool
    ensures { result ≡ is_kept_of query.now.limit_to_first query.now.limit_to_last (other_ranks query.now others.now (item.now.key.text.now ∷ [])) (rank_seen item.now) }
{
    match query.limit() {
        Some(limit) => are_few_beside(others, query, limit, item),
        None => true,
    }
}

// The same by how many of them stand ahead.
fn are_few_beside(others: &View<'_>, query: &Query, limit: Limit, item: &Item<'_>) -> bool
    requires first { first_of (Some limit) ≡ query.now.limit_to_first }
    requires last { last_of (Some limit) ≡ query.now.limit_to_last }
    ensures { result ≡ is_kept_of query.now.limit_to_first query.now.limit_to_last (other_ranks query.now others.now (item.now.key.text.now ∷ [])) (rank_seen item.now) }
{
    let bounds = query.bounds();
    let mut room = limit.number();
    for i in 0..others.width() {
        if room == 0 {
            return false;
        }
        if another_stands_ahead(&query.item(others, i), &bounds, limit, item) {
            room -= 1;
        }
    }
    room > 0
}

// Whether a child stands ahead of another, and has another key.
fn another_stands_ahead(
    other: &Option<Item<'_>>,
    bounds: &Bounds<'_>,
    limit: Limit,
    item: &Item<'_>,
) -> bool
    ensures { result ≡ option_map_or (λ one. not (bytes_eq one.key.text.now item.now.key.text.now) && (is_between (marks_seen bounds.now) (rank_seen one) && is_ahead limit (rank_seen item.now) (rank_seen one))) other.now false }
{
    match other {
        Some(one) => one.key.text != item.key.text && stands_ahead(other, bounds, limit, item),
        None => false,
    }
}

// Whether the limit keeps a child.
fn has_room(view: &View<'_>, query: &Query, item: &Item<'_>) -> bool
    ensures { result ≡ is_kept_of query.now.limit_to_first query.now.limit_to_last (ranks_within query.now (entries_of view.now)) (rank_seen item.now) }
{
    match query.limit() {
        Some(limit) => are_few_ahead(view, query, limit, item),
        None => true,
    }
}

// Whether fewer children within the bounds stand ahead of a child than a limit keeps.
fn are_few_ahead(view: &View<'_>, query: &Query, limit: Limit, item: &Item<'_>) -> bool
    requires first { first_of (Some limit) ≡ query.now.limit_to_first }
    requires last { last_of (Some limit) ≡ query.now.limit_to_last }
    ensures { result ≡ is_kept_of query.now.limit_to_first query.now.limit_to_last (ranks_within query.now (entries_of view.now)) (rank_seen item.now) }
{
    let reach = query.reach(view);
    let mut room = limit.number();
    let mut from = 0;
    while from < view.width() {
        let stretch = reach.stretch(from, view.width());
        room = room_left(view, query, limit, item, stretch, room);
        from = stretch.end;
    }
    room > 0
}

// What is left of the room where each child of a stretch takes some that is within the bounds and stands ahead.
fn room_left(
    view: &View<'_>,
    query: &Query,
    limit: Limit,
    item: &Item<'_>,
    stretch: Stretch,
    room: usize,
) -> usize
    requires order { stretch.from ≤ stretch.to }
    requires within { stretch.to ≤ length (child_keys view.now) }
    ensures { result ≡ room - count_ahead limit (rank_seen item.now) (ranks_between query.now (entries_of view.now) stretch.from stretch.to) }
{
    let bounds = query.bounds();
    let mut left = room;
    for i in stretch.from..stretch.to {
        if left == 0 {
            return 0;
        }
        if stands_ahead(&query.item(view, i), &bounds, limit, item) {
            left -= 1;
        }
    }
    left
}

// Whether a child is there, within the bounds, and ahead of another.
fn stands_ahead(
    other: &Option<Item<'_>>,
    bounds: &Bounds<'_>,
    limit: Limit,
    item: &Item<'_>,
) -> bool
    ensures { result ≡ option_map_or (λ one. is_between (marks_seen bounds.now) (rank_seen one) && is_ahead limit (rank_seen item.now) (rank_seen one)) other.now false }
{
    match other {
        Some(other) => bounds.hold(other) && limit.is_ahead(other, item),
        None => false,
    }
}
