//! The part of a tree that a query selects.
ghost use Rattle.std.specs.Prelude.{◌≡◌, ◌≤◌, ◌++◌, length, map, filter, option_map, IfOk, OnOk};
ghost use Rattle.tree_model.specs.Tree.{non_null, child_keys};
ghost use Rattle.path_capture.specs.Write.{tree_or_null};
ghost use Rattle.arena_snapshot.specs.Working.Change.{entries_of};
ghost use Rattle.listeners.specs.Selection.{selection, selected};
ghost use Rattle.listeners.specs.Working.Items.{item_seen, rank_seen, lies_inside};
ghost use Rattle.listeners.specs.Working.Ranks.{ranks_within};
ghost use Rattle.listeners.specs.Working.Reach.{ranks_between, kept_among};

use crate::edge::Edge;
use crate::item::Item;
use crate::query::Query;
use arena_snapshot::{View, kept};
use bumpalo::Bump;
use json_tree::NoMemory;

/// The part of a tree that a query selects, if it selects anything: without a query the tree itself, and
/// of one primitive nothing. By a value, or by a path of d keys, each of w children is looked at once, which
/// takes log w or d · log w steps. By keys, six binary searches at most find which children are looked at, in
/// log w steps each. Keys that begin with a digit, or with a minus and a digit, may be numbers, whose order is
/// not that of bytes: without `equalTo` each of these may be looked at, but for those before a first bound that
/// is no number. Of the other keys, which stand before, between and behind these, none but those within the
/// bounds are, and with a limit of n at most n in each of these three stretches. With `limitToLast`, where a
/// stretch has n within the bounds, nothing before its last n is looked at. Those within the bounds are listed
/// in the arena. Where a limit is not greater than their number and their order is not that in which they are
/// stored, they are listed once more and parted there at the child with which the limit stops, by some k
/// comparisons for k of them. The indices of those that are kept are a list too, and the children are
/// borrowed. Want of memory is the one error. (Guide "Work with Lists of Data", how query data is ordered and
/// filtering data.)
pub fn select<'a>(
    arena: &'a Bump,
    view: Option<View<'a>>,
    query: Option<&Query>,
) -> Result<Option<View<'a>>, NoMemory>
    ensures { IfOk result (λ found. found ≡ non_null (selection (tree_or_null view.entry) (option_map (λ query. query.now) query.entry))) }
{
    select_apart(arena, arena, view, query)
}

/// The same as [`select`], where the lists lie in another arena, which is not needed for what is selected: so of many
/// selections only what they select stays in the arena. (Guide "Work with Lists of Data", how query data is ordered
/// and filtering data.)
pub fn select_apart<'a>(
    scratch: &Bump,
    arena: &'a Bump,
    view: Option<View<'a>>,
    query: Option<&Query>,
) -> Result<Option<View<'a>>, NoMemory>
    ensures { IfOk result (λ found. found ≡ non_null (selection (tree_or_null view.entry) (option_map (λ query. query.now) query.entry))) }
{
    let Some(view) = view else {
        return Ok(None);
    };
    view.law();
    match query {
        Some(query) => selected(scratch, arena, &view, query),
        None => Ok(Some(view)),
    }
}

fn selected<'a>(
    scratch: &Bump,
    arena: &'a Bump,
    view: &View<'a>,
    query: &Query,
) -> Result<Option<View<'a>>, NoMemory>
    ensures { IfOk result (λ found. found ≡ non_null (selected query.now view.now)) }
{
    let items = within(scratch, view, query)?;
    let edge = query.edge(scratch, &items)?;
    let indices = indices(scratch, &items, &edge)?;
    kept(arena, view, &indices)
}

// The children within the bounds, in the order of their indices, but for some that no limit keeps.
fn within<'s, 'a>(
    scratch: &'s Bump,
    view: &View<'a>,
    query: &Query,
) -> Result<Vec<Item<'a>, &'s Bump>, NoMemory>
    ensures { IfOk result (λ items. kept_among query.now (map item_seen items.items) ≡ kept_among query.now (ranks_within query.now (entries_of view.now))) }
{
    let reach = query.reach(view);
    let mut items = Vec::new(scratch);
    let mut from = 0;
    while from < view.width() {
        let stretch = reach.stretch(from, view.width());
        add_within(&mut items, view, query, stretch.from, stretch.to)?;
        from = stretch.end;
    }
    Ok(items)
}

// Adds the children within the bounds from one index on and up to another.
fn add_within<'a>(
    items: &mut Vec<Item<'a>, &Bump>,
    view: &View<'a>,
    query: &Query,
    from: usize,
    to: usize,
) -> Result<(), NoMemory>
    requires order { from ≤ to }
    requires within { to ≤ length (child_keys view.now) }
    ensures { OnOk result (map item_seen items.new.items ≡ map item_seen items.old.items ++ ranks_between query.now (entries_of view.now) from to) }
{
    let bounds = query.bounds();
    for i in from..to {
        if let Some(item) = query.item(view, i) {
            if bounds.hold(&item) {
                items.push(item)?;
            }
        }
    }
    Ok(())
}

// The indices of those that an edge keeps.
fn indices<'s>(
    scratch: &'s Bump,
    items: &[Item<'_>],
    edge: &Edge<'_>,
) -> Result<Vec<usize, &'s Bump>, NoMemory>
    ensures { IfOk result (λ indices. indices.items ≡ map (λ item. item.index) (filter (λ item. lies_inside edge.now (rank_seen item)) items.now)) }
{
    let mut indices = Vec::new(scratch);
    for item in items {
        if edge.keeps(item) {
            indices.push(item.index)?;
        }
    }
    Ok(indices)
}
