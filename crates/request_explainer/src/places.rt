//! The places at which a request asks rules.
ghost use Rattle.std.specs.Prelude.{◌≡◌, ◌+◌, ◌≤◌, ◌++◌, map, filter, length, IfOk, OnOk};
ghost use Rattle.std.specs.List.{list_any};
ghost use Rattle.tree_model.specs.declared.limits.TheConstants.{MAX_DEPTH as most_keys};
ghost use Rattle.tree_model.specs.Path.{prefixes};
ghost use Rattle.tree_model.specs.PathMap.{depth};
ghost use Rattle.tree_model.specs.Put.{location};
ghost use Rattle.path_capture.specs.Write.{tree_or_null};
ghost use Rattle.judge.specs.Failing.{is_near, is_touched};
ghost use Rattle.judge.specs.Placed.{path_by};
ghost use Rattle.request_explainer.specs.Asked.{to_validate};
ghost use Rattle.request_explainer.specs.Working.{places_by, existing_from};

use crate::place::Place;
use arena_snapshot::View;
use bumpalo::Bump;
use json_tree::{Key, NoMemory};
use path_capture::{Path, Write};

/// The prefixes of a path, the shortest first, in the arena: a list of keys for each.
pub(crate) fn prefixes_of<'a>(
    arena: &'a Bump,
    path: &'a Path,
) -> Result<Vec<&'a Place<'a>, &'a Bump>, NoMemory>
    ensures { IfOk result (λ places. places_by places.items ≡ prefixes path.now) }
{
    let keys = path.keys();
    let end = keys.len() + 1;
    let mut places = Vec::with_capacity(arena, end)?;
    for count in 0..end {
        places.push(Place::front(arena, keys, count)?)?;
    }
    Ok(places)
}

/// The places where writes have to be valid which propose this tree, in the order of paths: a look at each child of a
/// place that a location touches, by each location. The arena takes their keys and a list for each child.
pub(crate) fn places_to_validate<'a>(
    arena: &'a Bump,
    coming: &Option<View<'a>>,
    writes: &[Write],
) -> Result<Vec<&'a Place<'a>, &'a Bump>, NoMemory>
    ensures { IfOk result (λ places. places_by places.items ≡ to_validate (tree_or_null coming.now) (map location writes.now)) }
{
    let mut places = Vec::new(arena);
    let Some(view) = coming else {
        return Ok(places);
    };
    view.law();
    let root = Place::root(arena)?;
    list_touched(arena, view, root, writes, &mut places)?;
    Ok(places)
}

// Lists the locations of a tree that stands at a place which touch what is written.
fn list_touched<'a>(
    arena: &'a Bump,
    view: &View<'a>,
    here: &'a Place<'a>,
    writes: &[Write],
    places: &mut Vec<&'a Place<'a>, &'a Bump>,
) -> Result<(), NoMemory>
    requires { length here.now + depth view.now ≤ most_keys }
    ensures { OnOk result (places_by places.new.items ≡ places_by places.old.items ++ filter (is_touched (map location writes.now)) (existing_from here.now view.now)) }
{
    view.law();
    let near = touches(here, writes);
    if !near {
        return Ok(());
    }
    places.push(here)?;
    for i in 0..view.width() {
        let Some((key, child)) = view.entry_at(i) else {
            unreachable!()
        };
        let below = here.below(arena, key)?;
        list_touched(arena, &child, below, writes, places)?;
    }
    Ok(())
}

// Whether a place touches a location that is written.
fn touches(place: &Place<'_>, writes: &[Write]) -> bool
    ensures { result ≡ list_any (λ write. is_near place.now (location write)) writes.now }
{
    let keys = place.keys();
    writes.iter().any(|write| is_near(keys, write.at().keys()))
}

// Whether one is a prefix of the other.
fn is_near(place: &[&Key], keys: &[Key]) -> bool
    ensures { result ≡ is_near (path_by place.now) keys.now }
{
    match place {
        [] => true,
        [first, rest @ ..] => match keys {
            [] => true,
            [key, others @ ..] => first.text() == key.text() && is_near(rest, others),
        },
    }
}
