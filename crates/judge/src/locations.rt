//! Locations in their order, in groups that begin with one key.
ghost use Rattle.std.specs.Prelude.{◌≡◌, ◌+◌, ◌≤◌, ◌<◌, ◌↔◌, ◌++◌, IsTrue, length, drop, option_map, Some, IfSome, IsPermutation};
ghost use Rattle.tree_model.specs.Tree.{first_key};
ghost use Rattle.judge.specs.Working.Locations.{paths, rests, PathsAscend, AllBegin, NextIs, NextIsNot};

use bumpalo::Bump;
use json_tree::Key;
use path_capture::Path;
use tree_model::MAX_DEPTH;

/// Sorts locations: n · log n comparisons.
pub(crate) fn sort<'a>(locations: &mut Vec<&'a Path, &'a Bump>)
    ensures permutation { IsPermutation locations.old.items locations.new.items }
    ensures ascending { PathsAscend (paths locations.new.items) }
{
    locations.sort_unstable_by(|a, b| a.compare(b));
}

/// The key of a location, so many keys down.
pub(crate) fn key_at(location: &Path, depth: usize) -> Option<&Key>
    ensures key { option_map (λ key. key.now) result ≡ first_key (drop depth location.now) }
    ensures room { IfSome result (λ _. depth < MAX_DEPTH) }
{
    location.keys().get(depth)
}

// Whether what is left of a location, so many keys down, begins with this key.
fn begins(location: &Path, depth: usize, key: &Key) -> bool
    ensures { IsTrue result ↔ (first_key (drop depth location.now) ≡ Some key.now) }
{
    match key_at(location, depth) {
        Some(found) => found.text() == key.text(),
        None => false,
    }
}

// The locations that go on with the key of the first one, and the others.
fn split<'a>(locations: &'a [&'a Path], depth: usize, key: &Key) -> (&'a [&'a Path], &'a [&'a Path])
    requires { NextIs key.now (rests depth (paths locations.now)) }
    ensures parts { paths locations.now ≡ paths result.0.now ++ paths result.1.now }
    ensures begins { AllBegin key.now depth (paths result.0.now) }
    ensures some { 1 ≤ length result.0.now }
    ensures next { NextIsNot key.now (rests depth (paths result.1.now)) }
    ensures behind { result.1.now ≡ drop (length result.0.now) locations.now }
{
    let mut end = 1;
    while end < locations.len() && begins(locations[end], depth, key) {
        end += 1;
    }
    locations.split_at(end)
}

/// The locations from a place on that go on with the key of the first one: a comparison for each.
pub(crate) fn group<'a>(
    locations: &'a [&'a Path],
    start: usize,
    depth: usize,
    key: &Key,
) -> &'a [&'a Path]
    requires within { start ≤ length locations.now }
    requires next { NextIs key.now (rests depth (paths (drop start locations.now))) }
    ensures parts { paths (drop start locations.now) ≡ paths result.now ++ paths (drop (start + length result.now) locations.now) }
    ensures begins { AllBegin key.now depth (paths result.now) }
    ensures some { 1 ≤ length result.now }
    ensures within { start + length result.now ≤ length locations.now }
    ensures next { NextIsNot key.now (rests depth (paths (drop (start + length result.now) locations.now))) }
{
    let (_, rest) = locations.split_at(start);
    let (group, _) = split(rest, depth, key);
    group
}
