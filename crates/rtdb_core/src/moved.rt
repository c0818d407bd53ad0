//! Whether what stands at a place has changed by a step, and whether what is selected there has moved. What was found
//! of places is kept, and of a few queries, since many listeners ask about the same.
ghost use Rattle.std.specs.Prelude.{◌≡◌, ◌≢◌, Option, Some, option_map, IfOk, IfSome};
ghost use Rattle.std.specs.Bool.{OnTrue, OnFalse};
ghost use Rattle.tree_model.specs.PathMap.{sub};
ghost use Rattle.tree_model.specs.Tree.{non_null};
ghost use Rattle.path_capture.specs.Write.{tree_or_null};
ghost use Rattle.listeners.specs.Selection.{selection};
ghost use Rattle.rtdb_model.specs.Rejudged.{moves, same_tree};
ghost use Rattle.rtdb_core.specs.Working.Passages.{IsPassage, tree_before, tree_after};

use crate::children::{a_child_moves, reach_few_children};
use crate::passage::{Passage, changes_at};
use crate::scratch::Scratch;
use crate::selected::stored;
use arena_snapshot::{View, same};
use bumpalo::Bump;
use json_tree::{Key, NoMemory};
use listeners::{Query, select};
use path_capture::{Path, Write, compare_keys, is_prefix_of};
use std::marker::Model;

/// Of how many queries is kept what was found: of the first ones that are asked for.
const MAX_FOUND: usize = 8;

/// Whether what stands at a place has changed.
#[derive(Clone, Copy)]
pub(crate) struct Known<'s> {
    place: &'s [Key],
    has_changed: bool,
}

/// What was found of a query at a path.
#[derive(Clone, Copy)]
pub(crate) struct Found<'s> {
    path: &'s Path,
    query: &'s Query,
    moved: bool,
}

/// Which selections are moved by a step. Contracts see the tree before it and the tree after it.
#[derive(Drop)]
pub(crate) struct Moved<'a, 'p, 's> {
    passage: &'p Passage<'p>,
    // In the order of the places.
    known: Vec<Known<'s>, &'a Bump>,
    found: Vec<Found<'s>, &'a Bump>,
}

impl<'a, 'p, 's> Model for Moved<'a, 'p, 's> {
    ghost use Rattle.std.specs.Coded.{coded×};
    ghost use Rattle.tree_model.specs.Tree.{Tree, tree_code};
    ghost use Rattle.rtdb_core.specs.Working.Passages.{IsPassage, tree_before, tree_after};
    ghost use Rattle.rtdb_core.specs.Working.Moved.{AreFound, AreKnown};

    ghost Value = { Tree × Tree };

    ghost coded = { coded× tree_code tree_code };

    ghost view = { λ moved. (tree_before moved.passage.now, tree_after moved.passage.now) };

    ghost invariant = { λ moved. IsPassage moved.passage.now × AreFound (tree_before moved.passage.now) (tree_after moved.passage.now) moved.found.items × AreKnown (tree_before moved.passage.now) (tree_after moved.passage.now) moved.known.items };
}

impl<'a, 'p, 's> Moved<'a, 'p, 's> {
    /// The selections that this step moves. It takes no memory.
    pub(crate) fn by(arena: &'a Bump, passage: &'p Passage<'p>) -> Moved<'a, 'p, 's>
        requires { IsPassage passage.now }
        ensures { result ≡ (tree_before passage.now, tree_after passage.now) }
    {
        Moved {
            passage,
            known: Vec::new(arena),
            found: Vec::new(arena),
        }
    }

    /// Whether another tree stands at a place after the step. What was found is kept, so that the writes are compared
    /// once with what stands there, however many ask.
    pub(crate) fn has_changed(&mut self, place: &'s [Key]) -> bool
        ensures changed { OnTrue result (sub self.old.1 place.now ≢ sub self.old.0 place.now) }
        ensures unchanged { OnFalse result (sub self.old.1 place.now ≡ sub self.old.0 place.now) }
        ensures same { self.new ≡ self.old }
    {
        if is_elsewhere(self.passage.writes, place) {
            return changes_at(self.passage, place);
        }
        let index = index_of(&self.known, place);
        if let Some(has_changed) = self.known_at(index, place) {
            return has_changed;
        }
        let has_changed = changes_at(self.passage, place);
        self.note(index, place, has_changed);
        has_changed
    }

    // What is known of a place, which stands at this index if anything is.
    fn known_at(&self, index: usize, place: &[Key]) -> Option<bool>
        ensures changed { IfSome result (λ has_changed. OnTrue has_changed (sub self.now.1 place.now ≢ sub self.now.0 place.now)) }
        ensures unchanged { IfSome result (λ has_changed. OnFalse has_changed (sub self.now.1 place.now ≡ sub self.now.0 place.now)) }
    {
        let known = self.known.get(index)?;
        if compare_keys(known.place, place).is_eq() {
            Some(known.has_changed)
        } else {
            None
        }
    }

    // Keeps what was found of a place, where there is memory for it.
    fn note(&mut self, index: usize, place: &'s [Key], has_changed: bool)
        requires changed { OnTrue has_changed (sub self.old.1 place.now ≢ sub self.old.0 place.now) }
        requires unchanged { OnFalse has_changed (sub self.old.1 place.now ≡ sub self.old.0 place.now) }
        ensures { self.new ≡ self.old }
    {
        let index = index.min(self.known.len());
        let _ = self.known.insert(index, Known { place, has_changed });
    }

    /// Whether what a query selects of a path has moved, without a query all that stands there. It takes
    /// memory where more has changed there than a few children, and it is not known of the query.
    pub(crate) fn has(
        &mut self,
        scratch: &mut Scratch<'_>,
        path: &'s Path,
        query: Option<&'s Query>,
    ) -> Result<bool, NoMemory>
        ensures moved { IfOk result (λ moved. moved ≡ moves self.old.0 self.old.1 path.now (option_map (λ query. query.now) query.entry)) }
        ensures same { self.new ≡ self.old }
    {
        if !self.has_changed(path.keys()) {
            return Ok(false);
        }
        let Some(query) = query else {
            return Ok(true);
        };
        if let Some(moved) = self.find(path, query) {
            return Ok(moved);
        }
        let moved = selection_moves(scratch, self.passage, path, query)?;
        self.keep(path, query, moved);
        Ok(moved)
    }

    // What was found of a query at a path.
    fn find(&self, path: &Path, query: &Query) -> Option<bool>
        ensures { IfSome result (λ moved. moved ≡ moves self.now.0 self.now.1 path.now (Some query.now)) }
    {
        for found in self.found.as_slice() {
            if found.query.is_same(query) && found.path.compare(path).is_eq() {
                return Some(found.moved);
            }
        }
        None
    }

    // Keeps what was found of a query at a path, where there is room and memory for it.
    fn keep(&mut self, path: &'s Path, query: &'s Query, moved: bool)
        requires { moved ≡ moves self.old.0 self.old.1 path.now (Some query.now) }
        ensures { self.new ≡ self.old }
    {
        if self.found.len() < MAX_FOUND {
            let _ = self.found.push(Found { path, query, moved });
        }
    }
}

// Whether there is no write, or one alone that is neither above nor below a place, so that nothing is worth keeping.
fn is_elsewhere(writes: &[Write], place: &[Key]) -> bool {
    match writes {
        [] => true,
        [write] => {
            let at = write.at().keys();
            !is_prefix_of(at, place) && !is_prefix_of(place, at)
        }
        _ => false,
    }
}

// How many places stand before this one.
fn index_of(known: &[Known<'_>], place: &[Key]) -> usize {
    known.partition_point(|one| compare_keys(one.place, place).is_lt())
}

// Whether what a query selects of a path has moved.
fn selection_moves(
    scratch: &mut Scratch<'_>,
    passage: &Passage<'_>,
    path: &Path,
    query: &Query,
) -> Result<bool, NoMemory>
    requires { IsPassage passage.now }
    ensures { IfOk result (λ moved. moved ≡ moves (tree_before passage.now) (tree_after passage.now) path.now (Some query.now)) }
{
    if reach_few_children(passage.writes, path) {
        return Ok(a_child_moves(passage, path, query));
    }
    compared(scratch.arena()?, passage, path, query)
}

// The same, by the selections before and after.
fn compared(
    arena: &Bump,
    passage: &Passage<'_>,
    path: &Path,
    query: &Query,
) -> Result<bool, NoMemory>
    requires { IsPassage passage.now }
    ensures { IfOk result (λ moved. moved ≡ moves (tree_before passage.now) (tree_after passage.now) path.now (Some query.now)) }
{
    let before = selected(arena, &stored(passage.base), path, query)?;
    let after = selected(arena, &passage.coming, path, query)?;
    Ok(!are_same(&before, &after))
}

fn selected<'a>(
    arena: &'a Bump,
    tree: &Option<View<'a>>,
    path: &Path,
    query: &Query,
) -> Result<Option<View<'a>>, NoMemory>
    ensures { IfOk result (λ found. found ≡ non_null (selection (sub (tree_or_null tree.now) path.now) (Some query.now))) }
{
    let found = match tree {
        Some(tree) => tree.at(path),
        None => None,
    };
    select(arena, found, Some(query))
}

fn are_same(one: &Option<View<'_>>, other: &Option<View<'_>>) -> bool
    ensures { result ≡ same_tree (tree_or_null one.now) (tree_or_null other.now) }
{
    match (one, other) {
        (Some(one), Some(other)) => same(one, other),
        (None, None) => true,
        (Some(one), None) => {
            one.law();
            false
        }
        (None, Some(other)) => {
            other.law();
            false
        }
    }
}
