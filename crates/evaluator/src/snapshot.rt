//! A snapshot: a location of a tree.
ghost use Rattle.std.specs.Prelude.{◌≡◌, ◌<◌, ◌≤◌, [], true, IfOk, IfSome, IfNone, IsSome, Some, Err, option_map, length};
ghost use Rattle.std.specs.Bool.{OnTrue};
ghost use Rattle.tree_model.specs.declared.limits.TheConstants.{MAX_DEPTH};
ghost use Rattle.tree_model.specs.Key.{is_key};
ghost use Rattle.tree_model.specs.PathMap.{sub};
ghost use Rattle.tree_model.specs.Tree.{non_null};
ghost use Rattle.json_tree.specs.Leaf.{primitive_of};
ghost use Rattle.path_capture.specs.Write.{tree_or_null};
ghost use Rattle.evaluator.specs.Snapshot.{root_of, below, parent_at, exists_at, primitive_at, val_at, has_children_at, child_at};
ghost use Rattle.evaluator.specs.Value as meanings;
ghost use Rattle.evaluator.specs.Working.Answers.{Gives};
ghost use Rattle.evaluator.specs.Parts.{value_of};
ghost use Rattle.evaluator.specs.Working.Parts.{result_of};
ghost use Rattle.evaluator.specs.Working.Places.{down, stepped};

use crate::value::{Stop, Value, of_leaf};
use arena_snapshot::View;
use bumpalo::Bump;
use json_tree::{Leaf, NoMemory, is_lawful_key};
use std::marker::Model;
use tree_model::MAX_DEPTH;

/// A location of a tree: what stands there, and the location above with the key between, so that
/// nothing is looked up twice. Of a location that is only passed, nothing is looked up. Contracts see the whole
/// tree and the path, of at most 32 keys. (Reference, `RuleDataSnapshot`.)
#[cycle(snapshot)]
#[derive(Drop)]
pub struct Snapshot<'a> {
    // None also where it was not looked up.
    view: Option<View<'a>>,
    depth: usize,
    above: Above<'a>,
}

#[cycle(snapshot)]
#[derive(Drop)]
pub(crate) enum Above<'a> {
    Nothing,
    Parent(&'a Snapshot<'a>, &'a str),
    // What stands below this key was not looked up.
    Passed(&'a Snapshot<'a>, &'a str),
}

/// What is found where a location is wanted. A call hands it back in two registers, while it writes a `Result` of a
/// reference and a [`Stop`] to memory.
#[derive(Clone, Copy)]
pub(crate) enum Found<'a> {
    At(&'a Snapshot<'a>),
    Erred,
    NoMemory,
}

impl<'a> Found<'a> {
    // What a result says.
    pub(crate) fn of(found: Result<&'a Snapshot<'a>, Stop>) -> Found<'a>
        ensures { result_of result ≡ found.entry }
    {
        match found {
            Ok(at) => Found::At(at),
            Err(stop) => Found::stopped(stop),
        }
    }

    pub(crate) fn stopped(stop: Stop) -> Found<'a>
        ensures { result_of result ≡ Err stop }
    {
        match stop {
            Stop::Erred => Found::Erred,
            Stop::NoMemory => Found::NoMemory,
        }
    }

    // The same as a result.
    pub(crate) fn get(self) -> Result<&'a Snapshot<'a>, Stop>
        ensures { result ≡ result_of self.entry }
    {
        match self {
            Found::At(at) => Ok(at),
            Found::Erred => Err(Stop::Erred),
            Found::NoMemory => Err(Stop::NoMemory),
        }
    }
}

impl<'a> Model for Snapshot<'a> {
    ghost use Rattle.std.specs.Prelude.{length};
    ghost use Rattle.std.specs.Coded.{coded×, coded_list, coded_ℕ};
    ghost use Rattle.tree_model.specs.Tree.{tree_code};
    ghost use Rattle.evaluator.specs.Value as values;

    ghost Value = { values.Snapshot };

    ghost coded = { coded× tree_code (coded_list (coded_list coded_ℕ)) };

    ghost use Rattle.evaluator.specs.Working.Places.{snapshot_of, is_seen, IsPlace};

    ghost view = { λ s. snapshot_of s.view s.above };

    ghost invariant = { λ s. IsPlace s.view (is_seen s.above) s.depth (snapshot_of s.view s.above) };

    ghost size = { λ s. length s.1 };

    ghost use Rattle.std.proofs.Common.{arith, length-append};

    ghost size_decreases = { λ s h. Prim.grind (arith, length-append) };
}

impl<'a> Snapshot<'a> {
    /// The root of a tree. It takes no memory.
    pub fn root(view: Option<View<'a>>) -> Snapshot<'a>
        ensures { result ≡ (tree_or_null view.entry, []) }
    {
        at_root(&view);
        Snapshot {
            view,
            depth: 0,
            above: Above::Nothing,
        }
    }

    /// The location one key further down, by one look-up among the children, and in what was only passed above it;
    /// it is placed in the arena.
    #[inline(always)]
    pub fn below(&'a self, arena: &'a Bump, key: &'a str) -> Result<&'a Snapshot<'a>, NoMemory>
        requires { length self.now.1 < MAX_DEPTH }
        ensures { IfOk result (λ s. s.now ≡ below self.now key.now) }
    {
        self.placed(arena, key, child_of(self.view(), key))
    }

    /// The same location, placed in the arena without a look-up: for one that nobody is expected to ask about.
    /// Each time that it is asked what stands there, it is looked up, and so is what was passed above it.
    #[inline(always)]
    pub fn passed(&'a self, arena: &'a Bump, key: &'a str) -> Result<&'a Snapshot<'a>, NoMemory>
        requires { length self.now.1 < MAX_DEPTH }
        ensures { IfOk result (λ s. s.now ≡ below self.now key.now) }
    {
        Ok(arena.try_alloc(Snapshot {
            view: None,
            depth: self.depth + 1,
            above: Above::Passed(self, key),
        })?)
    }

    // The same as `below`, where what stands there is known.
    fn placed(
        &'a self,
        arena: &'a Bump,
        key: &'a str,
        child: Option<View<'a>>,
    ) -> Result<&'a Snapshot<'a>, NoMemory>
        requires room { length self.now.1 < MAX_DEPTH }
        requires child { child ≡ down key.now (non_null (sub self.now.0 self.now.1)) }
        ensures { IfOk result (λ s. s.now ≡ below self.now key.now) }
    {
        Ok(arena.try_alloc(Snapshot {
            view: child,
            depth: self.depth + 1,
            above: Above::Parent(self, key),
        })?)
    }

    /// What stands there, if anything does: in constant time, but for a location that was only passed.
    #[cycle(look)]
    #[inline(always)]
    pub fn view(&self) -> Option<View<'a>>
        ensures { result ≡ non_null (sub self.now.0 self.now.1) }
    {
        match self.above {
            Above::Passed(above, key) => looked_up(above, key),
            Above::Nothing | Above::Parent(_, _) => shared(&self.view),
        }
    }

    /// How many keys the path has, in constant time.
    pub fn depth(&self) -> usize
        ensures depth { result ≡ length self.now.1 }
        ensures room { result ≤ MAX_DEPTH }
    {
        self.depth
    }

    /// The location above, but of the root, in constant time.
    pub fn parent(&self) -> Option<&'a Snapshot<'a>>
        ensures { option_map (λ s. s.now) result ≡ parent_at self.now }
    {
        match self.above {
            Above::Nothing => None,
            Above::Parent(above, _) => Some(above),
            Above::Passed(above, _) => Some(above),
        }
    }

    /// The last key of the path, but of the root, in constant time.
    pub fn key(&self) -> Option<&'a str>
        ensures some { IfSome result (λ key. (above : meanings.Snapshot) × (self.now ≡ below above key.now)) }
        ensures none { IfNone result (self.now.1 ≡ []) }
    {
        match self.above {
            Above::Nothing => None,
            Above::Parent(_, key) => Some(key),
            Above::Passed(_, key) => Some(key),
        }
    }

    /// What `val()` gives there: in constant time, but for a location that was only passed.
    pub fn val(&self) -> Value<'a>
        ensures { value_of result ≡ val_at self.now }
    {
        val_at(self)
    }

    /// The root of the same tree, by a step up for each key.
    #[cycle(top)]
    pub fn top(&'a self) -> &'a Snapshot<'a>
        ensures { result.now ≡ root_of self.now }
    {
        match self.above {
            Above::Nothing => self,
            Above::Parent(above, _) | Above::Passed(above, _) => above.top(),
        }
    }
}

// What stands in a tree stands at its root.
fn at_root(view: &Option<View>)
    ensures { view.now ≡ non_null (sub (tree_or_null view.now) []) }
{
    match view {
        Some(view) => view.law(),
        None => {}
    }
}

// The same view once more, if there is one.
fn shared<'a>(view: &Option<View<'a>>) -> Option<View<'a>>
    ensures { result ≡ view.now }
{
    match view {
        Some(view) => Some(view.share()),
        None => None,
    }
}

// What stands at the key below a location. It stays a function of its own, since room for the way there would be
// made and cleared in each function that looks.
#[cycle(look)]
#[inline(never)]
fn looked_up<'a>(above: &Snapshot<'a>, key: &str) -> Option<View<'a>>
    ensures { result ≡ non_null (sub (below above.now key.now).0 (below above.now key.now).1) }
{
    child_of(above.view(), key)
}

// What stands at the key below. Where something does, the text is a lawful key, as all are in a tree.
fn child_of<'a>(view: Option<View<'a>>, key: &str) -> Option<View<'a>>
    ensures child { result ≡ down key.now view.entry }
    ensures lawful { IsSome result → is_key key.now ≡ true }
{
    match view {
        None => None,
        Some(view) => {
            view.law();
            view.child(key)
        }
    }
}

// ---- what is asked of it

#[inline(always)]
pub(crate) fn exists_at(place: &Snapshot) -> bool
    ensures { result ≡ exists_at place.now }
{
    place.view().is_some()
}

#[inline(always)]
pub(crate) fn primitive_at<'a>(place: &Snapshot<'a>) -> Option<&'a Leaf>
    ensures { option_map (λ leaf. primitive_of leaf.now) result ≡ primitive_at place.now }
{
    match place.view() {
        None => None,
        Some(view) => view.leaf(),
    }
}

#[inline(always)]
pub(crate) fn val_at<'a>(place: &Snapshot<'a>) -> Value<'a>
    ensures { value_of result ≡ val_at place.now }
{
    if !exists_at(place) {
        return Value::Null;
    }
    match primitive_at(place) {
        None => Value::Sentinel,
        Some(leaf) => of_leaf(leaf),
    }
}

pub(crate) fn has_children_at(place: &Snapshot) -> bool
    ensures { result ≡ has_children_at place.now }
{
    match place.view() {
        None => false,
        Some(view) => {
            view.law();
            view.leaf().is_none()
        }
    }
}

// The location at a text of keys: a look-up and a place in the arena for each key. Most texts are one key, and
// most of these stand there.
pub(crate) fn child_at<'a>(arena: &'a Bump, place: &'a Snapshot<'a>, text: &'a str) -> Found<'a>
    ensures { Gives (result_of result) (λ at. at.now) (child_at place.now text.now) }
{
    let child = child_of(place.view(), text);
    if is_key_of(&child, text) {
        place.depth();
        return Found::of(at_key(arena, place, text, child));
    }
    Found::of(at_keys(arena, place, text))
}

// The same, by one key after another. It stays a function of its own, as the next one does, since most texts are the key
// of a child, and room for several would be made and cleared for each.
#[inline(never)]
pub(crate) fn at_keys<'a>(
    arena: &'a Bump,
    place: &'a Snapshot<'a>,
    text: &'a str,
) -> Result<&'a Snapshot<'a>, Stop>
    ensures { Gives result (λ at. at.now) (child_at place.now text.now) }
{
    place.depth();
    let mut at = step(arena, place, "")?;
    for piece in text.split('/') {
        at = step(arena, at, piece)?;
    }
    Ok(at)
}

// Whether something exists at a text of keys. Where the text is the key of a child it does, and no place is taken.
#[inline(never)]
pub(crate) fn exists_below<'a>(
    arena: &'a Bump,
    place: &'a Snapshot<'a>,
    text: &'a str,
) -> Result<bool, Stop>
    ensures { Gives result (λ there. there) (option_map exists_at (child_at place.now text.now)) }
{
    if is_child(place, text) {
        return Ok(true);
    }
    Ok(exists_at(child_at(arena, place, text).get()?))
}

// Whether a text is the key of a child, in a path that has room for it.
fn is_child(place: &Snapshot, text: &str) -> bool
    ensures { OnTrue result (option_map exists_at (child_at place.now text.now) ≡ Some true) }
{
    child_of(place.view(), text).is_some() && place.depth() < MAX_DEPTH
}

fn step<'a>(
    arena: &'a Bump,
    place: &'a Snapshot<'a>,
    piece: &'a str,
) -> Result<&'a Snapshot<'a>, Stop>
    ensures { Gives result (λ at. at.now) (stepped place.now piece.now) }
{
    if piece.is_empty() {
        return Ok(place);
    }
    let child = child_of(place.view(), piece);
    if !is_key_of(&child, piece) {
        return Err(Stop::Erred);
    }
    at_key(arena, place, piece, child)
}

// Whether a text is a lawful key. The text of a child is, without a look at it.
fn is_key_of(child: &Option<View>, text: &str) -> bool
    requires { IsSome child.now → is_key text.now ≡ true }
    ensures { result ≡ is_key text.now }
{
    child.is_some() || is_lawful_key(text)
}

// The location one key further down, where this child stands, if there is room for it.
fn at_key<'a>(
    arena: &'a Bump,
    place: &'a Snapshot<'a>,
    key: &'a str,
    child: Option<View<'a>>,
) -> Result<&'a Snapshot<'a>, Stop>
    requires key { is_key key.now ≡ true }
    requires child { child ≡ down key.now (non_null (sub place.now.0 place.now.1)) }
    ensures { Gives result (λ at. at.now) (stepped place.now key.now) }
{
    if place.depth() >= MAX_DEPTH {
        return Err(Stop::Erred);
    }
    Ok(place.placed(arena, key, child)?)
}
