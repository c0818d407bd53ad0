//! The tree that writes propose at a moment, laid over the stored one. The writes are taken in the order of their
//! paths, so that those below one key stand together.
ghost use Rattle.std.specs.Prelude.{◌≡◌, ◌<◌, ◌≤◌, ◌∷◌, [], None, true, false, not, length, map, drop, pos, IfOk};
ghost use Rattle.std.specs.Bool.{OnTrue, OnFalse};
ghost use Rattle.std.specs.List.{list_any, AllByRecursion, AllWithin, HoldsAt};
ghost use Rattle.std.specs.List.Sorted.{IsPermutation, IsSortedBy};
ghost use Rattle.std.specs.Ordering.{is_lt};
ghost use Rattle.tree_model.specs.Path.{path_cmp, is_prefix, is_root};
ghost use Rattle.tree_model.specs.PathMap.{get, is_null};
ghost use Rattle.tree_model.specs.Primitive.{Primitive, is_whole};
ghost use Rattle.tree_model.specs.Tree.{lone, non_null, IsLawful};
ghost use Rattle.tree_model.specs.Put.{location, written, overlaps, merged, IsLawfulPut};
ghost use Rattle.tree_model.specs.Draft.{tree_at};
ghost use Rattle.tree_model.specs.Write.{proposed, IsLawfulWrite};
ghost use Rattle.arena_snapshot.specs.View.{node_or_null};
ghost use Rattle.arena_snapshot.specs.Working.Left.{left, Ascend};

use crate::layer::Layer;
use crate::moments::at_moment;
use crate::patches::stored_place;
use crate::view::View;
use bumpalo::Bump;
use json_tree::{Key, NoMemory, Node};
use path_capture::Write;

// For how many children a layer has room at first: the writes of an update share most of their keys.
const USUAL_PATCHES: usize = 4;

/// The tree that these writes propose in a step at this moment, in milliseconds, if anything is left. A draft without
/// a moment is borrowed; in another one the number is laid over each moment's place. For one write of d keys it takes time d ·
/// log w in nodes of w children, and two growths of the arena for each key, whatever w is; for n writes
/// the sum of these, one growth for a list of them, and n · log n comparisons of their paths, which are
/// sorted once. With no writes it takes no memory. A stored tree of more locations or
/// children than a `usize` counts is answered as want of memory, since no memory holds one.
pub fn overlay<'a>(
    arena: &'a Bump,
    base: Option<&'a Node>,
    writes: &'a [Write],
    now: u64,
) -> Result<Option<View<'a>>, NoMemory>
    requires apart { overlaps writes.now ≡ false }
    requires moment { is_whole (pos now) ≡ true }
    ensures { IfOk result (λ view. view ≡ non_null (proposed (node_or_null base.entry) writes.now now)) }
{
    match writes {
        [write] => lay_one(arena, base, write, now),
        _ => lay_all(arena, base, writes, now),
    }
}

// The same of one write, which makes no list.
fn lay_one<'a>(
    arena: &'a Bump,
    base: Option<&'a Node>,
    write: &'a Write,
    now: u64,
) -> Result<Option<View<'a>>, NoMemory>
    requires { is_whole (pos now) ≡ true }
    ensures { IfOk result (λ view. view ≡ non_null (proposed (node_or_null base.entry) (write.now ∷ []) now)) }
{
    write.at();
    lay(arena, base, &[write], now, 0)
}

// The same of writes in the order of their locations.
fn lay_all<'a>(
    arena: &'a Bump,
    base: Option<&'a Node>,
    writes: &'a [Write],
    now: u64,
) -> Result<Option<View<'a>>, NoMemory>
    requires apart { overlaps writes.now ≡ false }
    requires moment { is_whole (pos now) ≡ true }
    ensures { IfOk result (λ view. view ≡ non_null (proposed (node_or_null base.entry) writes.now now)) }
{
    let mut sorted = borrowed(arena, writes)?;
    sort(&mut sorted);
    lay(arena, base, &sorted, now, 0)
}

// Each of the writes, borrowed.
fn borrowed<'a>(arena: &'a Bump, writes: &'a [Write]) -> Result<Vec<&'a Write, &'a Bump>, NoMemory>
    ensures same { IfOk result (λ borrowed. map (λ write. write.now) borrowed.items ≡ writes.now) }
    ensures lawful { IfOk result (λ borrowed. AllByRecursion IsLawfulWrite (map (λ write. write.now) borrowed.items)) }
{
    let mut borrowed = Vec::with_capacity(arena, writes.len())?;
    for write in writes {
        write.at();
        borrowed.push(write)?;
    }
    Ok(borrowed)
}

fn sort<'a>(writes: &mut Vec<&'a Write, &'a Bump>)
    ensures permutation { IsPermutation writes.old.items writes.new.items }
    ensures ascending { IsSortedBy (λ a b. is_lt (path_cmp (location a.now) (location b.now))) writes.new.items }
{
    writes.sort_unstable_by(|a, b| a.at().compare(b.at()));
}

// What writes propose of a node, or of nothing, where the first `depth` keys of their locations lead
// to it.
#[cycle(lay)]
#[inline(always)]
fn lay<'a>(
    arena: &'a Bump,
    base: Option<&'a Node>,
    writes: &[&'a Write],
    now: u64,
    depth: usize,
) -> Result<Option<View<'a>>, NoMemory>
    requires moment { is_whole (pos now) ≡ true }
    requires apart { overlaps (map (left now depth) writes.now) ≡ false }
    requires ascending { Ascend (map (left now depth) writes.now) }
    requires lawful { AllByRecursion IsLawfulPut (map (left now depth) writes.now) }
    ensures { IfOk result (λ view. view
        ≡ non_null (merged (node_or_null base.entry) (map (left now depth) writes.now))) }
{
    match writes {
        [] => Ok(stored(base)),
        [first, ..] => {
            if ends_at(first, depth) {
                return shown(arena, first, now);
            }
            if !is_primitive(base) {
                return lay_below(arena, base, writes, now, depth);
            }
            if has_tree(writes) {
                return lay_below(arena, None, writes, now, depth);
            }
            Ok(stored(base))
        }
    }
}

// The same of writes below a node that is no primitive, or below nothing: a child is laid for each
// key that a write goes on with.
#[cycle(lay)]
fn lay_below<'a>(
    arena: &'a Bump,
    base: Option<&'a Node>,
    writes: &[&'a Write],
    now: u64,
    depth: usize,
) -> Result<Option<View<'a>>, NoMemory>
    requires root { get (node_or_null base) [] ≡ None }
    requires stored { IsLawful (node_or_null base) }
    requires moment { is_whole (pos now) ≡ true }
    requires apart { overlaps (map (left now depth) writes.now) ≡ false }
    requires ascending { Ascend (map (left now depth) writes.now) }
    requires lawful { AllByRecursion IsLawfulPut (map (left now depth) writes.now) }
    requires below { list_any (λ w. is_root (location w)) (map (left now depth) writes.now) ≡ false }
    ensures { IfOk result (λ view. view
        ≡ non_null (merged (node_or_null base.entry) (map (left now depth) writes.now))) }
{
    let mut layer = Layer::new(arena, base, writes.len().min(USUAL_PATCHES))?;
    let mut start = 0;
    while start < writes.len() {
        let key = key_of(writes[start], depth);
        let end = run_end(writes, start, depth, key);
        let stored = stored_place(base, key);
        let child = lay(arena, stored.child, &writes[start..end], now, depth + 1)?;
        layer.push(key, stored, child)?;
        start = end;
    }
    layer.finish()
}

// What a write puts, if it is not null.
fn shown<'a>(arena: &'a Bump, write: &'a Write, now: u64) -> Result<Option<View<'a>>, NoMemory>
    requires { is_whole (pos now) ≡ true }
    ensures { IfOk result (λ view. view ≡ non_null (tree_at now (written write.now))) }
{
    match write.tree() {
        Some(draft) => Ok(Some(at_moment(arena, &draft.as_ref(), now)?)),
        None => Ok(None),
    }
}

// The stored tree of an optional node.
pub(crate) fn stored<'a>(node: Option<&'a Node>) -> Option<View<'a>>
    ensures { result ≡ non_null (node_or_null node.entry) }
{
    match node {
        Some(node) => {
            node.law();
            Some(View::stored(node))
        }
        None => None,
    }
}

// Whether a primitive stands there.
fn is_primitive(base: Option<&Node>) -> bool
    ensures primitive { OnTrue result ((v : Primitive) × (node_or_null base.entry ≡ lone v)) }
    ensures parent { OnFalse result (get (node_or_null base.entry) [] ≡ None) }
    ensures lawful { IsLawful (node_or_null base.entry) }
{
    match base {
        Some(node) => {
            node.law();
            match node.leaf() {
                Some(_) => true,
                None => false,
            }
        }
        None => false,
    }
}

// Whether some write puts a tree.
fn has_tree(writes: &[&Write]) -> bool
    ensures { result ≡ list_any (λ write. not (is_null (written write.now))) writes.now }
{
    writes.iter().any(|write| puts_tree(write))
}

fn puts_tree(write: &Write) -> bool
    ensures { result ≡ not (is_null (written write.now)) }
{
    match write.tree() {
        Some(_) => true,
        None => false,
    }
}

// Whether the location has no more keys than these.
fn ends_at(write: &Write, depth: usize) -> bool
    ensures { result ≡ is_root (drop depth (location write.now)) }
{
    write.at().keys().len() <= depth
}

// The key that the location goes on with.
fn key_of<'a>(write: &'a Write, depth: usize) -> &'a Key
    requires { is_root (drop depth (location write.now)) ≡ false }
    ensures key { is_prefix (result.now ∷ []) (drop depth (location write.now)) ≡ true }
    ensures room { depth < usize.MAX }
{
    &write.at().keys()[depth]
}

// Where the writes end that stand from an index on and go on with this key, as the first of them does.
fn run_end(writes: &[&Write], start: usize, depth: usize, key: &Key) -> usize
    requires low { start < length writes.now }
    requires first { HoldsAt (λ write. is_prefix (key.now ∷ []) (drop depth (location write.now)) ≡ true) writes.now start }
    ensures order { start ≤ result }
    ensures within { result ≤ length writes.now }
    ensures run { AllWithin (λ write. is_prefix (key.now ∷ []) (drop depth (location write.now)) ≡ true) writes.now start result }
    ensures stop { result < length writes.now → HoldsAt (λ write. is_prefix (key.now ∷ []) (drop depth (location write.now)) ≡ false) writes.now result }
{
    let mut end = start + 1;
    while end < writes.len() {
        if !goes_on(writes[end], depth, key) {
            return end;
        }
        end += 1;
    }
    end
}

fn goes_on(write: &Write, depth: usize, key: &Key) -> bool
    ensures { result ≡ is_prefix (key.now ∷ []) (drop depth (location write.now)) }
{
    match write.at().keys().get(depth) {
        Some(found) => found.text() == key.text(),
        None => false,
    }
}
