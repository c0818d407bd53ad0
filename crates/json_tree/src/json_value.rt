//! Trees of JSON values, and back.
ghost use Rattle.std.specs.Prelude.{◌≡◌, ◌↔◌, ◌+◌, ◌≤◌, ◌<◌, true, false, min, is_some, unwrap_or, Some, map, All, option_map, IfOk, OnOk, IfSome, IsErrOf, IsPermutation, IsSortedBy};
ghost use Rattle.std.specs.FinMap.{is_sorted};
ghost use Rattle.std.specs.Ordering.{is_lt};
ghost use Rattle.serde_json.specs.View.{view, number_view, items_view, members_view};
ghost use Rattle.tree_model.specs.Key.{key_cmp};
ghost use Rattle.tree_model.specs.PathMap.{depth};
ghost use Rattle.tree_model.specs.Tree.{null, lone, non_null};
ghost use Rattle.tree_model.specs.Children.{graft};
ghost use Rattle.json_tree.specs.Leaf.{primitive_of};
ghost use Rattle.json_tree.specs.Json.{whole_of, primitive_in, is_lawful, are_lawful_items, are_lawful_members, of_json, data_of, members_of, value_of};
ghost use Rattle.json_tree.specs.Working.Levels.{levels, levels_of_items, levels_of_members, raised};
ghost use Rattle.json_tree.specs.Working.Members.{members_at, children_of};
ghost use Rattle.json_tree.specs.declared.json_value.ValueFault.TheVariants.{NoMemory as no_memory};

use crate::key::{Key, is_lawful_key};
use crate::leaf::{Leaf, Number, is_lawful_text};
use crate::memory::NoMemory;
use crate::node::{Child, Node};
use serde_json::{Map, Value};
use std::alloc::Global;
use thiserror::Error;
use tree_model::MAX_DEPTH;

/// Why a value gives no tree.
#[derive(Clone, Copy, Debug, PartialEq, Eq, Error)]
pub enum ValueFault {
    /// Some key or primitive is not lawful.
    #[error("a key or a primitive is not lawful")]
    BadValue,
    /// Some primitive stands over 32 keys deep.
    #[error("a primitive stands over 32 keys deep")]
    TooDeep,
    #[error("out of memory")]
    NoMemory,
}

impl From<NoMemory> for ValueFault {
    ghost from_gives = { λ _ fault. fault ≡ no_memory };

    fn from(_refused: NoMemory) -> ValueFault {
        ValueFault::NoMemory
    }
}

// More levels than any lawful tree has: where counting stops.
const MANY_LEVELS: usize = MAX_DEPTH + 2;

/// The tree that a value describes, None for null. Null and empty objects vanish, and an array is
/// an object with the keys 0, 1, 2 and so on. Two passes, of which the first takes no memory: so
/// an unlawful value is always answered as one. The children of an array are sorted by their keys.
/// (Guide "Structure Your Database", how data is structured.)
pub fn from_json(alloc: Global, value: &Value) -> Result<Option<Node>, ValueFault>
    ensures lawful { OnOk result (is_lawful (view value.now) ≡ true) }
    ensures depth { OnOk result (depth (of_json (view value.now)) ≤ MAX_DEPTH) }
    ensures tree { IfOk result (λ node. node ≡ non_null (of_json (view value.now))) }
    ensures bad_value { IsErrOf result ValueFault.BadValue ↔ (is_lawful (view value.now) ≡ false) }
    ensures too_deep { IsErrOf result ValueFault.TooDeep ↔
        ((is_lawful (view value.now) ≡ true) × (MAX_DEPTH < depth (of_json (view value.now)))) }
{
    check(value)?;
    Ok(build(alloc, value)?)
}

/// The same of a value that is given away: what an object takes is given back as its members are built, so that the
/// value and its tree hardly ever take memory at once.
pub fn from_value(alloc: Global, value: Value) -> Result<Option<Node>, ValueFault>
    ensures lawful { OnOk result (is_lawful (view value) ≡ true) }
    ensures depth { OnOk result (depth (of_json (view value)) ≤ MAX_DEPTH) }
    ensures tree { IfOk result (λ node. node ≡ non_null (of_json (view value))) }
    ensures bad_value { IsErrOf result ValueFault.BadValue ↔ (is_lawful (view value) ≡ false) }
    ensures too_deep { IsErrOf result ValueFault.TooDeep ↔
        ((is_lawful (view value) ≡ true) × (MAX_DEPTH < depth (of_json (view value)))) }
{
    check(&value)?;
    Ok(build_owned(alloc, value)?)
}

/// The value of a tree, null for None: objects alone, with the primitives below them. One pass.
/// (This project's profile.)
pub fn to_json(alloc: Global, tree: Option<&Node>) -> Result<Value, NoMemory>
    ensures { IfOk result (λ value. view value
        ≡ value_of (unwrap_or (option_map (λ node. node.now) tree.entry) null)) }
{
    match tree {
        None => Ok(Value::Null),
        Some(node) => write(alloc, node),
    }
}

// ---- the first pass: whether all is lawful, and how deep it goes

// Whether a value gives a tree, and why not.
fn check(value: &Value) -> Result<(), ValueFault>
    ensures lawful { OnOk result (is_lawful (view value.now) ≡ true) }
    ensures room { OnOk result (levels (view value.now) ≤ MAX_DEPTH + 1) }
    ensures depth { OnOk result (depth (of_json (view value.now)) ≤ MAX_DEPTH) }
    ensures bad_value { IsErrOf result ValueFault.BadValue ↔ (is_lawful (view value.now) ≡ false) }
    ensures too_deep { IsErrOf result ValueFault.TooDeep ↔
        ((is_lawful (view value.now) ≡ true) × (MAX_DEPTH < depth (of_json (view value.now)))) }
    ensures memory { IsErrOf result ValueFault.NoMemory → ⊥ }
{
    match levels(value) {
        None => Err(ValueFault::BadValue),
        Some(count) => if MAX_DEPTH + 1 < count {
            Err(ValueFault::TooDeep)
        } else {
            Ok(())
        },
    }
}

// How many levels a lawful value has, counted up to `MANY_LEVELS`; None where it is not lawful.
#[cycle(levels)]
pub(crate) fn levels(value: &Value) -> Option<usize>
    ensures lawful { is_some result ≡ is_lawful (view value.now) }
    ensures count { IfSome result (λ n. n ≡ min (levels (view value.now)) MANY_LEVELS) }
{
    match value {
        Value::Null => Some(0),
        Value::Bool(_) => Some(1),
        Value::Number(number) => whole_of(number).map(|_| 1),
        Value::String(text) => if is_lawful_text(text.as_str()) {
            Some(1)
        } else {
            None
        },
        Value::Array(items) => levels_of_items(items),
        Value::Object(members) => levels_of_members(members),
    }
}

#[cycle(levels)]
fn levels_of_items(items: &Vec<Value>) -> Option<usize>
    ensures lawful { is_some result ≡ are_lawful_items (items_view items.now.items) }
    ensures count { IfSome result
        (λ n. n ≡ min (levels_of_items (items_view items.now.items)) MANY_LEVELS) }
{
    let mut most = 0;
    for item in items {
        most = most.max(raised(levels(item)?));
    }
    Some(most)
}

#[cycle(levels)]
fn levels_of_members(members: &Map<String, Value>) -> Option<usize>
    ensures lawful { is_some result ≡ are_lawful_members (members_view members.now.entries) }
    ensures count { IfSome result
        (λ n. n ≡ min (levels_of_members (members_view members.now.entries)) MANY_LEVELS) }
{
    let mut most = 0;
    for (name, member) in members.iter() {
        if !is_lawful_key(name.as_str()) {
            return None;
        }
        most = most.max(raised(levels(member)?));
    }
    Some(most)
}

// The levels of a member with so many, below its key.
pub(crate) fn raised(count: usize) -> usize
    requires { count ≤ MANY_LEVELS }
    ensures { result ≡ min (raised count) MANY_LEVELS }
{
    if count == 0 {
        0
    } else {
        MANY_LEVELS.min(count + 1)
    }
}

// The whole number that a number is, if it is one within the limits.
fn whole_of(number: &serde_json::Number) -> Option<Number>
    ensures { result ≡ whole_of (number_view number.now) }
{
    Number::new(number.as_i64()?)
}

// ---- the second pass: the tree of a lawful value

#[cycle(build)]
pub(crate) fn build(alloc: Global, value: &Value) -> Result<Option<Node>, NoMemory>
    requires lawful { is_lawful (view value.now) ≡ true }
    requires room { levels (view value.now) ≤ MAX_DEPTH + 1 }
    ensures { IfOk result (λ node. node ≡ non_null (of_json (view value.now))) }
{
    match value {
        Value::Null => Ok(None),
        Value::Bool(b) => alone(Leaf::Truth(*b)),
        Value::Number(number) => alone(Leaf::Whole(whole_of(number).unwrap())),
        Value::String(text) => alone(Leaf::words(alloc, text.as_str())?),
        Value::Array(items) => {
            let mut children = build_items(alloc, items)?;
            sort(&mut children);
            parent(children)
        }
        Value::Object(members) => parent(build_members(alloc, members)?),
    }
}

// The children of an array, in the order of their indices.
#[cycle(build)]
fn build_items(alloc: Global, items: &Vec<Value>) -> Result<Vec<Child>, NoMemory>
    requires lawful { are_lawful_items (items_view items.now.items) ≡ true }
    requires room { levels_of_items (items_view items.now.items) ≤ MAX_DEPTH + 1 }
    ensures { IfOk result
        (λ children. children.items ≡ children_of primitive_in (members_at 0 (items_view items.now.items))) }
{
    let mut children = Vec::with_capacity(alloc, items.len())?;
    for (index, item) in items.iter().enumerate() {
        let built = build(alloc, item)?;
        if let Some(node) = built {
            children.push(Child::new(alloc, Key::of_index(alloc, index)?, node)?)?;
        }
    }
    Ok(children)
}

// The children of an object, in the order of their keys.
#[cycle(build)]
fn build_members(alloc: Global, members: &Map<String, Value>) -> Result<Vec<Child>, NoMemory>
    requires lawful { are_lawful_members (members_view members.now.entries) ≡ true }
    requires room { levels_of_members (members_view members.now.entries) ≤ MAX_DEPTH + 1 }
    ensures children { IfOk result
        (λ children. children.items ≡ children_of primitive_in (members_view members.now.entries)) }
    ensures ascending { IfOk result (λ children. is_sorted key_cmp children.items ≡ true) }
{
    let mut children = Vec::with_capacity(alloc, members.len())?;
    for (name, member) in members.iter() {
        let built = build(alloc, member)?;
        if let Some(node) = built {
            children.push(Child::new(alloc, Key::of_lawful(alloc, name.as_str())?, node)?)?;
        }
    }
    Ok(children)
}

// The same of a value that is given away: objects are taken apart as their members are built.
#[cycle(build_owned)]
fn build_owned(alloc: Global, value: Value) -> Result<Option<Node>, NoMemory>
    requires lawful { is_lawful (view value) ≡ true }
    requires room { levels (view value) ≤ MAX_DEPTH + 1 }
    ensures { IfOk result (λ node. node ≡ non_null (of_json (view value))) }
{
    match value {
        Value::Object(members) => parent(build_owned_members(alloc, members)?),
        other => build(alloc, &other),
    }
}

#[cycle(build_owned)]
fn build_owned_members(alloc: Global, members: Map<String, Value>) -> Result<Vec<Child>, NoMemory>
    requires lawful { are_lawful_members (members_view members.entries) ≡ true }
    requires room { levels_of_members (members_view members.entries) ≤ MAX_DEPTH + 1 }
    ensures children { IfOk result
        (λ children. children.items ≡ children_of primitive_in (members_view members.entries)) }
    ensures ascending { IfOk result (λ children. is_sorted key_cmp children.items ≡ true) }
{
    let mut children = Vec::with_capacity(alloc, members.len())?;
    for (name, member) in members {
        let built = build_owned(alloc, member)?;
        if let Some(node) = built {
            children.push(Child::new(alloc, Key::of_lawful(alloc, name.as_str())?, node)?)?;
        }
    }
    Ok(children)
}

fn sort(children: &mut Vec<Child>)
    ensures permutation { IsPermutation children.old.items children.new.items }
    ensures ascending { IsSortedBy (λ a b. is_lt (key_cmp a.0 b.0)) children.new.items }
{
    children.sort_unstable_by(|a, b| a.compare_keys(b));
}

// The tree of one primitive.
fn alone(leaf: Leaf) -> Result<Option<Node>, NoMemory>
    ensures { IfOk result (λ node. node ≡ Some (lone (primitive_of leaf))) }
{
    Ok(Some(Node::of_leaf(leaf)?))
}

// The tree of these children, null where there is none.
fn parent(children: Vec<Child>) -> Result<Option<Node>, NoMemory>
    requires ascending { is_sorted key_cmp children.items ≡ true }
    requires room { All (λ child. depth child.1 < MAX_DEPTH) children.items }
    ensures { IfOk result (λ node. node ≡ non_null (graft children.items)) }
{
    if children.is_empty() {
        return Ok(None);
    }
    let node = Node::of_children(children)?;
    node.law();
    Ok(Some(node))
}

// ---- the value of a tree

#[cycle(write)]
fn write(alloc: Global, node: &Node) -> Result<Value, NoMemory>
    ensures { IfOk result (λ value. view value ≡ value_of node.now) }
{
    match node.leaf() {
        Some(leaf) => write_leaf(alloc, leaf),
        None => Ok(Value::Object(write_children(alloc, node.children())?)),
    }
}

#[cycle(write)]
fn write_children(alloc: Global, children: &[Child]) -> Result<Map<String, Value>, NoMemory>
    requires { is_sorted key_cmp children.now ≡ true }
    ensures { IfOk result (λ members. members_view members.entries
        ≡ members_of (map (λ child. (child.0, value_of child.1)) children.now)) }
{
    let mut members = Map::new(alloc);
    for child in children {
        let key = child.key();
        let node = child.node();
        serde_json::put(&mut members, alloc, key.text(), write(alloc, node)?)?;
    }
    Ok(members)
}

pub(crate) fn write_leaf(alloc: Global, leaf: &Leaf) -> Result<Value, NoMemory>
    ensures { IfOk result (λ value. view value ≡ data_of (primitive_of leaf.now)) }
{
    match leaf {
        Leaf::Truth(b) => Ok(Value::Bool(*b)),
        Leaf::Whole(number) => Ok(Value::from(number.value())),
        Leaf::Words(text) => Ok(Value::try_from_str(alloc, text.as_str())?),
    }
}
