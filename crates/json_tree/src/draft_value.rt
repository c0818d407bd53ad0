//! Drafts of JSON values.
ghost use Rattle.std.specs.Prelude.{◌≡◌, ◌≢◌, ◌↔◌, ◌+◌, ◌≤◌, ◌<◌, true, false, min, is_some, unwrap_or, Some, map, option_map, All, IfOk, OnOk, IfSome, IsErrOf, IsPermutation, IsSortedBy};
ghost use Rattle.std.specs.FinMap as map_of;
ghost use Rattle.std.specs.FinMap.{is_sorted};
ghost use Rattle.std.specs.Ordering.{is_lt};
ghost use Rattle.serde_json.specs.Data.{string, no_members, member};
ghost use Rattle.serde_json.specs.View.{view, items_view, members_view};
ghost use Rattle.tree_model.specs.declared.limits.TheConstants.{MAX_DEPTH};
ghost use Rattle.tree_model.specs.Key.{key_cmp};
ghost use Rattle.tree_model.specs.PathMap.{depth};
ghost use Rattle.tree_model.specs.Tree.{non_null, children};
ghost use Rattle.tree_model.specs.Children.{graft};
ghost use Rattle.tree_model.specs.Draft.{null_draft, as_draft};
ghost use Rattle.json_tree.specs.Json.{of_json, is_lawful, are_lawful_items, are_lawful_members, members_of};
ghost use Rattle.json_tree.specs.Draft.{is_form, part_in, filled, filled_items, filled_members, is_lawful_draft, draft_of_json, form, value_of_draft};
ghost use Rattle.json_tree.specs.Working.Levels.{levels, levels_of_items, levels_of_members};
ghost use Rattle.json_tree.specs.Working.Members.{members_at, children_of};
ghost use Rattle.json_tree.specs.declared.json_value.TheConstants.{MANY_LEVELS};

use crate::draft::{Draft, DraftRef, Part};
use crate::json_value::{ValueFault, build, levels, raised, write_leaf};
use crate::key::{Key, is_lawful_key};
use crate::memory::NoMemory;
use serde_json::{Map, Value};
use std::alloc::Global;
use tree_model::MAX_DEPTH;

// The key of the form of the moment, and the text below it.
const FORM_KEY: &str = ".sv";

const FORM_TEXT: &str = "timestamp";

/// The draft that a value describes, None for null, where the form `{".sv":"timestamp"}` stands for the
/// moment; every other use of `.sv` is a bad value. Two passes, of which the first takes no memory: so an
/// unlawful value is always answered as one. (REST reference, server values.)
pub fn draft_from_json(alloc: Global, value: &Value) -> Result<Option<Draft>, ValueFault>
    ensures lawful { OnOk result (is_lawful_draft (view value.now) ≡ true) }
    ensures depth { OnOk result (depth (draft_of_json (view value.now)) ≤ MAX_DEPTH) }
    ensures draft { IfOk result (λ draft. draft ≡ non_null (draft_of_json (view value.now))) }
    ensures bad_value { IsErrOf result ValueFault.BadValue ↔ (is_lawful_draft (view value.now) ≡ false) }
    ensures too_deep { IsErrOf result ValueFault.TooDeep ↔
        ((is_lawful_draft (view value.now) ≡ true) × (MAX_DEPTH < depth (draft_of_json (view value.now)))) }
{
    check(value)?;
    Ok(build_draft(alloc, value)?)
}

/// Whether a member of this name with this text, if it is the only one of an object, is the form of the moment. It
/// takes no memory. (REST reference, server values.)
pub fn is_form_of(name: &str, text: &str) -> bool
    ensures { result ≡ is_form (member name.now (string text.now) no_members) }
{
    name == FORM_KEY && text == FORM_TEXT
}

// Whether the members are the form of the moment.
fn is_form(members: &Map<String, Value>) -> bool
    ensures { result ≡ is_form (members_view members.now.entries) }
{
    let mut members = members.iter();
    let Some((name, Value::String(text))) = members.next() else {
        return false;
    };
    members.next().is_none() && is_form_of(name.as_str(), text.as_str())
}

// ---- the first pass: whether all is lawful, and how deep it goes

// Whether a value gives a draft, and why not.
fn check(value: &Value) -> Result<(), ValueFault>
    ensures lawful { OnOk result (is_lawful (filled (view value.now)) ≡ true) }
    ensures room { OnOk result (levels (filled (view value.now)) ≤ MAX_DEPTH + 1) }
    ensures depth { OnOk result (depth (draft_of_json (view value.now)) ≤ MAX_DEPTH) }
    ensures bad_value { IsErrOf result ValueFault.BadValue ↔ (is_lawful (filled (view value.now)) ≡ false) }
    ensures too_deep { IsErrOf result ValueFault.TooDeep ↔
        ((is_lawful (filled (view value.now)) ≡ true) × (MAX_DEPTH < depth (draft_of_json (view value.now)))) }
    ensures memory { IsErrOf result ValueFault.NoMemory → ⊥ }
{
    match draft_levels(value) {
        None => Err(ValueFault::BadValue),
        Some(count) => if MAX_DEPTH + 1 < count {
            Err(ValueFault::TooDeep)
        } else {
            Ok(())
        },
    }
}

// How many levels a value has with a 0 in the place of each form, as `levels` counts them.
#[cycle(draft_levels)]
fn draft_levels(value: &Value) -> Option<usize>
    ensures lawful { is_some result ≡ is_lawful (filled (view value.now)) }
    ensures count { IfSome result (λ n. n ≡ min (levels (filled (view value.now))) MANY_LEVELS) }
{
    match value {
        Value::Array(items) => draft_levels_of_items(items),
        Value::Object(members) => if is_form(members) {
            Some(1)
        } else {
            draft_levels_of_members(members)
        },
        scalar => levels(scalar),
    }
}

#[cycle(draft_levels)]
fn draft_levels_of_items(items: &Vec<Value>) -> Option<usize>
    ensures lawful { is_some result ≡ are_lawful_items (filled_items (items_view items.now.items)) }
    ensures count { IfSome result
        (λ n. n ≡ min (levels_of_items (filled_items (items_view items.now.items))) MANY_LEVELS) }
{
    let mut most = 0;
    for item in items {
        most = most.max(raised(draft_levels(item)?));
    }
    Some(most)
}

#[cycle(draft_levels)]
fn draft_levels_of_members(members: &Map<String, Value>) -> Option<usize>
    ensures lawful { is_some result ≡ are_lawful_members (filled_members (members_view members.now.entries)) }
    ensures count { IfSome result
        (λ n. n ≡ min (levels_of_members (filled_members (members_view members.now.entries))) MANY_LEVELS) }
{
    let mut most = 0;
    for (name, member) in members.iter() {
        if !is_lawful_key(name.as_str()) {
            return None;
        }
        most = most.max(raised(draft_levels(member)?));
    }
    Some(most)
}

// ---- the second pass: the draft of a lawful value

#[cycle(build_draft)]
fn build_draft(alloc: Global, value: &Value) -> Result<Option<Draft>, NoMemory>
    requires lawful { is_lawful (filled (view value.now)) ≡ true }
    requires room { levels (filled (view value.now)) ≤ MAX_DEPTH + 1 }
    ensures { IfOk result (λ draft. draft ≡ non_null (draft_of_json (view value.now))) }
{
    match value {
        Value::Array(items) => {
            let mut children = build_draft_items(alloc, items)?;
            sort(&mut children);
            parent(alloc, children)
        }
        Value::Object(members) => if is_form(members) {
            Ok(Some(Draft::moment(alloc)?))
        } else {
            parent(alloc, build_draft_members(alloc, members)?)
        },
        Value::Null => fixed(alloc, value),
        Value::Bool(_) => fixed(alloc, value),
        Value::Number(_) => fixed(alloc, value),
        Value::String(_) => fixed(alloc, value),
    }
}

// The draft of a value in which no moment can stand.
fn fixed(alloc: Global, value: &Value) -> Result<Option<Draft>, NoMemory>
    requires lawful { is_lawful (view value.now) ≡ true }
    requires room { levels (view value.now) ≤ MAX_DEPTH + 1 }
    requires fixed { as_draft (of_json (view value.now)) ≡ draft_of_json (view value.now) }
    ensures { IfOk result (λ draft. draft ≡ non_null (draft_of_json (view value.now))) }
{
    match build(alloc, value)? {
        Some(node) => Ok(Some(Draft::fixed(node))),
        None => Ok(None),
    }
}

// The children of an array, in the order of their indices.
#[cycle(build_draft)]
fn build_draft_items(alloc: Global, items: &Vec<Value>) -> Result<Vec<(Key, Draft)>, NoMemory>
    requires lawful { are_lawful_items (filled_items (items_view items.now.items)) ≡ true }
    requires room { levels_of_items (filled_items (items_view items.now.items)) ≤ MAX_DEPTH + 1 }
    ensures { IfOk result
        (λ children. children.items ≡ children_of part_in (members_at 0 (items_view items.now.items))) }
{
    let mut children = Vec::with_capacity(alloc, items.len())?;
    for (index, item) in items.iter().enumerate() {
        let built = build_draft(alloc, item)?;
        if let Some(draft) = built {
            children.push((Key::of_index(alloc, index)?, draft))?;
        }
    }
    Ok(children)
}

// The children of an object, in the order of their keys.
#[cycle(build_draft)]
fn build_draft_members(
    alloc: Global,
    members: &Map<String, Value>,
) -> Result<Vec<(Key, Draft)>, NoMemory>
    requires lawful { are_lawful_members (filled_members (members_view members.now.entries)) ≡ true }
    requires room { levels_of_members (filled_members (members_view members.now.entries)) ≤ MAX_DEPTH + 1 }
    ensures children { IfOk result
        (λ children. children.items ≡ children_of part_in (members_view members.now.entries)) }
    ensures ascending { IfOk result (λ children. is_sorted key_cmp children.items ≡ true) }
{
    let mut children = Vec::with_capacity(alloc, members.len())?;
    for (name, member) in members.iter() {
        let built = build_draft(alloc, member)?;
        if let Some(draft) = built {
            children.push((Key::of_lawful(alloc, name.as_str())?, draft))?;
        }
    }
    Ok(children)
}

fn sort(children: &mut Vec<(Key, Draft)>)
    ensures permutation { IsPermutation children.old.items children.new.items }
    ensures ascending { IsSortedBy (λ a b. is_lt (key_cmp a.0 b.0)) children.new.items }
{
    children.sort_unstable_by(|a, b| a.0.compare(b.0.text()));
}

// The draft of these children, null where there is none.
fn parent(alloc: Global, children: Vec<(Key, Draft)>) -> Result<Option<Draft>, NoMemory>
    requires ascending { is_sorted key_cmp children.items ≡ true }
    requires room { All (λ child. depth child.1 < MAX_DEPTH) children.items }
    ensures { IfOk result (λ draft. draft ≡ non_null (graft children.items)) }
{
    if children.is_empty() {
        return Ok(None);
    }
    let draft = Draft::of_children(alloc, children)?;
    draft.law();
    Ok(Some(draft))
}

// ---- the value of a draft

/// The value of a draft, null for None: objects alone, with the primitives below them and the form at each moment's
/// place. One pass, in which each child is sought by its key once more. (This project's profile.)
pub fn draft_to_json(alloc: Global, draft: Option<&Draft>) -> Result<Value, NoMemory>
    ensures { IfOk result (λ value. view value
        ≡ value_of_draft (unwrap_or (option_map (λ draft. draft.now) draft.entry) null_draft)) }
{
    match draft {
        None => Ok(Value::Null),
        Some(draft) => {
            draft.law();
            write_draft(alloc, &draft.as_ref())
        }
    }
}

#[cycle(write_draft)]
fn write_draft(alloc: Global, draft: &DraftRef<'_>) -> Result<Value, NoMemory>
    requires { draft.now ≢ null_draft }
    ensures { IfOk result (λ value. view value ≡ value_of_draft draft.now) }
{
    match draft.part() {
        Some(Part::Fixed(leaf)) => write_leaf(alloc, leaf),
        Some(Part::Moment) => write_form(alloc),
        None => Ok(Value::Object(write_members(alloc, draft)?)),
    }
}

#[cycle(write_draft)]
fn write_members(alloc: Global, draft: &DraftRef<'_>) -> Result<Map<String, Value>, NoMemory>
    ensures { IfOk result (λ members. members_view members.entries
        ≡ members_of (map (λ child. (child.0, value_of_draft child.1)) (map_of.entries (children draft.now)))) }
{
    let mut members = Map::new(alloc);
    for index in 0..draft.width() {
        let key = draft.key_at(index).unwrap();
        let child = draft.child(key.text()).unwrap();
        serde_json::put(&mut members, alloc, key.text(), write_draft(alloc, &child)?)?;
    }
    Ok(members)
}

fn write_form(alloc: Global) -> Result<Value, NoMemory>
    ensures { IfOk result (λ value. view value ≡ form) }
{
    let text = Value::try_from_str(alloc, FORM_TEXT)?;
    let mut members = Map::new(alloc);
    serde_json::put(&mut members, alloc, FORM_KEY, text)?;
    Ok(Value::Object(members))
}
