//! What calls give.
ghost use Rattle.std.specs.Prelude.{◌≡◌, option_map};
ghost use Rattle.json_tree.specs.Leaf.{primitive_of};
ghost use Rattle.evaluator.specs.Snapshot.{is_number, is_string, is_boolean};
ghost use Rattle.evaluator.specs.Calls.{snapshot_test, snapshot_call, child_of, has_child, snapshot_call_with, called_with_nothing, called_with, called_with_two};
ghost use Rattle.evaluator.specs.Working.Answers.{Finds, Gives};
ghost use Rattle.evaluator.specs.Working.Known.{test_known, call_known};
ghost use Rattle.evaluator.specs.Parts.{value_of, part_of};
ghost use Rattle.evaluator.specs.Working.Parts.{holder, result_of};

use crate::snapshot::{
    Found, Snapshot, at_keys, child_at, exists_at, exists_below, has_children_at, primitive_at,
    val_at,
};
use crate::texts::{text_change, text_test};
use crate::value::{Meaning, Stop, Value, put_part, put_value, wanted};
use bumpalo::Bump;
use expr_tokens::{KnownName, Name};
use json_tree::Leaf;

// ---- snapshots

// What a method that takes nothing gives, put where a value is wanted.
#[inline(always)]
pub(crate) fn snapshot_test<'a>(
    name: &Name,
    place: &Snapshot<'a>,
    found: &mut Value<'a>,
) -> Result<(), Stop>
    ensures { Finds result (value_of found.new) (snapshot_test name.now place.now) }
{
    put_value(test_known(name.known(), place), found)
}

// What the method of a known name gives.
#[inline(always)]
fn test_known<'a>(known: Option<KnownName>, place: &Snapshot<'a>) -> Option<Value<'a>>
    ensures { option_map value_of result ≡ test_known known place.now }
{
    match known {
        Some(KnownName::Val) => Some(val_at(place)),
        Some(KnownName::Exists) => Some(Value::Truth(exists_at(place))),
        Some(KnownName::HasChildren) => Some(Value::Truth(has_children_at(place))),
        Some(KnownName::IsNumber) => Some(Value::Truth(is_number(primitive_at(place)))),
        Some(KnownName::IsString) => Some(Value::Truth(is_string(primitive_at(place)))),
        Some(KnownName::IsBoolean) => Some(Value::Truth(is_boolean(primitive_at(place)))),
        _ => None,
    }
}

fn is_number(leaf: Option<&Leaf>) -> bool
    ensures { result ≡ is_number (option_map (λ l. primitive_of l.now) leaf.entry) }
{
    matches!(leaf, Some(Leaf::Whole(_)))
}

fn is_string(leaf: Option<&Leaf>) -> bool
    ensures { result ≡ is_string (option_map (λ l. primitive_of l.now) leaf.entry) }
{
    matches!(leaf, Some(Leaf::Words(_)))
}

fn is_boolean(leaf: Option<&Leaf>) -> bool
    ensures { result ≡ is_boolean (option_map (λ l. primitive_of l.now) leaf.entry) }
{
    matches!(leaf, Some(Leaf::Truth(_)))
}

// What a method that takes nothing gives, put where a part is wanted.
pub(crate) fn snapshot_call<'a>(
    name: &Name,
    place: &Snapshot<'a>,
    found: &mut Meaning<'a>,
) -> Result<(), Stop>
    ensures { Finds result (part_of found.new) (snapshot_call name.now place.now) }
{
    put_part(call_known(name.known(), place), found)
}

#[inline(always)]
fn call_known<'a>(known: Option<KnownName>, place: &Snapshot<'a>) -> Option<Meaning<'a>>
    ensures { option_map part_of result ≡ call_known known place.now }
{
    match known {
        Some(KnownName::Parent) => Some(Meaning::Snapshot(place.parent()?)),
        _ => Some(Meaning::Value(test_known(known, place)?)),
    }
}

pub(crate) fn child_of<'a>(arena: &'a Bump, place: &'a Snapshot<'a>, given: Value<'a>) -> Found<'a>
    ensures { Gives (result_of result) (λ at. at.now) (child_of place.now (value_of given.entry)) }
{
    match given {
        Value::Words(text) => child_at(arena, place, text),
        _ => Found::Erred,
    }
}

// The same, where the text mostly is several keys.
pub(crate) fn below_of<'a>(arena: &'a Bump, place: &'a Snapshot<'a>, given: Value<'a>) -> Found<'a>
    ensures { Gives (result_of result) (λ at. at.now) (child_of place.now (value_of given.entry)) }
{
    match given {
        Value::Words(text) => Found::of(at_keys(arena, place, text)),
        _ => Found::Erred,
    }
}

// Whether something exists at the child.
#[inline(always)]
#[tactic(auto, unfolding(crate::specs::Calls::has_child))]
pub(crate) fn has_child<'a>(
    arena: &'a Bump,
    place: &'a Snapshot<'a>,
    given: Value<'a>,
) -> Result<bool, Stop>
    ensures { Gives result (λ b. b) (has_child place.now (value_of given.entry)) }
{
    match given {
        Value::Words(text) => exists_below(arena, place, text),
        _ => Err(Stop::Erred),
    }
}

#[tactic(auto, unfolding(crate::specs::Calls::snapshot_call_with))]
fn snapshot_call_with<'a>(
    arena: &'a Bump,
    name: &str,
    place: &'a Snapshot<'a>,
    given: Value<'a>,
) -> Result<Meaning<'a>, Stop>
    ensures { Gives result part_of (snapshot_call_with name.now place.now (value_of given.entry)) }
{
    match name {
        "child" => Ok(Meaning::Snapshot(child_of(arena, place, given).get()?)),
        "hasChild" => Ok(Meaning::Value(Value::Truth(has_child(arena, place, given)?))),
        _ => Err(Stop::Erred),
    }
}

// ---- all receivers

// What a call with nothing gives, put where its receiver was.
pub(crate) fn called_with_nothing<'a>(name: &Name, found: &mut Meaning<'a>) -> Result<(), Stop>
    ensures { Finds result (part_of found.new) (called_with_nothing name.now (part_of found.old)) }
{
    match *found {
        Meaning::Snapshot(place) => snapshot_call(name, place, found),
        _ => Err(Stop::Erred),
    }
}

pub(crate) fn called_with<'a>(
    arena: &'a Bump,
    name: &str,
    receiver: Meaning<'a>,
    given: Value<'a>,
) -> Result<Meaning<'a>, Stop>
    ensures { Gives result part_of (called_with name.now (part_of receiver.entry) (value_of given.entry)) }
{
    match receiver {
        Meaning::Value(value) => Ok(Meaning::Value(wanted(text_test(name, value, given))?)),
        Meaning::Snapshot(place) => snapshot_call_with(arena, name, place, given),
        _ => Err(Stop::Erred),
    }
}

pub(crate) fn called_with_two<'a>(
    arena: &'a Bump,
    name: &str,
    receiver: Meaning<'a>,
    first: Value<'a>,
    second: Value<'a>,
) -> Result<Meaning<'a>, Stop>
    ensures { Gives result part_of (called_with_two name.now (part_of receiver.entry) (value_of first.entry) (value_of second.entry)) }
{
    match receiver {
        Meaning::Value(value) => {
            let changed = text_change(arena, name, value, first, second)?;
            Ok(Meaning::Value(changed))
        }
        _ => Err(Stop::Erred),
    }
}

// The snapshot whose children a call with a list is about.
pub(crate) fn holder<'a>(name: &str, receiver: Meaning<'a>) -> Option<&'a Snapshot<'a>>
    ensures { option_map (λ s. s.now) result ≡ holder name.now (part_of receiver.entry) }
{
    match receiver {
        Meaning::Snapshot(place) => match name {
            "hasChildren" => Some(place),
            _ => None,
        },
        _ => None,
    }
}
