//! Values, and the other parts of expressions.
ghost use Rattle.std.specs.Prelude.{◌≡◌, IsOk, OnOk, option_map};
ghost use Rattle.json_tree.specs.Leaf.{primitive_of};
ghost use Rattle.evaluator.specs.declared.value.Stop.TheVariants.{NoMemory as no_memory};
ghost use Rattle.evaluator.specs.Value.{in_value, of_primitive, truth as of_truth};
ghost use Rattle.evaluator.specs.Members.{text_or_null, primitive_or_null, number_or_null};
ghost use Rattle.evaluator.specs.Working.Answers.{Finds, Gives};
ghost use Rattle.evaluator.specs.Parts.{value_of, part_of};
ghost use Rattle.evaluator.specs.Working.Parts.{in_place};

use crate::asked::Asked;
use crate::identity::{Claims, Identity};
use crate::snapshot::Snapshot;
use json_tree::{Leaf, NoMemory};
use std::alloc::{AllocError, AllocFailed};

/// A value. A text is borrowed, from the tree, the request or the rule, or lies in the arena. (Reference, literals.)
#[derive(Clone, Copy)]
pub enum Value<'a> {
    Null,
    Truth(bool),
    Whole(i64),
    Words(&'a str),
    /// What `val()` gives of a location with children. (This project's profile.)
    Sentinel,
    /// `auth` of somebody, or its `token`. (This project's profile.)
    Record,
}

/// What a part of an expression means, by its sort. (The sorts are this project's profile.)
#[derive(Clone, Copy)]
pub enum Meaning<'a> {
    Value(Value<'a>),
    Snapshot(&'a Snapshot<'a>),
    Auth(Option<&'a Identity>),
    Token(Option<&'a Claims>),
    Query(&'a Asked<'a>),
}

// Why a part of an expression comes to nothing: it errs, or memory was wanted.
#[derive(Clone, Copy, Debug, PartialEq, Eq)]
pub(crate) enum Stop {
    Erred,
    NoMemory,
}

impl From<NoMemory> for Stop {
    ghost from_gives = { λ _ stop. stop ≡ no_memory };

    fn from(_refused: NoMemory) -> Stop {
        Stop::NoMemory
    }
}

impl From<AllocError> for Stop {
    ghost from_gives = { λ _ stop. stop ≡ no_memory };

    fn from(_refused: AllocError) -> Stop {
        Stop::NoMemory
    }
}

impl<T: Drop> From<AllocFailed<T>> for Stop {
    ghost from_gives = { λ _ stop. stop ≡ no_memory };

    fn from(_refused: AllocFailed<T>) -> Stop {
        Stop::NoMemory
    }
}

// What was found, or an error.
#[inline(always)]
pub(crate) fn wanted<T>(found: Option<T>) -> Result<T, Stop>
    ensures { Gives result (λ x. x) found }
{
    found.ok_or(Stop::Erred)
}

// Puts a value where it is wanted, or errs. A call hands `Ok(())` back in registers, while it writes a value to memory,
// from where it would be copied.
#[inline(always)]
pub(crate) fn put_value<'a>(value: Option<Value<'a>>, found: &mut Value<'a>) -> Result<(), Stop>
    ensures { Finds result (value_of found.new) (option_map value_of value.entry) }
{
    *found = wanted(value)?;
    Ok(())
}

// Puts a boolean where a value is wanted.
#[inline(always)]
pub(crate) fn put_truth<'a>(truth: bool, found: &mut Value<'a>) -> Result<(), Stop>
    ensures put { OnOk result (value_of found.new ≡ of_truth truth) }
    ensures done { IsOk result }
{
    *found = Value::Truth(truth);
    Ok(())
}

// Puts a part where it is wanted, or errs.
#[inline(always)]
pub(crate) fn put_part<'a>(part: Option<Meaning<'a>>, found: &mut Meaning<'a>) -> Result<(), Stop>
    ensures { Finds result (part_of found.new) (option_map part_of part.entry) }
{
    *found = wanted(part)?;
    Ok(())
}

// The part, where a value is wanted.
pub(crate) fn in_value<'a>(part: Meaning<'a>) -> Option<Value<'a>>
    ensures { option_map value_of result ≡ in_value (part_of part.entry) }
{
    match part {
        Meaning::Value(value) => Some(value),
        Meaning::Auth(None) | Meaning::Token(None) => Some(Value::Null),
        Meaning::Auth(Some(_)) | Meaning::Token(Some(_)) => Some(Value::Record),
        Meaning::Snapshot(_) | Meaning::Query(_) => None,
    }
}

// The location, where one is wanted.
pub(crate) fn in_place<'a>(part: Meaning<'a>) -> Option<&'a Snapshot<'a>>
    ensures { option_map (λ s. s.now) result ≡ in_place (part_of part.entry) }
{
    match part {
        Meaning::Snapshot(place) => Some(place),
        _ => None,
    }
}

#[inline(always)]
pub(crate) fn of_leaf<'a>(leaf: &'a Leaf) -> Value<'a>
    ensures { value_of result ≡ of_primitive (primitive_of leaf.now) }
{
    match leaf {
        Leaf::Truth(b) => Value::Truth(*b),
        Leaf::Whole(number) => Value::Whole(number.value()),
        Leaf::Words(text) => Value::Words(text.as_str()),
    }
}

pub(crate) fn leaf_or_null<'a>(leaf: Option<&'a Leaf>) -> Value<'a>
    ensures { value_of result ≡ primitive_or_null (option_map (λ l. primitive_of l.now) leaf.entry) }
{
    match leaf {
        Some(leaf) => of_leaf(leaf),
        None => Value::Null,
    }
}

pub(crate) fn text_or_null<'a>(text: Option<&'a str>) -> Value<'a>
    ensures { value_of result ≡ text_or_null (option_map (λ t. t.now) text.entry) }
{
    match text {
        Some(text) => Value::Words(text),
        None => Value::Null,
    }
}

pub(crate) fn limit_or_null<'a>(limit: Option<u16>) -> Value<'a>
    ensures { value_of result ≡ number_or_null limit }
{
    match limit {
        Some(limit) => Value::Whole(limit as i64),
        None => Value::Null,
    }
}
