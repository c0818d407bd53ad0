//! What operators make of values.
ghost use Rattle.std.specs.Prelude.{◌≡◌, ◌++◌, ◌+ℤ◌, ◌-ℤ◌, ◌*ℤ◌, neg_ℤ, Some, option_map, pos};
ghost use Rattle.evaluator.specs.Value.{null, truth, whole, words, in_range};
ghost use Rattle.evaluator.specs.Operators.{in_truth, is_opaque, same, equal, compared, minus, times, remainder, minus_of, plus, text_within, of_both};
ghost use Rattle.evaluator.specs.Working.Answers.{Finds};
ghost use Rattle.evaluator.specs.Parts.{value_of};
ghost use Rattle.evaluator.specs.Working.Parts.{numbers_in};

use crate::value::{Stop, Value, put_truth, put_value, wanted};
use bumpalo::Bump;
use bumpalo::collections::into_bump_str;
use expr_parser::Operator;
use expr_tokens::MAX_NUMBER;
use std::cmp::Ordering;
use tree_model::{MAX_TEXT_BYTES, MAX_WHOLE, MIN_WHOLE};

// ---- truth

pub(crate) fn in_truth(value: Value) -> Option<bool>
    ensures { result ≡ in_truth (value_of value.entry) }
{
    match value {
        Value::Truth(b) => Some(b),
        _ => None,
    }
}

// ---- == and <

fn is_opaque(value: Value) -> bool
    ensures { result ≡ is_opaque (value_of value.entry) }
{
    matches!(value, Value::Sentinel | Value::Record)
}

fn same(left: Value, right: Value) -> bool
    ensures { result ≡ same (value_of left.entry) (value_of right.entry) }
{
    match left {
        Value::Null => matches!(right, Value::Null),
        Value::Truth(a) => matches!(right, Value::Truth(b) if a == b),
        Value::Whole(a) => matches!(right, Value::Whole(b) if a == b),
        Value::Words(a) => matches!(right, Value::Words(b) if a == b),
        Value::Sentinel | Value::Record => false,
    }
}

// The values are borrowed: a call that takes a value by itself copies it first.
fn equal(left: &Value, right: &Value) -> Option<bool>
    ensures { result ≡ equal (value_of left.now) (value_of right.now) }
{
    let (left, right) = (*left, *right);
    if is_opaque(left) && is_opaque(right) {
        None
    } else {
        Some(same(left, right))
    }
}

// Whether a value is another than null.
pub(crate) fn is_something(value: Value) -> bool
    ensures { of_both Operator.NotEqual (value_of value.entry) null ≡ Some (truth result) }
{
    match value {
        Value::Null => false,
        Value::Truth(_) | Value::Whole(_) | Value::Words(_) | Value::Sentinel | Value::Record =>
            true,
    }
}

fn compared(left: Value, right: Value) -> Option<Ordering>
    ensures { result ≡ compared (value_of left.entry) (value_of right.entry) }
{
    match left {
        Value::Whole(a) => match right {
            Value::Whole(b) => Some(a.cmp(&b)),
            _ => None,
        },
        Value::Words(a) => match right {
            Value::Words(b) => Some(a.cmp(b)),
            _ => None,
        },
        _ => None,
    }
}

// ---- numbers

#[tactic(auto, unfolding(tree_model::specs::Primitive::is_whole))]
pub(crate) fn in_range<'a>(number: i64) -> Option<Value<'a>>
    ensures { option_map value_of result ≡ in_range number }
{
    if MIN_WHOLE <= number && number <= MAX_WHOLE {
        Some(Value::Whole(number))
    } else {
        None
    }
}

// The number of a literal.
#[tactic(auto, unfolding(tree_model::specs::Primitive::is_whole))]
pub(crate) fn literal<'a>(number: u64) -> Option<Value<'a>>
    ensures { option_map value_of result ≡ in_range (pos number) }
{
    if number <= MAX_NUMBER {
        Some(Value::Whole(number as i64))
    } else {
        None
    }
}

#[tactic(auto, unfolding(tree_model::specs::Primitive::is_whole))]
fn sum<'a>(a: i64, b: i64) -> Option<Value<'a>>
    ensures { option_map value_of result ≡ in_range (a +ℤ b) }
{
    match a.checked_add(b) {
        Some(sum) => in_range(sum),
        None => None,
    }
}

#[tactic(auto, unfolding(tree_model::specs::Primitive::is_whole))]
fn difference<'a>(a: i64, b: i64) -> Option<Value<'a>>
    ensures { option_map value_of result ≡ in_range (a -ℤ b) }
{
    match a.checked_sub(b) {
        Some(difference) => in_range(difference),
        None => None,
    }
}

#[tactic(auto, unfolding(tree_model::specs::Primitive::is_whole))]
fn product<'a>(a: i64, b: i64) -> Option<Value<'a>>
    ensures { option_map value_of result ≡ in_range (a *ℤ b) }
{
    match a.checked_mul(b) {
        Some(product) => in_range(product),
        None => None,
    }
}

#[tactic(auto, unfolding(tree_model::specs::Primitive::is_whole))]
fn negative<'a>(a: i64) -> Option<Value<'a>>
    ensures { option_map value_of result ≡ in_range (neg_ℤ a) }
{
    match a.checked_neg() {
        Some(negative) => in_range(negative),
        None => None,
    }
}

// The numbers, if both are some.
fn numbers(left: Value, right: Value) -> Option<(i64, i64)>
    ensures { result ≡ numbers_in (value_of left.entry) (value_of right.entry) }
{
    match left {
        Value::Whole(a) => match right {
            Value::Whole(b) => Some((a, b)),
            _ => None,
        },
        _ => None,
    }
}

fn minus<'a>(left: Value, right: Value) -> Option<Value<'a>>
    ensures { option_map value_of result ≡ minus (value_of left.entry) (value_of right.entry) }
{
    let (a, b) = numbers(left, right)?;
    difference(a, b)
}

fn times<'a>(left: Value, right: Value) -> Option<Value<'a>>
    ensures { option_map value_of result ≡ times (value_of left.entry) (value_of right.entry) }
{
    let (a, b) = numbers(left, right)?;
    product(a, b)
}

fn remainder<'a>(left: Value, right: Value) -> Option<Value<'a>>
    ensures { option_map value_of result ≡ remainder (value_of left.entry) (value_of right.entry) }
{
    let (a, b) = numbers(left, right)?;
    if b == 0 {
        return None;
    }
    in_range(a.wrapping_rem(b))
}

pub(crate) fn minus_of<'a>(value: Value) -> Option<Value<'a>>
    ensures { option_map value_of result ≡ minus_of (value_of value.entry) }
{
    match value {
        Value::Whole(a) => negative(a),
        _ => None,
    }
}

// ---- texts

// One text behind another, in one growth.
fn joined<'a>(arena: &'a Bump, front: &str, back: &str, found: &mut Value<'a>) -> Result<(), Stop>
    ensures { Finds result (value_of found.new) (text_within (front.now ++ back.now)) }
{
    if front.len() > MAX_TEXT_BYTES || back.len() > MAX_TEXT_BYTES - front.len() {
        return Err(Stop::Erred);
    }
    let mut text = String::new(arena);
    text.reserve_exact(front.len() + back.len())?;
    text.push_str(front)?;
    text.push_str(back)?;
    *found = Value::Words(into_bump_str(text));
    Ok(())
}

// A text behind a number. It stays a function of its own, as the next one does, since room for the digits would be
// made and cleared at each sum.
#[inline(never)]
fn joined_to_number<'a>(arena: &'a Bump, a: i64, b: &str, found: &mut Value<'a>) -> Result<(), Stop>
    ensures { Finds result (value_of found.new) (plus (whole a) (words b.now)) }
{
    let digits = a.to_string(arena)?;
    joined(arena, digits.as_str(), b, found)
}

// A number behind a text.
#[inline(never)]
fn joined_with_number<'a>(
    arena: &'a Bump,
    a: &str,
    b: i64,
    found: &mut Value<'a>,
) -> Result<(), Stop>
    ensures { Finds result (value_of found.new) (plus (words a.now) (whole b)) }
{
    let digits = b.to_string(arena)?;
    joined(arena, a, digits.as_str(), found)
}

// The sum, put where the left value was.
fn plus<'a>(arena: &'a Bump, right: &Value<'a>, found: &mut Value<'a>) -> Result<(), Stop>
    ensures { Finds result (value_of found.new) (plus (value_of found.old) (value_of right.now)) }
{
    match *found {
        Value::Whole(a) => match *right {
            Value::Whole(b) => put_value(sum(a, b), found),
            Value::Words(b) => joined_to_number(arena, a, b, found),
            _ => Err(Stop::Erred),
        },
        Value::Words(a) => match *right {
            Value::Whole(b) => joined_with_number(arena, a, b, found),
            Value::Words(b) => joined(arena, a, b, found),
            _ => Err(Stop::Erred),
        },
        _ => Err(Stop::Erred),
    }
}

// ---- all operators that need both values

// What an operator makes of the left value and the right one, put where the left one was.
#[inline(always)]
pub(crate) fn of_both<'a>(
    arena: &'a Bump,
    operator: Operator,
    right: &Value<'a>,
    found: &mut Value<'a>,
) -> Result<(), Stop>
    ensures { Finds result (value_of found.new) (of_both operator (value_of found.old) (value_of right.now)) }
{
    match operator {
        Operator::Equal => put_truth(wanted(equal(found, right))?, found),
        Operator::NotEqual => put_truth(!wanted(equal(found, right))?, found),
        Operator::Less => put_truth(wanted(compared(*found, *right))?.is_lt(), found),
        Operator::LessOrEqual => put_truth(wanted(compared(*found, *right))?.is_le(), found),
        Operator::Greater => put_truth(wanted(compared(*found, *right))?.is_gt(), found),
        Operator::GreaterOrEqual => put_truth(wanted(compared(*found, *right))?.is_ge(), found),
        Operator::Add => plus(arena, right, found),
        Operator::Subtract => put_value(minus(*found, *right), found),
        Operator::Multiply => put_value(times(*found, *right), found),
        Operator::Remainder => put_value(remainder(*found, *right), found),
        Operator::Or | Operator::And => Err(Stop::Erred),
    }
}
