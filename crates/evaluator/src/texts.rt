//! Methods of texts.
ghost use Rattle.std.specs.Prelude.{◌≡◌, ◌++◌, ◌<◌, ◌≤◌, length, nat_eq, IfOk, IsErrOf, option_map, string_bytes};
ghost use Rattle.std.specs.List.{starts_with, ends_with};
ghost use Rattle.std.specs.Str.{chars};
ghost use Rattle.tree_model.specs.declared.limits.TheConstants.{MAX_TEXT_BYTES};
ghost use Rattle.evaluator.specs.Value.{words};
ghost use Rattle.evaluator.specs.Operators.{text_within};
ghost use Rattle.evaluator.specs.Texts.{length_of, is_inside, text_test, split_at_first, replaced, replace, text_change};
ghost use Rattle.evaluator.specs.Working.Answers.{Gives};
ghost use Rattle.evaluator.specs.Parts.{value_of};
ghost use Rattle.evaluator.specs.Working.Parts.{texts_in};

use crate::value::{Stop, Value};
use bumpalo::Bump;
use bumpalo::collections::into_bump_str;
use tree_model::MAX_TEXT_BYTES;

// How many Unicode scalar values a text has, in one pass. A text of ASCII alone has one for each byte.
fn scalars(text: &str) -> usize
    ensures count { result ≡ length (chars text.now) }
    ensures small { result ≤ length text.now }
{
    if text.is_ascii() {
        return text.len();
    }
    text.chars().count()
}

pub(crate) fn length_of<'a>(value: Value) -> Option<Value<'a>>
    ensures { option_map value_of result ≡ length_of (value_of value.entry) }
{
    match value {
        Value::Words(text) => Some(Value::Whole(scalars(text) as i64)),
        _ => None,
    }
}

// ---- tests

fn is_inside(text: &str, part: &str) -> bool
    ensures { result ≡ is_inside part.now text.now }
{
    text.contains(part)
}

#[tactic(auto, using(std::proofs::lemmas::Str::Pattern::starts_text))]
fn begins_with(text: &str, part: &str) -> bool
    ensures { result ≡ starts_with nat_eq text.now part.now }
{
    text.starts_with(part)
}

#[tactic(auto, using(std::proofs::lemmas::Str::Pattern::ends_text))]
fn ends_with(text: &str, part: &str) -> bool
    ensures { result ≡ ends_with nat_eq text.now part.now }
{
    text.ends_with(part)
}

// The texts, if both are some.
fn texts<'a>(left: Value<'a>, right: Value<'a>) -> Option<(&'a str, &'a str)>
    ensures { option_map (λ t. (t.0.now, t.1.now)) result ≡ texts_in (value_of left.entry) (value_of right.entry) }
{
    match left {
        Value::Words(a) => match right {
            Value::Words(b) => Some((a, b)),
            _ => None,
        },
        _ => None,
    }
}

// A method that takes one value.
#[tactic(auto, unfolding(crate::specs::Texts::text_test))]
pub(crate) fn text_test<'a>(name: &str, receiver: Value<'a>, given: Value<'a>) -> Option<Value<'a>>
    ensures { option_map value_of result ≡ text_test name.now (value_of receiver.entry) (value_of given.entry) }
{
    let (text, part) = texts(receiver, given)?;
    match name {
        "contains" => Some(Value::Truth(is_inside(text, part))),
        "beginsWith" => Some(Value::Truth(begins_with(text, part))),
        "endsWith" => Some(Value::Truth(ends_with(text, part))),
        _ => None,
    }
}

// ---- replace

// Adds a text, within the limit. Nothing is often added: between places that stand side by side.
fn add(made: &mut String<&Bump>, text: &str) -> Result<(), Stop>
    ensures added { IfOk result (λ _. string_bytes made.new ≡ string_bytes made.old ++ text.now) }
    ensures fits { IfOk result (λ _. length (string_bytes made.new) ≤ MAX_TEXT_BYTES) }
    ensures erred { IsErrOf result Stop.Erred → MAX_TEXT_BYTES < length (string_bytes made.old ++ text.now) }
{
    if made.len() > MAX_TEXT_BYTES || text.len() > MAX_TEXT_BYTES - made.len() {
        return Err(Stop::Erred);
    }
    if !text.is_empty() {
        made.push_str(text)?;
    }
    Ok(())
}

// What stands before the first place of a part in a text, and what stands behind it there. Where one place stands right
// behind another, as in a text that is changed throughout, the beginning is all that is looked at.
#[inline(always)]
fn split<'b>(text: &'b str, part: &str) -> Option<(&'b str, &'b str)>
    requires some { 0 < length part.now }
    ensures { option_map (λ p. (p.0.now, p.1.now)) result ≡ split_at_first part.now text.now }
{
    match text.strip_prefix(part) {
        Some(behind) => Some(("", behind)),
        None => text.split_once(part),
    }
}

// The text itself, within the limit.
fn unchanged<'a>(text: &'a str) -> Result<Value<'a>, Stop>
    ensures { Gives result value_of (text_within text.now) }
{
    if text.len() > MAX_TEXT_BYTES {
        return Err(Stop::Erred);
    }
    Ok(Value::Words(text))
}

// A text with another in each place of a part, from the left, in one pass. Memory for a text of the old length, and
// growths where the new one is longer.
fn made_anew<'a>(arena: &'a Bump, text: &str, part: &str, with: &str) -> Result<Value<'a>, Stop>
    requires some { 0 < length part.now }
    ensures { Gives result value_of (text_within (replaced part.now with.now text.now)) }
{
    let mut made = String::with_capacity(arena, text.len())?;
    let mut rest = text;
    while let Some((before, behind)) = split(rest, part) {
        add(&mut made, before)?;
        add(&mut made, with)?;
        rest = behind;
    }
    add(&mut made, rest)?;
    Ok(Value::Words(into_bump_str(made)))
}

// Every occurrence of a text, from the left, becomes another. Where there is none, the text itself is the result,
// and no memory is taken.
fn replaced<'a>(arena: &'a Bump, text: &'a str, part: &str, with: &str) -> Result<Value<'a>, Stop>
    ensures { Gives result value_of (replace (words text.now) (words part.now) (words with.now)) }
{
    if part.is_empty() {
        return Err(Stop::Erred);
    }
    if is_inside(text, part) {
        made_anew(arena, text, part, with)
    } else {
        unchanged(text)
    }
}

fn replace<'a>(
    arena: &'a Bump,
    receiver: Value<'a>,
    part: Value<'a>,
    with: Value<'a>,
) -> Result<Value<'a>, Stop>
    ensures { Gives result value_of (replace (value_of receiver.entry) (value_of part.entry) (value_of with.entry)) }
{
    match receiver {
        Value::Words(text) => match part {
            Value::Words(part) => match with {
                Value::Words(with) => replaced(arena, text, part, with),
                _ => Err(Stop::Erred),
            },
            _ => Err(Stop::Erred),
        },
        _ => Err(Stop::Erred),
    }
}

// A method that takes two values.
#[tactic(auto, unfolding(crate::specs::Texts::text_change))]
pub(crate) fn text_change<'a>(
    arena: &'a Bump,
    name: &str,
    receiver: Value<'a>,
    first: Value<'a>,
    second: Value<'a>,
) -> Result<Value<'a>, Stop>
    ensures { Gives result value_of (text_change name.now (value_of receiver.entry) (value_of first.entry) (value_of second.entry)) }
{
    match name {
        "replace" => replace(arena, receiver, first, second),
        _ => Err(Stop::Erred),
    }
}
