//! Texts of keys that are joined with a slash between them: one text leads on from where the other leads, and nothing
//! is joined.
ghost use Rattle.std.specs.Prelude.{◌≡◌, ◌<◌, ◌≤◌, ◌-◌, ◌∷◌, ◌++◌, [], ℕ, List, length, true, false, Some, IfSome};
ghost use Rattle.expr_parser.specs.Tree.{Text};
ghost use Rattle.expr_parser.specs.View.{view};
ghost use Rattle.path_capture.specs.Path.{segments};
ghost use Rattle.evaluator.specs.Value.{whole};
ghost use Rattle.evaluator.specs.Working.Answers.{Gives};
ghost use Rattle.evaluator.specs.Parts.{value_of};
ghost use Rattle.evaluator.specs.Working.Parts.{result_of};
ghost use Rattle.evaluator.specs.Working.Seams.{BeginsBelow, IsClosed, EndsBelow, IsSeam, led, led_by};

use crate::snapshot::{Found, Snapshot, child_at};
use crate::value::{Stop, Value};
use bumpalo::Bump;
use bumpalo::collections::into_bump_str;
use expr_parser::{Expr, Operator};

// ---- where a slash stands

// Whether a slash is its first byte.
fn begins_with_slash(text: &str) -> bool
    ensures { result ≡ true → (rest : List ℕ) × (text.now ≡ 47 ∷ rest) }
{
    text.as_bytes().first() == Some(&b'/')
}

// Whether a slash is its last byte.
fn ends_with_slash(text: &str) -> bool
    ensures { result ≡ true → (front : List ℕ) × (text.now ≡ front ++ 47 ∷ []) }
{
    text.as_bytes().last() == Some(&b'/')
}

// The text of a literal.
fn literal_of(expr: &Expr) -> Option<&str>
    ensures { IfSome result (λ text. view expr.now ≡ Text text.now) }
{
    match expr {
        Expr::Text(text) => Some(text.as_str()),
        _ => None,
    }
}

// Whether it is a literal that begins with a slash.
fn begins_below(expr: &Expr) -> bool
    ensures { result ≡ true → BeginsBelow (view expr.now) }
{
    match literal_of(expr) {
        Some(text) => begins_with_slash(text),
        None => false,
    }
}

// Whether it is a literal that ends with one.
fn is_closed(expr: &Expr) -> bool
    ensures { result ≡ true → IsClosed (view expr.now) }
{
    match literal_of(expr) {
        Some(text) => ends_with_slash(text),
        None => false,
    }
}

// Whether it is such a literal, or a sum that ends with one.
fn ends_below(expr: &Expr) -> bool
    ensures { result ≡ true → EndsBelow (view expr.now) }
{
    match expr {
        Expr::Operation(operator, _, last) => match operator {
            Operator::Add => is_closed(last),
            _ => false,
        },
        _ => is_closed(expr),
    }
}

// Whether it is a sum with a slash between the text of its left operand and that of its right one, as far as literals
// show.
pub(crate) fn is_seam(expr: &Expr) -> bool
    ensures { result ≡ true → IsSeam (view expr.now) }
{
    match expr {
        Expr::Operation(operator, left, right) => match operator {
            Operator::Add => begins_below(right) || ends_below(left),
            _ => false,
        },
        _ => false,
    }
}

// ---- where a text leads

// Takes the bytes of a text from those that there is room for, or says that they are too many.
#[inline(always)]
fn has_room(text: &str, room: &mut usize) -> bool
    ensures fits { result ≡ true → length text.now ≤ room.old }
    ensures left { result ≡ true → room.new ≡ room.old - length text.now }
    ensures over { result ≡ false → room.old < length text.now }
{
    if text.len() > *room {
        return false;
    }
    *room -= text.len();
    true
}

// Where a text leads from here.
#[inline(always)]
fn text_below<'a>(
    arena: &'a Bump,
    at: &'a Snapshot<'a>,
    text: &'a str,
    room: &mut usize,
) -> Found<'a>
    ensures { Gives (result_of result) (λ found. (found.now, room.new)) (led (at.now, room.old) text.now) }
{
    if !has_room(text, room) {
        return Found::Erred;
    }
    child_at(arena, at, text)
}

// The text without a slash at its end.
fn before_slash(text: &str) -> &str
    ensures { segments result.now ≡ segments text.now }
{
    if !ends_with_slash(text) {
        return text;
    }
    text.split_at(text.len() - 1).0
}

// The text without a slash at its beginning.
fn behind_slash(text: &str) -> &str
    ensures { segments result.now ≡ segments text.now }
{
    if !begins_with_slash(text) {
        return text;
    }
    text.split_at(1).1
}

// The same as `text_below` at a literal, which mostly is one key with a slash at its ends.
#[inline(always)]
pub(crate) fn literal_below<'a>(
    arena: &'a Bump,
    at: &'a Snapshot<'a>,
    text: &'a str,
    room: &mut usize,
) -> Found<'a>
    ensures { Gives (result_of result) (λ found. (found.now, room.new)) (led (at.now, room.old) text.now) }
{
    if !has_room(text, room) {
        return Found::Erred;
    }
    child_at(arena, at, behind_slash(before_slash(text)))
}

// A number stands for its digits. It stays a function of its own, since room for them would be made and cleared for
// each operand.
#[inline(never)]
fn number_below<'a>(
    arena: &'a Bump,
    at: &'a Snapshot<'a>,
    number: i64,
    room: &mut usize,
) -> Found<'a>
    ensures { Gives (result_of result) (λ found. (found.now, room.new)) (led_by (at.now, room.old) (Some (whole number))) }
{
    match number.to_string(arena) {
        Ok(digits) => text_below(arena, at, into_bump_str(digits), room),
        Err(_) => Found::NoMemory,
    }
}

// Where the text of a value leads.
#[inline(always)]
pub(crate) fn value_below<'a>(
    arena: &'a Bump,
    at: &'a Snapshot<'a>,
    value: Value<'a>,
    room: &mut usize,
) -> Found<'a>
    ensures { Gives (result_of result) (λ found. (found.now, room.new)) (led_by (at.now, room.old) (Some (value_of value.entry))) }
{
    if let Value::Words(text) = value {
        return text_below(arena, at, text, room);
    }
    match value {
        Value::Whole(number) => number_below(arena, at, number, room),
        _ => Found::Erred,
    }
}
