//! What is plain in a text of JSON: what stands in quotes without an escape, and digits.
ghost use Rattle.std.specs.Prelude.{◌≡◌, ◌↔◌, ◌<◌, ◌≤◌, ◌∷◌, ◌++◌, true, false, IfSome, length, take, get_or};
ghost use Rattle.std.specs.Char.{is_ascii_digit};
ghost use Rattle.std.specs.List.{list_all};
ghost use Rattle.json.specs.Lex.{between, lex};
ghost use Rattle.json_lines.specs.Tokens.{BeginsBlank, is_plain, IsQuoted, EndsValue, AreDigits};

use crate::runs::{digit_run, plain_run};

/// What follows the first byte.
#[inline(always)]
pub(crate) fn past_first(text: &str) -> &str
    requires some { 0 < length text.now }
    requires ascii { get_or text.now 0 0 < 128 }
    ensures { text.now ≡ get_or text.now 0 0 ∷ result.now }
{
    text.split_at(1).1
}

/// What follows the blanks that come first.
#[inline(always)]
pub(crate) fn past_blanks(text: &str) -> &str
    ensures { lex between result.now ≡ lex between text.now }
{
    match text.as_bytes() {
        [0..=b' ', ..] => behind_blanks(text),
        _ => text,
    }
}

// The same where a blank may come. It stays a function of its own, since no blank stands in most messages.
#[inline(never)]
fn behind_blanks(text: &str) -> &str
    ensures { lex between result.now ≡ lex between text.now }
{
    let mut rest = text;
    'blanks: while begins_blank(rest.as_bytes()) {
        rest = past_first(rest);
    }
    rest
}

fn begins_blank(bytes: &[u8]) -> bool
    ensures { result ≡ true ↔ BeginsBlank bytes.now }
{
    matches!(bytes, [b' ' | b'\t' | b'\n' | b'\r', ..])
}

/// The text in the quotes that come first, and what follows them. None where it has an escape.
#[inline(always)]
pub(crate) fn quoted(text: &str) -> Option<(&str, &str)>
    requires { get_or text.now 0 0 ≡ 34 }
    ensures { IfSome result (λ parts. IsQuoted text.now parts.0.now parts.1.now) }
{
    let inner = past_first(text);
    let (front, behind) = inner.split_at(plain_run(inner.as_bytes()));
    match behind.as_bytes() {
        [b'"', ..] => Some((front, past_first(behind))),
        _ => None,
    }
}

/// The digits that come first and end a value, and what follows them. None where they don't, and where a 0 stands
/// before others.
#[inline(always)]
pub(crate) fn plain_digits(text: &str) -> Option<(&str, &str)>
    requires { is_ascii_digit (get_or text.now 0 0) ≡ true }
    ensures digits { IfSome result (λ parts. AreDigits text.now parts.0.now parts.1.now) }
    ensures ends { IfSome result (λ parts. EndsValue parts.1.now) }
{
    let bytes = text.as_bytes();
    let count = digit_run(bytes);
    let is_alone = count == 1 || bytes[0] != b'0';
    if is_alone && ends_value(&bytes[count..]) {
        Some(text.split_at(count))
    } else {
        None
    }
}

/// Whether a value ends before these bytes: a comma comes, or the brace that closes an object.
#[inline(always)]
pub(crate) fn ends_value(bytes: &[u8]) -> bool
    ensures { result ≡ true ↔ EndsValue bytes.now }
{
    matches!(bytes, [b',' | b'}', ..])
}
