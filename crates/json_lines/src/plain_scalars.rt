//! Values that are plain and no objects: texts without an escape, whole numbers, and literals.
ghost use Rattle.std.specs.Prelude.{◌≡◌, ◌++◌, true, IfSome, get_or};
ghost use Rattle.std.specs.Char.{is_ascii_digit};
ghost use Rattle.json.specs.Reads.{token_of};
ghost use Rattle.json_lines.specs.Tokens.{BeginsWith, EndsValue, IsNegative};

use crate::plain_text::{ends_value, past_first, plain_digits, quoted};
use json::Token;

/// The value that comes first and what follows it, where it is plain and no object, and a comma or the brace that
/// closes an object stands behind it.
#[inline(always)]
pub(crate) fn plain_scalar(text: &str) -> Option<(Token<'_>, &str)>
    ensures { IfSome result (λ parts. BeginsWith (token_of parts.0) text.now parts.1.now) }
{
    match text.as_bytes() {
        [b'"', ..] => {
            let (words, behind) = quoted(text)?;
            Some((Token::String(words), ending(behind)?))
        }
        [b'0'..=b'9', ..] => {
            let (digits, behind) = plain_digits(text)?;
            Some((Token::Number(digits), behind))
        }
        [b'-', b'0'..=b'9', ..] => {
            let (number, behind) = negative(text)?;
            Some((Token::Number(number), behind))
        }
        [b't', ..] => Some((Token::Bool(true), past_literal(text, "true")?)),
        [b'f', ..] => Some((Token::Bool(false), past_literal(text, "false")?)),
        [b'n', ..] => Some((Token::Null, past_literal(text, "null")?)),
        _ => None,
    }
}

// The sign that comes first with the digits behind it, and what follows them.
#[inline(always)]
fn negative(text: &str) -> Option<(&str, &str)>
    requires sign { get_or text.now 0 0 ≡ 45 }
    requires digit { is_ascii_digit (get_or text.now 1 0) ≡ true }
    ensures { IfSome result (λ parts. IsNegative text.now parts.0.now parts.1.now) }
{
    let (digits, _) = plain_digits(past_first(text))?;
    Some(text.split_at(1 + digits.len()))
}

// What follows a literal that comes first and ends a value.
fn past_literal<'a>(text: &'a str, literal: &str) -> Option<&'a str>
    ensures whole { IfSome result (λ rest. text.now ≡ literal.now ++ rest.now) }
    ensures ends { IfSome result (λ rest. EndsValue rest.now) }
{
    ending(text.strip_prefix(literal)?)
}

// The same text, if a value may end before it.
#[inline(always)]
fn ending(text: &str) -> Option<&str>
    ensures same { IfSome result (λ rest. rest.now ≡ text.now) }
    ensures ends { IfSome result (λ rest. EndsValue rest.now) }
{
    if ends_value(text.as_bytes()) {
        Some(text)
    } else {
        None
    }
}
