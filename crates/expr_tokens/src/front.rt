//! The token at the front of a text.
ghost use Rattle.std.specs.Prelude.{◌≡◌, ◌+◌, ◌<◌, ◌^◌, Bool, true, length, IfOk, IfErr, IfSome, IfNone, ◌==◌, ◌≤◌};
ghost use Rattle.std.specs.Char.{is_ascii_digit};
ghost use Rattle.expr_tokens.specs.Words.{is_blank, past_blanks, is_name_start, is_name_byte, numeral, greatest, first_is, begins_digit, begins_fraction};
ghost use Rattle.expr_tokens.specs.Quoted.{is_quote as is_quote_byte};
ghost use Rattle.expr_tokens.specs.Token.{named, signs};
ghost use Rattle.expr_tokens.specs.Spelling.{ComesFirst};
ghost use Rattle.expr_tokens.specs.Working.Scanning.{IsRun, IsFaultFrom, begins_name, is_other, first_in};

use crate::escape::{closing, is_quote};
use crate::fault::{Excluded, ExprFault};
use crate::limits::MAX_NUMBER;
use crate::operator::Operator;
use crate::quoted::Quoted;
use crate::token::Token;
use crate::word::Word;

// The text from its first byte on that is no blank.
pub(crate) fn past_blanks(text: &str) -> &str
    ensures { result.now ≡ past_blanks text.now }
{
    text.split_at(blank_run(text.as_bytes())).1
}

// The token at the front, the longest that fits, and what follows it. Else the fault at the front
// of a text that goes on at this place. It takes no memory.
pub(crate) fn front<'a>(
    after_dot: bool,
    place: usize,
    text: &'a str,
) -> Result<(Token<'a>, &'a str), ExprFault>
    requires some { 0 < length text.now }
    requires fits { place + length text.now < 2 ^ 64 }
    ensures ok { IfOk result (λ x. ComesFirst after_dot text.now x.0 x.1.now) }
    ensures err { IfErr result (λ fault. IsFaultFrom place text.now fault) }
{
    let first = text.as_bytes()[0];
    if first.is_ascii_digit() {
        return number(place, text);
    }
    if is_name_start(first) {
        return Ok(name(after_dot, text));
    }
    if is_quote(first) {
        return quoted(place, text);
    }
    if first == b'$' {
        return capture(place, text);
    }
    if first == b'/' {
        return Err(ExprFault::NotInProfile(Excluded::Slash));
    }
    sign(place, text)
}

fn number<'a>(place: usize, text: &'a str) -> Result<(Token<'a>, &'a str), ExprFault>
    requires { begins_digit text.now ≡ true }
    ensures ok { IfOk result (λ x. (after_dot : Bool) → ComesFirst after_dot text.now x.0 x.1.now) }
    ensures err { IfErr result (λ fault. IsFaultFrom place text.now fault) }
{
    let (digits, rest) = text.split_at(digit_run(text.as_bytes()));
    if begins_fraction(rest.as_bytes()) {
        return Err(ExprFault::NotInProfile(Excluded::Number));
    }
    let Some(value) = value_of(digits.as_bytes()) else {
        return Err(ExprFault::BadExpression { byte: place });
    };
    Ok((Token::Number(value), rest))
}

// The number that digits say, if it can be written.
fn value_of(digits: &[u8]) -> Option<u64>
    ensures some { IfSome result (λ value. (value ≡ numeral digits.now) × (value ≤ greatest)) }
    ensures none { IfNone result (greatest < numeral digits.now) }
{
    let mut value = 0;
    for digit in digits {
        value = 10 * value + digit.saturating_sub(b'0') as u64;
        if value > MAX_NUMBER {
            return None;
        }
    }
    Some(value)
}

fn name<'a>(after_dot: bool, text: &'a str) -> (Token<'a>, &'a str)
    requires { begins_name text.now ≡ true }
    ensures { ComesFirst after_dot text.now result.0 result.1.now }
{
    let (word, rest) = text.split_at(name_run(text.as_bytes()));
    (named(after_dot, word), rest)
}

// The token of a name's word: a literal, unless it follows a dot.
fn named<'a>(after_dot: bool, word: &'a str) -> Token<'a>
    ensures { result ≡ named after_dot word.now }
{
    if after_dot {
        return Token::Name(Word::of_text(word));
    }
    match word {
        "true" => Token::True,
        "false" => Token::False,
        "null" => Token::Null,
        _ => Token::Name(Word::of_text(word)),
    }
}

fn quoted<'a>(place: usize, text: &'a str) -> Result<(Token<'a>, &'a str), ExprFault>
    requires quote { first_is is_quote_byte text.now ≡ true }
    requires fits { place + length text.now < 2 ^ 64 }
    ensures ok { IfOk result (λ x. (after_dot : Bool) → ComesFirst after_dot text.now x.0 x.1.now) }
    ensures err { IfErr result (λ fault. IsFaultFrom place text.now fault) }
{
    let bytes = text.as_bytes();
    match closing(bytes[0], &bytes[1..]) {
        Ok(on) => {
            let (written, rest) = text.split_at(on + 2);
            Ok((Token::Text(Quoted::of_written(written)), rest))
        }
        Err(on) => Err(ExprFault::BadExpression {
            byte: place + 1 + on,
        }),
    }
}

fn capture<'a>(place: usize, text: &'a str) -> Result<(Token<'a>, &'a str), ExprFault>
    requires { first_is (λ c. c == 36) text.now ≡ true }
    ensures ok { IfOk result (λ x. (after_dot : Bool) → ComesFirst after_dot text.now x.0 x.1.now) }
    ensures err { IfErr result (λ fault. IsFaultFrom place text.now fault) }
{
    let (_, behind) = text.split_at(1);
    if !begins_name(behind.as_bytes()) {
        return Err(ExprFault::BadExpression { byte: place });
    }
    let (word, rest) = behind.split_at(name_run(behind.as_bytes()));
    Ok((Token::Capture(Word::of_text(word)), rest))
}

fn sign<'a>(place: usize, text: &'a str) -> Result<(Token<'a>, &'a str), ExprFault>
    requires { first_is is_other text.now ≡ true }
    ensures ok { IfOk result (λ x. (after_dot : Bool) → ComesFirst after_dot text.now x.0 x.1.now) }
    ensures err { IfErr result (λ fault. IsFaultFrom place text.now fault) }
{
    let Some((token, bytes)) = sign_at(text.as_bytes()) else {
        return Err(ExprFault::BadExpression { byte: place });
    };
    Ok((token, text.split_at(bytes).1))
}

// The longest sign at the front, and its bytes.
fn sign_at<'a>(bytes: &[u8]) -> Option<(Token<'a>, usize)>
    ensures { result ≡ first_in signs bytes.now }
{
    match bytes {
        [b'(', ..] => Some((Token::OpenParenthesis, 1)),
        [b')', ..] => Some((Token::CloseParenthesis, 1)),
        [b'[', ..] => Some((Token::OpenBracket, 1)),
        [b']', ..] => Some((Token::CloseBracket, 1)),
        [b',', ..] => Some((Token::Comma, 1)),
        [b'.', ..] => Some((Token::Dot, 1)),
        [b'?', ..] => Some((Token::Question, 1)),
        [b':', ..] => Some((Token::Colon, 1)),
        [b'!', b'=', b'=', ..] => Some((Token::Operator(Operator::NotEqual), 3)),
        [b'!', b'=', ..] => Some((Token::Operator(Operator::NotEqual), 2)),
        [b'!', ..] => Some((Token::Not, 1)),
        [b'-', ..] => Some((Token::Operator(Operator::Subtract), 1)),
        [b'+', ..] => Some((Token::Operator(Operator::Add), 1)),
        [b'*', ..] => Some((Token::Operator(Operator::Multiply), 1)),
        [b'%', ..] => Some((Token::Operator(Operator::Remainder), 1)),
        [b'<', b'=', ..] => Some((Token::Operator(Operator::LessOrEqual), 2)),
        [b'<', ..] => Some((Token::Operator(Operator::Less), 1)),
        [b'>', b'=', ..] => Some((Token::Operator(Operator::GreaterOrEqual), 2)),
        [b'>', ..] => Some((Token::Operator(Operator::Greater), 1)),
        [b'=', b'=', b'=', ..] => Some((Token::Operator(Operator::Equal), 3)),
        [b'=', b'=', ..] => Some((Token::Operator(Operator::Equal), 2)),
        [b'&', b'&', ..] => Some((Token::Operator(Operator::And), 2)),
        [b'|', b'|', ..] => Some((Token::Operator(Operator::Or), 2)),
        _ => None,
    }
}

// Whether a point and a digit come first, or an exponent.
fn begins_fraction(bytes: &[u8]) -> bool
    ensures { result ≡ begins_fraction bytes.now }
{
    match bytes {
        [b'e' | b'E', ..] => true,
        [b'.', digit, ..] => digit.is_ascii_digit(),
        _ => false,
    }
}

fn begins_name(bytes: &[u8]) -> bool
    ensures { result ≡ begins_name bytes.now }
{
    match bytes {
        [first, ..] => is_name_start(*first),
        [] => false,
    }
}

fn is_name_start(byte: u8) -> bool
    ensures { result ≡ is_name_start byte }
{
    byte.is_ascii_alphabetic() || byte == b'_'
}

fn is_name_byte(byte: u8) -> bool
    ensures { result ≡ is_name_byte byte }
{
    is_name_start(byte) || byte.is_ascii_digit()
}

fn is_blank(byte: u8) -> bool
    ensures { result ≡ is_blank byte }
{
    matches!(byte, b' ' | b'\t' | b'\n' | b'\r')
}

// How many blanks come first.
fn blank_run(bytes: &[u8]) -> usize
    ensures { IsRun is_blank bytes.now result }
{
    let mut n = 0;
    while n < bytes.len() && is_blank(bytes[n]) {
        n += 1;
    }
    n
}

// How many digits come first.
fn digit_run(bytes: &[u8]) -> usize
    ensures { IsRun is_ascii_digit bytes.now result }
{
    let mut n = 0;
    while n < bytes.len() && bytes[n].is_ascii_digit() {
        n += 1;
    }
    n
}

// How many bytes come first that may follow in a name.
fn name_run(bytes: &[u8]) -> usize
    ensures { IsRun is_name_byte bytes.now result }
{
    let mut n = 0;
    while n < bytes.len() && is_name_byte(bytes[n]) {
        n += 1;
    }
    n
}
