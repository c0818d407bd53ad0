//! At which byte of a rule's text its fault shows.
ghost use Rattle.std.specs.Prelude.{◌≡◌, ℕ, List, true, IfOk, IfSome};
ghost use Rattle.std.specs.List.{list_all};
ghost use Rattle.std.specs.Char.{is_ascii_digit};
ghost use Rattle.expr_tokens.specs.Words.{is_numeral, begins_fraction};
ghost use Rattle.expr_tokens.specs.Spelling.{SpellsTokens, ArePlaces};
ghost use Rattle.expr_tokens.specs.Faults.{BeginsFraction};
ghost use Rattle.expr_parser.specs.Stopping.{Refused};
ghost use Rattle.expr_parser.specs.declared.parser.ParseFault.TheVariants.{Bracket};
ghost use Rattle.rules_reader.specs.Part.{texts};
ghost use Rattle.rules_reader.specs.Unread.{of_type_fault};
ghost use Rattle.rules_reader.specs.declared.rule_text.Unread.TheVariants.{NoRule};
ghost use Rattle.diagnosis.specs.Shown.{IsShownAt, IsLeftOutAt, IsBracketAt, IsMisplacedAt, Begins, stand_in};

use crate::blame::token_of_fault;
use expr_parser::{ParseFault, expression};
use expr_tokens::{Excluded, ExprFault, Scanned, scan};
use expr_types::TypeFault;
use json_tree::NoMemory;
use rules_reader::{LeftOut, RuleFault, RuleName};
use std::alloc::Global;

/// The byte of a rule's text at which its fault shows, if that is found.
pub(crate) fn shown_at(
    alloc: Global,
    text: &str,
    rule: &RuleName,
    fault: &RuleFault,
) -> Result<Option<usize>, NoMemory>
    ensures { IfOk result (λ byte. IfSome byte (IsShownAt (texts rule.now.pattern) rule.now.kind text.now fault.now)) }
{
    match fault {
        RuleFault::BadExpression { byte } => Ok(Some(*byte)),
        RuleFault::NotInProfile(LeftOut::Sign(Excluded::Bracket)) => bracket_in(alloc, text),
        RuleFault::NotInProfile(LeftOut::Sign(sign)) => left_out_in(alloc, text, *sign),
        _ => match misplaced(alloc, text, rule)? {
            Some((byte, found)) if is_same(&found, fault) => Ok(Some(byte)),
            _ => Ok(None),
        },
    }
}

// ---- sorts

// Where the expression that a text is may not stand in a rule, and its first fault.
fn misplaced(
    alloc: Global,
    text: &str,
    rule: &RuleName,
) -> Result<Option<(usize, TypeFault)>, NoMemory>
    ensures { IfOk result (λ found. IfSome found (λ found. IsMisplacedAt (texts rule.now.pattern) rule.now.kind text.now found.1 found.0)) }
{
    let Some(scanned) = scanned(alloc, text)? else {
        return Ok(None);
    };
    let expr = match expression(alloc, &scanned.tokens) {
        Ok(expr) => expr,
        Err(ParseFault::NoMemory) => return Err(NoMemory),
        Err(_) => return Ok(None),
    };
    let Some((token, fault)) = token_of_fault(alloc, &expr, rule)? else {
        return Ok(None);
    };
    match scanned.places.get(token) {
        Some(byte) => Ok(Some((*byte, fault))),
        None => Ok(None),
    }
}

// Whether the fault of a rule is this one of its sorts.
fn is_same(found: &TypeFault, fault: &RuleFault) -> bool
    ensures { result ≡ true → of_type_fault found.now ≡ NoRule fault.now }
{
    match (found, fault) {
        (TypeFault::TypeError, RuleFault::TypeError) => true,
        (TypeFault::NotInProfile(one), RuleFault::NotInProfile(LeftOut::Name(other))) => {
            one.as_str() == other.as_str()
        }
        (TypeFault::UnknownName(one), RuleFault::UnknownName(other)) => {
            one.as_str() == other.as_str()
        }
        _ => false,
    }
}

// The tokens of a text and their places, if it spells any.
fn scanned(alloc: Global, text: &str) -> Result<Option<Scanned<'_>>, NoMemory>
    ensures { IfOk result (λ found. IfSome found (λ scanned. SpellsTokens text.now scanned.tokens.items × ArePlaces text.now scanned.tokens.items scanned.places.items)) }
{
    match scan(alloc, text) {
        Ok(scanned) => Ok(Some(scanned)),
        Err(ExprFault::NoMemory) => Err(NoMemory),
        Err(_) => Ok(None),
    }
}

// ---- what the language leaves out

// Where the bracket of an index stands.
fn bracket_in(alloc: Global, text: &str) -> Result<Option<usize>, NoMemory>
    ensures { IfOk result (λ byte. IfSome byte (IsBracketAt text.now)) }
{
    let Some(scanned) = scanned(alloc, text)? else {
        return Ok(None);
    };
    match expression(alloc, &scanned.tokens) {
        Err(ParseFault::NoMemory) => Err(NoMemory),
        Err(ParseFault::Bracket { left }) => Ok(place_before(&scanned, left)),
        _ => Ok(None),
    }
}

// Where the token begins that is the first of so many at the end.
fn place_before(scanned: &Scanned<'_>, left: usize) -> Option<usize>
    ensures { (text : List ℕ) → SpellsTokens text scanned.now.tokens.items → ArePlaces text scanned.now.tokens.items scanned.now.places.items → Refused scanned.now.tokens.items (Bracket left) → IfSome result (IsBracketAt text) }
{
    let token = scanned.tokens.len().checked_sub(left)?;
    let byte = scanned.places.get(token)?;
    Some(*byte)
}

// Where a slash or a number begins that is left out.
fn left_out_in(alloc: Global, text: &str, sign: Excluded) -> Result<Option<usize>, NoMemory>
    ensures { IfOk result (λ byte. IfSome byte (IsLeftOutAt text.now sign)) }
{
    for byte in 0..text.len() {
        if is_left_out_at(alloc, text, sign, byte)? {
            return Ok(Some(byte));
        }
    }
    Ok(None)
}

fn is_left_out_at(alloc: Global, text: &str, sign: Excluded, byte: usize) -> Result<bool, NoMemory>
    ensures { IfOk result (λ is. is ≡ true → IsLeftOutAt text.now sign byte) }
{
    let Some((front, rest)) = text.split_at_checked(byte) else {
        return Ok(false);
    };
    if !begins(sign, rest.as_bytes()) {
        return Ok(false);
    }
    let mut other = String::from_str(alloc, front)?;
    other.push_str(stand_in(sign))?;
    match scanned(alloc, other.as_str())? {
        Some(scanned) => Ok(scanned.places.last() == Some(&byte)),
        None => Ok(false),
    }
}

// A token that stands for what is left out.
fn stand_in(sign: Excluded) -> &'static str
    ensures { result.now ≡ stand_in sign }
{
    match sign {
        Excluded::Number => "0",
        Excluded::Slash | Excluded::Bracket => ")",
    }
}

// Whether bytes begin with what is left out.
fn begins(sign: Excluded, bytes: &[u8]) -> bool
    ensures { result ≡ true → Begins sign bytes.now }
{
    match (sign, bytes) {
        (Excluded::Slash, [b'/', ..]) => true,
        (Excluded::Number, _) => is_fraction(bytes),
        _ => false,
    }
}

// Whether bytes begin with digits, and a point or an exponent behind them.
fn is_fraction(bytes: &[u8]) -> bool
    ensures { result ≡ true → BeginsFraction bytes.now }
{
    for end in 0..bytes.len() {
        let (digits, rest) = bytes.split_at(end);
        if is_numeral(digits) && begins_fraction(rest) {
            return true;
        }
    }
    false
}

fn is_numeral(bytes: &[u8]) -> bool
    ensures { result ≡ is_numeral bytes.now }
{
    !bytes.is_empty() && are_digits(bytes)
}

#[cycle(digits)]
fn are_digits(bytes: &[u8]) -> bool
    ensures { result ≡ list_all is_ascii_digit bytes.now }
{
    match bytes {
        [] => true,
        [first, rest @ ..] => first.is_ascii_digit() && are_digits(rest),
    }
}

fn begins_fraction(bytes: &[u8]) -> bool
    ensures { result ≡ begins_fraction bytes.now }
{
    match bytes {
        [b'e' | b'E', ..] => true,
        [b'.', digit, ..] => digit.is_ascii_digit(),
        _ => false,
    }
}
