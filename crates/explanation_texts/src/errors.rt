//! Why a part of a rule is an error, in words.

use crate::decided::{behind, place_of};
use crate::values::{meaning_in_words, put_plain};
use evaluator::Meaning;
use explainer::Look;
use expr_parser::Expr;
use expr_places::width;
use expr_tokens::Operator;
use json_tree::NoMemory;
use std::alloc::Global;

/// Appends why a part is an error that is made of parts which are not errors.
pub(crate) fn put_reason(
    alloc: Global,
    looks: &[Look<'_>],
    look: &Look<'_>,
    text: &mut String,
) -> Result<(), NoMemory> {
    match look.part {
        Expr::Operation(operator, left, right) => {
            put_untaken(sign_of(*operator), text)?;
            put_part(alloc, looks, look.at, left, text)?;
            let second = behind(look.at, left)?;
            if place_of(looks, second, width(right)?).is_some() {
                text.push_str(" and ")?;
                put_part(alloc, looks, second, right, text)?;
            }
            Ok(())
        }
        Expr::Not(inner) => put_operand(alloc, looks, "!", look, inner, text),
        Expr::Negate(inner) => put_operand(alloc, looks, "-", look, inner, text),
        Expr::Choice(condition, _, _) => {
            text.push_str(": a condition is true or false, and not ")?;
            put_part(alloc, looks, look.at, condition, text)
        }
        Expr::Call(receiver, name, _) => {
            put_call(alloc, looks, look, receiver, name.as_str(), text)
        }
        Expr::Member(receiver, name) => {
            put_nameless(alloc, looks, look, receiver, name.as_str(), text)
        }
        _ => Ok(()),
    }
}

fn put_untaken(sign: &str, text: &mut String) -> Result<(), NoMemory> {
    text.push_str(": `")?;
    text.push_str(sign)?;
    text.push_str("` doesn't take ")?;
    Ok(())
}

// That an operator in front doesn't take what stands behind it.
fn put_operand(
    alloc: Global,
    looks: &[Look<'_>],
    sign: &str,
    look: &Look<'_>,
    inner: &Expr,
    text: &mut String,
) -> Result<(), NoMemory> {
    put_untaken(sign, text)?;
    put_part(alloc, looks, look.at.saturating_add(1), inner, text)
}

// Why a call is an error: its receiver has no such method, or the method doesn't take what it is given.
fn put_call(
    alloc: Global,
    looks: &[Look<'_>],
    look: &Look<'_>,
    receiver: &Expr,
    name: &str,
    text: &mut String,
) -> Result<(), NoMemory> {
    let found = place_of(looks, look.at, width(receiver)?).and_then(|place| looks.get(place));
    if let Some(Some(Meaning::Snapshot(_))) = found.map(|found| found.meaning) {
        text.push_str(": `")?;
        put_plain(name, text)?;
        text.push_str("` doesn't take what it is given")?;
        return Ok(());
    }
    put_nameless(alloc, looks, look, receiver, name, text)
}

// That a receiver has no such name.
fn put_nameless(
    alloc: Global,
    looks: &[Look<'_>],
    look: &Look<'_>,
    receiver: &Expr,
    name: &str,
    text: &mut String,
) -> Result<(), NoMemory> {
    text.push_str(": `")?;
    put_plain(name, text)?;
    text.push_str("` is not for ")?;
    put_part(alloc, looks, look.at, receiver, text)
}

// What the part at a place means.
fn put_part(
    alloc: Global,
    looks: &[Look<'_>],
    at: usize,
    part: &Expr,
    text: &mut String,
) -> Result<(), NoMemory> {
    let found = place_of(looks, at, width(part)?).and_then(|place| looks.get(place));
    match found {
        Some(found) => meaning_in_words(alloc, found.meaning, text),
        None => Ok(()),
    }
}

fn sign_of(operator: Operator) -> &'static str {
    match operator {
        Operator::Or => "||",
        Operator::And => "&&",
        Operator::Equal => "==",
        Operator::NotEqual => "!=",
        Operator::Less => "<",
        Operator::LessOrEqual => "<=",
        Operator::Greater => ">",
        Operator::GreaterOrEqual => ">=",
        Operator::Add => "+",
        Operator::Subtract => "-",
        Operator::Multiply => "*",
        Operator::Remainder => "%",
    }
}
