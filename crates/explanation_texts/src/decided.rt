//! Which parts of a rule decided its answer.
//!
//! The whole expression is taken apart as long as a part of it alone has its answer: a conjunction that is false by its
//! false operand, a choice by the branch that it takes, and so on. What is left are comparisons, calls and names.

use evaluator::{Meaning, Value};
use explainer::Look;
use expr_parser::Expr;
use expr_places::width;
use expr_tokens::Operator;
use json_tree::NoMemory;
use std::alloc::Global;

/// The indices of the parts that decided, in the order in which they stand: those whose answers make that of the whole,
/// and where the whole is an error the first part that errs.
pub(crate) fn deciding(alloc: Global, looks: &[Look<'_>]) -> Result<Vec<usize>, NoMemory> {
    let mut found = Vec::new(alloc);
    let Some(whole) = looks.last() else {
        return Ok(found);
    };
    if truth_of(whole).is_none() {
        if let Some(first) = looks.iter().position(|look| look.meaning.is_none()) {
            found.push(first)?;
            return Ok(found);
        }
    }
    let mut pending = Vec::new(alloc);
    pending.push(looks.len().saturating_sub(1))?;
    for _ in 0..=looks.len() {
        let Some(index) = pending.pop() else {
            break;
        };
        let before = pending.len();
        push_parts(looks, index, &mut pending)?;
        if pending.len() == before {
            found.push(index)?;
        }
    }
    Ok(found)
}

// Pushes the parts whose answers make that of a part, the first of them last; none where it is not taken apart.
fn push_parts(looks: &[Look<'_>], index: usize, pending: &mut Vec<usize>) -> Result<(), NoMemory> {
    let Some(look) = looks.get(index) else {
        return Ok(());
    };
    match look.part {
        Expr::Group(inner) | Expr::Not(inner) => {
            push_part(looks, look.at.saturating_add(1), inner, pending)
        }
        Expr::Operation(Operator::And, left, right) => {
            push_operands(looks, look, left, right, true, pending)
        }
        Expr::Operation(Operator::Or, left, right) => {
            push_operands(looks, look, left, right, false, pending)
        }
        Expr::Choice(condition, yes, no) => {
            let second = behind(look.at, condition)?;
            push_part(looks, behind(second, yes)?, no, pending)?;
            push_part(looks, second, yes, pending)?;
            push_part(looks, look.at, condition, pending)
        }
        _ => Ok(()),
    }
}

// Of `&&` (for which `all` is true) and `||` the operand that alone has the answer, or both.
fn push_operands(
    looks: &[Look<'_>],
    look: &Look<'_>,
    left: &Expr,
    right: &Expr,
    all: bool,
    pending: &mut Vec<usize>,
) -> Result<(), NoMemory> {
    let first = place_of(looks, look.at, width(left)?);
    let second = place_of(looks, behind(look.at, left)?, width(right)?);
    let is_short = first.and_then(|index| looks.get(index)).and_then(truth_of) == Some(!all);
    if is_short {
        return push_index(first, pending);
    }
    push_index(second, pending)?;
    let by_both = truth_of(look) == Some(all);
    if by_both {
        push_index(first, pending)
    } else {
        Ok(())
    }
}

fn push_part(
    looks: &[Look<'_>],
    at: usize,
    part: &Expr,
    pending: &mut Vec<usize>,
) -> Result<(), NoMemory> {
    push_index(place_of(looks, at, width(part)?), pending)
}

fn push_index(index: Option<usize>, pending: &mut Vec<usize>) -> Result<(), NoMemory> {
    if let Some(index) = index {
        pending.push(index)?;
    }
    Ok(())
}

/// Where the part with these tokens is among those that were looked at.
pub(crate) fn place_of(looks: &[Look<'_>], at: usize, tokens: usize) -> Option<usize> {
    looks
        .iter()
        .position(|look| look.at == at && look.tokens == tokens)
}

/// How many tokens are before what stands behind a part and one token more.
pub(crate) fn behind(at: usize, part: &Expr) -> Result<usize, NoMemory> {
    Ok(at.saturating_add(width(part)?).saturating_add(1))
}

/// The boolean that a part means, if it means one.
pub(crate) fn truth_of(look: &Look<'_>) -> Option<bool> {
    match look.meaning {
        Some(Meaning::Value(Value::Truth(truth))) => Some(truth),
        _ => None,
    }
}

/// The indices of what a part is made of and that is worth showing: its operands, its receiver and what it is given, as
/// they are written, but neither literals nor what is only a step to another one.
pub(crate) fn made_of(
    alloc: Global,
    looks: &[Look<'_>],
    index: usize,
) -> Result<Vec<usize>, NoMemory> {
    let mut found = Vec::new(alloc);
    let Some(whole) = looks.get(index) else {
        return Ok(found);
    };
    if is_name(whole) {
        found.push(index)?;
        return Ok(found);
    }
    for (place, look) in looks.iter().enumerate() {
        if place < index
            && lies_in(look, whole)
            && is_shown(look)
            && !is_step(looks, index, place)
        {
            found.push(place)?;
        }
    }
    Ok(found)
}

// A name, which is made of nothing.
fn is_name(look: &Look<'_>) -> bool {
    matches!(
        look.part,
        Expr::Variable(_) | Expr::Capture(_) | Expr::Member(_, _)
    )
}

fn is_shown(look: &Look<'_>) -> bool {
    !is_literal(look) && !matches!(look.part, Expr::Group(_))
}

/// Whether a part is a literal, which means what it is.
pub(crate) fn is_literal(look: &Look<'_>) -> bool {
    matches!(
        look.part,
        Expr::Number(_) | Expr::Text(_) | Expr::True | Expr::False | Expr::Null
    )
}

fn lies_in(look: &Look<'_>, whole: &Look<'_>) -> bool {
    whole.at <= look.at && end_of(look) <= end_of(whole)
}

fn end_of(look: &Look<'_>) -> usize {
    look.at.saturating_add(look.tokens)
}

// Whether a part is the front of a longer one within the whole.
fn is_step(looks: &[Look<'_>], whole: usize, place: usize) -> bool {
    let Some(look) = looks.get(place) else {
        return false;
    };
    looks.iter().enumerate().any(|(other, longer)| {
        other < whole
            && longer.at == look.at
            && longer.tokens > look.tokens
            && !matches!(
                longer.part,
                Expr::Operation(_, _, _) | Expr::Choice(_, _, _)
            )
    })
}
