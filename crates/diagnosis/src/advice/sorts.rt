//! What to do where something of another sort is wanted.

use crate::blame::{first_without_sort, has_sort, has_value};
use expr_parser::{Argument, Expr, ExprFault, Operator, parse};
use expr_places::parts;
use expr_tokens::MAX_EXPRESSION_BYTES;
use expr_types::Sort;
use json_tree::NoMemory;
use rules_reader::{RuleName, sort_in_rule};
use std::alloc::Global;

const VALUE: &str = "` is a snapshot, and a value is wanted: add `.val()` behind it";

const CONDITION: &str =
    "` is a snapshot, and true or false is wanted: add `.exists()` or `.val()` behind it";

const GENERAL: &str = "a value is wanted here: a snapshot, as `data`, has one by `.val()`";

/// What to do about the text of a rule in which something of another sort is wanted.
pub(super) fn advice_on_sorts(
    alloc: Global,
    rule: &RuleName,
    text: &str,
) -> Result<String, NoMemory> {
    match parse(alloc, text) {
        Ok(expr) => match part_at_fault(alloc, &expr, rule)? {
            Some(Misfit::NoValue(part)) => advice_on_no_value(alloc, part, VALUE),
            Some(Misfit::NoCondition(part)) => advice_on_no_value(alloc, part, CONDITION),
            Some(Misfit::Use(receiver, part)) => advice_on_use(alloc, receiver, part),
            None => Ok(String::from_str(alloc, GENERAL)?),
        },
        Err(ExprFault::NoMemory) => Err(NoMemory),
        Err(_) => Ok(String::from_str(alloc, GENERAL)?),
    }
}

// The part of an expression that is at fault.
#[derive(Clone, Copy)]
enum Misfit<'e> {
    // It is no value, and stands where one is wanted.
    NoValue(&'e Expr),
    // The same where true or false is wanted.
    NoCondition(&'e Expr),
    // It is a use that something of this sort does not have.
    Use(Sort, &'e Expr),
}

// The part of the expression of a rule that is at fault.
fn part_at_fault<'e>(
    alloc: Global,
    expr: &'e Expr,
    rule: &RuleName,
) -> Result<Option<Misfit<'e>>, NoMemory> {
    let (part, _) = innermost(alloc, expr, rule)?;
    if has_sort(alloc, part, rule)? {
        return Ok(Some(Misfit::NoCondition(part)));
    }
    match first_without_value(alloc, part, rule)? {
        Some(operand) if wants_conditions(part) => Ok(Some(Misfit::NoCondition(operand))),
        Some(operand) => Ok(Some(Misfit::NoValue(operand))),
        None => Ok(misused(alloc, part, rule)),
    }
}

/// The part of an expression of a rule to which the first parts without a sort lead, and whether a dot follows it.
pub(super) fn innermost<'e>(
    alloc: Global,
    expr: &'e Expr,
    rule: &RuleName,
) -> Result<(&'e Expr, bool), NoMemory> {
    let mut part = expr;
    let mut is_received = false;
    for _ in 0..MAX_EXPRESSION_BYTES {
        match first_without_sort(alloc, part, rule)? {
            Some(inner) => {
                is_received = inner.before == 0 && has_receiver(part);
                part = inner.part;
            }
            None => break,
        }
    }
    Ok((part, is_received))
}

fn has_receiver(expr: &Expr) -> bool {
    matches!(expr, Expr::Member(_, _) | Expr::Call(_, _, _))
}

// Whether true or false is wanted of the operands.
fn wants_conditions(expr: &Expr) -> bool {
    matches!(
        expr,
        Expr::Not(_) | Expr::Choice(_, _, _) | Expr::Operation(Operator::And | Operator::Or, _, _)
    )
}

// The first part of an expression that must be a value and is not one.
fn first_without_value<'e>(
    alloc: Global,
    expr: &'e Expr,
    rule: &RuleName,
) -> Result<Option<&'e Expr>, NoMemory> {
    let receivers = if has_receiver(expr) { 1 } else { 0 };
    let placed = parts(alloc, expr)?;
    for part in placed.iter().skip(receivers) {
        if !has_value(alloc, part.part, rule)? {
            return Ok(Some(part.part));
        }
    }
    Ok(None)
}

// A use, and the sort of its receiver.
fn misused<'e>(alloc: Global, expr: &'e Expr, rule: &RuleName) -> Option<Misfit<'e>> {
    let receiver = match expr {
        Expr::Member(receiver, _) => receiver,
        Expr::Call(receiver, _, _) => receiver,
        _ => return None,
    };
    match sort_in_rule(alloc, receiver, rule.kind, &rule.pattern) {
        Ok(sort) => Some(Misfit::Use(sort, expr)),
        Err(_) => None,
    }
}

pub(super) fn is_test(name: &str) -> bool {
    matches!(
        name,
        "val" | "exists" | "hasChildren" | "isNumber" | "isString" | "isBoolean"
    )
}

pub(super) fn is_of_snapshot(name: &str) -> bool {
    is_test(name) || matches!(name, "child" | "parent" | "hasChild")
}

pub(super) fn is_of_text(name: &str) -> bool {
    matches!(
        name,
        "length" | "contains" | "beginsWith" | "endsWith" | "replace"
    )
}

fn is_of_query(name: &str) -> bool {
    matches!(
        name,
        "orderByKey"
            | "orderByValue"
            | "orderByChild"
            | "startAt"
            | "endAt"
            | "equalTo"
            | "limitToFirst"
            | "limitToLast"
    )
}

// What to do about a snapshot or a query where a value is wanted.
fn advice_on_no_value(alloc: Global, part: &Expr, wanted: &str) -> Result<String, NoMemory> {
    let mut words = String::from_str(alloc, "`")?;
    match part {
        Expr::Variable(name) => {
            if name.as_str() == "query" {
                return Ok(String::from_str(
                    alloc,
                    "`query` is no value: name a part of it, as `query.limitToFirst`",
                )?);
            }
            words.push_str(name.as_str())?;
        }
        Expr::Call(_, name, arguments) => match arguments.as_slice() {
            [Argument::One(Expr::Text(key))] => words.push_str(format!(in alloc;
                "{}('{}')",
                name.as_str(),
                key.as_str()
            )?.as_str())?,
            [] => words.push_str(format!(in alloc; "{}()", name.as_str())?.as_str())?,
            _ => words.push_str(format!(in alloc; "{}(..)", name.as_str())?.as_str())?,
        },
        _ => words.push_str("(..)")?,
    }
    words.push_str(wanted)?;
    Ok(words)
}

// What to do about a use that something of this sort does not have.
fn advice_on_use(alloc: Global, receiver: Sort, part: &Expr) -> Result<String, NoMemory> {
    let (name, is_called) = match part {
        Expr::Member(_, name) => (name.as_str(), false),
        Expr::Call(_, name, _) => (name.as_str(), true),
        _ => return Ok(String::from_str(alloc, GENERAL)?),
    };
    match receiver {
        Sort::Snapshot => advice_on_snapshot(alloc, name, is_called),
        Sort::Value => if is_behind_val(part) {
            advice_behind_val(alloc, name, is_called)
        } else {
            advice_on_value(alloc, name, is_called)
        },
        Sort::Auth => if is_called && matches!(name, "uid" | "provider" | "token") {
            Ok(format!(in alloc; "`{name}` is not called: write `auth.{name}`")?)
        } else {
            Ok(format!(in alloc; "`auth` has no `{name}`: it has `uid`, `provider` and `token`")?)
        },
        Sort::Token => Ok(format!(in alloc; "a claim is not called: write `auth.token.{name}`")?),
        Sort::Query => if is_called && is_of_query(name) {
            Ok(format!(in alloc; "`{name}` is not called: write `query.{name}`")?)
        } else {
            Ok(format!(in alloc;
                "`query` has no `{name}`: it has its order, as orderByKey, its bounds and its limits"
            )?)
        },
    }
}

/// Whether a use stands behind `.val()`.
pub(super) fn is_behind_val(part: &Expr) -> bool {
    let receiver = match part {
        Expr::Member(receiver, _) => receiver,
        Expr::Call(receiver, _, _) => receiver,
        _ => return false,
    };
    match &**receiver {
        Expr::Call(_, name, _) => name.as_str() == "val",
        _ => false,
    }
}

// What to do about a use behind `.val()`.
fn advice_behind_val(alloc: Global, name: &str, is_called: bool) -> Result<String, NoMemory> {
    if matches!(name, "child" | "parent") {
        return Ok(format!(in alloc;
            "`{name}` belongs to a snapshot, and `.val()` gives a value: move `.val()` to the end"
        )?);
    }
    if is_of_snapshot(name) && name != "val" {
        return Ok(format!(in alloc;
            "`{name}` is asked of a snapshot, and `.val()` gives a value: remove `.val()` before it"
        )?);
    }
    advice_on_value(alloc, name, is_called)
}

// How a method of a snapshot or of a text is called.
fn call_of(name: &str) -> &'static str {
    match name {
        "child" => "one key or path, as in `child('a/b')`",
        "hasChild" => "one key or path, as in `hasChild('a/b')`",
        "hasChildren" => "nothing or a list, as in `hasChildren(['a', 'b'])`",
        "contains" | "beginsWith" | "endsWith" => "one text, as in `contains('a')`",
        "replace" => "two texts, as in `replace('a', 'b')`",
        _ => "nothing, with empty parentheses",
    }
}

fn advice_on_snapshot(alloc: Global, name: &str, is_called: bool) -> Result<String, NoMemory> {
    if is_of_text(name) {
        return Ok(format!(in alloc;
            "`{name}` belongs to a text, and this is a snapshot: write `.val().{name}`"
        )?);
    }
    if name == "equalTo" && is_called {
        return Ok(format!(in alloc;
            "`{name}` belongs to a query: compare by `.val() ==`, as in `data.val() == auth.uid`"
        )?);
    }
    if !is_of_snapshot(name) {
        return Ok(format!(in alloc; "a snapshot has no `{name}`")?);
    }
    if is_called || matches!(name, "child" | "hasChild") {
        return Ok(format!(in alloc; "`{name}` takes {}", call_of(name))?);
    }
    Ok(format!(in alloc; "`{name}` is called: write `{name}()`")?)
}

fn advice_on_value(alloc: Global, name: &str, is_called: bool) -> Result<String, NoMemory> {
    if name == "length" && is_called {
        return Ok(String::from_str(
            alloc,
            "`length` is not called: write it without parentheses",
        )?);
    }
    if is_of_text(name) {
        return Ok(format!(in alloc; "`{name}` takes {}", call_of(name))?);
    }
    if name == "val" {
        return Ok(String::from_str(
            alloc,
            "what stands before `.val()` is a value already: leave out `.val()`",
        )?);
    }
    if is_of_snapshot(name) {
        return Ok(format!(in alloc;
            "`{name}` belongs to a snapshot, and what stands before it is a value"
        )?);
    }
    if name == "equalTo" && is_called {
        return Ok(format!(in alloc;
            "`{name}` belongs to a query: compare by `==`, as in `auth.uid == 'ann'`"
        )?);
    }
    Ok(format!(in alloc; "a value has no `{name}`")?)
}
