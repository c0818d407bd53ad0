//! What to do about an unknown name behind a dot.

use super::near::nearest;
use super::sorts::{innermost, is_behind_val, is_of_snapshot, is_of_text, is_test};
use expr_parser::{Expr, ExprFault, parse};
use expr_types::Sort;
use json_tree::NoMemory;
use rules_reader::{RuleName, sort_in_rule};
use std::alloc::Global;

// What `auth` has.
const OF_AUTH: [&str; 3] = ["uid", "provider", "token"];

// What a query has.
const OF_QUERY: [&str; 8] = [
    "orderByKey",
    "orderByValue",
    "orderByChild",
    "startAt",
    "endAt",
    "equalTo",
    "limitToFirst",
    "limitToLast",
];

// What snapshots and texts have, and what they have in other databases.
const OF_DATA: [&str; 16] = [
    "val",
    "child",
    "parent",
    "exists",
    "hasChildren",
    "hasChild",
    "isString",
    "isNumber",
    "isBoolean",
    "length",
    "contains",
    "beginsWith",
    "endsWith",
    "replace",
    "matches",
    "getPriority",
];

/// Whether a name stands behind a dot alone.
pub(super) fn is_use(name: &str) -> bool {
    OF_AUTH.contains(&name) || OF_QUERY.contains(&name) || OF_DATA.contains(&name)
}

// A use of an unknown name.
#[derive(Clone, Copy)]
struct Use<'e> {
    name: &'e str,
    is_called: bool,
    // What stands before the dot, and its sort.
    receiver: &'e Expr,
    sort: Sort,
    is_behind_val: bool,
    // Whether another dot follows.
    is_received: bool,
}

/// What to do about the unknown name in the text of a rule, if it stands behind a dot.
pub(super) fn advice_on_use(
    alloc: Global,
    rule: &RuleName,
    text: &str,
) -> Result<Option<String>, NoMemory> {
    match parse(alloc, text) {
        Ok(expr) => advice_in(alloc, &expr, rule),
        Err(ExprFault::NoMemory) => Err(NoMemory),
        Err(_) => Ok(None),
    }
}

fn advice_in(alloc: Global, expr: &Expr, rule: &RuleName) -> Result<Option<String>, NoMemory> {
    let (part, is_received) = innermost(alloc, expr, rule)?;
    match use_of(alloc, part, is_received, rule) {
        Some(found) => Ok(Some(advice_on(alloc, &found)?)),
        None => Ok(None),
    }
}

// The use that a part of an expression is.
fn use_of<'e>(
    alloc: Global,
    part: &'e Expr,
    is_received: bool,
    rule: &RuleName,
) -> Option<Use<'e>> {
    let (receiver, name, is_called) = match part {
        Expr::Member(receiver, name) => (&**receiver, name.as_str(), false),
        Expr::Call(receiver, name, _) => (&**receiver, name.as_str(), true),
        _ => return None,
    };
    match sort_in_rule(alloc, receiver, rule.kind, &rule.pattern) {
        Ok(sort) => Some(Use {
            name,
            is_called,
            receiver,
            sort,
            is_behind_val: is_behind_val(part),
            is_received,
        }),
        Err(_) => None,
    }
}

fn advice_on(alloc: Global, found: &Use<'_>) -> Result<String, NoMemory> {
    if let Some(words) = advice_on_foreign(alloc, found)? {
        return Ok(words);
    }
    if let Some(other) = meant(found) {
        return advice_on_meant(alloc, found, other);
    }
    let name = found.name;
    match found.sort {
        Sort::Auth => Ok(format!(in alloc;
            "there is no `auth.{name}`: did you mean `auth.token.{name}`?"
        )?),
        Sort::Query => Ok(format!(in alloc;
            "there is no `query.{name}`: it has its order, as orderByKey, its bounds and its limits"
        )?),
        Sort::Snapshot => advice_on_child(alloc, found),
        Sort::Value | Sort::Token => advice_on_part(alloc, found),
    }
}

// What to do about a use of another language that is written otherwise here.
fn advice_on_foreign(alloc: Global, found: &Use<'_>) -> Result<Option<String>, NoMemory> {
    let name = found.name;
    let is_snapshot = matches!(found.sort, Sort::Snapshot);
    if is_snapshot && matches!(name, "size" | "count" | "numChildren") {
        return Ok(Some(format!(in alloc;
            "there is no `.{name}`: children are not counted, so store their number beside them; a text has `.val().length`"
        )?));
    }
    if !found.is_called || !matches!(name, "equals" | "equal" | "isEqual" | "eq") {
        return Ok(None);
    }
    let words = if is_snapshot {
        "compare by `.val() ==`, as in `data.val() == auth.uid`"
    } else {
        "compare by `==`, as in `auth.uid == 'ann'`"
    };
    Ok(Some(format!(in alloc; "there is no `.{name}()`: {words}")?))
}

// The use that an unknown one seems to stand for.
fn meant(found: &Use<'_>) -> Option<&'static str> {
    match found.sort {
        Sort::Auth => nearest(found.name, &OF_AUTH),
        Sort::Query => nearest(found.name, &OF_QUERY),
        _ => {
            let other = match instead_of_use(found.name) {
                Some(other) => other,
                None => nearest(found.name, &OF_DATA)?,
            };
            let is_possible = matches!(found.sort, Sort::Snapshot)
                || found.is_behind_val
                || is_of_text(other);
            if is_possible { Some(other) } else { None }
        }
    }
}

// What to do about a use that stands for another: `.val()` and the parentheses change with it.
fn advice_on_meant(
    alloc: Global,
    found: &Use<'_>,
    other: &'static str,
) -> Result<String, NoMemory> {
    let name = found.name;
    let removed = if found.is_behind_val && is_of_snapshot(other) {
        ".val()"
    } else {
        ""
    };
    let added = if matches!(found.sort, Sort::Snapshot) && is_of_text(other) {
        ".val()"
    } else {
        ""
    };
    let (closed, opened) = match (found.is_called, is_called(other)) {
        (true, false) => ("()", ""),
        (false, true) if is_test(other) || other == "parent" => ("", "()"),
        _ => ("", ""),
    };
    Ok(format!(in alloc;
        "there is no `{removed}.{name}{closed}`: did you mean `{added}.{other}{opened}`?"
    )?)
}

// Whether a use is called.
fn is_called(name: &str) -> bool {
    OF_DATA.contains(&name) && name != "length"
}

// What to do about an unknown use of a snapshot.
fn advice_on_child(alloc: Global, found: &Use<'_>) -> Result<String, NoMemory> {
    let name = found.name;
    if found.is_called {
        Ok(format!(in alloc;
            "there is no `.{name}()`: of a snapshot there are val, exists, child, parent, hasChild, hasChildren, isString, isNumber and isBoolean"
        )?)
    } else if found.is_received {
        Ok(format!(in alloc; "there is no `.{name}`: write `.child('{name}')`")?)
    } else {
        Ok(format!(in alloc; "there is no `.{name}`: a child's value is `.child('{name}').val()`")?)
    }
}

// What to do about an unknown use of a value.
fn advice_on_part(alloc: Global, found: &Use<'_>) -> Result<String, NoMemory> {
    let name = found.name;
    if found.is_called {
        return Ok(format!(in alloc;
            "there is no `.{name}()`: of a text there are length, contains, beginsWith, endsWith and replace"
        )?);
    }
    if let Some(claim) = claim(found.receiver) {
        return Ok(format!(in alloc;
            "a claim is one value, so there is no `auth.token.{claim}.{name}`: did you mean `auth.token.{name}`?"
        )?);
    }
    if found.is_behind_val {
        let end = if found.is_received { "" } else { ".val()" };
        return Ok(format!(in alloc;
            "there is no `.val().{name}`: write `.child('{name}'){end}` for `.val().{name}`"
        )?);
    }
    Ok(format!(in alloc;
        "there is no `.{name}`: what stands before it is a value, which has no children"
    )?)
}

// The name of the claim that an expression is.
fn claim(expr: &Expr) -> Option<&str> {
    let Expr::Member(token, claim) = expr else {
        return None;
    };
    match &**token {
        Expr::Member(_, name) if name.as_str() == "token" => Some(claim.as_str()),
        _ => None,
    }
}

// The use that a name of another language stands for.
fn instead_of_use(name: &str) -> Option<&'static str> {
    match name {
        "startsWith" | "hasPrefix" => Some("beginsWith"),
        "hasSuffix" => Some("endsWith"),
        "includes" | "indexOf" | "hasText" => Some("contains"),
        "size" | "count" => Some("length"),
        "hasChilds" | "hasAll" | "hasAny" => Some("hasChildren"),
        "has" | "hasKey" => Some("hasChild"),
        "value" | "getValue" => Some("val"),
        "isBool" => Some("isBoolean"),
        "isInt" | "isInteger" => Some("isNumber"),
        "isText" | "isStr" => Some("isString"),
        "get" => Some("child"),
        _ => None,
    }
}
