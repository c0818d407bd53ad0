//! The explanation of an expression: what its meaning looks at.
ghost use Rattle.std.specs.Prelude.{◌≡◌, ◌+◌, ◌++◌, map, IfOk, OnOk};
ghost use Rattle.expr_parser.specs.View.{view, views, arguments};
ghost use Rattle.expr_places.specs.Places.{width};
ghost use Rattle.evaluator.specs.Env.{env_of};
ghost use Rattle.explainer.specs.Looks.{look_of, looked_at, looked_given, looked_items, itself, only_if};

use crate::look::Look;
use crate::tested::{looks_right, means, means_something, means_value};
use bumpalo::Bump;
use evaluator::{Env, meaning};
use expr_parser::{Argument, Expr};
use expr_places::width;
use json_tree::NoMemory;
use std::alloc::Global;

/// What the meaning of an expression looks at where a rule is evaluated: the parts that are evaluated, in the order of
/// their evaluation, what is left out by `&&`, `||`, `?:` or an error not among them, and the whole expression last; each
/// with its place in the expression's tokens and with what it means. Each part is evaluated anew for itself, where it
/// decides whether another is looked at, and for each that it stands in, and each time takes in the arena what
/// [`meaning`] takes: so time and that memory are at most quadratic in the expression. The list has one growth for each
/// doubling. The recursion goes as deep as the expression does. (Reference, expressions.)
pub fn explain<'a>(
    alloc: Global,
    arena: &'a Bump,
    expr: &'a Expr,
    env: &Env<'a, '_>,
) -> Result<Vec<Look<'a>>, NoMemory>
    ensures { IfOk result (λ looks. map look_of looks.items ≡ looked_at 0 (view expr.now) (env_of env.now)) }
{
    let mut looks = Vec::new(alloc);
    look(arena, 0, expr, env, &mut looks)?;
    Ok(looks)
}

// Appends what the meaning of an expression behind so many tokens looks at.
#[cycle(looks)]
fn look<'a>(
    arena: &'a Bump,
    at: usize,
    expr: &'a Expr,
    env: &Env<'a, '_>,
    looks: &mut Vec<Look<'a>>,
) -> Result<(), NoMemory>
    ensures { OnOk result (map look_of looks.new.items ≡ map look_of looks.old.items ++ looked_at at (view expr.now) (env_of env.now)) }
{
    match expr {
        Expr::Number(_)
        | Expr::Text(_)
        | Expr::True
        | Expr::False
        | Expr::Null
        | Expr::Variable(_)
        | Expr::Capture(_) => itself(arena, at, expr, env, looks),
        Expr::Group(inner) | Expr::Not(inner) | Expr::Negate(inner) => {
            look(arena, behind(at, 1)?, inner, env, looks)?;
            itself(arena, at, expr, env, looks)
        }
        Expr::Member(inner, _) => {
            look(arena, at, inner, env, looks)?;
            itself(arena, at, expr, env, looks)
        }
        Expr::Call(receiver, _, list) => {
            look(arena, at, receiver, env, looks)?;
            let wanted = means_something(arena, receiver, env)?;
            let first = behind(at, behind(width(receiver)?, 3)?)?;
            given_if(arena, wanted, first, list.as_slice(), env, looks)?;
            itself(arena, at, expr, env, looks)
        }
        Expr::Operation(operator, left, right) => {
            look(arena, at, left, env, looks)?;
            let wanted = looks_right(arena, *operator, left, env)?;
            look_if(arena, wanted, next(at, left)?, right, env, looks)?;
            itself(arena, at, expr, env, looks)
        }
        Expr::Choice(condition, yes, no) => {
            look(arena, at, condition, env, looks)?;
            let holds = means(arena, true, condition, env)?;
            let fails = means(arena, false, condition, env)?;
            let first = next(at, condition)?;
            look_if(arena, holds, first, yes, env, looks)?;
            look_if(arena, fails, next(first, yes)?, no, env, looks)?;
            itself(arena, at, expr, env, looks)
        }
    }
}

// Appends the look at the expression itself.
fn itself<'a>(
    arena: &'a Bump,
    at: usize,
    expr: &'a Expr,
    env: &Env<'a, '_>,
    looks: &mut Vec<Look<'a>>,
) -> Result<(), NoMemory>
    ensures { OnOk result (map look_of looks.new.items ≡ map look_of looks.old.items ++ itself at (view expr.now) (env_of env.now)) }
{
    let tokens = width(expr)?;
    match meaning(arena, expr, env) {
        Ok(meaning) => {
            looks.push(Look {
                at,
                tokens,
                part: expr,
                meaning,
            })?;
            Ok(())
        }
        Err(refused) => Err(refused),
    }
}

// Appends what the meaning of an expression looks at, if that is wanted.
#[cycle(looks)]
fn look_if<'a>(
    arena: &'a Bump,
    wanted: bool,
    at: usize,
    expr: &'a Expr,
    env: &Env<'a, '_>,
    looks: &mut Vec<Look<'a>>,
) -> Result<(), NoMemory>
    ensures { OnOk result (map look_of looks.new.items ≡ map look_of looks.old.items ++ only_if wanted (looked_at at (view expr.now) (env_of env.now))) }
{
    if wanted {
        look(arena, at, expr, env, looks)
    } else {
        Ok(())
    }
}

// Appends what is looked at of what a call is given, if that is wanted.
#[cycle(looks)]
fn given_if<'a>(
    arena: &'a Bump,
    wanted: bool,
    at: usize,
    list: &'a [Argument],
    env: &Env<'a, '_>,
    looks: &mut Vec<Look<'a>>,
) -> Result<(), NoMemory>
    ensures { OnOk result (map look_of looks.new.items ≡ map look_of looks.old.items ++ only_if wanted (looked_given at (arguments list.now) (env_of env.now))) }
{
    if wanted {
        given(arena, at, list, env, looks)
    } else {
        Ok(())
    }
}

// Appends what is looked at of what a call is given.
#[cycle(looks)]
fn given<'a>(
    arena: &'a Bump,
    at: usize,
    list: &'a [Argument],
    env: &Env<'a, '_>,
    looks: &mut Vec<Look<'a>>,
) -> Result<(), NoMemory>
    ensures { OnOk result (map look_of looks.new.items ≡ map look_of looks.old.items ++ looked_given at (arguments list.now) (env_of env.now)) }
{
    match list {
        [] => Ok(()),
        [only] => match only {
            Argument::One(value) => look(arena, at, value, env, looks),
            Argument::List(items) => {
                elements(arena, behind(at, 1)?, items.as_slice(), env, looks)
            }
        },
        [first, second] => {
            let Argument::One(left) = first else {
                return Ok(());
            };
            let Argument::One(right) = second else {
                return Ok(());
            };
            look(arena, at, left, env, looks)?;
            let wanted = means_value(arena, left, env)?;
            look_if(arena, wanted, next(at, left)?, right, env, looks)
        }
        _ => Ok(()),
    }
}

// Appends what is looked at of the elements of a list, up to the first that means no value.
#[cycle(looks)]
fn elements<'a>(
    arena: &'a Bump,
    at: usize,
    items: &'a [Expr],
    env: &Env<'a, '_>,
    looks: &mut Vec<Look<'a>>,
) -> Result<(), NoMemory>
    ensures { OnOk result (map look_of looks.new.items ≡ map look_of looks.old.items ++ looked_items at (views items.now) (env_of env.now)) }
{
    let mut before = at;
    for item in items {
        look(arena, before, item, env, looks)?;
        if !means_value(arena, item, env)? {
            return Ok(());
        }
        before = next(before, item)?;
    }
    Ok(())
}

// How many tokens are before what stands behind an expression and one token more.
fn next(at: usize, expr: &Expr) -> Result<usize, NoMemory>
    ensures { IfOk result (λ n. n ≡ at + (width (view expr.now) + 1)) }
{
    behind(at, behind(width(expr)?, 1)?)
}

fn behind(at: usize, tokens: usize) -> Result<usize, NoMemory>
    ensures { IfOk result (λ n. n ≡ at + tokens) }
{
    match at.checked_add(tokens) {
        Some(total) => Ok(total),
        None => Err(NoMemory),
    }
}
