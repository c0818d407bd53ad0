//! The evaluator: what an expression means, and whether a rule holds.
ghost use Rattle.std.specs.Prelude.{◌≡◌, ◌≤◌, Some, IfOk, true, option_map, pos};
ghost use Rattle.std.specs.Option.{option_and_then};
ghost use Rattle.tree_model.specs.declared.limits.TheConstants.{MAX_TEXT_BYTES};
ghost use Rattle.expr_tokens.specs.Known.{text_of};
ghost use Rattle.expr_parser.specs.View.{view, view_argument, views, arguments};
ghost use Rattle.expr_parser.specs.Tree.{Null, argument, no_argument};
ghost use Rattle.expr_types.specs.HasSort.{is_value};
ghost use Rattle.evaluator.specs.Value as meanings;
ghost use Rattle.evaluator.specs.Value.{null, as_value, sort_of_part, value, truth, in_range};
ghost use Rattle.evaluator.specs.Operators.{as_truth, other_truth, minus_of, both, either, operated};
ghost use Rattle.evaluator.specs.Calls.{call_of, called_with_two, called_with_list, have_children, child_of, called, nothing};
ghost use Rattle.evaluator.specs.Members.{member};
ghost use Rattle.evaluator.specs.Env.{env_of, variable, capture, Suits};
ghost use Rattle.evaluator.specs.Mean.{mean, given as meant, values};
ghost use Rattle.evaluator.specs.Holds.{outcome};
ghost use Rattle.evaluator.specs.Working.Answers.{Finds, Gives};
ghost use Rattle.evaluator.specs.Parts.{value_of, part_of};
ghost use Rattle.evaluator.specs.Working.Parts.{argument_value, as_place, result_of};
ghost use Rattle.evaluator.specs.Working.Seams.{IsSeam, led_by};

use crate::calls::{
    below_of, called_with, called_with_nothing, called_with_two, child_of, has_child, holder,
    snapshot_call, snapshot_test,
};
use crate::env::Env;
use crate::members::{auth_value, capture, member, member_value as member_value_of, variable};
use crate::operators::{in_truth, is_something, literal, minus_of, of_both};
use crate::seams::{is_seam, literal_below, value_below};
use crate::snapshot::{Found, Snapshot, child_at};
use crate::value::{
    Meaning, Stop, Value, in_place, in_value, put_part, put_truth, put_value, wanted,
};
use bumpalo::Bump;
use expr_parser::{Argument, Expr, Operator};
use expr_tokens::{KnownName, Name};
use expr_types::Checked;
use json_tree::NoMemory;
use tree_model::MAX_TEXT_BYTES;

// A function below that is marked `inline(never)` is not inlined into its callers: each call of these would make and
// clear room for its locals.

// What a part of an expression means.
#[cycle(evaluation)]
fn part<'a>(
    arena: &'a Bump,
    expr: &'a Expr,
    env: &Env<'a, '_>,
    found: &mut Meaning<'a>,
) -> Result<(), Stop>
    ensures { Finds result (part_of found.new) (mean (view expr.now) (env_of env.now)) }
{
    match expr {
        Expr::Number(number) => number_part(*number, found),
        Expr::Text(text) => put_part(Some(Meaning::Value(Value::Words(text.as_str()))), found),
        Expr::True => put_part(Some(Meaning::Value(Value::Truth(true))), found),
        Expr::False => put_part(Some(Meaning::Value(Value::Truth(false))), found),
        Expr::Null => put_part(Some(Meaning::Value(Value::Null)), found),
        Expr::Variable(name) => put_part(variable(name, env), found),
        Expr::Capture(name) => put_part(capture(name.as_str(), env), found),
        Expr::Group(inner) => part(arena, inner, env, found),
        Expr::Member(receiver, name) => member_part(arena, receiver, name, env, found),
        Expr::Call(receiver, name, given) => {
            receiver_of(arena, receiver, env, found)?;
            call(arena, name, given.as_slice(), env, found)
        }
        Expr::Not(inner) => other_truth(arena, inner, env, found),
        Expr::Negate(inner) => opposite(arena, inner, env, found),
        Expr::Operation(operator, left, right) => {
            let mut first = Value::Null;
            value(arena, left, env, &mut first)?;
            operation(arena, *operator, first, right, env, found)
        }
        Expr::Choice(condition, yes, no) => {
            let b = truth(arena, condition, env)?;
            value_part(arena, if b { yes } else { no }, env, found)
        }
    }
}

#[inline(never)]
fn number_part<'a>(number: u64, found: &mut Meaning<'a>) -> Result<(), Stop>
    ensures { Finds result (part_of found.new) (option_map value (in_range (pos number))) }
{
    *found = Meaning::Value(wanted(literal(number))?);
    Ok(())
}

// What a name behind a dot means.
#[cycle(evaluation)]
#[inline(never)]
fn member_part<'a>(
    arena: &'a Bump,
    receiver: &'a Expr,
    name: &Name,
    env: &Env<'a, '_>,
    found: &mut Meaning<'a>,
) -> Result<(), Stop>
    ensures { Finds result (part_of found.new) (option_and_then (member name.now) (mean (view receiver.now) (env_of env.now))) }
{
    receiver_of(arena, receiver, env, found)?;
    put_part(member(name, *found), found)
}

// What stands before a dot. A variable, and what a call with nothing gives, as most are, is no part that has to be
// looked into.
#[cycle(evaluation)]
fn receiver_of<'a>(
    arena: &'a Bump,
    expr: &'a Expr,
    env: &Env<'a, '_>,
    found: &mut Meaning<'a>,
) -> Result<(), Stop>
    ensures { Finds result (part_of found.new) (mean (view expr.now) (env_of env.now)) }
{
    match expr {
        Expr::Variable(name) => put_part(variable(name, env), found),
        Expr::Call(receiver, name, given) if given.is_empty() => {
            call_with_nothing(arena, receiver, name, env, found)
        }
        _ => part(arena, expr, env, found),
    }
}

// What a call with nothing gives, which is about a location.
#[cycle(evaluation)]
#[inline(never)]
fn call_with_nothing<'a>(
    arena: &'a Bump,
    receiver: &'a Expr,
    name: &Name,
    env: &Env<'a, '_>,
    found: &mut Meaning<'a>,
) -> Result<(), Stop>
    ensures { Finds result (part_of found.new) (called name.now (mean (view receiver.now) (env_of env.now)) nothing) }
{
    let at = place(arena, receiver, env).get()?;
    snapshot_call(name, at, found)
}

// Its value as a part, where one is wanted.
#[cycle(evaluation)]
#[inline(never)]
fn value_part<'a>(
    arena: &'a Bump,
    expr: &'a Expr,
    env: &Env<'a, '_>,
    found: &mut Meaning<'a>,
) -> Result<(), Stop>
    ensures { Finds result (part_of found.new) (option_map value (as_value (mean (view expr.now) (env_of env.now)))) }
{
    let mut only = Value::Null;
    value(arena, expr, env, &mut only)?;
    *found = Meaning::Value(only);
    Ok(())
}

// Its value, where one is wanted. What is seldom asked for one is looked into as a part. Each way ends with one call,
// so that nothing has to be kept for the time behind it.
#[cycle(evaluation)]
#[inline(never)]
fn value<'a>(
    arena: &'a Bump,
    expr: &'a Expr,
    env: &Env<'a, '_>,
    found: &mut Value<'a>,
) -> Result<(), Stop>
    ensures { Finds result (value_of found.new) (as_value (mean (view expr.now) (env_of env.now))) }
{
    match expr {
        Expr::Text(text) => put_value(Some(Value::Words(text.as_str())), found),
        Expr::Number(number) => put_value(literal(*number), found),
        Expr::True => put_truth(true, found),
        Expr::False => put_truth(false, found),
        Expr::Null => put_value(Some(Value::Null), found),
        Expr::Variable(name) => variable_value(name, env, found),
        Expr::Capture(name) => capture_value(name.as_str(), env, found),
        Expr::Member(receiver, name) => member_value(arena, receiver, name, env, found),
        Expr::Group(inner) => value(arena, inner, env, found),
        Expr::Operation(_, _, _) | Expr::Choice(_, _, _) => compound_value(arena, expr, env, found),
        _ => call_value(arena, expr, env, found),
    }
}

// The value of what has several operands.
#[cycle(evaluation)]
#[inline(never)]
fn compound_value<'a>(
    arena: &'a Bump,
    expr: &'a Expr,
    env: &Env<'a, '_>,
    found: &mut Value<'a>,
) -> Result<(), Stop>
    ensures { Finds result (value_of found.new) (as_value (mean (view expr.now) (env_of env.now))) }
{
    match expr {
        Expr::Operation(operator, left, right) => {
            value(arena, left, env, found)?;
            operated(arena, *operator, right, env, found)
        }
        Expr::Choice(condition, yes, no) => {
            let b = truth(arena, condition, env)?;
            value(arena, if b { yes } else { no }, env, found)
        }
        _ => call_value(arena, expr, env, found),
    }
}

// Its value, where a boolean is wanted, which mostly an operator or a call gives.
#[cycle(evaluation)]
#[inline(always)]
fn tested_value<'a>(
    arena: &'a Bump,
    expr: &'a Expr,
    env: &Env<'a, '_>,
    found: &mut Value<'a>,
) -> Result<(), Stop>
    ensures { Finds result (value_of found.new) (as_value (mean (view expr.now) (env_of env.now))) }
{
    match expr {
        Expr::Operation(_, _, _) => compound_value(arena, expr, env, found),
        Expr::Call(_, _, _) => call_value(arena, expr, env, found),
        _ => value(arena, expr, env, found),
    }
}

// The value of a variable.
#[inline(never)]
fn variable_value<'a>(name: &Name, env: &Env<'a, '_>, found: &mut Value<'a>) -> Result<(), Stop>
    ensures { Finds result (value_of found.new) (as_value (variable name.now (env_of env.now))) }
{
    let part = wanted(variable(name, env))?;
    put_value(in_value(part), found)
}

// The value of a capture.
#[inline(never)]
fn capture_value<'a>(name: &str, env: &Env<'a, '_>, found: &mut Value<'a>) -> Result<(), Stop>
    ensures { Finds result (value_of found.new) (as_value (capture name.now (env_of env.now))) }
{
    match env.captures.key_of(name) {
        Some(key) => put_value(Some(Value::Words(key.text())), found),
        None => Err(Stop::Erred),
    }
}

// The value of what a name behind a dot means. Most stand behind `auth`, which is then no part that has to be looked
// into.
#[cycle(evaluation)]
#[inline(never)]
fn member_value<'a>(
    arena: &'a Bump,
    receiver: &'a Expr,
    name: &Name,
    env: &Env<'a, '_>,
    found: &mut Value<'a>,
) -> Result<(), Stop>
    ensures { Finds result (value_of found.new) (as_value (option_and_then (member name.now) (mean (view receiver.now) (env_of env.now)))) }
{
    if let Expr::Variable(before) = receiver
        && let Some(Meaning::Auth(who)) = variable(before, env)
    {
        return put_value(auth_value(name, who), found);
    }
    member_value_of_part(arena, receiver, name, env, found)
}

// The same behind what may be another part.
#[cycle(evaluation)]
#[inline(never)]
fn member_value_of_part<'a>(
    arena: &'a Bump,
    receiver: &'a Expr,
    name: &Name,
    env: &Env<'a, '_>,
    found: &mut Value<'a>,
) -> Result<(), Stop>
    ensures { Finds result (value_of found.new) (as_value (option_and_then (member name.now) (mean (view receiver.now) (env_of env.now)))) }
{
    let mut before = Meaning::Value(Value::Null);
    receiver_of(arena, receiver, env, &mut before)?;
    put_value(member_value_of(name, before), found)
}

// The value of what a call gives. Most calls are about a location, which is then no part that has to be looked into.
#[cycle(evaluation)]
#[inline(never)]
fn call_value<'a>(
    arena: &'a Bump,
    expr: &'a Expr,
    env: &Env<'a, '_>,
    found: &mut Value<'a>,
) -> Result<(), Stop>
    ensures { Finds result (value_of found.new) (as_value (mean (view expr.now) (env_of env.now))) }
{
    let Expr::Call(receiver, name, given) = expr else {
        return value_of_part(arena, expr, env, found);
    };
    match given.as_slice() {
        [] => {
            let at = place(arena, receiver, env).get()?;
            snapshot_test(name, at, found)
        }
        [only] => match only {
            Argument::One(key) if is_named(name, KnownName::HasChild) => {
                let at = place(arena, receiver, env).get()?;
                value(arena, key, env, found)?;
                put_truth(has_child(arena, at, *found)?, found)
            }
            Argument::List(items) if is_named(name, KnownName::HasChildren) => {
                let at = place(arena, receiver, env).get()?;
                let all = have_children(arena, at, items.as_slice(), env)?;
                put_truth(all, found)
            }
            _ => value_of_part(arena, expr, env, found),
        },
        _ => value_of_part(arena, expr, env, found),
    }
}

// Whether it is this known name.
fn is_named(name: &Name, known: KnownName) -> bool
    ensures { result ≡ true → name.now ≡ text_of known }
{
    match name.known() {
        Some(own) => own == known,
        None => false,
    }
}

// The location that it is, where one is wanted: most are children, one below another.
#[cycle(evaluation)]
fn place<'a>(arena: &'a Bump, expr: &'a Expr, env: &Env<'a, '_>) -> Found<'a>
    ensures { Gives (result_of result) (λ at. at.now) (as_place (mean (view expr.now) (env_of env.now))) }
{
    if let Expr::Variable(name) = expr {
        return variable_place(name, env);
    }
    if let Expr::Call(receiver, name, given) = expr
        && let [only] = given.as_slice()
        && let Argument::One(key) = only
        && is_named(name, KnownName::Child)
    {
        return match place(arena, receiver, env) {
            Found::At(at) => key_place(arena, at, key, env),
            Found::Erred => Found::Erred,
            Found::NoMemory => Found::NoMemory,
        };
    }
    place_of_part(arena, expr, env)
}

// The location that a variable is.
fn variable_place<'a>(name: &Name, env: &Env<'a, '_>) -> Found<'a>
    ensures { Gives (result_of result) (λ at. at.now) (as_place (variable name.now (env_of env.now))) }
{
    match variable(name, env) {
        Some(part) => Found::of(wanted(in_place(part))),
        None => Found::Erred,
    }
}

// The child of a location by a key. Most keys are texts as they stand.
#[cycle(evaluation)]
fn key_place<'a>(
    arena: &'a Bump,
    at: &'a Snapshot<'a>,
    key: &'a Expr,
    env: &Env<'a, '_>,
) -> Found<'a>
    ensures { Gives (result_of result) (λ found. found.now) (option_and_then (child_of at.now) (as_value (mean (view key.now) (env_of env.now)))) }
{
    match key {
        Expr::Text(text) => child_at(arena, at, text.as_str()),
        Expr::Operation(_, _, _) => made_place(arena, at, key, env),
        _ => value_place(arena, at, key, env),
    }
}

// The child by the value of a key.
#[cycle(evaluation)]
#[inline(never)]
fn value_place<'a>(
    arena: &'a Bump,
    at: &'a Snapshot<'a>,
    key: &'a Expr,
    env: &Env<'a, '_>,
) -> Found<'a>
    ensures { Gives (result_of result) (λ found. found.now) (option_and_then (child_of at.now) (as_value (mean (view key.now) (env_of env.now)))) }
{
    let mut found = Value::Null;
    match value(arena, key, env, &mut found) {
        Ok(()) => child_of(arena, at, found),
        Err(stop) => Found::stopped(stop),
    }
}

// The child by a text that an operator makes, which mostly is several keys with slashes between them.
#[cycle(evaluation)]
#[inline(never)]
fn made_place<'a>(
    arena: &'a Bump,
    at: &'a Snapshot<'a>,
    key: &'a Expr,
    env: &Env<'a, '_>,
) -> Found<'a>
    ensures { Gives (result_of result) (λ found. found.now) (option_and_then (child_of at.now) (as_value (mean (view key.now) (env_of env.now)))) }
{
    if !is_seam(key) {
        return joined_place(arena, at, key, env);
    }
    let mut room = MAX_TEXT_BYTES;
    sum_place(arena, at, key, env, &mut room)
}

// The child by a text that has to be made.
#[cycle(evaluation)]
#[inline(never)]
fn joined_place<'a>(
    arena: &'a Bump,
    at: &'a Snapshot<'a>,
    key: &'a Expr,
    env: &Env<'a, '_>,
) -> Found<'a>
    ensures { Gives (result_of result) (λ found. found.now) (option_and_then (child_of at.now) (as_value (mean (view key.now) (env_of env.now)))) }
{
    let mut found = Value::Null;
    match value(arena, key, env, &mut found) {
        Ok(()) => below_of(arena, at, found),
        Err(stop) => Found::stopped(stop),
    }
}

// Where the text of a sum with a slash between its operands leads: the right one leads on from where the left one does.
#[cycle(evaluation)]
#[inline(always)]
fn sum_place<'a>(
    arena: &'a Bump,
    at: &'a Snapshot<'a>,
    sum: &'a Expr,
    env: &Env<'a, '_>,
    room: &mut usize,
) -> Found<'a>
    requires seam { IsSeam (view sum.now) }
    requires room { room.old ≤ MAX_TEXT_BYTES }
    ensures { Gives (result_of result) (λ found. (found.now, room.new)) (led_by (at.now, room.old) (as_value (mean (view sum.now) (env_of env.now)))) }
{
    // No other expression is a sum.
    let Expr::Operation(_, left, right) = sum else {
        return text_place(arena, at, sum, env, room);
    };
    match operand_place(arena, at, left, env, room) {
        Found::At(next) => operand_place(arena, next, right, env, room),
        Found::Erred => Found::Erred,
        Found::NoMemory => Found::NoMemory,
    }
}

// The same of a sum that is an operand.
#[cycle(evaluation)]
#[inline(never)]
fn inner_place<'a>(
    arena: &'a Bump,
    at: &'a Snapshot<'a>,
    sum: &'a Expr,
    env: &Env<'a, '_>,
    room: &mut usize,
) -> Found<'a>
    requires seam { IsSeam (view sum.now) }
    requires room { room.old ≤ MAX_TEXT_BYTES }
    ensures { Gives (result_of result) (λ found. (found.now, room.new)) (led_by (at.now, room.old) (as_value (mean (view sum.now) (env_of env.now)))) }
{
    sum_place(arena, at, sum, env, room)
}

// Where the text of an operand leads.
#[cycle(evaluation)]
#[inline(always)]
fn operand_place<'a>(
    arena: &'a Bump,
    at: &'a Snapshot<'a>,
    expr: &'a Expr,
    env: &Env<'a, '_>,
    room: &mut usize,
) -> Found<'a>
    requires { room.old ≤ MAX_TEXT_BYTES }
    ensures { Gives (result_of result) (λ found. (found.now, room.new)) (led_by (at.now, room.old) (as_value (mean (view expr.now) (env_of env.now)))) }
{
    if let Expr::Text(text) = expr {
        return literal_below(arena, at, text.as_str(), room);
    }
    if is_seam(expr) {
        return inner_place(arena, at, expr, env, room);
    }
    text_place(arena, at, expr, env, room)
}

// Where the text leads that has to be evaluated.
#[cycle(evaluation)]
#[inline(always)]
fn text_place<'a>(
    arena: &'a Bump,
    at: &'a Snapshot<'a>,
    expr: &'a Expr,
    env: &Env<'a, '_>,
    room: &mut usize,
) -> Found<'a>
    ensures { Gives (result_of result) (λ found. (found.now, room.new)) (led_by (at.now, room.old) (as_value (mean (view expr.now) (env_of env.now)))) }
{
    let mut found = Value::Null;
    match value(arena, expr, env, &mut found) {
        Ok(()) => value_below(arena, at, found, room),
        Err(stop) => Found::stopped(stop),
    }
}

// The location that may be another part.
#[cycle(evaluation)]
#[inline(never)]
fn place_of_part<'a>(arena: &'a Bump, expr: &'a Expr, env: &Env<'a, '_>) -> Found<'a>
    ensures { Gives (result_of result) (λ at. at.now) (as_place (mean (view expr.now) (env_of env.now))) }
{
    let mut found = Meaning::Value(Value::Null);
    match part(arena, expr, env, &mut found) {
        Ok(()) => Found::of(wanted(in_place(found))),
        Err(stop) => Found::stopped(stop),
    }
}

// The value of what may be another part.
#[cycle(evaluation)]
#[inline(never)]
fn value_of_part<'a>(
    arena: &'a Bump,
    expr: &'a Expr,
    env: &Env<'a, '_>,
    found: &mut Value<'a>,
) -> Result<(), Stop>
    ensures { Finds result (value_of found.new) (as_value (mean (view expr.now) (env_of env.now))) }
{
    let mut whole = Meaning::Value(Value::Null);
    part(arena, expr, env, &mut whole)?;
    put_value(in_value(whole), found)
}

// Whether it is true, where a boolean is wanted. Most rules ask first whether something is not null.
#[cycle(evaluation)]
fn truth<'a>(arena: &'a Bump, expr: &'a Expr, env: &Env<'a, '_>) -> Result<bool, Stop>
    ensures { Gives result (λ b. b) (as_truth (as_value (mean (view expr.now) (env_of env.now)))) }
{
    match expr {
        Expr::Operation(Operator::And | Operator::Or, _, _) | Expr::Choice(_, _, _) => {
            compound_truth(arena, expr, env)
        }
        Expr::Operation(Operator::NotEqual, left, right) if is_null(right) => {
            is_there(arena, left, env)
        }
        Expr::Not(inner) => Ok(!truth(arena, inner, env)?),
        Expr::Group(inner) => truth(arena, inner, env),
        _ => value_truth(arena, expr, env),
    }
}

// Whether that is true which has several operands that may be.
#[cycle(evaluation)]
#[inline(never)]
fn compound_truth<'a>(arena: &'a Bump, expr: &'a Expr, env: &Env<'a, '_>) -> Result<bool, Stop>
    ensures { Gives result (λ b. b) (as_truth (as_value (mean (view expr.now) (env_of env.now)))) }
{
    match expr {
        Expr::Operation(Operator::And, left, right) => {
            let left = truth(arena, left, env)?;
            both(arena, left, right, env)
        }
        Expr::Operation(Operator::Or, left, right) => {
            let left = truth(arena, left, env)?;
            either(arena, left, right, env)
        }
        Expr::Choice(condition, yes, no) => {
            let b = truth(arena, condition, env)?;
            truth(arena, if b { yes } else { no }, env)
        }
        _ => value_truth(arena, expr, env),
    }
}

// Whether its value is true.
#[cycle(evaluation)]
#[inline(never)]
fn value_truth<'a>(arena: &'a Bump, expr: &'a Expr, env: &Env<'a, '_>) -> Result<bool, Stop>
    ensures { Gives result (λ b. b) (as_truth (as_value (mean (view expr.now) (env_of env.now)))) }
{
    let mut found = Value::Null;
    tested_value(arena, expr, env, &mut found)?;
    wanted(in_truth(found))
}

// Whether its value is another than null.
#[cycle(evaluation)]
#[inline(never)]
fn is_there<'a>(arena: &'a Bump, expr: &'a Expr, env: &Env<'a, '_>) -> Result<bool, Stop>
    ensures { Gives result truth (operated Operator.NotEqual (as_value (mean (view expr.now) (env_of env.now))) (Some null)) }
{
    let mut found = Value::Null;
    value(arena, expr, env, &mut found)?;
    Ok(is_something(found))
}

// Whether it is the literal null.
fn is_null(expr: &Expr) -> bool
    ensures { result ≡ true → view expr.now ≡ Null }
{
    matches!(expr, Expr::Null)
}

// Whether both are true, behind the left one. Where that is false, the right one is not evaluated.
#[cycle(evaluation)]
fn both<'a>(arena: &'a Bump, left: bool, right: &'a Expr, env: &Env<'a, '_>) -> Result<bool, Stop>
    ensures { Gives result truth (both (Some (truth left)) (as_value (mean (view right.now) (env_of env.now)))) }
{
    if !left {
        return Ok(false);
    }
    truth(arena, right, env)
}

// Whether one of both is true, behind the left one. Where that is, the right one is not evaluated.
#[cycle(evaluation)]
fn either<'a>(arena: &'a Bump, left: bool, right: &'a Expr, env: &Env<'a, '_>) -> Result<bool, Stop>
    ensures { Gives result truth (either (Some (truth left)) (as_value (mean (view right.now) (env_of env.now)))) }
{
    if left {
        return Ok(true);
    }
    truth(arena, right, env)
}

// The other boolean.
#[cycle(evaluation)]
#[inline(never)]
fn other_truth<'a>(
    arena: &'a Bump,
    expr: &'a Expr,
    env: &Env<'a, '_>,
    found: &mut Meaning<'a>,
) -> Result<(), Stop>
    ensures { Finds result (part_of found.new) (option_map value (other_truth (as_value (mean (view expr.now) (env_of env.now))))) }
{
    let b = truth(arena, expr, env)?;
    *found = Meaning::Value(Value::Truth(!b));
    Ok(())
}

// The number with the other sign.
#[cycle(evaluation)]
#[inline(never)]
fn opposite<'a>(
    arena: &'a Bump,
    expr: &'a Expr,
    env: &Env<'a, '_>,
    found: &mut Meaning<'a>,
) -> Result<(), Stop>
    ensures { Finds result (part_of found.new) (option_map value (option_and_then minus_of (as_value (mean (view expr.now) (env_of env.now))))) }
{
    let mut number = Value::Null;
    value(arena, expr, env, &mut number)?;
    *found = Meaning::Value(wanted(minus_of(number))?);
    Ok(())
}

// What an operator gives behind its left value, as a part.
#[cycle(evaluation)]
#[inline(never)]
fn operation<'a>(
    arena: &'a Bump,
    operator: Operator,
    left: Value<'a>,
    right: &'a Expr,
    env: &Env<'a, '_>,
    found: &mut Meaning<'a>,
) -> Result<(), Stop>
    ensures { Finds result (part_of found.new) (option_map value (operated operator (Some (value_of left.entry)) (as_value (mean (view right.now) (env_of env.now))))) }
{
    let mut made = left;
    operated(arena, operator, right, env, &mut made)?;
    *found = Meaning::Value(made);
    Ok(())
}

// What an operator gives behind its left value, which is there. Where that decides, the right operand is not evaluated.
#[cycle(evaluation)]
#[inline(always)]
fn operated<'a>(
    arena: &'a Bump,
    operator: Operator,
    right: &'a Expr,
    env: &Env<'a, '_>,
    found: &mut Value<'a>,
) -> Result<(), Stop>
    ensures { Finds result (value_of found.new) (operated operator (Some (value_of found.old)) (as_value (mean (view right.now) (env_of env.now)))) }
{
    match operator {
        Operator::And => {
            let left = wanted(in_truth(*found))?;
            put_truth(both(arena, left, right, env)?, found)
        }
        Operator::Or => {
            let left = wanted(in_truth(*found))?;
            put_truth(either(arena, left, right, env)?, found)
        }
        _ => {
            let mut second = Value::Null;
            value(arena, right, env, &mut second)?;
            of_both(arena, operator, &second, found)
        }
    }
}

// What a call gives, of the receiver that is there.
#[cycle(evaluation)]
#[inline(never)]
fn call<'a>(
    arena: &'a Bump,
    name: &Name,
    list: &'a [Argument],
    env: &Env<'a, '_>,
    found: &mut Meaning<'a>,
) -> Result<(), Stop>
    ensures { Finds result (part_of found.new) (call_of name.now (part_of found.old) (meant (arguments list.now) (env_of env.now))) }
{
    match list {
        [] => called_with_nothing(name, found),
        [only] => call_with(arena, name.as_str(), only, env, found),
        [first, second] => {
            let mut given = Value::Null;
            argument_of(arena, first, env, &mut given)?;
            call_with_second(arena, name.as_str(), given, second, env, found)
        }
        _ => Err(Stop::Erred),
    }
}

// What a call with two arguments gives, behind the value of the first.
#[cycle(evaluation)]
fn call_with_second<'a>(
    arena: &'a Bump,
    name: &str,
    first: Value<'a>,
    given: &'a Argument,
    env: &Env<'a, '_>,
    found: &mut Meaning<'a>,
) -> Result<(), Stop>
    ensures { Finds result (part_of found.new) (option_and_then (called_with_two name.now (part_of found.old) (value_of first.entry)) (argument_value (view_argument given.now) (env_of env.now))) }
{
    let mut second = Value::Null;
    argument_of(arena, given, env, &mut second)?;
    *found = called_with_two(arena, name, *found, first, second)?;
    Ok(())
}

// What a call with one argument gives, a value or a list.
#[cycle(evaluation)]
fn call_with<'a>(
    arena: &'a Bump,
    name: &str,
    given: &'a Argument,
    env: &Env<'a, '_>,
    found: &mut Meaning<'a>,
) -> Result<(), Stop>
    ensures { Finds result (part_of found.new) (call_of name.now (part_of found.old) (meant (argument (view_argument given.now) no_argument) (env_of env.now))) }
{
    match given {
        Argument::One(only) => {
            let mut first = Value::Null;
            value(arena, only, env, &mut first)?;
            *found = called_with(arena, name, *found, first)?;
            Ok(())
        }
        Argument::List(items) => call_listed(arena, name, items.as_slice(), env, found),
    }
}

// What a call with a list gives.
#[cycle(evaluation)]
fn call_listed<'a>(
    arena: &'a Bump,
    name: &str,
    items: &'a [Expr],
    env: &Env<'a, '_>,
    found: &mut Meaning<'a>,
) -> Result<(), Stop>
    ensures { Finds result (part_of found.new) (option_and_then (called_with_list name.now (part_of found.old)) (values (views items.now) (env_of env.now))) }
{
    let place = wanted(holder(name, *found))?;
    let all = have_children(arena, place, items, env)?;
    *found = Meaning::Value(Value::Truth(all));
    Ok(())
}

// Whether all the children exist that are listed; each element is evaluated.
#[cycle(evaluation)]
fn have_children<'a>(
    arena: &'a Bump,
    place: &'a Snapshot<'a>,
    items: &'a [Expr],
    env: &Env<'a, '_>,
) -> Result<bool, Stop>
    ensures { Gives result (λ b. b) (option_and_then (have_children place.now) (values (views items.now) (env_of env.now))) }
{
    let mut all = true;
    for item in items {
        let mut child = Value::Null;
        value(arena, item, env, &mut child)?;
        let there = has_child(arena, place, child)?;
        all = all && there;
    }
    Ok(all)
}

// The value of an argument, which a list is not.
#[cycle(evaluation)]
fn argument_of<'a>(
    arena: &'a Bump,
    given: &'a Argument,
    env: &Env<'a, '_>,
    found: &mut Value<'a>,
) -> Result<(), Stop>
    ensures { Finds result (value_of found.new) (argument_value (view_argument given.now) (env_of env.now)) }
{
    match given {
        Argument::One(only) => value(arena, only, env, found),
        Argument::List(_) => Err(Stop::Erred),
    }
}

/// What an evaluation comes to.
#[derive(Clone, Copy, Debug, PartialEq, Eq)]
pub enum Outcome {
    /// The expression means true: the rule holds.
    Yes,
    /// It means false.
    No,
    /// It means no boolean, or something that was evaluated is an error.
    Erred,
}

/// Whether a rule of this expression holds: Yes exactly where it means true, No exactly where it means
/// false, and Erred in every other case. Each part is evaluated at most once, and only where it is
/// looked at. Growths are taken for a text that `+` or `replace` makes, unless `child` walks down by what is joined
/// with a slash between, and one for each key that `child` walks down, as `hasChild` and `hasChildren` do where no
/// child has the key; every other text is borrowed.
/// (Reference, rules types.)
pub fn evaluate<'a>(
    arena: &'a Bump,
    checked: &'a Checked,
    env: &Env<'a, '_>,
) -> Result<Outcome, NoMemory>
    requires { Suits checked.now (env_of env.now) }
    ensures outcome { IfOk result (λ found. found ≡ outcome checked.now.tree (env_of env.now)) }
    ensures sorted { (p : meanings.Meaning) → mean checked.now.tree (env_of env.now) ≡ Some p → is_value (sort_of_part p) ≡ true }
{
    checked.law();
    match truth(arena, checked.expr(), env) {
        Ok(true) => Ok(Outcome::Yes),
        Ok(false) => Ok(Outcome::No),
        Err(Stop::Erred) => Ok(Outcome::Erred),
        Err(Stop::NoMemory) => Err(NoMemory),
    }
}

/// What an expression or a part of one means where a rule is evaluated, and None where that is an error. It takes what
/// [`evaluate`] takes. (Reference, expressions.)
pub fn meaning<'a>(
    arena: &'a Bump,
    expr: &'a Expr,
    env: &Env<'a, '_>,
) -> Result<Option<Meaning<'a>>, NoMemory>
    ensures { IfOk result (λ found. option_map part_of found ≡ mean (view expr.now) (env_of env.now)) }
{
    let mut found = Meaning::Value(Value::Null);
    match part(arena, expr, env, &mut found) {
        Ok(()) => Ok(Some(found)),
        Err(Stop::Erred) => Ok(None),
        Err(Stop::NoMemory) => Err(NoMemory),
    }
}
