//! What the meaning of a part decides: whether another part is looked at.
ghost use Rattle.std.specs.Prelude.{◌≡◌, IfOk, is_some, option_map};
ghost use Rattle.expr_parser.specs.View.{view};
ghost use Rattle.evaluator.specs.Value.{as_value};
ghost use Rattle.evaluator.specs.Operators.{as_truth};
ghost use Rattle.evaluator.specs.Env.{env_of};
ghost use Rattle.evaluator.specs.Parts.{part_of};
ghost use Rattle.explainer.specs.Looks.{is_it, looks_right, means, means_value, means_something};

use bumpalo::Bump;
use evaluator::{Env, Meaning, Value, meaning};
use expr_parser::{Expr, Operator};
use json_tree::NoMemory;

// Whether it is this boolean.
fn is_it(wanted: bool, found: &Option<Meaning<'_>>) -> bool
    ensures { result ≡ is_it wanted (as_truth (as_value (option_map part_of found.now))) }
{
    match found {
        Some(Meaning::Value(Value::Truth(b))) => *b == wanted,
        _ => false,
    }
}

// Whether it is a value, as `auth` and its token are where one is wanted.
fn is_value(found: &Option<Meaning<'_>>) -> bool
    ensures { result ≡ is_some (as_value (option_map part_of found.now)) }
{
    match found {
        Some(Meaning::Value(_) | Meaning::Auth(_) | Meaning::Token(_)) => true,
        Some(Meaning::Snapshot(_) | Meaning::Query(_)) | None => false,
    }
}

// Whether an expression means this boolean.
pub(crate) fn means<'a>(
    arena: &'a Bump,
    wanted: bool,
    expr: &'a Expr,
    env: &Env<'a, '_>,
) -> Result<bool, NoMemory>
    ensures { IfOk result (λ b. b ≡ means wanted (view expr.now) (env_of env.now)) }
{
    match meaning(arena, expr, env) {
        Ok(found) => Ok(is_it(wanted, &found)),
        Err(refused) => Err(refused),
    }
}

// Whether an expression means a value.
pub(crate) fn means_value<'a>(
    arena: &'a Bump,
    expr: &'a Expr,
    env: &Env<'a, '_>,
) -> Result<bool, NoMemory>
    ensures { IfOk result (λ b. b ≡ means_value (view expr.now) (env_of env.now)) }
{
    match meaning(arena, expr, env) {
        Ok(found) => Ok(is_value(&found)),
        Err(refused) => Err(refused),
    }
}

// Whether an expression means something, and is no error.
pub(crate) fn means_something<'a>(
    arena: &'a Bump,
    expr: &'a Expr,
    env: &Env<'a, '_>,
) -> Result<bool, NoMemory>
    ensures { IfOk result (λ b. b ≡ means_something (view expr.now) (env_of env.now)) }
{
    match meaning(arena, expr, env) {
        Ok(found) => Ok(found.is_some()),
        Err(refused) => Err(refused),
    }
}

// Whether an operator looks at its right operand, by its left one.
pub(crate) fn looks_right<'a>(
    arena: &'a Bump,
    operator: Operator,
    left: &'a Expr,
    env: &Env<'a, '_>,
) -> Result<bool, NoMemory>
    ensures { IfOk result (λ b. b ≡ looks_right operator (view left.now) (env_of env.now)) }
{
    match operator {
        Operator::And => means(arena, true, left, env),
        Operator::Or => means(arena, false, left, env),
        _ => means_value(arena, left, env),
    }
}
