//! Behind how many tokens of a rule the first fault of its sorts shows.
ghost use Rattle.std.specs.Prelude.{◌≡◌, ◌+◌, map, drop, true, false, IfOk, IfErr, IfSome, IfNone};
ghost use Rattle.std.specs.List.{AllByRecursion};
ghost use Rattle.expr_parser.specs.View.{view};
ghost use Rattle.expr_types.specs.HasSort.{HasSort, HasSomeSort, HasValue};
ghost use Rattle.expr_types.specs.Faults.{FirstFault, own_fault};
ghost use Rattle.expr_types.specs.declared.fault.TypeFault.TheVariants.{TypeError as type_error};
ghost use Rattle.expr_places.specs.Places.{width, placed_of, placed_parts};
ghost use Rattle.rules_reader.specs.Part.{texts};
ghost use Rattle.rules_reader.specs.Spelled.{place_of, capture_names};
ghost use Rattle.diagnosis.specs.Shown.{ShowsInRule, ShowsBehind, IsFirstUnsorted, IsFirstMisfit, IsAtFault, operands};

use expr_parser::Expr;
use expr_places::{Placed, parts, width};
use expr_tokens::MAX_EXPRESSION_BYTES;
use expr_types::{Sort, TypeFault};
use json_tree::NoMemory;
use rules_reader::{RuleName, sort_in_rule};
use std::alloc::Global;

/// The first fault of the expression of a rule, and behind how many of its tokens it shows, where the expression may not
/// stand there and that is found. It checks each part on the way to the fault once more.
pub(crate) fn token_of_fault(
    alloc: Global,
    expr: &Expr,
    rule: &RuleName,
) -> Result<Option<(usize, TypeFault)>, NoMemory>
    ensures { IfOk result (λ found. IfSome found (λ found. ShowsInRule (place_of rule.now.kind) (capture_names (texts rule.now.pattern)) (view expr.now) found.1 found.0)) }
{
    match sorted(alloc, expr, rule)? {
        Ok(sort) => if sort.is_value() {
            Ok(None)
        } else {
            Ok(Some((0, TypeFault::TypeError)))
        },
        Err(_) => token_in(alloc, expr, rule),
    }
}

// The same of an expression that has no sort: it goes from each part to the first of its parts that has none.
fn token_in(
    alloc: Global,
    expr: &Expr,
    rule: &RuleName,
) -> Result<Option<(usize, TypeFault)>, NoMemory>
    ensures { IfOk result (λ found. IfSome found (λ found. ShowsBehind (place_of rule.now.kind) (capture_names (texts rule.now.pattern)) (view expr.now) found.1 found.0)) }
{
    let mut part = expr;
    let mut before = 0usize;
    for _ in 0..MAX_EXPRESSION_BYTES {
        match first_without_sort(alloc, part, rule)? {
            Some(inner) => {
                before = sum(before, inner.before)?;
                part = inner.part;
            }
            None => {
                let Some((token, fault)) = own_token(alloc, part, rule)? else {
                    return Ok(None);
                };
                return Ok(Some((sum(before, token)?, fault)));
            }
        }
    }
    Ok(None)
}

fn sum(one: usize, other: usize) -> Result<usize, NoMemory>
    ensures { IfOk result (λ total. total ≡ one + other) }
{
    match one.checked_add(other) {
        Some(total) => Ok(total),
        None => Err(NoMemory),
    }
}

// The first part of an expression that has no sort.
pub(crate) fn first_without_sort<'e>(
    alloc: Global,
    expr: &'e Expr,
    rule: &RuleName,
) -> Result<Option<Placed<'e>>, NoMemory>
    ensures some { IfOk result (λ found. IfSome found (λ part. IsFirstUnsorted (place_of rule.now.kind) (capture_names (texts rule.now.pattern)) (placed_parts (view expr.now)) (placed_of part))) }
    ensures none { IfOk result (λ found. IfNone found (AllByRecursion (λ one. HasSomeSort (place_of rule.now.kind) (capture_names (texts rule.now.pattern)) one.1) (placed_parts (view expr.now)))) }
{
    first_unsorted(alloc, &parts(alloc, expr)?, rule)
}

fn first_unsorted<'e>(
    alloc: Global,
    parts: &[Placed<'e>],
    rule: &RuleName,
) -> Result<Option<Placed<'e>>, NoMemory>
    ensures some { IfOk result (λ found. IfSome found (λ part. IsFirstUnsorted (place_of rule.now.kind) (capture_names (texts rule.now.pattern)) (map placed_of parts.now) (placed_of part))) }
    ensures none { IfOk result (λ found. IfNone found (AllByRecursion (λ one. HasSomeSort (place_of rule.now.kind) (capture_names (texts rule.now.pattern)) one.1) (map placed_of parts.now))) }
{
    for part in parts {
        if !has_sort(alloc, part.part, rule)? {
            return Ok(Some(*part));
        }
    }
    Ok(None)
}

// The fault of an expression whose parts have sorts, and behind how many of its tokens it shows.
fn own_token(
    alloc: Global,
    expr: &Expr,
    rule: &RuleName,
) -> Result<Option<(usize, TypeFault)>, NoMemory>
    requires { AllByRecursion (λ one. HasSomeSort (place_of rule.now.kind) (capture_names (texts rule.now.pattern)) one.1) (placed_parts (view expr.now)) }
    ensures { IfOk result (λ found. IfSome found (λ found. ShowsBehind (place_of rule.now.kind) (capture_names (texts rule.now.pattern)) (view expr.now) found.1 found.0)) }
{
    let Err(fault) = sorted(alloc, expr, rule)? else {
        return Ok(None);
    };
    match token_of_own(alloc, expr, &fault, rule)? {
        Some(token) => Ok(Some((token, fault))),
        None => Ok(None),
    }
}

// The sort of an expression, or its first fault.
fn sorted(alloc: Global, expr: &Expr, rule: &RuleName) -> Result<Result<Sort, TypeFault>, NoMemory>
    ensures sorted { IfOk result (λ found. IfOk found (HasSort (place_of rule.now.kind) (capture_names (texts rule.now.pattern)) (view expr.now))) }
    ensures refused { IfOk result (λ found. IfErr found (FirstFault (place_of rule.now.kind) (capture_names (texts rule.now.pattern)) (view expr.now))) }
{
    match sort_in_rule(alloc, expr, rule.kind, &rule.pattern) {
        Ok(sort) => Ok(Ok(sort)),
        Err(fault) => match fault {
            TypeFault::NoMemory => Err(NoMemory),
            _ => Ok(Err(fault)),
        },
    }
}

// Behind how many tokens of an expression its own fault shows.
fn token_of_own(
    alloc: Global,
    expr: &Expr,
    fault: &TypeFault,
    rule: &RuleName,
) -> Result<Option<usize>, NoMemory>
    requires own { own_fault (view expr.now) ≡ fault.now }
    requires at_fault { IsAtFault (place_of rule.now.kind) (capture_names (texts rule.now.pattern)) (view expr.now) }
    ensures { IfOk result (λ token. IfSome token (ShowsBehind (place_of rule.now.kind) (capture_names (texts rule.now.pattern)) (view expr.now) fault.now)) }
{
    match expr {
        Expr::Variable(_) => Ok(Some(0)),
        Expr::Capture(_) => Ok(Some(0)),
        Expr::Member(receiver, _) => Ok(Some(behind(receiver)?)),
        Expr::Call(receiver, _, _) => match misfit_of_call(alloc, expr, fault, rule)? {
            Some(token) => Ok(Some(token)),
            None => Ok(Some(behind(receiver)?)),
        },
        _ => misfit_of_operands(alloc, expr, fault, rule),
    }
}

// The same of what is neither a name nor a use.
fn misfit_of_operands(
    alloc: Global,
    expr: &Expr,
    fault: &TypeFault,
    rule: &RuleName,
) -> Result<Option<usize>, NoMemory>
    requires own { own_fault (view expr.now) ≡ fault.now }
    requires at_fault { IsAtFault (place_of rule.now.kind) (capture_names (texts rule.now.pattern)) (view expr.now) }
    ensures { IfOk result (λ token. IfSome token (ShowsBehind (place_of rule.now.kind) (capture_names (texts rule.now.pattern)) (view expr.now) fault.now)) }
{
    if !has_operands(expr) {
        return Ok(None);
    }
    match first_misfit(alloc, &parts(alloc, expr)?, rule)? {
        Some(token) => Ok(Some(token)),
        None => Ok(None),
    }
}

// Whether an expression is an operator with its operands.
fn has_operands(expr: &Expr) -> bool
    ensures fault { result ≡ true → own_fault (view expr.now) ≡ type_error }
    ensures operands { result ≡ true → operands (view expr.now) ≡ placed_parts (view expr.now) }
{
    matches!(
        expr,
        Expr::Not(_) | Expr::Negate(_) | Expr::Operation(_, _, _) | Expr::Choice(_, _, _)
    )
}

// How many tokens are an expression and the dot behind it.
fn behind(receiver: &Expr) -> Result<usize, NoMemory>
    ensures { IfOk result (λ count. count ≡ width (view receiver.now) + 1) }
{
    sum(width(receiver)?, 1)
}

// Behind how many tokens the first is that is no value of what a call is given, where its fault is one of sorts.
fn misfit_of_call(
    alloc: Global,
    call: &Expr,
    fault: &TypeFault,
    rule: &RuleName,
) -> Result<Option<usize>, NoMemory>
    ensures some { IfOk result (λ found. IfSome found (λ token. (fault.now ≡ type_error) × IsFirstMisfit (place_of rule.now.kind) (capture_names (texts rule.now.pattern)) (drop 1 (placed_parts (view call.now))) token)) }
    ensures none { IfOk result (λ found. IfNone found (fault.now ≡ type_error → AllByRecursion (λ one. HasValue (place_of rule.now.kind) (capture_names (texts rule.now.pattern)) one.1) (drop 1 (placed_parts (view call.now))))) }
{
    if !matches!(fault, TypeFault::TypeError) {
        return Ok(None);
    }
    match first_misfit(alloc, but_first(&parts(alloc, call)?), rule)? {
        Some(token) => Ok(Some(token)),
        None => Ok(None),
    }
}

fn but_first<'s, 'e>(parts: &'s [Placed<'e>]) -> &'s [Placed<'e>]
    ensures { map placed_of result.now ≡ drop 1 (map placed_of parts.now) }
{
    match parts {
        [] => parts,
        [_, rest @ ..] => rest,
    }
}

// Behind how many tokens the first of these parts is that is no value.
fn first_misfit(
    alloc: Global,
    parts: &[Placed<'_>],
    rule: &RuleName,
) -> Result<Option<usize>, NoMemory>
    ensures some { IfOk result (λ found. IfSome found (IsFirstMisfit (place_of rule.now.kind) (capture_names (texts rule.now.pattern)) (map placed_of parts.now))) }
    ensures none { IfOk result (λ found. IfNone found (AllByRecursion (λ one. HasValue (place_of rule.now.kind) (capture_names (texts rule.now.pattern)) one.1) (map placed_of parts.now))) }
{
    for part in parts {
        if !has_value(alloc, part.part, rule)? {
            return Ok(Some(part.before));
        }
    }
    Ok(None)
}

#[tactic(auto, using(crate::proofs::Faulty::no_sort))]
pub(crate) fn has_sort(alloc: Global, expr: &Expr, rule: &RuleName) -> Result<bool, NoMemory>
    ensures yes { IfOk result (λ has. has ≡ true → HasSomeSort (place_of rule.now.kind) (capture_names (texts rule.now.pattern)) (view expr.now)) }
    ensures no { IfOk result (λ has. has ≡ false → HasSomeSort (place_of rule.now.kind) (capture_names (texts rule.now.pattern)) (view expr.now) → ⊥) }
{
    match sorted(alloc, expr, rule)? {
        Ok(_) => Ok(true),
        Err(_) => Ok(false),
    }
}

// Whether an expression may stand where a value is wanted.
#[tactic(auto, using(crate::proofs::Faulty::no_value, crate::proofs::Faulty::no_value_at_fault))]
pub(crate) fn has_value(alloc: Global, expr: &Expr, rule: &RuleName) -> Result<bool, NoMemory>
    ensures yes { IfOk result (λ has. has ≡ true → HasValue (place_of rule.now.kind) (capture_names (texts rule.now.pattern)) (view expr.now)) }
    ensures no { IfOk result (λ has. has ≡ false → HasValue (place_of rule.now.kind) (capture_names (texts rule.now.pattern)) (view expr.now) → ⊥) }
{
    match sorted(alloc, expr, rule)? {
        Ok(sort) => Ok(sort.is_value()),
        Err(_) => Ok(false),
    }
}
