//! The places of an expression's parts.
ghost use Rattle.std.specs.Prelude.{◌≡◌, ◌+◌, ◌++◌, ◌∷◌, [], map, IfOk, OnOk};
ghost use Rattle.expr_parser.specs.View.{view, view_argument, views, arguments as arguments_of};
ghost use Rattle.expr_places.specs.Places.{width, given_width, more_width, argument_width, items_width, placed_of, placed_parts, placed_argument, placed_arguments, placed_items};

use expr_parser::{Argument, Expr};
use json_tree::NoMemory;
use std::alloc::Global;

/// A part of an expression.
#[derive(Clone, Copy, Debug)]
pub struct Placed<'e> {
    /// How many tokens of the expression are before it.
    pub before: usize,
    pub part: &'e Expr,
}

/// How many tokens spell an expression. It takes time linear in the expression, and no memory: want of memory is answered
/// for a number that a `usize` can't say. The recursion goes as deep as the expression does. (Firebase Security Rules
/// reference, expressions.)
#[cycle(widths)]
pub fn width(expr: &Expr) -> Result<usize, NoMemory>
    ensures { IfOk result (λ count. count ≡ width (view expr.now)) }
{
    match expr {
        Expr::Group(inner) => sum(width(inner)?, 2),
        Expr::Member(receiver, _) => sum(width(receiver)?, 2),
        Expr::Call(receiver, _, arguments) => {
            sum(sum(width(receiver)?, 2)?, given_width(arguments)?)
        }
        Expr::Not(operand) | Expr::Negate(operand) => sum(width(operand)?, 1),
        Expr::Operation(_, left, right) => sum(sum(width(left)?, 1)?, width(right)?),
        Expr::Choice(condition, yes, no) => {
            let both = sum(sum(width(yes)?, 1)?, width(no)?)?;
            sum(sum(width(condition)?, 1)?, both)
        }
        _ => Ok(1),
    }
}

// How many tokens are what a call is given, with its parentheses.
#[cycle(widths)]
fn given_width(arguments: &Vec<Argument>) -> Result<usize, NoMemory>
    ensures { IfOk result (λ count. count ≡ given_width (arguments_of arguments.now.items)) }
{
    if arguments.is_empty() {
        return Ok(2);
    }
    let mut count = 1;
    for argument in arguments {
        count = sum(sum(count, 1)?, argument_width(argument)?)?;
    }
    Ok(count)
}

#[cycle(widths)]
fn argument_width(argument: &Argument) -> Result<usize, NoMemory>
    ensures { IfOk result (λ count. count ≡ argument_width (view_argument argument.now)) }
{
    match argument {
        Argument::One(expr) => width(expr),
        Argument::List(elements) => items_width(elements),
    }
}

// How many tokens are the elements of a list, with its brackets.
#[cycle(widths)]
fn items_width(elements: &Vec<Expr>) -> Result<usize, NoMemory>
    ensures { IfOk result (λ count. count ≡ items_width (views elements.now.items)) }
{
    let mut count = 1;
    for element in elements {
        count = sum(sum(count, 1)?, width(element)?)?;
    }
    Ok(count)
}

fn sum(one: usize, other: usize) -> Result<usize, NoMemory>
    ensures { IfOk result (λ total. total ≡ one + other) }
{
    match one.checked_add(other) {
        Some(total) => Ok(total),
        None => Err(NoMemory),
    }
}

/// The parts of an expression, from left to right, each with how many tokens of the expression are before it: the
/// operands, the receiver and what a call is given, elements of lists by themselves. It takes time linear in the expression,
/// and a list of the parts.
pub fn parts(alloc: Global, expr: &Expr) -> Result<Vec<Placed<'_>>, NoMemory>
    ensures { IfOk result (λ parts. map placed_of parts.items ≡ placed_parts (view expr.now)) }
{
    let mut parts = Vec::new(alloc);
    push_parts(&mut parts, expr)?;
    Ok(parts)
}

fn push_parts<'e>(parts: &mut Vec<Placed<'e>>, expr: &'e Expr) -> Result<(), NoMemory>
    ensures { OnOk result (map placed_of parts.new.items ≡ map placed_of parts.old.items ++ placed_parts (view expr.now)) }
{
    match expr {
        Expr::Group(inner) => push(parts, 1, inner),
        Expr::Member(receiver, _) => push(parts, 0, receiver),
        Expr::Call(receiver, _, arguments) => push_call(parts, receiver, arguments),
        Expr::Not(operand) | Expr::Negate(operand) => push(parts, 1, operand),
        Expr::Operation(_, left, right) => push_operands(parts, left, right),
        Expr::Choice(condition, yes, no) => push_choice(parts, condition, yes, no),
        _ => Ok(()),
    }
}

fn push_call<'e>(
    parts: &mut Vec<Placed<'e>>,
    receiver: &'e Expr,
    arguments: &'e Vec<Argument>,
) -> Result<(), NoMemory>
    ensures { OnOk result (map placed_of parts.new.items ≡ map placed_of parts.old.items ++ (0, view receiver.now) ∷ placed_arguments (width (view receiver.now) + 3) (arguments_of arguments.now.items)) }
{
    push(parts, 0, receiver)?;
    push_arguments(parts, sum(width(receiver)?, 3)?, arguments)
}

fn push_operands<'e>(
    parts: &mut Vec<Placed<'e>>,
    left: &'e Expr,
    right: &'e Expr,
) -> Result<(), NoMemory>
    ensures { OnOk result (map placed_of parts.new.items ≡ map placed_of parts.old.items ++ (0, view left.now) ∷ (width (view left.now) + 1, view right.now) ∷ []) }
{
    push(parts, 0, left)?;
    push(parts, sum(width(left)?, 1)?, right)
}

fn push_choice<'e>(
    parts: &mut Vec<Placed<'e>>,
    condition: &'e Expr,
    yes: &'e Expr,
    no: &'e Expr,
) -> Result<(), NoMemory>
    ensures { OnOk result (map placed_of parts.new.items ≡ map placed_of parts.old.items ++ (0, view condition.now) ∷ (width (view condition.now) + 1, view yes.now) ∷ (width (view condition.now) + (1 + (width (view yes.now) + 1)), view no.now) ∷ []) }
{
    let first = sum(width(condition)?, 1)?;
    push(parts, 0, condition)?;
    push(parts, first, yes)?;
    push(parts, sum(first, sum(width(yes)?, 1)?)?, no)
}

fn push<'e>(parts: &mut Vec<Placed<'e>>, before: usize, part: &'e Expr) -> Result<(), NoMemory>
    ensures { OnOk result (map placed_of parts.new.items ≡ map placed_of parts.old.items ++ (before, view part.now) ∷ []) }
{
    parts.push(Placed { before, part })?;
    Ok(())
}

// Appends what a call is given, of which the first is behind so many tokens.
fn push_arguments<'e>(
    parts: &mut Vec<Placed<'e>>,
    before: usize,
    arguments: &'e Vec<Argument>,
) -> Result<(), NoMemory>
    ensures { OnOk result (map placed_of parts.new.items ≡ map placed_of parts.old.items ++ placed_arguments before (arguments_of arguments.now.items)) }
{
    let mut at = before;
    for argument in arguments {
        push_argument(parts, at, argument)?;
        at = sum(sum(at, argument_width(argument)?)?, 1)?;
    }
    Ok(())
}

fn push_argument<'e>(
    parts: &mut Vec<Placed<'e>>,
    before: usize,
    argument: &'e Argument,
) -> Result<(), NoMemory>
    ensures { OnOk result (map placed_of parts.new.items ≡ map placed_of parts.old.items ++ placed_argument before (view_argument argument.now)) }
{
    match argument {
        Argument::One(expr) => push(parts, before, expr),
        Argument::List(elements) => push_items(parts, sum(before, 1)?, elements),
    }
}

// Appends the elements of a list, of which the first is behind so many tokens.
fn push_items<'e>(
    parts: &mut Vec<Placed<'e>>,
    before: usize,
    elements: &'e Vec<Expr>,
) -> Result<(), NoMemory>
    ensures { OnOk result (map placed_of parts.new.items ≡ map placed_of parts.old.items ++ placed_items before (views elements.now.items)) }
{
    let mut at = before;
    for element in elements {
        push(parts, at, element)?;
        at = sum(sum(at, width(element)?)?, 1)?;
    }
    Ok(())
}
