//! The checker: the sort of an expression, or its first fault.
//!
//! A fault is reported in a place that the caller provides: so a sort is returned in a register, and where there is no
//! fault none is made.
ghost use Rattle.std.specs.Prelude.{◌≡◌, ◌⊎◌, true, is_ok, IfOk, IfErr, IsErr, OnOk, Ok, Err};
ghost use Rattle.expr_parser.specs.Tree as tree;
ghost use Rattle.expr_parser.specs.View.{view, view_argument, views, arguments as arguments_of};
ghost use Rattle.path_capture.specs.Captures.{names};
ghost use Rattle.expr_types.specs.HasSort.{HasSort, HasValue};
ghost use Rattle.expr_types.specs.Faults.{FirstFault, IsRefused, HasName};
ghost use Rattle.expr_types.specs.declared.fault.TypeFault.{TypeFault};
ghost use Rattle.expr_types.specs.Working.SortOf.{sort_of, given_of, with_argument, are_values, with_value, with_list, value_if};
ghost use Rattle.expr_types.specs.Working.Gives.{Gives};
ghost use Rattle.expr_types.specs.declared.fault.TypeFault.TheVariants.{NoMemory as no_memory};

use crate::checked::Checked;
use crate::fault::{FaultyName, TypeFault};
use crate::place::Place;
use crate::rows::{call, member, variable};
use crate::sort::{Given, Sort};
use expr_parser::{Argument, Expr};
use path_capture::Captures;
use std::alloc::{AllocError, Global};

/// The expression as one that may stand in a rule for this place, below captures of these names; the
/// keys that they stand for are not looked at. A refused expression is spent. Time linear in the
/// expression, and for each capture that it names in the number of captures; memory only for the name
/// of a fault. The recursion goes as deep as the expression
/// does. (Reference, variables, operators and methods; the sorts are this project's profile.)
pub fn check(
    alloc: Global,
    expr: Expr,
    place: Place,
    captures: &Captures,
) -> Result<Checked, TypeFault>
    // What is answered is the same expression, and may stand where a value is wanted.
    ensures same { IfOk result (λ checked. checked ≡ record { tree = view expr; place = place }) }
    ensures sorted { OnOk result (HasValue place (names captures.now) (view expr)) }
    // An expression that may stand so is never refused.
    ensures only { HasValue place (names captures.now) (view expr) → is_ok result ≡ true }
    // A fault is the first one; or that has a name, and memory for it is refused.
    ensures refused { IfErr result (λ fault. IsRefused place (names captures.now) (view expr) fault ⊎ ((fault ≡ no_memory) × (e : TypeFault) × IsRefused place (names captures.now) (view expr) e × HasName e)) }
{
    let checker = Checker {
        alloc,
        place,
        captures,
    };
    let mut fault = TypeFault::TypeError;
    match checker.sort(&expr, &mut fault) {
        Some(sort) => if sort.is_value() {
            Ok(Checked::of_expr(expr, place))
        } else {
            Err(TypeFault::TypeError)
        },
        None => Err(fault),
    }
}

/// The sort of an expression in a rule for this place, below captures of these names, or its first fault, also where
/// no value is wanted: so whoever asks it of parts finds where a fault is. It costs what [`check`] does.
pub fn sort_of(
    alloc: Global,
    expr: &Expr,
    place: Place,
    captures: &Captures,
) -> Result<Sort, TypeFault>
    ensures sorted { IfOk result (HasSort place (names captures.now) (view expr.now)) }
    // A fault is the first one; or that has a name, and memory for it is refused.
    ensures refused { IfErr result (λ fault. FirstFault place (names captures.now) (view expr.now) fault ⊎ ((fault ≡ no_memory) × (e : TypeFault) × FirstFault place (names captures.now) (view expr.now) e × HasName e)) }
{
    let checker = Checker {
        alloc,
        place,
        captures,
    };
    let mut fault = TypeFault::TypeError;
    match checker.sort(expr, &mut fault) {
        Some(sort) => Ok(sort),
        None => Err(fault),
    }
}

// What stays the same through an expression.
#[derive(Drop)]
struct Checker<'a> {
    alloc: Global,
    place: Place,
    captures: &'a Captures<'a>,
}

impl<'a> Checker<'a> {
    // The sort of an expression, or its first fault.
    #[cycle(sorts)]
    fn sort(&self, expr: &Expr, fault: &mut TypeFault) -> Option<Sort>
        ensures { Gives result fault.new (sort_of self.now.place (names self.now.captures.now) (view expr.now)) }
    {
        match expr {
            Expr::Number(_) | Expr::Text(_) | Expr::True | Expr::False | Expr::Null => {
                Some(Sort::Value)
            }
            Expr::Variable(name) => self.variable(name.as_str(), fault),
            Expr::Capture(name) => self.capture(name.as_str(), fault),
            Expr::Group(inner) => self.sort(inner, fault),
            Expr::Member(receiver, name) => {
                let receiver = self.sort(receiver, fault)?;
                member(self.alloc, receiver, name.as_str(), fault)
            }
            Expr::Call(receiver, name, arguments) => {
                let receiver = self.sort(receiver, fault)?;
                let given = self.given(arguments, fault)?;
                call(self.alloc, receiver, name.as_str(), given, fault)
            }
            Expr::Not(operand) | Expr::Negate(operand) => {
                let operand = self.sort(operand, fault)?;
                value_if(operand.is_value(), fault)
            }
            Expr::Operation(_, left, right) => {
                let left = self.sort(left, fault)?;
                let right = self.sort(right, fault)?;
                value_if(left.is_value() && right.is_value(), fault)
            }
            Expr::Choice(condition, yes, no) => {
                let condition = self.sort(condition, fault)?;
                let yes = self.sort(yes, fault)?;
                let no = self.sort(no, fault)?;
                value_if(
                    condition.is_value() && yes.is_value() && no.is_value(),
                    fault,
                )
            }
        }
    }

    // What a call is given.
    #[cycle(sorts)]
    fn given(&self, arguments: &Vec<Argument>, fault: &mut TypeFault) -> Option<Given>
        ensures { Gives result fault.new (given_of self.now.place (names self.now.captures.now) Given.Nothing (arguments_of arguments.now.items)) }
    {
        let mut found = Given::Nothing;
        for argument in arguments {
            found = self.with_argument(found, argument, fault)?;
        }
        Some(found)
    }

    // What a call is given, with one argument more.
    #[cycle(sorts)]
    fn with_argument(
        &self,
        before: Given,
        argument: &Argument,
        fault: &mut TypeFault,
    ) -> Option<Given>
        ensures { Gives result fault.new (with_argument self.now.place (names self.now.captures.now) before (view_argument argument.now)) }
    {
        match argument {
            Argument::One(value) => {
                let sort = self.sort(value, fault)?;
                Some(if sort.is_value() {
                    with_value(before)
                } else {
                    Given::Other
                })
            }
            Argument::List(values) => Some(if self.are_values(values, fault)? {
                with_list(before)
            } else {
                Given::Other
            }),
        }
    }

    // Whether the elements of a list are all values.
    #[cycle(sorts)]
    fn are_values(&self, elements: &Vec<Expr>, fault: &mut TypeFault) -> Option<bool>
        ensures { Gives result fault.new (are_values self.now.place (names self.now.captures.now) true (views elements.now.items)) }
    {
        let mut all = true;
        for element in elements {
            let sort = self.sort(element, fault)?;
            all = all && sort.is_value();
        }
        Some(all)
    }

    // The sort of a variable of this name.
    fn variable(&self, name: &str, fault: &mut TypeFault) -> Option<Sort>
        ensures { Gives result fault.new (sort_of self.now.place (names self.now.captures.now) (tree.Variable name.now)) }
    {
        let found = variable(self.place, name);
        if found.is_none() {
            *fault = unknown(FaultyName::of_text(self.alloc, name));
        }
        found
    }

    // The sort of a capture of this name.
    fn capture(&self, name: &str, fault: &mut TypeFault) -> Option<Sort>
        ensures { Gives result fault.new (sort_of self.now.place (names self.now.captures.now) (tree.Capture name.now)) }
    {
        if self.captures.key_of(name).is_some() {
            Some(Sort::Value)
        } else {
            *fault = unknown(FaultyName::of_capture(self.alloc, name));
            None
        }
    }
}

// That there is no such name, if memory for it is had.
fn unknown(name: Result<FaultyName, AllocError>) -> TypeFault
    ensures known { (text : FaultyName) → name ≡ Ok text → result ≡ TypeFault.UnknownName text }
    ensures no_memory { IsErr name → result ≡ no_memory }
{
    match name {
        Ok(name) => TypeFault::UnknownName(name),
        Err(_) => TypeFault::NoMemory,
    }
}

// A value, where all that it is made of are values.
fn value_if(are_values: bool, fault: &mut TypeFault) -> Option<Sort>
    ensures { Gives result fault.new (value_if are_values) }
{
    if are_values {
        Some(Sort::Value)
    } else {
        *fault = TypeFault::TypeError;
        None
    }
}

fn with_value(before: Given) -> Given
    ensures { result ≡ with_value before }
{
    match before {
        Given::Nothing => Given::OneValue,
        Given::OneValue => Given::TwoValues,
        Given::TwoValues | Given::OneList | Given::Other => Given::Other,
    }
}

fn with_list(before: Given) -> Given
    ensures { result ≡ with_list before }
{
    match before {
        Given::Nothing => Given::OneList,
        Given::OneValue | Given::TwoValues | Given::OneList | Given::Other => Given::Other,
    }
}
