//! What a `.validate` asks for of its own location.
ghost use Rattle.std.specs.Prelude.{◌≡◌, IfSome, true, option_map};
ghost use Rattle.std.specs.Str.{bytes_eq};
ghost use Rattle.expr_parser.specs.View.{view, view_argument, views, arguments as arguments_of};
ghost use Rattle.lint.specs.Demands.{is_and, is_new_data, text_in, is_such, lists_such, leads_below, asks_by_one, asks_at, asks_below, is_demand, asks, asks_child, AsksForTwo};
ghost use Rattle.lint.specs.Working.{IsRefusedChild};

use crate::finding::Demand;
use crate::literal::states_false;
use expr_parser::{Argument, Expr, Name, Operator};
use json_tree::is_lawful_key;
use rules_reader::{Kind, RuleNode};

/// The first two demands that an expression asks for both of its own location, if there are two. It takes a few passes
/// over the expression, and no memory.
pub(crate) fn two_demands(expr: &Expr) -> Option<(Demand, Demand)>
    ensures { IfSome result (λ two. AsksForTwo (view expr.now) two.0 two.1) }
{
    let is_string = asks(expr, Demand::IsString);
    let is_number = asks(expr, Demand::IsNumber);
    let is_boolean = asks(expr, Demand::IsBoolean);
    let has_children = asks(expr, Demand::HasChildren);
    if is_string && is_number {
        Some((Demand::IsString, Demand::IsNumber))
    } else if is_string && is_boolean {
        Some((Demand::IsString, Demand::IsBoolean))
    } else if is_string && has_children {
        Some((Demand::IsString, Demand::HasChildren))
    } else if is_number && is_boolean {
        Some((Demand::IsNumber, Demand::IsBoolean))
    } else if is_number && has_children {
        Some((Demand::IsNumber, Demand::HasChildren))
    } else if is_boolean && has_children {
        Some((Demand::IsBoolean, Demand::HasChildren))
    } else {
        None
    }
}

// Whether an expression is true only where a demand is met at its own location.
fn asks(expr: &Expr, demand: Demand) -> bool
    ensures { result ≡ asks demand (view expr.now) }
{
    match expr {
        Expr::Group(inner) => asks(inner, demand),
        Expr::Operation(operator, left, right) => {
            is_and(*operator) && (asks(left, demand) || asks(right, demand))
        }
        Expr::Call(receiver, name, arguments) => {
            is_new_data(receiver) && is_demand(demand, name, arguments)
        }
        Expr::Number(_)
        | Expr::Text(_)
        | Expr::True
        | Expr::False
        | Expr::Null
        | Expr::Variable(_)
        | Expr::Capture(_)
        | Expr::Member(_, _)
        | Expr::Not(_)
        | Expr::Negate(_)
        | Expr::Choice(_, _, _) => false,
    }
}

fn is_and(operator: Operator) -> bool
    ensures { result ≡ is_and operator }
{
    matches!(operator, Operator::And)
}

fn is_new_data(expr: &Expr) -> bool
    ensures { result ≡ is_new_data (view expr.now) }
{
    match expr {
        Expr::Variable(name) => name.as_str() == "newData",
        Expr::Number(_)
        | Expr::Text(_)
        | Expr::True
        | Expr::False
        | Expr::Null
        | Expr::Capture(_)
        | Expr::Group(_)
        | Expr::Member(_, _)
        | Expr::Call(_, _, _)
        | Expr::Not(_)
        | Expr::Negate(_)
        | Expr::Operation(_, _, _)
        | Expr::Choice(_, _, _) => false,
    }
}

// Whether a call of this name of `newData` asks for this.
fn is_demand(demand: Demand, name: &Name, arguments: &Vec<Argument>) -> bool
    ensures { result ≡ is_demand demand name.now (arguments_of arguments.now.items) }
{
    match demand {
        Demand::IsString => name.as_str() == "isString",
        Demand::IsNumber => name.as_str() == "isNumber",
        Demand::IsBoolean => name.as_str() == "isBoolean",
        Demand::HasChildren => asks_below(name, arguments),
    }
}

// Whether it asks for something properly below.
fn asks_below(name: &Name, arguments: &Vec<Argument>) -> bool
    ensures { result ≡ asks_below name.now (arguments_of arguments.now.items) }
{
    match arguments.first() {
        Some(argument) => asks_below_by(name, argument),
        None => name.as_str() == "hasChildren",
    }
}

fn asks_below_by(name: &Name, argument: &Argument) -> bool
    ensures { result ≡ asks_by_one leads_below name.now (view_argument argument.now) }
{
    match argument {
        Argument::One(expr) => name.as_str() == "hasChild" && leads_below(expr),
        Argument::List(elements) => name.as_str() == "hasChildren" && some_leads_below(elements),
    }
}

fn some_leads_below(elements: &Vec<Expr>) -> bool
    ensures { result ≡ lists_such leads_below (views elements.now.items) }
{
    for element in elements {
        if leads_below(element) {
            return true;
        }
    }
    false
}

// Whether an expression is a text of a path with a key at least: it has a byte that is no slash.
fn leads_below(expr: &Expr) -> bool
    ensures { result ≡ is_such leads_below (text_in (view expr.now)) }
{
    match text_of(expr) {
        Some(text) => has_key(text),
        None => false,
    }
}

fn has_key(text: &str) -> bool
    ensures { result ≡ leads_below text.now }
{
    text.as_bytes().iter().any(|byte| *byte != b'/')
}

// The text that an expression literally is.
fn text_of(expr: &Expr) -> Option<&str>
    ensures { option_map (λ text. text.now) result ≡ text_in (view expr.now) }
{
    match expr {
        Expr::Text(text) => Some(text.as_str()),
        Expr::Number(_)
        | Expr::True
        | Expr::False
        | Expr::Null
        | Expr::Variable(_)
        | Expr::Capture(_)
        | Expr::Group(_)
        | Expr::Member(_, _)
        | Expr::Call(_, _, _)
        | Expr::Not(_)
        | Expr::Negate(_)
        | Expr::Operation(_, _, _)
        | Expr::Choice(_, _, _) => None,
    }
}

/// A child that an expression asks for, and its object, whose `.validate` is literally `false`.
#[derive(Clone, Copy, Debug)]
pub(crate) struct Refused<'a> {
    pub(crate) child: &'a str,
    pub(crate) node: &'a RuleNode,
}

/// The first child of an object that an expression asks for and that is refused, if there is one. It takes no memory.
pub(crate) fn refused_child<'a>(node: &'a RuleNode, expr: &'a Expr) -> Option<Refused<'a>>
    ensures { IfSome result (λ refused. (asks_child refused.child.now (view expr.now) ≡ true) × IsRefusedChild node.now refused.child.now refused.node.now) }
{
    match expr {
        Expr::Group(inner) => refused_child(node, inner),
        Expr::Operation(operator, left, right) => if is_and(*operator) {
            match refused_child(node, left) {
                Some(refused) => Some(refused),
                None => refused_child(node, right),
            }
        } else {
            None
        },
        Expr::Call(receiver, name, arguments) => if is_new_data(receiver) {
            refused_in_call(node, name, arguments)
        } else {
            None
        },
        Expr::Number(_)
        | Expr::Text(_)
        | Expr::True
        | Expr::False
        | Expr::Null
        | Expr::Variable(_)
        | Expr::Capture(_)
        | Expr::Member(_, _)
        | Expr::Not(_)
        | Expr::Negate(_)
        | Expr::Choice(_, _, _) => None,
    }
}

fn refused_in_call<'a>(
    node: &'a RuleNode,
    name: &Name,
    arguments: &'a Vec<Argument>,
) -> Option<Refused<'a>>
    ensures { IfSome result (λ refused. (asks_at (λ text. bytes_eq text refused.child.now) name.now (arguments_of arguments.now.items) ≡ true) × IsRefusedChild node.now refused.child.now refused.node.now) }
{
    match arguments.first() {
        Some(argument) => refused_argument(node, name, argument),
        None => None,
    }
}

fn refused_argument<'a>(
    node: &'a RuleNode,
    name: &Name,
    argument: &'a Argument,
) -> Option<Refused<'a>>
    ensures { IfSome result (λ refused. (asks_by_one (λ text. bytes_eq text refused.child.now) name.now (view_argument argument.now) ≡ true) × IsRefusedChild node.now refused.child.now refused.node.now) }
{
    match argument {
        Argument::One(expr) => if name.as_str() == "hasChild" {
            refused_text(node, expr)
        } else {
            None
        },
        Argument::List(elements) => if name.as_str() == "hasChildren" {
            refused_element(node, elements)
        } else {
            None
        },
    }
}

fn refused_element<'a>(node: &'a RuleNode, elements: &'a Vec<Expr>) -> Option<Refused<'a>>
    ensures { IfSome result (λ refused. (lists_such (λ text. bytes_eq text refused.child.now) (views elements.now.items) ≡ true) × IsRefusedChild node.now refused.child.now refused.node.now) }
{
    for element in elements {
        let found = refused_text(node, element);
        if found.is_some() {
            return found;
        }
    }
    None
}

// The child of an object that an expression literally names, if it is refused.
fn refused_text<'a>(node: &'a RuleNode, expr: &'a Expr) -> Option<Refused<'a>>
    ensures { IfSome result (λ refused. (is_such (λ text. bytes_eq text refused.child.now) (text_in (view expr.now)) ≡ true) × IsRefusedChild node.now refused.child.now refused.node.now) }
{
    let child = text_of(expr)?;
    if !is_lawful_key(child) {
        return None;
    }
    let to = node.step(child)?;
    if states_false(to, Kind::Validate) {
        Some(Refused { child, node: to })
    } else {
        None
    }
}
