//! What an expression can depend on.
ghost use Rattle.std.specs.Prelude.{◌≡◌};
ghost use Rattle.expr_parser.specs.View.{view, view_argument, views, arguments as arguments_of};
ghost use Rattle.expr_types.specs.Scope.{wider, scope_of_variable, scope_of, scope_given, scope_of_argument, scope_listed};

use expr_parser::{Argument, Expr};

/// What the meaning of an expression depends on, beside who asks, the captures and the query.
#[derive(Clone, Copy, Debug, PartialEq, Eq)]
pub enum Scope {
    /// Nothing else.
    Request,
    /// What stands at the location of its rule, and below it.
    Location,
    /// The moment, or what stands elsewhere.
    Database,
}

impl Scope {
    // The wider of the two.
    fn or(self, other: Scope) -> Scope
        ensures { result ≡ wider self other }
    {
        match self {
            Scope::Request => other,
            Scope::Location => match other {
                Scope::Database => Scope::Database,
                Scope::Request | Scope::Location => Scope::Location,
            },
            Scope::Database => Scope::Database,
        }
    }
}

// The scope of an expression, in time linear in it. It takes no memory.
#[cycle(scopes)]
pub(crate) fn scope_of(expr: &Expr) -> Scope
    ensures { result ≡ scope_of (view expr.now) }
{
    match expr {
        Expr::Number(_) | Expr::Text(_) | Expr::True | Expr::False | Expr::Null => Scope::Request,
        Expr::Variable(name) => of_variable(name.as_str()),
        Expr::Capture(_) => Scope::Request,
        Expr::Group(inner) => scope_of(inner),
        Expr::Member(receiver, _) => scope_of(receiver),
        Expr::Call(receiver, name, arguments) => if name.as_str() == "parent" {
            Scope::Database
        } else {
            scope_of(receiver).or(of_arguments(arguments))
        },
        Expr::Not(operand) | Expr::Negate(operand) => scope_of(operand),
        Expr::Operation(_, left, right) => scope_of(left).or(scope_of(right)),
        Expr::Choice(condition, yes, no) => {
            scope_of(condition).or(scope_of(yes).or(scope_of(no)))
        }
    }
}

// That of what a call is given.
#[cycle(scopes)]
fn of_arguments(arguments: &Vec<Argument>) -> Scope
    ensures { result ≡ scope_given (arguments_of arguments.now.items) }
{
    let mut widest = Scope::Request;
    for argument in arguments {
        widest = widest.or(of_argument(argument));
    }
    widest
}

#[cycle(scopes)]
fn of_argument(argument: &Argument) -> Scope
    ensures { result ≡ scope_of_argument (view_argument argument.now) }
{
    match argument {
        Argument::One(value) => scope_of(value),
        Argument::List(values) => of_elements(values),
    }
}

// That of the elements of a list.
#[cycle(scopes)]
fn of_elements(elements: &Vec<Expr>) -> Scope
    ensures { result ≡ scope_listed (views elements.now.items) }
{
    let mut widest = Scope::Request;
    for element in elements {
        widest = widest.or(scope_of(element));
    }
    widest
}

// That of a variable of this name.
fn of_variable(name: &str) -> Scope
    ensures { result ≡ scope_of_variable name.now }
{
    match name {
        "auth" | "query" => Scope::Request,
        "data" => Scope::Location,
        _ => Scope::Database,
    }
}
