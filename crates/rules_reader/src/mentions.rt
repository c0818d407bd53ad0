//! Which of `data` and `newData` rules mention, so that what no rule asks about is not looked up.
ghost use Rattle.std.specs.Prelude.{◌≡◌, option_map};
ghost use Rattle.expr_parser.specs.View.{view, view_argument, views, arguments as arguments_of};
ghost use Rattle.std.specs.Str.{bytes_eq};
ghost use Rattle.rules_reader.specs.Working.Kept.{is_known_as, kept_for};
ghost use Rattle.rules_reader.specs.Mentions.{variable_text, mentions, mentions_given, mentions_argument, mentions_listed, rule_mentions};

use crate::kind::Kind;
use expr_parser::{Argument, Expr};
use expr_tokens::{KnownName, Name};
use expr_types::Checked;

/// A variable that is a location of a tree. (Reference, variables: `data` and `newData`.)
#[derive(Clone, Copy, Debug, PartialEq, Eq)]
pub enum TreeVariable {
    /// `data`: what stands before a write.
    Data,
    /// `newData`: what would stand after it.
    NewData,
}

impl TreeVariable {
    // Whether a name is this variable, in constant time.
    fn is_named(self, name: &Name) -> bool
        ensures { result ≡ bytes_eq name.now (variable_text self) }
    {
        self.is_known(name.known())
    }

    // The same of the known name that it is.
    fn is_known(self, known: Option<KnownName>) -> bool
        ensures { result ≡ is_known_as self known }
    {
        match self {
            TreeVariable::Data => matches!(known, Some(KnownName::Data)),
            TreeVariable::NewData => matches!(known, Some(KnownName::NewData)),
        }
    }
}

/// For each kind of rule, whether one of that kind mentions a variable.
#[derive(Clone, Copy, Debug)]
pub(crate) struct Mentions {
    pub(crate) read: bool,
    pub(crate) write: bool,
    pub(crate) validate: bool,
}

impl Mentions {
    /// Whether a rule of this kind does.
    pub(crate) fn by(self, kind: Kind) -> bool
        ensures { result ≡ kept_for kind self }
    {
        match kind {
            Kind::Read => self.read,
            Kind::Write => self.write,
            Kind::Validate => self.validate,
        }
    }
}

/// Whether a rule is stated that mentions this variable, in time linear in it. It takes no memory.
pub(crate) fn rule_mentions(rule: Option<&Checked>, variable: TreeVariable) -> bool
    ensures { result ≡ rule_mentions variable (option_map (λ rule. rule.now) rule.entry) }
{
    match rule {
        Some(rule) => is_within(variable, rule.expr()),
        None => false,
    }
}

// Whether a part of an expression is this variable.
#[cycle(mentioning)]
fn is_within(variable: TreeVariable, expr: &Expr) -> bool
    ensures { result ≡ mentions (variable_text variable) (view expr.now) }
{
    match expr {
        Expr::Number(_) | Expr::Text(_) | Expr::True | Expr::False | Expr::Null => false,
        Expr::Variable(name) => variable.is_named(name),
        Expr::Capture(_) => false,
        Expr::Group(inner) => is_within(variable, inner),
        Expr::Member(receiver, _) => is_within(variable, receiver),
        Expr::Call(receiver, _, arguments) => {
            is_within(variable, receiver) || is_given(variable, arguments)
        }
        Expr::Not(operand) | Expr::Negate(operand) => is_within(variable, operand),
        Expr::Operation(_, left, right) => is_within(variable, left) || is_within(variable, right),
        Expr::Choice(condition, yes, no) => {
            is_within(variable, condition) || (is_within(variable, yes) || is_within(variable, no))
        }
    }
}

// Whether it is within something that a call is given.
#[cycle(mentioning)]
fn is_given(variable: TreeVariable, arguments: &Vec<Argument>) -> bool
    ensures { result ≡ mentions_given (variable_text variable) (arguments_of arguments.now.items) }
{
    for argument in arguments {
        if is_in_argument(variable, argument) {
            return true;
        }
    }
    false
}

#[cycle(mentioning)]
fn is_in_argument(variable: TreeVariable, argument: &Argument) -> bool
    ensures { result ≡ mentions_argument (variable_text variable) (view_argument argument.now) }
{
    match argument {
        Argument::One(value) => is_within(variable, value),
        Argument::List(values) => is_listed(variable, values),
    }
}

// Whether it is within an element of a list.
#[cycle(mentioning)]
fn is_listed(variable: TreeVariable, elements: &Vec<Expr>) -> bool
    ensures { result ≡ mentions_listed (variable_text variable) (views elements.now.items) }
{
    for element in elements {
        if is_within(variable, element) {
            return true;
        }
    }
    false
}
