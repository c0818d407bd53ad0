//! Rules that are literals.
ghost use Rattle.std.specs.Prelude.{◌≡◌, ◌||◌, []};
ghost use Rattle.expr_parser.specs.View.{view};
ghost use Rattle.lint.specs.Literal.{is_true, is_false, is_stated, may_grant, rule_at};

use expr_parser::Expr;
use rules_reader::{Kind, RuleNode};

/// Whether an expression is the literal `true`, also in parentheses.
fn is_true(expr: &Expr) -> bool
    ensures { result ≡ is_true (view expr.now) }
{
    match expr {
        Expr::True => true,
        Expr::Group(inner) => is_true(inner),
        Expr::Number(_)
        | Expr::Text(_)
        | Expr::False
        | Expr::Null
        | Expr::Variable(_)
        | Expr::Capture(_)
        | Expr::Member(_, _)
        | Expr::Call(_, _, _)
        | Expr::Not(_)
        | Expr::Negate(_)
        | Expr::Operation(_, _, _)
        | Expr::Choice(_, _, _) => false,
    }
}

/// Whether it is the literal `false`.
fn is_false(expr: &Expr) -> bool
    ensures { result ≡ is_false (view expr.now) }
{
    match expr {
        Expr::False => true,
        Expr::Group(inner) => is_false(inner),
        Expr::Number(_)
        | Expr::Text(_)
        | Expr::True
        | Expr::Null
        | Expr::Variable(_)
        | Expr::Capture(_)
        | Expr::Member(_, _)
        | Expr::Call(_, _, _)
        | Expr::Not(_)
        | Expr::Negate(_)
        | Expr::Operation(_, _, _)
        | Expr::Choice(_, _, _) => false,
    }
}

/// Whether an object states a rule of a kind that is literally `true`.
pub(crate) fn states_true(node: &RuleNode, kind: Kind) -> bool
    ensures { result ≡ is_stated is_true (rule_at node.now.book kind []) }
{
    match node.rule(kind) {
        Some(rule) => is_true(rule.expr()),
        None => false,
    }
}

/// Whether it states one that is literally `false`.
pub(crate) fn states_false(node: &RuleNode, kind: Kind) -> bool
    ensures { result ≡ is_stated is_false (rule_at node.now.book kind []) }
{
    match node.rule(kind) {
        Some(rule) => is_false(rule.expr()),
        None => false,
    }
}

/// Whether it states one that is not literally `false`.
pub(crate) fn may_grant(node: &RuleNode, kind: Kind) -> bool
    ensures { result ≡ may_grant (rule_at node.now.book kind []) }
{
    match node.rule(kind) {
        Some(rule) => !is_false(rule.expr()),
        None => false,
    }
}

/// Whether an expression is a literal `true` or `false`.
pub(crate) fn is_literal(expr: &Expr) -> bool
    ensures { result ≡ (is_true (view expr.now) || is_false (view expr.now)) }
{
    is_true(expr) || is_false(expr)
}
