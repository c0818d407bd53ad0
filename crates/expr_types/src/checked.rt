//! A checked expression.
ghost use Rattle.std.specs.Prelude.{◌≡◌};
ghost use Rattle.expr_parser.specs.View.{view};
ghost use Rattle.expr_types.specs.Checked.{IsChecked};
ghost use Rattle.expr_types.specs.Scope.{scope_of};

use crate::place::Place;
use crate::scope::{Scope, scope_of};
use expr_parser::Expr;
use std::marker::Model;

/// An expression that may stand in rules for a place, below any captures that have the names it uses.
/// Contracts see its tree and the place. It keeps no names of its own: those that it uses stand in it.
#[derive(Debug, Drop)]
pub struct Checked {
    expr: Expr,
    place: Place,
    scope: Scope,
}

impl Model for Checked {
    ghost use Rattle.std.specs.Prelude.{◌≡◌};
    ghost use Rattle.expr_types.specs.Checked as checked;
    ghost use Rattle.expr_types.specs.Checked.{checked_code, IsChecked};
    ghost use Rattle.expr_types.specs.Scope.{scope_of as scope_of_tree};
    ghost use Rattle.expr_parser.specs.View.{view as tree_of};

    ghost Value = { checked.Checked };

    ghost coded = { checked_code };

    ghost view = { λ c. record { tree = tree_of c.expr; place = c.place } };

    ghost invariant = { λ c. IsChecked (record { tree = tree_of c.expr; place = c.place }) × (c.scope ≡ scope_of_tree (tree_of c.expr)) };
}

impl Checked {
    /// The expression. It takes no memory.
    pub fn expr(&self) -> &Expr
        ensures { view result.now ≡ self.now.tree }
    {
        &self.expr
    }

    /// The place that it was checked for.
    pub fn place(&self) -> Place
        ensures { result ≡ self.now.place }
    {
        self.place
    }

    /// What its meaning can depend on, in constant time.
    pub fn scope(&self) -> Scope
        ensures { result ≡ scope_of self.now.tree }
    {
        self.scope
    }

    /// A checked expression may stand in a rule for its place, below the captures that it names. It
    /// does nothing.
    pub fn law(&self)
        ensures { IsChecked self.now }
    {
        let _lawful = &self.expr;
    }

    // The expression as a checked one, which it is known to be.
    pub(crate) fn of_expr(expr: Expr, place: Place) -> Checked
        requires { IsChecked (record { tree = view expr; place = place }) }
        ensures { result ≡ record { tree = view expr; place = place } }
    {
        let scope = scope_of(&expr);
        Checked { expr, place, scope }
    }
}
