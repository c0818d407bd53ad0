//! Sorts.
ghost use Rattle.std.specs.Prelude.{◌≡◌};
ghost use Rattle.expr_types.specs.HasSort.{is_value};

/// What kind of thing an expression is. (This project's profile, after the reference's types.)
#[derive(Clone, Copy, Debug, PartialEq, Eq)]
pub enum Sort {
    /// What `val()`, operators and `?:` give: null, a truth value, a number or a text; or what stands
    /// for a location with children, or for `auth` behind a `?:`.
    Value,
    /// A tree, seen from one of its places.
    Snapshot,
    /// Who asks: `auth`.
    Auth,
    /// The claims of who asks: `auth.token`.
    Token,
    /// What a read asks for: `query`.
    Query,
}

impl Sort {
    /// Whether it may stand where a value is wanted, as `auth` and `auth.token` may.
    pub fn is_value(self) -> bool
        ensures { result ≡ is_value self }
    {
        match self {
            Sort::Value | Sort::Auth | Sort::Token => true,
            Sort::Snapshot | Sort::Query => false,
        }
    }
}

// What a call is given, as far as the rows of the table distinguish it.
#[derive(Clone, Copy, Debug, PartialEq, Eq)]
pub(crate) enum Given {
    Nothing,
    OneValue,
    TwoValues,
    // A list, and nothing but values in it.
    OneList,
    Other,
}
