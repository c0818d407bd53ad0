//! What a rule sees of a query.
ghost use Rattle.std.specs.Prelude.{◌≡◌};
ghost use Rattle.evaluator.specs.Asked.{asked_of, no_query};

use json_tree::Leaf;

/// What a rule sees of a query, the eight fields of `query`: which order is asked for, the bounds and
/// the limits. What is borrowed is the query's. (Guide "Rules conditions", query-based rules.)
#[derive(Clone, Copy)]
pub struct Asked<'a> {
    pub order_by_key: bool,
    pub order_by_value: bool,
    /// The keys of the path, joined by `/`.
    pub order_by_child: Option<&'a str>,
    pub start_at: Option<&'a Leaf>,
    pub end_at: Option<&'a Leaf>,
    pub equal_to: Option<&'a Leaf>,
    pub limit_to_first: Option<u16>,
    pub limit_to_last: Option<u16>,
}

impl<'a> Asked<'a> {
    /// What a rule sees where there is no query. It takes no memory.
    pub fn none() -> Asked<'a>
        ensures { asked_of result ≡ no_query }
    {
        Asked {
            order_by_key: false,
            order_by_value: false,
            order_by_child: None,
            start_at: None,
            end_at: None,
            equal_to: None,
            limit_to_first: None,
            limit_to_last: None,
        }
    }
}
