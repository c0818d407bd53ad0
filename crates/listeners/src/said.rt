//! What a JSON value says of a query. All of it is tested before any memory is taken.
ghost use Rattle.std.specs.Prelude.{◌≡◌, option_map, IfSome};
ghost use Rattle.serde_json.specs.View.{view};
ghost use Rattle.listeners.specs.Query.{IsLawfulQuery, AreLawfulParts, members_said, suits, no_bound_or_words, goes_together, query_of};
ghost use Rattle.listeners.specs.Working.Said.{query_said, bound_said};

use crate::members::{bound_in, has_query_names, limit_in, order_in};
use serde_json::Value;

// By what children are to be ordered. The text of a path is not yet a path.
#[derive(Clone, Copy)]
pub(crate) enum SaidOrder<'a> {
    Key,
    Value,
    Child(&'a str),
}

// Where the children begin or end. A number is one within the limits.
#[derive(Clone, Copy)]
pub(crate) enum SaidBound<'a> {
    Truth(bool),
    Whole(i64),
    Words(&'a str),
}

// What the members of a query say, each by itself, borrowed from its JSON.
#[derive(Clone, Copy)]
pub(crate) struct Said<'a> {
    pub(crate) order: Option<SaidOrder<'a>>,
    pub(crate) start_at: Option<SaidBound<'a>>,
    pub(crate) end_at: Option<SaidBound<'a>>,
    pub(crate) equal_to: Option<SaidBound<'a>>,
    pub(crate) limit_to_first: Option<u16>,
    pub(crate) limit_to_last: Option<u16>,
}

impl<'a> Said<'a> {
    // What a value says, if it is a query.
    #[tactic(auto, unfolding(crate::specs::Query::query_of))]
    pub(crate) fn of_value(value: &'a Value) -> Option<Said<'a>>
        ensures said { option_map query_said result ≡ query_of (view value.now) }
        ensures lawful { IfSome result (λ said. IsLawfulQuery (query_said said)) }
    {
        if !has_query_names(value) {
            return None;
        }
        let said = Said::of_members(value)?;
        if said.goes_together() {
            Some(said)
        } else {
            None
        }
    }

    // What the members say, each by itself.
    fn of_members(value: &'a Value) -> Option<Said<'a>>
        ensures said { option_map query_said result ≡ members_said (view value.now) }
        ensures lawful { IfSome result (λ said. AreLawfulParts (query_said said)) }
    {
        let order = order_in(value)?;
        let start_at = bound_in(value, "startAt")?;
        let end_at = bound_in(value, "endAt")?;
        let equal_to = bound_in(value, "equalTo")?;
        let limit_to_first = limit_in(value, "limitToFirst")?;
        let limit_to_last = limit_in(value, "limitToLast")?;
        Some(Said {
            order,
            start_at,
            end_at,
            equal_to,
            limit_to_first,
            limit_to_last,
        })
    }

    // Whether the members may stand beside one another.
    fn goes_together(&self) -> bool
        ensures { result ≡ goes_together (query_said self.now) }
    {
        self.suits()
            && !(self.equal_to.is_some() && (self.start_at.is_some() || self.end_at.is_some()))
            && !(self.limit_to_first.is_some() && self.limit_to_last.is_some())
    }

    // Whether the bounds are such as the order has.
    fn suits(&self) -> bool
        ensures { result ≡ suits (query_said self.now).order (query_said self.now) }
    {
        match self.order {
            None => self.start_at.is_none() && self.end_at.is_none() && self.equal_to.is_none(),
            Some(SaidOrder::Key) => {
                no_bound_or_words(self.start_at)
                    && no_bound_or_words(self.end_at)
                    && no_bound_or_words(self.equal_to)
            }
            Some(SaidOrder::Value | SaidOrder::Child(_)) => true,
        }
    }
}

// Whether a bound is left out, or a text.
fn no_bound_or_words(bound: Option<SaidBound<'_>>) -> bool
    ensures { result ≡ no_bound_or_words (option_map bound_said bound.entry) }
{
    match bound {
        None | Some(SaidBound::Words(_)) => true,
        Some(SaidBound::Truth(_) | SaidBound::Whole(_)) => false,
    }
}
