//! Queries: which children of a location are asked for, and in which order they are counted.
ghost use Rattle.std.specs.Prelude.{◌≡◌, ◌≢◌, ◌↔◌, true, map, Some, None, option_map, slice_get, IfOk, IsErrOf};
ghost use Rattle.std.specs.Bool.{OnTrue, OnFalse};
ghost use Rattle.serde_json.specs.View.{view};
ghost use Rattle.evaluator.specs.Asked.{asked_of};
ghost use Rattle.arena_snapshot.specs.Working.Change.{entries_of};
ghost use Rattle.listeners.specs.Working.Items.{rank_seen, item_seen, marks_seen, lies_inside};
ghost use Rattle.listeners.specs.Working.Parts.{first_of, last_of};
ghost use Rattle.listeners.specs.Working.Ranks.{Rank, rank_of, marks_of, ranked, is_kept_of};
ghost use Rattle.listeners.specs.Working.Reach.{is_of_keys, IsEnough};
ghost use Rattle.listeners.specs.Query.{query_of, asked_by, IsLawfulQuery};

use crate::bounds::{Bounds, key_bound, mark_in};
use crate::build::build;
use crate::edge::Edge;
use crate::fault::QueryFault;
use crate::item::Item;
use crate::order::{Limit, Order};
use crate::reach::Reach;
use crate::said::Said;
use crate::sameness::{is_same_bound, is_same_limit, is_same_order};
use arena_snapshot::View;
use bumpalo::Bump;
use evaluator::Asked;
use json_tree::{Leaf, NoMemory};
use serde_json::Value;
use std::alloc::Global;
use std::marker::Model;

/// What a read or a listener asks for of the children of a location: an order, bounds, and a limit.
/// Contracts see a record. (Guide "Work with Lists of Data", sorting and filtering data.)
#[derive(Debug, Drop)]
pub struct Query {
    // In a growth of their own, so that whatever holds a query is small.
    pub(crate) parts: Box<Parts>,
}

/// What a query says.
#[derive(Debug, Drop)]
pub(crate) struct Parts {
    pub(crate) order: Option<Order>,
    pub(crate) start_at: Option<Leaf>,
    pub(crate) end_at: Option<Leaf>,
    pub(crate) equal_to: Option<Leaf>,
    pub(crate) limit: Option<Limit>,
}

impl Model for Query {
    ghost use Rattle.listeners.specs.Query as specs;
    ghost use Rattle.listeners.specs.Query.{query_code, IsLawfulQuery};
    ghost use Rattle.listeners.specs.Working.Parts.{query_seen};

    ghost Value = { specs.Query };

    ghost coded = { query_code };

    ghost view = { λ q. query_seen q.parts.value.order q.parts.value.start_at q.parts.value.end_at q.parts.value.equal_to q.parts.value.limit };

    ghost invariant = { λ q. IsLawfulQuery (query_seen q.parts.value.order q.parts.value.start_at q.parts.value.end_at q.parts.value.equal_to q.parts.value.limit) };
}

impl Query {
    /// The query that a JSON value is: an object with the members `orderBy`, `startAt`, `endAt`, `equalTo`,
    /// `limitToFirst` and `limitToLast`, each of which may be left out, and no others. It is tested by a look
    /// at each name and one at each of the six members; then one growth for each long text among the bounds, one for
    /// the list of the keys of an order by a path, one at most for each of these keys, those of their joined
    /// text, and one for the query. A value that is no query is answered as such before any memory is taken.
    /// (Guide "Work with Lists of Data", sorting and filtering data; the form is this project's profile.)
    pub fn from_json(alloc: Global, value: &Value) -> Result<Query, QueryFault>
        ensures ok { IfOk result (λ query. query_of (view value.now) ≡ Some query) }
        ensures bad_query { IsErrOf result QueryFault.BadQuery ↔ (query_of (view value.now) ≡ None) }
    {
        let Some(said) = Said::of_value(value) else {
            return Err(QueryFault::BadQuery);
        };
        Ok(build(alloc, said)?)
    }

    /// What a rule sees of the query. It takes no memory. (Guide "Rules conditions", query-based rules.)
    pub fn asked(&self) -> Asked<'_>
        ensures { asked_of result ≡ asked_by self.now }
    {
        let limit = self.parts.limit;
        Asked {
            order_by_key: matches!(self.parts.order, Some(Order::Key)),
            order_by_value: matches!(self.parts.order, Some(Order::Value)),
            order_by_child: match &self.parts.order {
                Some(Order::Child(child)) => Some(child.text.as_str()),
                _ => None,
            },
            start_at: self.parts.start_at.as_ref(),
            end_at: self.parts.end_at.as_ref(),
            equal_to: self.parts.equal_to.as_ref(),
            limit_to_first: match limit {
                Some(Limit::First(n)) => Some(n),
                _ => None,
            },
            limit_to_last: match limit {
                Some(Limit::Last(n)) => Some(n),
                _ => None,
            },
        }
    }

    /// Whether another query asks for the same, by a look at each of its parts. It takes no memory.
    pub fn is_same(&self, other: &Query) -> bool
        ensures same { OnTrue result (self.now ≡ other.now) }
        ensures differs { OnFalse result (self.now ≢ other.now) }
    {
        is_same_order(&self.parts.order, &other.parts.order)
            && is_same_bound(&self.parts.start_at, &other.parts.start_at)
            && is_same_bound(&self.parts.end_at, &other.parts.end_at)
            && is_same_bound(&self.parts.equal_to, &other.parts.equal_to)
            && is_same_limit(self.parts.limit, other.parts.limit)
    }

    /// What holds of every query: its members go together, and each is lawful. It does nothing.
    pub fn law(&self)
        ensures { IsLawfulQuery self.now }
    {
        let _order = &self.parts.order;
    }

    // Its bounds, as children stand beside them.
    pub(crate) fn bounds(&self) -> Bounds<'_>
        ensures { marks_seen result ≡ marks_of self.now }
    {
        Bounds {
            start_at: mark_in(&self.parts.order, &self.parts.start_at),
            end_at: mark_in(&self.parts.order, &self.parts.end_at),
            equal_to: mark_in(&self.parts.order, &self.parts.equal_to),
        }
    }

    // Which children of a view are looked at: all, but by keys those alone that the bounds and the limit may
    // keep.
    pub(crate) fn reach(&self, view: &View<'_>) -> Reach
        ensures { IsEnough self.now (entries_of view.now) result }
    {
        match &self.parts.order {
            None | Some(Order::Key) => self.reach_by_keys(view),
            Some(Order::Value | Order::Child(_)) => Reach::whole(view.width()),
        }
    }

    fn reach_by_keys(&self, view: &View<'_>) -> Reach
        requires { is_of_keys self.now.order ≡ true }
        ensures { IsEnough self.now (entries_of view.now) result }
    {
        let parts = &*self.parts;
        Reach::of_bounds(
            view,
            key_bound(&parts.start_at),
            key_bound(&parts.end_at),
            key_bound(&parts.equal_to),
        )
        .limited(parts.limit)
    }

    // The child at an index, in the order of the query.
    pub(crate) fn item<'a>(&self, view: &View<'a>, index: usize) -> Option<Item<'a>>
        ensures { option_map item_seen result
            ≡ option_map (λ c. ranked self.now.order (index, c)) (slice_get (entries_of view.now) index) }
    {
        Item::of_child(view, index, &self.parts.order)
    }

    // A child of this key, in the order of the query. Its index is not asked for.
    pub(crate) fn item_of<'a>(&self, key: &'a str, child: &View<'a>) -> Item<'a>
        ensures { rank_seen result ≡ rank_of self.now.order (key.now, child.now) }
    {
        Item::of_key(key, child, &self.parts.order)
    }

    // Whether children are ordered by their keys.
    pub(crate) fn is_by_keys(&self) -> bool {
        match &self.parts.order {
            None | Some(Order::Key) => true,
            Some(Order::Value | Order::Child(_)) => false,
        }
    }

    // How many children are asked for, if not all.
    pub(crate) fn limit(&self) -> Option<Limit>
        ensures first { first_of result ≡ self.now.limit_to_first }
        ensures last { last_of result ≡ self.now.limit_to_last }
    {
        self.parts.limit
    }

    // The edge of its limit among these children.
    pub(crate) fn edge<'a>(&self, scratch: &Bump, items: &[Item<'a>]) -> Result<Edge<'a>, NoMemory>
        ensures { IfOk result (λ edge. (r : Rank) → lies_inside edge r
            ≡ is_kept_of self.now.limit_to_first self.now.limit_to_last (map item_seen items.now) r) }
    {
        Edge::of_limit(scratch, items, self.parts.limit)
    }
}
