//! The query of what was said, which takes memory.
ghost use Rattle.std.specs.Prelude.{◌≡◌, ◌&&◌, true, not, is_some, option_map, IfOk};
ghost use Rattle.std.specs.Option.{option_map_or};
ghost use Rattle.tree_model.specs.Primitive.{is_whole, is_primitive};
ghost use Rattle.json_tree.specs.Leaf.{primitive_of};
ghost use Rattle.listeners.specs.Query.{IsLawfulQuery};
ghost use Rattle.listeners.specs.Working.Parts.{order_seen, first_of, last_of};
ghost use Rattle.listeners.specs.Working.Said.{order_said, bound_said, query_said};

use crate::order::{ChildPath, Limit, Order};
use crate::query::{Parts, Query};
use crate::said::{Said, SaidBound, SaidOrder};
use json_tree::{Leaf, NoMemory, Number};
use std::alloc::Global;

// The query of what was said.
pub(crate) fn build(alloc: Global, said: Said<'_>) -> Result<Query, NoMemory>
    requires { IsLawfulQuery (query_said said) }
    ensures { IfOk result (λ query. query ≡ query_said said.entry) }
{
    let order = order_of(alloc, said.order)?;
    let start_at = leaf_in(alloc, said.start_at)?;
    let end_at = leaf_in(alloc, said.end_at)?;
    let equal_to = leaf_in(alloc, said.equal_to)?;
    let limit = limit_of(said.limit_to_first, said.limit_to_last);
    let parts = Parts {
        order,
        start_at,
        end_at,
        equal_to,
        limit,
    };
    Ok(Query {
        parts: Box::new(alloc, parts)?,
    })
}

fn order_of(alloc: Global, said: Option<SaidOrder<'_>>) -> Result<Option<Order>, NoMemory>
    ensures { IfOk result (λ order. option_map order_seen order ≡ option_map order_said said.entry) }
{
    Ok(match said {
        None => None,
        Some(SaidOrder::Key) => Some(Order::Key),
        Some(SaidOrder::Value) => Some(Order::Value),
        Some(SaidOrder::Child(text)) => Some(Order::Child(ChildPath::parse(alloc, text)?)),
    })
}

fn leaf_in(alloc: Global, said: Option<SaidBound<'_>>) -> Result<Option<Leaf>, NoMemory>
    requires { option_map_or is_primitive (option_map bound_said said) true ≡ true }
    ensures { IfOk result (λ leaf. option_map primitive_of leaf ≡ option_map bound_said said.entry) }
{
    match said {
        None => Ok(None),
        Some(bound) => Ok(Some(leaf_of(alloc, bound)?)),
    }
}

fn leaf_of(alloc: Global, bound: SaidBound<'_>) -> Result<Leaf, NoMemory>
    requires { is_primitive (bound_said bound) ≡ true }
    ensures { IfOk result (λ leaf. primitive_of leaf ≡ bound_said bound.entry) }
{
    match bound {
        SaidBound::Truth(b) => Ok(Leaf::Truth(b)),
        SaidBound::Whole(z) => Ok(Leaf::Whole(number_of(z))),
        SaidBound::Words(text) => Leaf::words(alloc, text),
    }
}

fn number_of(z: i64) -> Number
    requires { is_whole z ≡ true }
    ensures { result ≡ z }
{
    let Some(number) = Number::new(z) else {
        unreachable!()
    };
    number
}

// The one limit, if there is one.
fn limit_of(first: Option<u16>, last: Option<u16>) -> Option<Limit>
    requires { not (is_some first && is_some last) ≡ true }
    ensures first { first_of result ≡ first }
    ensures last { last_of result ≡ last }
{
    match first {
        Some(n) => Some(Limit::First(n)),
        None => last.map(Limit::Last),
    }
}
