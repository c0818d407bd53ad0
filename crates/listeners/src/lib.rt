//! Queries, the parts of a tree that they select, and the listeners of a session.
//!
//! The definitions are `specs/Query`, `specs/Selection` and `specs/Table`. What the layers above need is
//! [`select`]: it gives the part of a tree that a query selects, but for want of memory; and [`Table`],
//! which keeps listeners in the order in which they began.
#![tactic(auto)]

mod bounds;
mod build;
mod digits;
mod edge;
mod fault;
mod item;
mod laws;
mod limits;
mod list_key;
mod listener_id;
mod members;
mod membership;
mod number;
mod order;
mod place;
mod query;
mod reach;
mod said;
mod sameness;
mod search;
mod selection;
mod table;
mod worked;

pub use fault::QueryFault;
pub use laws::{
    a_limit_bounds_the_selection, no_query_selects_the_whole, the_order_of_children,
    the_order_of_keys, the_order_of_values, what_a_query_selects,
};
pub use limits::{
    MAX_ID_BYTES, MAX_LIMIT, MAX_LISTENERS, the_greatest_limit, the_limits_of_listeners,
};
pub use listener_id::ListenerId;
pub use membership::{selects, selects_beside};
pub use query::Query;
pub use selection::{select, select_apart};
pub use table::{AddFault, Listener, NoListener, Table};
pub use worked::{
    what_queries_by_keys_select, what_queries_by_values_select, which_keys_come_first,
    which_values_come_first,
};
