//! The state machine of the database: one event in, one reply out.
//!
//! Contracts see a [`Core`] as its state: a tree, the rules in force, and the sessions that are
//! open. There is one way through it: [`Core::judge`] answers an event, by what it borrows, and makes a plan, and
//! [`Core::commit`] does the event by the plan. What the layer above needs is that the two are a step; [`Core::step`]
//! is them in one call.
//!
//! A database that begins again is made of a tree and rules, and then takes back what a snapshot has of its sessions:
//! [`Core::resume`] and [`Core::establish`] judge nothing, since all of it was judged before. [`Core::open_sessions`] is
//! what a snapshot is written of.
#![tactic(auto)]

mod action;
mod children;
mod database;
mod fates;
mod machine;
mod moved;
mod passage;
mod plan;
mod refusals;
mod rejudging;
mod resuming;
mod scratch;
mod selected;
mod selections;
mod session;
mod telling;
mod trees;

pub use action::Action;
pub use database::{Core, TooLarge};
pub use plan::{Granted, Plan};
pub use resuming::ResumeFault;
pub use rtdb_model::{
    BorrowedName, BorrowedNames, BorrowedRan, BorrowedRefusal, BorrowedReply, Event, MAX_ACTIONS,
    MAX_LOCATIONS, MAX_MOMENT, MAX_SESSIONS, Named, NamedRules, News, Notice, Ran, Refusal,
    Removal, Reply, Sight, Tiding, Tidings, What, Why, Writes, the_limits,
};
pub use session::Session;
