//! A server: workers that serve the sessions of one database over the sockets of one listener, side by side.
//!
//! [`serve_on`] starts the workers, each with a seat at the hall, and ends once each has served its rounds. What its
//! contract says is `HasPrinted` of `specs/Served`: it has printed where it listens, and how long the legal history of the
//! hall is that its seat has seen at the end. The calls of its seats are those of the workers' sessions, each as the
//! contract of [`serve_session`](sessions::serve_session) says, and no others.
#![tactic(auto)]

mod fault;
mod gate;
mod listener;
mod moments;
mod printer;
mod rounds;
mod serve;
mod shifts;

pub use fault::ServerFault;
pub use gate::OpenGate;
pub use listener::Listener;
pub use printer::{Printer, Unprinted};
pub use rounds::TURNS;
pub use serve::serve_on;
pub use shifts::Shifts;
