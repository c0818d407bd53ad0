//! Sessions of clients over sockets: what each client is answered, and what is pushed to it.
//!
//! [`serve_session`] serves one client over anything that receives and sends, a [`Peer`]; [`SocketPeer`] is one over a
//! WebSocket. Its contract, `Serves`, says which calls of the hall the session makes, and which texts it sends, in
//! which order. What the layer above needs is that contract, and [`answer`], which answers one message.
#![tactic(auto)]

mod attending;
mod caller;
mod departure;
mod peer;
mod serve;
mod socket_peer;

pub use attending::answer;
pub use caller::{Caller, HallCaller, Unkept};
pub use departure::{MAX_RUNS, the_limit_of_runs};
pub use peer::{Clock, Gate, Peer, Received, Sent};
pub use serve::{SessionEnd, serve_session};
pub use socket_peer::SocketPeer;
