//! What a session can ask of the database.
ghost use Rattle.std.specs.Prelude.{◌≡◌, ◌≤◌};
ghost use Rattle.evaluator.specs.declared.env.TheConstants.{MAX_MOMENT};
ghost use Rattle.rtdb_model.specs.Filled.{filled, IsFilled};

use crate::removal::Removal;
use crate::writes::Writes;
use evaluator::Identity;
use listeners::{ListenerId, Query};
use path_capture::{Path, Write};
use rules_reader::Rules;

/// An event: what one session asks, in one step.
#[derive(Debug, Drop)]
pub enum Event {
    /// Opens the session.
    Open,
    /// Closes the session.
    Close,
    /// Signs somebody in on the session, in the place of whoever was before.
    SignIn(Identity),
    /// Signs out whoever is signed in on the session.
    SignOut,
    /// Reads the tree at a path, or what a query selects of it.
    Get(Path, Option<Query>),
    /// Makes a write.
    Set(Write),
    /// Removes what is at a location.
    Remove(Removal),
    /// Makes several writes, all of them or none.
    Update(Writes),
    /// Listens, under an id, to a path, or to what a query selects of it.
    Listen(ListenerId, Path, Option<Query>),
    /// Listens no longer under an id.
    Unlisten(ListenerId),
    /// Asks for the news of the session's listeners.
    Poll,
    /// Lets all listeners be judged by the time that it is. The session is not looked at.
    Tick,
    /// Puts rules in force.
    Deploy(Rules),
    /// Establishes a write that is to be made when the session goes.
    OnSet(Write),
    /// Establishes a removal that is to be made when the session goes.
    OnRemove(Removal),
    /// Establishes several writes that are to be made when the session goes, all of them or none.
    OnUpdate(Writes),
    /// Takes back what was established, where it writes at a path and below it alone.
    OnCancel(Path),
    /// Lets the session leave: from then on what it established is run, and nothing else but its closing is done.
    Leave,
    /// Runs the first action of a session that is leaving.
    RunNext,
}

impl Event {
    /// Puts a number in the place of each moment in what the event writes, in milliseconds. It takes no memory; for each
    /// write without a moment it takes one test.
    pub fn fill(&mut self, now: u64)
        requires { now ≤ MAX_MOMENT }
        ensures filled { self.new ≡ filled now self.old }
        ensures none { IsFilled self.new }
    {
        match self {
            Event::Set(write) => write.fill(now),
            Event::Update(writes) => writes.fill(now),
            _ => {}
        }
    }
}
