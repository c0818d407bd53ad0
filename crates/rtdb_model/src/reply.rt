//! What an event is answered.
ghost use Rattle.std.specs.Prelude.{◌≡◌};
ghost use Rattle.rtdb_model.specs.declared.reply.Refusal.TheVariants.{NoMemory as no_memory};

use crate::news::News;
use json_tree::{NoMemory, Node};
use judge::{NamedRules, Why};
use path_capture::{Path, Pattern};

/// What an event is answered.
#[derive(Debug, Drop)]
pub enum Reply {
    /// It was done.
    Done,
    /// The tree that was asked for, None where nothing exists.
    Value(Option<Node>),
    /// The news of the session's listeners.
    News(News),
    /// It was refused, and nothing has changed.
    Refused(Refusal),
    /// An action was run, or none was left.
    Ran(Ran),
    /// The session was closed, and so many of its actions were dropped.
    Closed(usize),
}

/// What became of the first action of a session that is leaving.
#[derive(Debug, Drop)]
pub enum Ran {
    /// There was none.
    Empty,
    /// It was made.
    Applied,
    /// It was judged again and refused, for this reason, and dropped; nothing else has changed.
    Skipped(Refusal),
}

/// Why an event is refused: the first of its event's refusals that applies.
#[derive(Debug, Drop)]
pub enum Refusal {
    /// The session is open already.
    SessionOpen,
    /// As many sessions are open as may be.
    TooManySessions,
    /// The session is not open.
    NoSession,
    /// Nobody is signed in on the session, or somebody who is no administrator.
    NotAdmin,
    /// The update has no write.
    EmptyUpdate,
    /// A location of the update is at or above that of another of its writes.
    Overlap,
    /// The session listens under this id already.
    DuplicateId,
    /// The session has as many listeners as it may.
    TooManyListeners,
    /// The session doesn't listen under this id.
    NoListener,
    /// The session is leaving.
    Leaving,
    /// The session has as many actions as it may.
    TooManyActions,
    /// The session is not leaving.
    NotLeaving,
    /// No `.read` at the path or above it holds; these are all of them.
    ReadDenied(NamedRules),
    /// No `.write` at the location or above it holds; these are all of them. Of the locations that are
    /// not granted it is the least.
    WriteDenied(Path, NamedRules),
    /// The `.validate` of this pattern does not hold at this place, for this reason. Of the places
    /// where one fails it is the least.
    ValidateDenied(Path, Pattern, Why),
    /// The rules grant the write, and the tree would have more locations than it may.
    TreeFull,
    /// Memory was wanting, or the arena could not be reset.
    NoMemory,
    /// As many events were answered as may be, and this one was not asked. No step answers it: it comes of those who
    /// ask for many threads.
    Spent,
}

impl From<NoMemory> for Refusal {
    ghost from_gives = { λ _ refusal. refusal ≡ no_memory };

    fn from(_refused: NoMemory) -> Refusal {
        Refusal::NoMemory
    }
}
