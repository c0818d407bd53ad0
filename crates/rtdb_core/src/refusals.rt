//! Why an event is refused: what its judging comes to.
ghost use Rattle.std.specs.Prelude.{◌≡◌, min, option_map};
ghost use Rattle.tree_model.specs.Tree.{Tree, count};
ghost use Rattle.rtdb_model.specs.Borrowed.{refusal_of};
ghost use Rattle.rtdb_model.specs.Step.{denial, full};
ghost use Rattle.rtdb_core.specs.Working.Fates.{listen_refusal};

use crate::session::Session;
use bumpalo::Bump;
use json_tree::NoMemory;
use judge::Verdict;
use listeners::{ListenerId, MAX_LISTENERS};
use rtdb_model::{BorrowedRefusal, MAX_LOCATIONS, Refusal};

/// The denial of a verdict, if it is one.
pub(crate) fn denial(verdict: Verdict) -> Option<Refusal>
    ensures { result ≡ denial verdict }
{
    match verdict {
        Verdict::Granted => None,
        Verdict::ReadDenied(rules) => Some(Refusal::ReadDenied(rules)),
        Verdict::WriteDenied(at, rules) => Some(Refusal::WriteDenied(at, rules)),
        Verdict::ValidateDenied(at, pattern, why) => {
            Some(Refusal::ValidateDenied(at, pattern, why))
        }
    }
}

/// A refusal that borrows nothing, if there is one.
pub(crate) fn other<'r>(refusal: Option<Refusal>) -> Option<BorrowedRefusal<'r>>
    ensures { option_map refusal_of result ≡ refusal }
{
    match refusal {
        Some(refusal) => Some(BorrowedRefusal::Other(refusal)),
        None => None,
    }
}

/// The refusal of a tree of so many locations, if they are too many.
pub(crate) fn full(locations: usize) -> Option<Refusal>
    ensures { (t : Tree) → locations ≡ min (count t) usize.MAX → result ≡ full t }
{
    if locations > MAX_LOCATIONS {
        return Some(Refusal::TreeFull);
    }
    None
}

/// Why an open session can't listen under this id, whatever the rules say.
pub(crate) fn listen_refusal(session: &Session, id: &ListenerId) -> Option<Refusal>
    ensures { result ≡ listen_refusal session.now.listeners id.now }
{
    if session.listeners().has(id) {
        return Some(Refusal::DuplicateId);
    }
    if session.listeners().len() >= MAX_LISTENERS {
        return Some(Refusal::TooManyListeners);
    }
    None
}

/// Makes the arena free for one event. It can't be reset where its owner forgot a collection in it.
pub(crate) fn reset(arena: &mut Bump) -> Result<(), NoMemory> {
    let Ok(()) = arena.reset() else {
        return Err(NoMemory);
    };
    Ok(())
}
