//! What is done when a session goes.
ghost use Rattle.std.specs.Prelude.{◌≡◌};
ghost use Rattle.sessions.specs.Departure.{found_none};
ghost use Rattle.sessions.specs.Working.{RunsActions, DepartsBy};

use crate::attending::{SessionPlace, ask};
use crate::caller::Caller;
use crate::peer::Clock;
use bumpalo::Bump;
use locked_server::Seat;
use rtdb_core::{Event, Ran, Reply};

/// How often actions are run when a session goes, at most: once for each that it may have, and as often again where
/// memory was wanting.
pub const MAX_RUNS: u64 = 32;

/// The limit in a number, since all definitions have it by its name.
pub fn the_limit_of_runs()
    ensures { MAX_RUNS ≡ 32 }
{}

/// Lets the session leave, runs its actions, and closes it.
pub(crate) fn depart<Q: Caller, C: Clock>(
    place: &SessionPlace<'_>,
    caller: &mut Q,
    seat: &mut Seat,
    arena: &mut Bump,
    clock: &mut C,
)
    requires hall { seat.old.hall ≡ place.now.hall.now }
    requires asks { Q.asks place.now.hall.now }
    ensures hall { seat.new.hall ≡ place.now.hall.now }
    ensures failed { Q.has_failed caller.old → Q.has_failed caller.new }
    ensures departs { DepartsBy place.now.session seat.old (C.moments clock.old) seat.new (C.moments clock.new) }
{
    let now = clock.now();
    drop(ask(place, caller, seat, arena, now, Event::Leave, None));
    run_actions(place, caller, seat, arena, clock);
    let then = clock.now();
    drop(ask(place, caller, seat, arena, then, Event::Close, None));
}

// Runs the actions of a session that leaves, until none is left or as often as may be.
fn run_actions<Q: Caller, C: Clock>(
    place: &SessionPlace<'_>,
    caller: &mut Q,
    seat: &mut Seat,
    arena: &mut Bump,
    clock: &mut C,
)
    requires hall { seat.old.hall ≡ place.now.hall.now }
    requires asks { Q.asks place.now.hall.now }
    ensures hall { seat.new.hall ≡ place.now.hall.now }
    ensures failed { Q.has_failed caller.old → Q.has_failed caller.new }
    ensures runs { RunsActions place.now.session seat.old (C.moments clock.old) seat.new (C.moments clock.new) }
{
    for _ in 0..MAX_RUNS {
        let now = clock.now();
        let reply = ask(place, caller, seat, arena, now, Event::RunNext, None);
        if found_none(&reply) {
            return;
        }
    }
}

// Whether no action was left to be run.
fn found_none(reply: &Reply) -> bool
    ensures { result ≡ found_none reply.now }
{
    matches!(reply, Reply::Ran(Ran::Empty))
}
