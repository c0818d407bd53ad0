//! The workers of a server, from their start to the end of the last.
ghost use Rattle.std.specs.Prelude.{◌≡◌, ◌+◌, ◌-◌, ◌^◌, ◌<◌, ◌≤◌};
ghost use Rattle.std.specs.Thread.{IsSync};
ghost use Rattle.server.specs.Served.{HaveServed};

use crate::listener::Waker;
use crate::rounds::{WorkPlace, work};
use locked_server::Seat;
use sessions::{Caller, Gate};
use std::thread::{Threads, join_mut};
use std::time;

/// How much a server does before it ends.
#[derive(Clone, Copy, Debug, PartialEq, Eq)]
pub struct Shifts {
    /// How many workers there are, each with a thread of its own.
    pub workers: u64,
    /// How many connections each worker serves, one after another.
    pub rounds: u64,
}

/// Lets so many workers serve side by side, the first as session `before + 1`. Each has a seat of its own, and the
/// given one has taken all others in when they have ended. The threads are this one and others. Where none can be made,
/// workers serve one after another.
pub(crate) fn work_all<R: Waker + Threads + time::Clock + Sync, Q: Caller + Sync, G: Gate + Sync>(
    place: &WorkPlace<'_, R, Q, G>,
    seat: &mut Seat,
    before: u64,
    workers: u64,
)
    requires sync { IsSync R.row × IsSync Q.row × IsSync G.row }
    requires hall { seat.old.hall ≡ place.now.hall.now }
    requires asks { Q.asks place.now.hall.now }
    requires numbers { before + workers < 2 ^ 64 }
    ensures { HaveServed place.now.tokens.now place.now.rounds (before + 1) workers seat.old seat.new }
{
    if workers == 0 {
        return;
    }
    if workers == 1 {
        work(place, before + 1, seat);
        return;
    }
    let half = workers / 2;
    let mut other = place.hall.split(seat);
    join_mut(
        place.rt,
        &mut ||
            requires { IsSync R.row × IsSync Q.row × IsSync G.row × (seat.now.hall ≡ place.now.hall.now) × Q.asks place.now.hall.now × (before + half < 2 ^ 64) }
            ensures { HaveServed place.entry.now.tokens.now place.entry.now.rounds (before + 1) half seat.entry.now seat.exit.now }
        { work_all(place, seat, before, half) },
        &mut ||
            requires { IsSync R.row × IsSync Q.row × IsSync G.row × (other.hall ≡ place.now.hall.now) × Q.asks place.now.hall.now × (before + workers < 2 ^ 64) × (half ≤ workers) }
            ensures { HaveServed place.entry.now.tokens.now place.entry.now.rounds (before + half + 1) (workers - half) other.entry other.exit }
        { work_all(place, &mut other, before + half, workers - half) },
    );
    place.hall.meet(seat, other);
}
