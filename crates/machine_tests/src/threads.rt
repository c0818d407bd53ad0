//! Seats on threads of their own.
ghost use Rattle.std.specs.Prelude.{◌≡◌, ◌+◌, ◌<◌, ◌≤◌};
ghost use Rattle.std.specs.Thread.{IsSync};

use crate::seats::{Stop, make_rounds};
use locked_server::{Hall, Seat};
use std::alloc::Global;
use std::sync::Wait;
use std::thread::{Threads, join_mut};

/// Says the lines as so many seats, each on a thread of its own; the seats have the numbers from `first` on. The given one
/// has taken all others in when they have ended.
pub(crate) fn work_as_many<R: Threads + Wait + Sync>(
    rt: &R,
    alloc: Global,
    hall: &Hall,
    seat: &mut Seat,
    first: u64,
    count: u64,
) -> Result<(), Stop>
    requires sync { IsSync R.row }
    requires hall { seat.old.hall ≡ hall.now }
    requires few { first + count < 100 }
    ensures { seat.new.hall ≡ hall.now }
{
    if count < 2 {
        return make_rounds(rt, alloc, hall, seat, first);
    }
    let half = count / 2;
    let mut other = hall.split(seat);
    let (said, said_there) = join_mut(
        rt,
        &mut || -> Result<(), Stop>
            requires { IsSync R.row × (seat.now.hall ≡ hall.now) × (first + half < 100) }
            ensures { seat.exit.now.hall ≡ hall.entry.now }
        { work_as_many(rt, alloc, hall, seat, first, half) },
        &mut || -> Result<(), Stop>
            requires { IsSync R.row × (other.hall ≡ hall.now) × (first + count < 100) × (half ≤ count) }
            ensures { other.exit.hall ≡ hall.entry.now }
        { work_as_many(rt, alloc, hall, &mut other, first + half, count - half) },
    );
    hall.meet(seat, other);
    said.and(said_there)
}
