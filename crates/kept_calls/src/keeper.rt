//! Who asks a hall, and waits for its journal.
use bumpalo::Bump;
use disk::Disk;
use hall_journal::{HallJournal, Origin, Stored};
use journal::JournalError;
use locked_server::{Called, Hall, Seat};
use rtdb_core::{Core, Event, MAX_MOMENT};
use std::alloc::Global;
use std::sync::Wait;

/// Asks a hall, and waits for its journal, as [`Hall`] and [`HallJournal`] do. What takes a keeper has no leave to wait but
/// by its methods, and is proved to return where they do.
pub trait Keeper: Drop {
    ghost use Rattle.std.specs.Prelude.{◌≡◌, ◌≢◌, ◌≤◌, OnOk};
    ghost use Rattle.rtdb_model.specs.declared.reply.Reply.TheVariants.{Refused};
    ghost use Rattle.rtdb_model.specs.declared.reply.Refusal.TheVariants.{Spent};
    ghost use Rattle.locked_server.specs.Known.{Closes, IsSameSeat, Made, Missed, SeesLegal};
    ghost use Rattle.locked_server.specs.History.{changes_in};
    ghost use Rattle.hall_journal.specs.Kept.{IsEntryAt};

    /// As [`Hall::call`] does.
    fn call(
        &self,
        hall: &Hall,
        seat: &mut Seat,
        arena: &mut Bump,
        now: u64,
        session: u64,
        event: Event,
    ) -> Called
        requires moment { now ≤ MAX_MOMENT }
        requires hall { seat.old.hall ≡ hall.now }
        ensures same { IsSameSeat seat.old seat.new }
        ensures made { result.reply ≢ Refused Spent → Made seat.old seat.new now session event result.reply }
        ensures missed { result.reply ≡ Refused Spent → Missed seat.old seat.new }
        ensures changes { result.reply ≢ Refused Spent → result.changes ≡ changes_in seat.new.seen }
        ensures legal { SeesLegal seat.new };

    /// As [`Hall::close`] does.
    fn close(&self, hall: Hall, seat: Seat) -> Core
        requires hall { seat.hall ≡ hall }
        ensures { Closes seat result };

    /// As [`HallJournal::put`] does.
    fn put<D: Disk + Drop, B: Origin>(
        &self,
        journal: &HallJournal<D, B>,
        hall: &Hall,
        seat: &mut Seat,
        number: u64,
        entry: Vec<u8>,
    )
        requires hall { hall.now ≡ B.began.hall }
        requires seat { seat.old.hall ≡ hall.now }
        requires entry { IsEntryAt seat.old.seen number entry.items }
        ensures { seat.new ≡ seat.old };

    /// As [`HallJournal::fail`] does.
    fn fail<D: Disk + Drop, B: Origin>(&self, journal: &HallJournal<D, B>, error: JournalError);

    /// As [`HallJournal::fault`] does.
    fn fault<D: Disk + Drop, B: Origin>(&self, journal: &HallJournal<D, B>) -> Option<JournalError>;

    /// As [`HallJournal::wait`] does.
    fn wait<D: Disk + Drop, B: Origin>(
        &self,
        journal: &HallJournal<D, B>,
        alloc: Global,
        hall: &Hall,
        stored: &mut Stored<B>,
        number: u64,
    ) -> Result<(), JournalError>
        requires hall { hall.now ≡ B.began.hall }
        ensures stored { OnOk result (number ≤ stored.new) }
        ensures more { stored.old ≤ stored.new };
}

/// The keeper that asks the hall and the journal themselves.
#[derive(Clone, Copy)]
pub struct HallKeeper<'a, R> {
    rt: &'a R,
}

impl<'a, R> HallKeeper<'a, R> {
    /// A keeper that waits by this handle.
    pub fn new(rt: &'a R) -> HallKeeper<'a, R> {
        HallKeeper { rt }
    }
}

impl<R: Wait> Keeper for HallKeeper<'_, R> {
    fn call(
        &self,
        hall: &Hall,
        seat: &mut Seat,
        arena: &mut Bump,
        now: u64,
        session: u64,
        event: Event,
    ) -> Called {
        hall.call(self.rt, seat, arena, now, session, event)
    }

    fn close(&self, hall: Hall, seat: Seat) -> Core {
        hall.close(self.rt, seat)
    }

    fn put<D: Disk + Drop, B: Origin>(
        &self,
        journal: &HallJournal<D, B>,
        hall: &Hall,
        seat: &mut Seat,
        number: u64,
        entry: Vec<u8>,
    ) {
        journal.put(self.rt, hall, seat, number, entry);
    }

    fn fail<D: Disk + Drop, B: Origin>(&self, journal: &HallJournal<D, B>, error: JournalError) {
        journal.fail(self.rt, error);
    }

    fn fault<D: Disk + Drop, B: Origin>(
        &self,
        journal: &HallJournal<D, B>,
    ) -> Option<JournalError> {
        journal.fault(self.rt)
    }

    fn wait<D: Disk + Drop, B: Origin>(
        &self,
        journal: &HallJournal<D, B>,
        alloc: Global,
        hall: &Hall,
        stored: &mut Stored<B>,
        number: u64,
    ) -> Result<(), JournalError> {
        journal.wait(self.rt, alloc, hall, stored, number)
    }
}
