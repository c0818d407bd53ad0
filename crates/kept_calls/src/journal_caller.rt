//! The caller of a hall that has a journal.
ghost use Rattle.std.specs.Prelude.{◌≡◌, ◌≢◌, ◌≤◌, true, false, IfOk, IfSome};
ghost use Rattle.rtdb_laws.specs.Effects.{is_effective as has_effect};
ghost use Rattle.hall_journal.specs.Kept.{IsEntryAt};

use crate::composing::entry_of;
use crate::keeper::Keeper;
use bumpalo::Bump;
use disk::Disk;
use hall_journal::{HallJournal, Origin, Stored};
use journal::JournalError;
use json_tree::NoMemory;
use locked_server::{Called, Hall, Seat, is_effective};
use rtdb_core::{Core, Event, Reply};
use sessions::{Caller, Unkept};
use std::alloc::Global;

/// The caller of a hall that has a journal.
#[derive(Drop)]
pub struct JournalCaller<'a, K, D: Disk + Drop, B: Origin> {
    keeper: &'a K,
    alloc: Global,
    journal: &'a HallJournal<D, B>,
    stored: Stored<B>,
    // So many changes stand behind what its calls have shown.
    shown: u64,
    failed: bool,
}

impl<'a, K, D: Disk + Drop, B: Origin> JournalCaller<'a, K, D, B> {
    /// A caller that has shown nothing, of a hall with this journal, of which so much is known to be stored.
    pub fn new(
        keeper: &'a K,
        alloc: Global,
        journal: &'a HallJournal<D, B>,
        stored: Stored<B>,
    ) -> JournalCaller<'a, K, D, B>
        ensures { result.failed ≡ false }
    {
        JournalCaller {
            keeper,
            alloc,
            journal,
            stored,
            shown: 0,
            failed: false,
        }
    }
}

impl<'a, K: Keeper, D: Disk + Drop, B: Origin> JournalCaller<'a, K, D, B> {
    // Puts the entry of a call that the seat has just seen, if the call has changed something.
    fn put(
        &self,
        hall: &Hall,
        seat: &mut Seat,
        called: &Called,
        entry: Result<Option<Vec<u8>>, NoMemory>,
    )
        requires hall { hall.now ≡ B.began.hall }
        requires seat { seat.old.hall ≡ hall.now }
        requires entry { has_effect called.now.reply ≡ true → IfOk entry (λ entry. IfSome entry (λ it. IsEntryAt seat.old.seen called.now.changes it.items)) }
        ensures { seat.new ≡ seat.old }
    {
        if !is_effective(&called.reply) {
            return;
        }
        match entry {
            Ok(Some(entry)) => self
                .keeper
                .put(self.journal, hall, seat, called.changes, entry),
            Ok(None) => {}
            Err(NoMemory) => self.keeper.fail(self.journal, JournalError::NoMemory),
        }
    }
}

impl<K: Keeper, D: Disk + Drop, B: Origin> Caller for JournalCaller<'_, K, D, B> {
    ghost use Rattle.std.specs.Prelude.{◌≡◌, ◌≢◌, ◌≤◌, true};
    ghost use Rattle.rtdb_model.specs.declared.reply.Reply.TheVariants.{Refused};
    ghost use Rattle.rtdb_model.specs.declared.reply.Refusal.TheVariants.{Spent};
    ghost use Rattle.locked_server.specs.History.{changes_in};

    ghost is_stored = { λ caller. caller.shown ≤ caller.stored };

    ghost has_failed = { λ caller. caller.failed ≡ true };

    ghost asks = { λ hall. hall ≡ B.began.hall };

    ghost has_called = { λ before seat reply after. (reply ≢ Refused Spent → changes_in seat.seen ≤ after.shown) × (before.shown ≤ after.shown) };

    fn again(&self) -> Self {
        JournalCaller::new(self.keeper, self.alloc, self.journal, self.stored.again())
    }

    fn call(
        &mut self,
        hall: &Hall,
        seat: &mut Seat,
        arena: &mut Bump,
        now: u64,
        session: u64,
        event: Event,
        message: Option<&[u8]>,
    ) -> Reply {
        let entry = entry_of(self.alloc, now, session, &event, message);
        let called = self.keeper.call(hall, seat, arena, now, session, event);
        self.put(hall, seat, &called, entry);
        self.shown = self.shown.max(called.changes);
        called.reply
    }

    fn store(&mut self, hall: &Hall) -> Result<(), Unkept> {
        let Self {
            keeper,
            alloc,
            journal,
            ..
        } = *self;
        match keeper.wait(journal, alloc, hall, &mut self.stored, self.shown) {
            Ok(()) => Ok(()),
            Err(_) => {
                self.failed = true;
                Err(Unkept)
            }
        }
    }

    fn still_stores(&mut self) -> bool {
        match self.keeper.fault(self.journal) {
            None => true,
            Some(_) => {
                self.failed = true;
                false
            }
        }
    }

    fn close(&self, hall: Hall, seat: Seat) -> Core {
        self.keeper.close(hall, seat)
    }
}
