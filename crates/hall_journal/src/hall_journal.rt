//! The journal of a hall.
ghost use Rattle.std.specs.Prelude.{◌≡◌, ◌≤◌, List, IfErr, IfOk, OnOk};
ghost use Rattle.journal.specs.Format.{Group};
ghost use Rattle.journal.specs.Keeping.{Keeps, disk_of, chain_of, identifier_of};
ghost use Rattle.locked_server.specs.Known.{SeesMore};
ghost use Rattle.hall_journal.specs.Kept.{IsAt, IsEntryAt, KeepsHistory};

use crate::counter::{Counter, NewCounter, Stored};
use crate::desk::{Batch, Desk};
use crate::origin::Origin;
use crate::volume::Volume;
use disk::Disk;
use journal::{Journal, JournalError};
use locked_server::{Hall, Seat};
use std::alloc::Global;
use std::sync::{Condvar, Mutex, Wait};

/// The journal of a hall, which threads share.
pub struct HallJournal<D: Disk + Drop, B: Origin> {
    desk: Mutex<Desk<D, B>>,
    stored_more: Condvar,
    counter: Counter<B>,
}

impl<D: Disk + Drop, B: Origin> HallJournal<D, B> {
    /// The journal of a hall, and what is known to be stored: no entry yet. The file has the groups that lead to the
    /// database with which the hall opened. It is synced once.
    pub fn new(
        alloc: Global,
        hall: &Hall,
        mut journal: Journal<D>,
        seat: &mut Seat,
        counter: NewCounter,
    ) -> Result<(HallJournal<D, B>, Stored<B>), JournalError>
        requires hall { hall.now ≡ B.began.hall }
        requires seat { IsAt B.began seat.old }
        requires file { (groups : List Group) → B.begins groups → Keeps D.holds D.may_leave (disk_of journal) (chain_of journal) groups groups }
        requires identifier { identifier_of journal ≡ B.began.identifier }
        requires moment { D.moment (disk_of journal) ≡ B.began.moment }
        requires counter { counter.seen.book ≡ B.began.book }
        ensures seat { seat.new ≡ seat.old }
        ensures none { IfOk result (λ it. it.1 ≡ 0) }
        ensures nothing_else { IfErr result (λ error. error ≡ JournalError.Failed) }
    {
        match journal.sync() {
            Ok(()) => {}
            Err(error) => return Err(error),
        }
        let (counter, stored) = counter.named::<B>();
        let volume = Volume {
            journal,
            seat: hall.split(seat),
            count: 0,
            stored: stored.again(),
        };
        let desk = Desk::new(alloc, volume, hall.split(seat));
        let it = HallJournal {
            desk: Mutex::new(desk),
            stored_more: Condvar::new(),
            counter,
        };
        Ok((it, stored))
    }

    /// Puts the entry of a call that has changed something, which the seat has seen, at the call's number among these.
    /// Where memory is wanting for it, nothing more is stored: [`HallJournal::wait`] reports that. It waits for nobody
    /// who writes.
    pub fn put<R: Wait>(&self, rt: &R, hall: &Hall, seat: &mut Seat, number: u64, entry: Vec<u8>)
        requires hall { hall.now ≡ B.began.hall }
        requires seat { seat.old.hall ≡ hall.now }
        requires entry { IsEntryAt seat.old.seen number entry.items }
        ensures { seat.new ≡ seat.old }
    {
        let other = hall.split(seat);
        let mut desk = self.desk.lock(rt);
        desk.put(hall, other, number, entry);
        let has_failed = desk.fault().is_some();
        drop(desk);
        // Whoever sleeps until more is stored would sleep for ever.
        if has_failed {
            self.stored_more.notify_all();
        }
    }

    /// Stores nothing more, as where there was no memory for the entry of a call: [`HallJournal::wait`] reports this
    /// error. It waits for nobody who writes.
    pub fn fail<R: Wait>(&self, rt: &R, error: JournalError) {
        self.desk.lock(rt).give_up(error);
        self.stored_more.notify_all();
    }

    /// Why nothing more is stored, if so. It waits for nobody who writes.
    pub fn fault<R: Wait>(&self, rt: &R) -> Option<JournalError> {
        self.desk.lock(rt).fault()
    }

    /// Waits until so many entries are stored. Where the file is home and entries have gathered, it stores them for all
    /// who wait; else it sleeps. An error says that they never will be: the file is to be opened anew.
    pub fn wait<R: Wait>(
        &self,
        rt: &R,
        alloc: Global,
        hall: &Hall,
        stored: &mut Stored<B>,
        number: u64,
    ) -> Result<(), JournalError>
        requires hall { hall.now ≡ B.began.hall }
        ensures stored { OnOk result (number ≤ stored.new) }
        ensures more { stored.old ≤ stored.new }
    {
        for _ in rt.forever() {
            if self.counter.look(stored) >= number {
                return Ok(());
            }
            match self.next_batch(rt, hall, stored, number) {
                Ok(Some(batch)) => self.write(rt, alloc, hall, batch),
                Ok(None) => {}
                Err(error) => return Err(error),
            }
        }
        unreachable!()
    }

    // What this thread is to write; or none, once it has slept until another one has stored more, or has seen that all
    // is stored that it waits for.
    fn next_batch<R: Wait>(
        &self,
        rt: &R,
        hall: &Hall,
        stored: &mut Stored<B>,
        number: u64,
    ) -> Result<Option<Batch<D, B>>, JournalError>
        requires hall { hall.now ≡ B.began.hall }
        ensures more { stored.old ≤ stored.new }
    {
        let mut desk = self.desk.lock(rt);
        if self.counter.look(stored) >= number {
            return Ok(None);
        }
        if let Some(error) = desk.fault() {
            return Err(error);
        }
        let batch = desk.take_batch(hall);
        if batch.is_none() {
            drop(self.stored_more.wait(rt, desk));
        }
        Ok(batch)
    }

    // Stores what was taken from the desk, and wakes all who wait.
    fn write<R: Wait>(&self, rt: &R, alloc: Global, hall: &Hall, batch: Batch<D, B>)
        requires hall { hall.now ≡ B.began.hall }
    {
        let Batch { volume, entries } = batch;
        match volume.append_all(alloc, &entries) {
            Ok(volume) => self.bring_back(rt, hall, volume),
            Err((seat, error)) => self.desk.lock(rt).fail(hall, seat, error),
        }
        self.stored_more.notify_all();
    }

    // Lets all know what is stored, and brings the file back.
    fn bring_back<R: Wait>(&self, rt: &R, hall: &Hall, volume: Volume<D, B>)
        requires hall { hall.now ≡ B.began.hall }
    {
        match volume.count_in(&self.counter) {
            Ok(volume) => self.desk.lock(rt).bring_back(hall, volume),
            Err(seat) => self.desk.lock(rt).fail(hall, seat, JournalError::Failed),
        }
    }

    /// Ends the journal, once nobody waits, and has a seat take in those that it has. It stores what has gathered. The
    /// number says how many entries of calls the file keeps; whatever a thread knew to be stored is among them.
    pub fn close(
        self,
        alloc: Global,
        hall: &Hall,
        seat: &mut Seat,
        stored: &Stored<B>,
    ) -> Result<(Journal<D>, u64), JournalError>
        requires hall { hall.now ≡ B.began.hall }
        requires seat { IsAt B.began seat.old }
        ensures same { IsAt B.began seat.new × SeesMore seat.old seat.new }
        ensures kept { IfOk result (λ end. (groups : List Group) → B.begins groups → KeepsHistory D.holds D.may_leave D.moment D.left_since B.began groups (disk_of end.0) (chain_of end.0) seat.new end.1) }
        ensures stored { IfOk result (λ end. stored.now ≤ end.1) }
    {
        let HallJournal {
            desk,
            stored_more: _,
            counter,
        } = self;
        let mut desk = desk.into_inner();
        desk.store_rest(alloc, hall, &counter);
        desk.into_journal(hall, seat, &counter, stored)
    }
}
