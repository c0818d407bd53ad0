//! The desk of a journal: entries that have come and are not stored yet.
ghost use Rattle.std.specs.Prelude.{◌≡◌, ◌≤◌, List, [], IfOk};
ghost use Rattle.journal.specs.Format.{Group};
ghost use Rattle.journal.specs.Keeping.{disk_of, chain_of};
ghost use Rattle.locked_server.specs.Known.{SeesMore, own};
ghost use Rattle.hall_journal.specs.Kept.{IsAt, OnlyLooks, IsEntryAt, KeepsHistory};

use crate::counter::{Counter, Stored};
use crate::origin::Origin;
use crate::volume::Volume;
use disk::Disk;
use journal::{Journal, JournalError};
use locked_server::{Hall, Seat};
use std::alloc::Global;
use std::collections::BTreeMap;
use std::marker::Model;
use std::mem;

/// What threads share under a lock.
pub(crate) struct Desk<D: Disk + Drop, B: Origin> {
    alloc: Global,
    // It has seen each call whose entry was put.
    seat: Seat,
    // The file, where it is home: None while a thread writes.
    volume: Option<Volume<D, B>>,
    // The entries that go into the file next, in order.
    gathered: Vec<Vec<u8>>,
    // The number of the entry that is gathered next.
    next: u64,
    // Entries that came before others which go before them.
    early: BTreeMap<u64, Vec<u8>>,
    // Why nothing more is stored.
    fault: Option<JournalError>,
    // How many entries went into the file.
    begun: u64,
}

impl<D: Disk + Drop, B: Origin> Model for Desk<D, B> {
    ghost use Rattle.std.specs.Prelude.{◌≡◌, IfSome};
    ghost use Rattle.hall_journal.specs.Kept.{OnlyLooks};
    ghost use Rattle.hall_journal.specs.Gathering.{Gathers, AreAtTheirNumbers};

    ghost Value = { Unit {0} };

    ghost view = { λ desk. tt };

    ghost invariant = { λ desk. OnlyLooks B.began desk.seat × Gathers desk.seat.seen desk.begun desk.gathered.items desk.next × AreAtTheirNumbers desk.seat.seen desk.early × IfSome desk.volume (λ volume. volume.count ≡ desk.begun) };
}

/// What a thread takes from the desk to write it.
pub(crate) struct Batch<D: Disk + Drop, B: Origin> {
    pub(crate) volume: Volume<D, B>,
    pub(crate) entries: Vec<Vec<u8>>,
}

impl<D: Disk + Drop, B: Origin> Model for Batch<D, B> {
    ghost use Rattle.hall_journal.specs.Working.{AreNext, texts};

    ghost Value = { Unit {0} };

    ghost view = { λ batch. tt };

    ghost invariant = { λ batch. AreNext batch.volume.seat.seen batch.volume.count (texts batch.entries.items) };
}

impl<D: Disk + Drop, B: Origin> Desk<D, B> {
    /// A desk on which nothing lies.
    pub(crate) fn new(alloc: Global, volume: Volume<D, B>, seat: Seat) -> Desk<D, B>
        requires here { OnlyLooks B.began seat }
        requires count { volume.count ≡ 0 }
    {
        Desk {
            alloc,
            seat,
            volume: Some(volume),
            gathered: Vec::new(alloc),
            next: 1,
            early: BTreeMap::new(alloc),
            fault: None,
            begun: 0,
        }
    }

    /// Why nothing more is stored, if so.
    pub(crate) fn fault(&self) -> Option<JournalError> {
        self.fault
    }

    /// Puts an entry on it. Where memory is wanting for it, nothing more is stored.
    pub(crate) fn put(&mut self, hall: &Hall, other: Seat, number: u64, entry: Vec<u8>)
        requires hall { hall.now ≡ B.began.hall }
        requires other { (other.hall ≡ hall.now) × (own other ≡ []) }
        requires entry { IsEntryAt other.seen number entry.items }
    {
        self.lay_down(hall, other, number, entry);
        for _ in 0..=self.early.len() {
            if !self.gather_next() {
                return;
            }
        }
    }

    // Lays an entry to those that come before others.
    fn lay_down(&mut self, hall: &Hall, other: Seat, number: u64, entry: Vec<u8>)
        requires hall { hall.now ≡ B.began.hall }
        requires other { (other.hall ≡ hall.now) × (own other ≡ []) }
        requires entry { IsEntryAt other.seen number entry.items }
    {
        hall.meet(&mut self.seat, other);
        match self.early.insert(number, entry) {
            Ok(_) => {}
            Err(_) => self.fault = Some(JournalError::NoMemory),
        }
    }

    // Gathers the entry that comes next, and says whether it was there.
    fn gather_next(&mut self) -> bool {
        let Some(after) = self.next.checked_add(1) else {
            return false;
        };
        let Some(entry) = self.early.remove(&self.next) else {
            return false;
        };
        match self.gathered.push(entry) {
            Ok(()) => {
                self.next = after;
                true
            }
            Err(_) => {
                self.fault = Some(JournalError::NoMemory);
                false
            }
        }
    }

    /// Takes the file and what has gathered for it, if it is home and something has.
    pub(crate) fn take_batch(&mut self, hall: &Hall) -> Option<Batch<D, B>>
        requires hall { hall.now ≡ B.began.hall }
    {
        if self.gathered.is_empty() {
            return None;
        }
        let volume = self.volume.take()?;
        let seat = hall.split(&mut self.seat);
        let volume = volume.learn(hall, seat);
        let entries = mem::replace(&mut self.gathered, Vec::new(self.alloc));
        self.begun = self.next - 1;
        Some(Batch { volume, entries })
    }

    /// Takes the file back, in which all that it was taken for is stored now.
    pub(crate) fn bring_back(&mut self, hall: &Hall, volume: Volume<D, B>)
        requires hall { hall.now ≡ B.began.hall }
    {
        if volume.count != self.begun {
            self.fail(hall, volume.into_seat(), JournalError::Failed);
            return;
        }
        if let Some(other) = mem::replace(&mut self.volume, Some(volume)) {
            self.fail(hall, other.into_seat(), JournalError::Failed);
        }
    }

    /// Stores nothing more, for this reason.
    pub(crate) fn give_up(&mut self, error: JournalError) {
        self.fault = Some(error);
    }

    /// Stores nothing more, for this reason, and takes in the seat of the file that has failed.
    pub(crate) fn fail(&mut self, hall: &Hall, seat: Seat, error: JournalError)
        requires hall { hall.now ≡ B.began.hall }
        requires seat { OnlyLooks B.began seat }
    {
        hall.meet(&mut self.seat, seat);
        self.fault = Some(error);
    }

    /// Stores all that has gathered.
    pub(crate) fn store_rest(&mut self, alloc: Global, hall: &Hall, counter: &Counter<B>)
        requires hall { hall.now ≡ B.began.hall }
    {
        let Some(Batch { volume, entries }) = self.take_batch(hall) else {
            return;
        };
        match volume.append_all(alloc, &entries) {
            Ok(volume) => match volume.count_in(counter) {
                Ok(volume) => self.bring_back(hall, volume),
                Err(seat) => self.fail(hall, seat, JournalError::Failed),
            },
            Err((seat, error)) => self.fail(hall, seat, error),
        }
    }

    /// Gives the file, where it is home and nothing has failed, and how many entries it keeps, which is no less than what
    /// is known to be stored; and has a seat take in those that lie here.
    pub(crate) fn into_journal(
        self,
        hall: &Hall,
        seat: &mut Seat,
        counter: &Counter<B>,
        stored: &Stored<B>,
    ) -> Result<(Journal<D>, u64), JournalError>
        requires hall { hall.now ≡ B.began.hall }
        requires seat { IsAt B.began seat.old }
        ensures same { IsAt B.began seat.new × SeesMore seat.old seat.new }
        ensures kept { IfOk result (λ end. (groups : List Group) → B.begins groups → KeepsHistory D.holds D.may_leave D.moment D.left_since B.began groups (disk_of end.0) (chain_of end.0) seat.new end.1) }
        ensures stored { IfOk result (λ end. stored.now ≤ end.1) }
    {
        let Desk {
            alloc: _,
            seat: looking,
            volume,
            gathered: _,
            next: _,
            early: _,
            fault,
            begun: _,
        } = self;
        hall.meet(seat, looking);
        match volume {
            Some(volume) => volume.into_journal(hall, seat, counter, stored),
            None => Err(fault.unwrap_or(JournalError::Failed)),
        }
    }
}
