//! The file of a journal, and what was stored in it.
ghost use Rattle.std.specs.Prelude.{◌≡◌, ◌+◌, ◌<◌, ◌≤◌, List, length, IfOk, IfErr};
ghost use Rattle.journal.specs.Format.{Group};
ghost use Rattle.journal.specs.Keeping.{disk_of, chain_of};
ghost use Rattle.locked_server.specs.Known.{SeesMore};
ghost use mathlib.Core.List.{IsPrefix};
ghost use Rattle.hall_journal.specs.Kept.{IsAt, OnlyLooks, KeepsHistory};
ghost use Rattle.hall_journal.specs.Working.{AreNext, texts};

use crate::counter::{Counter, Stored};
use crate::origin::Origin;
use disk::Disk;
use journal::{Journal, JournalError, MAX_GROUP_BYTES};
use locked_server::{Hall, Seat};
use std::alloc::Global;
use std::marker::Model;

/// The journal, how many entries were stored in it, a seat that has seen their calls, and what is known to be stored.
/// Contracts see the seat and the number.
pub(crate) struct Volume<D: Disk + Drop, B: Origin> {
    pub(crate) journal: Journal<D>,
    pub(crate) seat: Seat,
    pub(crate) count: u64,
    pub(crate) stored: Stored<B>,
}

impl<D: Disk + Drop, B: Origin> Model for Volume<D, B> {
    ghost use Rattle.std.specs.Prelude.{List};
    ghost use Rattle.journal.specs.Format.{Group};
    ghost use Rattle.journal.specs.Keeping.{disk_of, chain_of};
    ghost use Rattle.hall_journal.specs.Kept.{OnlyLooks, KeepsHistory};
    ghost use Rattle.hall_journal.specs.Working.{Written, written_code};

    ghost Value = { Written };

    ghost coded = { written_code };

    ghost view = { λ volume. record { seat = volume.seat; count = volume.count } };

    ghost invariant = { λ volume. OnlyLooks B.began volume.seat × ((groups : List Group) → B.begins groups → KeepsHistory D.holds D.may_leave D.moment D.left_since B.began groups (disk_of volume.journal) (chain_of volume.journal) volume.seat volume.count) };
}

// What a group adds to the text of an entry: its length, a space, and a line feed.
const ENTRY_BYTES: usize = 10;

impl<D: Disk + Drop, B: Origin> Volume<D, B> {
    /// Has its seat see what another has seen.
    pub(crate) fn learn(self, hall: &Hall, other: Seat) -> Volume<D, B>
        requires hall { hall.now ≡ B.began.hall }
        requires other { OnlyLooks B.began other }
        ensures count { result.count ≡ self.count }
        ensures seen { IsPrefix other.seen result.seat.seen }
    {
        let Volume {
            journal,
            mut seat,
            count,
            stored,
        } = self;
        hall.meet(&mut seat, other);
        Volume {
            journal,
            seat,
            count,
            stored,
        }
    }

    /// Appends the entries of the next calls and stores them, in as few groups as they fit into. An error gives the seat
    /// back, and the file is to be opened anew.
    pub(crate) fn append_all(
        self,
        alloc: Global,
        entries: &[Vec<u8>],
    ) -> Result<Volume<D, B>, (Seat, JournalError)>
        requires next { AreNext self.seat.seen self.count (texts entries.now) }
        ensures stored { IfOk result (λ volume. (volume.seat ≡ self.seat) × (volume.count ≡ self.count + length entries.now)) }
        ensures seat { IfErr result (λ fault. OnlyLooks B.began fault.0) }
    {
        let mut volume = self;
        let mut at = 0;
        while at < entries.len() {
            let end = at + group_len(&entries[at..]);
            match volume.append(alloc, &entries[at..end]) {
                Ok(next) => volume = next,
                Err(fault) => return Err(fault),
            }
            at = end;
        }
        Ok(volume)
    }

    /// Its seat: the file is no longer written.
    pub(crate) fn into_seat(self) -> Seat
        ensures { OnlyLooks B.began result }
    {
        let Volume {
            journal: _,
            seat,
            count: _,
            stored: _,
        } = self;
        seat
    }

    /// Lets all threads know how many entries are stored. It fails where they know another number, and then gives its
    /// seat.
    pub(crate) fn count_in(self, counter: &Counter<B>) -> Result<Volume<D, B>, Seat>
        ensures counted { IfOk result (λ volume. volume.count ≡ self.count) }
        ensures seat { IfErr result (λ seat. OnlyLooks B.began seat) }
    {
        let Volume {
            journal,
            seat,
            count,
            mut stored,
        } = self;
        let known = counter.look(&mut stored);
        if known <= count && counter.add(&journal, &seat, &mut stored, known, count) {
            Ok(Volume {
                journal,
                seat,
                count,
                stored,
            })
        } else {
            Err(seat)
        }
    }

    /// Gives the file, and how many entries it keeps, which is no less than what is known to be stored; and has a seat take
    /// in its own.
    pub(crate) fn into_journal(
        self,
        hall: &Hall,
        seat: &mut Seat,
        counter: &Counter<B>,
        known: &Stored<B>,
    ) -> Result<(Journal<D>, u64), JournalError>
        requires hall { hall.now ≡ B.began.hall }
        requires seat { IsAt B.began seat.old }
        ensures same { IsAt B.began seat.new × SeesMore seat.old seat.new }
        ensures kept { IfOk result (λ end. (groups : List Group) → B.begins groups → KeepsHistory D.holds D.may_leave D.moment D.left_since B.began groups (disk_of end.0) (chain_of end.0) seat.new end.1) }
        ensures stored { IfOk result (λ end. known.now ≤ end.1) }
    {
        let Volume {
            journal,
            seat: looking,
            count,
            mut stored,
        } = self;
        hall.meet(seat, looking);
        if counter.look_behind(&mut stored, known) > count {
            return Err(JournalError::Failed);
        }
        Ok((journal, count))
    }

    // Appends the entries of the next calls as one group and stores it.
    fn append(
        self,
        alloc: Global,
        entries: &[Vec<u8>],
    ) -> Result<Volume<D, B>, (Seat, JournalError)>
        requires next { AreNext self.seat.seen self.count (texts entries.now) }
        ensures stored { IfOk result (λ volume. (volume.seat ≡ self.seat) × (volume.count ≡ self.count + length entries.now)) }
        ensures seat { IfErr result (λ fault. OnlyLooks B.began fault.0) }
    {
        let Volume {
            mut journal,
            seat,
            count,
            stored,
        } = self;
        let Some(after) = count.checked_add(entries.len() as u64) else {
            return Err((seat, JournalError::Full));
        };
        match journal.append(alloc, entries) {
            Ok(()) => Ok(Volume {
                journal,
                seat,
                count: after,
                stored,
            }),
            Err(error) => Err((seat, error)),
        }
    }
}

// How many of these entries make a group: as many as fit, and one at least.
fn group_len(entries: &[Vec<u8>]) -> usize
    requires { 0 < length entries.now }
    ensures { (0 < result) × (result ≤ length entries.now) }
{
    let mut bytes = 0usize;
    for (index, entry) in entries.iter().enumerate() {
        bytes = bytes
            .saturating_add(entry.len())
            .saturating_add(ENTRY_BYTES);
        if bytes > MAX_GROUP_BYTES && index > 0 {
            return index;
        }
    }
    entries.len()
}
