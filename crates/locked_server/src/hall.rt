//! A hall: a database that many threads call, one after another.
ghost use Rattle.std.specs.Prelude.{◌≡◌, ◌≢◌, ◌≤◌, ◌++◌, [], length, IfOk};
ghost use Rattle.rules_reader.specs.Place.{HasOneCapture};
ghost use Rattle.locked_server.specs.History.{changes_in};
ghost use Rattle.locked_server.specs.Known.{Closes, IsSameSeat, Made, Met, Missed, SeesLegal, SeesMore, own};

use crate::called::Called;
use crate::content::{Content, Slot};
use crate::patience::Patience;
use crate::rule::{GetNumber, HallRule, Look, NewSeat, TakeIn};
use crate::seat::Seat;
use crate::turns::{MAX_ENTRIES, await_turn, last_turn, serve, take_ticket};
use crate::view::View;
use atomic_table::Table;
use bumpalo::Bump;
use json_tree::NoMemory;
use rtdb_core::{Core, Event, MAX_MOMENT, Refusal, Reply};
use std::alloc::Global;
use std::marker::Model;
use std::snapshot::Snapshot;
use std::sync::Wait;

/// A database that many threads call, one after another. Contracts see which hall it is.
#[derive(Drop)]
pub struct Hall {
    table: Table<Slot, View, Snapshot<Core>, HallRule, Global>,
}

impl Model for Hall {
    ghost use Rattle.std.specs.Prelude.{◌≡◌};
    ghost use Rattle.atomic_table.specs.Seated.{TableId, table_id_coded};

    ghost Value = { TableId };

    ghost coded = { table_id_coded };

    ghost view = { λ hall. hall.table.shared.table_id };

    ghost invariant = { λ hall. (hall.table.shared.table_id.words ≡ 2) × (hall.table.shared.table_id.slots ≡ 1) };
}

impl Hall {
    /// A hall whose history is empty, and its first seat. It takes three growths, of which two stay, for the database
    /// and for the words that all seats share. Where one is refused, the database is given up. The rules that it opens
    /// with have at most one capture in each object, as those of each [`Core`] do.
    pub fn new(alloc: Global, core: Core) -> Result<(Hall, Seat), NoMemory>
        ensures seat { IfOk result (λ r. (r.1.hall ≡ r.0) × (r.1.opening ≡ core) × (r.1.seen ≡ [])) }
        ensures one { HasOneCapture core.rules }
    {
        let _rules = core.rules();
        let opening = Snapshot::of(&core);
        let mut slots = Vec::new(alloc);
        let content = Content {
            core,
            last: None,
            changes: 0,
        };
        if slots.push(Some(content)).is_err() {
            return Err(NoMemory);
        }
        match Table::new(alloc, &[0, 0], slots, &opening) {
            Ok((table, pass)) => Ok((Hall { table }, Seat { pass })),
            Err(_) => Err(NoMemory),
        }
    }

    /// A second seat, which has seen what the first has, and has made no call. It takes no memory, does not wait, and
    /// costs two steps on the words that all seats share.
    pub fn split(&self, seat: &mut Seat) -> Seat
        requires hall { seat.old.hall ≡ self.now }
        ensures old { seat.new ≡ seat.old }
        ensures new { (result.hall ≡ self.now) × (result.opening ≡ seat.old.opening) × (result.seen ≡ seat.old.seen) × (own result ≡ []) }
        ensures legal { SeesLegal result }
    {
        let mut pass = self.table.shared.split_seat::<NewSeat>(&mut seat.pass);
        self.table.shared.load::<GetNumber>(&mut pass, 0);
        Seat { pass }
    }

    /// Takes another seat in: the seat has then seen one history that begins with what each of the two had seen, and
    /// the calls of both are its own. It takes no memory, does not wait, and costs two steps on the words that all
    /// seats share.
    pub fn meet(&self, seat: &mut Seat, other: Seat)
        requires hall { (seat.old.hall ≡ self.now) × (other.hall ≡ self.now) }
        ensures same { (seat.new.hall ≡ seat.old.hall) × (seat.new.opening ≡ seat.old.opening) × (seat.new.numbers ≡ seat.old.numbers ++ other.numbers) }
        ensures met { Met seat.old other seat.new }
        ensures legal { SeesLegal seat.new }
    {
        let Seat { pass } = other;
        let words = &self.table.shared;
        words.join_seat::<TakeIn>(&mut seat.pass, pass);
        words.load::<Look>(&mut seat.pass, 0);
    }

    /// How many entries the history has, all of which the seat has then seen. It takes no memory, does not wait, and
    /// costs one load.
    pub fn news(&self, seat: &mut Seat) -> u64
        requires hall { seat.old.hall ≡ self.now }
        ensures same { IsSameSeat seat.old seat.new }
        ensures length { result ≡ length seat.new.seen }
        ensures seen { SeesMore seat.old seat.new }
        ensures legal { SeesLegal seat.new }
    {
        self.table.shared.load::<Look>(&mut seat.pass, 0)
    }

    // Waits until the history is as long as it may be.
    fn await_last_entry<R: Wait>(&self, rt: &R, seat: &mut Seat)
        requires hall { seat.old.hall ≡ self.now }
        ensures same { IsSameSeat seat.old seat.new }
        ensures missed { Missed seat.old seat.new }
        ensures legal { SeesLegal seat.new }
    {
        let mut patience = Patience::new();
        for _ in rt.forever() {
            if self.news(seat) >= MAX_ENTRIES {
                return;
            }
            patience.pause();
        }
        unreachable!()
    }

    /// Waits for its turn, and lets the database answer an event of a session, at a moment in milliseconds since 1970,
    /// as [`Core::step`] does: that is the next entry of the history, a refusal too. Where 2^62 tickets have been
    /// taken, it waits until the history has that many entries, and answers [`Refusal::Spent`], which no step does, and
    /// which is no entry. With the reply comes how many entries up to this one have changed something: the number of the
    /// call among them, if it is one. The arena is for what the step needs. The call takes no memory of its own, and
    /// costs, beside the step, two looks at the words that all seats share and three steps on them, and more where
    /// another seat comes first.
    pub fn call<R: Wait>(
        &self,
        rt: &R,
        seat: &mut Seat,
        arena: &mut Bump,
        now: u64,
        session: u64,
        event: Event,
    ) -> Called
        requires moment { now ≤ MAX_MOMENT }
        requires hall { seat.old.hall ≡ self.now }
        ensures same { IsSameSeat seat.old seat.new }
        ensures made { result.reply ≢ Reply.Refused Refusal.Spent → Made seat.old seat.new now session event result.reply }
        ensures missed { result.reply ≡ Reply.Refused Refusal.Spent → Missed seat.old seat.new }
        ensures changes { result.reply ≢ Reply.Refused Refusal.Spent → result.changes ≡ changes_in seat.new.seen }
        ensures no_changes { result.reply ≡ Reply.Refused Refusal.Spent → result.changes ≡ 0 }
        ensures legal { SeesLegal seat.new }
    {
        let words = &self.table.shared;
        match take_ticket(rt, words, &mut seat.pass, MAX_ENTRIES) {
            Some(ticket) => {
                await_turn(rt, words, &mut seat.pass, ticket);
                serve(words, &mut seat.pass, arena, now, session, event)
            }
            None => {
                self.await_last_entry(rt, seat);
                Called {
                    reply: Reply::Refused(Refusal::Spent),
                    changes: 0,
                }
            }
        }
    }

    /// Waits until every call that was begun is answered, and gives the database as the history leaves it. That is no
    /// entry. It takes no memory.
    pub fn close<R: Wait>(self, rt: &R, seat: Seat) -> Core
        requires hall { seat.hall ≡ self }
        ensures { Closes seat result }
    {
        let Hall { table } = self;
        let Seat { mut pass } = seat;
        let core = last_turn(rt, &table.shared, &mut pass);
        let mut closed = table.close();
        drop(closed.take(0));
        closed.free();
        core
    }
}
