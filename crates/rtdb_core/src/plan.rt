//! What an event that may be done comes to, between its judging and its making.
ghost use Rattle.std.specs.Prelude.{◌≡◌, [], None, Some};
ghost use Rattle.rtdb_model.specs.declared.borrowed.BorrowedReply.TheVariants as replies;
ghost use Rattle.rtdb_model.specs.declared.borrowed.BorrowedRan.TheVariants as rans;
ghost use Rattle.rtdb_core.specs.Working.Plans.{IsPlanned};

use crate::fates::{Decision, Decisions};
use crate::machine::Machine;
use bumpalo::Bump;
use rtdb_model::{BorrowedRan, BorrowedRefusal, BorrowedReply, Event, Writes};
use std::marker::Model;
use std::snapshot::Snapshot;

/// What an event that is granted is answered, borrowed from the database, the event and the arena, and the plan by
/// which [`Core::commit`](crate::Core::commit) does it, which borrows from the arena alone: so once the reply is
/// copied or written the event can be done.
#[derive(Drop)]
pub struct Granted<'r, 'a> {
    pub reply: BorrowedReply<'r>,
    pub plan: Plan<'a>,
}

/// What becomes of all listeners where an event is done, and the writes of the action that it runs, with the moment
/// filled in. Contracts see the event, its session, and the moment and the state that it was judged in, all of which
/// only proofs know.
#[derive(Drop)]
pub struct Plan<'a> {
    before: Snapshot<Machine>,
    moment: Snapshot<u64>,
    session: u64,
    event: Snapshot<Event>,
    decisions: Vec<Decision, &'a Bump>,
    run: Option<Box<Writes>>,
}

impl<'a> Model for Plan<'a> {
    ghost use Rattle.rtdb_core.specs.Planned.{Planned, planned_code};
    ghost use Rattle.rtdb_core.specs.Working.Plans.{IsPlanned};

    ghost Value = { Planned };

    ghost coded = { planned_code };

    ghost view = { λ plan. record { before = plan.before.value; moment = plan.moment.value; session = plan.session; event = plan.event.value } };

    ghost invariant = { λ plan. IsPlanned plan.before.value plan.moment.value plan.session plan.event.value plan.decisions.items plan.run };
}

impl<'a> Plan<'a> {
    /// The plan by these decisions, and with the writes of an action that is run. It takes no memory.
    pub(crate) fn of(
        machine: &Machine,
        now: u64,
        session: u64,
        event: &Event,
        decisions: Decisions<'a>,
        run: Option<Box<Writes>>,
    ) -> Plan<'a>
        requires { IsPlanned machine.now now session event.now decisions.made.items run }
        ensures { result ≡ record { before = machine.now; moment = now; session = session; event = event.now } }
    {
        Plan {
            before: Snapshot::of(machine),
            moment: Snapshot::of(&now),
            session,
            event: Snapshot::of(event),
            decisions: decisions.made,
            run,
        }
    }

    /// The session of the event.
    pub(crate) fn session(&self) -> u64
        ensures { result ≡ self.now.session }
    {
        self.session
    }

    /// What was decided, and the writes of an action that is run.
    pub(crate) fn into_parts(self) -> (Vec<Decision, &'a Bump>, Option<Box<Writes>>)
        ensures { IsPlanned self.entry.before self.entry.moment self.entry.session self.entry.event result.0.items result.1 }
    {
        let Plan { decisions, run, .. } = self;
        (decisions, run)
    }
}

/// What an event that is granted comes to: its reply, what is decided of listeners, and where an action is run its
/// writes, in which no moment is left.
#[derive(Drop)]
pub(crate) struct Found<'r, 'a> {
    pub reply: BorrowedReply<'r>,
    pub decisions: Decisions<'a>,
    pub run: Option<Box<Writes>>,
}

impl<'r, 'a> Found<'r, 'a> {
    /// It can be done, and all listeners stay as they are. It takes no memory.
    pub(crate) fn done(arena: &'a Bump) -> Found<'r, 'a>
        ensures done { result.reply ≡ replies.Done }
        ensures none { result.decisions.made.items ≡ [] }
    {
        Found::replied(arena, BorrowedReply::Done)
    }

    /// It is answered so, and all listeners stay as they are. It takes no memory.
    pub(crate) fn replied(arena: &'a Bump, reply: BorrowedReply<'r>) -> Found<'r, 'a>
        ensures reply { result.reply ≡ reply.entry }
        ensures none { result.decisions.made.items ≡ [] }
        ensures run { result.run ≡ None }
    {
        Found {
            reply,
            decisions: Decisions::new(arena),
            run: None,
        }
    }

    /// No action is left to be run. It takes no memory.
    pub(crate) fn empty(arena: &'a Bump) -> Found<'r, 'a>
        ensures reply { result.reply ≡ replies.Ran rans.Empty }
        ensures run { result.run ≡ None }
    {
        Found::replied(arena, BorrowedReply::Ran(BorrowedRan::Empty))
    }

    /// An action is refused, for this reason. It takes no memory.
    pub(crate) fn skipped(arena: &'a Bump, refusal: Box<BorrowedRefusal<'r>>) -> Found<'r, 'a>
        ensures reply { result.reply ≡ replies.Ran (rans.Skipped refusal.entry) }
        ensures run { result.run ≡ None }
    {
        Found::replied(arena, BorrowedReply::Ran(BorrowedRan::Skipped(refusal)))
    }

    /// An action can be run, which writes this, and this becomes of listeners.
    pub(crate) fn applied(decisions: Decisions<'a>, writes: Box<Writes>) -> Found<'r, 'a>
        ensures reply { result.reply ≡ replies.Ran rans.Applied }
        ensures decided { result.decisions ≡ decisions.entry }
        ensures run { result.run ≡ Some writes }
    {
        Found {
            reply: BorrowedReply::Ran(BorrowedRan::Applied),
            decisions,
            run: Some(writes),
        }
    }

    /// It can be done, and this becomes of listeners.
    pub(crate) fn decided(decisions: Decisions<'a>) -> Found<'r, 'a>
        ensures done { result.reply ≡ replies.Done }
        ensures decided { result.decisions ≡ decisions.entry }
    {
        Found {
            reply: BorrowedReply::Done,
            decisions,
            run: None,
        }
    }
}
