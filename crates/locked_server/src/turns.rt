//! A seat's ticket, and its turn with the database.
ghost use Rattle.std.specs.Prelude.{◌≡◌, ◌≢◌, ◌+◌, ◌^◌, ◌<◌, ◌≤◌, ◌&&◌, [], if◌then◌else◌, MatchOption};
ghost use Rattle.rtdb_model.specs.Headline.{DeploysFile};
ghost use Rattle.rtdb_laws.specs.Effects.{is_effective as has_effect};
ghost use Rattle.locked_server.specs.declared.view.Stage.TheVariants.{Resting, Waiting};
ghost use Rattle.locked_server.specs.Working.Rule.{Turn, with_ticket};
ghost use Rattle.locked_server.specs.Working.Turns.{Ends, HasDatabase, IsEntered};

use crate::called::Called;
use crate::content::{Content, LastCall, Slot};
use crate::effects::{is_effective, may_change};
use crate::patience::Patience;
use crate::rule::{Draw, Enter, HallRule, Watch};
use crate::view::View;
use atomic_table::{Seat, Shared};
use bumpalo::Bump;
use rtdb_core::{Core, Event, MAX_MOMENT, Refusal, Reply};
use std::snapshot::Snapshot;
use std::sync::Wait;

/// The table of a hall, as its seats share it.
pub(crate) type Words = Shared<Slot, View, Snapshot<Core>, HallRule>;

/// A seat, as the table knows it.
pub(crate) type Pass = Seat<Slot, View>;

/// The most entries of a history, 2^62, so that its length and the tickets are numbers of 64 bits. (This project's
/// profile.)
pub const MAX_ENTRIES: u64 = 1 << 62;

/// Draws the next ticket once all that were drawn are used up, None where it is `limit` or more. Whoever drew one behind
/// others would wait for each of them, also for one whose thread has no processor; so a seat looks until nobody has a
/// turn, which is no step, and then tries, which fails only where another seat was first.
pub(crate) fn take_ticket<R: Wait>(
    rt: &R,
    words: &Words,
    pass: &mut Pass,
    limit: u64,
) -> Option<u64>
    requires hall { (pass.old.table_id ≡ words.now.table_id) × (words.now.table_id.words ≡ 2) × (limit < 2 ^ 63) }
    requires resting { pass.old.me.0.stage ≡ Resting }
    ensures hall { (pass.new.table_id ≡ pass.old.table_id) × (pass.new.me.1 ≡ pass.old.me.1) }
    ensures ticket { MatchOption result (pass.new.me.0 ≡ pass.old.me.0) (λ t. (t < limit) × (pass.new.me.0 ≡ with_ticket pass.old.me.0 t)) }
{
    let mut patience = Patience::new();
    for _ in rt.forever() {
        let ticket = words.peek(1);
        if ticket >= limit {
            return None;
        }
        if words.peek(0) >= ticket {
            let found = words.compare_exchange::<Draw>(pass, 1, ticket, ticket + 1);
            if found == ticket {
                return Some(ticket);
            }
        }
        patience.pause();
    }
    unreachable!()
}

/// Waits until the history is as long as the ticket says, and takes the database out.
pub(crate) fn await_turn<R: Wait>(rt: &R, words: &Words, pass: &mut Pass, ticket: u64)
    requires hall { (pass.old.table_id ≡ words.now.table_id) × (words.now.table_id.words ≡ 2) }
    requires ticket { pass.old.me.0.stage ≡ Waiting ticket }
    ensures hall { pass.new.table_id ≡ pass.old.table_id }
    ensures turn { Turn pass.old.me pass.new.me ticket }
{
    let mut patience = Patience::new();
    for _ in rt.forever() {
        if words.load::<Watch>(pass, 0) == ticket {
            return;
        }
        patience.pause();
    }
    unreachable!()
}

/// Lets the database that is out with the seat answer an event, and brings it home with the call, which is then an
/// entry, and with how many have changed something. It takes no memory but what the step takes.
pub(crate) fn serve(
    words: &Words,
    pass: &mut Pass,
    arena: &mut Bump,
    now: u64,
    session: u64,
    event: Event,
) -> Called
    requires moment { now ≤ MAX_MOMENT }
    requires hall { (pass.old.table_id ≡ words.now.table_id) × (words.now.table_id.words ≡ 2) }
    requires database { HasDatabase pass.old.me }
    ensures hall { pass.new.table_id ≡ pass.old.table_id }
    ensures entered { IsEntered pass.old.me pass.new.me now session event result }
    ensures own { result.reply ≢ Reply.Refused Refusal.Spent }
{
    let Some(content) = words.exchange(pass, 0, None) else {
        unreachable!()
    };
    let Content {
        mut core,
        last: _,
        changes,
    } = content;
    deploys_file(&event);
    let asked = Snapshot::of(&event);
    let may_change = may_change(&event);
    let reply = core.step(arena, now, session, event);
    let changes = count_behind(changes, may_change, &reply);
    let last = LastCall {
        now,
        session,
        event: asked,
        reply: Snapshot::of(&reply),
    };
    let content = Content {
        core,
        last: Some(last),
        changes,
    };
    drop(words.exchange(pass, 0, Some(content)));
    words.fetch_add::<Enter>(pass, 0, 1);
    Called { reply, changes }
}

// How many entries have changed something behind one that is answered so, where so many have before it.
fn count_behind(changes: u64, may_change: bool, reply: &Reply) -> u64
    requires { changes < 2 ^ 63 }
    ensures { result ≡ if may_change && has_effect reply.now then changes + 1 else changes }
{
    if may_change && is_effective(reply) {
        changes + 1
    } else {
        changes
    }
}

// Where an event deploys rules, they have at most one capture in each object, as those of rules files: they know it.
fn deploys_file(event: &Event)
    ensures { DeploysFile event.now }
{
    match event {
        Event::Deploy(rules) => {
            let _root = rules.root();
        }
        Event::Open
        | Event::Close
        | Event::SignIn(_)
        | Event::SignOut
        | Event::Get(_, _)
        | Event::Set(_)
        | Event::Remove(_)
        | Event::Update(_)
        | Event::Listen(_, _, _)
        | Event::Unlisten(_)
        | Event::Poll
        | Event::Tick
        | Event::OnSet(_)
        | Event::OnRemove(_)
        | Event::OnUpdate(_)
        | Event::OnCancel(_)
        | Event::Leave
        | Event::RunNext => {}
    }
}

// The ticket behind those of all calls. It is there, since a hall is closed once.
fn last_ticket<R: Wait>(rt: &R, words: &Words, pass: &mut Pass) -> u64
    requires hall { (pass.old.table_id ≡ words.now.table_id) × (words.now.table_id.words ≡ 2) }
    requires resting { pass.old.me.0.stage ≡ Resting }
    ensures hall { (pass.new.table_id ≡ pass.old.table_id) × (pass.new.me.1 ≡ pass.old.me.1) }
    ensures ticket { pass.new.me.0 ≡ with_ticket pass.old.me.0 result }
{
    for _ in rt.forever() {
        if let Some(ticket) = take_ticket(rt, words, pass, MAX_ENTRIES + 1) {
            return ticket;
        }
    }
    unreachable!()
}

/// Waits for the turn behind all calls, and takes the database out for good.
pub(crate) fn last_turn<R: Wait>(rt: &R, words: &Words, pass: &mut Pass) -> Core
    requires hall { (pass.old.table_id ≡ words.now.table_id) × (words.now.table_id.words ≡ 2) }
    requires resting { (pass.old.me.0.stage ≡ Resting) × (pass.old.me.1 ≡ []) }
    ensures { Ends pass.old.me.0 result }
{
    let ticket = last_ticket(rt, words, pass);
    await_turn(rt, words, pass, ticket);
    match words.exchange(pass, 0, None) {
        Some(content) => content.core,
        None => unreachable!(),
    }
}
