//! The text of a call's entry, before the call is made.
ghost use Rattle.std.specs.Prelude.{◌≡◌, ◌≤◌, IfNone, IfOk, IfSome};
ghost use Rattle.evaluator.specs.Identity.{Identity as Who};
ghost use Rattle.rtdb_model.specs.declared.event.Event.TheVariants.{SignIn};
ghost use Rattle.entries.specs.Entry.{deed_event};
ghost use Rattle.sessions.specs.Calls.{AsksFor};
ghost use Rattle.kept_calls.specs.Composed.{IsEntryOf};

use entries::{Deed, deed_entry, message_entry};
use json_tree::NoMemory;
use locked_server::may_change;
use rtdb_core::{Event, MAX_MOMENT};
use std::alloc::Global;

/// The text of the entry that a journal has of an event, if its reply says that it has changed something: of what a client
/// has asked for by a message that is the message, but for its secret. Of an event that only reads there is none. It
/// takes as much memory as the message.
pub fn entry_of(
    alloc: Global,
    now: u64,
    session: u64,
    event: &Event,
    message: Option<&[u8]>,
) -> Result<Option<Vec<u8>>, NoMemory>
    requires moment { now ≤ MAX_MOMENT }
    requires message { IfSome message (λ it. AsksFor now session it.now event.now) }
    ensures { IfOk result (λ entry. IfSome entry (λ it. IsEntryOf now session event.now it.items)) }
{
    if only_reads(event) || !may_change(event) {
        return Ok(None);
    }
    match deed_of(event) {
        Some(deed) => Ok(Some(deed_entry(alloc, now, session, deed)?)),
        None => match message {
            Some(message) => Ok(Some(message_entry(alloc, now, session, message)?)),
            None => Ok(None),
        },
    }
}

// Whether an event changes no more than listeners, however it is answered by the database.
fn only_reads(event: &Event) -> bool {
    matches!(
        event,
        Event::Get(_, _) | Event::Listen(_, _, _) | Event::Poll
    )
}

// The event as a deed, where it is one: what signs somebody in is, so that no entry has a secret.
fn deed_of<'a>(event: &'a Event) -> Option<Deed<'a>>
    ensures deed { IfSome result (λ deed. deed_event deed ≡ event.entry.now) }
    ensures none { IfNone result ((who : Who) → event.entry.now ≡ SignIn who → ⊥) }
{
    match event {
        Event::Open => Some(Deed::Open),
        Event::Close => Some(Deed::Close),
        Event::Leave => Some(Deed::Leave),
        Event::RunNext => Some(Deed::RunNext),
        Event::SignIn(who) => Some(Deed::SignIn(who)),
        _ => None,
    }
}
