//! Which calls may change more than listeners: those that are entries of a journal.
ghost use Rattle.std.specs.Prelude.{◌≡◌, false, if◌then◌else◌};
ghost use Rattle.rtdb_laws.specs.Effects.{changes, is_effective as has_effect};
ghost use Rattle.rtdb_model.specs.declared.reply.Reply.{Reply as AnyReply};

use rtdb_core::{Event, Ran, Reply};

/// Whether an event may change more than listeners: any but an unlisten and a tick may. The reply says whether it may
/// have done so ([`is_effective`]), and the event is asked before, since the step takes it.
pub fn may_change(event: &Event) -> bool
    ensures { (reply : AnyReply) → changes event.now reply ≡ if result then has_effect reply else false }
{
    match event {
        Event::Unlisten(_) | Event::Tick => false,
        Event::Open
        | Event::Close
        | Event::SignIn(_)
        | Event::SignOut
        | Event::Get(_, _)
        | Event::Set(_)
        | Event::Remove(_)
        | Event::Update(_)
        | Event::Listen(_, _, _)
        | Event::Poll
        | Event::Deploy(_)
        | Event::OnSet(_)
        | Event::OnRemove(_)
        | Event::OnUpdate(_)
        | Event::OnCancel(_)
        | Event::Leave
        | Event::RunNext => true,
    }
}

/// Whether a reply is to an event that may have changed something: not a value or news, not a refusal, and not that no
/// action was left to run.
pub fn is_effective(reply: &Reply) -> bool
    ensures { result ≡ has_effect reply.now }
{
    match reply {
        Reply::Done | Reply::Closed(_) | Reply::Ran(Ran::Applied | Ran::Skipped(_)) => true,
        Reply::Value(_) | Reply::News(_) | Reply::Refused(_) | Reply::Ran(Ran::Empty) => false,
    }
}
