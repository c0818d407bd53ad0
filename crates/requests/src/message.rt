//! Messages: what a line of a script or a message of a socket wants.
ghost use Rattle.std.specs.Prelude.{◌≡◌, ◌<◌, ◌≤◌, length, IfOk, IsErrOf};
ghost use Rattle.json_lines.specs.Lines.{Tells};
ghost use Rattle.requests.specs.Message.{IsWithin, request_of, asks};
ghost use Rattle.json_lines.specs.Outline.{message_data};

use crate::reader::MessageReader;
use crate::verb_members::{has_only_members, stamp_of, verb_in};
use crate::wanted::wanted_by;
use json_lines::{MAX_MESSAGE_BYTES, Message, MessageFault};
use json_tree::NoMemory;
use rtdb_model::{Event, MAX_MOMENT};
use std::alloc::Global;
use std::marker::Model;

/// Who asks, and at which moment, in milliseconds since 1970.
#[derive(Clone, Copy, Debug, PartialEq, Eq)]
pub struct Stamp {
    pub now: u64,
    pub session: u64,
}

/// How a message says who asks, and when.
#[derive(Clone, Copy, Debug, PartialEq, Eq)]
pub enum Form {
    /// A line of a script says both itself.
    Script,
    /// The server knows both of a message of a socket.
    Socket(Stamp),
}

/// What a message asks for, by its member `do`.
#[derive(Clone, Copy, Debug, PartialEq, Eq)]
pub enum Verb {
    Open,
    Close,
    SignIn,
    SignOut,
    Get,
    Set,
    Remove,
    Update,
    Listen,
    Unlisten,
    Poll,
    Tick,
    Deploy,
    OnSet,
    OnRemove,
    OnUpdate,
    OnCancel,
    Leave,
    RunNext,
}

/// A text that a message has. Contracts see its bytes.
#[derive(Drop)]
pub struct Text {
    held: String,
}

impl Model for Text {
    ghost use Rattle.std.specs.Prelude.{ℕ, List, string_bytes};
    ghost use Rattle.std.specs.Coded.{coded_list, coded_ℕ};

    ghost Value = { List ℕ };

    ghost coded = { coded_list coded_ℕ };

    ghost view = { λ text. string_bytes text.held };
}

impl Text {
    pub(crate) fn copy_of(alloc: Global, text: &str) -> Result<Text, NoMemory>
        ensures { IfOk result (λ copy. copy ≡ text.now) }
    {
        let held = String::from_str(alloc, text)?;
        Ok(Text { held })
    }

    /// The text, borrowed.
    pub fn as_str(&self) -> &str
        ensures { result.now ≡ self.now }
    {
        self.held.as_str()
    }
}

/// What a message wants: an event, or what only tokens and a rules file make one.
#[derive(Drop)]
pub enum Wanted {
    /// This event.
    Step(Event),
    /// To sign in by this secret.
    SignIn(Text),
    /// To deploy the rules file with this text.
    Deploy(Text),
}

/// What a message wants, and for whom.
#[derive(Drop)]
pub struct Request {
    pub stamp: Stamp,
    pub wanted: Wanted,
}

/// What a message asks, or its first fault. Whoever reads several keeps a [`MessageReader`], and has the
/// same answers.
pub fn read_request(alloc: Global, bytes: &[u8], form: Form) -> Result<Request, MessageFault>
    ensures asked { Tells (λ request. request) result (asks form bytes.now) }
    ensures moment { IfOk result (λ request. IsWithin form → request.stamp.now ≤ MAX_MOMENT) }
    ensures too_large { MAX_MESSAGE_BYTES < length bytes.now → IsErrOf result MessageFault.TooLarge }
{
    MessageReader::new(alloc).read_request(bytes, form)
}

/// What the members of a message ask.
pub(crate) fn request_of(
    alloc: Global,
    form: Form,
    message: &mut Message<'_>,
) -> Result<Request, MessageFault>
    ensures asked { Tells (λ request. request) result (request_of form (message_data message.old)) }
    ensures moment { IfOk result (λ request. IsWithin form → request.stamp.now ≤ MAX_MOMENT) }
{
    let source = message.source();
    let Some(verb) = verb_in(form, source) else {
        return Err(MessageFault::BadRequest);
    };
    if !has_only_members(form, verb, source) {
        return Err(MessageFault::BadRequest);
    }
    let Some(stamp) = stamp_of(form, source) else {
        return Err(MessageFault::BadRequest);
    };
    let wanted = wanted_by(alloc, verb, message)?;
    Ok(Request { stamp, wanted })
}
