//! One message of a client, and its answer.
ghost use Rattle.std.specs.Prelude.{◌≡◌, ◌≤◌, ℕ, List, [], IfOk, IfSome, OnOk};
ghost use Rattle.sessions.specs.Calls.{Answered, AsksFor, Gains, called};
ghost use Rattle.sessions.specs.Turns.{IsAnswered};

use crate::caller::Caller;
use answers::AnswerWriter;
use bumpalo::Bump;
use json_tree::NoMemory;
use locked_server::{Hall, Seat};
use requests::{Asked, Form, MessageReader, Stamp};
use rtdb_core::{Event, MAX_MOMENT, Reply};
use std::alloc::Global;
use tokens::Tokens;

/// Where a session is served: the hall, the secrets by which clients sign in, and the number of the session.
#[derive(Clone, Copy)]
pub(crate) struct SessionPlace<'a> {
    pub(crate) hall: &'a Hall,
    pub(crate) tokens: &'a Tokens,
    pub(crate) session: u64,
}

/// What messages are read with and answers are written with. It keeps its memory from message to message.
#[derive(Drop)]
pub(crate) struct Desk {
    pub(crate) reader: MessageReader,
    pub(crate) out: AnswerWriter,
    // How many messages were read.
    pub(crate) messages: u64,
}

impl Desk {
    /// A desk on which nothing is written. It takes no memory.
    pub(crate) fn new(alloc: Global) -> Desk
        ensures before { result.out.before ≡ [] }
        ensures text { result.out.text ≡ [] }
    {
        Desk {
            reader: MessageReader::new(alloc),
            out: AnswerWriter::new(alloc),
            messages: 0,
        }
    }
}

/// Lets the hall answer an event of the session, which a client has asked for by this message, if it has.
pub(crate) fn ask<Q: Caller>(
    place: &SessionPlace<'_>,
    caller: &mut Q,
    seat: &mut Seat,
    arena: &mut Bump,
    now: u64,
    event: Event,
    message: Option<&[u8]>,
) -> Reply
    requires hall { seat.old.hall ≡ place.now.hall.now }
    requires asks { Q.asks place.now.hall.now }
    requires moment { now ≤ MAX_MOMENT }
    requires message { IfSome message (λ it. AsksFor now place.now.session it.now event) }
    ensures hall { seat.new.hall ≡ place.now.hall.now }
    ensures failed { Q.has_failed caller.old → Q.has_failed caller.new }
    ensures gains { Gains seat.old (called now place.now.session event result) seat.new }
{
    let SessionPlace { hall, session, .. } = *place;
    caller.call(hall, seat, arena, now, session, event, message)
}

/// Answers a message: the text of the answer is then written on the desk. The message is read, and a rules file in it
/// compiled, before the hall is asked; the text is written once the hall has answered. An error is want of memory for
/// the text, and the call may have been made.
pub(crate) fn attend<Q: Caller>(
    place: &SessionPlace<'_>,
    caller: &mut Q,
    seat: &mut Seat,
    arena: &mut Bump,
    desk: &mut Desk,
    now: u64,
    message: &[u8],
) -> Result<(), NoMemory>
    requires hall { seat.old.hall ≡ place.now.hall.now }
    requires asks { Q.asks place.now.hall.now }
    requires moment { now ≤ MAX_MOMENT }
    requires none { desk.old.out.text ≡ [] }
    ensures hall { seat.new.hall ≡ place.now.hall.now }
    ensures before { desk.new.out.before ≡ desk.old.out.before }
    ensures answered { (said : List ℕ) × (made : List Answered) × Gains seat.old made seat.new × IsAnswered place.now.tokens.now now place.now.session message.now said made × OnOk result (desk.new.out.text ≡ said) }
{
    let stamp = Stamp {
        now,
        session: place.session,
    };
    match desk
        .reader
        .read_asked(place.tokens, message, Form::Socket(stamp))
    {
        Ok(asked) => {
            let Asked { stamp: _, event } = asked;
            let reply = ask(place, caller, seat, arena, now, event, Some(message));
            desk.out.put_reply(&reply)
        }
        Err(fault) => desk.out.put_line_fault(&fault),
    }
}

/// Answers one message of a client, at a moment in milliseconds since 1970. The message is what a line of a script is,
/// but for `now` and `s`, which it has not, and `open`, `close`, `tick`, `leave` and `runnext`, which it can't ask. It
/// costs what reading it, one call of the hall, and writing the answer do; the latter two are apart, so that no other
/// client waits for this one's text. Before it is shown to anybody, [`Caller::store`] is to be called. An error is want of
/// memory for the text, and the call may have been made.
pub fn answer<Q: Caller>(
    caller: &mut Q,
    alloc: Global,
    hall: &Hall,
    seat: &mut Seat,
    arena: &mut Bump,
    tokens: &Tokens,
    session: u64,
    now: u64,
    message: &[u8],
) -> Result<Vec<u8>, NoMemory>
    requires hall { seat.old.hall ≡ hall.now }
    requires asks { Q.asks hall.now }
    requires moment { now ≤ MAX_MOMENT }
    ensures hall { seat.new.hall ≡ hall.now }
    ensures answered { (said : List ℕ) × (made : List Answered) × Gains seat.old made seat.new × IsAnswered tokens.now now session message.now said made × IfOk result (λ bytes. bytes.items ≡ said) }
{
    let place = SessionPlace {
        hall,
        tokens,
        session,
    };
    let mut desk = Desk::new(alloc);
    attend(&place, caller, seat, arena, &mut desk, now, message)?;
    Ok(desk.out.end())
}
