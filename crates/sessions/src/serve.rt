//! The session of one client.
ghost use Rattle.std.specs.Prelude.{◌≡◌, ◌≢◌, ◌⊎◌, [], ◌∷◌, Some, MatchOption, IfNone};
ghost use Rattle.answers.specs.AnswerText.{text as text_of};
ghost use Rattle.sessions.specs.Traffic.{IsOpen, Moves};
ghost use Rattle.sessions.specs.Turns.{push_of};
ghost use Rattle.sessions.specs.Serving.{Fits, Serves, Visits, world};
ghost use Rattle.sessions.specs.Working.{AnswersOr, HasTurns, PushesOr, RepliesOr, TurnsOr};

use crate::attending::{Desk, SessionPlace, ask, attend};
use crate::caller::{Caller, Unkept};
use crate::departure::depart;
use crate::peer::{Clock, Gate, Peer, Received, Sent};
use answers::AnswerWriter;
use bumpalo::Bump;
use json_tree::NoMemory;
use locked_server::{Hall, Seat};
use rtdb_core::{Event, Reply};
use std::alloc::Global;
use tokens::Tokens;

/// How a session ended.
#[derive(Clone, Copy, Debug, PartialEq, Eq)]
pub enum SessionEnd {
    /// The client closed the connection.
    PeerClosed,
    /// The connection failed.
    PeerFault,
    /// It had as many turns as it may.
    Turns,
    /// A message could not be received, or a text not be written or sent, for want of memory, of a client that was there.
    NoMemory,
    /// Its opening was refused.
    NotOpened,
    /// What it was to show can't be stored any more.
    Unkept,
}

// Of the memory that an answer took this much is kept for the next, 64 KiB.
const KEPT_ANSWER: usize = 65_536;

// Sends the text that is written, and clears it. Where the session ends there, says how.
fn send<Q: Caller, P: Peer>(caller: &Q, peer: &mut P, out: &mut AnswerWriter) -> Option<SessionEnd>
    requires stored { Q.is_stored caller.now }
    requires open { IsOpen (P.traffic peer.old) }
    requires none { out.old.before ≡ [] }
    ensures kept { result ≢ Some SessionEnd.Unkept }
    ensures before { out.new.before ≡ [] }
    ensures text { out.new.text ≡ [] }
    ensures sent { MatchOption result
        (Moves (P.traffic peer.old) [] (out.old.text ∷ []) (P.traffic peer.new) × IsOpen (P.traffic peer.new))
        (λ end. Moves (P.traffic peer.old) [] [] (P.traffic peer.new) × Fits end (P.traffic peer.new) (out.old.text ∷ [])) }
{
    let mut text = out.end();
    let sent = peer.send(&text, caller);
    text.clear();
    text.shrink_to(KEPT_ANSWER);
    out.begin(text);
    match sent {
        Sent::Done => None,
        Sent::Broken => Some(SessionEnd::PeerFault),
        Sent::NoMemory => Some(SessionEnd::NoMemory),
    }
}

// Sends the text that is written, once all that it shows is stored, and clears it. Where the session ends there, says
// how.
fn send_stored<Q: Caller, P: Peer>(
    place: &SessionPlace<'_>,
    caller: &mut Q,
    peer: &mut P,
    out: &mut AnswerWriter,
) -> Option<SessionEnd>
    requires asks { Q.asks place.now.hall.now }
    requires open { IsOpen (P.traffic peer.old) }
    requires none { out.old.before ≡ [] }
    ensures unkept { result ≡ Some SessionEnd.Unkept → Q.has_failed caller.new }
    ensures clear { IfNone result ((out.new.before ≡ []) × (out.new.text ≡ [])) }
    ensures sent { MatchOption result
        (Moves (P.traffic peer.old) [] (out.old.text ∷ []) (P.traffic peer.new) × IsOpen (P.traffic peer.new))
        (λ end. Moves (P.traffic peer.old) [] [] (P.traffic peer.new) × Fits end (P.traffic peer.new) (out.old.text ∷ [])) }
{
    match caller.store(place.hall) {
        Ok(()) => send(caller, peer, out),
        Err(Unkept) => Some(SessionEnd::Unkept),
    }
}

// Answers a message that was received. Where the session ends there, says how.
fn reply_to<Q: Caller, C: Clock, P: Peer>(
    place: &SessionPlace<'_>,
    caller: &mut Q,
    seat: &mut Seat,
    arena: &mut Bump,
    desk: &mut Desk,
    clock: &mut C,
    peer: &mut P,
    message: &[u8],
) -> Option<SessionEnd>
    requires hall { seat.old.hall ≡ place.now.hall.now }
    requires asks { Q.asks place.now.hall.now }
    requires open { IsOpen (P.traffic peer.old) }
    requires clear { (desk.old.out.before ≡ []) × (desk.old.out.text ≡ []) }
    ensures hall { seat.new.hall ≡ place.now.hall.now }
    ensures clear { IfNone result ((desk.new.out.before ≡ []) × (desk.new.out.text ≡ [])) }
    ensures unkept { result ≡ Some SessionEnd.Unkept → Q.has_failed caller.new }
    ensures replies { RepliesOr place.now.tokens.now place.now.session message.now (world seat.old (C.moments clock.old) (P.traffic peer.old)) (world seat.new (C.moments clock.new) (P.traffic peer.new)) result }
{
    let now = clock.now();
    match attend(place, caller, seat, arena, desk, now, message) {
        Ok(()) => send_stored(place, caller, peer, &mut desk.out),
        Err(NoMemory) => Some(SessionEnd::NoMemory),
    }
}

// The first half of a turn: a message, if one has come, and its answer.
fn hear<Q: Caller, G: Gate, C: Clock, P: Peer>(
    place: &SessionPlace<'_>,
    caller: &mut Q,
    seat: &mut Seat,
    arena: &mut Bump,
    desk: &mut Desk,
    gate: &G,
    clock: &mut C,
    peer: &mut P,
) -> Option<SessionEnd>
    requires hall { seat.old.hall ≡ place.now.hall.now }
    requires asks { Q.asks place.now.hall.now }
    requires open { IsOpen (P.traffic peer.old) }
    requires clear { (desk.old.out.before ≡ []) × (desk.old.out.text ≡ []) }
    ensures hall { seat.new.hall ≡ place.now.hall.now }
    ensures clear { IfNone result ((desk.new.out.before ≡ []) × (desk.new.out.text ≡ [])) }
    ensures unkept { result ≡ Some SessionEnd.Unkept → Q.has_failed caller.new }
    ensures answers { AnswersOr place.now.tokens.now place.now.session (world seat.old (C.moments clock.old) (P.traffic peer.old)) (world seat.new (C.moments clock.new) (P.traffic peer.new)) result }
{
    match peer.receive() {
        Received::Message(message) => {
            desk.messages = desk.messages.saturating_add(1);
            gate.message_read(place.session, desk.messages);
            match reply_to(place, caller, seat, arena, desk, clock, peer, &message) {
                Some(end) => Some(end),
                None => {
                    gate.answered(place.session, desk.messages);
                    None
                }
            }
        }
        Received::Nothing => None,
        Received::Closed => Some(SessionEnd::PeerClosed),
        Received::Broken => Some(SessionEnd::PeerFault),
        Received::NoMemory => Some(SessionEnd::NoMemory),
    }
}

// Sends the news of a poll, where there are any. Where the session ends there, says how.
fn send_news<Q: Caller, P: Peer>(
    reply: &Reply,
    caller: &Q,
    out: &mut AnswerWriter,
    peer: &mut P,
) -> Option<SessionEnd>
    requires stored { Q.is_stored caller.now }
    requires open { IsOpen (P.traffic peer.old) }
    requires clear { (out.old.before ≡ []) × (out.old.text ≡ []) }
    ensures kept { result ≢ Some SessionEnd.Unkept }
    ensures clear { IfNone result ((out.new.before ≡ []) × (out.new.text ≡ [])) }
    ensures sent { MatchOption result
        (Moves (P.traffic peer.old) [] (push_of reply.now) (P.traffic peer.new) × IsOpen (P.traffic peer.new))
        (λ end. Moves (P.traffic peer.old) [] [] (P.traffic peer.new) × Fits end (P.traffic peer.new) (push_of reply.now)) }
{
    let Reply::News(news) = reply else {
        return None;
    };
    if news.as_slice().is_empty() {
        return None;
    }
    match out.put_push(news) {
        Ok(()) => send(caller, peer, out),
        Err(NoMemory) => Some(SessionEnd::NoMemory),
    }
}

// The second half of a turn: a poll, and the push of its news.
fn push<Q: Caller, C: Clock, P: Peer>(
    place: &SessionPlace<'_>,
    caller: &mut Q,
    seat: &mut Seat,
    arena: &mut Bump,
    desk: &mut Desk,
    clock: &mut C,
    peer: &mut P,
) -> Option<SessionEnd>
    requires hall { seat.old.hall ≡ place.now.hall.now }
    requires asks { Q.asks place.now.hall.now }
    requires open { IsOpen (P.traffic peer.old) }
    requires clear { (desk.old.out.before ≡ []) × (desk.old.out.text ≡ []) }
    ensures hall { seat.new.hall ≡ place.now.hall.now }
    ensures clear { IfNone result ((desk.new.out.before ≡ []) × (desk.new.out.text ≡ [])) }
    ensures unkept { result ≡ Some SessionEnd.Unkept → Q.has_failed caller.new }
    ensures pushes { PushesOr place.now.session (world seat.old (C.moments clock.old) (P.traffic peer.old)) (world seat.new (C.moments clock.new) (P.traffic peer.new)) result }
{
    let now = clock.now();
    let reply = ask(place, caller, seat, arena, now, Event::Poll, None);
    match caller.store(place.hall) {
        Ok(()) => send_news(&reply, caller, &mut desk.out, peer),
        Err(Unkept) => Some(SessionEnd::Unkept),
    }
}

fn turn<Q: Caller, G: Gate, C: Clock, P: Peer>(
    place: &SessionPlace<'_>,
    caller: &mut Q,
    seat: &mut Seat,
    arena: &mut Bump,
    desk: &mut Desk,
    gate: &G,
    clock: &mut C,
    peer: &mut P,
) -> Option<SessionEnd>
    requires hall { seat.old.hall ≡ place.now.hall.now }
    requires asks { Q.asks place.now.hall.now }
    requires open { IsOpen (P.traffic peer.old) }
    requires clear { (desk.old.out.before ≡ []) × (desk.old.out.text ≡ []) }
    ensures hall { seat.new.hall ≡ place.now.hall.now }
    ensures clear { IfNone result ((desk.new.out.before ≡ []) × (desk.new.out.text ≡ [])) }
    ensures unkept { result ≡ Some SessionEnd.Unkept → Q.has_failed caller.new }
    ensures turns { TurnsOr place.now.tokens.now place.now.session (world seat.old (C.moments clock.old) (P.traffic peer.old)) (world seat.new (C.moments clock.new) (P.traffic peer.new)) result }
{
    match hear(place, caller, seat, arena, desk, gate, clock, peer) {
        Some(end) => Some(end),
        None => push(place, caller, seat, arena, desk, clock, peer),
    }
}

// The turns of a session that is open.
fn take_turns<Q: Caller, G: Gate, C: Clock, P: Peer>(
    place: &SessionPlace<'_>,
    caller: &mut Q,
    seat: &mut Seat,
    arena: &mut Bump,
    desk: &mut Desk,
    gate: &G,
    clock: &mut C,
    peer: &mut P,
    turns: u64,
) -> SessionEnd
    requires hall { seat.old.hall ≡ place.now.hall.now }
    requires asks { Q.asks place.now.hall.now }
    requires open { IsOpen (P.traffic peer.old) }
    requires clear { (desk.old.out.before ≡ []) × (desk.old.out.text ≡ []) }
    ensures hall { seat.new.hall ≡ place.now.hall.now }
    ensures unkept { result ≡ SessionEnd.Unkept → Q.has_failed caller.new }
    ensures turns { HasTurns place.now.tokens.now place.now.session turns (world seat.old (C.moments clock.old) (P.traffic peer.old)) result (world seat.new (C.moments clock.new) (P.traffic peer.new)) }
{
    for _ in 0..turns {
        if let Some(end) = turn(place, caller, seat, arena, desk, gate, clock, peer) {
            return end;
        }
    }
    SessionEnd::Turns
}

/// Serves one client: opens the session, takes at most so many turns, and however they end lets the session leave, runs
/// its actions, 32 times at most, and closes it. In a turn it receives once, answers the message that has come, if one
/// has, polls, and pushes the news, if there are any. A session whose opening is refused gets that refusal. It waits
/// where the caller does, and where the peer does. A turn without a message and without news costs one call of the
/// hall, and takes no memory; the memory of texts is kept from turn to turn.
pub fn serve_session<Q: Caller, G: Gate, C: Clock, P: Peer>(
    caller: &mut Q,
    alloc: Global,
    hall: &Hall,
    seat: &mut Seat,
    arena: &mut Bump,
    tokens: &Tokens,
    session: u64,
    gate: &G,
    clock: &mut C,
    peer: &mut P,
    turns: u64,
) -> SessionEnd
    requires hall { seat.old.hall ≡ hall.now }
    requires asks { Q.asks hall.now }
    requires open { IsOpen (P.traffic peer.old) }
    ensures hall { seat.new.hall ≡ hall.now }
    ensures unkept { result ≡ SessionEnd.Unkept → Q.has_failed caller.new }
    ensures serves { Serves tokens.now session turns (world seat.old (C.moments clock.old) (P.traffic peer.old)) result (world seat.new (C.moments clock.new) (P.traffic peer.new)) }
{
    let place = SessionPlace {
        hall,
        tokens,
        session,
    };
    let mut desk = Desk::new(alloc);
    let end = visit(
        &place, caller, seat, arena, &mut desk, gate, clock, peer, turns,
    );
    peer.finish();
    end
}

// The session, from its opening to its end.
fn visit<Q: Caller, G: Gate, C: Clock, P: Peer>(
    place: &SessionPlace<'_>,
    caller: &mut Q,
    seat: &mut Seat,
    arena: &mut Bump,
    desk: &mut Desk,
    gate: &G,
    clock: &mut C,
    peer: &mut P,
    turns: u64,
) -> SessionEnd
    requires hall { seat.old.hall ≡ place.now.hall.now }
    requires asks { Q.asks place.now.hall.now }
    requires open { IsOpen (P.traffic peer.old) }
    requires clear { (desk.old.out.before ≡ []) × (desk.old.out.text ≡ []) }
    ensures hall { seat.new.hall ≡ place.now.hall.now }
    ensures unkept { result ≡ SessionEnd.Unkept → Q.has_failed caller.new }
    ensures visits { Visits place.now.tokens.now place.now.session turns (world seat.old (C.moments clock.old) (P.traffic peer.old)) result (world seat.new (C.moments clock.new) (P.traffic peer.new)) }
{
    let now = clock.now();
    match ask(place, caller, seat, arena, now, Event::Open, None) {
        Reply::Done => {
            let end = take_turns(place, caller, seat, arena, desk, gate, clock, peer, turns);
            depart(place, caller, seat, arena, clock);
            end
        }
        refused => {
            turn_away(place, caller, &refused, &mut desk.out, peer);
            SessionEnd::NotOpened
        }
    }
}

// Sends what the opening was answered, where it can.
fn turn_away<Q: Caller, P: Peer>(
    place: &SessionPlace<'_>,
    caller: &mut Q,
    reply: &Reply,
    out: &mut AnswerWriter,
    peer: &mut P,
)
    requires asks { Q.asks place.now.hall.now }
    requires open { IsOpen (P.traffic peer.old) }
    requires clear { (out.old.before ≡ []) × (out.old.text ≡ []) }
    ensures { Moves (P.traffic peer.old) [] [] (P.traffic peer.new) ⊎ Moves (P.traffic peer.old) [] (text_of reply.now ∷ []) (P.traffic peer.new) }
{
    if out.put_reply(reply).is_ok() {
        send_stored(place, caller, peer, out);
    }
}
