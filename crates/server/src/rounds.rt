//! The rounds of one worker: clients, one after another.
ghost use Rattle.std.specs.Prelude.{◌≡◌};
ghost use Rattle.server.specs.Working.{HasVisit, HasVisits};

use crate::listener::{Listener, Waker};
use crate::moments::SystemMoments;
use bumpalo::Bump;
use locked_server::{Hall, Seat};
use sessions::{Caller, Gate, SocketPeer, serve_session};
use std::alloc::Global;
use std::net::TcpStream;
use std::time::{self, Duration};
use std::{io, thread};
use tokens::Tokens;
use tungstenite::{NoMask, WebSocket, WebSocketConfig, accept};

// How long a client may say nothing in its handshake, in milliseconds.
const HANDSHAKE_MS: u64 = 5_000;

// How long a worker rests where the system gives it no connection, in milliseconds, and how often: for an hour.
const REST_MS: u64 = 100;

const MOST_RESTS: u64 = 36_000;

// How long a worker waits for a message before it looks for news, in milliseconds.
const MESSAGE_MS: u64 = 20;

// How long a client may read nothing of what is sent to it, in milliseconds.
const WRITE_MS: u64 = 5_000;

// How long a message may be that a socket takes in, in bytes: twice as long as a request may be, so that one which is too
// long for a request is answered, and one which would hold much memory ends its connection.
const MOST_RECEIVED: usize = 2 << 20;

// How many bytes a socket asks the system for at a time.
const READ_AT_ONCE: usize = 16 << 10;

/// How many turns a session has: more than there is time for.
pub const TURNS: u64 = 1_000_000_000;

/// What all workers share, and how many rounds each of them has.
#[derive(Clone, Copy)]
pub(crate) struct WorkPlace<'a, R, Q, G> {
    pub(crate) rt: &'a R,
    pub(crate) caller: &'a Q,
    pub(crate) alloc: Global,
    pub(crate) listener: &'a Listener,
    pub(crate) hall: &'a Hall,
    pub(crate) tokens: &'a Tokens,
    pub(crate) gate: &'a G,
    pub(crate) rounds: u64,
}

/// Serves the rounds of one worker, who serves each client as this session. A connection whose handshake fails is a
/// round too, and so is an hour in which the system gives none. Where the caller can't store what it is to keep, the worker
/// ends, and wakes one who waits for a client.
pub(crate) fn work<R: Waker + time::Clock, Q: Caller, G: Gate>(
    place: &WorkPlace<'_, R, Q, G>,
    session: u64,
    seat: &mut Seat,
)
    requires hall { seat.old.hall ≡ place.now.hall.now }
    requires asks { Q.asks place.now.hall.now }
    ensures hall { seat.new.hall ≡ place.now.hall.now }
    ensures visits { HasVisits place.now.tokens.now session place.now.rounds seat.old seat.new }
{
    let mut arena = Bump::new(place.alloc);
    let mut caller = place.caller.again();
    for _ in 0..place.rounds {
        if !caller.still_stores() {
            place.rt.wake(place.listener);
            return;
        }
        serve_round(place, &mut caller, session, seat, &mut arena);
    }
}

// Serves the next client, if one comes.
fn serve_round<R: time::Clock, Q: Caller, G: Gate>(
    place: &WorkPlace<'_, R, Q, G>,
    caller: &mut Q,
    session: u64,
    seat: &mut Seat,
    arena: &mut Bump,
)
    requires hall { seat.old.hall ≡ place.now.hall.now }
    requires asks { Q.asks place.now.hall.now }
    ensures hall { seat.new.hall ≡ place.now.hall.now }
    ensures visit { HasVisits place.now.tokens.now session 1 seat.old seat.new }
{
    if let Some(socket) = next_client(place.rt, place.alloc, place.listener) {
        serve_client(place, caller, session, seat, arena, socket);
    }
}

// Serves the session of one client. However it ends, the next client comes.
fn serve_client<R: time::Clock, Q: Caller, G: Gate>(
    place: &WorkPlace<'_, R, Q, G>,
    caller: &mut Q,
    session: u64,
    seat: &mut Seat,
    arena: &mut Bump,
    socket: WebSocket<TcpStream, NoMask>,
)
    requires hall { seat.old.hall ≡ place.now.hall.now }
    requires asks { Q.asks place.now.hall.now }
    ensures hall { seat.new.hall ≡ place.now.hall.now }
    ensures visit { HasVisit place.now.tokens.now session seat.old seat.new }
{
    let mut clock = SystemMoments::new(place.rt);
    let mut peer = SocketPeer::new(place.alloc, socket);
    let _end = serve_session(
        caller,
        place.alloc,
        place.hall,
        seat,
        arena,
        place.tokens,
        session,
        place.gate,
        &mut clock,
        &mut peer,
        TURNS,
    );
    // What the session did as it went is stored before the next client comes.
    let _stored = caller.store(place.hall);
}

// The next client, once its handshake is done; none where no connection came or its handshake failed.
fn next_client<R: time::Clock>(
    rt: &R,
    alloc: Global,
    listener: &Listener,
) -> Option<WebSocket<TcpStream, NoMask>> {
    let stream = next_connection(rt, listener)?;
    set_limits(&stream).ok()?;
    let mut socket = accept(alloc, stream).ok()?;
    socket.set_config(limits());
    socket
        .get_ref()
        .set_read_timeout(Some(Duration::from_millis(MESSAGE_MS)))
        .ok()?;
    Some(socket)
}

// The next connection. Where the system gives none, as where this program may open no more files, the worker rests and
// tries again, until another one has closed some.
fn next_connection<R: time::Clock>(rt: &R, listener: &Listener) -> Option<TcpStream> {
    for _ in 0..MOST_RESTS {
        if let Some(stream) = listener.accept() {
            return Some(stream);
        }
        thread::sleep(rt, Duration::from_millis(REST_MS));
    }
    None
}

// What a socket takes in.
fn limits() -> WebSocketConfig {
    WebSocketConfig::default()
        .max_message_size(Some(MOST_RECEIVED))
        .max_frame_size(Some(MOST_RECEIVED))
        .read_buffer_size(READ_AT_ONCE)
}

// Sets the limits of the handshake, and that answers and pushes go out at once.
fn set_limits(stream: &TcpStream) -> io::Result<()> {
    stream.set_nodelay(true)?;
    stream.set_read_timeout(Some(Duration::from_millis(HANDSHAKE_MS)))?;
    stream.set_write_timeout(Some(Duration::from_millis(WRITE_MS)))
}
