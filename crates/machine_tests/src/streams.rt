//! Sessions over a WebSocket, whose stream lies in memory, and what they leave.
ghost use Rattle.std.specs.Prelude.{◌≡◌, IfOk};
ghost use Rattle.sessions.specs.Traffic.{IsOpen};

use crate::frames::texts_in;
use crate::lines::{OPEN, Trouble, WANT_OF_MEMORY, core_under, two_tokens};
use crate::seats::text_of_tree;
use crate::wire::Wire;
use bumpalo::Bump;
use locked_server::{Hall, Seat};
use rtdb_core::Core;
use sessions::{Clock, Gate, HallCaller, Peer, SessionEnd, SocketPeer, serve_session};
use std::alloc::Global;
use std::sync::Wait;
use std::sync::atomic::{AtomicU64, Ordering};
use tokens::Tokens;
use tungstenite::{NoMask, Role, WebSocket};

// A clock that gives 1, 2 and so on, up to 1,000.
#[derive(Drop)]
struct Counting {
    last: u64,
}

impl Clock for Counting {
    ghost use Rattle.std.specs.Prelude.{None};

    ghost moments = { λ _. None };

    fn now(&mut self) -> u64 {
        self.last = self.last.saturating_add(1).min(1_000);
        self.last
    }
}

// A gate that holds nobody, and keeps the numbers of the last message that was read and of the last that was answered.
#[derive(Drop)]
struct OpenGate {
    read: AtomicU64,
    answered: AtomicU64,
}

impl OpenGate {
    fn new() -> OpenGate {
        OpenGate {
            read: AtomicU64::new(0),
            answered: AtomicU64::new(0),
        }
    }
}

impl Gate for OpenGate {
    fn message_read(&self, _session: u64, n: u64) {
        self.read.store(n, Ordering::SeqCst);
    }

    fn answered(&self, _session: u64, n: u64) {
        self.answered.store(n, Ordering::SeqCst);
    }
}

/// How a session ended, and how many messages were read and answered.
#[derive(Clone, Copy)]
pub(crate) struct Course {
    pub(crate) end: SessionEnd,
    pub(crate) read: u64,
    pub(crate) answered: u64,
}

/// What a session leaves: its course, the texts that were sent, how many sessions are open, and the tree.
#[derive(Drop)]
pub(crate) struct Left {
    pub(crate) course: Course,
    pub(crate) texts: Vec<u8>,
    pub(crate) sessions: usize,
    pub(crate) tree: String,
}

impl Left {
    fn of(alloc: Global, course: Course, output: &[u8], core: &Core) -> Result<Left, Trouble> {
        let texts = texts_in(alloc, output).ok().ok_or(WANT_OF_MEMORY)?;
        let tree = text_of_tree(alloc, core.tree())?;
        let sessions = core.sessions();
        Ok(Left {
            course,
            texts,
            sessions,
            tree,
        })
    }

    /// Whether the session ended so, is not open, and left this tree.
    pub(crate) fn is(&self, end: SessionEnd, tree: &str) -> bool {
        self.course.end == end && self.sessions == 0 && self.tree.as_str() == tree
    }
}

/// A hall whose database grants all.
pub(crate) fn open_hall(alloc: Global) -> Result<(Hall, Seat), Trouble>
    ensures { IfOk result (λ made. made.1.hall ≡ made.0) }
{
    let core = core_under(alloc, OPEN)?;
    match Hall::new(alloc, core) {
        Ok(made) => Ok(made),
        Err(_) => Err(WANT_OF_MEMORY),
    }
}

/// Serves a client that says these bytes, in a hall of its own.
pub(crate) fn serve<R: Wait>(
    rt: &R,
    alloc: Global,
    stream: Wire,
    turns: u64,
) -> Result<Left, Trouble> {
    let tokens = two_tokens(alloc)?;
    let socket = WebSocket::from_raw_socket(alloc, stream, NoMask, Role::Server, None);
    let mut peer = SocketPeer::new(alloc, socket);
    let (course, core) = serve_peer(rt, alloc, &tokens, &mut peer, turns)?;
    let output = peer.into_socket().into_inner().output;
    Left::of(alloc, course, &output, &core)
}

fn serve_peer<R: Wait, P: Peer>(
    rt: &R,
    alloc: Global,
    tokens: &Tokens,
    peer: &mut P,
    turns: u64,
) -> Result<(Course, Core), Trouble>
    requires { IsOpen (P.traffic peer.old) }
{
    let mut arena = Bump::new(alloc);
    let (hall, mut seat) = open_hall(alloc)?;
    let course = serve_as(rt, alloc, &hall, &mut seat, &mut arena, tokens, peer, turns);
    Ok((course, hall.close(rt, seat)))
}

/// Serves a client as the session 1 of a hall.
pub(crate) fn serve_as<R: Wait, P: Peer>(
    rt: &R,
    alloc: Global,
    hall: &Hall,
    seat: &mut Seat,
    arena: &mut Bump,
    tokens: &Tokens,
    peer: &mut P,
    turns: u64,
) -> Course
    requires hall { seat.old.hall ≡ hall.now }
    requires open { IsOpen (P.traffic peer.old) }
    ensures { seat.new.hall ≡ hall.now }
{
    let gate = OpenGate::new();
    let mut clock = Counting { last: 0 };
    let mut caller = HallCaller::new(rt);
    let end = serve_session(
        &mut caller,
        alloc,
        hall,
        seat,
        arena,
        tokens,
        1,
        &gate,
        &mut clock,
        peer,
        turns,
    );
    Course {
        end,
        read: gate.read.load(Ordering::SeqCst),
        answered: gate.answered.load(Ordering::SeqCst),
    }
}
