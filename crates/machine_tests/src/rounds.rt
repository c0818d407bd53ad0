//! Sessions whose streams are cut at each byte, fail at each write, or bring messages in parts.
ghost use Rattle.sessions.specs.Traffic.{IsOpen};

use crate::frames::{
    BINARY, BINARY_BEGINS, CLOSE, Frame, LAST_PART, PING, TEXT, bytes_of, texts_in,
};
use crate::lines::{Trouble, WANT_OF_MEMORY, two_tokens};
use crate::streams::{Course, open_hall, serve, serve_as};
use crate::wire::{Last, Wire};
use bumpalo::Bump;
use rtdb_core::Event;
use sessions::{HallCaller, Peer, SessionEnd, SocketPeer, answer};
use std::alloc::Global;
use std::sync::Wait;
use std::test::Fail;
use tokens::Tokens;
use tungstenite::{NoMask, Role, WebSocket};

// What a client says: the first is written when it goes, the second at once.
const MESSAGES: &[Frame] = &[
    (BINARY, r#"{"do":"onset","path":"/on/ann","value":1}"#),
    (BINARY, r#"{"do":"set","path":"/a","value":1}"#),
    (BINARY, r#"{"do":"tick"}"#),
    (BINARY, r#"{"do":"get","path":"/a"}"#),
    (TEXT, r#"{"do":"listen","id":"l","path":"/a"}"#),
    (TEXT, r#"{"do":"set","path":"/a","value":2}"#),
];

// What it is sent, with a line feed for the close.
const TEXTS: &str = r#"{"ok":true}
{"ok":true}
{"code":102,"name":"BadRequest","ok":false}
{"ok":true,"value":1}
{"ok":true,"value":1}
{"ok":true}
{"push":[{"id":"l","value":2}]}

"#;

// The tree that is left where so many of its messages came.
const TREES: [&str; 7] = [
    "null",
    r#"{"on":{"ann":1}}"#,
    r#"{"a":1,"on":{"ann":1}}"#,
    r#"{"a":1,"on":{"ann":1}}"#,
    r#"{"a":1,"on":{"ann":1}}"#,
    r#"{"a":1,"on":{"ann":1}}"#,
    r#"{"a":2,"on":{"ann":1}}"#,
];

// Of a frame that is short all but its payload.
const FRAME_BYTES: usize = 6;

// No write is refused.
const ALL: u64 = u64::MAX;

// How many turns suffice.
const TURNS: u64 = 100;

// How many whole messages come in so many bytes.
fn whole_messages(length: usize) -> usize {
    let mut end = 0usize;
    for (index, message) in MESSAGES.iter().enumerate() {
        end = end
            .saturating_add(message.1.len())
            .saturating_add(FRAME_BYTES);
        if length < end {
            return index;
        }
    }
    MESSAGES.len()
}

// The tree behind so many messages.
fn tree_behind(messages: usize) -> &'static str {
    match TREES.get(messages) {
        Some(tree) => tree,
        None => "no such tree",
    }
}

// Whether the first of the texts were sent, and maybe a close.
fn is_front(sent: &[u8]) -> bool {
    let texts = sent.strip_suffix(b"\n").unwrap_or(sent);
    TEXTS.as_bytes().starts_with(texts)
}

// Whether a session leaves what it should where its stream ends so behind so many bytes.
fn is_cut_well<R: Wait>(
    rt: &R,
    alloc: Global,
    bytes: &[u8],
    length: usize,
    last: Last,
) -> Result<bool, Trouble> {
    let front = bytes.get(..length).unwrap_or(bytes);
    let front = front.to_vec(alloc).ok().ok_or(WANT_OF_MEMORY)?;
    let left = serve(rt, alloc, Wire::new(alloc, front, last, ALL), TURNS)?;
    let end = match last {
        Last::Stops => SessionEnd::PeerFault,
        Last::Waits => SessionEnd::Turns,
    };
    let tree = tree_behind(whole_messages(length));
    Ok(left.is(end, tree) && is_front(&left.texts))
}

#[test]
fn a_cut_stream_leaves_no_session(rt: HostRuntime) -> Result<(), Fail> {
    let alloc = rt.alloc();
    let bytes = bytes_of(alloc, MESSAGES)?;
    for length in 0..=bytes.len() {
        let stops = is_cut_well(&rt, alloc, &bytes, length, Last::Stops)?;
        let waits = is_cut_well(&rt, alloc, &bytes, length, Last::Waits)?;
        assert!(rt; stops && waits, "after {length} bytes");
    }
    Ok(())
}

// Whether a session leaves what it should where so many writes are taken, and the next one is refused. A message whose answer
// is lost is done.
fn is_refused_well<R: Wait>(
    rt: &R,
    alloc: Global,
    bytes: &[u8],
    writes: u64,
) -> Result<bool, Trouble> {
    let bytes = bytes.to_vec(alloc).ok().ok_or(WANT_OF_MEMORY)?;
    let stream = Wire::new(alloc, bytes, Last::Waits, writes);
    let left = serve(rt, alloc, stream, TURNS)?;
    let Course { read, answered, .. } = left.course;
    let tree = tree_behind(read as usize);
    Ok(
        left.is(SessionEnd::PeerFault, tree)
            && read == writes.saturating_add(1).min(6)
            && answered == writes.min(6),
    )
}

#[test]
fn a_refused_write_leaves_no_session(rt: HostRuntime) -> Result<(), Fail> {
    let alloc = rt.alloc();
    let bytes = bytes_of(alloc, MESSAGES)?;
    // Seven texts are sent, the last of them behind the last answer.
    for writes in 0..7 {
        let is_well = is_refused_well(&rt, alloc, &bytes, writes)?;
        assert!(rt; is_well, "at write {writes}");
    }
    Ok(())
}

// What comes, in so many turns; how that ends, how many messages are read and answered, what is sent, and the tree that is left.
struct Round {
    frames: &'static [Frame],
    turns: u64,
    end: SessionEnd,
    messages: u64,
    texts: &'static str,
    tree: &'static str,
}

const ROUNDS: [Round; 4] = [
    Round {
        frames: MESSAGES,
        turns: TURNS,
        end: SessionEnd::Turns,
        messages: 6,
        texts: TEXTS,
        tree: r#"{"a":2,"on":{"ann":1}}"#,
    },
    // It has no more turns.
    Round {
        frames: MESSAGES,
        turns: 1,
        end: SessionEnd::Turns,
        messages: 1,
        texts: "{\"ok\":true}\n\n",
        tree: r#"{"on":{"ann":1}}"#,
    },
    // A message in three parts with a ping between, and a close with a message behind it, which is not read.
    Round {
        frames: &[
            (BINARY_BEGINS, r#"{"do":"set","pa"#),
            (PING, "ping"),
            (0, r#"th":"/a","val"#),
            (LAST_PART, r#"ue":7}"#),
            (CLOSE, ""),
            (BINARY, r#"{"do":"set","path":"/a","value":8}"#),
        ],
        turns: TURNS,
        end: SessionEnd::PeerClosed,
        messages: 1,
        texts: "{\"ok\":true}\n\n",
        tree: r#"{"a":7}"#,
    },
    // The clock is read for the opening, the message, the poll behind it, the leaving, and the run.
    Round {
        frames: &[
            (
                BINARY,
                r#"{"do":"onset","path":"/on/ann","value":{".sv":"timestamp"}}"#,
            ),
            (CLOSE, ""),
        ],
        turns: TURNS,
        end: SessionEnd::PeerClosed,
        messages: 1,
        texts: "{\"ok\":true}\n\n",
        tree: r#"{"on":{"ann":5}}"#,
    },
];

// Whether a round ends and leaves what it should.
fn is_round<R: Wait>(rt: &R, alloc: Global, round: &Round) -> Result<bool, Trouble> {
    let bytes = bytes_of(alloc, round.frames).ok().ok_or(WANT_OF_MEMORY)?;
    let stream = Wire::new(alloc, bytes, Last::Waits, ALL);
    let left = serve(rt, alloc, stream, round.turns)?;
    let Course { read, answered, .. } = left.course;
    let is_heard = read == round.messages && answered == round.messages;
    let is_told = left.texts.as_slice() == round.texts.as_bytes();
    Ok(left.is(round.end, round.tree) && is_heard && is_told)
}

#[test]
fn messages_are_answered_up_to_the_close_or_the_last_turn(rt: HostRuntime) -> Result<(), Fail> {
    for round in &ROUNDS {
        assert!(rt; is_round(&rt, rt.alloc(), round)?, "{}", round.tree);
    }
    Ok(())
}

const GET: &[u8] = br#"{"do":"get","path":"/"}"#;

const NULL: &[u8] = br#"{"ok":true,"value":null}"#;

const SESSION_OPEN: &[u8] = b"{\"code\":203,\"name\":\"SessionOpen\",\"ok\":false}\n\n";

// Answers a message of a session that is open, and serves a client as this session: the answer, and how that ends.
fn answer_and_serve<R: Wait, P: Peer>(
    rt: &R,
    alloc: Global,
    tokens: &Tokens,
    peer: &mut P,
) -> Result<(Vec<u8>, SessionEnd), Trouble>
    requires { IsOpen (P.traffic peer.old) }
{
    let mut arena = Bump::new(alloc);
    let (hall, mut seat) = open_hall(alloc)?;
    drop(hall.call(rt, &mut seat, &mut arena, 1, 1, Event::Open));
    let mut caller = HallCaller::new(rt);
    let said = answer(
        &mut caller,
        alloc,
        &hall,
        &mut seat,
        &mut arena,
        tokens,
        1,
        5,
        GET,
    );
    let course = serve_as(rt, alloc, &hall, &mut seat, &mut arena, tokens, peer, TURNS);
    drop(hall.close(rt, seat));
    Ok((said.ok().ok_or(WANT_OF_MEMORY)?, course.end))
}

#[test]
fn a_session_that_is_open_is_answered_and_not_served(rt: HostRuntime) -> Result<(), Fail> {
    let alloc = rt.alloc();
    let tokens = two_tokens(alloc)?;
    let stream = Wire::new(alloc, Vec::new(alloc), Last::Waits, ALL);
    let socket = WebSocket::from_raw_socket(alloc, stream, NoMask, Role::Server, None);
    let mut peer = SocketPeer::new(alloc, socket);
    let (said, end) = answer_and_serve(&rt, alloc, &tokens, &mut peer)?;
    let texts = texts_in(alloc, &peer.into_socket().into_inner().output)?;
    let is_answered = said.as_slice() == NULL;
    let is_refused = end == SessionEnd::NotOpened && texts.as_slice() == SESSION_OPEN;
    assert!(rt; is_answered && is_refused);
    Ok(())
}
