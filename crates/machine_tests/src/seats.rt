//! Lines of every kind, said to a hall at several seats, and what each is answered, whatever the other seats do.
ghost use Rattle.std.specs.Prelude.{◌≡◌, ◌≤◌};

use crate::lines::{OK, Row, Trouble, WANT_OF_MEMORY, asked, filled, text_of, two_tokens};
use crate::streams::open_hall;
use crate::threads::work_as_many;
use bumpalo::Bump;
use json_tree::{Node, to_json};
use locked_server::{Hall, Seat};
use requests::Asked;
use rtdb_core::{Core, Event, MAX_MOMENT, Reply};
use std::alloc::Global;
use std::sync::Wait;
use std::test::Fail;
use tokens::Tokens;

// How many lines there are, and how often each seat says all of them.
const LINES: u64 = 38;

const ROUNDS: u64 = 4;

// How many seats say them.
const SEATS: u64 = 8;

const NULL: &str = r#"{"ok":true,"value":null}"#;

const APPLIED: &str = r#"{"ok":true,"ran":"applied"}"#;

const LEFT: &str = r#"{"ok":true,"value":{"a":2,"c":1}}"#;

// In the place of each sign stands the number of the seat, who has two sessions and a place of its own, and deploys the same
// rules as all others.
const ROWS: [Row; 38] = [
    (r#"{"do":"open","now":9,"s":1@}"#, OK),
    (r#"{"do":"open","now":9,"s":2@}"#, OK),
    (
        r#"{"do":"open","now":9,"s":2@}"#,
        r#"{"code":203,"name":"SessionOpen","ok":false}"#,
    ),
    (r#"{"do":"signin","now":9,"s":1@,"token":"k"}"#, OK),
    (
        r#"{"do":"deploy","now":9,"rules":"{\"rules\":{\".read\":true,\".write\":true,\"w1\":{\".read\":true}}}","s":1@}"#,
        OK,
    ),
    (
        r#"{"do":"set","now":9,"path":"/w@/a","s":1@,"value":1}"#,
        OK,
    ),
    (
        r#"{"do":"listen","id":"l","now":9,"path":"/w@/a","s":1@}"#,
        r#"{"ok":true,"value":1}"#,
    ),
    (
        r#"{"do":"poll","now":9,"s":1@}"#,
        r#"{"news":[],"ok":true}"#,
    ),
    (
        r#"{"do":"set","now":9,"path":"/w@/a","s":2@,"value":2}"#,
        OK,
    ),
    (
        r#"{"do":"poll","now":9,"s":1@}"#,
        r#"{"news":[{"id":"l","value":2}],"ok":true}"#,
    ),
    (
        r#"{"do":"update","now":9,"path":"/w@","s":2@,"values":{"b":1,"c":1}}"#,
        OK,
    ),
    (
        r#"{"do":"get","now":9,"path":"/w@","s":1@}"#,
        r#"{"ok":true,"value":{"a":2,"b":1,"c":1}}"#,
    ),
    (
        r#"{"do":"get","now":9,"path":"/w@","query":{"limitToLast":1},"s":1@}"#,
        r#"{"ok":true,"value":{"c":1}}"#,
    ),
    (r#"{"do":"remove","now":9,"path":"/w@/b","s":2@}"#, OK),
    (r#"{"do":"get","now":9,"path":"/w@/b","s":1@}"#, NULL),
    (r#"{"do":"tick","now":9,"s":1@}"#, OK),
    (r#"{"do":"unlisten","id":"l","now":9,"s":1@}"#, OK),
    (
        r#"{"do":"unlisten","id":"l","now":9,"s":1@}"#,
        r#"{"code":302,"name":"NoListener","ok":false}"#,
    ),
    (r#"{"do":"signout","now":9,"s":1@}"#, OK),
    (
        r#"{"do":"deploy","now":9,"rules":"{\"rules\":{}}","s":1@}"#,
        r#"{"code":205,"name":"NotAdmin","ok":false}"#,
    ),
    (
        r#"{"do":"onupdate","now":9,"path":"/w@","s":2@,"values":{"b":1,"d":1}}"#,
        OK,
    ),
    (
        r#"{"do":"onset","now":9,"path":"/w@/e","s":2@,"value":3}"#,
        OK,
    ),
    (r#"{"do":"oncancel","now":9,"path":"/w@/e","s":2@}"#, OK),
    (r#"{"do":"onremove","now":9,"path":"/w@/b","s":2@}"#, OK),
    (r#"{"do":"onremove","now":9,"path":"/w@/d","s":2@}"#, OK),
    (
        r#"{"do":"onset","now":9,"path":"/w@/e","s":2@,"value":3}"#,
        OK,
    ),
    (
        r#"{"do":"runnext","now":9,"s":2@}"#,
        r#"{"code":209,"name":"NotLeaving","ok":false}"#,
    ),
    (r#"{"do":"leave","now":9,"s":2@}"#, OK),
    (
        r#"{"do":"get","now":9,"path":"/w@","s":2@}"#,
        r#"{"code":206,"name":"Leaving","ok":false}"#,
    ),
    (r#"{"do":"get","now":9,"path":"/w@","s":1@}"#, LEFT),
    (r#"{"do":"runnext","now":9,"s":2@}"#, APPLIED),
    (
        r#"{"do":"get","now":9,"path":"/w@","s":1@}"#,
        r#"{"ok":true,"value":{"a":2,"b":1,"c":1,"d":1}}"#,
    ),
    (r#"{"do":"runnext","now":9,"s":2@}"#, APPLIED),
    (r#"{"do":"runnext","now":9,"s":2@}"#, APPLIED),
    (r#"{"do":"leave","now":9,"s":1@}"#, OK),
    (
        r#"{"do":"close","now":9,"s":1@}"#,
        r#"{"left":0,"ok":true}"#,
    ),
    (
        r#"{"do":"poll","now":9,"s":1@}"#,
        r#"{"code":202,"name":"NoSession","ok":false}"#,
    ),
    (
        r#"{"do":"close","now":9,"s":2@}"#,
        r#"{"left":1,"ok":true}"#,
    ),
];

// What is left at the places of all seats.
const TREE: &str =
    r#"{"w1":{"a":2,"c":1},"w2":{"a":2,"c":1},"w3":{"a":2,"c":1},"w4":{"a":2,"c":1},"w5":{"a":2,"c":1},"w6":{"a":2,"c":1},"w7":{"a":2,"c":1},"w8":{"a":2,"c":1}}"#;

// What a hall replies at a seat.
fn reply_of<R: Wait>(rt: &R, hall: &Hall, seat: &mut Seat, arena: &mut Bump, asked: Asked) -> Reply
    requires hall { seat.old.hall ≡ hall.now }
    requires moment { asked.stamp.now ≤ MAX_MOMENT }
    ensures { seat.new.hall ≡ hall.now }
{
    let Asked { stamp, event } = asked;
    hall.call(rt, seat, arena, stamp.now, stamp.session, event)
        .reply
}

// What it answers to a line.
fn say<R: Wait>(
    rt: &R,
    alloc: Global,
    hall: &Hall,
    seat: &mut Seat,
    arena: &mut Bump,
    tokens: &Tokens,
    line: &str,
) -> Result<Vec<u8>, Trouble>
    requires { seat.old.hall ≡ hall.now }
    ensures { seat.new.hall ≡ hall.now }
{
    let asked = asked(alloc, tokens, line)?;
    let reply = reply_of(rt, hall, seat, arena, asked);
    text_of(alloc, &reply)
}

// Says a line at the seat of this number, if it is answered as it should be.
fn hear<R: Wait>(
    rt: &R,
    alloc: Global,
    hall: &Hall,
    seat: &mut Seat,
    arena: &mut Bump,
    tokens: &Tokens,
    number: &str,
    row: &Row,
) -> Result<(), Trouble>
    requires { seat.old.hall ≡ hall.now }
    ensures { seat.new.hall ≡ hall.now }
{
    let line = filled(alloc, row.0, number)?;
    let said = say(rt, alloc, hall, seat, arena, tokens, line.as_str())?;
    if said.as_slice() == row.1.as_bytes() {
        Ok(())
    } else {
        Err(row.0)
    }
}

// Says each line once.
fn make_rows<R: Wait>(
    rt: &R,
    alloc: Global,
    hall: &Hall,
    seat: &mut Seat,
    arena: &mut Bump,
    tokens: &Tokens,
    number: &str,
) -> Result<(), Trouble>
    requires { seat.old.hall ≡ hall.now }
    ensures { seat.new.hall ≡ hall.now }
{
    for row in &ROWS {
        hear(rt, alloc, hall, seat, arena, tokens, number, row)?;
    }
    Ok(())
}

// The same as the seat of this number.
fn make_round<R: Wait>(
    rt: &R,
    alloc: Global,
    hall: &Hall,
    seat: &mut Seat,
    arena: &mut Bump,
    number: u64,
) -> Result<(), Trouble>
    requires { seat.old.hall ≡ hall.now }
    ensures { seat.new.hall ≡ hall.now }
{
    let tokens = two_tokens(alloc)?;
    let number = number.to_string(alloc).ok().ok_or(WANT_OF_MEMORY)?;
    make_rows(rt, alloc, hall, seat, arena, &tokens, number.as_str())
}

/// Why a seat does not go on. It has no line, since a thread can't hand one over.
#[derive(Clone, Copy, Debug)]
pub(crate) enum Stop {
    NoMemory,
    OtherAnswer,
}

impl Stop {
    fn of(trouble: Trouble) -> Stop {
        if trouble == WANT_OF_MEMORY {
            Stop::NoMemory
        } else {
            Stop::OtherAnswer
        }
    }
}

/// Says all lines so often, if each is answered as it should be.
pub(crate) fn make_rounds<R: Wait>(
    rt: &R,
    alloc: Global,
    hall: &Hall,
    seat: &mut Seat,
    number: u64,
) -> Result<(), Stop>
    requires { seat.old.hall ≡ hall.now }
    ensures { seat.new.hall ≡ hall.now }
{
    let mut arena = Bump::new(alloc);
    for _round in 0..ROUNDS {
        if let Err(trouble) = make_round(rt, alloc, hall, seat, &mut arena, number) {
            return Err(Stop::of(trouble));
        }
    }
    Ok(())
}

/// The JSON text of a tree.
pub(crate) fn text_of_tree(alloc: Global, tree: Option<&Node>) -> Result<String, Trouble> {
    let value = to_json(alloc, tree).ok().ok_or(WANT_OF_MEMORY)?;
    value.to_string(alloc).ok().ok_or(WANT_OF_MEMORY)
}

// Whether all sessions have gone and left what they should.
fn is_left(alloc: Global, core: &Core) -> Result<bool, Trouble> {
    let tree = text_of_tree(alloc, core.tree())?;
    Ok(core.sessions() == 0 && tree.as_str() == TREE)
}

#[test]
fn eight_seats_are_answered_as_if_each_were_alone(rt: HostRuntime) -> Result<(), Fail> {
    let alloc = rt.alloc();
    let (hall, mut seat) = open_hall(alloc)?;
    let said = work_as_many(&rt, alloc, &hall, &mut seat, 1, SEATS);
    let calls = hall.news(&mut seat);
    let core = hall.close(&rt, seat);
    let left = is_left(alloc, &core);
    drop(core);
    said?;
    assert_eq!(rt; calls, SEATS * ROUNDS * LINES);
    assert!(rt; left?);
    Ok(())
}

#[test]
fn news_come_without_a_meeting(rt: HostRuntime) -> Result<(), Fail> {
    let (hall, mut seat) = open_hall(rt.alloc())?;
    let mut other = hall.split(&mut seat);
    let mut arena = Bump::new(rt.alloc());
    drop(hall.call(&rt, &mut seat, &mut arena, 1, 1, Event::Open));
    let news = hall.news(&mut other);
    hall.meet(&mut seat, other);
    drop(hall.close(&rt, seat));
    assert_eq!(rt; news, 1);
    Ok(())
}

#[test]
fn a_poll_changes_nothing(rt: HostRuntime) -> Result<(), Fail> {
    let (hall, mut seat) = open_hall(rt.alloc())?;
    let mut arena = Bump::new(rt.alloc());
    let opened = hall.call(&rt, &mut seat, &mut arena, 1, 1, Event::Open);
    let polled = hall.call(&rt, &mut seat, &mut arena, 1, 1, Event::Poll);
    let closed = hall.call(&rt, &mut seat, &mut arena, 1, 1, Event::Close);
    drop(hall.close(&rt, seat));
    assert_eq!(rt; opened.changes, 1);
    assert_eq!(rt; polled.changes, 1);
    assert_eq!(rt; closed.changes, 2);
    Ok(())
}
