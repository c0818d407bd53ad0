//! The arena of a step. Where it can't be reset, each step that places something in it wants memory and changes nothing, but
//! one that closes a session, ends a listener, takes actions back or leaves, and the run of no action: these leave the arena
//! alone. So do the refusals with numbers below 500, since the arena is reset behind them. No contract says so, since
//! contracts see nothing of an arena.
use crate::lines::{NO_MEMORY, OK, OPEN, Row, Trouble};
use crate::place::Place;
use bumpalo::Bump;
use std::alloc::Global;
use std::test::Fail;

// Sessions 1 and 2 are open, and 1 is signed in as an administrator, listens, and has an action.
const BEFORE: &[Row] = &[
    (r#"{"do":"open","now":1,"s":1}"#, OK),
    (r#"{"do":"open","now":1,"s":2}"#, OK),
    (r#"{"do":"signin","now":1,"s":1,"token":"k"}"#, OK),
    (
        r#"{"do":"listen","id":"a","now":1,"path":"/x","s":1}"#,
        r#"{"ok":true,"value":null}"#,
    ),
    (r#"{"do":"set","now":1,"path":"/x","s":1,"value":1}"#, OK),
    (r#"{"do":"onset","now":1,"path":"/x","s":1,"value":5}"#, OK),
];

// A step of each other kind but the run of an action.
const WANTING: &[Row] = &[
    (r#"{"do":"open","now":2,"s":3}"#, NO_MEMORY),
    (r#"{"do":"signin","now":2,"s":1,"token":"b"}"#, NO_MEMORY),
    (r#"{"do":"signout","now":2,"s":1}"#, NO_MEMORY),
    (r#"{"do":"get","now":2,"path":"/x","s":1}"#, NO_MEMORY),
    (
        r#"{"do":"set","now":2,"path":"/x","s":1,"value":2}"#,
        NO_MEMORY,
    ),
    (r#"{"do":"remove","now":2,"path":"/x","s":1}"#, NO_MEMORY),
    (
        r#"{"do":"update","now":2,"path":"/","s":1,"values":{"x":2,"y":3}}"#,
        NO_MEMORY,
    ),
    (
        r#"{"do":"listen","id":"b","now":2,"path":"/x","s":1}"#,
        NO_MEMORY,
    ),
    (r#"{"do":"poll","now":2,"s":1}"#, NO_MEMORY),
    (r#"{"do":"tick","now":2,"s":1}"#, NO_MEMORY),
    (
        r#"{"do":"deploy","now":2,"rules":"{\"rules\":{}}","s":1}"#,
        NO_MEMORY,
    ),
    (
        r#"{"do":"onset","now":2,"path":"/x","s":1,"value":2}"#,
        NO_MEMORY,
    ),
    (r#"{"do":"onremove","now":2,"path":"/x","s":1}"#, NO_MEMORY),
    (
        r#"{"do":"onupdate","now":2,"path":"/","s":1,"values":{"x":2,"y":3}}"#,
        NO_MEMORY,
    ),
];

// What is refused with a number below 500.
const REFUSED: &[Row] = &[
    (
        r#"{"do":"open","now":2,"s":1}"#,
        r#"{"code":203,"name":"SessionOpen","ok":false}"#,
    ),
    (
        r#"{"do":"get","now":2,"path":"/x","s":3}"#,
        r#"{"code":202,"name":"NoSession","ok":false}"#,
    ),
    (
        r#"{"do":"deploy","now":2,"rules":"{\"rules\":{}}","s":2}"#,
        r#"{"code":205,"name":"NotAdmin","ok":false}"#,
    ),
    (
        r#"{"do":"update","now":2,"path":"/","s":1,"values":{}}"#,
        r#"{"code":107,"name":"EmptyUpdate","ok":false}"#,
    ),
    (
        r#"{"do":"onupdate","now":2,"path":"/","s":1,"values":{"x":2,"x/y":3}}"#,
        r#"{"code":108,"name":"Overlap","ok":false}"#,
    ),
    (
        r#"{"do":"listen","id":"a","now":2,"path":"/y","s":1}"#,
        r#"{"code":301,"name":"DuplicateId","ok":false}"#,
    ),
    (
        r#"{"do":"unlisten","id":"b","now":2,"s":1}"#,
        r#"{"code":302,"name":"NoListener","ok":false}"#,
    ),
    (
        r#"{"do":"runnext","now":2,"s":1}"#,
        r#"{"code":209,"name":"NotLeaving","ok":false}"#,
    ),
];

// All is as it was.
const LEFT: &[Row] = &[
    (
        r#"{"do":"poll","now":3,"s":1}"#,
        r#"{"news":[{"id":"a","value":1}],"ok":true}"#,
    ),
    (
        r#"{"do":"get","now":3,"path":"/","s":1}"#,
        r#"{"ok":true,"value":{"x":1}}"#,
    ),
    (
        r#"{"do":"get","now":3,"path":"/","s":3}"#,
        r#"{"code":202,"name":"NoSession","ok":false}"#,
    ),
    (
        r#"{"do":"deploy","now":3,"rules":"{\"rules\":{\".read\":true}}","s":1}"#,
        OK,
    ),
];

// What leaves the arena alone, and the run of an action.
const QUIET: &[Row] = &[
    (r#"{"do":"unlisten","id":"a","now":4,"s":1}"#, OK),
    (r#"{"do":"oncancel","now":4,"path":"/y","s":1}"#, OK),
    (r#"{"do":"leave","now":4,"s":1}"#, OK),
    (
        r#"{"do":"get","now":4,"path":"/","s":1}"#,
        r#"{"code":206,"name":"Leaving","ok":false}"#,
    ),
    (r#"{"do":"leave","now":4,"s":2}"#, OK),
    (
        r#"{"do":"runnext","now":4,"s":2}"#,
        r#"{"ok":true,"ran":"empty"}"#,
    ),
    (r#"{"do":"runnext","now":4,"s":1}"#, NO_MEMORY),
    (r#"{"do":"close","now":4,"s":1}"#, r#"{"left":1,"ok":true}"#),
];

const GONE: &[Row] = &[
    (
        r#"{"do":"get","now":5,"path":"/","s":1}"#,
        r#"{"code":202,"name":"NoSession","ok":false}"#,
    ),
    (r#"{"do":"open","now":5,"s":1}"#, OK),
    (
        r#"{"do":"get","now":5,"path":"/","s":1}"#,
        r#"{"ok":true,"value":{"x":1}}"#,
    ),
];

// An arena that can't be reset, since a value in it was forgotten.
fn stuck_arena(alloc: Global) -> Result<Bump, Fail> {
    let arena = Bump::new(alloc);
    std::mem::forget(Box::new(&arena, 3u64).ok().ok_or("no memory")?);
    Ok(arena)
}

// What is said, and whether over the arena that can't be reset.
const TURNS: [(bool, &[Row]); 6] = [
    (false, BEFORE),
    (true, WANTING),
    (true, REFUSED),
    (false, LEFT),
    (true, QUIET),
    (false, GONE),
];

// Takes all turns over this arena and over others.
fn take_turns(place: &mut Place, stuck: &mut Bump) -> Result<(), Trouble> {
    for (is_stuck, rows) in TURNS {
        if is_stuck {
            place.hear_all(stuck, rows)?;
        } else {
            place.hear_freely(rows)?;
        }
    }
    Ok(())
}

#[test]
fn over_an_arena_that_cannot_be_reset_memory_is_wanting(rt: HostRuntime) -> Result<(), Fail> {
    let mut place = Place::new(rt.alloc(), OPEN)?;
    let mut stuck = stuck_arena(rt.alloc())?;
    Ok(take_turns(&mut place, &mut stuck)?)
}
