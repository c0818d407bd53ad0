//! Where a growth of the arena is refused: the step changes nothing, and if it is made once more, it is answered and does what
//! it would have done.
use crate::lines::{NO_MEMORY, OK, OPEN, OPENED, Row, Trouble};
use crate::place::Place;
use std::alloc::Global;
use std::test::Fail;

// More steps of some bytes than any of these trials takes.
const MOST_STEPS: usize = 48;

const STEP_BYTES: usize = 256;

// What is said first; a step over little memory; what is seen where that was refused, and what once it is made.
struct Trial {
    rules: &'static str,
    before: &'static [Row],
    step: Row,
    left: &'static [Row],
    done: &'static [Row],
}

const OTHER_OPENED: Row = (r#"{"do":"open","now":1,"s":2}"#, OK);

const SET: Row = (
    r#"{"do":"set","now":1,"path":"/x","s":1,"value":{"a":1,"b":2}}"#,
    OK,
);

const LISTENED: Row = (
    r#"{"do":"listen","id":"l","now":1,"path":"/x","query":{"limitToLast":1},"s":2}"#,
    r#"{"ok":true,"value":{"b":2}}"#,
);

const TREE: &str = r#"{"do":"get","now":3,"path":"/","s":1}"#;

const POLL: &str = r#"{"do":"poll","now":3,"s":2}"#;

const NO_NEWS: Row = (POLL, r#"{"news":[],"ok":true}"#);

const CANCELLED: Row = (POLL, r#"{"news":[{"cancelled":true,"id":"l"}],"ok":true}"#);

const AS_SET: Row = (TREE, r#"{"ok":true,"value":{"x":{"a":1,"b":2}}}"#);

const TRIALS: [Trial; 9] = [
    Trial {
        rules: OPEN,
        before: &[OPENED, OTHER_OPENED, SET, LISTENED],
        step: (r#"{"do":"set","now":2,"path":"/x/c","s":1,"value":3}"#, OK),
        left: &[AS_SET, NO_NEWS],
        done: &[
            (TREE, r#"{"ok":true,"value":{"x":{"a":1,"b":2,"c":3}}}"#),
            (POLL, r#"{"news":[{"id":"l","value":{"c":3}}],"ok":true}"#),
        ],
    },
    Trial {
        rules: OPEN,
        before: &[OPENED, OTHER_OPENED, SET, LISTENED],
        step: (
            r#"{"do":"update","now":2,"path":"/","s":1,"values":{"x/b":null,"x/d/e":5,"y":1}}"#,
            OK,
        ),
        left: &[AS_SET, NO_NEWS],
        done: &[
            (
                TREE,
                r#"{"ok":true,"value":{"x":{"a":1,"d":{"e":5}},"y":1}}"#,
            ),
            (
                POLL,
                r#"{"news":[{"id":"l","value":{"d":{"e":5}}}],"ok":true}"#,
            ),
        ],
    },
    // A write that ends a listener.
    Trial {
        rules: r#"{"rules":{".read":"data.child('y').exists() || data.child('x/a').val() + 'a' == '1a'",".write":true}}"#,
        before: &[
            OPENED,
            OTHER_OPENED,
            (r#"{"do":"set","now":1,"path":"/y","s":1,"value":1}"#, OK),
            (
                r#"{"do":"listen","id":"l","now":1,"path":"/x","s":2}"#,
                r#"{"ok":true,"value":null}"#,
            ),
        ],
        step: (r#"{"do":"remove","now":2,"path":"/y","s":1}"#, OK),
        left: &[(TREE, r#"{"ok":true,"value":{"y":1}}"#), NO_NEWS],
        done: &[CANCELLED],
    },
    Trial {
        rules: OPEN,
        before: &[OPENED, OTHER_OPENED, SET],
        step: (
            r#"{"do":"listen","id":"l","now":2,"path":"/x","query":{"limitToLast":1,"orderBy":"$value"},"s":2}"#,
            r#"{"ok":true,"value":{"b":2}}"#,
        ),
        left: &[AS_SET, NO_NEWS],
        done: &[
            (r#"{"do":"set","now":2,"path":"/x/c","s":1,"value":3}"#, OK),
            (POLL, r#"{"news":[{"id":"l","value":{"c":3}}],"ok":true}"#),
        ],
    },
    Trial {
        rules: OPEN,
        before: &[
            OPENED,
            OTHER_OPENED,
            SET,
            LISTENED,
            (r#"{"do":"set","now":1,"path":"/x/c","s":1,"value":3}"#, OK),
        ],
        step: (
            r#"{"do":"poll","now":2,"s":2}"#,
            r#"{"news":[{"id":"l","value":{"c":3}}],"ok":true}"#,
        ),
        left: &[],
        done: &[NO_NEWS],
    },
    Trial {
        rules: OPEN,
        before: &[
            OPENED,
            OTHER_OPENED,
            SET,
            LISTENED,
            (r#"{"do":"signin","now":1,"s":1,"token":"k"}"#, OK),
        ],
        step: (
            r#"{"do":"deploy","now":2,"rules":"{\"rules\":{\".write\":true}}","s":1}"#,
            OK,
        ),
        left: &[AS_SET, NO_NEWS],
        done: &[CANCELLED],
    },
    // A step that ends a listener by its moment alone.
    Trial {
        rules: r#"{"rules":{".read":"now + '' != '2' && auth == null",".write":true}}"#,
        before: &[OPENED, OTHER_OPENED, SET, LISTENED],
        step: (r#"{"do":"tick","now":2,"s":2}"#, OK),
        left: &[AS_SET, NO_NEWS],
        done: &[CANCELLED],
    },
    Trial {
        rules: OPEN,
        before: &[OPENED, OTHER_OPENED, SET],
        step: (
            r#"{"do":"onupdate","now":2,"path":"/","s":1,"values":{"x/b":null,"y":{".sv":"timestamp"}}}"#,
            OK,
        ),
        left: &[AS_SET],
        done: &[
            (r#"{"do":"leave","now":3,"s":1}"#, OK),
            (
                r#"{"do":"runnext","now":4,"s":1}"#,
                r#"{"ok":true,"ran":"applied"}"#,
            ),
            (
                r#"{"do":"get","now":5,"path":"/","s":2}"#,
                r#"{"ok":true,"value":{"x":{"a":1},"y":4}}"#,
            ),
            (r#"{"do":"close","now":5,"s":1}"#, r#"{"left":0,"ok":true}"#),
        ],
    },
    Trial {
        rules: OPEN,
        before: &[
            OPENED,
            OTHER_OPENED,
            SET,
            LISTENED,
            (
                r#"{"do":"onset","now":1,"path":"/x/c","s":1,"value":{".sv":"timestamp"}}"#,
                OK,
            ),
            (r#"{"do":"leave","now":1,"s":1}"#, OK),
        ],
        step: (
            r#"{"do":"runnext","now":2,"s":1}"#,
            r#"{"ok":true,"ran":"applied"}"#,
        ),
        left: &[NO_NEWS],
        done: &[
            (POLL, r#"{"news":[{"id":"l","value":{"c":2}}],"ok":true}"#),
            (
                r#"{"do":"runnext","now":3,"s":1}"#,
                r#"{"ok":true,"ran":"empty"}"#,
            ),
        ],
    },
];

// Whether a step over so many bytes is refused, if it is else answered as it should be.
fn is_refused(place: &mut Place, step: &Row, limit: usize) -> Result<bool, Trouble> {
    let said = place.say_within(limit, step.0)?;
    if said.as_slice() == step.1.as_bytes() {
        Ok(false)
    } else if said.as_slice() == NO_MEMORY.as_bytes() {
        Ok(true)
    } else {
        Err(step.0)
    }
}

// The same of a trial, if all is answered as it should be.
fn try_within(place: &mut Place, trial: &Trial, limit: usize) -> Result<bool, Trouble> {
    place.hear_freely(trial.before)?;
    let refused = is_refused(place, &trial.step, limit)?;
    if refused {
        place.hear_freely(trial.left)?;
        place.hear_freely(std::slice::from_ref(&trial.step))?;
    }
    place.hear_freely(trial.done)?;
    Ok(refused)
}

// The same in a new database.
fn is_tried(alloc: Global, trial: &Trial, limit: usize) -> Result<bool, Trouble> {
    let mut place = Place::new(alloc, trial.rules)?;
    try_within(&mut place, trial, limit)
}

// How often the step of a trial is refused, with some bytes more each time.
fn refusals_of(alloc: Global, trial: &Trial) -> Result<usize, Trouble> {
    let mut count = 0usize;
    for step in 0..MOST_STEPS {
        if is_tried(alloc, trial, step * STEP_BYTES)? {
            count = count.saturating_add(1);
        }
    }
    Ok(count)
}

#[test]
fn refused_growths_of_the_arena_change_nothing(rt: HostRuntime) -> Result<(), Fail> {
    for trial in &TRIALS {
        let count = refusals_of(rt.alloc(), trial)?;
        assert!(rt;
            0 < count && count < MOST_STEPS,
            "{}: {count}",
            trial.step.0
        );
    }
    Ok(())
}
