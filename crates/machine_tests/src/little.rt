//! What is left unasked. Over an arena that has too little memory for one of the rules, a step wants memory exactly where that
//! rule is asked: no contract says which rules are asked.
use crate::lines::{NO_MEMORY, OK, OPENED, Row, Trouble, filled};
use crate::place::Place;
use std::alloc::Global;
use std::test::Fail;

// Too little for a rule that makes a text of 32,768 bytes, or for three that make one of 8,192, and enough for one of these and
// for all else.
const LITTLE: usize = 49_152;

// A rule that makes a text of 32,768 bytes, and a text of 8,192 bytes.
const LONG: &str =
    "'aaaaaaaa'.replace('a', 'bbbbbbbbbbbbbbbb').replace('b', 'cccccccccccccccc').replace('c', 'dddddddddddddddd') != ''";

const TEXT: &str =
    "'aaaaaaaa'.replace('a', 'bbbbbbbbbbbbbbbb').replace('b', 'cccccccccccccccccccccccccccccccccccccccccccccccccccccccccccccccc')";

// Rules, in which the piece stands in the place of a sign; what is said with memory enough; and then, with little memory, a
// line, and its answer.
struct Question {
    rules: &'static str,
    piece: &'static str,
    before: &'static [Row],
    row: Row,
}

const BOTH: &str = r#"{"do":"update","now":2,"path":"/","s":1,"values":{"a":1,"b":1}}"#;

const ALL_THREE: &str = r#"{"do":"update","now":2,"path":"/","s":1,"values":{"a":1,"b":1,"c":1}}"#;

const READ: &str = r#"{"do":"get","now":2,"path":"/b","s":1}"#;

const NULL: &str = r#"{"ok":true,"value":null}"#;

const WITH_B: &[Row] = &[
    OPENED,
    (r#"{"do":"set","now":1,"path":"/b","s":1,"value":1}"#, OK),
];

const A_IS_VALID: &str =
    r#"{"rules":{".write":true,"a":{".validate":true},"b":{".validate":"@"}}}"#;

const WRITES: [Question; 5] = [
    Question {
        rules: r#"{"rules":{"a":{".write":true},"b":{".write":"@"}}}"#,
        piece: LONG,
        before: &[OPENED],
        row: (BOTH, NO_MEMORY),
    },
    // The first location is denied.
    Question {
        rules: r#"{"rules":{"a":{".write":false},"b":{".write":"@"}}}"#,
        piece: LONG,
        before: &[OPENED],
        row: (
            BOTH,
            r#"{"at":"/a","code":502,"name":"WriteDenied","ok":false,"rules":[{"pattern":"/a","why":"false"}]}"#,
        ),
    },
    // A rule above it grants.
    Question {
        rules: r#"{"rules":{".write":true,"b":{".write":"@"}}}"#,
        piece: LONG,
        before: &[OPENED],
        row: (BOTH, OK),
    },
    // It is asked at each of three locations.
    Question {
        rules: r#"{"rules":{"$x":{".write":"@ != ''"}}}"#,
        piece: TEXT,
        before: &[OPENED],
        row: (ALL_THREE, NO_MEMORY),
    },
    // It is asked once for all of them.
    Question {
        rules: r#"{"rules":{".write":"@ == ''","$x":{".write":true}}}"#,
        piece: TEXT,
        before: &[OPENED],
        row: (ALL_THREE, OK),
    },
];

const VALUES: [Question; 5] = [
    Question {
        rules: A_IS_VALID,
        piece: LONG,
        before: &[OPENED],
        row: (BOTH, NO_MEMORY),
    },
    // The first place fails.
    Question {
        rules: r#"{"rules":{".write":true,"a":{".validate":false},"b":{".validate":"@"}}}"#,
        piece: LONG,
        before: &[OPENED],
        row: (
            BOTH,
            r#"{"at":"/a","code":503,"name":"ValidateDenied","ok":false,"pattern":"/a","why":"false"}"#,
        ),
    },
    // Nothing is written there.
    Question {
        rules: A_IS_VALID,
        piece: LONG,
        before: WITH_B,
        row: (r#"{"do":"set","now":2,"path":"/a","s":1,"value":1}"#, OK),
    },
    // Nothing is left there.
    Question {
        rules: A_IS_VALID,
        piece: LONG,
        before: WITH_B,
        row: (
            r#"{"do":"update","now":2,"path":"/","s":1,"values":{"a":1,"b":null}}"#,
            OK,
        ),
    },
    // Something above what is removed is left there.
    Question {
        rules: A_IS_VALID,
        piece: LONG,
        before: WITH_B,
        row: (r#"{"do":"remove","now":2,"path":"/b/c","s":1}"#, NO_MEMORY),
    },
];

const READS: [Question; 4] = [
    Question {
        rules: r#"{"rules":{".read":false,"b":{".read":"@"}}}"#,
        piece: LONG,
        before: &[OPENED],
        row: (READ, NO_MEMORY),
    },
    // A rule above it grants.
    Question {
        rules: r#"{"rules":{".read":true,"b":{".read":"@"}}}"#,
        piece: LONG,
        before: &[OPENED],
        row: (READ, NULL),
    },
    Question {
        rules: r#"{"rules":{".read":"now < 3 && @"}}"#,
        piece: LONG,
        before: &[OPENED],
        row: (READ, NO_MEMORY),
    },
    // What stands before it in the expression decides.
    Question {
        rules: r#"{"rules":{".read":"now < 3 || @"}}"#,
        piece: LONG,
        before: &[OPENED],
        row: (READ, NULL),
    },
];

// Asks a question, if it is answered as it should be.
fn ask(alloc: Global, question: &Question) -> Result<(), Trouble> {
    let mut place = place_of(alloc, question)?;
    place.hear_freely(question.before)?;
    let said = place.say_within(LITTLE, question.row.0)?;
    if said.as_slice() == question.row.1.as_bytes() {
        Ok(())
    } else {
        Err(question.row.0)
    }
}

// A database under the rules of a question.
fn place_of(alloc: Global, question: &Question) -> Result<Place, Trouble> {
    let rules = filled(alloc, question.rules, question.piece)?;
    Place::new(alloc, rules.as_str())
}

fn ask_all(alloc: Global, questions: &[Question]) -> Result<(), Trouble> {
    for question in questions {
        ask(alloc, question)?;
    }
    Ok(())
}

#[test]
fn a_rule_that_decides_nothing_is_not_asked(rt: HostRuntime) -> Result<(), Fail> {
    ask_all(rt.alloc(), &WRITES)?;
    ask_all(rt.alloc(), &VALUES)?;
    ask_all(rt.alloc(), &READS)?;
    Ok(())
}
