//! Lines of scripts, as in `cases`, and the texts of their answers.
ghost use Rattle.std.specs.Prelude.{◌≤◌, IfOk};

use answers::write_reply;
use requests::{Asked, Form, read_asked};
use rtdb_core::{Core, MAX_MOMENT, Reply};
use rules_reader::compile;
use std::alloc::{AllocError, Global};
use tokens::Tokens;

/// A line, and its answer.
pub(crate) type Row = (&'static str, &'static str);

/// Why a test does not go on: a line that was answered otherwise than it should be, or want of memory.
pub(crate) type Trouble = &'static str;

/// Memory was wanting beside the step that a test is about.
pub(crate) const WANT_OF_MEMORY: Trouble = "NoMemory";

/// All is granted.
pub(crate) const OPEN: &str = r#"{"rules":{".read":true,".write":true}}"#;

/// What is answered where nothing is to be told, and where memory is wanting.
pub(crate) const OK: &str = r#"{"ok":true}"#;

pub(crate) const NO_MEMORY: &str = r#"{"code":601,"name":"NoMemory","ok":false}"#;

/// Session 1 is opened.
pub(crate) const OPENED: Row = (r#"{"do":"open","now":1,"s":1}"#, OK);

// The tokens of two people, of whom the first may deploy.
const TOKENS: &str =
    r#"{"tokens":{"k":{"uid":"ann","provider":"custom","admin":true},"b":{"uid":"bob","provider":"custom"}}}"#;

/// The tokens of two people.
pub(crate) fn two_tokens(alloc: Global) -> Result<Tokens, Trouble> {
    Tokens::read(alloc, TOKENS.as_bytes())
        .ok()
        .ok_or(WANT_OF_MEMORY)
}

/// A database under these rules, without a tree and without a session.
pub(crate) fn core_under(alloc: Global, file: &str) -> Result<Core, Trouble> {
    let rules = compile(alloc, file.as_bytes()).ok().ok_or(WANT_OF_MEMORY)?;
    Core::new(alloc, rules, None).ok().ok_or(WANT_OF_MEMORY)
}

/// What a line asks. Each line of these tests asks something.
pub(crate) fn asked(alloc: Global, tokens: &Tokens, line: &str) -> Result<Asked, Trouble>
    ensures { IfOk result (λ asked. asked.stamp.now ≤ MAX_MOMENT) }
{
    match read_asked(alloc, tokens, line.as_bytes(), Form::Script) {
        Ok(asked) => Ok(asked),
        Err(_) => Err(WANT_OF_MEMORY),
    }
}

/// The text of a reply.
pub(crate) fn text_of(alloc: Global, reply: &Reply) -> Result<Vec<u8>, Trouble> {
    write_reply(alloc, reply).ok().ok_or(WANT_OF_MEMORY)
}

/// A text with a piece in the place of each sign `@`.
pub(crate) fn filled(alloc: Global, text: &str, piece: &str) -> Result<String, Trouble> {
    with_pieces(alloc, text, piece).ok().ok_or(WANT_OF_MEMORY)
}

fn with_pieces(alloc: Global, text: &str, piece: &str) -> Result<String, AllocError> {
    let mut out = String::new(alloc);
    for (index, part) in text.split('@').enumerate() {
        if index > 0 {
            out.push_str(piece)?;
        }
        out.push_str(part)?;
    }
    Ok(out)
}
