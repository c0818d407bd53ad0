//! The writers of entries.
ghost use Rattle.std.specs.Prelude.{◌≡◌, ◌≤◌, ◌++◌, [], None, Ok, codes, option_map, IfOk};
ghost use Rattle.evaluator.specs.declared.env.TheConstants.{MAX_MOMENT};
ghost use Rattle.rtdb_model.specs.declared.event.Event.{Event as AnyEvent};
ghost use Rattle.requests.specs.declared.message.Form.TheVariants.{Socket};
ghost use Rattle.requests.specs.declared.message.Request.{Request};
ghost use Rattle.requests.specs.Message.{asks};
ghost use Rattle.requests.specs.Ask.{ComesTo};
ghost use Rattle.entries.specs.Entry.{Means, rules, tree, begin, session, action, call, numbered, deployed_text, deed_event};
ghost use Rattle.entries.specs.Working.Telling.{IsDeed};

use crate::entry::Deed;
use crate::identity::identity_to_json;
use crate::json_text::text_of;
use crate::numbers::push_number;
use crate::session::session_to_json;
use crate::writes::writes_to_json;
use evaluator::{Identity, MAX_MOMENT};
use json_tree::NoMemory;
use path_capture::Write;
use std::alloc::Global;

/// The entry of the rules file in force: the first of a snapshot.
pub fn rules_entry(alloc: Global, text: &str) -> Result<Vec<u8>, NoMemory>
    ensures { IfOk result (λ entry. Means entry.items (rules text.now)) }
{
    joined(alloc, b"rules ", text.as_bytes())
}

/// The entry of the next bytes of the JSON text of the tree. They may end inside of a character.
pub fn tree_entry(alloc: Global, piece: &[u8]) -> Result<Vec<u8>, NoMemory>
    ensures { IfOk result (λ entry. Means entry.items (tree piece.now)) }
{
    joined(alloc, b"tree ", piece)
}

/// The entry that ends a tree.
pub fn begin_entry(alloc: Global) -> Result<Vec<u8>, NoMemory>
    ensures { IfOk result (λ entry. Means entry.items begin) }
{
    joined(alloc, b"begin", b"")
}

/// The entry of a session that is open. It takes about as much memory as the text of the identity has bytes, three
/// times.
pub fn session_entry(
    alloc: Global,
    number: u64,
    who: Option<&Identity>,
    is_leaving: bool,
) -> Result<Vec<u8>, NoMemory>
    ensures { IfOk result (λ entry. Means entry.items (session number is_leaving (option_map (λ who. who.now) who.entry))) }
{
    let value = session_to_json(alloc, who, is_leaving)?;
    let json = text_of(alloc, &value)?;
    with_number(alloc, b"session ", number, json.as_slice())
}

/// The entry of one action more of a session, in the order of its writes that is given.
pub fn action_entry(alloc: Global, number: u64, writes: &[Write]) -> Result<Vec<u8>, NoMemory>
    ensures { IfOk result (λ entry. Means entry.items (action number writes.now)) }
{
    let value = writes_to_json(alloc, writes)?;
    let json = text_of(alloc, &value)?;
    with_number(alloc, b"action ", number, json.as_slice())
}

/// The entry of a deed of a session at a moment.
pub fn deed_entry(
    alloc: Global,
    now: u64,
    session: u64,
    deed: Deed<'_>,
) -> Result<Vec<u8>, NoMemory>
    requires { now ≤ MAX_MOMENT }
    ensures { IfOk result (λ entry. Means entry.items (call (record { now = now; session = session; event = deed_event deed.entry }) None)) }
{
    let told = told_deed(alloc, deed)?;
    with_stamp(alloc, now, session, told.as_slice())
}

/// The entry of a message that a session was sent at a moment, as it came. It says what the message asks for where
/// nobody has a token: of one that signs in by a secret it says nothing, and such a message is not to be written.
pub fn message_entry(
    alloc: Global,
    now: u64,
    session: u64,
    message: &[u8],
) -> Result<Vec<u8>, NoMemory>
    requires { now ≤ MAX_MOMENT }
    ensures { IfOk result (λ entry. (request : Request) (event : AnyEvent) → asks (Socket (record { now = now; session = session })) message.now ≡ Ok request → ComesTo [] request.wanted event → Means entry.items (call (record { now = now; session = session; event = event }) (deployed_text request.wanted))) }
{
    with_stamp(alloc, now, session, message)
}

// What a deed is told by.
fn told_deed(alloc: Global, deed: Deed<'_>) -> Result<Vec<u8>, NoMemory>
    ensures { IfOk result (λ told. IsDeed told.items deed.entry) }
{
    match deed {
        Deed::Open => joined(alloc, b"open", b""),
        Deed::Close => joined(alloc, b"close", b""),
        Deed::Leave => joined(alloc, b"leave", b""),
        Deed::RunNext => joined(alloc, b"runnext", b""),
        Deed::SignIn(who) => told_sign_in(alloc, who),
    }
}

fn told_sign_in(alloc: Global, who: &Identity) -> Result<Vec<u8>, NoMemory>
    ensures { IfOk result (λ told. IsDeed told.items (Deed.SignIn who.entry)) }
{
    let value = identity_to_json(alloc, who)?;
    let json = text_of(alloc, &value)?;
    joined(alloc, b"signin ", json.as_slice())
}

fn joined(alloc: Global, front: &[u8], rest: &[u8]) -> Result<Vec<u8>, NoMemory>
    ensures { IfOk result (λ text. text.items ≡ front.now ++ rest.now) }
{
    let mut text = Vec::with_capacity(alloc, front.len().saturating_add(rest.len()))?;
    text.extend_from_slice(front)?;
    text.extend_from_slice(rest)?;
    Ok(text)
}

fn with_number(alloc: Global, front: &[u8], number: u64, rest: &[u8]) -> Result<Vec<u8>, NoMemory>
    ensures { IfOk result (λ text. text.items ≡ front.now ++ numbered number rest.now) }
{
    let mut text = Vec::with_capacity(alloc, rest.len().saturating_add(USUAL_FRONT_BYTES))?;
    text.extend_from_slice(front)?;
    push_number(&mut text, number)?;
    text.extend_from_slice(rest)?;
    Ok(text)
}

fn with_stamp(alloc: Global, now: u64, session: u64, told: &[u8]) -> Result<Vec<u8>, NoMemory>
    ensures { IfOk result (λ text. text.items ≡ numbered now (numbered session told.now)) }
{
    let mut text = Vec::with_capacity(alloc, told.len().saturating_add(USUAL_FRONT_BYTES))?;
    push_number(&mut text, now)?;
    push_number(&mut text, session)?;
    text.extend_from_slice(told)?;
    Ok(text)
}

// For how many bytes a text has room before what a session did or is: a moment has 13 digits, a session a few.
const USUAL_FRONT_BYTES: usize = 24;
