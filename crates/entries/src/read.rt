//! The reader of entries.
ghost use Rattle.std.specs.Prelude.{◌≡◌, ◌++◌, codes, option_and_then, IfOk, IsErrOf, IfSome, IfNone, Some, None};
ghost use Rattle.tokens.specs.Tokens.{json_of};
ghost use Rattle.entries.specs.Identity.{identity_in};
ghost use Rattle.entries.specs.Writes.{writes_in};
ghost use Rattle.entries.specs.Entry.{Meaning, Means, Tells, IsSent, event_named, session_in, meaning_of};
ghost use Rattle.entries.specs.Working.Answers.{Gives};
ghost use Rattle.entries.specs.Working.Telling.{Reads, MeansCall, IsWanted};

use crate::entry::{Entry, EntryFault};
use crate::identity::identity_of;
use crate::items::{behind, same};
use crate::json_text::value_of;
use crate::numbers::number_before;
use crate::session::session_of;
use crate::writes::writes_of;
use evaluator::{Identity, MAX_MOMENT};
use json_lines::MessageFault;
use path_capture::Write;
use requests::{Form, MessageReader, Stamp, Text, Wanted};
use rtdb_model::{Event, Writes};
use rules_reader::{RulesFault, compile};
use std::alloc::Global;
use std::str;

/// What an entry means, or that it means nothing. It takes the memory of what is read, and once more that of its JSON
/// value; of a message what [`MessageReader::read_request`] takes, and of a deployment what [`compile`] does.
pub fn read_entry<'a>(
    alloc: Global,
    reader: &mut MessageReader,
    bytes: &'a [u8],
) -> Result<Entry<'a>, EntryFault>
    ensures means { IfOk result (λ entry. Means bytes.now (meaning_of entry)) }
    ensures nothing { IsErrOf result EntryFault.NotAnEntry → (meaning : Meaning) → Means bytes.now meaning → ⊥ }
{
    if let Some(text) = behind(bytes, b"rules ") {
        return rules_entry(text);
    }
    if let Some(piece) = behind(bytes, b"tree ") {
        return Ok(Entry::Tree(piece));
    }
    if same(bytes, b"begin") {
        return Ok(Entry::Begin);
    }
    if let Some(rest) = behind(bytes, b"session ") {
        return session_entry(alloc, rest);
    }
    if let Some(rest) = behind(bytes, b"action ") {
        return action_entry(alloc, rest);
    }
    call_entry(alloc, reader, bytes)
}

fn rules_entry(text: &[u8]) -> Result<Entry<'_>, EntryFault>
    ensures { Reads meaning_of (Means (codes "rules " ++ text.now)) result }
{
    match str::from_utf8(text) {
        Ok(text) => Ok(Entry::Rules(text)),
        Err(_) => Err(EntryFault::NotAnEntry),
    }
}

// ---- sessions and their actions

fn session_entry(alloc: Global, rest: &[u8]) -> Result<Entry<'_>, EntryFault>
    ensures { Reads meaning_of (Means (codes "session " ++ rest.now)) result }
{
    let Some((number, json)) = number_before(rest) else {
        return Err(EntryFault::NotAnEntry);
    };
    let (is_leaving, who) = session_in(alloc, json)?;
    Ok(Entry::Session {
        number,
        is_leaving,
        who,
    })
}

fn session_in(alloc: Global, json: &[u8]) -> Result<(bool, Option<Identity>), EntryFault>
    ensures { Gives (λ session. session) result (option_and_then session_in (json_of json.now)) }
{
    let value = value_of(alloc, json)?;
    session_of(alloc, &value)
}

fn action_entry(alloc: Global, rest: &[u8]) -> Result<Entry<'_>, EntryFault>
    ensures { Reads meaning_of (Means (codes "action " ++ rest.now)) result }
{
    let Some((number, json)) = number_before(rest) else {
        return Err(EntryFault::NotAnEntry);
    };
    let writes = writes_in(alloc, json)?;
    Ok(Entry::Action {
        number,
        writes: Writes::of_vec(writes),
    })
}

fn writes_in(alloc: Global, json: &[u8]) -> Result<Vec<Write>, EntryFault>
    ensures { Gives (λ writes. writes.items) result (option_and_then writes_in (json_of json.now)) }
{
    let value = value_of(alloc, json)?;
    writes_of(alloc, &value)
}

// ---- calls

fn call_entry<'a>(
    alloc: Global,
    reader: &mut MessageReader,
    bytes: &'a [u8],
) -> Result<Entry<'a>, EntryFault>
    ensures { Reads meaning_of (MeansCall bytes.now) result }
{
    let Some((now, rest)) = number_before(bytes) else {
        return Err(EntryFault::NotAnEntry);
    };
    if now > MAX_MOMENT {
        return Err(EntryFault::NotAnEntry);
    }
    let Some((session, told)) = number_before(rest) else {
        return Err(EntryFault::NotAnEntry);
    };
    let (event, rules) = told_event(alloc, reader, Stamp { now, session }, told)?;
    Ok(Entry::Call {
        now,
        session,
        event,
        rules,
    })
}

// The event that is told of, and the text of the rules file that it deploys.
fn told_event(
    alloc: Global,
    reader: &mut MessageReader,
    stamp: Stamp,
    told: &[u8],
) -> Result<(Event, Option<Text>), EntryFault>
    ensures { Reads (λ event. event) (λ event. Tells stamp told.now event.0 event.1) result }
{
    if let Some(event) = event_named(told) {
        return Ok((event, None));
    }
    if let Some(json) = behind(told, b"signin ") {
        let who = identity_in(alloc, json)?;
        return Ok((Event::SignIn(who), None));
    }
    sent_event(alloc, reader, stamp, told)
}

fn event_named(word: &[u8]) -> Option<Event>
    ensures { result ≡ event_named word.now }
{
    if word == b"open".as_slice() {
        Some(Event::Open)
    } else if word == b"close".as_slice() {
        Some(Event::Close)
    } else if word == b"leave".as_slice() {
        Some(Event::Leave)
    } else if word == b"runnext".as_slice() {
        Some(Event::RunNext)
    } else {
        None
    }
}

fn identity_in(alloc: Global, json: &[u8]) -> Result<Identity, EntryFault>
    ensures { Gives (λ who. who) result (option_and_then identity_in (json_of json.now)) }
{
    let value = value_of(alloc, json)?;
    identity_of(alloc, &value)
}

// The event that a message of a socket asks for.
fn sent_event(
    alloc: Global,
    reader: &mut MessageReader,
    stamp: Stamp,
    message: &[u8],
) -> Result<(Event, Option<Text>), EntryFault>
    ensures { Reads (λ event. event) (λ event. IsSent stamp message.now event.0 event.1) result }
{
    match reader.read_request(message, Form::Socket(stamp)) {
        Ok(request) => wanted_event(alloc, request.wanted),
        Err(MessageFault::NoMemory) => Err(EntryFault::NoMemory),
        Err(_) => Err(EntryFault::NotAnEntry),
    }
}

// The event that is wanted where nobody has a token.
fn wanted_event(alloc: Global, wanted: Wanted) -> Result<(Event, Option<Text>), EntryFault>
    ensures { Reads (λ event. event) (IsWanted wanted) result }
{
    match wanted {
        Wanted::Step(event) => Ok((event, None)),
        Wanted::SignIn(_) => Err(EntryFault::NotAnEntry),
        Wanted::Deploy(text) => deployed(alloc, text),
    }
}

fn deployed(alloc: Global, text: Text) -> Result<(Event, Option<Text>), EntryFault>
    ensures { Reads (λ event. event) (IsWanted (Wanted.Deploy text)) result }
{
    match compile(alloc, text.as_str().as_bytes()) {
        Ok(rules) => {
            // No object of theirs has two captures.
            rules.root();
            Ok((Event::Deploy(rules), Some(text)))
        }
        Err(fault) => Err(fault_of_rules(&fault)),
    }
}

fn fault_of_rules(fault: &RulesFault) -> EntryFault
    ensures { result ≡ EntryFault.NotAnEntry → fault.now ≡ RulesFault.NoMemory → ⊥ }
{
    match fault {
        RulesFault::NoMemory => EntryFault::NoMemory,
        _ => EntryFault::NotAnEntry,
    }
}
