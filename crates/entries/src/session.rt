//! An open session as JSON, both ways.
ghost use Rattle.std.specs.Prelude.{◌≡◌, ◌≤◌, Some, option_map, IfOk};
ghost use Rattle.serde_json.specs.Data.{depth};
ghost use Rattle.serde_json.specs.View.{view};
ghost use Rattle.entries.specs.Entry.{session_in};
ghost use Rattle.entries.specs.Working.Answers.{Gives};
ghost use Rattle.entries.specs.Working.Written.{session_data};

use crate::entry::EntryFault;
use crate::identity::{who_of, who_to_json};
use evaluator::Identity;
use json_tree::NoMemory;
use serde_json::{Map, Value};
use std::alloc::Global;

/// The value of a session.
pub(crate) fn session_to_json(
    alloc: Global,
    who: Option<&Identity>,
    is_leaving: bool,
) -> Result<Value, NoMemory>
    ensures value { IfOk result (λ value. session_in (view value) ≡ Some (is_leaving, option_map (λ who. who.now) who.entry)) }
    ensures depth { IfOk result (λ value. depth (view value) ≤ 4) }
{
    let who = who_to_json(alloc, who)?;
    object_of(alloc, who, is_leaving)
}

fn object_of(alloc: Global, who: Value, is_leaving: bool) -> Result<Value, NoMemory>
    ensures { IfOk result (λ value. view value ≡ session_data is_leaving (view who)) }
{
    let mut members = Map::new(alloc);
    serde_json::put(&mut members, alloc, "leaving", Value::Bool(is_leaving))?;
    serde_json::put(&mut members, alloc, "who", who)?;
    Ok(Value::Object(members))
}

/// The session that a value is: whether it is leaving, and who is signed in.
pub(crate) fn session_of(
    alloc: Global,
    value: &Value,
) -> Result<(bool, Option<Identity>), EntryFault>
    ensures { Gives (λ session. session) result (session_in (view value.now)) }
{
    let Some(is_leaving) = value.get("leaving").and_then(Value::as_bool) else {
        return Err(EntryFault::NotAnEntry);
    };
    let Some(who) = value.get("who") else {
        return Err(EntryFault::NotAnEntry);
    };
    let who = who_of(alloc, who)?;
    Ok((is_leaving, who))
}
