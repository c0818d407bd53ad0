//! What to do about tokens that are not lawful.
//!
//! A name is repeated only where it is known that it is not a secret.

use super::near::nearest;
use super::sort_of;
use json_tree::{NoMemory, ValueFault, from_json};
use serde_json::{Map, Value};
use std::alloc::Global;
use tree_model::MAX_TEXT_BYTES;

const FRAME: &str = "{ \"tokens\": { .. } }";

// The members of a token.
const PARTS: [&str; 4] = ["uid", "provider", "admin", "claims"];

/// What to do about a file that has no tokens.
pub(crate) fn advice_on_no_tokens(
    alloc: Global,
    whole: &Value,
) -> Result<Option<String>, NoMemory> {
    if !whole.is_object() {
        return Ok(Some(format!(in alloc;
            "the file is {}, and should be an object: {FRAME}",
            sort_of(whole)
        )?));
    }
    if whole.get("tokens").is_none() {
        return Ok(Some(format!(in alloc; "`tokens` is missing: write {FRAME}")?));
    }
    Ok(None)
}

/// What to do about a member that has a wrong name, the last of those that lead to it.
pub(crate) fn advice_on_token_name(
    alloc: Global,
    whole: &Value,
    names: &[String],
) -> Result<Option<String>, NoMemory> {
    match names {
        [top] => advice_on_top(alloc, whole, top.as_str()),
        [_, secret] => advice_on_secret(alloc, secret.as_str()),
        [_, _, part] => advice_on_part(alloc, part.as_str()),
        _ => Ok(None),
    }
}

// What to do about a member of the file other than `tokens`.
fn advice_on_top(alloc: Global, whole: &Value, name: &str) -> Result<Option<String>, NoMemory> {
    if name == "tokens" {
        return Ok(None);
    }
    if whole.get("tokens").is_some() {
        return Ok(Some(String::from_str(
            alloc,
            "nothing may stand beside `tokens`: a secret stands inside of it",
        )?));
    }
    if nearest(name, &["tokens"]).is_some() {
        return Ok(Some(format!(in alloc; "`{name}` is unknown here: did you mean `tokens`?")?));
    }
    Ok(Some(format!(in alloc; "`tokens` is missing: put the secrets inside of {FRAME}")?))
}

fn advice_on_secret(alloc: Global, secret: &str) -> Result<Option<String>, NoMemory> {
    if secret.is_empty() {
        return Ok(Some(String::from_str(alloc, "a secret may not be empty")?));
    }
    if secret.len() > MAX_TEXT_BYTES {
        return Ok(Some(format!(in alloc;
            "this secret has {} bytes, and a secret has {MAX_TEXT_BYTES} at most",
            secret.len()
        )?));
    }
    Ok(None)
}

// What to do about a member that no token may have.
fn advice_on_part(alloc: Global, name: &str) -> Result<Option<String>, NoMemory> {
    if PARTS.contains(&name) {
        return Ok(None);
    }
    if let Some(part) = nearest(name, &PARTS) {
        return Ok(Some(format!(in alloc; "this is unknown here: did you mean `{part}`?")?));
    }
    Ok(Some(String::from_str(
        alloc,
        "a token has `uid`, `provider`, `admin` and `claims` alone: put what else is known of somebody inside of `claims`",
    )?))
}

/// What to do about what a member has, to which these names lead.
pub(crate) fn advice_on_token_value(
    alloc: Global,
    names: &[String],
    value: &Value,
) -> Result<Option<String>, NoMemory> {
    match names {
        [_] => if value.is_object() {
            Ok(None)
        } else {
            Ok(Some(format!(in alloc;
                "`tokens` is {}, and should be an object: its names are secrets",
                sort_of(value)
            )?))
        },
        [_, _] => advice_on_identity(alloc, value),
        [_, _, part] => advice_on_part_value(alloc, part.as_str(), value),
        [_, _, part, _] => if part.as_str() == "claims" {
            advice_on_claim(alloc, value)
        } else {
            Ok(None)
        },
        _ => Ok(None),
    }
}

// What to do about what a secret signs in, unless one of its members has a wrong name.
fn advice_on_identity(alloc: Global, value: &Value) -> Result<Option<String>, NoMemory> {
    let Value::Object(members) = value else {
        return Ok(Some(format!(in alloc;
            "this is {}, and should be whom the secret signs in: {{ \"uid\": \"..\", \"provider\": \"..\" }}",
            sort_of(value)
        )?));
    };
    if !has_parts_alone(members) {
        return Ok(None);
    }
    for part in ["uid", "provider"].iter() {
        if value.get(*part).is_none() {
            return Ok(Some(format!(in alloc;
                "`{part}` is missing: write {{ \"uid\": \"..\", \"provider\": \"..\" }}"
            )?));
        }
    }
    Ok(None)
}

fn has_parts_alone(members: &Map<String, Value>) -> bool {
    for (name, _) in members.iter() {
        if !PARTS.contains(&name.as_str()) {
            return false;
        }
    }
    true
}

fn advice_on_part_value(
    alloc: Global,
    part: &str,
    value: &Value,
) -> Result<Option<String>, NoMemory> {
    let wanted = match (part, value) {
        ("uid" | "provider", Value::String(text)) => return advice_on_length(
            alloc,
            part,
            text.len(),
        ),
        ("admin", Value::Bool(_)) | ("claims", Value::Object(_)) => return Ok(None),
        ("admin", _) => "true or false",
        ("claims", _) => "an object",
        _ => "a text",
    };
    Ok(Some(format!(in alloc; "`{part}` is {}, and should be {wanted}", sort_of(value))?))
}

fn advice_on_length(alloc: Global, part: &str, length: usize) -> Result<Option<String>, NoMemory> {
    if length <= MAX_TEXT_BYTES {
        return Ok(None);
    }
    Ok(Some(format!(in alloc;
        "`{part}` has {length} bytes, and a text has {MAX_TEXT_BYTES} at most"
    )?))
}

fn advice_on_claim(alloc: Global, value: &Value) -> Result<Option<String>, NoMemory> {
    if value.is_object() || value.is_array() {
        return Ok(Some(format!(in alloc;
            "a claim is {}, and should be true, false, a whole number or a text",
            sort_of(value)
        )?));
    }
    match from_json(alloc, value) {
        Ok(_) | Err(ValueFault::TooDeep) => Ok(None),
        Err(ValueFault::NoMemory) => Err(NoMemory),
        Err(ValueFault::BadValue) => if value.is_number() {
            Ok(Some(String::from_str(
                alloc,
                "a claim is a whole number from -9,007,199,254,740,991 to 9,007,199,254,740,991, without a point or an exponent",
            )?))
        } else {
            Ok(Some(format!(in alloc; "a claim has {MAX_TEXT_BYTES} bytes at most")?))
        },
    }
}
