//! What to write in the place of an index in brackets.

use super::quotes::{around_sign, first_name, is_of_name, last_name, trimmed};
use json_tree::NoMemory;
use std::alloc::Global;

const FRONT: &str = "`[` is not in this language";

/// What to do about the first index in the text of a rule.
pub(super) fn advice_on_index(alloc: Global, text: &[u8]) -> Result<String, NoMemory> {
    let (front, rest) = around_sign(text, b'[', b"(,").unwrap_or((text, b""));
    let (key, behind) = parts_of(rest);
    let key = String::from_utf8_lossy(alloc, key)?;
    if let Some(receiver) = of_auth(front) {
        return advice_in_auth(alloc, receiver, &key);
    }
    if is_text(front) {
        return Ok(format!(in alloc;
            "{FRONT}: a text has no parts, and is compared as a whole, or by `beginsWith`, `contains` or `endsWith`"
        )?);
    }
    let is_received = matches!(behind.trim_ascii_start(), [b'.' | b'[', ..]);
    let end = if is_received { "" } else { ".val()" };
    advice_in_snapshot(
        alloc,
        trimmed(front).ends_with(b".val()"),
        end,
        key.as_str(),
    )
}

// How long an index is, in bytes, that is repeated.
const LONGEST_SHOWN: usize = 40;

// What to write in the place of an index into a snapshot, with `.val()` behind it or not, or into the value of one.
fn advice_in_snapshot(
    alloc: Global,
    is_behind_val: bool,
    end: &str,
    key: &str,
) -> Result<String, NoMemory> {
    let quote = if is_number(key.as_bytes()) { "'" } else { "" };
    let removed = if is_behind_val { ".val()" } else { "" };
    let is_plain = end.is_empty() && quote.is_empty() && !is_behind_val;
    if is_plain || key.len() > LONGEST_SHOWN {
        return Ok(format!(in alloc;
            "{FRONT}: write `.child(..)`, with what stands between the brackets"
        )?);
    }
    Ok(format!(in alloc;
        "{FRONT}: write `.child({quote}{key}{quote}){end}` for `{removed}[{key}]`"
    )?)
}

// What stands in the brackets with which these bytes begin, and what behind them.
fn parts_of(rest: &[u8]) -> (&[u8], &[u8]) {
    let (key, behind) = around_sign(rest, b']', &[]).unwrap_or((rest, b"]"));
    (but_first(key), but_first(behind))
}

fn but_first(bytes: &[u8]) -> &[u8] {
    match bytes {
        [_, rest @ ..] => rest,
        [] => bytes,
    }
}

fn is_number(key: &[u8]) -> bool {
    !key.is_empty() && key.iter().all(|byte| byte.is_ascii_digit())
}

// Whether these bytes end with a capture or with a text of `auth`.
fn is_text(front: &[u8]) -> bool {
    let front = trimmed(front);
    let name = last_name(front);
    let length = front.len().saturating_sub(name.len());
    let before = front
        .split_at_checked(length)
        .map_or(front, |parts| parts.0);
    before.ends_with(b"$") || before.ends_with(b"auth.")
}

// Of `auth`, its token or a claim, with which these bytes end, how it is written.
fn of_auth(front: &[u8]) -> Option<&str> {
    let front = trimmed(front);
    let begin = front.len().saturating_sub(length_of_names(front));
    let (_, names) = front.split_at_checked(begin)?;
    let is_claim = names.starts_with(b"auth.token.");
    if is_claim || matches!(names, b"auth" | b"auth.token") {
        str::from_utf8(names).ok()
    } else {
        None
    }
}

// How many of the last bytes are names and the dots between them.
fn length_of_names(front: &[u8]) -> usize {
    front
        .iter()
        .rev()
        .take_while(|byte| **byte == b'.' || is_of_name(**byte))
        .count()
}

// What to write in the place of an index into `auth`.
fn advice_in_auth(alloc: Global, receiver: &str, key: &str) -> Result<String, NoMemory> {
    let name = match key.as_bytes() {
        [b'\'' | b'"', name @ .., b'\'' | b'"'] => name,
        _ => b"",
    };
    match str::from_utf8(name) {
        Ok(name) if !name.is_empty() && first_name(name.as_bytes()).len() == name.len() => {
            let is_own = receiver == "auth" && matches!(name, "uid" | "provider" | "token");
            let above = if is_own { "auth" } else { "auth.token" };
            Ok(format!(in alloc; "{FRONT}: write `{above}.{name}` for `{receiver}[{key}]`")?)
        }
        _ => Ok(format!(in alloc;
            "{FRONT}: a claim is asked for by its name, as `auth.token.admin`"
        )?),
    }
}
