//! Where something is written in the text of a rules file, as reading the text with something else there shows.
ghost use Rattle.std.specs.Prelude.{◌≡◌, ◌++◌, ◌∷◌, [], map, IfSome, true, false, nat_le, length, if◌then◌else◌, Some, None, option_map, string_bytes, codes, IfOk, is_some, ◌&&◌};
ghost use Rattle.serde_json.specs.View.{view};
ghost use Rattle.serde_json.specs.Data.{string, null};
ghost use Rattle.rules_reader.specs.File.{json_of};
ghost use Rattle.diagnosis.specs.Written.{value_at, text_at, between, with_between, other_name, IsWrittenAt, IsNamedAt, IsReadFrom, IsQuoted, IsSplitAt};

use json_tree::NoMemory;
use rules_reader::MAX_FILE_BYTES;
use serde_json::Value;
use std::alloc::Global;

/// The JSON value of a text, if it is one of at most as many bytes as a rules file may have.
pub(crate) fn read_text(alloc: Global, text: &[u8]) -> Result<Option<Value>, NoMemory>
    ensures { IfOk result (λ value. option_map (λ v. view v) value ≡ json_of text.now) }
{
    if text.len() > MAX_FILE_BYTES {
        return Ok(None);
    }
    match Value::from_slice(alloc, text) {
        Ok(value) => Ok(Some(value)),
        Err(error) => if error.is_memory() {
            Err(NoMemory)
        } else {
            Ok(None)
        },
    }
}

/// What stands in a value at a path of names.
#[tactic(auto, unfolding(crate::specs::Written::value_at))]
pub(crate) fn value_at<'v>(value: &'v Value, path: &[String]) -> Option<&'v Value>
    ensures { option_map (λ v. view v.now) result ≡ value_at (map string_bytes path.now) (view value.now) }
{
    match path {
        [] => Some(value),
        [name, names @ ..] => value_at(value.get(name.as_str())?, names),
    }
}

/// The bytes between two places, where these are places of the text, one not before the other.
pub(crate) fn between(text: &[u8], from: usize, to: usize) -> Option<&[u8]>
    ensures { option_map (λ bytes. bytes.now) result ≡ (if nat_le from to && nat_le to (length text.now) then Some (between text.now from to) else None) }
{
    if from > to || to > text.len() {
        return None;
    }
    let (front, _) = text.split_at(to);
    Some(front.split_at(from).1)
}

// The text with these bytes in the place of those between two places, where these are places of the text.
fn with_between(
    alloc: Global,
    text: &[u8],
    from: usize,
    to: usize,
    bytes: &[u8],
) -> Result<Option<Vec<u8>>, NoMemory>
    ensures { IfOk result (λ found. option_map (λ other. other.items) found ≡ (if nat_le from (length text.now) && nat_le to (length text.now) then Some (with_between text.now from to bytes.now) else None)) }
{
    if from > text.len() || to > text.len() {
        return Ok(None);
    }
    let mut other = Vec::from_slice(alloc, text.split_at(from).0)?;
    other.extend_from_slice(bytes)?;
    other.extend_from_slice(text.split_at(to).1)?;
    Ok(Some(other))
}

// Whether a text is a JSON text of these words.
fn says(alloc: Global, text: &[u8], said: &str) -> Result<bool, NoMemory>
    ensures { IfOk result (λ does. does ≡ true → json_of text.now ≡ Some (string said.now)) }
{
    match read_text(alloc, text)? {
        Some(Value::String(words)) => Ok(words.as_str() == said),
        _ => Ok(false),
    }
}

/// Whether these words stand at a path and are written between two places. It reads the text twice, and once with
/// `null` in the place of what stands between the places.
pub(crate) fn is_written_at(
    alloc: Global,
    text: &[u8],
    path: &[String],
    said: &str,
    places: (usize, usize),
) -> Result<bool, NoMemory>
    ensures { IfOk result (λ is. is ≡ true → IsWrittenAt text.now (map string_bytes path.now) said.now places.0 places.1) }
{
    let (from, to) = places;
    Ok(
        is_quoted(alloc, text, said, from, to)?
            && stands_at(alloc, text, path, said)?
            && would_be_null(alloc, text, path, from, to)?,
    )
}

// Whether the bytes between two places begin with a quote and are these words by themselves.
fn is_quoted(
    alloc: Global,
    text: &[u8],
    said: &str,
    from: usize,
    to: usize,
) -> Result<bool, NoMemory>
    ensures { IfOk result (λ is. is ≡ true → IsQuoted text.now said.now from to) }
{
    if from >= to || text.get(from) != Some(&b'"') {
        return Ok(false);
    }
    match between(text, from, to) {
        Some(bytes) => says(alloc, bytes, said),
        None => Ok(false),
    }
}

// Whether these words stand at a path of a text.
fn stands_at(alloc: Global, text: &[u8], path: &[String], said: &str) -> Result<bool, NoMemory>
    ensures { IfOk result (λ does. does ≡ true → text_at (map string_bytes path.now) text.now ≡ Some (string said.now)) }
{
    let Some(whole) = read_text(alloc, text)? else {
        return Ok(false);
    };
    match value_at(&whole, path) {
        Some(Value::String(words)) => Ok(words.as_str() == said),
        _ => Ok(false),
    }
}

// Whether null would stand at a path, were it written between two places.
fn would_be_null(
    alloc: Global,
    text: &[u8],
    path: &[String],
    from: usize,
    to: usize,
) -> Result<bool, NoMemory>
    ensures { IfOk result (λ would. would ≡ true → text_at (map string_bytes path.now) (with_between text.now from to (codes "null")) ≡ Some null) }
{
    let Some(other) = with_between(alloc, text, from, to, b"null")? else {
        return Ok(false);
    };
    let Some(whole) = read_text(alloc, &other)? else {
        return Ok(false);
    };
    match value_at(&whole, path) {
        Some(Value::Null) => Ok(true),
        _ => Ok(false),
    }
}

/// Whether a member of the object at a path has its name written between two places. It reads the text, and once more
/// with another name there.
pub(crate) fn is_named_at(
    alloc: Global,
    text: &[u8],
    path: &[String],
    name: &str,
    places: (usize, usize),
) -> Result<bool, NoMemory>
    ensures { IfOk result (λ is. is ≡ true → IsNamedAt text.now (map string_bytes path.now) name.now places.0 places.1) }
{
    let (from, to) = places;
    if !is_quoted(alloc, text, name, from, to)? || has_other(alloc, text, path)? {
        return Ok(false);
    }
    match with_between(alloc, text, from, to, b"\"..\"")? {
        Some(other) => has_other(alloc, &other, path),
        None => Ok(false),
    }
}

// The name that no member of a rules file may have.
const OTHER_NAME: &str = "..";

// Whether the object at a path of a text has a member of the other name.
fn has_other(alloc: Global, text: &[u8], path: &[String]) -> Result<bool, NoMemory>
    ensures { IfOk result (λ has. has ≡ is_some (text_at (map string_bytes path.now ++ other_name ∷ []) text.now)) }
{
    match read_text(alloc, text)? {
        Some(whole) => Ok(other_of(&whole, path).is_some()),
        None => Ok(false),
    }
}

// The member of the other name of the object at a path of a value.
#[tactic(auto, using(crate::proofs::Paths::value_behind))]
fn other_of<'v>(value: &'v Value, path: &[String]) -> Option<&'v Value>
    ensures { option_map (λ v. view v.now) result ≡ value_at (map string_bytes path.now ++ other_name ∷ []) (view value.now) }
{
    value_at(value, path)?.get(OTHER_NAME)
}

/// The place from which a byte of what is said was read, where what is said is written between two places. It tries
/// the places one after another, and reads what is written before each and behind it.
pub(crate) fn place_of_byte(
    alloc: Global,
    text: &[u8],
    places: (usize, usize),
    said: &str,
    byte: usize,
) -> Result<Option<usize>, NoMemory>
    ensures { IfOk result (λ place. IfSome place (IsReadFrom text.now places.0 places.1 said.now byte)) }
{
    let (from, to) = places;
    let Some((before, behind)) = said.split_at_checked(byte) else {
        return Ok(None);
    };
    for place in from..to {
        if is_read_from(alloc, text, places, (before, behind), place)? {
            return Ok(Some(place));
        }
    }
    Ok(None)
}

// Whether what is written between two places says the one behind the place, and the other before it.
fn is_read_from(
    alloc: Global,
    text: &[u8],
    places: (usize, usize),
    parts: (&str, &str),
    place: usize,
) -> Result<bool, NoMemory>
    ensures { IfOk result (λ is. is ≡ true → IsSplitAt text.now places.0 places.1 parts.entry.0.now parts.entry.1.now place) }
{
    let (from, to) = places;
    if place <= from || place >= to {
        return Ok(false);
    }
    let (Some(front), Some(rest)) = (between(text, from, place), between(text, place, to)) else {
        return Ok(false);
    };
    let mut closed = Vec::from_slice(alloc, front)?;
    closed.push(b'"')?;
    if !says(alloc, &closed, parts.0)? {
        return Ok(false);
    }
    let mut opened = Vec::from_slice(alloc, b"\"")?;
    opened.extend_from_slice(rest)?;
    says(alloc, &opened, parts.1)
}
