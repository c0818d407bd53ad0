//! Values, locations and paths, in words.

use arena_snapshot::View;
use evaluator::{Meaning, Snapshot, Value};
use json_tree::{Key, Leaf, NoMemory};
use std::alloc::Global;

// How many characters of a text are shown.
const MOST_SHOWN: usize = 60;

/// What a part of an expression means, in words.
pub(crate) fn meaning_in_words(
    alloc: Global,
    meaning: Option<Meaning<'_>>,
    text: &mut String,
) -> Result<(), NoMemory> {
    match meaning {
        None => text.push_str("an error")?,
        Some(Meaning::Value(value)) => put_value(alloc, value, text)?,
        Some(Meaning::Snapshot(snapshot)) => put_location(alloc, snapshot, text)?,
        Some(Meaning::Auth(None)) | Some(Meaning::Token(None)) => text.push_str("null")?,
        Some(Meaning::Auth(Some(who))) => {
            text.push_str("who is signed in, ")?;
            put_text(who.uid(), text)?;
        }
        Some(Meaning::Token(Some(_))) => text.push_str("the claims of who is signed in")?,
        Some(Meaning::Query(_)) => text.push_str("the query")?,
    }
    Ok(())
}

fn put_value(alloc: Global, value: Value<'_>, text: &mut String) -> Result<(), NoMemory> {
    match value {
        Value::Null => text.push_str("null")?,
        Value::Truth(true) => text.push_str("true")?,
        Value::Truth(false) => text.push_str("false")?,
        Value::Whole(number) => text.push_str(format!(in alloc; "{number}")?.as_str())?,
        Value::Words(words) => put_text(words, text)?,
        Value::Sentinel | Value::Record => text.push_str("an object")?,
    }
    Ok(())
}

// A location, with what is stored there.
fn put_location(alloc: Global, snapshot: &Snapshot<'_>, text: &mut String) -> Result<(), NoMemory> {
    put_snapshot_path(snapshot, text)?;
    match snapshot.view() {
        None => text.push_str(", where nothing is stored")?,
        Some(view) => put_stored(alloc, &view, text)?,
    }
    Ok(())
}

fn put_stored(alloc: Global, view: &View<'_>, text: &mut String) -> Result<(), NoMemory> {
    match view.leaf() {
        Some(leaf) => {
            text.push_str(", where ")?;
            put_leaf(alloc, leaf, text)?;
            text.push_str(" is stored")?;
        }
        None => match view.width() {
            1 => text.push_str(", which has 1 child")?,
            count => text.push_str(format!(in alloc; ", which has {count} children")?.as_str())?,
        },
    }
    Ok(())
}

fn put_leaf(alloc: Global, leaf: &Leaf, text: &mut String) -> Result<(), NoMemory> {
    match leaf {
        Leaf::Truth(true) => text.push_str("true")?,
        Leaf::Truth(false) => text.push_str("false")?,
        Leaf::Whole(number) => {
            let number = number.value();
            text.push_str(format!(in alloc; "{number}")?.as_str())?;
        }
        Leaf::Words(words) => put_text(words.as_str(), text)?,
    }
    Ok(())
}

// A text in quotation marks, its control characters as spaces, and no more than 60 of its characters.
fn put_text(words: &str, text: &mut String) -> Result<(), NoMemory> {
    text.push('"')?;
    for (count, letter) in words.chars().enumerate() {
        if count == MOST_SHOWN {
            text.push_str("...")?;
            break;
        }
        text.push(if letter.is_control() { ' ' } else { letter })?;
    }
    text.push('"')?;
    Ok(())
}

// The path of a location, as `/a/b`.
fn put_snapshot_path(snapshot: &Snapshot<'_>, text: &mut String) -> Result<(), NoMemory> {
    match snapshot.depth() {
        0 => {
            text.push('/')?;
            Ok(())
        }
        depth => put_keys(snapshot, depth, text),
    }
}

// The keys of a location, no more than this many.
fn put_keys(snapshot: &Snapshot<'_>, depth: usize, text: &mut String) -> Result<(), NoMemory> {
    if depth == 0 {
        return Ok(());
    }
    if let Some(above) = snapshot.parent() {
        put_keys(above, depth - 1, text)?;
    }
    if let Some(key) = snapshot.key() {
        text.push('/')?;
        put_plain(key, text)?;
    }
    Ok(())
}

/// A path by its keys, as `/a/b`, the root as `/`.
pub(crate) fn put_path(keys: &[&Key], text: &mut String) -> Result<(), NoMemory> {
    if keys.is_empty() {
        text.push('/')?;
    }
    for key in keys {
        text.push('/')?;
        put_plain(key.text(), text)?;
    }
    Ok(())
}

/// Words, each control character as a space.
pub(crate) fn put_plain(words: &str, text: &mut String) -> Result<(), NoMemory> {
    for letter in words.chars() {
        text.push(if letter.is_control() { ' ' } else { letter })?;
    }
    Ok(())
}
