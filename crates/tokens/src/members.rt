//! The members of an object, by their names.
ghost use Rattle.std.specs.Prelude.{◌≡◌, ◌≤◌, length, map, option_map, IfSome};
ghost use Rattle.std.specs.List.{list_all, list_any};
ghost use Rattle.std.specs.Str.{bytes_eq};
ghost use Rattle.serde_json.specs.View.{view, members_view};
ghost use Rattle.tree_model.specs.Primitive.{is_text};
ghost use Rattle.tokens.specs.Tokens.{names_of, has_only, lawful_text_at};

use serde_json::{Map, Value};
use tree_model::MAX_TEXT_BYTES;

// Whether no member has another name.
pub(crate) fn has_only(value: &Value, lawful: &[&str]) -> bool
    ensures { result ≡ has_only (map (λ name. name.now) lawful.now) (view value.now) }
{
    match value.as_object() {
        Some(members) => are_among(members, lawful),
        None => true,
    }
}

fn are_among(members: &Map<String, Value>, lawful: &[&str]) -> bool
    ensures { result ≡ list_all (λ name. list_any (bytes_eq name) (map (λ other. other.now) lawful.now))
        (names_of (members_view members.now.entries)) }
{
    for (name, _) in members.iter() {
        if !is_among(name.as_str(), lawful) {
            return false;
        }
    }
    true
}

fn is_among(name: &str, lawful: &[&str]) -> bool
    ensures { result ≡ list_any (bytes_eq name.now) (map (λ other. other.now) lawful.now) }
{
    for other in lawful {
        if name == *other {
            return true;
        }
    }
    false
}

// A member that is a text of at most 65,536 bytes.
pub(crate) fn lawful_text_at<'a>(value: &'a Value, name: &str) -> Option<&'a str>
    ensures text { option_map (λ text. text.now) result ≡ lawful_text_at name.now (view value.now) }
    ensures within { IfSome result (λ text. length text.now ≤ MAX_TEXT_BYTES) }
{
    let text = value.get(name).and_then(Value::as_str)?;
    if is_lawful_text(text) {
        Some(text)
    } else {
        None
    }
}

pub(crate) fn is_lawful_text(text: &str) -> bool
    ensures { result ≡ is_text text.now }
{
    text.len() <= MAX_TEXT_BYTES
}
