//! The members of a query, each by itself.
ghost use Rattle.std.specs.Prelude.{◌≡◌, true, codes, length, option_map, Some, None, if◌then◌else◌, IfSome};
ghost use Rattle.std.specs.List.{list_all, list_any};
ghost use Rattle.std.specs.Option.{option_map_or};
ghost use Rattle.std.specs.Str.{bytes_eq};
ghost use Rattle.serde_json.specs.View.{view, members_view, number_view};
ghost use Rattle.tree_model.specs.Key.{is_key};
ghost use Rattle.tree_model.specs.Primitive.{words, is_text, is_whole, is_primitive};
ghost use Rattle.json_tree.specs.Json.{whole_of};
ghost use Rattle.path_capture.specs.Path.{segments};
ghost use Rattle.listeners.specs.Query.{is_limit, is_child_path, is_lawful_order, order_named, order_of, bound_of, limit_of, optional, names_of, has_query_names, query_names};
ghost use Rattle.listeners.specs.Working.Said.{order_said, bound_said};

use crate::limits::MAX_LIMIT;
use crate::said::{SaidBound, SaidOrder};
use json_tree::{Number, is_lawful_key};
use serde_json::{Map, Value};
use tree_model::{MAX_DEPTH, MAX_TEXT_BYTES};

// ---- their names

// Whether a value is an object all of whose members have names that a query knows.
pub(crate) fn has_query_names(value: &Value) -> bool
    ensures { result ≡ has_query_names (view value.now) }
{
    match value.as_object() {
        Some(members) => are_query_names(members),
        None => false,
    }
}

fn are_query_names(members: &Map<String, Value>) -> bool
    ensures { result ≡ list_all (λ name. list_any (bytes_eq name) query_names)
        (names_of (members_view members.now.entries)) }
{
    for (name, _) in members.iter() {
        if !is_query_name(name.as_str()) {
            return false;
        }
    }
    true
}

fn is_query_name(name: &str) -> bool
    ensures { result ≡ list_any (bytes_eq name.now) query_names }
{
    matches!(
        name,
        "orderBy" | "startAt" | "endAt" | "equalTo" | "limitToFirst" | "limitToLast"
    )
}

// ---- the order

// The order, None inside where the member is left out.
pub(crate) fn order_in(value: &Value) -> Option<Option<SaidOrder<'_>>>
    ensures said { option_map (λ order. option_map order_said order) result
        ≡ optional order_of (codes "orderBy") (view value.now) }
    ensures lawful { IfSome result
        (λ order. option_map_or is_lawful_order (option_map order_said order) true ≡ true) }
{
    match value.get("orderBy") {
        Some(order) => Some(Some(order_named(order.as_str()?)?)),
        None => Some(None),
    }
}

fn order_named(text: &str) -> Option<SaidOrder<'_>>
    ensures said { option_map order_said result ≡ order_named text.now }
    ensures lawful { IfSome result (λ order. is_lawful_order (order_said order) ≡ true) }
{
    match text {
        "$key" => Some(SaidOrder::Key),
        "$value" => Some(SaidOrder::Value),
        _ => if is_child_path(text) {
            Some(SaidOrder::Child(text))
        } else {
            None
        },
    }
}

// Whether the text is that of a path of at least one key. It takes no memory.
fn is_child_path(text: &str) -> bool
    ensures { result ≡ is_child_path (segments text.now) }
{
    match count_of_segments(text) {
        Some(count) => 1 <= count && count <= MAX_DEPTH,
        None => false,
    }
}

// How many segments the text has, or None where one of them is no lawful key.
fn count_of_segments(text: &str) -> Option<usize>
    ensures { result ≡ (if list_all is_key (segments text.now) then Some (length (segments text.now)) else None) }
{
    let mut count = 0;
    for piece in text.split('/') {
        if piece.is_empty() {
            continue;
        }
        if !is_lawful_key(piece) {
            return None;
        }
        count += 1;
    }
    Some(count)
}

// ---- bounds

// The bound of this name, None inside where the member is left out.
pub(crate) fn bound_in<'a>(value: &'a Value, name: &str) -> Option<Option<SaidBound<'a>>>
    ensures said { option_map (λ bound. option_map bound_said bound) result
        ≡ optional bound_of name.now (view value.now) }
    ensures lawful { IfSome result
        (λ bound. option_map_or is_primitive (option_map bound_said bound) true ≡ true) }
{
    match value.get(name) {
        Some(bound) => Some(Some(bound_of(bound)?)),
        None => Some(None),
    }
}

fn bound_of(value: &Value) -> Option<SaidBound<'_>>
    ensures said { option_map bound_said result ≡ bound_of (view value.now) }
    ensures lawful { IfSome result (λ bound. is_primitive (bound_said bound) ≡ true) }
{
    match value {
        Value::Bool(b) => Some(SaidBound::Truth(*b)),
        Value::Number(number) => Some(SaidBound::Whole(whole_of(number)?)),
        Value::String(text) => words_of(text.as_str()),
        Value::Null | Value::Array(_) | Value::Object(_) => None,
    }
}

// The whole number that a number is, if it is one within the limits.
fn whole_of(number: &serde_json::Number) -> Option<i64>
    ensures said { result ≡ whole_of (number_view number.now) }
    ensures lawful { IfSome result (λ z. is_whole z ≡ true) }
{
    let number = Number::new(number.as_i64()?)?;
    Some(number.value())
}

fn words_of(text: &str) -> Option<SaidBound<'_>>
    ensures said { option_map bound_said result ≡ (if is_text text.now then Some (words text.now) else None) }
    ensures lawful { IfSome result (λ bound. is_primitive (bound_said bound) ≡ true) }
{
    if is_lawful_text(text) {
        Some(SaidBound::Words(text))
    } else {
        None
    }
}

fn is_lawful_text(text: &str) -> bool
    ensures { result ≡ is_text text.now }
{
    text.len() <= MAX_TEXT_BYTES
}

// ---- limits

// The limit of this name, None inside where the member is left out.
pub(crate) fn limit_in(value: &Value, name: &str) -> Option<Option<u16>>
    ensures said { result ≡ optional limit_of name.now (view value.now) }
    ensures lawful { IfSome result (λ limit. option_map_or is_limit limit true ≡ true) }
{
    match value.get(name) {
        Some(limit) => Some(Some(limit_of(limit)?)),
        None => Some(None),
    }
}

fn limit_of(value: &Value) -> Option<u16>
    ensures said { result ≡ limit_of (view value.now) }
    ensures lawful { IfSome result (λ limit. is_limit limit ≡ true) }
{
    let limit = value.as_u64()?;
    if 1 <= limit && limit <= u64::from(MAX_LIMIT) {
        Some(limit as u16)
    } else {
        None
    }
}
