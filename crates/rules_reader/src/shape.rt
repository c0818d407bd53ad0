//! The shape of a rules file: which members may stand in which object, and how many rules there are.
ghost use Rattle.std.specs.Prelude.{◌≡◌, ◌≤◌, ◌++◌, [], ◌∷◌, true, min, nat_le, length, if◌then◌else◌, Some, None, option_map, option_and_then, IfOk, OnOk, IfErr};
ghost use Rattle.std.specs.List.{list_all, list_any};
ghost use Rattle.std.specs.FinMap.{is_sorted};
ghost use Rattle.std.specs.Str.{bytes_eq};
ghost use Rattle.serde_json.specs.View.{view, items_view, members_view};
ghost use Rattle.serde_json.specs.Data.{Members, object};
ghost use Rattle.serde_json.specs.Find.{get};
ghost use Rattle.tree_model.specs.Key.{key_cmp};
ghost use Rattle.path_capture.specs.Pattern.{PatternPart, Pattern as PatternParts};
ghost use Rattle.rules_reader.specs.Part.{Pattern as PatternTexts, texts, is_capture, is_part};
ghost use Rattle.rules_reader.specs.Book.{rules, stated, stated_count, kind_name};
ghost use Rattle.rules_reader.specs.Node.{text_of};
ghost use Rattle.rules_reader.specs.File.{listed, is_object, rule_text, rule_texts, texts_of, is_rule_name, is_index, are_strings, is_sound_member, is_sound, captures_among, faulty};
ghost use Rattle.rules_reader.specs.Working.Inner.{parts_of, faulty_inner};
ghost use Rattle.rules_reader.specs.Working.Read.{rule_count};
ghost use Rattle.rules_reader.specs.Refusal.{Names};

use crate::fault::RulesFault;
use crate::kind::Kind;
use json_tree::{Key, KeyFault, NoMemory, is_lawful_key};
use path_capture::{CaptureName, NameFault, Part, Pattern, is_name};
use serde_json::{Map, Value};
use std::alloc::Global;
use tree_model::MAX_DEPTH;

/// How many rules an object and all in it state, if each of these may stand where it does; of more
/// than a `usize` can hold, the greatest. An object that may not is refused before any in it, and
/// these in their order: so the first refused is the least. The pattern is a part longer while an
/// object below is looked at, and comes back as it was, but with an `Err`.
#[cycle(count_rules)]
pub(crate) fn count_rules(
    alloc: Global,
    value: &Value,
    pattern: &mut Pattern,
) -> Result<usize, RulesFault>
    requires { is_object (view value.now) ≡ true }
    ensures count { IfOk result (λ count. count ≡ min (length (rules (texts_of (view value.now)))) usize.MAX) }
    ensures sound { OnOk result (faulty (texts pattern.old) (view value.now) ≡ []) }
    ensures fault { IfErr result (Names (faulty (texts pattern.old) (view value.now))) }
    ensures back { OnOk result (pattern.new ≡ pattern.old) }
{
    let Value::Object(members) = value else {
        unreachable!()
    };
    if !is_sound(members, pattern) {
        return Err(RulesFault::BadRulesShape(pattern.copy()?));
    }
    let below = count_rules_below(alloc, members, pattern)?;
    Ok(own_count(value).saturating_add(below))
}

// How many rules the keys and captures of an object state.
#[cycle(count_rules)]
fn count_rules_below(
    alloc: Global,
    members: &Map<String, Value>,
    pattern: &mut Pattern,
) -> Result<usize, RulesFault>
    ensures count { IfOk result (λ count. count ≡ min (rule_count (parts_of (members_view members.now.entries))) usize.MAX) }
    ensures ascending { OnOk result (is_sorted key_cmp (parts_of (members_view members.now.entries)) ≡ true) }
    ensures sound { OnOk result (faulty_inner (texts pattern.old) (members_view members.now.entries) ≡ []) }
    ensures fault { IfErr result (Names (faulty_inner (texts pattern.old) (members_view members.now.entries))) }
    ensures back { OnOk result (pattern.new ≡ pattern.old) }
{
    let mut count = 0usize;
    for (name, member) in members.iter() {
        if !member.is_object() {
            continue;
        }
        let Some(part) = part(alloc, name.as_str())? else {
            continue;
        };
        pattern.push(part)?;
        count = count.saturating_add(count_rules(alloc, member, pattern)?);
        shorten(pattern);
    }
    Ok(count)
}

// Takes the last part of a pattern away.
fn shorten(pattern: &mut Pattern)
    ensures { (above : PatternParts) (last : PatternPart) → pattern.old ≡ above ++ last ∷ [] → pattern.new ≡ above }
{
    pattern.pop();
}

// How many rules an object itself states.
fn own_count(value: &Value) -> usize
    ensures stated { (ms : Members) → view value.now ≡ object ms → result ≡ stated_count (rule_texts ms) }
    ensures few { result ≤ 3 }
{
    count_of(value, Kind::Read) + (count_of(value, Kind::Validate) + count_of(value, Kind::Write))
}

fn count_of(value: &Value, kind: Kind) -> usize
    ensures stated { (at : PatternTexts) → result ≡ length (stated at kind (option_and_then rule_text (get (kind_name kind) (view value.now)))) }
    ensures few { result ≤ 1 }
{
    match rule_text(value, kind) {
        Some(_) => 1,
        None => 0,
    }
}

/// The text of a rule that an object states, if it does.
pub(crate) fn rule_text(value: &Value, kind: Kind) -> Option<&str>
    ensures { option_map (λ text. text.now) result ≡ option_and_then rule_text (get (kind_name kind) (view value.now)) }
{
    match value.get(kind.name())? {
        Value::String(text) => Some(text.as_str()),
        Value::Bool(true) => Some("true"),
        Value::Bool(false) => Some("false"),
        _ => None,
    }
}

/// The pattern one part further down.
pub(crate) fn below(pattern: &Pattern, part: &Part) -> Result<Pattern, NoMemory>
    ensures { IfOk result (λ longer. texts longer ≡ texts pattern.now ++ text_of part.now ∷ []) }
{
    pattern.below(part)
}

// Whether an object may stand at a pattern.
fn is_sound(members: &Map<String, Value>, pattern: &Pattern) -> bool
    ensures { result ≡ is_sound (texts pattern.now) (members_view members.now.entries) }
{
    has_sound_members(members, pattern) && has_one_capture(members)
}

fn has_sound_members(members: &Map<String, Value>, pattern: &Pattern) -> bool
    ensures { result ≡ list_all (λ m. is_sound_member (texts pattern.now) m.0 m.1) (listed (members_view members.now.entries)) }
{
    for (name, member) in members.iter() {
        if !is_sound_member(pattern, name.as_str(), member) {
            return false;
        }
    }
    true
}

fn has_one_capture(members: &Map<String, Value>) -> bool
    ensures { result ≡ nat_le (length (captures_among (listed (members_view members.now.entries)))) 1 }
{
    let mut found = false;
    for (name, _) in members.iter() {
        if is_capture(name.as_str()) {
            if found {
                return false;
            }
            found = true;
        }
    }
    true
}

/// Whether a member of this name and value may stand in an object at this pattern, but for captures beside it. It makes
/// one pass over the name, and one over the pattern or over a list of `.indexOn`.
pub fn is_sound_member(pattern: &Pattern, name: &str, member: &Value) -> bool
    ensures { result ≡ is_sound_member (texts pattern.now) name.now (view member.now) }
{
    if is_rule_name(name) {
        return member.is_boolean() || member.is_string();
    }
    if name == ".indexOn" {
        return is_index(member);
    }
    is_part(name)
        && member.is_object()
        && pattern.len() < MAX_DEPTH
        && !(is_capture(name) && is_used(pattern, name))
}

fn is_rule_name(name: &str) -> bool
    ensures { result ≡ is_rule_name name.now }
{
    name == ".read" || name == ".write" || name == ".validate"
}

// A text, or a list of texts.
fn is_index(value: &Value) -> bool
    ensures { result ≡ is_index (view value.now) }
{
    match value {
        Value::String(_) => true,
        Value::Array(items) => are_strings(items),
        _ => false,
    }
}

fn are_strings(items: &Vec<Value>) -> bool
    ensures { result ≡ are_strings (items_view items.now.items) }
{
    for item in items {
        if !item.is_string() {
            return false;
        }
    }
    true
}

#[tactic(auto, unfolding(crate::specs::Part::is_part))]
fn is_part(name: &str) -> bool
    ensures { result ≡ is_part name.now }
{
    is_lawful_key(name) || is_capture(name)
}

fn is_capture(name: &str) -> bool
    ensures { result ≡ is_capture name.now }
{
    match name.as_bytes() {
        [b'$', rest @ ..] => is_name(rest),
        _ => false,
    }
}

// Whether a part of the pattern has this text.
fn is_used(pattern: &Pattern, text: &str) -> bool
    ensures { result ≡ list_any (bytes_eq text.now) (texts pattern.now) }
{
    for i in 0..pattern.len() {
        if has_text(pattern.part(i).unwrap(), text) {
            return true;
        }
    }
    false
}

fn has_text(part: &Part, text: &str) -> bool
    ensures { result ≡ bytes_eq text.now (text_of part.now) }
{
    match part {
        Part::Literal(key) => text == key.text(),
        Part::Capture(name) => match text.as_bytes() {
            [b'$', rest @ ..] => rest == name.text().as_bytes(),
            _ => false,
        },
    }
}

/// The part that a member's name is, if it is one. It takes one growth at most.
pub fn part(alloc: Global, name: &str) -> Result<Option<Part>, NoMemory>
    ensures { IfOk result (λ part. option_map text_of part ≡ (if is_part name.now then Some name.now else None)) }
{
    match name.strip_prefix('$') {
        Some(rest) => match CaptureName::new(alloc, rest) {
            Ok(name) => Ok(Some(Part::Capture(name))),
            Err(NameFault::BadName) => Ok(None),
            Err(NameFault::NoMemory) => Err(NoMemory),
        },
        None => match Key::new(alloc, name) {
            Ok(key) => Ok(Some(Part::Literal(key))),
            Err(KeyFault::BadKey) => Ok(None),
            Err(KeyFault::NoMemory) => Err(NoMemory),
        },
    }
}
