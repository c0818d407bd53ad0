//! What to do about a fault, in words.
//!
//! Nothing is promised of them: they are for a person.

mod data;
mod index;
mod json_text;
mod near;
mod quotes;
mod rule;
mod sorts;
mod tokens;
mod uses;

pub(crate) use data::{advice_on_data_key, advice_on_data_value, advice_on_depth};
pub(crate) use json_text::{FileSort, advice_on_json};
use json_tree::NoMemory;
use near::{begins_alike, nearest};
use path_capture::{Pattern, is_name};
pub(crate) use rule::advice_on_rule;
use rules_reader::RulesFault;
use serde_json::Value;
use std::alloc::Global;
pub(crate) use tokens::{advice_on_no_tokens, advice_on_token_name, advice_on_token_value};
use tree_model::{MAX_DEPTH, MAX_KEY_BYTES};

const RULE_NAMES: [&str; 4] = [".read", ".write", ".validate", ".indexOn"];

/// What to do about a fault whose place is not that of a member. The value is what the file is as JSON.
pub(crate) fn advice_on_fault(
    alloc: Global,
    fault: &RulesFault,
    value: &Value,
) -> Result<String, NoMemory> {
    match fault {
        RulesFault::BadRulesShape(pattern) => if pattern.len() > 0 {
            Ok(format!(in alloc;
                "a member of the object at {} may not stand there",
                pattern.print()?.as_str()
            )?)
        } else {
            advice_on_top(alloc, value)
        },
        RulesFault::TooManyRules => Ok(String::from_str(
            alloc,
            "a file has at most 4,096 rules, and this one is too many",
        )?),
        RulesFault::BadRule(rule, _) => Ok(format!(in alloc;
            "the `{}` at {} is no rule",
            rule.kind.name(),
            rule.pattern.print()?.as_str()
        )?),
        RulesFault::BadRulesJson | RulesFault::NoMemory => Ok(String::new(alloc)),
    }
}

// What to do about a file that is not an object with the one member `rules`, an object.
fn advice_on_top(alloc: Global, value: &Value) -> Result<String, NoMemory> {
    let Value::Object(members) = value else {
        return Ok(format!(in alloc;
            "the file is {}, and should be an object: {FRAME}",
            sort_of(value)
        )?);
    };
    for (name, _) in members.iter() {
        if name.as_str() != "rules" {
            return advice_on_top_member(alloc, name.as_str());
        }
    }
    match value.get("rules") {
        Some(rules) => if rules.is_object() {
            Ok(String::from_str(alloc, "a member of the object `rules` may not stand there")?)
        } else {
            Ok(format!(in alloc;
                "`rules` is {}, and should be an object, as {{ \".read\": true }}",
                sort_of(rules)
            )?)
        },
        None => Ok(format!(in alloc; "`rules` is missing: write {FRAME}")?),
    }
}

const FRAME: &str = "{ \"rules\": { .. } }";

// What to do about a member beside `rules`, or in its place.
fn advice_on_top_member(alloc: Global, name: &str) -> Result<String, NoMemory> {
    if nearest(name, &["rules"]).is_some() {
        return Ok(format!(in alloc; "`{name}` is unknown here: did you mean `rules`?")?);
    }
    if name.starts_with('.') || name.starts_with('$') {
        return Ok(format!(in alloc; "`{name}` should stand inside of `rules`: {FRAME}")?);
    }
    Ok(format!(in alloc; "`{name}` may not stand here: a rules file has the one member `rules`")?)
}

// What a value is called.
fn sort_of(value: &Value) -> &'static str {
    match value {
        Value::Null => "null",
        Value::Bool(true) => "true",
        Value::Bool(false) => "false",
        Value::Number(_) => "a number",
        Value::String(_) => "a text",
        Value::Array(_) => "a list",
        Value::Object(_) => "an object",
    }
}

/// What to do about a member that may not stand in the object at a pattern.
pub(crate) fn advice_on_member(
    alloc: Global,
    pattern: &Pattern,
    name: &str,
    value: &Value,
) -> Result<String, NoMemory> {
    if matches!(name, ".read" | ".write" | ".validate") {
        return advice_on_rule_value(alloc, name, value);
    }
    if name == ".indexOn" {
        return Ok(String::from_str(
            alloc,
            "`.indexOn` should be a name or a list of names, as [\"title\", \"owner\"]",
        )?);
    }
    if name.starts_with('.') {
        return advice_on_rule_name(alloc, name);
    }
    if !value.is_object() {
        return advice_on_bare(alloc, name, value);
    }
    if pattern.len() >= MAX_DEPTH {
        return Ok(format!(in alloc;
            "`{name}` stands too deep: keys and captures go {MAX_DEPTH} levels deep at most"
        )?);
    }
    match name.as_bytes() {
        [b'$', rest @ ..] => advice_on_capture(alloc, name, is_name(rest)),
        _ => advice_on_key(alloc, name),
    }
}

// What to do about a rule that is neither a text nor a truth value.
fn advice_on_rule_value(alloc: Global, name: &str, value: &Value) -> Result<String, NoMemory> {
    let sort = sort_of(value);
    match value {
        Value::Array(_) => Ok(format!(in alloc;
            "`{name}` is a list, and should be one expression in double quotes: join the parts by `&&` or `||`"
        )?),
        Value::Object(_) => Ok(format!(in alloc;
            "`{name}` is an object, and should be an expression in double quotes: what stands inside belongs beside it"
        )?),
        _ => Ok(format!(in alloc;
            "`{name}` is {sort}, and should be an expression in double quotes, true or false"
        )?),
    }
}

// What to do about a name with a dot that is not the name of a rule.
fn advice_on_rule_name(alloc: Global, name: &str) -> Result<String, NoMemory> {
    if let Some(rule) = nearest(name, &RULE_NAMES) {
        return Ok(format!(in alloc; "`{name}` is no rule: did you mean `{rule}`?")?);
    }
    if let Some(rule) = begins_alike(name, &RULE_NAMES) {
        return Ok(format!(in alloc; "`{name}` is no rule: did you mean `{rule}`?")?);
    }
    let words = match name {
        ".create" | ".update" | ".delete" | ".remove" | ".set" | ".push" =>
            "`.write` is asked for every change",
        ".get" | ".list" | ".query" => "`.read` is asked for every read",
        ".priority" => "there are no priorities",
        _ => "there are `.read`, `.write`, `.validate` and `.indexOn`",
    };
    Ok(format!(in alloc; "`{name}` is no rule: {words}")?)
}

// What to do about a key or a capture whose value is not an object.
fn advice_on_bare(alloc: Global, name: &str, value: &Value) -> Result<String, NoMemory> {
    if matches!(name, "read" | "write" | "validate" | "indexOn") {
        return Ok(format!(in alloc;
            "`{name}` is no rule without its dot: did you mean `.{name}`?"
        )?);
    }
    let (sort, rule) = match value {
        Value::String(_) => ("a text", "\".validate\": \"..\""),
        _ => (sort_of(value), "\".read\": true"),
    };
    Ok(format!(in alloc;
        "`{name}` is {sort}, and should be an object with the rules below it, as {{ {rule} }}"
    )?)
}

fn advice_on_capture(alloc: Global, name: &str, is_lawful: bool) -> Result<String, NoMemory> {
    if is_lawful {
        return Ok(format!(in alloc;
            "there is a `{name}` above this one: give this capture another name"
        )?);
    }
    Ok(format!(in alloc;
        "`{name}` is no capture: after its `$` come a letter or `_`, then letters, digits and `_`"
    )?)
}

// What to do about a key that is invalid.
fn advice_on_key(alloc: Global, name: &str) -> Result<String, NoMemory> {
    if name.is_empty() {
        return Ok(String::from_str(alloc, "a key may not be empty")?);
    }
    if name.len() > MAX_KEY_BYTES {
        return Ok(format!(in alloc;
            "this key has {} bytes, and a key has {MAX_KEY_BYTES} at most",
            name.len()
        )?);
    }
    if name.contains('/') {
        return Ok(format!(in alloc;
            "`{name}` is no key, since it has a `/`: put one object inside of the other"
        )?);
    }
    Ok(format!(in alloc;
        "`{name}` is no key: a key has no control character and none of . $ # [ ] /"
    )?)
}

/// What to do about a capture beside another one.
pub(crate) fn advice_on_rival(alloc: Global, name: &str, rival: &str) -> Result<String, NoMemory> {
    Ok(format!(in alloc;
        "`{name}` stands beside `{rival}`: an object has one capture at most, so put the rules of both into one"
    )?)
}
