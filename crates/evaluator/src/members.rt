//! What variables, captures and names behind a dot mean.
ghost use Rattle.std.specs.Prelude.{◌≡◌, option_map};
ghost use Rattle.evaluator.specs.Asked.{asked_of};
ghost use Rattle.evaluator.specs.Value.{value, as_value, record_if};
ghost use Rattle.evaluator.specs.Members.{text_or_null, auth_part, claim, query_limit, query_bound, query_field, value_part, member};
ghost use Rattle.evaluator.specs.Env.{env_of, access_of, variable, capture, asked_in, coming_in};
ghost use Rattle.evaluator.specs.Working.Known.{variable_known, auth_part_known};
ghost use Rattle.evaluator.specs.Parts.{value_of, part_of};

use crate::asked::Asked;
use crate::env::{Access, Env};
use crate::identity::{Claims, Identity};
use crate::texts::length_of;
use crate::value::{Meaning, Value, leaf_or_null, limit_or_null, text_or_null};
use expr_tokens::{KnownName, Name};

// ---- variables and captures

fn coming<'a>(access: Access<'a>) -> Option<Meaning<'a>>
    ensures { option_map part_of result ≡ coming_in (access_of access.entry) }
{
    match access {
        Access::Reads(_) => None,
        Access::Writes(place) => Some(Meaning::Snapshot(place)),
    }
}

fn asked<'a>(access: Access<'a>) -> Option<Meaning<'a>>
    ensures { option_map part_of result ≡ asked_in (access_of access.entry) }
{
    match access {
        Access::Reads(asked) => Some(Meaning::Query(asked)),
        Access::Writes(_) => None,
    }
}

#[inline(always)]
pub(crate) fn variable<'a>(name: &Name, env: &Env<'a, '_>) -> Option<Meaning<'a>>
    ensures { option_map part_of result ≡ variable name.now (env_of env.now) }
{
    variable_known(name.known(), env)
}

// The variable of a known name.
#[inline(always)]
fn variable_known<'a>(known: Option<KnownName>, env: &Env<'a, '_>) -> Option<Meaning<'a>>
    ensures { option_map part_of result ≡ variable_known known (env_of env.now) }
{
    match known {
        Some(KnownName::Auth) => Some(Meaning::Auth(env.auth)),
        Some(KnownName::Now) => Some(Meaning::Value(Value::Whole(
            env.moment.milliseconds() as i64,
        ))),
        Some(KnownName::Root) => Some(Meaning::Snapshot(env.here.top())),
        Some(KnownName::Data) => Some(Meaning::Snapshot(env.here)),
        Some(KnownName::NewData) => coming(env.access),
        Some(KnownName::Query) => asked(env.access),
        _ => None,
    }
}

pub(crate) fn capture<'a>(name: &str, env: &Env<'a, '_>) -> Option<Meaning<'a>>
    ensures { option_map part_of result ≡ capture name.now (env_of env.now) }
{
    match env.captures.key_of(name) {
        Some(key) => Some(Meaning::Value(Value::Words(key.text()))),
        None => None,
    }
}

// ---- behind a dot

fn auth_part<'a>(name: &Name, who: Option<&'a Identity>) -> Option<Meaning<'a>>
    ensures { option_map part_of result ≡ auth_part name.now (option_map (λ a. a.now) who.entry) }
{
    auth_part_known(name.known(), who)
}

// The part of `auth` that has a known name.
fn auth_part_known<'a>(known: Option<KnownName>, who: Option<&'a Identity>) -> Option<Meaning<'a>>
    ensures { option_map part_of result ≡ auth_part_known known (option_map (λ a. a.now) who.entry) }
{
    match known {
        Some(KnownName::Uid) => Some(Meaning::Value(uid_of(who))),
        Some(KnownName::Provider) => Some(Meaning::Value(provider_of(who))),
        Some(KnownName::Token) => Some(Meaning::Token(claims_of(who))),
        _ => None,
    }
}

// The same, where a value is wanted.
#[inline(always)]
pub(crate) fn auth_value<'a>(name: &Name, who: Option<&'a Identity>) -> Option<Value<'a>>
    ensures { option_map value_of result ≡ as_value (auth_part name.now (option_map (λ a. a.now) who.entry)) }
{
    auth_value_known(name.known(), who)
}

#[inline(always)]
fn auth_value_known<'a>(known: Option<KnownName>, who: Option<&'a Identity>) -> Option<Value<'a>>
    ensures { option_map value_of result ≡ as_value (auth_part_known known (option_map (λ a. a.now) who.entry)) }
{
    match known {
        Some(KnownName::Uid) => Some(uid_of(who)),
        Some(KnownName::Provider) => Some(provider_of(who)),
        Some(KnownName::Token) => Some(record_or_null(who)),
        _ => None,
    }
}

// What `auth.token` is where a value is wanted.
fn record_or_null<'a>(who: Option<&'a Identity>) -> Value<'a>
    ensures { value_of result ≡ record_if (option_map (λ a. a.now.claims) who.entry) }
{
    match who {
        Some(_) => Value::Record,
        None => Value::Null,
    }
}

fn uid_of<'a>(who: Option<&'a Identity>) -> Value<'a>
    ensures { value_of result ≡ text_or_null (option_map (λ a. a.now.uid) who.entry) }
{
    match who {
        Some(who) => Value::Words(who.uid()),
        None => Value::Null,
    }
}

fn provider_of<'a>(who: Option<&'a Identity>) -> Value<'a>
    ensures { value_of result ≡ text_or_null (option_map (λ a. a.now.provider) who.entry) }
{
    match who {
        Some(who) => Value::Words(who.provider()),
        None => Value::Null,
    }
}

fn claims_of<'a>(who: Option<&'a Identity>) -> Option<&'a Claims>
    ensures { option_map (λ c. c.now) result ≡ option_map (λ a. a.now.claims) who.entry }
{
    match who {
        Some(who) => Some(who.claims()),
        None => None,
    }
}

fn claim<'a>(name: &str, claims: Option<&'a Claims>) -> Value<'a>
    ensures { value_of result ≡ claim name.now (option_map (λ c. c.now) claims.entry) }
{
    match claims {
        Some(claims) => leaf_or_null(claims.value_of(name)),
        None => Value::Null,
    }
}

#[tactic(auto, unfolding(crate::specs::Members::query_limit))]
fn query_limit<'a>(name: &str, asked: &'a Asked<'a>) -> Option<Value<'a>>
    ensures { option_map value_of result ≡ query_limit name.now (asked_of asked.now) }
{
    match name {
        "limitToFirst" => Some(limit_or_null(asked.limit_to_first)),
        "limitToLast" => Some(limit_or_null(asked.limit_to_last)),
        _ => None,
    }
}

#[tactic(auto, unfolding(crate::specs::Members::query_bound))]
fn query_bound<'a>(name: &str, asked: &'a Asked<'a>) -> Option<Value<'a>>
    ensures { option_map value_of result ≡ query_bound name.now (asked_of asked.now) }
{
    match name {
        "startAt" => Some(leaf_or_null(asked.start_at)),
        "endAt" => Some(leaf_or_null(asked.end_at)),
        "equalTo" => Some(leaf_or_null(asked.equal_to)),
        _ => query_limit(name, asked),
    }
}

#[tactic(auto, unfolding(crate::specs::Members::query_field))]
fn query_field<'a>(name: &str, asked: &'a Asked<'a>) -> Option<Value<'a>>
    ensures { option_map value_of result ≡ query_field name.now (asked_of asked.now) }
{
    match name {
        "orderByKey" => Some(Value::Truth(asked.order_by_key)),
        "orderByValue" => Some(Value::Truth(asked.order_by_value)),
        "orderByChild" => Some(text_or_null(asked.order_by_child)),
        _ => query_bound(name, asked),
    }
}

#[tactic(auto, unfolding(crate::specs::Members::value_part))]
fn value_part<'a>(name: &str, value: Value) -> Option<Value<'a>>
    ensures { option_map value_of result ≡ value_part name.now (value_of value.entry) }
{
    match name {
        "length" => length_of(value),
        _ => None,
    }
}

// A value as a part, if there is one.
fn as_part<'a>(found: Option<Value<'a>>) -> Option<Meaning<'a>>
    ensures { option_map part_of result ≡ option_map value (option_map value_of found.entry) }
{
    match found {
        Some(value) => Some(Meaning::Value(value)),
        None => None,
    }
}

pub(crate) fn member<'a>(name: &Name, receiver: Meaning<'a>) -> Option<Meaning<'a>>
    ensures { option_map part_of result ≡ member name.now (part_of receiver.entry) }
{
    match receiver {
        Meaning::Value(value) => as_part(value_part(name.as_str(), value)),
        Meaning::Snapshot(_) => None,
        Meaning::Auth(who) => auth_part(name, who),
        Meaning::Token(claims) => Some(Meaning::Value(claim(name.as_str(), claims))),
        Meaning::Query(asked) => as_part(query_field(name.as_str(), asked)),
    }
}

// The same, where a value is wanted.
#[inline(always)]
pub(crate) fn member_value<'a>(name: &Name, receiver: Meaning<'a>) -> Option<Value<'a>>
    ensures { option_map value_of result ≡ as_value (member name.now (part_of receiver.entry)) }
{
    match receiver {
        Meaning::Value(value) => value_part(name.as_str(), value),
        Meaning::Snapshot(_) => None,
        Meaning::Auth(who) => auth_value(name, who),
        Meaning::Token(claims) => Some(claim(name.as_str(), claims)),
        Meaning::Query(asked) => query_field(name.as_str(), asked),
    }
}
