//! Identities as JSON, both ways.
ghost use Rattle.std.specs.Prelude.{◌≡◌, ◌≤◌, ◌++◌, ◌∷◌, [], Some, None, if◌then◌else◌, length, option_map, IfOk, IfSome, OnOk};
ghost use Rattle.serde_json.specs.Data.{depth};
ghost use Rattle.serde_json.specs.View.{view, number_view, items_view};
ghost use Rattle.tree_model.specs.Primitive.{words};
ghost use Rattle.json_tree.specs.Leaf.{primitive_of};
ghost use Rattle.json_tree.specs.Json.{data_of, whole_of};
ghost use Rattle.tokens.specs.Tokens.{lawful_text_at};
ghost use Rattle.tree_model.specs.Primitive.{is_text};
ghost use Rattle.entries.specs.Items.{each};
ghost use Rattle.entries.specs.Identity.{lawful_primitive, claim_in, claims_in, identity_in, who_in};
ghost use Rattle.entries.specs.Working.Answers.{Gives};
ghost use Rattle.entries.specs.Working.Parts.{parts_in, parts_seen};
ghost use Rattle.entries.specs.Working.Written.{identity_data};

use crate::entry::EntryFault;
use crate::items::{pair, pair_of};
use evaluator::{Claims, Identity};
use json_tree::{Leaf, NoMemory, Number};
use serde_json::{Map, Value};
use std::alloc::Global;
use tree_model::MAX_TEXT_BYTES;

// ---- from an identity to JSON

/// The value of whoever is signed in, null where nobody is.
pub(crate) fn who_to_json(alloc: Global, who: Option<&Identity>) -> Result<Value, NoMemory>
    ensures value { IfOk result (λ value. who_in (view value) ≡ Some (option_map (λ who. who.now) who.entry)) }
    ensures depth { IfOk result (λ value. depth (view value) ≤ 3) }
{
    match who {
        Some(who) => identity_to_json(alloc, who),
        None => Ok(Value::Null),
    }
}

/// The value of an identity.
pub(crate) fn identity_to_json(alloc: Global, who: &Identity) -> Result<Value, NoMemory>
    ensures value { IfOk result (λ value. identity_in (view value) ≡ Some who.now) }
    ensures depth { IfOk result (λ value. depth (view value) ≤ 3) }
{
    who.law();
    let claims = claims_to_json(alloc, who.claims())?;
    object_of(alloc, who.uid(), who.provider(), who.admin(), claims)
}

fn object_of(
    alloc: Global,
    uid: &str,
    provider: &str,
    admin: bool,
    claims: Value,
) -> Result<Value, NoMemory>
    ensures { IfOk result (λ value. view value ≡ identity_data uid.now provider.now admin (view claims)) }
{
    let uid = Value::try_from_str(alloc, uid)?;
    let provider = Value::try_from_str(alloc, provider)?;
    let mut members = Map::new(alloc);
    serde_json::put(&mut members, alloc, "uid", uid)?;
    serde_json::put(&mut members, alloc, "provider", provider)?;
    serde_json::put(&mut members, alloc, "admin", Value::Bool(admin))?;
    serde_json::put(&mut members, alloc, "claims", claims)?;
    Ok(Value::Object(members))
}

fn claims_to_json(alloc: Global, claims: &Claims) -> Result<Value, NoMemory>
    ensures value { IfOk result (λ value. claims_in (view value) ≡ Some claims.now) }
    ensures depth { IfOk result (λ value. depth (view value) ≤ 2) }
{
    let mut items = Vec::with_capacity(alloc, claims.len())?;
    for i in 0..claims.len() {
        let claim = claims.claim_at(i).unwrap();
        items.push(claim_to_json(alloc, claim.0, claim.1)?)?;
    }
    Ok(Value::Array(items))
}

fn claim_to_json(alloc: Global, name: &str, value: &Leaf) -> Result<Value, NoMemory>
    ensures value { IfOk result (λ claim. claim_in (view claim) ≡ Some (name.now, primitive_of value.now)) }
    ensures depth { IfOk result (λ claim. depth (view claim) ≤ 1) }
{
    value.law();
    let name = Value::try_from_str(alloc, name)?;
    let value = leaf_to_json(alloc, value)?;
    pair(alloc, name, value)
}

fn leaf_to_json(alloc: Global, leaf: &Leaf) -> Result<Value, NoMemory>
    ensures { IfOk result (λ value. view value ≡ data_of (primitive_of leaf.now)) }
{
    match leaf {
        Leaf::Truth(b) => Ok(Value::Bool(*b)),
        Leaf::Whole(number) => Ok(Value::from(number.value())),
        Leaf::Words(text) => Ok(Value::try_from_str(alloc, text.as_str())?),
    }
}

// ---- from JSON to an identity

// What an identity has, before its claims are read.
#[derive(Clone, Copy)]
struct Parts<'a> {
    uid: &'a str,
    provider: &'a str,
    admin: bool,
    claims: &'a Value,
}

/// Whoever is signed in, of a value.
pub(crate) fn who_of(alloc: Global, value: &Value) -> Result<Option<Identity>, EntryFault>
    ensures { Gives (λ who. who) result (who_in (view value.now)) }
{
    if value.is_null() {
        return Ok(None);
    }
    let who = identity_of(alloc, value)?;
    Ok(Some(who))
}

/// The identity that a value is.
#[tactic(auto, unfolding(crate::specs::Identity::identity_in))]
pub(crate) fn identity_of(alloc: Global, value: &Value) -> Result<Identity, EntryFault>
    ensures { Gives (λ who. who) result (identity_in (view value.now)) }
{
    let Some(parts) = parts_of(value) else {
        return Err(EntryFault::NotAnEntry);
    };
    let claims = claims_of(alloc, parts.claims)?;
    let who = with_claims(alloc, parts.uid, parts.provider, parts.admin, claims)?;
    Ok(who)
}

fn with_claims(
    alloc: Global,
    uid: &str,
    provider: &str,
    admin: bool,
    claims: Claims,
) -> Result<Identity, NoMemory>
    requires uid { length uid.now ≤ MAX_TEXT_BYTES }
    requires provider { length provider.now ≤ MAX_TEXT_BYTES }
    ensures { IfOk result
        (λ who. who ≡ record { uid = uid.now; provider = provider.now; admin = admin; claims = claims }) }
{
    let uid = String::from_str(alloc, uid)?;
    let provider = String::from_str(alloc, provider)?;
    Ok(Identity::new(uid, provider, admin, claims))
}

fn parts_of(value: &Value) -> Option<Parts<'_>>
    ensures parts { option_map parts_seen result ≡ parts_in (view value.now) }
    ensures uid { IfSome result (λ parts. length parts.uid.now ≤ MAX_TEXT_BYTES) }
    ensures provider { IfSome result (λ parts. length parts.provider.now ≤ MAX_TEXT_BYTES) }
{
    let uid = lawful_text_at(value, "uid")?;
    let provider = lawful_text_at(value, "provider")?;
    let admin = value.get("admin").and_then(Value::as_bool)?;
    let claims = value.get("claims")?;
    Some(Parts {
        uid,
        provider,
        admin,
        claims,
    })
}

// A member that is a text of at most 65,536 bytes.
fn lawful_text_at<'a>(value: &'a Value, name: &str) -> Option<&'a str>
    ensures text { option_map (λ text. text.now) result ≡ lawful_text_at name.now (view value.now) }
    ensures within { IfSome result (λ text. length text.now ≤ MAX_TEXT_BYTES) }
{
    let text = value.get(name).and_then(Value::as_str)?;
    if is_lawful_text(text) {
        Some(text)
    } else {
        None
    }
}

fn is_lawful_text(text: &str) -> bool
    ensures { result ≡ is_text text.now }
{
    text.len() <= MAX_TEXT_BYTES
}

fn claims_of(alloc: Global, value: &Value) -> Result<Claims, EntryFault>
    ensures { Gives (λ claims. claims) result (claims_in (view value.now)) }
{
    match value.as_array() {
        Some(items) => read_claims(alloc, items),
        None => Err(EntryFault::NotAnEntry),
    }
}

// The claims of these items, in their order.
fn read_claims(alloc: Global, items: &Vec<Value>) -> Result<Claims, EntryFault>
    ensures { Gives (λ claims. claims) result (each claim_in (items_view items.now.items)) }
{
    let mut claims = Claims::new(alloc);
    for item in items {
        add_claim(alloc, &mut claims, item)?;
    }
    Ok(claims)
}

fn add_claim(alloc: Global, claims: &mut Claims, item: &Value) -> Result<(), EntryFault>
    ensures { Gives (λ _. claims.new) result (option_map (λ claim. claims.old ++ claim ∷ []) (claim_in (view item.now))) }
{
    let Some((name, value)) = pair_of(item) else {
        return Err(EntryFault::NotAnEntry);
    };
    let Some(name) = name.as_str() else {
        return Err(EntryFault::NotAnEntry);
    };
    let leaf = leaf_of(alloc, value)?;
    push_claim(alloc, claims, name, leaf)?;
    Ok(())
}

fn push_claim(alloc: Global, claims: &mut Claims, name: &str, leaf: Leaf) -> Result<(), NoMemory>
    ensures { OnOk result (claims.new ≡ claims.old ++ (name.now, primitive_of leaf) ∷ []) }
{
    claims.push(String::from_str(alloc, name)?, leaf)
}

// The primitive that a value is.
fn leaf_of(alloc: Global, value: &Value) -> Result<Leaf, EntryFault>
    ensures { Gives primitive_of result (lawful_primitive (view value.now)) }
{
    match value {
        Value::Bool(b) => Ok(Leaf::Truth(*b)),
        Value::Number(number) => match whole_of(number) {
            Some(whole) => Ok(Leaf::Whole(whole)),
            None => Err(EntryFault::NotAnEntry),
        },
        Value::String(text) => words_of(alloc, text.as_str()),
        Value::Null | Value::Array(_) | Value::Object(_) => Err(EntryFault::NotAnEntry),
    }
}

fn words_of(alloc: Global, text: &str) -> Result<Leaf, EntryFault>
    ensures { Gives primitive_of result (if is_text text.now then Some (words text.now) else None) }
{
    if !is_lawful_text(text) {
        return Err(EntryFault::NotAnEntry);
    }
    let leaf = Leaf::words(alloc, text)?;
    Ok(leaf)
}

// The whole number that a number is, if it is one within the limits.
fn whole_of(number: &serde_json::Number) -> Option<Number>
    ensures { result ≡ whole_of (number_view number.now) }
{
    Number::new(number.as_i64()?)
}
