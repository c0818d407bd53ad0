//! The claims of an identity, as members of an object.
ghost use Rattle.std.specs.Prelude.{◌≡◌, ◌++◌, ◌∷◌, [], is_some, option_map, Some, OnOk};
ghost use Rattle.serde_json.specs.View.{view, number_view, members_view};
ghost use Rattle.tree_model.specs.Primitive.{words};
ghost use Rattle.json_tree.specs.Leaf.{primitive_of};
ghost use Rattle.json_tree.specs.Json.{whole_of};
ghost use Rattle.tokens.specs.Tokens.{lawful_text, claim_of, claimed_by, claims_of};
ghost use Rattle.tokens.specs.Working.Told.{Tells};

use crate::fault::TokensFault;
use crate::members::is_lawful_text;
use evaluator::Claims;
use json_tree::{Leaf, NoMemory, Number};
use serde_json::{Map, Value};
use std::alloc::Global;

// Whether each member is a claim, or null. It takes no memory.
#[tactic(auto, using(crate::proofs::Ahead::claim_passed, crate::proofs::Ahead::claim_refused))]
pub(crate) fn are_claims(members: &Map<String, Value>) -> bool
    ensures { result ≡ is_some (claims_of (members_view members.now.entries)) }
{
    for (_, value) in members.iter() {
        if !is_claim(value) {
            return false;
        }
    }
    true
}

fn is_claim(value: &Value) -> bool
    ensures { result ≡ is_some (claim_of (view value.now)) }
{
    match value {
        Value::Null | Value::Bool(_) => true,
        Value::Number(number) => whole_of(number).is_some(),
        Value::String(text) => is_lawful_text(text.as_str()),
        Value::Array(_) | Value::Object(_) => false,
    }
}

// The claims of these members, in their order.
#[tactic(auto, using(crate::proofs::Halves::claims_first, crate::proofs::Halves::claims_last, crate::proofs::Halves::claims_step, crate::proofs::Halves::claims_fault))]
pub(crate) fn read_claims(
    alloc: Global,
    members: &Map<String, Value>,
) -> Result<Claims, TokensFault>
    ensures { Tells (λ claims. claims) result (claims_of (members_view members.now.entries)) }
{
    let mut claims = Claims::new(alloc);
    for (name, value) in members.iter() {
        add(alloc, &mut claims, name.as_str(), value)?;
    }
    Ok(claims)
}

// Adds what a member claims, if it claims anything.
fn add(alloc: Global, claims: &mut Claims, name: &str, value: &Value) -> Result<(), TokensFault>
    ensures { Tells (λ _. claims.new) result
        (option_map (λ v. claims.old ++ claimed_by name.now v) (claim_of (view value.now))) }
{
    if let Some(leaf) = leaf_of(alloc, value)? {
        push(alloc, claims, name, leaf)?;
    }
    Ok(())
}

fn push(alloc: Global, claims: &mut Claims, name: &str, leaf: Leaf) -> Result<(), NoMemory>
    ensures { OnOk result (claims.new ≡ claims.old ++ (name.now, primitive_of leaf) ∷ []) }
{
    claims.push(String::from_str(alloc, name)?, leaf)
}

// What a value claims, None where it is null.
fn leaf_of(alloc: Global, value: &Value) -> Result<Option<Leaf>, TokensFault>
    ensures { Tells (option_map primitive_of) result (claim_of (view value.now)) }
{
    match value {
        Value::Null => Ok(None),
        Value::Bool(b) => Ok(Some(Leaf::Truth(*b))),
        Value::Number(number) => match whole_of(number) {
            Some(whole) => Ok(Some(Leaf::Whole(whole))),
            None => Err(TokensFault::BadTokens),
        },
        Value::String(text) => words_of(alloc, text.as_str()),
        Value::Array(_) | Value::Object(_) => Err(TokensFault::BadTokens),
    }
}

fn words_of(alloc: Global, text: &str) -> Result<Option<Leaf>, TokensFault>
    ensures { Tells (option_map primitive_of) result
        (option_map (λ t. Some (words t)) (lawful_text text.now)) }
{
    if !is_lawful_text(text) {
        return Err(TokensFault::BadTokens);
    }
    let leaf = Leaf::words(alloc, text)?;
    Ok(Some(leaf))
}

// The whole number that a number is, if it is one within the limits.
fn whole_of(number: &serde_json::Number) -> Option<Number>
    ensures { result ≡ whole_of (number_view number.now) }
{
    Number::new(number.as_i64()?)
}
