//! The identity of a secret, as an object.
ghost use Rattle.std.specs.Prelude.{◌≡◌, ◌≤◌, length, is_some, option_map, IfOk, IfSome};
ghost use Rattle.std.specs.Option.{option_map_or};
ghost use Rattle.serde_json.specs.Data.{no_members};
ghost use Rattle.serde_json.specs.View.{view, members_view};
ghost use Rattle.tokens.specs.Tokens.{admin_in, claims_of, claims_in, identity_of};
ghost use Rattle.tokens.specs.Working.Parts.{parts_of, parts_seen};
ghost use Rattle.tokens.specs.Working.Told.{Tells};

use crate::claims::{are_claims, read_claims};
use crate::fault::TokensFault;
use crate::members::{has_only, lawful_text_at};
use evaluator::{Claims, Identity};
use json_tree::NoMemory;
use serde_json::{Map, Value};
use std::alloc::Global;
use tree_model::MAX_TEXT_BYTES;

// What an identity has, before its claims are read.
#[derive(Clone, Copy)]
struct Parts<'a> {
    uid: &'a str,
    provider: &'a str,
    admin: bool,
    claims: Option<&'a Map<String, Value>>,
}

// Whether a value is an identity. It takes no memory.
pub(crate) fn is_identity(value: &Value) -> bool
    ensures { result ≡ is_some (identity_of (view value.now)) }
{
    match parts_of(value) {
        Some(parts) => has_claims(parts.claims),
        None => false,
    }
}

fn has_claims(members: Option<&Map<String, Value>>) -> bool
    ensures { result ≡ is_some (claims_of
        (option_map_or (λ ms. members_view ms.now.entries) members.entry no_members)) }
{
    match members {
        Some(members) => are_claims(members),
        None => true,
    }
}

// The identity that a value is.
pub(crate) fn read_identity(alloc: Global, value: &Value) -> Result<Identity, TokensFault>
    ensures { Tells (λ who. who) result (identity_of (view value.now)) }
{
    let Some(parts) = parts_of(value) else {
        return Err(TokensFault::BadTokens);
    };
    let claims = claims_of(alloc, parts.claims)?;
    let who = with_claims(alloc, parts.uid, parts.provider, parts.admin, claims)?;
    Ok(who)
}

fn claims_of(alloc: Global, members: Option<&Map<String, Value>>) -> Result<Claims, TokensFault>
    ensures { Tells (λ claims. claims) result (claims_of
        (option_map_or (λ ms. members_view ms.now.entries) members.entry no_members)) }
{
    match members {
        Some(members) => read_claims(alloc, members),
        None => Ok(Claims::new(alloc)),
    }
}

fn with_claims(
    alloc: Global,
    uid: &str,
    provider: &str,
    admin: bool,
    claims: Claims,
) -> Result<Identity, NoMemory>
    requires uid { length uid.now ≤ MAX_TEXT_BYTES }
    requires provider { length provider.now ≤ MAX_TEXT_BYTES }
    ensures { IfOk result
        (λ who. who ≡ record { uid = uid.now; provider = provider.now; admin = admin; claims = claims }) }
{
    let uid = String::from_str(alloc, uid)?;
    let provider = String::from_str(alloc, provider)?;
    Ok(Identity::new(uid, provider, admin, claims))
}

fn parts_of(value: &Value) -> Option<Parts<'_>>
    ensures parts { option_map parts_seen result ≡ parts_of (view value.now) }
    ensures uid { IfSome result (λ parts. length parts.uid.now ≤ MAX_TEXT_BYTES) }
    ensures provider { IfSome result (λ parts. length parts.provider.now ≤ MAX_TEXT_BYTES) }
{
    if !has_only(value, &["uid", "provider", "admin", "claims"]) {
        return None;
    }
    let uid = lawful_text_at(value, "uid")?;
    let provider = lawful_text_at(value, "provider")?;
    let admin = admin_in(value)?;
    let claims = claims_in(value)?;
    Some(Parts {
        uid,
        provider,
        admin,
        claims,
    })
}

// Whether an identity is an administrator, if it says so lawfully.
fn admin_in(value: &Value) -> Option<bool>
    ensures { result ≡ admin_in (view value.now) }
{
    match value.get("admin") {
        Some(admin) => admin.as_bool(),
        None => Some(false),
    }
}

// The members of `claims`, None inside where it is not there.
fn claims_in(value: &Value) -> Option<Option<&Map<String, Value>>>
    ensures { option_map (λ claims. option_map_or (λ ms. members_view ms.now.entries) claims no_members) result
        ≡ claims_in (view value.now) }
{
    match value.get("claims") {
        Some(claims) => Some(Some(claims.as_object()?)),
        None => Some(None),
    }
}
