//! Tokens: who signs in by which secret.
ghost use Rattle.std.specs.Prelude.{◌≡◌, ◌↔◌, ◌&&◌, ◌++◌, ◌∷◌, [], length, option_map, is_some, Some, None, IfOk, IsErrOf, OnOk};
ghost use Rattle.serde_json.specs.View.{view, members_view};
ghost use Rattle.tokens.specs.Tokens.{is_secret, identity_of, identity_named, tokens_of_members, tokens_of, json_of, tokens_in, top};
ghost use Rattle.tokens.specs.Working.Entries.{StandsBehind, with_member};
ghost use Rattle.tokens.specs.Working.Told.{Tells};

use crate::fault::TokensFault;
use crate::identity::{is_identity, read_identity};
use crate::members::{has_only, is_lawful_text};
use evaluator::Identity;
use json_tree::NoMemory;
use serde_json::{Map, Value};
use std::alloc::Global;
use std::collections::BTreeMap;
use std::marker::Model;

/// Secrets, each with the identity that it signs in. Contracts see the list of pairs, in the byte order
/// of the secrets. It has no `Debug`, so that no secret is printed. (This project's profile.)
#[derive(Drop)]
pub struct Tokens {
    held: BTreeMap<String, Identity>,
}

impl Model for Tokens {
    ghost use Rattle.std.specs.Prelude.{map};
    ghost use Rattle.tokens.specs.Tokens as specs;
    ghost use Rattle.tokens.specs.Tokens.{tokens_code};
    ghost use Rattle.tokens.specs.Working.Entries.{signed_in};

    ghost Value = { specs.Tokens };

    ghost coded = { tokens_code };

    ghost view = { λ tokens. map signed_in tokens.held.entries };
}

impl Tokens {
    /// No tokens: nobody can sign in. It takes no memory.
    pub fn new(alloc: Global) -> Tokens
        ensures { result ≡ [] }
    {
        Tokens {
            held: BTreeMap::new(alloc),
        }
    }

    /// The tokens of a file, `{"tokens":T}`: one pass over its bytes for a JSON value, and two over T. Want
    /// of memory may come in the place of [`TokensFault::BadTokens`]. (This project's profile.)
    #[tactic(auto, unfolding(crate::specs::Tokens::tokens_in))]
    pub fn read(alloc: Global, bytes: &[u8]) -> Result<Tokens, TokensFault>
        ensures tokens { IfOk result (λ tokens. tokens_in bytes.now ≡ Some tokens) }
        ensures bad_tokens { IsErrOf result TokensFault.BadTokens → tokens_in bytes.now ≡ None }
    {
        let value = read_value(alloc, bytes)?;
        match top(&value) {
            Some(tokens) => Tokens::from_json(alloc, tokens),
            None => Err(TokensFault::BadTokens),
        }
    }

    /// The tokens that a value is, each a member with its identity. Two passes, of which the first takes no
    /// memory: so what is no tokens is always answered as such. (This project's profile.)
    #[tactic(auto, unfolding(crate::specs::Tokens::tokens_of))]
    pub fn from_json(alloc: Global, value: &Value) -> Result<Tokens, TokensFault>
        ensures tokens { IfOk result (λ tokens. tokens_of (view value.now) ≡ Some tokens) }
        ensures bad_tokens { IsErrOf result TokensFault.BadTokens ↔ (tokens_of (view value.now) ≡ None) }
    {
        match value.as_object() {
            Some(members) => if are_tokens(members) {
                build(alloc, members)
            } else {
                Err(TokensFault::BadTokens)
            },
            None => Err(TokensFault::BadTokens),
        }
    }

    /// Who signs in by this secret, if anybody does: a few comparisons of texts for each level of a tree
    /// of secrets, as many as the logarithm of their number, and no memory.
    pub fn find(&self, secret: &str) -> Option<&Identity>
        ensures { option_map (λ who. who.now) result ≡ identity_named self.now secret.now }
    {
        self.held.get(secret)
    }

    /// How many secrets there are, in constant time.
    pub fn len(&self) -> usize
        ensures { result ≡ length self.now }
    {
        self.held.len()
    }

    // Adds a secret that stands behind all others.
    fn put(&mut self, alloc: Global, secret: &str, who: Identity) -> Result<(), NoMemory>
        requires { StandsBehind secret.now self.old }
        ensures { OnOk result (self.new ≡ self.old ++ (secret.now, who) ∷ []) }
    {
        self.held.insert(String::from_str(alloc, secret)?, who)?;
        Ok(())
    }

    // Adds a member, which stands behind all others.
    fn add(&mut self, alloc: Global, secret: &str, value: &Value) -> Result<(), TokensFault>
        requires { StandsBehind secret.now self.old }
        ensures { Tells (λ _. self.new) result (with_member self.old secret.now (view value.now)) }
    {
        if !is_secret(secret) {
            return Err(TokensFault::BadTokens);
        }
        let who = read_identity(alloc, value)?;
        self.put(alloc, secret, who)?;
        Ok(())
    }
}

// ---- the first pass: whether all is lawful

#[tactic(auto, using(crate::proofs::Ahead::token_passed, crate::proofs::Ahead::token_refused))]
fn are_tokens(members: &Map<String, Value>) -> bool
    ensures { result ≡ is_some (tokens_of_members (members_view members.now.entries)) }
{
    for (secret, value) in members.iter() {
        if !is_token(secret.as_str(), value) {
            return false;
        }
    }
    true
}

fn is_token(secret: &str, value: &Value) -> bool
    ensures { result ≡ (is_secret secret.now && is_some (identity_of (view value.now))) }
{
    is_secret(secret) && is_identity(value)
}

fn is_secret(secret: &str) -> bool
    ensures { result ≡ is_secret secret.now }
{
    !secret.is_empty() && is_lawful_text(secret)
}

// ---- the second pass: the tokens

#[tactic(auto, using(crate::proofs::Halves::tokens_first, crate::proofs::Halves::tokens_last, crate::proofs::Halves::tokens_step, crate::proofs::Halves::tokens_fault, crate::proofs::Secrets::ascend_first, crate::proofs::Secrets::ascend_step))]
fn build(alloc: Global, members: &Map<String, Value>) -> Result<Tokens, TokensFault>
    ensures { Tells (λ tokens. tokens) result (tokens_of_members (members_view members.now.entries)) }
{
    let mut tokens = Tokens::new(alloc);
    for (secret, value) in members.iter() {
        tokens.add(alloc, secret.as_str(), value)?;
    }
    Ok(tokens)
}

// ---- the file

fn read_value(alloc: Global, bytes: &[u8]) -> Result<Value, TokensFault>
    ensures { Tells view result (json_of bytes.now) }
{
    match Value::from_slice(alloc, bytes) {
        Ok(value) => Ok(value),
        Err(fault) => if fault.is_memory() {
            Err(TokensFault::NoMemory)
        } else {
            Err(TokensFault::BadTokens)
        },
    }
}

// What stands under `tokens`, if nothing stands beside it.
fn top(value: &Value) -> Option<&Value>
    ensures { option_map (λ tokens. view tokens.now) result ≡ top (view value.now) }
{
    if !has_only(value, &["tokens"]) {
        return None;
    }
    value.get("tokens")
}
