//! Who asks: an identity, and its claims.
ghost use Rattle.std.specs.Prelude.{◌≡◌, ◌++◌, ◌≤◌, [], ◌∷◌, length, option_map, slice_get, string_bytes, IfOk, OnOk, OnErr};
ghost use Rattle.json_tree.specs.Leaf.{primitive_of};
ghost use Rattle.evaluator.specs.Identity as identities;
ghost use Rattle.evaluator.specs.Identity.{claim_named, claimed, AreLawfulClaims, IsLawfulIdentity};

use json_tree::{Leaf, NoMemory};
use std::alloc::Global;
use std::marker::Model;
use tree_model::MAX_TEXT_BYTES;

/// The claims of an identity, each a name and a primitive. Contracts see the list of pairs. (Reference,
/// `auth` variable, `token`.)
#[derive(Debug, Drop)]
pub struct Claims {
    held: Vec<Claim>,
}

#[derive(Debug, Drop)]
pub(crate) struct Claim {
    pub(crate) name: String,
    pub(crate) value: Leaf,
}

impl Model for Claims {
    ghost use Rattle.std.specs.Prelude.{map};
    ghost use Rattle.evaluator.specs.Identity as identities;
    ghost use Rattle.evaluator.specs.Identity.{claimed, claims_code, AreLawfulClaims};

    ghost Value = { identities.Claims };

    ghost coded = { claims_code };

    ghost view = { λ claims. map claimed claims.held.items };

    ghost invariant = { λ claims. AreLawfulClaims (map claimed claims.held.items) };
}

impl Claims {
    /// No claims. It takes no memory.
    pub fn new(alloc: Global) -> Claims
        ensures { result ≡ [] }
    {
        Claims {
            held: Vec::new(alloc),
        }
    }

    /// Adds a claim at the end, which may grow the list.
    pub fn push(&mut self, name: String, value: Leaf) -> Result<(), NoMemory>
        ensures ok { OnOk result (self.new ≡ self.old ++ (string_bytes name, primitive_of value) ∷ []) }
        ensures err { OnErr result (self.new ≡ self.old) }
    {
        value.law();
        self.held.push(Claim { name, value })?;
        Ok(())
    }

    /// How many claims there are, in constant time.
    pub fn len(&self) -> usize
        ensures { result ≡ length self.now }
    {
        self.held.len()
    }

    /// The name and the value of the claim at an index, and `None` from the length on, in constant time.
    pub fn claim_at(&self, i: usize) -> Option<(&str, &Leaf)>
        ensures { option_map (λ claim. (claim.0.now, primitive_of claim.1.now)) result ≡ slice_get self.now i }
    {
        let claim = self.held.get(i)?;
        Some((claim.name.as_str(), &claim.value))
    }

    /// The value of the first claim of this name, if there is one: time linear in their number, and no
    /// memory.
    pub fn value_of(&self, name: &str) -> Option<&Leaf>
        ensures { option_map (λ leaf. primitive_of leaf.now) result ≡ claim_named name.now self.now }
    {
        for claim in &self.held {
            if name == claim.name.as_str() {
                return Some(&claim.value);
            }
        }
        None
    }

    /// The same claims once more: the growths of a list that is pushed to, and one for each name and each long
    /// text.
    pub fn copy(&self, alloc: Global) -> Result<Claims, NoMemory>
        ensures { IfOk result (λ claims. claims ≡ self.now) }
    {
        let mut claims = Claims::new(alloc);
        for claim in &self.held {
            let name = String::from_str(alloc, claim.name.as_str())?;
            claims.push(name, claim.value.copy(alloc)?)?;
        }
        Ok(claims)
    }

    /// The value of every claim lies within the limits. It does nothing.
    pub fn law(&self)
        ensures { AreLawfulClaims self.now }
    {
        let _held = &self.held;
    }
}

/// Who asks: `auth` of a rule where somebody is signed in, and whether it is an administrator, which no
/// rule sees. Contracts see a record. (Reference, `auth` variable.)
#[derive(Debug, Drop)]
pub struct Identity {
    uid: String,
    provider: String,
    admin: bool,
    claims: Claims,
}

impl Model for Identity {
    ghost use Rattle.std.specs.Prelude.{string_bytes};
    ghost use Rattle.evaluator.specs.Identity as identities;
    ghost use Rattle.evaluator.specs.Identity.{identity_code, IsLawfulIdentity};

    ghost Value = { identities.Identity };

    ghost coded = { identity_code };

    ghost view = { λ who. record { uid = string_bytes who.uid; provider = string_bytes who.provider; admin = who.admin; claims = who.claims } };

    ghost invariant = { λ who. IsLawfulIdentity (record { uid = string_bytes who.uid; provider = string_bytes who.provider; admin = who.admin; claims = who.claims }) };
}

impl Identity {
    /// The identity of these texts and claims. It takes no memory.
    pub fn new(uid: String, provider: String, admin: bool, claims: Claims) -> Identity
        requires uid { length (string_bytes uid) ≤ MAX_TEXT_BYTES }
        requires provider { length (string_bytes provider) ≤ MAX_TEXT_BYTES }
        ensures { result ≡ record { uid = string_bytes uid; provider = string_bytes provider; admin = admin; claims = claims } }
    {
        uid.as_str();
        provider.as_str();
        claims.law();
        Identity {
            uid,
            provider,
            admin,
            claims,
        }
    }

    /// Which user it is.
    pub fn uid(&self) -> &str
        ensures { result.now ≡ self.now.uid }
    {
        self.uid.as_str()
    }

    /// By what the user signed in.
    pub fn provider(&self) -> &str
        ensures { result.now ≡ self.now.provider }
    {
        self.provider.as_str()
    }

    /// Whether it may deploy rules, which no rule sees. (This project's profile.)
    pub fn admin(&self) -> bool
        ensures { result ≡ self.now.admin }
    {
        self.admin
    }

    /// What else is claimed of the user: `auth.token`.
    pub fn claims(&self) -> &Claims
        ensures { result.now ≡ self.now.claims }
    {
        &self.claims
    }

    /// The same identity once more: a growth for each of its texts, for each claim's name and long text, and
    /// those of the list of claims.
    pub fn copy(&self, alloc: Global) -> Result<Identity, NoMemory>
        ensures { IfOk result (λ who. who ≡ self.now) }
    {
        let uid = String::from_str(alloc, self.uid())?;
        let provider = String::from_str(alloc, self.provider())?;
        let claims = self.claims.copy(alloc)?;
        self.law();
        Ok(Identity::new(uid, provider, self.admin, claims))
    }

    /// Its texts and the values of its claims lie within the limits. It does nothing.
    pub fn law(&self)
        ensures { IsLawfulIdentity self.now }
    {
        let _uid = &self.uid;
    }
}
