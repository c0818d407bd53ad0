//! The id of a listener.
ghost use Rattle.std.specs.Prelude.{◌≡◌, ◌↔◌, true, false, nat_eq, IfSome, IsNone};
ghost use Rattle.std.specs.Cmp.{partial_equiv_from_equiv};
ghost use Rattle.std.specs.Cmp.Lexicographic.{pointwise, nat_list_eq_equiv};
ghost use Rattle.std.specs.Cmp.Rules.{hashing};
ghost use Rattle.std.specs.Hash as fed;
ghost use Rattle.std.proofs.Common.{rules};
ghost use Rattle.listeners.specs.Table.{is_id};

use crate::limits::MAX_ID_BYTES;
use arrayvec::ArrayString;
use std::hash::{Hash, Hasher};
use std::marker::Model;

/// The id that a session gives a listener: a text of 1 to 64 bytes, which lie in the id itself, so
/// it takes no memory. Contracts see its bytes. (This project's profile.)
#[derive(Debug, Drop)]
pub struct ListenerId {
    held: ArrayString<MAX_ID_BYTES>,
}

impl Model for ListenerId {
    ghost use Rattle.std.specs.Prelude.{◌≡◌, ℕ, List, true};
    ghost use Rattle.listeners.specs.Table.{is_id};

    ghost Value = { List ℕ };

    ghost view = { λ id. id.held.bytes };

    ghost invariant = { λ id. is_id id.held.bytes ≡ true };
}

impl ListenerId {
    /// The id that a text is, None where it is empty or too long.
    pub fn new(text: &str) -> Option<ListenerId>
        ensures some { IfSome result (λ id. id ≡ text.now) }
        ensures none { IsNone result ↔ (is_id text.now ≡ false) }
    {
        if text.is_empty() {
            return None;
        }
        match ArrayString::from(text) {
            Ok(held) => Some(ListenerId { held }),
            Err(_) => None,
        }
    }

    /// The text of the id.
    pub fn text(&self) -> &str
        ensures bytes { result.now ≡ self.now }
        ensures lawful { is_id self.now ≡ true }
    {
        self.held.as_str()
    }

    /// The same id once more.
    pub fn copy(&self) -> ListenerId
        ensures { result ≡ self.now }
    {
        ListenerId { held: self.held }
    }
}

impl PartialEq for ListenerId {
    ghost eq = { λ id other. pointwise nat_eq id other };

    ghost laws = { partial_equiv_from_equiv nat_list_eq_equiv };

    fn eq(&self, other: &Self) -> bool {
        self.text() == other.text()
    }
}

impl Eq for ListenerId {
    ghost laws = { nat_list_eq_equiv };
}

impl Hash for ListenerId {
    ghost hash_input = { λ id. fed.str id };

    ghost respects_eq = { Prim.search (hashing, rules) };

    fn hash<H: Hasher>(&self, state: &mut H) {
        self.text().hash(state);
    }
}
