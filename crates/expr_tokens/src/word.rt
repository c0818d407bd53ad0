//! The word of a name, where it stands in a text.
ghost use Rattle.std.specs.Prelude.{◌≡◌, IfOk};

use crate::name::Name;
use std::alloc::{AllocError, Global};
use std::marker::Model;

/// The word of a name, borrowed from the text that it stands in. Contracts see its bytes.
#[derive(Debug, Drop)]
pub struct Word<'a> {
    held: &'a str,
}

impl<'a> Model for Word<'a> {
    ghost use Rattle.std.specs.Prelude.{ℕ, List};

    ghost Value = { List ℕ };

    ghost view = { λ word. word.held.now };
}

impl<'a> Word<'a> {
    /// The name in memory of its own, in one growth at most.
    pub fn copy(&self, alloc: Global) -> Result<Name, AllocError>
        ensures { IfOk result (λ name. name ≡ self.now) }
    {
        Name::of_text(alloc, self.held)
    }

    // The word that is this text.
    pub(crate) fn of_text(held: &'a str) -> Word<'a>
        ensures { result ≡ held.now }
    {
        Word { held }
    }
}
