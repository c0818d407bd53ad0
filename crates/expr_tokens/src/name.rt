//! A name that is kept.
ghost use Rattle.std.specs.Prelude.{◌≡◌, IfOk};
ghost use Rattle.expr_tokens.specs.Known.{Tells};

use crate::known::KnownName;
use arrayvec::ArrayString;
use std::alloc::{AllocError, Global};
use std::marker::Model;

// How many bytes of a name lie in the name itself: more than most names have.
const SHORT_BYTES: usize = 16;

/// A name of an expression, in memory of its own: of a variable, of what stands behind a dot, or of a
/// capture, without its `$`. The bytes of a name of at most 16 lie in it, and take no growth. Which known name
/// it is, is found once, when it is made. Contracts see its bytes.
#[derive(Debug, Drop)]
pub struct Name {
    known: Option<KnownName>,
    held: HeldName,
}

// The bytes of a name: in itself, or in a growth.
#[derive(Debug, Drop)]
pub(crate) enum HeldName {
    Short(ArrayString<SHORT_BYTES>),
    Long(String),
}

impl Model for Name {
    ghost use Rattle.std.specs.Prelude.{ℕ, List};
    ghost use Rattle.expr_tokens.specs.Working.HeldName.{bytes_of};

    ghost Value = { List ℕ };

    ghost view = { λ name. bytes_of name.held };

    ghost use Rattle.expr_tokens.specs.Known.{Tells};

    ghost invariant = { λ name. Tells name.known (bytes_of name.held) };
}

impl Name {
    /// The text of the name.
    pub fn as_str(&self) -> &str
        ensures { result.now ≡ self.now }
    {
        match &self.held {
            HeldName::Short(text) => text.as_str(),
            HeldName::Long(text) => text.as_str(),
        }
    }

    /// The known name that it is, if it is one, in constant time.
    pub fn known(&self) -> Option<KnownName>
        ensures { Tells result self.now }
    {
        self.known
    }

    // The name of this text, in one growth at most.
    pub(crate) fn of_text(alloc: Global, text: &str) -> Result<Name, AllocError>
        ensures { IfOk result (λ name. name ≡ text.now) }
    {
        let held = match ArrayString::from(text) {
            Ok(short) => HeldName::Short(short),
            Err(_) => HeldName::Long(String::from_str(alloc, text)?),
        };
        let known = KnownName::of(text);
        Ok(Name { known, held })
    }
}
