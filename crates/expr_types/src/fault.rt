//! Why an expression may not stand in a rule.
ghost use Rattle.std.specs.Prelude.{◌≡◌, ◌++◌, codes, IfOk};
ghost use Rattle.expr_types.specs.declared.fault.TypeFault.TheVariants.{NoMemory as no_memory};

use std::alloc::{AllocError, Global};
use std::marker::Model;
use thiserror::Error;

/// A name that a fault is about, in memory of its own: of a variable, of a capture with its `$`, or of
/// what stands behind a dot. Contracts see its bytes.
#[derive(Debug, Drop)]
pub struct FaultyName {
    held: String,
}

impl Model for FaultyName {
    ghost use Rattle.std.specs.Prelude.{ℕ, List, string_bytes};

    ghost Value = { List ℕ };

    ghost view = { λ name. string_bytes name.held };
}

impl FaultyName {
    /// The text of the name.
    pub fn as_str(&self) -> &str
        ensures { result.now ≡ self.now }
    {
        self.held.as_str()
    }

    // The name of this text, in one growth.
    pub(crate) fn of_text(alloc: Global, text: &str) -> Result<FaultyName, AllocError>
        ensures { IfOk result (λ name. name ≡ text.now) }
    {
        Ok(FaultyName {
            held: String::from_str(alloc, text)?,
        })
    }

    // The name of a capture, behind its `$`.
    pub(crate) fn of_capture(alloc: Global, text: &str) -> Result<FaultyName, AllocError>
        ensures { IfOk result (λ name. name ≡ codes "$" ++ text.now) }
    {
        let mut held = String::from_str(alloc, "$")?;
        held.push_str(text)?;
        Ok(FaultyName { held })
    }
}

/// Why an expression may not stand in a rule.
#[derive(Debug, Drop, Error)]
pub enum TypeFault {
    /// The rules language has this name, and the project's profile leaves it out.
    #[error("`{}` is not in the profile", .0.as_str())]
    NotInProfile(FaultyName),
    /// Something stands where another sort is wanted, or no row of the table has a name so.
    #[error("something of another sort is wanted")]
    TypeError,
    /// There is no such name where it stands.
    #[error("`{}` is no name here", .0.as_str())]
    UnknownName(FaultyName),
    #[error("out of memory")]
    NoMemory,
}

impl From<AllocError> for TypeFault {
    ghost from_gives = { λ _ fault. fault ≡ no_memory };

    fn from(_refused: AllocError) -> TypeFault {
        TypeFault::NoMemory
    }
}
