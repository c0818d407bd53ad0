//! Why a text is no expression.
ghost use Rattle.std.specs.Prelude.{◌≡◌};
ghost use Rattle.expr_tokens.specs.Excluded.{name_of};
ghost use Rattle.expr_tokens.specs.declared.fault.ExprFault.TheVariants.{NoMemory as no_memory};

use std::alloc::{AllocError, AllocFailed};
use thiserror::Error;

/// Why a text is no expression.
#[derive(Clone, Copy, Debug, PartialEq, Eq, Error)]
pub enum ExprFault {
    /// The text is no expression, which shows at this byte of it. Places are those of UTF-8.
    #[error("no expression at byte {byte}")]
    BadExpression { byte: usize },
    /// The rules language has this, and the project's profile leaves it out.
    #[error("`{}` is not in the profile", .0.name())]
    NotInProfile(Excluded),
    #[error("out of memory")]
    NoMemory,
}

impl From<AllocError> for ExprFault {
    ghost from_gives = { λ _ fault. fault ≡ no_memory };

    fn from(_refused: AllocError) -> ExprFault {
        ExprFault::NoMemory
    }
}

impl<T: Drop> From<AllocFailed<T>> for ExprFault {
    ghost from_gives = { λ _ fault. fault ≡ no_memory };

    fn from(_refused: AllocFailed<T>) -> ExprFault {
        ExprFault::NoMemory
    }
}

/// What of the rules language the profile leaves out.
#[derive(Clone, Copy, Debug, PartialEq, Eq)]
pub enum Excluded {
    /// Division and patterns, by their first sign.
    Slash,
    /// A number with a point or an exponent.
    Number,
    /// An index into a value.
    Bracket,
}

impl Excluded {
    /// What a report calls it.
    pub fn name(self) -> &'static str
        ensures { result.now ≡ name_of self }
    {
        match self {
            Excluded::Slash => "/",
            Excluded::Number => "number",
            Excluded::Bracket => "[",
        }
    }
}
