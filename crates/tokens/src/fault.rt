//! Why a text is no tokens file.
ghost use Rattle.std.specs.Prelude.{◌≡◌};
ghost use Rattle.tokens.specs.declared.fault.TokensFault.TheVariants.{NoMemory as no_memory};

use json_tree::NoMemory;
use thiserror::Error;

/// Why a text or a value gives no tokens.
#[derive(Clone, Copy, Debug, PartialEq, Eq, Error)]
pub enum TokensFault {
    /// It is no JSON, or not of the shape of tokens, or a secret, a text or a claim is not lawful.
    #[error("no lawful tokens")]
    BadTokens,
    #[error("out of memory")]
    NoMemory,
}

impl From<NoMemory> for TokensFault {
    ghost from_gives = { λ _ fault. fault ≡ no_memory };

    fn from(_refused: NoMemory) -> TokensFault {
        TokensFault::NoMemory
    }
}
