//! The limits of a text of tokens, each with its reason.
ghost use Rattle.std.specs.Prelude.{◌≡◌};

/// The most bytes that the text of an expression has. (This project's profile.)
pub const MAX_EXPRESSION_BYTES: usize = 4096;

/// The greatest number that can be written, 2^53 - 1: every number up to it has an exact double.
/// (This project's profile.)
pub const MAX_NUMBER: u64 = 9_007_199_254_740_991;

/// The limits in numbers, as the definitions have them.
pub fn the_limits()
    ensures bytes { MAX_EXPRESSION_BYTES ≡ 4096 }
    ensures number { MAX_NUMBER ≡ 9007199254740991 }
{}
