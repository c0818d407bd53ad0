//! The limits of keys, paths and primitives, each with its reason.

/// The most bytes that a key has. (Guide "Structure Your Database", how data is structured.)
pub const MAX_KEY_BYTES: usize = 768;

/// The most keys above a primitive, and in a path. (Guide "Structure Your Database", avoid nesting
/// data.)
pub const MAX_DEPTH: usize = 32;

/// The least whole number: every number from here to [`MAX_WHOLE`] has an exact double. (This
/// project's profile.)
pub const MIN_WHOLE: i64 = -9_007_199_254_740_991;

/// The greatest whole number, 2^53 - 1. (This project's profile.)
pub const MAX_WHOLE: i64 = 9_007_199_254_740_991;

/// The most bytes that a text has. (This project's profile.)
pub const MAX_TEXT_BYTES: usize = 65_536;
