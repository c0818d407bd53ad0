//! How much a file has room for.

/// How many bytes the entries of a group take at most.
pub const MAX_GROUP_BYTES: usize = 1 << 24;

/// No group has this number.
pub const MAX_GROUPS: u64 = 1_000_000_000_000;

/// No group begins this far into a file.
pub const MAX_FILE_BYTES: usize = 1_000_000_000_000_000;

/// The bytes of a file's first line.
pub(crate) const FIRST_LINE_BYTES: usize = 97;

/// The bytes of a header before its sum.
pub(crate) const FRONT_BYTES: usize = 120;

/// The bytes of a header, with its sum and its line feed.
pub(crate) const HEADER_BYTES: usize = 185;

/// The digits of a group's number, of the length of its text or of an entry, and of what was durable.
pub(crate) const NUMBER_DIGITS: usize = 12;

pub(crate) const LENGTH_DIGITS: usize = 8;

pub(crate) const DURABLE_DIGITS: usize = 15;
