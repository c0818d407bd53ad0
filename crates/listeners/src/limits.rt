//! The limits of queries and of listeners, each with its source.
ghost use Rattle.std.specs.Prelude.{◌≡◌};

/// The most children that a query can limit itself to. (This project's profile.)
pub const MAX_LIMIT: u16 = 1_000;

/// The limit in numbers, since all definitions have it by its name.
pub fn the_greatest_limit()
    ensures { MAX_LIMIT ≡ 1000 }
{}

/// The most bytes of the id that a session gives a listener. (This project's profile.)
pub const MAX_ID_BYTES: usize = 64;

/// The most listeners of a session. (This project's profile.)
pub const MAX_LISTENERS: usize = 64;

/// The limits of listeners in numbers.
pub fn the_limits_of_listeners()
    ensures id { MAX_ID_BYTES ≡ 64 }
    ensures listeners { MAX_LISTENERS ≡ 64 }
{}
