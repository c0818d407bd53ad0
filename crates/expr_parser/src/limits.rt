//! The limit of an expression, with its reason.
ghost use Rattle.std.specs.Prelude.{◌≡◌};

/// The most levels that are open at once in an expression, so that reading one has a bounded depth.
/// (This project's profile.)
pub const MAX_LEVELS: usize = 64;

/// The limit in a number, as the definitions have it.
pub fn the_limit_of_levels()
    ensures { MAX_LEVELS ≡ 64 }
{}
