//! The limits of sessions and their actions, of moments and of the stored tree, each with its reason.
ghost use Rattle.std.specs.Prelude.{◌≡◌};

use evaluator::MAX_MOMENT;

/// The most sessions that are open at a time. (This project's profile.)
pub const MAX_SESSIONS: usize = 64;

/// The most actions that a session has, to be made when it goes. (This project's profile.)
pub const MAX_ACTIONS: usize = 16;

/// The most locations that exist in the stored tree, the root among them. (This project's profile.)
pub const MAX_LOCATIONS: usize = 65_536;

/// The limits in numbers, since all definitions have them by their names.
pub fn the_limits()
    ensures sessions { MAX_SESSIONS ≡ 64 }
    ensures actions { MAX_ACTIONS ≡ 16 }
    ensures locations { MAX_LOCATIONS ≡ 65536 }
    ensures moment { MAX_MOMENT ≡ 9007199254740991 }
{}
