//! The limit of messages.
ghost use Rattle.std.specs.Prelude.{◌≡◌};

/// The most bytes of a message, without its line feed. (This project's profile.)
pub const MAX_MESSAGE_BYTES: usize = 1_048_576;

/// How many members of an object are moved at most where one is put among them. An object of more members that stand
/// in no order is read as a value: to move all of them for each would take time by the square of their number.
pub(crate) const MAX_MOVED: usize = 256;

/// The limit in a number, since all definitions have it by its name.
pub fn the_limit_of_messages()
    ensures { MAX_MESSAGE_BYTES ≡ 1048576 }
{}
