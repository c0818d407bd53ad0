//! A text that is kept.
ghost use Rattle.std.specs.Prelude.{◌≡◌, string_bytes};

use std::marker::Model;

/// The text that a quoted text of an expression means, in memory of its own. Contracts see its bytes.
#[derive(Debug, Drop)]
pub struct Text {
    held: String,
}

impl Model for Text {
    ghost use Rattle.std.specs.Prelude.{ℕ, List, string_bytes};

    ghost Value = { List ℕ };

    ghost view = { λ text. string_bytes text.held };
}

impl Text {
    /// The text.
    pub fn as_str(&self) -> &str
        ensures { result.now ≡ self.now }
    {
        self.held.as_str()
    }

    // The text of these bytes.
    pub(crate) fn of_string(held: String) -> Text
        ensures { result ≡ string_bytes held }
    {
        Text { held }
    }
}
