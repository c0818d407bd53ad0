//! What a server prints its lines to.

/// A text could not be printed, for whatever reason.
#[derive(Clone, Copy, Debug, PartialEq, Eq)]
pub struct Unprinted;

/// What a server prints its lines to, until that fails. A sink of scripts, or a writer that is flushed behind each
/// text, is one.
pub trait Printer {
    ghost use Rattle.std.specs.Prelude.{◌≡◌, ℕ, Bool, true, false, List, Option, OnOk, MatchResult};
    ghost use Rattle.std.specs.Io.KnownBytes.{Appends};

    // All bytes that were printed so far, where they are known.
    ghost printed: { Self → Option (List ℕ) };

    // Whether printing has failed.
    ghost failed: { Self → Bool };

    /// Prints a whole text, so that its reader can have it at once. It may wait for the reader. After an error some
    /// of the text may have been printed, and nothing more is.
    fn print(&mut self, text: &[u8]) -> Result<(), Unprinted>
        requires { failed self.old ≡ false }
        ensures printed { OnOk result (Appends (printed self.old) (printed self.new) text.now) }
        ensures failed { MatchResult result (λ _. failed self.new ≡ false) (λ _. failed self.new ≡ true) };
}
