//! What a script is read from, and what its answers are written to.
ghost use Rattle.std.specs.Prelude.{◌≡◌, ℕ, ◌+◌, ◌≤◌, ◌<◌, ◌^◌, Bool, true, false, List, length, IfOk, OnOk, MatchResult, Option};
ghost use Rattle.std.specs.Io.KnownBytes.{ReadConsumes, WriteAppends, Keeps};

/// A read, a write or a flush failed, for whatever reason.
#[derive(Clone, Copy, Debug, PartialEq, Eq)]
pub struct Broken;

/// What bytes are read from, up to 2^40 times, and until it fails.
pub trait Source {
    // The bytes that are still to be read, where they are known.
    ghost left: { Self → Option (List ℕ) };

    // How many reads were made so far.
    ghost reads: { Self → ℕ };

    // Whether one of them failed.
    ghost failed: { Self → Bool };

    /// Fills the buffer from its front, and answers how many bytes came. Into a buffer that has room
    /// none come only at the end of the input. It may wait for the other side. After a read that failed
    /// none is made.
    fn read(&mut self, buffer: &mut [u8]) -> Result<usize, Broken>
        requires few { reads self.old < 2 ^ 40 }
        requires sound { failed self.old ≡ false }
        ensures count { IfOk result (λ n. n ≤ length buffer.new) }
        ensures bytes { ReadConsumes (left self.old) (left self.new) result buffer.new }
        ensures reads { reads self.new ≡ reads self.old + 1 }
        ensures failed { MatchResult result (λ _. failed self.new ≡ failed self.old) (λ _. failed self.new ≡ true) };
}

/// What bytes are written to, until it fails.
pub trait Sink {
    // All bytes that were written so far, where they are known.
    ghost written: { Self → Option (List ℕ) };

    // Whether a write or a flush failed.
    ghost failed: { Self → Bool };

    // Whether no layer below still holds any of the bytes, as after a flush and before all writes.
    ghost handed_on: { Self → Bool };

    /// Writes bytes from the front of a text, and answers how many: of a text that is not empty at
    /// least one. It may wait for the other side.
    fn write(&mut self, text: &[u8]) -> Result<usize, Broken>
        requires { failed self.old ≡ false }
        ensures count { IfOk result (λ n. n ≤ length text.now) }
        ensures some { IfOk result (λ n. 0 < length text.now → 0 < n) }
        ensures bytes { WriteAppends (written self.old) (written self.new) result text.now }
        ensures failed { MatchResult result (λ _. failed self.new ≡ failed self.old) (λ _. failed self.new ≡ true) };

    /// Hands on whatever a layer below still holds of the bytes that were written.
    fn flush(&mut self) -> Result<(), Broken>
        requires { failed self.old ≡ false }
        ensures bytes { Keeps (written self.old) (written self.new) }
        ensures handed_on { OnOk result (handed_on self.new ≡ true) }
        ensures failed { MatchResult result (λ _. failed self.new ≡ failed self.old) (λ _. failed self.new ≡ true) };
}
