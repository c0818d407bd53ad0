//! The calls of a disk, and what each promises.
ghost use Rattle.std.specs.Prelude.{◌≡◌, ◌⊎◌, ◌+◌, ◌≤◌, ◌++◌, ℕ, Bool, List, [], length, take, drop, IfOk, OnOk};
ghost use Rattle.disk.specs.Disk.{overwritten, Torn, Shortened, ComesFrom, Just, StaysSo, TimeGoesOn, FailsForGood};

/// The disk has failed: this call, or one before it. Nothing is written from then on; open the file again.
#[derive(Clone, Copy, Debug, PartialEq, Eq)]
pub struct Failed;

/// One file, and a new one beside it that can take its place.
pub trait Disk {
    /// A read returns these bytes.
    ghost holds: { Self → List ℕ → Type 0 };

    /// The new file beside it has these bytes.
    ghost draft: { Self → List ℕ → Type 0 };

    /// A crash at this moment may leave this under the file's name.
    ghost may_leave: { Self → List ℕ → Type 0 };

    /// The moment, as a number that does not fall.
    ghost moment: { Self → ℕ };

    /// A crash at some moment from that one on might have left this, during a call or between two.
    ghost left_since: { Self → ℕ → List ℕ → Type 0 };

    /// Some call has failed.
    ghost has_failed: { Self → Bool };

    /// Whether some call has failed.
    fn is_failed(&self) -> bool
        ensures { result ≡ has_failed self.now };

    /// How long the file is.
    fn len(&mut self) -> Result<usize, Failed>
        ensures len { (file : List ℕ) → holds self.old file → IfOk result (λ n. n ≡ length file) }
        ensures file { StaysSo holds self.old self.new }
        ensures draft { StaysSo draft self.old self.new }
        ensures crash { StaysSo may_leave self.new self.old }
        ensures time { TimeGoesOn (moment self.old) (moment self.new) (left_since self.old) (left_since self.new) (may_leave self.new) }
        ensures fails { FailsForGood has_failed self.old self.new result };

    /// Fills a buffer with the bytes from a place on.
    fn read_at(&mut self, at: usize, buffer: &mut [u8]) -> Result<(), Failed>
        ensures bytes { (file : List ℕ) → holds self.old file → at + length buffer.old ≤ length file → OnOk result (buffer.new ≡ take (length buffer.old) (drop at file)) }
        ensures file { StaysSo holds self.old self.new }
        ensures draft { StaysSo draft self.old self.new }
        ensures crash { StaysSo may_leave self.new self.old }
        ensures time { TimeGoesOn (moment self.old) (moment self.new) (left_since self.old) (left_since self.new) (may_leave self.new) }
        ensures fails { FailsForGood has_failed self.old self.new result };

    /// Writes from a place on, over what stands there and past the end. Until a sync a crash may leave any bytes in
    /// that range.
    fn write_at(&mut self, at: usize, bytes: &[u8]) -> Result<(), Failed>
        ensures file { (file : List ℕ) → holds self.old file → at ≤ length file → OnOk result (holds self.new (overwritten at bytes.now file)) }
        ensures draft { StaysSo draft self.old self.new }
        ensures crash { ComesFrom (Torn at (length bytes.now)) (may_leave self.old) (may_leave self.new) }
        ensures time { TimeGoesOn (moment self.old) (moment self.new) (left_since self.old) (left_since self.new) (may_leave self.new) }
        ensures fails { FailsForGood has_failed self.old self.new result };

    /// Cuts the file to a length.
    fn cut(&mut self, len: usize) -> Result<(), Failed>
        ensures file { (file : List ℕ) → holds self.old file → len ≤ length file → OnOk result (holds self.new (take len file)) }
        ensures draft { StaysSo draft self.old self.new }
        ensures crash { ComesFrom (Shortened len) (may_leave self.old) (may_leave self.new) }
        ensures time { TimeGoesOn (moment self.old) (moment self.new) (left_since self.old) (left_since self.new) (may_leave self.new) }
        ensures fails { FailsForGood has_failed self.old self.new result };

    /// From its `Ok` on a crash leaves what a read returns.
    fn sync(&mut self) -> Result<(), Failed>
        ensures durable { (file : List ℕ) → holds self.old file → OnOk result (Just file (may_leave self.new)) }
        ensures file { StaysSo holds self.old self.new }
        ensures draft { StaysSo draft self.old self.new }
        ensures crash { StaysSo may_leave self.new self.old }
        ensures time { TimeGoesOn (moment self.old) (moment self.new) (left_since self.old) (left_since self.new) (may_leave self.new) }
        ensures fails { FailsForGood has_failed self.old self.new result };

    /// Begins a new file beside this one, or empties the one that was begun.
    fn begin(&mut self) -> Result<(), Failed>
        ensures draft { (file : List ℕ) → holds self.old file → OnOk result (draft self.new []) }
        ensures file { StaysSo holds self.old self.new }
        ensures crash { StaysSo may_leave self.new self.old }
        ensures time { TimeGoesOn (moment self.old) (moment self.new) (left_since self.old) (left_since self.new) (may_leave self.new) }
        ensures fails { FailsForGood has_failed self.old self.new result };

    /// Writes at the end of the new file.
    fn extend(&mut self, bytes: &[u8]) -> Result<(), Failed>
        ensures draft { (file : List ℕ) → draft self.old file → OnOk result (draft self.new (file ++ bytes.now)) }
        ensures file { StaysSo holds self.old self.new }
        ensures crash { StaysSo may_leave self.new self.old }
        ensures time { TimeGoesOn (moment self.old) (moment self.new) (left_since self.old) (left_since self.new) (may_leave self.new) }
        ensures fails { FailsForGood has_failed self.old self.new result };

    /// Syncs the new file, and puts it in the place of this one. A crash leaves the one or the other.
    fn adopt(&mut self) -> Result<(), Failed>
        ensures file { (file : List ℕ) → draft self.old file → OnOk result (holds self.new file) }
        ensures durable { (file : List ℕ) → draft self.old file → OnOk result (Just file (may_leave self.new)) }
        ensures crash { (left : List ℕ) → may_leave self.new left → may_leave self.old left ⊎ draft self.old left }
        ensures time { TimeGoesOn (moment self.old) (moment self.new) (left_since self.old) (left_since self.new) (may_leave self.new) }
        ensures fails { FailsForGood has_failed self.old self.new result };

    /// What a crash may leave now is among what it might have left since an earlier moment.
    ghost counts_now: { (disk : Self) (t : ℕ) (left : List ℕ) → t ≤ moment disk → may_leave disk left → left_since disk t left };

    /// Since this moment there is nothing else.
    ghost just_now: { (disk : Self) (left : List ℕ) → left_since disk (moment disk) left → may_leave disk left };

    /// The new file has one content.
    ghost one_draft: { (disk : Self) (a b : List ℕ) → draft disk a → draft disk b → a ≡ b };
}
