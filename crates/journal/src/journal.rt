//! A journal that is written.
ghost use Rattle.std.specs.Prelude.{◌≡◌, ◌⊎◌, ◌+◌, ◌<◌, ◌≤◌, ◌++◌, ◌∷◌, [], true, Err, List, length, map, IfErr, OnOk, IsErrOf, IsTrue};
ghost use Rattle.disk.specs.Disk.{AtAnyMoment, StaysSo};
ghost use Rattle.journal.specs.Format.{Group, file_of, entries_text};
ghost use Rattle.journal.specs.Recovery.{Survives};
ghost use Rattle.journal.specs.Keeping.{Keeps, IsFull, disk_of, chain_of, identifier_of, group_of};

use crate::appending::{sync_groups, write_group};
use crate::chain::{Chain, JournalError};
use crate::limits::MAX_GROUP_BYTES;
use disk::Disk;
use std::alloc::Global;

/// A file, and the chain of its groups.
#[derive(Drop)]
pub struct Journal<D: Disk> {
    pub disk: D,
    pub chain: Chain,
}

impl<D: Disk> Journal<D> {
    /// The journal of a file whose chain was recovered, or that was put in its place.
    pub fn new(disk: D, chain: Chain) -> Journal<D>
        ensures disk { disk_of result ≡ disk }
        ensures chain { chain_of result ≡ chain }
    {
        Journal { disk, chain }
    }

    /// Appends a group and stores it: after its `Ok` every crash leaves it.
    pub fn append(&mut self, alloc: Global, entries: &[Vec<u8>]) -> Result<(), JournalError>
        ensures stored { (stored appended : List Group) → Keeps D.holds D.may_leave (disk_of self.old) (chain_of self.old) stored appended
            → OnOk result (let all = appended ++ group_of (length (file_of (identifier_of self.old) stored)) entries.now ∷ [] in Keeps D.holds D.may_leave (disk_of self.new) (chain_of self.new) all all) }

        // A crash at any moment of the call leaves what was stored before it, and of what was appended some first groups.
        ensures any_moment { (stored appended : List Group) → Keeps D.holds D.may_leave (disk_of self.old) (chain_of self.old) stored appended
            → AtAnyMoment D.moment D.left_since (disk_of self.old) (disk_of self.new)
            (Survives (identifier_of self.old) stored (appended ++ group_of (length (file_of (identifier_of self.old) stored)) entries.now ∷ [])) }

        ensures identifier { identifier_of self.new ≡ identifier_of self.old }
        ensures draft { StaysSo D.draft (disk_of self.old) (disk_of self.new) }
        ensures no_memory { IsErrOf result JournalError.NoMemory → self.new ≡ self.old }
        ensures too_long { IsErrOf result JournalError.TooLong → (self.new ≡ self.old) × (MAX_GROUP_BYTES < length (entries_text (map (λ entry. entry.items) entries.now))) }
        ensures full { IsErrOf result JournalError.Full → self.new ≡ self.old }
        ensures no_room { (stored appended : List Group) → Keeps D.holds D.may_leave (disk_of self.old) (chain_of self.old) stored appended → IsErrOf result JournalError.Full → IsFull (identifier_of self.old) appended }
        ensures failed { IsErrOf result JournalError.Failed → IsTrue (D.has_failed (disk_of self.new)) }
        ensures for_good { IsTrue (D.has_failed (disk_of self.old)) → (result ≡ Err JournalError.Failed) × (self.new ≡ self.old) }
    {
        self.write(alloc, entries)?;
        self.sync()
    }

    /// Appends a group that a crash may take back until the next sync.
    pub fn write(&mut self, alloc: Global, entries: &[Vec<u8>]) -> Result<(), JournalError>
        ensures written { (stored appended : List Group) → Keeps D.holds D.may_leave (disk_of self.old) (chain_of self.old) stored appended
            → OnOk result (Keeps D.holds D.may_leave (disk_of self.new) (chain_of self.new) stored (appended ++ group_of (length (file_of (identifier_of self.old) stored)) entries.now ∷ [])) }
        ensures any_moment { (stored appended : List Group) → Keeps D.holds D.may_leave (disk_of self.old) (chain_of self.old) stored appended
            → AtAnyMoment D.moment D.left_since (disk_of self.old) (disk_of self.new)
            (Survives (identifier_of self.old) stored (appended ++ group_of (length (file_of (identifier_of self.old) stored)) entries.now ∷ [])) }
        ensures identifier { identifier_of self.new ≡ identifier_of self.old }
        ensures draft { StaysSo D.draft (disk_of self.old) (disk_of self.new) }
        ensures no_memory { IsErrOf result JournalError.NoMemory → self.new ≡ self.old }
        ensures too_long { IsErrOf result JournalError.TooLong → (self.new ≡ self.old) × (MAX_GROUP_BYTES < length (entries_text (map (λ entry. entry.items) entries.now))) }
        ensures full { IsErrOf result JournalError.Full → self.new ≡ self.old }
        ensures no_room { (stored appended : List Group) → Keeps D.holds D.may_leave (disk_of self.old) (chain_of self.old) stored appended → IsErrOf result JournalError.Full → IsFull (identifier_of self.old) appended }
        ensures failed { IsErrOf result JournalError.Failed → IsTrue (D.has_failed (disk_of self.new)) }
        ensures for_good { IsTrue (D.has_failed (disk_of self.old)) → (result ≡ Err JournalError.Failed) × (self.new ≡ self.old) }
    {
        write_group(alloc, &mut self.disk, &mut self.chain, entries)
    }

    /// Stores what was written: after its `Ok` every crash leaves all of it.
    pub fn sync(&mut self) -> Result<(), JournalError>
        ensures stored { (stored appended : List Group) → Keeps D.holds D.may_leave (disk_of self.old) (chain_of self.old) stored appended
            → OnOk result (Keeps D.holds D.may_leave (disk_of self.new) (chain_of self.new) appended appended) }
        ensures any_moment { (stored appended : List Group) → Keeps D.holds D.may_leave (disk_of self.old) (chain_of self.old) stored appended
            → AtAnyMoment D.moment D.left_since (disk_of self.old) (disk_of self.new) (Survives (identifier_of self.old) stored appended) }
        ensures identifier { identifier_of self.new ≡ identifier_of self.old }
        ensures draft { StaysSo D.draft (disk_of self.old) (disk_of self.new) }
        ensures nothing_else { IfErr result (λ error. error ≡ JournalError.Failed) }
        ensures failed { IsErrOf result JournalError.Failed → IsTrue (D.has_failed (disk_of self.new)) }
        ensures for_good { IsTrue (D.has_failed (disk_of self.old)) → (result ≡ Err JournalError.Failed) × (self.new ≡ self.old) }
    {
        sync_groups(&mut self.disk, &mut self.chain)
    }
}
