//! Groups that are written behind the end of a file.
ghost use Rattle.std.specs.Prelude.{◌≡◌, ◌⊎◌, ◌<◌, ◌≤◌, ◌++◌, ◌∷◌, [], Err, List, length, map, IfErr, OnOk, IsErrOf, IsTrue};
ghost use Rattle.disk.specs.Disk.{AtAnyMoment, StaysSo};
ghost use Rattle.journal.specs.Format.{Group, file_of, entries_text};
ghost use Rattle.journal.specs.Recovery.{Survives};
ghost use Rattle.journal.specs.Keeping.{Keeps, IsFull, chain_identifier, group_of};

use crate::chain::{Chain, JournalError, compose};
use crate::limits::MAX_GROUP_BYTES;
use disk::Disk;
use std::alloc::Global;

/// Writes a group behind the file of a chain, which a crash may take back until the next sync.
pub fn write_group<D: Disk>(
    alloc: Global,
    disk: &mut D,
    chain: &mut Chain,
    entries: &[Vec<u8>],
) -> Result<(), JournalError>
    ensures written { (stored appended : List Group) → Keeps D.holds D.may_leave disk.old chain.old stored appended
        → OnOk result (Keeps D.holds D.may_leave disk.new chain.new stored (appended ++ group_of (length (file_of (chain_identifier chain.old) stored)) entries.now ∷ [])) }

    // A crash at any moment of the call leaves what was stored before it, and of what was appended some first groups.
    ensures any_moment { (stored appended : List Group) → Keeps D.holds D.may_leave disk.old chain.old stored appended
        → AtAnyMoment D.moment D.left_since disk.old disk.new
        (Survives (chain_identifier chain.old) stored (appended ++ group_of (length (file_of (chain_identifier chain.old) stored)) entries.now ∷ [])) }

    ensures identifier { chain_identifier chain.new ≡ chain_identifier chain.old }
    ensures draft { StaysSo D.draft disk.old disk.new }
    ensures no_memory { IsErrOf result JournalError.NoMemory → (disk.new ≡ disk.old) × (chain.new ≡ chain.old) }
    ensures too_long { IsErrOf result JournalError.TooLong → (disk.new ≡ disk.old) × (chain.new ≡ chain.old) × (MAX_GROUP_BYTES < length (entries_text (map (λ entry. entry.items) entries.now))) }
    ensures full { IsErrOf result JournalError.Full → (disk.new ≡ disk.old) × (chain.new ≡ chain.old) }
    ensures no_room { (stored appended : List Group) → Keeps D.holds D.may_leave disk.old chain.old stored appended → IsErrOf result JournalError.Full → IsFull (chain_identifier chain.old) appended }
    ensures failed { IsErrOf result JournalError.Failed → IsTrue (D.has_failed disk.new) }
    ensures for_good { IsTrue (D.has_failed disk.old) → (result ≡ Err JournalError.Failed) × (disk.new ≡ disk.old) × (chain.new ≡ chain.old) }

    // Where it fails in this call, the group is no longer than one may be.
    ensures short { IsErrOf result JournalError.Failed → IsTrue (D.has_failed disk.old) ⊎ (length (entries_text (map (λ entry. entry.items) entries.now)) ≤ MAX_GROUP_BYTES) }
{
    if disk.is_failed() {
        return Err(JournalError::Failed);
    }
    let group = compose(alloc, chain, entries)?;
    disk.write_at(chain.len, &group.bytes)?;
    *chain = group.chain;
    Ok(())
}

/// Stores what was written: after its `Ok` every crash leaves all of it.
pub fn sync_groups<D: Disk>(disk: &mut D, chain: &mut Chain) -> Result<(), JournalError>
    ensures stored { (stored appended : List Group) → Keeps D.holds D.may_leave disk.old chain.old stored appended
        → OnOk result (Keeps D.holds D.may_leave disk.new chain.new appended appended) }
    ensures any_moment { (stored appended : List Group) → Keeps D.holds D.may_leave disk.old chain.old stored appended
        → AtAnyMoment D.moment D.left_since disk.old disk.new (Survives (chain_identifier chain.old) stored appended) }
    ensures identifier { chain_identifier chain.new ≡ chain_identifier chain.old }
    ensures draft { StaysSo D.draft disk.old disk.new }
    ensures nothing_else { IfErr result (λ error. error ≡ JournalError.Failed) }
    ensures failed { IsErrOf result JournalError.Failed → IsTrue (D.has_failed disk.new) }
    ensures for_good { IsTrue (D.has_failed disk.old) → (result ≡ Err JournalError.Failed) × (disk.new ≡ disk.old) × (chain.new ≡ chain.old) }
{
    disk.sync()?;
    chain.durable = chain.len;
    Ok(())
}
