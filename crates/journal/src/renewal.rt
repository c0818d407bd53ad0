//! A new file beside the old one, which takes its place once all of it is stored.
ghost use Rattle.std.specs.Prelude.{◌≡◌, ◌⊎◌, ◌<◌, ◌++◌, ◌∷◌, [], ℕ, List, length, map, IfOk, IfErr, OnOk, IsErrOf, IsTrue};
ghost use Rattle.disk.specs.Disk.{StaysSo, AtAnyMoment};
ghost use Rattle.journal.specs.Format.{Group, file_of, entries_text};
ghost use Rattle.journal.specs.Found.{OnlyReads};
ghost use Rattle.journal.specs.Keeping.{Keeps, Drafts, IsFull, chain_identifier, group_of};

use crate::chain::{Chain, JournalError, compose, opening_of};
use crate::limits::MAX_GROUP_BYTES;
use disk::Disk;
use std::alloc::Global;

/// Begins a new file with this identifier, which no other file has. Until it is put in its place, the old file stays.
pub fn begin<D: Disk>(
    alloc: Global,
    disk: &mut D,
    identifier: [u8; 16],
) -> Result<Chain, JournalError>
    ensures begun { (file : List ℕ) → D.holds disk.old file → IfOk result (λ chain. Drafts D.draft disk.new chain []) }
    ensures identifier { IfOk result (λ chain. chain_identifier chain ≡ identifier) }
    ensures old_file { OnlyReads D.holds D.may_leave D.moment D.left_since disk.old disk.new }
    ensures failed { IsErrOf result JournalError.Failed → IsTrue (D.has_failed disk.new) }
    ensures others { IfErr result (λ error. (error ≡ JournalError.NoMemory) ⊎ (error ≡ JournalError.Failed)) }
{
    let opening = opening_of(alloc, identifier)?;
    disk.begin()?;
    disk.extend(&opening.line)?;
    Ok(opening.chain)
}

/// Adds a group to the new file.
pub fn add<D: Disk>(
    alloc: Global,
    disk: &mut D,
    chain: &mut Chain,
    entries: &[Vec<u8>],
) -> Result<(), JournalError>
    ensures added { (groups : List Group) → Drafts D.draft disk.old chain.old groups → OnOk result (Drafts D.draft disk.new chain.new (groups ++ group_of (length (file_of (chain_identifier chain.old) groups)) entries.now ∷ [])) }
    ensures identifier { chain_identifier chain.new ≡ chain_identifier chain.old }
    ensures old_file { OnlyReads D.holds D.may_leave D.moment D.left_since disk.old disk.new }
    ensures too_long { IsErrOf result JournalError.TooLong → MAX_GROUP_BYTES < length (entries_text (map (λ entry. entry.items) entries.now)) }
    ensures no_room { (groups : List Group) → Drafts D.draft disk.old chain.old groups → IsErrOf result JournalError.Full → IsFull (chain_identifier chain.old) groups }
    ensures failed { IsErrOf result JournalError.Failed → IsTrue (D.has_failed disk.new) }
{
    let group = compose(alloc, chain, entries)?;
    disk.extend(&group.bytes)?;
    *chain = group.chain;
    chain.durable = chain.len;
    Ok(())
}

/// Stores the new file and puts it in the place of the old one. A crash leaves the one or the other.
pub fn put_in_place<D: Disk>(disk: &mut D, chain: &Chain) -> Result<(), JournalError>
    ensures in_place { (groups : List Group) → Drafts D.draft disk.old chain.now groups → OnOk result (Keeps D.holds D.may_leave disk.new chain.now groups groups) }
    ensures any_moment { (groups : List Group) → Drafts D.draft disk.old chain.now groups → AtAnyMoment D.moment D.left_since disk.old disk.new (λ left. D.may_leave disk.old left ⊎ (left ≡ file_of (chain_identifier chain.now) groups)) }
    ensures nothing_else { IfErr result (λ error. error ≡ JournalError.Failed) }
    ensures failed { IsErrOf result JournalError.Failed → IsTrue (D.has_failed disk.new) }
{
    disk.adopt()?;
    Ok(())
}
