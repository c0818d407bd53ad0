//! Entries that are put into a file, each as a group of its own.
ghost use Rattle.std.specs.Prelude.{◌≡◌, [], List, map, OnOk, IsErrOf, IsTrue};
ghost use Rattle.disk.specs.Disk.{AtAnyMoment};
ghost use Rattle.journal.specs.Format.{Group};
ghost use Rattle.journal.specs.Found.{OnlyReads};
ghost use Rattle.journal.specs.Keeping.{Keeps, Drafts, chain_identifier};
ghost use Rattle.store.specs.Appended.{SurvivesAppending, HasLongEntry, HasNoRoom};
ghost use Rattle.store.specs.AppendingWorking.{AreAppended, AreDrafted};

use disk::Disk;
use journal::{Chain, JournalError, add, sync_groups, write_group};
use std::alloc::Global;
use std::slice;

/// Appends entries to a file, and stores them.
pub(crate) fn append_all<D: Disk>(
    alloc: Global,
    disk: &mut D,
    chain: &mut Chain,
    entries: &[Vec<u8>],
) -> Result<(), JournalError>
    ensures stored { (groups : List Group) → Keeps D.holds D.may_leave disk.old chain.old groups groups
        → OnOk result (AreAppended D.holds D.may_leave disk.new chain.new groups (map (λ entry. entry.items) entries.now)) }
    ensures any_moment { (groups : List Group) → Keeps D.holds D.may_leave disk.old chain.old groups groups
        → AtAnyMoment D.moment D.left_since disk.old disk.new (SurvivesAppending (chain_identifier chain.old) groups (map (λ entry. entry.items) entries.now)) }
    ensures identifier { chain_identifier chain.new ≡ chain_identifier chain.old }
    ensures too_long { IsErrOf result JournalError.TooLong → HasLongEntry (map (λ entry. entry.items) entries.now) }
    ensures no_room { (groups : List Group) → Keeps D.holds D.may_leave disk.old chain.old groups groups
        → IsErrOf result JournalError.Full → HasNoRoom (chain_identifier chain.old) groups (map (λ entry. entry.items) entries.now) }
    ensures failed { IsErrOf result JournalError.Failed → IsTrue (D.has_failed disk.new) }
{
    for entry in entries {
        write_group(alloc, disk, chain, slice::from_ref(entry))?;
    }
    sync_groups(disk, chain)
}

/// Adds entries to a new file that has none.
pub(crate) fn add_all<D: Disk>(
    alloc: Global,
    disk: &mut D,
    chain: &mut Chain,
    entries: &[Vec<u8>],
) -> Result<(), JournalError>
    ensures added { Drafts D.draft disk.old chain.old [] → OnOk result (AreDrafted D.draft disk.new chain.new (map (λ entry. entry.items) entries.now)) }
    ensures identifier { chain_identifier chain.new ≡ chain_identifier chain.old }
    ensures old_file { OnlyReads D.holds D.may_leave D.moment D.left_since disk.old disk.new }
    ensures too_long { IsErrOf result JournalError.TooLong → HasLongEntry (map (λ entry. entry.items) entries.now) }
    ensures no_room { Drafts D.draft disk.old chain.old [] → IsErrOf result JournalError.Full → HasNoRoom (chain_identifier chain.old) [] (map (λ entry. entry.items) entries.now) }
    ensures failed { IsErrOf result JournalError.Failed → IsTrue (D.has_failed disk.new) }
{
    for entry in entries {
        add(alloc, disk, chain, slice::from_ref(entry))?;
    }
    Ok(())
}
