//! A new file for a database, in the place of the one that there is.
ghost use Rattle.std.specs.Prelude.{◌≡◌, ◌⊎◌, [], ℕ, List, IfOk, IfErr, IsErrOf, IsTrue};
ghost use Rattle.disk.specs.Disk.{AtAnyMoment};
ghost use Rattle.journal.specs.Found.{OnlyReads};
ghost use Rattle.journal.specs.Keeping.{chain_identifier};
ghost use Rattle.rules_reader.specs.File.{States};
ghost use Rattle.rtdb_laws.specs.Effects.{without_listeners};
ghost use Rattle.store.specs.Replay.{LeadTo};
ghost use Rattle.store.specs.Appended.{HasLongEntry, HasNoRoom};
ghost use Rattle.store.specs.AppendingWorking.{DraftsDatabase};
ghost use Rattle.store.specs.Kept.{HasDatabase, KeepsDatabase};

use crate::appending::add_all;
use crate::snapshots::snapshot;
use disk::Disk;
use journal::{Chain, JournalError, begin, put_in_place};
use rtdb_core::Core;
use std::alloc::Global;

/// Puts a new file with this identifier, which no other file has, in the place of the disk's: it has the snapshot of a
/// database, of whose rules this is the text. So a database begins its first file, whatever stood there, and so a file
/// that has grown long becomes short. A crash leaves the old file or the new one. It takes for a while some four times
/// the memory of the tree.
pub fn renew_database<D: Disk>(
    alloc: Global,
    disk: &mut D,
    identifier: [u8; 16],
    core: &Core,
    rules: &str,
) -> Result<Chain, JournalError>
    requires { States rules.now core.now.rules }
    ensures renewed { (file : List ℕ) → D.holds disk.old file
        → IfOk result (λ chain. KeepsDatabase D.holds D.may_leave disk.new chain rules.now (without_listeners core.now)) }
    ensures identifier { IfOk result (λ chain. chain_identifier chain ≡ identifier) }
    ensures any_moment { (file : List ℕ) → D.holds disk.old file
        → AtAnyMoment D.moment D.left_since disk.old disk.new (λ left. D.may_leave disk.old left ⊎ HasDatabase identifier [] rules.now (without_listeners core.now) left) }
    ensures old_file { IfErr result (λ error. (error ≡ JournalError.Failed → ⊥) → OnlyReads D.holds D.may_leave D.moment D.left_since disk.old disk.new) }
    ensures too_long { IsErrOf result JournalError.TooLong → (entries : List (List ℕ)) × LeadTo entries rules.now (without_listeners core.now) × HasLongEntry entries }
    ensures no_room { (file : List ℕ) → D.holds disk.old file
        → IsErrOf result JournalError.Full → (entries : List (List ℕ)) × LeadTo entries rules.now (without_listeners core.now) × HasNoRoom identifier [] entries }
    ensures failed { IsErrOf result JournalError.Failed → IsTrue (D.has_failed disk.new) }
{
    let chain = drafted(alloc, disk, identifier, core, rules)?;
    put_in_place(disk, &chain)?;
    Ok(chain)
}

// The new file, beside the old one.
fn drafted<D: Disk>(
    alloc: Global,
    disk: &mut D,
    identifier: [u8; 16],
    core: &Core,
    rules: &str,
) -> Result<Chain, JournalError>
    requires { States rules.now core.now.rules }
    ensures drafted { (file : List ℕ) → D.holds disk.old file
        → IfOk result (λ chain. DraftsDatabase D.draft disk.new chain rules.now (without_listeners core.now)) }
    ensures identifier { IfOk result (λ chain. chain_identifier chain ≡ identifier) }
    ensures old_file { OnlyReads D.holds D.may_leave D.moment D.left_since disk.old disk.new }
    ensures too_long { IsErrOf result JournalError.TooLong → (entries : List (List ℕ)) × LeadTo entries rules.now (without_listeners core.now) × HasLongEntry entries }
    ensures no_room { (file : List ℕ) → D.holds disk.old file
        → IsErrOf result JournalError.Full → (entries : List (List ℕ)) × LeadTo entries rules.now (without_listeners core.now) × HasNoRoom identifier [] entries }
    ensures failed { IsErrOf result JournalError.Failed → IsTrue (D.has_failed disk.new) }
{
    let Ok(entries) = snapshot(alloc, core, rules) else {
        return Err(JournalError::NoMemory);
    };
    let mut chain = begin(alloc, disk, identifier)?;
    add_all(alloc, disk, &mut chain, &entries)?;
    Ok(chain)
}
