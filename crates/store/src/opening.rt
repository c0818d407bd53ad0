//! Opens the database that a file keeps.
ghost use Rattle.std.specs.Prelude.{◌≡◌, ◌≤◌, ℕ, List, length, IfOk, IfErr, IsErrOf, IsTrue, string_bytes};
ghost use Rattle.evaluator.specs.declared.env.TheConstants.{MAX_MOMENT};
ghost use Rattle.disk.specs.Disk.{Just, AtAnyMoment};
ghost use Rattle.journal.specs.Format.{first_line};
ghost use Rattle.journal.specs.Recovery.{Begins};
ghost use Rattle.journal.specs.Found.{OnlyReads};
ghost use Rattle.store.specs.Opened.{IsOpenedFrom, SurvivesOpening, IsOpeningFaultOf};

use crate::appending::append_all;
use crate::fault::{OpeningFault, RecoveryFault};
use crate::leaving::let_all_leave;
use crate::recovering::{Recovered, recover_database};
use bumpalo::Bump;
use disk::Disk;
use journal::{Chain, JournalError, RecoverError};
use rtdb_core::{Core, MAX_MOMENT};
use std::alloc::Global;

/// A database that was opened from its file.
#[derive(Drop)]
pub struct OpenedDatabase {
    /// The database, in which no session is open.
    pub core: Core,
    /// The text of the rules in force.
    pub rules: String,
    /// Where the file's next group goes.
    pub chain: Chain,
    /// How many sessions were open in the file, and have left.
    pub sessions: usize,
}

/// Recovers the database of a file that a crash may have left, lets each session leave that was open in it, at the moment
/// `now` in milliseconds, and stores the entries of these departures. It costs what the file's calls cost and these. A
/// crash meanwhile leaves a file of which the same is recovered, or that and some first of the departures; another
/// opening then goes on.
pub fn open_database<D: Disk>(
    alloc: Global,
    disk: &mut D,
    arena: &mut Bump,
    now: u64,
) -> Result<OpenedDatabase, OpeningFault>
    requires { now ≤ MAX_MOMENT }
    ensures opened { (file : List ℕ) → D.holds disk.old file → Just file (D.may_leave disk.old)
        → IfOk result (λ it. IsOpenedFrom D.holds D.may_leave file now it.sessions disk.new it.chain (string_bytes it.rules) it.core) }
    ensures any_moment { (file : List ℕ) → D.holds disk.old file → Just file (D.may_leave disk.old)
        → AtAnyMoment D.moment D.left_since disk.old disk.new (SurvivesOpening file now) }
    ensures named { (file : List ℕ) → D.holds disk.old file → Just file (D.may_leave disk.old) → IfErr result (IsOpeningFaultOf file now) }
    ensures recovery_failed { IsErrOf result (OpeningFault.Recovery (RecoveryFault.File RecoverError.Failed)) → IsTrue (D.has_failed disk.new) }
    ensures departures_failed { IsErrOf result (OpeningFault.Departures JournalError.Failed) → IsTrue (D.has_failed disk.new) }
    ensures no_journal { (file : List ℕ) → D.holds disk.old file → IsErrOf result (OpeningFault.Recovery (RecoveryFault.File RecoverError.NotAJournal)) → (identifier : List ℕ) → length identifier ≡ 16 → Begins (first_line identifier) file → ⊥ }
    ensures never_stopped { IsErrOf result (OpeningFault.Recovery (RecoveryFault.File RecoverError.Stopped)) → ⊥ }
    ensures left { (fault : RecoveryFault) → IsErrOf result (OpeningFault.Recovery fault) → (fault ≡ RecoveryFault.File RecoverError.Failed → ⊥) → (fault ≡ RecoveryFault.NoDatabase → ⊥)
        → OnlyReads D.holds D.may_leave D.moment D.left_since disk.old disk.new }
{
    let found = match recover_database(alloc, disk) {
        Ok(found) => found,
        Err(fault) => return Err(OpeningFault::Recovery(fault)),
    };
    let Recovered {
        mut core,
        rules,
        mut chain,
    } = found;
    let sessions = core.sessions();
    let Ok(entries) = let_all_leave(alloc, &mut core, arena, now) else {
        return Err(OpeningFault::Departures(JournalError::NoMemory));
    };
    match append_all(alloc, disk, &mut chain, &entries) {
        Ok(()) => Ok(OpenedDatabase {
            core,
            rules,
            chain,
            sessions,
        }),
        Err(error) => Err(OpeningFault::Departures(error)),
    }
}
