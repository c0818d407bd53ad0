//! Recovers a database from a file that a crash may have left.
ghost use Rattle.std.specs.Prelude.{◌≡◌, ℕ, List, [], length, IfOk, IfErr, IsErrOf, IsTrue, string_bytes};
ghost use Rattle.journal.specs.Format.{first_line};
ghost use Rattle.journal.specs.Recovery.{Begins};
ghost use Rattle.disk.specs.Disk.{Just, AtAnyMoment};
ghost use Rattle.journal.specs.Found.{OnlyReads};
ghost use Rattle.journal.specs.Recovering.{RecoversTheSame};
ghost use Rattle.store.specs.Recovered.{IsRecoveredFrom, IsFaultOf};
ghost use Rattle.store.specs.Working.{IsFaultBy};

use crate::fault::{RecoveryFault, ReplayFault};
use crate::replayer::Replayer;
use disk::Disk;
use journal::{Chain, RecoverError, recover};
use rtdb_core::Core;
use std::alloc::Global;

/// What a file was recovered to.
#[derive(Drop)]
pub struct Recovered {
    /// The database, in which no session listens to anything.
    pub core: Core,
    /// The text of the rules in force.
    pub rules: String,
    /// Where the file's next group goes.
    pub chain: Chain,
}

/// Recovers the database that a file's entries lead to, and cuts off what a crash left behind them. It costs what the
/// calls cost that are made once more. Of a file that is refused nothing is changed, but where it has no database: then
/// what a crash left behind its entries is cut off. A crash in the midst of it changes nothing of what is recovered.
pub fn recover_database<D: Disk>(alloc: Global, disk: &mut D) -> Result<Recovered, RecoveryFault>
    ensures recovered { (file : List ℕ) → D.holds disk.old file → Just file (D.may_leave disk.old)
        → IfOk result (λ it. IsRecoveredFrom D.holds D.may_leave file disk.new it.chain (string_bytes it.rules) it.core) }
    ensures any_moment { (file : List ℕ) → D.holds disk.old file → Just file (D.may_leave disk.old)
        → AtAnyMoment D.moment D.left_since disk.old disk.new (RecoversTheSame file) }
    ensures named { (file : List ℕ) → D.holds disk.old file → Just file (D.may_leave disk.old) → IfErr result (IsFaultOf file) }
    ensures failed { IsErrOf result (RecoveryFault.File RecoverError.Failed) → IsTrue (D.has_failed disk.new) }
    ensures no_journal { (file : List ℕ) → D.holds disk.old file → IsErrOf result (RecoveryFault.File RecoverError.NotAJournal) → (identifier : List ℕ) → length identifier ≡ 16 → Begins (first_line identifier) file → ⊥ }
    ensures never_stopped { IsErrOf result (RecoveryFault.File RecoverError.Stopped) → ⊥ }
    ensures left { IfErr result (λ fault. (fault ≡ RecoveryFault.File RecoverError.Failed → ⊥) → (fault ≡ RecoveryFault.NoDatabase → ⊥) → OnlyReads D.holds D.may_leave D.moment D.left_since disk.old disk.new) }
{
    let mut replayer = Replayer::new(alloc);
    match recover(alloc, disk, &mut replayer) {
        Ok(chain) => match replayer.into_database() {
            Some((core, rules)) => Ok(Recovered { core, rules, chain }),
            None => Err(RecoveryFault::NoDatabase),
        },
        Err(RecoverError::Stopped) => Err(fault_of(&replayer)),
        Err(error) => Err(RecoveryFault::File(error)),
    }
}

// Why an entry was refused.
fn fault_of(replayer: &Replayer) -> RecoveryFault
    ensures { IsFaultBy replayer.now.fault result }
{
    match replayer.fault() {
        (Some(ReplayFault::NoMemory), _) => RecoveryFault::File(RecoverError::NoMemory),
        (_, entry) => RecoveryFault::Unfit { entry },
    }
}
