//! What a database takes back when it begins again: sessions whose clients are gone, and their actions.
ghost use Rattle.std.specs.Prelude.{◌≡◌, ◌↔◌, true, IfErr, OnOk, OnErr};
ghost use Rattle.rtdb_core.specs.Resumed.{resumed, MayResume, MayEstablish};
ghost use Rattle.rtdb_model.specs.Step.{with_action};
ghost use Rattle.rtdb_core.specs.declared.resuming.ResumeFault.TheVariants.{NoMemory as no_memory};

use crate::action::Action;
use crate::machine::Machine;
use crate::session::Session;
use arena_snapshot::overlaps;
use evaluator::Identity;
use json_tree::NoMemory;
use rtdb_model::Writes;
use thiserror::Error;

/// Why a database doesn't take back a session, or an action of one.
#[derive(Clone, Copy, Debug, PartialEq, Eq, Error)]
pub enum ResumeFault {
    #[error("out of memory")]
    NoMemory,
    /// No database with what this one has can have it too.
    #[error("a session or an action that can't be beside the others")]
    Unfit,
}

impl From<NoMemory> for ResumeFault {
    ghost from_gives = { λ _ fault. fault ≡ no_memory };

    fn from(_refused: NoMemory) -> ResumeFault {
        ResumeFault::NoMemory
    }
}

impl Machine {
    /// Opens a session as [`Core::resume`](crate::Core::resume) does.
    pub(crate) fn resume(
        &mut self,
        session: u64,
        who: Option<Identity>,
        is_leaving: bool,
    ) -> Result<(), ResumeFault>
        ensures resumed { OnOk result (self.new ≡ resumed self.old session who is_leaving) }
        ensures may { OnOk result (MayResume self.old session) }
        ensures unfit { IfErr result (λ fault. (fault ≡ ResumeFault.Unfit) ↔ ¬ (MayResume self.old session)) }
        ensures unchanged { OnErr result (self.new ≡ self.old) }
    {
        if self.is_open(session) {
            return Err(ResumeFault::Unfit);
        }
        let one = Session::going_on(self.alloc(), who, is_leaving);
        self.put_session(session, one)?;
        Ok(())
    }

    /// Establishes an action as [`Core::establish`](crate::Core::establish) does.
    pub(crate) fn establish(&mut self, session: u64, writes: Writes) -> Result<(), ResumeFault>
        ensures established { OnOk result (self.new ≡ with_action self.old session writes) }
        ensures may { OnOk result (MayEstablish self.old session writes) }
        ensures unfit { IfErr result (λ fault. (fault ≡ ResumeFault.Unfit) ↔ ¬ (MayEstablish self.old session writes)) }
        ensures unchanged { OnErr result (self.new ≡ self.old) }
    {
        if !self.may_establish(session, &writes) {
            return Err(ResumeFault::Unfit);
        }
        self.keep(session, Action::of(writes))?;
        Ok(())
    }

    fn may_establish(&self, session: u64, writes: &Writes) -> bool
        ensures { (result ≡ true) ↔ MayEstablish self.now session writes.now }
    {
        if !self.is_open(session) {
            return false;
        }
        let writes = writes.in_order();
        if writes.is_empty() {
            return false;
        }
        !overlaps(writes)
    }
}
