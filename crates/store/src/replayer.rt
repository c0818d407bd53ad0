//! Takes the entries of a journal and replays them.
ghost use Rattle.std.specs.Prelude.{◌≡◌, ◌⊎◌, ℕ, List, Some, OnOk, IsErrOf, IfOk, IfErr, string_bytes};
ghost use Rattle.entries.specs.Entry.{Meaning, Means};
ghost use Rattle.store.specs.Replay.{Stage as StageReached, empty, opened, Follows, Replays};
ghost use Rattle.store.specs.Working.{stage_of, IsDatabaseIn};

use crate::fault::ReplayFault;
use crate::stage::{Stage, next};
use bumpalo::Bump;
use entries::read_entry;
use journal::{Sink, Stopped};
use requests::MessageReader;
use rtdb_core::Core;
use std::alloc::Global;
use std::mem::replace;

/// Takes entries, one after another, and does what they mean.
#[derive(Drop)]
pub(crate) struct Replayer {
    alloc: Global,
    reader: MessageReader,
    arena: Bump,
    stage: Stage,
    fault: Option<ReplayFault>,
    count: u64,
}

impl Sink for Replayer {
    ghost use Rattle.std.specs.Prelude.{◌≡◌, ◌⊎◌, Some};
    ghost use Rattle.store.specs.declared.fault.ReplayFault.TheVariants.{NoMemory as no_memory};
    ghost use Rattle.store.specs.Replay.{Stage as StageReached, empty, Replays};
    ghost use Rattle.store.specs.Working.{stage_of};

    ghost taken = { λ replayer entries. Replays entries empty (stage_of replayer.stage) };

    ghost refused = { λ replayer entries. (replayer.fault ≡ Some no_memory) ⊎ ((after : StageReached) → Replays entries empty after → ⊥) };

    fn take(&mut self, entry: &[u8]) -> Result<(), Stopped> {
        self.count = self.count.saturating_add(1);
        match self.follow(entry) {
            Ok(()) => Ok(()),
            Err(fault) => {
                self.fault = Some(fault);
                Err(Stopped)
            }
        }
    }
}

impl Replayer {
    /// Nothing was read yet.
    pub(crate) fn new(alloc: Global) -> Replayer
        ensures { stage_of result.stage ≡ empty }
    {
        Replayer {
            alloc,
            reader: MessageReader::new(alloc),
            arena: Bump::new(alloc),
            stage: Stage::Empty,
            fault: None,
            count: 0,
        }
    }

    // Does what an entry means.
    fn follow(&mut self, entry: &[u8]) -> Result<(), ReplayFault>
        ensures follows { OnOk result ((meaning : Meaning) × Means entry.now meaning × Follows meaning (stage_of self.old.stage) (stage_of self.new.stage)) }
        ensures unfit { IsErrOf result ReplayFault.Unfit → (meaning : Meaning) (after : StageReached) → Means entry.now meaning → Follows meaning (stage_of self.old.stage) after → ⊥ }
    {
        let entry = read_entry(self.alloc, &mut self.reader, entry)?;
        let stage = replace(&mut self.stage, Stage::Empty);
        match next(self.alloc, &mut self.arena, stage, entry) {
            Ok(after) => {
                self.stage = after;
                Ok(())
            }
            Err(fault) => Err(fault),
        }
    }

    /// What the last entry was refused for, and its place among all.
    pub(crate) fn fault(&self) -> (Option<ReplayFault>, u64)
        ensures { result.0 ≡ self.now.fault }
    {
        (self.fault, self.count)
    }

    /// The database and the text of its rules, if it has begun.
    pub(crate) fn into_database(self) -> Option<(Core, String)>
        ensures { IsDatabaseIn (stage_of self.stage) result }
    {
        let Replayer { stage, .. } = self;
        match stage {
            Stage::Opened { rules, core } => Some((core, rules)),
            Stage::Empty | Stage::Reading { .. } => None,
        }
    }
}
