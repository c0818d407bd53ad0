//! The step of an event.
ghost use Rattle.std.specs.Prelude.{◌≤◌};
ghost use Rattle.evaluator.specs.declared.env.TheConstants.{MAX_MOMENT};
ghost use Rattle.rtdb_model.specs.Step.{Step};

use bumpalo::Bump;
use rtdb_core::Core;
use rtdb_model::{Event, Reply};

/// What [`Core::step`] promises.
pub fn answered(core: &mut Core, arena: &mut Bump, now: u64, session: u64, event: Event) -> Reply
    requires { now ≤ MAX_MOMENT }
    ensures { Step core.old now session event result core.new }
{
    core.step(arena, now, session, event)
}
