//! The clock of the system.
ghost use Rattle.std.specs.Prelude.{None};

use rtdb_core::MAX_MOMENT;
use sessions::Clock;
use std::time;

/// The clock of the system, in milliseconds since 1970, up to the last moment that there is; 0 where it can't be read.
/// Contracts don't see what it says.
#[derive(Drop)]
pub(crate) struct SystemMoments<'a, R> {
    rt: &'a R,
}

impl<'a, R> SystemMoments<'a, R> {
    /// The clock of this system. It reads nothing yet.
    pub(crate) fn new(rt: &'a R) -> SystemMoments<'a, R> {
        SystemMoments { rt }
    }
}

impl<R: time::Clock> Clock for SystemMoments<'_, R> {
    ghost moments = { λ _. None };

    fn now(&mut self) -> u64 {
        match self.rt.since_1970() {
            Ok(since) => u64::try_from(since.as_millis())
                .unwrap_or(MAX_MOMENT)
                .min(MAX_MOMENT),
            Err(_) => 0,
        }
    }
}
