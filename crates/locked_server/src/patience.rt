//! How a seat waits.
use std::{hint, thread};

/// How often a seat looks again at once, before it lets other threads go first: most calls end sooner, and where there
/// are more threads than processors the seat whose turn it is may be waiting for one.
const LOOKS_AT_ONCE: u32 = 64;

/// How often a seat has looked in vain.
#[derive(Drop)]
pub(crate) struct Patience {
    looks: u32,
}

impl Patience {
    /// It has not looked yet.
    pub(crate) fn new() -> Patience {
        Patience { looks: 0 }
    }

    /// A moment between two looks: a short one at first, from then on a turn of other threads.
    pub(crate) fn pause(&mut self) {
        if self.looks < LOOKS_AT_ONCE {
            self.looks += 1;
            hint::spin_loop();
        } else {
            thread::yield_now();
        }
    }
}
