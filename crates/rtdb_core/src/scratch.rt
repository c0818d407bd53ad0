//! Memory for what does not outlive one evaluation.
use bumpalo::Bump;
use json_tree::NoMemory;
use std::alloc::Global;

// By how many bytes the arena of a step grows before evaluations take an arena of their own.
const MAX_GROWTH: usize = 65_536;

/// Where evaluations take memory, one after another: in the arena of the step until it has grown by 64 KiB, and then
/// in an arena that is made free before each of them. So many evaluations take no more memory than the largest of
/// them, and few take no arena beside that of the step.
#[derive(Drop)]
pub(crate) struct Scratch<'a> {
    shared: &'a Bump,
    begun: usize,
    own: Bump,
}

impl<'a> Scratch<'a> {
    /// A scratch beside the arena of a step. It takes no memory.
    pub(crate) fn new(alloc: Global, shared: &'a Bump) -> Scratch<'a> {
        Scratch {
            shared,
            begun: shared.allocated_bytes(),
            own: Bump::new(alloc),
        }
    }

    /// The arena for one evaluation, whose memory may be free again after it, in constant time.
    pub(crate) fn arena(&mut self) -> Result<&Bump, NoMemory> {
        if self.shared.allocated_bytes().saturating_sub(self.begun) <= MAX_GROWTH {
            return Ok(self.shared);
        }
        match self.own.reset() {
            Ok(()) => Ok(&self.own),
            Err(_) => Err(NoMemory),
        }
    }
}
