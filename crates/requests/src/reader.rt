//! Who reads messages, one after another.
ghost use Rattle.std.specs.Prelude.{◌≡◌, ◌<◌, ◌≤◌, Ok, length, IfOk, IfSome, IsErrOf, IsSome};
ghost use Rattle.json_lines.specs.Lines.{Tells, value_of};
ghost use Rattle.requests.specs.Message.{IsWithin, asks};

use crate::message::{Form, Request, request_of};
use bumpalo::Bump;
use json::Scratch;
use json_lines::{MAX_MESSAGE_BYTES, Message, MessageFault, outline_of, read_value};
use rtdb_model::MAX_MOMENT;
use std::alloc::Global;

/// What reads messages. It keeps an arena for the list of a message's members; and, from the first message on
/// that has a token which is not plain, the memory that the kit's reader of JSON takes: four bytes for each of
/// 4,096 places, or of as many as the longest such message has.
#[derive(Drop)]
pub struct MessageReader {
    alloc: Global,
    arena: Bump,
    scratch: Scratch,
}

impl MessageReader {
    /// A reader that has read nothing. It takes no memory.
    pub fn new(alloc: Global) -> MessageReader {
        MessageReader {
            alloc,
            arena: Bump::new(alloc),
            scratch: Scratch::new(alloc),
        }
    }

    /// The allocator that it keeps.
    pub(crate) fn alloc(&self) -> Global {
        self.alloc
    }

    /// What a message asks, or its first fault: as [`crate::read_request`]. It is one pass over the bytes,
    /// in which what is wanted takes memory, and the list of each object's members. Where that does not
    /// lead to members, since the message is invalid, since it has what `trees` leaves to the reader of JSON, or
    /// for want of memory, the bytes are read once more, as a value.
    #[tactic(auto, unfolding(crate::specs::Message::asks))]
    pub fn read_request(&mut self, bytes: &[u8], form: Form) -> Result<Request, MessageFault>
        ensures asked { Tells (λ request. request) result (asks form bytes.now) }
        ensures moment { IfOk result (λ request. IsWithin form → request.stamp.now ≤ MAX_MOMENT) }
        ensures too_large { MAX_MESSAGE_BYTES < length bytes.now → IsErrOf result MessageFault.TooLarge }
    {
        let alloc = self.alloc;
        if self.arena.reset().is_ok()
            && let Some(outline) = outline_of(alloc, &self.arena, &mut self.scratch, bytes)
        {
            return request_of(alloc, form, &mut Message::Outlined(outline));
        }
        let value = read_value(alloc, bytes)?;
        request_of(alloc, form, &mut Message::Held(value))
    }
}
