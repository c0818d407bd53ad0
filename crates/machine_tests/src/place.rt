//! A database that is said lines.
use crate::lines::{Row, Trouble, asked, core_under, text_of, two_tokens};
use bumpalo::Bump;
use requests::Asked;
use rtdb_core::Core;
use std::alloc::Global;
use tokens::Tokens;

/// A database, and who signs in to it.
#[derive(Drop)]
pub(crate) struct Place {
    alloc: Global,
    tokens: Tokens,
    core: Core,
}

impl Place {
    /// A database under these rules, without a tree and without a session.
    pub(crate) fn new(alloc: Global, rules: &str) -> Result<Place, Trouble> {
        let tokens = two_tokens(alloc)?;
        let core = core_under(alloc, rules)?;
        Ok(Place {
            alloc,
            tokens,
            core,
        })
    }

    /// What a line is answered over this arena.
    pub(crate) fn say(&mut self, arena: &mut Bump, line: &str) -> Result<Vec<u8>, Trouble> {
        let Asked { stamp, event } = asked(self.alloc, &self.tokens, line)?;
        let reply = self.core.step(arena, stamp.now, stamp.session, event);
        text_of(self.alloc, &reply)
    }

    /// Says a line, if it is answered as it should be.
    pub(crate) fn hear(&mut self, arena: &mut Bump, row: &Row) -> Result<(), Trouble> {
        if self.say(arena, row.0)?.as_slice() == row.1.as_bytes() {
            Ok(())
        } else {
            Err(row.0)
        }
    }

    /// Says all lines, one after another, if each is answered as it should be.
    pub(crate) fn hear_all(&mut self, arena: &mut Bump, rows: &[Row]) -> Result<(), Trouble> {
        for row in rows {
            self.hear(arena, row)?;
        }
        Ok(())
    }

    /// The same over an arena that has memory enough.
    pub(crate) fn hear_freely(&mut self, rows: &[Row]) -> Result<(), Trouble> {
        let mut arena = Bump::new(self.alloc);
        self.hear_all(&mut arena, rows)
    }

    /// What a line is answered over an arena that has so many bytes at most.
    pub(crate) fn say_within(&mut self, limit: usize, line: &str) -> Result<Vec<u8>, Trouble> {
        let mut arena = Bump::new(self.alloc);
        arena.set_allocation_limit(Some(limit));
        self.say(&mut arena, line)
    }
}
