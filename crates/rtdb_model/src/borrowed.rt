//! Replies that are borrowed from the database, from the event and from the arena of its step.
ghost use Rattle.std.specs.Prelude.{◌≡◌, true, IfOk, OnErr};
ghost use Rattle.rtdb_model.specs.Borrowed.{reply_of, ran_of, refusal_of, is_copied, is_named, names_rules};
ghost use Rattle.rtdb_model.specs.declared.reply.Refusal.TheVariants.{NoMemory as no_memory};
ghost use Rattle.rtdb_model.specs.declared.borrowed.BorrowedRefusal.TheVariants.{Other as other};

use crate::reply::{Ran, Refusal, Reply};
use crate::tidings::{Tidings, copied};
use arena_snapshot::View;
use json_tree::NoMemory;
use judge::BorrowedNames;
use path_capture::Path;
use std::alloc::Global;

/// What an event that is not refused is answered.
#[derive(Drop)]
pub enum BorrowedReply<'a> {
    /// It can be done.
    Done,
    /// The tree that was asked for, None where nothing exists.
    Value(Option<View<'a>>),
    /// The news of the session's listeners.
    News(Tidings<'a>),
    /// An action can be run, or none is left.
    Ran(BorrowedRan<'a>),
    /// The session can be closed, and so many of its actions are dropped then.
    Closed(usize),
}

impl<'a> BorrowedReply<'a> {
    /// The same reply, owned: it copies each tree out of the arena, at the cost of its locations.
    pub fn into_owned(self, alloc: Global) -> Result<Reply, NoMemory>
        ensures same { IfOk result (λ reply. reply ≡ reply_of self.entry) }
        ensures later { OnErr result (is_copied (reply_of self.entry) ≡ true) }
    {
        match self {
            BorrowedReply::Done => Ok(Reply::Done),
            BorrowedReply::Value(view) => Ok(Reply::Value(copied(alloc, &view)?)),
            BorrowedReply::News(tidings) => Ok(Reply::News(tidings.copy(alloc)?)),
            BorrowedReply::Ran(ran) => Ok(Reply::Ran(ran.into_owned(alloc)?)),
            BorrowedReply::Closed(dropped) => Ok(Reply::Closed(dropped)),
        }
    }
}

/// What becomes of the first action of a session that is leaving. The names of a denial are borrowed from the rules.
#[derive(Drop)]
pub enum BorrowedRan<'a> {
    /// There is none.
    Empty,
    /// It can be made.
    Applied,
    /// It is refused, for this reason, which lies in a growth of its own, so that no other reply is as large.
    Skipped(Box<BorrowedRefusal<'a>>),
}

impl<'a> BorrowedRan<'a> {
    /// The same, owned.
    pub fn into_owned(self, alloc: Global) -> Result<Ran, NoMemory>
        ensures same { IfOk result (λ ran. ran ≡ ran_of self.entry) }
        ensures later { OnErr result (is_named (ran_of self.entry) ≡ true) }
    {
        match self {
            BorrowedRan::Empty => Ok(Ran::Empty),
            BorrowedRan::Applied => Ok(Ran::Applied),
            BorrowedRan::Skipped(refusal) => {
                Ok(Ran::Skipped(Box::into_inner(refusal).into_owned(alloc)?))
            }
        }
    }
}

/// Why an event is refused. The names of a denial are borrowed from the rules.
#[derive(Drop)]
pub enum BorrowedRefusal<'a> {
    /// No `.read` at the path or above it holds; these are all of them.
    ReadDenied(BorrowedNames<'a>),
    /// No `.write` at this location or above it holds; these are all of them.
    WriteDenied(&'a Path, BorrowedNames<'a>),
    /// Any other refusal.
    Other(Refusal),
}

impl<'a> BorrowedRefusal<'a> {
    /// The same refusal, owned: growths for the location of a denied write, one for the list of names, and those of a
    /// pattern for each.
    pub fn into_owned(self, alloc: Global) -> Result<Refusal, NoMemory>
        ensures same { IfOk result (λ refusal. refusal ≡ refusal_of self.entry) }
        ensures later { OnErr result (names_rules (refusal_of self.entry) ≡ true) }
    {
        match self {
            BorrowedRefusal::ReadDenied(names) => Ok(Refusal::ReadDenied(names.copy(alloc)?)),
            BorrowedRefusal::WriteDenied(at, names) => {
                let location = at.copy(alloc)?;
                Ok(Refusal::WriteDenied(location, names.copy(alloc)?))
            }
            BorrowedRefusal::Other(refusal) => Ok(refusal),
        }
    }
}

impl<'a> From<NoMemory> for BorrowedRefusal<'a> {
    ghost from_gives = { λ _ refusal. refusal ≡ other no_memory };

    fn from(_refused: NoMemory) -> BorrowedRefusal<'a> {
        BorrowedRefusal::Other(Refusal::NoMemory)
    }
}
