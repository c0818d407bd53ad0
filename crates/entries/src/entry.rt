//! Entries, as they are read.
ghost use Rattle.std.specs.Prelude.{◌≡◌};
ghost use Rattle.entries.specs.declared.entry.EntryFault.TheVariants.{NoMemory as no_memory};

use evaluator::Identity;
use json_tree::NoMemory;
use requests::Text;
use rtdb_model::{Event, Writes};
use thiserror::Error;

/// An entry that was read.
#[derive(Drop)]
pub enum Entry<'a> {
    /// The text of the rules file in force.
    Rules(&'a str),
    /// The next bytes of the JSON text of the tree.
    Tree(&'a [u8]),
    /// The tree is whole: the database opens with it, and with the rules.
    Begin,
    /// A session that is open, and whoever is signed in on it.
    Session {
        number: u64,
        is_leaving: bool,
        who: Option<Identity>,
    },
    /// One action more of a session.
    Action {
        number: u64,
        writes: Writes,
    },
    /// A call, and the text of the rules file where it deployed one.
    Call {
        now: u64,
        session: u64,
        event: Event,
        rules: Option<Text>,
    },
}

/// What a session did that is no message.
#[derive(Clone, Copy)]
pub enum Deed<'a> {
    /// It was opened.
    Open,
    /// It was closed.
    Close,
    /// It left.
    Leave,
    /// The first of its actions was run, since it is leaving.
    RunNext,
    /// This person signed in. Of the secret nothing is said.
    SignIn(&'a Identity),
}

/// Why a text gives no entry.
#[derive(Clone, Copy, Debug, PartialEq, Eq, Error)]
pub enum EntryFault {
    /// It means nothing.
    #[error("no entry")]
    NotAnEntry,
    #[error("out of memory")]
    NoMemory,
}

impl From<NoMemory> for EntryFault {
    ghost from_gives = { λ _ fault. fault ≡ no_memory };

    fn from(_refused: NoMemory) -> EntryFault {
        EntryFault::NoMemory
    }
}
