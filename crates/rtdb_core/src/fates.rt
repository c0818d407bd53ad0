//! What becomes of listeners in a step: decided of all of them first, and then made, which can't fail.
ghost use Rattle.std.specs.Prelude.{◌≡◌, ◌+◌, ◌<◌, ◌^◌, ◌++◌, ◌∷◌, [], length, slice_get, slice_set, Some, IfSome, OnOk};
ghost use Rattle.listeners.specs.Listener.{seen};
ghost use Rattle.rtdb_core.specs.Working.Fates.{fated, sparse, next_place, front, behind, settled, left_of};

use bumpalo::Bump;
use json_tree::NoMemory;
use listeners::{Listener, Table};

/// What becomes of a listener that doesn't stay as it is.
#[derive(Clone, Copy, Debug, PartialEq, Eq)]
pub(crate) enum Fate {
    Marked,
    Cancelled,
}

/// What becomes of the listener at a place, which is how many are judged before it.
#[derive(Clone, Copy, Debug, PartialEq, Eq)]
pub(crate) struct Decision {
    pub place: u64,
    pub fate: Fate,
}

/// What is decided so far: of each listener that does not stay as it is, in their order.
#[derive(Drop)]
pub(crate) struct Decisions<'a> {
    pub place: u64,
    pub made: Vec<Decision, &'a Bump>,
}

impl<'a> Decisions<'a> {
    /// Nothing is decided. It takes no memory.
    pub(crate) fn new(arena: &'a Bump) -> Decisions<'a>
        ensures place { result.place ≡ 0 }
        ensures made { result.made.items ≡ [] }
    {
        Decisions {
            place: 0,
            made: Vec::new(arena),
        }
    }

    /// No more are judged than a place counts.
    pub(crate) fn law(&self)
        ensures { self.now.place < 2 ^ 64 }
    {
        let _place = self.place;
    }

    /// Decides of the next listener. It takes memory only where that does not stay as it is.
    pub(crate) fn push(&mut self, fate: Option<Fate>) -> Result<(), NoMemory>
        ensures place { OnOk result (self.new.place ≡ self.old.place + 1) }
        ensures made { OnOk result (self.new.made.items ≡ self.old.made.items ++ sparse self.old.place (fate ∷ [])) }
    {
        let Some(place) = self.place.checked_add(1) else {
            return Err(NoMemory);
        };
        if let Some(fate) = fate {
            self.made.push(Decision {
                place: self.place,
                fate,
            })?;
        }
        self.place = place;
        Ok(())
    }
}

/// The decisions that are still to be made, and the place of the listener that comes next.
#[derive(Clone, Copy)]
pub(crate) struct Docket<'a> {
    pub place: u64,
    pub decisions: &'a [Decision],
}

impl<'a> Docket<'a> {
    /// All of these decisions.
    pub(crate) fn new(decisions: &'a [Decision]) -> Docket<'a>
        ensures place { result.place ≡ 0 }
        ensures decisions { result.decisions.now ≡ decisions.now }
    {
        Docket {
            place: 0,
            decisions,
        }
    }

    /// What becomes of the listener that comes next.
    pub(crate) fn front(&self) -> Option<Fate>
        ensures { result ≡ front self.now.place self.now.decisions.now }
    {
        let first = self.decisions.first()?;
        if first.place == self.place {
            Some(first.fate)
        } else {
            None
        }
    }

    /// What is left after it.
    pub(crate) fn behind(self) -> Docket<'a>
        ensures place { result.place ≡ next_place self.entry.place }
        ensures decisions { result.decisions.now ≡ behind self.entry.place self.entry.decisions.now }
    {
        let decisions = match self.decisions.split_first() {
            Some((first, others)) => if first.place == self.place {
                others
            } else {
                self.decisions
            },
            None => self.decisions,
        };
        Docket {
            place: self.place.saturating_add(1),
            decisions,
        }
    }
}

/// Makes what is decided of these listeners, and says what is left. It takes no memory.
pub(crate) fn settle<'a>(table: &mut Table, docket: Docket<'a>) -> Docket<'a>
    ensures made { table.new ≡ settled docket.entry.place docket.entry.decisions.now table.old }
    ensures place { result.place ≡ (left_of docket.entry.place docket.entry.decisions.now table.old).0 }
    ensures left { result.decisions.now ≡ (left_of docket.entry.place docket.entry.decisions.now table.old).1 }
{
    let mut rest = docket;
    for index in 0..table.len() {
        if let Some(fate) = rest.front() {
            change(table, index, fate);
        }
        rest = rest.behind();
    }
    rest
}

fn change(table: &mut Table, index: usize, fate: Fate)
    requires { index < length table.old }
    ensures { IfSome (slice_get table.old index) (λ l. table.new ≡ slice_set table.old index (fated (Some fate) l)) }
{
    if table.entry(index).is_live {
        match fate {
            Fate::Marked => table.mark(index),
            Fate::Cancelled => table.cancel(index),
        }
    }
}

/// A listener after what becomes of it.
pub(crate) fn after<'a>(listener: Listener<'a>, fate: Option<Fate>) -> Listener<'a>
    ensures { seen result ≡ fated fate (seen listener.entry) }
{
    let Some(fate) = fate else {
        return listener;
    };
    if !listener.is_live {
        return listener;
    }
    match fate {
        Fate::Marked => Listener {
            is_marked: true,
            ..listener
        },
        Fate::Cancelled => Listener {
            is_live: false,
            is_marked: false,
            ..listener
        },
    }
}
