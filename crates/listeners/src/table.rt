//! What a session listens to.
ghost use Rattle.std.specs.Prelude.{◌≡◌, ◌↔◌, ◌<◌, ◌≤◌, ◌++◌, ◌∷◌, [], true, false, length, slice_get, slice_set, Some, IfSome, OnOk, OnErr, IsErrOf, IsErr};
ghost use Rattle.indexmap.specs.IndexMap.{index_map_len, values, set_value_at};
ghost use Rattle.listeners.specs.Table.{begun, has_id, without_id, with_mark, cancelled, taken};
ghost use Rattle.listeners.specs.Listener.{seen};
ghost use Rattle.listeners.specs.Working.Heard.{marked_in, cancelled_in};
ghost use Rattle.listeners.specs.declared.table.AddFault.TheVariants.{NoMemory as no_memory};

use crate::limits::MAX_LISTENERS;
use crate::listener_id::ListenerId;
use crate::query::Query;
use indexmap::IndexMap;
use json_tree::NoMemory;
use path_capture::Path;
use std::alloc::Global;
use std::marker::Model;
use thiserror::Error;

/// A listener of a session. Contracts see a record of its id, its path, its query, whether it is live,
/// and whether it is marked.
#[derive(Debug, Drop)]
pub struct Listener<'a> {
    /// The name that the session gave it.
    pub id: &'a ListenerId,
    /// What it listens to.
    pub path: &'a Path,
    /// The part of it that is asked for, if not all.
    pub query: Option<&'a Query>,
    /// Whether its read is granted still; else it is cancelled.
    pub is_live: bool,
    /// Whether there is news for it.
    pub is_marked: bool,
}

// What is kept of a listener beside its id.
#[derive(Debug, Drop)]
pub(crate) struct Heard {
    path: Path,
    query: Option<Query>,
    live: bool,
    marked: bool,
}

/// Why a session can't listen to more.
#[derive(Clone, Copy, Debug, PartialEq, Eq, Error)]
pub enum AddFault {
    /// The session listens under this id already.
    #[error("an id that is in use")]
    DuplicateId,
    /// The session has as many listeners as it may.
    #[error("more than 64 listeners")]
    TooManyListeners,
    #[error("out of memory")]
    NoMemory,
}

impl From<NoMemory> for AddFault {
    ghost from_gives = { λ _ fault. fault ≡ no_memory };

    fn from(_refused: NoMemory) -> AddFault {
        AddFault::NoMemory
    }
}

/// A session doesn't listen under this id.
#[derive(Clone, Copy, Debug, PartialEq, Eq, Error)]
#[error("no listener of this id")]
pub struct NoListener;

/// The listeners of a session, in the order in which they began. Contracts see their list.
#[derive(Debug, Drop)]
pub struct Table {
    held: IndexMap<ListenerId, Heard>,
}

impl Model for Table {
    ghost use Rattle.std.specs.Prelude.{List, map};
    ghost use Rattle.listeners.specs.Table as specs;
    ghost use Rattle.listeners.specs.Table.{listener_code};
    ghost use Rattle.listeners.specs.Working.Heard.{listener_of};
    ghost use Rattle.std.specs.Coded.{coded_list};

    ghost Value = { List specs.Listener };

    ghost coded = { coded_list listener_code };

    ghost view = { λ table. map listener_of table.held.entries };
}

impl Table {
    /// A table without a listener. It takes no memory.
    pub fn new(alloc: Global) -> Table
        ensures { result ≡ [] }
    {
        Table {
            held: IndexMap::new(alloc),
        }
    }

    /// How many listeners there are, the cancelled among them.
    pub fn len(&self) -> usize
        ensures { result ≡ length self.now }
    {
        self.held.len()
    }

    /// The listener at an index.
    pub fn entry(&self, index: usize) -> Listener<'_>
        requires { index < length self.now }
        ensures { slice_get self.now index ≡ Some (seen result) }
    {
        let Some((id, heard)) = self.held.get_index(index) else {
            unreachable!()
        };
        Listener {
            id,
            path: &heard.path,
            query: heard.query.as_ref(),
            is_live: heard.live,
            is_marked: heard.marked,
        }
    }

    /// Whether one of them has this id. It takes no memory.
    pub fn has(&self, id: &ListenerId) -> bool
        ensures { result ≡ has_id id.now self.now }
    {
        self.held.contains_key(id)
    }

    /// Listens under an id to a path: a live listener comes last, for which there is no news. That takes
    /// one growth at most of each of the table's parts. An id that is in use is refused before the number of
    /// listeners.
    pub fn add(&mut self, id: ListenerId, path: Path, query: Option<Query>) -> Result<(), AddFault>
        ensures ok { OnOk result (self.new ≡ self.old ++ begun id path query ∷ []) }
        ensures duplicate { IsErrOf result AddFault.DuplicateId ↔ (has_id id self.old ≡ true) }
        ensures too_many { IsErrOf result AddFault.TooManyListeners ↔ ((has_id id self.old ≡ false) × (MAX_LISTENERS ≤ length self.old)) }
        ensures err { OnErr result (self.new ≡ self.old) }
    {
        if self.has(&id) {
            return Err(AddFault::DuplicateId);
        }
        if self.len() >= MAX_LISTENERS {
            return Err(AddFault::TooManyListeners);
        }
        self.push(id, path, query)?;
        Ok(())
    }

    fn push(&mut self, id: ListenerId, path: Path, query: Option<Query>) -> Result<(), NoMemory>
        requires { has_id id self.old ≡ false }
        ensures ok { OnOk result (self.new ≡ self.old ++ begun id path query ∷ []) }
        ensures err { OnErr result (self.new ≡ self.old) }
    {
        let heard = Heard {
            path,
            query,
            live: true,
            marked: false,
        };
        match self.held.insert(id, heard) {
            Ok(_) => Ok(()),
            Err(_) => Err(NoMemory),
        }
    }

    /// Listens no longer under an id. It takes no memory.
    pub fn drop_one(&mut self, id: &ListenerId) -> Result<(), NoListener>
        ensures ok { OnOk result (self.new ≡ without_id id.now self.old) }
        ensures no_listener { IsErr result ↔ (has_id id.now self.old ≡ false) }
        ensures err { OnErr result (self.new ≡ self.old) }
    {
        if !self.has(id) {
            return Err(NoListener);
        }
        self.held.retain(|other, _| id != other);
        Ok(())
    }

    /// There is news for the listener at an index. It takes no memory.
    pub fn mark(&mut self, index: usize)
        requires within { index < length self.old }
        requires live { IfSome (slice_get self.old index) (λ l. l.live ≡ true) }
        ensures { IfSome (slice_get self.old index) (λ l. self.new ≡ slice_set self.old index (with_mark l)) }
    {
        mark_at(&mut self.held, index);
    }

    /// The listener at an index is cancelled, and unmarked. It takes no memory.
    pub fn cancel(&mut self, index: usize)
        requires within { index < length self.old }
        requires live { IfSome (slice_get self.old index) (λ l. l.live ≡ true) }
        ensures { IfSome (slice_get self.old index) (λ l. self.new ≡ slice_set self.old index (cancelled l)) }
    {
        cancel_at(&mut self.held, index);
    }

    /// The news of all listeners was reported: the cancelled go, and no other is marked. It takes no memory.
    pub fn take_marked(&mut self)
        ensures { self.new ≡ taken self.old }
    {
        self.held.retain(|_, heard| {
            heard.marked = false;
            heard.live
        });
    }
}

fn mark_at(held: &mut IndexMap<ListenerId, Heard>, index: usize)
    requires { index < index_map_len held.old }
    ensures { IfSome (slice_get (values held.old) index) (λ heard. held.new.entries ≡ set_value_at held.old.entries index (marked_in heard)) }
{
    if let Some(heard) = held.get_index_mut(index) {
        heard.marked = true;
    }
}

fn cancel_at(held: &mut IndexMap<ListenerId, Heard>, index: usize)
    requires { index < index_map_len held.old }
    ensures { IfSome (slice_get (values held.old) index) (λ heard. held.new.entries ≡ set_value_at held.old.entries index (cancelled_in heard)) }
{
    if let Some(heard) = held.get_index_mut(index) {
        heard.live = false;
        heard.marked = false;
    }
}
