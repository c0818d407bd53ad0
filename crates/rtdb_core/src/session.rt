//! A session: one of those who use the database.
ghost use Rattle.std.specs.Prelude.{◌≡◌, ◌++◌, ◌∷◌, [], true, not, length, nat_le, drop, filter, Option, option_map, OnOk, OnErr};
ghost use Rattle.evaluator.specs.Identity.{Identity};
ghost use Rattle.listeners.specs.Table.{begun, has_id, without_id, taken};
ghost use Rattle.rtdb_model.specs.declared.limits.TheConstants.{MAX_ACTIONS};
ghost use Rattle.rtdb_model.specs.State.{fresh, is_admin};
ghost use Rattle.rtdb_core.specs.Resumed.{going_on};
ghost use Rattle.rtdb_model.specs.Step.{is_below};
ghost use Rattle.rtdb_core.specs.Working.Fates.{settled, left_of, with_listeners};

use crate::action::Action;
use crate::fates::{Docket, settle};
use evaluator::Identity;
use json_tree::NoMemory;
use listeners::{ListenerId, Query, Table};
use path_capture::Path;
use rtdb_model::MAX_ACTIONS;
use std::alloc::Global;
use std::marker::Model;

/// A session that is open: who is signed in on it, if anybody is, what it listens to, what is written when it goes, and
/// whether it is leaving. Contracts see the four.
#[derive(Debug, Drop)]
pub struct Session {
    identity: Option<Identity>,
    listeners: Table,
    actions: Vec<Action>,
    is_leaving: bool,
}

impl Model for Session {
    ghost use Rattle.rtdb_model.specs.State.{Session, session_code};

    ghost Value = { Session };

    ghost coded = { session_code };

    ghost view = { λ session. record { identity = session.identity; listeners = session.listeners; actions = session.actions.items; leaving = session.is_leaving } };
}

impl Session {
    /// A session on which nobody is signed in, which listens to nothing, and which has no actions. It takes no memory.
    pub(crate) fn new(alloc: Global) -> Session
        ensures { result ≡ fresh }
    {
        Session {
            identity: None,
            listeners: Table::new(alloc),
            actions: Vec::new(alloc),
            is_leaving: false,
        }
    }

    /// A session that goes on: this is who is signed in on it, and whether it is leaving. It takes no memory.
    pub(crate) fn going_on(alloc: Global, who: Option<Identity>, is_leaving: bool) -> Session
        ensures { result ≡ going_on who is_leaving }
    {
        Session {
            identity: who,
            listeners: Table::new(alloc),
            actions: Vec::new(alloc),
            is_leaving,
        }
    }

    /// Who is signed in on it.
    pub fn identity(&self) -> Option<&Identity>
        ensures { option_map (λ who. who.now) result ≡ self.now.identity }
    {
        self.identity.as_ref()
    }

    /// Whether an administrator is signed in on it.
    pub(crate) fn is_admin(&self) -> bool
        ensures { result ≡ is_admin self.now.identity }
    {
        match &self.identity {
            Some(who) => who.admin(),
            None => false,
        }
    }

    /// Signs in whoever this is, or signs out.
    pub(crate) fn sign(&mut self, who: Option<Identity>)
        ensures { self.new ≡ record self.old { identity = who } }
    {
        self.identity = who;
    }

    /// What it listens to.
    pub(crate) fn listeners(&self) -> &Table
        ensures { result.now ≡ self.now.listeners }
    {
        &self.listeners
    }

    /// Listens to one thing more, or changes nothing. That takes memory. Whoever calls it has asked whether the id is
    /// free and there is room: an id in use would be reported as want of memory.
    pub(crate) fn listen(
        &mut self,
        id: ListenerId,
        path: Path,
        query: Option<Query>,
    ) -> Result<(), NoMemory>
        ensures ok { OnOk result (self.new ≡ with_listeners self.old (self.old.listeners ++ begun id path query ∷ [])) }
        ensures err { OnErr result (self.new ≡ self.old) }
    {
        match self.listeners.add(id, path, query) {
            Ok(()) => Ok(()),
            Err(_) => Err(NoMemory),
        }
    }

    /// Listens no longer under this id, and says whether it did. It takes no memory.
    pub(crate) fn unlisten(&mut self, id: &ListenerId) -> bool
        ensures had { result ≡ has_id id.now self.old.listeners }
        ensures gone { self.new ≡ with_listeners self.old (without_id id.now self.old.listeners) }
    {
        self.listeners.drop_one(id).is_ok()
    }

    /// Makes what is decided of its listeners, and says what is left. It takes no memory.
    pub(crate) fn settle<'a>(&mut self, docket: Docket<'a>) -> Docket<'a>
        ensures made { self.new ≡ with_listeners self.old (settled docket.entry.place docket.entry.decisions.now self.old.listeners) }
        ensures place { result.place ≡ (left_of docket.entry.place docket.entry.decisions.now self.old.listeners).0 }
        ensures left { result.decisions.now ≡ (left_of docket.entry.place docket.entry.decisions.now self.old.listeners).1 }
    {
        settle(&mut self.listeners, docket)
    }

    /// What is written when it goes, in the order in which it was established.
    pub fn actions(&self) -> &[Action]
        ensures { result.now ≡ self.now.actions }
    {
        self.actions.as_slice()
    }

    /// Whether it has as many actions as it may.
    pub(crate) fn is_full(&self) -> bool
        ensures { result ≡ nat_le MAX_ACTIONS (length self.now.actions) }
    {
        self.actions.len() >= MAX_ACTIONS
    }

    /// Whether it is leaving.
    pub fn is_leaving(&self) -> bool
        ensures { result ≡ self.now.leaving }
    {
        self.is_leaving
    }

    /// Establishes one action more, or changes nothing. That takes memory.
    pub(crate) fn keep(&mut self, action: Action) -> Result<(), NoMemory>
        ensures ok { OnOk result (self.new ≡ record self.old { actions = self.old.actions ++ action ∷ [] }) }
        ensures err { OnErr result (self.new ≡ self.old) }
    {
        self.actions.push(action)?;
        Ok(())
    }

    /// Takes back the actions that write at this path and below it alone. It takes no memory.
    pub(crate) fn cancel_below(&mut self, path: &Path)
        ensures { self.new ≡ record self.old { actions = filter (λ action. not (is_below path.now action)) self.old.actions } }
    {
        self.actions.retain(|action| !action.is_below(path));
    }

    /// Lets it leave. It takes no memory.
    pub(crate) fn leave(&mut self)
        ensures { self.new ≡ record self.old { leaving = true } }
    {
        self.is_leaving = true;
    }

    /// Drops its first action, if it has one. It takes no memory.
    pub(crate) fn drop_first(&mut self)
        ensures { self.new ≡ record self.old { actions = drop 1 self.old.actions } }
    {
        if !self.actions.is_empty() {
            drop(self.actions.remove(0));
        }
    }

    /// The news of its listeners was reported. It takes no memory.
    pub(crate) fn take_marked(&mut self)
        ensures { self.new ≡ with_listeners self.old (taken self.old.listeners) }
    {
        self.listeners.take_marked();
    }
}
