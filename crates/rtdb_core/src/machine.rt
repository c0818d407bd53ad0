//! The state machine: an event is judged, and what is granted is done.
ghost use Rattle.std.specs.Prelude.{◌≡◌, ◌||◌, drop, true, ◌↔◌, map, ◌≤◌, ◌<◌, ◌^◌, ◌∷◌, ◌++◌, [], length, Some, None, Option, false, not, IsErr, IfOk, IfErr, IfSome, OnOk, OnErr, is_some, option_map};
ghost use Rattle.std.specs.FinMap as map_of;
ghost use Rattle.tree_model.specs.Tree.{non_null, count};
ghost use Rattle.tree_model.specs.Put.{written, overlaps};
ghost use Rattle.tree_model.specs.Draft.{IsFixed};
ghost use Rattle.tree_model.specs.Write.{AreFixed};
ghost use Rattle.rtdb_model.specs.Filled.{IsFilled};
ghost use Rattle.path_capture.specs.Write.{tree_or_null};
ghost use Rattle.rules_reader.specs.Place.{HasOneCapture};
ghost use Rattle.tree_model.specs.Put.{location};
ghost use Rattle.judge.specs.Judging.{MayWriteAll};
ghost use Rattle.judge.specs.Tests.{write_verdict};
ghost use Rattle.judge.specs.Question.{scene_of};
ghost use Rattle.evaluator.specs.Identity.{Identity};
ghost use Rattle.listeners.specs.Table.{has_id, without_id, taken};
ghost use Rattle.rtdb_model.specs.State.{State, opening, session_in, is_open, is_leaving, identity_of, listeners_of, actions_of, is_admin, scene_for, scene_at};
ghost use Rattle.rtdb_model.specs.Rejudged.{selected_at};
ghost use Rattle.rtdb_model.specs.Borrowed.{refusal_of};
ghost use Rattle.rtdb_model.specs.Step.{outcome, opened, closed, opens, closes, with_session, signs, gets, sets, updates, listens, unlistens, polls, ticks, deploys, keeps_one, keeps_update, runs, tree_with, listening, news_of, deployed, written_to, with_action, with_actions, without_actions, departing, writes_of, denial, takes_no_memory, Step};
ghost use Rattle.rtdb_model.specs.declared.borrowed.BorrowedRefusal.TheVariants as refusals;
ghost use Rattle.rtdb_model.specs.declared.reply.Refusal.TheVariants.{ReadDenied};
ghost use Rattle.rtdb_core.specs.Working.Fates.{sparse, settled, fate_of, fates_of, all_sessions, with_settled, with_tree, with_rules, read_refusal_for, verdict_for, write_refusal_for};
ghost use Rattle.rtdb_core.specs.Working.Heard.{AreHeard, AllHeardIn, AllHeard};
ghost use Rattle.rtdb_core.specs.Working.Passages.{IsPassage, tree_before, tree_after, who_of};
ghost use Rattle.rtdb_core.specs.Working.Plans.{barred, quiet, committed, MayBeDone, MayBeMade, MayBeKept, CanBeMade, Comes, Refuses, IsBarred, IsFound, IsGranted, AreGranted, AreGrantedNow, IsRefused, IsRunSo};

use crate::action::Action;
use crate::database::TooLarge;
use crate::fates::{Decision, Decisions, Docket};
use crate::passage::{Passage, shared};
use crate::plan::Found;
use crate::refusals::{denial, full, listen_refusal, other, reset};
use crate::rejudging::{decide_all, decide_own, settle_all};
use crate::selected::{asked_for, view_in};
use crate::session::Session;
use crate::telling::tidings_of;
use crate::trees::{count_in, count_of};
use arena_snapshot::{View, overlaps, overlay};
use bumpalo::Bump;
use evaluator::{Identity, MAX_MOMENT, Moment};
use json_tree::{NoMemory, Node};
use judge::{BorrowedNames, Scene, judge_granted, judge_write, read_denial, write_denial};
use listeners::{ListenerId, Query};
use path_capture::{Path, Write, make_all};
use rtdb_model::{
    BorrowedRefusal, BorrowedReply, Event, MAX_LOCATIONS, MAX_SESSIONS, Refusal, Tidings, Writes,
};
use rules_reader::Rules;
use std::alloc::Global;
use std::collections::BTreeMap;
use std::marker::Model;
use std::slice;

/// What answers the events of a [`Core`](crate::Core): its tree, the rules in force, and the sessions
/// that are open. Of the listeners it takes from its caller that they were granted what they listen to.
/// It keeps the allocator that it was made with. Contracts see the three.
#[derive(Drop)]
pub(crate) struct Machine {
    alloc: Global,
    rules: Rules,
    tree: Option<Node>,
    sessions: BTreeMap<u64, Session>,
}

impl Model for Machine {
    ghost use Rattle.std.specs.Prelude.{◌≤◌};
    ghost use Rattle.std.specs.FinMap as map_of;
    ghost use Rattle.path_capture.specs.Write.{tree_or_null};
    ghost use Rattle.rtdb_model.specs.State.{State, state_code};
    ghost use Rattle.tree_model.specs.Tree.{count};
    ghost use Rattle.rtdb_model.specs.declared.limits.TheConstants.{MAX_LOCATIONS};

    ghost Value = { State };

    ghost coded = { state_code };

    ghost view = { λ machine. record { tree = tree_or_null machine.tree; rules = machine.rules; sessions = map_of.from_entries machine.sessions.entries } };

    ghost invariant = { λ machine. count (tree_or_null machine.tree) ≤ MAX_LOCATIONS };
}

impl Machine {
    /// What [`Core::new`](crate::Core::new) makes.
    pub(crate) fn new(alloc: Global, rules: Rules, tree: Option<Node>) -> Result<Machine, TooLarge>
        ensures opens { IfOk result (λ machine. machine ≡ opening rules (tree_or_null tree)) }
        ensures refused { IsErr result ↔ (MAX_LOCATIONS < count (tree_or_null tree)) }
        ensures handed_back { IfErr result (λ too_large. (too_large.rules ≡ rules) × (too_large.tree ≡ tree)) }
    {
        if count_of(&tree) > MAX_LOCATIONS {
            return Err(TooLarge { rules, tree });
        }
        Ok(Machine {
            alloc,
            rules,
            tree,
            sessions: BTreeMap::new(alloc),
        })
    }

    /// Judges an event as [`Core::judge`](crate::Core::judge) does.
    pub(crate) fn judge<'r, 'a: 'r>(
        &'r self,
        arena: &'a mut Bump,
        now: u64,
        session: u64,
        event: &'r Event,
    ) -> Result<Found<'r, 'a>, BorrowedRefusal<'r>>
        requires moment { now ≤ MAX_MOMENT }
        requires heard { AllHeard self.now }
        requires filled { IsFilled event.now }
        ensures found { IfOk result (IsFound self.now now session event.now) }
        ensures refused { IfErr result (λ refusal. Refuses self.now (outcome self.now now session event.now) (takes_no_memory self.now session event.now) (refusal_of refusal)) }
    {
        match event {
            Event::Open => self.judge_open(arena, session),
            Event::Close => self.judge_close(arena, session),
            Event::SignIn(who) => self.judge_sign(arena, now, session, Some(who)),
            Event::SignOut => self.judge_sign(arena, now, session, None),
            Event::Get(path, query) => self.judge_get(arena, now, session, path, query.as_ref()),
            Event::Set(write) => self.judge_set(arena, now, session, write),
            Event::Remove(removal) => self.judge_set(arena, now, session, removal.write()),
            Event::Update(writes) => self.judge_update(arena, now, session, writes),
            Event::Listen(id, path, query) => {
                self.judge_listen(arena, now, session, id, path, query.as_ref())
            }
            Event::Unlisten(id) => self.judge_unlisten(arena, session, id),
            Event::Poll => self.judge_poll(arena, now, session),
            Event::Tick => self.judge_tick(arena, now),
            Event::Deploy(rules) => self.judge_deploy(arena, now, session, rules),
            Event::OnSet(write) => self.judge_keep(arena, now, session, write),
            Event::OnRemove(removal) => self.judge_keep(arena, now, session, removal.write()),
            Event::OnUpdate(writes) => self.judge_keep_update(arena, now, session, writes),
            Event::OnCancel(_path) => self.judge_quiet(arena, session),
            Event::Leave => self.judge_quiet(arena, session),
            Event::RunNext => self.judge_run(arena, now, session),
        }
    }

    /// Does an event of a session that may be done, by what was decided of listeners, and where an action is run with its
    /// writes. Only a session that opens, a write, a listen and what is kept for later take memory.
    pub(crate) fn commit(
        &mut self,
        session: u64,
        event: Event,
        decisions: &[Decision],
        run: Option<Box<Writes>>,
    ) -> Result<(), NoMemory>
        requires { MayBeDone self.old session event run }
        ensures done { OnOk result (self.new ≡ committed self.old session event decisions.now run) }
        ensures unchanged { OnErr result (self.new ≡ self.old) }
        ensures later { OnErr result (takes_no_memory self.old session event ≡ false) }
    {
        match event {
            Event::Open => return self.add(session),
            Event::Close => drop(self.forget(session)),
            Event::SignIn(who) => self.put_identity(session, Some(who), decisions),
            Event::SignOut => self.put_identity(session, None, decisions),
            Event::Get(_path, _query) => {}
            Event::Set(write) => return self.make(write, decisions),
            Event::Remove(removal) => return self.make(removal.into_write(), decisions),
            Event::Update(writes) => return self.make_update(writes, decisions),
            Event::Listen(id, path, query) => return self.begin(session, id, path, query),
            Event::Unlisten(id) => drop(self.end(session, &id)),
            Event::Poll => self.hand_out(session, decisions),
            Event::Tick => self.settle_all(decisions),
            Event::Deploy(rules) => self.put_rules(rules, decisions),
            Event::OnSet(write) => return self.keep_write(session, write),
            Event::OnRemove(removal) => return self.keep_write(session, removal.into_write()),
            Event::OnUpdate(writes) => return self.keep(session, Action::of(writes)),
            Event::OnCancel(path) => self.cancel(session, &path),
            Event::Leave => self.leave(session),
            Event::RunNext => return self.run_first(session, decisions, run),
        }
        Ok(())
    }

    /// The allocator that it keeps.
    pub(crate) fn alloc(&self) -> Global {
        self.alloc
    }

    /// The tree that is stored, None for null.
    pub(crate) fn tree(&self) -> Option<&Node>
        ensures tree { option_map (λ node. node.now) result ≡ non_null self.now.tree }
        ensures room { count self.now.tree ≤ MAX_LOCATIONS }
    {
        match &self.tree {
            Some(node) => {
                node.law();
                Some(node)
            }
            None => None,
        }
    }

    /// The rules in force. In each of their objects at most one part is a capture.
    pub(crate) fn rules(&self) -> &Rules
        ensures rules { result.now ≡ self.now.rules }
        ensures one { HasOneCapture self.now.rules }
    {
        self.rules.root();
        &self.rules
    }

    /// How many sessions are open.
    pub(crate) fn sessions(&self) -> usize
        ensures { result ≡ map_of.len self.now.sessions }
    {
        self.sessions.len()
    }

    /// The sessions that are open, by their numbers.
    pub(crate) fn open_sessions(&self) -> &BTreeMap<u64, Session>
        ensures { result.now.entries ≡ map_of.entries self.now.sessions }
    {
        self.sessions.iter();
        &self.sessions
    }

    /// Whether the session of this number is open.
    pub(crate) fn is_open(&self, session: u64) -> bool
        ensures { result ≡ is_open self.now session }
    {
        self.sessions.contains_key(&session)
    }

    /// The session of this number, if it is open.
    pub(crate) fn open_session(&self, session: u64) -> Option<&Session>
        ensures open { is_some result ≡ is_open self.now session }
        ensures identity { IfSome result (λ one. one.now.identity ≡ identity_of self.now session) }
        ensures listeners { IfSome result (λ one. one.now.listeners ≡ listeners_of self.now session) }
        ensures one { IfSome result (λ one. one.now ≡ session_in self.now session) }
    {
        self.sessions.get(&session)
    }

    // The session of this number, or a refusal where it is not open.
    fn demand_open<'r>(&'r self, session: u64) -> Result<&'r Session, BorrowedRefusal<'r>>
        ensures open { OnOk result (is_open self.now session ≡ true) }
        ensures identity { IfOk result (λ one. one.now.identity ≡ identity_of self.now session) }
        ensures listeners { IfOk result (λ one. one.now.listeners ≡ listeners_of self.now session) }
        ensures one { IfOk result (λ one. one.now ≡ session_in self.now session) }
        ensures refused { IfErr result (λ refusal. (refusal ≡ refusals.Other Refusal.NoSession) × (is_open self.now session ≡ false)) }
    {
        match self.open_session(session) {
            Some(open) => Ok(open),
            None => Err(BorrowedRefusal::Other(Refusal::NoSession)),
        }
    }

    // The session of this number, or a refusal where it is not open or is leaving.
    fn demand_present<'r>(&'r self, session: u64) -> Result<&'r Session, BorrowedRefusal<'r>>
        ensures open { OnOk result (is_open self.now session ≡ true) }
        ensures stays { OnOk result (is_leaving self.now session ≡ false) }
        ensures identity { IfOk result (λ one. one.now.identity ≡ identity_of self.now session) }
        ensures listeners { IfOk result (λ one. one.now.listeners ≡ listeners_of self.now session) }
        ensures actions { IfOk result (λ one. one.now.actions ≡ actions_of self.now session) }
        ensures refused { IfErr result (λ refusal. IsBarred self.now session (refusal_of refusal)) }
    {
        let open = self.demand_open(session)?;
        if open.is_leaving() {
            return Err(BorrowedRefusal::Other(Refusal::Leaving));
        }
        Ok(open)
    }

    // ---- what each event comes to

    fn judge_open<'r, 'a: 'r>(
        &'r self,
        arena: &'a mut Bump,
        session: u64,
    ) -> Result<Found<'r, 'a>, BorrowedRefusal<'r>>
        ensures found { IfOk result (λ found. Comes (opens self.now session) found (opened self.now session) × (takes_no_memory self.now session Event.Open ≡ false)) }
        ensures refused { IfErr result (λ refusal. Refuses self.now (opens self.now session) (takes_no_memory self.now session Event.Open) (refusal_of refusal)) }
    {
        if self.is_open(session) {
            return Err(BorrowedRefusal::Other(Refusal::SessionOpen));
        }
        if self.sessions() >= MAX_SESSIONS {
            return Err(BorrowedRefusal::Other(Refusal::TooManySessions));
        }
        reset(arena)?;
        Ok(Found::done(arena))
    }

    fn judge_close<'r, 'a: 'r>(
        &'r self,
        arena: &'a mut Bump,
        session: u64,
    ) -> Result<Found<'r, 'a>, BorrowedRefusal<'r>>
        ensures found { IfOk result (λ found. Comes (closes self.now session) found (closed self.now session)) }
        ensures refused { IfErr result (λ refusal. Refuses self.now (closes self.now session) true (refusal_of refusal)) }
    {
        let open = self.demand_open(session)?;
        let dropped = open.actions().len();
        Ok(Found::replied(arena, BorrowedReply::Closed(dropped)))
    }

    fn judge_sign<'r, 'a: 'r>(
        &'r self,
        arena: &'a mut Bump,
        now: u64,
        session: u64,
        who: Option<&'r Identity>,
    ) -> Result<Found<'r, 'a>, BorrowedRefusal<'r>>
        requires { now ≤ MAX_MOMENT }
        ensures found { IfOk result (λ found. Comes (barred self.now session (signs self.now now session (who_of who.entry))) found (with_session self.now session (who_of who.entry) (settled 0 found.decisions.made.items (listeners_of self.now session))) × (is_open self.now session ≡ true)) }
        ensures refused { IfErr result (λ refusal. Refuses self.now (barred self.now session (signs self.now now session (who_of who.entry))) (is_leaving self.now session || not (is_open self.now session)) (refusal_of refusal)) }
    {
        let open = self.demand_present(session)?;
        reset(arena)?;
        let decisions = self.decide_own(arena, now, open, who, false)?;
        Ok(Found::decided(decisions))
    }

    fn judge_get<'r, 'a: 'r>(
        &'r self,
        arena: &'a mut Bump,
        now: u64,
        session: u64,
        path: &'r Path,
        query: Option<&'r Query>,
    ) -> Result<Found<'r, 'a>, BorrowedRefusal<'r>>
        requires { now ≤ MAX_MOMENT }
        ensures found { IfOk result (λ found. Comes (barred self.now session (gets self.now now session path.now (option_map (λ query. query.now) query.entry))) found self.now) }
        ensures refused { IfErr result (λ refusal. Refuses self.now (barred self.now session (gets self.now now session path.now (option_map (λ query. query.now) query.entry))) (is_leaving self.now session || not (is_open self.now session)) (refusal_of refusal)) }
    {
        let open = self.demand_present(session)?;
        self.judge_read(arena, now, open.identity(), path, query)
    }

    fn judge_set<'r, 'a: 'r>(
        &'r self,
        arena: &'a mut Bump,
        now: u64,
        session: u64,
        write: &'r Write,
    ) -> Result<Found<'r, 'a>, BorrowedRefusal<'r>>
        requires moment { now ≤ MAX_MOMENT }
        requires heard { AllHeard self.now }
        requires fixed { IsFixed (written write.now) }
        ensures found { IfOk result (λ found. Comes (barred self.now session (sets self.now now session write.now)) found (with_settled (with_tree self.now 0 (write.now ∷ [])) found.decisions.made.items) × CanBeMade self.now session (write.now ∷ []) × (takes_no_memory self.now session (Event.Set write.now) ≡ false)) }
        ensures refused { IfErr result (λ refusal. Refuses self.now (barred self.now session (sets self.now now session write.now)) (is_leaving self.now session || not (is_open self.now session)) (refusal_of refusal)) }
    {
        let open = self.demand_present(session)?;
        self.judge_writes(arena, now, open.identity(), slice::from_ref(write))
    }

    fn judge_update<'r, 'a: 'r>(
        &'r self,
        arena: &'a mut Bump,
        now: u64,
        session: u64,
        writes: &'r Writes,
    ) -> Result<Found<'r, 'a>, BorrowedRefusal<'r>>
        requires moment { now ≤ MAX_MOMENT }
        requires heard { AllHeard self.now }
        requires fixed { AreFixed writes.now }
        ensures found { IfOk result (λ found. Comes (barred self.now session (updates self.now now session writes.now)) found (with_settled (with_tree self.now 0 writes.now) found.decisions.made.items) × CanBeMade self.now session writes.now × (takes_no_memory self.now session (Event.Update writes.now) ≡ false)) }
        ensures refused { IfErr result (λ refusal. Refuses self.now (barred self.now session (updates self.now now session writes.now)) (takes_no_memory self.now session (Event.Update writes.now)) (refusal_of refusal)) }
    {
        let open = self.demand_present(session)?;
        self.rules();
        let writes = writes.in_order();
        if writes.is_empty() {
            return Err(BorrowedRefusal::Other(Refusal::EmptyUpdate));
        }
        if overlaps(writes) {
            return Err(BorrowedRefusal::Other(Refusal::Overlap));
        }
        self.judge_writes(arena, now, open.identity(), writes)
    }

    fn judge_listen<'r, 'a: 'r>(
        &'r self,
        arena: &'a mut Bump,
        now: u64,
        session: u64,
        id: &'r ListenerId,
        path: &'r Path,
        query: Option<&'r Query>,
    ) -> Result<Found<'r, 'a>, BorrowedRefusal<'r>>
        requires { now ≤ MAX_MOMENT }
        ensures found { IfOk result (λ found. Comes (barred self.now session (listens self.now now session id.now path.now (option_map (λ query. query.now) query.entry))) found (listening self.now session id.now path.now (option_map (λ query. query.now) query.entry)) × (is_open self.now session ≡ true) × (takes_no_memory self.now session (Event.Listen id.now path.now (option_map (λ query. query.now) query.entry)) ≡ false)) }
        ensures refused { IfErr result (λ refusal. Refuses self.now (barred self.now session (listens self.now now session id.now path.now (option_map (λ query. query.now) query.entry))) (takes_no_memory self.now session (Event.Listen id.now path.now (option_map (λ query. query.now) query.entry))) (refusal_of refusal)) }
    {
        let open = self.demand_present(session)?;
        if let Some(refusal) = listen_refusal(open, id) {
            return Err(BorrowedRefusal::Other(refusal));
        }
        self.judge_read(arena, now, open.identity(), path, query)
    }

    fn judge_unlisten<'r, 'a: 'r>(
        &'r self,
        arena: &'a mut Bump,
        session: u64,
        id: &'r ListenerId,
    ) -> Result<Found<'r, 'a>, BorrowedRefusal<'r>>
        ensures found { IfOk result (λ found. Comes (barred self.now session (unlistens self.now session id.now)) found (with_session self.now session (identity_of self.now session) (without_id id.now (listeners_of self.now session))) × (is_open self.now session ≡ true)) }
        ensures refused { IfErr result (λ refusal. Refuses self.now (barred self.now session (unlistens self.now session id.now)) (is_leaving self.now session || true) (refusal_of refusal)) }
    {
        let open = self.demand_present(session)?;
        if !open.listeners().has(id) {
            return Err(BorrowedRefusal::Other(Refusal::NoListener));
        }
        Ok(Found::done(arena))
    }

    fn judge_poll<'r, 'a: 'r>(
        &'r self,
        arena: &'a mut Bump,
        now: u64,
        session: u64,
    ) -> Result<Found<'r, 'a>, BorrowedRefusal<'r>>
        requires moment { now ≤ MAX_MOMENT }
        requires heard { AllHeard self.now }
        ensures found { IfOk result (λ found. Comes (barred self.now session (polls self.now now session)) found (with_session self.now session (identity_of self.now session) (taken (settled 0 found.decisions.made.items (listeners_of self.now session)))) × (is_open self.now session ≡ true)) }
        ensures refused { IfErr result (λ refusal. Refuses self.now (barred self.now session (polls self.now now session)) (is_leaving self.now session || not (is_open self.now session)) (refusal_of refusal)) }
    {
        let open = self.demand_present(session)?;
        reset(arena)?;
        let arena: &'a Bump = arena;
        let decisions = self.decide_own(arena, now, open, open.identity(), true)?;
        let tidings = self.tidings_of(arena, open, &decisions.made)?;
        Ok(Found {
            reply: BorrowedReply::News(tidings),
            decisions,
            run: None,
        })
    }

    fn judge_tick<'r, 'a: 'r>(
        &'r self,
        arena: &'a mut Bump,
        now: u64,
    ) -> Result<Found<'r, 'a>, BorrowedRefusal<'r>>
        requires moment { now ≤ MAX_MOMENT }
        requires heard { AllHeard self.now }
        ensures found { IfOk result (λ found. Comes (ticks self.now now) found (with_settled self.now found.decisions.made.items)) }
        ensures refused { IfErr result (λ refusal. Refuses self.now (ticks self.now now) false (refusal_of refusal)) }
    {
        reset(arena)?;
        let decisions = self.decide_by(arena, &self.rules, now, true)?;
        Ok(Found::decided(decisions))
    }

    fn judge_deploy<'r, 'a: 'r>(
        &'r self,
        arena: &'a mut Bump,
        now: u64,
        session: u64,
        rules: &'r Rules,
    ) -> Result<Found<'r, 'a>, BorrowedRefusal<'r>>
        requires { now ≤ MAX_MOMENT }
        ensures found { IfOk result (λ found. Comes (barred self.now session (deploys self.now now session rules.now)) found (with_settled (with_rules self.now rules.now) found.decisions.made.items)) }
        ensures refused { IfErr result (λ refusal. Refuses self.now (barred self.now session (deploys self.now now session rules.now)) (takes_no_memory self.now session (Event.Deploy rules.now)) (refusal_of refusal)) }
    {
        let open = self.demand_present(session)?;
        if !open.is_admin() {
            return Err(BorrowedRefusal::Other(Refusal::NotAdmin));
        }
        reset(arena)?;
        let decisions = self.decide_by(arena, rules, now, false)?;
        Ok(Found::decided(decisions))
    }

    fn judge_keep<'r, 'a: 'r>(
        &'r self,
        arena: &'a mut Bump,
        now: u64,
        session: u64,
        write: &'r Write,
    ) -> Result<Found<'r, 'a>, BorrowedRefusal<'r>>
        requires { now ≤ MAX_MOMENT }
        ensures found { IfOk result (λ found. Comes (barred self.now session (keeps_one self.now now session write.now)) found (with_action self.now session (write.now ∷ [])) × (is_open self.now session ≡ true) × (takes_no_memory self.now session (Event.OnSet write.now) ≡ false)) }
        ensures refused { IfErr result (λ refusal. Refuses self.now (barred self.now session (keeps_one self.now now session write.now)) (takes_no_memory self.now session (Event.OnSet write.now)) (refusal_of refusal)) }
    {
        let open = self.demand_present(session)?;
        if open.is_full() {
            return Err(BorrowedRefusal::Other(Refusal::TooManyActions));
        }
        self.judge_later(arena, now, open.identity(), slice::from_ref(write))
    }

    fn judge_keep_update<'r, 'a: 'r>(
        &'r self,
        arena: &'a mut Bump,
        now: u64,
        session: u64,
        writes: &'r Writes,
    ) -> Result<Found<'r, 'a>, BorrowedRefusal<'r>>
        requires { now ≤ MAX_MOMENT }
        ensures found { IfOk result (λ found. Comes (barred self.now session (keeps_update self.now now session writes.now)) found (with_action self.now session writes.now) × MayBeKept self.now session writes.now) }
        ensures refused { IfErr result (λ refusal. Refuses self.now (barred self.now session (keeps_update self.now now session writes.now)) (takes_no_memory self.now session (Event.OnUpdate writes.now)) (refusal_of refusal)) }
    {
        let open = self.demand_present(session)?;
        self.rules();
        let writes = writes.in_order();
        if writes.is_empty() {
            return Err(BorrowedRefusal::Other(Refusal::EmptyUpdate));
        }
        if overlaps(writes) {
            return Err(BorrowedRefusal::Other(Refusal::Overlap));
        }
        if open.is_full() {
            return Err(BorrowedRefusal::Other(Refusal::TooManyActions));
        }
        self.judge_later(arena, now, open.identity(), writes)
    }

    // What no rule is asked about can be done by a session that is open and not leaving.
    fn judge_quiet<'r, 'a: 'r>(
        &'r self,
        arena: &'a mut Bump,
        session: u64,
    ) -> Result<Found<'r, 'a>, BorrowedRefusal<'r>>
        ensures found { IfOk result (λ found. ((after : State) → Comes (barred self.now session (quiet self.now session after)) found after) × (is_open self.now session ≡ true)) }
        ensures refused { IfErr result (λ refusal. IsBarred self.now session (refusal_of refusal)) }
    {
        self.demand_present(session)?;
        Ok(Found::done(arena))
    }

    fn judge_run<'r, 'a: 'r>(
        &'r self,
        arena: &'a mut Bump,
        now: u64,
        session: u64,
    ) -> Result<Found<'r, 'a>, BorrowedRefusal<'r>>
        requires moment { now ≤ MAX_MOMENT }
        requires heard { AllHeard self.now }
        ensures found { IfOk result (λ found. Comes (runs self.now now session) found (committed self.now session Event.RunNext found.decisions.made.items found.run) × MayBeDone self.now session Event.RunNext found.run) }
        ensures refused { IfErr result (λ refusal. Refuses self.now (runs self.now now session) (takes_no_memory self.now session Event.RunNext) (refusal_of refusal)) }
    {
        let open = self.demand_open(session)?;
        if !open.is_leaving() {
            return Err(BorrowedRefusal::Other(Refusal::NotLeaving));
        }
        match open.actions().first() {
            Some(action) => Ok(self.judge_action(arena, now, open.identity(), action)?),
            None => Ok(Found::empty(arena)),
        }
    }

    // ---- reads and writes, judged

    // What a read comes to, for whoever is signed in.
    fn judge_read<'r, 'a: 'r>(
        &'r self,
        arena: &'a mut Bump,
        now: u64,
        who: Option<&'r Identity>,
        path: &'r Path,
        query: Option<&'r Query>,
    ) -> Result<Found<'r, 'a>, BorrowedRefusal<'r>>
        requires { now ≤ MAX_MOMENT }
        ensures granted { IfOk result (IsGranted self.now now (who_of who.entry) path.now (option_map (λ query. query.now) query.entry)) }
        ensures refused { IfErr result (IsRefused (read_refusal_for self.now now (who_of who.entry) path.now (option_map (λ query. query.now) query.entry))) }
    {
        reset(arena)?;
        let arena: &'a Bump = arena;
        if let Some(names) = self.read_denial(arena, now, who, path, query)? {
            return Err(BorrowedRefusal::ReadDenied(names));
        }
        let found = view_in(arena, self.tree.as_ref(), path.keys(), query)?;
        Ok(Found::replied(arena, BorrowedReply::Value(found)))
    }

    // What writes come to that don't overlap, for whoever is signed in.
    fn judge_writes<'r, 'a: 'r>(
        &'r self,
        arena: &'a mut Bump,
        now: u64,
        who: Option<&'r Identity>,
        writes: &'r [Write],
    ) -> Result<Found<'r, 'a>, BorrowedRefusal<'r>>
        requires moment { now ≤ MAX_MOMENT }
        requires heard { AllHeard self.now }
        requires apart { overlaps writes.now ≡ false }
        requires fixed { AreFixed writes.now }
        ensures granted { IfOk result (AreGranted self.now now (who_of who.entry) writes.now) }
        ensures refused { IfErr result (IsRefused (write_refusal_for self.now now (who_of who.entry) writes.now)) }
    {
        reset(arena)?;
        let arena: &'a Bump = arena;
        let lent: &'r Bump = arena;
        let coming = overlay(lent, self.tree.as_ref(), writes, now)?;
        if let Some(refusal) = self.write_refusal(lent, now, who, writes, &coming)? {
            return Err(refusal);
        }
        let decisions = self.decide_proposed(arena, now, writes, coming)?;
        Ok(Found::decided(decisions))
    }

    // What writes come to that don't overlap and are made later, for whoever is signed in: whether the tree has room is
    // seen then.
    fn judge_later<'r, 'a: 'r>(
        &'r self,
        arena: &'a mut Bump,
        now: u64,
        who: Option<&'r Identity>,
        writes: &'r [Write],
    ) -> Result<Found<'r, 'a>, BorrowedRefusal<'r>>
        requires moment { now ≤ MAX_MOMENT }
        requires apart { overlaps writes.now ≡ false }
        ensures granted { IfOk result (AreGrantedNow self.now now (who_of who.entry) writes.now) }
        ensures refused { IfErr result (IsRefused (denial (verdict_for self.now now (who_of who.entry) writes.now))) }
    {
        reset(arena)?;
        let arena: &'a Bump = arena;
        let lent: &'r Bump = arena;
        let coming = overlay(lent, self.tree.as_ref(), writes, now)?;
        if let Some(denial) = self.writes_denial(lent, now, who, writes, &coming)? {
            return Err(denial);
        }
        Ok(Found::done(arena))
    }

    // What the run of an action comes to, for whoever is signed in. The tree and what becomes of listeners are those of a
    // copy of its writes, with the moment filled in, so that the action is still there where memory is wanting.
    fn judge_action<'r, 'a: 'r>(
        &'r self,
        arena: &'a mut Bump,
        now: u64,
        who: Option<&'r Identity>,
        action: &'r Action,
    ) -> Result<Found<'r, 'a>, NoMemory>
        requires moment { now ≤ MAX_MOMENT }
        requires heard { AllHeard self.now }
        ensures { IfOk result (IsRunSo self.now now (who_of who.entry) (writes_of action.now)) }
    {
        reset(arena)?;
        let arena: &'a Bump = arena;
        let lent: &'r Bump = arena;
        let writes = action.in_order();
        let coming = overlay(lent, self.tree.as_ref(), writes, now)?;
        if let Some(refusal) = self.write_refusal(lent, now, who, writes, &coming)? {
            return Ok(Found::skipped(arena, Box::new(self.alloc, refusal)?));
        }
        let mut made = Writes::copied(self.alloc, writes)?;
        made.fill(now);
        let decisions = self.decide_proposed(arena, now, made.in_order(), coming)?;
        let boxed = Box::new(self.alloc, made)?;
        Ok(Found::applied(decisions, boxed))
    }

    // Why writes that propose this tree are refused, if they are: by the rules, else for want of room.
    fn write_refusal<'r>(
        &'r self,
        arena: &'r Bump,
        now: u64,
        who: Option<&'r Identity>,
        writes: &'r [Write],
        coming: &Option<View<'r>>,
    ) -> Result<Option<BorrowedRefusal<'r>>, NoMemory>
        requires moment { now ≤ MAX_MOMENT }
        requires apart { overlaps writes.now ≡ false }
        requires proposes { tree_or_null coming.now ≡ tree_with self.now now writes.now }
        ensures { IfOk result (λ refusal. option_map refusal_of refusal ≡ write_refusal_for self.now now (who_of who.entry) writes.now) }
    {
        match self.writes_denial(arena, now, who, writes, coming)? {
            Some(denial) => Ok(Some(denial)),
            None => Ok(other(full(count_in(coming)))),
        }
    }

    // Why the rules deny writes that propose this tree, if they do.
    fn writes_denial<'r>(
        &'r self,
        arena: &'r Bump,
        now: u64,
        who: Option<&'r Identity>,
        writes: &'r [Write],
        coming: &Option<View<'r>>,
    ) -> Result<Option<BorrowedRefusal<'r>>, NoMemory>
        requires moment { now ≤ MAX_MOMENT }
        requires apart { overlaps writes.now ≡ false }
        requires proposes { tree_or_null coming.now ≡ tree_with self.now now writes.now }
        ensures { IfOk result (λ denied. option_map refusal_of denied ≡ denial (verdict_for self.now now (who_of who.entry) writes.now)) }
    {
        match writes {
            [write] => self.set_denial(arena, now, who, write, coming),
            _ => self.update_denial(arena, now, who, writes, coming),
        }
    }

    // The same of one write, where a denial for write is borrowed.
    fn set_denial<'r>(
        &'r self,
        arena: &'r Bump,
        now: u64,
        who: Option<&'r Identity>,
        write: &'r Write,
        coming: &Option<View<'r>>,
    ) -> Result<Option<BorrowedRefusal<'r>>, NoMemory>
        requires moment { now ≤ MAX_MOMENT }
        requires proposes { tree_or_null coming.now ≡ tree_with self.now now (write.now ∷ []) }
        ensures { IfOk result (λ denied. option_map refusal_of denied ≡ denial (verdict_for self.now now (who_of who.entry) (write.now ∷ []))) }
    {
        self.rules();
        let scene = arena.try_alloc(self.scene(now, who))?;
        if let Some(names) = write_denial(arena, scene, coming, write)? {
            return Ok(Some(BorrowedRefusal::WriteDenied(write.at(), names)));
        }
        Ok(other(self.granted_denial(arena, scene, coming, write)?))
    }

    // The same of several writes.
    fn update_denial<'r>(
        &'r self,
        arena: &'r Bump,
        now: u64,
        who: Option<&'r Identity>,
        writes: &'r [Write],
        coming: &Option<View<'r>>,
    ) -> Result<Option<BorrowedRefusal<'r>>, NoMemory>
        requires moment { now ≤ MAX_MOMENT }
        requires proposes { tree_or_null coming.now ≡ tree_with self.now now writes.now }
        ensures { IfOk result (λ denied. option_map refusal_of denied ≡ denial (verdict_for self.now now (who_of who.entry) writes.now)) }
    {
        self.rules();
        let scene = arena.try_alloc(self.scene(now, who))?;
        let verdict = judge_write(self.alloc, arena, scene, shared(coming), writes)?;
        Ok(other(denial(verdict)))
    }

    // Why a read is denied for whoever is signed in, if it is.
    fn read_denial<'a>(
        &'a self,
        arena: &'a Bump,
        now: u64,
        who: Option<&'a Identity>,
        path: &'a Path,
        query: Option<&'a Query>,
    ) -> Result<Option<BorrowedNames<'a>>, NoMemory>
        requires { now ≤ MAX_MOMENT }
        ensures { IfOk result (λ denial. option_map ReadDenied denial ≡ read_refusal_for self.now now (who_of who.entry) path.now (option_map (λ query. query.now) query.entry)) }
    {
        let asked = arena.try_alloc(asked_for(query))?;
        let scene = arena.try_alloc(self.scene(now, who))?;
        read_denial(arena, scene, path, asked)
    }

    // Why the rules deny a write that is granted for write, if they do.
    fn granted_denial<'x>(
        &self,
        arena: &'x Bump,
        scene: &'x Scene<'x>,
        coming: &'x Option<View<'x>>,
        write: &'x Write,
    ) -> Result<Option<Refusal>, NoMemory>
        requires one { HasOneCapture (scene_of scene.now).book }
        requires granted { MayWriteAll (scene_of scene.now) (tree_or_null coming.now) (location write.now ∷ []) }
        ensures { IfOk result (λ denied. denied ≡ denial (write_verdict (scene_of scene.now) (tree_or_null coming.now) (location write.now ∷ []))) }
    {
        let verdict = judge_granted(self.alloc, arena, scene, coming, write)?;
        Ok(denial(verdict))
    }

    /// By what an event of a session is judged, as [`Core::scene`](crate::Core::scene) says.
    pub(crate) fn scene_at(&self, now: u64, session: u64) -> Scene<'_>
        requires { now ≤ MAX_MOMENT }
        ensures { scene_of result ≡ scene_at self.now now session }
    {
        let who = match self.open_session(session) {
            Some(open) => open.identity(),
            None => None,
        };
        self.scene(now, who)
    }

    // What the rules and the trees are judged by, for whoever is signed in.
    fn scene<'a>(&'a self, now: u64, who: Option<&'a Identity>) -> Scene<'a>
        requires { now ≤ MAX_MOMENT }
        ensures { scene_of result ≡ scene_for self.now now (who_of who.entry) }
    {
        let old = match &self.tree {
            Some(node) => Some(View::stored(node)),
            None => None,
        };
        Scene {
            rules: &self.rules,
            auth: who,
            moment: Moment::new(now),
            old,
        }
    }

    // ---- what becomes of listeners

    // What becomes of what an open session listens to, where this is who is signed in on it, and whether
    // that is who was granted it.
    fn decide_own<'a>(
        &self,
        arena: &'a Bump,
        now: u64,
        session: &Session,
        who: Option<&Identity>,
        was_heard: bool,
    ) -> Result<Decisions<'a>, NoMemory>
        requires moment { now ≤ MAX_MOMENT }
        requires heard { was_heard ≡ true → AreHeard self.now.rules self.now.tree (who_of who) session.now.listeners }
        ensures made { IfOk result (λ decisions. decisions.made.items ≡ sparse 0 (map (fate_of self.now.tree self.now.rules self.now.tree now (who_of who.entry)) session.now.listeners)) }
        ensures fits { IfOk result (λ decisions. length session.now.listeners < 2 ^ 64) }
    {
        let passage = Passage::staying(&self.rules, self.tree.as_ref(), now, was_heard);
        decide_own(self.alloc, arena, &passage, who, session.listeners())
    }

    // What becomes of all listeners by these rules, where the tree stays, and whether these are the rules
    // that granted them.
    fn decide_by<'a>(
        &self,
        arena: &'a Bump,
        rules: &Rules,
        now: u64,
        was_heard: bool,
    ) -> Result<Decisions<'a>, NoMemory>
        requires moment { now ≤ MAX_MOMENT }
        requires heard { was_heard ≡ true → AllHeardIn rules.now self.now.tree self.now.sessions }
        ensures { IfOk result (λ decisions. with_settled (with_rules self.now rules.now) decisions.made.items ≡ deployed self.now now rules.now) }
    {
        let passage = Passage::staying(rules, self.tree.as_ref(), now, was_heard);
        self.decide_all(arena, &passage)
    }

    // What becomes of all listeners in a step.
    fn decide_all<'a>(
        &self,
        arena: &'a Bump,
        passage: &Passage<'_>,
    ) -> Result<Decisions<'a>, NoMemory>
        requires passage { IsPassage passage.now }
        requires heard { passage.now.was_heard ≡ true → AllHeardIn passage.now.rules.now (tree_before passage.now) self.now.sessions }
        ensures made { IfOk result (λ decisions. decisions.made.items ≡ sparse 0 (fates_of (tree_before passage.now) passage.now.rules.now (tree_after passage.now) passage.now.moment (all_sessions self.now.sessions))) }
        ensures fits { IfOk result (λ decisions. length (fates_of (tree_before passage.now) passage.now.rules.now (tree_after passage.now) passage.now.moment (all_sessions self.now.sessions)) < 2 ^ 64) }
    {
        decide_all(self.alloc, arena, passage, &self.sessions)
    }

    // What becomes of all listeners where these writes are made, which propose this tree.
    fn decide_proposed<'a>(
        &self,
        arena: &'a Bump,
        now: u64,
        writes: &[Write],
        coming: Option<View<'_>>,
    ) -> Result<Decisions<'a>, NoMemory>
        requires moment { now ≤ MAX_MOMENT }
        requires heard { AllHeard self.now }
        requires apart { overlaps writes.now ≡ false }
        requires fixed { AreFixed writes.now }
        requires proposes { tree_or_null coming ≡ tree_with self.now now writes.now }
        ensures { IfOk result (λ decisions. with_settled (with_tree self.now now writes.now) decisions.made.items ≡ written_to self.now now writes.now) }
    {
        let passage = Passage {
            rules: &self.rules,
            base: self.tree.as_ref(),
            writes,
            coming,
            moment: now,
            was_heard: true,
        };
        self.decide_all(arena, &passage)
    }

    // The news of an open session, once this is made that was decided.
    fn tidings_of<'a>(
        &'a self,
        arena: &'a Bump,
        session: &'a Session,
        decisions: &[Decision],
    ) -> Result<Tidings<'a>, NoMemory>
        ensures { IfOk result (λ tidings. tidings ≡ news_of self.now.tree (settled 0 decisions.now session.now.listeners)) }
    {
        tidings_of(
            self.alloc,
            arena,
            self.tree.as_ref(),
            session.listeners(),
            decisions,
        )
    }

    // ---- what is done

    // Adds a session to those that are open, with nobody signed in on it.
    fn add(&mut self, session: u64) -> Result<(), NoMemory>
        ensures ok { OnOk result (self.new ≡ opened self.old session) }
        ensures err { OnErr result (self.new ≡ self.old) }
    {
        self.put_session(session, Session::new(self.alloc))
    }

    /// Puts a session among those that are open, in the place of one of its number.
    pub(crate) fn put_session(&mut self, session: u64, one: Session) -> Result<(), NoMemory>
        ensures ok { OnOk result (self.new ≡ record self.old { sessions = map_of.insert self.old.sessions session one }) }
        ensures err { OnErr result (self.new ≡ self.old) }
    {
        let Ok(_) = self.sessions.insert(session, one) else {
            return Err(NoMemory);
        };
        Ok(())
    }

    // Takes a session from those that are open, where it is one of them.
    fn forget(&mut self, session: u64) -> bool
        ensures was { result ≡ is_open self.old session }
        ensures gone { self.new ≡ closed self.old session }
    {
        self.sessions.remove(&session).is_some()
    }

    // Signs in whoever this is on an open session, or signs out, and makes what was decided.
    fn put_identity(&mut self, session: u64, who: Option<Identity>, decisions: &[Decision])
        requires { is_open self.old session ≡ true }
        ensures { self.new ≡ with_session self.old session who (settled 0 decisions.now (listeners_of self.old session)) }
    {
        let Some(open) = self.sessions.get_mut(&session) else {
            unreachable!()
        };
        open.sign(who);
        open.settle(Docket::new(decisions));
    }

    // Lets an open session listen to one thing more.
    fn begin(
        &mut self,
        session: u64,
        id: ListenerId,
        path: Path,
        query: Option<Query>,
    ) -> Result<(), NoMemory>
        requires { is_open self.old session ≡ true }
        ensures ok { OnOk result (self.new ≡ listening self.old session id path query) }
        ensures err { OnErr result (self.new ≡ self.old) }
    {
        let Some(open) = self.sessions.get_mut(&session) else {
            unreachable!()
        };
        open.listen(id, path, query)
    }

    // Lets an open session listen no longer under this id, and says whether it did.
    fn end(&mut self, session: u64, id: &ListenerId) -> bool
        requires { is_open self.old session ≡ true }
        ensures had { result ≡ has_id id.now (listeners_of self.old session) }
        ensures gone { self.new ≡ with_session self.old session (identity_of self.old session) (without_id id.now (listeners_of self.old session)) }
    {
        let Some(open) = self.sessions.get_mut(&session) else {
            unreachable!()
        };
        open.unlisten(id)
    }

    // Makes what was decided of an open session's listeners, whose news was reported.
    fn hand_out(&mut self, session: u64, decisions: &[Decision])
        requires { is_open self.old session ≡ true }
        ensures { self.new ≡ with_session self.old session (identity_of self.old session) (taken (settled 0 decisions.now (listeners_of self.old session))) }
    {
        let Some(open) = self.sessions.get_mut(&session) else {
            unreachable!()
        };
        open.settle(Docket::new(decisions));
        open.take_marked();
    }

    // Puts rules in force, and makes what was decided of all listeners.
    fn put_rules(&mut self, rules: Rules, decisions: &[Decision])
        ensures { self.new ≡ with_settled (with_rules self.old rules) decisions.now }
    {
        self.rules = rules;
        self.settle_all(decisions);
    }

    // Makes a write in the tree, and what was decided.
    fn make(&mut self, write: Write, decisions: &[Decision]) -> Result<(), NoMemory>
        requires fixed { IsFixed (written write) }
        requires room { count (tree_with self.old 0 (write ∷ [])) ≤ MAX_LOCATIONS }
        ensures ok { OnOk result (self.new ≡ with_settled (with_tree self.old 0 (write ∷ [])) decisions.now) }
        ensures err { OnErr result (self.new ≡ self.old) }
    {
        self.put(write)?;
        self.settle_all(decisions);
        Ok(())
    }

    // Makes the writes of an update in the tree, all of them or none, and then what was decided.
    fn make_update(&mut self, writes: Writes, decisions: &[Decision]) -> Result<(), NoMemory>
        requires apart { overlaps writes ≡ false }
        requires fixed { AreFixed writes }
        requires room { count (tree_with self.old 0 writes) ≤ MAX_LOCATIONS }
        ensures ok { OnOk result (self.new ≡ with_settled (with_tree self.old 0 writes) decisions.now) }
        ensures err { OnErr result (self.new ≡ self.old) }
    {
        self.put_all(writes.into_vec())?;
        self.settle_all(decisions);
        Ok(())
    }

    // Keeps one write for when an open session goes.
    fn keep_write(&mut self, session: u64, write: Write) -> Result<(), NoMemory>
        requires { is_open self.old session ≡ true }
        ensures ok { OnOk result (self.new ≡ with_action self.old session (write ∷ [])) }
        ensures err { OnErr result (self.new ≡ self.old) }
    {
        let action = Action::of_write(self.alloc, write)?;
        self.keep(session, action)
    }

    /// Keeps an action more for when an open session goes.
    pub(crate) fn keep(&mut self, session: u64, action: Action) -> Result<(), NoMemory>
        requires { is_open self.old session ≡ true }
        ensures ok { OnOk result (self.new ≡ with_actions self.old session (actions_of self.old session ++ action ∷ [])) }
        ensures err { OnErr result (self.new ≡ self.old) }
    {
        let Some(open) = self.sessions.get_mut(&session) else {
            unreachable!()
        };
        open.keep(action)
    }

    // Takes back what an open session keeps at this path and below it alone.
    fn cancel(&mut self, session: u64, path: &Path)
        requires { is_open self.old session ≡ true }
        ensures { self.new ≡ without_actions self.old session path.now }
    {
        let Some(open) = self.sessions.get_mut(&session) else {
            unreachable!()
        };
        open.cancel_below(path);
    }

    // Lets an open session leave.
    fn leave(&mut self, session: u64)
        requires { is_open self.old session ≡ true }
        ensures { self.new ≡ departing self.old session }
    {
        let Some(open) = self.sessions.get_mut(&session) else {
            unreachable!()
        };
        open.leave();
    }

    // Makes what the first action of an open session writes, if that was granted, and drops it.
    fn run_first(
        &mut self,
        session: u64,
        decisions: &[Decision],
        run: Option<Box<Writes>>,
    ) -> Result<(), NoMemory>
        requires open { is_open self.old session ≡ true }
        requires may { MayBeMade self.old session run }
        ensures ok { OnOk result (self.new ≡ committed self.old session Event.RunNext decisions.now run) }
        ensures err { OnErr result (self.new ≡ self.old) }
    {
        match run {
            Some(writes) => self.run_made(session, Box::into_inner(writes), decisions),
            None => {
                self.drop_first(session);
                Ok(())
            }
        }
    }

    // Makes these writes, which the first action of an open session is, and drops it.
    fn run_made(
        &mut self,
        session: u64,
        writes: Writes,
        decisions: &[Decision],
    ) -> Result<(), NoMemory>
        requires { CanBeMade self.old session writes }
        ensures ok { OnOk result (self.new ≡ with_actions (with_settled (with_tree self.old 0 writes) decisions.now) session (drop 1 (actions_of self.old session))) }
        ensures err { OnErr result (self.new ≡ self.old) }
    {
        self.make_update(writes, decisions)?;
        self.drop_first(session);
        Ok(())
    }

    // Drops the first action of an open session, if it has one.
    fn drop_first(&mut self, session: u64)
        requires { is_open self.old session ≡ true }
        ensures { self.new ≡ with_actions self.old session (drop 1 (actions_of self.old session)) }
    {
        let Some(open) = self.sessions.get_mut(&session) else {
            unreachable!()
        };
        open.drop_first();
    }

    // Makes a write in the tree.
    fn put(&mut self, write: Write) -> Result<(), NoMemory>
        requires fixed { IsFixed (written write) }
        requires room { count (tree_with self.old 0 (write ∷ [])) ≤ MAX_LOCATIONS }
        ensures ok { OnOk result (self.new ≡ with_tree self.old 0 (write ∷ [])) }
        ensures err { OnErr result (self.new ≡ self.old) }
    {
        write.make(self.alloc, &mut self.tree)
    }

    // Makes all of these writes in the tree, or none.
    fn put_all(&mut self, writes: Vec<Write>) -> Result<(), NoMemory>
        requires apart { overlaps writes.items ≡ false }
        requires fixed { AreFixed writes.items }
        requires room { count (tree_with self.old 0 writes.items) ≤ MAX_LOCATIONS }
        ensures ok { OnOk result (self.new ≡ with_tree self.old 0 writes.items) }
        ensures err { OnErr result (self.new ≡ self.old) }
    {
        make_all(self.alloc, &mut self.tree, writes)
    }

    // Makes what was decided of all listeners.
    fn settle_all(&mut self, decisions: &[Decision])
        ensures { self.new ≡ with_settled self.old decisions.now }
    {
        if !decisions.is_empty() {
            settle_all(&mut self.sessions, decisions);
        }
    }
}
