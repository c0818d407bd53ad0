//! The database, of which each live listener was granted what it listens to.
ghost use Rattle.std.specs.Prelude.{◌≡◌, ◌↔◌, ◌≤◌, ◌<◌, true, IsErr, IfOk, IfErr, OnOk, OnErr, option_map};
ghost use Rattle.std.specs.FinMap as map_of;
ghost use Rattle.tree_model.specs.Tree.{non_null, count};
ghost use Rattle.path_capture.specs.Write.{tree_or_null};
ghost use Rattle.rules_reader.specs.Place.{HasOneCapture};
ghost use Rattle.judge.specs.Question.{scene_of};
ghost use Rattle.rtdb_model.specs.State.{opening, scene_at};
ghost use Rattle.rtdb_model.specs.Borrowed.{reply_of, refusal_of, is_copied};
ghost use Rattle.rtdb_model.specs.Filled.{IsFilled};
ghost use Rattle.rtdb_core.specs.Resumed.{resumed, MayResume, MayEstablish};
ghost use Rattle.rtdb_model.specs.Step.{outcome, with_action, Step};
ghost use Rattle.rtdb_core.specs.Planned.{IsPlanFor, after_of};
ghost use Rattle.rtdb_core.specs.Working.Plans.{IsRefusedBy};

use crate::machine::Machine;
use crate::plan::{Granted, Plan};
use crate::resuming::ResumeFault;
use crate::session::Session;
use bumpalo::Bump;
use evaluator::{Identity, MAX_MOMENT};
use json_tree::{NoMemory, Node};
use judge::Scene;
use rtdb_model::{BorrowedRefusal, Event, MAX_LOCATIONS, Refusal, Reply, Writes};
use rules_reader::Rules;
use std::alloc::Global;
use std::collections::BTreeMap;
use std::marker::Model;

/// A database: a tree, the rules in force, and the sessions that are open. It keeps the allocator
/// that it was made with. Contracts see the three.
#[derive(Drop)]
pub struct Core {
    machine: Machine,
}

/// The tree has more than [`MAX_LOCATIONS`] locations. Rules and tree are handed back.
#[derive(Drop)]
pub struct TooLarge {
    pub rules: Rules,
    pub tree: Option<Node>,
}

impl Model for Core {
    ghost use Rattle.rtdb_model.specs.State.{State, state_code};
    ghost use Rattle.rtdb_core.specs.Working.Heard.{AllHeard};

    ghost Value = { State };

    ghost coded = { state_code };

    ghost view = { λ core. core.machine };

    ghost invariant = { λ core. AllHeard core.machine };
}

impl Core {
    /// A database with these rules and this tree, null for None, in which no session is open, unless
    /// the tree has too many locations. It takes no memory.
    pub fn new(alloc: Global, rules: Rules, tree: Option<Node>) -> Result<Core, TooLarge>
        ensures opens { IfOk result (λ core. core ≡ opening rules (tree_or_null tree)) }
        ensures refused { IsErr result ↔ (MAX_LOCATIONS < count (tree_or_null tree)) }
        ensures handed_back { IfErr result (λ too_large. (too_large.rules ≡ rules) × (too_large.tree ≡ tree)) }
    {
        let machine = Machine::new(alloc, rules, tree)?;
        Ok(Core { machine })
    }

    /// Judges an event of a session at a moment in milliseconds since 1970, and changes nothing: it is refused, or it
    /// may be done, and this is its answer and the plan by which [`Core::commit`] does it. All that is answered is
    /// borrowed, from the database, the event and the arena, so that no tree and no name is copied. A read costs one
    /// step for each key of its path, log w of w children each, the rules on the way, and with a query what `select`
    /// looks at, and a listen the same; a write the same for each of its locations, and what is written. Nothing else
    /// grows with what is stored beside them. An action is judged as its write is, without a look at listeners, and run
    /// as one that copies what it writes. Opening, closing, unlistening, taking actions back, leaving and the run of no
    /// action cost a look-up among the sessions. An event that judges listeners again costs a look at the rules of each
    /// that is live; these are evaluated only where the event signs in or out, deploys, or changes what they look at,
    /// or where they look at the moment or at other places; and what a query selects is looked at only where the event
    /// writes at, above or below the listener's path, and changes something there. The arena is for what one event
    /// needs: it is reset before anything is placed in it, once no refusal is left but those of the rules, of room and
    /// of memory; closing, unlistening, taking actions back, leaving and the run of no action leave it as it is.
    #[tactic(auto, unfolding(rtdb_model::specs::Step::Step))]
    pub fn judge<'r, 'a: 'r>(
        &'r self,
        arena: &'a mut Bump,
        now: u64,
        session: u64,
        event: &'r Event,
    ) -> Result<Granted<'r, 'a>, BorrowedRefusal<'r>>
        requires moment { now ≤ MAX_MOMENT }
        requires filled { IsFilled event.now }
        ensures granted { IfOk result (λ granted. IsPlanFor self.now now session event.now granted.reply granted.plan) }
        ensures refused { IfErr result (λ refusal. Step self.now now session event.now (Reply.Refused (refusal_of refusal)) self.now) }
    {
        let found = self.machine.judge(arena, now, session, event)?;
        let plan = Plan::of(
            &self.machine,
            now,
            session,
            event,
            found.decisions,
            found.run,
        );
        Ok(Granted {
            reply: found.reply,
            plan,
        })
    }

    /// By what an event of a session is judged at a moment in milliseconds since 1970: the rules in force, who is signed
    /// in on the session, if it is open, and the tree, all borrowed. It costs a look-up among the sessions.
    pub fn scene(&self, now: u64, session: u64) -> Scene<'_>
        requires { now ≤ MAX_MOMENT }
        ensures { scene_of result ≡ scene_at self.now now session }
    {
        self.machine.scene_at(now, session)
    }

    /// Does an event by the plan that [`Core::judge`] made for it in this state: the two are the step of the event.
    /// Where it wants memory, nothing has changed, and that is the refusal. A write costs one step for each key of each
    /// location, log w of w children each; where a child is new or goes, those behind it are moved, 16 bytes each; a
    /// deployment what the rules that were in force take to be dropped; taking actions back a look at each write of the
    /// session's actions, which are 16 at most. All others cost no more than what was decided.
    pub fn commit(&mut self, plan: Plan<'_>, event: Event) -> Result<(), NoMemory>
        requires state { plan.before ≡ self.old }
        requires event { plan.event ≡ event }
        ensures done { OnOk result (self.new ≡ after_of plan.entry) }
        ensures refused { OnErr result (Step self.old plan.entry.moment plan.entry.session event (Reply.Refused Refusal.NoMemory) self.new) }
        ensures unchanged { OnErr result (self.new ≡ self.old) }
    {
        let session = plan.session();
        let (decisions, run) = plan.into_parts();
        self.machine.commit(session, event, &decisions, run)
    }

    /// Answers one event of a session at a moment: [`Event::fill`], [`Core::judge`] and [`Core::commit`], one after the
    /// other, and the answer owned, at the cost of the trees and names that it has.
    pub fn step(&mut self, arena: &mut Bump, now: u64, session: u64, event: Event) -> Reply
        requires { now ≤ MAX_MOMENT }
        ensures { Step self.old now session event result self.new }
    {
        let mut event = event;
        event.fill(now);
        self.step_filled(arena, now, session, event)
    }

    // The same of an event in which no moment stands.
    fn step_filled(&mut self, arena: &mut Bump, now: u64, session: u64, event: Event) -> Reply
        requires moment { now ≤ MAX_MOMENT }
        requires filled { IsFilled event }
        ensures { Step self.old now session event result self.new }
    {
        match self.judge_owned(arena, now, session, &event) {
            Ok((reply, plan)) => match self.commit(plan, event) {
                Ok(()) => reply,
                Err(_) => Reply::Refused(Refusal::NoMemory),
            },
            Err(reply) => reply,
        }
    }

    // Judges an event as `judge` does, with a reply that is owned: what is refused has it alone.
    fn judge_owned<'a>(
        &self,
        arena: &'a mut Bump,
        now: u64,
        session: u64,
        event: &Event,
    ) -> Result<(Reply, Plan<'a>), Reply>
        requires moment { now ≤ MAX_MOMENT }
        requires filled { IsFilled event.now }
        ensures reply { IfOk result (λ r. (outcome self.now now session event.now).reply ≡ r.0) }
        ensures plan { IfOk result (λ r. r.1 ≡ record { before = self.now; moment = now; session = session; event = event.now }) }
        ensures refused { IfErr result (λ reply. Step self.now now session event.now reply self.now) }
    {
        let alloc = self.machine.alloc();
        match self.judge(arena, now, session, event) {
            Ok(granted) => match owned(alloc, granted) {
                Ok(owned) => Ok(owned),
                Err(_) => Err(Reply::Refused(Refusal::NoMemory)),
            },
            Err(refusal) => Err(refused(alloc, refusal)),
        }
    }

    /// The tree that is stored, None for null.
    pub fn tree(&self) -> Option<&Node>
        ensures tree { option_map (λ node. node.now) result ≡ non_null self.now.tree }
        ensures room { count self.now.tree ≤ MAX_LOCATIONS }
    {
        self.machine.tree()
    }

    /// The rules in force. In each of their objects at most one part is a capture.
    pub fn rules(&self) -> &Rules
        ensures rules { result.now ≡ self.now.rules }
        ensures one { HasOneCapture self.now.rules }
    {
        self.machine.rules()
    }

    /// How many sessions are open.
    pub fn sessions(&self) -> usize
        ensures { result ≡ map_of.len self.now.sessions }
    {
        self.machine.sessions()
    }

    /// The sessions that are open, in the order of their numbers, in constant time. Of each can be asked what a snapshot
    /// keeps of it.
    pub fn open_sessions(&self) -> &BTreeMap<u64, Session>
        ensures { result.now.entries ≡ map_of.entries self.now.sessions }
    {
        self.machine.open_sessions()
    }

    // ---- a database that begins again

    /// Opens a session as a snapshot has it, for a client that is gone: this is who is signed in on it, and whether it is
    /// leaving. Nothing is judged. It costs an insertion among the sessions, and takes memory for that alone. Where it
    /// fails the identity is dropped.
    pub fn resume(
        &mut self,
        session: u64,
        who: Option<Identity>,
        is_leaving: bool,
    ) -> Result<(), ResumeFault>
        ensures resumed { OnOk result (self.new ≡ resumed self.old session who is_leaving) }
        ensures may { OnOk result (MayResume self.old session) }
        ensures unfit { IfErr result (λ fault. (fault ≡ ResumeFault.Unfit) ↔ ¬ (MayResume self.old session)) }
        ensures unchanged { OnErr result (self.new ≡ self.old) }
    {
        self.machine.resume(session, who, is_leaving)
    }

    /// Gives a session the action that a snapshot has of it, behind those that it has. The rules are not asked, since the
    /// action was judged when it was established. It costs 2 · n comparisons of paths for n writes and a look-up among
    /// the sessions, and takes memory for a longer list of actions. Where it fails the writes are dropped.
    pub fn establish(&mut self, session: u64, writes: Writes) -> Result<(), ResumeFault>
        ensures established { OnOk result (self.new ≡ with_action self.old session writes) }
        ensures may { OnOk result (MayEstablish self.old session writes) }
        ensures unfit { IfErr result (λ fault. (fault ≡ ResumeFault.Unfit) ↔ ¬ (MayEstablish self.old session writes)) }
        ensures unchanged { OnErr result (self.new ≡ self.old) }
    {
        self.machine.establish(session, writes)
    }
}

// What was granted, with a reply of its own.
fn owned<'a>(alloc: Global, granted: Granted<'_, 'a>) -> Result<(Reply, Plan<'a>), NoMemory>
    ensures reply { IfOk result (λ r. r.0 ≡ reply_of granted.entry.reply) }
    ensures plan { IfOk result (λ r. r.1 ≡ granted.entry.plan) }
    ensures later { OnErr result (is_copied (reply_of granted.entry.reply) ≡ true) }
{
    let Granted { reply, plan } = granted;
    let reply = reply.into_owned(alloc)?;
    Ok((reply, plan))
}

// A refusal as a reply of its own.
fn refused(alloc: Global, refusal: BorrowedRefusal<'_>) -> Reply
    ensures { IsRefusedBy (refusal_of refusal.entry) result }
{
    match refusal.into_owned(alloc) {
        Ok(refusal) => Reply::Refused(refusal),
        Err(_) => Reply::Refused(Refusal::NoMemory),
    }
}
