//! Listeners judged again: what becomes of each is decided first, which may fail for want of memory, and
//! then all of it is made, which can't.
ghost use Rattle.std.specs.Prelude.{◌≡◌, ◌+◌, ◌<◌, ◌^◌, ◌++◌, length, map, true, IfOk, OnOk};
ghost use Rattle.std.specs.FinMap as map_of;
ghost use Rattle.std.specs.Ordering.{nat_cmp};
ghost use Rattle.std.specs.BTreeMap.{IsOrdered};
ghost use Rattle.rtdb_core.specs.Working.Fates.{fate_of, fates_of, sparse, settled_all};
ghost use Rattle.rtdb_core.specs.Working.Heard.{AreHeard, AllHeardIn};
ghost use Rattle.rtdb_core.specs.Working.Passages.{IsPassage, tree_before, tree_after, who_of};

use crate::fates::{Decision, Decisions, Docket};
use crate::moved::Moved;
use crate::passage::{Passage, fate_of};
use crate::scratch::Scratch;
use crate::session::Session;
use bumpalo::Bump;
use evaluator::Identity;
use json_tree::NoMemory;
use listeners::Table;
use std::alloc::Global;
use std::collections::BTreeMap;

/// What becomes of all listeners of all sessions.
pub(crate) fn decide_all<'a, 'p>(
    alloc: Global,
    arena: &'a Bump,
    passage: &'p Passage<'p>,
    sessions: &BTreeMap<u64, Session>,
) -> Result<Decisions<'a>, NoMemory>
    requires passage { IsPassage passage.now }
    requires heard { passage.now.was_heard ≡ true → AllHeardIn passage.now.rules.now (tree_before passage.now) (map_of.from_entries sessions.now.entries) }
    ensures made { IfOk result (λ decisions. decisions.made.items ≡ sparse 0 (fates_of (tree_before passage.now) passage.now.rules.now (tree_after passage.now) passage.now.moment (map (λ e. e.1) sessions.now.entries))) }
    ensures fits { IfOk result (λ decisions. length (fates_of (tree_before passage.now) passage.now.rules.now (tree_after passage.now) passage.now.moment (map (λ e. e.1) sessions.now.entries)) < 2 ^ 64) }
    ensures ordered { IsOrdered nat_cmp sessions.now }
{
    let mut decisions = Decisions::new(arena);
    let mut scratch = Scratch::new(alloc, arena);
    let mut moved = Moved::by(arena, passage);
    for session in sessions.values() {
        decide_each(
            &mut scratch,
            passage,
            session.identity(),
            session.listeners(),
            &mut moved,
            &mut decisions,
        )?;
    }
    decisions.law();
    Ok(decisions)
}

/// What becomes of the listeners of whoever is signed in.
pub(crate) fn decide_own<'a, 'p>(
    alloc: Global,
    arena: &'a Bump,
    passage: &'p Passage<'p>,
    who: Option<&Identity>,
    listeners: &Table,
) -> Result<Decisions<'a>, NoMemory>
    requires passage { IsPassage passage.now }
    requires heard { passage.now.was_heard ≡ true → AreHeard passage.now.rules.now (tree_before passage.now) (who_of who) listeners.now }
    ensures made { IfOk result (λ decisions. decisions.made.items ≡ sparse 0 (map (fate_of (tree_before passage.now) passage.now.rules.now (tree_after passage.now) passage.now.moment (who_of who.entry)) listeners.now)) }
    ensures fits { IfOk result (λ decisions. length listeners.now < 2 ^ 64) }
{
    let mut decisions = Decisions::new(arena);
    let mut scratch = Scratch::new(alloc, arena);
    let mut moved = Moved::by(arena, passage);
    decide_each(
        &mut scratch,
        passage,
        who,
        listeners,
        &mut moved,
        &mut decisions,
    )?;
    decisions.law();
    Ok(decisions)
}

// What becomes of the listeners of a session. Most sessions have none, so this is inlined into what goes through
// them.
#[inline(always)]
fn decide_each<'s>(
    scratch: &mut Scratch<'_>,
    passage: &Passage<'_>,
    who: Option<&Identity>,
    listeners: &'s Table,
    moved: &mut Moved<'_, '_, 's>,
    decisions: &mut Decisions<'_>,
) -> Result<(), NoMemory>
    requires passage { IsPassage passage.now }
    requires moved { moved.old ≡ (tree_before passage.now, tree_after passage.now) }
    requires heard { passage.now.was_heard ≡ true → AreHeard passage.now.rules.now (tree_before passage.now) (who_of who) listeners.now }
    ensures place { OnOk result (decisions.new.place ≡ decisions.old.place + length listeners.now) }
    ensures moved { moved.new ≡ moved.old }
    ensures made { OnOk result (decisions.new.made.items ≡ decisions.old.made.items ++ sparse decisions.old.place (map (fate_of (tree_before passage.now) passage.now.rules.now (tree_after passage.now) passage.now.moment (who_of who.entry)) listeners.now)) }
{
    if listeners.len() == 0 {
        return Ok(());
    }
    decide_some(scratch, passage, who, listeners, moved, decisions)
}

fn decide_some<'s>(
    scratch: &mut Scratch<'_>,
    passage: &Passage<'_>,
    who: Option<&Identity>,
    listeners: &'s Table,
    moved: &mut Moved<'_, '_, 's>,
    decisions: &mut Decisions<'_>,
) -> Result<(), NoMemory>
    requires passage { IsPassage passage.now }
    requires moved { moved.old ≡ (tree_before passage.now, tree_after passage.now) }
    requires heard { passage.now.was_heard ≡ true → AreHeard passage.now.rules.now (tree_before passage.now) (who_of who) listeners.now }
    ensures place { OnOk result (decisions.new.place ≡ decisions.old.place + length listeners.now) }
    ensures moved { moved.new ≡ moved.old }
    ensures made { OnOk result (decisions.new.made.items ≡ decisions.old.made.items ++ sparse decisions.old.place (map (fate_of (tree_before passage.now) passage.now.rules.now (tree_after passage.now) passage.now.moment (who_of who.entry)) listeners.now)) }
{
    for index in 0..listeners.len() {
        let fate = fate_of(scratch, passage, who, &listeners.entry(index), moved)?;
        decisions.push(fate)?;
    }
    Ok(())
}

/// Makes what is decided of all listeners. It takes no memory.
pub(crate) fn settle_all(sessions: &mut BTreeMap<u64, Session>, decisions: &[Decision])
    ensures made { sessions.new.entries ≡ settled_all 0 decisions.now sessions.old.entries }
    ensures ordered { IsOrdered nat_cmp sessions.old }
{
    let mut docket = Docket::new(decisions);
    sessions.retain(|_, session| {
        docket = session.settle(docket);
        true
    });
}
