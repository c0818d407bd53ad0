//! Lets the sessions leave that were open when a database went down.
ghost use Rattle.std.specs.Prelude.{◌≡◌, ◌≤◌, ◌<◌, [], ℕ, map, true, false, IfOk, OnOk, IfSome, IfNone};
ghost use Rattle.std.specs.FinMap as map_of;
ghost use Rattle.evaluator.specs.declared.env.TheConstants.{MAX_MOMENT};
ghost use Rattle.rtdb_model.specs.State.{is_open, is_leaving, actions_of};
ghost use Rattle.store.specs.Leaving.{HaveLeft};
ghost use Rattle.store.specs.LeavingWorking.{HasLeft, IsLeavingAmong, HasRun};

use bumpalo::Bump;
use entries::{Deed, deed_entry};
use json_tree::NoMemory;
use rtdb_core::{Core, Event, MAX_MOMENT, Ran, Reply};
use std::alloc::Global;

/// Lets each open session leave at a moment, runs its actions by the rules in force, and closes it; gives the entries
/// of all that. It costs what these calls cost. Where memory is wanting, some sessions may have left, and the database
/// is to be recovered once more.
pub fn let_all_leave(
    alloc: Global,
    core: &mut Core,
    arena: &mut Bump,
    now: u64,
) -> Result<Vec<Vec<u8>>, NoMemory>
    requires { now ≤ MAX_MOMENT }
    ensures { IfOk result (λ entries. HaveLeft core.old now (map (λ entry. entry.items) entries.items) core.new) }
{
    let mut entries = Vec::new(alloc);
    'sessions: while let Some((session, begun)) = first_open(core) {
        let_leave(alloc, core, arena, now, session, begun, &mut entries)?;
    }
    Ok(entries)
}

// The open session with the least number, and whether it is leaving.
fn first_open(core: &Core) -> Option<(u64, bool)>
    ensures some { IfSome result (λ first. (is_open core.now first.0 ≡ true) × (is_leaving core.now first.0 ≡ first.1)) }
    ensures none { IfNone result ((session : ℕ) → is_open core.now session ≡ false) }
{
    let (number, session) = core.open_sessions().first_key_value()?;
    Some((*number, session.is_leaving()))
}

// Lets a session leave, which may have begun to, and adds the entries of that.
fn let_leave(
    alloc: Global,
    core: &mut Core,
    arena: &mut Bump,
    now: u64,
    session: u64,
    begun: bool,
    entries: &mut Vec<Vec<u8>>,
) -> Result<(), NoMemory>
    requires moment { now ≤ MAX_MOMENT }
    requires opened { is_open core.old session ≡ true }
    requires begun { is_leaving core.old session ≡ begun }
    ensures gone { OnOk result (HasLeft core.old now (map (λ entry. entry.items) entries.old.items) (map (λ entry. entry.items) entries.new.items) core.new) }
    ensures fewer { OnOk result (map_of.len core.new.sessions < map_of.len core.old.sessions) }
{
    begin_to_leave(alloc, core, arena, now, session, begun, entries)?;
    run_all(alloc, core, arena, now, session, entries)?;
    close(alloc, core, arena, now, session, entries)
}

// Lets a session begin to leave, unless it has begun already.
fn begin_to_leave(
    alloc: Global,
    core: &mut Core,
    arena: &mut Bump,
    now: u64,
    session: u64,
    begun: bool,
    entries: &mut Vec<Vec<u8>>,
) -> Result<(), NoMemory>
    requires moment { now ≤ MAX_MOMENT }
    requires opened { is_open core.old session ≡ true }
    requires begun { is_leaving core.old session ≡ begun }
    ensures gone { OnOk result (HasLeft core.old now (map (λ entry. entry.items) entries.old.items) (map (λ entry. entry.items) entries.new.items) core.new) }
    ensures leaving { OnOk result (IsLeavingAmong core.old session core.new) }
{
    if begun {
        return Ok(());
    }
    let entry = deed_entry(alloc, now, session, Deed::Leave)?;
    entries.push(entry)?;
    core.step(arena, now, session, Event::Leave);
    Ok(())
}

// Runs all actions of a session that is leaving.
fn run_all(
    alloc: Global,
    core: &mut Core,
    arena: &mut Bump,
    now: u64,
    session: u64,
    entries: &mut Vec<Vec<u8>>,
) -> Result<(), NoMemory>
    requires moment { now ≤ MAX_MOMENT }
    requires opened { is_open core.old session ≡ true }
    requires leaving { is_leaving core.old session ≡ true }
    ensures gone { OnOk result (HasLeft core.old now (map (λ entry. entry.items) entries.old.items) (map (λ entry. entry.items) entries.new.items) core.new) }
    ensures leaving { OnOk result (IsLeavingAmong core.old session core.new) }
    ensures none { OnOk result (actions_of core.new session ≡ []) }
{
    'actions: while run_first(core, arena, now, session)? {
        let entry = deed_entry(alloc, now, session, Deed::RunNext)?;
        entries.push(entry)?;
    }
    Ok(())
}

// Runs the first action, and says whether there was one.
fn run_first(core: &mut Core, arena: &mut Bump, now: u64, session: u64) -> Result<bool, NoMemory>
    requires moment { now ≤ MAX_MOMENT }
    requires opened { is_open core.old session ≡ true }
    requires leaving { is_leaving core.old session ≡ true }
    ensures { IfOk result (HasRun core.old now session core.new) }
{
    match core.step(arena, now, session, Event::RunNext) {
        Reply::Ran(Ran::Empty) => Ok(false),
        Reply::Ran(Ran::Applied) => Ok(true),
        Reply::Ran(Ran::Skipped(_)) => Ok(true),
        _ => Err(NoMemory),
    }
}

// Closes a session that has no actions.
fn close(
    alloc: Global,
    core: &mut Core,
    arena: &mut Bump,
    now: u64,
    session: u64,
    entries: &mut Vec<Vec<u8>>,
) -> Result<(), NoMemory>
    requires moment { now ≤ MAX_MOMENT }
    requires opened { is_open core.old session ≡ true }
    requires none { actions_of core.old session ≡ [] }
    ensures gone { OnOk result (HasLeft core.old now (map (λ entry. entry.items) entries.old.items) (map (λ entry. entry.items) entries.new.items) core.new) }
    ensures fewer { OnOk result (map_of.len core.new.sessions < map_of.len core.old.sessions) }
{
    let entry = deed_entry(alloc, now, session, Deed::Close)?;
    entries.push(entry)?;
    core.step(arena, now, session, Event::Close);
    Ok(())
}
