//! The entries with which a journal begins.
ghost use Rattle.std.specs.Prelude.{◌≡◌, ◌≤◌, ◌++◌, ◌∷◌, [], ℕ, List, map, true, false, Some, IfOk, OnOk};
ghost use Rattle.tree_model.specs.declared.limits.TheConstants.{MAX_DEPTH};
ghost use Rattle.tree_model.specs.PathMap.{depth};
ghost use Rattle.tree_model.specs.Tree.{count, IsLawful};
ghost use Rattle.arena_snapshot.specs.View.{node_or_null};
ghost use Rattle.rules_reader.specs.File.{States};
ghost use Rattle.rtdb_model.specs.declared.limits.TheConstants.{MAX_LOCATIONS};
ghost use Rattle.rtdb_model.specs.State.{State, opening, is_open, actions_of};
ghost use Rattle.rtdb_model.specs.Step.{with_actions};
ghost use Rattle.rtdb_laws.specs.Effects.{unlistening, without_listeners};
ghost use Rattle.store.specs.Replay.{empty, reading, tree_in, Replays, LeadTo};
ghost use Rattle.store.specs.Snapshots.{with_one};

use entries::{action_entry, begin_entry, rules_entry, session_entry, tree_entry};
use json_tree::{NoMemory, Node, to_json};
use rtdb_core::{Action, Core, Session};
use std::alloc::Global;

/// How many bytes of a tree's text an entry has at most.
const PIECE_BYTES: usize = 1 << 20;

/// The entries that lead to a database as it stands, but for what its sessions listen to: the rules in force, of which
/// this is the text, the tree, and of each open session who is signed in on it, whether it is leaving, and its actions.
/// It takes for a while some four times the memory of the tree.
pub fn snapshot(alloc: Global, core: &Core, rules: &str) -> Result<Vec<Vec<u8>>, NoMemory>
    requires { States rules.now core.now.rules }
    ensures { IfOk result (λ entries. LeadTo (map (λ entry. entry.items) entries.items) rules.now (without_listeners core.now)) }
{
    let mut entries = begun(alloc, core, rules)?;
    for (number, session) in core.open_sessions() {
        add_session(alloc, *number, session, &mut entries)?;
    }
    Ok(entries)
}

// The entries of the rules and the tree.
fn begun(alloc: Global, core: &Core, rules: &str) -> Result<Vec<Vec<u8>>, NoMemory>
    requires { States rules.now core.now.rules }
    ensures { IfOk result (λ entries. LeadTo (map (λ entry. entry.items) entries.items) rules.now (opening core.now.rules core.now.tree)) }
{
    let mut entries = Vec::new(alloc);
    entries.push(rules_entry(alloc, rules)?)?;
    let text = text_of(alloc, core.tree())?;
    add_pieces(alloc, text.as_slice(), &mut entries)?;
    entries.push(begin_entry(alloc)?)?;
    Ok(entries)
}

// The JSON text of a tree.
fn text_of(alloc: Global, tree: Option<&Node>) -> Result<Vec<u8>, NoMemory>
    requires { count (node_or_null tree) ≤ MAX_LOCATIONS }
    ensures { IfOk result (λ text. tree_in text.items ≡ Some (node_or_null tree.entry)) }
{
    law_of(tree);
    let value = to_json(alloc, tree)?;
    let text = value.to_vec(alloc)?;
    Ok(text)
}

// What holds of every stored tree.
fn law_of(tree: Option<&Node>)
    ensures lawful { IsLawful (node_or_null tree.entry) }
    ensures depth { depth (node_or_null tree.entry) ≤ MAX_DEPTH }
{
    match tree {
        Some(node) => node.law(),
        None => {}
    }
}

// Adds the text of a tree, piece by piece.
fn add_pieces(alloc: Global, text: &[u8], entries: &mut Vec<Vec<u8>>) -> Result<(), NoMemory>
    ensures { OnOk result ((rules : List ℕ) → Replays (map (λ entry. entry.items) entries.old.items) empty (reading rules [])
        → Replays (map (λ entry. entry.items) entries.new.items) empty (reading rules text.now)) }
{
    let mut at = 0;
    while at < text.len() {
        let end = text.len().min(at.saturating_add(PIECE_BYTES));
        entries.push(tree_entry(alloc, &text[at..end])?)?;
        at = end;
    }
    Ok(())
}

// Adds a session, and its actions.
fn add_session(
    alloc: Global,
    number: u64,
    session: &Session,
    entries: &mut Vec<Vec<u8>>,
) -> Result<(), NoMemory>
    ensures { OnOk result ((text : List ℕ) (state : State) → LeadTo (map (λ entry. entry.items) entries.old.items) text state → is_open state number ≡ false
        → LeadTo (map (λ entry. entry.items) entries.new.items) text (with_one state number (unlistening session.now))) }
{
    let who = session.identity();
    entries.push(session_entry(alloc, number, who, session.is_leaving())?)?;
    let actions = session.actions();
    for action in actions {
        add_action(alloc, number, action, entries)?;
    }
    Ok(())
}

// Adds an action of a session.
fn add_action(
    alloc: Global,
    number: u64,
    action: &Action,
    entries: &mut Vec<Vec<u8>>,
) -> Result<(), NoMemory>
    ensures { OnOk result ((text : List ℕ) (state : State) → LeadTo (map (λ entry. entry.items) entries.old.items) text state → is_open state number ≡ true
        → LeadTo (map (λ entry. entry.items) entries.new.items) text (with_actions state number (actions_of state number ++ action.now ∷ []))) }
{
    let entry = action_entry(alloc, number, action.in_order())?;
    entries.push(entry)?;
    Ok(())
}
