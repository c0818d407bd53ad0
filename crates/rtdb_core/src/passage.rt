//! A step that judges listeners: the rules and the tree after it, and how the tree has changed.
ghost use Rattle.std.specs.Prelude.{◌≡◌, ◌≢◌, ◌≤◌, Option, option_map, false, true, IfOk};
ghost use Rattle.std.specs.Bool.{OnTrue, OnFalse};
ghost use Rattle.tree_model.specs.PathMap.{sub};
ghost use Rattle.arena_snapshot.specs.View.{node_or_null};
ghost use Rattle.listeners.specs.Listener.{seen};
ghost use Rattle.judge.specs.Question.{scene_of};
ghost use Rattle.rtdb_model.specs.Rejudged.{hears};
ghost use Rattle.rtdb_core.specs.Working.Fates.{scene_by, fate_of};
ghost use Rattle.rtdb_core.specs.Working.Heard.{IsHeard, IsAsBefore};
ghost use Rattle.rtdb_core.specs.Working.Passages.{IsPassage, tree_before, tree_after, who_of};

use crate::fates::Fate;
use crate::moved::Moved;
use crate::scratch::Scratch;
use crate::selected::{asked_for, stored};
use arena_snapshot::{View, is_changed_at};
use bumpalo::Bump;
use evaluator::{Identity, MAX_MOMENT, Moment};
use json_tree::{Key, NoMemory, Node};
use judge::{Scene, may_read, watched};
use listeners::Listener;
use path_capture::{Path, Write};
use rules_reader::Rules;

/// What listeners are judged by: the rules in force after the step, the tree before it, the writes that
/// it makes, the tree that they propose, the moment, and whether each that is live was granted its read
/// before, by the same rules and as the same person.
#[derive(Drop)]
pub(crate) struct Passage<'a> {
    pub rules: &'a Rules,
    pub base: Option<&'a Node>,
    pub writes: &'a [Write],
    pub coming: Option<View<'a>>,
    pub moment: u64,
    pub was_heard: bool,
}

impl<'a> Passage<'a> {
    /// A step by which the tree stays.
    pub(crate) fn staying(
        rules: &'a Rules,
        base: Option<&'a Node>,
        now: u64,
        was_heard: bool,
    ) -> Passage<'a>
        requires { now ≤ MAX_MOMENT }
        ensures passage { IsPassage result }
        ensures moment { result.moment ≡ now }
        ensures before { tree_before result ≡ node_or_null base.entry }
        ensures after { tree_after result ≡ node_or_null base.entry }
        ensures rules { result.rules.now ≡ rules.now }
        ensures heard { result.was_heard ≡ was_heard }
    {
        Passage {
            rules,
            base,
            writes: &[],
            coming: stored(base),
            moment: now,
            was_heard,
        }
    }
}

/// Whether another tree stands below these keys after the step.
pub(crate) fn changes_at(passage: &Passage<'_>, keys: &[Key]) -> bool
    requires { IsPassage passage.now }
    ensures changed { OnTrue result (sub (tree_after passage.now) keys.now ≢ sub (tree_before passage.now) keys.now) }
    ensures unchanged { OnFalse result (sub (tree_after passage.now) keys.now ≡ sub (tree_before passage.now) keys.now) }
{
    is_changed_at(passage.base, passage.writes, keys)
}

/// What becomes of a listener of whoever is signed in. Its rules are evaluated only where it may be that
/// they don't grant its read any longer, and what it selects is looked at only where it has no mark. The scratch
/// takes what rules make and bind, and, where more has changed than a few children, the selections before and after
/// the step.
pub(crate) fn fate_of<'s>(
    scratch: &mut Scratch<'_>,
    passage: &Passage<'_>,
    who: Option<&Identity>,
    listener: &Listener<'s>,
    moved: &mut Moved<'_, '_, 's>,
) -> Result<Option<Fate>, NoMemory>
    requires passage { IsPassage passage.now }
    requires moved { moved.old ≡ (tree_before passage.now, tree_after passage.now) }
    requires heard { passage.now.was_heard ≡ true → IsHeard passage.now.rules.now (tree_before passage.now) (who_of who) (seen listener.now) }
    ensures fate { IfOk result (λ fate. fate ≡ fate_of (tree_before passage.now) passage.now.rules.now (tree_after passage.now) passage.now.moment (who_of who.entry) (seen listener.now)) }
    ensures moved { moved.new ≡ moved.old }
{
    if !listener.is_live {
        return Ok(None);
    }
    if stays(passage, listener.path, moved) {
        return Ok(None);
    }
    if !hears(scratch.arena()?, passage, who, listener)? {
        return Ok(Some(Fate::Cancelled));
    }
    if listener.is_marked {
        return Ok(None);
    }
    if moved.has(scratch, listener.path, listener.query)? {
        return Ok(Some(Fate::Marked));
    }
    Ok(None)
}

// Whether a listener of this path stays as it is, for nothing has changed of what its read depends on.
fn stays<'s>(passage: &Passage<'_>, path: &'s Path, moved: &mut Moved<'_, '_, 's>) -> bool
    requires passage { IsPassage passage.now }
    requires moved { moved.old ≡ (tree_before passage.now, tree_after passage.now) }
    ensures heard { OnTrue result (passage.now.was_heard ≡ true) }
    ensures same { OnTrue result (IsAsBefore passage.now.rules.now (tree_before passage.now) (tree_after passage.now) path.now) }
    ensures moved { moved.new ≡ moved.old }
{
    if !passage.was_heard {
        return false;
    }
    match watched(passage.rules, path) {
        Some(place) => !moved.has_changed(place),
        None => false,
    }
}

// Whether its read is granted.
fn hears(
    arena: &Bump,
    passage: &Passage<'_>,
    who: Option<&Identity>,
    listener: &Listener<'_>,
) -> Result<bool, NoMemory>
    requires { IsPassage passage.now }
    ensures { IfOk result (λ granted. granted ≡ hears (scene_by passage.now.rules.now (tree_after passage.now) passage.now.moment (who_of who.entry)) listener.now.path.now (option_map (λ query. query.now) listener.now.query)) }
{
    let asked = asked_for(listener.query);
    let scene = scene(passage, who);
    may_read(arena, &scene, listener.path, &asked)
}

fn scene<'a>(passage: &'a Passage<'a>, who: Option<&'a Identity>) -> Scene<'a>
    requires { IsPassage passage.now }
    ensures { scene_of result ≡ scene_by passage.now.rules.now (tree_after passage.now) passage.now.moment (who_of who.entry) }
{
    Scene {
        rules: passage.rules,
        auth: who,
        moment: Moment::new(passage.moment),
        old: shared(&passage.coming),
    }
}

pub(crate) fn shared<'a>(view: &Option<View<'a>>) -> Option<View<'a>>
    ensures { result ≡ view.now }
{
    match view {
        Some(view) => Some(view.share()),
        None => None,
    }
}
