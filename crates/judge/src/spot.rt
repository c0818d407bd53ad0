//! Where a walk stands: the rule node there, and what its rules see.
ghost use Rattle.std.specs.Prelude.{◌≡◌, ◌<◌, ◌++◌, ℕ, List, [], Some, length, option_map, IfOk, OnOk};
ghost use Rattle.tree_model.specs.declared.limits.TheConstants.{MAX_DEPTH as most_keys};
ghost use Rattle.tree_model.specs.Key.{Key as KeyBytes};
ghost use Rattle.path_capture.specs.Pattern.{part_of, part_text};
ghost use Rattle.tree_model.specs.PathMap.{get};
ghost use Rattle.rules_reader.specs.Book.{stated_for};
ghost use Rattle.rules_reader.specs.Spelled.{captured, IsLawful};
ghost use Rattle.evaluator.specs.Env.{access_of};
ghost use Rattle.evaluator.specs.Snapshot.{below};
ghost use Rattle.judge.specs.Working.Standing.{ask_of, path_of, last_name, last_bound, access_below, AccessHasRoom, coming_at, Stands, Entering};

use crate::scene::Scene;
use arena_snapshot::View;
use bumpalo::Bump;
use evaluator::{Access, Env, Outcome, Snapshot, evaluate};
use expr_types::Checked;
use json_tree::{Key, NoMemory};
use path_capture::{CaptureName, Captures, Part};
use rules_reader::{Kind, RuleNode, TreeVariable};
use std::alloc::Global;

// By how many bytes the arena may grow before each evaluation takes an arena of its own.
const MAX_GROWTH: usize = 65_536;

/// What is asked: the rules of which kind, in which scene, and for which access at the root.
#[derive(Clone, Copy)]
pub(crate) struct Asking<'a> {
    pub(crate) arena: &'a Bump,
    pub(crate) scene: &'a Scene<'a>,
    pub(crate) access: Access<'a>,
    pub(crate) kind: Kind,
    pub(crate) spare: Option<Spare>,
}

/// Memory for evaluations beside the arena: what an evaluation makes is not needed after it, so where many are
/// asked, each takes an arena of its own once that of the step has grown by 64 KiB, and gives it back.
#[derive(Clone, Copy)]
pub(crate) struct Spare {
    alloc: Global,
    begun: usize,
}

impl Spare {
    /// Spare memory, from now on: as large as the arena is now, it has not grown.
    pub(crate) fn new(alloc: Global, arena: &Bump) -> Spare {
        Spare {
            alloc,
            begun: arena.allocated_bytes(),
        }
    }

    // Where an arena for one evaluation is made, if it takes one.
    fn needed(self, arena: &Bump) -> Option<Global> {
        let grown = arena.allocated_bytes().saturating_sub(self.begun);
        if grown > MAX_GROWTH {
            Some(self.alloc)
        } else {
            None
        }
    }
}

/// Where a walk stands: the rule node, `data`, and the query or `newData`.
#[derive(Clone, Copy)]
pub(crate) struct Spot<'a> {
    pub(crate) rule: &'a RuleNode,
    pub(crate) here: &'a Snapshot<'a>,
    pub(crate) access: Access<'a>,
}

// The proposed tree at the spot, if something stands there.
pub(crate) fn coming<'a>(spot: &Spot<'a>) -> Option<View<'a>>
    ensures { result ≡ coming_at (access_of spot.now.access) }
{
    match spot.access {
        Access::Reads(_) => None,
        Access::Writes(snapshot) => snapshot.view(),
    }
}

/// What the rule of the kind that is asked answers, if the node states one. The expression is
/// evaluated, and nothing else.
pub(crate) fn answer<'a>(
    asking: &Asking<'a>,
    spot: &Spot<'a>,
    captures: &Captures<'a, &'a Bump>,
) -> Result<Option<Outcome>, NoMemory>
    requires { Stands asking.now spot.now captures.now }
    ensures { IfOk result (λ answer. option_map (λ a. (spot.now.rule.now.at, a)) answer ≡ ask_of asking.now (path_of spot.now)) }
{
    match spot.rule.rule(asking.kind) {
        Some(rule) => {
            let outcome = match apart(asking) {
                Some(alloc) => answer_apart(alloc, asking, spot, rule, captures)?,
                None => answer_of(asking.arena, asking, spot, rule, captures)?,
            };
            Ok(Some(outcome))
        }
        None => Ok(None),
    }
}

// Where an evaluation has to take an arena of its own, what makes it.
fn apart(asking: &Asking<'_>) -> Option<Global> {
    let spare = asking.spare?;
    spare.needed(asking.arena)
}

// What this rule answers, evaluated in an arena that is given back. It stays a function of its own, since only rules of
// an update are evaluated so.
#[inline(never)]
fn answer_apart<'a>(
    alloc: Global,
    asking: &Asking<'a>,
    spot: &Spot<'a>,
    rule: &'a Checked,
    captures: &Captures<'a, &'a Bump>,
) -> Result<Outcome, NoMemory>
    requires here { Stands asking.now spot.now captures.now }
    requires stated { option_map (stated_for asking.now.kind) (get spot.now.rule.now.book []) ≡ Some (Some rule.now) }
    requires lawful { IsLawful spot.now.rule.now.at asking.now.kind rule.now }
    ensures { IfOk result (λ outcome. Some (spot.now.rule.now.at, outcome) ≡ ask_of asking.now (path_of spot.now)) }
{
    let own = Bump::new(alloc);
    let copy = copy_of(&own, captures)?;
    answer_of(&own, asking, spot, rule, &copy)
}

// The same captures, in another arena.
fn copy_of<'e, 'a: 'e>(
    arena: &'e Bump,
    captures: &Captures<'a, &'a Bump>,
) -> Result<Captures<'e, &'e Bump>, NoMemory>
    ensures { IfOk result (λ copy. copy ≡ captures.now) }
{
    let mut copy = Captures::new(arena);
    for i in 0..captures.len() {
        let Some(binding) = captures.part(i) else {
            unreachable!()
        };
        copy.push(binding.name, binding.key)?;
    }
    Ok(copy)
}

// What this rule answers, which is that of the kind that is asked. It stays a function of its own, since most nodes
// on a walk state none, and room for what an expression needs would be made and cleared at each of them.
#[inline(never)]
pub(crate) fn answer_of<'e, 'a: 'e>(
    arena: &'e Bump,
    asking: &Asking<'a>,
    spot: &Spot<'a>,
    rule: &'a Checked,
    captures: &Captures<'e, &'e Bump>,
) -> Result<Outcome, NoMemory>
    requires here { Stands asking.now spot.now captures.now }
    requires stated { option_map (stated_for asking.now.kind) (get spot.now.rule.now.book []) ≡ Some (Some rule.now) }
    requires lawful { IsLawful spot.now.rule.now.at asking.now.kind rule.now }
    ensures { IfOk result (λ outcome. Some (spot.now.rule.now.at, outcome) ≡ ask_of asking.now (path_of spot.now)) }
{
    let env = Env {
        auth: asking.scene.auth,
        moment: asking.scene.moment,
        here: spot.here,
        access: spot.access,
        captures,
    };
    let outcome = evaluate(arena, rule, &env)?;
    Ok(outcome)
}

/// Moves a spot one key further down, and says whether a rule node is there: one step among the rules and a
/// place in the arena for each tree, with one look-up in each about which a rule there or below may ask.
pub(crate) fn enter<'a>(
    asking: &Asking<'a>,
    spot: &mut Spot<'a>,
    key: &'a Key,
    captures: &mut Captures<'a, &'a Bump>,
) -> Result<bool, NoMemory>
    requires here { Stands asking.now spot.old captures.old }
    requires room { length (path_of spot.old) < most_keys }
    ensures { IfOk result (Entering asking.now (path_of spot.old) key.now captures.old captures.new spot.new) }
{
    let text = key.text();
    let Some(rule) = spot.rule.step(text) else {
        return Ok(false);
    };
    let is_asked = rule.mentions(TreeVariable::Data, asking.kind);
    let here = further(asking.arena, spot.here, text, is_asked)?;
    let mut access = spot.access;
    lower(asking, rule, &mut access, key)?;
    bind(rule, key, captures)?;
    *spot = Spot { rule, here, access };
    Ok(true)
}

/// Takes back what the spot has bound.
pub(crate) fn leave<'a>(spot: &Spot<'a>, captures: &mut Captures<'a, &'a Bump>)
    ensures { (front : List (List ℕ × KeyBytes)) (key : KeyBytes) → captures.old ≡ front ++ last_bound spot.now.rule.now.at key → captures.new ≡ front }
{
    if own_capture(spot.rule).is_some() {
        captures.pop();
    }
}

// Moves the access one key further down, where this rule node is.
fn lower<'a>(
    asking: &Asking<'a>,
    rule: &RuleNode,
    access: &mut Access<'a>,
    key: &'a Key,
) -> Result<(), NoMemory>
    requires { AccessHasRoom (access_of access.old) }
    ensures { OnOk result (access_of access.new ≡ access_below (access_of access.old) key.now) }
{
    match *access {
        Access::Reads(_) => {}
        Access::Writes(snapshot) => {
            let is_asked = asks_for_new_data(rule, asking.kind);
            *access = Access::Writes(further(asking.arena, snapshot, key.text(), is_asked)?);
        }
    }
    Ok(())
}

// Whether `newData` is asked for at a rule node or below it: by a rule, or by a validation, which goes where
// something would stand.
fn asks_for_new_data(rule: &RuleNode, kind: Kind) -> bool {
    match kind {
        Kind::Validate => rule.has_validate(),
        Kind::Read | Kind::Write => rule.mentions(TreeVariable::NewData, kind),
    }
}

// The location one key further down, looked up where it will be asked about.
#[inline(always)]
fn further<'a>(
    arena: &'a Bump,
    at: &'a Snapshot<'a>,
    key: &'a str,
    is_asked: bool,
) -> Result<&'a Snapshot<'a>, NoMemory>
    requires { length at.now.1 < most_keys }
    ensures { IfOk result (λ found. found.now ≡ below at.now key.now) }
{
    if is_asked {
        at.below(arena, key)
    } else {
        at.passed(arena, key)
    }
}

// Binds the capture that the node's own part is, if it is one, to the key.
fn bind<'a>(
    rule: &'a RuleNode,
    key: &'a Key,
    captures: &mut Captures<'a, &'a Bump>,
) -> Result<(), NoMemory>
    ensures { OnOk result (captures.new ≡ captures.old ++ last_bound rule.now.at key.now) }
{
    if let Some(name) = own_capture(rule) {
        captures.push(name, key)?;
    }
    Ok(())
}

// The name of the capture that the last part of the node's pattern is, if it is one.
fn own_capture(rule: &RuleNode) -> Option<&CaptureName>
    ensures { option_map (λ name. name.now) result ≡ last_name rule.now.at }
{
    let pattern = rule.pattern();
    let count = pattern.len();
    if count == 0 {
        return None;
    }
    match pattern.part(count - 1) {
        Some(part) => name_of(part),
        None => None,
    }
}

fn name_of(part: &Part) -> Option<&CaptureName>
    ensures { option_map (λ name. name.now) result ≡ captured (part_text (part_of part.now)) }
{
    match part {
        Part::Literal(key) => {
            key.text();
            None
        }
        Part::Capture(name) => {
            name.text();
            Some(name)
        }
    }
}
