//! The rule that stands at a path, and what it sees there.
ghost use Rattle.std.specs.Prelude.{◌≡◌, ◌+◌, ◌++◌, ◌≤◌, [], length, option_map, IfOk};
ghost use Rattle.tree_model.specs.declared.limits.TheConstants.{MAX_DEPTH as most_keys};
ghost use Rattle.path_capture.specs.Write.{tree_or_null};
ghost use Rattle.rules_reader.specs.declared.kind.Kind.TheVariants.{Read as ReadKind, Write as WriteKind, Validate as ValidateKind};
ghost use Rattle.evaluator.specs.Asked.{asked_of};
ghost use Rattle.evaluator.specs.Env.{env_of, access_of};
ghost use Rattle.judge.specs.Question.{scene_of, access_at, reading, writing};
ghost use Rattle.judge.specs.Placed.{placed_of, rule_at, path_by};
ghost use Rattle.judge.specs.Working.Standing.{AsksFor, IsReached, Stands, ask_of, path_of, question_of};

use crate::judging::{at_root, reading, root_of};
use crate::scene::Scene;
use crate::spot::{Asking, Spot, answer_of, enter};
use arena_snapshot::View;
use bumpalo::Bump;
use evaluator::{Access, Asked, Env, Identity, Moment, Outcome, Snapshot};
use expr_types::Checked;
use json_tree::{Key, NoMemory};
use path_capture::Captures;
use rules_reader::{Kind, RuleNode};

/// A rule at a path: the object that states it, its expression, what this sees there, and what the rule answers.
/// (Reference, rules types.)
#[derive(Drop)]
pub struct PlacedRule<'a> {
    pub node: &'a RuleNode,
    pub rule: &'a Checked,
    pub auth: Option<&'a Identity>,
    pub moment: Moment,
    /// `data`, at the path.
    pub here: &'a Snapshot<'a>,
    pub access: Access<'a>,
    pub captures: Captures<'a, &'a Bump>,
    pub answer: Outcome,
}

impl<'a> PlacedRule<'a> {
    /// What the expression sees at the path. (Reference, variables.)
    pub fn env(&self) -> Env<'a, '_>
        ensures { env_of result ≡ (placed_of self.now).env }
    {
        Env {
            auth: self.auth,
            moment: self.moment,
            here: self.here,
            access: self.access,
            captures: &self.captures,
        }
    }
}

/// The `.read` that stands at a path, if one does, asked for a read with this query: of d keys, d · log w steps in nodes
/// of w children, and one evaluation. The arena takes a place for each key, the captures on the way, and what the
/// expression makes. (Reference, rules types.)
pub fn read_rule_at<'a>(
    arena: &'a Bump,
    scene: &'a Scene<'a>,
    asked: &'a Asked<'a>,
    keys: &[&'a Key],
) -> Result<Option<PlacedRule<'a>>, NoMemory>
    requires { length keys.now ≤ most_keys }
    ensures { IfOk result (λ rule. option_map placed_of rule ≡ rule_at (reading (scene_of scene.now) (asked_of asked.now)) ReadKind (path_by keys.now)) }
{
    rule_along(&reading(arena, scene, asked), keys)
}

/// The `.write` that stands at a path, if one does, asked for writes that propose this tree: as [`read_rule_at`].
/// (Reference, rules types.)
pub fn write_rule_at<'a>(
    arena: &'a Bump,
    scene: &'a Scene<'a>,
    coming: &Option<View<'a>>,
    keys: &[&'a Key],
) -> Result<Option<PlacedRule<'a>>, NoMemory>
    requires { length keys.now ≤ most_keys }
    ensures { IfOk result (λ rule. option_map placed_of rule ≡ rule_at (writing (scene_of scene.now) (tree_or_null coming.now)) WriteKind (path_by keys.now)) }
{
    let asking = Asking {
        arena,
        scene,
        access: Access::Writes(root_of(arena, coming)?),
        kind: Kind::Write,
        spare: None,
    };
    rule_along(&asking, keys)
}

/// The `.validate` that stands at a path, if one does, asked for writes that propose this tree: as [`read_rule_at`].
/// Whether something is proposed there, it leaves open. (Reference, rules types.)
pub fn validate_rule_at<'a>(
    arena: &'a Bump,
    scene: &'a Scene<'a>,
    coming: &Option<View<'a>>,
    keys: &[&'a Key],
) -> Result<Option<PlacedRule<'a>>, NoMemory>
    requires { length keys.now ≤ most_keys }
    ensures { IfOk result (λ rule. option_map placed_of rule ≡ rule_at (writing (scene_of scene.now) (tree_or_null coming.now)) ValidateKind (path_by keys.now)) }
{
    let asking = Asking {
        arena,
        scene,
        access: Access::Writes(root_of(arena, coming)?),
        kind: Kind::Validate,
        spare: None,
    };
    rule_along(&asking, keys)
}

// The rule for the path of these keys, if there is one.
fn rule_along<'a>(asking: &Asking<'a>, keys: &[&'a Key]) -> Result<Option<PlacedRule<'a>>, NoMemory>
    requires few { length keys.now ≤ most_keys }
    requires asks { AsksFor asking.now.kind (question_of asking.now).request }
    requires root { access_of asking.now.access ≡ access_at (question_of asking.now).request [] }
    ensures { IfOk result (λ rule. option_map placed_of rule ≡ rule_at (question_of asking.now) asking.now.kind (path_by keys.now)) }
{
    let mut spot = at_root(asking)?;
    let mut captures = Captures::new(asking.arena);
    let there = walk(asking, &mut spot, keys, &mut captures)?;
    if !there {
        return Ok(None);
    }
    rule_here(asking, &spot, captures)
}

// Moves a spot down along these keys, and says whether a rule node is there.
fn walk<'a>(
    asking: &Asking<'a>,
    spot: &mut Spot<'a>,
    keys: &[&'a Key],
    captures: &mut Captures<'a, &'a Bump>,
) -> Result<bool, NoMemory>
    requires here { Stands asking.now spot.old captures.old }
    requires room { length (path_of spot.old) + length keys.now ≤ most_keys }
    ensures { IfOk result (IsReached asking.now (path_of spot.old ++ path_by keys.now) spot.new captures.new) }
{
    match keys {
        [] => Ok(true),
        [key, rest @ ..] => {
            let there = enter(asking, spot, key, captures)?;
            if !there {
                return Ok(false);
            }
            walk(asking, spot, rest, captures)
        }
    }
}

// The rule of the kind that is asked at a spot, if its object states one.
fn rule_here<'a>(
    asking: &Asking<'a>,
    spot: &Spot<'a>,
    captures: Captures<'a, &'a Bump>,
) -> Result<Option<PlacedRule<'a>>, NoMemory>
    requires { Stands asking.now spot.now captures }
    ensures { IfOk result (λ rule. option_map placed_of rule ≡ rule_at (question_of asking.now) asking.now.kind (path_of spot.now)) }
{
    let Some(rule) = spot.rule.rule(asking.kind) else {
        return Ok(None);
    };
    let answer = answer_of(asking.arena, asking, spot, rule, &captures)?;
    Ok(Some(PlacedRule {
        node: spot.rule,
        rule,
        auth: asking.scene.auth,
        moment: asking.scene.moment,
        here: spot.here,
        access: spot.access,
        captures,
        answer,
    }))
}
