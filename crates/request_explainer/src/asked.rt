//! The rules that are asked at places, one after another.
ghost use Rattle.std.specs.Prelude.{◌≡◌, ◌++◌, map, option_map, IfOk, OnOk};
ghost use Rattle.judge.specs.Question.{scene_of};
ghost use Rattle.judge.specs.Placed.{placed_of, rule_at};
ghost use Rattle.request_explainer.specs.Asked.{AskedRule as AnyAsked, asked_of, asked_rule};
ghost use Rattle.request_explainer.specs.Working.{question_of, kind_of, is_last, asked_at_each, places_by};

use crate::place::Place;
use arena_snapshot::View;
use bumpalo::Bump;
use evaluator::{Asked, Outcome};
use explainer::{Look, explain};
use json_tree::NoMemory;
use judge::{PlacedRule, Scene, read_rule_at, validate_rule_at, write_rule_at};
use rules_reader::Kind;
use std::alloc::Global;

/// A rule that a request asks. (Reference, rules types.)
#[derive(Drop)]
pub struct AskedRule<'a> {
    pub kind: Kind,
    /// Where the rule is asked.
    pub place: &'a Place<'a>,
    pub rule: PlacedRule<'a>,
    /// What the expression of the rule looks at, the whole last.
    pub looks: Vec<Look<'a>>,
}

/// What is asked of the rules: whether a read is granted, or whether writes are, which propose this tree, or whether
/// they are valid.
#[derive(Clone, Copy)]
pub(crate) enum Inquiry<'a> {
    Read(&'a Asked<'a>),
    Write(&'a Option<View<'a>>),
    Validate(&'a Option<View<'a>>),
}

impl<'a> Inquiry<'a> {
    fn kind(self) -> Kind
        ensures { result ≡ kind_of self.entry }
    {
        match self {
            Inquiry::Read(_) => Kind::Read,
            Inquiry::Write(_) => Kind::Write,
            Inquiry::Validate(_) => Kind::Validate,
        }
    }

    // The rule that stands at a place, if one does.
    fn rule_at(
        self,
        arena: &'a Bump,
        scene: &'a Scene<'a>,
        place: &'a Place<'a>,
    ) -> Result<Option<PlacedRule<'a>>, NoMemory>
        ensures { IfOk result (λ rule. option_map placed_of rule ≡ rule_at (question_of (scene_of scene.now) self.entry) (kind_of self.entry) place.now) }
    {
        let keys = place.keys();
        match self {
            Inquiry::Read(asked) => read_rule_at(arena, scene, asked, keys),
            Inquiry::Write(coming) => write_rule_at(arena, scene, coming, keys),
            Inquiry::Validate(coming) => validate_rule_at(arena, scene, coming, keys),
        }
    }

    // Whether no rule is asked behind one that answers so.
    fn ends_at(self, answer: Outcome) -> bool
        ensures { (asked : AnyAsked) → asked.rule.answer ≡ answer → result ≡ is_last self.entry asked }
    {
        match self {
            Inquiry::Read(_) | Inquiry::Write(_) => matches!(answer, Outcome::Yes),
            Inquiry::Validate(_) => !matches!(answer, Outcome::Yes),
        }
    }
}

/// Appends the rules that are asked at these places, one after another: as far as one that holds, or as a `.validate`
/// that does not. Each costs what the walk to its place and [`explain`] do.
pub(crate) fn ask_each<'a>(
    alloc: Global,
    arena: &'a Bump,
    scene: &'a Scene<'a>,
    inquiry: Inquiry<'a>,
    places: &[&'a Place<'a>],
    asked: &mut Vec<AskedRule<'a>>,
) -> Result<(), NoMemory>
    ensures { OnOk result (map asked_of asked.new.items ≡ map asked_of asked.old.items ++ asked_at_each (scene_of scene.now) inquiry.entry (places_by places.now)) }
{
    for place in places {
        let Some(rule) = inquiry.rule_at(arena, scene, place)? else {
            continue;
        };
        let is_last = inquiry.ends_at(rule.answer);
        asked.push(explained(alloc, arena, inquiry.kind(), place, rule)?)?;
        if is_last {
            return Ok(());
        }
    }
    Ok(())
}

// A rule that is asked at a place, with what its expression looks at.
fn explained<'a>(
    alloc: Global,
    arena: &'a Bump,
    kind: Kind,
    place: &'a Place<'a>,
    rule: PlacedRule<'a>,
) -> Result<AskedRule<'a>, NoMemory>
    ensures { IfOk result (λ asked. asked_of asked ≡ asked_rule kind place.now (placed_of rule.entry)) }
{
    let looks = explain(alloc, arena, rule.rule.expr(), &rule.env())?;
    Ok(AskedRule {
        kind,
        place,
        rule,
        looks,
    })
}
