//! Explanations of reads and of writes.
ghost use Rattle.std.specs.Prelude.{◌≡◌, ◌++◌, map, flat_map, IfOk, OnOk};
ghost use Rattle.tree_model.specs.Put.{location};
ghost use Rattle.tree_model.specs.Write.{proposed};
ghost use Rattle.path_capture.specs.Write.{tree_or_null};
ghost use Rattle.rules_reader.specs.declared.kind.Kind.TheVariants.{Write as WriteKind};
ghost use Rattle.evaluator.specs.Asked.{asked_of as query_of};
ghost use Rattle.judge.specs.Question.{scene_of, writing};
ghost use Rattle.judge.specs.Judging.{IsReadVerdict, IsWriteVerdict};
ghost use Rattle.request_explainer.specs.Asked.{asked_of, asked_along, asked_below, asked_to_read, asked_to_write, is_write_denied};

use crate::asked::{AskedRule, Inquiry, ask_each};
use crate::places::{places_to_validate, prefixes_of};
use arena_snapshot::View;
use bumpalo::Bump;
use evaluator::Asked;
use json_tree::NoMemory;
use judge::{Scene, Verdict, judge_read, judge_write};
use path_capture::{Path, Write};
use std::alloc::Global;

/// What the rules say of a read or of writes, and each rule that is asked for it.
#[derive(Drop)]
pub struct Explanation<'a> {
    pub verdict: Verdict,
    pub rules: Vec<AskedRule<'a>>,
}

/// Explains a read of a path with this query: the `.read` rules at it and above it, the shortest place first, as far as
/// the first that holds. Of d keys it takes at most d walks from the root, and for each rule what
/// [`explain`](explainer::explain) takes. (Guide "Core syntax", `.read` and `.write` rules cascade.)
pub fn explain_read<'a>(
    alloc: Global,
    arena: &'a Bump,
    scene: &'a Scene<'a>,
    path: &'a Path,
    asked: &'a Asked<'a>,
) -> Result<Explanation<'a>, NoMemory>
    ensures verdict { IfOk result (λ e. IsReadVerdict (scene_of scene.now) (query_of asked.now) path.now e.verdict) }
    ensures rules { IfOk result (λ e. map asked_of e.rules.items ≡ asked_to_read (scene_of scene.now) (query_of asked.now) path.now) }
{
    let verdict = judge_read(alloc, arena, scene, path, asked)?;
    let places = prefixes_of(arena, path)?;
    let mut rules = Vec::new(alloc);
    ask_each(
        alloc,
        arena,
        scene,
        Inquiry::Read(asked),
        places.as_slice(),
        &mut rules,
    )?;
    Ok(Explanation { verdict, rules })
}

/// Explains writes that propose this tree together at the moment of the scene: for each location the `.write` rules at it
/// and above it, as far as the first that holds, and where all are granted the `.validate` rules that must hold, as far as
/// the first that does not. It takes at most d walks from the root for each location of d keys, a look at each child of a
/// place above a location or below it, a walk for each of these places that exists, and for each rule what
/// [`explain`](explainer::explain) takes. (Guide "Core syntax", `.read` and `.write` rules cascade, `.validate` rules do
/// not.)
pub fn explain_writes<'a>(
    alloc: Global,
    arena: &'a Bump,
    scene: &'a Scene<'a>,
    coming: &'a Option<View<'a>>,
    writes: &'a [Write],
) -> Result<Explanation<'a>, NoMemory>
    requires { tree_or_null coming.now ≡ proposed (tree_or_null scene.now.old) writes.now scene.now.moment }
    ensures verdict { IfOk result (λ e. IsWriteVerdict (scene_of scene.now) (tree_or_null coming.now) (map location writes.now) e.verdict) }
    ensures rules { IfOk result (λ e. map asked_of e.rules.items ≡ asked_to_write (scene_of scene.now) (tree_or_null coming.now) (map location writes.now) e.verdict) }
{
    let verdict = judge_write(alloc, arena, scene, shared(coming), writes)?;
    let mut rules = Vec::new(alloc);
    ask_for_grants(alloc, arena, scene, coming, writes, &mut rules)?;
    let denied = is_denied_for_write(&verdict);
    if !denied {
        ask_for_validity(alloc, arena, scene, coming, writes, &mut rules)?;
    }
    Ok(Explanation { verdict, rules })
}

// Appends the `.write` rules that are asked for each location.
fn ask_for_grants<'a>(
    alloc: Global,
    arena: &'a Bump,
    scene: &'a Scene<'a>,
    coming: &'a Option<View<'a>>,
    writes: &'a [Write],
    rules: &mut Vec<AskedRule<'a>>,
) -> Result<(), NoMemory>
    ensures { OnOk result (map asked_of rules.new.items ≡ map asked_of rules.old.items ++ flat_map (asked_along (writing (scene_of scene.now) (tree_or_null coming.now)) WriteKind) (map location writes.now)) }
{
    for write in writes {
        let places = prefixes_of(arena, write.at())?;
        ask_each(
            alloc,
            arena,
            scene,
            Inquiry::Write(coming),
            places.as_slice(),
            rules,
        )?;
    }
    Ok(())
}

// Appends the `.validate` rules that are asked where all locations are granted.
fn ask_for_validity<'a>(
    alloc: Global,
    arena: &'a Bump,
    scene: &'a Scene<'a>,
    coming: &'a Option<View<'a>>,
    writes: &'a [Write],
    rules: &mut Vec<AskedRule<'a>>,
) -> Result<(), NoMemory>
    ensures { OnOk result (map asked_of rules.new.items ≡ map asked_of rules.old.items ++ asked_below (writing (scene_of scene.now) (tree_or_null coming.now)) (tree_or_null coming.now) (map location writes.now)) }
{
    let places = places_to_validate(arena, coming, writes)?;
    ask_each(
        alloc,
        arena,
        scene,
        Inquiry::Validate(coming),
        places.as_slice(),
        rules,
    )?;
    Ok(())
}

fn is_denied_for_write(verdict: &Verdict) -> bool
    ensures { result ≡ is_write_denied verdict.now }
{
    matches!(verdict, Verdict::WriteDenied(_, _))
}

// The same tree once more.
fn shared<'a>(coming: &Option<View<'a>>) -> Option<View<'a>>
    ensures { result ≡ coming.now }
{
    match coming {
        Some(view) => Some(view.share()),
        None => None,
    }
}
