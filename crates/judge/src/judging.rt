//! Judging a read, and writes.
ghost use Rattle.std.specs.Prelude.{◌≡◌, ◌↔◌, [], ◌∷◌, true, map, IfOk, OnOk, MatchOption};
ghost use Rattle.tree_model.specs.Put.{location};
ghost use Rattle.tree_model.specs.Write.{proposed};
ghost use Rattle.path_capture.specs.Write.{tree_or_null};
ghost use Rattle.evaluator.specs.Asked.{asked_of};
ghost use Rattle.judge.specs.Question.{scene_of, access_at, reading};
ghost use Rattle.rules_reader.specs.declared.kind.Kind.TheVariants.{Read as ReadKind, Write as WriteKind, Validate as ValidateKind};
ghost use Rattle.judge.specs.declared.verdict.Verdict.TheVariants.{WriteDenied};
ghost use Rattle.tree_model.specs.Tree.{IsLawful};
ghost use Rattle.judge.specs.Failing.{IsValid};
ghost use Rattle.judge.specs.Judging.{IsReadVerdict, IsWriteVerdict, MayRead, MayWriteAll, read_verdict_of};
ghost use Rattle.judge.specs.Working.Refused.{IsDenialAlong};
ghost use Rattle.judge.specs.Working.Standing.{StandsAtRoot, AsksFor, ask_of, question_of, coming_of};
ghost use Rattle.evaluator.specs.Env.{access_of};
ghost use Rattle.judge.specs.Working.Locations.{paths, PathsAscend};

use crate::borrowed::BorrowedNames;
use crate::grant::{all_granted_from, asked_along, granted_along, named};
use crate::locations::sort;
use crate::scene::Scene;
use crate::spot::{Asking, Spare, Spot};
use crate::validate::{place_of, towards};
use crate::verdict::Verdict;
use arena_snapshot::View;
use bumpalo::Bump;
use evaluator::{Access, Asked, Snapshot};
use json_tree::NoMemory;
use path_capture::{Captures, Path, Write};
use rules_reader::Kind;
use std::alloc::Global;

/// Judges a read of a path with this query: granted exactly where a `.read` holds at the path or above
/// it, else denied with all `.read` rules there. Of d keys, d · log w in nodes of w children, and each
/// rule on the way once; the arena takes a place for each key, the captures on the way, what expressions make and
/// the list of the rules that denied, other memory the names of a denial. Nothing grows with what is stored
/// beside the path. (Guide "Core syntax", `.read` and `.write` rules cascade.)
pub fn judge_read<'a>(
    alloc: Global,
    arena: &'a Bump,
    scene: &'a Scene<'a>,
    path: &'a Path,
    asked: &'a Asked<'a>,
) -> Result<Verdict, NoMemory>
    ensures { IfOk result (IsReadVerdict (scene_of scene.now) (asked_of asked.now) path.now) }
{
    match read_denial(arena, scene, path, asked)? {
        Some(names) => Ok(Verdict::ReadDenied(names.copy(alloc)?)),
        None => Ok(Verdict::Granted),
    }
}

/// Why a read of a path with this query is denied, if it is: what [`judge_read`] finds, with the names borrowed, so
/// that it takes memory of the arena alone. Of d keys, d · log w in nodes of w children, and each rule on the way at
/// most once, none behind the first that holds. (Guide "Core syntax", `.read` and `.write` rules cascade.)
pub fn read_denial<'a>(
    arena: &'a Bump,
    scene: &'a Scene<'a>,
    path: &'a Path,
    asked: &'a Asked<'a>,
) -> Result<Option<BorrowedNames<'a>>, NoMemory>
    ensures { IfOk result (λ denial. IsReadVerdict (scene_of scene.now) (asked_of asked.now) path.now (read_verdict_of denial)) }
{
    let asking = reading(arena, scene, asked);
    let spot = at_root(&asking)?;
    denial_along(&asking, &spot, path)
}

/// Whether a read of a path with this query is granted: what [`judge_read`] finds, where no names are
/// wanted. Of d keys, d · log w in nodes of w children, and each rule on the way at most once, none behind
/// the first that holds; the arena takes a place for each key, the captures on the way and what expressions
/// make. (Guide "Core syntax", `.read` and `.write` rules cascade.)
pub fn may_read<'a>(
    arena: &'a Bump,
    scene: &'a Scene<'a>,
    path: &'a Path,
    asked: &'a Asked<'a>,
) -> Result<bool, NoMemory>
    ensures { IfOk result (λ granted. (granted ≡ true) ↔ MayRead (scene_of scene.now) (asked_of asked.now) path.now) }
{
    let asking = reading(arena, scene, asked);
    let spot = at_root(&asking)?;
    let mut captures = Captures::new(arena);
    granted_along(&asking, &spot, path.keys(), &mut captures)
}

/// Judges writes that propose this tree together at the moment of the scene: denied for write at the least location where no
/// `.write` holds at it or above it, with all `.write` rules there; else denied for validate at the
/// first failing place, with its pattern and the reason; else granted. The locations are sorted once,
/// whatever their order. A `.write` is evaluated once for all locations below it, and none behind the
/// first location that is not granted; a `.validate` is evaluated only at places that exist in the
/// proposed tree, above a location or in what is written, and none behind the first that fails. Nothing
/// grows with what is stored beside the locations: of n locations of d keys, n · log n comparisons, d ·
/// log w steps for each, and what is written. The arena takes the list of locations, of more than one, two places
/// for each step, the captures on the way, one list for both kinds of rules, what expressions make and the list of the
/// rules that denied; other memory the names of a denial. (Guide "Core syntax", `.read` and `.write` rules
/// cascade, `.validate` rules do not.)
pub fn judge_write<'a>(
    alloc: Global,
    arena: &'a Bump,
    scene: &'a Scene<'a>,
    coming: Option<View<'a>>,
    writes: &'a [Write],
) -> Result<Verdict, NoMemory>
    requires { tree_or_null coming ≡ proposed (tree_or_null scene.now.old) writes.now scene.now.moment }
    ensures { IfOk result (IsWriteVerdict (scene_of scene.now) (proposed (tree_or_null scene.now.old) writes.now scene.now.moment) (map location writes.now)) }
{
    match writes {
        [write] => judge_one(alloc, arena, scene, &coming, write),
        _ => judge_all(alloc, arena, scene, &coming, writes),
    }
}

/// Why one write, which proposes this tree, is denied for write, if it is: what [`judge_write`] finds, with the names
/// borrowed, so that it takes memory of the arena alone. Of d keys, d · log w in nodes of w children, and each rule on
/// the way at most once, none behind the first that holds. (Guide "Core syntax", `.read` and `.write` rules cascade.)
pub fn write_denial<'a>(
    arena: &'a Bump,
    scene: &'a Scene<'a>,
    coming: &Option<View<'a>>,
    write: &'a Write,
) -> Result<Option<BorrowedNames<'a>>, NoMemory>
    ensures { IfOk result (λ names. MatchOption names (MayWriteAll (scene_of scene.now) (tree_or_null coming.now) (location write.now ∷ [])) (λ names. IsWriteVerdict (scene_of scene.now) (tree_or_null coming.now) (location write.now ∷ []) (WriteDenied (location write.now) names))) }
{
    let top = root_of(arena, coming)?;
    let asking = Asking {
        arena,
        scene,
        access: Access::Writes(top),
        kind: Kind::Write,
        spare: None,
    };
    let spot = at_root(&asking)?;
    denial_along(&asking, &spot, write.at())
}

/// The verdict on one write that is not denied for write, by its `.validate` rules: what [`judge_write`] finds. Of d
/// keys, d · log w in nodes of w children, and what is written; the arena takes what [`judge_write`] takes of it, other
/// memory the place and the pattern of a failure. (Guide "Core syntax", `.validate` rules do not cascade.)
pub fn judge_granted<'a>(
    alloc: Global,
    arena: &'a Bump,
    scene: &'a Scene<'a>,
    coming: &'a Option<View<'a>>,
    write: &'a Write,
) -> Result<Verdict, NoMemory>
    requires { MayWriteAll (scene_of scene.now) (tree_or_null coming.now) (location write.now ∷ []) }
    ensures { IfOk result (IsWriteVerdict (scene_of scene.now) (tree_or_null coming.now) (location write.now ∷ [])) }
{
    validated(alloc, arena, scene, coming, &[write.at()])
}

// The verdict on writes that are granted.
fn validated<'a>(
    alloc: Global,
    arena: &'a Bump,
    scene: &'a Scene<'a>,
    coming: &'a Option<View<'a>>,
    locations: &'a [&'a Path],
) -> Result<Verdict, NoMemory>
    requires sorted { PathsAscend (paths locations.now) }
    requires granted { MayWriteAll (scene_of scene.now) (tree_or_null coming.now) (paths locations.now) }
    ensures { IfOk result (IsWriteVerdict (scene_of scene.now) (tree_or_null coming.now) (paths locations.now)) }
{
    law_of(coming);
    let top = root_of(arena, coming)?;
    let asking = Asking {
        arena,
        scene,
        access: Access::Writes(top),
        kind: Kind::Validate,
        spare: Some(Spare::new(alloc, arena)),
    };
    let spot = at_root(&asking)?;
    let mut captures = Captures::new(arena);
    let failed = validate_denied(alloc, &asking, &spot, locations, &mut captures)?;
    match failed {
        Some(verdict) => Ok(verdict),
        None => Ok(Verdict::Granted),
    }
}

// The rules that are asked along a path from the root, where none of them holds.
fn denial_along<'a>(
    asking: &Asking<'a>,
    spot: &Spot<'a>,
    path: &'a Path,
) -> Result<Option<BorrowedNames<'a>>, NoMemory>
    requires { StandsAtRoot asking.now spot.now }
    ensures { IfOk result (IsDenialAlong (ask_of asking.now) path.now) }
{
    let mut captures = Captures::new(asking.arena);
    let keys = path.keys();
    let mut asked = Vec::with_capacity(asking.arena, keys.len().saturating_add(1))?;
    let granted = asked_along(asking, spot, keys, &mut captures, &mut asked)?;
    if granted {
        return Ok(None);
    }
    Ok(Some(BorrowedNames::of_vec(asked)))
}

// The same of one write, with names of its own.
fn judge_one<'a>(
    alloc: Global,
    arena: &'a Bump,
    scene: &'a Scene<'a>,
    coming: &'a Option<View<'a>>,
    write: &'a Write,
) -> Result<Verdict, NoMemory>
    ensures { IfOk result (IsWriteVerdict (scene_of scene.now) (tree_or_null coming.now) (location write.now ∷ [])) }
{
    if let Some(names) = write_denial(arena, scene, coming, write)? {
        let location = write.at().copy(alloc)?;
        return Ok(Verdict::WriteDenied(location, names.copy(alloc)?));
    }
    judge_granted(alloc, arena, scene, coming, write)
}

// The same of writes in any order.
fn judge_all<'a>(
    alloc: Global,
    arena: &'a Bump,
    scene: &'a Scene<'a>,
    coming: &'a Option<View<'a>>,
    writes: &'a [Write],
) -> Result<Verdict, NoMemory>
    ensures { IfOk result (IsWriteVerdict (scene_of scene.now) (tree_or_null coming.now) (map location writes.now)) }
{
    let mut locations = locations_of(arena, writes)?;
    sort(&mut locations);
    judge_ordered(alloc, arena, scene, coming, locations.as_slice())
}

// The same, of locations in their order.
fn judge_ordered<'a>(
    alloc: Global,
    arena: &'a Bump,
    scene: &'a Scene<'a>,
    coming: &'a Option<View<'a>>,
    locations: &'a [&'a Path],
) -> Result<Verdict, NoMemory>
    requires { PathsAscend (paths locations.now) }
    ensures { IfOk result (IsWriteVerdict (scene_of scene.now) (tree_or_null coming.now) (paths locations.now)) }
{
    law_of(coming);
    let root = root_of(arena, coming)?;
    let spare = Spare::new(alloc, arena);
    let asking = Asking {
        arena,
        scene,
        access: Access::Writes(root),
        kind: Kind::Write,
        spare: Some(spare),
    };
    let spot = at_root(&asking)?;
    let mut captures = Captures::new(arena);
    let refused = write_denied(alloc, &asking, &spot, locations, &mut captures)?;
    if let Some(verdict) = refused {
        return Ok(verdict);
    }
    let validating = Asking {
        arena,
        scene,
        access: Access::Writes(root),
        kind: Kind::Validate,
        spare: Some(spare),
    };
    let failed = validate_denied(alloc, &validating, &spot, locations, &mut captures)?;
    if let Some(verdict) = failed {
        return Ok(verdict);
    }
    Ok(Verdict::Granted)
}

// The denial for write, if some location is not granted.
fn write_denied<'a>(
    alloc: Global,
    asking: &Asking<'a>,
    spot: &Spot<'a>,
    locations: &'a [&'a Path],
    captures: &mut Captures<'a, &'a Bump>,
) -> Result<Option<Verdict>, NoMemory>
    requires root { StandsAtRoot asking.now spot.now }
    requires kind { asking.now.kind ≡ WriteKind }
    requires sorted { PathsAscend (paths locations.now) }
    requires none { captures.old ≡ [] }
    ensures back { OnOk result (captures.new ≡ []) }
    ensures denied { IfOk result (λ denied. MatchOption denied (MayWriteAll (scene_of asking.now.scene.now) (coming_of asking.now) (paths locations.now)) (IsWriteVerdict (scene_of asking.now.scene.now) (coming_of asking.now) (paths locations.now))) }
{
    let mut denial = None;
    all_granted_from(asking, spot, locations, captures, &mut denial)?;
    match denial {
        Some(denial) => {
            let rules = named(alloc, denial.seen.as_slice())?;
            let location = denial.location.copy(alloc)?;
            Ok(Some(Verdict::WriteDenied(location, rules)))
        }
        None => Ok(None),
    }
}

// The denial for validate, if a `.validate` fails.
fn validate_denied<'a>(
    alloc: Global,
    asking: &Asking<'a>,
    spot: &Spot<'a>,
    locations: &'a [&'a Path],
    captures: &mut Captures<'a, &'a Bump>,
) -> Result<Option<Verdict>, NoMemory>
    requires root { StandsAtRoot asking.now spot.now }
    requires kind { asking.now.kind ≡ ValidateKind }
    requires lawful { IsLawful (coming_of asking.now) }
    requires sorted { PathsAscend (paths locations.now) }
    requires granted { MayWriteAll (scene_of asking.now.scene.now) (coming_of asking.now) (paths locations.now) }
    requires none { captures.old ≡ [] }
    ensures { IfOk result (λ denied. MatchOption denied (IsValid (scene_of asking.now.scene.now) (coming_of asking.now) (paths locations.now)) (IsWriteVerdict (scene_of asking.now.scene.now) (coming_of asking.now) (paths locations.now))) }
{
    let mut failure = None;
    towards(asking, spot, locations, captures, &mut failure)?;
    match failure {
        Some(failure) => {
            let place = place_of(alloc, failure.keys.as_slice())?;
            let pattern = failure.pattern.copy()?;
            pattern.law();
            let why = failure.why;
            Ok(Some(Verdict::ValidateDenied(place, pattern, why)))
        }
        None => Ok(None),
    }
}

// What a read asks.
pub(crate) fn reading<'a>(arena: &'a Bump, scene: &'a Scene<'a>, asked: &'a Asked<'a>) -> Asking<'a>
    ensures question { question_of result ≡ reading (scene_of scene.now) (asked_of asked.now) }
    ensures kind { result.kind ≡ ReadKind }
    ensures asks { AsksFor result.kind (question_of result).request }
    ensures root { access_of result.access ≡ access_at (question_of result).request [] }
{
    Asking {
        arena,
        scene,
        access: Access::Reads(asked),
        kind: Kind::Read,
        spare: None,
    }
}

// Where a walk begins: at the root.
pub(crate) fn at_root<'a>(asking: &Asking<'a>) -> Result<Spot<'a>, NoMemory>
    requires asks { AsksFor asking.now.kind (question_of asking.now).request }
    requires root { access_of asking.now.access ≡ access_at (question_of asking.now).request [] }
    ensures { IfOk result (StandsAtRoot asking.now) }
{
    let rule = asking.scene.rules.root();
    let here = root_of(asking.arena, &asking.scene.old)?;
    Ok(Spot {
        rule,
        here,
        access: asking.access,
    })
}

// What holds of a view holds of the tree, also where there is none.
fn law_of(view: &Option<View>)
    ensures { IsLawful (tree_or_null view.now) }
{
    match view {
        Some(view) => view.law(),
        None => {}
    }
}

// The root of a tree, in the arena.
pub(crate) fn root_of<'a>(
    arena: &'a Bump,
    view: &Option<View<'a>>,
) -> Result<&'a Snapshot<'a>, NoMemory>
    ensures { IfOk result (λ root. root.now ≡ (tree_or_null view.now, [])) }
{
    let view = match view {
        Some(view) => Some(view.share()),
        None => None,
    };
    Ok(arena.try_alloc(Snapshot::root(view))?)
}

// The location of each write.
fn locations_of<'a>(
    arena: &'a Bump,
    writes: &'a [Write],
) -> Result<Vec<&'a Path, &'a Bump>, NoMemory>
    ensures { IfOk result (λ locations. paths locations.items ≡ map location writes.now) }
{
    let mut locations = Vec::with_capacity(arena, writes.len())?;
    for write in writes {
        locations.push(write.at())?;
    }
    Ok(locations)
}
