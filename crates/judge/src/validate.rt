//! Validation: the first failing place.
//!
//! A walk returns whether each `.validate` holds. Where one does not, it reports the failure in a place that
//! the caller provides: so what is returned goes in registers, and where all hold nothing is made of a failure.
ghost use Rattle.std.specs.Prelude.{◌≡◌, ◌≤◌, ◌<◌, length, map, reverse, None, is_none, IfOk, OnOk};
ghost use Rattle.tree_model.specs.declared.limits.TheConstants.{MAX_DEPTH as most_keys};
ghost use Rattle.tree_model.specs.Tree.{IsLawful};
ghost use Rattle.rules_reader.specs.declared.kind.Kind.TheVariants.{Validate as ValidateKind};
ghost use Rattle.judge.specs.Working.Standing.{ask_of, path_of, coming_of, Stands};
ghost use Rattle.judge.specs.Working.Locations.{paths, rests, PathsAscend, AllBegin};
ghost use Rattle.judge.specs.Working.Found.{Found, FailsFrom, Below, Near, IsToldHere, IsToldBelow, FaultsHere};

use crate::grant::why_of;
use crate::locations::{group, key_at};
use crate::spot::{Asking, Spot, answer, coming, enter, leave};
use crate::verdict::Why;
use bumpalo::Bump;
use json_tree::{Key, NoMemory};
use path_capture::{Captures, Path, Pattern};
use std::alloc::Global;

/// A place where a `.validate` does not hold: the keys that lead there, the last first, the pattern
/// that stands there, and the reason. The list lies in the arena.
#[derive(Drop)]
pub(crate) struct Failure<'a> {
    pub(crate) keys: Vec<&'a Key, &'a Bump>,
    pub(crate) pattern: &'a Pattern,
    pub(crate) why: Why,
}

// Whether the `.validate` of the node holds at the spot, if one is stated.
fn holds_here<'a>(
    asking: &Asking<'a>,
    spot: &Spot<'a>,
    captures: &Captures<'a, &'a Bump>,
    failure: &mut Option<Failure<'a>>,
) -> Result<bool, NoMemory>
    requires here { Stands asking.now spot.now captures.now }
    requires none { failure.old ≡ None }
    ensures told { IfOk result (λ holds. holds ≡ is_none failure.new) }
    ensures found { OnOk result (FaultsHere (ask_of asking.now) (path_of spot.now) failure.new) }
{
    let answer = answer(asking, spot, captures)?;
    match why_of(answer) {
        Some(why) => {
            tell(asking, spot, why, failure);
            Ok(false)
        }
        None => Ok(true),
    }
}

// Whether each `.validate` at the spot and below it holds; where not, it reports the first failing place. Where no
// `.validate` is stated there or below, nothing is looked at.
#[cycle(everywhere)]
fn everywhere<'a>(
    asking: &Asking<'a>,
    spot: &Spot<'a>,
    captures: &mut Captures<'a, &'a Bump>,
    failure: &mut Option<Failure<'a>>,
) -> Result<bool, NoMemory>
    requires here { Stands asking.now spot.now captures.old }
    requires kind { asking.now.kind ≡ ValidateKind }
    requires lawful { IsLawful (coming_of asking.now) }
    requires none { failure.old ≡ None }
    ensures told { IfOk result (λ all. all ≡ is_none failure.new) }
    ensures found { OnOk result (Found (FailsFrom (ask_of asking.now) (coming_of asking.now) (path_of spot.now)) failure.new) }
    ensures back { OnOk result (captures.new ≡ captures.old) }
{
    if !spot.rule.has_validate() {
        return Ok(true);
    }
    let Some(view) = coming(spot) else {
        return Ok(true);
    };
    let own = holds_here(asking, spot, captures, failure)?;
    if !own {
        return Ok(false);
    }
    for i in 0..view.width() {
        let Some(key) = view.key_at(i) else {
            unreachable!()
        };
        let below = everywhere_below(asking, spot, key, captures, failure)?;
        if !below {
            add_key(failure, key)?;
            return Ok(false);
        }
    }
    Ok(true)
}

// The same below a key.
#[cycle(everywhere)]
fn everywhere_below<'a>(
    asking: &Asking<'a>,
    spot: &Spot<'a>,
    key: &'a Key,
    captures: &mut Captures<'a, &'a Bump>,
    failure: &mut Option<Failure<'a>>,
) -> Result<bool, NoMemory>
    requires here { Stands asking.now spot.now captures.old }
    requires kind { asking.now.kind ≡ ValidateKind }
    requires lawful { IsLawful (coming_of asking.now) }
    requires room { length (path_of spot.now) < most_keys }
    requires none { failure.old ≡ None }
    ensures told { IfOk result (λ all. all ≡ is_none failure.new) }
    ensures found { OnOk result (Found (Below key.now (FailsFrom (ask_of asking.now) (coming_of asking.now) (path_of spot.now))) failure.new) }
    ensures back { OnOk result (captures.new ≡ captures.old) }
{
    let mut next = *spot;
    let there = enter(asking, &mut next, key, captures)?;
    if !there {
        return Ok(true);
    }
    let all = everywhere(asking, &next, captures, failure)?;
    leave(&next, captures);
    Ok(all)
}

/// Whether each `.validate` holds that touches one of these locations, at the spot or below it; where not, it
/// reports the first failing place. It is a walk in the order of paths, which goes into no branch where neither a
/// location leads nor anything was written, or where no `.validate` is stated, and behind no failing place. Each
/// `.validate` that stands where something exists is asked once.
#[cycle(towards)]
pub(crate) fn towards<'a>(
    asking: &Asking<'a>,
    spot: &Spot<'a>,
    locations: &'a [&'a Path],
    captures: &mut Captures<'a, &'a Bump>,
    failure: &mut Option<Failure<'a>>,
) -> Result<bool, NoMemory>
    requires here { Stands asking.now spot.now captures.old }
    requires kind { asking.now.kind ≡ ValidateKind }
    requires lawful { IsLawful (coming_of asking.now) }
    requires sorted { PathsAscend (rests (length (path_of spot.now)) (paths locations.now)) }
    requires none { failure.old ≡ None }
    ensures told { IfOk result (λ all. all ≡ is_none failure.new) }
    ensures found { OnOk result (Found (Near (rests (length (path_of spot.now)) (paths locations.now)) (FailsFrom (ask_of asking.now) (coming_of asking.now) (path_of spot.now))) failure.new) }
    ensures back { OnOk result (captures.new ≡ captures.old) }
{
    let depth = spot.here.depth();
    if locations.is_empty() {
        return Ok(true);
    }
    if !spot.rule.has_validate() {
        return Ok(true);
    }
    // The least location ends here: all that is below was written.
    let Some(_) = key_at(locations[0], depth) else {
        let all = everywhere(asking, spot, captures, failure)?;
        return Ok(all);
    };
    let Some(_) = coming(spot) else {
        return Ok(true);
    };
    let above = holds_here(asking, spot, captures, failure)?;
    if !above {
        return Ok(false);
    }
    let mut start = 0;
    while start < locations.len() {
        let Some(key) = key_at(locations[start], depth) else {
            unreachable!()
        };
        let group = group(locations, start, depth, key);
        let below = towards_below(asking, spot, key, group, captures, failure)?;
        if !below {
            add_key(failure, key)?;
            return Ok(false);
        }
        start += group.len();
    }
    Ok(true)
}

// The same below a key with which all these locations go on.
#[cycle(towards)]
fn towards_below<'a>(
    asking: &Asking<'a>,
    spot: &Spot<'a>,
    key: &'a Key,
    locations: &'a [&'a Path],
    captures: &mut Captures<'a, &'a Bump>,
    failure: &mut Option<Failure<'a>>,
) -> Result<bool, NoMemory>
    requires here { Stands asking.now spot.now captures.old }
    requires kind { asking.now.kind ≡ ValidateKind }
    requires lawful { IsLawful (coming_of asking.now) }
    requires sorted { PathsAscend (rests (length (path_of spot.now)) (paths locations.now)) }
    requires begin { AllBegin key.now (length (path_of spot.now)) (paths locations.now) }
    requires room { length (path_of spot.now) < most_keys }
    requires none { failure.old ≡ None }
    ensures told { IfOk result (λ all. all ≡ is_none failure.new) }
    ensures found { OnOk result (Found (Below key.now (Near (rests (length (path_of spot.now)) (paths locations.now)) (FailsFrom (ask_of asking.now) (coming_of asking.now) (path_of spot.now)))) failure.new) }
    ensures back { OnOk result (captures.new ≡ captures.old) }
{
    let mut next = *spot;
    let there = enter(asking, &mut next, key, captures)?;
    if !there {
        return Ok(true);
    }
    let all = towards(asking, &next, locations, captures, failure)?;
    leave(&next, captures);
    Ok(all)
}

// ---- what is reported of a failure
//
// The two below stay functions of their own, since room for what they make would be made and cleared at each node.

// Reports that the `.validate` of the node at the spot fails, and why.
#[inline(never)]
fn tell<'a>(asking: &Asking<'a>, spot: &Spot<'a>, why: Why, failure: &mut Option<Failure<'a>>)
    ensures { IsToldHere (spot.now.rule.now.at, why) failure.new }
{
    *failure = Some(Failure {
        keys: Vec::new(asking.arena),
        pattern: spot.rule.pattern(),
        why,
    });
}

// Adds the key above it to the report of the same failure.
#[inline(never)]
fn add_key<'a>(failure: &mut Option<Failure<'a>>, key: &'a Key) -> Result<(), NoMemory>
    ensures { OnOk result (IsToldBelow key.now failure.old failure.new) }
{
    match failure {
        Some(failure) => failure.keys.push(key)?,
        None => {}
    }
    Ok(())
}

/// The place of a failure: a growth for the list and one at most for each key.
pub(crate) fn place_of(alloc: Global, keys: &[&Key]) -> Result<Path, NoMemory>
    requires { length keys.now ≤ most_keys }
    ensures { IfOk result (λ path. path ≡ map (λ key. key.now) (reverse keys.now)) }
{
    let mut path = Vec::with_capacity(alloc, keys.len())?;
    let mut left = keys.len();
    while left > 0 {
        path.push(keys[left - 1].copy(alloc)?)?;
        left -= 1;
    }
    Ok(Path::of_keys(path))
}
