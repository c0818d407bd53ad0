//! Who may: the first location that no rule grants, and the rules that were asked for it.
//!
//! A walk over locations returns whether all are granted. Where one is not, it reports the denial in a place
//! that the caller provides: so what is returned goes in registers, and where all are granted nothing is made
//! of a denial.
ghost use Rattle.std.specs.List.{cons_option};
ghost use Rattle.std.specs.Prelude.{◌≡◌, ◌+◌, ◌++◌, ◌≤◌, ◌<◌, [], None, is_none, length, option_map, option_and_then, IfOk, OnOk};
ghost use Rattle.tree_model.specs.declared.limits.TheConstants.{MAX_DEPTH as most_keys};
ghost use Rattle.rules_reader.specs.Part.{texts, Pattern as Parts};
ghost use Rattle.judge.specs.Answers.{why_of};
ghost use Rattle.judge.specs.Tests.{holds, failing, name_of};
ghost use Rattle.judge.specs.Working.Standing.{ask_of, path_of, Stands};
ghost use Rattle.judge.specs.Working.Locations.{paths, AllBegin};
ghost use Rattle.judge.specs.Working.Refused.{granted_below, granted_from, names_below, names_from, seen_names, Refuses, IsToldOf, IsToldWith, IsAskedAlong};

use crate::borrowed::BorrowedName;
use crate::locations::{group, key_at};
use crate::spot::{Asking, Spot, answer, enter, leave};
use crate::verdict::{Named, NamedRules, Why};
use bumpalo::Bump;
use evaluator::Outcome;
use json_tree::{Key, NoMemory};
use path_capture::{Captures, Path, Pattern};
use std::alloc::Global;

/// A rule that was asked and does not hold.
#[derive(Clone, Copy)]
pub(crate) struct Seen<'a> {
    pub(crate) pattern: &'a Pattern,
    pub(crate) why: Why,
}

/// A location that no rule grants, and the rules that were asked for it, the deepest first, in the arena.
#[derive(Drop)]
pub(crate) struct Denial<'a> {
    pub(crate) location: &'a Path,
    pub(crate) seen: Vec<Seen<'a>, &'a Bump>,
}

// Whether for each of these locations a rule holds properly below the spot; where not, it reports the denial of the
// first for which none does.
#[cycle(all_granted)]
fn all_granted_below<'a>(
    asking: &Asking<'a>,
    spot: &Spot<'a>,
    locations: &'a [&'a Path],
    captures: &mut Captures<'a, &'a Bump>,
    denial: &mut Option<Denial<'a>>,
) -> Result<bool, NoMemory>
    requires here { Stands asking.now spot.now captures.old }
    requires none { denial.old ≡ None }
    ensures told { IfOk result (λ all. all ≡ is_none denial.new) }
    ensures refuses { OnOk result (Refuses (granted_below (ask_of asking.now) (path_of spot.now)) (names_below (ask_of asking.now) (path_of spot.now)) (length (path_of spot.now)) (paths locations.now) denial.new) }
    ensures back { OnOk result (captures.new ≡ captures.old) }
{
    let depth = spot.here.depth();
    let mut start = 0;
    while start < locations.len() {
        let location = locations[start];
        let Some(key) = key_at(location, depth) else {
            deny(asking, location, denial);
            return Ok(false);
        };
        let group = group(locations, start, depth, key);
        let below = all_granted_at_key(asking, spot, key, group, captures, denial)?;
        if !below {
            return Ok(false);
        }
        start += group.len();
    }
    Ok(true)
}

// The same of locations that all go on with one key.
#[cycle(all_granted)]
fn all_granted_at_key<'a>(
    asking: &Asking<'a>,
    spot: &Spot<'a>,
    key: &'a Key,
    locations: &'a [&'a Path],
    captures: &mut Captures<'a, &'a Bump>,
    denial: &mut Option<Denial<'a>>,
) -> Result<bool, NoMemory>
    requires here { Stands asking.now spot.now captures.old }
    requires begin { AllBegin key.now (length (path_of spot.now)) (paths locations.now) }
    requires some { 1 ≤ length locations.now }
    requires room { length (path_of spot.now) < most_keys }
    requires none { denial.old ≡ None }
    ensures told { IfOk result (λ all. all ≡ is_none denial.new) }
    ensures refuses { OnOk result (Refuses (granted_below (ask_of asking.now) (path_of spot.now)) (names_below (ask_of asking.now) (path_of spot.now)) (length (path_of spot.now)) (paths locations.now) denial.new) }
    ensures back { OnOk result (captures.new ≡ captures.old) }
{
    let mut below = *spot;
    let there = enter(asking, &mut below, key, captures)?;
    if !there {
        deny(asking, locations[0], denial);
        return Ok(false);
    }
    let all = all_granted_from(asking, &below, locations, captures, denial)?;
    leave(&below, captures);
    Ok(all)
}

/// Whether for each of these locations a rule holds at the spot or below it; where not, it reports the denial of
/// the first for which none does. Each rule on the way is asked once, also where several locations lie below it, and
/// none behind the first location that is not granted.
#[cycle(all_granted)]
pub(crate) fn all_granted_from<'a>(
    asking: &Asking<'a>,
    spot: &Spot<'a>,
    locations: &'a [&'a Path],
    captures: &mut Captures<'a, &'a Bump>,
    denial: &mut Option<Denial<'a>>,
) -> Result<bool, NoMemory>
    requires here { Stands asking.now spot.now captures.old }
    requires none { denial.old ≡ None }
    ensures told { IfOk result (λ all. all ≡ is_none denial.new) }
    ensures refuses { OnOk result (Refuses (granted_from (ask_of asking.now) (path_of spot.now)) (names_from (ask_of asking.now) (path_of spot.now)) (length (path_of spot.now)) (paths locations.now) denial.new) }
    ensures back { OnOk result (captures.new ≡ captures.old) }
{
    let own = answer(asking, spot, captures)?;
    if holds(own) {
        return Ok(true);
    }
    let below = all_granted_below(asking, spot, locations, captures, denial)?;
    if below {
        return Ok(true);
    }
    let Some(why) = why_of(own) else {
        return Ok(false);
    };
    add_rule(denial, spot.rule.pattern(), why)?;
    Ok(false)
}

/// Whether a rule holds at the spot or on the way along these keys. Each rule on the way is asked once, and
/// none behind the first that holds.
pub(crate) fn granted_along<'a>(
    asking: &Asking<'a>,
    spot: &Spot<'a>,
    keys: &'a [Key],
    captures: &mut Captures<'a, &'a Bump>,
) -> Result<bool, NoMemory>
    requires here { Stands asking.now spot.now captures.old }
    requires room { length (path_of spot.now) + length keys.now ≤ most_keys }
    ensures { IfOk result (λ granted. granted ≡ granted_from (ask_of asking.now) (path_of spot.now) keys.now) }
{
    if holds(answer(asking, spot, captures)?) {
        return Ok(true);
    }
    match keys {
        [] => Ok(false),
        [key, rest @ ..] => {
            let mut below = *spot;
            let there = enter(asking, &mut below, key, captures)?;
            if !there {
                return Ok(false);
            }
            granted_along(asking, &below, rest, captures)
        }
    }
}

/// Whether a rule holds at the spot or on the way along these keys. Each rule on the way is asked once, and none
/// behind the first that holds. Where none holds, those that were asked are listed, the shortest pattern first.
pub(crate) fn asked_along<'a>(
    asking: &Asking<'a>,
    spot: &Spot<'a>,
    keys: &'a [Key],
    captures: &mut Captures<'a, &'a Bump>,
    asked: &mut Vec<BorrowedName<'a>, &'a Bump>,
) -> Result<bool, NoMemory>
    requires here { Stands asking.now spot.now captures.old }
    requires room { length (path_of spot.now) + length keys.now ≤ most_keys }
    ensures { IfOk result (IsAskedAlong (ask_of asking.now) (path_of spot.now) keys.now asked.old.items asked.new.items) }
{
    let stated = answer(asking, spot, captures)?;
    if holds(stated) {
        return Ok(true);
    }
    list(spot, stated, asked)?;
    match keys {
        [] => Ok(false),
        [key, rest @ ..] => {
            let mut below = *spot;
            let there = enter(asking, &mut below, key, captures)?;
            if !there {
                return Ok(false);
            }
            asked_along(asking, &below, rest, captures, asked)
        }
    }
}

// Lists the rule of a spot, if it states one and that does not hold.
fn list<'a>(
    spot: &Spot<'a>,
    answer: Option<Outcome>,
    asked: &mut Vec<BorrowedName<'a>, &'a Bump>,
) -> Result<(), NoMemory>
    ensures { OnOk result (asked.new.items ≡ asked.old.items ++ cons_option (option_map name_of (failing (option_map (λ a. (spot.now.rule.now.at, a)) answer))) []) }
{
    if let Some(why) = why_of(answer) {
        asked.push(BorrowedName::of(spot.rule, why))?;
    }
    Ok(())
}

// Reports that a location is not granted, for which no rule was asked yet. It stays a function of its own, as the
// next one does, since room for what they make would be made and cleared at each node.
#[inline(never)]
fn deny<'a>(asking: &Asking<'a>, location: &'a Path, denial: &mut Option<Denial<'a>>)
    ensures { IsToldOf location.now denial.new }
{
    *denial = Some(Denial {
        location,
        seen: Vec::new(asking.arena),
    });
}

// Adds to the report of the same denial that the rule of this pattern was asked too, and why it does not hold.
#[inline(never)]
fn add_rule<'a>(
    denial: &mut Option<Denial<'a>>,
    pattern: &'a Pattern,
    why: Why,
) -> Result<(), NoMemory>
    ensures { OnOk result (IsToldWith (name_of (texts pattern.now, why)) denial.old denial.new) }
{
    pattern.law();
    match denial {
        Some(denial) => denial.seen.push(Seen { pattern, why })?,
        None => {}
    }
    Ok(())
}

fn holds(answer: Option<Outcome>) -> bool
    ensures { (pattern : Parts) → result ≡ holds (option_map (λ o. (pattern, o)) answer) }
{
    match answer {
        Some(Outcome::Yes) => true,
        Some(Outcome::No) | Some(Outcome::Erred) | None => false,
    }
}

/// Why a rule that answers so does not hold.
pub(crate) fn why_of(answer: Option<Outcome>) -> Option<Why>
    ensures { result ≡ option_and_then why_of answer }
{
    match answer {
        Some(Outcome::No) => Some(Why::No),
        Some(Outcome::Erred) => Some(Why::Erred),
        Some(Outcome::Yes) | None => None,
    }
}

/// What the denial names, shortest pattern first: a growth for the list and those of a pattern for each
/// rule.
pub(crate) fn named(alloc: Global, seen: &[Seen<'_>]) -> Result<NamedRules, NoMemory>
    ensures { IfOk result (λ named. named ≡ seen_names seen.now) }
{
    let mut named = Vec::with_capacity(alloc, seen.len())?;
    let mut left = seen.len();
    while left > 0 {
        let rule = &seen[left - 1];
        named.push(Named {
            pattern: rule.pattern.copy()?,
            why: rule.why,
        })?;
        left -= 1;
    }
    Ok(NamedRules::of_vec(named))
}
