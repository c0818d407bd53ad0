//! The search for the faults of a text that is JSON, and for their places.
ghost use Rattle.std.specs.Prelude.{◌≡◌, ◌⊎◌, ℕ, true, false, ◌<◌, length, ◌++◌, ◌∷◌, map, string_bytes, IfOk, IfSome, Some, option_map};
ghost use Rattle.std.specs.List.{AllByRecursion};
ghost use Rattle.rules_reader.specs.Part.{texts, is_capture};
ghost use Rattle.rules_reader.specs.Node.{text_of};
ghost use Rattle.serde_json.specs.View.{view};
ghost use Rattle.serde_json.specs.Data.{string};
ghost use Rattle.rules_reader.specs.File.{json_of, is_sound_member};
ghost use Rattle.rules_reader.specs.Book.{kind_name};
ghost use Rattle.diagnosis.specs.Written.{text_at, IsNamedAt};
ghost use Rattle.diagnosis.specs.Finding.{path_of, member_path, IsPlaceOf, IsPlaceOfOne, IsPlaceOfRule, IsPlaceOfMember, HasFault, HasRival, IsRight};

use crate::advice::{advice_on_fault, advice_on_member, advice_on_rival, advice_on_rule};
use crate::all_faults::MAX_FINDINGS;
use crate::finding::Finding;
use crate::shown::shown_at;
use crate::spots::{Spot, end_of_quoted};
use crate::written::{between, is_named_at, is_written_at, place_of_byte, read_text, value_at};
use json_tree::NoMemory;
use path_capture::{Part, Pattern, is_name};
use rules_reader::{
    Kind, MAX_RULES, RuleFault, RuleName, RulesFault, Unread, is_sound_member, part, read_rule,
};
use serde_json::Value;
use std::alloc::Global;
use std::cmp::Ordering;

/// A text of a rules file, what it is as JSON, and where its members are.
#[derive(Drop)]
pub(crate) struct Search<'a> {
    pub(crate) alloc: Global,
    pub(crate) text: &'a [u8],
    pub(crate) value: &'a Value,
    pub(crate) spots: &'a [Spot],
}

/// A member below `rules`: the pattern of its object, its name, and that of a capture which is written before it in the
/// same object.
#[derive(Drop)]
pub(crate) struct Member {
    pub(crate) pattern: Pattern,
    pub(crate) name: String,
    pub(crate) rival: Option<String>,
}

// The deepest member has the name `rules`, the parts of a pattern, and its own.
const MAX_NAMES: usize = 34;

impl<'a> Search<'a> {
    /// The member that a spot is, unless it stands outside of `rules` or below a name that is no part of a pattern.
    pub(crate) fn member(&self, index: usize) -> Result<Option<Member>, NoMemory> {
        let mut places = self.names_above(index)?;
        let Some(top) = places.pop() else {
            return Ok(None);
        };
        let (Some(above), Some(own)) = (self.words(top)?, places.first().copied()) else {
            return Ok(None);
        };
        if above.as_str() != "rules" {
            return Ok(None);
        }
        let Some(pattern) = self.pattern_of(&places)? else {
            return Ok(None);
        };
        let Some(name) = self.words(own)? else {
            return Ok(None);
        };
        let rival = self.rival_of(index, name.as_str())?;
        Ok(Some(Member {
            pattern,
            name,
            rival,
        }))
    }

    // The name of the first capture that is written before another in the same object.
    fn rival_of(&self, index: usize, name: &str) -> Result<Option<String>, NoMemory> {
        let Some(own) = self.spots.get(index).filter(|_| is_capture(name)) else {
            return Ok(None);
        };
        for spot in self.spots.iter().take(index) {
            if spot.parent != own.parent {
                continue;
            }
            if let Some(other) = self.words(spot.name)? {
                if is_capture(other.as_str()) && other.as_str() != name {
                    return Ok(Some(other));
                }
            }
        }
        Ok(None)
    }

    // Where the names of a member and of those above it are written, its own first; none where they are too many.
    fn names_above(&self, index: usize) -> Result<Vec<usize>, NoMemory> {
        let mut places = Vec::new(self.alloc);
        let mut at = Some(index);
        for _ in 0..=MAX_NAMES {
            let Some(spot) = at.and_then(|it| self.spots.get(it)) else {
                return Ok(places);
            };
            places.push(spot.name)?;
            at = spot.parent;
        }
        Ok(Vec::new(self.alloc))
    }

    // The pattern of the names that are written at these places, but for the first, in the other order.
    fn pattern_of(&self, places: &[usize]) -> Result<Option<Pattern>, NoMemory> {
        let mut pattern = Pattern::new(self.alloc);
        for place in places.iter().skip(1).rev() {
            let Some(name) = self.words(*place)? else {
                return Ok(None);
            };
            match part(self.alloc, name.as_str())? {
                Some(part) => pattern.push(part)?,
                None => return Ok(None),
            }
        }
        Ok(Some(pattern))
    }

    /// What the text in quotes says that begins at a place.
    pub(crate) fn words(&self, from: usize) -> Result<Option<String>, NoMemory> {
        let Some(bytes) = between(self.text, from, end_of_quoted(self.text, from)) else {
            return Ok(None);
        };
        match read_text(self.alloc, bytes)? {
            Some(Value::String(words)) => Ok(Some(words)),
            _ => Ok(None),
        }
    }

    /// The fault of a member or of the rule that it is.
    pub(crate) fn fault_of(&self, member: &Member) -> Result<Option<RulesFault>, NoMemory>
        requires { json_of self.now.text.now ≡ Some (view self.now.value.now) }
        ensures { IfOk result (λ fault. IfSome fault (HasFault self.now.text.now)) }
    {
        let Some(value) = self.value_of(&member.pattern, member.name.as_str())? else {
            return Ok(None);
        };
        if self.is_bad(&member.pattern, member, value)? {
            return Ok(Some(RulesFault::BadRulesShape(member.pattern.copy()?)));
        }
        match (kind_of(member.name.as_str()), value) {
            (Some(kind), Value::String(text)) => {
                self.fault_of_rule(&member.pattern, kind, text.as_str())
            }
            _ => Ok(None),
        }
    }

    // The value of the member of this name of the object at a pattern.
    fn value_of(&self, pattern: &Pattern, name: &str) -> Result<Option<&'a Value>, NoMemory>
        requires { json_of self.now.text.now ≡ Some (view self.now.value.now) }
        ensures { IfOk result (λ value. option_map (λ v. view v.now) value ≡ text_at (member_path (texts pattern.now) name.now) self.now.text.now) }
    {
        let path = member_path(self.alloc, pattern, name)?;
        Ok(value_at(self.value, &path))
    }

    // Whether a member of this value may not stand in the object at a pattern.
    fn is_bad(&self, pattern: &Pattern, member: &Member, value: &Value) -> Result<bool, NoMemory>
        requires { json_of self.now.text.now ≡ Some (view self.now.value.now) }
        ensures { IfOk result (λ bad. bad ≡ true → (is_sound_member (texts pattern.now) (string_bytes member.now.name) (view value.now) ≡ false) ⊎ HasRival self.now.text.now (texts pattern.now) (string_bytes member.now.name)) }
    {
        if !is_sound_member(pattern, member.name.as_str(), value) {
            return Ok(true);
        }
        self.has_rival(pattern, member)
    }

    // Whether a member is a capture beside another one of the object at a pattern.
    fn has_rival(&self, pattern: &Pattern, member: &Member) -> Result<bool, NoMemory>
        requires { json_of self.now.text.now ≡ Some (view self.now.value.now) }
        ensures { IfOk result (λ has. has ≡ true → HasRival self.now.text.now (texts pattern.now) (string_bytes member.now.name)) }
    {
        let Some(rival) = &member.rival else {
            return Ok(false);
        };
        if !is_capture(member.name.as_str())
            || !is_capture(rival.as_str())
            || member.name.as_str() == rival.as_str()
        {
            return Ok(false);
        }
        Ok(self.value_of(pattern, rival.as_str())?.is_some())
    }

    // The fault of the text of a rule, which stands at a pattern.
    fn fault_of_rule(
        &self,
        pattern: &Pattern,
        kind: Kind,
        text: &str,
    ) -> Result<Option<RulesFault>, NoMemory>
        requires { text_at (member_path (texts pattern.now) (kind_name kind)) self.now.text.now ≡ Some (string text.now) }
        ensures { IfOk result (λ fault. IfSome fault (HasFault self.now.text.now)) }
    {
        match read_rule(self.alloc, text, kind, pattern) {
            Ok(_) => Ok(None),
            Err(Unread::NoMemory) => Err(NoMemory),
            Err(Unread::NoRule(fault)) => {
                let pattern = pattern.copy()?;
                Ok(Some(RulesFault::BadRule(RuleName { pattern, kind }, fault)))
            }
        }
    }

    /// Where a fault shows in a member, of which this is the spot, if that is found.
    pub(crate) fn place_of(
        &self,
        fault: &RulesFault,
        member: &Member,
        spot: Spot,
    ) -> Result<Option<usize>, NoMemory>
        requires { json_of self.now.text.now ≡ Some (view self.now.value.now) }
        ensures { IfOk result (λ place. IfSome place (IsPlaceOfOne self.now.text.now fault.now)) }
    {
        match fault {
            RulesFault::BadRulesShape(pattern) => self.place_of_bad(pattern, member, spot),
            RulesFault::BadRule(rule, fault) => self.place_of_rule(rule, fault, spot),
            _ => Ok(None),
        }
    }

    // Where the name of a member of the object at a pattern is written, if it may not stand there and the spot is its.
    fn place_of_bad(
        &self,
        pattern: &Pattern,
        member: &Member,
        spot: Spot,
    ) -> Result<Option<usize>, NoMemory>
        requires { json_of self.now.text.now ≡ Some (view self.now.value.now) }
        ensures { IfOk result (λ place. IfSome place (IsPlaceOfMember self.now.text.now (texts pattern.now))) }
    {
        let Some(value) = self.value_of(pattern, member.name.as_str())? else {
            return Ok(None);
        };
        if !self.is_bad(pattern, member, value)? {
            return Ok(None);
        }
        match self.place_of_name(pattern, member.name.as_str(), spot)? {
            Some(place) => Ok(Some(place)),
            None => Ok(None),
        }
    }

    // Where the name of a member of the object at a pattern is written, if that is the spot.
    fn place_of_name(
        &self,
        pattern: &Pattern,
        name: &str,
        spot: Spot,
    ) -> Result<Option<usize>, NoMemory>
        ensures { IfOk result (λ place. IfSome place (λ place. (to : ℕ) × IsNamedAt self.now.text.now (path_of (texts pattern.now)) name.now place to)) }
    {
        let path = path_of(self.alloc, pattern)?;
        let places = (spot.name, end_of_quoted(self.text, spot.name));
        if is_named_at(self.alloc, self.text, &path, name, places)? {
            Ok(Some(spot.name))
        } else {
            Ok(None)
        }
    }

    // Where the fault of a rule shows, if the spot is the rule.
    fn place_of_rule(
        &self,
        rule: &RuleName,
        fault: &RuleFault,
        spot: Spot,
    ) -> Result<Option<usize>, NoMemory>
        ensures { IfOk result (λ place. IfSome place (IsPlaceOfRule self.now.text.now (texts rule.now.pattern) rule.now.kind fault.now)) }
    {
        let Some(said) = self.words(spot.value)? else {
            return Ok(None);
        };
        let path = member_path(self.alloc, &rule.pattern, rule.kind.name())?;
        let places = (spot.value, end_of_quoted(self.text, spot.value));
        if !is_written_at(self.alloc, self.text, &path, said.as_str(), places)? {
            return Ok(None);
        }
        match shown_at(self.alloc, said.as_str(), rule, fault)? {
            Some(byte) => place_of_byte(self.alloc, self.text, places, said.as_str(), byte),
            None => Ok(None),
        }
    }
}

impl<'a> Search<'a> {
    /// The faults of all members but this one, in the order in which they are written, as many as may be named beside it.
    pub(crate) fn others(&self, skipped: Option<usize>) -> Result<Vec<Finding>, NoMemory>
        requires { json_of self.now.text.now ≡ Some (view self.now.value.now) }
        ensures right { IfOk result (λ others. AllByRecursion (IsRight self.now.text.now) others.items) }
        ensures few { IfOk result (λ others. length others.items < MAX_FINDINGS) }
    {
        let mut others = Vec::new(self.alloc);
        for index in 0..self.spots.len() {
            if others.len() + 1 >= MAX_FINDINGS {
                break;
            }
            if Some(index) == skipped {
                continue;
            }
            if let Some(finding) = self.other(index)? {
                others.push(finding)?;
            }
        }
        Ok(others)
    }

    // The fault of a spot, if it has one.
    fn other(&self, index: usize) -> Result<Option<Finding>, NoMemory>
        requires { json_of self.now.text.now ≡ Some (view self.now.value.now) }
        ensures { IfOk result (λ finding. IfSome finding (IsRight self.now.text.now)) }
    {
        let (Some(spot), Some(member)) = (self.spots.get(index), self.member(index)?) else {
            return Ok(None);
        };
        let Some(fault) = self.fault_of(&member)? else {
            return Ok(None);
        };
        let place = self.place_of(&fault, &member, *spot)?;
        let advice = self.advice(&fault, &member)?;
        Ok(Some(Finding {
            fault,
            place,
            advice,
        }))
    }

    /// The first spot that has the answered fault, and whose place is found.
    pub(crate) fn spot_of(&self, fault: &RulesFault) -> Result<Option<usize>, NoMemory>
        requires { json_of self.now.text.now ≡ Some (view self.now.value.now) }
    {
        for index in 0..self.spots.len() {
            let (Some(spot), Some(member)) = (self.spots.get(index), self.member(index)?) else {
                continue;
            };
            if self.has_fault(&member, fault)? && self.place_of(fault, &member, *spot)?.is_some() {
                return Ok(Some(index));
            }
        }
        Ok(None)
    }

    // Whether a member has the answered fault.
    fn has_fault(&self, member: &Member, fault: &RulesFault) -> Result<bool, NoMemory>
        requires { json_of self.now.text.now ≡ Some (view self.now.value.now) }
    {
        match self.fault_of(member)? {
            Some(found) => Ok(is_same(&found, fault)),
            None => Ok(false),
        }
    }

    /// Where the answered fault shows, and what to do about it, where this is its spot.
    pub(crate) fn answered(
        &self,
        fault: &RulesFault,
        spot: Option<usize>,
    ) -> Result<(Option<usize>, String), NoMemory>
        requires { json_of self.now.text.now ≡ Some (view self.now.value.now) }
        ensures { IfOk result (λ found. IfSome found.0 (IsPlaceOf self.now.text.now fault.now)) }
    {
        let Some(index) = spot else {
            return self.answered_whole(fault);
        };
        let (Some(spot), Some(member)) = (self.spots.get(index), self.member(index)?) else {
            return self.answered_whole(fault);
        };
        let place = self.place_of(fault, &member, *spot)?;
        Ok((place, self.advice(fault, &member)?))
    }

    // The same of a fault that belongs to no single member.
    fn answered_whole(&self, fault: &RulesFault) -> Result<(Option<usize>, String), NoMemory>
        ensures { IfOk result (λ found. IfSome found.0 (IsPlaceOf self.now.text.now fault.now)) }
    {
        let place = self.whole_place(fault)?;
        Ok((place, advice_on_fault(self.alloc, fault, self.value)?))
    }

    // Where a fault shows that belongs to no single member.
    fn whole_place(&self, fault: &RulesFault) -> Result<Option<usize>, NoMemory>
        ensures { IfOk result (λ place. IfSome place (IsPlaceOf self.now.text.now fault.now)) }
    {
        match fault {
            RulesFault::BadRulesShape(pattern) => {
                if pattern.len() > 0 {
                    return Ok(None);
                }
                Ok(Some(self.top_place()?.min(self.text.len())))
            }
            RulesFault::TooManyRules => self.place_of_rule_beyond(),
            _ => Ok(None),
        }
    }

    // Where the text is not an object with the one member `rules`, an object: at the first other member, or at what
    // stands in the place of either object.
    fn top_place(&self) -> Result<usize, NoMemory> {
        let mut at = first_word(self.text);
        for spot in self.spots.iter() {
            if spot.parent.is_some() {
                continue;
            }
            match self.words(spot.name)? {
                Some(name) if name.as_str() == "rules" => at = spot.value,
                _ => return Ok(spot.name),
            }
        }
        Ok(at)
    }

    // Where the first rule is written that is one too many.
    fn place_of_rule_beyond(&self) -> Result<Option<usize>, NoMemory>
        ensures { IfOk result (λ place. IfSome place (IsPlaceOf self.now.text.now RulesFault.TooManyRules)) }
    {
        let mut count = 0usize;
        for index in 0..self.spots.len() {
            let (Some(spot), Some(member)) = (self.spots.get(index), self.member(index)?) else {
                continue;
            };
            let Some(kind) = kind_of(member.name.as_str()) else {
                continue;
            };
            count = count.saturating_add(1);
            if count > MAX_RULES {
                return self.place_of_name(&member.pattern, kind.name(), *spot);
            }
        }
        Ok(None)
    }

    // What to do about a fault of a member.
    fn advice(&self, fault: &RulesFault, member: &Member) -> Result<String, NoMemory> {
        let path = member_path(self.alloc, &member.pattern, member.name.as_str())?;
        match (fault, value_at(self.value, &path)) {
            (RulesFault::BadRulesShape(pattern), Some(value)) => {
                if let Some(rival) = &member.rival {
                    return advice_on_rival(self.alloc, member.name.as_str(), rival.as_str());
                }
                advice_on_member(self.alloc, pattern, member.name.as_str(), value)
            }
            (RulesFault::BadRule(rule, fault), Some(Value::String(text))) => {
                advice_on_rule(self.alloc, fault, rule, text.as_str())
            }
            _ => advice_on_fault(self.alloc, fault, self.value),
        }
    }
}

// The first byte of a text that is no space.
fn first_word(text: &[u8]) -> usize {
    text.iter()
        .position(|byte| !matches!(*byte, b' ' | b'\n' | b'\r' | b'\t'))
        .unwrap_or(0)
}

fn is_capture(name: &str) -> bool
    ensures { result ≡ is_capture name.now }
{
    match name.as_bytes() {
        [b'$', rest @ ..] => is_name(rest),
        _ => false,
    }
}

// The kind of rule of this name.
fn kind_of(name: &str) -> Option<Kind>
    ensures { IfSome result (λ kind. kind_name kind ≡ name.now) }
{
    match name {
        ".read" => Some(Kind::Read),
        ".write" => Some(Kind::Write),
        ".validate" => Some(Kind::Validate),
        _ => None,
    }
}

// The path of the object at a pattern.
fn path_of(alloc: Global, pattern: &Pattern) -> Result<Vec<String>, NoMemory>
    ensures { IfOk result (λ path. map string_bytes path.items ≡ path_of (texts pattern.now)) }
{
    let mut path = Vec::new(alloc);
    path.push(String::from_str(alloc, "rules")?)?;
    for i in 0..pattern.len() {
        path.push(text_of(alloc, pattern.part(i).unwrap())?)?;
    }
    Ok(path)
}

// The path of the member of a name of the object at a pattern.
fn member_path(alloc: Global, pattern: &Pattern, name: &str) -> Result<Vec<String>, NoMemory>
    ensures { IfOk result (λ path. map string_bytes path.items ≡ member_path (texts pattern.now) name.now) }
{
    let mut path = path_of(alloc, pattern)?;
    path.push(String::from_str(alloc, name)?)?;
    Ok(path)
}

// The text of a part of a pattern.
fn text_of(alloc: Global, part: &Part) -> Result<String, NoMemory>
    ensures { IfOk result (λ text. string_bytes text ≡ text_of part.now) }
{
    match part {
        Part::Literal(key) => Ok(String::from_str(alloc, key.text())?),
        Part::Capture(name) => {
            let mut text = String::from_str(alloc, "$")?;
            text.push_str(name.text())?;
            Ok(text)
        }
    }
}

/// Whether two faults are the same one of a file: of the same kind, pattern and rule.
pub(crate) fn is_same(one: &RulesFault, other: &RulesFault) -> bool {
    match (one, other) {
        (RulesFault::BadRulesShape(one), RulesFault::BadRulesShape(other)) => {
            one.compare(other) == Ordering::Equal
        }
        (RulesFault::BadRule(one, _), RulesFault::BadRule(other, _)) => {
            one.kind == other.kind && one.pattern.compare(&other.pattern) == Ordering::Equal
        }
        _ => false,
    }
}
