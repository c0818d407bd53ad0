//! The search for findings: each member is looked up in what the file states.
ghost use Rattle.std.specs.Prelude.{◌≡◌, true, IfOk, IfSome, option_map, string_bytes};
ghost use Rattle.std.specs.List.{AllByRecursion};
ghost use Rattle.path_capture.specs.Path.{printed};
ghost use Rattle.rules_reader.specs.Book.{Book};
ghost use Rattle.rules_reader.specs.declared.kind.Kind.TheVariants.{Validate};
ghost use Rattle.lint.specs.Finding.{IsCertain, IsReason, reaches_down};
ghost use Rattle.lint.specs.Working.{IsRoot, IsNodeOf, IsClimbed, AreAll};
ghost use Rattle.lint.specs.declared.finding.Member.TheVariants.{Rule};

use crate::captures::{Seen, unused_name};
use crate::climb::{Climb, climb_to};
use crate::demands::{refused_child, two_demands};
use crate::finding::{Finding, Member, Reason};
use crate::literal::states_false;
use crate::members::Outline;
use json_tree::NoMemory;
use rules_reader::{Kind, RuleNode};
use std::alloc::Global;

/// What a file states, and what is written in it.
#[derive(Drop)]
pub(crate) struct Search<'a> {
    pub(crate) alloc: Global,
    pub(crate) root: &'a RuleNode,
    pub(crate) outline: &'a Outline,
    /// All rules; none where not all were found.
    pub(crate) all: Option<Vec<Seen<'a>>>,
}

impl<'a> Search<'a> {
    /// What is found at all members, in their order.
    pub(crate) fn findings(&self) -> Result<Vec<Finding>, NoMemory>
        requires root { IsRoot self.now.root.now }
        requires all { IfSome self.now.all (λ all. AreAll self.now.root.now.book all.items) }
        ensures { IfOk result (λ findings. AllByRecursion (IsCertain self.now.root.now.book) findings.items) }
    {
        let mut findings = Vec::new(self.alloc);
        for index in 0..self.outline.len() {
            if let Some(finding) = self.finding(index)? {
                findings.push(finding)?;
            }
        }
        Ok(findings)
    }

    // What is found at a member.
    fn finding(&self, index: usize) -> Result<Option<Finding>, NoMemory>
        requires root { IsRoot self.now.root.now }
        requires all { IfSome self.now.all (λ all. AreAll self.now.root.now.book all.items) }
        ensures { IfOk result (λ found. IfSome found (IsCertain self.now.root.now.book)) }
    {
        let Some((name, byte)) = self.outline.name(index) else {
            return Ok(None);
        };
        match name {
            ".read" => self.at_rule(index, byte, Kind::Read),
            ".write" => self.at_rule(index, byte, Kind::Write),
            ".validate" => self.at_rule(index, byte, Kind::Validate),
            ".indexOn" => self.at_index(index, byte),
            _ => if name.starts_with('$') {
                self.at_capture(index, byte)
            } else {
                Ok(None)
            },
        }
    }

    // What is found at a rule.
    fn at_rule(&self, index: usize, byte: usize, kind: Kind) -> Result<Option<Finding>, NoMemory>
        requires { IsRoot self.now.root.now }
        ensures { IfOk result (λ found. IfSome found (IsCertain self.now.root.now.book)) }
    {
        let Some(names) = self.outline.names_above(index)? else {
            return Ok(None);
        };
        let Some(climb) = climb_to(self.root, &names, kind) else {
            return Ok(None);
        };
        let reason = match kind {
            Kind::Read | Kind::Write => reason_of_grant(self.alloc, climb, kind)?,
            Kind::Validate => reason_of_validate(self.alloc, climb.node)?,
        };
        self.finding_at(climb.node, Member::Rule(kind), byte, reason)
    }

    // What is found at an index.
    fn at_index(&self, index: usize, byte: usize) -> Result<Option<Finding>, NoMemory>
        requires { IsRoot self.now.root.now }
        ensures { IfOk result (λ found. IfSome found (IsCertain self.now.root.now.book)) }
    {
        let Some(names) = self.outline.names_above(index)? else {
            return Ok(None);
        };
        match climb_to(self.root, &names, Kind::Read) {
            Some(climb) => {
                self.finding_at(climb.node, Member::Index, byte, Some(Reason::IsIgnored))
            }
            None => Ok(None),
        }
    }

    // What is found at a capture.
    fn at_capture(&self, index: usize, byte: usize) -> Result<Option<Finding>, NoMemory>
        requires root { IsRoot self.now.root.now }
        requires all { IfSome self.now.all (λ all. AreAll self.now.root.now.book all.items) }
        ensures { IfOk result (λ found. IfSome found (IsCertain self.now.root.now.book)) }
    {
        let names = self.outline.names_to(index)?;
        let (Some(climb), Some(all)) = (climb_to(self.root, &names, Kind::Read), &self.all) else {
            return Ok(None);
        };
        let reason = match unused_name(climb.node, all) {
            Some(name) => Some(Reason::IsUnused(String::from_str(self.alloc, name)?)),
            None => None,
        };
        self.finding_at(climb.node, Member::Capture, byte, reason)
    }

    // The finding at a member of an object, if there is a reason for one.
    fn finding_at(
        &self,
        node: &RuleNode,
        member: Member,
        byte: usize,
        reason: Option<Reason>,
    ) -> Result<Option<Finding>, NoMemory>
        requires node { IsNodeOf self.now.root.now.book node.now }
        requires reason { IfSome reason (IsReason self.now.root.now.book node.now.at member) }
        ensures { IfOk result (λ found. IfSome found (IsCertain self.now.root.now.book)) }
    {
        match reason {
            Some(reason) => Ok(Some(Finding {
                pattern: text_of(self.alloc, node)?,
                member,
                byte,
                reason,
            })),
            None => Ok(None),
        }
    }
}

// Why a `.read` or a `.write` has no effect, if it has none.
fn reason_of_grant(alloc: Global, climb: Climb<'_>, kind: Kind) -> Result<Option<Reason>, NoMemory>
    requires { reaches_down kind ≡ true }
    ensures { (book : Book) → IsClimbed book kind climb.entry.node.now (option_map (λ above. above.now) climb.entry.granted) (option_map (λ above. above.now) climb.entry.granting) → IfOk result (λ reason. IfSome reason (IsReason book climb.entry.node.now.at (Rule kind))) }
{
    if states_false(climb.node, kind) {
        return match climb.granting {
            Some(above) => Ok(Some(Reason::TakesNothingBack(text_of(alloc, above)?))),
            None => Ok(Some(Reason::GrantsNothing)),
        };
    }
    match (climb.granted, climb.node.rule(kind)) {
        (Some(above), Some(_)) => Ok(Some(Reason::GrantedAbove(text_of(alloc, above)?))),
        _ => Ok(None),
    }
}

// Why a `.validate` can't be met, if it can't.
fn reason_of_validate(alloc: Global, node: &RuleNode) -> Result<Option<Reason>, NoMemory>
    ensures { (book : Book) → IsNodeOf book node.now → IfOk result (λ reason. IfSome reason (IsReason book node.now.at (Rule Validate))) }
{
    let Some(rule) = node.validate() else {
        return Ok(None);
    };
    if let Some((one, other)) = two_demands(rule.expr()) {
        return Ok(Some(Reason::AsksForBoth(one, other)));
    }
    match refused_child(node, rule.expr()) {
        Some(refused) => Ok(Some(Reason::AsksForRefused(
            String::from_str(alloc, refused.child)?,
            text_of(alloc, refused.node)?,
        ))),
        None => Ok(None),
    }
}

// The text of the pattern of an object.
fn text_of(alloc: Global, node: &RuleNode) -> Result<String, NoMemory>
    ensures { IfOk result (λ text. string_bytes text ≡ printed node.now.at) }
{
    Ok(String::from_str(alloc, node.pattern_text())?)
}
