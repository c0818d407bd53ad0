//! From the objects of a rules file to its rules.
ghost use Rattle.std.specs.Prelude.{◌≡◌, ◌++◌, length, [], ◌∷◌, true, Some, None, option_map, IfOk, OnOk, IfErr};
ghost use Rattle.std.specs.List.{AllByRecursion};
ghost use Rattle.std.specs.FinMap.{is_sorted};
ghost use Rattle.serde_json.specs.View.{view, members_view};
ghost use Rattle.serde_json.specs.Data.{Members, object};
ghost use Rattle.tree_model.specs.Key.{key_cmp};
ghost use Rattle.path_capture.specs.Captures.{names};
ghost use Rattle.rules_reader.specs.Part.{texts};
ghost use Rattle.rules_reader.specs.Book.{rules, own_rules};
ghost use Rattle.rules_reader.specs.Spelled.{captured, capture_names, IsSpelled, IsRule, SpellsObject};
ghost use Rattle.rules_reader.specs.File.{is_object, rule_text, rule_texts, texts_of, faulty, listed};
ghost use Rattle.rules_reader.specs.Working.Inner.{parts_of, faulty_inner};
ghost use Rattle.rules_reader.specs.Working.Read.{SpellsParts, rules_below, rule_count};
ghost use Rattle.rules_reader.specs.Node.{text_of, books, IsChild};
ghost use Rattle.rules_reader.specs.Refusal.{Blames};

use crate::fault::RulesFault;
use crate::kind::Kind;
use crate::node::RuleNode;
use crate::rule::RuleSet;
use crate::rule_text::rule;
use crate::shape::{below, part};
use json_tree::{Key, NoMemory};
use path_capture::{CaptureName, Captures, Part, Pattern};
use serde_json::{Map, Value};
use std::alloc::Global;

/// The node of an object at a pattern, with all below it, where each may stand where it does. The
/// rules of an object are read before any below it, and these in their order: so the first that is
/// no rule is refused.
#[cycle(build)]
pub(crate) fn build(alloc: Global, value: &Value, pattern: Pattern) -> Result<RuleNode, RulesFault>
    requires object { is_object (view value.now) ≡ true }
    requires sound { faulty (texts pattern) (view value.now) ≡ [] }
    ensures at { IfOk result (λ node. node.at ≡ texts pattern) }
    ensures spelled { IfOk result (λ node. IsSpelled (texts pattern) (texts_of (view value.now)) node.book) }
    ensures count { IfOk result (λ node. length (rules node.book) ≡ length (rules (texts_of (view value.now)))) }
    ensures lawful { OnOk result (AllByRecursion (IsRule (texts pattern)) (rules (texts_of (view value.now)))) }
    ensures fault { IfErr result (Blames (texts pattern) (rules (texts_of (view value.now)))) }
{
    let Value::Object(members) = value else {
        unreachable!()
    };
    law_of_members(members, &pattern);
    let own = own_rules(alloc, value, &pattern)?;
    let children = build_children(alloc, members, &pattern)?;
    let text = pattern.print()?;
    Ok(RuleNode::new(pattern, text, own, children))
}

// The nodes of the keys and captures of an object, in the order of their names.
#[cycle(build)]
fn build_children(
    alloc: Global,
    members: &Map<String, Value>,
    pattern: &Pattern,
) -> Result<Vec<(Part, RuleNode)>, RulesFault>
    requires { faulty_inner (texts pattern.now) (members_view members.now.entries) ≡ [] }
    ensures spelled { IfOk result (λ children. SpellsParts (texts pattern.now) (parts_of (members_view members.now.entries)) (books children.items)) }
    ensures count { IfOk result (λ children. rule_count (books children.items) ≡ rule_count (parts_of (members_view members.now.entries))) }
    ensures lawful { OnOk result (AllByRecursion (IsRule (texts pattern.now)) (rules_below (parts_of (members_view members.now.entries)))) }
    ensures ascending { IfOk result (λ children. is_sorted key_cmp (books children.items) ≡ true) }
    ensures each { IfOk result (λ children. AllByRecursion (IsChild (texts pattern.now)) children.items) }
    ensures fault { IfErr result (Blames (texts pattern.now) (rules_below (parts_of (members_view members.now.entries)))) }
{
    let mut children = Vec::new(alloc);
    for (name, member) in members.iter() {
        if !member.is_object() {
            continue;
        }
        let Some(part) = part(alloc, name.as_str())? else {
            continue;
        };
        let longer = below(pattern, &part)?;
        law_of_member(member, &longer);
        let node = build(alloc, member, longer)?;
        node.law();
        push(&mut children, part, node)?;
    }
    Ok(children)
}

fn push(children: &mut Vec<(Part, RuleNode)>, part: Part, node: RuleNode) -> Result<(), NoMemory>
    ensures { OnOk result (children.new.items ≡ children.old.items ++ (part, node) ∷ []) }
{
    children.push((part, node))?;
    Ok(())
}

// The rules of an object at a pattern.
fn own_rules(alloc: Global, value: &Value, pattern: &Pattern) -> Result<RuleSet, RulesFault>
    requires { is_object (view value.now) ≡ true }
    ensures spelled { IfOk result (λ own. (ms : Members) → view value.now ≡ object ms → SpellsObject (texts pattern.now) (Some (rule_texts ms)) (Some own)) }
    ensures fault { IfErr result (λ fault. (ms : Members) → view value.now ≡ object ms → Blames (texts pattern.now) (own_rules ([], rule_texts ms)) fault) }
{
    let key = stand_in(alloc)?;
    let captures = captures_of(alloc, pattern, &key)?;
    let read = rule(alloc, value, Kind::Read, pattern, &captures)?;
    let validate = rule(alloc, value, Kind::Validate, pattern, &captures)?;
    let write = rule(alloc, value, Kind::Write, pattern, &captures)?;
    Ok(RuleSet::new(read, write, validate))
}

/// The captures of a pattern, all with this key.
pub(crate) fn captures_of<'a>(
    alloc: Global,
    pattern: &'a Pattern,
    key: &'a Key,
) -> Result<Captures<'a>, NoMemory>
    ensures { IfOk result (λ captures. names captures ≡ capture_names (texts pattern.now)) }
{
    let mut captures = Captures::new(alloc);
    for i in 0..pattern.len() {
        if let Some(name) = captured(pattern.part(i).unwrap()) {
            captures.push(name, key)?;
        }
    }
    Ok(captures)
}

// The name of a capture, where the part is one.
fn captured(part: &Part) -> Option<&CaptureName>
    ensures { option_map (λ name. name.now) result ≡ captured (text_of part.now) }
{
    match part {
        Part::Literal(key) => {
            key.text();
            None
        }
        Part::Capture(name) => {
            name.text();
            Some(name)
        }
    }
}

/// A key that stands for those that a capture will have.
pub(crate) fn stand_in(alloc: Global) -> Result<Key, NoMemory> {
    match Key::new(alloc, "key") {
        Ok(key) => Ok(key),
        Err(_) => Err(NoMemory),
    }
}

// The members of an object that may stand where it does are in the order of their names, and so may
// all below it. It does nothing.
fn law_of_members(members: &Map<String, Value>, pattern: &Pattern)
    requires { faulty (texts pattern.now) (object (members_view members.now.entries)) ≡ [] }
    ensures ascending { is_sorted key_cmp (listed (members_view members.now.entries)) ≡ true }
    ensures sound { faulty_inner (texts pattern.now) (members_view members.now.entries) ≡ [] }
{
    let _members = members.iter();
}

// Nothing at or below the value is faulty. It does nothing, but that a proof rests on it.
fn law_of_member(member: &Value, pattern: &Pattern)
    requires { faulty (texts pattern.now) (view member.now) ≡ [] }
    ensures { faulty (texts pattern.now) (view member.now) ≡ [] }
{}
