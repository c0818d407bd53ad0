//! A rule node: an object of a rules file, with the rules that stand there.
ghost use Rattle.std.specs.Prelude.{◌≡◌, ◌||◌, [], true, is_some, Some, None, option_map, IfSome, IfNone, string_bytes};
ghost use Rattle.std.specs.List.{AllByRecursion, list_any};
ghost use Rattle.std.specs.FinMap.{is_sorted};
ghost use Rattle.std.specs.FinMap as map_of;
ghost use Rattle.tree_model.specs.Key.{key_cmp};
ghost use Rattle.tree_model.specs.PathMap.{get};
ghost use Rattle.path_capture.specs.Path.{printed};
ghost use Rattle.rules_reader.specs.Part.{texts, is_capture};
ghost use Rattle.rules_reader.specs.Book.{rules, stated_for, validates, states};
ghost use Rattle.rules_reader.specs.Mentions.{mentions_for};
ghost use Rattle.rules_reader.specs.Working.Kept.{kept_for};
ghost use Rattle.rules_reader.specs.declared.kind.Kind.{Kind as RuleKind};
ghost use Rattle.rules_reader.specs.Spelled.{IsLawful};
ghost use Rattle.rules_reader.specs.declared.kind.Kind.TheVariants.{Read, Write, Validate};
ghost use Rattle.rules_reader.specs.Place.{HasOneCapture, one_capture_at_most};
ghost use Rattle.rules_reader.specs.Node.{Steps, NoneMatches, IsCaptureAt, IsChild, AreLawful, books, names, grown, text_of};
ghost use Rattle.rules_reader.specs.Working.Stepped.{stepped};

use crate::kind::Kind;
use crate::mentions::{Mentions, TreeVariable, rule_mentions};
use crate::rule::RuleSet;
use expr_types::Checked;
use path_capture::{Part, Pattern};
use std::cmp::Ordering;
use std::marker::Model;

/// An object of a rules file: its pattern, the rules that stand there, and what is below. Contracts
/// see the texts of its pattern, and what is stated at and below it.
#[derive(Debug, Drop)]
pub struct RuleNode {
    pattern: Pattern,
    // What is printed of the pattern.
    text: String,
    rules: RuleSet,
    // Ascending by the texts of the parts.
    children: Vec<(Part, RuleNode)>,
    // Where the capture is among the children.
    capture: Option<usize>,
    // Whether a `.validate` is stated here or below.
    has_validate: bool,
    // Those by rules here or below.
    mentions_of_data: Mentions,
    mentions_of_new_data: Mentions,
}

impl Model for RuleNode {
    ghost use Rattle.rules_reader.specs.Node.{Point, point_code};

    ghost Value = { Point };

    ghost coded = { point_code };

    ghost use Rattle.tree_model.specs.PathMap.{depth as depth_of};
    ghost use Rattle.rules_reader.specs.Part.{texts};
    ghost use Rattle.std.specs.Prelude.{◌≡◌, string_bytes};
    ghost use Rattle.path_capture.specs.Path.{printed};
    ghost use Rattle.rules_reader.specs.Book.{validates};
    ghost use Rattle.rules_reader.specs.Node.{grown, books, IsNode};
    ghost use Rattle.rules_reader.specs.Working.Kept.{Keeps};
    ghost use Rattle.rules_reader.specs.declared.mentions.TreeVariable.TheVariants.{Data, NewData};

    ghost view = { λ node. record { at = texts node.pattern; book = grown node.rules (books node.children.items) } };

    ghost invariant = { λ node. IsNode (texts node.pattern) node.rules node.children.items node.capture × (node.has_validate ≡ validates (grown node.rules (books node.children.items))) × Keeps Data node.mentions_of_data (grown node.rules (books node.children.items)) × Keeps NewData node.mentions_of_new_data (grown node.rules (books node.children.items)) × (string_bytes node.text ≡ printed (texts node.pattern)) };

    ghost size = { λ point. depth_of point.book };

    ghost use Rattle.rules_reader.specs.Working.NodeFalls.{falls};

    ghost size_decreases = { λ node h. falls node.rules (texts node.pattern) node.children.items node.capture h.0 };
}

impl RuleNode {
    /// The node of an object at a pattern, whose text this is, with what it states and what is below
    /// it.
    pub(crate) fn new(
        pattern: Pattern,
        text: String,
        rules: RuleSet,
        children: Vec<(Part, RuleNode)>,
    ) -> RuleNode
        requires text { string_bytes text ≡ printed (texts pattern) }
        requires lawful { AreLawful (texts pattern) rules }
        requires ascending { is_sorted key_cmp (books children.items) ≡ true }
        requires each { AllByRecursion (IsChild (texts pattern)) children.items }
        requires few { one_capture_at_most (names children.items) ≡ true }
        ensures at { result.at ≡ texts pattern }
        ensures book { result.book ≡ grown rules (books children.items) }
    {
        let capture = capture_among(&children);
        let has_validate = states_validate(&rules, &children);
        let mentions_of_data = mentions_of(&rules, &children, TreeVariable::Data);
        let mentions_of_new_data = mentions_of(&rules, &children, TreeVariable::NewData);
        RuleNode {
            pattern,
            text,
            rules,
            children,
            capture,
            has_validate,
            mentions_of_data,
            mentions_of_new_data,
        }
    }

    /// The node one key further down: that of the key itself, else that of the capture, else none.
    /// The key is a text, so that a walk over a tree copies none. It takes no memory; log w of w
    /// keys. (Guide "Core syntax", using $ variables to capture path segments.)
    pub fn step(&self, key: &str) -> Option<&RuleNode>
        ensures found { IfSome result (λ node. Steps self.now key.now node.now) }
        ensures none { IfNone result (NoneMatches self.now.book key.now) }
    {
        child_of(&self.children, self.capture, key)
    }

    /// The pattern of the object.
    pub fn pattern(&self) -> &Pattern
        ensures { texts result.now ≡ self.now.at }
    {
        &self.pattern
    }

    /// The text of the pattern, as [`Pattern::print`] makes it, in constant time.
    pub fn pattern_text(&self) -> &str
        ensures { result.now ≡ printed self.now.at }
    {
        self.text.as_str()
    }

    /// The rule of a kind that stands here, if one is stated. It may stand here: it was checked for
    /// such rules, and names only captures of the pattern.
    pub fn rule(&self, kind: Kind) -> Option<&Checked>
        ensures stated { option_map (stated_for kind) (get self.now.book []) ≡ Some (option_map (λ rule. rule.now) result) }
        ensures lawful { IfSome result (λ rule. IsLawful self.now.at kind rule.now) }
    {
        self.rules.rule(kind)
    }

    /// The `.read` that stands here, if one is stated.
    pub fn read(&self) -> Option<&Checked>
        ensures stated { option_map (stated_for Read) (get self.now.book []) ≡ Some (option_map (λ rule. rule.now) result) }
        ensures lawful { IfSome result (λ rule. IsLawful self.now.at Read rule.now) }
    {
        self.rule(Kind::Read)
    }

    /// The `.write` that stands here, if one is stated.
    pub fn write(&self) -> Option<&Checked>
        ensures stated { option_map (stated_for Write) (get self.now.book []) ≡ Some (option_map (λ rule. rule.now) result) }
        ensures lawful { IfSome result (λ rule. IsLawful self.now.at Write rule.now) }
    {
        self.rule(Kind::Write)
    }

    /// The `.validate` that stands here, if one is stated.
    pub fn validate(&self) -> Option<&Checked>
        ensures stated { option_map (stated_for Validate) (get self.now.book []) ≡ Some (option_map (λ rule. rule.now) result) }
        ensures lawful { IfSome result (λ rule. IsLawful self.now.at Validate rule.now) }
    {
        self.rule(Kind::Validate)
    }

    /// Whether a `.validate` is stated here or below, in constant time.
    pub fn has_validate(&self) -> bool
        ensures { result ≡ validates self.now.book }
    {
        self.has_validate
    }

    /// Whether a rule of this kind that is stated here or below mentions the variable, in constant time.
    pub fn mentions(&self, variable: TreeVariable, kind: Kind) -> bool
        ensures { result ≡ states (mentions_for variable kind) self.now.book }
    {
        match variable {
            TreeVariable::Data => self.mentions_of_data.by(kind),
            TreeVariable::NewData => self.mentions_of_new_data.by(kind),
        }
    }

    /// What holds of every node: its own object is listed, and in each object at and below it at
    /// most one part is a capture.
    pub(crate) fn law(&self)
        ensures listed { map_of.contains_key self.now.book [] ≡ true }
        ensures one { HasOneCapture self.now.book }
    {
        let _children = &self.children;
    }
}

fn child_of<'a>(
    children: &'a Vec<(Part, RuleNode)>,
    capture: Option<usize>,
    key: &str,
) -> Option<&'a RuleNode>
    requires ascending { is_sorted key_cmp (books children.now.items) ≡ true }
    requires capture { IsCaptureAt children.now.items capture }
    ensures { option_map (λ node. node.now) result ≡ stepped children.now.items capture key.now }
{
    match children.binary_search_by(|child| compare(&child.0, key)) {
        Ok(place) => if is_capture(&children[place].0) {
            None
        } else {
            Some(&children[place].1)
        },
        Err(_) => match capture {
            Some(place) => Some(&children[place].1),
            None => None,
        },
    }
}

// Where the text of a part stands beside a text, by their bytes.
fn compare(part: &Part, text: &str) -> Ordering
    ensures { result ≡ key_cmp (text_of part.now) text.now }
{
    match part {
        Part::Literal(key) => key.text().cmp(text),
        Part::Capture(name) => match text.as_bytes() {
            [b'$', rest @ ..] => name.text().as_bytes().cmp(rest),
            [first, ..] => b'$'.cmp(first),
            [] => Ordering::Greater,
        },
    }
}

// Where the capture is among children, if one is.
fn capture_among(children: &Vec<(Part, RuleNode)>) -> Option<usize>
    ensures { IsCaptureAt children.now.items result }
{
    for (place, child) in children.iter().enumerate() {
        if is_capture(&child.0) {
            return Some(place);
        }
    }
    None
}

// Whether a `.validate` is among these rules, or at or below one of these children.
fn states_validate(rules: &RuleSet, children: &Vec<(Part, RuleNode)>) -> bool
    ensures { result ≡ (is_some rules.now.validate || list_any (λ child. validates child.1.book) children.now.items) }
{
    rules.has_validate() || some_has_validate(children)
}

fn some_has_validate(children: &Vec<(Part, RuleNode)>) -> bool
    ensures { result ≡ list_any (λ child. validates child.1.book) children.now.items }
{
    children.iter().any(|child| child.1.has_validate())
}

// For each kind, whether a rule among these, or at or below one of these children, mentions the variable.
fn mentions_of(
    rules: &RuleSet,
    children: &Vec<(Part, RuleNode)>,
    variable: TreeVariable,
) -> Mentions
    ensures { (kind : RuleKind) → kept_for kind result ≡ (mentions_for variable kind rules.now || list_any (λ child. states (mentions_for variable kind) child.1.book) children.now.items) }
{
    Mentions {
        read: is_mentioned(rules, children, variable, Kind::Read),
        write: is_mentioned(rules, children, variable, Kind::Write),
        validate: is_mentioned(rules, children, variable, Kind::Validate),
    }
}

fn is_mentioned(
    rules: &RuleSet,
    children: &Vec<(Part, RuleNode)>,
    variable: TreeVariable,
    kind: Kind,
) -> bool
    ensures { result ≡ (mentions_for variable kind rules.now || list_any (λ child. states (mentions_for variable kind) child.1.book) children.now.items) }
{
    rule_mentions(rules.rule(kind), variable) || some_mentions(children, variable, kind)
}

fn some_mentions(children: &Vec<(Part, RuleNode)>, variable: TreeVariable, kind: Kind) -> bool
    ensures { result ≡ list_any (λ child. states (mentions_for variable kind) child.1.book) children.now.items }
{
    children
        .iter()
        .any(|child| child.1.mentions(variable, kind))
}

fn is_capture(part: &Part) -> bool
    ensures { result ≡ is_capture (text_of part.now) }
{
    match part {
        Part::Literal(key) => {
            key.text();
            false
        }
        Part::Capture(name) => {
            name.text();
            true
        }
    }
}
