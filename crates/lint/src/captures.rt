//! Captures that no rule uses.
ghost use Rattle.std.specs.Prelude.{◌≡◌, ◌++◌, ◌∷◌, [], ◌&&◌, codes, true, false, IfOk, IfSome, is_some, option_map, map};
ghost use Rattle.std.specs.List.{AllByRecursion, list_any};
ghost use Rattle.std.specs.Str.{bytes_eq};
ghost use Rattle.expr_parser.specs.View.{view, view_argument, views, arguments as arguments_of};
ghost use Rattle.path_capture.specs.Pattern.{part_of, part_text};
ghost use Rattle.tree_model.specs.Path.{is_prefix};
ghost use Rattle.rules_reader.specs.Part.{texts, Pattern as AnyPattern};
ghost use Rattle.rules_reader.specs.Book.{Book};
ghost use Rattle.lint.specs.Literal.{is_stated, rule_at};
ghost use Rattle.lint.specs.Captures.{uses, uses_given, uses_argument, uses_listed, is_no_literal, IsUnused};
ghost use Rattle.lint.specs.Working.{IsRoot, IsNodeOf, IsSeen, AreSeen, AreAll, path_eq, place, is_stated_below};

use crate::climb::climb_to;
use crate::literal::is_literal;
use crate::members::Outline;
use expr_parser::{Argument, Expr};
use json_tree::{Key, NoMemory};
use path_capture::{Part, Pattern};
use rules_reader::{Kind, RuleNode, Rules};
use std::alloc::Global;

/// A rule of a file: the object that states it, and its kind.
#[derive(Clone, Copy, Debug)]
pub(crate) struct Seen<'a> {
    node: &'a RuleNode,
    kind: Kind,
}

/// All rules of a file; none where they are not found, since a file says how many it has. It compares each with all
/// others.
pub(crate) fn all_rules<'a>(
    alloc: Global,
    rules: &'a Rules,
    outline: &Outline,
) -> Result<Option<Vec<Seen<'a>>>, NoMemory>
    ensures { IfOk result (λ all. IfSome all (λ all. AreAll rules.now all.items)) }
{
    let all = seen_rules(alloc, rules.root(), outline)?;
    if all.as_slice().len() == rules.count() {
        Ok(Some(all))
    } else {
        Ok(None)
    }
}

// Rules of a file, each once.
fn seen_rules<'a>(
    alloc: Global,
    root: &'a RuleNode,
    outline: &Outline,
) -> Result<Vec<Seen<'a>>, NoMemory>
    requires { IsRoot root.now }
    ensures { IfOk result (λ all. AreSeen root.now.book all.items) }
{
    let mut all = Vec::new(alloc);
    for index in 0..outline.len() {
        if let Some(seen) = seen_at(root, outline, index)? {
            if !is_among(&all, seen) {
                all.push(seen)?;
            }
        }
    }
    Ok(all)
}

// The rule that a member is.
fn seen_at<'a>(
    root: &'a RuleNode,
    outline: &Outline,
    index: usize,
) -> Result<Option<Seen<'a>>, NoMemory>
    requires { IsRoot root.now }
    ensures { IfOk result (λ seen. IfSome seen (IsSeen root.now.book)) }
{
    let Some(kind) = outline.name(index).and_then(|name| kind_of(name.0)) else {
        return Ok(None);
    };
    let Some(names) = outline.names_above(index)? else {
        return Ok(None);
    };
    let Some(climb) = climb_to(root, &names, kind) else {
        return Ok(None);
    };
    let node = climb.node;
    if node.rule(kind).is_some() {
        Ok(Some(Seen { node, kind }))
    } else {
        Ok(None)
    }
}

// The kind of rule of this name.
fn kind_of(name: &str) -> Option<Kind> {
    match name {
        ".read" => Some(Kind::Read),
        ".write" => Some(Kind::Write),
        ".validate" => Some(Kind::Validate),
        _ => None,
    }
}

// Whether a rule is one of these.
fn is_among(all: &Vec<Seen<'_>>, rule: Seen<'_>) -> bool
    ensures { result ≡ false → list_any (path_eq (place rule.entry)) (map place all.now.items) ≡ false }
{
    for seen in all {
        if is_same(*seen, rule) {
            return true;
        }
    }
    false
}

fn is_same(one: Seen<'_>, other: Seen<'_>) -> bool
    ensures { result ≡ false → path_eq (place other.entry) (place one.entry) ≡ false }
{
    one.kind == other.kind && one.node.pattern_text() == other.node.pattern_text()
}

/// The name of the capture of an object, if the object is one of a capture that none of these rules uses, of which one
/// at or below it is no literal.
pub(crate) fn unused_name<'a>(node: &'a RuleNode, all: &Vec<Seen<'_>>) -> Option<&'a str>
    ensures { (book : Book) → AreAll book all.now.items → IfSome result (λ name. IsUnused book node.now.at name.now) }
{
    let name = last_capture(node)?;
    if !some_uses(node, name, all) && some_is_no_literal(node, all) {
        Some(name)
    } else {
        None
    }
}

// The name of the last part of the pattern of an object, if that is a capture.
fn last_capture(node: &RuleNode) -> Option<&str>
    ensures { IfSome result (λ name. (above : AnyPattern) × (node.now.at ≡ above ++ (codes "$" ++ name.now) ∷ [])) }
{
    let pattern = node.pattern();
    match pattern.part(pattern.len().checked_sub(1)?) {
        Some(Part::Capture(name)) => Some(name.text()),
        _ => None,
    }
}

fn some_uses(node: &RuleNode, name: &str, all: &Vec<Seen<'_>>) -> bool
    ensures { result ≡ list_any (is_stated_below (uses name.now) node.now.at) all.now.items }
{
    all.iter().any(|seen| uses_below(*seen, node, name))
}

// Whether a rule stands at or below an object and uses a capture.
fn uses_below(seen: Seen<'_>, node: &RuleNode, name: &str) -> bool
    ensures { result ≡ is_stated_below (uses name.now) node.now.at seen.entry }
{
    is_prefix_of(node.pattern(), seen.node.pattern()) && states_use(seen, name)
}

fn states_use(seen: Seen<'_>, name: &str) -> bool
    ensures { result ≡ is_stated (uses name.now) (rule_at seen.entry.node.now.book seen.entry.kind []) }
{
    match seen.node.rule(seen.kind) {
        Some(rule) => uses(rule.expr(), name),
        None => false,
    }
}

fn some_is_no_literal(node: &RuleNode, all: &Vec<Seen<'_>>) -> bool
    ensures { result ≡ list_any (is_stated_below is_no_literal node.now.at) all.now.items }
{
    all.iter().any(|seen| is_no_literal_below(*seen, node))
}

// Whether a rule stands at or below an object and is no literal.
fn is_no_literal_below(seen: Seen<'_>, node: &RuleNode) -> bool
    ensures { result ≡ is_stated_below is_no_literal node.now.at seen.entry }
{
    is_prefix_of(node.pattern(), seen.node.pattern()) && states_no_literal(seen)
}

fn states_no_literal(seen: Seen<'_>) -> bool
    ensures { result ≡ is_stated is_no_literal (rule_at seen.entry.node.now.book seen.entry.kind []) }
{
    match seen.node.rule(seen.kind) {
        Some(rule) => !is_literal(rule.expr()),
        None => false,
    }
}

// Whether a pattern is a prefix of another, or the same.
fn is_prefix_of(above: &Pattern, below: &Pattern) -> bool
    ensures { result ≡ is_prefix (texts above.now) (texts below.now) }
{
    for index in 0..above.len() {
        match (above.part(index), below.part(index)) {
            (Some(one), Some(other)) => if !is_same_part(one, other) {
                return false;
            },
            _ => return false,
        }
    }
    true
}

fn is_same_part(one: &Part, other: &Part) -> bool
    ensures { result ≡ bytes_eq (part_text (part_of one.now)) (part_text (part_of other.now)) }
{
    match (one, other) {
        (Part::Literal(key), _) => is_key_of(key, other),
        (Part::Capture(_), Part::Literal(key)) => is_key_of(key, one),
        (Part::Capture(name), Part::Capture(beside)) => name.text() == beside.text(),
    }
}

fn is_key_of(key: &Key, part: &Part) -> bool
    ensures { result ≡ bytes_eq key.now (part_text (part_of part.now)) }
{
    part.compare_key(key).is_eq()
}

// Whether a part of an expression is the capture of this name.
#[cycle(using)]
fn uses(expr: &Expr, name: &str) -> bool
    ensures { result ≡ uses name.now (view expr.now) }
{
    match expr {
        Expr::Number(_) | Expr::Text(_) | Expr::True | Expr::False | Expr::Null => false,
        Expr::Variable(_) => false,
        Expr::Capture(used) => used.as_str() == name,
        Expr::Group(inner) => uses(inner, name),
        Expr::Member(receiver, _) => uses(receiver, name),
        Expr::Call(receiver, _, arguments) => uses(receiver, name) || are_given(arguments, name),
        Expr::Not(operand) | Expr::Negate(operand) => uses(operand, name),
        Expr::Operation(_, left, right) => uses(left, name) || uses(right, name),
        Expr::Choice(condition, yes, no) => {
            uses(condition, name) || (uses(yes, name) || uses(no, name))
        }
    }
}

// Whether it is a part of something that a call is given.
#[cycle(using)]
fn are_given(arguments: &Vec<Argument>, name: &str) -> bool
    ensures { result ≡ uses_given name.now (arguments_of arguments.now.items) }
{
    for argument in arguments {
        if is_given(argument, name) {
            return true;
        }
    }
    false
}

#[cycle(using)]
fn is_given(argument: &Argument, name: &str) -> bool
    ensures { result ≡ uses_argument name.now (view_argument argument.now) }
{
    match argument {
        Argument::One(value) => uses(value, name),
        Argument::List(values) => are_listed(values, name),
    }
}

// Whether it is a part of an element of a list.
#[cycle(using)]
fn are_listed(elements: &Vec<Expr>, name: &str) -> bool
    ensures { result ≡ uses_listed name.now (views elements.now.items) }
{
    for element in elements {
        if uses(element, name) {
            return true;
        }
    }
    false
}
