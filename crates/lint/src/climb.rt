//! The way from the root of a rules file down to one of its objects.
ghost use Rattle.std.specs.Prelude.{◌≡◌, option_map, IfSome};
ghost use Rattle.tree_model.specs.Key.{Key};
ghost use Rattle.rules_reader.specs.Node.{Steps};
ghost use Rattle.lint.specs.Working.{first, IsRoot, IsClimbed};

use crate::literal::{may_grant, states_true};
use rules_reader::{Kind, RuleNode};

/// An object of a rules file, and what of one kind of rule is stated above it.
#[derive(Clone, Copy, Debug)]
pub(crate) struct Climb<'a> {
    pub(crate) node: &'a RuleNode,
    /// The first object above it that states a rule which is literally `true`.
    pub(crate) granted: Option<&'a RuleNode>,
    /// The first that states one which is not literally `false`.
    pub(crate) granting: Option<&'a RuleNode>,
}

/// The object that these names lead to, by one step for each, if they lead to one.
pub(crate) fn climb_to<'a>(root: &'a RuleNode, names: &[String], kind: Kind) -> Option<Climb<'a>>
    requires { IsRoot root.now }
    ensures { IfSome result (λ climb. IsClimbed root.now.book kind climb.node.now (option_map (λ above. above.now) climb.granted) (option_map (λ above. above.now) climb.granting)) }
{
    let mut node = root;
    let mut granted = None;
    let mut granting = None;
    for name in names {
        let to = step(node, name.as_str())?;
        granted = first(granted, node, states_true(node, kind));
        granting = first(granting, node, may_grant(node, kind));
        node = to;
    }
    Some(Climb {
        node,
        granted,
        granting,
    })
}

// The object of a key or a capture of an object. No key is empty, so that the empty text leads to the capture.
fn step<'a>(node: &'a RuleNode, name: &str) -> Option<&'a RuleNode>
    ensures { IfSome result (λ to. (key : Key) × Steps node.now key to.now) }
{
    if name.starts_with('$') {
        node.step("")
    } else {
        node.step(name)
    }
}

// What was found first: else this object, where it holds of that.
fn first<'a>(found: Option<&'a RuleNode>, node: &'a RuleNode, holds: bool) -> Option<&'a RuleNode>
    ensures { option_map (λ above. above.now) result ≡ first (option_map (λ above. above.now) found.entry) node.now holds }
{
    match found {
        Some(above) => Some(above),
        None => if holds { Some(node) } else { None },
    }
}
