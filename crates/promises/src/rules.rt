//! The way down a rules file.
ghost use Rattle.std.specs.Prelude.{IfSome, IfNone};
ghost use Rattle.rules_reader.specs.Node.{Steps, NoneMatches};

use rules_reader::RuleNode;

/// What [`RuleNode::step`] promises.
pub fn stepped<'a>(node: &'a RuleNode, key: &str) -> Option<&'a RuleNode>
    ensures found { IfSome result (λ found. Steps node.now key.now found.now) }
    ensures none { IfNone result (NoneMatches node.now.book key.now) }
{
    node.step(key)
}
