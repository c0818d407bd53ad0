//! Calls of the libraries that no program makes, or that no program makes so, with memory enough.
use arena_snapshot::overlay;
use bumpalo::Bump;
use expr_tokens::{Token, tokens};
use json_tree::{Leaf, Node};
use std::test::Fail;

fn kind_of(token: &Token) -> &'static str {
    match token {
        Token::Number(_) => "number",
        Token::Text(_) => "text",
        Token::Name(_) => "name",
        _ => "sign",
    }
}

#[test]
fn an_expression_is_cut_into_tokens(rt: HostRuntime) -> Result<(), Fail> {
    let found = tokens(rt.alloc(), "a === 'b' + 7")?;
    let wanted = ["name", "sign", "text", "sign", "number"];
    assert_eq!(rt; found.len(), wanted.len());
    for (token, kind) in found.iter().zip(wanted) {
        assert_eq!(rt; kind_of(token), kind);
    }
    Ok(())
}

// No writes, laid over a tree, while each growth of the arena is refused.
#[test]
#[tactic(auto, unfolding(tree_model::specs::Primitive::is_whole))]
fn overlay_without_growth(rt: HostRuntime) -> Result<(), Fail> {
    let base = Node::of_leaf(Leaf::Truth(true))?;
    let arena = Bump::new(rt.alloc());
    arena.set_allocation_limit(Some(0));
    let view = overlay(&arena, Some(&base), &[], 0)?.ok_or("null")?;
    assert_eq!(rt; view.count(), 1);
    assert_eq!(rt; arena.allocated_bytes(), 0);
    Ok(())
}
