//! Worked values, each computed by the checker: expressions at the limits.
ghost use Rattle.std.specs.Prelude.{replicate};
ghost use Rattle.expr_parser.specs.Tree.{SyntaxTree, Text};
ghost use Rattle.expr_parser.specs.Grammar.{Spells};
ghost use Rattle.expr_parser.specs.Text.{SpellsExpression};
ghost use Rattle.expr_parser.specs.Worked.{tokens_of_one_in, one_in, quoted};

/// 1 in 64 parentheses is an expression, and 1 in 65 is not. It does nothing.
pub fn what_levels_give()
    ensures deepest { Spells (tokens_of_one_in 64) (one_in 64) }
    ensures too_deep { (x : SyntaxTree) → Spells (tokens_of_one_in 65) x → ⊥ }
{}

/// A text of 4,096 bytes may be an expression, and none of 4,097. It does nothing.
pub fn what_the_length_gives()
    ensures longest { SpellsExpression (quoted 4094) (Text (replicate 4094 97)) }
    ensures too_long { (x : SyntaxTree) → SpellsExpression (quoted 4095) x → ⊥ }
{}
