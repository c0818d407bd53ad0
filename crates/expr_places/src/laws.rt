//! Laws of places.
ghost use Rattle.std.specs.Prelude.{ℕ, List};
ghost use Rattle.std.specs.List.{AllByRecursion};
ghost use Rattle.expr_tokens.specs.declared.token.Token.{Token};
ghost use Rattle.expr_parser.specs.Tree.{SyntaxTree};
ghost use Rattle.expr_parser.specs.Grammar.{Derives};
ghost use Rattle.expr_places.specs.Places.{width, placed_parts, AreBetween, IsSpelledAt};

/// Law: an expression is spelled by as many tokens as its width says.
pub fn tokens_that_spell_an_expression()
    ensures { (n d : ℕ) (from to : List Token) (x : SyntaxTree) → Derives n d from to x → AreBetween from to (width x) }
{}

/// Law: each part of an expression is spelled by the tokens from its place on.
pub fn parts_are_spelled_at_their_places()
    ensures { (n d : ℕ) (from to : List Token) (x : SyntaxTree) → Derives n d from to x → AllByRecursion (IsSpelledAt from) (placed_parts x) }
{}
