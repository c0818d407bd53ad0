//! Laws of what is looked at.
ghost use Rattle.std.specs.Prelude.{◌≡◌, ℕ, List, [], ◌∷◌, ◌++◌, None};
ghost use Rattle.std.specs.List.{AllByRecursion};
ghost use Rattle.expr_tokens.specs.declared.token.Token.{Token};
ghost use Rattle.expr_parser.specs.Tree.{SyntaxTree};
ghost use Rattle.expr_parser.specs.Grammar.{Derives};
ghost use Rattle.evaluator.specs.Env.{Env};
ghost use Rattle.evaluator.specs.Mean.{mean};
ghost use Rattle.evaluator.specs.Sorted.{StandsIn};
ghost use Rattle.explainer.specs.Looks.{Look, look, looked_at};
ghost use Rattle.explainer.specs.Order.{AreInOrder};
ghost use Rattle.explainer.specs.Places.{IsSpelledThere};
ghost use Rattle.explainer.specs.Replaced.{Replaced, IsLookedAt};

/// Law: each part that is looked at stands in the expression, is spelled by the tokens from its place on, by as many as
/// are said, and means what stands beside it. The last is the whole.
pub fn what_is_looked_at_is_a_part_at_its_place()
    ensures stands { (x : SyntaxTree) (env : Env) → AllByRecursion (λ l. StandsIn l.part x) (looked_at 0 x env) }
    ensures spelled { (n d : ℕ) (from to : List Token) (x : SyntaxTree) (env : Env) → Derives n d from to x → AllByRecursion (IsSpelledThere from) (looked_at 0 x env) }
    ensures means { (x : SyntaxTree) (env : Env) → AllByRecursion (λ l. l.meaning ≡ mean l.part env) (looked_at 0 x env) }
    ensures last { (x : SyntaxTree) (env : Env) → (before : List Look) × (looked_at 0 x env ≡ before ++ look 0 x env ∷ []) }
{}

/// Law: exactly what is looked at makes a difference. With any other expression in the place of a part that is not looked
/// at, the whole means the same; with one that errs in the place of a part that is looked at, the whole errs.
pub fn what_is_looked_at_makes_the_difference()
    ensures left_out { (old new : SyntaxTree) (n : ℕ) (x y : SyntaxTree) (env : Env) → Replaced old new n x y → (IsLookedAt n old (looked_at 0 x env) → ⊥) → mean y env ≡ mean x env }
    ensures looked_at { (old new : SyntaxTree) (n : ℕ) (x y : SyntaxTree) (env : Env) → Replaced old new n x y → IsLookedAt n old (looked_at 0 x env) → mean new env ≡ None → mean y env ≡ None }
{}

/// Law: what is looked at is in the order of evaluation, from left to right, and parts before what they stand in; so none
/// is listed twice.
pub fn what_is_looked_at_is_in_order()
    ensures { (x : SyntaxTree) (env : Env) → AreInOrder (looked_at 0 x env) }
{}

/// Law: an error of a part that is looked at is an error of the whole, so that no error is passed over.
pub fn an_error_that_is_looked_at_is_one_of_the_whole()
    ensures { (x : SyntaxTree) (env : Env) → AllByRecursion (λ l. l.meaning ≡ None → mean x env ≡ None) (looked_at 0 x env) }
{}
