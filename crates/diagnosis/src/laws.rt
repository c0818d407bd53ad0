//! Laws of what is shown.
ghost use Rattle.std.specs.Prelude.{ℕ, List};
ghost use Rattle.expr_parser.specs.Tree.{SyntaxTree};
ghost use Rattle.expr_types.specs.declared.place.Place.{Place};
ghost use Rattle.expr_types.specs.declared.fault.TypeFault.{TypeFault};
ghost use Rattle.expr_types.specs.Faults.{FirstFault, IsRefused};
ghost use Rattle.diagnosis.specs.Shown.{ShowsBehind, ShowsInRule};

/// Law: what shows in an expression is its first fault; and what shows in a rule is why it is refused.
pub fn what_shows_is_the_first_fault()
    ensures first { (place : Place) (names : List (List ℕ)) (x : SyntaxTree) (e : TypeFault) (n : ℕ) → ShowsBehind place names x e n → FirstFault place names x e }
    ensures refused { (place : Place) (names : List (List ℕ)) (x : SyntaxTree) (e : TypeFault) (n : ℕ) → ShowsInRule place names x e n → IsRefused place names x e }
{}
