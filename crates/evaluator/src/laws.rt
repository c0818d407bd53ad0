//! The laws of meaning.
ghost use Rattle.std.specs.Prelude.{◌≡◌, ◌≢◌, ◌↔◌, ℕ, List, [], ◌++◌, true, Some, IsSome};
ghost use Rattle.path_capture.specs.Captures.{names};
ghost use Rattle.expr_parser.specs.Tree.{SyntaxTree, Variable, Capture};
ghost use Rattle.expr_types.specs.declared.place.Place.{Place};
ghost use Rattle.expr_types.specs.declared.sort.Sort.{Sort};
ghost use Rattle.expr_types.specs.HasSort.{HasSort, HasSomeSort};
ghost use Rattle.expr_types.specs.Checked.{Checked, IsChecked};
ghost use Rattle.expr_types.specs.Scope.{scope_of};
ghost use Rattle.evaluator.specs.Value.{truth, words};
ghost use Rattle.evaluator.specs.Operators.{text_within};
ghost use Rattle.evaluator.specs.Texts.{contains, replaced, replace, IsFirstPlace};
ghost use Rattle.evaluator.specs.Env.{Env, is_for, Suits};
ghost use Rattle.evaluator.specs.Mean.{mean};
ghost use Rattle.evaluator.specs.Holds.{outcome};
ghost use Rattle.evaluator.specs.Scoped.{LookSame};
ghost use Rattle.evaluator.specs.Sorted.{IsOfSort, StandsIn};

/// What has a sort means a part of that sort, or errs: so what the laws of sorts say, that a value stands
/// where one is wanted and that nothing is asked of a part of another sort, is true of what expressions
/// mean. A variable or a capture that has a sort is there. It does nothing.
pub fn what_has_a_sort_means_that_or_errs()
    ensures sorts { (place : Place) (env : Env) (x : SyntaxTree) (s : Sort) → is_for place env.access ≡ true → HasSort place (names env.captures) x s → IsOfSort s (mean x env) }
    ensures variables { (place : Place) (env : Env) (f : List ℕ) (s : Sort) → is_for place env.access ≡ true → HasSort place (names env.captures) (Variable f) s → IsSome (mean (Variable f) env) }
    ensures captures { (place : Place) (env : Env) (f : List ℕ) (s : Sort) → HasSort place (names env.captures) (Capture f) s → IsSome (mean (Capture f) env) }
{}

/// Each expression that stands in a checked one has a sort, in every environment that suits it: so the
/// law above is true of all of them. It does nothing.
pub fn all_parts_of_what_is_checked_have_sorts()
    ensures { (checked : Checked) (env : Env) (x : SyntaxTree) → IsChecked checked → Suits checked env → StandsIn x checked.tree → HasSomeSort checked.place (names env.captures) x }
{}

/// An expression gives the same in two environments that look the same to its scope. It does nothing.
pub fn what_an_expression_depends_on()
    ensures { (x : SyntaxTree) (one other : Env) → LookSame (scope_of x) one other → outcome x one ≡ outcome x other }
{}

/// A text contains a part exactly where it is the part with a text before it and a text behind it. It does nothing.
pub fn what_a_text_contains()
    ensures { (text part : List ℕ) → (contains (words text) (words part) ≡ Some (truth true)) ↔ ((front : List ℕ) × (back : List ℕ) × (text ≡ front ++ part ++ back)) }
{}

/// Of a part that is replaced: a text in which it stands nowhere stays the same; in another, the new text takes its
/// first place, and what stands behind that is treated likewise. What comes of it is given within the limit. It does
/// nothing.
pub fn what_replacing_gives()
    ensures nowhere { (text part with : List ℕ) → ((front back : List ℕ) → text ≢ front ++ part ++ back) → replaced part with text ≡ text }
    ensures at_the_first { (text part with front back : List ℕ) → part ≢ [] → IsFirstPlace part text front back → replaced part with text ≡ front ++ with ++ replaced part with back }
    ensures within { (text part with : List ℕ) → part ≢ [] → replace (words text) (words part) (words with) ≡ text_within (replaced part with text) }
{}
