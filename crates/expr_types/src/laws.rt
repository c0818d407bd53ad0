//! The laws of sorts and faults.
ghost use Rattle.std.specs.Prelude.{◌≡◌, ◌⊎◌, ℕ, List, true, Contains};
ghost use Rattle.expr_tokens.specs.Words as words;
ghost use Rattle.path_capture.specs.Name as captures;
ghost use Rattle.expr_parser.specs.Tree.{SyntaxTree, Arguments, Group, Member, Call};
ghost use Rattle.expr_types.specs.Names.{is_among, is_spelled};
ghost use Rattle.expr_types.specs.HasSort.{HasSort, HasSomeSort, HasValue};
ghost use Rattle.expr_types.specs.Wanted.{WantsValue, LooksInto};
ghost use Rattle.expr_types.specs.Faults.{FirstFault, IsRefused, StandsIn, parts};
ghost use Rattle.expr_types.specs.Checked.{captures_in};
ghost use Rattle.expr_types.specs.declared.place.Place.{Place};
ghost use Rattle.expr_types.specs.declared.sort.Sort.{Sort};
ghost use Rattle.expr_types.specs.declared.fault.TypeFault.{TypeFault};
ghost use Rattle.expr_types.specs.declared.fault.TypeFault.TheVariants.{NotInProfile, UnknownName};

/// An expression has at most one sort. It does nothing.
pub fn one_sort()
    ensures { (place : Place) (names : List (List ℕ)) (x : SyntaxTree) (r s : Sort) → HasSort place names x r → HasSort place names x s → r ≡ s }
{}

/// An expression has at most one first fault. It does nothing.
pub fn one_first_fault()
    ensures { (place : Place) (names : List (List ℕ)) (x : SyntaxTree) (d e : TypeFault) → FirstFault place names x d → FirstFault place names x e → d ≡ e }
{}

/// Every expression has a sort or a first fault. It does nothing.
pub fn each_has_a_sort_or_a_first_fault()
    ensures { (place : Place) (names : List (List ℕ)) (x : SyntaxTree) → HasSomeSort place names x ⊎ ((e : TypeFault) × FirstFault place names x e) }
{}

/// No expression has both a sort and a first fault. It does nothing.
pub fn never_both()
    ensures { (place : Place) (names : List (List ℕ)) (x : SyntaxTree) (s : Sort) (e : TypeFault) → HasSort place names x s → FirstFault place names x e → ⊥ }
{}

/// The name that a fault is about stands in the expression. It does nothing.
pub fn a_named_fault_stands_in_the_expression()
    ensures unknown { (place : Place) (names : List (List ℕ)) (x : SyntaxTree) (f : List ℕ) → FirstFault place names x (UnknownName f) → StandsIn f x }
    ensures excluded { (place : Place) (names : List (List ℕ)) (x : SyntaxTree) (f : List ℕ) → FirstFault place names x (NotInProfile f) → StandsIn f x }
{}

/// An expression keeps its sort below all captures that have the names it uses. It does nothing.
pub fn more_captures_change_no_sort()
    ensures { (place : Place) (names more : List (List ℕ)) (x : SyntaxTree) (s : Sort) → ((f : List ℕ) → is_among f (captures_in x) ≡ true → is_among f names ≡ true → is_among f more ≡ true) → HasSort place names x s → HasSort place more x s }
{}

/// In an expression that has a sort, each part of which a value is wanted may stand there: so neither a
/// snapshot nor a query does. It does nothing.
pub fn a_value_stands_where_one_is_wanted()
    ensures value { (place : Place) (names : List (List ℕ)) (x part : SyntaxTree) (s : Sort) → HasSort place names x s → WantsValue x part → HasValue place names part }
    ensures no_snapshot { (place : Place) (names : List (List ℕ)) (x part : SyntaxTree) (s : Sort) → HasSort place names x s → WantsValue x part → HasSort place names part Sort.Snapshot → ⊥ }
    ensures no_query { (place : Place) (names : List (List ℕ)) (x part : SyntaxTree) (s : Sort) → HasSort place names x s → WantsValue x part → HasSort place names part Sort.Query → ⊥ }
{}

/// In an expression that has a sort, a part before a dot has the sort into which the name behind the dot
/// looks: so nothing is asked of a part of another sort. It does nothing.
pub fn what_is_looked_into_has_the_sort_for_it()
    ensures member { (place : Place) (names : List (List ℕ)) (x : SyntaxTree) (f : List ℕ) (s : Sort) → HasSort place names (Member x f) s → (r : Sort) × HasSort place names x r × LooksInto (Member x f) x r }
    ensures call { (place : Place) (names : List (List ℕ)) (x : SyntaxTree) (f : List ℕ) (xs : Arguments) (s : Sort) → HasSort place names (Call x f xs) s → (r : Sort) × HasSort place names x r × LooksInto (Call x f xs) x r }
{}

/// In an expression that has a sort, a value is wanted of each part, something is asked of it behind a dot,
/// or it stands in parentheses. It does nothing.
pub fn each_part_is_looked_at()
    ensures { (place : Place) (names : List (List ℕ)) (x part : SyntaxTree) (s : Sort) → HasSort place names x s → Contains (parts x) part → WantsValue x part ⊎ ((r : Sort) × HasSort place names part r × LooksInto x part r) ⊎ (x ≡ Group part) }
{}

/// The captures that an expression with a sort names are there. It does nothing.
pub fn captures_that_are_named_are_there()
    ensures { (place : Place) (names : List (List ℕ)) (x : SyntaxTree) (s : Sort) (f : List ℕ) → HasSort place names x s → is_among f (captures_in x) ≡ true → is_among f names ≡ true }
{}

/// The name of a use that is a row of the table is one that some row spells, but for the name of a
/// claim, which may be any. It does nothing.
pub fn each_row_is_spelled()
    ensures member { (place : Place) (names : List (List ℕ)) (x : SyntaxTree) (f : List ℕ) (s : Sort) → HasSort place names (Member x f) s → HasSort place names x Sort.Token ⊎ (is_spelled f ≡ true) }
    ensures call { (place : Place) (names : List (List ℕ)) (x : SyntaxTree) (f : List ℕ) (xs : Arguments) (s : Sort) → HasSort place names (Call x f xs) s → is_spelled f ≡ true }
{}

/// An expression may stand where a value is wanted, or is refused; never both, and for one fault. It
/// does nothing.
pub fn one_answer()
    ensures some { (place : Place) (names : List (List ℕ)) (x : SyntaxTree) → HasValue place names x ⊎ ((e : TypeFault) × IsRefused place names x e) }
    ensures never_both { (place : Place) (names : List (List ℕ)) (x : SyntaxTree) (e : TypeFault) → HasValue place names x → IsRefused place names x e → ⊥ }
    ensures one { (place : Place) (names : List (List ℕ)) (x : SyntaxTree) (d e : TypeFault) → IsRefused place names x d → IsRefused place names x e → d ≡ e }
{}

/// What an expression takes for a name, and what a rules file takes for the name of a capture, are the
/// same. It does nothing.
pub fn captures_have_names_of_expressions()
    ensures { (text : List ℕ) → captures.is_name text ≡ words.is_name text }
{}
