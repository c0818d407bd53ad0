//! The laws of queries and selections.
ghost use Rattle.std.specs.Prelude.{◌≡◌, ◌≤◌, ◌∷◌, [], ℕ, length, true, false, Option, None, Some};
ghost use Rattle.std.specs.Cmp.{IsTotalOrder};
ghost use Rattle.std.specs.FinMap as map_of;
ghost use Rattle.std.specs.declared.cmp.Ordering.{Ordering};
ghost use Rattle.tree_model.specs.Key.{Key};
ghost use Rattle.tree_model.specs.Path.{Path};
ghost use Rattle.tree_model.specs.PathMap.{get, sub};
ghost use Rattle.tree_model.specs.Tree.{Tree, children, child_keys};
ghost use Rattle.listeners.specs.Order.{list_cmp, place_cmp};
ghost use Rattle.listeners.specs.Query.{Order, Query};
ghost use Rattle.listeners.specs.Selection.{Child, child_cmp, is_kept, selection};

/// The order of a list's keys is total, and any two keys differ in it. It does nothing.
pub fn the_order_of_keys()
    ensures total { IsTotalOrder list_cmp }
    ensures ties { (k l : Key) → list_cmp k l ≡ Ordering.Equal → k ≡ l }
{}

/// The order of values is total. It does nothing.
pub fn the_order_of_values()
    ensures { IsTotalOrder place_cmp }
{}

/// The order of children is total, whatever they are ordered by, and any two children of different keys
/// differ in it. It does nothing.
pub fn the_order_of_children()
    ensures total { (order : Option Order) → IsTotalOrder (child_cmp order) }
    ensures ties { (order : Option Order) (c d : Child) → child_cmp order c d ≡ Ordering.Equal → c.0 ≡ d.0 }
{}

/// A query selects each child that is kept, with all that stands below it, and nothing else. It does
/// nothing.
pub fn what_a_query_selects()
    ensures kept { (query : Query) (t : Tree) (k : Key) (path : Path) → is_kept query (map_of.entries (children t)) (k, sub t (k ∷ [])) ≡ true
        → get (selection t (Some query)) (k ∷ path) ≡ get t (k ∷ path) }
    ensures others { (query : Query) (t : Tree) (k : Key) (path : Path) → is_kept query (map_of.entries (children t)) (k, sub t (k ∷ [])) ≡ false
        → get (selection t (Some query)) (k ∷ path) ≡ None }
    ensures root { (query : Query) (t : Tree) → get (selection t (Some query)) [] ≡ None }
{}

/// Without a query all of a tree is selected. It does nothing.
pub fn no_query_selects_the_whole()
    ensures { (t : Tree) → selection t None ≡ t }
{}

/// Under a limit at most that many children are selected. It does nothing.
pub fn a_limit_bounds_the_selection()
    ensures first { (query : Query) (t : Tree) (n : ℕ) → query.limit_to_first ≡ Some n → length (child_keys (selection t (Some query))) ≤ n }
    ensures last { (query : Query) (t : Tree) (n : ℕ) → query.limit_to_last ≡ Some n → length (child_keys (selection t (Some query))) ≤ n }
{}
