//! Laws of paths.
ghost use Rattle.std.specs.Prelude.{◌≡◌, ◌↔◌, ◌+◌, ◌≤◌, ◌++◌, ◌∷◌, ℕ, Some, Contains, IsTrue, length, slice_get, take};
ghost use Rattle.std.specs.Cmp.{IsTotalOrder};
ghost use Rattle.std.specs.declared.cmp.Ordering.{Ordering};
ghost use Rattle.tree_model.specs.Key.{Key};
ghost use Rattle.tree_model.specs.Path.{Path, path_cmp, strip_prefix, is_prefix, is_proper_prefix, prefixes};

/// A path is a prefix followed by what is left below it; by a key more, below a proper prefix.
pub fn what_is_left_below_a_prefix()
    ensures left { (p q r : Path) → (strip_prefix p q ≡ Some r) ↔ (q ≡ p ++ r) }
    ensures prefix { (p q : Path) → IsTrue (is_prefix p q) ↔ ((r : Path) × (q ≡ p ++ r)) }
    ensures proper { (p q : Path) → IsTrue (is_proper_prefix p q) ↔ ((k : Key) × (r : Path) × (q ≡ p ++ k ∷ r)) }
{}

/// The prefixes of a path are those that are called so, shortest first: the first has no key, each
/// further one a key more, and the last is the path itself.
pub fn prefixes_of_a_path()
    ensures which { (p q : Path) → Contains (prefixes q) p ↔ IsTrue (is_prefix p q) }
    ensures shortest_first { (q : Path) (i : ℕ) → i ≤ length q → slice_get (prefixes q) i ≡ Some (take i q) }
    ensures no_others { (q : Path) → length (prefixes q) ≡ length q + 1 }
{}

/// Paths are in a total order, in which only equal paths tie, and a prefix comes first.
pub fn the_order_of_paths()
    ensures total { IsTotalOrder path_cmp }
    ensures ties { (p q : Path) → path_cmp p q ≡ Ordering.Equal → p ≡ q }
    ensures prefix_first { (p q : Path) → IsTrue (is_proper_prefix p q) → path_cmp p q ≡ Ordering.Less }
{}
