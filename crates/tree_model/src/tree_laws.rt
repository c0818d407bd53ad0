//! Laws of trees, subtrees and locations.
ghost use Rattle.std.specs.Prelude.{◌≡◌, ◌≢◌, ◌↔◌, ◌≤◌, ◌++◌, ◌∷◌, [], length, IsTrue, IsSome};
ghost use Rattle.std.specs.FinSet.{contains};
ghost use Rattle.tree_model.specs.Key.{Key};
ghost use Rattle.tree_model.specs.Path.{Path};
ghost use Rattle.tree_model.specs.Primitive.{Primitive, is_primitive};
ghost use Rattle.tree_model.specs.PathMap.{get, sub, exists, depth};
ghost use Rattle.tree_model.specs.Tree.{Tree, null, lone, existing, count, child_keys, IsLawful};

/// Trees that have the same at every path are equal.
pub fn equal_lookups_make_equal_trees()
    ensures { (t u : Tree) → ((p : Path) → get t p ≡ get u p) → t ≡ u }
{}

/// A subtree has at a path what the tree has there below it; so a subtree of a subtree is one.
pub fn a_subtree()
    ensures lookup { (t : Tree) (p q : Path) → get (sub t p) q ≡ get t (p ++ q) }
    ensures subtree { (t : Tree) (p q : Path) → sub (sub t p) q ≡ sub t (p ++ q) }
    ensures root { (t : Tree) → sub t [] ≡ t }
{}

/// A location exists exactly where a primitive stands at it or below it, which is where its subtree
/// is not null; these locations are the ones that are counted.
pub fn what_exists()
    ensures at_or_below { (t : Tree) (p : Path) → IsTrue (exists t p) ↔ ((q : Path) × IsSome (get t (p ++ q))) }
    ensures subtree { (t : Tree) (p : Path) → IsTrue (exists t p) ↔ (sub t p ≢ null) }
    ensures counted { (t : Tree) (p : Path) → contains (existing t) p ≡ exists t p }
{}

/// No primitive stands deeper than the depth; in a tree that is not null, one stands as deep.
pub fn how_deep_primitives_stand()
    ensures within { (t : Tree) (p : Path) → IsSome (get t p) → length p ≤ depth t }
    ensures reached { (t : Tree) → t ≢ null → (p : Path) × IsSome (get t p) × (length p ≡ depth t) }
    ensures nothing { depth null ≡ 0 }
{}

/// The tree of one primitive has it at the root and nothing below.
pub fn one_primitive()
    ensures root { (v : Primitive) → get (lone v) [] ≡ Some v }
    ensures below { (v : Primitive) (k : Key) → sub (lone v) (k ∷ []) ≡ null }
    ensures keys { (v : Primitive) → child_keys (lone v) ≡ [] }
    ensures count { (v : Primitive) → count (lone v) ≡ 1 }
    ensures depth { (v : Primitive) → depth (lone v) ≡ 0 }
    ensures lawful { (v : Primitive) → IsTrue (is_primitive v) → IsLawful (lone v) }
{}
