//! Laws of what trees make that are put into a tree.
ghost use Rattle.std.specs.Prelude.{◌≡◌, ◌≢◌, ◌↔◌, ◌||◌, ◌++◌, List, [], ◌∷◌, true, false, Contains, IsTrue, IsSome, IsPermutation};
ghost use Rattle.std.specs.List.{list_any};
ghost use Rattle.std.proofs.Common.{◌⊎◌};
ghost use Rattle.tree_model.specs.Key.{Key};
ghost use Rattle.tree_model.specs.Path.{Path, is_prefix, is_proper_prefix, is_root};
ghost use Rattle.tree_model.specs.Primitive.{Primitive};
ghost use Rattle.tree_model.specs.PathMap.{get, sub};
ghost use Rattle.tree_model.specs.Tree.{Tree, null, IsTree, IsLawful};
ghost use Rattle.tree_model.specs.Put.{Put, location, written, overlaps, stays, merged, Puts, puts_below, IsLawfulPut};

/// A primitive stands at a path of the tree that is made exactly where it stood there and stays, or
/// where it is put there.
pub fn pairs_of_the_merged_tree()
    ensures { (t : Tree) (ws : List Put) (q : Path) (v : Primitive) → overlaps ws ≡ false → (get (merged t ws) q ≡ Some v) ↔ ((IsTrue (stays ws q) × (get t q ≡ Some v)) ⊎ Puts ws q v) }
{}

/// Trees that are put into a tree make a tree.
pub fn the_merged_tree_is_a_tree()
    ensures { (t : Tree) (ws : List Put) → overlaps ws ≡ false → IsTree t → ((w : Put) → Contains ws w → IsTree (written w)) → IsTree (merged t ws) }
{}

/// Lawful trees that are put into a lawful tree make a lawful tree.
pub fn lawful_puts_make_a_lawful_tree()
    ensures { (t : Tree) (ws : List Put) → overlaps ws ≡ false → IsLawful t → ((w : Put) → Contains ws w → IsLawfulPut w) → IsLawful (merged t ws) }
{}

/// What is put replaces what is at its location.
pub fn what_is_put_is_there()
    ensures { (t : Tree) (ws : List Put) (w : Put) → overlaps ws ≡ false → Contains ws w → sub (merged t ws) (location w) ≡ written w }
{}

/// Below a key, the tree that is made is what is made below that key, where nothing is put at the
/// root.
pub fn below_a_key()
    ensures { (t : Tree) (ws : List Put) (k : Key) → list_any (λ w. is_root (location w)) ws ≡ false → sub (merged t ws) (k ∷ []) ≡ merged (sub t (k ∷ [])) (puts_below k ws) }
{}

/// At a path that is neither at nor above nor below a location where something is put, nothing
/// changes.
pub fn unchanged_apart_from_puts()
    ensures { (t : Tree) (ws : List Put) (p : Path) → list_any (λ w. is_prefix (location w) p || is_prefix p (location w)) ws ≡ false → sub (merged t ws) p ≡ sub t p }
{}

/// Null that is put properly below a primitive changes nothing.
pub fn null_below_a_primitive()
    ensures { (t : Tree) (p q : Path) → IsTree t → IsSome (get t p) → IsTrue (is_proper_prefix p q) → merged t ((q, null) ∷ []) ≡ t }
{}

/// A tree that is not null, put properly below a primitive, replaces that primitive: at and below
/// it there is then what the tree alone makes of nothing.
pub fn put_below_a_primitive()
    ensures { (t u : Tree) (p q : Path) → IsTree t → IsSome (get t p) → is_root q ≡ false → u ≢ null → sub (merged t ((p ++ q, u) ∷ [])) p ≡ merged null ((q, u) ∷ []) }
{}

/// Trees whose locations do not overlap make the same tree in any order.
pub fn any_order_of_puts()
    ensures { (t : Tree) (ws xs : List Put) → IsPermutation ws xs → overlaps ws ≡ false → merged t ws ≡ merged t xs }
{}

/// Trees whose locations do not overlap may be put one after another: to put all at once is to put
/// the first, and then the others into what it leaves.
pub fn one_after_another()
    ensures { (t : Tree) (w : Put) (ws : List Put) → overlaps (w ∷ ws) ≡ false → merged t (w ∷ ws) ≡ merged (merged t (w ∷ [])) ws }
{}
