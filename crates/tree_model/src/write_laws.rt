//! Laws of the proposed tree.
ghost use Rattle.std.specs.Prelude.{◌≡◌, ◌↔◌, ℕ, List, pos, true, false, Contains, IsTrue, Some, IsPermutation};
ghost use Rattle.std.proofs.Common.{◌⊎◌};
ghost use Rattle.tree_model.specs.Path.{Path};
ghost use Rattle.tree_model.specs.Primitive.{Primitive, is_whole};
ghost use Rattle.tree_model.specs.PathMap.{get};
ghost use Rattle.tree_model.specs.Tree.{Tree, IsLawful};
ghost use Rattle.tree_model.specs.Put.{Put, overlaps, stays, Puts};
ghost use Rattle.tree_model.specs.Draft.{Part, part_at};
ghost use Rattle.tree_model.specs.Write.{Write, made, all_made, as_write, proposed, IsLawfulWrite};

/// A primitive stands at a path of the proposed tree exactly where it stood there and stays, or
/// where a write puts a part there that is this primitive at the moment.
pub fn pairs_of_the_proposed_tree()
    ensures { (t : Tree) (ws : List Write) (now : ℕ) (q : Path) (v : Primitive) → overlaps ws ≡ false → (get (proposed t ws now) q ≡ Some v) ↔ ((IsTrue (stays ws q) × (get t q ≡ Some v)) ⊎ ((part : Part) × Puts ws q part × (part_at now part ≡ v))) }
{}

/// Lawful writes to a lawful tree propose a lawful tree at each moment up to 2^53 - 1.
pub fn lawful_writes_propose_a_lawful_tree()
    ensures { (t : Tree) (ws : List Write) (now : ℕ) → overlaps ws ≡ false → is_whole (pos now) ≡ true → IsLawful t → ((w : Write) → Contains ws w → IsLawfulWrite w) → IsLawful (proposed t ws now) }
{}

/// Writes that do not overlap propose the same tree in any order.
pub fn any_order_of_writes()
    ensures { (t : Tree) (ws xs : List Write) (now : ℕ) → IsPermutation ws xs → overlaps ws ≡ false → proposed t ws now ≡ proposed t xs now }
{}

/// Whether writes overlap is the same at each moment.
pub fn moments_do_not_overlap()
    ensures { (now : ℕ) (ws : List Write) → overlaps (all_made now ws) ≡ overlaps ws }
{}

/// What a write puts at a moment, taken as a write, is put at each moment.
pub fn a_made_write_is_made_alike()
    ensures { (now : ℕ) (w : Put) → made now (as_write w) ≡ w }
{}
