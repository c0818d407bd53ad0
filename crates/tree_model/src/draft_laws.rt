//! Laws of drafts: what a draft is in a step at a moment.
ghost use Rattle.std.specs.Prelude.{◌≡◌, ℕ, pos, true, option_map};
ghost use Rattle.tree_model.specs.Path.{Path};
ghost use Rattle.tree_model.specs.Primitive.{is_whole};
ghost use Rattle.tree_model.specs.PathMap.{get, is_null, sub, exists, depth};
ghost use Rattle.tree_model.specs.Tree.{Tree, count, child_keys, IsLawful};
ghost use Rattle.tree_model.specs.Draft.{Draft, part_at, tree_at, as_draft, IsFixed, IsLawfulDraft};

/// At each path of a draft stands the primitive that its part is at that moment.
pub fn a_draft_at_a_moment()
    ensures { (now : ℕ) (d : Draft) (p : Path) → get (tree_at now d) p ≡ option_map (part_at now) (get d p) }
{}

/// A draft reaches as deep at each moment, and the same locations and children exist in it.
pub fn a_draft_keeps_its_shape()
    ensures null { (now : ℕ) (d : Draft) → is_null (tree_at now d) ≡ is_null d }
    ensures depth { (now : ℕ) (d : Draft) → depth (tree_at now d) ≡ depth d }
    ensures count { (now : ℕ) (d : Draft) → count (tree_at now d) ≡ count d }
    ensures keys { (now : ℕ) (d : Draft) → child_keys (tree_at now d) ≡ child_keys d }
    ensures locations { (now : ℕ) (d : Draft) (p : Path) → exists (tree_at now d) p ≡ exists d p }
{}

/// What is below a path of a draft at a moment is what the draft below that path is at that moment.
pub fn what_is_below_in_a_draft()
    ensures { (now : ℕ) (d : Draft) (p : Path) → sub (tree_at now d) p ≡ tree_at now (sub d p) }
{}

/// A tree, taken as a draft, is that tree at each moment.
pub fn a_tree_is_a_draft()
    ensures { (now : ℕ) (t : Tree) → tree_at now (as_draft t) ≡ t }
{}

/// A draft without a moment is one tree at each moment, and a tree, taken as a draft, has none.
pub fn a_draft_without_a_moment()
    ensures tree { (t : Tree) → IsFixed (as_draft t) }
    ensures draft { (now : ℕ) (d : Draft) → IsFixed d → as_draft (tree_at now d) ≡ d }
{}

/// A lawful draft is a lawful tree at each moment up to 2^53 - 1.
pub fn a_lawful_draft_at_a_moment()
    ensures { (now : ℕ) (d : Draft) → is_whole (pos now) ≡ true → IsLawfulDraft d → IsLawful (tree_at now d) }
{}
