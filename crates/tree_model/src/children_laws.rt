//! Laws of children: those of any tree, and the tree of given ones.
ghost use Rattle.std.specs.Prelude.{◌≡◌, ◌≢◌, ◌+◌, List, [], ◌∷◌, map, sum_by};
ghost use Rattle.std.specs.List.{AllByRecursion};
ghost use Rattle.std.specs.FinMap.{find};
ghost use Rattle.std.specs.FinMap as map_of;
ghost use Rattle.tree_model.specs.Key.{Key, key_cmp};
ghost use Rattle.tree_model.specs.PathMap.{get, sub, depth, greatest};
ghost use Rattle.tree_model.specs.Tree.{Tree, null, non_null, count, children, child_keys, IsLawful};
ghost use Rattle.tree_model.specs.Children.{graft, AreChildren, IsLawfulChild};

/// The child of a key is the subtree at it, unless that is null.
pub fn the_children_of_a_tree()
    ensures { (t : Tree) (k : Key) → map_of.get (children t) k ≡ non_null (sub t (k ∷ [])) }
{}

/// The tree of given children: at each key stands the child that was given with it, and at others
/// nothing; its keys, how many locations exist, and how deep it is.
pub fn given_children()
    ensures some { (cs : List (Key × Tree)) → AreChildren cs → graft cs ≢ null }
    ensures root { (cs : List (Key × Tree)) → get (graft cs) [] ≡ None }
    ensures child { (cs : List (Key × Tree)) (k : Key) → AreChildren cs → non_null (sub (graft cs) (k ∷ [])) ≡ find key_cmp k cs }
    ensures keys { (cs : List (Key × Tree)) → AreChildren cs → child_keys (graft cs) ≡ map (λ c. c.0) cs }
    ensures count { (cs : List (Key × Tree)) → AreChildren cs → count (graft cs) ≡ 1 + sum_by (λ c. count c.1) cs }
    ensures depth { (cs : List (Key × Tree)) → AreChildren cs → depth (graft cs) ≡ greatest (map (λ c. depth c.1 + 1) cs) }
{}

/// The tree of lawful children is lawful.
pub fn lawful_children()
    ensures { (cs : List (Key × Tree)) → AreChildren cs → AllByRecursion IsLawfulChild cs → IsLawful (graft cs) }
{}
