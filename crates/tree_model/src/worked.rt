//! Worked values, each computed by the checker: small trees, and what writes make of them.
ghost use Rattle.std.specs.Prelude.{◌≡◌, ◌∷◌, [], true, false, codes, pos, negsuc, replicate};
ghost use Rattle.tree_model.specs.Key.{is_key};
ghost use Rattle.tree_model.specs.Path.{is_path};
ghost use Rattle.tree_model.specs.Primitive.{truth, whole, words, is_primitive};
ghost use Rattle.tree_model.specs.PathMap.{exists};
ghost use Rattle.tree_model.specs.Tree.{null, count, child_keys, IsTree};
ghost use Rattle.tree_model.specs.Put.{overlaps, merged};
ghost use Rattle.tree_model.specs.Worked.{tree_of_pairs};

/// In `{"a":{"b":1}}` there are the locations `/`, `/a` and `/a/b`, and no others: `/a/c` does not exist.
pub fn a_location_exists_at_or_above_a_primitive()
    ensures root { let t = tree_of_pairs ((codes "a" ∷ codes "b" ∷ [], whole (pos 1)) ∷ []) in exists t [] ≡ true }
    ensures above { let t = tree_of_pairs ((codes "a" ∷ codes "b" ∷ [], whole (pos 1)) ∷ []) in exists t (codes "a" ∷ []) ≡ true }
    ensures at { let t = tree_of_pairs ((codes "a" ∷ codes "b" ∷ [], whole (pos 1)) ∷ []) in exists t (codes "a" ∷ codes "b" ∷ []) ≡ true }
    ensures nowhere_else { let t = tree_of_pairs ((codes "a" ∷ codes "b" ∷ [], whole (pos 1)) ∷ []) in exists t (codes "a" ∷ codes "c" ∷ []) ≡ false }
    ensures counted { let t = tree_of_pairs ((codes "a" ∷ codes "b" ∷ [], whole (pos 1)) ∷ []) in count t ≡ 3 }
{}

/// A primitive at `/a` and another at `/a/b` are no tree.
pub fn no_primitive_lies_below_another()
    ensures { ¬ (IsTree (tree_of_pairs ((codes "a" ∷ [], whole (pos 5)) ∷ (codes "a" ∷ codes "b" ∷ [], whole (pos 1)) ∷ []))) }
{}

/// Removing `/a` from `{"a":{"b":1}}` leaves nothing: what is empty is not stored.
pub fn what_is_empty_is_not_stored()
    ensures { merged (tree_of_pairs ((codes "a" ∷ codes "b" ∷ [], whole (pos 1)) ∷ [])) ((codes "a" ∷ [], null) ∷ []) ≡ null }
{}

/// The elements 0, 2 and 10 of an array are children of these keys, in the order of their bytes.
pub fn an_array_is_an_object()
    ensures { child_keys (tree_of_pairs ((codes "0" ∷ [], truth true) ∷ (codes "2" ∷ [], truth true) ∷ (codes "10" ∷ [], truth true) ∷ []))
        ≡ codes "0" ∷ codes "10" ∷ codes "2" ∷ [] }
{}

/// Setting `/a` to 5 in `{"a":{"b":1,"c":2},"d":3}` gives `{"a":5,"d":3}`.
pub fn a_write_replaces_what_is_at_its_location()
    ensures { merged
        (tree_of_pairs ((codes "a" ∷ codes "b" ∷ [], whole (pos 1)) ∷ (codes "a" ∷ codes "c" ∷ [], whole (pos 2)) ∷ (codes "d" ∷ [], whole (pos 3)) ∷ []))
        ((codes "a" ∷ [], tree_of_pairs (([], whole (pos 5)) ∷ [])) ∷ [])
        ≡ tree_of_pairs ((codes "a" ∷ [], whole (pos 5)) ∷ (codes "d" ∷ [], whole (pos 3)) ∷ []) }
{}

/// Setting `/a/b` to true in `{"a":5}` gives `{"a":{"b":true}}`.
pub fn a_write_below_a_primitive_replaces_it()
    ensures { merged
        (tree_of_pairs ((codes "a" ∷ [], whole (pos 5)) ∷ []))
        ((codes "a" ∷ codes "b" ∷ [], tree_of_pairs (([], truth true) ∷ [])) ∷ [])
        ≡ tree_of_pairs ((codes "a" ∷ codes "b" ∷ [], truth true) ∷ []) }
{}

/// Removing `/a/b` in `{"a":5}` changes nothing.
pub fn a_removal_below_a_primitive_changes_nothing()
    ensures { merged (tree_of_pairs ((codes "a" ∷ [], whole (pos 5)) ∷ [])) ((codes "a" ∷ codes "b" ∷ [], null) ∷ [])
        ≡ tree_of_pairs ((codes "a" ∷ [], whole (pos 5)) ∷ []) }
{}

/// An update of nothing by `/a/n` and `/b/n` makes both.
pub fn an_update_is_made_in_whole()
    ensures { merged null
        ((codes "a" ∷ codes "n" ∷ [], tree_of_pairs (([], whole (pos 1)) ∷ [])) ∷ (codes "b" ∷ codes "n" ∷ [], tree_of_pairs (([], whole (pos 1)) ∷ [])) ∷ [])
        ≡ tree_of_pairs ((codes "a" ∷ codes "n" ∷ [], whole (pos 1)) ∷ (codes "b" ∷ codes "n" ∷ [], whole (pos 1)) ∷ []) }
{}

/// Removing `/w/1/size` in `{"w":{"1":{"color":"red","size":3}}}` leaves the color alone.
pub fn removing_a_child_leaves_its_siblings()
    ensures { merged
        (tree_of_pairs ((codes "w" ∷ codes "1" ∷ codes "color" ∷ [], words (codes "red")) ∷ (codes "w" ∷ codes "1" ∷ codes "size" ∷ [], whole (pos 3)) ∷ []))
        ((codes "w" ∷ codes "1" ∷ codes "size" ∷ [], null) ∷ [])
        ≡ tree_of_pairs ((codes "w" ∷ codes "1" ∷ codes "color" ∷ [], words (codes "red")) ∷ []) }
{}

/// `/a` and `/a/b` overlap, `/a/b` and `/a/c` do not.
pub fn which_writes_overlap()
    ensures above { overlaps ((codes "a" ∷ [], null) ∷ (codes "a" ∷ codes "b" ∷ [], null) ∷ []) ≡ true }
    ensures same { overlaps ((codes "a" ∷ [], null) ∷ (codes "a" ∷ [], null) ∷ []) ≡ true }
    ensures beside { overlaps ((codes "a" ∷ codes "b" ∷ [], null) ∷ (codes "a" ∷ codes "c" ∷ [], null) ∷ []) ≡ false }
{}

/// A key has 1 to 768 bytes, and no control characters or signs that have a meaning in paths.
pub fn which_keys_are_lawful()
    ensures longest { is_key (replicate 768 97) ≡ true }
    ensures too_long { is_key (replicate 769 97) ≡ false }
    ensures empty { is_key [] ≡ false }
    ensures dot { is_key (codes "a.b") ≡ false }
    ensures slash { is_key (codes "a/b") ≡ false }
    ensures escape { is_key (27 ∷ []) ≡ false }
    ensures delete { is_key (127 ∷ []) ≡ false }
    ensures space { is_key (codes "a b") ≡ true }
    ensures not_utf8 { is_key (255 ∷ []) ≡ false }
{}

/// A path has at most 32 keys.
pub fn which_paths_are_lawful()
    ensures longest { is_path (replicate 32 (codes "a")) ≡ true }
    ensures too_long { is_path (replicate 33 (codes "a")) ≡ false }
{}

/// Whole numbers go from -(2^53 - 1) to 2^53 - 1, and texts to 65,536 bytes.
pub fn which_primitives_are_lawful()
    ensures greatest { is_primitive (whole (pos 9007199254740991)) ≡ true }
    ensures too_great { is_primitive (whole (pos 9007199254740992)) ≡ false }
    ensures least { is_primitive (whole (negsuc 9007199254740990)) ≡ true }
    ensures too_small { is_primitive (whole (negsuc 9007199254740991)) ≡ false }
    ensures longest { is_primitive (words (replicate 65536 97)) ≡ true }
    ensures too_long { is_primitive (words (replicate 65537 97)) ≡ false }
{}
