//! Worked values, each computed by the checker: which keys and values come first, and what small queries select.
ghost use Rattle.std.specs.Prelude.{◌≡◌, ◌∷◌, [], true, false, codes, pos, negsuc, Some};
ghost use Rattle.std.specs.declared.cmp.Ordering.TheVariants.{Less, Equal};
ghost use Rattle.tree_model.specs.Primitive.{truth, whole, words};
ghost use Rattle.tree_model.specs.Tree.{null};
ghost use Rattle.tree_model.specs.Worked.{tree_of_pairs};
ghost use Rattle.listeners.specs.Order.{list_cmp, nothing, value, location, place_cmp};
ghost use Rattle.listeners.specs.Query.{by_key, by_value, by_child};
ghost use Rattle.listeners.specs.Selection.{selection};
ghost use Rattle.listeners.specs.Worked.{flat, numbered_keys, kinds, ties, by};

/// Keys in their order: `-2147483648`, `-3`, `0`, `-0`, `1`, `01`, `2`, `10`, and then `+1`, `-2147483649`,
/// `2147483648` and `a`, which are no numbers of 32 bits. It does nothing.
pub fn which_keys_come_first()
    ensures least { list_cmp (codes "-2147483648") (codes "-3") ≡ Less }
    ensures negative { list_cmp (codes "-3") (codes "0") ≡ Less }
    ensures shorter_zero { list_cmp (codes "0") (codes "-0") ≡ Less }
    ensures positive { list_cmp (codes "-0") (codes "1") ≡ Less }
    ensures shorter { list_cmp (codes "1") (codes "01") ≡ Less }
    ensures by_number { list_cmp (codes "01") (codes "2") ≡ Less }
    ensures not_by_bytes { list_cmp (codes "2") (codes "10") ≡ Less }
    ensures no_sign_but_minus { list_cmp (codes "10") (codes "+1") ≡ Less }
    ensures below_32_bits { list_cmp (codes "+1") (codes "-2147483649") ≡ Less }
    ensures above_32_bits { list_cmp (codes "-2147483649") (codes "2147483648") ≡ Less }
    ensures texts { list_cmp (codes "2147483648") (codes "a") ≡ Less }
{}

/// Values in their order: nothing, `false`, `true`, `-1`, `2`, `"B"`, `"a"`, and then locations with children,
/// which are equal. It does nothing.
pub fn which_values_come_first()
    ensures nothing_first { place_cmp nothing (value (truth false)) ≡ Less }
    ensures booleans { place_cmp (value (truth false)) (value (truth true)) ≡ Less }
    ensures numbers_behind { place_cmp (value (truth true)) (value (whole (negsuc 0))) ≡ Less }
    ensures numbers { place_cmp (value (whole (negsuc 0))) (value (whole (pos 2))) ≡ Less }
    ensures texts_behind { place_cmp (value (whole (pos 2))) (value (words (codes "B"))) ≡ Less }
    ensures texts { place_cmp (value (words (codes "B"))) (value (words (codes "a"))) ≡ Less }
    ensures locations_behind { place_cmp (value (words (codes "a"))) location ≡ Less }
    ensures locations { place_cmp location location ≡ Equal }
{}

/// What queries by keys select of `{"-3":1,"01":2,"1":3,"10":4,"2":5,"2147483648":6,"a":7}`. It does nothing.
pub fn what_queries_by_keys_select()
    ensures first { selection numbered_keys (Some (record (by by_key) { limit_to_first = Some 3 }))
        ≡ flat ((codes "-3", whole (pos 1)) ∷ (codes "01", whole (pos 2)) ∷ (codes "1", whole (pos 3)) ∷ []) }
    ensures last { selection numbered_keys (Some (record (by by_key) { limit_to_last = Some 2 }))
        ≡ flat ((codes "2147483648", whole (pos 6)) ∷ (codes "a", whole (pos 7)) ∷ []) }
    ensures from_a_key { selection numbered_keys (Some (record (by by_key) { start_at = Some (words (codes "1")); limit_to_first = Some 2 }))
        ≡ flat ((codes "01", whole (pos 2)) ∷ (codes "1", whole (pos 3)) ∷ []) }
    ensures up_to_a_key { selection numbered_keys (Some (record (by by_key) { end_at = Some (words (codes "2")); limit_to_last = Some 2 }))
        ≡ flat ((codes "01", whole (pos 2)) ∷ (codes "2", whole (pos 5)) ∷ []) }
    ensures one_key { selection numbered_keys (Some (record (by by_key) { equal_to = Some (words (codes "1")) }))
        ≡ flat ((codes "1", whole (pos 3)) ∷ []) }
    ensures texts { selection numbered_keys (Some (record (by by_key) { start_at = Some (words []) }))
        ≡ flat ((codes "2147483648", whole (pos 6)) ∷ (codes "a", whole (pos 7)) ∷ []) }
    ensures no_key { selection numbered_keys (Some (record (by by_key) { start_at = Some (words (codes "a")); end_at = Some (words (codes "2")) })) ≡ null }
{}

/// What queries by values, and by the values at `n` below each child, select of
/// `{"a":false,"b":true,"c":-1,"d":"x","e":{"n":1},"f":"A"}`, and of `{"10":1,"9":1,"a":1,"b":1}`, where keys
/// decide. It does nothing.
pub fn what_queries_by_values_select()
    ensures between { selection kinds (Some (record (by by_value) { start_at = Some (truth true); end_at = Some (words (codes "B")) }))
        ≡ flat ((codes "b", truth true) ∷ (codes "c", whole (negsuc 0)) ∷ (codes "f", words (codes "A")) ∷ []) }
    ensures location_last { selection kinds (Some (record (by by_value) { start_at = Some (words (codes "x")) }))
        ≡ tree_of_pairs ((codes "d" ∷ [], words (codes "x")) ∷ (codes "e" ∷ codes "n" ∷ [], whole (pos 1)) ∷ []) }
    ensures below { selection kinds (Some (record (by (by_child (codes "n" ∷ []))) { equal_to = Some (whole (pos 1)) }))
        ≡ tree_of_pairs ((codes "e" ∷ codes "n" ∷ [], whole (pos 1)) ∷ []) }
    ensures nothing_below_first { selection kinds (Some (record (by (by_child (codes "n" ∷ []))) { limit_to_last = Some 2 }))
        ≡ tree_of_pairs ((codes "e" ∷ codes "n" ∷ [], whole (pos 1)) ∷ (codes "f" ∷ [], words (codes "A")) ∷ []) }
    ensures first_of_ties { selection ties (Some (record (by by_value) { limit_to_first = Some 3 }))
        ≡ flat ((codes "9", whole (pos 1)) ∷ (codes "10", whole (pos 1)) ∷ (codes "a", whole (pos 1)) ∷ []) }
    ensures last_of_ties { selection ties (Some (record (by by_value) { limit_to_last = Some 2 }))
        ≡ flat ((codes "a", whole (pos 1)) ∷ (codes "b", whole (pos 1)) ∷ []) }
{}
