//! Worked values, each computed by the checker.
ghost use Rattle.std.specs.Prelude.{◌≡◌, ◌∷◌, [], true, false, pos, codes, Some, None};
ghost use Rattle.tree_model.specs.Primitive.{truth, whole, words};
ghost use Rattle.tokens.specs.Tokens.{tokens_in, identity_named};
ghost use Rattle.tokens.specs.Worked.{identity_in, user};

/// What identities are. It does nothing.
pub fn what_identities_are()
    ensures without_rights { identity_in (codes "{\"uid\":\"u\",\"provider\":\"p\"}") ≡ Some (user false []) }
    ensures administrator { identity_in (codes "{\"uid\":\"u\",\"provider\":\"p\",\"admin\":true}") ≡ Some (user true []) }
    ensures no_uid { identity_in (codes "{\"provider\":\"p\"}") ≡ None }
    ensures unknown_member { identity_in (codes "{\"uid\":\"u\",\"provider\":\"p\",\"name\":\"n\"}") ≡ None }
    ensures null_admin { identity_in (codes "{\"uid\":\"u\",\"provider\":\"p\",\"admin\":null}") ≡ None }
    ensures null_claims { identity_in (codes "{\"uid\":\"u\",\"provider\":\"p\",\"claims\":null}") ≡ None }
    ensures null_claim { identity_in (codes "{\"uid\":\"u\",\"provider\":\"p\",\"claims\":{\"a\":null,\"b\":1,\"c\":\"x\",\"d\":true}}") ≡ Some (user false ((codes "b", whole (pos 1)) ∷ (codes "c", words (codes "x")) ∷ (codes "d", truth true) ∷ [])) }
    ensures claims_of_objects { identity_in (codes "{\"uid\":\"u\",\"provider\":\"p\",\"claims\":{\"a\":{}}}") ≡ None }
    ensures last_one_counts { identity_in (codes "{\"uid\":1,\"uid\":\"u\",\"provider\":\"p\"}") ≡ Some (user false []) }
{}

/// What tokens files give. It does nothing.
pub fn what_tokens_files_give()
    ensures no_token { tokens_in (codes "{\"tokens\":{}}") ≡ Some [] }
    ensures one_token { tokens_in (codes "{\"tokens\":{\"s\":{\"uid\":\"u\",\"provider\":\"p\"}}}") ≡ Some ((codes "s", user false []) ∷ []) }
    ensures null { tokens_in (codes "{\"tokens\":null}") ≡ None }
    ensures number { tokens_in (codes "{\"tokens\":5}") ≡ None }
    ensures empty_secret { tokens_in (codes "{\"tokens\":{\"\":{\"uid\":\"u\",\"provider\":\"p\"}}}") ≡ None }
    ensures other_member { tokens_in (codes "{\"tokens\":{},\"rules\":{}}") ≡ None }
    ensures no_member { tokens_in (codes "{}") ≡ None }
    ensures no_object { tokens_in (codes "[]") ≡ None }
    ensures no_json { tokens_in (codes "{\"tokens\":{}") ≡ None }
    ensures no_text { tokens_in (255 ∷ []) ≡ None }
    ensures found { identity_named ((codes "r", user true []) ∷ (codes "s", user false []) ∷ []) (codes "s") ≡ Some (user false []) }
    ensures not_found { identity_named ((codes "r", user true []) ∷ (codes "s", user false []) ∷ []) (codes "t") ≡ None }
{}
