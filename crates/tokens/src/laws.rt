//! The laws of tokens.
ghost use Rattle.std.specs.Prelude.{◌≡◌, ℕ, List, true, Some, option_and_then};
ghost use Rattle.std.specs.List.{AllByRecursion};
ghost use Rattle.std.specs.List.Sorted.{IsStrictlySortedBy};
ghost use Rattle.std.specs.Cmp.Lexicographic.{slice_cmp};
ghost use Rattle.std.specs.Ordering.{nat_cmp};
ghost use Rattle.serde_json.specs.Data.{Data, Members};
ghost use Rattle.serde_json.specs.Find.{get, get_member};
ghost use Rattle.evaluator.specs.Identity.{Claims, claim_named};
ghost use Rattle.tokens.specs.Tokens.{Tokens, names_of, claim_of, claims_of, is_secret, identity_of, tokens_of, identity_named};

/// Who signs in by a secret is the identity that stands under this very name, and by any other text nobody
/// signs in. It does nothing.
pub fn find_gives_what_stands_in_the_file()
    ensures { (d : Data) (tokens : Tokens) (secret : List ℕ) → tokens_of d ≡ Some tokens → identity_named tokens secret ≡ option_and_then identity_of (get secret d) }
{}

/// The claim of a name is what the member of this name claims: none where there is no such member, or it is
/// null. The names ascend, as those of every `Value` do. It does nothing.
pub fn a_claim_is_what_stands_in_the_file()
    ensures { (ms : Members) (claims : Claims) (name : List ℕ) → IsStrictlySortedBy (slice_cmp nat_cmp) (names_of ms) → claims_of ms ≡ Some claims → claim_named name claims ≡ option_and_then (λ v. v) (option_and_then claim_of (get_member name ms)) }
{}

/// Each secret is a text of at least one byte and at most 65,536. It does nothing.
pub fn each_secret_is_a_text_that_is_not_empty()
    ensures { (d : Data) (tokens : Tokens) → tokens_of d ≡ Some tokens → AllByRecursion (λ t. is_secret t.0 ≡ true) tokens }
{}
