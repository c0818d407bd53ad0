//! Worked values, each computed by the checker: what small expressions mean.
ghost use Rattle.std.specs.Prelude.{◌≡◌, pos, negsuc, true, false, [], ◌∷◌, ◌++◌, Some, None, codes, replicate};
ghost use Rattle.expr_tokens.specs.declared.operator.Operator.TheVariants.{Or, And, Equal, NotEqual, Less, Add, Multiply, Remainder};
ghost use Rattle.expr_parser.specs.Tree.{Number, Text, False, Null, Variable, Member, Negate, Operation, Choice};
ghost use Rattle.evaluator.specs.Value.{null, truth, whole, words, value};
ghost use Rattle.evaluator.specs.Env.{Env};
ghost use Rattle.evaluator.specs.Mean.{mean};
ghost use Rattle.evaluator.specs.Worked.{at_root, somebody, keys_behind, call, call_with, call_with_two};

/// What operators give in any environment. It does nothing.
pub fn what_operators_give()
    ensures negative_remainder { (env : Env) → mean (Operation Remainder (Negate (Number 7)) (Number 3)) env ≡ Some (value (whole (negsuc 0))) }
    ensures positive_remainder { (env : Env) → mean (Operation Remainder (Number 7) (Negate (Number 3))) env ≡ Some (value (whole (pos 1))) }
    ensures by_nothing { (env : Env) → mean (Operation Remainder (Number 1) (Number 0)) env ≡ None }
    ensures greatest { (env : Env) → mean (Operation Add (Number 9007199254740990) (Number 1)) env ≡ Some (value (whole (pos 9007199254740991))) }
    ensures out_of_range { (env : Env) → mean (Operation Add (Number 9007199254740991) (Number 1)) env ≡ None }
    ensures null_and_false { (env : Env) → mean (Operation Equal Null False) env ≡ Some (value (truth false)) }
    ensures number_and_text { (env : Env) → mean (Operation Less (Number 1) (Text (codes "a"))) env ≡ None }
    ensures by_bytes { (env : Env) → mean (Operation Less (Text (codes "B")) (Text (codes "a"))) env ≡ Some (value (truth true)) }
    ensures not_evaluated { (env : Env) → mean (Operation And False (Operation Less (Number 1) (Text (codes "a")))) env ≡ Some (value (truth false)) }
    ensures evaluated { (env : Env) → mean (Operation Or False (Operation Less (Number 1) (Text (codes "a")))) env ≡ None }
    ensures no_boolean { (env : Env) → mean (Operation Or False Null) env ≡ None }
    ensures other_branch { (env : Env) → mean (Choice False (Operation Multiply Null Null) Null) env ≡ Some (value null) }
{}

/// What texts give in any environment: `é` has two bytes and one scalar value. It does nothing.
pub fn what_texts_give()
    ensures two_bytes { (env : Env) → mean (Member (Text (195 ∷ 169 ∷ [])) (codes "length")) env ≡ Some (value (whole (pos 1))) }
    ensures four_bytes { (env : Env) → mean (Member (Text (240 ∷ 157 ∷ 132 ∷ 158 ∷ [])) (codes "length")) env ≡ Some (value (whole (pos 1))) }
    ensures replaced { (env : Env) → mean (call_with_two (Text (codes "aaa")) (codes "replace") (Text (codes "aa")) (Text (codes "b"))) env ≡ Some (value (words (codes "ba"))) }
    ensures of_nothing { (env : Env) → mean (call_with_two (Text (codes "a")) (codes "replace") (Text []) (Text (codes "b"))) env ≡ None }
    ensures inside { (env : Env) → mean (call_with (Text (codes "abc")) (codes "contains") (Text (codes "bc"))) env ≡ Some (value (truth true)) }
    ensures empty_end { (env : Env) → mean (call_with (Text (codes "abc")) (codes "endsWith") (Text [])) env ≡ Some (value (truth true)) }
{}

/// What `auth` gives at the root of `{"a":{"b":1}}`. It does nothing.
pub fn what_auth_gives()
    ensures nobody { mean (Member (Variable (codes "auth")) (codes "uid")) (at_root None) ≡ Some (value null) }
    ensures nobody_is_nobody { mean (Operation Equal (Variable (codes "auth")) (Variable (codes "auth"))) (at_root None) ≡ Some (value (truth true)) }
    ensures somebody_is_there { mean (Operation NotEqual (Variable (codes "auth")) Null) (at_root (Some somebody)) ≡ Some (value (truth true)) }
    ensures not_comparable { mean (Operation Equal (Variable (codes "auth")) (Variable (codes "auth"))) (at_root (Some somebody)) ≡ None }
    ensures no_claim { mean (Member (Member (Variable (codes "auth")) (codes "token")) (codes "length")) (at_root (Some somebody)) ≡ Some (value null) }
{}

/// What snapshots give at the root of `{"a":{"b":1}}`. It does nothing.
pub fn what_snapshots_give()
    ensures empty_pieces { mean (call (call_with (Variable (codes "root")) (codes "child") (Text (codes "a//b"))) (codes "val")) (at_root None) ≡ Some (value (whole (pos 1))) }
    ensures nothing_there { mean (call (call_with (Variable (codes "root")) (codes "child") (Text (codes "c"))) (codes "val")) (at_root None) ≡ Some (value null) }
    ensures itself { mean (call (call_with (Variable (codes "root")) (codes "child") (Text [])) (codes "exists")) (at_root None) ≡ Some (value (truth true)) }
    ensures unlawful { mean (call_with (Variable (codes "root")) (codes "hasChild") (Text (codes "a.b"))) (at_root None) ≡ None }
    ensures above_the_root { mean (call (Variable (codes "root")) (codes "parent")) (at_root None) ≡ None }
{}

/// At its limits: a text that is joined has 65,536 bytes at most, and the location of a child 32 keys. It does nothing.
pub fn what_limits_give()
    ensures longest { (env : Env) → mean (Operation Add (Text (replicate 65535 97)) (Text (codes "a"))) env ≡ Some (value (words (replicate 65535 97 ++ codes "a"))) }
    ensures too_long { (env : Env) → mean (Operation Add (Text (replicate 65535 97)) (Text (codes "aa"))) env ≡ None }
    ensures deepest { mean (call (call_with (Variable (codes "root")) (codes "child") (Text (keys_behind 32))) (codes "exists")) (at_root None) ≡ Some (value (truth false)) }
    ensures too_deep { mean (call (call_with (Variable (codes "root")) (codes "child") (Text (keys_behind 33))) (codes "exists")) (at_root None) ≡ None }
    ensures longest_key { mean (call_with (Variable (codes "root")) (codes "hasChild") (Text (replicate 768 97))) (at_root None) ≡ Some (value (truth false)) }
    ensures too_long_a_key { mean (call_with (Variable (codes "root")) (codes "hasChild") (Text (replicate 769 97))) (at_root None) ≡ None }
{}
