//! Laws of what is granted, and of verdicts: of the definitions alone.
ghost use Rattle.std.specs.Prelude.{◌≡◌, ◌↔◌, ◌++◌, List, option_map, true, false, Contains, IsTrue, IsPermutation};
ghost use Rattle.tree_model.specs.Path.{Path, is_prefix};
ghost use Rattle.tree_model.specs.Tree.{Tree};
ghost use Rattle.tree_model.specs.PathMap.{sub};
ghost use Rattle.tree_model.specs.Put.{location, written, overlaps};
ghost use Rattle.tree_model.specs.Write.{Write, made, proposed};
ghost use Rattle.rules_reader.specs.Part.{Pattern};
ghost use Rattle.rules_reader.specs.declared.kind.Kind.{Kind};
ghost use Rattle.rules_reader.specs.Place.{HasOneCapture};
ghost use Rattle.evaluator.specs.Asked.{Asked};
ghost use Rattle.evaluator.specs.Env.{writes};
ghost use Rattle.judge.specs.Question.{Scene, Question, writing, env_at};
ghost use Rattle.judge.specs.Answers.{Holds};
ghost use Rattle.judge.specs.Granting.{IsGranted};
ghost use Rattle.judge.specs.Judging.{MayRead, IsReadVerdict, IsWriteVerdict, IsToBeNamed};
ghost use Rattle.judge.specs.Watching.{IsWatched};
ghost use Rattle.judge.specs.Placed.{PlacedRule, rule_at};
ghost use Rattle.judge.specs.Tests.{answer_at, is_granted, named_rules, read_verdict, write_verdict};
ghost use Rattle.judge.specs.declared.verdict.Named.{Named as AnyNamed};
ghost use Rattle.judge.specs.declared.verdict.Verdict.{Verdict as AnyVerdict};

/// What a rule grants, no deeper rule takes back: what is granted at a path is granted at each path
/// that extends it. It does nothing. (Guide "Core syntax", `.read` and `.write` rules cascade.)
pub fn a_grant_reaches_down()
    ensures { (q : Question) (kind : Kind) (path rest : Path) → IsGranted q kind path → IsGranted q kind (path ++ rest) }
{}

/// A rule grants nothing above its place: where all rules that hold at the path and above it hold in
/// another question too, what is granted there is granted by that one too, whatever it says of other
/// places. It does nothing. (The same section.)
pub fn only_rules_above_grant()
    ensures { (q r : Question) (kind : Kind) (path : Path) → ((place : Path) → is_prefix place path ≡ true → Holds q kind place → Holds r kind place) → IsGranted q kind path → IsGranted r kind path }
{}

/// Whatever rule is asked for one of the writes of an event, the tree that its `newData` is of has all
/// of them: at each location that the event writes stands there what it writes at the moment of the scene. It does
/// nothing. (Reference, `newData` variable.)
pub fn every_write_sees_the_whole()
    ensures { (scene : Scene) (t : Tree) (all : List Write) (w : Write) (pattern : Pattern) (place : Path) → overlaps all ≡ false → Contains all w → (whole : Tree) × ((env_at (writing scene (proposed t all scene.moment)) pattern place).access ≡ writes (whole, place)) × (sub whole (location w) ≡ written (made scene.moment w)) }
{}

/// In which order the locations of an event stand changes no verdict. It does nothing.
pub fn the_order_of_writes_changes_nothing()
    ensures { (scene : Scene) (t : Tree) (one other : List Path) (v : AnyVerdict) → IsPermutation one other → IsWriteVerdict scene t other v → IsWriteVerdict scene t one v }
{}

/// What can be computed agrees with what is said in words: what is granted, and the verdicts. A book of
/// a rules file has one capture in an object at most, and so writes have one verdict. It does nothing.
pub fn the_tests_decide()
    ensures granted { (q : Question) (kind : Kind) (path : Path) → IsTrue (is_granted q kind path) ↔ IsGranted q kind path }
    ensures reads { (scene : Scene) (asked : Asked) (path : Path) (v : AnyVerdict) → (v ≡ read_verdict scene asked path) ↔ IsReadVerdict scene asked path v }
    ensures writes { (scene : Scene) (t : Tree) (locations : List Path) (v : AnyVerdict) → v ≡ write_verdict scene t locations → IsWriteVerdict scene t locations v }
    ensures one_verdict { (scene : Scene) (t : Tree) (locations : List Path) (v : AnyVerdict) → HasOneCapture scene.book → IsWriteVerdict scene t locations v → v ≡ write_verdict scene t locations }
{}

/// A denial names exactly the rules of its kind at the path and above it that do not hold, each with
/// its reason: each named rule stands there and does not hold, and each that does not hold is named. It
/// does nothing. (The names of a denial are this project's profile.)
pub fn each_named_rule_does_not_hold()
    ensures named { (q : Question) (kind : Kind) (path : Path) (named : AnyNamed) → Contains (named_rules q kind path) named → IsToBeNamed q kind path named }
    ensures all { (q : Question) (kind : Kind) (path : Path) (named : AnyNamed) → HasOneCapture q.scene.book → IsToBeNamed q kind path named → Contains (named_rules q kind path) named }
{}

/// A read is granted as before where its rules, who asks and what stands at the place that is watched are
/// as before, at whatever moment. It does nothing. ([`watched`](crate::watched) finds the place.)
pub fn what_a_read_depends_on()
    ensures { (one other : Scene) (asked : Asked) (path place : Path) → IsWatched one.book path place → other.book ≡ one.book → other.who ≡ one.who → sub other.old place ≡ sub one.old place → MayRead one asked path → MayRead other asked path }
{}

/// The answer at a path is that of the rule for this path, evaluated in what the rule sees there; so verdicts are made
/// of the answers of these rules. It does nothing. (Reference, rules types.)
pub fn placed_rules_answer()
    ensures { (q : Question) (kind : Kind) (path : Path) → option_map (λ (r : PlacedRule). (r.pattern, r.answer)) (rule_at q kind path) ≡ answer_at q kind path }
{}
