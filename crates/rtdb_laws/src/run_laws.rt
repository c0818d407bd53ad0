//! Laws of the runs of a database.
ghost use Rattle.std.specs.Prelude.{◌≡◌, ℕ, List, [], ◌∷◌, ◌++◌};
ghost use Rattle.tree_model.specs.Tree.{Tree};
ghost use Rattle.rules_reader.specs.Book.{Book};
ghost use Rattle.rules_reader.specs.Place.{HasOneCapture};
ghost use Rattle.rtdb_model.specs.declared.reply.Reply.{Reply};
ghost use Rattle.rtdb_model.specs.State.{State, opening, is_open, is_leaving, identity_of};
ghost use Rattle.rtdb_model.specs.Step.{Call, Run};
ghost use Rattle.rtdb_model.specs.Headline.{rules_after, identity_after, DeployFiles, IsJudgedAmong};
ghost use Rattle.rtdb_model.specs.Marks.{steps_after};
ghost use Rattle.rtdb_laws.specs.Stored.{stored};
ghost use Rattle.rtdb_laws.specs.Presence.{open_after, leaving_after};
ghost use Rattle.rtdb_laws.specs.Runs.{WantNone, WantAlike};

/// Whatever state a database is in and whatever calls come, there is a run over them in which nothing wants
/// memory. So no law of runs speaks of none.
pub fn every_list_of_calls_has_a_run()
    ensures { (old : State) (calls : List Call) → (replies : List Reply) × (new : State) × Run old calls replies new × WantNone replies }
{}

/// Two runs over the same calls from one state have the same replies and end in one state, where the same calls
/// want memory in both; so all in which none does. Which calls want it is the one thing that the definitions
/// leave open: from the first on that wants it in one run alone, two runs may go apart.
pub fn a_run_has_one_end()
    ensures alike { (old new other : State) (calls : List Call) (replies others : List Reply) → Run old calls replies new → Run old calls others other → WantAlike replies others → (replies ≡ others) × (new ≡ other) }
    ensures in_full { (old new other : State) (calls : List Call) (replies others : List Reply) → Run old calls replies new → Run old calls others other → WantNone replies → WantNone others → (replies ≡ others) × (new ≡ other) }
{}

/// Whatever calls come, of whatever sessions, deployments among them, from whatever state, with rules as
/// rules files have them, at most one capture in each object: each has its own reply, and is judged by
/// the rules in force at its step, which are those of the last deployment that was done before it, else
/// those from the beginning, and for who is signed in on its session then.
pub fn every_call_of_a_run_is_judged_by_the_rules_in_force()
    ensures { (old new : State) (earlier later : List Call) (call : Call) (replies : List Reply) → HasOneCapture old.rules → DeployFiles earlier → Run old (earlier ++ call ∷ later) replies new → IsJudgedAmong old earlier call later replies new }
{}

/// The rules in force change in accepted deployments, and in no other step.
pub fn a_run_changes_the_rules_by_deployments()
    ensures { (old new : State) (calls : List Call) (replies : List Reply) → Run old calls replies new → new.rules ≡ rules_after old.rules calls replies }
{}

/// Who is signed in on a session changes where it opens, closes, signs in or signs out, and in no other
/// step, of this session or another.
pub fn a_run_changes_identities_by_their_sessions()
    ensures { (old new : State) (calls : List Call) (replies : List Reply) → Run old calls replies new → (session : ℕ) → identity_of new session ≡ identity_after session (identity_of old session) calls replies }
{}

/// A session is open from its opening to its closing, and leaving from its leave to its closing; no other step, of
/// this session or another, changes that.
pub fn a_run_changes_presence_by_its_sessions()
    ensures opened { (old new : State) (calls : List Call) (replies : List Reply) → Run old calls replies new → (session : ℕ) → is_open new session ≡ open_after session (is_open old session) calls replies }
    ensures leaving { (old new : State) (calls : List Call) (replies : List Reply) → Run old calls replies new → (session : ℕ) → is_leaving new session ≡ leaving_after session (is_leaving old session) calls replies }
{}

/// Whatever calls come from the opening on, the tree is what was written: each write that was done, and each action
/// that was made, has put there what it writes, at its moment, and no other step has changed anything.
pub fn what_is_stored_is_what_was_written()
    ensures { (rules : Book) (tree : Tree) (calls : List Call) (replies : List Reply) (new : State) (run : Run (opening rules tree) calls replies new) → new.tree ≡ stored tree (steps_after [] (opening rules tree) calls replies new run) }
{}
