//! Laws of what a script is answered.
ghost use Rattle.std.specs.Prelude.{◌≡◌, ◌++◌, ℕ, List};
ghost use Rattle.rtdb_model.specs.State.{State};
ghost use Rattle.tokens.specs.Tokens.{Tokens};
ghost use Rattle.scripts.specs.Said.{Phase, running, IsAnswered, IsAnsweredInFull, AreAnswered, AreAnsweredByRun, IsWritten, IsSaidByRun};

/// The answers to the lines of a script are the texts of a run over what the lines ask: one step
/// after another, and the faults in their places.
pub fn lines_are_answered_by_a_run()
    ensures { (tokens : Tokens) (old new : State) (lines texts : List (List ℕ)) → AreAnswered tokens old lines texts new → AreAnsweredByRun tokens old lines texts new }
{}

/// What is said to lines whose header is accepted, all of a script or those before a fault, is the
/// answer to the header, and then the texts of a run from the state in which a database opens.
pub fn what_is_said_is_a_run_from_the_opening()
    ensures { (lines : List (List ℕ)) (out : List ℕ) (tokens : Tokens) (state : State) → IsWritten lines (running tokens state) out → IsSaidByRun lines tokens state out }
{}

/// Each line has an answer in which nothing wants memory, and one only. Whatever lines come after
/// others, they have an answer: so what is said to the first lines of a script is the front of what may
/// be said to all.
pub fn every_line_has_an_answer()
    ensures some { (tokens : Tokens) (old : State) (line : List ℕ) → (text : List ℕ) × (new : State) × IsAnsweredInFull tokens old line text new }
    ensures one { (tokens : Tokens) (old new other : State) (line text another : List ℕ) → IsAnsweredInFull tokens old line text new → IsAnsweredInFull tokens old line another other → (text ≡ another) × (new ≡ other) }
    ensures answers { (tokens : Tokens) (old new : State) (line text : List ℕ) → IsAnsweredInFull tokens old line text new → IsAnswered tokens old line text new }
    ensures front { (lines more : List (List ℕ)) (phase : Phase) (out : List ℕ) → IsWritten lines phase out → (reached : Phase) × (rest : List ℕ) × IsWritten (lines ++ more) reached (out ++ rest) }
{}
