//! Laws of what a journal's entries lead to.
ghost use Rattle.std.specs.Prelude.{◌≡◌, ◌⊎◌, ℕ, List, ◌++◌};
ghost use Rattle.journal.specs.Format.{Group, file_of};
ghost use Rattle.journal.specs.Recovery.{IsFileOf, Survives, HasStranger};
ghost use Rattle.rules_reader.specs.File.{States};
ghost use Rattle.rtdb_model.specs.declared.reply.Reply.{Reply};
ghost use Rattle.rtdb_model.specs.State.{State};
ghost use Rattle.rtdb_model.specs.Step.{Call, Run};
ghost use Rattle.rtdb_laws.specs.Effects.{changing, without_listeners};
ghost use Rattle.store.specs.Replay.{Stage, opened, Replays, LeadTo, AreEntriesOf};
ghost use Rattle.store.specs.Recovered.{AreIn, IsBeginningOf};
ghost use Rattle.store.specs.Kept.{HasDatabase};
ghost use Rattle.store.specs.Opened.{SurvivesDepartures};

/// Entries lead to one database, and to one text of its rules. It does nothing.
pub fn a_replay_has_one_end()
    ensures { (entries : List (List ℕ)) (before after other : Stage) → Replays entries before after → Replays entries before other → after ≡ other }
{}

/// The text that entries lead to is that of the rules in force. It does nothing.
pub fn the_text_states_the_rules_in_force()
    ensures { (entries : List (List ℕ)) (text : List ℕ) (state : State) → LeadTo entries text state → States text state.rules }
{}

/// In the database that entries lead to no session listens to anything. It does nothing.
pub fn what_is_replayed_listens_to_nothing()
    ensures { (entries : List (List ℕ)) (text : List ℕ) (state : State) → LeadTo entries text state → state ≡ without_listeners state }
{}

/// The entries of the calls of a history that changed something lead to where the history led, but for what is
/// listened to. It does nothing.
pub fn the_entries_lead_where_the_history_did()
    ensures { (old new : State) (calls : List Call) (replies : List Reply) (entries : List (List ℕ)) (text : List ℕ)
        → Run old calls replies new → AreEntriesOf entries (changing calls replies)
        → (behind : List ℕ) × Replays entries (opened text (without_listeners old)) (opened behind (without_listeners new)) }
{}

/// Of a file to which the entries of a history were appended, group by group, a crash leaves a beginning of that
/// history: it has all that was stored, and is where so many of its calls led, with nobody listening. That is so unless,
/// by chance, a whole group with a right sum stands where the crash tore, which nobody wrote. It does nothing.
pub fn a_crash_leaves_a_beginning_of_the_history()
    ensures { (identifier file text behind : List ℕ) (first stored appended groups : List Group) (rest : List ℕ) (entries before kept all : List (List ℕ))
        (old new state : State) (calls : List Call) (replies : List Reply)
        → AreIn before first → LeadTo before text (without_listeners old)
        → Run old calls replies new → AreEntriesOf all (changing calls replies) → AreIn all appended → AreIn kept stored
        → Survives identifier (first ++ stored) (first ++ appended) file
        → IsFileOf identifier groups rest file → AreIn entries groups → LeadTo entries behind state
        → ((more : List (List ℕ)) × (entries ≡ before ++ (kept ++ more)) × IsBeginningOf old calls replies (kept ++ more) state) ⊎ HasStranger identifier (first ++ stored) (first ++ appended) file }
{}

/// Of a file that a crash left while the departures of sessions were appended, a beginning of these departures is
/// recovered. That is so unless, by chance, a whole group with a right sum stands where the crash tore, which nobody
/// wrote. It does nothing.
pub fn a_crash_leaves_a_beginning_of_the_departures()
    ensures { (file left rest behind : List ℕ) (now : ℕ) (state : State) (survives : SurvivesDepartures file now left) → HasDatabase survives.found.identifier rest behind state left
        → ((kept : List (List ℕ)) × IsBeginningOf survives.found.before survives.found.have_left.calls survives.found.have_left.replies kept state)
        ⊎ HasStranger survives.found.identifier survives.found.recovered.groups (survives.found.recovered.groups ++ survives.survives.appended) left }
{}
