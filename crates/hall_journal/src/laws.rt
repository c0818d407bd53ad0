//! The law of what a crash leaves of a hall's journal.
ghost use Rattle.std.specs.Prelude.{◌≡◌, ◌⊎◌, ℕ, List, ◌++◌};
ghost use Rattle.journal.specs.Format.{Group};
ghost use Rattle.journal.specs.Recovery.{IsFileOf};
ghost use Rattle.rtdb_model.specs.State.{State};
ghost use Rattle.rtdb_model.specs.Step.{Call};
ghost use Rattle.rtdb_laws.specs.Effects.{without_listeners};
ghost use Rattle.locked_server.specs.declared.entry.Entry.{Entry};
ghost use Rattle.locked_server.specs.History.{changed_in, Leaves};
ghost use Rattle.store.specs.Replay.{LeadTo};
ghost use Rattle.store.specs.Recovered.{AreIn};
ghost use Rattle.hall_journal.specs.Kept.{Began, IsLeft, LeadsToBeginning, HasByChance};

/// What a crash at any moment leaves of a hall's journal leads to the database at some moment of the hall's history, with
/// nobody listening: to the one that so many of its calls left. That is so unless, by chance, a whole group with a right
/// sum stands where the crash tore, which nobody wrote. It does nothing.
pub fn what_a_crash_leaves_is_a_beginning_of_the_history()
    ensures { (began : Began) (had : List Group) (text behind left : List ℕ) (before entries : List (List ℕ)) (seen : List Entry) (changed later : List Call) (end state : State) (groups : List Group) (rest : List ℕ)
        → AreIn before had → LeadTo before text (without_listeners began.opening)
        → Leaves began.opening seen end → changed_in seen ≡ changed ++ later
        → IsLeft began had changed left → IsFileOf began.identifier groups rest left → AreIn entries groups → LeadTo entries behind state
        → LeadsToBeginning began seen before entries state ⊎ HasByChance began had left }
{}
