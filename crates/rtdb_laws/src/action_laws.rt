//! Laws of what is written when sessions go.
ghost use Rattle.std.specs.Prelude.{◌≡◌, ◌↔◌, ℕ, ◌<◌, List, [], ◌∷◌, ◌++◌, All, map, true, false, length, slice_index_or};
ghost use Rattle.tree_model.specs.Path.{Path};
ghost use Rattle.tree_model.specs.Tree.{Tree};
ghost use Rattle.tree_model.specs.Put.{location};
ghost use Rattle.tree_model.specs.Draft.{null_draft};
ghost use Rattle.tree_model.specs.Write.{Write};
ghost use Rattle.rules_reader.specs.Book.{Book};
ghost use Rattle.rtdb_model.specs.declared.event.Event.{Event};
ghost use Rattle.rtdb_model.specs.declared.reply.Ran.TheVariants.{Applied};
ghost use Rattle.rtdb_model.specs.declared.reply.Reply.{Reply};
ghost use Rattle.rtdb_model.specs.State.{Action, State, opening, actions_of};
ghost use Rattle.rtdb_model.specs.Step.{Call, Run, Step, writes_of, written_to, with_actions, is_below};
ghost use Rattle.rtdb_model.specs.Marks.{Taken, steps_after};
ghost use Rattle.rtdb_model.specs.Actions.{Established, is_waiting, established, waiting};
ghost use Rattle.rtdb_laws.specs.Writes.{HasWrites};

/// Whatever calls come from the opening on, what a session is to write when it goes is what it has established and has
/// neither taken back nor run nor dropped by its closing, in the order in which it was established. Of each action that
/// was established one of these is so.
pub fn what_waits_is_what_was_established()
    ensures { (rules : Book) (tree : Tree) (calls : List Call) (replies : List Reply) (new : State) (run : Run (opening rules tree) calls replies new) (session : ℕ) → waiting (established session (steps_after [] (opening rules tree) calls replies new run)) ≡ actions_of new session }
{}

/// What has ended has ended: no later step changes what became of an action. So none is made twice, and none is made
/// that was taken back, skipped or dropped.
pub fn an_action_has_one_end()
    ensures { (session : ℕ) (t : Taken) (earlier : List Taken) (i : ℕ) (d : Established) → i < length (established session earlier) → is_waiting (slice_index_or (established session earlier) i d).fate ≡ false → slice_index_or (established session (t ∷ earlier)) i d ≡ slice_index_or (established session earlier) i d }
{}

/// What a run makes is the first action that waits: its writes, and no others, are in the tree after it.
pub fn a_run_makes_the_first_that_waits()
    ensures { (rules : Book) (tree : Tree) (calls : List Call) (replies : List Reply) (old : State) (run : Run (opening rules tree) calls replies old) (now session : ℕ) (new : State) → Step old now session Event.RunNext (Reply.Ran Applied) new → (action : Action) × (others : List Action) × (waiting (established session (steps_after [] (opening rules tree) calls replies old run)) ≡ action ∷ others) × (new ≡ with_actions (written_to old now (writes_of action)) session others) }
{}

/// What is established is what was asked for, behind all that was established before: the write of a set, the write of
/// null of a removal, and of an update each of its writes, once and no other, in the order of their locations.
pub fn what_is_established_is_what_was_asked()
    ensures set { (old new : State) (now session : ℕ) (write : Write) → Step old now session (Event.OnSet write) Reply.Done new → map writes_of (actions_of new session) ≡ map writes_of (actions_of old session) ++ (write ∷ []) ∷ [] }
    ensures remove { (old new : State) (now session : ℕ) (path : Path) → Step old now session (Event.OnRemove path) Reply.Done new → map writes_of (actions_of new session) ≡ map writes_of (actions_of old session) ++ ((path, null_draft) ∷ []) ∷ [] }
    ensures update { (old new : State) (now session : ℕ) (writes : List Write) → Step old now session (Event.OnUpdate writes) Reply.Done new → (action : Action) × (actions_of new session ≡ actions_of old session ++ action ∷ []) × HasWrites action writes }
{}

/// An action is taken back at a path exactly where each of its locations is this path, or this path and more keys.
pub fn what_is_taken_back_lies_below()
    ensures { (path : Path) (action : Action) → (is_below path action ≡ true) ↔ All (λ write. (more : Path) × (location write ≡ path ++ more)) (writes_of action) }
{}
