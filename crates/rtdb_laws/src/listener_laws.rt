//! Laws of the listeners of a database.
ghost use Rattle.std.specs.Prelude.{◌≡◌, ◌↔◌, ℕ, ◌&&◌, List, [], map, filter, All, Option, true, false};
ghost use Rattle.tree_model.specs.Path.{Path};
ghost use Rattle.tree_model.specs.Tree.{Tree, non_null};
ghost use Rattle.listeners.specs.Query.{Query};
ghost use Rattle.judge.specs.Judging.{MayRead};
ghost use Rattle.judge.specs.Question.{Scene};
ghost use Rattle.rules_reader.specs.Book.{Book};
ghost use Rattle.rtdb_model.specs.declared.event.Event.{Event};
ghost use Rattle.rtdb_model.specs.declared.news.Notice.{Notice};
ghost use Rattle.rtdb_model.specs.declared.reply.Reply.{Reply};
ghost use Rattle.rtdb_model.specs.State.{State, opening, scene_at, listeners_of};
ghost use Rattle.rtdb_model.specs.Rejudged.{asked_for, hears, selected_at, moves};
ghost use Rattle.rtdb_model.specs.Step.{Call, Step, Run};
ghost use Rattle.rtdb_model.specs.Marks.{Taken, steps_after, judges, grants, IsHistory};
ghost use Rattle.rtdb_model.specs.Ends.{IsStep, IsEnd, IsUntouched, handed_out};
ghost use Rattle.rtdb_laws.specs.Subscriptions.{subscription_of, listened_to};

/// Whatever calls come from the opening on, each listener is what its history says: live exactly where
/// it was granted at each step since its listen that judged it again, and marked exactly where it is
/// live and what it selects has moved since its listen or its session's last poll.
pub fn marks_are_history()
    ensures { (rules : Book) (tree : Tree) (calls : List Call) (replies : List Reply) (new : State) (run : Run (opening rules tree) calls replies new) (session : ℕ) → All (λ l. IsHistory session l (steps_after [] (opening rules tree) calls replies new run)) (listeners_of new session) }
{}

/// Whatever calls come from the opening on, a session listens to what it has begun to listen to and nothing has ended
/// since, in the order in which it began: neither was it taken back by an unlisten that was done, nor has a poll
/// reported that it is gone, nor was the session closed. So a listener whose read is no longer granted is among these
/// until a poll reports it.
pub fn what_is_listened_to_is_what_was_begun()
    ensures { (rules : Book) (tree : Tree) (calls : List Call) (replies : List Reply) (new : State) → Run (opening rules tree) calls replies new → (session : ℕ) → map subscription_of (listeners_of new session) ≡ listened_to session calls replies }
{}

/// A poll hands out what is selected by each listener that was marked before it and is granted at it, in
/// the order in which they began, and nothing else.
pub fn a_poll_hands_out_what_was_marked()
    ensures { (rules : Book) (tree : Tree) (calls : List Call) (replies : List Reply) (old : State) → Run (opening rules tree) calls replies old → (now session : ℕ) (notices : List Notice) (new : State) → Step old now session Event.Poll (Reply.News notices) new → handed_out notices ≡ map (λ l. (l.id, non_null (selected_at old.tree l.path l.query))) (filter (λ l. l.marked && hears (scene_at old now session) l.path l.query) (listeners_of old session)) }
{}

/// A listener whose grant fails in a step that judges it is cancelled in that step, and nothing more is
/// reported of it, but once that it is gone, until its session listens under its name anew.
pub fn a_failed_grant_is_the_end()
    ensures { (rules : Book) (tree : Tree) (earlier later : List Call) (answered others : List Reply) (t : Taken) (new : State) (session : ℕ) → Run (opening rules tree) earlier answered t.old → IsStep t → Run t.new later others new → judges session t ≡ true → All (λ l. grants session l.path l.query t ≡ false → IsEnd session l.id t later others) (listeners_of t.old session) }
{}

/// Tree, rules and who is signed in on a session change only in steps that judge its listeners again,
/// and where it closes: so a grant that ends, but by time alone, is seen in the step in which it ends.
pub fn what_a_grant_hangs_on_changes_where_it_is_judged()
    ensures { (t : Taken) (session : ℕ) → IsStep t → judges session t ≡ false → IsUntouched session t }
{}

/// What judges listeners again are tests, and this is what they decide, whatever the rules, the tree, the
/// moment and who is signed in: whether the rules grant the read, and whether what is selected of two
/// trees differs.
pub fn the_tests_of_listeners_decide()
    ensures heard { (scene : Scene) (path : Path) (query : Option Query) → (hears scene path query ≡ true) ↔ MayRead scene (asked_for query) path }
    ensures moved { (old new : Tree) (path : Path) (query : Option Query) → (moves old new path query ≡ false) ↔ (selected_at old path query ≡ selected_at new path query) }
{}
