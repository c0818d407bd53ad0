//! Laws of histories.
ghost use mathlib.Core.List.{IsPrefix};
ghost use Rattle.std.specs.Prelude.{◌≡◌, ◌<◌, ◌↔◌, ◌&&◌, ℕ, List, [], ◌∷◌, ◌++◌, All, map, filter, length, slice_index_or, true, false};
ghost use Rattle.tree_model.specs.Tree.{Tree, non_null};
ghost use Rattle.rules_reader.specs.Book.{Book};
ghost use Rattle.rules_reader.specs.Place.{HasOneCapture};
ghost use Rattle.rtdb_model.specs.declared.event.Event.{Event};
ghost use Rattle.rtdb_model.specs.declared.news.Notice.{Notice};
ghost use Rattle.rtdb_model.specs.declared.reply.Reply.{Reply};
ghost use Rattle.rtdb_model.specs.State.{State, opening, is_open, is_leaving, scene_at, listeners_of, actions_of};
ghost use Rattle.rtdb_model.specs.Rejudged.{hears, selected_at};
ghost use Rattle.rtdb_model.specs.Step.{Call, Step, Run};
ghost use Rattle.rtdb_model.specs.Headline.{DeploysFile};
ghost use Rattle.rtdb_model.specs.Marks.{Taken, steps_after, judges, grants, IsHistory};
ghost use Rattle.rtdb_model.specs.Actions.{Established, is_waiting, established, waiting};
ghost use Rattle.rtdb_model.specs.Ends.{IsEnd, handed_out};
ghost use Rattle.rtdb_laws.specs.Subscriptions.{subscription_of, listened_to};
ghost use Rattle.rtdb_laws.specs.Presence.{open_after, leaving_after};
ghost use Rattle.rtdb_laws.specs.Stored.{stored};
ghost use Rattle.rtdb_laws.specs.Effects.{changes, without_listeners};
ghost use Rattle.locked_server.specs.declared.entry.Entry.{Entry};
ghost use Rattle.locked_server.specs.History.{call_of, reply_of, changed_in, Leaves, IsJudgedAt};

/// A history goes on by one entry at its end exactly where the entry is a step from the state that it leaves, and
/// deploys rules as rules files have them or none.
pub fn a_history_goes_on_at_its_end()
    ensures { (opening after : State) (history : List Entry) (e : Entry) → Leaves opening (history ++ e ∷ []) after ↔ ((left : State) × Leaves opening history left × Step left e.now e.session e.event e.reply after × DeploysFile e.event) }
{}

/// Each entry of a legal history, whichever seat made the call and whatever seats called before it, is judged by the
/// rules in force at its place, which are those of the last deployment that was done before it, else those from the
/// beginning, and for who is signed in on its session there. The rules from the beginning have at most one capture
/// in each object, as those of each [`Core`](rtdb_core::Core) do.
pub fn every_entry_is_judged_by_the_rules_in_force()
    ensures { (opening left : State) (earlier later : List Entry) (e : Entry) → HasOneCapture opening.rules → Leaves opening (earlier ++ e ∷ later) left → IsJudgedAt opening earlier e later left }
{}

/// Whatever seats called, each listener that a legal history leaves is what the history says: live exactly where it
/// was granted at each entry since its listen that judged it again, and marked exactly where it is live and what it
/// selects has moved since its listen or its session's last poll.
pub fn each_listener_is_what_its_history_says()
    ensures { (rules : Book) (tree : Tree) (history : List Entry) (left : State) → Leaves (opening rules tree) history left → (run : Run (opening rules tree) (map call_of history) (map reply_of history) left) × ((session : ℕ) → All (λ l. IsHistory session l (steps_after [] (opening rules tree) (map call_of history) (map reply_of history) left run)) (listeners_of left session)) }
{}

/// A session listens to what its entries say: to what it has begun to listen to and none of them has ended since.
pub fn what_is_listened_to_is_what_the_entries_began()
    ensures { (rules : Book) (tree : Tree) (history : List Entry) (left : State) → Leaves (opening rules tree) history left → (session : ℕ) → map subscription_of (listeners_of left session) ≡ listened_to session (map call_of history) (map reply_of history) }
{}

/// A poll hands out what is selected by each listener that the entries before it have marked and that is granted at
/// it, in the order in which they began, and nothing else.
pub fn a_poll_hands_out_what_the_entries_marked()
    ensures { (rules : Book) (tree : Tree) (earlier later : List Entry) (e : Entry) (left : State) → Leaves (opening rules tree) (earlier ++ e ∷ later) left → e.event ≡ Event.Poll → (notices : List Notice) → e.reply ≡ Reply.News notices → (before : State) × Leaves (opening rules tree) earlier before × (handed_out notices ≡ map (λ l. (l.id, non_null (selected_at before.tree l.path l.query))) (filter (λ l. l.marked && hears (scene_at before e.now e.session) l.path l.query) (listeners_of before e.session))) }
{}

/// A listener whose grant fails at an entry that judges it is cancelled by that entry, and no later entry reports more
/// of it, but once that it is gone, until its session listens under its name anew.
pub fn a_grant_that_fails_at_an_entry_is_the_end()
    ensures { (rules : Book) (tree : Tree) (earlier later : List Entry) (e : Entry) (left : State) → Leaves (opening rules tree) (earlier ++ e ∷ later) left → (before after : State) × Leaves (opening rules tree) earlier before × Leaves after later left × ((session : ℕ) → let t : Taken = record { old = before; call = call_of e; reply = reply_of e; new = after } in judges session t ≡ true → All (λ l. grants session l.path l.query t ≡ false → IsEnd session l.id t (map call_of later) (map reply_of later)) (listeners_of before session)) }
{}

/// What a session is to write when it goes is what its entries have established and neither taken back nor run nor
/// dropped, in the order in which it was established.
pub fn what_waits_is_what_the_entries_established()
    ensures { (rules : Book) (tree : Tree) (history : List Entry) (left : State) → Leaves (opening rules tree) history left → (run : Run (opening rules tree) (map call_of history) (map reply_of history) left) × ((session : ℕ) → waiting (established session (steps_after [] (opening rules tree) (map call_of history) (map reply_of history) left run)) ≡ actions_of left session) }
{}

/// What has ended has ended: no later entry changes what became of an action.
pub fn no_entry_changes_what_became_of_an_action()
    ensures { (rules : Book) (tree : Tree) (earlier later : List Entry) (left : State) → Leaves (opening rules tree) (earlier ++ later) left → (middle : State) × (run : Run (opening rules tree) (map call_of earlier) (map reply_of earlier) middle) × (rest : Run middle (map call_of later) (map reply_of later) left) × ((session : ℕ) (i : ℕ) (d : Established) → let steps = steps_after [] (opening rules tree) (map call_of earlier) (map reply_of earlier) middle run in i < length (established session steps) → is_waiting (slice_index_or (established session steps) i d).fate ≡ false → slice_index_or (established session (steps_after steps middle (map call_of later) (map reply_of later) left rest)) i d ≡ slice_index_or (established session steps) i d) }
{}

/// A session is open from the entry that opens it to that which closes it, and leaving from the entry by which it
/// leaves to its closing; no other entry changes that.
pub fn entries_change_presence_by_their_sessions()
    ensures opened { (before left : State) (history : List Entry) → Leaves before history left → (session : ℕ) → is_open left session ≡ open_after session (is_open before session) (map call_of history) (map reply_of history) }
    ensures leaving { (before left : State) (history : List Entry) → Leaves before history left → (session : ℕ) → is_leaving left session ≡ leaving_after session (is_leaving before session) (map call_of history) (map reply_of history) }
{}

/// The tree is what the entries wrote: each write that was done, and each action that was made, has put there what it
/// writes, at its moment, and no other entry has changed anything.
pub fn what_is_stored_is_what_the_entries_wrote()
    ensures { (rules : Book) (tree : Tree) (history : List Entry) (left : State) → Leaves (opening rules tree) history left → (run : Run (opening rules tree) (map call_of history) (map reply_of history) left) × (left.tree ≡ stored tree (steps_after [] (opening rules tree) (map call_of history) (map reply_of history) left run)) }
{}

/// The entries that change more than listeners are a legal history by themselves, and it leaves what all of them leave,
/// but for the listeners.
pub fn the_entries_that_change_something_are_a_history()
    ensures { (rules : Book) (tree : Tree) (history : List Entry) (left : State) → Leaves (opening rules tree) history left → Leaves (opening rules tree) (filter (λ e. changes e.event e.reply) history) (without_listeners left) }
{}

/// What a beginning of a history has changed, in that order, is a beginning of what the whole history has.
pub fn what_has_changed_stays()
    ensures { (seen all : List Entry) → IsPrefix seen all → (more : List Call) × (changed_in all ≡ changed_in seen ++ more) }
{}

/// A call that changes something is the last change behind those before it, and any other call is none.
pub fn a_call_that_changes_is_the_last_change()
    ensures change { (seen : List Entry) (e : Entry) → changes e.event e.reply ≡ true → changed_in (seen ++ e ∷ []) ≡ changed_in seen ++ call_of e ∷ [] }
    ensures none { (seen : List Entry) (e : Entry) → changes e.event e.reply ≡ false → changed_in (seen ++ e ∷ []) ≡ changed_in seen }
{}
