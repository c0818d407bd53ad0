//! Laws of the steps of a database.
ghost use Rattle.std.specs.Prelude.{◌≡◌, ◌≢◌, ℕ, List, true};
ghost use Rattle.tree_model.specs.Path.{Path};
ghost use Rattle.rules_reader.specs.Place.{HasOneCapture};
ghost use Rattle.rtdb_model.specs.declared.event.Event.{Event};
ghost use Rattle.rtdb_model.specs.declared.reply.Refusal.{Refusal};
ghost use Rattle.rtdb_model.specs.declared.reply.Reply.{Reply};
ghost use Rattle.rtdb_model.specs.State.{State};
ghost use Rattle.rtdb_model.specs.Step.{Call, Step, takes_no_memory};
ghost use Rattle.rtdb_model.specs.Headline.{IsJudged};

/// Where an event is refused, nothing has changed.
pub fn a_refused_event_changes_nothing()
    ensures { (old new : State) (now session : ℕ) (event : Event) (refusal : Refusal) → Step old now session event (Reply.Refused refusal) new → new ≡ old }
{}

/// An event that takes no memory is not answered by want of it: one that is refused before any rule is
/// asked, one that closes its session or lets it leave, one that ends a listener, and one that takes
/// actions back.
pub fn what_takes_no_memory_is_answered()
    ensures { (old new : State) (now session : ℕ) (event : Event) (reply : Reply) → takes_no_memory old session event ≡ true → Step old now session event reply new → reply ≢ Reply.Refused Refusal.NoMemory }
{}

/// To leave, to close, to end a listener and to take actions back takes no memory, whatever the state: none of these
/// is answered by want of it.
pub fn what_ends_takes_no_memory()
    ensures leave { (old new : State) (now session : ℕ) (reply : Reply) → Step old now session Event.Leave reply new → reply ≢ Reply.Refused Refusal.NoMemory }
    ensures close { (old new : State) (now session : ℕ) (reply : Reply) → Step old now session Event.Close reply new → reply ≢ Reply.Refused Refusal.NoMemory }
    ensures unlisten { (old new : State) (now session : ℕ) (id : List ℕ) (reply : Reply) → Step old now session (Event.Unlisten id) reply new → reply ≢ Reply.Refused Refusal.NoMemory }
    ensures cancel { (old new : State) (now session : ℕ) (path : Path) (reply : Reply) → Step old now session (Event.OnCancel path) reply new → reply ≢ Reply.Refused Refusal.NoMemory }
{}

/// No step answers that as many events were answered as may be: who asks on many threads alone is answered so.
pub fn no_step_answers_spent()
    ensures { (old new : State) (now session : ℕ) (event : Event) (reply : Reply) → Step old now session event reply new → reply ≢ Reply.Refused Refusal.Spent }
{}

/// Each step is judged, by rules of which no object has two captures. Each refusal that comes before any
/// rule is asked comes exactly where it should, memory or not; but for want of memory, what no rule can
/// refuse is done exactly where none of these stops it; a read is answered by what stands there, and
/// writes are made together, exactly where nothing else stops them, the rules grant and validate them,
/// and the tree has room; where the rules do not, they are denied with the names that a denial owes; a
/// poll reports its news and leaves those that are granted; what is to be written when a session goes is
/// judged where it is established, and again where it is run; rules are deployed exactly where an
/// administrator asks for it on a session that is open and not leaving; nothing else changes.
/// (Reference, `.read`, `.write` and `.validate`; the other refusals and deployments are this project's
/// profile.)
pub fn every_step_is_judged()
    ensures { (old new : State) (call : Call) (reply : Reply) → HasOneCapture old.rules → Step old call.now call.session call.event reply new → IsJudged old call reply new }
{}

/// For each event there is an answer other than want of memory, and there is one only.
pub fn a_step_is_a_function()
    ensures some { (old : State) (now session : ℕ) (event : Event) → (reply : Reply) × (new : State) × (reply ≢ Reply.Refused Refusal.NoMemory) × Step old now session event reply new }
    ensures one { (old new other : State) (now session : ℕ) (event : Event) (reply another : Reply) → reply ≢ Reply.Refused Refusal.NoMemory → another ≢ Reply.Refused Refusal.NoMemory → Step old now session event reply new → Step old now session event another other → (reply ≡ another) × (new ≡ other) }
{}
