//! Laws of which calls change a database.
ghost use Rattle.std.specs.Prelude.{List};
ghost use Rattle.tree_model.specs.Tree.{Tree};
ghost use Rattle.rules_reader.specs.Book.{Book};
ghost use Rattle.rtdb_model.specs.declared.reply.Reply.{Reply};
ghost use Rattle.rtdb_model.specs.State.{State, opening};
ghost use Rattle.rtdb_model.specs.Step.{Call, Run};
ghost use Rattle.rtdb_laws.specs.Effects.{changing, effective, without_listeners, IsSilent};

/// The calls that change more than listeners are enough: these alone, with the replies that they had, are a run too,
/// from the state in which no session listens to anything, and it leaves what all calls leave, but for the listeners.
/// So to keep these calls is to keep the tree, the rules, who is signed in, and what waits to be written. Left out
/// are reads, listens, unlistens, polls, ticks, all that was refused, also for want of memory, and runs of no action.
pub fn what_changes_something_is_enough()
    ensures from_a_state { (old new : State) (calls : List Call) (replies : List Reply) → Run old calls replies new → Run (without_listeners old) (changing calls replies) (effective calls replies) (without_listeners new) }
    ensures from_the_opening { (rules : Book) (tree : Tree) (calls : List Call) (replies : List Reply) (new : State) → Run (opening rules tree) calls replies new → Run (opening rules tree) (changing calls replies) (effective calls replies) (without_listeners new) }
{}

/// A state without its listeners is the same in all else.
pub fn only_the_listeners_are_left_out()
    ensures { (state : State) → IsSilent (without_listeners state) state }
{}
