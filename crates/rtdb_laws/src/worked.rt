//! Worked values: what calls are answered where a `.read` and a `.write` stand at the root alone, and
//! session 1 is open. A reader can check them by eye.
ghost use Rattle.std.specs.Prelude.{◌≡◌, ℕ, ◌≤◌, [], ◌∷◌, None, pos};
ghost use Rattle.std.specs.FinMap as map_of;
ghost use Rattle.tree_model.specs.Path.{Path};
ghost use Rattle.tree_model.specs.PathMap.{sub};
ghost use Rattle.tree_model.specs.Primitive.{whole};
ghost use Rattle.tree_model.specs.Tree.{Tree, null, non_null, count};
ghost use Rattle.tree_model.specs.Put.{location};
ghost use Rattle.tree_model.specs.Write.{Write, proposed};
ghost use Rattle.expr_parser.specs.Tree.{True, False, Null};
ghost use Rattle.judge.specs.declared.verdict.Why.TheVariants.{No, Erred};
ghost use Rattle.rtdb_model.specs.declared.event.Event.{Event};
ghost use Rattle.rtdb_model.specs.declared.reply.Ran.{Ran};
ghost use Rattle.rtdb_model.specs.declared.reply.Refusal.{Refusal};
ghost use Rattle.rtdb_model.specs.declared.reply.Reply.{Reply};
ghost use Rattle.rtdb_model.specs.State.{State};
ghost use Rattle.rtdb_model.specs.Step.{Step, Run};
ghost use Rattle.rtdb_laws.specs.Worked.{at_the_root, one_session, root_alone, ask, seen, seen_now};

/// Under `{"rules":{".read":false,".write":true}}` each read of session 1 is denied, and the rule of the
/// root is named, since it means false; where it is `null`, since it errs. Under a `.read` that is true
/// it returns what is stored there. Session 2 is not open, and is refused by `NoSession`. It does nothing.
pub fn what_reads_are_answered()
    ensures is_false { (tree : Tree) (now : ℕ) (path : Path) → Step (one_session (at_the_root False True) tree) now 1 (Event.Get path None) (Reply.Refused (Refusal.ReadDenied (root_alone No))) (one_session (at_the_root False True) tree) }
    ensures is_error { (tree : Tree) (now : ℕ) (path : Path) → Step (one_session (at_the_root Null True) tree) now 1 (Event.Get path None) (Reply.Refused (Refusal.ReadDenied (root_alone Erred))) (one_session (at_the_root Null True) tree) }
    ensures is_true { (tree : Tree) (now : ℕ) (path : Path) → Step (one_session (at_the_root True False) tree) now 1 (Event.Get path None) (Reply.Value (non_null (sub tree path))) (one_session (at_the_root True False) tree) }
    ensures closed { (tree : Tree) (now : ℕ) (path : Path) → Step (one_session (at_the_root True True) tree) now 2 (Event.Get path None) (Reply.Refused Refusal.NoSession) (one_session (at_the_root True True) tree) }
{}

/// Under a `.write` that is false a write of session 1 is denied at its location, and the rule of the
/// root is named. Under one that is true it is made, where the tree has room. It does nothing.
pub fn what_writes_are_answered()
    ensures is_false { (tree : Tree) (now : ℕ) (write : Write) → Step (one_session (at_the_root True False) tree) now 1 (Event.Set write) (Reply.Refused (Refusal.WriteDenied (location write) (root_alone No))) (one_session (at_the_root True False) tree) }
    ensures is_true { (tree : Tree) (now : ℕ) (write : Write) → count (proposed tree (write ∷ []) now) ≤ 65536 → (after : State) × Step (one_session (at_the_root False True) tree) now 1 (Event.Set write) Reply.Done after × (after.tree ≡ proposed tree (write ∷ []) now) }
{}

/// Under `{"rules":{".read":false,".write":true}}`, over the empty tree, session 1 establishes that `/seen` is the
/// server's time, leaves, and runs what it has: then `{"seen":N}` is stored, where N is the moment of the run, and
/// nothing is left to run. Where it takes that back before it leaves, or establishes nothing, nothing is stored. Before
/// it leaves it runs nothing, and from then on it writes nothing. It does nothing.
pub fn what_leaving_sessions_are_answered()
    ensures runs { (kept left run again : ℕ) → (after : State) × Run (one_session (at_the_root False True) null) (ask kept (Event.OnSet seen_now) ∷ ask left Event.Leave ∷ ask run Event.RunNext ∷ ask again Event.RunNext ∷ []) (Reply.Done ∷ Reply.Done ∷ Reply.Ran Ran.Applied ∷ Reply.Ran Ran.Empty ∷ []) after × (map_of.entries after.tree ≡ (seen, whole (pos run)) ∷ []) }
    ensures cancelled { (kept cancelled left run : ℕ) → (after : State) × Run (one_session (at_the_root False True) null) (ask kept (Event.OnSet seen_now) ∷ ask cancelled (Event.OnCancel seen) ∷ ask left Event.Leave ∷ ask run Event.RunNext ∷ []) (Reply.Done ∷ Reply.Done ∷ Reply.Done ∷ Reply.Ran Ran.Empty ∷ []) after × (after.tree ≡ null) }
    ensures without { (left run : ℕ) → (after : State) × Run (one_session (at_the_root False True) null) (ask left Event.Leave ∷ ask run Event.RunNext ∷ []) (Reply.Done ∷ Reply.Ran Ran.Empty ∷ []) after × (after.tree ≡ null) }
    ensures before { (now : ℕ) → Step (one_session (at_the_root False True) null) now 1 Event.RunNext (Reply.Refused Refusal.NotLeaving) (one_session (at_the_root False True) null) }
    ensures behind { (left now : ℕ) → (after : State) × Run (one_session (at_the_root False True) null) (ask left Event.Leave ∷ ask now (Event.Set seen_now) ∷ []) (Reply.Done ∷ Reply.Refused Refusal.Leaving ∷ []) after × (after.tree ≡ null) }
{}
