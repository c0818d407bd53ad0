//! Laws of entries.
ghost use Rattle.std.specs.Prelude.{◌≡◌, ℕ, List, []};
ghost use Rattle.evaluator.specs.Identity.{Identity as Who};
ghost use Rattle.tokens.specs.Tokens.{Tokens as Secrets};
ghost use Rattle.rtdb_model.specs.declared.event.Event.{Event as AnyEvent};
ghost use Rattle.rtdb_model.specs.declared.event.Event.TheVariants.{SignIn};
ghost use Rattle.requests.specs.declared.message.Wanted.{Wanted as AnyWanted};
ghost use Rattle.requests.specs.Ask.{ComesTo};
ghost use Rattle.entries.specs.Entry.{Meaning, Means};

/// A text means at most one thing as an entry. It does nothing.
pub fn an_entry_means_one_thing()
    ensures { (bytes : List ℕ) (a b : Meaning) → Means bytes a → Means bytes b → a ≡ b }
{}

/// What is wanted and signs nobody in comes to the same where nobody has a token. It does nothing.
pub fn what_is_asked_by_no_secret_needs_no_tokens()
    ensures { (tokens : Secrets) (wanted : AnyWanted) (event : AnyEvent) → ComesTo tokens wanted event → ((who : Who) → event ≡ SignIn who → ⊥) → ComesTo [] wanted event }
{}
