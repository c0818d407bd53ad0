//! An action: what is written when its session goes.
ghost use Rattle.std.specs.Prelude.{◌≡◌, ◌≢◌, ◌∷◌, [], false, IfOk};
ghost use Rattle.std.specs.List.{list_all};
ghost use Rattle.tree_model.specs.Path.{is_prefix};
ghost use Rattle.tree_model.specs.Put.{location, overlaps};
ghost use Rattle.rtdb_model.specs.Step.{action_of, writes_of, is_below};

use json_tree::NoMemory;
use path_capture::{Path, Write};
use rtdb_model::Writes;
use std::alloc::Global;
use std::marker::Model;

/// Writes that are made together when their session goes: there is one, and none overlaps another. Contracts see which
/// draft is put at which location.
#[derive(Debug, Drop)]
pub struct Action {
    writes: Writes,
}

impl Model for Action {
    ghost use Rattle.std.specs.Prelude.{◌≡◌, ◌≢◌, [], false};
    ghost use Rattle.tree_model.specs.Put.{overlaps};
    ghost use Rattle.rtdb_model.specs.State.{Action, action_code};
    ghost use Rattle.rtdb_model.specs.Step.{action_of};

    ghost Value = { Action };

    ghost coded = { action_code };

    ghost view = { λ action. action_of action.writes };

    ghost invariant = { λ action. (action.writes ≢ []) × (overlaps action.writes ≡ false) };
}

impl Action {
    /// The action that these writes are. It takes no memory.
    pub(crate) fn of(writes: Writes) -> Action
        requires some { writes ≢ [] }
        requires apart { overlaps writes ≡ false }
        ensures { result ≡ action_of writes }
    {
        Action { writes }
    }

    /// The action that one write is, by a growth for a list of it.
    pub(crate) fn of_write(alloc: Global, write: Write) -> Result<Action, NoMemory>
        ensures { IfOk result (λ action. action ≡ action_of (write ∷ [])) }
    {
        let mut writes = Vec::with_capacity(alloc, 1)?;
        writes.push(write)?;
        Ok(Action::of(Writes::of_vec(writes)))
    }

    /// Its writes, in the order of their locations, each with the moments that it had when it was established.
    pub fn in_order(&self) -> &[Write]
        ensures writes { result.now ≡ writes_of self.now }
        ensures some { result.now ≢ [] }
        ensures apart { overlaps result.now ≡ false }
    {
        self.writes.in_order()
    }

    /// Whether all that it writes is at a path or below it.
    pub(crate) fn is_below(&self, path: &Path) -> bool
        ensures { result ≡ is_below path.now self.now }
    {
        are_below(path, self.in_order())
    }
}

fn are_below(path: &Path, writes: &[Write]) -> bool
    ensures { result ≡ list_all (λ write. is_prefix path.now (location write)) writes.now }
{
    writes.iter().all(|write| is_below(path, write))
}

fn is_below(path: &Path, write: &Write) -> bool
    ensures { result ≡ is_prefix path.now (location write.now) }
{
    path.is_prefix(write.at())
}
