//! What a poll reports: the news of a session's listeners, once what was decided of them is made.
ghost use Rattle.std.specs.Prelude.{◌≡◌, option_map, IfOk};
ghost use Rattle.arena_snapshot.specs.View.{node_or_null};
ghost use Rattle.listeners.specs.Listener.{seen};
ghost use Rattle.rtdb_model.specs.Step.{told, news_of};
ghost use Rattle.rtdb_model.specs.Tidings.{notice_of};
ghost use Rattle.rtdb_core.specs.Working.Fates.{settled};

use crate::fates::{Decision, Docket, after};
use crate::selections::Selections;
use bumpalo::Bump;
use json_tree::{NoMemory, Node};
use listeners::{Listener, Table};
use rtdb_model::{Sight, Tiding, Tidings};
use std::alloc::Global;

/// What a poll reports of these listeners, once what was decided of them is made: a list in the arena.
pub(crate) fn tidings_of<'a>(
    alloc: Global,
    arena: &'a Bump,
    tree: Option<&'a Node>,
    listeners: &'a Table,
    decisions: &[Decision],
) -> Result<Tidings<'a>, NoMemory>
    ensures { IfOk result (λ tidings. tidings ≡ news_of (node_or_null tree.entry) (settled 0 decisions.now listeners.now)) }
{
    let mut tidings = Vec::new(arena);
    let mut selections = Selections::new(alloc, arena, tree);
    let mut docket = Docket::new(decisions);
    for index in 0..listeners.len() {
        let listener = after(listeners.entry(index), docket.front());
        if let Some(tiding) = told(&mut selections, &listener)? {
            tidings.push(tiding)?;
        }
        docket = docket.behind();
    }
    Ok(Tidings::of_vec(tidings))
}

// What a poll reports of a listener.
fn told<'a>(
    selections: &mut Selections<'a>,
    listener: &Listener<'a>,
) -> Result<Option<Tiding<'a>>, NoMemory>
    ensures told { IfOk result (λ tiding. option_map notice_of tiding ≡ told selections.old (seen listener.now)) }
    ensures same { selections.new ≡ selections.old }
{
    let what = if !listener.is_live {
        Sight::Gone
    } else if listener.is_marked {
        Sight::Now(selections.at(listener.path, listener.query)?)
    } else {
        return Ok(None);
    };
    Ok(Some(Tiding {
        id: listener.id,
        what,
    }))
}
