//! Writes as JSON, both ways.
ghost use Rattle.std.specs.Prelude.{◌≡◌, ◌≤◌, ◌++◌, ◌∷◌, ◌&&◌, [], Some, None, nat_le, if◌then◌else◌, IfOk, OnOk};
ghost use Rattle.serde_json.specs.Data.{depth as nesting};
ghost use Rattle.serde_json.specs.View.{view, items_view};
ghost use Rattle.tree_model.specs.declared.limits.TheConstants.{MAX_DEPTH};
ghost use Rattle.tree_model.specs.Path.{is_path};
ghost use Rattle.tree_model.specs.PathMap.{depth};
ghost use Rattle.json_tree.specs.Draft.{is_lawful_draft, draft_of_json};
ghost use Rattle.path_capture.specs.Path.{segments};
ghost use Rattle.path_capture.specs.Write.{draft_or_null};
ghost use Rattle.entries.specs.Items.{each};
ghost use Rattle.entries.specs.Writes.{write_at, write_in, writes_in};
ghost use Rattle.entries.specs.Working.Answers.{Gives};

use crate::entry::EntryFault;
use crate::items::{pair, pair_of};
use json_tree::{Draft, NoMemory, ValueFault, draft_from_json, draft_to_json};
use path_capture::{Path, PathFault, Write};
use serde_json::Value;
use std::alloc::Global;

/// The value of writes.
pub(crate) fn writes_to_json(alloc: Global, writes: &[Write]) -> Result<Value, NoMemory>
    ensures value { IfOk result (λ value. writes_in (view value) ≡ Some writes.now) }
    ensures depth { IfOk result (λ value. nesting (view value) ≤ 35) }
{
    let mut items = Vec::with_capacity(alloc, writes.len())?;
    for write in writes {
        items.push(write_to_json(alloc, write)?)?;
    }
    Ok(Value::Array(items))
}

fn write_to_json(alloc: Global, write: &Write) -> Result<Value, NoMemory>
    ensures value { IfOk result (λ value. write_in (view value) ≡ Some write.now) }
    ensures depth { IfOk result (λ value. nesting (view value) ≤ 34) }
{
    let text = Value::from(write.at().print(alloc)?);
    let draft = draft_to_json(alloc, write.tree())?;
    pair(alloc, text, draft)
}

/// The writes that a value is.
pub(crate) fn writes_of(alloc: Global, value: &Value) -> Result<Vec<Write>, EntryFault>
    ensures { Gives (λ writes. writes.items) result (writes_in (view value.now)) }
{
    match value.as_array() {
        Some(items) => read_writes(alloc, items),
        None => Err(EntryFault::NotAnEntry),
    }
}

// The writes of these items, in their order.
#[tactic(auto, using(crate::proofs::Lists::value_read, crate::proofs::Lists::no_value_read, crate::proofs::Lists::all_read))]
fn read_writes(alloc: Global, items: &Vec<Value>) -> Result<Vec<Write>, EntryFault>
    ensures { Gives (λ writes. writes.items) result (each write_in (items_view items.now.items)) }
{
    let mut writes = Vec::new(alloc);
    for item in items {
        let write = write_of(alloc, item)?;
        keep(&mut writes, write)?;
    }
    Ok(writes)
}

fn keep(writes: &mut Vec<Write>, write: Write) -> Result<(), NoMemory>
    ensures { OnOk result (writes.new.items ≡ writes.old.items ++ write ∷ []) }
{
    writes.push(write)?;
    Ok(())
}

// The write that an item is.
#[tactic(auto, unfolding(crate::specs::Writes::write_in))]
fn write_of(alloc: Global, item: &Value) -> Result<Write, EntryFault>
    ensures { Gives (λ write. write) result (write_in (view item.now)) }
{
    let Some((text, draft)) = pair_of(item) else {
        return Err(EntryFault::NotAnEntry);
    };
    match text.as_str() {
        Some(text) => write_at(alloc, text, draft),
        None => Err(EntryFault::NotAnEntry),
    }
}

fn write_at(alloc: Global, text: &str, draft: &Value) -> Result<Write, EntryFault>
    ensures { Gives (λ write. write) result (write_at text.now (view draft.now)) }
{
    let path = path_of(alloc, text)?;
    let draft = draft_of(alloc, draft)?;
    match Write::new(path, draft) {
        Ok(write) => Ok(write),
        Err(_) => Err(EntryFault::NotAnEntry),
    }
}

#[tactic(auto, unfolding(tree_model::specs::Path::is_path))]
fn path_of(alloc: Global, text: &str) -> Result<Path, EntryFault>
    ensures { Gives (λ path. path) result (if is_path (segments text.now) then Some (segments text.now) else None) }
{
    match Path::parse(alloc, text) {
        Ok(path) => Ok(path),
        Err(PathFault::NoMemory) => Err(EntryFault::NoMemory),
        Err(PathFault::BadPath | PathFault::TooDeep) => Err(EntryFault::NotAnEntry),
    }
}

fn draft_of(alloc: Global, value: &Value) -> Result<Option<Draft>, EntryFault>
    ensures { Gives draft_or_null result (if is_lawful_draft (view value.now) && nat_le (depth (draft_of_json (view value.now))) MAX_DEPTH then Some (draft_of_json (view value.now)) else None) }
{
    match draft_from_json(alloc, value) {
        Ok(draft) => Ok(draft),
        Err(ValueFault::NoMemory) => Err(EntryFault::NoMemory),
        Err(ValueFault::BadValue | ValueFault::TooDeep) => Err(EntryFault::NotAnEntry),
    }
}
