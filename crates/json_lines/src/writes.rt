//! Writes: what paths and drafts the members of a message are.
ghost use Rattle.std.specs.Prelude.{◌≡◌, ◌++◌, ◌∷◌, [], IfOk, OnOk};
ghost use Rattle.serde_json.specs.Data.{number, unsigned, string};
ghost use Rattle.serde_json.specs.View.{view, members_view};
ghost use Rattle.tree_model.specs.Draft.{as_draft};
ghost use Rattle.path_capture.specs.Write.{tree_or_null, draft_or_null};
ghost use Rattle.json_lines.specs.Lines.{Tells, path_of, path_below, tree_of_value, draft_of_value, write_at, write_below, writes_below};
ghost use Rattle.json_lines.specs.Working.Faults.{fault_of_path, fault_of_value};
ghost use Rattle.json_lines.specs.Outline.{said_data};

use crate::draft_members::is_read_back;
use crate::fault::MessageFault;
use crate::nested::node_of_whole;
use crate::outline::Said;
use json_tree::{Draft, Leaf, NoMemory, Node, ValueFault, draft_from_json, from_json, from_value};
use path_capture::{Path, PathFault, Write};
use serde_json::{Map, Value};
use std::alloc::Global;
use tree_model::MAX_TEXT_BYTES;

/// The writes of an update, whose members stand in the byte order of their names.
#[tactic(auto, using(crate::proofs::Members::at_first, crate::proofs::Members::at_last, crate::proofs::Members::one_more, crate::proofs::Members::at_fault))]
pub(crate) fn writes_below(
    alloc: Global,
    path: &Path,
    members: &Map<String, Value>,
) -> Result<Vec<Write>, MessageFault>
    ensures { Tells (λ writes. writes.items) result (writes_below path.now (members_view members.now.entries)) }
{
    let mut writes = with_room(alloc, members.len())?;
    for (name, value) in members.iter() {
        let write = write_below(alloc, path, name.as_str(), value)?;
        keep(&mut writes, write)?;
    }
    Ok(writes)
}

/// A list that has room for so many writes.
pub(crate) fn with_room(alloc: Global, count: usize) -> Result<Vec<Write>, NoMemory>
    ensures { IfOk result (λ writes. writes.items ≡ []) }
{
    Ok(Vec::with_capacity(alloc, count)?)
}

/// One write more.
pub(crate) fn keep(writes: &mut Vec<Write>, write: Write) -> Result<(), NoMemory>
    ensures { OnOk result (writes.new.items ≡ writes.old.items ++ write ∷ []) }
{
    writes.push(write)?;
    Ok(())
}

fn write_below(alloc: Global, path: &Path, name: &str, value: &Value) -> Result<Write, MessageFault>
    ensures { Tells (λ write. write) result (write_below path.now name.now (view value.now)) }
{
    let at = path_below(alloc, path, name)?;
    let draft = draft_of_value(alloc, value)?;
    write_at(at, draft)
}

/// The path that a name leads to, below a path.
pub(crate) fn path_below(alloc: Global, path: &Path, name: &str) -> Result<Path, MessageFault>
    ensures { Tells (λ at. at) result (path_below path.now name.now) }
{
    match path.parse_below(alloc, name) {
        Ok(at) => Ok(at),
        Err(fault) => Err(fault_of_path(fault)),
    }
}

/// The path of a text.
pub fn path_of(alloc: Global, text: &str) -> Result<Path, MessageFault>
    ensures { Tells (λ path. path) result (path_of text.now) }
{
    match Path::parse(alloc, text) {
        Ok(path) => Ok(path),
        Err(fault) => Err(fault_of_path(fault)),
    }
}

fn fault_of_path(fault: PathFault) -> MessageFault
    ensures { result ≡ fault_of_path fault }
{
    match fault {
        PathFault::BadPath => MessageFault::BadPath,
        PathFault::TooDeep => MessageFault::TooDeep,
        PathFault::NoMemory => MessageFault::NoMemory,
    }
}

/// The draft of a member of an outline.
pub(crate) fn draft_of(alloc: Global, said: Said<'_>) -> Result<Option<Draft>, MessageFault>
    ensures { Tells draft_or_null result (draft_of_value (said_data said.entry)) }
{
    match said {
        Said::Null => draft_of_value(alloc, &Value::Null),
        Said::Truth(truth) => draft_of_value(alloc, &Value::Bool(truth)),
        Said::Whole(whole) => draft_of_whole(alloc, whole),
        Said::Negative(negative) => draft_of_value(alloc, &Value::from(negative)),
        Said::Words(text) => draft_of_text(alloc, text),
        Said::Drafts(named) => named.into_draft(alloc),
    }
}

fn draft_of_whole(alloc: Global, whole: u64) -> Result<Option<Draft>, MessageFault>
    ensures { Tells draft_or_null result (draft_of_value (number (unsigned whole))) }
{
    match node_of_whole(whole) {
        Some(node) => {
            let draft = Some(Draft::fixed(node));
            is_read_back(&draft);
            Ok(draft)
        }
        None => draft_of_value(alloc, &Value::from(whole)),
    }
}

fn draft_of_text(alloc: Global, text: &str) -> Result<Option<Draft>, MessageFault>
    ensures { Tells draft_or_null result (draft_of_value (string text.now)) }
{
    if text.len() > MAX_TEXT_BYTES {
        return Err(MessageFault::BadValue);
    }
    let leaf = Leaf::words(alloc, text)?;
    let node = Node::of_leaf(leaf)?;
    Ok(Some(Draft::fixed(node)))
}

/// The draft of a value. A value that is a tree is read as one, since a draft is built by way of a list more; only
/// one that is not a tree is looked through for the form of the moment.
pub(crate) fn draft_of_value(alloc: Global, value: &Value) -> Result<Option<Draft>, MessageFault>
    ensures { Tells draft_or_null result (draft_of_value (view value.now)) }
{
    match from_json(alloc, value) {
        Ok(tree) => Ok(fixed(tree)),
        Err(ValueFault::BadValue) => draft_with_moments(alloc, value),
        Err(ValueFault::TooDeep) => Err(MessageFault::TooDeep),
        Err(ValueFault::NoMemory) => Err(MessageFault::NoMemory),
    }
}

// The draft that is this tree at each moment.
fn fixed(tree: Option<Node>) -> Option<Draft>
    ensures { draft_or_null result ≡ as_draft (tree_or_null tree) }
{
    match tree {
        Some(node) => Some(Draft::fixed(node)),
        None => None,
    }
}

// The draft of a value in which the form may stand.
fn draft_with_moments(alloc: Global, value: &Value) -> Result<Option<Draft>, MessageFault>
    ensures { Tells draft_or_null result (draft_of_value (view value.now)) }
{
    match draft_from_json(alloc, value) {
        Ok(draft) => Ok(draft),
        Err(fault) => Err(fault_of_value(fault)),
    }
}

/// The tree of a value that is given away.
pub fn tree_of_given(alloc: Global, value: Value) -> Result<Option<Node>, MessageFault>
    ensures { Tells tree_or_null result (tree_of_value (view value)) }
{
    match from_value(alloc, value) {
        Ok(tree) => Ok(tree),
        Err(fault) => Err(fault_of_value(fault)),
    }
}

fn fault_of_value(fault: ValueFault) -> MessageFault
    ensures { result ≡ fault_of_value fault }
{
    match fault {
        ValueFault::BadValue => MessageFault::BadValue,
        ValueFault::TooDeep => MessageFault::TooDeep,
        ValueFault::NoMemory => MessageFault::NoMemory,
    }
}

/// The write of a draft at a path, None for null; both together may be too deep. It is inlined into
/// its callers: a write that is handed back lies in memory, and is copied from there.
#[inline(always)]
pub fn write_at(path: Path, draft: Option<Draft>) -> Result<Write, MessageFault>
    ensures { Tells (λ write. write) result (write_at path (draft_or_null draft)) }
{
    match Write::new(path, draft) {
        Ok(write) => Ok(write),
        Err(_) => Err(MessageFault::TooDeep),
    }
}
