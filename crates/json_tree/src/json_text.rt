//! The JSON text of a tree, written into bytes.
ghost use Rattle.std.specs.Prelude.{◌≡◌, ◌++◌, map, option_map, unwrap_or, IfOk, OnOk};
ghost use Rattle.json.specs.Tree.{json_tokens};
ghost use Rattle.serde_json.specs.Data.{object};
ghost use Rattle.serde_json.specs.Written.{outline, compact_text};
ghost use Rattle.tree_model.specs.Tree.{null};
ghost use Rattle.json_tree.specs.Leaf.{primitive_of};
ghost use Rattle.json_tree.specs.Json.{data_of, members_of, value_of};

use crate::leaf::Leaf;
use crate::memory::NoMemory;
use crate::node::{Child, Node};
use json::Writer;
use std::alloc::AllocError;

/// Writes the JSON text of a tree behind what stands in the bytes, null for None: the text of the
/// value that `to_json` gives, in two passes, with no memory but what the text takes: the first finds about how
/// long it is, and makes room for all of it. (This project's profile.)
pub fn write_json(bytes: Vec<u8>, tree: Option<&Node>) -> Result<Vec<u8>, NoMemory>
    ensures { IfOk result (λ text. text.items ≡ bytes.items
        ++ compact_text (value_of (unwrap_or (option_map (λ node. node.now) tree.entry) null))) }
{
    let mut out = Writer::new(with_room(bytes, tree)?);
    match tree {
        None => out.null()?,
        Some(node) => write_node(&mut out, node)?,
    }
    Ok(out.into_inner())
}

// The bytes, with room for the text of a tree behind them.
fn with_room(mut bytes: Vec<u8>, tree: Option<&Node>) -> Result<Vec<u8>, NoMemory>
    ensures { IfOk result (λ room. room.items ≡ bytes.items) }
{
    if let Some(node) = tree {
        bytes.reserve(node.text_room())?;
    }
    Ok(bytes)
}

/// Writes the tokens of the JSON text of a tree behind those of a writer, which puts the commas and the colons
/// between them.
#[cycle(write)]
pub fn write_node(out: &mut Writer, node: &Node) -> Result<(), AllocError>
    ensures before { out.new.before ≡ out.old.before }
    ensures tokens { OnOk result (out.new.tokens
        ≡ out.old.tokens ++ json_tokens (outline (value_of node.now))) }
{
    match node.leaf() {
        Some(leaf) => write_leaf(out, leaf),
        None => write_children(out, node.children()),
    }
}

#[cycle(write)]
fn write_children(out: &mut Writer, children: &[Child]) -> Result<(), AllocError>
    ensures before { out.new.before ≡ out.old.before }
    ensures tokens { OnOk result (out.new.tokens ≡ out.old.tokens ++ json_tokens
        (outline (object (members_of (map (λ child. (child.0, value_of child.1)) children.now))))) }
{
    out.begin_object()?;
    for child in children {
        let key = child.key();
        let node = child.node();
        out.key(key.text())?;
        write_node(out, node)?;
    }
    out.end_object()
}

fn write_leaf(out: &mut Writer, leaf: &Leaf) -> Result<(), AllocError>
    ensures before { out.new.before ≡ out.old.before }
    ensures tokens { OnOk result (out.new.tokens
        ≡ out.old.tokens ++ json_tokens (outline (data_of (primitive_of leaf.now)))) }
{
    match leaf {
        Leaf::Truth(b) => out.boolean(*b),
        Leaf::Whole(number) => out.i64(number.value()),
        Leaf::Words(text) => out.string(text.as_str()),
    }
}
