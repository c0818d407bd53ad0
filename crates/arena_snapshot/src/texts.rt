//! The JSON text of a view, written into bytes.
ghost use Rattle.std.specs.Prelude.{◌≡◌, ◌++◌, [], None, option_map, unwrap_or, IfOk, OnOk};
ghost use Rattle.json.specs.Tree.{json_tokens};
ghost use Rattle.serde_json.specs.Written.{outline, compact_text};
ghost use Rattle.tree_model.specs.PathMap.{get};
ghost use Rattle.tree_model.specs.Tree.{null};
ghost use Rattle.json_tree.specs.Json.{value_of};

use crate::view::{View, ViewKind};
use json::Writer;
use json_tree::{NoMemory, write_json, write_node};
use std::alloc::AllocError;

/// Writes the JSON text of a view behind what stands in the bytes, null for None, with no memory but what the text
/// takes: the text that the tree has by `write_json`, which writes what is stored. Where children are changed, each
/// takes a binary search. (This project's profile.)
pub fn write_view(bytes: Vec<u8>, view: Option<&View>) -> Result<Vec<u8>, NoMemory>
    ensures { IfOk result (λ text. text.items ≡ bytes.items
        ++ compact_text (value_of (unwrap_or (option_map (λ view. view.now) view.entry) null))) }
{
    match view {
        None => write_json(bytes, None),
        Some(view) => match &view.kind {
            ViewKind::Stored(node) => write_json(bytes, Some(node)),
            ViewKind::Patched(_) => write_patched(bytes, view),
        },
    }
}

// The same of a view whose children are changed.
fn write_patched(bytes: Vec<u8>, view: &View) -> Result<Vec<u8>, NoMemory>
    ensures { IfOk result (λ text. text.items ≡ bytes.items ++ compact_text (value_of view.now)) }
{
    let mut out = Writer::new(bytes);
    write_tree(&mut out, view)?;
    Ok(out.into_inner())
}

/// Writes the tokens of the JSON text of a view behind those of a writer, which puts the commas and the colons
/// between them.
#[cycle(write)]
pub fn write_tree(out: &mut Writer, view: &View) -> Result<(), AllocError>
    ensures before { out.new.before ≡ out.old.before }
    ensures tokens { OnOk result (out.new.tokens
        ≡ out.old.tokens ++ json_tokens (outline (value_of view.now))) }
{
    match &view.kind {
        ViewKind::Stored(node) => write_node(out, node),
        ViewKind::Patched(_) => write_children(out, view),
    }
}

#[cycle(write)]
fn write_children(out: &mut Writer, view: &View) -> Result<(), AllocError>
    requires { get view.now [] ≡ None }
    ensures before { out.new.before ≡ out.old.before }
    ensures tokens { OnOk result (out.new.tokens
        ≡ out.old.tokens ++ json_tokens (outline (value_of view.now))) }
{
    view.law();
    out.begin_object()?;
    for i in 0..view.width() {
        let Some((key, child)) = view.entry_at(i) else {
            unreachable!()
        };
        out.key(key.text())?;
        write_tree(out, &child)?;
    }
    out.end_object()
}
