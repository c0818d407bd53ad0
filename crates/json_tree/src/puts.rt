//! Puts in place: one location of a stored tree is written, and memory is taken before anything
//! changes.
ghost use Rattle.std.specs.Prelude.{◌≡◌, ◌+◌, ◌<◌, ◌≤◌, ◌∷◌, [], true, length, unwrap_or, if◌then◌else◌, IfOk, IsOk, IsNone, IfSome, OnSome, IfNone, OnOk, OnErr};
ghost use Rattle.std.specs.Bool.{OnTrue, OnFalse};
ghost use Rattle.tree_model.specs.PathMap.{sub, exists, depth};
ghost use Rattle.tree_model.specs.Tree.{null, IsLawful};
ghost use Rattle.tree_model.specs.Children.{graft};
ghost use Rattle.tree_model.specs.Put.{merged};
ghost use Rattle.json_tree.specs.Node.{AreLawfulChildren};
ghost use Rattle.json_tree.specs.Working.Changed.{changed_at};
ghost use Rattle.json_tree.specs.Working.Share.{Exchanges};

use crate::key::Key;
use crate::leaf::Leaf;
use crate::memory::NoMemory;
use crate::node::{Child, Node, NodeKind, index_of};
use crate::share::{Exchange, NO_EXCHANGE, NO_SHARE, share_of, sizes_after};
use std::alloc::Global;
use std::mem::{replace, swap};
use tree_model::MAX_DEPTH;

/// Puts a tree at a path of a stored tree, or removes what is there, in place. A key is copied where a new
/// child is made, by a growth only where it has over 24 bytes. Memory is taken only for what is new, and before
/// anything changes: at an `Err` nothing has changed, and to remove, or to replace what is there, takes
/// none. It takes one step down for each key, log w of w children each, beside what is written, and where
/// a child is new or goes, those behind it move: d · w at most. The children of a node are counted anew only
/// where its deepest child became less deep and no other is as deep.
pub fn put(
    alloc: Global,
    tree: &mut Option<Node>,
    path: Vec<Key>,
    value: Option<Node>,
) -> Result<(), NoMemory>
    requires { length path.items + depth (unwrap_or value null) ≤ MAX_DEPTH }
    ensures ok { OnOk result (unwrap_or tree.new null
        ≡ merged (unwrap_or tree.old null) ((path.items, unwrap_or value null) ∷ [])) }
    ensures err { OnErr result (tree.new ≡ tree.old) }
    ensures removal { IsNone value → IsOk result }
    ensures existing { exists (unwrap_or tree.old null) path.items ≡ true → IsOk result }
{
    match value {
        Some(node) => {
            let mut reach = 0;
            put_node(alloc, tree, &path, node, &mut reach)?;
            Ok(())
        }
        None => {
            remove_from(tree, &path);
            Ok(())
        }
    }
}

// ---- what is put

// Puts a tree at a path of a stored tree, and gives what stood where that changes it. The number is raised by how
// many keys lead there; after an `Err` it is of no use.
#[inline(always)]
pub(crate) fn put_node(
    alloc: Global,
    tree: &mut Option<Node>,
    path: &[Key],
    value: Node,
    reach: &mut usize,
) -> Result<Option<Node>, NoMemory>
    requires room { length path.now + depth value ≤ MAX_DEPTH }
    requires reach { reach.old + length path.now ≤ MAX_DEPTH }
    ensures ok { OnOk result (unwrap_or tree.new null
        ≡ merged (unwrap_or tree.old null) ((path.now, value) ∷ [])) }
    ensures was { IfOk result (λ was. unwrap_or was null
        ≡ sub (unwrap_or tree.old null) (changed_at (unwrap_or tree.old null) path.now)) }
    ensures reach { OnOk result (reach.new
        ≡ reach.old + length (changed_at (unwrap_or tree.old null) path.now)) }
    ensures err { OnErr result (tree.new ≡ tree.old) }
    ensures existing { exists (unwrap_or tree.old null) path.now ≡ true → IsOk result }
    ensures lawful { IsLawful (unwrap_or tree.old null) }
{
    match tree {
        Some(node) => {
            node.law();
            let mut held = value;
            if insert(alloc, node, path, &mut held, reach)? {
                Ok(Some(held))
            } else {
                Ok(None)
            }
        }
        None => {
            *tree = Some(chain(alloc, path, value)?);
            *reach += path.len().min(1);
            Ok(None)
        }
    }
}

// Puts a tree at a path of a node, and leaves in its stead what stood where that changes the node, or, where
// nothing did, a tree of no use, and is then false. So trees are handed on by reference, down to where one is
// moved. The number is raised by one for each key on the way to where the node changes; after an `Err` it is
// of no use.
#[cycle(insert)]
fn insert(
    alloc: Global,
    node: &mut Node,
    path: &[Key],
    value: &mut Node,
    reach: &mut usize,
) -> Result<bool, NoMemory>
    requires room { length path.now + depth value.old ≤ MAX_DEPTH }
    requires reach { reach.old + length path.now ≤ MAX_DEPTH }
    ensures ok { OnOk result (node.new ≡ merged node.old ((path.now, value.old) ∷ [])) }
    ensures was { IfOk result (λ stood. (if stood then value.new else null)
        ≡ sub node.old (changed_at node.old path.now)) }
    ensures reach { OnOk result (reach.new ≡ reach.old + length (changed_at node.old path.now)) }
    ensures err { OnErr result (node.new ≡ node.old) }
    ensures existing { exists node.old path.now ≡ true → IsOk result }
{
    let [key, rest @ ..] = path else {
        swap(node, value);
        return Ok(true);
    };
    match &mut node.kind {
        NodeKind::Primitive(_) => {
            value.law();
            let parent = only_child(alloc, key, chain(alloc, rest, taken(value))?)?;
            *value = replace(node, parent);
            Ok(true)
        }
        NodeKind::Parent {
            children,
            depth,
            count,
        } => {
            let (exchange, stood) = insert_below(alloc, children, key, rest, value, reach)?;
            let (depth_after, count_after) = sizes_after(children, *depth, *count, exchange);
            *depth = depth_after;
            *count = count_after;
            Ok(stood)
        }
    }
}

// Puts a tree at a path below the child of a key, and leaves in its stead what stood there. The number is raised
// in the same way, the key of the child among the others.
#[cycle(insert)]
fn insert_below(
    alloc: Global,
    children: &mut Vec<Child>,
    key: &Key,
    rest: &[Key],
    value: &mut Node,
    reach: &mut usize,
) -> Result<(Exchange, bool), NoMemory>
    requires children { AreLawfulChildren children.old.items }
    requires room { length rest.now + depth value.old < MAX_DEPTH }
    requires reach { reach.old + length rest.now < MAX_DEPTH }
    ensures children { AreLawfulChildren children.new.items }
    ensures exchange { IfOk result (λ made. Exchanges children.old.items children.new.items made.0) }
    ensures ok { OnOk result (graft children.new.items
        ≡ merged (graft children.old.items) ((key.now ∷ rest.now, value.old) ∷ [])) }
    ensures was { IfOk result (λ made. (if made.1 then value.new else null)
        ≡ sub (graft children.old.items) (changed_at (graft children.old.items) (key.now ∷ rest.now))) }
    ensures reach { OnOk result (reach.new
        ≡ reach.old + length (changed_at (graft children.old.items) (key.now ∷ rest.now))) }
    ensures err { OnErr result (children.new.items ≡ children.old.items) }
    ensures existing { exists (graft children.old.items) (key.now ∷ rest.now) ≡ true → IsOk result }
{
    *reach += 1;
    match index_of(children, key.text()) {
        Ok(index) => {
            let before = share_of(children[index].node());
            let stood = insert(alloc, &mut children[index].held.1, rest, value, reach)?;
            let after = share_of(children[index].node());
            Ok((Exchange { before, after }, stood))
        }
        Err(index) => {
            let below = chain(alloc, rest, taken(value))?;
            let after = share_of(&below);
            let child = Child::new(alloc, key.copy(alloc)?, below)?;
            children.insert(index, child)?;
            Ok((
                Exchange {
                    before: NO_SHARE,
                    after,
                },
                false,
            ))
        }
    }
}

// The tree that stands there, in whose stead a leaf of no use is left.
fn taken(value: &mut Node) -> Node
    ensures { result ≡ value.old }
{
    let nothing = Node {
        kind: NodeKind::Primitive(Leaf::Truth(false)),
    };
    replace(value, nothing)
}

// The tree of a tree at a path: one child at each key.
fn chain(alloc: Global, path: &[Key], value: Node) -> Result<Node, NoMemory>
    requires { length path.now + depth value ≤ MAX_DEPTH }
    ensures { IfOk result (λ node. node ≡ merged null ((path.now, value) ∷ [])) }
{
    match path {
        [key, rest @ ..] => only_child(alloc, key, chain(alloc, rest, value)?),
        [] => Ok(value),
    }
}

// The node with this one child, in a list that has no room for more: most that are made so stay alone.
#[inline(always)]
fn only_child(alloc: Global, key: &Key, child: Node) -> Result<Node, NoMemory>
    requires { depth child < MAX_DEPTH }
    ensures { IfOk result (λ node. node ≡ graft ((key.now, child) ∷ [])) }
{
    let mut children = Vec::with_capacity(alloc, 1)?;
    children.push(Child::new(alloc, key.copy(alloc)?, child)?)?;
    Node::of_children(children)
}

// ---- what is removed

fn remove_from(tree: &mut Option<Node>, path: &[Key])
    ensures { unwrap_or tree.new null ≡ merged (unwrap_or tree.old null) ((path.now, null) ∷ []) }
{
    match tree {
        Some(node) => {
            if remove(node, path) {
                *tree = None;
            }
        }
        None => {}
    }
}

// Removes what is at a path of a node. True where nothing is left, and then the node is as it was.
#[cycle(remove)]
fn remove(node: &mut Node, path: &[Key]) -> bool
    ensures gone { OnTrue result (merged node.old ((path.now, null) ∷ []) ≡ null) }
    ensures same { OnTrue result (node.new ≡ node.old) }
    ensures left { OnFalse result (node.new ≡ merged node.old ((path.now, null) ∷ [])) }
{
    let [key, rest @ ..] = path else {
        return true;
    };
    let NodeKind::Parent {
        children,
        depth,
        count,
    } = &mut node.kind
    else {
        return false;
    };
    let Some(exchange) = remove_below(children, key, rest) else {
        return true;
    };
    let (depth_after, count_after) = sizes_after(children, *depth, *count, exchange);
    *depth = depth_after;
    *count = count_after;
    false
}

// Removes what is at a path below the child of a key. None where no child is left, and then they are
// as they were.
#[cycle(remove)]
fn remove_below(children: &mut Vec<Child>, key: &Key, rest: &[Key]) -> Option<Exchange>
    requires { AreLawfulChildren children.old.items }
    ensures children { AreLawfulChildren children.new.items }
    ensures exchange { IfSome result (λ exchange. Exchanges children.old.items children.new.items exchange) }
    ensures gone { IfNone result
        (merged (graft children.old.items) ((key.now ∷ rest.now, null) ∷ []) ≡ null) }
    ensures same { IfNone result (children.new.items ≡ children.old.items) }
    ensures left { OnSome result (graft children.new.items
        ≡ merged (graft children.old.items) ((key.now ∷ rest.now, null) ∷ [])) }
{
    match index_of(children, key.text()) {
        Ok(index) => {
            let before = share_of(children[index].node());
            if !remove(&mut children[index].held.1, rest) {
                let after = share_of(children[index].node());
                return Some(Exchange { before, after });
            }
            let is_only_child = children.len() == 1;
            if is_only_child {
                return None;
            }
            children.remove(index);
            Some(Exchange {
                before,
                after: NO_SHARE,
            })
        }
        Err(_) => Some(NO_EXCHANGE),
    }
}
