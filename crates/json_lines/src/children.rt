//! The children of a node, as they are read.
ghost use Rattle.std.specs.Prelude.{◌≡◌, ◌≢◌, ◌↔◌, [], true, IsTrue, map, length, IfOk, IfSome, OnSome};
ghost use Rattle.std.specs.List.Sorted.{IsSearchInRange, IsBinarySearchResult};
ghost use Rattle.serde_json.specs.Data.{object, put};
ghost use Rattle.tree_model.specs.Key.{key_cmp, is_key};
ghost use Rattle.tree_model.specs.Draft.{as_draft};
ghost use Rattle.json_tree.specs.Json.{value_of};
ghost use Rattle.json_lines.specs.DraftMembers.{members_named};
ghost use Rattle.json_lines.specs.Working.Children.{AreRead};

use crate::limits::MAX_MOVED;
use json_tree::{Child, Draft, Key, NoMemory, Node};
use std::alloc::Global;
use std::marker::Model;
use tree_model::MAX_DEPTH;

// For how many children a list has room when it is made: an object in a message mostly has no more.
const USUAL_CHILDREN: usize = 3;

/// Children in the byte order of their keys, of which each stands once, with room for a key above them.
/// Contracts see keys and trees.
#[derive(Drop)]
pub(crate) struct Children {
    held: Vec<Child>,
}

impl Model for Children {
    ghost use Rattle.std.specs.Prelude.{ℕ, List};
    ghost use Rattle.std.specs.Coded.{coded×, coded_list, coded_ℕ};
    ghost use Rattle.tree_model.specs.Tree.{Tree, tree_code};
    ghost use Rattle.json_lines.specs.Working.Children.{AreRead};

    ghost Value = { List (List ℕ × Tree) };

    ghost coded = { coded_list (coded× (coded_list coded_ℕ) tree_code) };

    ghost view = { λ children. children.held.items };

    ghost invariant = { λ children. AreRead children.held.items };
}

impl Children {
    /// No children, with room for as many as an object mostly has. None where memory is wanted.
    pub fn new(alloc: Global) -> Option<Children>
        ensures { IfSome result (λ children. children ≡ []) }
    {
        Some(Children {
            held: Vec::with_capacity(alloc, USUAL_CHILDREN).ok()?,
        })
    }

    /// Puts a child of a lawful key among the others, by a binary search. None where one of them has its key, where
    /// the tree has no room for a key above it, where more than [`MAX_MOVED`] of them would have to move, and where
    /// memory is wanted.
    pub fn put(&mut self, alloc: Global, name: &str, node: Node) -> Option<()>
        requires { is_key name.now ≡ true }
        ensures { OnSome result (members_named self.new
            ≡ put name.now (value_of node) (members_named self.old)) }
    {
        node.law();
        if node.depth() >= MAX_DEPTH {
            return None;
        }
        match index_of(&self.held, name) {
            Ok(_) => None,
            Err(index) => {
                if self.held.len() - index > MAX_MOVED {
                    return None;
                }
                let key = Key::of_lawful(alloc, name).ok()?;
                let child = Child::new(alloc, key, node).ok()?;
                self.held.insert(index, child).ok()?;
                Some(())
            }
        }
    }

    /// Whether there is no child.
    pub fn is_empty(&self) -> bool
        ensures { IsTrue result ↔ (self.now ≡ []) }
    {
        self.held.is_empty()
    }

    /// The node with them as its children.
    pub fn into_node(self) -> Result<Node, NoMemory>
        requires { self ≢ [] }
        ensures { IfOk result (λ node. value_of node ≡ object (members_named self)) }
    {
        let node = Node::of_children(self.held)?;
        Ok(node)
    }

    /// They as drafts, with room for one more. None where memory is wanted.
    pub fn into_drafts(self, alloc: Global) -> Option<Vec<(Key, Draft)>>
        ensures drafts { IfSome result (λ drafts. drafts.items ≡ map (λ child. (child.0, as_draft child.1)) self) }
        ensures read { IfSome result (λ drafts. AreRead drafts.items) }
    {
        let drafts = drafts_of(alloc, self.held)?;
        Some(drafts)
    }
}

fn drafts_of(alloc: Global, held: Vec<Child>) -> Option<Vec<(Key, Draft)>>
    ensures { IfSome result (λ drafts. drafts.items ≡ map (λ child. (child.0, as_draft child.1)) held.items) }
{
    let mut drafts = Vec::with_capacity(alloc, held.len() + 1).ok()?;
    for child in held {
        let (key, node) = child.into_parts();
        drafts.push((key, Draft::fixed(node))).ok()?;
    }
    Some(drafts)
}

// Where the child of a key is, or where it would go, by a binary search.
fn index_of(children: &Vec<Child>, name: &str) -> Result<usize, usize>
    ensures bound { IsSearchInRange result (length children.now.items) }
    ensures position { IsBinarySearchResult (λ child. key_cmp child.0 name.now) children.now.items result }
{
    children.binary_search_by(|child| child.key().text().cmp(name))
}
