//! A node: the stored tree in memory, a leaf or children in the order of their keys.
ghost use Rattle.std.specs.Prelude.{◌≡◌, ◌≢◌, ◌<◌, ◌≤◌, true, ◌∷◌, [], length, min, map, count_by, All, IsOk, IfOk, option_map, slice_get, None};
ghost use Rattle.std.specs.List.{AllByRecursion};
ghost use Rattle.std.specs.List.Sorted.{IsSearchInRange, IsBinarySearchResult};
ghost use Rattle.std.specs.Ordering.{is_lt};
ghost use Rattle.std.specs.declared.cmp.Ordering.TheVariants.{Less};
ghost use Rattle.std.specs.FinMap.{is_sorted};
ghost use Rattle.std.specs.FinMap as map_of;
ghost use Rattle.tree_model.specs.Key.{key_cmp};
ghost use Rattle.tree_model.specs.PathMap.{get, sub, depth};
ghost use Rattle.tree_model.specs.Tree.{null, lone, count, non_null, children, child_keys, IsLawful};
ghost use Rattle.tree_model.specs.Children.{graft, AreChildren, IsLawfulChild};
ghost use Rattle.json_tree.specs.Leaf.{primitive_of};

use crate::front::{Front, Sought};
use crate::key::Key;
use crate::leaf::Leaf;
use crate::memory::NoMemory;
use crate::search::count_in_front;
use std::alloc::Global;
use std::cmp::Ordering;
use std::marker::Model;
use tree_model::MAX_DEPTH;

// How many bytes stand around a key in a text: its quotes, a colon and a comma.
const AROUND_A_KEY: usize = 4;

/// A tree that is not null, owned. Contracts see which primitive stands at which path. (Guide
/// "Structure Your Database", how data is structured: a JSON tree.)
#[cycle(node)]
#[derive(Debug, Drop)]
pub struct Node {
    pub(crate) kind: NodeKind,
}

#[cycle(node)]
#[derive(Debug, Drop)]
pub(crate) enum NodeKind {
    Primitive(Leaf),
    Parent {
        // Ascending by the bytes of the keys, at least one.
        children: Vec<Child>,
        // The depth and the count of the tree, kept so that nobody walks it for them.
        depth: usize,
        count: usize,
    },
}

/// A child of a node: its key, and its tree. Both lie in a growth of their own, so that where a child comes
/// or goes, those behind it are moved by 16 bytes each; beside it stands the front of the key, so that a search
/// mostly looks at the list alone. Contracts see the pair. (Guide "Structure Your Database", how data is
/// structured.)
#[cycle(node)]
#[derive(Debug, Drop)]
pub struct Child {
    front: Front,
    pub(crate) held: Box<(Key, Node)>,
}

/// Where a key stands among the children of a node.
#[derive(Clone, Copy)]
pub struct ChildPlace<'a> {
    /// The child of the key, if there is one.
    pub child: Option<&'a Node>,
    /// How many children stand before the key, whether there is one at it or not.
    pub before: usize,
}

impl Model for Child {
    ghost use Rattle.std.specs.Prelude.{ℕ, List, ◌+◌};
    ghost use Rattle.std.specs.Coded.{coded×, coded_list, coded_ℕ};
    ghost use Rattle.tree_model.specs.PathMap.{depth as depth_of};
    ghost use Rattle.tree_model.specs.Tree.{Tree, tree_code};

    ghost Value = { List ℕ × Tree };

    ghost coded = { coded× (coded_list coded_ℕ) tree_code };

    ghost use Rattle.json_tree.specs.Working.Front.{IsFrontOf};

    ghost view = { λ child. child.held.value };

    ghost invariant = { λ child. IsFrontOf child.held.value.0 child.front.0 };

    ghost size = { λ child. depth_of child.1 + depth_of child.1 + 1 };

    ghost use Rattle.std.proofs.Common.{arith};

    ghost size_decreases = { λ child h. Prim.omega arith };
}

impl Child {
    /// The child of this key, in one growth. Where it is called its parts are put together in that growth, and not
    /// moved into the call first.
    #[inline(always)]
    pub fn new(alloc: Global, key: Key, node: Node) -> Result<Child, NoMemory>
        ensures { IfOk result (λ child. child ≡ (key, node)) }
    {
        let front = Front::of(key.text());
        Ok(Child {
            front,
            held: Box::new(alloc, (key, node))?,
        })
    }

    /// The key of the child.
    pub fn key(&self) -> &Key
        ensures { result.now ≡ self.now.0 }
    {
        &self.held.0
    }

    /// The tree of the child.
    pub fn node(&self) -> &Node
        ensures { result.now ≡ self.now.1 }
    {
        &self.held.1
    }

    /// Its key and its tree. It takes no memory.
    pub fn into_parts(self) -> (Key, Node)
        ensures { result ≡ self }
    {
        Box::into_inner(self.held)
    }

    // Whether the front alone shows that the key stands before a text.
    pub(crate) fn is_in_front_of(&self, sought: &Sought<'_>) -> bool
        ensures { result ≡ true → key_cmp self.now.0 sought.now ≡ Less }
    {
        self.front.is_before(sought.front)
    }

    // Where the key stands beside a text: the fronts show it, and where they are the same, either that no other
    // key has this front, or the key.
    pub(crate) fn compare(&self, sought: &Sought<'_>) -> Ordering
        ensures { result ≡ key_cmp self.now.0 sought.now }
    {
        match self.front.compare(sought.front) {
            Ordering::Equal => {
                if sought.is_told {
                    self.key().text();
                    Ordering::Equal
                } else {
                    self.key().compare(sought.text)
                }
            }
            apart => apart,
        }
    }

    // Where the key stands beside that of another child, in the same way.
    pub(crate) fn compare_keys(&self, other: &Child) -> Ordering
        ensures { result ≡ key_cmp self.now.0 other.now.0 }
    {
        match self.front.compare(other.front) {
            Ordering::Equal => self.key().compare(other.key().text()),
            apart => apart,
        }
    }

    #[cycle(copy)]
    fn copy(&self, alloc: Global) -> Result<Child, NoMemory>
        ensures { IfOk result (λ child. child ≡ self.now) }
    {
        let key = self.key().copy(alloc)?;
        let node = self.node().copy(alloc)?;
        Child::new(alloc, key, node)
    }
}

impl Model for Node {
    ghost use Rattle.tree_model.specs.PathMap.{depth as depth_of};
    ghost use Rattle.tree_model.specs.Tree.{Tree, tree_code};

    ghost Value = { Tree };

    ghost coded = { tree_code };

    ghost use Rattle.json_tree.specs.Node.{tree_of, IsNode};

    ghost view = { λ node. tree_of node.kind };

    ghost invariant = { λ node. IsNode node.kind };

    ghost use Rattle.std.specs.Prelude.{◌+◌};

    ghost size = { λ tree. depth_of tree + depth_of tree };

    ghost use Rattle.json_tree.specs.Working.NodeFalls.{falls};

    ghost size_decreases = { λ node h. falls node.kind h };
}

impl Node {
    /// The tree of one primitive.
    pub fn of_leaf(leaf: Leaf) -> Result<Node, NoMemory>
        ensures succeeds { IsOk result }
        ensures tree { IfOk result (λ node. node ≡ lone (primitive_of leaf)) }
    {
        leaf.law();
        Ok(Node {
            kind: NodeKind::Primitive(leaf),
        })
    }

    /// The tree of these children, in one pass over the list.
    pub fn of_children(children: Vec<Child>) -> Result<Node, NoMemory>
        requires some { children.items ≢ [] }
        requires ascending { is_sorted key_cmp children.items ≡ true }
        requires room { All (λ child. depth child.1 < MAX_DEPTH) children.items }
        ensures succeeds { IsOk result }
        ensures tree { IfOk result (λ node. node ≡ graft children.items) }
    {
        let (depth, count) = sizes_of(&children);
        Ok(Node {
            kind: NodeKind::Parent {
                children,
                depth,
                count,
            },
        })
    }

    /// The primitive that stands at the root, if one does.
    pub fn leaf(&self) -> Option<&Leaf>
        ensures { option_map (λ leaf. primitive_of leaf.now) result ≡ get self.now [] }
    {
        match &self.kind {
            NodeKind::Primitive(leaf) => Some(leaf),
            NodeKind::Parent { .. } => None,
        }
    }

    /// The child of this key, by a binary search: log w of w children.
    pub fn child(&self, name: &str) -> Option<&Node>
        ensures { option_map (λ node. node.now) result
            ≡ non_null (sub self.now (name.now ∷ [])) }
    {
        match &self.kind {
            NodeKind::Primitive(_) => None,
            NodeKind::Parent { children, .. } => place_of(children, name).child,
        }
    }

    /// The child of this key with how many children stand before the key, by one binary search: log w
    /// of w children.
    pub fn place(&self, name: &str) -> ChildPlace<'_>
        ensures child { option_map (λ node. node.now) result.child
            ≡ non_null (sub self.now (name.now ∷ [])) }
        ensures before { result.before
            ≡ count_by (λ key. is_lt (key_cmp key name.now)) (child_keys self.now) }
    {
        match &self.kind {
            NodeKind::Primitive(_) => ChildPlace {
                child: None,
                before: 0,
            },
            NodeKind::Parent { children, .. } => place_of(children, name),
        }
    }

    /// How many children there are.
    pub fn width(&self) -> usize
        ensures { result ≡ length (child_keys self.now) }
    {
        match &self.kind {
            NodeKind::Primitive(_) => 0,
            NodeKind::Parent { children, .. } => children.len(),
        }
    }

    /// The key of a child, in the order of their bytes.
    pub fn key_at(&self, i: usize) -> Option<&Key>
        ensures { option_map (λ key. key.now) result ≡ slice_get (child_keys self.now) i }
    {
        match &self.kind {
            NodeKind::Primitive(_) => None,
            NodeKind::Parent { children, .. } => key_of(children, i),
        }
    }

    /// The child at an index with its key, in the order of the keys, in constant time.
    pub fn entry_at(&self, i: usize) -> Option<(&Key, &Node)>
        ensures { option_map (λ entry. (entry.0.now, entry.1.now)) result
            ≡ slice_get (map_of.entries (children self.now)) i }
    {
        let entry = self.children().get(i)?;
        Some((entry.key(), entry.node()))
    }

    /// The most keys above a primitive, in constant time.
    pub fn depth(&self) -> usize
        ensures { result ≡ depth self.now }
    {
        match &self.kind {
            NodeKind::Primitive(_) => 0,
            NodeKind::Parent { depth, .. } => *depth,
        }
    }

    /// How many locations exist, the root among them, in constant time. Of a tree with more than
    /// a `usize` can hold, the greatest `usize`.
    pub fn count(&self) -> usize
        ensures { result ≡ min (count self.now) usize.MAX }
    {
        match &self.kind {
            NodeKind::Primitive(_) => 1,
            NodeKind::Parent { count, .. } => *count,
        }
    }

    /// The same tree once more, in one pass: one growth for each long text, long key, child and list of
    /// children.
    #[cycle(copy)]
    pub fn copy(&self, alloc: Global) -> Result<Node, NoMemory>
        ensures { IfOk result (λ node. node ≡ self.now) }
    {
        let kind = match &self.kind {
            NodeKind::Primitive(leaf) => NodeKind::Primitive(leaf.copy(alloc)?),
            NodeKind::Parent {
                children,
                depth,
                count,
            } => NodeKind::Parent {
                children: copy_of(alloc, children)?,
                depth: *depth,
                count: *count,
            },
        };
        Ok(Node { kind })
    }

    // About how many bytes its text has, without what escapes add. So each child is looked at before the first
    // is written, and the memory that holds them is waited for at once.
    #[cycle(room)]
    pub(crate) fn text_room(&self) -> usize {
        match &self.kind {
            NodeKind::Primitive(leaf) => leaf.text_room(),
            NodeKind::Parent { children, .. } => {
                let keys = room_of_keys(children);
                keys.saturating_add(room_below(children))
            }
        }
    }

    // The children with their keys, in their order.
    pub(crate) fn children(&self) -> &[Child]
        ensures exact { result.now ≡ map_of.entries (children self.now) }
        ensures parent { get self.now [] ≡ None → AreChildren result.now }
        ensures graft { get self.now [] ≡ None → self.now ≡ graft result.now }
    {
        match &self.kind {
            NodeKind::Primitive(_) => &[],
            NodeKind::Parent { children, .. } => children.as_slice(),
        }
    }

    /// What holds of every node: something stands there, and all of it is lawful.
    pub fn law(&self)
        ensures some { self.now ≢ null }
        ensures lawful { IsLawful self.now }
        ensures depth { depth self.now ≤ MAX_DEPTH }
    {
        let _kind = &self.kind;
    }
}

// The depth and the count of a tree of these children.
pub(crate) fn sizes_of(children: &Vec<Child>) -> (usize, usize)
    requires some { children.now.items ≢ [] }
    requires ascending { is_sorted key_cmp children.now.items ≡ true }
    requires room { All (λ child. depth child.1 < MAX_DEPTH) children.now.items }
    ensures children { AreChildren children.now.items }
    ensures lawful { AllByRecursion IsLawfulChild children.now.items }
    ensures depth { result.0 ≡ depth (graft children.now.items) }
    ensures count { result.1 ≡ min (count (graft children.now.items)) usize.MAX }
{
    let mut depth = 0;
    let mut count = 1usize;
    for child in children {
        let node = child.node();
        child.key().text();
        node.law();
        depth = depth.max(node.depth() + 1);
        count = count.saturating_add(node.count());
    }
    (depth, count)
}

fn place_of<'a>(children: &'a Vec<Child>, name: &str) -> ChildPlace<'a>
    requires { AreChildren children.now.items }
    ensures child { option_map (λ node. node.now) result.child
        ≡ non_null (sub (graft children.now.items) (name.now ∷ [])) }
    ensures before { result.before ≡ count_by (λ key. is_lt (key_cmp key name.now))
        (map (λ child. child.0) children.now.items) }
{
    match index_of(children, name) {
        Ok(index) => ChildPlace {
            child: Some(children[index].node()),
            before: index,
        },
        Err(index) => ChildPlace {
            child: None,
            before: index,
        },
    }
}

// Where the child of this key is, or where it would go. Fronts lead to one child, and only where that has the
// front of the text, and is another, the whole is searched.
pub(crate) fn index_of(children: &Vec<Child>, name: &str) -> Result<usize, usize>
    ensures bound { IsSearchInRange result (length children.now.items) }
    ensures position { IsBinarySearchResult (λ child. key_cmp child.0 name.now)
        children.now.items result }
{
    let sought = Sought::of(name);
    let index = count_in_front(children, &sought);
    if index == children.len() {
        return Err(index);
    }
    match children[index].compare(&sought) {
        Ordering::Equal => Ok(index),
        Ordering::Greater => Err(index),
        Ordering::Less => searched(children, &sought),
    }
}

// The same by a binary search.
fn searched(children: &Vec<Child>, sought: &Sought<'_>) -> Result<usize, usize>
    ensures bound { IsSearchInRange result (length children.now.items) }
    ensures position { IsBinarySearchResult (λ child. key_cmp child.0 sought.now)
        children.now.items result }
{
    children.binary_search_by(|child| child.compare(sought))
}

fn key_of(children: &Vec<Child>, i: usize) -> Option<&Key>
    ensures { option_map (λ key. key.now) result
        ≡ slice_get (map (λ child. child.0) children.now.items) i }
{
    if i < children.len() {
        Some(children[i].key())
    } else {
        None
    }
}

// About how many bytes the keys of these children take in a text.
fn room_of_keys(children: &Vec<Child>) -> usize {
    let mut room = 0usize;
    for child in children {
        room = room.saturating_add(child.key().text().len() + AROUND_A_KEY);
    }
    room
}

// About how many bytes the trees of these children take in a text.
#[cycle(room)]
fn room_below(children: &Vec<Child>) -> usize {
    let mut room = 0usize;
    for child in children {
        room = room.saturating_add(child.node().text_room());
    }
    room
}

#[cycle(copy)]
fn copy_of(alloc: Global, children: &Vec<Child>) -> Result<Vec<Child>, NoMemory>
    ensures { IfOk result (λ copies. copies.items ≡ children.now.items) }
{
    let mut copies = Vec::with_capacity(alloc, children.len())?;
    for child in children {
        copies.push(child.copy(alloc)?)?;
    }
    Ok(copies)
}
