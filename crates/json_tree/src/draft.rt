//! A draft: what a client writes, a tree in which the moment of the step may stand.
ghost use Rattle.std.specs.Prelude.{◌≡◌, ◌≢◌, ◌<◌, ◌≤◌, [], ◌∷◌, true, false, Some, length, pos, is_some, All, IfOk, option_map, slice_get};
ghost use Rattle.std.specs.FinMap as map_of;
ghost use Rattle.std.specs.FinMap.{is_sorted};
ghost use Rattle.tree_model.specs.Key.{key_cmp};
ghost use Rattle.tree_model.specs.Path.{Path};
ghost use Rattle.tree_model.specs.Primitive.{whole, is_whole};
ghost use Rattle.tree_model.specs.PathMap.{get, sub, depth};
ghost use Rattle.tree_model.specs.Tree.{lone, non_null, child_keys, IsLawful};
ghost use Rattle.tree_model.specs.Children.{graft};
ghost use Rattle.tree_model.specs.Draft.{moment, tree_at, as_draft, IsFixed, IsLawfulDraft};
ghost use Rattle.json_tree.specs.Node.{AreLawfulChildren};
ghost use Rattle.json_tree.specs.Draft.{part_of};
ghost use Rattle.json_tree.specs.Working.Marks.{drafted, AreMarks, IsStampedAt, marks_of, marks_seen};

use crate::key::Key;
use crate::leaf::{Leaf, Number};
use crate::memory::NoMemory;
use crate::node::{Child, Node, NodeKind, index_of};
use std::alloc::Global;
use std::marker::Model;
use tree_model::MAX_DEPTH;

/// What is at a place of a draft: a primitive, or the moment of the step that writes it.
#[derive(Clone, Copy)]
pub enum Part<'a> {
    Fixed(&'a Leaf),
    Moment,
}

/// What a client writes, owned: a tree that is not null, where the moment of the step may stand in the
/// place of a primitive. Contracts see which part stands at which path. (REST reference, server values.)
#[derive(Debug, Drop)]
pub struct Draft {
    // At each moment's place stands a 0.
    node: Node,
    // Zeros at these places alone, if there are any.
    marks: Option<Box<Node>>,
}

impl Model for Draft {
    ghost use Rattle.tree_model.specs.Draft.{Draft as AnyDraft, draft_code};
    ghost use Rattle.json_tree.specs.Working.Marks.{drafted, AreMarks, marks_of};

    ghost Value = { AnyDraft };

    ghost coded = { draft_code };

    ghost view = { λ draft. drafted draft.node (marks_of draft.marks) };

    ghost invariant = { λ draft. AreMarks draft.node (marks_of draft.marks) };
}

/// A draft, borrowed. Contracts see which part stands at which path.
#[derive(Drop)]
pub struct DraftRef<'a> {
    node: &'a Node,
    marks: Option<&'a Node>,
}

impl<'a> Model for DraftRef<'a> {
    ghost use Rattle.tree_model.specs.Draft.{Draft as AnyDraft, draft_code};
    ghost use Rattle.json_tree.specs.Working.Marks.{drafted, AreMarks, IsStampedAt, marks_of, marks_seen};

    ghost Value = { AnyDraft };

    ghost coded = { draft_code };

    ghost view = { λ draft. drafted draft.node.now (marks_seen draft.marks) };

    ghost invariant = { λ draft. AreMarks draft.node.now (marks_seen draft.marks) };
}

impl Draft {
    /// The draft that is this tree at each moment. It takes no memory.
    pub fn fixed(node: Node) -> Draft
        ensures { result ≡ as_draft node }
    {
        Draft { node, marks: None }
    }

    /// The draft that is the moment alone, in one growth.
    pub fn moment(alloc: Global) -> Result<Draft, NoMemory>
        ensures { IfOk result (λ draft. draft ≡ lone moment) }
    {
        let marks = Box::new(alloc, zero()?)?;
        Ok(Draft {
            node: zero()?,
            marks: Some(marks),
        })
    }

    /// The draft of these children, by one growth for each of them, one for their list, and where a moment stands
    /// below, one for each child above it, one for the list of these, one more, and one for each long key.
    pub fn of_children(alloc: Global, children: Vec<(Key, Draft)>) -> Result<Draft, NoMemory>
        requires some { children.items ≢ [] }
        requires ascending { is_sorted key_cmp children.items ≡ true }
        requires room { All (λ child. depth child.1 < MAX_DEPTH) children.items }
        ensures { IfOk result (λ draft. draft ≡ graft children.items) }
    {
        let mut nodes = Vec::with_capacity(alloc, children.len())?;
        let mut marked = Vec::new(alloc);
        for (key, draft) in children {
            draft.law();
            let Draft { node, marks } = draft;
            if let Some(marks) = marks {
                let marks = Box::into_inner(marks);
                marks.law();
                marked.push(Child::new(alloc, key.copy(alloc)?, marks)?)?;
            }
            nodes.push(Child::new(alloc, key, node)?)?;
        }
        Ok(Draft {
            node: Node::of_children(nodes)?,
            marks: marks_below(alloc, marked)?,
        })
    }

    /// The same draft, by the growths of a copy of its tree, and where a moment stands in it by one more and those of a
    /// copy of the moments' places.
    pub fn copy(&self, alloc: Global) -> Result<Draft, NoMemory>
        ensures { IfOk result (λ draft. draft ≡ self.now) }
    {
        let marks = copy_of(alloc, &self.marks)?;
        Ok(Draft {
            node: self.node.copy(alloc)?,
            marks,
        })
    }

    /// Whether no moment stands in it. It takes no memory.
    pub fn is_fixed(&self) -> bool
        ensures fixed { result ≡ true → IsFixed self.now }
        ensures moment { result ≡ false → (p : Path) × (get self.now p ≡ Some moment) }
    {
        match &self.marks {
            Some(boxed) => {
                boxed.law();
                false
            }
            None => true,
        }
    }

    /// The same draft, borrowed.
    pub fn as_ref(&self) -> DraftRef<'_>
        ensures { result ≡ self.now }
    {
        let marks = match &self.marks {
            Some(marks) => Some(&**marks),
            None => None,
        };
        DraftRef {
            node: &self.node,
            marks,
        }
    }

    /// The tree that it is at the moment 0: without a moment in it, the tree that it is at each. It takes no memory.
    pub fn at_zero(&self) -> &Node
        ensures { result.now ≡ tree_at 0 self.now }
    {
        &self.node
    }

    /// The same, owned. It takes no memory.
    pub fn into_at_zero(self) -> Node
        ensures { result ≡ tree_at 0 self }
    {
        self.node
    }

    /// Puts a number in the place of each moment, in milliseconds. It takes no memory, and a binary search for
    /// each key above a moment; without a moment it takes one test.
    pub fn fill(&mut self, now: u64)
        requires { is_whole (pos now) ≡ true }
        ensures { self.new ≡ as_draft (tree_at now self.old) }
    {
        if let Some(marks) = self.marks.take() {
            stamp(&mut self.node, &marks, now);
        }
    }

    /// Every draft is lawful, and none is null.
    pub fn law(&self)
        ensures some { self.now ≢ map_of.empty }
        ensures lawful { IsLawfulDraft self.now }
        ensures depth { depth self.now ≤ MAX_DEPTH }
    {
        self.node.law();
    }
}

impl<'a> DraftRef<'a> {
    /// Whether no moment stands in it. It takes no memory.
    pub fn is_fixed(&self) -> bool
        ensures fixed { result ≡ true → IsFixed self.now }
        ensures moment { result ≡ false → (p : Path) × (get self.now p ≡ Some moment) }
    {
        match self.marks {
            Some(places) => {
                places.law();
                false
            }
            None => true,
        }
    }

    /// The tree that it is at the moment 0: without a moment in it, the tree that it is at each. It takes no memory.
    pub fn at_zero(&self) -> &'a Node
        ensures { result.now ≡ tree_at 0 self.now }
    {
        self.node
    }

    /// What stands at the root, if a part does. It takes no memory.
    pub fn part(&self) -> Option<Part<'a>>
        ensures { option_map part_of result ≡ get self.now [] }
    {
        let Some(leaf) = self.node.leaf() else {
            return None;
        };
        if is_leaf(self.marks) {
            Some(Part::Moment)
        } else {
            Some(Part::Fixed(leaf))
        }
    }

    /// The child of this key, by two binary searches at most. It takes no memory.
    pub fn child(&self, name: &str) -> Option<DraftRef<'a>>
        ensures { result ≡ non_null (sub self.now (name.now ∷ [])) }
    {
        let Some(node) = self.node.child(name) else {
            return None;
        };
        Some(DraftRef {
            node,
            marks: child_of(self.marks, name),
        })
    }

    /// How many children there are. It takes no memory.
    pub fn width(&self) -> usize
        ensures { result ≡ length (child_keys self.now) }
    {
        self.node.width()
    }

    /// The key of a child, in the order of their bytes. It takes no memory.
    pub fn key_at(&self, i: usize) -> Option<&'a Key>
        ensures { option_map (λ key. key.now) result ≡ slice_get (child_keys self.now) i }
    {
        self.node.key_at(i)
    }

    /// The most keys above a part, in constant time. It takes no memory.
    pub fn depth(&self) -> usize
        ensures { result ≡ depth self.now }
    {
        self.node.depth()
    }

    /// Every draft is lawful, and none is null.
    pub fn law(&self)
        ensures some { self.now ≢ map_of.empty }
        ensures lawful { IsLawfulDraft self.now }
    {
        self.node.law();
    }
}

// A copy of marks, if there are any.
fn copy_of(alloc: Global, marks: &Option<Box<Node>>) -> Result<Option<Box<Node>>, NoMemory>
    ensures { IfOk result (λ copy. marks_of copy ≡ marks_of marks.now) }
{
    match marks {
        Some(marks) => Ok(Some(Box::new(alloc, marks.copy(alloc)?)?)),
        None => Ok(None),
    }
}

// Whether the tree is a leaf.
fn is_leaf(tree: Option<&Node>) -> bool
    ensures { result ≡ is_some (get (marks_seen tree.entry) []) }
{
    match tree {
        Some(node) => node.leaf().is_some(),
        None => false,
    }
}

// Its child of this key.
fn child_of<'a>(tree: Option<&'a Node>, name: &str) -> Option<&'a Node>
    ensures { marks_seen result ≡ sub (marks_seen tree.entry) (name.now ∷ []) }
{
    match tree {
        Some(node) => node.child(name),
        None => None,
    }
}

// The tree of a 0.
fn zero() -> Result<Node, NoMemory>
    ensures { IfOk result (λ node. node ≡ lone (whole (pos 0))) }
{
    Node::of_leaf(Leaf::Whole(number_of(0)))
}

// The marks below these children, of which each has some.
fn marks_below(alloc: Global, marked: Vec<Child>) -> Result<Option<Box<Node>>, NoMemory>
    requires ascending { is_sorted key_cmp marked.items ≡ true }
    requires room { All (λ child. depth child.1 < MAX_DEPTH) marked.items }
    ensures { IfOk result (λ marks. marks_of marks ≡ graft marked.items) }
{
    if marked.is_empty() {
        return Ok(None);
    }
    Ok(Some(Box::new(alloc, Node::of_children(marked)?)?))
}

/// The number of a moment, in milliseconds.
pub fn number_of(now: u64) -> Number
    requires { is_whole (pos now) ≡ true }
    ensures { result ≡ pos now }
{
    Number::new(now as i64).unwrap()
}

// ---- filling in

// Puts the moment in the place of each 0 that is marked.
#[cycle(stamp)]
fn stamp(node: &mut Node, marks: &Node, now: u64)
    requires whole { is_whole (pos now) ≡ true }
    requires marks { AreMarks node.old marks.now }
    ensures { node.new ≡ tree_at now (drafted node.old marks.now) }
{
    marks.law();
    match &mut node.kind {
        NodeKind::Primitive(leaf) => *leaf = Leaf::Whole(number_of(now)),
        NodeKind::Parent { children, .. } => stamp_below(children, marks, now),
    }
}

// The same below the keys of a node.
#[cycle(stamp)]
fn stamp_below(children: &mut Vec<Child>, marks: &Node, now: u64)
    requires whole { is_whole (pos now) ≡ true }
    requires lawful { AreLawfulChildren children.old.items }
    requires marks { AreMarks (graft children.old.items) marks.now }
    ensures lawful { AreLawfulChildren children.new.items }
    ensures stamped { graft children.new.items ≡ tree_at now (drafted (graft children.old.items) marks.now) }
{
    for marked in marks.children() {
        stamp_child(children, marked, now);
    }
}

// The same below one key.
#[cycle(stamp)]
fn stamp_child(children: &mut Vec<Child>, marked: &Child, now: u64)
    requires whole { is_whole (pos now) ≡ true }
    requires lawful { AreLawfulChildren children.old.items }
    requires marks { AreMarks (sub (graft children.old.items) (marked.now.0 ∷ [])) marked.now.1 }
    ensures lawful { AreLawfulChildren children.new.items }
    ensures stamped { IsStampedAt now marked.now (graft children.old.items) (graft children.new.items) }
{
    let below = marked.node();
    below.law();
    match index_of(children, marked.key().text()) {
        Ok(index) => stamp(&mut children[index].held.1, below, now),
        Err(_) => unreachable!(),
    }
}
