//! A rules file, read.
ghost use Rattle.std.specs.Prelude.{◌≡◌, ◌<◌, ◌++◌, ℕ, List, [], codes, true, length, slice_index_or, Contains, IfSome, IfNone, IfOk};
ghost use Rattle.std.specs.FinMap as map_of;
ghost use Rattle.tree_model.specs.Key.{Key as KeyBytes};
ghost use Rattle.tree_model.specs.Path.{Path};
ghost use Rattle.tree_model.specs.PathMap.{sub};
ghost use Rattle.path_capture.specs.Name.{is_name};
ghost use Rattle.rules_reader.specs.Part.{Pattern};
ghost use Rattle.rules_reader.specs.Book.{rules};
ghost use Rattle.rules_reader.specs.Place.{StandsAt, IsCaptureOf, HasOneCapture, HasNamesOnce, captures};

use crate::node::RuleNode;
use json_tree::{Key, NoMemory};
use std::alloc::Global;
use std::marker::Model;

/// What a rules file states. It outlives the bytes that it was read from. Contracts see the
/// patterns of the objects of the file, each with the rules that stand there.
#[derive(Debug, Drop)]
pub struct Rules {
    // In a growth of its own, so that whatever holds rules is small.
    root: Box<RuleNode>,
    count: usize,
}

impl Model for Rules {
    ghost use Rattle.rules_reader.specs.Book.{Book, book_code};

    ghost Value = { Book };

    ghost coded = { book_code };

    ghost use Rattle.rules_reader.specs.Working.Rules.{IsRoot};

    ghost view = { λ file. file.root.value.book };

    ghost invariant = { λ file. IsRoot file.root.value file.count };
}

impl Rules {
    /// The rules of a file whose root this is, and how many they are, in one growth.
    pub(crate) fn of_root(alloc: Global, root: RuleNode, count: usize) -> Result<Rules, NoMemory>
        requires at { root.at ≡ [] }
        requires listed { map_of.contains_key root.book [] ≡ true }
        requires one { HasOneCapture root.book }
        requires once { HasNamesOnce root.book }
        requires counted { count ≡ length (rules root.book) }
        ensures { IfOk result (λ file. file ≡ root.book) }
    {
        Ok(Rules {
            root: Box::new(alloc, root)?,
            count,
        })
    }

    /// The object that stands at the empty pattern. It is listed like every other, and in each object
    /// at most one part is a capture.
    pub fn root(&self) -> &RuleNode
        ensures node { result.now ≡ record { at = []; book = self.now } }
        ensures listed { map_of.contains_key self.now [] ≡ true }
        ensures one { HasOneCapture self.now }
    {
        &self.root
    }

    /// How many rules the file states, in constant time.
    pub fn count(&self) -> usize
        ensures { result ≡ length (rules self.now) }
    {
        self.count
    }

    /// The object whose pattern stands at a path, if one does: one step for each key. It takes no
    /// memory. (Guide "Core syntax", using $ variables to capture path segments.)
    pub fn find(&self, path: &[Key]) -> Option<&RuleNode>
        ensures found { IfSome result (λ node. StandsAt self.now node.now.at path.now × (node.now.book ≡ sub self.now node.now.at)) }
        ensures none { IfNone result ((p : Pattern) → ¬ (StandsAt self.now p path.now)) }
    {
        node_at(&self.root, path)
    }

    /// In each object at most one part is a capture, so at most one pattern stands at a path.
    /// (Guide "Core syntax", `$` variables.)
    pub fn at_most_one_pattern_stands_at_a_path(&self)
        ensures { (p q : Pattern) (path : Path) → StandsAt self.now p path → StandsAt self.now q path → p ≡ q }
    {
        let _root = &self.root;
    }

    /// The captures of a place: each capture of the pattern that stands at a path is given, by its name
    /// without the `$`, with the key at its place, nothing else is given, and no name with two keys.
    /// (Guide "Core syntax", using $ variables to capture path segments.)
    pub fn the_captures_of_a_place(&self)
        ensures given { (p : Pattern) (path : Path) (i : ℕ) (name : List ℕ) → StandsAt self.now p path → i < length p → slice_index_or p i [] ≡ codes "$" ++ name → is_name name ≡ true → Contains (captures p path) (name, slice_index_or path i []) }
        ensures alone { (p : Pattern) (path : Path) (name : List ℕ) (k : KeyBytes) → Contains (captures p path) (name, k) → IsCaptureOf p path name k }
        ensures once { (p : Pattern) (path : Path) (name : List ℕ) (k l : KeyBytes) → StandsAt self.now p path → Contains (captures p path) (name, k) → Contains (captures p path) (name, l) → k ≡ l }
    {
        let _root = &self.root;
    }
}

fn node_at<'a>(root: &'a RuleNode, path: &[Key]) -> Option<&'a RuleNode>
    requires at { root.now.at ≡ [] }
    requires listed { map_of.contains_key root.now.book [] ≡ true }
    requires one { HasOneCapture root.now.book }
    ensures found { IfSome result (λ node. StandsAt root.now.book node.now.at path.now × (node.now.book ≡ sub root.now.book node.now.at)) }
    ensures none { IfNone result ((p : Pattern) → ¬ (StandsAt root.now.book p path.now)) }
{
    let mut node = root;
    for key in path {
        node = node.step(key.text())?;
    }
    Some(node)
}
