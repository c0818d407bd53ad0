//! What the captures of a pattern stand for, at one path.
ghost use Rattle.std.specs.Prelude.{◌≡◌, ◌++◌, [], ◌∷◌, length, slice_get, option_map, OnOk, OnErr, MatchOption};
ghost use Rattle.path_capture.specs.Captures.{bound, key_named};

use crate::name::CaptureName;
use json_tree::{Key, NoMemory};
use std::alloc::{Allocator, Global};
use std::marker::Model;

/// A capture's name, without its `$`, and the key that it stands for.
#[derive(Clone, Copy, Debug)]
pub struct Binding<'a> {
    pub name: &'a CaptureName,
    pub key: &'a Key,
}

/// The captures of a pattern and the keys that they stand for, from the root down: a list of pairs of
/// name and key, which borrows both. It keeps the allocator that it was made with, for all that it
/// takes later: an arena is one too, for captures that are bound at each request. Contracts see the
/// list of pairs. (Guide "Core syntax", using `$` variables to capture path segments.)
#[derive(Debug, Drop)]
pub struct Captures<'a, A: Allocator = Global> {
    held: Vec<Binding<'a>, A>,
}

impl<'a, A: Allocator> Model for Captures<'a, A> {
    ghost use Rattle.std.specs.Prelude.{ℕ, List, map};
    ghost use Rattle.tree_model.specs.Key.{Key};
    ghost use Rattle.path_capture.specs.Captures.{bound};

    ghost Value = { List (List ℕ × Key) };

    ghost view = { λ captures. map bound captures.held.items };
}

impl<'a, A: Allocator> Captures<'a, A> {
    /// No captures. It takes no memory.
    pub fn new(alloc: A) -> Captures<'a, A>
        ensures { result ≡ [] }
    {
        Captures {
            held: Vec::new(alloc),
        }
    }

    /// Adds a binding at the end, which may grow the list.
    pub fn push(&mut self, name: &'a CaptureName, key: &'a Key) -> Result<(), NoMemory>
        ensures ok { OnOk result (self.new ≡ self.old ++ (name.now, key.now) ∷ []) }
        ensures err { OnErr result (self.new ≡ self.old) }
    {
        self.held.push(Binding { name, key })?;
        Ok(())
    }

    /// Takes the last binding, if there is one. It takes no memory.
    pub fn pop(&mut self) -> Option<Binding<'a>>
        ensures { MatchOption result ((self.old ≡ []) × (self.new ≡ [])) (λ last. self.old ≡ self.new ++ bound last ∷ []) }
    {
        self.held.pop()
    }

    /// How many captures there are.
    pub fn len(&self) -> usize
        ensures { result ≡ length self.now }
    {
        self.held.len()
    }

    /// The binding at an index, and `None` from the length on.
    pub fn part(&self, index: usize) -> Option<&Binding<'a>>
        ensures { option_map (λ binding. bound binding.now) result ≡ slice_get self.now index }
    {
        self.held.get(index)
    }

    /// The key that a capture of this name stands for, the first of them, if there is one; the name is
    /// without its `$`. Time linear in their number.
    pub fn key_of(&self, name: &str) -> Option<&'a Key>
        ensures { option_map (λ key. key.now) result ≡ key_named name.now self.now }
    {
        for binding in &self.held {
            if name == binding.name.text() {
                return Some(binding.key);
            }
        }
        None
    }
}
