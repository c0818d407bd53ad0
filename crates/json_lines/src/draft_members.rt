//! The members of an object that are drafts, under any names.
ghost use Rattle.std.specs.Prelude.{◌≡◌, ◌≢◌, [], true, map, length, Ok, IfOk, OnSome};
ghost use Rattle.std.specs.List.{AllByRecursion, list_all};
ghost use Rattle.std.specs.List.Sorted.{IsSearchInRange, IsBinarySearchResult};
ghost use Rattle.std.specs.FinMap.{is_sorted};
ghost use Rattle.serde_json.specs.Data.{object, put};
ghost use Rattle.serde_json.specs.View.{view};
ghost use Rattle.tree_model.specs.Key.{key_cmp};
ghost use Rattle.tree_model.specs.Draft.{tree_at, IsFixed};
ghost use Rattle.json_tree.specs.Draft.{value_of_draft};
ghost use Rattle.path_capture.specs.Write.{draft_or_null};
ghost use Rattle.json_lines.specs.Lines.{Tells, draft_of_value, write_below, writes_below};
ghost use Rattle.json_lines.specs.DraftMembers.{is_plain, drafts_named};

use crate::fault::MessageFault;
use crate::limits::MAX_MOVED;
use crate::writes::{draft_of_value, keep, path_below, with_room, write_at};
use json_tree::{Child, Draft, Key, NoMemory, Node, draft_to_json, is_lawful_key};
use path_capture::{Path, Write};
use serde_json::{Map, Value};
use std::alloc::Global;
use std::cmp::Ordering;
use std::marker::Model;
use tree_model::MAX_DEPTH;

/// A member of an object: its name, borrowed, and its draft, None for null. Contracts see both.
#[derive(Drop)]
struct Entry<'a> {
    name: &'a str,
    draft: Option<Draft>,
}

impl<'a> Model for Entry<'a> {
    ghost use Rattle.std.specs.Prelude.{ℕ, List};
    ghost use Rattle.std.specs.Coded.{coded×, coded_list, coded_ℕ};
    ghost use Rattle.tree_model.specs.Draft.{Draft as AnyDraft, draft_code};
    ghost use Rattle.path_capture.specs.Write.{draft_or_null};

    ghost Value = { List ℕ × AnyDraft };

    ghost coded = { coded× (coded_list coded_ℕ) draft_code };

    ghost view = { λ entry. (entry.name.now, draft_or_null entry.draft) };
}

impl Entry<'_> {
    // Whether it can be a child: a lawful key over a draft that is not null, with room for the key above it.
    fn is_plain(&self) -> bool
        ensures { result ≡ is_plain self.now }
    {
        match &self.draft {
            Some(draft) => {
                draft.law();
                draft.as_ref().depth() < MAX_DEPTH && is_lawful_key(self.name)
            }
            None => false,
        }
    }

    // Whether no moment stands in it.
    fn is_fixed(&self) -> bool
        ensures { result ≡ true → IsFixed self.now.1 }
    {
        match &self.draft {
            Some(draft) => draft.is_fixed(),
            None => true,
        }
    }

    // Where its name stands beside another, by their bytes.
    fn compare(&self, name: &str) -> Ordering
        ensures { result ≡ key_cmp self.now.0 name.now }
    {
        self.name.cmp(name)
    }

    // The child of a node that it is at the moment 0.
    fn into_child(self, alloc: Global) -> Result<Child, NoMemory>
        requires { is_plain self ≡ true }
        ensures { IfOk result (λ child. child ≡ (self.entry.0, tree_at 0 self.entry.1)) }
    {
        let (key, draft) = self.into_parts(alloc)?;
        Child::new(alloc, key, draft.into_at_zero())
    }

    // The child of a draft that it is.
    fn into_parts(self, alloc: Global) -> Result<(Key, Draft), NoMemory>
        requires { is_plain self ≡ true }
        ensures { IfOk result (λ parts. parts ≡ self.entry) }
    {
        let Entry { name, draft } = self;
        match draft {
            Some(draft) => Ok((Key::of_lawful(alloc, name)?, draft)),
            None => unreachable!(),
        }
    }

    // The write below a path that it is as a member of an update.
    fn into_write(self, alloc: Global, path: &Path) -> Result<Write, MessageFault>
        ensures { Tells (λ write. write) result (write_below path.now self.entry.0 (value_of_draft self.entry.1)) }
    {
        is_read_back(&self.draft);
        let Entry { name, draft } = self;
        let at = path_below(alloc, path, name)?;
        write_at(at, draft)
    }
}

/// What a draft is written as is read as this draft.
pub(crate) fn is_read_back(draft: &Option<Draft>)
    ensures { draft_of_value (value_of_draft (draft_or_null draft.now)) ≡ Ok (draft_or_null draft.now) }
{
    match draft {
        Some(draft) => draft.law(),
        None => {}
    }
}

/// The members of an object, each a draft or null, in the byte order of their names, of which each stands
/// once. Contracts see names and drafts.
#[derive(Drop)]
pub struct DraftMembers<'a> {
    held: Vec<Entry<'a>>,
}

impl<'a> Model for DraftMembers<'a> {
    ghost use Rattle.std.specs.Prelude.{◌≡◌, ℕ, List, true};
    ghost use Rattle.std.specs.Coded.{coded×, coded_list, coded_ℕ};
    ghost use Rattle.std.specs.FinMap.{is_sorted};
    ghost use Rattle.tree_model.specs.Key.{key_cmp};
    ghost use Rattle.tree_model.specs.Draft.{Draft as AnyDraft, draft_code};

    ghost Value = { List (List ℕ × AnyDraft) };

    ghost coded = { coded_list (coded× (coded_list coded_ℕ) draft_code) };

    ghost view = { λ named. named.held.items };

    ghost invariant = { λ named. is_sorted key_cmp named.held.items ≡ true };
}

impl<'a> DraftMembers<'a> {
    /// No members. It takes no memory.
    pub(crate) fn new(alloc: Global) -> DraftMembers<'a>
        ensures { result ≡ [] }
    {
        DraftMembers {
            held: Vec::new(alloc),
        }
    }

    /// Puts a member among the others, by a binary search. None where one of them has its name, where more than
    /// [`MAX_MOVED`] of them would have to move, and where memory is wanted.
    pub(crate) fn put(&mut self, name: &'a str, draft: Option<Draft>) -> Option<()>
        ensures { OnSome result (drafts_named self.new
            ≡ put name.now (value_of_draft (draft_or_null draft)) (drafts_named self.old)) }
    {
        match index_of(&self.held, name) {
            Ok(_) => None,
            Err(index) => {
                if self.held.len() - index > MAX_MOVED {
                    return None;
                }
                self.held.insert(index, Entry { name, draft }).ok()?;
                Some(())
            }
        }
    }

    /// Whether they can be children: there is one, and each is lawful as a child.
    pub(crate) fn is_plain(&self) -> bool
        ensures some { result ≡ true → self.now ≢ [] }
        ensures plain { result ≡ true → list_all is_plain self.now ≡ true }
    {
        !self.held.is_empty() && are_plain(self.held.as_slice())
    }

    // Whether no moment stands in one of them.
    fn is_fixed(&self) -> bool
        ensures { result ≡ true → AllByRecursion (λ entry. IsFixed entry.1) self.now }
    {
        are_fixed(self.held.as_slice())
    }

    /// The draft with them as its children, by one growth for their list, one for each of them and one for each
    /// long key; where a moment stands in one of them, by those of [`Draft::of_children`] and one for a list.
    pub(crate) fn into_children(self, alloc: Global) -> Result<Draft, NoMemory>
        requires some { self ≢ [] }
        requires plain { list_all is_plain self ≡ true }
        ensures { IfOk result (λ draft. value_of_draft draft ≡ object (drafts_named self.entry)) }
    {
        if self.is_fixed() {
            let children = children_of(alloc, self.held)?;
            Ok(Draft::fixed(Node::of_children(children)?))
        } else {
            let children = parts_of(alloc, self.held)?;
            Draft::of_children(alloc, children)
        }
    }

    /// The draft of the object.
    pub(crate) fn into_draft(self, alloc: Global) -> Result<Option<Draft>, MessageFault>
        ensures { Tells draft_or_null result (draft_of_value (object (drafts_named self.entry))) }
    {
        if self.is_plain() {
            let draft = Some(self.into_children(alloc)?);
            is_read_back(&draft);
            return Ok(draft);
        }
        let value = self.value(alloc)?;
        draft_of_value(alloc, &value)
    }

    /// The writes of an update below a path, of which these are the members.
    pub(crate) fn into_writes(self, alloc: Global, path: &Path) -> Result<Vec<Write>, MessageFault>
        ensures { Tells (λ writes. writes.items) result (writes_below path.now (drafts_named self.entry)) }
    {
        let mut writes = with_room(alloc, self.held.len())?;
        for entry in self.held {
            let write = entry.into_write(alloc, path)?;
            keep(&mut writes, write)?;
        }
        Ok(writes)
    }

    /// The object as a value.
    pub fn value(&self, alloc: Global) -> Result<Value, NoMemory>
        ensures { IfOk result (λ value. view value ≡ object (drafts_named self.now)) }
    {
        let mut members = Map::new(alloc);
        for entry in &self.held {
            let value = draft_to_json(alloc, entry.draft.as_ref())?;
            serde_json::put(&mut members, alloc, entry.name, value)?;
        }
        Ok(Value::Object(members))
    }
}

// Where the member of a name is, or where it would go, by a binary search.
fn index_of(held: &Vec<Entry<'_>>, name: &str) -> Result<usize, usize>
    ensures bound { IsSearchInRange result (length held.now.items) }
    ensures position { IsBinarySearchResult (λ entry. key_cmp entry.0 name.now) held.now.items result }
{
    held.binary_search_by(|entry| entry.compare(name))
}

fn are_plain(entries: &[Entry<'_>]) -> bool
    ensures { result ≡ list_all is_plain entries.now }
{
    entries.iter().all(|entry| entry.is_plain())
}

fn are_fixed(entries: &[Entry<'_>]) -> bool
    ensures { result ≡ true → AllByRecursion (λ entry. IsFixed entry.1) entries.now }
{
    for entry in entries {
        if !entry.is_fixed() {
            return false;
        }
    }
    true
}

// The children of a node that they are at the moment 0.
fn children_of(alloc: Global, held: Vec<Entry<'_>>) -> Result<Vec<Child>, NoMemory>
    requires { list_all is_plain held.items ≡ true }
    ensures { IfOk result (λ children. children.items ≡ map (λ entry. (entry.0, tree_at 0 entry.1)) held.entry.items) }
{
    let mut children = Vec::with_capacity(alloc, held.len())?;
    for entry in held {
        let child = entry.into_child(alloc)?;
        children.push(child)?;
    }
    Ok(children)
}

// The children of a draft that they are.
fn parts_of(alloc: Global, held: Vec<Entry<'_>>) -> Result<Vec<(Key, Draft)>, NoMemory>
    requires { list_all is_plain held.items ≡ true }
    ensures { IfOk result (λ children. children.items ≡ held.entry.items) }
{
    let mut children = Vec::with_capacity(alloc, held.len())?;
    for entry in held {
        let parts = entry.into_parts(alloc)?;
        children.push(parts)?;
    }
    Ok(children)
}
