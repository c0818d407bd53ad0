//! A write: a location, and the draft that is put there.
ghost use Rattle.std.specs.Prelude.{◌≡◌, ◌↔◌, ◌+◌, ◌≤◌, ◌<◌, ◌∷◌, [], ℕ, true, false, Some, length, pos, option_map, IsOk, IsErr, IsNone, IfOk, IfErr, OnOk, OnErr};
ghost use Rattle.tree_model.specs.Primitive.{is_whole};
ghost use Rattle.tree_model.specs.Path.{Path as Keys};
ghost use Rattle.tree_model.specs.PathMap.{get, depth};
ghost use Rattle.tree_model.specs.Tree.{non_null};
ghost use Rattle.tree_model.specs.Put.{location, written};
ghost use Rattle.tree_model.specs.Draft.{moment, null_draft, tree_at, as_draft, IsFixed, IsLawfulDraft};
ghost use Rattle.tree_model.specs.Write.{made, as_write, proposed, IsLawfulWrite};
ghost use Rattle.path_capture.specs.Write.{tree_or_null, draft_or_null};

use crate::path::Path;
use json_tree::{Draft, NoMemory, Node, put};
use std::alloc::Global;
use std::marker::Model;
use thiserror::Error;
use tree_model::MAX_DEPTH;

/// The path and the depth of the draft come to more than 32 keys together. Both are handed back.
#[derive(Debug, Drop, Error)]
#[error("a tree that reaches more than 32 keys deep")]
pub struct TooDeep {
    pub path: Path,
    pub draft: Option<Draft>,
}

/// A write: the path of a location and the draft that is put there, or none, which removes. Together
/// they are at most 32 keys deep. Contracts see the pair of both, in which none is the null draft.
/// (Guide "Structure Your Database", avoid nesting data.)
#[derive(Debug, Drop)]
pub struct Write {
    pub(crate) path: Path,
    pub(crate) draft: Option<Draft>,
}

impl Model for Write {
    ghost use Rattle.std.specs.Prelude.{ℕ, List};
    ghost use Rattle.std.specs.Coded.{coded×, coded_list, coded_ℕ};
    ghost use Rattle.tree_model.specs.Draft.{Draft as AnyDraft, draft_code};
    ghost use Rattle.tree_model.specs.Write.{IsLawfulWrite};
    ghost use Rattle.path_capture.specs.Write.{draft_or_null};

    ghost Value = { List (List ℕ) × AnyDraft };

    ghost coded = { coded× (coded_list (coded_list coded_ℕ)) draft_code };

    ghost view = { λ write. (write.path, draft_or_null write.draft) };

    ghost invariant = { λ write. IsLawfulWrite (write.path, draft_or_null write.draft) };
}

impl Write {
    /// The write of this draft, or of null, at this path. It takes no memory.
    pub fn new(path: Path, draft: Option<Draft>) -> Result<Write, TooDeep>
        ensures ok { IfOk result (λ write. write ≡ (path, draft_or_null draft)) }
        ensures too_deep { IsErr result ↔ (MAX_DEPTH < length path + depth (draft_or_null draft)) }
        ensures handed_back { IfErr result (λ refused. (refused.path ≡ path) × (refused.draft ≡ draft)) }
    {
        if path.keys().len() + depth_of(&draft) > MAX_DEPTH {
            return Err(TooDeep { path, draft });
        }
        Ok(Write { path, draft })
    }

    /// The same write, by the growths of a copy of its path and of one of its draft.
    pub fn copy(&self, alloc: Global) -> Result<Write, NoMemory>
        ensures { IfOk result (λ write. write ≡ self.now) }
    {
        let draft = copy_of(alloc, &self.draft)?;
        Ok(Write {
            path: self.path.copy(alloc)?,
            draft,
        })
    }

    /// The location that is written. It takes no memory.
    pub fn at(&self) -> &Path
        ensures path { result.now ≡ location self.now }
        ensures lawful { IsLawfulWrite self.now }
    {
        &self.path
    }

    /// The draft that is put there, if it is not null.
    pub fn tree(&self) -> Option<&Draft>
        ensures { option_map (λ draft. draft.now) result ≡ non_null (written self.now) }
    {
        match &self.draft {
            Some(draft) => {
                draft.law();
                Some(draft)
            }
            None => None,
        }
    }

    /// The tree that is put there at the moment 0, if it is not null: where no moment stands in the draft, at each.
    pub fn tree_at_zero(&self) -> Option<&Node>
        ensures { option_map (λ node. node.now) result ≡ non_null (written (made 0 self.now)) }
    {
        match &self.draft {
            Some(draft) => {
                draft.law();
                Some(draft.at_zero())
            }
            None => None,
        }
    }

    /// Whether no moment stands in what is put. It takes no memory.
    pub fn is_fixed(&self) -> bool
        ensures fixed { result ≡ true → IsFixed (written self.now) }
        ensures moment { result ≡ false → (p : Keys) × (get (written self.now) p ≡ Some moment) }
    {
        match &self.draft {
            Some(draft) => draft.is_fixed(),
            None => true,
        }
    }

    /// Puts a number in the place of each moment, in milliseconds. It takes no memory; without a moment it takes one
    /// test.
    pub fn fill(&mut self, now: u64)
        requires { is_whole (pos now) ≡ true }
        ensures { self.new ≡ as_write (made now self.old) }
    {
        fill(&mut self.draft, now);
    }

    /// Makes the write in a stored tree, in place: memory is taken only for what is new, and before
    /// anything changes. At an `Err` nothing has changed, and to remove takes none; the time is that of `put`.
    pub fn make(self, alloc: Global, tree: &mut Option<Node>) -> Result<(), NoMemory>
        requires fixed { IsFixed (written self) }
        ensures ok { OnOk result ((now : ℕ) → tree_or_null tree.new ≡ proposed (tree_or_null tree.old) (self ∷ []) now) }
        ensures err { OnErr result (tree.new ≡ tree.old) }
        ensures removal { written self ≡ null_draft → IsOk result }
    {
        let Write { path, draft } = self;
        put(alloc, tree, path.into_keys(), into_tree(draft))
    }
}

// A copy of an optional draft.
fn copy_of(alloc: Global, draft: &Option<Draft>) -> Result<Option<Draft>, NoMemory>
    ensures { IfOk result (λ copy. draft_or_null copy ≡ draft_or_null draft.now) }
{
    match draft {
        Some(draft) => Ok(Some(draft.copy(alloc)?)),
        None => Ok(None),
    }
}

// How deep an optional draft is.
fn depth_of(draft: &Option<Draft>) -> usize
    ensures depth { result ≡ depth (draft_or_null draft.now) }
    ensures within { result ≤ MAX_DEPTH }
    ensures lawful { IsLawfulDraft (draft_or_null draft.now) }
{
    match draft {
        Some(draft) => {
            draft.law();
            draft.as_ref().depth()
        }
        None => 0,
    }
}

// The tree of an optional draft at the moment 0.
fn into_tree(draft: Option<Draft>) -> Option<Node>
    ensures tree { tree_or_null result ≡ tree_at 0 (draft_or_null draft) }
    ensures removal { draft_or_null draft ≡ null_draft → IsNone result }
{
    match draft {
        Some(draft) => {
            draft.law();
            Some(draft.into_at_zero())
        }
        None => None,
    }
}

// Puts a number in the place of each moment of an optional draft.
fn fill(draft: &mut Option<Draft>, now: u64)
    requires { is_whole (pos now) ≡ true }
    ensures { draft_or_null draft.new ≡ as_draft (tree_at now (draft_or_null draft.old)) }
{
    match draft {
        Some(draft) => draft.fill(now),
        None => {}
    }
}
