//! The children of a draft in which a moment stands, as they are read.
ghost use Rattle.std.specs.Prelude.{◌≡◌, ◌≢◌, [], true, false, length, IfOk, IfSome, OnSome};
ghost use Rattle.std.specs.List.Sorted.{IsSearchInRange, IsBinarySearchResult};
ghost use Rattle.serde_json.specs.Data.{object, put};
ghost use Rattle.tree_model.specs.Key.{key_cmp, is_key};
ghost use Rattle.json_tree.specs.Draft.{value_of_draft};
ghost use Rattle.json_lines.specs.DraftMembers.{members_named, drafts_named};

use crate::children::Children;
use crate::limits::MAX_MOVED;
use json_tree::{Draft, Key, NoMemory};
use std::alloc::Global;
use std::marker::Model;
use tree_model::MAX_DEPTH;

/// Children in the byte order of their keys, of which each stands once, with room for a key above them.
/// Contracts see keys and drafts.
#[derive(Drop)]
pub(crate) struct DraftChildren {
    held: Vec<(Key, Draft)>,
}

impl Model for DraftChildren {
    ghost use Rattle.std.specs.Prelude.{ℕ, List};
    ghost use Rattle.std.specs.Coded.{coded×, coded_list, coded_ℕ};
    ghost use Rattle.tree_model.specs.Draft.{Draft as AnyDraft, draft_code};
    ghost use Rattle.json_lines.specs.Working.Children.{AreRead};

    ghost Value = { List (List ℕ × AnyDraft) };

    ghost coded = { coded_list (coded× (coded_list coded_ℕ) draft_code) };

    ghost view = { λ drafts. drafts.held.items };

    ghost invariant = { λ drafts. AreRead drafts.held.items };
}

impl DraftChildren {
    /// Children without a moment, to which others come. None where memory is wanted.
    pub fn of(alloc: Global, children: Children) -> Option<DraftChildren>
        ensures { IfSome result (λ drafts. drafts_named drafts ≡ members_named children) }
    {
        let held = children.into_drafts(alloc)?;
        Some(DraftChildren { held })
    }

    /// Puts a child of a lawful key among the others, by a binary search. None where one of them has its key, where
    /// the draft has no room for a key above it, where more than [`MAX_MOVED`] of them would have to move, and where
    /// memory is wanted.
    pub fn put(&mut self, alloc: Global, name: &str, draft: Draft) -> Option<()>
        requires { is_key name.now ≡ true }
        ensures { OnSome result (drafts_named self.new
            ≡ put name.now (value_of_draft draft) (drafts_named self.old)) }
    {
        let part = draft.as_ref();
        part.law();
        if part.depth() >= MAX_DEPTH {
            return None;
        }
        match index_of(&self.held, name) {
            Ok(_) => None,
            Err(index) => {
                if self.held.len() - index > MAX_MOVED {
                    return None;
                }
                let key = Key::of_lawful(alloc, name).ok()?;
                self.held.insert(index, (key, draft)).ok()?;
                Some(())
            }
        }
    }

    /// Whether there is no child.
    pub fn is_empty(&self) -> bool
        ensures { result ≡ false → self.now ≢ [] }
    {
        self.held.is_empty()
    }

    /// The draft with them as its children.
    pub fn into_draft(self, alloc: Global) -> Result<Draft, NoMemory>
        requires { self ≢ [] }
        ensures { IfOk result (λ draft. value_of_draft draft ≡ object (drafts_named self)) }
    {
        let draft = Draft::of_children(alloc, self.held)?;
        Ok(draft)
    }
}

// Where the child of a key is, or where it would go, by a binary search.
fn index_of(children: &Vec<(Key, Draft)>, name: &str) -> Result<usize, usize>
    ensures bound { IsSearchInRange result (length children.now.items) }
    ensures position { IsBinarySearchResult (λ child. key_cmp child.0 name.now) children.now.items result }
{
    children.binary_search_by(|child| child.0.text().cmp(name))
}
