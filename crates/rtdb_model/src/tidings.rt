//! Tidings: what a poll reports, borrowed from the tree and from the listeners.
ghost use Rattle.std.specs.Prelude.{◌≡◌, map, IfOk};
ghost use Rattle.rtdb_model.specs.Tidings.{what_of, notice_of};

use crate::news::{News, Notice, What};
use arena_snapshot::{View, copy_out};
use bumpalo::Bump;
use json_tree::{NoMemory, Node};
use listeners::ListenerId;
use std::alloc::Global;
use std::marker::Model;

/// What a poll reports of a listener, borrowed.
#[derive(Drop)]
pub enum Sight<'a> {
    /// It is cancelled, since its read is no longer granted, and it is listened to no more.
    Gone,
    /// What it selects now, None where nothing exists.
    Now(Option<View<'a>>),
}

/// What a poll reports under the id of a listener, borrowed.
#[derive(Drop)]
pub struct Tiding<'a> {
    pub id: &'a ListenerId,
    pub what: Sight<'a>,
}

/// What a poll reports, in the order in which the listeners began: no tree of it is copied. Contracts see the
/// notices that it is.
#[derive(Drop)]
pub struct Tidings<'a> {
    held: Vec<Tiding<'a>, &'a Bump>,
}

impl<'a> Model for Tidings<'a> {
    ghost use Rattle.std.specs.Prelude.{List, map};
    ghost use Rattle.std.specs.Coded.{coded_list};
    ghost use Rattle.rtdb_model.specs.News.{notice_code};
    ghost use Rattle.rtdb_model.specs.Tidings.{notice_of};
    ghost use Rattle.rtdb_model.specs.declared.news.Notice.{Notice};

    ghost Value = { List Notice };

    ghost coded = { coded_list notice_code };

    ghost view = { λ tidings. map notice_of tidings.held.items };
}

impl<'a> Tidings<'a> {
    /// The tidings of a list in the arena. It takes no memory.
    pub fn of_vec(held: Vec<Tiding<'a>, &'a Bump>) -> Tidings<'a>
        ensures { result ≡ map notice_of held.entry.items }
    {
        Tidings { held }
    }

    /// What the poll reports of each listener of which it reports anything. It takes no memory.
    pub fn as_slice(&self) -> &[Tiding<'a>]
        ensures { map notice_of result.now ≡ self.now }
    {
        self.held.as_slice()
    }

    /// The news that they are, owned: it copies each tree out of the arena, at the cost of its locations.
    pub fn copy(&self, alloc: Global) -> Result<News, NoMemory>
        ensures { IfOk result (λ news. news ≡ self.now) }
    {
        let notices = copies(alloc, self.as_slice())?;
        Ok(News::of_vec(notices))
    }
}

fn copies(alloc: Global, tidings: &[Tiding<'_>]) -> Result<Vec<Notice>, NoMemory>
    ensures { IfOk result (λ notices. notices.items ≡ map notice_of tidings.now) }
{
    let mut notices = Vec::with_capacity(alloc, tidings.len())?;
    for tiding in tidings {
        notices.push(notice(alloc, tiding)?)?;
    }
    Ok(notices)
}

fn notice(alloc: Global, tiding: &Tiding<'_>) -> Result<Notice, NoMemory>
    ensures { IfOk result (λ notice. notice ≡ notice_of tiding.now) }
{
    let what = what(alloc, &tiding.what)?;
    Ok(Notice {
        id: tiding.id.copy(),
        what,
    })
}

fn what(alloc: Global, sight: &Sight<'_>) -> Result<What, NoMemory>
    ensures { IfOk result (λ what. what ≡ what_of sight.now) }
{
    match sight {
        Sight::Gone => Ok(What::Gone),
        Sight::Now(view) => Ok(What::Now(copied(alloc, view)?)),
    }
}

/// The tree that a view shows, copied out of the arena, null for None: the cost of its locations.
pub fn copied(alloc: Global, view: &Option<View<'_>>) -> Result<Option<Node>, NoMemory>
    ensures { IfOk result (λ tree. tree ≡ view.now) }
{
    match view {
        Some(view) => Ok(Some(copy_out(alloc, view)?)),
        None => Ok(None),
    }
}
