//! The writes of an update.
ghost use Rattle.std.specs.Prelude.{◌≡◌, ◌≤◌, List, map, IfOk};
ghost use Rattle.std.specs.List.Sorted.{IsPermutation, IsSortedBy};
ghost use Rattle.std.specs.Ordering.{is_lt};
ghost use Rattle.tree_model.specs.Path.{path_cmp};
ghost use Rattle.tree_model.specs.Put.{location};
ghost use Rattle.tree_model.specs.Write.{AreFixed};
ghost use Rattle.evaluator.specs.declared.env.TheConstants.{MAX_MOMENT};
ghost use Rattle.rtdb_model.specs.FilledWrites.{filled_in};

use json_tree::NoMemory;
use path_capture::Write;
use std::alloc::Global;
use std::fmt::{self, Formatter};
use std::marker::Model;
use std::snapshot::Snapshot;

/// The writes of an update, in the order of their locations: they are sorted once, where they are made, so that
/// whoever takes them compares neighbours alone. Contracts see them as the list that was given.
#[derive(Drop)]
pub struct Writes {
    sorted: Vec<Write>,
    given: Snapshot<Vec<Write>>,
    // Whether a moment was filled in, and which one.
    is_filled: bool,
    moment: Snapshot<u64>,
}

impl Model for Writes {
    ghost use Rattle.std.specs.Prelude.{List};
    ghost use Rattle.std.specs.Coded.{coded×, coded_list, coded_ℕ};
    ghost use Rattle.std.specs.List.Sorted.{IsPermutation, IsSortedBy};
    ghost use Rattle.std.specs.Ordering.{is_lt};
    ghost use Rattle.tree_model.specs.Path.{path_cmp};
    ghost use Rattle.tree_model.specs.Put.{location};
    ghost use Rattle.tree_model.specs.Draft.{draft_code};
    ghost use Rattle.rtdb_model.specs.FilledWrites.{held};
    ghost use Rattle.tree_model.specs.Write.{Write};

    ghost Value = { List Write };

    ghost coded = { coded_list (coded× (coded_list (coded_list coded_ℕ)) draft_code) };

    ghost view = { λ writes. held writes.is_filled writes.moment.value writes.given.value.items };

    ghost invariant = { λ writes. IsPermutation (held writes.is_filled writes.moment.value writes.given.value.items) writes.sorted.items × IsSortedBy (λ a b. is_lt (path_cmp (location a) (location b))) writes.sorted.items };
}

impl Writes {
    /// The writes of a vector, which is sorted in place: n · log n comparisons of paths, and n where they are in order.
    /// It takes no memory.
    pub fn of_vec(held: Vec<Write>) -> Writes
        ensures { result ≡ held.items }
    {
        let given = Snapshot::of(&held);
        let mut sorted = held;
        sort(&mut sorted);
        Writes {
            sorted,
            given,
            is_filled: false,
            moment: Snapshot::of(&0),
        }
    }

    /// These writes in the order of their locations.
    pub fn in_order(&self) -> &[Write]
        ensures permutation { IsPermutation self.now result.now }
        ensures ascending { IsSortedBy (λ a b. is_lt (path_cmp (location a) (location b))) result.now }
    {
        self.sorted.as_slice()
    }

    /// Copies of these writes, by one growth for their list and those of a copy of each.
    pub fn copied(alloc: Global, writes: &[Write]) -> Result<Writes, NoMemory>
        ensures { IfOk result (λ copies. copies ≡ writes.now) }
    {
        Ok(Writes::of_vec(copies_of(alloc, writes)?))
    }

    /// Puts a number in the place of each moment, in milliseconds. It takes no memory; for each write without a moment it
    /// takes one test.
    pub fn fill(&mut self, now: u64)
        requires { now ≤ MAX_MOMENT }
        ensures filled { self.new ≡ map (filled_in now) self.old }
        ensures none { AreFixed self.new }
    {
        if self.is_filled {
            return;
        }
        fill_all(&mut self.sorted, now);
        self.moment = Snapshot::of(&now);
        self.is_filled = true;
    }

    /// The same as a vector, without taking memory.
    pub fn into_vec(self) -> Vec<Write>
        ensures permutation { IsPermutation self result.items }
        ensures ascending { IsSortedBy (λ a b. is_lt (path_cmp (location a) (location b))) result.items }
    {
        let Writes { sorted, .. } = self;
        sorted
    }
}

fn sort(writes: &mut Vec<Write>)
    ensures permutation { IsPermutation writes.old.items writes.new.items }
    ensures ascending { IsSortedBy (λ a b. is_lt (path_cmp (location a) (location b))) writes.new.items }
{
    writes.sort_unstable_by(|a, b| a.at().compare(b.at()));
}

fn copies_of(alloc: Global, writes: &[Write]) -> Result<Vec<Write>, NoMemory>
    ensures { IfOk result (λ copies. copies.items ≡ writes.now) }
{
    let mut copies = Vec::with_capacity(alloc, writes.len())?;
    for write in writes {
        copies.push(write.copy(alloc)?)?;
    }
    Ok(copies)
}

// Puts a number in the place of each moment.
fn fill_all(writes: &mut Vec<Write>, now: u64)
    requires { now ≤ MAX_MOMENT }
    ensures { writes.new.items ≡ map (filled_in now) writes.old.items }
{
    for i in 0..writes.len() {
        writes[i].fill(now);
    }
}

impl fmt::Debug for Writes {
    fn fmt<W: fmt::Write>(&self, f: &mut Formatter<W>) -> fmt::Result {
        self.sorted.fmt(f)
    }
}
