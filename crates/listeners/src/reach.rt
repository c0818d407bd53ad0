//! Which children are looked at for a query.
ghost use Rattle.std.specs.Prelude.{◌≡◌, ◌<◌, ◌≤◌, ◌+◌, ◌↔◌, ℕ, true, option_map, IfSome, IsTrue};
ghost use Rattle.arena_snapshot.specs.Working.Change.{entries_of};
ghost use Rattle.listeners.specs.Working.Reach.{is_looked_at, passes, IsStart, IsEnd, IsEqual, IsReach, IsTextSpan, IsTextRun, IsUpToFirst, IsFromLast, IsLimited, IsStretch};
ghost use Rattle.listeners.specs.Working.Parts.{first_of, last_of};

use crate::digits::Digits;
use crate::number::number_of;
use crate::order::Limit;
use crate::search::{Side, count};
use arena_snapshot::View;

// The indices from one on and up to another, which is none of them.
#[derive(Clone, Copy)]
pub(crate) struct Span {
    pub(crate) from: usize,
    pub(crate) to: usize,
}

// A stretch of children up to `end`, of which those from `from` up to `to` are looked at.
#[derive(Clone, Copy)]
pub(crate) struct Stretch {
    pub(crate) from: usize,
    pub(crate) to: usize,
    pub(crate) end: usize,
}

// From `from` on, keys that are no numbers are looked at up to `texts_to`, and those that may be up to `to`.
#[derive(Clone, Copy)]
pub(crate) struct Reach {
    pub(crate) digits: Digits,
    pub(crate) from: usize,
    pub(crate) texts_to: usize,
    pub(crate) to: usize,
}

impl Span {
    // Whether there are so many.
    fn holds(&self, n: usize) -> bool
        ensures { IsTrue result ↔ (self.now.from + n ≤ self.now.to) }
    {
        self.from <= self.to && n <= self.to - self.from
    }
}

impl Reach {
    // All of so many children.
    pub(crate) fn whole(width: usize) -> Reach
        ensures { (i : ℕ) → i < width → is_looked_at result i ≡ true }
    {
        let digits = Digits {
            negatives: 0,
            negatives_to: 0,
            naturals: 0,
            naturals_to: 0,
        };
        Reach {
            digits,
            from: 0,
            texts_to: width,
            to: width,
        }
    }

    // What may lie within bounds by keys: four binary searches, and two for `equalTo` or one for each other bound.
    pub(crate) fn of_bounds(
        view: &View<'_>,
        start_at: Option<&str>,
        end_at: Option<&str>,
        equal_to: Option<&str>,
    ) -> Reach
        ensures { IsReach (entries_of view.now) (passes (option_map (λ key. key.now) start_at.entry) (option_map (λ key. key.now) end_at.entry) (option_map (λ key. key.now) equal_to.entry)) result }
    {
        let digits = Digits::of_view(view);
        let start = start_of(view, start_at);
        let end = end_of(view, end_at);
        let equal = equal_of(view, equal_to);
        Reach {
            digits,
            from: start.max(equal.from),
            texts_to: end.min(equal.to),
            to: equal.to,
        }
    }

    // What a limit may keep of it.
    pub(crate) fn limited(self, limit: Option<Limit>) -> Reach
        ensures { IsLimited (first_of limit) (last_of limit) self result }
    {
        match limit {
            Some(Limit::First(n)) => self.up_to_first(usize::from(n)),
            Some(Limit::Last(n)) => self.from_last(usize::from(n)),
            None => self,
        }
    }

    // Of keys that are no numbers no more than the first n, where so many stand in one stretch: those that are
    // numbers come before them.
    fn up_to_first(self, n: usize) -> Reach
        ensures { IsUpToFirst self n result }
    {
        match self.first_texts(n) {
            Some(start) => Reach {
                texts_to: start + n,
                ..self
            },
            None => self,
        }
    }

    // Nothing before the last n keys that are no numbers, where so many stand in one stretch: those that are
    // numbers come before them too.
    fn from_last(self, n: usize) -> Reach
        ensures { IsFromLast self n result }
    {
        match self.last_texts(n) {
            Some(from) => Reach { from, ..self },
            None => self,
        }
    }

    // Where the first n keys of one stretch begin that are no numbers.
    fn first_texts(&self, n: usize) -> Option<usize>
        ensures { IfSome result (λ start. IsTextRun self.now start n) }
    {
        let before = self.before_numbers();
        if before.holds(n) {
            return Some(before.from);
        }
        let between = self.between_numbers();
        if between.holds(n) {
            return Some(between.from);
        }
        let behind = self.behind_numbers();
        if behind.holds(n) {
            return Some(behind.from);
        }
        None
    }

    // Where the last n keys of one stretch begin that are no numbers.
    fn last_texts(&self, n: usize) -> Option<usize>
        ensures { IfSome result (λ start. IsTextRun self.now start n) }
    {
        let behind = self.behind_numbers();
        if behind.holds(n) {
            return Some(behind.to - n);
        }
        let between = self.between_numbers();
        if between.holds(n) {
            return Some(between.to - n);
        }
        let before = self.before_numbers();
        if before.holds(n) {
            return Some(before.to - n);
        }
        None
    }

    fn before_numbers(&self) -> Span
        ensures { IsTextSpan self.now result }
    {
        Span {
            from: self.from,
            to: self.digits.negatives.min(self.texts_to),
        }
    }

    fn between_numbers(&self) -> Span
        ensures { IsTextSpan self.now result }
    {
        Span {
            from: self.digits.negatives_to.max(self.from),
            to: self.digits.naturals.min(self.texts_to),
        }
    }

    fn behind_numbers(&self) -> Span
        ensures { IsTextSpan self.now result }
    {
        Span {
            from: self.digits.naturals_to.max(self.from),
            to: self.texts_to,
        }
    }

    // The children from an index on, up to where keys begin or cease to be numbers.
    pub(crate) fn stretch(&self, from: usize, width: usize) -> Stretch
        requires { from < width }
        ensures { IsStretch self.now from width result }
    {
        let end = self.digits.stretch_end(from, width);
        let first = self.from.max(from).min(end);
        let to = if self.digits.is_text(from) {
            self.texts_to
        } else {
            self.to
        };
        Stretch {
            from: first,
            to: to.min(end).max(first),
            end,
        }
    }
}

// Before this index no key is at or behind the bound. A bound that is a number leaves out no other keys.
fn start_of(view: &View<'_>, bound: Option<&str>) -> usize
    ensures { IsStart (entries_of view.now) (option_map (λ key. key.now) bound.entry) result }
{
    match bound {
        Some(key) if number_of(key).is_none() => count(view, key, Side::Before),
        _ => 0,
    }
}

// From this index on no key that is no number is at or before the bound.
fn end_of(view: &View<'_>, bound: Option<&str>) -> usize
    ensures { IsEnd (entries_of view.now) (option_map (λ key. key.now) bound.entry) result }
{
    match bound {
        Some(key) if number_of(key).is_none() => count(view, key, Side::UpTo),
        Some(_) => 0,
        None => view.width(),
    }
}

// The one index of a key, if it is there.
fn equal_of(view: &View<'_>, bound: Option<&str>) -> Span
    ensures { IsEqual (entries_of view.now) (option_map (λ key. key.now) bound.entry) result }
{
    match bound {
        Some(key) => Span {
            from: count(view, key, Side::Before),
            to: count(view, key, Side::UpTo),
        },
        None => Span {
            from: 0,
            to: view.width(),
        },
    }
}
