//! Where keys that are numbers may stand among keys in the order of their bytes.
ghost use Rattle.std.specs.Prelude.{◌≡◌, ◌<◌, ◌≤◌, ℕ};
ghost use Rattle.arena_snapshot.specs.Working.Change.{entries_of};

use crate::search::{Side, count};
use arena_snapshot::View;

// Keys that begin with a minus and a digit, and keys that begin with a digit: where each of the two begins and
// ends. All other keys are no numbers.
#[derive(Clone, Copy)]
pub(crate) struct Digits {
    pub(crate) negatives: usize,
    pub(crate) negatives_to: usize,
    pub(crate) naturals: usize,
    pub(crate) naturals_to: usize,
    ghost negatives_end: { negatives ≤ negatives_to },
    ghost apart: { negatives_to ≤ naturals },
    ghost naturals_end: { naturals ≤ naturals_to },
}

impl Digits {
    ghost use Rattle.listeners.specs.Working.Reach.{is_text, AreDigits};

    // By four binary searches.
    pub(crate) fn of_view(view: &View<'_>) -> Digits
        ensures { AreDigits (entries_of view.now) result }
    {
        let negatives = count(view, "-0", Side::Before);
        let negatives_to = count(view, "-:", Side::Before);
        let naturals = count(view, "0", Side::Before);
        let naturals_to = count(view, ":", Side::Before);
        Digits {
            negatives,
            negatives_to,
            naturals,
            naturals_to,
        }
    }

    // Whether the key at an index is no number, as it begins with no digit.
    pub(crate) fn is_text(&self, i: usize) -> bool
        ensures { result ≡ is_text self.now i }
    {
        !(self.negatives <= i && i < self.negatives_to)
            && !(self.naturals <= i && i < self.naturals_to)
    }

    // Where the stretch of an index ends: up to there, all keys may be numbers, or none.
    pub(crate) fn stretch_end(&self, i: usize, width: usize) -> usize
        requires { i < width }
        ensures behind { i < result }
        ensures within { result ≤ width }
        ensures alike { (j : ℕ) → i ≤ j → j < result → is_text self.now j ≡ is_text self.now i }
    {
        if i < self.negatives {
            return self.negatives.min(width);
        }
        if i < self.negatives_to {
            return self.negatives_to.min(width);
        }
        if i < self.naturals {
            return self.naturals.min(width);
        }
        if i < self.naturals_to {
            return self.naturals_to.min(width);
        }
        width
    }
}
