//! Where an expression is evaluated.
ghost use Rattle.std.specs.Prelude.{◌≡◌, ◌≤◌};

use crate::asked::Asked;
use crate::identity::Identity;
use crate::snapshot::Snapshot;
use bumpalo::Bump;
use path_capture::Captures;
use std::marker::Model;

/// The greatest moment, 2^53 - 1: every moment is a whole number of the rules language. (This
/// project's profile.)
pub const MAX_MOMENT: u64 = 9_007_199_254_740_991;

/// A moment, in milliseconds since 1970, at most [`MAX_MOMENT`]. Contracts see the number. (Reference,
/// `now` variable.)
#[derive(Clone, Copy, Debug, PartialEq, Eq)]
pub struct Moment {
    milliseconds: u64,
}

impl Model for Moment {
    ghost use Rattle.std.specs.Prelude.{ℕ, ◌≤◌};
    ghost use Rattle.evaluator.specs.declared.env.TheConstants.{MAX_MOMENT};

    ghost Value = { ℕ };

    ghost view = { λ moment. moment.milliseconds };

    ghost invariant = { λ moment. moment.milliseconds ≤ MAX_MOMENT };

    ghost inverse = { λ n. record { milliseconds = n } };
}

impl Moment {
    /// The moment so many milliseconds after the beginning of 1970.
    pub fn new(milliseconds: u64) -> Moment
        requires { milliseconds ≤ MAX_MOMENT }
        ensures { result ≡ milliseconds }
    {
        Moment { milliseconds }
    }

    /// The milliseconds since the beginning of 1970.
    pub fn milliseconds(self) -> u64
        ensures value { result ≡ self }
        ensures lawful { self ≤ MAX_MOMENT }
    {
        self.milliseconds
    }
}

/// What is asked of the tree. A read has a query, a write has what it proposes: `newData`.
/// (Reference, `query` and `newData` variables.)
#[derive(Clone, Copy)]
pub enum Access<'a> {
    Reads(&'a Asked<'a>),
    Writes(&'a Snapshot<'a>),
}

/// Where an expression is evaluated: what its variables and captures stand for. `root` is the root of
/// the tree of `here`. The captures are borrowed for as long as the expression is evaluated, since each
/// place has others. (Reference, variables.)
#[derive(Clone, Copy)]
pub struct Env<'a, 'c> {
    pub auth: Option<&'a Identity>,
    pub moment: Moment,
    /// `data`: the location of the rule, before what is asked.
    pub here: &'a Snapshot<'a>,
    pub access: Access<'a>,
    pub captures: &'c Captures<'a, &'a Bump>,
}
