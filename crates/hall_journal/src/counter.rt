//! How many entries are stored: a number that all threads share, which only grows.
ghost use Rattle.std.specs.Prelude.{List, [], ◌≡◌, ◌==◌, ◌^◌, ◌<◌, ◌≤◌, true};
ghost use Rattle.journal.specs.Format.{Group};
ghost use Rattle.journal.specs.Keeping.{disk_of, chain_of};
ghost use Rattle.hall_journal.specs.Counting.{word_of};
ghost use Rattle.hall_journal.specs.Kept.{KeepsHistory};

use crate::origin::Origin;
use disk::Disk;
use journal::Journal;
use locked_server::Seat;
use logbook::{Gain, Offer, Plain, Play, Rule, Seen, Start, Word};
use std::marker::{Model, PhantomData};

/// That one entry more is stored.
#[derive(Clone, Copy, Debug)]
pub struct Mark;

/// The word has the number of marks.
pub struct Law;

impl Rule<Mark, u64> for Law {
    ghost use Rattle.std.specs.Prelude.{[]};
    ghost use base.Fml.{ftrue};
    ghost use Rattle.hall_journal.specs.Counting.{IsCount};

    ghost holds = { λ cells log. IsCount cells log };

    ghost first = { [] };

    ghost hinted = { λ n log. Unit {0} };

    ghost shows = { λ log. [] };

    ghost keeps = { λ names log. ftrue };

    ghost moves = { λ ask before after answer. Unit {0} };
}

// Nobody trades anything.
struct Nothing;

impl Gain<Mark, u64> for Nothing {
    ghost use base.Fml.{ftrue};

    ghost after = { λ names about answer. ftrue };
}

// A thread looks how many there are.
struct Look;

impl Play<Mark, u64> for Look {
    ghost use Rattle.hall_journal.specs.Counting.{HasLooked};

    ghost then = { HasLooked };
}

// A thread adds marks.
struct Add;

impl Play<Mark, u64> for Add {
    ghost use Rattle.hall_journal.specs.Counting.{HasAdded};

    ghost then = { HasAdded };
}

impl Plain<Mark, Mark, u64> for Add {
    ghost use Rattle.std.specs.Prelude.{None};

    ghost ask = { λ mark. mark };

    ghost state = { λ mark. None };
}

/// A number that has no name yet, and is 0.
#[derive(Drop)]
pub struct NewCounter {
    word: Word<Mark, u64, Law>,
    seen: Seen<Mark, u64, Law>,
    pub ghost none: { seen.log ≡ [] },
    pub ghost word_is: { word ≡ word_of seen.book },
}

impl NewCounter {
    /// One more. It takes no memory.
    pub fn new() -> NewCounter {
        let (seen, mut first, _second) = Seen::open(Start::alone(), 0, 0);
        NewCounter {
            word: Word::tracked(0, &mut first),
            seen,
        }
    }

    /// The number under its name, and what is known of it at first.
    pub(crate) fn named<B: Origin>(self) -> (Counter<B>, Stored<B>)
        requires { self.seen.book ≡ B.began.book }
        ensures { result.1 ≡ 0 }
    {
        let NewCounter { word, seen } = self;
        (
            Counter {
                word,
                of: PhantomData,
            },
            Stored {
                seen,
                of: PhantomData,
            },
        )
    }
}

/// How many entries are stored.
#[derive(Drop)]
pub(crate) struct Counter<B: Origin> {
    word: Word<Mark, u64, Law>,
    of: PhantomData<B>,
    ghost word_is: { word ≡ word_of B.began.book },
}

/// What a thread knows to be stored. Contracts see a number: so many entries are, or more. It takes no bytes.
#[derive(Drop)]
pub struct Stored<B: Origin> {
    seen: Seen<Mark, u64, Law>,
    of: PhantomData<B>,
}

impl<B: Origin> Model for Stored<B> {
    ghost use Rattle.std.specs.Prelude.{◌≡◌, ℕ, length};

    ghost Value = { ℕ };

    ghost view = { λ stored. length stored.seen.log };

    ghost invariant = { λ stored. stored.seen.book ≡ B.began.book };
}

impl<B: Origin> Stored<B> {
    /// A copy.
    pub fn again(&self) -> Stored<B>
        ensures { result ≡ self.now }
    {
        Stored {
            seen: self.seen.again(),
            of: PhantomData,
        }
    }
}

impl<B: Origin> Counter<B> {
    /// How many are stored, which the thread knows then. It waits for nobody.
    pub(crate) fn look(&self, stored: &mut Stored<B>) -> u64
        ensures is { result ≡ stored.new }
        ensures more { stored.old ≤ stored.new }
    {
        let mut offer: Offer<Mark, u64, Law, Nothing> = stored
            .seen
            .plain::<Nothing, Mark, Add>(&Mark);
        self.word
            .load::<Look, Nothing>(&mut stored.seen, &mut offer)
    }

    /// Adds to the number, where it is what was thought, and says whether it was. Contracts alone look at the journal and
    /// the seat: as many entries as are said are kept.
    pub(crate) fn add<D: Disk + Drop>(
        &self,
        journal: &Journal<D>,
        seat: &Seat,
        stored: &mut Stored<B>,
        from: u64,
        to: u64,
    ) -> bool
        requires forward { from ≤ to }
        requires kept { (groups : List Group) → B.begins groups → KeepsHistory D.holds D.may_leave D.moment D.left_since B.began groups (disk_of journal.now) (chain_of journal.now) seat.now to }
        ensures added { result ≡ true → stored.new ≡ to }
        ensures more { stored.old ≤ stored.new }
    {
        let mut offer: Offer<Mark, u64, Law, Nothing> = stored
            .seen
            .plain::<Nothing, Mark, Add>(&Mark);
        let mut pen = stored.seen.no_pen();
        let found = self
            .word
            .compare_exchange::<Add, Nothing>(from, to, &mut stored.seen, &mut offer, &mut pen);
        found == from
    }

    /// The number, once what another thread knows is known: it is no less than that.
    pub(crate) fn look_behind(&self, stored: &mut Stored<B>, other: &Stored<B>) -> u64
        ensures is { result ≡ stored.new }
        ensures other { other.now ≤ stored.new }
    {
        stored.seen.learn(&other.seen);
        self.look(stored)
    }
}
