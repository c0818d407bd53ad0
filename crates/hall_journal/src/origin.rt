//! Where a hall's journal began.
use std::marker::Brand;

/// Names where a hall's journal began. Each call of a program picks it.
pub trait Origin {
    ghost use Rattle.std.specs.Prelude.{List};
    ghost use Rattle.journal.specs.Format.{Group};
    ghost use Rattle.hall_journal.specs.Kept.{Began};

    ghost began: { Began };

    /// The journal began with these groups: as a caller picks, with those that its disk keeps then. Of a disk of which
    /// nothing is known these are none, and nothing is said of what it keeps later.
    ghost begins: { List Group → Type 0 };
}

impl Origin for Brand {
    ghost use Rattle.hall_journal.specs.Nowhere.{nowhere};

    ghost began = { nowhere };

    ghost begins = { λ _. ⊥ };
}
