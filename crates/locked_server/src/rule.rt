//! The rule of a hall's table, and what each step on it shows to the seat that makes it.
//!
//! Word 0 is the length of the history, word 1 the next ticket. The slot has the database, in the state that the
//! history leaves, but while it is out with the seat whose ticket is word 0.
use crate::content::Slot;
use crate::view::View;
use atomic_table::{Join, Play, Split, TableRule};
use rtdb_core::Core;
use std::snapshot::Snapshot;

/// The rule of a hall whose database opened so.
pub(crate) struct HallRule;

impl TableRule<Slot, View, Snapshot<Core>> for HallRule {
    ghost use Rattle.locked_server.specs.Working.Rule.{IsKept, first_view};

    ghost holds = { λ opening. IsKept opening.value };

    ghost first = { λ opening. first_view opening.value };
}

/// A new seat looks at the history, and gets a number.
pub(crate) struct GetNumber;

impl Play<Slot, View> for GetNumber {
    ghost use Rattle.locked_server.specs.Working.Rule.{IsNumbered};

    ghost then = { IsNumbered };
}

/// A seat looks at the history.
pub(crate) struct Look;

impl Play<Slot, View> for Look {
    ghost use Rattle.locked_server.specs.Working.Rule.{HasLooked};

    ghost then = { HasLooked };
}

/// A seat draws a ticket.
pub(crate) struct Draw;

impl Play<Slot, View> for Draw {
    ghost use Rattle.locked_server.specs.Working.Rule.{HasDrawn};

    ghost then = { HasDrawn };
}

/// A seat with a ticket looks whether its turn has come, and then takes the database out.
pub(crate) struct Watch;

impl Play<Slot, View> for Watch {
    ghost use Rattle.locked_server.specs.Working.Rule.{HasWatched};

    ghost then = { HasWatched };
}

/// A seat enters its call in the history, and brings the database home.
pub(crate) struct Enter;

impl Play<Slot, View> for Enter {
    ghost use Rattle.locked_server.specs.Working.Rule.{HasEntered};

    ghost then = { HasEntered };
}

/// A seat makes a second one.
pub(crate) struct NewSeat;

impl Split<View> for NewSeat {
    ghost use Rattle.locked_server.specs.Working.Rule.{unnumbered};

    ghost left = { λ view. view };

    ghost right = { unnumbered };
}

/// A seat takes another in.
pub(crate) struct TakeIn;

impl Join<View> for TakeIn {
    ghost use Rattle.locked_server.specs.Working.Rule.{with_other, emptied};

    ghost both = { with_other };

    ghost spent = { emptied };
}
