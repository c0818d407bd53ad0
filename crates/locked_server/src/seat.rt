//! The seats at a hall.
use crate::content::Slot;
use crate::view::View;
use std::marker::Model;

/// What one caller knows of a hall. Contracts see a record: the hall, the state that its database opened in, the
/// seat's own number and those of the seats that it took in, and the history that it has seen. It takes no bytes, and
/// may go to another thread. It can't be dropped: [`Hall::meet`](crate::Hall::meet) takes it in, or
/// [`Hall::close`](crate::Hall::close) ends its hall. So no call that a seat makes is lost to the contracts.
pub struct Seat {
    pub(crate) pass: atomic_table::Seat<Slot, View>,
}

impl Model for Seat {
    ghost use Rattle.locked_server.specs.Known.{Known, known_code};
    ghost use Rattle.locked_server.specs.Working.Rests.{Rests, known_of};

    ghost Value = { Known };

    ghost coded = { known_code };

    ghost view = { λ seat. known_of seat.pass.table_id seat.pass.me.0 };

    ghost invariant = { λ seat. Rests seat.pass.me };
}
