//! Who asks a hall for the sessions of a server.
use bumpalo::Bump;
use locked_server::{Hall, Seat};
use rtdb_core::{Core, Event, MAX_MOMENT, Reply};
use std::sync::Wait;

/// What a caller has shown can't be stored any more.
#[derive(Clone, Copy, Debug, PartialEq, Eq)]
pub struct Unkept;

/// Asks a hall for one thread, and waits until it answers. A caller may keep what is changed, as in a journal: then it
/// also waits until that is stored, before anybody is shown what a crash would take back. What takes a caller has no
/// leave to wait but by its methods, and is proved to return where they do.
pub trait Caller: Drop {
    ghost use Rattle.std.specs.Prelude.{◌≡◌, ◌≢◌, ◌≤◌, false, OnOk, IfErr, IfSome};
    ghost use Rattle.atomic_table.specs.Seated.{TableId};
    ghost use Rattle.rtdb_model.specs.declared.reply.Reply.{Reply};
    ghost use Rattle.rtdb_model.specs.declared.reply.Reply.TheVariants.{Refused};
    ghost use Rattle.rtdb_model.specs.declared.reply.Refusal.TheVariants.{Spent};
    ghost use Rattle.locked_server.specs.Known.{Closes, IsSameSeat, Known, Made, Missed, SeesLegal};
    ghost use Rattle.sessions.specs.Calls.{AsksFor};

    // All that its calls have shown is stored, where it keeps that.
    ghost is_stored: { Self → Type 0 };

    // It can't store any more what it is to keep.
    ghost has_failed: { Self → Type 0 };

    // It may ask this hall.
    ghost asks: { TableId → Type 0 };

    // What becomes of it in a call that is answered so, after which the seat knows this.
    ghost has_called: { Self → Known → Reply → Self → Type 0 };

    /// A caller for another thread, which has shown nothing.
    fn again(&self) -> Self;

    /// Lets the hall answer an event of a session, at a moment in milliseconds since 1970, as [`Hall::call`] does. Where
    /// a client has asked for the event, the message says so. What is kept of the call is not stored yet.
    fn call(
        &mut self,
        hall: &Hall,
        seat: &mut Seat,
        arena: &mut Bump,
        now: u64,
        session: u64,
        event: Event,
        message: Option<&[u8]>,
    ) -> Reply
        requires moment { now ≤ MAX_MOMENT }
        requires hall { seat.old.hall ≡ hall.now }
        requires asks { asks hall.now }
        requires message { IfSome message (λ it. AsksFor now session it.now event) }
        ensures same { IsSameSeat seat.old seat.new }
        ensures made { result ≢ Refused Spent → Made seat.old seat.new now session event result }
        ensures missed { result ≡ Refused Spent → Missed seat.old seat.new }
        ensures legal { SeesLegal seat.new }
        ensures failed { has_failed self.old → has_failed self.new }
        ensures own { has_called self.old seat.new result self.new };

    /// Waits until all that its calls have shown is stored.
    fn store(&mut self, hall: &Hall) -> Result<(), Unkept>
        requires { asks hall.now }
        ensures stored { OnOk result (is_stored self.new) }
        ensures unkept { IfErr result (λ _. has_failed self.new) }
        ensures failed { has_failed self.old → has_failed self.new };

    /// Whether it can store what it is to keep.
    fn still_stores(&mut self) -> bool
        ensures unkept { result ≡ false → has_failed self.new }
        ensures failed { has_failed self.old → has_failed self.new };

    /// Closes the hall, as [`Hall::close`] does.
    fn close(&self, hall: Hall, seat: Seat) -> Core
        requires hall { seat.hall ≡ hall }
        ensures { Closes seat result };
}

/// The caller that asks the hall itself, and keeps nothing.
#[derive(Clone, Copy)]
pub struct HallCaller<'a, R> {
    rt: &'a R,
}

impl<'a, R> HallCaller<'a, R> {
    /// A caller that waits by this handle.
    pub fn new(rt: &'a R) -> HallCaller<'a, R> {
        HallCaller { rt }
    }
}

impl<R: Wait> Caller for HallCaller<'_, R> {
    ghost use Rattle.std.specs.Prelude.{⊤};

    ghost is_stored = { λ _. ⊤ };

    ghost has_failed = { λ _. ⊥ };

    ghost asks = { λ _. ⊤ };

    ghost has_called = { λ _ _ _ _. ⊤ };

    fn again(&self) -> Self {
        HallCaller { rt: self.rt }
    }

    fn call(
        &mut self,
        hall: &Hall,
        seat: &mut Seat,
        arena: &mut Bump,
        now: u64,
        session: u64,
        event: Event,
        _message: Option<&[u8]>,
    ) -> Reply {
        hall.call(self.rt, seat, arena, now, session, event).reply
    }

    fn store(&mut self, _hall: &Hall) -> Result<(), Unkept> {
        Ok(())
    }

    fn still_stores(&mut self) -> bool {
        true
    }

    fn close(&self, hall: Hall, seat: Seat) -> Core {
        hall.close(self.rt, seat)
    }
}
