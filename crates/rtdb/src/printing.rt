//! The output of the program, which a script and a server write to.
ghost use Rattle.std.specs.Prelude.{◌≡◌};

use scripts::{Sink, send_text};
use server::{Printer, Unprinted};

/// A sink that a server prints to as well.
#[derive(Drop)]
pub struct Printing<W> {
    /// What all texts are written to.
    pub sink: W,
}

impl<W> Printing<W> {
    /// An output over this sink.
    pub fn new(sink: W) -> Printing<W>
        ensures { result.sink ≡ sink }
    {
        Printing { sink }
    }
}

impl<W: Sink> Printer for Printing<W> {
    ghost printed = { λ printing. W.written printing.sink };

    ghost failed = { λ printing. W.failed printing.sink };

    fn print(&mut self, text: &[u8]) -> Result<(), Unprinted> {
        match send_text(&mut self.sink, text) {
            Ok(()) => Ok(()),
            Err(_) => Err(Unprinted),
        }
    }
}
