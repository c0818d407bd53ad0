//! Text on its way to a sink, which is kept until there is much of it.
ghost use Rattle.std.specs.Prelude.{◌≡◌, ℕ, List, ◌++◌, [], true, false, IfOk, OnOk, OnErr, MatchResult};
ghost use Rattle.std.specs.Io.KnownBytes.{Appends};
ghost use Rattle.scripts.specs.Working.Sent.{Passes, Breaks};

use crate::stream::{Broken, Sink};
use json_tree::NoMemory;
use std::alloc::Global;
use std::mem::replace;

/// How many bytes are kept at most between two answers, 64 KiB: so much goes to the sink by one write, and not each
/// line by its own.
pub const MAX_KEPT_BYTES: usize = 65_536;

// For how many bytes there is room: for all that is kept, and for most answers behind it.
const ROOM_BYTES: usize = 98_304;

/// Text on its way to a sink. It takes 96 KiB when it is made, and more only for an answer that wants more, which
/// is given back when that is written.
#[derive(Drop)]
pub struct Outgoing {
    bytes: Vec<u8>,
}

impl Outgoing {
    /// Nothing on its way, with room for 98,304 bytes.
    pub fn new(alloc: Global) -> Result<Outgoing, NoMemory>
        ensures { IfOk result (λ outgoing. outgoing.bytes.items ≡ []) }
    {
        Ok(Outgoing {
            bytes: Vec::with_capacity(alloc, ROOM_BYTES)?,
        })
    }

    /// Passes what is kept to what writes behind it; [`Outgoing::put_back`] takes it back.
    pub fn lend(&mut self, alloc: Global) -> Vec<u8>
        ensures lent { result.items ≡ self.old.bytes.items }
        ensures none { self.new.bytes.items ≡ [] }
    {
        replace(&mut self.bytes, Vec::new(alloc))
    }

    /// Keeps these bytes, and nothing else.
    pub fn put_back(&mut self, bytes: Vec<u8>)
        ensures { self.new.bytes.items ≡ bytes.items }
    {
        self.bytes = bytes;
    }

    /// Puts a text behind what is kept, and writes all of it where there is much of it by then, or where there is no
    /// room for the text. After an error all that was kept is lost.
    pub fn put<W: Sink>(&mut self, sink: &mut W, text: &[u8]) -> Result<(), Broken>
        requires { W.failed sink.old ≡ false }
        ensures ok { OnOk result (Passes (W.written sink.old) (W.written sink.new)
            (self.old.bytes.items ++ text.now) self.new.bytes.items) }
        ensures err { OnErr result (Breaks (W.written sink.old) (W.written sink.new)
            (self.old.bytes.items ++ text.now)) }
        ensures failed { MatchResult result (λ _. W.failed sink.new ≡ W.failed sink.old) (λ _. W.failed sink.new ≡ true) }
    {
        if self.bytes.extend_from_slice(text).is_err() {
            self.send(sink)?;
            write_all(sink, text)?;
            return Ok(());
        }
        if self.bytes.len() > MAX_KEPT_BYTES {
            self.send(sink)?;
        }
        Ok(())
    }

    /// Writes all that is kept, so that nothing is, and flushes the sink. After an error it is lost.
    pub fn hand_on<W: Sink>(&mut self, sink: &mut W) -> Result<(), Broken>
        requires { W.failed sink.old ≡ false }
        ensures ok { OnOk result (Passes (W.written sink.old) (W.written sink.new) self.old.bytes.items []
            × (self.new.bytes.items ≡ []) × (W.handed_on sink.new ≡ true)) }
        ensures err { OnErr result (Breaks (W.written sink.old) (W.written sink.new) self.old.bytes.items) }
        ensures failed { MatchResult result (λ _. W.failed sink.new ≡ W.failed sink.old) (λ _. W.failed sink.new ≡ true) }
    {
        self.send(sink)?;
        sink.flush()
    }

    // Writes all that is kept, so that nothing is. After an error it is lost.
    fn send<W: Sink>(&mut self, sink: &mut W) -> Result<(), Broken>
        requires { W.failed sink.old ≡ false }
        ensures ok { OnOk result (Passes (W.written sink.old) (W.written sink.new) self.old.bytes.items []
            × (self.new.bytes.items ≡ [])) }
        ensures err { OnErr result (Breaks (W.written sink.old) (W.written sink.new) self.old.bytes.items) }
        ensures failed { MatchResult result (λ _. W.failed sink.new ≡ W.failed sink.old) (λ _. W.failed sink.new ≡ true) }
    {
        let result = write_all(sink, &self.bytes);
        self.bytes.clear();
        self.bytes.shrink_to(ROOM_BYTES);
        result
    }
}

/// Writes a whole text, by as many writes as the sink wants, and flushes it. After an error a front of
/// the text may have been written.
pub fn send_text<W: Sink>(sink: &mut W, text: &[u8]) -> Result<(), Broken>
    requires { W.failed sink.old ≡ false }
    ensures ok { OnOk result (Appends (W.written sink.old) (W.written sink.new) text.now × (W.handed_on sink.new ≡ true)) }
    ensures err { OnErr result ((sent lost : List ℕ) × Appends (W.written sink.old) (W.written sink.new) sent × (text.now ≡ sent ++ lost)) }
    ensures failed { MatchResult result (λ _. W.failed sink.new ≡ W.failed sink.old) (λ _. W.failed sink.new ≡ true) }
{
    write_all(sink, text)?;
    sink.flush()
}

// Writes a whole text, by as many writes as the sink wants.
fn write_all<W: Sink>(sink: &mut W, text: &[u8]) -> Result<(), Broken>
    requires { W.failed sink.old ≡ false }
    ensures ok { OnOk result (Appends (W.written sink.old) (W.written sink.new) text.now) }
    ensures err { OnErr result (Breaks (W.written sink.old) (W.written sink.new) text.now) }
    ensures failed { MatchResult result (λ _. W.failed sink.new ≡ W.failed sink.old) (λ _. W.failed sink.new ≡ true) }
{
    let mut at = 0;
    while at < text.len() {
        at += sink.write(&text[at..])?;
    }
    Ok(())
}
