//! A script: a header and then requests, one to a line, each answered by a line.
ghost use Rattle.std.specs.Prelude.{◌≡◌, ◌≢◌, ℕ, ◌<◌, ◌++◌, ◌∷◌, [], true, false, List, length, vec_len, IfOk, IfErr, OnOk, MatchResult, IfSome, IfNone, Option};
ghost use Rattle.std.specs.Io.KnownBytes.{Appends, Consumes};
ghost use Rattle.scripts.specs.Lines.{non_blank};
ghost use Rattle.scripts.specs.Said.{refused, IsWritten};
ghost use Rattle.scripts.specs.Working.Parts.{KeepsFront, IsPlain};
ghost use Rattle.scripts.specs.Working.Sent.{tells};
ghost use Rattle.scripts.specs.Working.Follow.{phase_of, HasAnswered, StopsAfter, IsAfter, StopsWithin, Halts, Sends};
ghost use Rattle.scripts.specs.Ends.{SourceTells, Ends};

use crate::desk::{Desk, Stop};
use crate::line::{Line, is_blank};
use crate::stream::{Sink, Source};
use bumpalo::Bump;
use json_tree::NoMemory;
use memchr::memchr;
use std::alloc::Global;
use std::mem::forget;

/// How many bytes are read at a time, 64 KiB: most lines lie whole within a block, and are answered
/// from it.
const BLOCK_BYTES: usize = 65_536;

/// How many reads are made at most, 2^40, since each loop is to end.
const MAX_READS: u64 = 1_099_511_627_776;

/// How a script ended.
#[derive(Clone, Copy, Debug, PartialEq, Eq)]
pub enum ScriptEnd {
    /// All its lines are answered.
    Finished,
    /// Its header was refused.
    BadHeader,
    /// A read failed, or 2^40 were made. A line that was not complete has no answer.
    ReadFault,
    /// A write failed.
    WriteFault,
    /// Memory was wanted, for a line or for the text of its answer.
    NoMemory,
}

/// A script that is being read: the line that is not complete yet, and the desk where complete ones
/// are answered.
#[derive(Drop)]
struct Script {
    line: Line,
    desk: Desk,
}

impl Script {
    fn new(alloc: Global) -> Result<Script, NoMemory>
        ensures after { IfOk result (λ script. IsAfter script [] []) }
        ensures going { IfOk result (λ script. phase_of script.desk.stage ≢ refused) }
    {
        let desk = Desk::new(alloc)?;
        Ok(Script {
            line: Line::new(alloc),
            desk,
        })
    }

    // Answers the line that is held, and begins the next.
    fn end_line<W: Sink>(&mut self, sink: &mut W, arena: &mut Bump) -> Result<(), Stop>
        requires sound { W.failed sink.old ≡ false }
        requires going { phase_of self.old.desk.stage ≢ refused }
        ensures ok { (lines : List (List ℕ)) (line sent : List ℕ)
            → KeepsFront self.old.line.kept.items self.old.line.blank line
            → IsWritten (non_blank lines) (phase_of self.old.desk.stage) (sent ++ self.old.desk.outgoing.bytes.items)
            → OnOk result (HasAnswered (lines ++ line ∷ []) (phase_of self.new.desk.stage) (W.written sink.old) (W.written sink.new) sent self.new.desk.outgoing.bytes.items) }
        ensures next { OnOk result (KeepsFront self.new.line.kept.items self.new.line.blank []) }
        ensures err { (lines : List (List ℕ)) (line sent : List ℕ)
            → KeepsFront self.old.line.kept.items self.old.line.blank line
            → IsWritten (non_blank lines) (phase_of self.old.desk.stage) (sent ++ self.old.desk.outgoing.bytes.items)
            → IfErr result (λ stop. StopsAfter stop (tells (W.written sink.old) (W.written sink.new) (W.failed sink.new))
            self.new.desk.outgoing.bytes.items lines line sent) }
        ensures going { OnOk result (phase_of self.new.desk.stage ≢ refused) }
        ensures sound { MatchResult result (λ _. W.failed sink.new ≡ W.failed sink.old) (λ stop. stop ≢ Stop.WriteFault → W.failed sink.new ≡ W.failed sink.old) }
    {
        self.desk
            .answer(sink, arena, &self.line.kept, self.line.blank)?;
        self.line.clear();
        Ok(())
    }

    // Takes the end of a line, without its line feed, and answers the line: from where it lies, if
    // nothing of it is held.
    fn take_line<W: Sink>(
        &mut self,
        sink: &mut W,
        arena: &mut Bump,
        part: &[u8],
    ) -> Result<(), Stop>
        requires plain { IsPlain part.now }
        requires sound { W.failed sink.old ≡ false }
        requires going { phase_of self.old.desk.stage ≢ refused }
        ensures ok { (taken sent : List ℕ)
            → IsAfter self.old taken sent
            → OnOk result ((more : List ℕ) × Appends (W.written sink.old) (W.written sink.new) more
            × IsAfter self.new (taken ++ (part.now ++ 10 ∷ [])) (sent ++ more)) }
        ensures err { (taken sent : List ℕ)
            → IsAfter self.old taken sent
            → IfErr result (λ stop. StopsWithin stop (tells (W.written sink.old) (W.written sink.new) (W.failed sink.new))
            self.new.desk.outgoing.bytes.items (taken ++ (part.now ++ 10 ∷ [])) sent) }
        ensures going { OnOk result (phase_of self.new.desk.stage ≢ refused) }
        ensures sound { MatchResult result (λ _. W.failed sink.new ≡ W.failed sink.old) (λ stop. stop ≢ Stop.WriteFault → W.failed sink.new ≡ W.failed sink.old) }
    {
        if self.line.is_empty() {
            self.desk.answer(sink, arena, part, is_blank(part))?;
            return Ok(());
        }
        self.line.add(part)?;
        self.end_line(sink, arena)?;
        Ok(())
    }

    // Takes the next piece of the input, and answers each line that ends in it.
    fn feed<W: Sink>(&mut self, sink: &mut W, arena: &mut Bump, piece: &[u8]) -> Result<(), Stop>
        requires sound { W.failed sink.old ≡ false }
        requires going { phase_of self.old.desk.stage ≢ refused }
        ensures ok { (taken sent : List ℕ)
            → IsAfter self.old taken sent
            → OnOk result ((more : List ℕ) × Appends (W.written sink.old) (W.written sink.new) more
            × IsAfter self.new (taken ++ piece.now) (sent ++ more)) }
        ensures err { (taken sent : List ℕ)
            → IsAfter self.old taken sent
            → IfErr result (λ stop. StopsWithin stop (tells (W.written sink.old) (W.written sink.new) (W.failed sink.new))
            self.new.desk.outgoing.bytes.items (taken ++ piece.now) sent) }
        ensures going { OnOk result (phase_of self.new.desk.stage ≢ refused) }
        ensures sound { MatchResult result (λ _. W.failed sink.new ≡ W.failed sink.old) (λ stop. stop ≢ Stop.WriteFault → W.failed sink.new ≡ W.failed sink.old) }
    {
        let mut rest = piece;
        while let Some((part, after)) = split_line(rest) {
            self.take_line(sink, arena, part)?;
            rest = after;
        }
        self.line.add(rest)?;
        Ok(())
    }

    // Takes the next piece of the input, answers each line that ends in it, and hands the answers on,
    // so that nobody waits for one while the script waits for input.
    fn answer_piece<W: Sink>(
        &mut self,
        sink: &mut W,
        arena: &mut Bump,
        piece: &[u8],
    ) -> Result<(), Stop>
        requires sound { W.failed sink.old ≡ false }
        requires going { phase_of self.old.desk.stage ≢ refused }
        ensures ok { (taken sent : List ℕ)
            → IsAfter self.old taken sent
            → OnOk result ((more : List ℕ) × Appends (W.written sink.old) (W.written sink.new) more
            × IsAfter self.new (taken ++ piece.now) (sent ++ more)) }
        ensures handed_on { OnOk result ((self.new.desk.outgoing.bytes.items ≡ []) × (W.handed_on sink.new ≡ true)) }
        ensures err { (taken sent : List ℕ)
            → IsAfter self.old taken sent
            → IfErr result (λ stop. StopsWithin stop (tells (W.written sink.old) (W.written sink.new) (W.failed sink.new))
            self.new.desk.outgoing.bytes.items (taken ++ piece.now) sent) }
        ensures going { OnOk result (phase_of self.new.desk.stage ≢ refused) }
        ensures sound { MatchResult result (λ _. W.failed sink.new ≡ W.failed sink.old) (λ stop. stop ≢ Stop.WriteFault → W.failed sink.new ≡ W.failed sink.old) }
    {
        self.feed(sink, arena, piece)?;
        self.desk.outgoing.hand_on(sink)?;
        Ok(())
    }

    // Reads and answers, up to the end of the input, a fault, or 2^40 reads. Before each read the
    // answers to all that was read are handed on.
    fn read_all<R: Source, W: Sink>(
        &mut self,
        source: &mut R,
        sink: &mut W,
        arena: &mut Bump,
        block: &mut [u8],
    ) -> ScriptEnd
        requires unread { R.reads source.old ≡ 0 }
        requires room { 0 < length block.old }
        requires begins { IsAfter self.old [] [] }
        requires going { phase_of self.old.desk.stage ≢ refused }
        requires source { R.failed source.old ≡ false }
        requires sink { W.failed sink.old ≡ false }
        ensures source { result ≢ ScriptEnd.ReadFault → R.failed source.new ≡ R.failed source.old }
        ensures sink { result ≢ ScriptEnd.WriteFault → W.failed sink.new ≡ W.failed sink.old }
        ensures going { result ≡ ScriptEnd.Finished → phase_of self.new.desk.stage ≢ refused }
        ensures halts { (taken sent : List ℕ) × Consumes (R.left source.old) (R.left source.new) taken
            × Appends (W.written sink.old) (W.written sink.new) sent
            × Halts result (record { left = R.left source.new; failed = R.failed source.new; reads = R.reads source.new }) (W.failed sink.new) self.new taken sent }
    {
        for _made in 0..MAX_READS {
            match source.read(block) {
                Ok(0) => return ScriptEnd::Finished,
                Ok(count) => match self.answer_piece(sink, arena, &block[..count]) {
                    Ok(()) => {}
                    Err(Stop::BadHeader) => return ScriptEnd::BadHeader,
                    Err(Stop::WriteFault) => return ScriptEnd::WriteFault,
                    Err(Stop::NoMemory) => return ScriptEnd::NoMemory,
                },
                Err(_) => return ScriptEnd::ReadFault,
            }
        }
        ScriptEnd::ReadFault
    }

    // Hands on what is kept of the answers, and ends so if that succeeds.
    fn send<W: Sink>(&mut self, sink: &mut W, end: ScriptEnd) -> ScriptEnd
        requires { W.failed sink.old ≡ false }
        ensures sends { Sends end result (W.written sink.old) (W.written sink.new) (W.failed sink.new) self.old.desk.outgoing.bytes.items }
        ensures sound { result ≢ ScriptEnd.WriteFault → (W.failed sink.new ≡ W.failed sink.old) × (W.handed_on sink.new ≡ true) }
    {
        match self.desk.outgoing.hand_on(sink) {
            Ok(()) => end,
            Err(_) => ScriptEnd::WriteFault,
        }
    }

    // Answers a last line that has no line feed, where the input is at its end, and writes what is
    // kept of the answers.
    fn finish<W: Sink>(&mut self, sink: &mut W, arena: &mut Bump, end: ScriptEnd) -> ScriptEnd
        requires sound { end ≢ ScriptEnd.WriteFault → W.failed sink.old ≡ false }
        requires going { end ≡ ScriptEnd.Finished → phase_of self.old.desk.stage ≢ refused }
        ensures sound { result ≢ ScriptEnd.WriteFault → (end ≢ ScriptEnd.WriteFault) × (W.failed sink.new ≡ W.failed sink.old) × (W.handed_on sink.new ≡ true) }
        ensures fault { end ≡ ScriptEnd.ReadFault → result ≢ ScriptEnd.WriteFault → result ≡ ScriptEnd.ReadFault }
        ensures ends { (taken sent : List ℕ) (source : SourceTells)
            → Halts end source (W.failed sink.old) self.old taken sent
            → (more : List ℕ) × Appends (W.written sink.old) (W.written sink.new) more
            × Ends result taken source (W.failed sink.new) (sent ++ more) }
    {
        match end {
            ScriptEnd::Finished => match self.end_line(sink, arena) {
                Ok(()) => self.send(sink, ScriptEnd::Finished),
                Err(Stop::BadHeader) => self.send(sink, ScriptEnd::BadHeader),
                Err(Stop::WriteFault) => ScriptEnd::WriteFault,
                Err(Stop::NoMemory) => self.send(sink, ScriptEnd::NoMemory),
            },
            ScriptEnd::BadHeader => self.send(sink, ScriptEnd::BadHeader),
            ScriptEnd::ReadFault => self.send(sink, ScriptEnd::ReadFault),
            ScriptEnd::NoMemory => self.send(sink, ScriptEnd::NoMemory),
            ScriptEnd::WriteFault => ScriptEnd::WriteFault,
        }
    }
}

/// Runs a script: reads its header and its requests from the source, 64 KiB at a time where so much
/// is there, and writes their answers to the sink, which has all answers to what was read before the
/// next read. It takes 160 KiB for what is read and written, up to about 2 MiB for a line that is cut
/// by the end of a block, and what each line needs; each step is handed the arena. A source that has
/// failed is read no more, and a sink that has failed is written to no more.
pub fn run_script<R: Source, W: Sink>(
    alloc: Global,
    source: &mut R,
    sink: &mut W,
    arena: &mut Bump,
) -> ScriptEnd
    requires unread { R.reads source.old ≡ 0 }
    requires source { R.failed source.old ≡ false }
    requires sink { W.failed sink.old ≡ false }
    ensures source { result ≢ ScriptEnd.ReadFault → result ≢ ScriptEnd.WriteFault → R.failed source.new ≡ false }
    ensures sink { result ≢ ScriptEnd.WriteFault → (W.failed sink.new ≡ false) × (W.handed_on sink.old ≡ true → W.handed_on sink.new ≡ true) }
    ensures flushed { result ≢ ScriptEnd.WriteFault → result ≢ ScriptEnd.NoMemory → W.handed_on sink.new ≡ true }
    ensures ends { (taken out : List ℕ) × Consumes (R.left source.old) (R.left source.new) taken
        × Appends (W.written sink.old) (W.written sink.new) out
        × Ends result taken (record { left = R.left source.new; failed = R.failed source.new; reads = R.reads source.new }) (W.failed sink.new) out }
{
    let (end, _held) = run(alloc, source, sink, arena);
    end
}

/// Runs a script as [`run_script`] does, and never gives back the memory of what it holds at its end: its tree,
/// its rules and its sessions. For a process that ends with the script, since all its memory goes back then
/// at once.
pub fn run_last_script<R: Source, W: Sink>(
    alloc: Global,
    source: &mut R,
    sink: &mut W,
    arena: &mut Bump,
) -> ScriptEnd
    requires unread { R.reads source.old ≡ 0 }
    requires source { R.failed source.old ≡ false }
    requires sink { W.failed sink.old ≡ false }
    ensures source { result ≢ ScriptEnd.ReadFault → result ≢ ScriptEnd.WriteFault → R.failed source.new ≡ false }
    ensures sink { result ≢ ScriptEnd.WriteFault → (W.failed sink.new ≡ false) × (W.handed_on sink.old ≡ true → W.handed_on sink.new ≡ true) }
    ensures flushed { result ≢ ScriptEnd.WriteFault → result ≢ ScriptEnd.NoMemory → W.handed_on sink.new ≡ true }
    ensures ends { (taken out : List ℕ) × Consumes (R.left source.old) (R.left source.new) taken
        × Appends (W.written sink.old) (W.written sink.new) out
        × Ends result taken (record { left = R.left source.new; failed = R.failed source.new; reads = R.reads source.new }) (W.failed sink.new) out }
{
    let (end, held) = run(alloc, source, sink, arena);
    forget(held);
    end
}

// Runs a script, and hands out what it holds at its end.
fn run<R: Source, W: Sink>(
    alloc: Global,
    source: &mut R,
    sink: &mut W,
    arena: &mut Bump,
) -> (ScriptEnd, Option<Script>)
    requires unread { R.reads source.old ≡ 0 }
    requires source { R.failed source.old ≡ false }
    requires sink { W.failed sink.old ≡ false }
    ensures source { result.0 ≢ ScriptEnd.ReadFault → result.0 ≢ ScriptEnd.WriteFault → R.failed source.new ≡ false }
    ensures sink { result.0 ≢ ScriptEnd.WriteFault → (W.failed sink.new ≡ false) × (W.handed_on sink.old ≡ true → W.handed_on sink.new ≡ true) }
    ensures flushed { result.0 ≢ ScriptEnd.WriteFault → result.0 ≢ ScriptEnd.NoMemory → W.handed_on sink.new ≡ true }
    ensures ends { (taken out : List ℕ) × Consumes (R.left source.old) (R.left source.new) taken
        × Appends (W.written sink.old) (W.written sink.new) out
        × Ends result.0 taken (record { left = R.left source.new; failed = R.failed source.new; reads = R.reads source.new }) (W.failed sink.new) out }
{
    let Ok(mut block) = new_block(alloc) else {
        return (ScriptEnd::NoMemory, None);
    };
    let Ok(mut script) = Script::new(alloc) else {
        return (ScriptEnd::NoMemory, None);
    };
    let end = script.read_all(source, sink, arena, &mut block);
    let end = script.finish(sink, arena, end);
    (end, Some(script))
}

// Room for a read. Callers see that there is some, and not the zeros in it.
fn new_block(alloc: Global) -> Result<Vec<u8>, NoMemory>
    ensures { IfOk result (λ block. 0 < vec_len block) }
{
    Ok(vec![in alloc; 0u8; BLOCK_BYTES]?)
}

// The first line of a text, without its line feed, and what comes after that.
fn split_line(text: &[u8]) -> Option<(&[u8], &[u8])>
    ensures some { IfSome result (λ p. IsPlain p.0.now × (text.now ≡ p.0.now ++ 10 ∷ p.1.now)) }
    ensures none { IfNone result (IsPlain text.now) }
{
    match memchr(b'\n', text) {
        Some(n) => Some((&text[..n], &text[n + 1..])),
        None => None,
    }
}
