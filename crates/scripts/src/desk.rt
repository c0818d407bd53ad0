//! Where lines are answered, one at a time, and their answers put behind one another.
ghost use Rattle.std.specs.Prelude.{◌≡◌, ◌≢◌, ℕ, ◌++◌, ◌∷◌, [], false, List, IfOk, IfErr, OnOk, OnErr, MatchResult};
ghost use Rattle.scripts.specs.Lines.{non_blank};
ghost use Rattle.scripts.specs.Working.Sent.{tells, Passes};
ghost use Rattle.scripts.specs.Said.{unopened, refused, IsWritten};
ghost use Rattle.scripts.specs.declared.desk.Stop.TheVariants.{NoMemory as no_memory, WriteFault as write_fault};
ghost use Rattle.scripts.specs.Working.Parts.{ShowsFront};
ghost use Rattle.scripts.specs.Working.Follow.{phase_of, rest_of, AnswersAt, StopsAt, HasAnswered, StopsAfter};

use crate::outgoing::Outgoing;
use crate::respond::{Answer, Stage, respond};
use crate::stream::{Broken, Sink};
use answers::AnswerWriter;
use bumpalo::Bump;
use json_tree::NoMemory;
use requests::MessageReader;
use std::alloc::Global;

/// Why a script stops before the end of its input.
#[derive(Clone, Copy, Debug, PartialEq, Eq)]
pub enum Stop {
    /// Its header is refused.
    BadHeader,
    /// The sink has failed.
    WriteFault,
    /// Memory was wanted for a line or for the text of its answer.
    NoMemory,
}

impl From<NoMemory> for Stop {
    ghost from_gives = { λ _ stop. stop ≡ no_memory };

    fn from(_refused: NoMemory) -> Stop {
        Stop::NoMemory
    }
}

impl From<Broken> for Stop {
    ghost from_gives = { λ _ stop. stop ≡ write_fault };

    fn from(_broken: Broken) -> Stop {
        Stop::WriteFault
    }
}

/// What answers the lines of a script: where it stands, what reads requests and writes answers, and the answers on
/// their way.
#[derive(Drop)]
pub struct Desk {
    alloc: Global,
    reader: MessageReader,
    writer: AnswerWriter,
    stage: Stage,
    /// The answers that are not written yet.
    pub outgoing: Outgoing,
}

impl Desk {
    /// A desk before the first line. It takes all memory for answers on their way.
    pub fn new(alloc: Global) -> Result<Desk, NoMemory>
        ensures { IfOk result (λ desk. (phase_of desk.stage ≡ unopened) × (desk.outgoing.bytes.items ≡ [])) }
    {
        let outgoing = Outgoing::new(alloc)?;
        Ok(Desk {
            alloc,
            reader: MessageReader::new(alloc),
            writer: AnswerWriter::new(alloc),
            stage: Stage::Unopened,
            outgoing,
        })
    }

    /// Answers a complete line, unless it is blank. Of a longer line the text need only have the first
    /// 1,048,577 bytes.
    pub fn answer<W: Sink>(
        &mut self,
        sink: &mut W,
        arena: &mut Bump,
        text: &[u8],
        blank: bool,
    ) -> Result<(), Stop>
        requires sound { W.failed sink.old ≡ false }
        requires going { phase_of self.old.stage ≢ refused }
        ensures ok { (lines : List (List ℕ)) (line sent : List ℕ) → ShowsFront text.now blank line
            → IsWritten (non_blank lines) (phase_of self.old.stage) (sent ++ self.old.outgoing.bytes.items)
            → OnOk result (HasAnswered (lines ++ line ∷ []) (phase_of self.new.stage) (W.written sink.old) (W.written sink.new) sent self.new.outgoing.bytes.items) }
        ensures err { (lines : List (List ℕ)) (line sent : List ℕ) → ShowsFront text.now blank line
            → IsWritten (non_blank lines) (phase_of self.old.stage) (sent ++ self.old.outgoing.bytes.items)
            → IfErr result (λ stop. StopsAfter stop (tells (W.written sink.old) (W.written sink.new) (W.failed sink.new))
            self.new.outgoing.bytes.items lines line sent) }
        ensures going { OnOk result (phase_of self.new.stage ≢ refused) }
        ensures sound { MatchResult result (λ _. W.failed sink.new ≡ W.failed sink.old) (λ stop. stop ≢ Stop.WriteFault → W.failed sink.new ≡ W.failed sink.old) }
    {
        if blank {
            return Ok(());
        }
        self.answer_text(sink, arena, text)?;
        Ok(())
    }

    // Answers a line that is not blank.
    fn answer_text<W: Sink>(
        &mut self,
        sink: &mut W,
        arena: &mut Bump,
        line: &[u8],
    ) -> Result<(), Stop>
        requires sound { W.failed sink.old ≡ false }
        requires going { phase_of self.old.stage ≢ refused }
        ensures ok { OnOk result ((out : List ℕ) × AnswersAt (phase_of self.old.stage) line.now (phase_of self.new.stage) out
            × Passes (W.written sink.old) (W.written sink.new) (self.old.outgoing.bytes.items ++ out) self.new.outgoing.bytes.items) }
        ensures err { IfErr result (λ stop. StopsAt stop (tells (W.written sink.old) (W.written sink.new) (W.failed sink.new)) (phase_of self.old.stage) line.now self.old.outgoing.bytes.items self.new.outgoing.bytes.items) }
        ensures going { OnOk result (phase_of self.new.stage ≢ refused) }
        ensures sound { MatchResult result (λ _. W.failed sink.new ≡ W.failed sink.old) (λ stop. stop ≢ Stop.WriteFault → W.failed sink.new ≡ W.failed sink.old) }
    {
        let answer = self.respond(arena, line)?;
        self.outgoing.put(sink, answer.rest())?;
        match &self.stage {
            Stage::Refused => Err(Stop::BadHeader),
            _ => Ok(()),
        }
    }

    // Answers a line that is not blank. What is written of the answer stands behind what was kept; for want of memory
    // nothing does.
    fn respond(&mut self, arena: &mut Bump, line: &[u8]) -> Result<Answer, NoMemory>
        requires { phase_of self.old.stage ≢ refused }
        ensures ok { IfOk result (λ answer. (out : List ℕ) × AnswersAt (phase_of self.old.stage) line.now (phase_of self.new.stage) out
            × (self.new.outgoing.bytes.items ++ rest_of answer ≡ self.old.outgoing.bytes.items ++ out)) }
        ensures going { OnErr result (phase_of self.new.stage ≢ refused) }
        ensures kept { OnErr result (self.new.outgoing.bytes.items ≡ self.old.outgoing.bytes.items) }
    {
        self.writer.begin(self.outgoing.lend(self.alloc));
        let answer = respond(
            self.alloc,
            &mut self.reader,
            &mut self.stage,
            arena,
            line,
            &mut self.writer,
        );
        if !matches!(answer, Ok(Answer::Written)) {
            self.writer.clear();
        }
        self.outgoing.put_back(self.writer.end());
        answer
    }
}
