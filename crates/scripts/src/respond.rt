//! What a line is answered: a header by its acceptance or its refusal, a request by a reply.
ghost use Rattle.std.specs.Prelude.{◌≡◌, ◌≢◌, ◌≤◌, ℕ, List, [], Ok, Some, None, option_map, IfOk, IsOk, OnErr};
ghost use Rattle.answers.specs.AnswerText.{text, fault_text, rules_fault_text, line_fault_text};
ghost use Rattle.scripts.specs.Said.{unopened, refused, running, as_line, IsAnsweredBy, header_fault_text};
ghost use Rattle.scripts.specs.Working.Follow.{phase_of, bytes_of, rest_of, AnswersAt};
ghost use Rattle.rtdb_model.specs.Borrowed.{reply_of, refusal_of};
ghost use Rattle.rtdb_model.specs.declared.reply.Reply.TheVariants as replies;
ghost use Rattle.rtdb_model.specs.declared.reply.Refusal.TheVariants as refusals;
ghost use Rattle.rules_reader.specs.declared.fault.RulesFault.TheVariants as rules_faults;
ghost use Rattle.json_lines.specs.declared.fault.MessageFault.TheVariants as message_faults;

use crate::header::{HeaderFault, Opened, read_header};
use answers::AnswerWriter;
use bumpalo::Bump;
use json_lines::MessageFault;
use json_tree::NoMemory;
use requests::{Asked, Form, LineFault, MessageReader};
use rtdb_core::{BorrowedRefusal, BorrowedReply, Core, Granted, MAX_MOMENT, Plan, Refusal};
use rules_reader::RulesFault;
use std::alloc::Global;

/// Where a script stands.
#[derive(Drop)]
pub enum Stage {
    /// Before its header.
    Unopened,
    /// After a header that was refused: no line is answered any more.
    Refused,
    /// With the database that its header has opened.
    Running(Opened),
}

/// An answer, as a line of the output with its line feed.
#[derive(Clone, Copy, Debug)]
pub enum Answer {
    /// It was done.
    Done,
    /// Memory was wanted.
    NoMemory,
    /// Any other, whose text is written.
    Written,
}

impl Answer {
    /// What of the answer is not written yet. Those of `Done` and `NoMemory` are whole lines and constants, so that
    /// neither takes memory.
    pub fn rest(self) -> &'static [u8]
        ensures { result.now ≡ rest_of self }
    {
        match self {
            Answer::Done => done_line(),
            Answer::NoMemory => no_memory_line(),
            Answer::Written => b"\n",
        }
    }
}

/// Answers a line that is not blank: the header, where there is no database yet, else a request. An
/// error is want of memory for the answer's text, and the request may have been done. Only where the answer says
/// so is what was written its text.
pub fn respond(
    alloc: Global,
    reader: &mut MessageReader,
    stage: &mut Stage,
    arena: &mut Bump,
    line: &[u8],
    out: &mut AnswerWriter,
) -> Result<Answer, NoMemory>
    requires going { phase_of stage.old ≢ refused }
    requires none { out.old.text ≡ [] }
    ensures before { out.new.before ≡ out.old.before }
    ensures ok { IfOk result (λ answer. AnswersAt (phase_of stage.old) line.now (phase_of stage.new) (bytes_of answer out.new.text)) }
    ensures err { OnErr result (phase_of stage.new ≢ refused) }
{
    match stage {
        Stage::Unopened => {
            let (opened, answer) = open(alloc, line, out)?;
            *stage = opened;
            Ok(answer)
        }
        Stage::Refused => unreachable!(),
        Stage::Running(opened) => answer_request(reader, opened, arena, line, out),
    }
}

fn answer_request(
    reader: &mut MessageReader,
    opened: &mut Opened,
    arena: &mut Bump,
    line: &[u8],
    out: &mut AnswerWriter,
) -> Result<Answer, NoMemory>
    requires none { out.old.text ≡ [] }
    ensures before { out.new.before ≡ out.old.before }
    ensures answered { IfOk result (λ answer. AnswersAt (running opened.old.tokens opened.old.core) line.now (running opened.new.tokens opened.new.core) (bytes_of answer out.new.text)) }
{
    match reader.read_asked(&opened.tokens, line, Form::Script) {
        Ok(asked) => answer_asked(&mut opened.core, arena, asked, out),
        Err(fault) => say_line_fault(&fault, out),
    }
}

// Answers what is asked: it is judged, what it is answered is written from where it stands, and then it is done.
fn answer_asked(
    core: &mut Core,
    arena: &mut Bump,
    asked: Asked,
    out: &mut AnswerWriter,
) -> Result<Answer, NoMemory>
    requires moment { asked.stamp.now ≤ MAX_MOMENT }
    requires none { out.old.text ≡ [] }
    ensures before { out.new.before ≡ out.old.before }
    ensures answered { IfOk result (λ answer. (said : List ℕ) × IsAnsweredBy core.old (Ok asked) said core.new × (bytes_of answer out.new.text ≡ as_line said)) }
{
    let Asked { stamp, mut event } = asked;
    event.fill(stamp.now);
    let (answer, plan) = match core.judge(arena, stamp.now, stamp.session, &event) {
        Ok(granted) => say_granted(granted, out)?,
        Err(refusal) => return say_borrowed_refusal(&refusal, out),
    };
    match core.commit(plan, event) {
        Ok(()) => Ok(answer),
        Err(_) => Ok(Answer::NoMemory),
    }
}

// Says what an event that may be done is answered, and hands on the plan for it.
fn say_granted<'a>(
    granted: Granted<'_, 'a>,
    out: &mut AnswerWriter,
) -> Result<(Answer, Plan<'a>), NoMemory>
    requires none { out.old.text ≡ [] }
    ensures before { out.new.before ≡ out.old.before }
    ensures line { IfOk result (λ r. bytes_of r.0 out.new.text ≡ as_line (text (reply_of granted.entry.reply))) }
    ensures plan { IfOk result (λ r. r.1 ≡ granted.entry.plan) }
{
    let Granted { reply, plan } = granted;
    let answer = match &reply {
        BorrowedReply::Done => Answer::Done,
        _ => {
            out.put_borrowed_reply(&reply)?;
            Answer::Written
        }
    };
    Ok((answer, plan))
}

// Where a header leads, and the answer to it.
fn open(alloc: Global, line: &[u8], out: &mut AnswerWriter) -> Result<(Stage, Answer), NoMemory>
    requires none { out.old.text ≡ [] }
    ensures before { out.new.before ≡ out.old.before }
    ensures opened { IfOk result (λ r. AnswersAt unopened line.now (phase_of r.0) (bytes_of r.1 out.new.text)) }
{
    match read_header(alloc, line) {
        Ok(opened) => {
            out.put_accepted(opened.core.rules().count())?;
            Ok((Stage::Running(opened), Answer::Written))
        }
        Err(fault) => Ok((Stage::Refused, say_header_fault(&fault, out)?)),
    }
}

fn say_header_fault(fault: &HeaderFault, out: &mut AnswerWriter) -> Result<Answer, NoMemory>
    requires none { out.old.text ≡ [] }
    ensures before { out.new.before ≡ out.old.before }
    ensures line { IfOk result (λ answer. bytes_of answer out.new.text ≡ as_line (header_fault_text fault.now)) }
{
    match fault {
        HeaderFault::Line(fault) => say_fault(*fault, out),
        HeaderFault::Rules(fault) => say_rules_fault(fault, out),
        HeaderFault::Data(fault) => say_fault(*fault, out),
        HeaderFault::BadTokens => {
            out.put_bad_tokens()?;
            Ok(Answer::Written)
        }
        HeaderFault::TreeFull => say_refusal(&Refusal::TreeFull, out),
    }
}

#[tactic(auto, using(crate::proofs::Fixed::no_memory_of_reply))]
fn say_refusal(refusal: &Refusal, out: &mut AnswerWriter) -> Result<Answer, NoMemory>
    requires none { out.old.text ≡ [] }
    ensures before { out.new.before ≡ out.old.before }
    ensures line { IfOk result (λ answer. bytes_of answer out.new.text ≡ as_line (text (replies.Refused refusal.now))) }
    ensures no_memory { refusal.now ≡ refusals.NoMemory → IsOk result }
{
    match refusal {
        Refusal::NoMemory => Ok(Answer::NoMemory),
        _ => {
            out.put_refusal(refusal)?;
            Ok(Answer::Written)
        }
    }
}

// The names of a denial are written from where they stand.
fn say_borrowed_refusal(
    refusal: &BorrowedRefusal<'_>,
    out: &mut AnswerWriter,
) -> Result<Answer, NoMemory>
    requires none { out.old.text ≡ [] }
    ensures before { out.new.before ≡ out.old.before }
    ensures line { IfOk result (λ answer. bytes_of answer out.new.text ≡ as_line (text (replies.Refused (refusal_of refusal.now)))) }
{
    match refusal {
        BorrowedRefusal::Other(refusal) => say_refusal(refusal, out),
        _ => {
            out.put_borrowed_refusal(refusal)?;
            Ok(Answer::Written)
        }
    }
}

fn say_fault(fault: MessageFault, out: &mut AnswerWriter) -> Result<Answer, NoMemory>
    requires none { out.old.text ≡ [] }
    ensures before { out.new.before ≡ out.old.before }
    ensures line { IfOk result (λ answer. bytes_of answer out.new.text ≡ as_line (fault_text fault)) }
    ensures no_memory { fault ≡ message_faults.NoMemory → IsOk result }
{
    match fault {
        MessageFault::NoMemory => Ok(Answer::NoMemory),
        _ => {
            out.put_fault(fault)?;
            Ok(Answer::Written)
        }
    }
}

fn say_line_fault(fault: &LineFault, out: &mut AnswerWriter) -> Result<Answer, NoMemory>
    requires none { out.old.text ≡ [] }
    ensures before { out.new.before ≡ out.old.before }
    ensures line { IfOk result (λ answer. bytes_of answer out.new.text ≡ as_line (line_fault_text fault.now)) }
{
    match fault {
        LineFault::Message(fault) => say_fault(*fault, out),
        LineFault::Rules(fault) => say_rules_fault(fault, out),
        LineFault::UnknownToken => {
            out.put_line_fault(fault)?;
            Ok(Answer::Written)
        }
    }
}

#[tactic(auto, using(crate::proofs::Fixed::no_memory_of_rules))]
fn say_rules_fault(fault: &RulesFault, out: &mut AnswerWriter) -> Result<Answer, NoMemory>
    requires none { out.old.text ≡ [] }
    ensures before { out.new.before ≡ out.old.before }
    ensures line { IfOk result (λ answer. bytes_of answer out.new.text ≡ as_line (rules_fault_text fault.now)) }
    ensures no_memory { fault.now ≡ rules_faults.NoMemory → IsOk result }
{
    match fault {
        RulesFault::NoMemory => Ok(Answer::NoMemory),
        _ => {
            out.put_rules_fault(fault)?;
            Ok(Answer::Written)
        }
    }
}

#[tactic(auto, using(crate::proofs::Fixed::done_is))]
fn done_line() -> &'static [u8]
    ensures { result.now ≡ as_line (text replies.Done) }
{
    b"{\"ok\":true}\n"
}

#[tactic(auto, using(crate::proofs::Fixed::no_memory_is))]
fn no_memory_line() -> &'static [u8]
    ensures { result.now ≡ as_line (fault_text message_faults.NoMemory) }
{
    b"{\"code\":601,\"name\":\"NoMemory\",\"ok\":false}\n"
}
