//! A script, request by request: what is refused is explained, and what is granted is done.
ghost use Rattle.std.specs.Prelude.{◌≡◌, ◌≤◌, IfOk};
ghost use Rattle.evaluator.specs.declared.env.TheConstants.{MAX_MOMENT};
ghost use Rattle.rtdb_model.specs.Filled.{IsFilled};

use crate::line::Options;
use crate::reasons::explained;
use bumpalo::Bump;
use explanation_texts::{Fate, Records};
use json_lines::{MessageFault, read_value};
use json_tree::NoMemory;
use requests::{Asked, Form, LineFault, MessageReader, Stamp, Wanted};
use rtdb_core::{BorrowedRefusal, Core, Event, Granted, Plan, Refusal};
use scripts::{HeaderFault, Opened, read_header};
use std::alloc::Global;

/// Explains each request of a script that the rules refuse, and those that they grant too where this is wanted. Blank
/// lines are passed over, and the first of the others is the header, without which there is nothing to explain.
pub(crate) fn explain_script(
    alloc: Global,
    script: &[u8],
    options: Options<'_>,
) -> Result<Option<Records>, NoMemory> {
    let mut replay: Option<Replay> = None;
    for line in script.split(|byte| *byte == b'\n') {
        if is_blank(line) {
            continue;
        }
        match &mut replay {
            Some(replay) => replay.take(line)?,
            None => match Replay::open(alloc, line, options)? {
                Some(opened) => replay = Some(opened),
                None => return Ok(None),
            },
        }
    }
    Ok(replay.map(|replay| replay.records))
}

fn is_blank(line: &[u8]) -> bool {
    line.iter()
        .all(|byte| matches!(*byte, b' ' | b'\t' | b'\r'))
}

// A script that is being explained.
#[derive(Drop)]
struct Replay {
    alloc: Global,
    reader: MessageReader,
    opened: Opened,
    records: Records,
}

impl Replay {
    // What a header opens, if it is accepted.
    fn open(alloc: Global, line: &[u8], options: Options<'_>) -> Result<Option<Replay>, NoMemory> {
        let opened = match read_header(alloc, line) {
            Ok(opened) => opened,
            Err(HeaderFault::Line(MessageFault::NoMemory)) => return Err(NoMemory),
            Err(_) => return Ok(None),
        };
        Ok(Some(Replay {
            alloc,
            reader: MessageReader::new(alloc),
            opened,
            records: Records::new(
                alloc,
                options.all,
                options.page.is_some(),
                rules_of_header(alloc, line)?,
            )?,
        }))
    }

    // Takes the next request.
    fn take(&mut self, line: &[u8]) -> Result<(), NoMemory> {
        match self
            .reader
            .read_asked(&self.opened.tokens, line, Form::Script)
        {
            Ok(asked) => self.judge(line, asked),
            Err(LineFault::Message(MessageFault::NoMemory)) => Err(NoMemory),
            Err(_) => {
                self.records.count(Fate::RefusedOtherwise);
                Ok(())
            }
        }
    }

    // Judges what is asked, explains it, and does it where it is granted.
    fn judge(&mut self, line: &[u8], asked: Asked) -> Result<(), NoMemory>
        requires { asked.stamp.now ≤ MAX_MOMENT }
    {
        let Asked { stamp, mut event } = asked;
        event.fill(stamp.now);
        let mut arena = Bump::new(self.alloc);
        let plan = match judged(&self.opened.core, &mut arena, stamp, &event) {
            Ok(plan) => plan,
            Err(fate) => return self.refuse(line, stamp, &event, fate),
        };
        self.records.count(Fate::Granted);
        if self.records.takes_granted() {
            explain(&self.opened.core, &mut self.records, line, stamp, &event)?;
        }
        let deploys = matches!(event, Event::Deploy(_));
        self.opened.core.commit(plan, event)?;
        if deploys {
            self.deploy(line)?;
        }
        Ok(())
    }

    // Takes a request that is refused, and explains it if the rules refuse it.
    fn refuse(
        &mut self,
        line: &[u8],
        stamp: Stamp,
        event: &Event,
        fate: Fate,
    ) -> Result<(), NoMemory>
        requires { stamp.now ≤ MAX_MOMENT }
    {
        self.records.count(fate);
        match fate {
            Fate::Refused => { explain(&self.opened.core, &mut self.records, line, stamp, event) }
            Fate::Granted | Fate::RefusedOtherwise => Ok(()),
        }
    }

    // Takes the rules that a request has deployed.
    fn deploy(&mut self, line: &[u8]) -> Result<(), NoMemory> {
        if let Ok(request) = self.reader.read_request(line, Form::Script) {
            if let Wanted::Deploy(text) = &request.wanted {
                self.records.deploy(text.as_str())?;
            }
        }
        Ok(())
    }
}

// Records the explanation of a request, in the state before it.
fn explain(
    core: &Core,
    records: &mut Records,
    line: &[u8],
    stamp: Stamp,
    event: &Event,
) -> Result<(), NoMemory>
    requires { stamp.now ≤ MAX_MOMENT }
{
    let arena = Bump::new(records.alloc());
    let found = explained(records.alloc(), &arena, core, stamp, event)?;
    match found {
        Some(explanation) => records.add(line, event, &explanation),
        None => Ok(()),
    }
}

// The plan for an event, or how it is refused.
fn judged<'a>(
    core: &Core,
    arena: &'a mut Bump,
    stamp: Stamp,
    event: &Event,
) -> Result<Plan<'a>, Fate>
    requires moment { stamp.now ≤ MAX_MOMENT }
    requires filled { IsFilled event.now }
    ensures before { IfOk result (λ plan. plan.before ≡ core.now) }
    ensures event { IfOk result (λ plan. plan.event ≡ event.now) }
{
    match core.judge(arena, stamp.now, stamp.session, event) {
        Ok(granted) => Ok(plan_of(granted)),
        Err(BorrowedRefusal::Other(refusal)) => Err(fate_of(&refusal)),
        Err(_) => Err(Fate::Refused),
    }
}

// How a request is refused: by the rules, or for another reason.
fn fate_of(refusal: &Refusal) -> Fate {
    match refusal {
        Refusal::ReadDenied(_) | Refusal::WriteDenied(_, _) | Refusal::ValidateDenied(_, _, _) =>
            Fate::Refused,
        _ => Fate::RefusedOtherwise,
    }
}

// The plan for what is granted.
fn plan_of<'a>(granted: Granted<'_, 'a>) -> Plan<'a>
    ensures { result ≡ granted.entry.plan }
{
    let Granted { plan, .. } = granted;
    plan
}

// The text of the rules of a header.
fn rules_of_header(alloc: Global, line: &[u8]) -> Result<String, NoMemory> {
    let Ok(header) = read_value(alloc, line) else {
        return Ok(String::new(alloc));
    };
    let text = header.get("rules").and_then(|rules| rules.as_str());
    Ok(String::from_str(alloc, text.unwrap_or(""))?)
}
