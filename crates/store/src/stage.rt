//! How far a replay has come, and what one entry more makes of it.
ghost use Rattle.std.specs.Prelude.{◌≡◌, ◌≢◌, ◌≤◌, false, if◌then◌else◌, string_bytes, IfOk, IfErr};
ghost use Rattle.evaluator.specs.declared.env.TheConstants.{MAX_MOMENT};
ghost use Rattle.serde_json.specs.View.{view};
ghost use Rattle.rules_reader.specs.File.{States};
ghost use Rattle.entries.specs.Entry.{meaning_of};
ghost use Rattle.rtdb_model.specs.declared.reply.Reply.{Reply as AnyReply};
ghost use Rattle.rtdb_laws.specs.Effects.{changes, is_effective};
ghost use Rattle.store.specs.Replay.{Follows, IsRuled, GoesOn, Begins, GoesOnFor, Waits, IsMade, opened, reading, text_behind};
ghost use Rattle.store.specs.Working.{stage_of, LeadsOn, IsTimely, IsBookOf, IsOpened, IsTreeOf, IsTreeBy, IsStepAgain, IsEffectOf};

use crate::fault::ReplayFault;
use bumpalo::Bump;
use entries::Entry;
use evaluator::Identity;
use json_tree::{Node, ValueFault, from_value};
use requests::Text;
use rtdb_core::{Core, Event, MAX_MOMENT, Ran, Refusal, Reply, Writes};
use rules_reader::{Rules, RulesFault, compile};
use serde_json::Value;
use std::alloc::Global;

/// How far a replay has come.
#[derive(Drop)]
pub(crate) enum Stage {
    /// Nothing was read.
    Empty,
    /// The text of the rules, and of the tree as far as its pieces go.
    Reading { rules: String, json: Vec<u8> },
    /// The database, and the text of the rules in force.
    Opened { rules: String, core: Core },
}

/// The stage behind one entry more.
pub(crate) fn next(
    alloc: Global,
    arena: &mut Bump,
    stage: Stage,
    entry: Entry<'_>,
) -> Result<Stage, ReplayFault>
    requires { IsTimely entry }
    ensures { LeadsOn (Follows (meaning_of entry.entry) (stage_of stage)) result }
{
    match entry {
        Entry::Rules(text) => ruled(alloc, stage, text),
        Entry::Tree(piece) => gone_on(stage, piece),
        Entry::Begin => begun(alloc, stage),
        Entry::Session {
            number,
            is_leaving,
            who,
        } => resumed(stage, number, is_leaving, who),
        Entry::Action { number, writes } => established(stage, number, writes),
        Entry::Call {
            now,
            session,
            event,
            rules,
        } => made(alloc, arena, stage, now, session, event, rules),
    }
}

fn ruled(alloc: Global, stage: Stage, text: &str) -> Result<Stage, ReplayFault>
    ensures { LeadsOn (IsRuled text.now (stage_of stage)) result }
{
    let Stage::Empty = stage else {
        return Err(ReplayFault::Unfit);
    };
    Ok(Stage::Reading {
        rules: String::from_str(alloc, text)?,
        json: Vec::new(alloc),
    })
}

fn gone_on(stage: Stage, piece: &[u8]) -> Result<Stage, ReplayFault>
    ensures { LeadsOn (GoesOn piece.now (stage_of stage)) result }
{
    let Stage::Reading { rules, json } = stage else {
        return Err(ReplayFault::Unfit);
    };
    let mut json = json;
    json.extend_from_slice(piece)?;
    Ok(Stage::Reading { rules, json })
}

fn begun(alloc: Global, stage: Stage) -> Result<Stage, ReplayFault>
    ensures { LeadsOn (Begins (stage_of stage)) result }
{
    let Stage::Reading { rules, json } = stage else {
        return Err(ReplayFault::Unfit);
    };
    match book_of(alloc, rules.as_str()) {
        Ok(book) => begun_by(alloc, rules, json.as_slice(), book),
        Err(fault) => Err(fault),
    }
}

// The same with these rules, which the text states.
fn begun_by(alloc: Global, rules: String, json: &[u8], book: Rules) -> Result<Stage, ReplayFault>
    requires { States (string_bytes rules) book }
    ensures { LeadsOn (Begins (reading (string_bytes rules) json.now)) result }
{
    match tree_of(alloc, json) {
        Ok(tree) => match Core::new(alloc, book, tree) {
            Ok(core) => Ok(Stage::Opened { rules, core }),
            Err(_) => Err(ReplayFault::Unfit),
        },
        Err(fault) => Err(fault),
    }
}

// The rules of a rules file.
fn book_of(alloc: Global, text: &str) -> Result<Rules, ReplayFault>
    ensures { IsBookOf text.now result }
{
    match compile(alloc, text.as_bytes()) {
        Ok(rules) => Ok(rules),
        Err(fault) => Err(fault_of_rules(&fault)),
    }
}

// Want of memory, or a text that states no rules.
fn fault_of_rules(fault: &RulesFault) -> ReplayFault
    ensures { result ≡ ReplayFault.Unfit → fault.now ≢ RulesFault.NoMemory }
{
    match fault {
        RulesFault::NoMemory => ReplayFault::NoMemory,
        RulesFault::BadRulesJson
        | RulesFault::BadRulesShape(_)
        | RulesFault::TooManyRules
        | RulesFault::BadRule(_, _) => ReplayFault::Unfit,
    }
}

// The tree of a JSON text, None for null. How many locations it has is not looked at.
fn tree_of(alloc: Global, json: &[u8]) -> Result<Option<Node>, ReplayFault>
    ensures { IsTreeOf json.now result }
{
    match Value::from_slice(alloc, json) {
        Ok(value) => tree_of_value(alloc, value),
        Err(fault) => if fault.is_memory() {
            Err(ReplayFault::NoMemory)
        } else {
            Err(ReplayFault::Unfit)
        },
    }
}

fn tree_of_value(alloc: Global, value: Value) -> Result<Option<Node>, ReplayFault>
    ensures { IsTreeBy (view value) result }
{
    match from_value(alloc, value) {
        Ok(tree) => Ok(tree),
        Err(ValueFault::NoMemory) => Err(ReplayFault::NoMemory),
        Err(ValueFault::BadValue | ValueFault::TooDeep) => Err(ReplayFault::Unfit),
    }
}

// The database, and the text of its rules.
fn in_opened(stage: Stage) -> Result<(String, Core), ReplayFault>
    ensures { IsOpened (stage_of stage) result }
{
    match stage {
        Stage::Opened { rules, core } => Ok((rules, core)),
        Stage::Empty | Stage::Reading { .. } => Err(ReplayFault::Unfit),
    }
}

fn resumed(
    stage: Stage,
    number: u64,
    is_leaving: bool,
    who: Option<Identity>,
) -> Result<Stage, ReplayFault>
    ensures { LeadsOn (GoesOnFor number is_leaving who (stage_of stage)) result }
{
    let Stage::Opened { rules, core } = stage else {
        return Err(ReplayFault::Unfit);
    };
    let mut core = core;
    core.resume(number, who, is_leaving)?;
    Ok(Stage::Opened { rules, core })
}

fn established(stage: Stage, number: u64, writes: Writes) -> Result<Stage, ReplayFault>
    ensures { LeadsOn (Waits number writes (stage_of stage)) result }
{
    let Stage::Opened { rules, core } = stage else {
        return Err(ReplayFault::Unfit);
    };
    let mut core = core;
    core.establish(number, writes)?;
    Ok(Stage::Opened { rules, core })
}

fn made(
    alloc: Global,
    arena: &mut Bump,
    stage: Stage,
    now: u64,
    session: u64,
    event: Event,
    deployed: Option<Text>,
) -> Result<Stage, ReplayFault>
    requires { now ≤ MAX_MOMENT }
    ensures { LeadsOn (IsMade (record { now = now; session = session; event = event }) deployed (stage_of stage)) result }
{
    match in_opened(stage) {
        Ok((rules, core)) => made_in(alloc, arena, rules, core, now, session, event, deployed),
        Err(fault) => Err(fault),
    }
}

// The same in a database whose rules have this text.
fn made_in(
    alloc: Global,
    arena: &mut Bump,
    rules: String,
    core: Core,
    now: u64,
    session: u64,
    event: Event,
    deployed: Option<Text>,
) -> Result<Stage, ReplayFault>
    requires { now ≤ MAX_MOMENT }
    ensures { LeadsOn (IsMade (record { now = now; session = session; event = event }) deployed (opened (string_bytes rules) core)) result }
{
    let mut core = core;
    match step_again(arena, &mut core, now, session, event) {
        Ok(()) => with_text(alloc, rules, core, deployed),
        Err(fault) => Err(fault),
    }
}

// The database, with the text of the rules in force behind a call.
fn with_text(
    alloc: Global,
    rules: String,
    core: Core,
    deployed: Option<Text>,
) -> Result<Stage, ReplayFault>
    ensures text { IfOk result (λ after. stage_of after ≡ opened (text_behind (string_bytes rules) deployed) core) }
    ensures memory { IfErr result (λ fault. fault ≡ ReplayFault.NoMemory) }
{
    match deployed {
        Some(text) => Ok(Stage::Opened {
            rules: String::from_str(alloc, text.as_str())?,
            core,
        }),
        None => Ok(Stage::Opened { rules, core }),
    }
}

// Makes a call once more, which has to change something.
fn step_again(
    arena: &mut Bump,
    core: &mut Core,
    now: u64,
    session: u64,
    event: Event,
) -> Result<(), ReplayFault>
    requires { now ≤ MAX_MOMENT }
    ensures { IsStepAgain core.old now session event core.new result }
{
    let changes_none = changes_none(&event);
    let reply = core.step(arena, now, session, event);
    if changes_none {
        return Err(ReplayFault::Unfit);
    }
    effect_of(&reply)
}

// Whether an event never changes more than listeners.
fn changes_none(event: &Event) -> bool
    ensures { (reply : AnyReply) → changes event.now reply ≡ if result then false else is_effective reply }
{
    match event {
        Event::Unlisten(_) | Event::Tick => true,
        Event::Open
        | Event::Close
        | Event::SignIn(_)
        | Event::SignOut
        | Event::Get(_, _)
        | Event::Set(_)
        | Event::Remove(_)
        | Event::Update(_)
        | Event::Listen(_, _, _)
        | Event::Poll
        | Event::Deploy(_)
        | Event::OnSet(_)
        | Event::OnRemove(_)
        | Event::OnUpdate(_)
        | Event::OnCancel(_)
        | Event::Leave
        | Event::RunNext => false,
    }
}

// Whether a reply is to an event that may have changed something.
fn effect_of(reply: &Reply) -> Result<(), ReplayFault>
    ensures { IsEffectOf reply.now result }
{
    match reply {
        Reply::Done | Reply::Closed(_) => Ok(()),
        Reply::Ran(Ran::Applied | Ran::Skipped(_)) => Ok(()),
        Reply::Refused(Refusal::NoMemory) => Err(ReplayFault::NoMemory),
        Reply::Value(_) | Reply::News(_) | Reply::Refused(_) | Reply::Ran(Ran::Empty) => {
            Err(ReplayFault::Unfit)
        }
    }
}
