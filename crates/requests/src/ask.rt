//! What a message asks of the database: the event that it comes to.
ghost use Rattle.std.specs.Prelude.{◌≡◌, ◌<◌, ◌≤◌, length, IfOk, IsErrOf};
ghost use Rattle.tokens.specs.Tokens.{Tokens as Secrets};
ghost use Rattle.requests.specs.Ask.{IsAsked};
ghost use Rattle.requests.specs.Message.{IsWithin};
ghost use Rattle.requests.specs.Working.Asking.{IsComing};
ghost use Rattle.json_lines.specs.declared.limits.TheConstants.{MAX_MESSAGE_BYTES};
ghost use Rattle.requests.specs.declared.ask.LineFault.TheVariants.{Message as of_message, Rules as of_rules};

use crate::message::{Form, Stamp, Wanted};
use crate::reader::MessageReader;
use json_lines::MessageFault;
use json_tree::NoMemory;
use rtdb_model::{Event, MAX_MOMENT};
use rules_reader::{RulesFault, compile};
use std::alloc::Global;
use tokens::Tokens;

/// An event, with who asks for it and when.
#[derive(Drop)]
pub struct Asked {
    pub stamp: Stamp,
    pub event: Event,
}

/// Why a message asks nothing of the database.
#[derive(Debug, Drop)]
pub enum LineFault {
    /// It has this fault.
    Message(MessageFault),
    /// Nobody signs in by its secret.
    UnknownToken,
    /// The rules file that it would deploy has this fault.
    Rules(RulesFault),
}

impl From<MessageFault> for LineFault {
    ghost from_gives = { λ fault line. line ≡ of_message fault };

    fn from(fault: MessageFault) -> LineFault {
        LineFault::Message(fault)
    }
}

impl From<RulesFault> for LineFault {
    ghost from_gives = { λ fault line. line ≡ of_rules fault };

    fn from(fault: RulesFault) -> LineFault {
        LineFault::Rules(fault)
    }
}

/// What a message asks of the database where these are the tokens, or why it asks nothing. Whoever reads
/// several keeps a [`MessageReader`], and has the same answers.
pub fn read_asked(
    alloc: Global,
    tokens: &Tokens,
    bytes: &[u8],
    form: Form,
) -> Result<Asked, LineFault>
    ensures asked { IsAsked tokens.now form bytes.now result }
    ensures moment { IfOk result (λ asked. IsWithin form → asked.stamp.now ≤ MAX_MOMENT) }
    ensures too_large { MAX_MESSAGE_BYTES < length bytes.now → IsErrOf result (LineFault.Message MessageFault.TooLarge) }
{
    MessageReader::new(alloc).read_asked(tokens, bytes, form)
}

impl MessageReader {
    /// What a message asks of the database where these are the tokens, or why it asks nothing. It costs
    /// what [`MessageReader::read_request`] does, and to sign in a look-up among the secrets and a copy of
    /// the identity, to deploy what [`compile`] does.
    pub fn read_asked(
        &mut self,
        tokens: &Tokens,
        bytes: &[u8],
        form: Form,
    ) -> Result<Asked, LineFault>
        ensures asked { IsAsked tokens.now form bytes.now result }
        ensures moment { IfOk result (λ asked. IsWithin form → asked.stamp.now ≤ MAX_MOMENT) }
        ensures too_large { MAX_MESSAGE_BYTES < length bytes.now → IsErrOf result (LineFault.Message MessageFault.TooLarge) }
    {
        let request = self.read_request(bytes, form)?;
        let stamp = request.stamp;
        let event = event_of(self.alloc(), tokens, request.wanted)?;
        Ok(Asked { stamp, event })
    }
}

// The event that what is wanted comes to.
fn event_of(alloc: Global, tokens: &Tokens, wanted: Wanted) -> Result<Event, LineFault>
    ensures { IsComing tokens.now wanted result }
{
    match wanted {
        Wanted::Step(event) => Ok(event),
        Wanted::SignIn(secret) => sign_in(alloc, tokens, secret.as_str()),
        Wanted::Deploy(text) => deploy(alloc, text.as_str()),
    }
}

fn sign_in(alloc: Global, tokens: &Tokens, secret: &str) -> Result<Event, LineFault>
    ensures { IsComing tokens.now (Wanted.SignIn secret.now) result }
{
    let Some(who) = tokens.find(secret) else {
        return Err(LineFault::UnknownToken);
    };
    match who.copy(alloc) {
        Ok(copy) => Ok(Event::SignIn(copy)),
        Err(NoMemory) => Err(LineFault::Message(MessageFault::NoMemory)),
    }
}

fn deploy(alloc: Global, text: &str) -> Result<Event, LineFault>
    ensures { (tokens : Secrets) → IsComing tokens (Wanted.Deploy text.now) result }
{
    let rules = compile(alloc, text.as_bytes())?;
    // No object of theirs has two captures.
    rules.root();
    Ok(Event::Deploy(rules))
}
