//! Answers: the texts of replies and faults, compact JSON with the members in the order of their
//! names, and no line feed.
ghost use Rattle.std.specs.Prelude.{◌≡◌, ◌++◌, [], option_map, IfOk, OnOk};
ghost use Rattle.serde_json.specs.View.{view};
ghost use Rattle.rtdb_model.specs.Borrowed.{reply_of, ran_of, refusal_of};
ghost use Rattle.answers.specs.AnswerText.{text, fault_text, rules_fault_text, bad_tokens_text, unknown_token_text, line_fault_text, accepted_text, message_code, plain_data, placed_data, accepted_data, rule_data, byte_data, what_data, rule_fault_data, rules_fault_data};

use crate::answer_writer::AnswerWriter;
use crate::code::Code;
use arena_snapshot::View;
use json_lines::MessageFault;
use json_tree::{NoMemory, Node};
use requests::LineFault;
use rtdb_model::{BorrowedRan, BorrowedRefusal, BorrowedReply, Ran, Refusal, Reply};
use rules_reader::{RuleFault, RuleName, RulesFault};
use serde_json::{Value, json};
use std::alloc::Global;

// What stands before the refusal of an action that was skipped.
const SKIPPED: &[u8] = b"{\"ok\":true,\"ran\":\"skipped\",\"why\":";

/// The text of a reply, in one pass over what it has.
pub fn write_reply(alloc: Global, reply: &Reply) -> Result<Vec<u8>, NoMemory>
    ensures { IfOk result (λ bytes. bytes.items ≡ text reply.now) }
{
    let mut out = AnswerWriter::new(alloc);
    out.put_reply(reply)?;
    Ok(out.end())
}

/// The text of a fault of a message.
pub fn write_fault(alloc: Global, fault: MessageFault) -> Result<Vec<u8>, NoMemory>
    ensures { IfOk result (λ bytes. bytes.items ≡ fault_text fault) }
{
    let mut out = AnswerWriter::new(alloc);
    out.put_fault(fault)?;
    Ok(out.end())
}

/// The text of a fault of a rules file.
#[tactic(auto, unfolding(crate::specs::AnswerText::rules_fault_text), using(crate::proofs::Texts::text_of_view, crate::proofs::Texts::rules_fault_is_no_float))]
pub fn write_rules_fault(alloc: Global, fault: &RulesFault) -> Result<Vec<u8>, NoMemory>
    ensures { IfOk result (λ bytes. bytes.items ≡ rules_fault_text fault.now) }
{
    let value = value_of_rules_fault(alloc, fault)?;
    Ok(value.to_vec(alloc)?)
}

/// The text of the answer to a header that is accepted, with so many rules.
#[tactic(auto, unfolding(crate::specs::AnswerText::accepted_text), using(crate::proofs::Texts::text_of_view))]
pub fn write_accepted(alloc: Global, count: usize) -> Result<Vec<u8>, NoMemory>
    ensures { IfOk result (λ bytes. bytes.items ≡ accepted_text count) }
{
    let value = accepted(alloc, count as u64)?;
    Ok(value.to_vec(alloc)?)
}

impl AnswerWriter {
    /// Writes the text of a reply, in one pass over what it has.
    pub fn put_reply(&mut self, reply: &Reply) -> Result<(), NoMemory>
        ensures before { self.new.before ≡ self.old.before }
        ensures text { OnOk result (self.new.text ≡ self.old.text ++ text reply.now) }
    {
        match reply {
            Reply::Done => self.put_done(),
            Reply::Value(tree) => self.put_value(tree.as_ref()),
            Reply::News(news) => self.put_news(news),
            Reply::Refused(refusal) => self.put_refusal(refusal),
            Reply::Ran(ran) => self.put_ran(ran),
            Reply::Closed(left) => self.put_closed(*left),
        }
    }

    fn put_done(&mut self) -> Result<(), NoMemory>
        ensures before { self.new.before ≡ self.old.before }
        ensures text { OnOk result (self.new.text ≡ self.old.text ++ text Reply.Done) }
    {
        self.piece(b"{\"ok\":true}")
    }

    fn put_value(&mut self, tree: Option<&Node>) -> Result<(), NoMemory>
        ensures before { self.new.before ≡ self.old.before }
        ensures text { OnOk result (self.new.text ≡ self.old.text ++ text (Reply.Value (option_map (λ node. node.now) tree.entry))) }
    {
        self.piece(b"{\"ok\":true,\"value\":")?;
        self.tree(tree)?;
        self.piece(b"}")
    }

    /// Writes the text of a reply that is borrowed, in one pass over what it has, with no copy of a tree.
    pub fn put_borrowed_reply(&mut self, reply: &BorrowedReply<'_>) -> Result<(), NoMemory>
        ensures before { self.new.before ≡ self.old.before }
        ensures text { OnOk result (self.new.text ≡ self.old.text ++ text (reply_of reply.now)) }
    {
        match reply {
            BorrowedReply::Done => self.put_done(),
            BorrowedReply::Value(view) => self.put_view(view.as_ref()),
            BorrowedReply::News(tidings) => self.put_tidings(tidings),
            BorrowedReply::Ran(ran) => self.put_borrowed_ran(ran),
            BorrowedReply::Closed(left) => self.put_closed(*left),
        }
    }

    fn put_ran(&mut self, ran: &Ran) -> Result<(), NoMemory>
        ensures before { self.new.before ≡ self.old.before }
        ensures text { OnOk result (self.new.text ≡ self.old.text ++ text (Reply.Ran ran.now)) }
    {
        match ran {
            Ran::Empty => self.put_empty(),
            Ran::Applied => self.put_applied(),
            Ran::Skipped(refusal) => self.put_skipped(refusal),
        }
    }

    fn put_borrowed_ran(&mut self, ran: &BorrowedRan<'_>) -> Result<(), NoMemory>
        ensures before { self.new.before ≡ self.old.before }
        ensures text { OnOk result (self.new.text ≡ self.old.text ++ text (Reply.Ran (ran_of ran.now))) }
    {
        match ran {
            BorrowedRan::Empty => self.put_empty(),
            BorrowedRan::Applied => self.put_applied(),
            BorrowedRan::Skipped(refusal) => self.put_borrowed_skipped(refusal),
        }
    }

    fn put_empty(&mut self) -> Result<(), NoMemory>
        ensures before { self.new.before ≡ self.old.before }
        ensures text { OnOk result (self.new.text ≡ self.old.text ++ text (Reply.Ran Ran.Empty)) }
    {
        self.piece(b"{\"ok\":true,\"ran\":\"empty\"}")
    }

    fn put_applied(&mut self) -> Result<(), NoMemory>
        ensures before { self.new.before ≡ self.old.before }
        ensures text { OnOk result (self.new.text ≡ self.old.text ++ text (Reply.Ran Ran.Applied)) }
    {
        self.piece(b"{\"ok\":true,\"ran\":\"applied\"}")
    }

    fn put_skipped(&mut self, refusal: &Refusal) -> Result<(), NoMemory>
        ensures before { self.new.before ≡ self.old.before }
        ensures text { OnOk result (self.new.text ≡ self.old.text ++ text (Reply.Ran (Ran.Skipped refusal.now))) }
    {
        self.piece(SKIPPED)?;
        self.put_refusal(refusal)?;
        self.piece(b"}")
    }

    fn put_borrowed_skipped(&mut self, refusal: &BorrowedRefusal<'_>) -> Result<(), NoMemory>
        ensures before { self.new.before ≡ self.old.before }
        ensures text { OnOk result (self.new.text ≡ self.old.text ++ text (Reply.Ran (Ran.Skipped (refusal_of refusal.now)))) }
    {
        self.piece(SKIPPED)?;
        self.put_borrowed_refusal(refusal)?;
        self.piece(b"}")
    }

    #[tactic(auto, unfolding(crate::specs::AnswerText::text))]
    fn put_closed(&mut self, left: usize) -> Result<(), NoMemory>
        ensures before { self.new.before ≡ self.old.before }
        ensures text { OnOk result (self.new.text ≡ self.old.text ++ text (Reply.Closed left)) }
    {
        self.closed(left as u64)
    }

    fn put_view(&mut self, view: Option<&View>) -> Result<(), NoMemory>
        ensures before { self.new.before ≡ self.old.before }
        ensures text { OnOk result (self.new.text ≡ self.old.text ++ text (Reply.Value (option_map (λ view. view.now) view.entry))) }
    {
        self.piece(b"{\"ok\":true,\"value\":")?;
        self.view(view)?;
        self.piece(b"}")
    }

    /// Writes the text of a refusal that is borrowed, in one pass over what it names, with no copy of a pattern. It
    /// takes memory for the text of a place.
    #[tactic(auto, unfolding(crate::specs::AnswerText::text))]
    pub fn put_borrowed_refusal(&mut self, refusal: &BorrowedRefusal<'_>) -> Result<(), NoMemory>
        ensures before { self.new.before ≡ self.old.before }
        ensures text { OnOk result (self.new.text ≡ self.old.text ++ text (Reply.Refused (refusal_of refusal.now))) }
    {
        match refusal {
            BorrowedRefusal::ReadDenied(names) => self.put_read_denied(names),
            BorrowedRefusal::WriteDenied(at, names) => self.put_write_denied(at, names),
            BorrowedRefusal::Other(refusal) => self.refusal(refusal),
        }
    }

    /// Writes the text of a refusal, in one pass over what it names.
    #[tactic(auto, unfolding(crate::specs::AnswerText::text))]
    pub fn put_refusal(&mut self, refusal: &Refusal) -> Result<(), NoMemory>
        ensures before { self.new.before ≡ self.old.before }
        ensures text { OnOk result (self.new.text ≡ self.old.text ++ text (Reply.Refused refusal.now)) }
    {
        self.refusal(refusal)
    }

    /// Writes the text for a message that asks nothing of the database.
    #[tactic(auto, unfolding(crate::specs::AnswerText::unknown_token_text))]
    pub fn put_line_fault(&mut self, fault: &LineFault) -> Result<(), NoMemory>
        ensures before { self.new.before ≡ self.old.before }
        ensures text { OnOk result (self.new.text ≡ self.old.text ++ line_fault_text fault.now) }
    {
        match fault {
            LineFault::Message(fault) => self.put_fault(*fault),
            LineFault::UnknownToken => self.plain(Code::UnknownToken),
            LineFault::Rules(fault) => self.put_rules_fault(fault),
        }
    }

    /// Writes the text of a fault of a message.
    #[tactic(auto, unfolding(crate::specs::AnswerText::fault_text))]
    pub fn put_fault(&mut self, fault: MessageFault) -> Result<(), NoMemory>
        ensures before { self.new.before ≡ self.old.before }
        ensures text { OnOk result (self.new.text ≡ self.old.text ++ fault_text fault) }
    {
        self.plain(code_of_message(fault))
    }

    /// Writes the text of a fault of a rules file, which is made first.
    pub fn put_rules_fault(&mut self, fault: &RulesFault) -> Result<(), NoMemory>
        ensures before { self.new.before ≡ self.old.before }
        ensures text { OnOk result (self.new.text ≡ self.old.text ++ rules_fault_text fault.now) }
    {
        let text = write_rules_fault(self.alloc(), fault)?;
        self.piece(&text)
    }

    /// Writes the text for tokens that are invalid.
    #[tactic(auto, unfolding(crate::specs::AnswerText::bad_tokens_text))]
    pub fn put_bad_tokens(&mut self) -> Result<(), NoMemory>
        ensures before { self.new.before ≡ self.old.before }
        ensures text { OnOk result (self.new.text ≡ self.old.text ++ bad_tokens_text) }
    {
        self.plain(Code::BadTokens)
    }

    /// Writes the text of the answer to a header that is accepted, with so many rules; it is made first.
    pub fn put_accepted(&mut self, count: usize) -> Result<(), NoMemory>
        ensures before { self.new.before ≡ self.old.before }
        ensures text { OnOk result (self.new.text ≡ self.old.text ++ accepted_text count) }
    {
        let text = write_accepted(self.alloc(), count)?;
        self.piece(&text)
    }
}

fn accepted(alloc: Global, count: u64) -> Result<Value, NoMemory>
    ensures { IfOk result (λ value. view value ≡ accepted_data count) }
{
    Ok(json!(in alloc; {"ok": true, "rules": count})?)
}

fn code_of_message(fault: MessageFault) -> Code
    ensures { result ≡ message_code fault }
{
    match fault {
        MessageFault::TooLarge => Code::TooLarge,
        MessageFault::BadJson => Code::BadJson,
        MessageFault::BadRequest => Code::BadRequest,
        MessageFault::BadPath => Code::BadPath,
        MessageFault::BadValue => Code::BadValue,
        MessageFault::TooDeep => Code::TooDeep,
        MessageFault::BadQuery => Code::BadQuery,
        MessageFault::NoMemory => Code::NoMemory,
    }
}

fn value_of_rules_fault(alloc: Global, fault: &RulesFault) -> Result<Value, NoMemory>
    ensures { IfOk result (λ value. view value ≡ rules_fault_data fault.now) }
{
    match fault {
        RulesFault::BadRulesJson => plain(alloc, Code::BadRulesJson),
        RulesFault::BadRulesShape(pattern) => {
            let place = pattern.print()?;
            placed(alloc, Code::BadRulesShape, place.as_str())
        }
        RulesFault::TooManyRules => plain(alloc, Code::TooManyRules),
        RulesFault::BadRule(rule, fault) => value_of_rule_fault(alloc, rule, fault),
        RulesFault::NoMemory => plain(alloc, Code::NoMemory),
    }
}

fn value_of_rule_fault(alloc: Global, rule: &RuleName, fault: &RuleFault) -> Result<Value, NoMemory>
    ensures { IfOk result (λ value. view value ≡ rule_fault_data rule.now fault.now) }
{
    match fault {
        RuleFault::BadExpression { byte } => {
            with_byte(alloc, rule, Code::BadExpression, *byte as u64)
        }
        RuleFault::NotInProfile(left_out) => {
            with_name(alloc, rule, Code::NotInProfile, left_out.name())
        }
        RuleFault::TypeError => with_rule(alloc, rule, Code::TypeError),
        RuleFault::UnknownName(name) => with_name(alloc, rule, Code::UnknownName, name.as_str()),
    }
}

// A refusal for a rule.
fn with_rule(alloc: Global, rule: &RuleName, code: Code) -> Result<Value, NoMemory>
    ensures { IfOk result (λ value. view value ≡ rule_data rule.now code) }
{
    let at = rule.pattern.print()?;
    Ok(json!(in alloc; {
        "at": at.as_str(),
        "code": code.number(),
        "name": code.name(),
        "ok": false,
        "rule": rule.kind.name(),
    })?)
}

// A refusal for a byte of a rule's text.
fn with_byte(alloc: Global, rule: &RuleName, code: Code, byte: u64) -> Result<Value, NoMemory>
    ensures { IfOk result (λ value. view value ≡ byte_data rule.now code byte) }
{
    let at = rule.pattern.print()?;
    Ok(json!(in alloc; {
        "at": at.as_str(),
        "byte": byte,
        "code": code.number(),
        "name": code.name(),
        "ok": false,
        "rule": rule.kind.name(),
    })?)
}

// A refusal for a name in a rule.
fn with_name(alloc: Global, rule: &RuleName, code: Code, what: &str) -> Result<Value, NoMemory>
    ensures { IfOk result (λ value. view value ≡ what_data rule.now code what.now) }
{
    let at = rule.pattern.print()?;
    Ok(json!(in alloc; {
        "at": at.as_str(),
        "code": code.number(),
        "name": code.name(),
        "ok": false,
        "rule": rule.kind.name(),
        "what": what,
    })?)
}

// A refusal with no further member.
fn plain(alloc: Global, code: Code) -> Result<Value, NoMemory>
    ensures { IfOk result (λ value. view value ≡ plain_data code) }
{
    Ok(json!(in alloc; {"code": code.number(), "name": code.name(), "ok": false})?)
}

// A refusal with a place.
fn placed(alloc: Global, code: Code, place: &str) -> Result<Value, NoMemory>
    ensures { IfOk result (λ value. view value ≡ placed_data code place.now) }
{
    Ok(json!(in alloc; {"at": place, "code": code.number(), "name": code.name(), "ok": false})?)
}
