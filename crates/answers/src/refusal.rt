//! The texts of refusals: no value of them is made, and denials are written piece by piece.
ghost use Rattle.std.specs.Prelude.{◌≡◌, ◌++◌, map, codes, true, false, OnOk};
ghost use Rattle.json.specs.Print.{quoted};
ghost use Rattle.json.specs.Tree.{json_tokens};
ghost use Rattle.serde_json.specs.Written.{outline, compact_text, items_text, members_text};
ghost use Rattle.answers.specs.AnswerText.{text, plain_data, named_data, items_of, read_denied_data, write_denied_data, validate_denied_data, refusal_data};
ghost use Rattle.answers.specs.Working.Writing.{named_rule_data, why_members};

use crate::answer_writer::AnswerWriter;
use crate::code::Code;
use json::Writer;
use json_tree::NoMemory;
use path_capture::{Path, Pattern};
use rtdb_model::{BorrowedName, BorrowedNames, Named, Refusal, Reply, Why};

// A denied read, up to its rules.
const READ_DENIED: &[u8] = b"{\"code\":501,\"name\":\"ReadDenied\",\"ok\":false,\"rules\":[";

// A denied write, from behind its place up to its rules.
const WRITE_DENIED: &[u8] = b",\"code\":502,\"name\":\"WriteDenied\",\"ok\":false,\"rules\":[";

// For how many bytes the text of a pattern has room at first.
const PATTERN_ROOM: usize = 128;

/// Writes a refusal with no further member.
pub(crate) fn put_plain(out: &mut Writer, code: Code) -> Result<(), NoMemory>
    ensures before { out.new.before ≡ out.old.before }
    ensures tokens { OnOk result (out.new.tokens ≡ out.old.tokens ++ json_tokens (outline (plain_data code))) }
{
    out.begin_object()?;
    out.key("code")?;
    out.u64(code.number())?;
    out.key("name")?;
    out.string(code.name())?;
    out.key("ok")?;
    out.boolean(false)?;
    Ok(out.end_object()?)
}

impl AnswerWriter {
    /// Writes a refusal of the database. It takes memory for the text of a place, and once for those of all patterns.
    pub(crate) fn refusal(&mut self, refusal: &Refusal) -> Result<(), NoMemory>
        ensures before { self.new.before ≡ self.old.before }
        ensures text { OnOk result (self.new.text ≡ self.old.text ++ compact_text (refusal_data refusal.now)) }
    {
        match refusal {
            Refusal::SessionOpen => self.plain(Code::SessionOpen),
            Refusal::TooManySessions => self.plain(Code::TooManySessions),
            Refusal::NoSession => self.plain(Code::NoSession),
            Refusal::NotAdmin => self.plain(Code::NotAdmin),
            Refusal::EmptyUpdate => self.plain(Code::EmptyUpdate),
            Refusal::Overlap => self.plain(Code::Overlap),
            Refusal::DuplicateId => self.plain(Code::DuplicateId),
            Refusal::TooManyListeners => self.plain(Code::TooManyListeners),
            Refusal::NoListener => self.plain(Code::NoListener),
            Refusal::Leaving => self.plain(Code::Leaving),
            Refusal::TooManyActions => self.plain(Code::TooManyActions),
            Refusal::NotLeaving => self.plain(Code::NotLeaving),
            Refusal::ReadDenied(named) => self.read_denied(named.as_slice()),
            Refusal::WriteDenied(at, named) => self.write_denied(at, named.as_slice()),
            Refusal::ValidateDenied(at, pattern, why) => self.validate_denied(at, pattern, *why),
            Refusal::TreeFull => self.plain(Code::TreeFull),
            Refusal::NoMemory => self.plain(Code::NoMemory),
            Refusal::Spent => self.plain(Code::Spent),
        }
    }

    fn read_denied(&mut self, named: &[Named]) -> Result<(), NoMemory>
        ensures before { self.new.before ≡ self.old.before }
        ensures text { OnOk result (self.new.text ≡ self.old.text ++ compact_text (read_denied_data named.now)) }
    {
        self.piece(READ_DENIED)?;
        self.rules(named)?;
        self.piece(b"]}")
    }

    fn write_denied(&mut self, at: &Path, named: &[Named]) -> Result<(), NoMemory>
        ensures before { self.new.before ≡ self.old.before }
        ensures text { OnOk result (self.new.text ≡ self.old.text ++ compact_text (write_denied_data at.now named.now)) }
    {
        let place = at.print(self.alloc())?;
        self.at(place.as_str())?;
        self.piece(WRITE_DENIED)?;
        self.rules(named)?;
        self.piece(b"]}")
    }

    /// Writes the text of the reply to a read that is denied with these names, with no copy of a pattern.
    #[tactic(auto, unfolding(crate::specs::AnswerText::text))]
    pub(crate) fn put_read_denied(&mut self, names: &BorrowedNames<'_>) -> Result<(), NoMemory>
        ensures before { self.new.before ≡ self.old.before }
        ensures text { OnOk result (self.new.text ≡ self.old.text ++ text (Reply.Refused (Refusal.ReadDenied names.now))) }
    {
        self.piece(READ_DENIED)?;
        self.borrowed_rules(names.as_slice())?;
        self.piece(b"]}")
    }

    /// Writes the text of the reply to a write at this location that is denied with these names, with no copy of a
    /// pattern. It takes memory for the text of the location.
    #[tactic(auto, unfolding(crate::specs::AnswerText::text))]
    pub(crate) fn put_write_denied(
        &mut self,
        at: &Path,
        names: &BorrowedNames<'_>,
    ) -> Result<(), NoMemory>
        ensures before { self.new.before ≡ self.old.before }
        ensures text { OnOk result (self.new.text ≡ self.old.text ++ text (Reply.Refused (Refusal.WriteDenied at.now names.now))) }
    {
        let place = at.print(self.alloc())?;
        self.at(place.as_str())?;
        self.piece(WRITE_DENIED)?;
        self.borrowed_rules(names.as_slice())?;
        self.piece(b"]}")
    }

    fn validate_denied(&mut self, at: &Path, pattern: &Pattern, why: Why) -> Result<(), NoMemory>
        ensures before { self.new.before ≡ self.old.before }
        ensures text { OnOk result (self.new.text ≡ self.old.text ++ compact_text (validate_denied_data at.now pattern.now why)) }
    {
        let place = at.print(self.alloc())?;
        let pattern = pattern.print()?;
        self.at(place.as_str())?;
        self.piece(b",\"code\":503,\"name\":\"ValidateDenied\",\"ok\":false,\"pattern\":")?;
        self.string(pattern.as_str())?;
        self.why(why)
    }

    // Begins a refusal with its place.
    fn at(&mut self, place: &str) -> Result<(), NoMemory>
        ensures before { self.new.before ≡ self.old.before }
        ensures text { OnOk result (self.new.text ≡ self.old.text ++ (codes "{\"at\":" ++ quoted place.now)) }
    {
        self.piece(b"{\"at\":")?;
        self.string(place)
    }

    // Writes rules that are named with commas between, each pattern in place of the one before.
    fn rules(&mut self, named: &[Named]) -> Result<(), NoMemory>
        ensures before { self.new.before ≡ self.old.before }
        ensures told { OnOk result (self.new.text ++ codes "]" ≡ self.old.text ++ items_text false (items_of (map named_data named.now))) }
    {
        let mut pattern = String::with_capacity(self.alloc(), PATTERN_ROOM)?;
        for (index, rule) in named.iter().enumerate() {
            pattern.clear();
            rule.pattern.append_to(&mut pattern)?;
            self.comma(index > 0)?;
            self.rule(pattern.as_str(), rule.why)?;
        }
        Ok(())
    }

    // The same of rules that are borrowed, whose patterns have their texts.
    fn borrowed_rules(&mut self, names: &[BorrowedName<'_>]) -> Result<(), NoMemory>
        ensures before { self.new.before ≡ self.old.before }
        ensures told { OnOk result (self.new.text ++ codes "]" ≡ self.old.text ++ items_text false (items_of (map named_data names.now))) }
    {
        for (place, name) in names.iter().enumerate() {
            self.comma(place > 0)?;
            self.rule(name.pattern_text(), name.why())?;
        }
        Ok(())
    }

    // Writes a rule that is named, by the text of its pattern.
    fn rule(&mut self, pattern: &str, why: Why) -> Result<(), NoMemory>
        ensures before { self.new.before ≡ self.old.before }
        ensures text { OnOk result (self.new.text ≡ self.old.text ++ compact_text (named_rule_data pattern.now why)) }
    {
        self.piece(b"{\"pattern\":")?;
        self.string(pattern)?;
        self.why(why)
    }

    // Writes why a rule does not hold, behind its pattern, and the end.
    fn why(&mut self, why: Why) -> Result<(), NoMemory>
        ensures before { self.new.before ≡ self.old.before }
        ensures text { OnOk result (self.new.text ≡ self.old.text ++ members_text true (why_members why)) }
    {
        match why {
            Why::No => self.piece(b",\"why\":\"false\"}"),
            Why::Erred => self.piece(b",\"why\":\"error\"}"),
        }
    }
}
