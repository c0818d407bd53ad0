//! Answers, each written behind others.
ghost use Rattle.std.specs.Prelude.{◌≡◌, ◌++◌, [], true, option_map, OnOk};
ghost use Rattle.std.specs.List.{list_all};
ghost use Rattle.json.specs.Print.{quoted};
ghost use Rattle.serde_json.specs.Written.{compact_text, comma_if};
ghost use Rattle.json_tree.specs.Json.{value_of};
ghost use Rattle.path_capture.specs.Write.{tree_or_null};
ghost use Rattle.answers.specs.AnswerText.{plain_data, closed_data};
ghost use Rattle.json_lines.specs.Tokens.{is_plain};

use crate::closing::put_closed;
use crate::code::Code;
use crate::refusal::put_plain;
use arena_snapshot::{View, write_view};
use json::Writer;
use json_lines::plain_run;
use json_tree::{NoMemory, Node, write_json};
use std::alloc::Global;
use std::marker::Model;
use std::mem::replace;

// How many bytes of room for values are kept, 64 KiB.
const KEPT_ROOM: usize = 65_536;

/// What writes answers, one after another, each behind bytes that stand before it, such as earlier answers, and
/// that stay as they are. Where memory is wanted, a front of the answer may have been written. Contracts see what
/// stands before the answer, and its text so far.
#[derive(Drop)]
pub struct AnswerWriter {
    alloc: Global,
    bytes: Vec<u8>,
    // How many bytes stand before the answer.
    start: usize,
    // Where values are written, and copied from: the kit's writer fills what comes next with zeros, the more the more
    // stands before it.
    room: Vec<u8>,
}

impl Model for AnswerWriter {
    ghost use Rattle.std.specs.Prelude.{◌≤◌, drop, length, take};
    ghost use Rattle.answers.specs.AnswerSoFar.{AnswerSoFar, answer_code};

    ghost Value = { AnswerSoFar };

    ghost coded = { answer_code };

    ghost view = { λ writer. record { before = take writer.start writer.bytes.items; text = drop writer.start writer.bytes.items } };

    ghost invariant = { λ writer. writer.start ≤ length writer.bytes.items };
}

impl AnswerWriter {
    /// A writer of an answer that nothing stands before. It takes no memory.
    pub fn new(alloc: Global) -> AnswerWriter
        ensures before { result.before ≡ [] }
        ensures text { result.text ≡ [] }
    {
        AnswerWriter {
            alloc,
            bytes: Vec::new(alloc),
            start: 0,
            room: Vec::new(alloc),
        }
    }

    /// Begins an answer behind these bytes, in place of all that stands there.
    pub fn begin(&mut self, bytes: Vec<u8>)
        ensures before { self.new.before ≡ bytes.items }
        ensures text { self.new.text ≡ [] }
    {
        self.start = bytes.len();
        self.bytes = bytes;
    }

    /// Hands out what stands before the answer, and its text behind it. Of the memory that values took 64 KiB are
    /// kept.
    pub fn end(&mut self) -> Vec<u8>
        ensures all { result.items ≡ self.old.before ++ self.old.text }
        ensures before { self.new.before ≡ [] }
        ensures text { self.new.text ≡ [] }
    {
        self.start = 0;
        self.room.shrink_to(KEPT_ROOM);
        replace(&mut self.bytes, Vec::new(self.alloc))
    }

    /// Takes back what is written of the answer.
    pub fn clear(&mut self)
        ensures before { self.new.before ≡ self.old.before }
        ensures text { self.new.text ≡ [] }
    {
        self.bytes.truncate(self.start);
    }

    /// The allocator that it keeps.
    pub(crate) fn alloc(&self) -> Global {
        self.alloc
    }

    /// Writes these bytes.
    pub(crate) fn piece(&mut self, piece: &[u8]) -> Result<(), NoMemory>
        ensures before { self.new.before ≡ self.old.before }
        ensures text { OnOk result (self.new.text ≡ self.old.text ++ piece.now) }
    {
        self.bytes.extend_from_slice(piece)?;
        Ok(())
    }

    /// Writes what stands before an item of a list.
    pub(crate) fn comma(&mut self, is_later: bool) -> Result<(), NoMemory>
        ensures before { self.new.before ≡ self.old.before }
        ensures text { OnOk result (self.new.text ≡ self.old.text ++ comma_if is_later) }
    {
        self.piece(if is_later { b"," } else { b"" })
    }

    /// Writes a text as JSON has it.
    pub(crate) fn string(&mut self, text: &str) -> Result<(), NoMemory>
        ensures before { self.new.before ≡ self.old.before }
        ensures text { OnOk result (self.new.text ≡ self.old.text ++ quoted text.now) }
    {
        if plain_run(text.as_bytes()) == text.len() {
            self.plain_string(text)
        } else {
            self.escaped_string(text)
        }
    }

    // Writes a text that has nothing to be escaped.
    fn plain_string(&mut self, text: &str) -> Result<(), NoMemory>
        requires { list_all is_plain text.now ≡ true }
        ensures before { self.new.before ≡ self.old.before }
        ensures text { OnOk result (self.new.text ≡ self.old.text ++ quoted text.now) }
    {
        self.piece(b"\"")?;
        self.piece(text.as_bytes())?;
        self.piece(b"\"")
    }

    // Writes any text: by itself first, into kept room.
    fn escaped_string(&mut self, text: &str) -> Result<(), NoMemory>
        ensures before { self.new.before ≡ self.old.before }
        ensures text { OnOk result (self.new.text ≡ self.old.text ++ quoted text.now) }
    {
        let mut out = Writer::new(self.lend_room());
        out.string(text)?;
        self.put_written(out.into_inner())?;
        Ok(())
    }

    /// Writes the value of a tree, null for None, in two passes over it.
    pub(crate) fn tree(&mut self, tree: Option<&Node>) -> Result<(), NoMemory>
        ensures before { self.new.before ≡ self.old.before }
        ensures text { OnOk result (self.new.text ≡ self.old.text ++ compact_text (value_of (tree_or_null (option_map (λ node. node.now) tree.entry)))) }
    {
        let text = write_json(self.lend_room(), tree)?;
        self.put_written(text)?;
        Ok(())
    }

    /// Writes the value of the tree that a view shows, null for None.
    pub(crate) fn view(&mut self, view: Option<&View>) -> Result<(), NoMemory>
        ensures before { self.new.before ≡ self.old.before }
        ensures text { OnOk result (self.new.text ≡ self.old.text ++ compact_text (value_of (tree_or_null (option_map (λ view. view.now) view.entry)))) }
    {
        let text = write_view(self.lend_room(), view)?;
        self.put_written(text)?;
        Ok(())
    }

    /// Writes a refusal with no further member.
    pub(crate) fn plain(&mut self, code: Code) -> Result<(), NoMemory>
        ensures before { self.new.before ≡ self.old.before }
        ensures text { OnOk result (self.new.text ≡ self.old.text ++ compact_text (plain_data code)) }
    {
        let mut out = Writer::new(self.lend_room());
        put_plain(&mut out, code)?;
        self.put_written(out.into_inner())?;
        Ok(())
    }

    /// Writes that a session was closed, and how many actions were left.
    pub(crate) fn closed(&mut self, left: u64) -> Result<(), NoMemory>
        ensures before { self.new.before ≡ self.old.before }
        ensures text { OnOk result (self.new.text ≡ self.old.text ++ compact_text (closed_data left)) }
    {
        let mut out = Writer::new(self.lend_room());
        put_closed(&mut out, left)?;
        self.put_written(out.into_inner())?;
        Ok(())
    }

    // Room for a value by itself, in memory that is kept from value to value.
    fn lend_room(&mut self) -> Vec<u8>
        ensures same { self.new ≡ self.old }
        ensures none { result.items ≡ [] }
    {
        let mut room = replace(&mut self.room, Vec::new(self.alloc));
        room.clear();
        room
    }

    // Writes what was written there, whose memory is kept.
    fn put_written(&mut self, text: Vec<u8>) -> Result<(), NoMemory>
        ensures before { self.new.before ≡ self.old.before }
        ensures text { OnOk result (self.new.text ≡ self.old.text ++ text.items) }
    {
        self.room = text;
        self.bytes.extend_from_slice(&self.room)?;
        Ok(())
    }
}
