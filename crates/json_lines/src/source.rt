//! Where the members of a message are read: in its outline, or in the value that its bytes are.
//!
//! A message is an [`Outline`], of which each member owns what is [`Said`], or one JSON value ([`Message`]).
//! [`Source`] is either, borrowed; [`MemberValue`] a member of either; [`Object`] a member that is an object.
ghost use Rattle.std.specs.Prelude.{◌≡◌, option_map, option_and_then, unwrap_or};
ghost use Rattle.serde_json.specs.Data.{null, no_members};
ghost use Rattle.serde_json.specs.Find.{get, as_str, as_number, as_u64, as_object};
ghost use Rattle.path_capture.specs.Write.{draft_or_null};
ghost use Rattle.json_lines.specs.Lines.{Tells, draft_of_value, writes_below};
ghost use Rattle.json_lines.specs.MemberName.{name_text};
ghost use Rattle.json_lines.specs.Outline.{part_data, object_data, source_data, message_data};

use crate::draft_members::DraftMembers;
use crate::fault::MessageFault;
use crate::member_name::MemberName;
use crate::outline::{Member, MemberValue, Outline, Said, part_at};
use crate::writes::{draft_of, draft_of_value, writes_below};
use json_tree::Draft;
use path_capture::{Path, Write};
use serde_json::Value;
use std::alloc::Global;

/// A message that was read: its outline, or the value that its bytes are.
#[derive(Drop)]
pub enum Message<'a> {
    Outlined(Outline<'a>),
    Held(Value),
}

impl<'a> Message<'a> {
    /// Where its members are read.
    pub fn source(&self) -> Source<'_>
        ensures { source_data result ≡ message_data self.now }
    {
        match self {
            Message::Outlined(outline) => Source::Outline(outline.members()),
            Message::Held(value) => Source::Held(value),
        }
    }

    /// The draft of a member, which is taken out of an outline; null where none has the name.
    pub fn take_draft(
        &mut self,
        alloc: Global,
        name: MemberName,
    ) -> Result<Option<Draft>, MessageFault>
        ensures { Tells draft_or_null result (draft_of_value (unwrap_or (get (name_text name) (message_data self.old)) null)) }
    {
        match self {
            Message::Outlined(outline) => draft_of(alloc, outline.take(name).unwrap_or_default()),
            Message::Held(value) => match value.get(name.text()) {
                Some(member) => draft_of_value(alloc, member),
                None => draft_of_value(alloc, &Value::Null),
            },
        }
    }

    /// The writes of an update below a path, of which the members of a member are those, taken out of an
    /// outline; none where it is no object.
    pub fn take_writes(
        &mut self,
        alloc: Global,
        name: MemberName,
        path: &Path,
    ) -> Result<Vec<Write>, MessageFault>
        ensures { Tells (λ writes. writes.items) result
            (writes_below path.now (unwrap_or (option_and_then as_object (get (name_text name) (message_data self.old))) no_members)) }
    {
        match self {
            Message::Outlined(outline) => match outline.take(name) {
                Some(Said::Drafts(named)) => named.into_writes(alloc, path),
                _ => Ok(Vec::new(alloc)),
            },
            Message::Held(value) => match value.get(name.text()).and_then(Value::as_object) {
                Some(members) => writes_below(alloc, path, members),
                None => Ok(Vec::new(alloc)),
            },
        }
    }
}

/// Where the members of a message are read.
#[derive(Clone, Copy)]
pub enum Source<'a> {
    Outline(&'a [Member<'a>]),
    Held(&'a Value),
}

/// An object, borrowed.
#[derive(Clone, Copy)]
pub enum Object<'a> {
    Drafts(&'a DraftMembers<'a>),
    Held(&'a Value),
}

impl<'a> Source<'a> {
    /// The member of this name, the last one where several have it.
    pub fn get(self, name: MemberName) -> Option<MemberValue<'a>>
        ensures { option_map part_data result ≡ get (name_text name) (source_data self.entry) }
    {
        match self {
            Source::Outline(members) => part_at(members, name),
            Source::Held(value) => Some(MemberValue::Held(value.get(name.text())?)),
        }
    }

    /// The member of this name, if it is a text.
    pub fn text_at(self, name: MemberName) -> Option<&'a str>
        ensures { option_map (λ text. text.now) result ≡ option_and_then as_str (get (name_text name) (source_data self.entry)) }
    {
        self.get(name)?.as_str()
    }
}

impl<'a> MemberValue<'a> {
    /// The text that it is.
    pub fn as_str(self) -> Option<&'a str>
        ensures { option_map (λ text. text.now) result ≡ as_str (part_data self.entry) }
    {
        match self {
            MemberValue::Words(text) => Some(text),
            MemberValue::Held(value) => value.as_str(),
            MemberValue::Null
            | MemberValue::Truth(_)
            | MemberValue::Whole(_)
            | MemberValue::Negative(_)
            | MemberValue::Drafts(_) => None,
        }
    }

    /// The whole number from 0 to 2^64 - 1 that it is.
    pub fn as_u64(self) -> Option<u64>
        ensures { result ≡ option_and_then as_u64 (as_number (part_data self.entry)) }
    {
        match self {
            MemberValue::Whole(whole) => Some(whole),
            MemberValue::Negative(negative) => Value::from(negative).as_u64(),
            MemberValue::Held(value) => value.as_u64(),
            MemberValue::Null
            | MemberValue::Truth(_)
            | MemberValue::Words(_)
            | MemberValue::Drafts(_) => None,
        }
    }

    /// It, if it is an object.
    pub fn object(self) -> Option<Object<'a>>
        ensures { option_map object_data result ≡ option_map (λ members. part_data self.entry) (as_object (part_data self.entry)) }
    {
        match self {
            MemberValue::Drafts(named) => Some(Object::Drafts(named)),
            MemberValue::Held(value) => if value.is_object() {
                Some(Object::Held(value))
            } else {
                None
            },
            MemberValue::Null
            | MemberValue::Truth(_)
            | MemberValue::Whole(_)
            | MemberValue::Negative(_)
            | MemberValue::Words(_) => None,
        }
    }
}
