//! The outline of a message: its members, read in one pass. Their names and texts are borrowed from the
//! line, and only drafts take memory.
ghost use Rattle.std.specs.Prelude.{◌≡◌, ◌≤◌, Some, Ok, IfSome, IsSome, length, option_map};
ghost use Rattle.json.specs.Reads.{token_of};
ghost use Rattle.serde_json.specs.Data.{no_members, object};
ghost use Rattle.serde_json.specs.Find.{get_member};
ghost use Rattle.serde_json.specs.Read.{read};
ghost use Rattle.json_lines.specs.MemberName.{name_text};
ghost use Rattle.json_lines.specs.Lines.{value_of};
ghost use Rattle.json_lines.specs.Outline.{said_data, part_data, message_data, put_all, IsRead, Gives};
ghost use Rattle.json_lines.specs.declared.limits.TheConstants.{MAX_MESSAGE_BYTES};
ghost use Rattle.json_lines.specs.declared.source.Message.{Message};

use crate::draft_members::DraftMembers;
use crate::limits::MAX_MESSAGE_BYTES;
use crate::member_name::MemberName;
use crate::nested::{named_from, negative_of, whole_of};
use crate::token_reader::TokenReader;
use bumpalo::Bump;
use json::{Scratch, Token};
use serde_json::Value;
use std::alloc::Global;

// For how many members an outline has room at first: more than any lawful message has.
const FIRST_MEMBERS: usize = 8;

// How deep a member may nest: one level less than a message.
const MAX_MEMBER_LEVELS: usize = 126;

/// What a member of an outline is.
#[derive(Default, Drop)]
pub(crate) enum Said<'a> {
    #[default]
    Null,
    Truth(bool),
    /// A whole number from 0 to 2^64 - 1.
    Whole(u64),
    /// A whole number below 0.
    Negative(i64),
    Words(&'a str),
    /// An object of drafts.
    Drafts(DraftMembers<'a>),
}

/// What a member of a message is, borrowed.
#[derive(Clone, Copy)]
pub enum MemberValue<'a> {
    Null,
    Truth(bool),
    /// A whole number from 0 to 2^64 - 1.
    Whole(u64),
    /// A whole number below 0.
    Negative(i64),
    Words(&'a str),
    /// An object of drafts.
    Drafts(&'a DraftMembers<'a>),
    /// Any value.
    Held(&'a Value),
}

impl Said<'_> {
    fn part(&self) -> MemberValue<'_>
        ensures { part_data result ≡ said_data self.now }
    {
        match self {
            Said::Null => MemberValue::Null,
            Said::Truth(truth) => MemberValue::Truth(*truth),
            Said::Whole(whole) => MemberValue::Whole(*whole),
            Said::Negative(negative) => MemberValue::Negative(*negative),
            Said::Words(text) => MemberValue::Words(text),
            Said::Drafts(named) => MemberValue::Drafts(named),
        }
    }
}

/// A member of an outline.
#[derive(Drop)]
pub struct Member<'a> {
    pub name: MemberName,
    said: Said<'a>,
}

/// The members of a message, in the order in which they stand.
#[derive(Drop)]
pub struct Outline<'a> {
    members: Vec<Member<'a>, &'a Bump>,
}

impl<'a> Outline<'a> {
    /// The outline of a text, whose list of members takes a place in the arena. None where it is no object,
    /// and where one of its members has a name that is no [`MemberName`], is no value, is an array, a number
    /// that is not whole or an object that [`named_from`] leaves, or wants memory.
    pub(crate) fn read(
        alloc: Global,
        arena: &'a Bump,
        text: &'a str,
        scratch: &'a mut Scratch,
    ) -> Option<Outline<'a>>
        ensures { IfSome result (λ outline. read text.now ≡ Some (object (put_all outline.members.items no_members))) }
    {
        let mut reader = TokenReader::new(text, scratch);
        let Some(Token::BeginObject) = reader.next() else {
            return None;
        };
        let members = read_members(alloc, arena, &mut reader)?;
        if !reader.is_at_end() {
            return None;
        }
        Some(Outline { members })
    }

    /// The members.
    pub(crate) fn members(&self) -> &[Member<'a>]
        ensures { result.now ≡ self.now.members.items }
    {
        self.members.as_slice()
    }

    /// Takes out what the last member of this name is: a look at each. Those behind it go too.
    pub(crate) fn take(&mut self, name: MemberName) -> Option<Said<'a>>
        ensures { option_map said_data result ≡ get_member (name_text name) (put_all self.old.members.items no_members) }
    {
        'members: while let Some(member) = self.members.pop() {
            if member.name == name {
                return Some(member.said);
            }
        }
        None
    }
}

fn read_members<'a>(
    alloc: Global,
    arena: &'a Bump,
    reader: &mut TokenReader<'a>,
) -> Option<Vec<Member<'a>, &'a Bump>>
    ensures { IfSome result (λ members. Gives MAX_MEMBER_LEVELS reader.old (put_all members.items no_members) reader.new) }
{
    let mut members = Vec::with_capacity(arena, FIRST_MEMBERS).ok()?;
    'members: while let Some(name) = reader.next_name()? {
        let token = reader.next()?;
        let said = said_from(alloc, reader, token)?;
        members.push(Member { name, said }).ok()?;
    }
    Some(members)
}

// What begins with a token and goes on in the reader.
fn said_from<'a>(alloc: Global, reader: &mut TokenReader<'a>, token: Token<'a>) -> Option<Said<'a>>
    ensures value { IfSome result (λ said. IsRead MAX_MEMBER_LEVELS (token_of token.entry) reader.old (said_data said) reader.new) }
    ensures shorter { IfSome result (λ said. length reader.new ≤ length reader.old) }
{
    match token {
        Token::String(text) => Some(Said::Words(text)),
        Token::Number(text) => match whole_of(text) {
            Some(whole) => Some(Said::Whole(whole)),
            None => Some(Said::Negative(negative_of(text)?)),
        },
        Token::Bool(truth) => Some(Said::Truth(truth)),
        Token::Null => Some(Said::Null),
        Token::BeginObject => {
            let named = named_from(alloc, reader, MAX_MEMBER_LEVELS - 1)?;
            Some(Said::Drafts(named))
        }
        _ => None,
    }
}

/// What the last member of this name is: a look at each from the last one on, up to it.
pub(crate) fn part_at<'a>(members: &'a [Member<'a>], name: MemberName) -> Option<MemberValue<'a>>
    ensures { option_map part_data result ≡ get_member (name_text name) (put_all members.now no_members) }
{
    let mut left = members.len();
    'members: while left > 0 {
        left -= 1;
        let member = &members[left];
        if member.name == name {
            return Some(member.said.part());
        }
    }
    None
}

/// The outline of a message that is not too large, by one pass over its bytes. None where that leads to no members:
/// since it is no message, has what only the reader of JSON reads, or wants memory.
pub fn outline_of<'a>(
    alloc: Global,
    arena: &'a Bump,
    scratch: &'a mut Scratch,
    bytes: &'a [u8],
) -> Option<Outline<'a>>
    ensures value { IfSome result (λ outline. value_of bytes.now ≡ Ok (message_data (Message.Outlined outline))) }
    ensures fits { IsSome result → length bytes.now ≤ MAX_MESSAGE_BYTES }
{
    if bytes.len() > MAX_MESSAGE_BYTES {
        return None;
    }
    let text = simdutf8::compat::from_utf8(bytes).ok()?;
    Outline::read(alloc, arena, text, scratch)
}
