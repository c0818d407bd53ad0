//! The names that members of messages have.
ghost use Rattle.std.specs.Prelude.{◌≡◌, ◌≢◌, IfSome, IfNone};
ghost use Rattle.json_lines.specs.MemberName.{name_text, IsNamed, IsBegun};

/// The name of a member of a message.
#[derive(Clone, Copy, Debug, PartialEq, Eq)]
pub enum MemberName {
    Do,
    Now,
    Session,
    Path,
    Query,
    Value,
    Values,
    Id,
    Token,
    Rules,
}

impl MemberName {
    /// The name that has this text.
    pub fn of(text: &str) -> Option<MemberName>
        ensures some { IfSome result (λ name. name_text name ≡ text.now) }
        ensures none { IfNone result ((name : MemberName) → name_text name ≢ text.now) }
    {
        match text.as_bytes() {
            b"do" => Some(MemberName::Do),
            b"now" => Some(MemberName::Now),
            b"s" => Some(MemberName::Session),
            b"path" => Some(MemberName::Path),
            b"query" => Some(MemberName::Query),
            b"value" => Some(MemberName::Value),
            b"values" => Some(MemberName::Values),
            b"id" => Some(MemberName::Id),
            b"token" => Some(MemberName::Token),
            b"rules" => Some(MemberName::Rules),
            _ => None,
        }
    }

    /// The name whose text comes first, in quotes and with a colon behind it, and what follows.
    #[inline(always)]
    pub(crate) fn in_front(text: &str) -> Option<(MemberName, &str)>
        ensures { IfSome result (λ parts. IsNamed text.now parts.0 parts.1.now) }
    {
        let (name, length) = MemberName::begun(text.as_bytes())?;
        Some((name, text.split_at(length).1))
    }

    // The same, and how many bytes it takes.
    #[inline(always)]
    fn begun(bytes: &[u8]) -> Option<(MemberName, usize)>
        ensures { IfSome result (λ parts. IsBegun bytes.now parts.0 parts.1) }
    {
        match bytes {
            [b'"', b'd', b'o', b'"', b':', ..] => Some((MemberName::Do, 5)),
            [b'"', b'n', b'o', b'w', b'"', b':', ..] => Some((MemberName::Now, 6)),
            [b'"', b's', b'"', b':', ..] => Some((MemberName::Session, 4)),
            [b'"', b'p', b'a', b't', b'h', b'"', b':', ..] => Some((MemberName::Path, 7)),
            [b'"', b'q', b'u', b'e', b'r', b'y', b'"', b':', ..] => Some((MemberName::Query, 8)),
            [b'"', b'v', b'a', b'l', b'u', b'e', b'"', b':', ..] => Some((MemberName::Value, 8)),
            [b'"', b'v', b'a', b'l', b'u', b'e', b's', b'"', b':', ..] => Some((
                MemberName::Values,
                9,
            )),
            [b'"', b'i', b'd', b'"', b':', ..] => Some((MemberName::Id, 5)),
            [b'"', b't', b'o', b'k', b'e', b'n', b'"', b':', ..] => Some((MemberName::Token, 8)),
            [b'"', b'r', b'u', b'l', b'e', b's', b'"', b':', ..] => Some((MemberName::Rules, 8)),
            _ => None,
        }
    }

    /// Its text.
    pub fn text(self) -> &'static str
        ensures { result.now ≡ name_text self }
    {
        match self {
            MemberName::Do => "do",
            MemberName::Now => "now",
            MemberName::Session => "s",
            MemberName::Path => "path",
            MemberName::Query => "query",
            MemberName::Value => "value",
            MemberName::Values => "values",
            MemberName::Id => "id",
            MemberName::Token => "token",
            MemberName::Rules => "rules",
        }
    }
}
