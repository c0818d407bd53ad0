//! Tokens that are plain: texts without an escape, whole numbers, literals, and braces.
ghost use Rattle.std.specs.Prelude.{◌≡◌, ◌↔◌, ◌∷◌, [], true, false, Some, None, IfSome, IfNone, option_map};
ghost use Rattle.json.specs.Json.{read_key};
ghost use Rattle.json.specs.Lex.{tokens};
ghost use Rattle.json.specs.Reads.{token_of};
ghost use Rattle.json_lines.specs.MemberName.{name_text};
ghost use Rattle.json_lines.specs.Tokens.{MayBegin, MayClose};

use crate::member_name::MemberName;
use crate::plain_scalars::plain_scalar;
use crate::plain_text::{past_blanks, past_first, quoted};
use json::Token;
use std::marker::Model;

/// Where a text stands among the commas and values around it.
#[derive(Clone, Copy, Debug, Drop)]
pub(crate) enum TokenPlace {
    /// Where a text begins, after a brace that opens, and after a colon.
    Fresh,
    AfterValue,
    AfterComma,
}

impl TokenPlace {
    // Whether a key or a value may begin there.
    fn may_begin(self) -> bool
        ensures { result ≡ true ↔ MayBegin self }
    {
        match self {
            TokenPlace::Fresh | TokenPlace::AfterComma => true,
            TokenPlace::AfterValue => false,
        }
    }

    // Whether an object may end there.
    fn may_close(self) -> bool
        ensures { result ≡ true ↔ MayClose self }
    {
        match self {
            TokenPlace::Fresh | TokenPlace::AfterValue => true,
            TokenPlace::AfterComma => false,
        }
    }
}

/// What hands out the tokens of a text that are plain, up to the first that is not. Contracts see the tokens that are
/// still to come.
#[derive(Drop)]
pub(crate) struct PlainTokens<'a> {
    rest: &'a str,
    place: TokenPlace,
}

impl<'a> Model for PlainTokens<'a> {
    ghost use Rattle.std.specs.Prelude.{List};
    ghost use Rattle.json.specs.Token.{Token as SpecToken, tokens_code};
    ghost use Rattle.json_lines.specs.Tokens.{tokens_at};

    ghost Value = { List SpecToken };

    ghost coded = { tokens_code };

    ghost view = { λ plain. tokens_at plain.place plain.rest.now };
}

impl<'a> PlainTokens<'a> {
    /// The tokens of a text.
    pub fn of(text: &'a str) -> PlainTokens<'a>
        ensures { result ≡ tokens text.now }
    {
        PlainTokens {
            rest: text,
            place: TokenPlace::Fresh,
        }
    }

    /// A key that is plain and has its colon behind it, or None inside at the brace that closes an object. None where
    /// another token comes, and then all are still to come.
    #[inline(always)]
    pub fn next_key(&mut self) -> Option<Option<&'a str>>
        ensures some { IfSome result (λ key. read_key self.old ≡ Some (option_map (λ text. text.now) key, self.new)) }
        ensures none { IfNone result (self.new ≡ self.old) }
    {
        self.pass_comma();
        if self.close() {
            return Some(None);
        }
        let [b'"', ..] = self.rest.as_bytes() else {
            return None;
        };
        if !self.place.may_begin() {
            return None;
        }
        let (text, behind) = quoted(self.rest)?;
        let [b':', ..] = behind.as_bytes() else {
            return None;
        };
        self.rest = past_first(behind);
        self.place = TokenPlace::Fresh;
        Some(Some(text))
    }

    /// The same where the key is the name of a member of a message.
    #[inline(always)]
    pub fn next_name(&mut self) -> Option<Option<MemberName>>
        ensures some { IfSome result (λ name. read_key self.old ≡ Some (option_map name_text name, self.new)) }
        ensures none { IfNone result (self.new ≡ self.old) }
    {
        self.pass_comma();
        if self.close() {
            return Some(None);
        }
        if !self.place.may_begin() {
            return None;
        }
        let (name, behind) = MemberName::in_front(self.rest)?;
        self.rest = behind;
        self.place = TokenPlace::Fresh;
        Some(Some(name))
    }

    /// A plain value that is no object, where it ends behind it, or the brace that opens an object. None where another
    /// token comes, and then all are still to come.
    #[inline(always)]
    pub fn next_value(&mut self) -> Option<Token<'a>>
        ensures some { IfSome result (λ token. self.old ≡ token_of token ∷ self.new) }
        ensures none { IfNone result (self.new ≡ self.old) }
    {
        let TokenPlace::Fresh = self.place else {
            return None;
        };
        let rest = past_blanks(self.rest);
        if let [b'{', ..] = rest.as_bytes() {
            self.rest = past_first(rest);
            return Some(Token::BeginObject);
        }
        let (token, behind) = plain_scalar(rest)?;
        self.rest = behind;
        self.place = TokenPlace::AfterValue;
        Some(token)
    }

    /// Whether it is known that no token is left.
    pub fn is_at_end(&self) -> bool
        ensures { result ≡ true → self.now ≡ [] }
    {
        match self.place {
            TokenPlace::AfterValue => past_blanks(self.rest).is_empty(),
            _ => false,
        }
    }

    /// A text that has the tokens that are still to come, if it is known that one has.
    pub fn text(&self) -> Option<&'a str>
        ensures { IfSome result (λ text. tokens text.now ≡ self.now) }
    {
        match self.place {
            TokenPlace::Fresh => Some(self.rest),
            TokenPlace::AfterComma => match self.rest.as_bytes() {
                [b'"', ..] => Some(self.rest),
                _ => None,
            },
            TokenPlace::AfterValue => None,
        }
    }

    // Passes what may stand before a key: blanks, and a comma after a value.
    #[inline(always)]
    fn pass_comma(&mut self)
        ensures { self.new ≡ self.old }
    {
        self.rest = past_blanks(self.rest);
        if let TokenPlace::AfterValue = self.place
            && let [b',', ..] = self.rest.as_bytes()
        {
            self.rest = past_blanks(past_first(self.rest));
            self.place = TokenPlace::AfterComma;
        }
    }

    // Passes the brace that closes an object, if it comes where one may.
    #[inline(always)]
    fn close(&mut self) -> bool
        ensures closed { result ≡ true → read_key self.old ≡ Some (None, self.new) }
        ensures same { result ≡ false → self.new ≡ self.old }
    {
        let [b'}', ..] = self.rest.as_bytes() else {
            return false;
        };
        if !self.place.may_close() {
            return false;
        }
        self.rest = past_first(self.rest);
        self.place = TokenPlace::AfterValue;
        true
    }
}
