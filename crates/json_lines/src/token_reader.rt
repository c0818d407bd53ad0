//! The tokens of a message. Those that are plain, as most are, are read by a few comparisons each; from the first on
//! that is not, the kit's reader goes on.
ghost use Rattle.std.specs.Prelude.{◌≡◌, ◌∷◌, [], true, Some, IfSome, IsSome, option_map};
ghost use Rattle.json.specs.Json.{read_key};
ghost use Rattle.json.specs.Lex.{tokens};
ghost use Rattle.json.specs.Reads.{token_of};
ghost use Rattle.json_lines.specs.MemberName.{name_text};

use crate::member_name::MemberName;
use crate::plain_tokens::PlainTokens;
use json::{Reader, Scratch, Token};
use std::marker::Model;

/// Returns the tokens of a text one after another, and fails only if a token is invalid or memory runs out. Contracts
/// see the tokens that are still to come.
#[derive(Drop)]
pub(crate) struct TokenReader<'a> {
    plain: PlainTokens<'a>,
    // Who reads since the first token that was not plain, and what that one may use until then.
    reader: Option<Reader<'a>>,
    scratch: Option<&'a mut Scratch>,
}

impl<'a> Model for TokenReader<'a> {
    ghost use Rattle.std.specs.Prelude.{List};
    ghost use Rattle.json.specs.Token.{Token as SpecToken, tokens_code};
    ghost use Rattle.json_lines.specs.Tokens.{tokens_left};

    ghost Value = { List SpecToken };

    ghost coded = { tokens_code };

    ghost view = { λ a. tokens_left a.reader a.plain };
}

impl<'a> TokenReader<'a> {
    /// A reader of a text. It takes no memory.
    pub fn new(text: &'a str, scratch: &'a mut Scratch) -> TokenReader<'a>
        ensures { result ≡ tokens text.now }
    {
        TokenReader {
            plain: PlainTokens::of(text),
            reader: None,
            scratch: Some(scratch),
        }
    }

    /// A key, or None inside at the brace that closes an object.
    #[inline(always)]
    pub fn next_key(&mut self) -> Option<Option<&'a str>>
        ensures { IfSome result (λ key. read_key self.old ≡ Some (option_map (λ text. text.now) key, self.new)) }
    {
        if self.reader.is_none()
            && let Some(key) = self.plain.next_key()
        {
            return Some(key);
        }
        self.key_of_reader()
    }

    /// The name of a member of a message, or None inside at the brace that closes an object.
    #[inline(always)]
    pub fn next_name(&mut self) -> Option<Option<MemberName>>
        ensures { IfSome result (λ name. read_key self.old ≡ Some (option_map name_text name, self.new)) }
    {
        if self.reader.is_none()
            && let Some(name) = self.plain.next_name()
        {
            return Some(name);
        }
        self.name_of_reader()
    }

    /// A token where a value may begin.
    #[inline(always)]
    pub fn next(&mut self) -> Option<Token<'a>>
        ensures { IfSome result (λ token. self.old ≡ token_of token ∷ self.new) }
    {
        if self.reader.is_none()
            && let Some(token) = self.plain.next_value()
        {
            return Some(token);
        }
        self.token_of_reader()
    }

    /// Whether it is known that no token is left.
    pub fn is_at_end(&mut self) -> bool
        ensures { result ≡ true → self.old ≡ [] }
    {
        match &mut self.reader {
            Some(reader) => reader.next().is_none(),
            None => self.plain.is_at_end(),
        }
    }

    // The same from the kit's reader. It stays a function of its own, as the next two do, since in most messages each
    // token is plain, and room for the reader's way would be made and cleared at each.
    #[inline(never)]
    fn key_of_reader(&mut self) -> Option<Option<&'a str>>
        ensures { IfSome result (λ key. read_key self.old ≡ Some (option_map (λ text. text.now) key, self.new)) }
    {
        self.go_on()?;
        self.reader.as_mut()?.next_key().ok()
    }

    #[inline(never)]
    fn name_of_reader(&mut self) -> Option<Option<MemberName>>
        ensures { IfSome result (λ name. read_key self.old ≡ Some (option_map name_text name, self.new)) }
    {
        match self.key_of_reader()? {
            Some(text) => Some(Some(MemberName::of(text)?)),
            None => Some(None),
        }
    }

    #[inline(never)]
    fn token_of_reader(&mut self) -> Option<Token<'a>>
        ensures { IfSome result (λ token. self.old ≡ token_of token ∷ self.new) }
    {
        self.go_on()?;
        self.reader.as_mut()?.next()
    }

    // Has the kit's reader go on from here, unless it does already.
    fn go_on(&mut self) -> Option<()>
        ensures { IsSome result → self.new ≡ self.old }
    {
        if self.reader.is_none() {
            let text = self.plain.text()?;
            self.reader = Some(Reader::new(text, self.scratch.take()?).ok()?);
        }
        Some(())
    }
}
