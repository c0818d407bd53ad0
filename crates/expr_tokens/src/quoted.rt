//! A quoted text, as it is written.
ghost use Rattle.std.specs.Prelude.{◌≡◌, ℕ, List, Some, IfOk, IsSome, string_bytes};
ghost use Rattle.expr_tokens.specs.Quoted.{meaning, said, escaped, escape_at, meant_behind};
ghost use Rattle.expr_tokens.specs.Working.Scanning.{IsRun, is_plain};

use crate::escape::escape;
use crate::text::Text;
use std::alloc::{AllocError, Global};
use std::marker::Model;

/// A text between its quotes, as it is written, borrowed from the text of an expression. Contracts
/// see the bytes of the text that it means, its escapes resolved.
#[derive(Debug, Drop)]
pub struct Quoted<'a> {
    // With its quotes.
    written: &'a str,
}

impl<'a> Model for Quoted<'a> {
    ghost use Rattle.std.specs.Prelude.{ℕ, List, IsSome};

    ghost Value = { List ℕ };

    ghost use Rattle.expr_tokens.specs.Quoted.{meaning, said};

    ghost view = { λ quoted. said quoted.written.now };

    ghost invariant = { λ quoted. IsSome (meaning quoted.written.now) };
}

impl<'a> Quoted<'a> {
    /// The text that it means, its escapes resolved, in memory of its own. It takes one growth, by
    /// the bytes that are written, which are never fewer than those that are meant.
    pub fn text(&self, alloc: Global) -> Result<Text, AllocError>
        ensures { IfOk result (λ text. text ≡ self.now) }
    {
        Ok(Text::of_string(resolved(alloc, self.written)?))
    }

    // The text that is written so.
    pub(crate) fn of_written(written: &'a str) -> Quoted<'a>
        requires { IsSome (meaning written.now) }
        ensures { meaning written.now ≡ Some result }
    {
        Quoted { written }
    }
}

// What a text means that is written so, with its quotes.
fn resolved(alloc: Global, written: &str) -> Result<String, AllocError>
    requires { IsSome (meaning written.now) }
    ensures { IfOk result (λ text. string_bytes text ≡ said written.now) }
{
    let quote = written.as_bytes()[0];
    let mut text = String::with_capacity(alloc, written.len())?;
    let mut rest = written.split_at(1).1;
    loop {
        let (plain, behind) = rest.split_at(plain_run(quote, rest.as_bytes()));
        text.push_str(plain)?;
        let bytes = behind.as_bytes();
        if bytes[0] == quote {
            return Ok(text);
        }
        let (character, after) = escape(&bytes[1..]).unwrap();
        text.push(character)?;
        rest = behind.split_at(behind.len() - after.len()).1;
    }
}

/// An escape means within a text what it means alone: so the meaning of a text, and a fault at an
/// escape, speak of the same escapes.
pub fn one_meaning_of_escapes()
    ensures { (quote : ℕ) (behind : List ℕ) → escaped quote behind ≡ meant_behind quote (escape_at behind) }
{}

// How many bytes come first that are neither the quote nor a backslash.
fn plain_run(quote: u8, bytes: &[u8]) -> usize
    ensures { IsRun (is_plain quote) bytes.now result }
{
    let mut n = 0;
    while n < bytes.len() && bytes[n] != quote && bytes[n] != b'\\' {
        n += 1;
    }
    n
}
