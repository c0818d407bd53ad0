//! Numbers at the front of a text, in decimal digits.
ghost use Rattle.std.specs.Prelude.{◌≡◌, ◌<◌, ◌^◌, ◌++◌, ◌∷◌, [], ℕ, List, decimal, OnOk, IfSome, IfNone};
ghost use Rattle.entries.specs.Entry.{numbered};

use itoa::Buffer;
use json_tree::NoMemory;
use memchr::memchr;
use std::str;

/// Writes a number and a space behind a text.
pub(crate) fn push_number(text: &mut Vec<u8>, number: u64) -> Result<(), NoMemory>
    ensures { OnOk result (text.new.items ≡ text.old.items ++ numbered number []) }
{
    let mut buffer = Buffer::new();
    text.extend_from_slice(buffer.format(number).as_bytes())?;
    text.push(b' ')?;
    Ok(())
}

/// The number at the front of a text, and what stands behind the space after it. It takes no memory.
pub(crate) fn number_before(text: &[u8]) -> Option<(u64, &[u8])>
    ensures some { IfSome result (λ parts. text.now ≡ numbered parts.0 parts.1.now) }
    ensures fits { IfSome result (λ parts. parts.0 < 2 ^ 64) }
    ensures none { IfNone result ((n : ℕ) (rest : List ℕ) → n < 2 ^ 64 → text.now ≡ numbered n rest → ⊥) }
{
    let end = memchr(b' ', text)?;
    let (digits, behind) = text.split_at(end);
    let number = number_of(digits)?;
    Some((number, behind.split_at(1).1))
}

// The number that has these decimal digits.
fn number_of(digits: &[u8]) -> Option<u64>
    ensures some { IfSome result (λ n. digits.now ≡ decimal n) }
    ensures none { IfNone result ((n : ℕ) → n < 2 ^ 64 → digits.now ≡ decimal n → ⊥) }
{
    let number = parsed(digits)?;
    let mut buffer = Buffer::new();
    // Zeros before the number, and a plus, are parsed too.
    if buffer.format(number).as_bytes() == digits {
        Some(number)
    } else {
        None
    }
}

fn parsed(digits: &[u8]) -> Option<u64>
    ensures { (n : ℕ) → n < 2 ^ 64 → digits.now ≡ decimal n → result ≡ Some n }
{
    let Ok(text) = str::from_utf8(digits) else {
        return None;
    };
    text.parse::<u64>().ok()
}
