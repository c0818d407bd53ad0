//! The texts of a file: numbers, entries, headers and sums.
ghost use Rattle.std.specs.Prelude.{◌≡◌, ◌+◌, ◌<◌, ◌≤◌, ◌++◌, ◌^◌, ℕ, List, length, map, IfOk, OnOk, IfSome, IfNone, IsErrOf, ◌∷◌, [], true, false};
ghost use Rattle.hex.specs.Hex.{encode_lower};
ghost use Rattle.sha2.specs.Sha512.{sha512_256};
ghost use Rattle.journal.specs.Format.{digits, entry_text, entries_text, header, title};

use crate::chain::JournalError;
use crate::limits::{DURABLE_DIGITS, LENGTH_DIGITS, MAX_GROUP_BYTES, NUMBER_DIGITS};
use sha2::{Digest, Sha512_256};
use std::alloc::{AllocError, Global};

/// Writes a number at the end of a text, in so many digits.
pub(crate) fn push_digits(text: &mut Vec<u8>, width: usize, number: u64) -> Result<(), AllocError>
    ensures { OnOk result (text.new.items ≡ text.old.items ++ digits width number) }
{
    if width == 0 {
        return Ok(());
    }
    push_digits(text, width - 1, number / 10)?;
    text.push(b'0' + (number % 10) as u8)?;
    Ok(())
}

/// Writes an entry at the end of a text.
fn push_entry(text: &mut Vec<u8>, entry: &[u8]) -> Result<(), AllocError>
    ensures { OnOk result (text.new.items ≡ text.old.items ++ entry_text entry.now) }
{
    push_digits(text, LENGTH_DIGITS, entry.len() as u64)?;
    text.push(b' ')?;
    text.extend_from_slice(entry)?;
    text.push(b'\n')?;
    Ok(())
}

/// The text of entries, which fits into a group.
pub(crate) fn text_of_entries(alloc: Global, entries: &[Vec<u8>]) -> Result<Vec<u8>, JournalError>
    ensures text { IfOk result (λ text. text.items ≡ entries_text (map (λ entry. entry.items) entries.now)) }
    ensures fits { IfOk result (λ text. length text.items ≤ MAX_GROUP_BYTES) }
    ensures too_long { IsErrOf result JournalError.TooLong → MAX_GROUP_BYTES < length (entries_text (map (λ entry. entry.items) entries.now)) }
    ensures not_full { IsErrOf result JournalError.Full → ⊥ }
    ensures not_failed { IsErrOf result JournalError.Failed → ⊥ }
{
    let mut text = Vec::new(alloc);
    for entry in entries {
        push_entry(&mut text, entry.as_slice())?;
        if text.len() > MAX_GROUP_BYTES {
            return Err(JournalError::TooLong);
        }
    }
    Ok(text)
}

/// Writes a number and a space at the end of a text.
fn push_number(text: &mut Vec<u8>, width: usize, number: u64) -> Result<(), AllocError>
    ensures { OnOk result (text.new.items ≡ text.old.items ++ (digits width number ++ 32 ∷ [])) }
{
    push_digits(text, width, number)?;
    text.push(b' ')?;
    Ok(())
}

/// The front of a header.
pub(crate) fn front_of_header(
    alloc: Global,
    identifier: &[u8],
    number: u64,
    before: &[u8],
    len: usize,
    durable: usize,
) -> Result<Vec<u8>, AllocError>
    ensures { IfOk result (λ front. front.items ≡ header (record { identifier = identifier.now; number = number; before = before.now; place = 0 }) len durable) }
{
    let mut front = Vec::new(alloc);
    front.extend_from_slice(identifier)?;
    front.push(b' ')?;
    push_number(&mut front, NUMBER_DIGITS, number)?;
    push_number(&mut front, LENGTH_DIGITS, len as u64)?;
    push_number(&mut front, DURABLE_DIGITS, durable as u64)?;
    front.extend_from_slice(before)?;
    front.push(b' ')?;
    Ok(front)
}

/// The sum of a header's front and a text.
pub(crate) fn sum(front: &[u8], text: &[u8]) -> [u8; 64]
    ensures { result ≡ encode_lower (sha512_256 (front.now ++ text.now)) }
{
    let mut hasher = Sha512_256::new();
    hasher.update(front);
    hasher.update(text);
    let digest = hasher.finalize();
    let mut sum = [0; 64];
    hex::encode_to_slice(digest.as_slice(), &mut sum).unwrap();
    sum
}

/// The number of these digits.
pub(crate) fn number_in(text: &[u8]) -> Option<u64>
    requires { length text.now ≤ 15 }
    ensures number { IfSome result (λ number. digits (length text.now) number ≡ text.now) }
    ensures small { IfSome result (λ number. number < 10 ^ length text.now) }
    ensures none { IfNone result ((number : ℕ) → text.now ≡ digits (length text.now) number → ⊥) }
{
    let mut number = 0u64;
    for digit in text {
        if *digit < b'0' || *digit > b'9' {
            return None;
        }
        number = number * 10 + u64::from(*digit - b'0');
    }
    Some(number)
}

/// Two texts are the same.
pub(crate) fn same(one: &[u8], other: &[u8]) -> bool
    ensures same { result ≡ true → one.now ≡ other.now }
    ensures apart { result ≡ false → one.now ≡ other.now → ⊥ }
{
    one == other
}

/// The front of a file's first line.
pub(crate) fn title_of(alloc: Global, identifier: &[u8]) -> Result<Vec<u8>, AllocError>
    ensures { IfOk result (λ title_text. title_text.items ≡ title identifier.now) }
{
    let mut title = b"rtdb journal 1 ".to_vec(alloc)?;
    title.extend_from_slice(identifier)?;
    title.push(b' ')?;
    Ok(title)
}
