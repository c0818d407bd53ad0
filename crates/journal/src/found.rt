//! A whole group at a place of a file, if one stands there.
ghost use Rattle.std.specs.Prelude.{◌≡◌, ◌+◌, ◌<◌, ◌≤◌, ◌^◌, ◌++◌, ◌∷◌, [], ℕ, List, length, take, drop, IfOk, IfErr, IfSome, IfNone, IsErrOf, IsTrue, ◌⊎◌};
ghost use Rattle.journal.specs.Format.{digits, Link, Group, Fits, header, sum_of};
ghost use Rattle.journal.specs.Found.{header_line, HaveDigits, AreSmall, StandsAt, NothingStandsAt, OnlyReads};

use crate::limits::{
    DURABLE_DIGITS, FRONT_BYTES, HEADER_BYTES, LENGTH_DIGITS, MAX_FILE_BYTES, MAX_GROUP_BYTES,
    NUMBER_DIGITS,
};
use crate::recovery::RecoverError;
use crate::text::{front_of_header, number_in, same, sum};
use disk::Disk;
use std::alloc::{AllocError, Global};

/// The numbers of a header.
#[derive(Clone, Copy)]
pub(crate) struct Numbers {
    pub number: u64,
    pub len: usize,
    pub durable: usize,
}

/// The numbers whose digits stand in a header's line.
fn numbers_in(line: &[u8]) -> Option<Numbers>
    requires { length line.now ≡ 185 }
    ensures some { IfSome result (λ numbers. HaveDigits line.now numbers.number numbers.len numbers.durable) }
    ensures small { IfSome result AreSmall }
    ensures none { IfNone result ((number len durable : ℕ) → HaveDigits line.now number len durable → ⊥) }
{
    let number = number_in(&line[17..17 + NUMBER_DIGITS])?;
    let len = number_in(&line[30..30 + LENGTH_DIGITS])?;
    let durable = number_in(&line[39..39 + DURABLE_DIGITS])?;
    Some(Numbers {
        number,
        len: len as usize,
        durable: durable as usize,
    })
}

/// A header that was read: its numbers, its front and the sum before.
#[derive(Drop)]
struct Header {
    numbers: Numbers,
    front: Vec<u8>,
    before: [u8; 64],
}

/// The header of a line, if it is one of this file's.
fn header_in(alloc: Global, identifier: &[u8], line: &[u8]) -> Result<Option<Header>, AllocError>
    requires identifier { length identifier.now ≡ 16 }
    requires line { length line.now ≡ 185 }
    ensures front { IfOk result (λ found. IfSome found (λ it. it.front.items ≡ header (record { identifier = identifier.now; number = it.numbers.number; before = it.before; place = 0 }) it.numbers.len it.numbers.durable)) }
    ensures line { IfOk result (λ found. IfSome found (λ it. line.now ≡ it.front.items ++ (take 64 (drop 120 line.now) ++ 10 ∷ []))) }
    ensures small { IfOk result (λ found. IfSome found (λ it. AreSmall it.numbers × (it.numbers.len ≤ MAX_GROUP_BYTES))) }
    ensures digits { IfOk result (λ found. IfSome found (λ it. HaveDigits line.now it.numbers.number it.numbers.len it.numbers.durable)) }
    ensures before { IfOk result (λ found. IfSome found (λ it. it.before ≡ take 64 (drop 55 line.now))) }
    ensures none { IfOk result (λ found. IfNone found ((link : Link) (group : Group) → link.identifier ≡ identifier.now → length link.before ≡ 64 → Fits link group → line.now ≡ header_line link group → ⊥)) }
{
    let Some(numbers) = numbers_in(line) else {
        return Ok(None);
    };
    let mut before = [0; 64];
    before.copy_from_slice(&line[55..119]);
    let read = &line[0..FRONT_BYTES];
    let front = front_of_header(
        alloc,
        identifier,
        numbers.number,
        &before,
        numbers.len,
        numbers.durable,
    )?;
    if numbers.len > MAX_GROUP_BYTES {
        return Ok(None);
    }
    if !same(read, &front) {
        return Ok(None);
    }
    if line[184] != b'\n' {
        return Ok(None);
    }
    Ok(Some(Header {
        numbers,
        front,
        before,
    }))
}

/// A whole group that was found.
#[derive(Drop)]
pub(crate) struct Found {
    pub number: u64,
    pub before: [u8; 64],
    pub durable: usize,
    pub sum: [u8; 64],
    pub text: Vec<u8>,
}

/// The whole group of this file that stands at a place.
pub(crate) fn group_at<D: Disk>(
    alloc: Global,
    disk: &mut D,
    identifier: &[u8],
    at: usize,
    len: usize,
) -> Result<Option<Found>, RecoverError>
    requires place { at ≤ len }
    requires identifier { length identifier.now ≡ 16 }
    ensures found { (file : List ℕ) → D.holds disk.old file → length file ≡ len → IfOk result (λ found. IfSome found (StandsAt identifier.now file at)) }
    ensures none { (file : List ℕ) → D.holds disk.old file → length file ≡ len → IfOk result (λ found. IfNone found (NothingStandsAt identifier.now file at)) }
    ensures within { IfOk result (λ found. IfSome found (λ it. at + 185 + length it.text.items ≤ len)) }
    ensures reads { OnlyReads D.holds D.may_leave D.moment D.left_since disk.old disk.new }
    ensures failed { IsErrOf result RecoverError.Failed → IsTrue (D.has_failed disk.new) }
    ensures others { IfErr result (λ error. (error ≡ RecoverError.NoMemory) ⊎ (error ≡ RecoverError.Failed)) }
{
    if at >= MAX_FILE_BYTES {
        return Ok(None);
    }
    if len - at < HEADER_BYTES {
        return Ok(None);
    }
    let mut line = [0; HEADER_BYTES];
    disk.read_at(at, &mut line)?;
    let Some(header) = header_in(alloc, identifier, &line)? else {
        return Ok(None);
    };
    if header.numbers.durable > at {
        return Ok(None);
    }
    if header.numbers.len > len - at - HEADER_BYTES {
        return Ok(None);
    }
    let mut text = vec![in alloc; 0u8; header.numbers.len]?;
    disk.read_at(at + HEADER_BYTES, &mut text)?;
    let sum = sum(&header.front, &text);
    if !same(&line[FRONT_BYTES..184], &sum) {
        return Ok(None);
    }
    Ok(Some(Found {
        number: header.numbers.number,
        before: header.before,
        durable: header.numbers.durable,
        sum,
        text,
    }))
}
