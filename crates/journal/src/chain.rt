//! Where the next group goes, and what ties it to those before it.
ghost use Rattle.std.specs.Prelude.{◌≡◌, ◌⊎◌, ◌+◌, ◌<◌, ◌≤◌, ◌++◌, ◌^◌, ℕ, List, length, map, IfOk, OnOk, IsErrOf, true, false};
ghost use Rattle.journal.specs.Format.{Fits, group_text, next, entries_text, opening, first_line};
ghost use Rattle.journal.specs.Keeping.{link_of, group_of};
ghost use Rattle.journal.specs.declared.chain.JournalError.TheVariants.{NoMemory, Failed};

use crate::limits::{FIRST_LINE_BYTES, MAX_FILE_BYTES, MAX_GROUP_BYTES, MAX_GROUPS};
use crate::text::{front_of_header, sum, text_of_entries, title_of};
use std::alloc::{AllocError, AllocFailed, Global};

/// Why a group is not written.
#[derive(Clone, Copy, Debug, PartialEq, Eq)]
pub enum JournalError {
    /// Memory is wanting, and nothing has changed.
    NoMemory,
    /// The entries take more than [`crate::MAX_GROUP_BYTES`], and nothing has changed.
    TooLong,
    /// The file has no room for another group, and nothing has changed.
    Full,
    /// The disk has failed, in this call or before it. Nothing is written from then on: open the file again.
    Failed,
}

impl From<AllocError> for JournalError {
    ghost from_gives = { λ _ error. error ≡ NoMemory };

    fn from(_: AllocError) -> JournalError {
        JournalError::NoMemory
    }
}

impl<T: Drop> From<AllocFailed<T>> for JournalError {
    ghost from_gives = { λ _ error. error ≡ NoMemory };

    fn from(_: AllocFailed<T>) -> JournalError {
        JournalError::NoMemory
    }
}

impl From<disk::Failed> for JournalError {
    ghost from_gives = { λ _ error. error ≡ Failed };

    fn from(_: disk::Failed) -> JournalError {
        JournalError::Failed
    }
}

/// The end of a file, as whoever writes the next group knows it.
#[derive(Clone, Copy, Debug, PartialEq, Eq)]
pub struct Chain {
    pub(crate) identifier: [u8; 16],
    pub(crate) number: u64,
    pub(crate) before: [u8; 64],
    pub(crate) len: usize,
    pub(crate) durable: usize,
}

/// The first line of a file, and the chain behind it.
#[derive(Drop)]
pub(crate) struct Opening {
    pub line: Vec<u8>,
    pub chain: Chain,
}

/// The first line of a file with this identifier.
pub(crate) fn opening_of(alloc: Global, identifier: [u8; 16]) -> Result<Opening, AllocError>
    ensures line { IfOk result (λ it. it.line.items ≡ first_line identifier) }
    ensures link { IfOk result (λ it. link_of it.chain ≡ opening identifier) }
    ensures durable { IfOk result (λ it. it.chain.durable ≡ 97) }
    ensures sized { length identifier ≡ 16 }
{
    let mut line = title_of(alloc, &identifier)?;
    let before = sum(&line, &[]);
    line.extend_from_slice(&before)?;
    line.push(b'\n')?;
    let chain = Chain {
        identifier,
        number: 1,
        before,
        len: FIRST_LINE_BYTES,
        durable: FIRST_LINE_BYTES,
    };
    Ok(Opening { line, chain })
}

/// The bytes of a group, and the chain behind it.
#[derive(Drop)]
pub(crate) struct NewGroup {
    pub bytes: Vec<u8>,
    pub chain: Chain,
}

/// The next group, of these entries.
pub(crate) fn compose(
    alloc: Global,
    chain: &Chain,
    entries: &[Vec<u8>],
) -> Result<NewGroup, JournalError>
    ensures bytes { IfOk result (λ group. group.bytes.items ≡ group_text (link_of chain.now) (group_of chain.now.durable entries.now)) }
    ensures fits { OnOk result (Fits (link_of chain.now) (group_of chain.now.durable entries.now)) }
    ensures link { IfOk result (λ group. link_of group.chain ≡ next (link_of chain.now) (group_of chain.now.durable entries.now)) }
    ensures len { IfOk result (λ group. group.chain.len ≡ chain.now.len + length group.bytes.items) }
    ensures durable { IfOk result (λ group. group.chain.durable ≡ chain.now.durable) }
    ensures identifier { IfOk result (λ group. group.chain.identifier ≡ chain.now.identifier) }
    ensures too_long { IsErrOf result JournalError.TooLong → MAX_GROUP_BYTES < length (entries_text (map (λ entry. entry.items) entries.now)) }
    ensures full { IsErrOf result JournalError.Full → (MAX_GROUPS ≤ chain.now.number) ⊎ (MAX_FILE_BYTES ≤ chain.now.len) ⊎ (chain.now.len < chain.now.durable) }
    ensures not_failed { IsErrOf result JournalError.Failed → ⊥ }
{
    let text = text_of_entries(alloc, entries)?;
    if !has_room(chain) {
        return Err(JournalError::Full);
    }
    let mut bytes = front_of_header(
        alloc,
        &chain.identifier,
        chain.number,
        &chain.before,
        text.len(),
        chain.durable,
    )?;
    let sum = sum(&bytes, &text);
    bytes.extend_from_slice(&sum)?;
    bytes.push(b'\n')?;
    bytes.extend_from_slice(&text)?;
    let chain = Chain {
        identifier: chain.identifier,
        number: chain.number + 1,
        before: sum,
        len: chain.len + bytes.len(),
        durable: chain.durable,
    };
    Ok(NewGroup { bytes, chain })
}

/// A file has room for another group.
fn has_room(chain: &Chain) -> bool
    ensures room { result ≡ true → (chain.now.number < MAX_GROUPS) × (chain.now.len < MAX_FILE_BYTES) × (chain.now.durable ≤ chain.now.len) }
    ensures full { result ≡ false → (MAX_GROUPS ≤ chain.now.number) ⊎ (MAX_FILE_BYTES ≤ chain.now.len) ⊎ (chain.now.len < chain.now.durable) }
{
    chain.number < MAX_GROUPS && chain.len < MAX_FILE_BYTES && chain.durable <= chain.len
}
