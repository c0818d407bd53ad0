//! What is recovered of a file, whatever a crash made of it.
ghost use Rattle.std.specs.Prelude.{◌≡◌, ◌+◌, ◌<◌, ◌≤◌, ◌++◌, ◌∷◌, [], ℕ, List, Bool, true, false, length, take, drop, slice_index, IfOk, IfErr, OnOk, IfSome, IfNone, IsErrOf, IsTrue, ◌⊎◌};
ghost use Rattle.disk.specs.Disk.{Just, StaysSo, AtAnyMoment};
ghost use Rattle.journal.specs.declared.recovery.RecoverError.TheVariants.{NoMemory, Failed};
ghost use Rattle.journal.specs.Format.{Group, first_line};
ghost use Rattle.journal.specs.Recovery.{Begins, IsFileOf, SaysMore};
ghost use Rattle.journal.specs.Found.{OnlyReads};
ghost use Rattle.journal.specs.Recovering.{IsRecovered, HasStopped, RecoversTheSame, ReadSoFar, IsNext, HasNoNext, HandedOver, PlaceSaysMore, IsNamedRightly};

use crate::chain::{Chain, opening_of};
use crate::found::group_at;
use crate::hand_over::{HandOverFault, Sink, hand_over};
use crate::limits::{FIRST_LINE_BYTES, HEADER_BYTES};
use crate::text::same;
use disk::Disk;
use std::alloc::{AllocError, AllocFailed, Global};

/// Why a file is not recovered. Of a file that is refused nothing was changed.
#[derive(Clone, Copy, Debug, PartialEq, Eq)]
pub enum RecoverError {
    NoMemory,
    /// The disk has failed.
    Failed,
    /// The sink wants no more.
    Stopped,
    /// The file does not begin with the first line of a journal.
    NotAJournal,
    /// The group with this number, `at` bytes into the file, is not as it was written, and no crash explains that:
    /// behind it stands a whole group which says that this one was on the disk.
    Damaged { group: u64, at: usize },
    /// The group with this number is whole, and its text is none of entries.
    NoEntries { group: u64 },
}

impl From<AllocError> for RecoverError {
    ghost from_gives = { λ _ error. error ≡ NoMemory };

    fn from(_: AllocError) -> RecoverError {
        RecoverError::NoMemory
    }
}

impl<T: Drop> From<AllocFailed<T>> for RecoverError {
    ghost from_gives = { λ _ error. error ≡ NoMemory };

    fn from(_: AllocFailed<T>) -> RecoverError {
        RecoverError::NoMemory
    }
}

impl From<disk::Failed> for RecoverError {
    ghost from_gives = { λ _ error. error ≡ Failed };

    fn from(_: disk::Failed) -> RecoverError {
        RecoverError::Failed
    }
}

/// Hands over the entries of a file that a crash may have left: those of all groups that were stored, and of the whole
/// ones behind them. Then it cuts off what is behind those. It may crash at any moment itself.
pub fn recover<D: Disk, S: Sink>(
    alloc: Global,
    disk: &mut D,
    sink: &mut S,
) -> Result<Chain, RecoverError>
    // After a restart a read returns what is on the disk.
    ensures recovered { (file : List ℕ) → D.holds disk.old file → Just file (D.may_leave disk.old)
        → IfOk result (λ chain. IsRecovered D.holds D.may_leave S.taken file disk.new chain sink.old sink.new) }

    // A crash at any moment leaves a file of which the same is recovered.
    ensures any_moment { (file : List ℕ) → D.holds disk.old file → Just file (D.may_leave disk.old)
        → AtAnyMoment D.moment D.left_since disk.old disk.new (RecoversTheSame file) }

    // A file is refused as damaged only where a whole group shows that it is, and for a text that is none of entries
    // only where a group has such a text. Whatever the error, but for a failure of the disk, the file is left as it is.
    ensures named { (file : List ℕ) → D.holds disk.old file → IfErr result (IsNamedRightly file) }
    ensures left { IfErr result (λ error. (error ≡ RecoverError.Failed → ⊥) → OnlyReads D.holds D.may_leave D.moment D.left_since disk.old disk.new) }
    ensures no_journal { (file : List ℕ) → D.holds disk.old file → IsErrOf result RecoverError.NotAJournal → (identifier : List ℕ) → length identifier ≡ 16 → Begins (first_line identifier) file → ⊥ }
    ensures failed { IsErrOf result RecoverError.Failed → IsTrue (D.has_failed disk.new) }
    ensures stopped { (file : List ℕ) → D.holds disk.old file → IsErrOf result RecoverError.Stopped → HasStopped S.taken S.refused file sink.old sink.new }
{
    let len = disk.len()?;
    let mut chain = opened(alloc, disk, len)?;
    walk(alloc, disk, &mut chain, len, sink)?;
    if chain.len < len {
        if says_more(alloc, disk, &chain, len)? {
            return Err(RecoverError::Damaged {
                group: chain.number,
                at: chain.len,
            });
        }
        disk.cut(chain.len)?;
        disk.sync()?;
    }
    chain.durable = chain.len;
    Ok(chain)
}

/// The chain of a file's first line.
fn opened<D: Disk>(alloc: Global, disk: &mut D, len: usize) -> Result<Chain, RecoverError>
    ensures opened { (file : List ℕ) → D.holds disk.old file → length file ≡ len → IfOk result (λ chain. ReadSoFar file chain []) }
    ensures within { IfOk result (λ chain. chain.len ≤ len) }
    ensures no_journal { (file : List ℕ) → D.holds disk.old file → length file ≡ len → IsErrOf result RecoverError.NotAJournal → (identifier : List ℕ) → length identifier ≡ 16 → Begins (first_line identifier) file → ⊥ }
    ensures reads { OnlyReads D.holds D.may_leave D.moment D.left_since disk.old disk.new }
    ensures failed { IsErrOf result RecoverError.Failed → IsTrue (D.has_failed disk.new) }
    ensures others { IfErr result (λ error. (error ≡ RecoverError.NoMemory) ⊎ (error ≡ RecoverError.Failed) ⊎ (error ≡ RecoverError.NotAJournal)) }
{
    if len < FIRST_LINE_BYTES {
        return Err(RecoverError::NotAJournal);
    }
    let mut line = [0; FIRST_LINE_BYTES];
    disk.read_at(0, &mut line)?;
    let mut identifier = [0; 16];
    identifier.copy_from_slice(&line[15..31]);
    let opening = opening_of(alloc, identifier)?;
    if !same(&line, &opening.line) {
        return Err(RecoverError::NotAJournal);
    }
    Ok(opening.chain)
}

/// Hands over the groups of a file, one after another, up to the first that is not whole.
fn walk<D: Disk, S: Sink>(
    alloc: Global,
    disk: &mut D,
    chain: &mut Chain,
    len: usize,
    sink: &mut S,
) -> Result<(), RecoverError>
    requires { chain.old.len ≤ len }
    ensures walked { (file : List ℕ) → D.holds disk.old file → length file ≡ len → ReadSoFar file chain.old [] → OnOk result (HandedOver S.taken file chain.new sink.old sink.new × HasNoNext file chain.new) }
    ensures within { chain.new.len ≤ len }
    ensures reads { OnlyReads D.holds D.may_leave D.moment D.left_since disk.old disk.new }
    ensures failed { IsErrOf result RecoverError.Failed → IsTrue (D.has_failed disk.new) }
    ensures named { (file : List ℕ) → D.holds disk.old file → length file ≡ len → ReadSoFar file chain.old [] → IfErr result (IsNamedRightly file) }
    ensures stopped { (file : List ℕ) → D.holds disk.old file → length file ≡ len → ReadSoFar file chain.old [] → IsErrOf result RecoverError.Stopped → HasStopped S.taken S.refused file sink.old sink.new }
    ensures a_journal { IsErrOf result RecoverError.NotAJournal → ⊥ }
{
    'groups: while let Some((behind, text)) = next_group(alloc, disk, chain, len)? {
        match hand_over(&text, sink) {
            Ok(()) => *chain = behind,
            Err(HandOverFault::Stopped) => return Err(RecoverError::Stopped),
            Err(HandOverFault::NoEntry) => {
                return Err(RecoverError::NoEntries {
                    group: chain.number,
                });
            }
        }
    }
    Ok(())
}

/// The text of the next group, and the chain behind it.
fn next_group<D: Disk>(
    alloc: Global,
    disk: &mut D,
    chain: &Chain,
    len: usize,
) -> Result<Option<(Chain, Vec<u8>)>, RecoverError>
    requires { chain.now.len ≤ len }
    ensures next { (file : List ℕ) → D.holds disk.old file → length file ≡ len → IfOk result (λ found. IfSome found (λ it. IsNext file chain.now it.0 it.1.items)) }
    ensures none { (file : List ℕ) → D.holds disk.old file → length file ≡ len → IfOk result (λ found. IfNone found (HasNoNext file chain.now)) }
    ensures within { IfOk result (λ found. IfSome found (λ it. (chain.now.len < it.0.len) × (it.0.len ≤ len))) }
    ensures reads { OnlyReads D.holds D.may_leave D.moment D.left_since disk.old disk.new }
    ensures failed { IsErrOf result RecoverError.Failed → IsTrue (D.has_failed disk.new) }
    ensures others { IfErr result (λ error. (error ≡ RecoverError.NoMemory) ⊎ (error ≡ RecoverError.Failed)) }
{
    let Some(found) = group_at(alloc, disk, &chain.identifier, chain.len, len)? else {
        return Ok(None);
    };
    if found.number != chain.number {
        return Ok(None);
    }
    if !same(&found.before, &chain.before) {
        return Ok(None);
    }
    let behind = Chain {
        identifier: chain.identifier,
        number: chain.number.saturating_add(1),
        before: found.sum,
        len: chain.len + HEADER_BYTES + found.text.len(),
        durable: chain.durable,
    };
    Ok(Some((behind, found.text)))
}

/// How many bytes are searched at a time.
const PIECE_BYTES: usize = 1 << 16;

/// Somewhere behind the chain stands a whole group that says that more was durable.
fn says_more<D: Disk>(
    alloc: Global,
    disk: &mut D,
    chain: &Chain,
    len: usize,
) -> Result<bool, RecoverError>
    requires { chain.now.len ≤ len }
    ensures some { (file : List ℕ) → D.holds disk.old file → length file ≡ len → IfOk result (λ says. says ≡ true → (place : ℕ) × (chain.now.len ≤ place) × PlaceSaysMore file chain.now place) }
    ensures none { (file : List ℕ) → D.holds disk.old file → length file ≡ len → IfOk result (λ says. says ≡ false → (place : ℕ) → chain.now.len ≤ place → PlaceSaysMore file chain.now place → ⊥) }
    ensures reads { OnlyReads D.holds D.may_leave D.moment D.left_since disk.old disk.new }
    ensures failed { IsErrOf result RecoverError.Failed → IsTrue (D.has_failed disk.new) }
    ensures others { IfErr result (λ error. (error ≡ RecoverError.NoMemory) ⊎ (error ≡ RecoverError.Failed)) }
{
    let mut at = chain.len;
    'pieces: while at < len {
        let mut piece = vec![in alloc; 0u8; PIECE_BYTES.min(len - at)]?;
        disk.read_at(at, &mut piece)?;
        if piece_says_more(alloc, disk, chain, at, &piece, len)? {
            return Ok(true);
        }
        at += piece.len();
    }
    Ok(false)
}

/// The same, of the groups that begin in a piece.
fn piece_says_more<D: Disk>(
    alloc: Global,
    disk: &mut D,
    chain: &Chain,
    at: usize,
    piece: &[u8],
    len: usize,
) -> Result<bool, RecoverError>
    requires { at + length piece.now ≤ len }
    ensures some { (file : List ℕ) → D.holds disk.old file → length file ≡ len → IfOk result (λ says. says ≡ true → (place : ℕ) × (at ≤ place) × PlaceSaysMore file chain.now place) }
    ensures none { (file : List ℕ) → D.holds disk.old file → length file ≡ len → piece.now ≡ take (length piece.now) (drop at file) → IfOk result (λ says. says ≡ false → (place : ℕ) → at ≤ place → place < at + length piece.now → PlaceSaysMore file chain.now place → ⊥) }
    ensures reads { OnlyReads D.holds D.may_leave D.moment D.left_since disk.old disk.new }
    ensures failed { IsErrOf result RecoverError.Failed → IsTrue (D.has_failed disk.new) }
    ensures others { IfErr result (λ error. (error ≡ RecoverError.NoMemory) ⊎ (error ≡ RecoverError.Failed)) }
{
    'places: for (i, byte) in piece.iter().enumerate() {
        if place_says_more(alloc, disk, chain, *byte, at + i, len)? {
            return Ok(true);
        }
    }
    Ok(false)
}

/// The same, of one that begins at a place, where this byte stands.
fn place_says_more<D: Disk>(
    alloc: Global,
    disk: &mut D,
    chain: &Chain,
    byte: u8,
    at: usize,
    len: usize,
) -> Result<bool, RecoverError>
    requires { at ≤ len }
    ensures some { (file : List ℕ) → D.holds disk.old file → length file ≡ len → IfOk result (λ says. says ≡ true → PlaceSaysMore file chain.now at) }
    ensures none { (file : List ℕ) → D.holds disk.old file → length file ≡ len → byte ≡ slice_index file at → IfOk result (λ says. says ≡ false → PlaceSaysMore file chain.now at → ⊥) }
    ensures reads { OnlyReads D.holds D.may_leave D.moment D.left_since disk.old disk.new }
    ensures failed { IsErrOf result RecoverError.Failed → IsTrue (D.has_failed disk.new) }
    ensures others { IfErr result (λ error. (error ≡ RecoverError.NoMemory) ⊎ (error ≡ RecoverError.Failed)) }
{
    if byte != chain.identifier[0] {
        return Ok(false);
    }
    match group_at(alloc, disk, &chain.identifier, at, len)? {
        Some(found) => Ok(found.durable > chain.len),
        None => Ok(false),
    }
}
